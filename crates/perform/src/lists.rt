//! The calls of a script on the list that was set last.
ghost use Rattle.std.specs.Prelude.{◌≡◌, MatchResult};
ghost use Rattle.perform.specs.declared.answer.Answer.TheVariants as answer;

use crate::answer::Answer;
use crate::script::{ListCall, Request};
use crate::stop::Stop;
use boxlist::{BoxList, BoxRecord, Kind, Store};
use faults::Fault;
use measure::Measurer;
use packer::Laid;
use std::alloc::Global;
use table::table::Table;
use table::work::{Spread, Workspace};

// What a record holds before it is written.
const BLANK: BoxRecord = BoxRecord {
    kind: Kind::Rule,
    x: 0,
    y: 0,
    width: 0,
    height: 0,
    depth: 0,
    store: Store::Preamble,
    place: 0,
    len: 0,
};

// A list that was set, with its boxes.
#[derive(Drop)]
struct Kept {
    width: i64,
    height: i64,
    boxes: Vec<BoxRecord>,
}

impl Kept {
    // Of the records that were lent, those that were written.
    fn new(laid: Laid, mut records: Vec<BoxRecord>) -> Kept {
        records.truncate(laid.boxes);
        Kept {
            width: laid.width,
            height: laid.height,
            boxes: records,
        }
    }

    fn list(&self) -> BoxList<'_> {
        BoxList {
            width: self.width,
            height: self.height,
            boxes: self.boxes.as_slice(),
        }
    }
}

// Of a fetch.
fn fetched<'a, E>(outcome: Result<&'a [u8], Fault>) -> Answer<'a, E>
    ensures { MatchResult outcome.entry (λ bytes. result ≡ answer.Bytes bytes) (λ fault. result ≡ answer.Refused fault) }
{
    match outcome {
        Ok(bytes) => Answer::Bytes(bytes),
        Err(fault) => Answer::Refused(fault),
    }
}

// What the host lends to these calls, and keeps of them.
#[derive(Drop)]
pub struct Lists {
    spread: Spread,
    // the list of the last accepted set
    last: Option<Kept>,
    // the bytes lent to the last write
    bytes: Vec<u8>,
}

impl Lists {
    pub(crate) fn new(heap: Global) -> Lists {
        Lists {
            spread: Spread::new(),
            last: None,
            bytes: Vec::new(heap),
        }
    }

    // Sets the table, and keeps its list. A refused set leaves the one before.
    fn set<M: Measurer>(
        &mut self,
        heap: Global,
        table: &Table<M>,
        work: &mut Workspace<M::Extent>,
        request: Request,
    ) -> Result<Answer<'_, M::Extent>, Stop> {
        let Request { side, aim, records } = request;
        let mut lent = vec![in heap; BLANK; records]?;
        match table.set(side, aim, work, &mut self.spread, lent.as_mut_slice()) {
            Ok(laid) => {
                let kept = self.last.insert(Kept::new(laid, lent));
                Ok(Answer::Listed(kept.list()))
            }
            Err(fault) => Ok(Answer::Refused(fault)),
        }
    }

    // Writes the list to as many bytes as are lent.
    fn write<E>(&mut self, heap: Global, count: usize) -> Result<Answer<'_, E>, Stop> {
        let Some(last) = &self.last else {
            return Ok(Answer::Misuse);
        };
        self.bytes = vec![in heap; 0; count]?;
        match boxlist::write(last.list(), self.bytes.as_mut_slice()) {
            Ok(written) => {
                self.bytes.truncate(written);
                Ok(Answer::Bytes(self.bytes.as_slice()))
            }
            Err(fault) => Ok(Answer::Refused(fault)),
        }
    }

    // The box of a number, counted from 1.
    fn numbered(&self, number: usize) -> Option<&BoxRecord> {
        let last = self.last.as_ref()?;
        last.boxes.get(number.checked_sub(1)?)
    }

    // Fetches the bytes of a box from the table's texts.
    fn fetch<'a, M: Measurer>(&self, table: &'a Table<M>, number: usize) -> Answer<'a, M::Extent> {
        match self.numbered(number) {
            Some(record) => fetched(boxlist::fetch(
                record,
                table.preamble_text(),
                table.line_text(),
            )),
            None => Answer::Misuse,
        }
    }

    // Makes a call, whatever cell is in hand.
    pub(crate) fn make<'a, M: Measurer>(
        &'a mut self,
        heap: Global,
        table: &'a Table<M>,
        work: &mut Workspace<M::Extent>,
        call: ListCall,
    ) -> Result<Answer<'a, M::Extent>, Stop> {
        match call {
            ListCall::Set(request) => self.set(heap, table, work, request),
            ListCall::Write(count) => self.write(heap, count),
            ListCall::Fetch(number) => Ok(self.fetch(table, number)),
        }
    }
}
