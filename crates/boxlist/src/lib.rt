//! The list of boxes that a raster program draws, and its bytes.
#![tactic(auto)]

ghost use Rattle.std.specs.Prelude.{◌≡◌, length};
ghost use Rattle.boxlist.specs.Spellings.{GroupsShortest, OthersLonger, ShortestEndsWell, SpellingShowsEnd, GroupsApart, SixGroups, FoldsUp, FoldsBelow, FoldsApart, FoldsOnto};
ghost use Rattle.boxlist.specs.Format.{of_list};
ghost use Rattle.boxlist.specs.Writing.{write_answer, written_over};
ghost use Rattle.boxlist.specs.Lists.{Wrote, WritableDecided, BytesTellList, ListShowsEnd, UnwrittenIdle, SixEach};
ghost use Rattle.boxlist.specs.Parts.{named_part, fetch_answer, held, Fetched};
ghost use Rattle.std.specs.Option.{option_map};

mod boxes;
mod numbers;

use faults::{Cause, Fault};

// What a box draws. A host's record may hold any number here, so that one that is neither has a variant, and is refused.
#[derive(Clone, Copy, PartialEq, Eq, Debug)]
pub enum Kind {
    // a word, number 1
    Word,
    // a \hrule across the table, number 2
    Rule,
    // neither: always refused, whatever the number
    Unlisted(i64),
}

// The text that holds a word's bytes; one that is neither is refused, as a kind is.
#[derive(Clone, Copy, PartialEq, Eq, Debug)]
pub enum Store {
    // the preamble text, number 0
    Preamble,
    // the line text, number 1
    Lines,
    // neither: always refused, whatever the number
    Unlisted(i64),
}

// A box: its left edge and its baseline (of a \hrule its lower edge), its extents, and the part of a text that a word stands in.
// Of a \hrule the store, the place and the length mean nothing and may be anything: a narrower type would ask more of hosts.
#[derive(Clone, Copy, PartialEq, Eq, Debug)]
pub struct BoxRecord {
    pub kind: Kind,
    pub x: i64,
    pub y: i64,
    pub width: i64,
    pub height: i64,
    pub depth: i64,
    pub store: Store,
    pub place: i64,
    pub len: i64,
}

// What is drawn: the width and the total height of the table, and its boxes.
#[derive(Clone, Copy, PartialEq, Eq, Debug)]
pub struct BoxList<'a> {
    pub width: i64,
    pub height: i64,
    pub boxes: &'a [BoxRecord],
}

// The bytes of a list from the front of `out` on, and how many they are. A refusal writes nothing.
pub fn write(list: BoxList<'_>, out: &mut [u8]) -> Result<usize, Fault>
    ensures answer { result ≡ of_list write_answer list.entry (length out.old) }
    ensures bytes { out.new ≡ of_list written_over list.entry out.old }
    ensures law { of_list Wrote list.entry out.old out.new result }
{
    if !list.is_writable() {
        return Err(Cause::BadBox.at(0));
    }
    let need = list.byte_count();
    if out.len() < need {
        return Err(Cause::TooLittleRoom.at(0));
    }
    list.put(out);
    Ok(need)
}

impl BoxRecord {
    // The part of one of the two texts that a word's box names.
    fn named_part<'a>(&self, preamble: &'a [u8], lines: &'a [u8]) -> Option<&'a [u8]>
        ensures { option_map (λ x. x.now) result ≡ named_part self.now preamble.now lines.now }
    {
        let text = match (self.kind, self.store) {
            (Kind::Word, Store::Preamble) => preamble,
            (Kind::Word, Store::Lines) => lines,
            _ => return None,
        };
        let place = usize::try_from(self.place).ok()?;
        let len = usize::try_from(self.len).ok()?;
        text.get(place..)?.get(..len)
    }
}

// The bytes that a word's box names, a part of one of the two texts.
pub fn fetch<'a>(rec: &BoxRecord, preamble: &'a [u8], lines: &'a [u8]) -> Result<&'a [u8], Fault>
    ensures answer { held result ≡ fetch_answer rec.now preamble.now lines.now }
    ensures law { Fetched rec.now preamble.now lines.now (held result) }
{
    rec.named_part(preamble, lines).ok_or(Cause::BadBox.at(0))
}

// Every number has one shortest spelling, the one that is written, and every spelling shows where it ends.
pub fn numbers_have_one_spelling()
    ensures shortest { GroupsShortest }
    ensures others { OthersLonger }
    ensures last { ShortestEndsWell }
    ensures ends { SpellingShowsEnd }
    ensures apart { GroupsApart }
    ensures six { SixGroups }
{}

// Signed numbers and unsigned ones are matched one to one.
pub fn signs_fold_one_to_one()
    ensures up { FoldsUp }
    ensures below { FoldsBelow }
    ensures apart { FoldsApart }
    ensures onto { FoldsOnto }
{}

// Equal bytes mean equal lists, but for what is not written of a rule.
pub fn bytes_tell_the_list()
    ensures may { WritableDecided }
    ensures tell { BytesTellList }
    ensures ends { ListShowsEnd }
    ensures idle { UnwrittenIdle }
    ensures six { SixEach }
{}
