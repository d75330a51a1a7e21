//! The items that tokens give a template.
ghost use Rattle.std.specs.Prelude.{◌≡◌, ℕ, ◌<◌, ◌≤◌, false, List, length, take, drop, ℤ, pos, if◌then◌else◌, nat_le};
ghost use Rattle.reader.specs.Reads.{WordWithin};
ghost use Rattle.lengths.specs.Lengths.{length_at};
ghost use Rattle.ledger.specs.Ledger.{Item, space, kern, hfil};
ghost use Rattle.ledger.specs.Naturals.{wide_of};
ghost use Rattle.ledger.specs.Preambles.{bare, skipping, taking, kern_taken, word_taken};
ghost use Rattle.templates.specs.Kept.{Fits, Sized, Turns};
ghost use Rattle.templates.specs.Readings.{reading_of};

use crate::memory::{Hand, Piece, Step, Templates, Word};
use extent::Extent;
use faults::{Cause, Fault};
use ledger::records::ItemRecord;
use lengths::length::length_at;
use measure::Measurer;
use std::ops::ControlFlow;

impl<E: Extent> Hand<E> {
    /// A fill has no width.
    pub(crate) fn add_fill(self, into: &mut Templates<E>, end: usize) -> Result<Step<E>, Fault>
        requires { Fits self into.old }
        ensures { (text : List ℕ) (wide : Item → ℕ → ℤ) → Sized E.count wide text → ((k : ℕ) → wide hfil k ≡ pos 0) → self.place < end → end ≤ length text → Turns E.count E.num wide text self into.old (taking (reading_of text self into.old) hfil self.place end) into.new result }
    {
        let piece = Piece {
            item: ItemRecord::Hfil,
            width: E::zero(),
            last: self.place,
            end,
        };
        self.take_item(into, piece)
    }

    /// A kern is as wide as the length behind it.
    pub(crate) fn add_kern(
        self,
        into: &mut Templates<E>,
        text: &[u8],
        end: usize,
    ) -> Result<Step<E>, Fault>
        requires { Fits self into.old }
        ensures { (wide : Item → ℕ → ℤ) → Sized E.count wide text.now → ((k : ℕ) (z : ℤ) → wide (kern z) k ≡ E.entered k z) → self.place < end → Turns E.count E.num wide text.now self into.old (kern_taken (reading_of text.now self into.old) end (length_at text.now end)) into.new result }
    {
        let length = length_at(text, end)?;
        let piece = Piece {
            item: ItemRecord::Kern(length.sp),
            width: E::enter(length.sp),
            last: end,
            end: length.end,
        };
        self.take_item(into, piece)
    }

    /// Whether nothing of the template in hand is there yet.
    fn is_bare(self) -> bool
        ensures { result ≡ (if self.marked then false else nat_le self.column.template.u 0) }
    {
        !self.marked && self.column.template.u == 0
    }

    /// A space of this width; at the start of a template it is passed over.
    pub(crate) fn add_space(
        self,
        into: &mut Templates<E>,
        blank: E,
        end: usize,
    ) -> Result<Step<E>, Fault>
        requires { Fits self into.old }
        ensures { (text : List ℕ) (wide : Item → ℕ → ℤ) → Sized E.count wide text → ((k : ℕ) → E.num blank k ≡ wide space k) → self.place < end → end ≤ length text → Turns E.count E.num wide text self into.old (if bare (reading_of text self into.old) then skipping (reading_of text self into.old) end else taking (reading_of text self into.old) space self.place end) into.new result }
    {
        if self.is_bare() {
            return Ok(ControlFlow::Continue(Hand { place: end, ..self }));
        }
        let piece = Piece {
            item: ItemRecord::Space,
            width: blank,
            last: self.place,
            end,
        };
        self.take_item(into, piece)
    }

    /// A word is measured before the part's room is looked at.
    pub(crate) fn add_word<M: Measurer<Extent = E>>(
        self,
        measurer: &M,
        into: &mut Templates<E>,
        text: &[u8],
        word: Word,
    ) -> Result<Step<E>, Fault>
        requires fits { Fits self into.old }
        requires within { WordWithin text.now self.place word.place word.len word.end }
        ensures { Turns E.count E.num (wide_of M.Measurer E.Extent measurer.now) text.now self into.old (word_taken (reading_of text.now self into.old) (M.Measurer.meaning measurer.now (take word.len (drop word.place text.now))) word.place (take word.len (drop word.place text.now)) word.end) into.new result }
    {
        let Word { place, len, end } = word;
        // By `match`: a closure for `map_err` would need a clause of its own for its sum.
        match measurer.word(&text[place..place + len]) {
            Ok(metrics) => {
                let piece = Piece {
                    item: ItemRecord::TemplateWord(place, len),
                    width: metrics.width,
                    last: self.place,
                    end,
                };
                self.take_item(into, piece)
            }
            Err(missing) => Err(Cause::NoCharacter.at(place + missing)),
        }
    }
}
