//! The marks of a template, and its end.
ghost use Rattle.std.specs.Prelude.{◌≡◌, ℕ, ◌<◌, ◌≤◌, true, false, List, length, ℤ, IfOk, IfErr};
ghost use Rattle.faults.specs.declared.Cause.TheVariants as cause;
ghost use Rattle.faults.specs.Faults.{fault_at};
ghost use Rattle.lengths.specs.Glues.{glue_at};
ghost use Rattle.ledger.specs.Ledger.{Item};
ghost use Rattle.ledger.specs.Preambles.{hashed, gap_taken, parted, ended};
ghost use Rattle.templates.specs.declared.memory.Templates.{Templates};
ghost use Rattle.templates.specs.Kept.{Fits, Turns};
ghost use Rattle.templates.specs.Readings.{reading_of};

use crate::memory::{Hand, Read, Step, Templates, empty_column};
use extent::Extent;
use faults::{Cause, Fault};
use ledger::records::ColumnRecord;
use lengths::glue::glue_at;
use std::ops::ControlFlow;

/// A preamble has at most this many columns.
const MOST_COLUMNS: usize = 32;

impl<E: Extent> Hand<E> {
    /// `#` stands once in a template.
    pub(crate) fn mark(self, end: usize) -> Result<Step<E>, Fault>
        ensures { (text : List ℕ) (wide : Item → ℕ → ℤ) (t : Templates E) → self.place < end → end ≤ length text → Turns E.count E.num wide text self t (hashed (reading_of text self t) end) t result }
    {
        if self.marked {
            return Err(Cause::TemplateMark.at(self.place));
        }
        Ok(ControlFlow::Continue(Hand {
            place: end,
            marked: true,
            ..self
        }))
    }

    /// The glue behind `\tabskip` is the gap from here on.
    pub(crate) fn take_gap(self, text: &[u8], end: usize) -> Result<Step<E>, Fault>
        ensures { (wide : Item → ℕ → ℤ) (t : Templates E) → self.place < end → Turns E.count E.num wide text.now self t (gap_taken (reading_of text.now self t) (glue_at text.now end)) t result }
    {
        let glue = glue_at(text, end)?;
        Ok(ControlFlow::Continue(Hand {
            place: glue.end,
            column: ColumnRecord {
                gap: glue.gap,
                ..self.column
            },
            ..self
        }))
    }

    /// A template is whole once its `#` has come.
    fn whole(self) -> Result<(), Fault>
        ensures ok { IfOk result (λ _. self.marked ≡ true) }
        ensures err { IfErr result (λ f. (self.marked ≡ false) × (f ≡ fault_at cause.TemplateMark self.place)) }
    {
        if !self.marked {
            return Err(Cause::TemplateMark.at(self.place));
        }
        Ok(())
    }

    /// `&` ends a template that has its `#`, and begins the next column.
    pub(crate) fn next_column(self, into: &mut Templates<E>, end: usize) -> Result<Step<E>, Fault>
        requires { Fits self into.old }
        ensures { (text : List ℕ) (wide : Item → ℕ → ℤ) → self.place < end → end ≤ length text → Turns E.count E.num wide text self into.old (parted (reading_of text self into.old) end) into.new result }
    {
        self.whole()?;
        let columns = self.columns + 1;
        if columns >= MOST_COLUMNS {
            return Err(Cause::TooManyColumns.at(self.place));
        }
        into.put_column(self);
        Ok(ControlFlow::Continue(Hand {
            place: end,
            columns,
            marked: false,
            column: empty_column(self.written(), self.column.gap),
        }))
    }

    /// `\cr` ends the last template and the preamble.
    pub(crate) fn last_column(self, into: &mut Templates<E>, end: usize) -> Result<Step<E>, Fault>
        requires { Fits self into.old }
        ensures { (text : List ℕ) (wide : Item → ℕ → ℤ) → self.place < end → end ≤ length text → Turns E.count E.num wide text self into.old (ended (reading_of text self into.old) end) into.new result }
    {
        self.whole()?;
        into.put_column(self);
        Ok(ControlFlow::Break(Read {
            columns: self.columns + 1,
            pieces: self.written(),
            bytes: end,
        }))
    }
}
