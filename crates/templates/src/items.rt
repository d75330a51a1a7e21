//! One more item of the template in hand.
ghost use Rattle.std.specs.Prelude.{◌≡◌, ℕ, ◌≤◌, ◌<◌, true, false, List, [], ℤ, None, IfSome, if◌then◌else◌};
ghost use Rattle.ledger.specs.Ledger.{Item};
ghost use Rattle.ledger.specs.Items.{meant};
ghost use Rattle.ledger.specs.Preambles.{taking};
ghost use Rattle.templates.specs.Kept.{Adds, Fits, Suits, Turns};
ghost use Rattle.templates.specs.Readings.{reading_of, longer_u, longer_v};

use crate::memory::{Hand, Piece, Step, Templates};
use extent::Extent;
use faults::{Cause, Fault};
use ledger::records::{ColumnRecord, Owed};
use std::ops::ControlFlow;

/// A part has at most this many items.
const LONGEST_PART: usize = 64;

impl<E: Extent> Hand<E> {
    /// The column in hand with an item more, of this width: before `#` it is of u, behind it of v. Nothing where that part is full.
    fn longer(self, width: E) -> Option<ColumnRecord<E>>
        requires { (self.column.template.u ≤ 64) × (self.column.template.v ≤ 64) }
        ensures full { result ≡ None → 64 ≤ (if self.marked then self.column.template.v else self.column.template.u) }
        ensures before { IfSome result (λ c. self.marked ≡ false → (self.column.template.u < 64) × (c ≡ longer_u self c.widths.u) × Adds E.count E.num self.column.widths.u width c.widths.u) }
        ensures behind { IfSome result (λ c. self.marked ≡ true → (self.column.template.v < 64) × (c ≡ longer_v self c.widths.v) × Adds E.count E.num self.column.widths.v width c.widths.v) }
    {
        let ColumnRecord {
            mut template,
            widths: Owed { mut u, mut v },
            gap,
        } = self.column;
        if self.marked {
            if template.v >= LONGEST_PART {
                return None;
            }
            template.v += 1;
            v = v.sum(width);
        } else {
            if template.u >= LONGEST_PART {
                return None;
            }
            template.u += 1;
            u = u.sum(width);
        }
        Some(ColumnRecord {
            template,
            widths: Owed { u, v },
            gap,
        })
    }

    /// One more item of the part in hand.
    pub(crate) fn take_item(
        self,
        into: &mut Templates<E>,
        piece: Piece<E>,
    ) -> Result<Step<E>, Fault>
        requires { Fits self into.old }
        ensures { (text : List ℕ) (wide : Item → ℕ → ℤ) → Suits E.count E.num wide text self.place piece → Turns E.count E.num wide text self into.old (taking (reading_of text self into.old) (meant text piece.item []) piece.last piece.end) into.new result }
    {
        let column = self.longer(piece.width).ok_or(Cause::Full.at(piece.last))?;
        into.put_item(self.written(), piece.item);
        Ok(ControlFlow::Continue(Hand {
            place: piece.end,
            column,
            ..self
        }))
    }
}
