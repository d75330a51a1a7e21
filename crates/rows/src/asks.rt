//! The widths of the columns over what is laid.
ghost use Rattle.std.specs.Prelude.{◌≡◌, ℕ, ◌<◌, ◌≤◌, true, map, length, ℤ, pos, is_ok, Ok, slice_index_or};
ghost use Rattle.extent.specs.Sizes.{Within};
ghost use Rattle.widths.specs.Settling.{Settled};
ghost use Rattle.spans.specs.Tables.{starting, after, column, TameOn, SettledOn};
ghost use Rattle.spans.specs.Refusals.{settle_fault, unless};
ghost use Rattle.ledger.specs.Ledger.{Item};
ghost use Rattle.ledger.specs.Calls.{laid_entries};
ghost use Rattle.ledger.specs.Naturals.{natural_by};
ghost use Rattle.rows.specs.Columns.{columns_in};
ghost use Rattle.rows.specs.Sound.{span_of};
ghost use Rattle.rows.specs.Views.{ledger_at, SoundAt};

use crate::rows::Rows;
use crate::state::EntryRecord;
use extent::Extent;
use spans::table::{Misfit, SpanTable};

/// The widths of the columns over these entries, in lent cells.
fn settle_laid<E: Extent>(
    laid: &[EntryRecord<E>],
    columns: usize,
    gaps: &[i64],
    cells: &mut [Option<E>],
    widths: &mut [Option<E>],
) -> Result<(), Misfit>
    ensures answer { result ≡ unless (settle_fault columns (length cells.old) (length widths.old) (length gaps.now) (map span_of laid.now)) tt }
    ensures settled { is_ok result ≡ true → (k : ℕ) → k < E.count → TameOn E.num k (map span_of laid.now) gaps.now → SettledOn E.num E.entered k (map span_of laid.now) gaps.now columns widths.new }
{
    SpanTable { columns, cells }.settle(laid, gaps, widths)
}

impl<'a, 'p, E: Extent> Rows<'a, 'p, E> {
    /// The widths of the columns over all entries laid, in lent cells.
    pub fn settle(
        &self,
        gaps: &[i64],
        cells: &mut [Option<E>],
        widths: &mut [Option<E>],
    ) -> Result<(), Misfit>
        requires few { length (columns_in self.now.preamble.columns.now) ≤ 32 }
        requires room { (1024 ≤ length cells.old) × ((32 ≤ length widths.old) × (length (columns_in self.now.preamble.columns.now) < length gaps.now)) }
        ensures settled { (wide : Item → ℕ → ℤ) → SoundAt E.count E.num wide self.now → ((j : ℕ) → Within 16777215 (slice_index_or gaps.now j (pos 0))) →
            (result ≡ Ok tt) × ((k : ℕ) → k < E.count → Settled (map (natural_by wide k) (laid_entries (ledger_at self.now))) (starting E.entered k gaps.now) (after E.entered k gaps.now) (length (columns_in self.now.preamble.columns.now)) (column E.num k widths.new)) }
    {
        let laid = &self.draft.memory.entries[0..self.draft.state.laid.entries];
        settle_laid(laid, self.preamble.count(), gaps, cells, widths)
    }
}
