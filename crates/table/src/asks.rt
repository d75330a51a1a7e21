ghost use Rattle.std.specs.Prelude.{◌≡◌, ℕ, ◌+◌, ◌<◌, ◌≤◌, not, length, take, pos, None, slice_index_or};
ghost use Rattle.extent.specs.Sizes.{Within};
ghost use Rattle.widths.specs.Merging.{width, seen};
ghost use Rattle.widths.specs.Entries.{widest};
ghost use Rattle.widths.specs.Settling.{Settled};
ghost use Rattle.spans.specs.Tables.{starting, after};
ghost use Rattle.ledger.specs.Calls.{when};
ghost use Rattle.ledger.specs.Naturals.{fault_in};
ghost use Rattle.table.specs.Promises.{has_column, no_column, ask_on, answer_on};
ghost use Rattle.table.specs.Views.{columns_in, lengths_of, lengths_in, laid_in};

use crate::table::Table;
use crate::work::Workspace;
use extent::Extent;
use faults::{Cause, Fault};
use measure::Measurer;
use rows::preamble::Preamble;

// The natural lengths of the starting gap and of the gaps after the columns.
pub(crate) fn naturals<E: Copy>(preamble: &Preamble<E>, lengths: &mut [i64])
    requires { length preamble.now.columns.now < length lengths.old }
    ensures { take (length preamble.now.columns.now + 1) lengths.new ≡ lengths_of preamble.now }
{
    lengths[0] = preamble.start.natural();
    // by index: a zip with `iter_mut` was tried, and what it writes is known of each borrow by itself, and not of the slice
    for (i, column) in preamble.columns.iter().enumerate() {
        lengths[i + 1] = column.gap.natural();
    }
}

// Columns are counted from 1.
fn has(columns: usize, column: usize) -> bool
    ensures { result ≡ has_column columns column }
{
    (1..=columns).contains(&column)
}

impl<'a, 'p, 'm, M: Measurer> Table<'a, 'p, 'm, M> {
    // The widths of all columns, over all entries laid.
    pub(crate) fn all_widths(
        &self,
        gaps: &[i64],
        cells: &mut [Option<M::Extent>],
        widths: &mut [Option<M::Extent>],
    )
        requires room { (1024 ≤ length cells.old) × ((32 ≤ length widths.old) × (columns_in self.now < length gaps.now)) }
        ensures merged { ((j : ℕ) → Within 16777215 (slice_index_or gaps.now j (pos 0)))
            → (k j : ℕ) → k < M.Extent.Extent.count → j < columns_in self.now → seen M.Extent.Extent.num k (slice_index_or widths.new j None) ≡ width (widest (laid_in self.now k)) (after M.Extent.Extent.entered k gaps.now) j }
        ensures same { length widths.new ≡ length widths.old }
    {
        // it is refused nothing: the memory has room, and all entries lie in the columns
        let _ = self.rows.settle(gaps, cells, widths);
    }

    // The width of one column, over all entries laid.
    fn width_at(
        &self,
        gaps: &[i64],
        cells: &mut [Option<M::Extent>],
        widths: &mut [Option<M::Extent>],
        index: usize,
    ) -> Option<M::Extent>
        requires room { (1024 ≤ length cells.old) × ((32 ≤ length widths.old) × (columns_in self.now < length gaps.now)) }
        requires index { index < columns_in self.now }
        ensures merged { ((j : ℕ) → Within 16777215 (slice_index_or gaps.now j (pos 0)))
            → (k : ℕ) → k < M.Extent.Extent.count → seen M.Extent.Extent.num k result ≡ width (widest (laid_in self.now k)) (after M.Extent.Extent.entered k gaps.now) index }
    {
        self.all_widths(gaps, cells, widths);
        widths[index]
    }

    // The same, with the gaps' natural lengths, in lent memory.
    fn width_in(&self, work: &mut Workspace<M::Extent>, index: usize) -> Option<M::Extent>
        requires index { index < columns_in self.now }
        ensures { (k : ℕ) → k < M.Extent.Extent.count → seen M.Extent.Extent.num k result ≡ width (widest (laid_in self.now k)) (after M.Extent.Extent.entered k (lengths_in self.now)) index }
    {
        let preamble = &self.rows.preamble;
        let lengths = &mut work.lengths;
        naturals(preamble, lengths);
        let used = &lengths[0..preamble.count() + 1];
        let cells = &mut work.cells;
        let widths = &mut work.widths;
        self.width_at(used, cells, widths, index)
    }

    /// The width of a column, counted from 1, or nothing for a void one.
    pub fn ask(
        &self,
        column: usize,
        work: &mut Workspace<M::Extent>,
    ) -> Result<Option<M::Extent>, Fault>
        ensures answer { (k : ℕ) → k < M.Extent.Extent.count → answer_on M.Extent.Extent.num k result ≡ ask_on (laid_in self.now k) (after M.Extent.Extent.entered k (lengths_in self.now)) (columns_in self.now) column }
        ensures settled { (k : ℕ) → k < M.Extent.Extent.count → Settled (laid_in self.now k) (starting M.Extent.Extent.entered k (lengths_in self.now)) (after M.Extent.Extent.entered k (lengths_in self.now)) (columns_in self.now) (width (widest (laid_in self.now k)) (after M.Extent.Extent.entered k (lengths_in self.now))) }
        ensures refused { fault_in result ≡ when (not (has_column (columns_in self.now) column)) no_column }
    {
        if !has(self.rows.preamble.count(), column) {
            return Err(Cause::NoSuchColumn.at(0));
        }
        Ok(self.width_in(work, column - 1))
    }
}
