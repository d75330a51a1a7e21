ghost use Rattle.std.specs.Prelude.{◌≡◌, ℕ, ◌+◌, ◌*◌, ◌<◌, ◌≤◌, true, false, List, length, is_ok, None, slice_index_or};
ghost use Rattle.extent.specs.Sizes.{Near};
ghost use Rattle.widths.specs.declared.Entry.{Entry as Noted};
ghost use Rattle.widths.specs.Merging.{seen, less, join, size, width};
ghost use Rattle.widths.specs.Entries.{widest, on_side};
ghost use Rattle.spans.specs.Tables.{KeptFrom, cell, Tabled, column, after, SettledOn, TameOn};
ghost use Rattle.spans.specs.Refusals.{row_fault, merge_fault, turn_fault, unless};

use crate::table::{Misfit, SpanTable};
use extent::Extent;
use widths::{advance, joined, lessened};

impl<'a, E: Extent> SpanTable<'a, E> {
    // Refuses a row with fewer widths than the table has columns.
    fn check_row(&self, widths: usize) -> Result<(), Misfit>
        ensures { result ≡ unless (row_fault self.now.columns (length self.now.cells.now) widths) tt }
    {
        self.check()?;
        if widths < self.columns {
            return Err(Misfit::Memory);
        }
        Ok(())
    }

    // Refuses, besides, a turn of a column that the table does not have.
    fn check_turn(&self, widths: usize, q: usize) -> Result<(), Misfit>
        ensures { result ≡ unless (turn_fault self.now.columns (length self.now.cells.now) widths q) tt }
    {
        self.check_row(widths)?;
        if q < self.columns {
            Ok(())
        } else {
            Err(Misfit::Span)
        }
    }

    // Refuses, besides, fewer gaps than the starting one and one after each column.
    pub(crate) fn check_merge(&self, widths: usize, gaps: usize) -> Result<(), Misfit>
        ensures { result ≡ unless (merge_fault self.now.columns (length self.now.cells.now) widths gaps) tt }
    {
        self.check_row(widths)?;
        if self.columns < gaps {
            Ok(())
        } else {
            Err(Misfit::Memory)
        }
    }

    // Copies the cells of the spans that begin in the first column.
    fn start_row(&self, row: &mut [Option<E>])
        requires { (self.now.columns ≤ length self.now.cells.now) × (self.now.columns ≤ length row.old) }
        ensures here { (j : ℕ) → j < self.now.columns → slice_index_or row.new j None ≡ slice_index_or self.now.cells.now j None }
        ensures rest { KeptFrom None self.now.columns row.old row.new }
    {
        row[..self.columns].copy_from_slice(&self.cells[..self.columns]);
    }

    // Carries every W(q,j) with j > q, less the advance of column q, into W(q + 1,j).
    fn carry_row(&self, q: usize, by: E, row: &mut [Option<E>])
        requires { (self.now.columns ≤ 32) × ((self.now.columns * 32 ≤ length self.now.cells.now) × ((self.now.columns ≤ length row.old) × (q < self.now.columns))) }
        ensures before { (j : ℕ) → j ≤ q → slice_index_or row.new j None ≡ slice_index_or row.old j None }
        ensures rest { KeptFrom None self.now.columns row.old row.new }
        ensures carried { (k j : ℕ) → k < E.count → q < j → j < self.now.columns → Near (size (seen E.num k (slice_index_or row.old j None))) → Near (E.num by k) →
            seen E.num k (slice_index_or row.new j None) ≡ join (seen E.num k (cell self.now.cells.now (q + 1) j)) (less (seen E.num k (slice_index_or row.old j None)) (E.num by k)) }
    {
        // by index: of a zip with `iter_mut` it is known what each borrow writes, and not what the slice then holds
        for j in q + 1..self.columns {
            row[j] = joined(self.cells[(q + 1) * 32 + j], lessened(row[j], by));
        }
    }

    // Columns from left to right: what stands in the row at a column's turn is its width.
    fn merge_rows(&self, gaps: &[i64], widths: &mut [Option<E>])
        requires { (self.now.columns ≤ 32) × ((self.now.columns * 32 ≤ length self.now.cells.now) × ((self.now.columns ≤ length widths.old) × (self.now.columns < length gaps.now))) }
        ensures merged { (es : List (Noted E)) → Tabled E.count E.num self.now.columns self.now.cells.now es → (k j : ℕ) → k < E.count → TameOn E.num k es gaps.now → j < self.now.columns →
            column E.num k widths.new j ≡ width (widest (on_side E.num k es)) (after E.entered k gaps.now) j }
        ensures rest { KeptFrom None self.now.columns widths.old widths.new }
    {
        self.start_row(widths);
        // by index: a turn names the width in hand, the gap behind it and the next row of cells
        for q in 0..self.columns {
            let by = advance(widths[q], E::enter(gaps[q + 1]));
            self.carry_row(q, by, widths);
        }
    }

    // The row of merged spans as the first column's turn comes: W(1,j) for each j.
    pub fn begin(&self, row: &mut [Option<E>]) -> Result<(), Misfit>
        ensures answer { result ≡ unless (row_fault self.now.columns (length self.now.cells.now) (length row.old)) tt }
        ensures here { is_ok result ≡ true → (j : ℕ) → j < self.now.columns → slice_index_or row.new j None ≡ cell self.now.cells.now 0 j }
        ensures rest { KeptFrom None self.now.columns row.old row.new }
        ensures refused { is_ok result ≡ false → row.new ≡ row.old }
    {
        self.check_row(row.len())?;
        self.start_row(row);
        Ok(())
    }

    // The row as the next column's turn comes: each later W(q,j), less the advance of column q, merged into W(q + 1,j).
    pub fn carry(&self, q: usize, by: E, row: &mut [Option<E>]) -> Result<(), Misfit>
        ensures answer { result ≡ unless (turn_fault self.now.columns (length self.now.cells.now) (length row.old) q) tt }
        ensures before { (j : ℕ) → j ≤ q → slice_index_or row.new j None ≡ slice_index_or row.old j None }
        ensures carried { is_ok result ≡ true → (k j : ℕ) → k < E.count → q < j → j < self.now.columns → Near (size (seen E.num k (slice_index_or row.old j None))) → Near (E.num by k) →
            seen E.num k (slice_index_or row.new j None) ≡ join (seen E.num k (cell self.now.cells.now (q + 1) j)) (less (seen E.num k (slice_index_or row.old j None)) (E.num by k)) }
        ensures rest { KeptFrom None self.now.columns row.old row.new }
        ensures refused { is_ok result ≡ false → row.new ≡ row.old }
    {
        self.check_turn(row.len(), q)?;
        self.carry_row(q, by, row);
        Ok(())
    }

    // The width of each column, nothing for a void one; `gaps` is the starting gap and the gap after each column.
    pub fn merge(&self, gaps: &[i64], widths: &mut [Option<E>]) -> Result<(), Misfit>
        ensures answer { result ≡ unless (merge_fault self.now.columns (length self.now.cells.now) (length widths.old) (length gaps.now)) tt }
        ensures settled { is_ok result ≡ true → (es : List (Noted E)) → Tabled E.count E.num self.now.columns self.now.cells.now es → (k : ℕ) → k < E.count → TameOn E.num k es gaps.now →
            SettledOn E.num E.entered k es gaps.now self.now.columns widths.new }
        ensures rest { KeptFrom None self.now.columns widths.old widths.new }
        ensures refused { is_ok result ≡ false → widths.new ≡ widths.old }
    {
        self.check_merge(widths.len(), gaps.len())?;
        self.merge_rows(gaps, widths);
        Ok(())
    }
}
