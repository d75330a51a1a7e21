ghost use Rattle.std.specs.Prelude.{◌≡◌, ℕ, ◌+◌, ◌*◌, ◌<◌, ◌≤◌, true, false, List, [], ◌++◌, length, is_ok, Some, None, ◌≢◌, slice_index_or};
ghost use Rattle.widths.specs.declared.Entry.{Entry as Noted};
ghost use Rattle.widths.specs.Merging.{seen, join};
ghost use Rattle.spans.specs.Tables.{KeptFrom, SameSize, cell, Tabled, accepted};
ghost use Rattle.spans.specs.Refusals.{table_fault, span_fault, unless};

use extent::Extent;
use widths::{Entry, joined};

// Why a span table refuses.
#[derive(Clone, Copy, PartialEq, Eq, Debug)]
pub enum Misfit {
    // the columns are not 1 to 32
    Columns,
    // a lent slice is too short for the columns
    Memory,
    // no such columns in the table, or the last before the first
    Span,
}

// The widest entry over each run of columns, in lent memory: 32 cells for each column, by the first column of the run.
// One flat slice, since a host lends what memory it has: rows of 32 would ask more of it. Its fields are the host's too, so
// every public call tests them, and the steps behind that test have it as a clause.
#[derive(Drop)]
pub struct SpanTable<'a, E: Extent> {
    pub columns: usize,
    pub cells: &'a mut [Option<E>],
}

impl<'a, E: Extent> SpanTable<'a, E> {
    // Refuses what are not 1 to 32 columns with 32 cells for each.
    pub(crate) fn check(&self) -> Result<(), Misfit>
        ensures { result ≡ unless (table_fault self.now.columns (length self.now.cells.now)) tt }
    {
        if !(1..=32).contains(&self.columns) {
            return Err(Misfit::Columns);
        }
        if self.cells.len() < self.columns * 32 {
            return Err(Misfit::Memory);
        }
        Ok(())
    }

    // Refuses, besides, a span that leaves the table or ends before it begins.
    fn check_span(&self, first: usize, last: usize) -> Result<(), Misfit>
        ensures { result ≡ unless (span_fault self.now.columns (length self.now.cells.now) first last) tt }
    {
        self.check()?;
        if (first..self.columns).contains(&last) {
            Ok(())
        } else {
            Err(Misfit::Span)
        }
    }

    // Empties the cells of the columns.
    pub(crate) fn empty(&mut self)
        requires { self.old.columns * 32 ≤ length self.old.cells.now }
        ensures size { SameSize self.old self.new }
        ensures emptied { (p : ℕ) → p < self.old.columns * 32 → slice_index_or self.new.cells.now p None ≡ None }
        ensures others { KeptFrom None (self.old.columns * 32) self.old.cells.now self.new.cells.now }
    {
        self.cells[..self.columns * 32].fill(None);
    }

    // Joins an entry's width into its cell.
    pub(crate) fn widen(&mut self, entry: Entry<E>)
        requires { entry.first * 32 + entry.last < length self.old.cells.now }
        ensures size { SameSize self.old self.new }
        ensures here { (k : ℕ) → k < E.count → seen E.num k (cell self.new.cells.now entry.first entry.last) ≡ join (seen E.num k (cell self.old.cells.now entry.first entry.last)) (Some (E.num entry.width k)) }
        ensures others { (p : ℕ) → (p ≢ entry.first * 32 + entry.last) → slice_index_or self.new.cells.now p None ≡ slice_index_or self.old.cells.now p None }
    {
        let place = entry.first * 32 + entry.last;
        self.cells[place] = joined(self.cells[place], Some(entry.width));
    }

    // Forgets all entries. Cells past those of the columns stay.
    pub fn clear(&mut self) -> Result<(), Misfit>
        ensures answer { result ≡ unless (table_fault self.old.columns (length self.old.cells.now)) tt }
        ensures size { SameSize self.old self.new }
        ensures empty { is_ok result ≡ true → Tabled E.count E.num self.old.columns self.new.cells.now [] }
        ensures others { KeptFrom None (self.old.columns * 32) self.old.cells.now self.new.cells.now }
        ensures refused { is_ok result ≡ false → self.new.cells.now ≡ self.old.cells.now }
    {
        self.check()?;
        self.empty();
        Ok(())
    }

    // Takes an entry into account. No other cell than its own is written.
    pub fn note(&mut self, entry: Entry<E>) -> Result<(), Misfit>
        ensures answer { result ≡ unless (span_fault self.old.columns (length self.old.cells.now) entry.first entry.last) tt }
        ensures size { SameSize self.old self.new }
        ensures noted { (es : List (Noted E)) → Tabled E.count E.num self.old.columns self.old.cells.now es → Tabled E.count E.num self.old.columns self.new.cells.now (es ++ accepted result entry) }
        ensures here { is_ok result ≡ true → (k : ℕ) → k < E.count → seen E.num k (cell self.new.cells.now entry.first entry.last) ≡ join (seen E.num k (cell self.old.cells.now entry.first entry.last)) (Some (E.num entry.width k)) }
        ensures others { (p : ℕ) → (p ≢ entry.first * 32 + entry.last) → slice_index_or self.new.cells.now p None ≡ slice_index_or self.old.cells.now p None }
        ensures refused { is_ok result ≡ false → self.new.cells.now ≡ self.old.cells.now }
    {
        self.check_span(entry.first, entry.last)?;
        self.widen(entry);
        Ok(())
    }

    // The larger-of of the entries over a run of columns, if any.
    pub fn look(&self, first: usize, last: usize) -> Result<Option<E>, Misfit>
        ensures { result ≡ unless (span_fault self.now.columns (length self.now.cells.now) first last) (cell self.now.cells.now first last) }
    {
        self.check_span(first, last)?;
        Ok(self.cells[first * 32 + last])
    }
}
