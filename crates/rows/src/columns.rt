ghost use Rattle.std.specs.Prelude.{◌≡◌, ◌<◌, length, get_or};
ghost use Rattle.ledger.specs.declared.records.Owed.{Owed};
ghost use Rattle.rows.specs.Columns.{columns_in, widths_in, column_at};

use crate::preamble::Preamble;
use crate::rows::Rows;
use ledger::records::ColumnRecord;

// An index with its bound in its type would have to name the preamble that it is of.
impl<'a, E: Copy> Preamble<'a, E> {
    /// How many columns there are.
    pub fn count(&self) -> usize
        ensures { result ≡ length (columns_in self.now.columns.now) }
    {
        self.columns.len()
    }

    /// A column: its template, and the natural widths of the template's parts.
    pub(crate) fn column(&self, at: usize) -> ColumnRecord<E>
        requires { at < length (columns_in self.now.columns.now) }
        ensures template { result.template ≡ column_at (columns_in self.now.columns.now) at }
        ensures widths { (d : Owed E) → result.widths ≡ get_or (widths_in self.now.columns.now) at d }
    {
        self.columns[at]
    }
}

// The same of rows: a call that changes them reads its preamble through this, as a loan of that field alone is not covered.
impl<'a, 'p, E: Copy> Rows<'a, 'p, E> {
    /// A column: its template, and the natural widths of the template's parts.
    pub(crate) fn column(&self, at: usize) -> ColumnRecord<E>
        requires { at < length (columns_in self.now.preamble.columns.now) }
        ensures template { result.template ≡ column_at (columns_in self.now.preamble.columns.now) at }
        ensures widths { (d : Owed E) → result.widths ≡ get_or (widths_in self.now.preamble.columns.now) at d }
    {
        self.preamble.column(at)
    }
}
