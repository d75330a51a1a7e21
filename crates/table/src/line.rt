ghost use Rattle.std.specs.Prelude.{◌≡◌};
ghost use Rattle.lines.specs.Lines.{bytes_read, ledger_after, line_of};
ghost use Rattle.lines.specs.Laws.{ReadsLine};
ghost use Rattle.table.specs.Views.{templates_in, room_of, ledger_in, wide_in, Kept};

use crate::table::Table;
use extent::Extent;
use faults::Fault;
use lines::read_line;
use measure::Measurer;

impl<'a, 'p, 'm, M: Measurer> Table<'a, 'p, 'm, M> {
    /// Adds the line at the start of a text: a row, a rule or a gap. Answers how many bytes it has, or nothing where only
    /// spaces are left.
    pub fn line(&mut self, text: &[u8]) -> Result<Option<usize>, Fault>
        ensures answer { result ≡ bytes_read (line_of text.now (M.Measurer.meaning self.old.measurer.now) (templates_in self.old) M.Extent.Extent.count (wide_in self.old) (room_of self.old) (ledger_in self.old)) }
        ensures ledger { ledger_in self.new ≡ ledger_after (line_of text.now (M.Measurer.meaning self.old.measurer.now) (templates_in self.old) M.Extent.Extent.count (wide_in self.old) (room_of self.old) (ledger_in self.old)) (ledger_in self.old) }
        ensures law { ReadsLine text.now (M.Measurer.meaning self.old.measurer.now) (templates_in self.old) M.Extent.Extent.count (wide_in self.old) (room_of self.old) (ledger_in self.old) (ledger_in self.new) result }
        ensures kept { Kept self.old self.new }
    {
        read_line(self.measurer, &mut self.rows, text)
    }
}
