ghost use Rattle.std.specs.Prelude.{◌≡◌};
ghost use Rattle.packer.specs.Laws.{line_text};
ghost use Rattle.table.specs.Views.{ledger_in};

use crate::table::Table;
use measure::Measurer;

impl<'a, 'p, 'm, M: Measurer> Table<'a, 'p, 'm, M> {
    /// The preamble text, in which the words of templates stand.
    pub fn preamble_text(&self) -> &[u8]
        ensures { result.now ≡ self.now.rows.preamble.text.now }
    {
        self.rows.preamble.text
    }

    /// The line text: the bytes of all laid words of cells, back to back.
    pub fn line_text(&self) -> &[u8]
        ensures { result.now ≡ line_text (ledger_in self.now).lines }
    {
        let text = &self.rows.draft.memory.text;
        &text[0..self.rows.draft.state.laid.text]
    }
}
