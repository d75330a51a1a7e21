ghost use Rattle.std.specs.Prelude.{◌≤◌, length};
ghost use Rattle.ledger.specs.Naturals.{wide_of};
ghost use Rattle.ledger.specs.Lawful.{FineTemplates, Lawful};
ghost use Rattle.rows.specs.Columns.{columns_in as templates_on};
ghost use Rattle.rows.specs.Good.{templates_of, ledger_of};
ghost use Rattle.rows.specs.Sound.{Sound};

use extent::Extent;
use faults::Fault;
use measure::Measurer;
use rows::rows::Rows;

/// A table. What it answers depends only on its preamble, its room and its ledger; the widths that it keeps are natural
/// widths by the meaning of its measurer. Its templates are fine, and what holds of every ledger holds of its ledger.
#[derive(Drop)]
pub struct Table<'a, 'p, 'm, M: Measurer> {
    pub(crate) rows: Rows<'a, 'p, M::Extent>,
    pub(crate) measurer: &'m M,
    pub(crate) made: Result<usize, Fault>,
    pub ghost few: { length (templates_on rows.preamble.columns.now) ≤ 32 },
    pub ghost meant: { Sound M.Extent.Extent.count M.Extent.Extent.num (wide_of M.Measurer M.Extent.Extent measurer.now) rows.preamble rows.draft.state rows.draft.memory },
    pub ghost fitting: { FineTemplates (M.Measurer.meaning measurer.now) (templates_of rows.preamble) },
    pub ghost lawful: { Lawful (M.Measurer.meaning measurer.now) M.Extent.Extent.count (wide_of M.Measurer M.Extent.Extent measurer.now) (templates_of rows.preamble) (ledger_of rows.preamble rows.draft.state rows.draft.memory) },
}
