ghost use Rattle.rows.specs.Good.{Good};

use crate::draft::Draft;
use crate::preamble::Preamble;

/// Rows in memory that the host lends, and the preamble that they are rows of.
#[derive(Drop)]
pub struct Rows<'a, 'p, E> {
    pub draft: Draft<'a, E>,
    pub preamble: Preamble<'p, E>,
    pub ghost good: { Good draft.state draft.memory preamble },
}
