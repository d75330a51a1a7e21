//! Rows of which nothing is laid.
ghost use Rattle.std.specs.Prelude.{◌≡◌};
ghost use Rattle.rows.specs.Good.{unused};

use crate::draft::Draft;
use crate::preamble::Preamble;
use crate::rows::Rows;
use crate::state::{Marks, Memory, Row, Stage, State};

const NONE: Marks = Marks {
    items: 0,
    entries: 0,
    text: 0,
};

impl<'a, 'p, E: Copy> Rows<'a, 'p, E> {
    /// Nothing is laid and no row is open.
    pub fn new(memory: Memory<'a, E>, preamble: Preamble<'p, E>, zero: E) -> Rows<'a, 'p, E>
        ensures state { result.draft.state ≡ unused zero }
        ensures memory { result.draft.memory ≡ memory.entry }
        ensures preamble { result.preamble ≡ preamble.entry }
    {
        let state = State {
            lines: 0,
            laid: NONE,
            marks: NONE,
            stage: Stage::Closed,
            row: Row {
                column: 0,
                first: 0,
                begin: 0,
                width: zero,
            },
        };
        Rows {
            draft: Draft { state, memory },
            preamble,
        }
    }
}
