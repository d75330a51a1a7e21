//! A whole preamble.
ghost use Rattle.std.specs.Prelude.{◌≡◌};
ghost use Rattle.lengths.specs.Gaps.{parts_of};
ghost use Rattle.ledger.specs.Naturals.{wide_of};
ghost use Rattle.ledger.specs.Preambles.{preamble_of};
ghost use Rattle.templates.specs.Kept.{KeptIn, WidthsIn};
ghost use Rattle.templates.specs.Readings.{read_in};

use crate::memory::{Hand, Read, Templates, empty_column};
use faults::Fault;
use lengths::gap::Gap;
use measure::Measurer;
use std::ops::ControlFlow;

/// Reads the preamble at the start of a text, token by token, up to its `\cr`.
pub fn read_preamble<M: Measurer>(
    measurer: &M,
    start: Gap,
    text: &[u8],
    into: &mut Templates<M::Extent>,
) -> Result<Read, Fault>
    ensures answer { read_in text.now into.new result ≡ preamble_of text.now (M.Measurer.meaning measurer.now) (parts_of start) }
    ensures kept { KeptIn text.now (parts_of start) into.new result }
    ensures widths { WidthsIn M.Extent.Extent.count M.Extent.Extent.num (wide_of M.Measurer M.Extent.Extent measurer.now) text.now into.new result }
{
    into.start = start;
    let mut hand = Hand {
        place: 0,
        columns: 0,
        marked: false,
        column: empty_column(0, start),
    };
    loop {
        match hand.step(measurer, into, text)? {
            ControlFlow::Continue(next) => hand = next,
            ControlFlow::Break(read) => return Ok(read),
        }
    }
}
