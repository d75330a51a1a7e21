//! Glue: a length, and perhaps `plus` and a stretch.
ghost use Rattle.std.specs.Prelude.{◌≡◌, ◌<◌, ◌≤◌, length, IfOk};
ghost use Rattle.lengths.specs.Laws.{ReadsGlue};
ghost use Rattle.lengths.specs.Glues.{stretch_at, glue_parts, glue_at};

use crate::dimen::{Dimen, begins, dimen_in};
use crate::gap::Gap;
use crate::length::{Length, length_at, missing};
use crate::order::Order;
use faults::Fault;
use reader::text::rest_at;
use reader::tokens::spaces_end;

// A gap, and the place behind it in the text. Hosts, contracts and tests name these fields.
#[derive(Clone, Copy, PartialEq, Eq, Debug)]
pub struct Glue {
    pub gap: Gap,
    pub end: usize,
}

// The stretch at a place of a text.
fn stretch_at(text: &[u8], place: usize) -> Result<Dimen, Fault>
    ensures is { result ≡ stretch_at text.now place }
    ensures inside { IfOk result (λ d. (d.size ≤ 16777215) × (place < d.end) × (d.end ≤ length text.now)) }
{
    dimen_in(rest_at(text, place))
        .map(|d| Dimen {
            end: place + d.end,
            ..d
        })
        .ok_or_else(|| missing(text, place))
}

// The glue at a place of a text.
pub fn glue_at(text: &[u8], place: usize) -> Result<Glue, Fault>
    ensures answer { glue_parts result ≡ glue_at text.now place }
    ensures within { IfOk result (λ g. (place < g.end) × (g.end ≤ length text.now)) }
    ensures law { ReadsGlue text.now place (glue_parts result) }
{
    let Length { sp, end } = length_at(text, place)?;
    if begins(rest_at(text, end), b"plus") {
        let stretch = stretch_at(text, spaces_end(text, end + 4))?;
        let gap = Gap::of(sp, stretch.size as i64, stretch.order);
        Ok(Glue {
            gap,
            end: stretch.end,
        })
    } else {
        let gap = Gap::of(sp, 0, Order::Points);
        Ok(Glue { gap, end })
    }
}
