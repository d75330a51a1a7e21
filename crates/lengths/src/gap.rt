//! The gap between two columns.
ghost use Rattle.lengths.specs.Ranges.{NaturalRange, SizeRange};

use crate::order::Order;

pub mod parts;

// A natural length within ±16,777,215, and a stretch from 0 to 16,777,215 of some order.
#[derive(Clone, Copy, PartialEq, Eq, Debug)]
pub struct Gap {
    natural: i64,
    stretch: i64,
    order: Order,
    ghost ok: { NaturalRange natural },
    ghost fits: { SizeRange stretch },
}
