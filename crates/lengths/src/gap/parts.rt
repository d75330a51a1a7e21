//! A gap's parts, and the one place where a gap is made.
ghost use Rattle.std.specs.Prelude.{◌≡◌, true, pos};
ghost use Rattle.std.specs.Option.{option_map};
ghost use Rattle.lengths.specs.Gaps.{parts, parts_of, natural_fits, stretch_fits, gap_of, MakesGap};
ghost use Rattle.lengths.specs.Ranges.{NaturalRange, SizeRange};

use crate::gap::Gap;
use crate::order::Order;

impl Gap {
    // The gap of parts that are in their ranges: no other function makes one.
    pub(crate) fn of(natural: i64, stretch: i64, order: Order) -> Gap
        requires { (natural_fits natural ≡ true) × (stretch_fits stretch ≡ true) }
        ensures answer { parts_of result ≡ parts natural stretch order }
    {
        Gap {
            natural,
            stretch,
            order,
        }
    }

    // The gap without length and stretch.
    pub fn none() -> Gap
        ensures answer { parts_of result ≡ parts (pos 0) (pos 0) Order.Points }
    {
        Gap::of(0, 0, Order::Points)
    }

    // A gap of these parts, or nothing where a number is out of its range. The order comes as a host's number: an enum
    // would ask more of hosts.
    pub fn new(natural: i64, stretch: i64, order: i64) -> Option<Gap>
        ensures answer { option_map parts_of result ≡ gap_of natural stretch order }
        ensures law { MakesGap natural stretch order (option_map parts_of result) }
    {
        let order = Order::try_from(order).ok()?;
        if !(-16_777_215..=16_777_215).contains(&natural) {
            return None;
        }
        if !(0..=16_777_215).contains(&stretch) {
            return None;
        }
        Some(Gap::of(natural, stretch, order))
    }

    // The natural length, within ±16,777,215.
    pub fn natural(self) -> i64
        ensures answer { result ≡ (parts_of self).natural }
        ensures within { NaturalRange result }
    {
        self.natural
    }

    // The stretch, from 0 to 16,777,215.
    pub fn stretch(self) -> i64
        ensures answer { result ≡ (parts_of self).stretch }
        ensures within { SizeRange result }
    {
        self.stretch
    }

    // The order of the stretch.
    pub fn order(self) -> Order
        ensures answer { result ≡ (parts_of self).order }
    {
        self.order
    }
}
