//! Gaps as they count between columns, and how far they stretch.
ghost use Rattle.std.specs.Prelude.{◌≡◌, ◌+◌, ◌<◌, ◌≤◌, length};
ghost use Rattle.sharing.specs.Gaps.{gap_at, stretch_in, whole_in, sharing_order, all_sharers};
ghost use Rattle.sharing.specs.Views.{widths_on, parts_on, gaps_on, Tame};

use crate::SideGap;
use crate::rule::upward;
use lengths::order::Order;

/// The gap at a place, as it counts: behind a void column there is none.
pub fn gap_at(widths: &[Option<i64>], gaps: &[SideGap], place: usize) -> SideGap
    requires place { place < length gaps.now }
    requires paired { length gaps.now ≤ length widths.now + 1 }
    ensures { parts_on result ≡ gap_at (widths_on widths.now) (gaps_on gaps.now) place }
{
    if place > 0 && widths[place - 1].is_none() {
        return SideGap {
            natural: 0,
            stretch: 0,
            order: Order::Points,
        };
    }
    gaps[place]
}

/// How far a gap stretches in an order: nothing in any but its own.
pub fn stretch_in(order: Order, gap: SideGap) -> u64
    ensures { result ≡ stretch_in order (parts_on gap) }
{
    if gap.order == order {
        upward(gap.stretch)
    } else {
        0
    }
}

/// The whole stretch of all gaps in an order.
pub fn whole_in(widths: &[Option<i64>], gaps: &[SideGap], order: Order) -> u64
    requires { Tame widths.now gaps.now }
    ensures { result ≡ whole_in (widths_on widths.now) (gaps_on gaps.now) (length widths.now) order }
{
    let mut whole = 0;
    for place in 0..gaps.len() {
        whole += stretch_in(order, gap_at(widths, gaps, place));
    }
    whole
}

/// The highest order in which any gap stretches, points where none does.
pub fn sharing_order(widths: &[Option<i64>], gaps: &[SideGap]) -> Order
    requires { Tame widths.now gaps.now }
    ensures { result ≡ sharing_order (widths_on widths.now) (gaps_on gaps.now) (length widths.now) }
{
    if whole_in(widths, gaps, Order::Filll) > 0 {
        Order::Filll
    } else if whole_in(widths, gaps, Order::Fill) > 0 {
        Order::Fill
    } else if whole_in(widths, gaps, Order::Fil) > 0 {
        Order::Fil
    } else {
        Order::Points
    }
}

/// The whole stretch that shares a surplus.
pub fn all_sharers(widths: &[Option<i64>], gaps: &[SideGap]) -> u64
    requires { Tame widths.now gaps.now }
    ensures { result ≡ all_sharers (widths_on widths.now) (gaps_on gaps.now) (length widths.now) }
{
    whole_in(widths, gaps, sharing_order(widths, gaps))
}
