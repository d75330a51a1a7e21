//! Columns as they are set: to which width, and where they stand.
ghost use Rattle.std.specs.Prelude.{◌≡◌, ℕ, suc, ◌+◌, ◌^◌, ◌<◌, ◌≤◌, length, ℤ, pos, ◌≤ℤ◌, Some, slice_index_or};
ghost use Rattle.extent.specs.Sizes.{Within};
ghost use Rattle.widths.specs.Merging.{size, step};
ghost use Rattle.sharing.specs.declared.Edges.{Edges};
ghost use Rattle.sharing.specs.Gaps.{set_gap};
ghost use Rattle.sharing.specs.Columns.{natural_width, aimed, attainable, width_set, edges_of, edges_set};
ghost use Rattle.sharing.specs.Views.{widths_on, gaps_on, first_on, behind_on, Tame, Spread, NearSet};

use crate::gaps::{all_sharers, gap_at, sharing_order, stretch_in, whole_in};
use crate::rule::{portion_of, upward};
use crate::{Aim, Edges, SideGap};

/// No columns are set wider.
pub const WIDEST: i64 = 1_073_741_823;

/// How far a column of this width moves what follows it, with the gap behind it.
fn step(width: Option<i64>, gap: i64) -> i64
    requires width { Within (2 ^ 41) (size width) }
    requires gap { Within (2 ^ 41) gap }
    ensures { result ≡ step width gap }
{
    match width {
        Some(width) => width + gap,
        None => 0,
    }
}

/// The natural width of all columns and gaps.
pub fn natural_width(widths: &[Option<i64>], gaps: &[SideGap]) -> i64
    requires { Tame widths.now gaps.now }
    ensures { result ≡ natural_width (widths_on widths.now) (gaps_on gaps.now) (length widths.now) }
{
    let mut right = gaps[0].natural;
    for j in 0..widths.len() {
        right += step(widths[j], gaps[j + 1].natural);
    }
    right
}

/// The width that is aimed at, where the natural one is given.
fn aimed(aim: Aim, natural: i64) -> i64
    ensures { result ≡ aimed aim natural }
{
    match aim {
        Aim::Natural => natural,
        Aim::To(target) => target,
    }
}

/// Whether a natural width can be set to another one by so much stretch: no gap shrinks.
fn attainable(natural: i64, target: i64, stretch: u64) -> bool
    ensures { result ≡ attainable natural target stretch }
{
    0 <= natural && natural <= target && target <= WIDEST && (target <= natural || 0 < stretch)
}

/// Sets the gaps: gaps 0 to k together gain the portion of their stretch.
fn share(widths: &[Option<i64>], gaps: &[SideGap], surplus: u64, set: &mut [i64])
    requires tame { Tame widths.now gaps.now }
    requires room { length gaps.now ≤ length set.old }
    requires few { surplus ≤ 1073741823 }
    ensures gaps { (k : ℕ) → k < length gaps.now → (d : ℤ) → slice_index_or set.new k d ≡ set_gap (widths_on widths.now) (gaps_on gaps.now) (length widths.now) surplus k }
    ensures len { length set.new ≡ length set.old }
{
    let order = sharing_order(widths, gaps);
    let whole = whole_in(widths, gaps, order);
    let mut part = 0;
    let mut shared = 0;
    for place in 0..gaps.len() {
        let gap = gap_at(widths, gaps, place);
        part += stretch_in(order, gap);
        let given = portion_of(surplus, part, whole);
        set[place] = gap.natural + (given - shared) as i64;
        shared = given;
    }
}

/// Places the columns between gaps that are set.
fn place_columns(widths: &[Option<i64>], set: &[i64], columns: &mut [Edges])
    requires spread { Spread widths.now set.now }
    requires room { length widths.now ≤ length columns.old }
    ensures columns { (j : ℕ) → j < length widths.now → (d : Edges) → slice_index_or columns.new j d ≡ edges_of (widths_on widths.now) (first_on set.now) (behind_on set.now) j }
    ensures len { length columns.new ≡ length columns.old }
{
    let mut left = set[0];
    for j in 0..widths.len() {
        let width = widths[j];
        columns[j] = Edges {
            left,
            right: left + width.unwrap_or(0),
        };
        left += step(width, set[j + 1]);
    }
}

/// Sets columns and gaps to a width, and places the columns. Nothing where the width cannot be had.
pub fn settle(
    widths: &[Option<i64>],
    gaps: &[SideGap],
    aim: Aim,
    set: &mut [i64],
    columns: &mut [Edges],
) -> Option<i64>
    requires tame { Tame widths.now gaps.now }
    requires room { (length gaps.now ≤ length set.old) × (length widths.now ≤ length columns.old) }
    ensures answer { result ≡ width_set (widths_on widths.now) (gaps_on gaps.now) (length widths.now) aim }
    ensures columns { (t : ℤ) → result ≡ Some t → (j : ℕ) → j < length widths.now → (d : Edges) → slice_index_or columns.new j d ≡ edges_set (widths_on widths.now) (gaps_on gaps.now) (length widths.now) aim j }
    ensures near { (t : ℤ) → result ≡ Some t → NearSet (widths_on widths.now) (gaps_on gaps.now) (length widths.now) aim t }
    ensures sizes { (length set.new ≡ length set.old) × (length columns.new ≡ length columns.old) }
{
    let natural = natural_width(widths, gaps);
    let target = aimed(aim, natural);
    if !attainable(natural, target, all_sharers(widths, gaps)) {
        return None;
    }
    share(widths, gaps, upward(target - natural), set);
    place_columns(widths, set, columns);
    Some(target)
}
