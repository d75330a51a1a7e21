ghost use Rattle.std.specs.Prelude.{◌≡◌, ℕ, ◌+◌, ◌-◌, ◌^◌, ◌<◌, ◌≤◌, map, length, take, Some, ℤ, pos, ◌≤ℤ◌, slice_index_or};
ghost use Rattle.extent.specs.Sizes.{Within};
ghost use Rattle.lengths.specs.Gaps.{parts_of};
ghost use Rattle.widths.specs.Merging.{seen};
ghost use Rattle.sharing.specs.declared.Edges.{Edges as EdgesRecord};
ghost use Rattle.sharing.specs.Columns.{width_set};
ghost use Rattle.sharing.specs.Views.{widths_on, gaps_on};
ghost use Rattle.packer.specs.Settings.{has_side, set_answer, set_records};
ghost use Rattle.packer.specs.Views.{EdgesAre};
ghost use Rattle.table.specs.Views.{gaps_of, lengths_in, columns_in, ledger_in};
ghost use Rattle.table.specs.Sets.{Sets};
ghost use Rattle.table.specs.Setting.{widths_of, gap_on, side_gaps, set_at, setting_in};

use crate::asks::naturals;
use crate::table::Table;
use crate::work::{Spread, Workspace};
use boxlist::BoxRecord;
use extent::Extent;
use faults::{Cause, Fault};
use lengths::gap::Gap;
use measure::Measurer;
use packer::Laid;
use packer::set::set_lines;
use rows::preamble::Preamble;
use sharing::columns::settle;
use sharing::{Aim, Edges, SideGap};

// The side that is set, counted from 0, and the width.
#[derive(Clone, Copy)]
struct Target {
    side: usize,
    aim: Aim,
}

// Sides are counted from 1.
fn has_side<E: Extent>(side: usize) -> bool
    ensures { result ≡ has_side E.count side }
{
    (1..=E::sides()).contains(&side)
}

// The number of a width on a side.
fn number<E: Extent>(width: Option<E>, side: usize) -> Option<i64>
    requires { side < E.count }
    ensures { result ≡ seen E.num side width }
{
    match width {
        Some(width) => width.number(side),
        None => None,
    }
}

// The numbers of the first widths on a side.
fn numbers<E: Extent>(widths: &[Option<E>], count: usize, side: usize, numbers: &mut [Option<i64>])
    requires side { side < E.count }
    requires room { (count ≤ length widths.now) × (count ≤ length numbers.old) }
    ensures is { take count numbers.new ≡ map (seen E.num side) (take count widths.now) }
    ensures same { length numbers.new ≡ length numbers.old }
{
    for (i, width) in widths[..count].iter().enumerate() {
        numbers[i] = number(*width, side);
    }
}

// A gap on a side: its length as it enters there.
fn gap_of<E: Extent>(gap: Gap, side: usize) -> SideGap
    requires { side < E.count }
    ensures { result ≡ gap_on E.entered side (parts_of gap) }
{
    SideGap {
        natural: E::enter(gap.natural()).number(side).unwrap_or(0),
        stretch: gap.stretch(),
        order: gap.order(),
    }
}

// The starting gap and the gaps after the columns, on a side.
fn gaps_in<E: Extent>(preamble: &Preamble<E>, side: usize, gaps: &mut [SideGap])
    requires side { side < E.count }
    requires room { length preamble.now.columns.now < length gaps.old }
    ensures is { take (length preamble.now.columns.now + 1) gaps.new ≡ map (gap_on E.entered side) (gaps_of preamble.now) }
    ensures same { length gaps.new ≡ length gaps.old }
{
    gaps[0] = gap_of::<E>(preamble.start, side);
    for (i, column) in preamble.columns.iter().enumerate() {
        gaps[i + 1] = gap_of::<E>(column.gap, side);
    }
}

impl<'a, 'p, 'm, M: Measurer> Table<'a, 'p, 'm, M> {
    // The widths of the columns on a side, counted from 0.
    fn side_widths(
        &self,
        side: usize,
        gaps: &[i64],
        cells: &mut [Option<M::Extent>],
        widths: &mut [Option<M::Extent>],
        on_side: &mut [Option<i64>],
    )
        requires side { side < M.Extent.Extent.count }
        requires room { (1024 ≤ length cells.old) × ((32 ≤ length widths.old) × (32 ≤ length on_side.old)) }
        requires gaps { gaps.now ≡ lengths_in self.now }
        ensures is { take (columns_in self.now) on_side.new ≡ widths_of self.now side }
        ensures same { length on_side.new ≡ length on_side.old }
    {
        self.all_widths(gaps, cells, widths);
        let count = self.columns();
        numbers(widths, count, side, on_side);
    }

    // Sets the columns of these widths and gaps, and the laid lines between them.
    fn set_between(
        &self,
        target: Target,
        widths: &[Option<i64>],
        gaps: &[SideGap],
        set: &mut [i64],
        columns: &mut [Edges],
        records: &mut [BoxRecord],
    ) -> Result<Laid, Fault>
        requires side { target.side < M.Extent.Extent.count }
        requires widths { widths.now ≡ widths_of self.now target.side }
        requires gaps { gaps.now ≡ side_gaps self.now target.side }
        requires room { (33 ≤ length set.old) × (32 ≤ length columns.old) }
        ensures answer { result ≡ set_answer (length records.old) (set_at self.now target.side target.aim) }
        ensures records { records.new ≡ set_records (set_at self.now target.side target.aim) records.old }
    {
        let Some(width) = settle(widths, gaps, target.aim, set, columns) else {
            return Err(Cause::CannotSet.at(0));
        };
        let count = self.columns();
        set_lines(
            self.measurer,
            &self.rows,
            target.side,
            &columns[0..count],
            width,
            records,
        )
    }

    // The same as `set`, on a side that there is.
    fn set_on(
        &self,
        target: Target,
        work: &mut Workspace<M::Extent>,
        spread: &mut Spread,
        records: &mut [BoxRecord],
    ) -> Result<Laid, Fault>
        requires side { target.side < M.Extent.Extent.count }
        ensures answer { result ≡ set_answer (length records.old) (set_at self.now target.side target.aim) }
        ensures records { records.new ≡ set_records (set_at self.now target.side target.aim) records.old }
    {
        let preamble = &self.rows.preamble;
        let count = preamble.count();
        let lengths = &mut work.lengths;
        naturals(preamble, lengths);
        let used = &lengths[0..count + 1];
        let cells = &mut work.cells;
        let widths = &mut work.widths;
        let on_side = &mut spread.numbers;
        self.side_widths(target.side, used, cells, widths, on_side);
        let gaps = &mut spread.gaps;
        gaps_in(preamble, target.side, gaps);
        let set = &mut spread.set;
        let columns = &mut spread.columns;
        self.set_between(
            target,
            &on_side[0..count],
            &gaps[0..count + 1],
            set,
            columns,
            records,
        )
    }

    /// Sets the laid lines on a side, counted from 1, to the natural width or to one that is asked for, and writes their boxes
    /// to the first records. A refusal writes none.
    pub fn set(
        &self,
        side: usize,
        aim: Aim,
        work: &mut Workspace<M::Extent>,
        spread: &mut Spread,
        records: &mut [BoxRecord],
    ) -> Result<Laid, Fault>
        ensures answer { result ≡ set_answer (length records.old) (setting_in self.now side aim) }
        ensures records { records.new ≡ set_records (setting_in self.now side aim) records.old }
        ensures law { Sets self.now side aim records.new result }
    {
        if !has_side::<M::Extent>(side) {
            return Err(Cause::NoSuchSide.at(0));
        }
        let target = Target {
            side: side - 1,
            aim,
        };
        self.set_on(target, work, spread, records)
    }
}
