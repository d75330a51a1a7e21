//! The boxes of a row, and its height and depth.
ghost use Rattle.std.specs.Prelude.{◌≡◌, ℕ, ◌+◌, ◌^◌, ◌<◌, ◌≤◌, true, length, pos, ◌≤ℤ◌, slice_index_or};
ghost use Rattle.std.specs.Int.{int_max};
ghost use Rattle.extent.specs.Sizes.{Within};
ghost use Rattle.sharing.specs.declared.Edges.{Edges as EdgesRecord};
ghost use Rattle.ledger.specs.Chunks.{total};
ghost use Rattle.ledger.specs.Items.{taken};
ghost use Rattle.ledger.specs.Lawful.{all_fine};
ghost use Rattle.rows.specs.Held.{counted, decoded_entries};
ghost use Rattle.packer.specs.Looks.{most};
ghost use Rattle.packer.specs.Boxes.{Columns, row_boxes};
ghost use Rattle.packer.specs.Views.{look_in, items_from, EdgesAre, Stored, HasRoom, Drawn};

use crate::pen::Pen;
use crate::source::{Measures, Source, bytes_taken};
use extent::Extent;
use ledger::records::ItemRecord;
use measure::Measurer;
use rows::state::EntryRecord;
use sharing::Edges;

/// A row's height and depth.
#[derive(Clone, Copy, PartialEq, Eq, Debug)]
pub(crate) struct RowSize {
    pub(crate) height: i64,
    pub(crate) depth: i64,
}

impl RowSize {
    /// With one more item.
    fn with(self, item: Measures) -> RowSize
        ensures height { result.height ≡ int_max self.height item.high }
        ensures depth { result.depth ≡ int_max self.depth item.deep }
    {
        RowSize {
            height: self.height.max(item.high),
            depth: self.depth.max(item.deep),
        }
    }
}

/// How many bytes of the line text items take.
pub(crate) fn total_bytes(items: &[ItemRecord]) -> usize
    requires { total taken items.now < 2 ^ 64 }
    ensures { result ≡ total taken items.now }
{
    let mut bytes = 0;
    for item in items {
        bytes += bytes_taken(*item);
    }
    bytes
}

impl<'s, M: Measurer> Source<'s, M> {
    /// The largest height and depth of items, at least 0.
    pub(crate) fn row_size(&self, items: &[ItemRecord], place: usize) -> RowSize
        requires side { self.now.side < M.Extent.Extent.count }
        requires known { all_fine (M.Measurer.meaning self.now.measurer.now) (items_from self.now items.now place) ≡ true }
        requires text { place + total taken items.now ≤ length self.now.lines.now }
        ensures height { result.height ≡ most (look_in M.Measurer M.Extent.Extent self.now).high (items_from self.now items.now place) }
        ensures depth { result.depth ≡ most (look_in M.Measurer M.Extent.Extent self.now).deep (items_from self.now items.now place) }
        ensures high { (pos 0 ≤ℤ result.height) × (result.height ≤ℤ pos 16777215) }
        ensures deep { (pos 0 ≤ℤ result.depth) × (result.depth ≤ℤ pos 16777215) }
    {
        let mut size = RowSize {
            height: 0,
            depth: 0,
        };
        let mut place = place;
        for item in items {
            size = size.with(self.measures(*item, place));
            place += bytes_taken(*item);
        }
        size
    }

    /// Draws the entries of a row on a baseline, the items of the first from the front on.
    pub(crate) fn draw_row(
        &self,
        entries: &[EntryRecord<M::Extent>],
        items: &[ItemRecord],
        place: usize,
        baseline: i64,
        columns: &[Edges],
        pen: &mut Pen<'_>,
    )
        requires side { self.now.side < M.Extent.Extent.count }
        requires few { length items.now ≤ 16384 }
        requires known { all_fine (M.Measurer.meaning self.now.measurer.now) (items_from self.now items.now place) ≡ true }
        requires stored { Stored M.Extent.Extent.num (look_in M.Measurer M.Extent.Extent self.now) self.now.side (length columns.now) entries.now (items_from self.now items.now place) }
        requires counts { total counted entries.now ≤ length items.now }
        requires text { place + total taken items.now ≤ length self.now.lines.now }
        requires near { (j : ℕ) (d : EdgesRecord) → j < length columns.now → Within (2 ^ 41) (slice_index_or columns.now j d).left × Within (2 ^ 41) (slice_index_or columns.now j d).right }
        requires room { (c : Columns) → EdgesAre c columns.now → HasRoom pen.old (row_boxes (look_in M.Measurer M.Extent.Extent self.now) c baseline place (decoded_entries entries.now (items_from self.now items.now place))) }
        ensures { (c : Columns) → EdgesAre c columns.now → Drawn pen.old pen.new (row_boxes (look_in M.Measurer M.Extent.Extent self.now) c baseline place (decoded_entries entries.now (items_from self.now items.now place))) }
    {
        let mut place = place;
        let mut rest = items;
        for entry in entries {
            let (own, behind) = rest.split_at(entry.count.min(rest.len()));
            self.draw_entry(*entry, own, place, baseline, columns, pen);
            place += total_bytes(own);
            rest = behind;
        }
    }
}
