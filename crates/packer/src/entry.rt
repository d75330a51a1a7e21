//! The boxes of an entry.
ghost use Rattle.std.specs.Prelude.{◌≡◌, ℕ, ◌+◌, ◌^◌, ◌<◌, ◌≤◌, true, length, pos, ◌-ℤ◌, slice_index_or};
ghost use Rattle.extent.specs.Sizes.{Within};
ghost use Rattle.boxlist.specs.declared.Kind.TheVariants as kinds;
ghost use Rattle.sharing.specs.declared.Edges.{Edges as EdgesRecord};
ghost use Rattle.sharing.specs.Gaps as Gaps;
ghost use Rattle.ledger.specs.Chunks.{total};
ghost use Rattle.ledger.specs.Items.{taken};
ghost use Rattle.ledger.specs.Lawful.{all_fine, fine};
ghost use Rattle.rows.specs.Held.{entry_of};
ghost use Rattle.packer.specs.Boxes.{Columns, wide_in, box_of, item_boxes, entry_boxes};
ghost use Rattle.packer.specs.Walks.{filled, spot_at, fills_by};
ghost use Rattle.packer.specs.Views.{look_in, item_in, items_from, measures_of, EdgesAre, HasRoom, Drawn};

use crate::pen::Pen;
use crate::source::{Measures, Source, bytes_taken, cut, on_side};
use boxlist::{BoxRecord, Kind, Store};
use ledger::records::ItemRecord;
use measure::Measurer;
use rows::state::EntryRecord;
use sharing::Edges;
use sharing::rule::{portion_of, upward};

/// Where an item stands: its left edge, its baseline, and the place of its bytes in the line text.
#[derive(Clone, Copy, PartialEq, Eq, Debug)]
struct Stand {
    x: i64,
    y: i64,
    place: usize,
}

/// What the fills of an entry share, and how many they are.
#[derive(Clone, Copy, PartialEq, Eq, Debug)]
struct Shared {
    surplus: u64,
    fills: u64,
}

/// Where a word's bytes are.
#[derive(Clone, Copy, PartialEq, Eq, Debug)]
struct Bytes {
    store: Store,
    place: usize,
    len: usize,
}

/// Whether an item is a fill, as a number.
fn count_fill(item: ItemRecord) -> u64
    ensures { result ≡ filled item }
{
    match item {
        ItemRecord::Hfil => 1,
        _ => 0,
    }
}

/// How many of the items are fills.
fn count_fills(items: &[ItemRecord]) -> u64
    ensures { result ≡ total filled items.now }
{
    let mut fills = 0;
    for item in items {
        fills += count_fill(*item);
    }
    fills
}

/// What the columns of an entry, from the first to the last, leave of its natural width.
fn left_over(first: Edges, last: Edges, natural: i64) -> u64
    requires left { Within (2 ^ 41) first.left }
    requires right { Within (2 ^ 41) last.right }
    requires natural { Within (2 ^ 45) natural }
    ensures is { result ≡ Gaps.upward ((last.right -ℤ first.left) -ℤ natural) }
    ensures within { result ≤ 2 ^ 46 }
{
    upward(last.right - first.left - natural)
}

/// A word's box.
fn word_box(measures: Measures, at: Stand, bytes: Bytes) -> BoxRecord
    requires place { bytes.place < 2 ^ 63 }
    requires len { bytes.len < 2 ^ 63 }
    ensures { result ≡ record { kind = kinds.Word; x = at.x; y = at.y; width = measures.wide; height = measures.high; depth = measures.deep; store = bytes.store; place = pos bytes.place; len = pos bytes.len } }
{
    BoxRecord {
        kind: Kind::Word,
        x: at.x,
        y: at.y,
        width: measures.wide,
        height: measures.high,
        depth: measures.deep,
        store: bytes.store,
        place: bytes.place as i64,
        len: bytes.len as i64,
    }
}

impl<'s, M: Measurer> Source<'s, M> {
    /// Draws the box of an item, if it has one.
    fn draw_item(&self, item: ItemRecord, measures: Measures, at: Stand, pen: &mut Pen<'_>)
        requires known { fine (M.Measurer.meaning self.now.measurer.now) (item_in self.now item at.place) ≡ true }
        requires measures { measures ≡ measures_of (look_in M.Measurer M.Extent.Extent self.now) (item_in self.now item at.place) }
        requires text { at.place ≤ length self.now.lines.now }
        requires room { HasRoom pen.old (box_of (look_in M.Measurer M.Extent.Extent self.now) (spot_at at) (item_in self.now item at.place)) }
        ensures { Drawn pen.old pen.new (box_of (look_in M.Measurer M.Extent.Extent self.now) (spot_at at) (item_in self.now item at.place)) }
    {
        match item {
            ItemRecord::CellWord(count) => {
                let len = cut(self.lines, at.place, count).len();
                let bytes = Bytes {
                    store: Store::Lines,
                    place: at.place,
                    len,
                };
                pen.put(word_box(measures, at, bytes));
            }
            ItemRecord::TemplateWord(from, count) => {
                let len = cut(self.preamble, from, count).len();
                let bytes = Bytes {
                    store: Store::Preamble,
                    place: from,
                    len,
                };
                pen.put(word_box(measures, at, bytes));
            }
            ItemRecord::Space | ItemRecord::Kern(_) | ItemRecord::Hfil => {}
        }
    }

    /// Draws items one behind the other. What stands behind fills is moved by their portion of the surplus.
    fn draw_items(&self, items: &[ItemRecord], from: Stand, shared: Shared, pen: &mut Pen<'_>)
        requires side { self.now.side < M.Extent.Extent.count }
        requires few { length items.now ≤ 16384 }
        requires known { all_fine (M.Measurer.meaning self.now.measurer.now) (items_from self.now items.now from.place) ≡ true }
        requires text { from.place + total taken items.now ≤ length self.now.lines.now }
        requires near { Within (2 ^ 41) from.x }
        requires surplus { shared.surplus ≤ 2 ^ 46 }
        requires fills { shared.fills ≡ total filled items.now }
        requires room { HasRoom pen.old (item_boxes (look_in M.Measurer M.Extent.Extent self.now) (fills_by shared) 0 (spot_at from) (items_from self.now items.now from.place)) }
        ensures { Drawn pen.old pen.new (item_boxes (look_in M.Measurer M.Extent.Extent self.now) (fills_by shared) 0 (spot_at from) (items_from self.now items.now from.place)) }
    {
        let mut at = from;
        let mut passed = 0;
        for item in items {
            let measures = self.measures(*item, at.place);
            let grown = portion_of(shared.surplus, passed, shared.fills) as i64;
            let moved = Stand {
                x: at.x + grown,
                ..at
            };
            self.draw_item(*item, measures, moved, pen);
            at.x += measures.wide;
            at.place += bytes_taken(*item);
            passed += count_fill(*item);
        }
    }

    /// Draws an entry: its items, whose bytes begin at a place in the line text, on a baseline.
    pub(crate) fn draw_entry(
        &self,
        entry: EntryRecord<M::Extent>,
        items: &[ItemRecord],
        place: usize,
        baseline: i64,
        columns: &[Edges],
        pen: &mut Pen<'_>,
    )
        requires side { self.now.side < M.Extent.Extent.count }
        requires few { length items.now ≤ 16384 }
        requires known { all_fine (M.Measurer.meaning self.now.measurer.now) (items_from self.now items.now place) ≡ true }
        requires text { place + total taken items.now ≤ length self.now.lines.now }
        requires lies { (entry.entry.first ≤ entry.entry.last) × (entry.entry.last < length columns.now) }
        requires stored { M.Extent.Extent.num entry.entry.width self.now.side ≡ wide_in (look_in M.Measurer M.Extent.Extent self.now) (items_from self.now items.now place) }
        requires near { (j : ℕ) (d : EdgesRecord) → j < length columns.now → Within (2 ^ 41) (slice_index_or columns.now j d).left × Within (2 ^ 41) (slice_index_or columns.now j d).right }
        requires room { (c : Columns) → EdgesAre c columns.now → HasRoom pen.old (entry_boxes (look_in M.Measurer M.Extent.Extent self.now) c baseline place (entry_of entry (items_from self.now items.now place))) }
        ensures { (c : Columns) → EdgesAre c columns.now → Drawn pen.old pen.new (entry_boxes (look_in M.Measurer M.Extent.Extent self.now) c baseline place (entry_of entry (items_from self.now items.now place))) }
    {
        let first = columns[entry.entry.first];
        let last = columns[entry.entry.last];
        let natural = on_side(entry.entry.width, self.side);
        let shared = Shared {
            surplus: left_over(first, last, natural),
            fills: count_fills(items),
        };
        let from = Stand {
            x: first.left,
            y: baseline,
            place,
        };
        self.draw_items(items, from, shared, pen);
    }
}
