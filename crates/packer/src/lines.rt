//! The boxes of all lines, one below the other.
ghost use Rattle.std.specs.Prelude.{◌≡◌, ℕ, ◌+◌, ◌^◌, ◌<◌, ◌≤◌, true, length, take, drop, pos, ◌≤ℤ◌, slice_index_or};
ghost use Rattle.std.specs.List.{list_all};
ghost use Rattle.extent.specs.Sizes.{Within};
ghost use Rattle.sharing.specs.declared.Edges.{Edges as EdgesRecord};
ghost use Rattle.ledger.specs.Chunks.{total};
ghost use Rattle.ledger.specs.Items.{taken};
ghost use Rattle.ledger.specs.Lawful.{all_fine, low};
ghost use Rattle.rows.specs.Held.{counted, rowed, line_of, decoded_entries, decoded_lines};
ghost use Rattle.packer.specs.Looks.{Look};
ghost use Rattle.packer.specs.Boxes.{Columns};
ghost use Rattle.packer.specs.Lines.{rule_height, rule_box, line_size, line_boxes, table_boxes, total_height};
ghost use Rattle.packer.specs.Views.{look_in, items_from, EdgesAre, Stored, HasRoom, Drawn};

use crate::pen::Pen;
use crate::row::total_bytes;
use crate::source::Source;
use boxlist::{BoxRecord, Kind, Store};
use extent::Extent;
use ledger::records::ItemRecord;
use measure::Measurer;
use rows::state::{EntryRecord, LineRecord};
use sharing::Edges;

/// How high a rule is, 0.4pt, before it enters.
const RULE: i64 = 26_214;

/// Entries with the items that they take, whose bytes begin at a place in the line text.
#[derive(Clone, Copy)]
struct Part<'r, E> {
    entries: &'r [EntryRecord<E>],
    items: &'r [ItemRecord],
    place: usize,
}

/// How many entries a line takes.
fn entries_taken(line: LineRecord) -> usize
    ensures { result ≡ rowed line }
{
    match line {
        LineRecord::Row(count) => count,
        _ => 0,
    }
}

/// How many items entries take.
fn total_items<E>(entries: &[EntryRecord<E>]) -> usize
    requires { total counted entries.now < 2 ^ 64 }
    ensures { result ≡ total counted entries.now }
{
    let mut items = 0;
    for entry in entries {
        items += entry.count;
    }
    items
}

impl<'r, E> Part<'r, E> {
    /// What a line takes, and what lies behind that.
    fn split(self, line: LineRecord) -> (Part<'r, E>, Part<'r, E>)
        requires rows { rowed line ≤ length self.entries.now }
        requires counts { total counted self.entries.now ≤ length self.items.now }
        requires text { self.place + total taken self.items.now < 2 ^ 64 }
        ensures entries { result.0.entries.now ≡ take (rowed line) self.entry.entries.now }
        ensures items { result.0.items.now ≡ take (total counted (take (rowed line) self.entry.entries.now)) self.entry.items.now }
        ensures place { result.0.place ≡ self.entry.place }
        ensures entries_behind { result.1.entries.now ≡ drop (rowed line) self.entry.entries.now }
        ensures items_behind { result.1.items.now ≡ drop (total counted (take (rowed line) self.entry.entries.now)) self.entry.items.now }
        ensures place_behind { result.1.place ≡ self.entry.place + total taken (take (total counted (take (rowed line) self.entry.entries.now)) self.entry.items.now) }
    {
        let (entries, rest) = self
            .entries
            .split_at(entries_taken(line).min(self.entries.len()));
        let (items, behind) = self
            .items
            .split_at(total_items(entries).min(self.items.len()));
        let own = Part {
            entries,
            items,
            place: self.place,
        };
        let rest = Part {
            entries: rest,
            items: behind,
            place: self.place + total_bytes(items),
        };
        (own, rest)
    }
}

/// A rule as wide as the table; its box stands on its lower edge.
fn rule_record(top: i64, height: i64, width: i64) -> BoxRecord
    requires { (Within (2 ^ 36) top) × (Within (2 ^ 36) height) }
    ensures { (l : Look) → height ≡ rule_height l → result ≡ rule_box l width top }
{
    BoxRecord {
        kind: Kind::Rule,
        x: 0,
        y: top + height,
        width,
        height,
        depth: 0,
        store: Store::Preamble,
        place: 0,
        len: 0,
    }
}

impl<'s, M: Measurer> Source<'s, M> {
    /// How far a source length reaches on the side that is drawn.
    fn distance(&self, length: i64) -> i64
        requires side { self.now.side < M.Extent.Extent.count }
        requires small { (pos 0 ≤ℤ length) × (length ≤ℤ pos 16777215) }
        ensures is { result ≡ M.Extent.Extent.entered self.now.side length }
        ensures within { (pos 0 ≤ℤ result) × (result ≤ℤ pos 16777215) }
    {
        M::Extent::enter(length).number(self.side).unwrap_or(0)
    }

    /// Draws a line below a top, in a table so wide; answers how far it moves what follows it.
    fn draw_line(
        &self,
        line: LineRecord,
        part: Part<'_, M::Extent>,
        top: i64,
        columns: &[Edges],
        width: i64,
        pen: &mut Pen<'_>,
    ) -> i64
        requires side { self.now.side < M.Extent.Extent.count }
        requires few { length part.items.now ≤ 16384 }
        requires known { all_fine (M.Measurer.meaning self.now.measurer.now) (items_from self.now part.items.now part.place) ≡ true }
        requires low { low (line_of line (decoded_entries part.entries.now (items_from self.now part.items.now part.place))) ≡ true }
        requires stored { Stored M.Extent.Extent.num (look_in M.Measurer M.Extent.Extent self.now) self.now.side (length columns.now) part.entries.now (items_from self.now part.items.now part.place) }
        requires counts { total counted part.entries.now ≡ length part.items.now }
        requires text { part.place + total taken part.items.now ≤ length self.now.lines.now }
        requires top { (pos 0 ≤ℤ top) × (top ≤ℤ pos 34359738368) }
        requires near { (j : ℕ) (d : EdgesRecord) → j < length columns.now → Within (2 ^ 41) (slice_index_or columns.now j d).left × Within (2 ^ 41) (slice_index_or columns.now j d).right }
        requires room { (c : Columns) → EdgesAre c columns.now → HasRoom pen.old (line_boxes (look_in M.Measurer M.Extent.Extent self.now) c width top part.place (line_of line (decoded_entries part.entries.now (items_from self.now part.items.now part.place)))) }
        ensures size { result ≡ line_size (look_in M.Measurer M.Extent.Extent self.now) (line_of line (decoded_entries part.entry.entries.now (items_from self.now part.entry.items.now part.entry.place))) }
        ensures within { (pos 0 ≤ℤ result) × (result ≤ℤ pos 33554430) }
        ensures boxes { (c : Columns) → EdgesAre c columns.now → Drawn pen.old pen.new (line_boxes (look_in M.Measurer M.Extent.Extent self.now) c width top part.entry.place (line_of line (decoded_entries part.entry.entries.now (items_from self.now part.entry.items.now part.entry.place)))) }
    {
        match line {
            LineRecord::Row(_) => {
                let size = self.row_size(part.items, part.place);
                let baseline = top + size.height;
                self.draw_row(part.entries, part.items, part.place, baseline, columns, pen);
                size.height + size.depth
            }
            LineRecord::Rule => {
                let height = self.distance(RULE);
                pen.put(rule_record(top, height, width));
                height
            }
            LineRecord::Gap(length) => self.distance(length),
        }
    }

    /// Draws lines one below the other, in a table so wide; answers their height.
    pub(crate) fn draw_lines(
        &self,
        lines: &[LineRecord],
        entries: &[EntryRecord<M::Extent>],
        items: &[ItemRecord],
        columns: &[Edges],
        width: i64,
        pen: &mut Pen<'_>,
    ) -> i64
        requires side { self.now.side < M.Extent.Extent.count }
        requires few { (length items.now ≤ 16384) × (length lines.now ≤ 1024) }
        requires known { all_fine (M.Measurer.meaning self.now.measurer.now) (items_from self.now items.now 0) ≡ true }
        requires low { list_all low (decoded_lines lines.now (decoded_entries entries.now (items_from self.now items.now 0))) ≡ true }
        requires stored { Stored M.Extent.Extent.num (look_in M.Measurer M.Extent.Extent self.now) self.now.side (length columns.now) entries.now (items_from self.now items.now 0) }
        requires rows { total rowed lines.now ≤ length entries.now }
        requires counts { total counted entries.now ≤ length items.now }
        requires text { total taken items.now ≤ length self.now.lines.now }
        requires near { (j : ℕ) (d : EdgesRecord) → j < length columns.now → Within (2 ^ 41) (slice_index_or columns.now j d).left × Within (2 ^ 41) (slice_index_or columns.now j d).right }
        requires room { (c : Columns) → EdgesAre c columns.now → HasRoom pen.old (table_boxes (look_in M.Measurer M.Extent.Extent self.now) c width (pos 0) 0 (decoded_lines lines.now (decoded_entries entries.now (items_from self.now items.now 0)))) }
        ensures height { result ≡ total_height (look_in M.Measurer M.Extent.Extent self.now) (decoded_lines lines.now (decoded_entries entries.now (items_from self.now items.now 0))) }
        ensures boxes { (c : Columns) → EdgesAre c columns.now → Drawn pen.old pen.new (table_boxes (look_in M.Measurer M.Extent.Extent self.now) c width (pos 0) 0 (decoded_lines lines.now (decoded_entries entries.now (items_from self.now items.now 0)))) }
    {
        let mut rest = Part {
            entries,
            items,
            place: 0,
        };
        let mut top = 0;
        for line in lines {
            let (own, behind) = rest.split(*line);
            top += self.draw_line(*line, own, top, columns, width, pen);
            rest = behind;
        }
        top
    }
}
