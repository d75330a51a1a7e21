//! A table's lines, set between columns that stand.
ghost use Rattle.std.specs.Prelude.{◌≡◌, ℕ, ◌^◌, ◌<◌, ◌≤◌, true, length, Ok, slice_index_or};
ghost use Rattle.std.specs.List.{list_all, flat_map};
ghost use Rattle.extent.specs.Sizes.{Within};
ghost use Rattle.sharing.specs.declared.Edges.{Edges as EdgesRecord};
ghost use Rattle.ledger.specs.Chunks.{total};
ghost use Rattle.ledger.specs.Calls.{items_in, laid_entries};
ghost use Rattle.ledger.specs.Lawful.{all_fine, low};
ghost use Rattle.ledger.specs.Naturals.{wide_of};
ghost use Rattle.rows.specs.Columns.{columns_in};
ghost use Rattle.rows.specs.Views.{ledger_at, SoundAt};
ghost use Rattle.packer.specs.Looks.{look_of};
ghost use Rattle.packer.specs.Boxes.{Columns};
ghost use Rattle.packer.specs.Settings.{lines_set, set_answer, set_records};
ghost use Rattle.packer.specs.Counted.{boxed, ruled};
ghost use Rattle.packer.specs.Views.{EdgesAre};

use crate::Laid;
use crate::pen::Pen;
use crate::source::Source;
use boxlist::BoxRecord;
use extent::Extent;
use faults::{Cause, Fault};
use ledger::records::ItemRecord;
use measure::Measurer;
use rows::draft::Draft;
use rows::rows::Rows;
use rows::state::LineRecord;
use sharing::Edges;

/// How many boxes an item has.
fn count_word(item: ItemRecord) -> usize
    ensures { result ≡ boxed item }
{
    match item {
        ItemRecord::CellWord(_) | ItemRecord::TemplateWord(..) => 1,
        _ => 0,
    }
}

/// How many boxes items have.
fn count_words(items: &[ItemRecord]) -> usize
    ensures is { result ≡ total boxed items.now }
    ensures small { result ≤ length items.now }
{
    let mut boxes = 0;
    for item in items {
        boxes += count_word(*item);
    }
    boxes
}

/// How many boxes a line has besides those of its items.
fn count_rule(line: LineRecord) -> usize
    ensures { result ≡ ruled line }
{
    match line {
        LineRecord::Rule => 1,
        _ => 0,
    }
}

/// How many rules there are among lines.
fn count_rules(lines: &[LineRecord]) -> usize
    ensures is { result ≡ total ruled lines.now }
    ensures small { result ≤ length lines.now }
{
    let mut boxes = 0;
    for line in lines {
        boxes += count_rule(*line);
    }
    boxes
}

/// Writes the boxes of all laid lines, on a side counted from 0, between columns as they are set, in a table so wide.
pub fn set_lines<M: Measurer>(
    measurer: &M,
    rows: &Rows<'_, '_, M::Extent>,
    side: usize,
    columns: &[Edges],
    width: i64,
    records: &mut [BoxRecord],
) -> Result<Laid, Fault>
    requires side { side < M.Extent.Extent.count }
    requires known { all_fine (M.Measurer.meaning measurer.now) (flat_map items_in (laid_entries (ledger_at rows.now))) ≡ true }
    requires low { list_all low (ledger_at rows.now).lines ≡ true }
    requires sound { SoundAt M.Extent.Extent.count M.Extent.Extent.num (wide_of M.Measurer M.Extent.Extent measurer.now) rows.now }
    requires columns { length columns.now ≡ length (columns_in rows.now.preamble.columns.now) }
    requires near { (j : ℕ) (d : EdgesRecord) → j < length columns.now → Within (2 ^ 41) (slice_index_or columns.now j d).left × Within (2 ^ 41) (slice_index_or columns.now j d).right }
    ensures answer { (c : Columns) → EdgesAre c columns.now → result ≡ set_answer (length records.old) (Ok (lines_set (look_of M.Measurer M.Extent.Extent measurer.now side) c (ledger_at rows.now).lines width)) }
    ensures records { (c : Columns) → EdgesAre c columns.now → records.new ≡ set_records (Ok (lines_set (look_of M.Measurer M.Extent.Extent measurer.now side) c (ledger_at rows.now).lines width)) records.old }
{
    let Draft { state, memory } = &rows.draft;
    let lines = &memory.lines[..state.lines];
    let entries = &memory.entries[..state.laid.entries];
    let items = &memory.items[..state.laid.items];
    let boxes = count_words(items) + count_rules(lines);
    if records.len() < boxes {
        return Err(Cause::TooLittleRoom.at(0));
    }
    let source = Source {
        measurer,
        preamble: rows.preamble.text,
        lines: &memory.text[..state.laid.text],
        side,
    };
    let mut pen = Pen::new(records);
    let height = source.draw_lines(lines, entries, items, columns, width, &mut pen);
    Ok(Laid {
        width,
        height,
        boxes,
    })
}
