ghost use Rattle.std.specs.Prelude.{◌≡◌, ◌+◌, ◌-◌, ◌<◌, ◌≤◌, [], ◌∷◌, length, set};
ghost use Rattle.ledger.specs.Chunks.{total};
ghost use Rattle.rows.specs.Good.{Acts, moved, moved_on, ended, based, lined, back};
ghost use Rattle.rows.specs.Held.{over, Fit, pushed, closed, laid_down, emptied, ruled, rowed, line_of};
ghost use Rattle.ledger.specs.Items.{meant, taken, decoded_items};

use crate::draft::Draft;
use crate::puts::Put;
use crate::state::{EntryRecord, LineRecord};
use ledger::records::ItemRecord;
use widths::Entry;

fn write<T: Copy>(all: &mut [T], place: usize, part: &[T])
    requires { place + length part.now ≤ length all.old }
    ensures { all.new ≡ over all.old place part.now }
{
    all[place..place + part.len()].copy_from_slice(part);
}

impl<'a, E: Copy> Draft<'a, E> {
    /// One more item, with the bytes of its word.
    pub(crate) fn add_item(&mut self, put: Put<E>)
        requires fit { Fit self.old.state self.old.memory }
        requires items { self.old.state.marks.items < length self.old.memory.items.now }
        requires text { self.old.state.marks.text + length put.word.now ≤ length self.old.memory.text.now }
        ensures acts { Acts (λ p h. pushed h (meant p put.entry.item put.entry.word.now ∷ [])) self.old.memory.entries.now self.old self.new }
        ensures state { self.new.state ≡ moved self.old.state 1 (length put.entry.word.now) }
    {
        let at = self.state.marks.items;
        let place = self.state.marks.text;
        write(self.memory.text, place, put.word);
        self.memory.items[at] = put.item;
        self.state.marks.items = at + 1;
        self.state.marks.text = place + put.word.len();
    }

    /// More items, of a template.
    pub(crate) fn add_part(&mut self, pieces: &[ItemRecord])
        requires fit { Fit self.old.state self.old.memory }
        requires items { self.old.state.marks.items + length pieces.now ≤ length self.old.memory.items.now }
        requires bytes { total taken pieces.now ≡ 0 }
        ensures acts { Acts (λ p h. pushed h (decoded_items p pieces.now [])) self.old.memory.entries.now self.old self.new }
        ensures state { self.new.state ≡ moved_on self.old.state (length pieces.now) }
    {
        let at = self.state.marks.items;
        write(self.memory.items, at, pieces);
        self.state.marks.items = at + pieces.len();
    }

    /// The items so far become an entry.
    pub(crate) fn end_entry(&mut self, last: usize)
        requires fit { Fit self.old.state self.old.memory }
        requires entries { self.old.state.marks.entries < length self.old.memory.entries.now }
        ensures acts { Acts (λ p h. closed h self.old.state.row.first last) (set self.old.memory.entries.now self.old.state.marks.entries (record { entry = record { first = self.old.state.row.first; last = last; width = self.old.state.row.width }; count = self.old.state.marks.items - self.old.state.row.begin })) self.old self.new }
        ensures state { self.new.state ≡ ended self.old.state }
    {
        let at = self.state.marks.entries;
        let row = self.state.row;
        let count = self.state.marks.items - row.begin;
        let entry = Entry {
            first: row.first,
            last,
            width: row.width,
        };
        self.memory.entries[at] = EntryRecord { entry, count };
        self.state.marks.entries = at + 1;
        self.state.row.begin = self.state.marks.items;
    }

    /// The entries so far become a row.
    pub(crate) fn end_row(&mut self)
        requires fit { Fit self.old.state self.old.memory }
        requires lines { self.old.state.lines < length self.old.memory.lines.now }
        requires begin { self.old.state.row.begin ≡ self.old.state.marks.items }
        ensures acts { Acts (λ p h. laid_down h) self.old.memory.entries.now self.old self.new }
        ensures state { self.new.state ≡ based self.old.state }
    {
        let n = self.state.lines;
        let count = self.state.marks.entries - self.state.laid.entries;
        self.memory.lines[n] = LineRecord::Row(count);
        self.state.lines = n + 1;
        self.state.laid = self.state.marks;
    }

    /// A line without entries.
    pub(crate) fn add_bare(&mut self, line: LineRecord)
        requires fit { Fit self.old.state self.old.memory }
        requires lines { self.old.state.lines < length self.old.memory.lines.now }
        requires bare { rowed line ≡ 0 }
        ensures acts { Acts (λ p h. ruled h (line_of line [])) self.old.memory.entries.now self.old self.new }
        ensures state { self.new.state ≡ lined self.old.state }
    {
        let n = self.state.lines;
        self.memory.lines[n] = line;
        self.state.lines = n + 1;
    }

    /// Back to what is laid.
    pub(crate) fn go_back(&mut self)
        requires fit { Fit self.old.state self.old.memory }
        ensures acts { Acts (λ p h. emptied h) self.old.memory.entries.now self.old self.new }
        ensures state { self.new.state ≡ back self.old.state }
    {
        self.state.marks = self.state.laid;
        self.state.row.begin = self.state.laid.items;
    }
}
