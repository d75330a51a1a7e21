//! Items that are put into a begun cell.
ghost use Rattle.std.specs.Prelude.{◌≡◌, ℕ, ◌<◌, ◌≤◌, true, length, ℤ, pos, ◌≢◌};
ghost use Rattle.extent.specs.Sizes.{Within};
ghost use Rattle.ledger.specs.Ledger.{Item};
ghost use Rattle.ledger.specs.Naturals.{add_verdict};
ghost use Rattle.ledger.specs.Calls.{on_open, puts};
ghost use Rattle.ledger.specs.Items.{taken, meant};
ghost use Rattle.rows.specs.Good.{begun_in};
ghost use Rattle.rows.specs.declared.state.Stage.{Stage as TheStage};
ghost use Rattle.rows.specs.Answers.{unless, followed};
ghost use Rattle.rows.specs.Views.{templates_at, room_at, ledger_at, SoundAt, Stays};

use crate::rows::Rows;
use crate::state::Stage;
use extent::Extent;
use faults::{Cause, Fault};
use ledger::records::{ItemRecord, Owed, Room};
use ledger::sums::outside;

/// An item to be put: its record, its width, and the bytes of its word.
#[derive(Drop)]
pub struct Put<'w, E> {
    pub item: ItemRecord,
    pub width: E,
    pub word: &'w [u8],
    pub ghost bytes: { taken item ≡ length word.now },
    pub ghost few: { length word.now ≤ 255 },
}

impl Stage {
    /// The width of what the cell is still to get of v.
    fn owed_width<E: Extent>(self, widths: Owed<E>) -> E
        ensures begun { self ≡ TheStage.Begun → result ≡ widths.v }
        ensures rest { (self ≢ TheStage.Begun) → (k : ℕ) → k < E.count → E.num result k ≡ pos 0 }
    {
        if self == Stage::Begun {
            widths.v
        } else {
            E::zero()
        }
    }
}

impl<'a, 'p, E: Extent> Rows<'a, 'p, E> {
    /// Adds an item that is measured.
    #[inline(always)]
    pub fn add(&mut self, put: Put<E>) -> Result<(), Fault>
        requires begun { begun_in self.old.draft.state.stage ≡ true }
        ensures answer { (wide : Item → ℕ → ℤ) → SoundAt E.count E.num wide self.old → ((k : ℕ) → k < E.count → (E.num put.entry.width k ≡ wide (meant self.old.preamble.text.now put.entry.item put.entry.word.now) k) × Within 1073741823 (E.num put.entry.width k))
            → result ≡ unless (add_verdict E.count wide (templates_at self.old) (room_at self.old) (ledger_at self.old) (meant self.old.preamble.text.now put.entry.item put.entry.word.now)) tt }
        ensures ledger { ledger_at self.new ≡ followed result (ledger_at self.old) (on_open (puts (meant self.old.preamble.text.now put.entry.item put.entry.word.now) (ledger_at self.old)) (ledger_at self.old) (ledger_at self.old).hand) }
        ensures sound { (wide : Item → ℕ → ℤ) → SoundAt E.count E.num wide self.old → ((k : ℕ) → k < E.count → (E.num put.entry.width k ≡ wide (meant self.old.preamble.text.now put.entry.item put.entry.word.now) k) × Within 1073741823 (E.num put.entry.width k))
            → SoundAt E.count E.num wide self.new }
        ensures stays { Stays self.old self.new }
    {
        let state = self.draft.state;
        let row = state.row;
        let here = self.column(row.column);
        let behind = state.stage.owed_width(here.widths);
        let sum = row.width.sum(put.width);
        if outside(sum.sum(behind)) {
            return Err(Cause::EntryTooWide.at(0));
        }
        let owed = state.stage.owed(here.template);
        if self.draft.memory.lacks(Room {
            items: state.marks.items + owed + 1,
            entries: state.marks.entries + 1,
            lines: state.lines + 1,
            text: state.marks.text + put.word.len(),
        }) {
            return Err(Cause::Full.at(0));
        }
        self.draft.add_item(put);
        self.draft.state.row.width = sum;
        Ok(())
    }
}
