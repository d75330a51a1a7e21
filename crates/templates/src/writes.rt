//! The places of the memory that are written.
ghost use Rattle.std.specs.Prelude.{◌≡◌, ◌<◌, length};
ghost use Rattle.templates.specs.Readings.{with_piece, with_column};

use crate::memory::{Hand, Templates};
use ledger::records::ItemRecord;

impl<E: Copy> Templates<E> {
    /// Writes an item.
    pub(crate) fn put_item(&mut self, at: usize, item: ItemRecord)
        requires { at < 4096 }
        ensures memory { self.new ≡ with_piece self.old at item }
        ensures room { at < length self.old.pieces }
    {
        self.pieces[at] = item;
    }

    /// Writes the column in hand.
    pub(crate) fn put_column(&mut self, hand: Hand<E>)
        requires { hand.columns < 32 }
        ensures memory { self.new ≡ with_column self.old hand }
        ensures room { hand.columns < length self.old.columns }
    {
        self.columns[hand.columns] = hand.column;
    }
}
