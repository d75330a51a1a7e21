//! Room: what the lent memory has, and whether that is enough.
ghost use Rattle.std.specs.Prelude.{◌≡◌};
ghost use Rattle.ledger.specs.Calls.{lacking, when};
ghost use Rattle.ledger.specs.Refusals.{table_full};
ghost use Rattle.rows.specs.Answers.{unless};
ghost use Rattle.rows.specs.Good.{room_in};

use crate::state::Memory;
use faults::{Cause, Fault};
use ledger::records::Room;

/// The room that the host's memory gives.
fn room_in<E: Copy>(memory: &Memory<E>) -> Room
    ensures { result ≡ room_in memory.now }
{
    Room {
        items: memory.items.len().min(16384),
        entries: memory.entries.len().min(8192),
        lines: memory.lines.len().min(1024),
        text: memory.text.len().min(65535),
    }
}

/// Whether some need is too large for a room.
fn lacks(room: Room, need: Room) -> bool
    ensures { result ≡ lacking room need.items need.entries need.lines need.text }
{
    need.items > room.items
        || need.entries > room.entries
        || need.lines > room.lines
        || need.text > room.text
}

impl<'a, E: Copy> Memory<'a, E> {
    /// Whether there is not so much room.
    pub(crate) fn lacks(&self, need: Room) -> bool
        ensures { result ≡ lacking (room_in self.now) need.items need.entries need.lines need.text }
    {
        lacks(room_in(self), need)
    }

    /// Refused where there is not so much room.
    pub(crate) fn check_room(&self, need: Room) -> Result<(), Fault>
        ensures { result ≡ unless (when (lacking (room_in self.now) need.items need.entries need.lines need.text) table_full) tt }
    {
        if self.lacks(need) {
            Err(Cause::Full.at(0))
        } else {
            Ok(())
        }
    }
}
