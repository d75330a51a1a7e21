//! What is set before the preamble.
ghost use Rattle.std.specs.Prelude.{◌≤◌};

use crate::script::{MonoNumbers, Setting};
use faults::Fault;
use ledger::records::Room;
use measure::{Mono, TwinMeasurer};
use table::make::Start;

// The largest table.
const LARGEST: Room = Room {
    items: 16_384,
    entries: 8_192,
    lines: 1_024,
    text: 65_535,
};

// The measurer of the table.
#[derive(Clone, Copy)]
pub enum Chosen {
    Mono(Mono),
    Twin(TwinMeasurer<Mono, Mono>),
}

#[derive(Clone, Copy)]
pub struct Settings {
    pub room: Room,
    pub measurer: Chosen,
    pub start: Start,
}

// A room, and nothing above the largest table.
fn cut(room: Room) -> Room
    ensures { (result.items ≤ 16384) × (result.entries ≤ 8192) × (result.lines ≤ 1024) × (result.text ≤ 65535) }
{
    Room {
        items: room.items.min(LARGEST.items),
        entries: room.entries.min(LARGEST.entries),
        lines: room.lines.min(LARGEST.lines),
        text: room.text.min(LARGEST.text),
    }
}

// The measurer of these numbers.
fn mono(numbers: MonoNumbers) -> Result<Mono, Fault> {
    let MonoNumbers {
        pitch,
        height,
        depth,
        last,
    } = numbers;
    Mono::new(pitch, height, depth, last)
}

impl Settings {
    pub(crate) fn new() -> Settings {
        Settings {
            room: LARGEST,
            measurer: Chosen::Mono(Mono::new(10, 7, 2, 126).unwrap()),
            start: Start {
                natural: 0,
                stretch: 0,
                order: 0,
            },
        }
    }

    // Takes one setting. A refused measurer changes nothing.
    pub(crate) fn set(&mut self, setting: Setting) -> Result<(), Fault> {
        match setting {
            Setting::Room(room) => self.room = cut(room),
            Setting::Mono(numbers) => self.measurer = Chosen::Mono(mono(numbers)?),
            Setting::Twin { strip, window } => {
                let strip = mono(strip)?;
                let window = mono(window)?;
                self.measurer = Chosen::Twin(TwinMeasurer { strip, window });
            }
            Setting::Start(start) => self.start = start,
        }
        Ok(())
    }
}
