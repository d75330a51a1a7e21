//! Refusals: a cause, a place and the layer that refuses.
#![tactic(auto)]

ghost use Rattle.std.specs.Prelude.{◌≡◌, Some};
ghost use Rattle.faults.specs.Faults.{number_of, layer_of, layer_number, fault_at, text_of};

use std::fmt;

// Why a call is refused. The author of a manuscript mends the first nine, the host the others but the last.
#[derive(Clone, Copy, PartialEq, Eq, Debug)]
pub enum Cause {
    // a byte that no text may hold; at put one outside 33 to 126
    BadByte,
    // a backslash with nothing known behind it
    UnknownControl,
    // a length that is ill-formed or outside its range
    BadLength,
    // a mark, an item or a brace where it is not allowed
    Misplaced,
    // a template with no `#` by its end, or a second one
    TemplateMark,
    // more columns than 32, or than the preamble has
    TooManyColumns,
    // the text is over before `\cr` or the brace of \noalign
    TextOver,
    // a word of 0 or over 255 bytes
    WordLength,
    // an entry that leaves the range of widths on a side
    EntryTooWide,
    // a row is in hand, or the cell is not the table's open one
    RowInHand,
    // items, a template's part, entries, lines or text bytes are full
    Full,
    // the columns cannot be set to the width
    CannotSet,
    // no such column
    NoSuchColumn,
    // no such side
    NoSuchSide,
    // too few records or bytes for the list
    TooLittleRoom,
    // a number of a gap or a kern out of its range
    OutOfRange,
    // a number of a measurer out of its range
    MeasurerRange,
    // a box that cannot be written, or that names no part of a text
    BadBox,
    // a byte that the measurer has no character for
    NoCharacter,
}

// Which part of the setter refuses.
#[derive(Clone, Copy, PartialEq, Eq, Debug)]
pub enum Layer {
    Reader,
    Alignment,
    Packer,
    Measurer,
}

// The layer is the cause's: hosts read it here.
#[derive(Clone, Copy, PartialEq, Eq, Debug)]
pub struct Fault {
    pub cause: Cause,
    pub place: usize,
    pub layer: Layer,
}

impl Cause {
    // The layer that refuses for a cause.
    pub fn layer(self) -> Layer
        ensures { result ≡ layer_of self }
    {
        match self {
            Cause::BadByte | Cause::UnknownControl | Cause::BadLength | Cause::WordLength => {
                Layer::Reader
            }
            Cause::CannotSet | Cause::NoSuchSide | Cause::TooLittleRoom | Cause::BadBox => {
                Layer::Packer
            }
            Cause::MeasurerRange | Cause::NoCharacter => Layer::Measurer,
            Cause::Misplaced
            | Cause::TemplateMark
            | Cause::TooManyColumns
            | Cause::TextOver
            | Cause::EntryTooWide
            | Cause::RowInHand
            | Cause::Full
            | Cause::NoSuchColumn
            | Cause::OutOfRange => Layer::Alignment,
        }
    }

    // The fault of a cause at a place.
    pub fn at(self, place: usize) -> Fault
        ensures { result ≡ fault_at self place }
    {
        Fault {
            cause: self,
            place,
            layer: self.layer(),
        }
    }
}

// The number that a cause goes by.
impl From<Cause> for u32 {
    ghost from_gives = { λ cause n. n ≡ number_of cause };

    fn from(cause: Cause) -> u32
        ensures { result ≡ number_of cause }
    {
        match cause {
            Cause::BadByte => 1,
            Cause::UnknownControl => 2,
            Cause::BadLength => 3,
            Cause::Misplaced => 5,
            Cause::TemplateMark => 6,
            Cause::TooManyColumns => 7,
            Cause::TextOver => 8,
            Cause::WordLength => 9,
            Cause::EntryTooWide => 10,
            Cause::RowInHand => 21,
            Cause::Full => 22,
            Cause::CannotSet => 23,
            Cause::NoSuchColumn | Cause::NoSuchSide => 24,
            Cause::TooLittleRoom => 26,
            Cause::OutOfRange | Cause::MeasurerRange => 27,
            Cause::BadBox => 28,
            Cause::NoCharacter => 41,
        }
    }
}

// The number that a layer goes by.
impl From<Layer> for u32 {
    ghost from_gives = { λ layer n. n ≡ layer_number layer };

    fn from(layer: Layer) -> u32
        ensures { result ≡ layer_number layer }
    {
        match layer {
            Layer::Reader => 1,
            Layer::Alignment => 2,
            Layer::Packer => 3,
            Layer::Measurer => 4,
        }
    }
}

impl fmt::Display for Fault {
    ghost output = { λ f. Some (text_of f) };

    fn fmt<W: fmt::Write>(&self, f: &mut fmt::Formatter<W>) -> fmt::Result {
        let cause = u32::from(self.cause);
        let place = self.place;
        let layer = u32::from(self.layer);
        write!(f, "fault {cause} place {place} layer {layer}")
    }
}
