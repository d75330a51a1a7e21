ghost use Rattle.std.specs.Prelude.{◌≡◌, ℕ, ◌<◌, ◌≤◌, pos};
ghost use Rattle.templates.specs.Readings.{empty_with, written as written_by};

use extent::Extent;
use ledger::records::{Column, ColumnRecord, ItemRecord, Owed};
use lengths::gap::Gap;
use std::ops::ControlFlow;

/// What a preamble is read into: the starting gap, the columns, the items of their templates. The host lends one, as
/// large as the largest preamble needs: the device has no heap.
#[derive(Drop)]
pub struct Templates<E> {
    pub start: Gap,
    pub columns: [ColumnRecord<E>; 32],
    pub pieces: [ItemRecord; 4096],
}

/// What was read: columns, items of their parts, bytes.
#[derive(Clone, Copy, PartialEq, Eq, Debug)]
pub struct Read {
    pub columns: usize,
    pub pieces: usize,
    pub bytes: usize,
}

/// How far the reading is: the place in the text, the columns finished, whether the `#` of the template in hand has come,
/// and its column so far.
// The memory and the text are parameters of its methods: a struct that held the `&mut` would owe, at each method, that it
// keeps that reference. `marked` is a bool, as in the definition of a reading.
#[derive(Clone, Copy)]
pub(crate) struct Hand<E> {
    pub(crate) place: usize,
    pub(crate) columns: usize,
    pub(crate) marked: bool,
    pub(crate) column: ColumnRecord<E>,
}

/// A word in the text, and the place behind its token. It stays beside `Token::Word`, a variant, which is no type of its own.
#[derive(Clone, Copy)]
pub(crate) struct Word {
    pub(crate) place: usize,
    pub(crate) len: usize,
    pub(crate) end: usize,
}

/// An item with its width, the place of its last token and the place behind it.
#[derive(Clone, Copy)]
pub(crate) struct Piece<E> {
    pub(crate) item: ItemRecord,
    pub(crate) width: E,
    pub(crate) last: usize,
    pub(crate) end: usize,
}

/// What a token makes of the reading: it goes on, or it ends.
pub(crate) type Step<E> = ControlFlow<Read, Hand<E>>;

/// A column whose template has no items yet, from an item on, with the gap after it.
pub fn empty_column<E: Extent>(from: usize, gap: Gap) -> ColumnRecord<E>
    ensures is { result ≡ empty_with from result.widths gap }
    ensures u { (k : ℕ) → k < E.count → E.num result.widths.u k ≡ pos 0 }
    ensures v { (k : ℕ) → k < E.count → E.num result.widths.v k ≡ pos 0 }
{
    ColumnRecord {
        template: Column { from, u: 0, v: 0 },
        widths: Owed {
            u: E::zero(),
            v: E::zero(),
        },
        gap,
    }
}

impl<E: Copy> Hand<E> {
    /// How many items are written: those of the columns before and of the template in hand.
    pub(crate) fn written(self) -> usize
        requires { (self.column.template.from ≤ 4096) × (self.column.template.u ≤ 64) × (self.column.template.v ≤ 64) }
        ensures { result ≡ written_by self }
    {
        let Column { from, u, v } = self.column.template;
        from + (u + v)
    }
}

impl<E: Extent> Templates<E> {
    pub fn new() -> Templates<E> {
        Templates {
            start: Gap::none(),
            columns: [empty_column(0, Gap::none()); 32],
            pieces: [ItemRecord::Space; 4096],
        }
    }
}
