ghost use Rattle.std.specs.Prelude.{◌≡◌, ℕ, ◌+◌, ◌^◌, ◌<◌, ◌≤◌, length};
ghost use Rattle.ledger.specs.Chunks.{total};
ghost use Rattle.ledger.specs.Items.{taken};
ghost use Rattle.rows.specs.Columns.{columns_in, column_at};

use ledger::records::{ColumnRecord, ItemRecord};
use lengths::gap::Gap;

/// A preamble that was read: the starting gap, the columns, the items of all templates, and the text.
#[derive(Drop)]
pub struct Preamble<'a, E> {
    pub start: Gap,
    pub columns: &'a [ColumnRecord<E>],
    pub pieces: &'a [ItemRecord],
    pub text: &'a [u8],
    pub ghost some: { 1 ≤ length (columns_in columns.now) },
    pub ghost counted: { length (columns_in columns.now) < 2 ^ 64 },
    pub ghost bare: { total taken pieces.now ≡ 0 },
    pub ghost parts: { (c : ℕ) → c < length (columns_in columns.now) → (column_at (columns_in columns.now) c).from + ((column_at (columns_in columns.now) c).u + (column_at (columns_in columns.now) c).v) ≤ length pieces.now },
    pub ghost few: { (c : ℕ) → ((column_at (columns_in columns.now) c).u ≤ 64) × ((column_at (columns_in columns.now) c).v ≤ 64) },
}
