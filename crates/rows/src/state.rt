use ledger::records::ItemRecord;
use widths::Entry;

/// An entry takes the next `count` items.
#[derive(Clone, Copy, PartialEq, Eq, Debug)]
pub struct EntryRecord<E> {
    pub entry: Entry<E>,
    pub count: usize,
}

/// A row takes the next entries, as many as it says.
#[derive(Clone, Copy, PartialEq, Eq, Debug)]
pub enum LineRecord {
    Row(usize),
    Rule,
    Gap(i64),
}

/// How far the lent memory is used. No `Room`: lines are counted once, in `State`, and these are marked twice.
#[derive(Clone, Copy, PartialEq, Eq, Debug)]
pub struct Marks {
    pub items: usize,
    pub entries: usize,
    pub text: usize,
}

/// The memory that the host lends.
#[derive(Drop)]
pub struct Memory<'a, E> {
    pub items: &'a mut [ItemRecord],
    pub entries: &'a mut [EntryRecord<E>],
    pub lines: &'a mut [LineRecord],
    pub text: &'a mut [u8],
}

/// How far the cell in hand is, if there is one.
#[derive(Clone, Copy, PartialEq, Eq, Debug)]
pub enum Stage {
    Closed,
    Fresh,
    Begun,
    Omitted,
}

/// The entry being built: the column of its cell, its first column, its first item, its width so far.
#[derive(Clone, Copy, PartialEq, Eq, Debug)]
pub struct Row<E> {
    pub column: usize,
    pub first: usize,
    pub begin: usize,
    pub width: E,
}

/// What is laid lies below `laid`, the row in hand between `laid` and `marks`: marks in lent memory, since the device has
/// no heap. The row in hand stands beside the stage: each step on it runs only where there is one, and would open an `Option`.
#[derive(Clone, Copy, PartialEq, Eq, Debug)]
pub struct State<E> {
    pub lines: usize,
    pub laid: Marks,
    pub marks: Marks,
    pub stage: Stage,
    pub row: Row<E>,
}

/// A cell as its row knows it: the column, and whether it is begun.
#[derive(Clone, Copy, PartialEq, Eq, Debug)]
pub enum Cell {
    Fresh(usize),
    Begun(usize),
}
