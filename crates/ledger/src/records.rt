use lengths::gap::Gap;

/// An item: a space, a word of a cell with its number of bytes, a word of the preamble text by place and length, a
/// kern, a fill. Words are no slices: the list that is drawn names them by place and length, and the records are lent.
#[derive(Clone, Copy, PartialEq, Eq, Debug)]
pub enum ItemRecord {
    Space,
    CellWord(usize),
    TemplateWord(usize, usize),
    Kern(i64),
    Hfil,
}

/// A column's template: its u part is `u` items from `from` on, its v part the next `v` items.
#[derive(Clone, Copy, PartialEq, Eq, Debug)]
pub struct Column {
    pub from: usize,
    pub u: usize,
    pub v: usize,
}

/// The natural widths of a template's parts.
#[derive(Clone, Copy, PartialEq, Eq, Debug)]
pub struct Owed<E> {
    pub u: E,
    pub v: E,
}

/// A column as it is read: its template, the natural widths of the template's parts, and the gap after it.
#[derive(Clone, Copy, PartialEq, Eq, Debug)]
pub struct ColumnRecord<E> {
    pub template: Column,
    pub widths: Owed<E>,
    pub gap: Gap,
}

/// How much a table's memory holds.
#[derive(Clone, Copy, PartialEq, Eq, Debug)]
pub struct Room {
    pub items: usize,
    pub entries: usize,
    pub lines: usize,
    pub text: usize,
}
