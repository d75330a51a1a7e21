ghost use Rattle.rows.specs.Sound.{span_of};

use crate::state::EntryRecord;
use widths::{Entry, Spanned};

impl<E: Copy> Spanned<E> for EntryRecord<E> {
    ghost entry = { λ e. span_of e };

    fn span(self) -> Entry<E> {
        self.entry
    }
}
