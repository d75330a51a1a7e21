ghost use Rattle.std.specs.Prelude.{◌≡◌, ℕ, ◌*◌, ◌<◌, ◌≤◌, true, false, map, length, is_ok, None, slice_index_or};
ghost use Rattle.widths.specs.Entries.{Proper};
ghost use Rattle.spans.specs.Tables.{KeptFrom, SameSize, Tabled, SettledOn, TameOn};
ghost use Rattle.spans.specs.Refusals.{lie, all_lie, settle_fault, unless};

use crate::table::{Misfit, SpanTable};
use extent::Extent;
use widths::{Entry, Spanned};

fn lies<E: Extent>(columns: usize, entry: Entry<E>) -> bool
    ensures { result ≡ lie columns entry }
{
    (entry.first..columns).contains(&entry.last)
}

fn all_lie<E: Extent, R: Spanned<E>>(columns: usize, entries: &[R]) -> bool
    ensures { result ≡ all_lie columns (map R.Spanned.entry entries.now) }
{
    entries.iter().all(|entry| lies(columns, entry.span()))
}

impl<'a, E: Extent> SpanTable<'a, E> {
    // Forgets what was noted and notes the entries that these stand for.
    fn note_all<R: Spanned<E>>(&mut self, entries: &[R])
        requires { (self.old.columns ≤ 32) × ((self.old.columns * 32 ≤ length self.old.cells.now) × (Proper self.old.columns (map R.Spanned.entry entries.now))) }
        ensures size { SameSize self.old self.new }
        ensures tabled { Tabled E.count E.num self.old.columns self.new.cells.now (map R.Spanned.entry entries.now) }
    {
        self.empty();
        for entry in entries {
            let span = entry.span();
            self.widen(span);
        }
    }

    // Forgets what was noted, notes the entries that these stand for and merges: the width of each column, nothing for a void one.
    pub fn settle<R: Spanned<E>>(
        &mut self,
        entries: &[R],
        gaps: &[i64],
        widths: &mut [Option<E>],
    ) -> Result<(), Misfit>
        ensures answer { result ≡ unless (settle_fault self.old.columns (length self.old.cells.now) (length widths.old) (length gaps.now) (map R.Spanned.entry entries.now)) tt }
        ensures size { SameSize self.old self.new }
        ensures tabled { is_ok result ≡ true → Tabled E.count E.num self.old.columns self.new.cells.now (map R.Spanned.entry entries.now) }
        ensures settled { is_ok result ≡ true → (k : ℕ) → k < E.count → TameOn E.num k (map R.Spanned.entry entries.now) gaps.now →
            SettledOn E.num E.entered k (map R.Spanned.entry entries.now) gaps.now self.old.columns widths.new }
        ensures rest { KeptFrom None self.old.columns widths.old widths.new }
        ensures refused { is_ok result ≡ false → (widths.new ≡ widths.old) × (self.new.cells.now ≡ self.old.cells.now) }
    {
        self.check_merge(widths.len(), gaps.len())?;
        if !all_lie(self.columns, entries) {
            return Err(Misfit::Span);
        }
        self.note_all(entries);
        self.merge(gaps, widths)
    }
}
