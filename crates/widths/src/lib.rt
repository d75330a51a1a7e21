//! The widths of columns: how optional extents are merged, and what the merged widths are.
#![tactic(auto)]

ghost use Rattle.std.specs.Prelude.{◌≡◌, ℕ, ◌<◌};
ghost use Rattle.extent.specs.Sizes.{Near};
ghost use Rattle.widths.specs.declared.Entry.{Entry as Span};
ghost use Rattle.widths.specs.Merging.{seen, less, join, size, counted, step};
ghost use Rattle.widths.specs.Settling.{MergingSettles};
ghost use Rattle.widths.specs.Samples.{SamplesSettle};

use extent::Extent;

// An entry over the columns first to last, by its natural width. Columns are counted from 0.
#[derive(Clone, Copy, PartialEq, Eq, Debug)]
pub struct Entry<E> {
    pub first: usize,
    pub last: usize,
    pub width: E,
}

// A record that stands for an entry.
pub trait Spanned<E>: Copy {
    // The entry that it stands for.
    ghost entry: { Self → Span E };

    fn span(self) -> Entry<E>
        ensures { result ≡ entry self };
}

impl<E: Copy> Spanned<E> for Entry<E> {
    ghost entry = { λ e. e };

    fn span(self) -> Entry<E> {
        self
    }
}

// A column's width as it counts: zero for a void one.
pub fn width_counted<E: Extent>(w: Option<E>) -> E
    ensures { (k : ℕ) → k < E.count → E.num result k ≡ size (seen E.num k w) }
{
    w.unwrap_or(E::zero())
}

// The gap after a column as it counts: zero after a void one.
pub fn gap_counted<E: Extent>(w: Option<E>, gap: E) -> E
    ensures { (k : ℕ) → k < E.count → E.num result k ≡ counted (seen E.num k w) (E.num gap k) }
{
    w.map_or(E::zero(), |_| gap)
}

// How far a column moves what follows it.
pub fn advance<E: Extent>(w: Option<E>, gap: E) -> E
    ensures { (k : ℕ) → k < E.count → Near (size (seen E.num k w)) → Near (E.num gap k) → E.num result k ≡ step (seen E.num k w) (E.num gap k) }
{
    width_counted(w).sum(gap_counted(w, gap))
}

// A width that is less by an extent, where there is one.
pub fn lessened<E: Extent>(x: Option<E>, by: E) -> Option<E>
    ensures { (k : ℕ) → k < E.count → Near (size (seen E.num k x)) → Near (E.num by k) → seen E.num k result ≡ less (seen E.num k x) (E.num by k) }
{
    x.map(|e| e.difference(by))
}

// The larger of two widths, of which any may be missing.
pub fn joined<E: Extent>(a: Option<E>, b: Option<E>) -> Option<E>
    ensures { (k : ℕ) → k < E.count → seen E.num k result ≡ join (seen E.num k a) (seen E.num k b) }
{
    match (a, b) {
        (Some(x), Some(y)) => Some(x.larger(y)),
        _ => a.or(b),
    }
}

// Whatever widths the rightward merge gives are settled.
pub fn merging_settles()
    ensures { MergingSettles }
{}

// The worked tables settle to their widths.
pub fn samples_settle()
    ensures { SamplesSettle }
{}
