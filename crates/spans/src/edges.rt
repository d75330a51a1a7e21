ghost use Rattle.std.specs.Prelude.{◌≡◌, ℕ, ◌<◌, ◌≤◌, true, false, length, is_ok, IfOk, slice_index_or};
ghost use Rattle.widths.specs.Formula.{edge, natural};
ghost use Rattle.spans.specs.Tables.{KeptFrom, column, starting, after, SizedOn};
ghost use Rattle.spans.specs.Refusals.{edges_fault, unless, Refusing};

use crate::table::Misfit;
use extent::Extent;
use widths::{gap_counted, width_counted};

// Refuses what are not 1 to 32 columns with a width, a gap and an edge for each, and the starting gap.
fn check_edges(columns: usize, widths: usize, gaps: usize, edges: usize) -> Result<(), Misfit>
    ensures { result ≡ unless (edges_fault columns widths gaps edges) tt }
{
    if !(1..=32).contains(&columns) {
        return Err(Misfit::Columns);
    }
    if columns <= widths && columns < gaps && columns <= edges {
        Ok(())
    } else {
        Err(Misfit::Memory)
    }
}

// Each column's right edge is the left edge and its width; the next left edge lies behind the gap.
fn place_edges<E: Extent>(columns: usize, gaps: &[i64], widths: &[Option<E>], edges: &mut [E]) -> E
    requires { (columns ≤ length widths.now) × ((columns < length gaps.now) × (columns ≤ length edges.old)) }
    ensures total { (k : ℕ) → k < E.count → SizedOn E.num E.entered k gaps.now columns widths.now →
        E.num result k ≡ natural (starting E.entered k gaps.now) (column E.num k widths.now) (after E.entered k gaps.now) columns }
    ensures placed { (k : ℕ) → k < E.count → SizedOn E.num E.entered k gaps.now columns widths.now → (j : ℕ) (d : E) → j < columns →
        E.num (slice_index_or edges.new j d) k ≡ edge (starting E.entered k gaps.now) (column E.num k widths.now) (after E.entered k gaps.now) j }
    ensures rest { (d : E) → KeptFrom d columns edges.old edges.new }
{
    let mut left = E::enter(gaps[0]);
    // by index: of a zip with `iter_mut` it is known what each borrow writes, and not what the slice then holds
    for (j, width) in widths[..columns].iter().enumerate() {
        let right = left.sum(width_counted(*width));
        edges[j] = right;
        left = right.sum(gap_counted(*width, E::enter(gaps[j + 1])));
    }
    left
}

// The natural right edges of the columns, and their natural width: the starting gap, all widths and all gaps.
pub fn natural_edges<E: Extent>(
    columns: usize,
    gaps: &[i64],
    widths: &[Option<E>],
    edges: &mut [E],
) -> Result<E, Misfit>
    ensures answer { Refusing (edges_fault columns (length widths.now) (length gaps.now) (length edges.old)) result }
    ensures total { IfOk result (λ n. (k : ℕ) → k < E.count → SizedOn E.num E.entered k gaps.now columns widths.now →
        E.num n k ≡ natural (starting E.entered k gaps.now) (column E.num k widths.now) (after E.entered k gaps.now) columns) }
    ensures placed { is_ok result ≡ true → (k : ℕ) → k < E.count → SizedOn E.num E.entered k gaps.now columns widths.now → (j : ℕ) (d : E) → j < columns →
        E.num (slice_index_or edges.new j d) k ≡ edge (starting E.entered k gaps.now) (column E.num k widths.now) (after E.entered k gaps.now) j }
    ensures rest { (d : E) → KeptFrom d columns edges.old edges.new }
    ensures refused { is_ok result ≡ false → edges.new ≡ edges.old }
{
    check_edges(columns, widths.len(), gaps.len(), edges.len())?;
    Ok(place_edges(columns, gaps, widths, edges))
}
