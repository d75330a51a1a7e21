ghost use Rattle.std.specs.Prelude.{◌≡◌, ◌<◌};
ghost use Rattle.ledger.specs.Naturals.{beyond, out_z};

use extent::Extent;

fn is_out(n: i64) -> bool
    ensures { result ≡ out_z n }
{
    !(-1_073_741_823..=1_073_741_823).contains(&n)
}

fn side_out<E: Extent>(w: E, k: usize) -> bool
    ensures { k < E.count → result ≡ out_z (E.num w k) }
{
    w.number(k).is_some_and(is_out)
}

/// Whether an extent is outside ±K on a side.
pub fn outside<E: Extent>(w: E) -> bool
    ensures { result ≡ beyond E.count (E.num w) }
{
    (0..E::sides()).any(|k| side_out(w, k))
}
