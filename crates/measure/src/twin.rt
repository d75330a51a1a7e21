ghost use Rattle.std.specs.Prelude.{◌≡◌};
ghost use Rattle.measure.specs.Words.{IsWord};
ghost use Rattle.measure.specs.Twins.{both_sides, twin_meaning, TwinOf};
ghost use Rattle.measure.specs.Twinned.{twin-bounded, twin-placed, twin-spaced};

use crate::measurer::{Measurer, Metrics};
use extent::{Extent, Plain, Twin};

// Two measurers of plain extents, the first for the strip, the second for the window.
#[derive(Clone, Copy, Debug)]
pub struct TwinMeasurer<A, B> {
    pub strip: A,
    pub window: B,
}

// The strip of the first beside the window of the second.
fn beside(a: Plain, b: Plain) -> Twin
    ensures { result ≡ both_sides a b }
{
    Twin {
        strip: a.strip,
        window: b.strip,
    }
}

impl<A, B> Measurer for TwinMeasurer<A, B>
where
    A: Measurer<Extent = Plain>,
    B: Measurer<Extent = Plain>,
{
    type Extent = Twin;

    ghost meaning = { λ m w. twin_meaning (A.Measurer.meaning m.strip w) (B.Measurer.meaning m.window w) };

    ghost blank = { λ m. both_sides (A.Measurer.blank m.strip) (B.Measurer.blank m.window) };

    ghost bounded = { λ m w x h e. twin-bounded _ _ x (λ y. A.Measurer.bounded m.strip w y h) (λ y. B.Measurer.bounded m.window w y h) e };

    ghost placed = { λ m w p h e. twin-placed _ _ _ p (λ q. A.Measurer.placed m.strip w q h) (λ q. B.Measurer.placed m.window w q h) e };

    ghost spaced = { λ m. twin-spaced _ _ (A.Measurer.spaced m.strip) (B.Measurer.spaced m.window) };

    // Asks the first, then the second; the first refusal is the answer.
    fn word(&self, bytes: &[u8]) -> Result<Metrics<Twin>, usize>
        ensures answer { IsWord bytes.now → result ≡ twin_meaning (A.Measurer.meaning self.now.strip bytes.now) (B.Measurer.meaning self.now.window bytes.now) }
        ensures law { IsWord bytes.now → TwinOf (A.Measurer.meaning self.now.strip bytes.now) (B.Measurer.meaning self.now.window bytes.now) result }
    {
        let strip = self.strip.word(bytes)?;
        let window = self.window.word(bytes)?;
        Ok(Metrics {
            width: beside(strip.width, window.width),
            height: beside(strip.height, window.height),
            depth: beside(strip.depth, window.depth),
        })
    }

    fn space(&self) -> Twin {
        beside(self.strip.space(), self.window.space())
    }
}
