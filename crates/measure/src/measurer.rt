ghost use Rattle.std.specs.Prelude.{◌≡◌, ℕ, ◌<◌, List, length, Ok, Err, Result};
ghost use Rattle.measure.specs.declared.measurer.Metrics.{Metrics};
ghost use Rattle.measure.specs.Words.{IsWord};
ghost use Rattle.measure.specs.Bounds.{Bounded, Spaced};

use extent::Extent;

// What a measurer says of a word.
#[derive(Clone, Copy, PartialEq, Eq, Debug)]
pub struct Metrics<E> {
    pub width: E,
    pub height: E,
    pub depth: E,
}

// A measurer answers in the kind of extent that it names, and no answer changes it.
pub trait Measurer {
    type Extent: Extent;

    // For each word its metrics, or the place of a byte without a character.
    ghost meaning: { Self → List ℕ → Result (Metrics Self.Extent) ℕ };

    // The width of a space.
    ghost blank: { Self → Self.Extent };

    // Answers by the meaning, so it refuses only for a byte without a character.
    fn word(&self, bytes: &[u8]) -> Result<Metrics<Self::Extent>, usize>
        ensures answer { IsWord bytes.now → result ≡ meaning self.now bytes.now };

    fn space(&self) -> Self::Extent
        ensures { result ≡ blank self.now };

    // On each side a width is within ±1,073,741,823, a height and a depth from 0 to 16,777,215.
    ghost bounded: { (m : Self) (w : List ℕ) (x : Metrics Self.Extent) → IsWord w → meaning m w ≡ Ok x → Bounded Self.Extent.Extent.count Self.Extent.Extent.num x };

    // The byte without a character is one of the word's.
    ghost placed: { (m : Self) (w : List ℕ) (p : ℕ) → IsWord w → meaning m w ≡ Err p → p < length w };

    // On each side a space is from 0 to 16,777,215 wide.
    ghost spaced: { (m : Self) → Spaced Self.Extent.Extent.count Self.Extent.Extent.num (blank m) };
}
