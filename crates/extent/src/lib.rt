//! Extents: widths, heights and depths on one or more sides.
#![tactic(auto)]

ghost use Rattle.std.specs.Prelude.{◌≡◌, ℕ, ◌<◌, ◌≤◌, ℤ, pos, ◌+ℤ◌, ◌-ℤ◌, ◌≤ℤ◌};
ghost use Rattle.std.specs.Int.{int_max};
ghost use Rattle.extent.specs.Sizes.{Within, Near};
ghost use Rattle.extent.specs.Sides.{pick, side_of};
ghost use Rattle.std.proofs.Common.{rules};

// A kind of extent. Its meaning is a row of 1 to 4 whole numbers, its sides, counted from 0.
pub trait Extent: Copy {
    // How many sides the kind has.
    ghost count: { ℕ };

    // The number on a side.
    ghost num: { Self → ℕ → ℤ };

    // What a source length becomes on a side.
    ghost entered: { ℕ → ℤ → ℤ };

    fn zero() -> Self
        ensures { (k : ℕ) → k < count → num result k ≡ pos 0 };

    fn sum(self, other: Self) -> Self
        ensures { (k : ℕ) → k < count → Near (num self k) → Near (num other k) → num result k ≡ num self k +ℤ num other k };

    fn difference(self, other: Self) -> Self
        ensures { (k : ℕ) → k < count → Near (num self k) → Near (num other k) → num result k ≡ num self k -ℤ num other k };

    fn larger(self, other: Self) -> Self
        ensures { (k : ℕ) → k < count → num result k ≡ int_max (num self k) (num other k) };

    // A source length as it enters the kind.
    fn enter(length: i64) -> Self
        ensures { (k : ℕ) → k < count → num result k ≡ entered k length };

    fn sides() -> usize
        ensures { result ≡ count };

    // The number on a side, or nothing where the kind has no such side.
    fn number(self, side: usize) -> Option<i64>
        ensures { result ≡ side_of count num self side };

    ghost few: { (1 ≤ count) × (count ≤ 4) };

    // Zero enters as zero, ..
    ghost nothing: { (k : ℕ) → k < count → entered k (pos 0) ≡ pos 0 };

    // .. no length enters larger in size, ..
    ghost bounded: { (k b : ℕ) (z : ℤ) → k < count → Within b z → Within b (entered k z) };

    // .. and none from zero up enters below zero.
    ghost upward: { (k : ℕ) (z : ℤ) → k < count → pos 0 ≤ℤ z → pos 0 ≤ℤ entered k z };
}

// Plain and twin are two types, not one over `[i64; N]`: only N from 1 to 4 meets `few`, and hosts name a strip and a window.

// One side, the strip. Lengths enter unaltered.
#[derive(Clone, Copy, PartialEq, Eq, Debug)]
pub struct Plain {
    pub strip: i64,
}

impl Extent for Plain {
    ghost count = { 1 };

    ghost num = { λ e _. e.strip };

    ghost entered = { λ _ z. z };

    ghost few = { Prim.search rules };

    ghost nothing = { Prim.search rules };

    ghost bounded = { Prim.search rules };

    ghost upward = { Prim.search rules };

    fn zero() -> Plain {
        Plain { strip: 0 }
    }

    fn sum(self, other: Plain) -> Plain {
        Plain {
            strip: self.strip.wrapping_add(other.strip),
        }
    }

    fn difference(self, other: Plain) -> Plain {
        Plain {
            strip: self.strip.wrapping_sub(other.strip),
        }
    }

    fn larger(self, other: Plain) -> Plain {
        Plain {
            strip: self.strip.max(other.strip),
        }
    }

    fn enter(length: i64) -> Plain {
        Plain { strip: length }
    }

    fn sides() -> usize {
        1
    }

    fn number(self, side: usize) -> Option<i64> {
        (side < 1).then_some(self.strip)
    }
}

// Two sides, the strip and the window. Lengths enter both unaltered.
#[derive(Clone, Copy, PartialEq, Eq, Debug)]
pub struct Twin {
    pub strip: i64,
    pub window: i64,
}

impl Extent for Twin {
    ghost count = { 2 };

    ghost num = { λ e k. pick k e.strip e.window };

    ghost entered = { λ _ z. z };

    ghost few = { Prim.search rules };

    ghost nothing = { Prim.search rules };

    ghost bounded = { Prim.search rules };

    ghost upward = { Prim.search rules };

    fn zero() -> Twin {
        Twin {
            strip: 0,
            window: 0,
        }
    }

    fn sum(self, other: Twin) -> Twin {
        Twin {
            strip: self.strip.wrapping_add(other.strip),
            window: self.window.wrapping_add(other.window),
        }
    }

    fn difference(self, other: Twin) -> Twin {
        Twin {
            strip: self.strip.wrapping_sub(other.strip),
            window: self.window.wrapping_sub(other.window),
        }
    }

    fn larger(self, other: Twin) -> Twin {
        Twin {
            strip: self.strip.max(other.strip),
            window: self.window.max(other.window),
        }
    }

    fn enter(length: i64) -> Twin {
        Twin {
            strip: length,
            window: length,
        }
    }

    fn sides() -> usize {
        2
    }

    fn number(self, side: usize) -> Option<i64> {
        match side {
            0 => Some(self.strip),
            1 => Some(self.window),
            _ => None,
        }
    }
}
