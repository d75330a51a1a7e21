ghost use Rattle.std.specs.Prelude.{◌≡◌, ◌≤◌, not, ◌&&◌, int_le, pos, length, take, position};
ghost use Rattle.measure.specs.Monos.{parts_of, parts_in, in_ranges, mono_made, MonoMade, has_character, mono_metrics, mono_meaning, mono_blank, Monospaced};
ghost use Rattle.measure.specs.Words.{IsWord};
ghost use Rattle.measure.specs.Pitched.{mono-bounded, mono-placed};
ghost use Rattle.std.proofs.Common.{rules, arith};

use crate::measurer::{Measurer, Metrics};
use crate::mono::Mono;
use extent::{Extent, Plain};
use faults::{Cause, Fault};

// Whether a number is neither below zero nor too large.
fn is_upto(n: i64, most: i64) -> bool
    ensures { result ≡ (int_le (pos 0) n && int_le n most) }
{
    (0..=most).contains(&n)
}

// Whether a measurer may have these numbers.
fn in_ranges(pitch: i64, height: i64, depth: i64, last: i64) -> bool
    ensures { result ≡ in_ranges (record { pitch = pitch; height = height; depth = depth; last = last }) }
{
    is_upto(pitch, 4_194_304)
        && is_upto(height, 16_777_215)
        && is_upto(depth, 16_777_215)
        && (32..=126).contains(&last)
}

impl Mono {
    // A measurer of this pitch, height, depth and last byte, or a refusal where one is out of its range.
    pub fn new(pitch: i64, height: i64, depth: i64, last: i64) -> Result<Mono, Fault>
        ensures answer { parts_in result ≡ mono_made (record { pitch = pitch; height = height; depth = depth; last = last }) }
        ensures law { MonoMade (record { pitch = pitch; height = height; depth = depth; last = last }) (parts_in result) }
    {
        if !in_ranges(pitch, height, depth, last) {
            return Err(Cause::MeasurerRange.at(0));
        }
        Ok(Mono {
            pitch,
            height,
            depth,
            last,
        })
    }

    // Whether there is a character for this byte.
    fn has_character(&self, b: u8) -> bool
        ensures { result ≡ has_character self.now.last b }
    {
        i64::from(b) <= self.last
    }

    // The place of the first byte without a character.
    fn first_missing(&self, bytes: &[u8]) -> Option<usize>
        ensures { result ≡ position (λ b. not (has_character self.now.last b)) bytes.now }
    {
        bytes.iter().position(|b| !self.has_character(*b))
    }

    // So many bytes, all with a character.
    fn metrics(&self, count: usize) -> Metrics<Plain>
        requires { count ≤ 255 }
        ensures { result ≡ mono_metrics (parts_of self.now) count }
    {
        Metrics {
            width: Plain {
                strip: self.pitch * count as i64,
            },
            height: Plain { strip: self.height },
            depth: Plain { strip: self.depth },
        }
    }

    // Up to 255 bytes.
    fn measure(&self, word: &[u8]) -> Result<Metrics<Plain>, usize>
        requires { length word.now ≤ 255 }
        ensures { result ≡ mono_meaning (parts_of self.now) word.now }
    {
        self.first_missing(word)
            .map_or(Ok(self.metrics(word.len())), Err)
    }
}

impl Measurer for Mono {
    type Extent = Plain;

    ghost meaning = { λ m w. mono_meaning (parts_of m) w };

    ghost blank = { λ m. mono_blank (parts_of m) };

    ghost bounded = { λ m w x h e. mono-bounded (parts_of m) w x m.ranges h e };

    ghost placed = { λ m w p h e. mono-placed (parts_of m) w p e };

    ghost spaced = { first_of (Prim.search rules, Prim.grind (arith, Self.row.coded.inj)) };

    // No word has more than 255 bytes; of more the first 255 are measured.
    fn word(&self, bytes: &[u8]) -> Result<Metrics<Plain>, usize>
        ensures answer { IsWord bytes.now → result ≡ mono_meaning (parts_of self.now) bytes.now }
        ensures law { IsWord bytes.now → Monospaced (parts_of self.now) bytes.now result }
        ensures always { result ≡ mono_meaning (parts_of self.now) (take 255 bytes.now) }
    {
        self.measure(&bytes[..bytes.len().min(255)])
    }

    fn space(&self) -> Plain {
        Plain { strip: self.pitch }
    }
}
