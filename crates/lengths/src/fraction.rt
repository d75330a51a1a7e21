//! The digits behind a point, in 65,536ths: The Program, §102.
ghost use Rattle.std.specs.Prelude.{◌≡◌, ◌<◌, ◌≤◌};
ghost use Rattle.lengths.specs.Fractions.{Nearest, scaled, rounded};

use crate::digits::DigitRun;

// The digits in units of 2^-17, rounded down from the last digit on.
fn scale(digits: DigitRun<'_>) -> u32
    ensures is { result ≡ scaled digits.entry.bytes.now }
    ensures small { result < 131072 }
{
    match digits.bytes {
        [] => 0,
        [d, bytes @ ..] => (scale(DigitRun { bytes }) + u32::from(*d - b'0') * 131_072) / 10,
    }
}

// The nearest 65,536th, halves up. Digits near 1 round to 65,536 itself.
pub(crate) fn round_decimals(digits: DigitRun<'_>) -> u32
    ensures is { result ≡ rounded digits.entry.bytes.now }
    ensures nearest { Nearest digits.entry.bytes.now result }
    ensures small { result ≤ 65536 }
{
    (scale(digits) + 1) / 2
}
