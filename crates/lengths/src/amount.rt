//! Amounts: 1 to 8 digits, optionally a point with 1 to 17 digits, in 65,536ths.
ghost use Rattle.std.specs.Prelude.{◌≡◌, ◌+◌, ◌^◌, ◌<◌, ◌≤◌, length, take, IfSome};
ghost use Rattle.std.specs.List.{prefix_len};
ghost use Rattle.lengths.specs.Fractions.{Digits, numeral};
ghost use Rattle.lengths.specs.Amounts.{digit_byte, behind_point, fraction_of, amount_of};

use crate::digits::DigitRun;
use crate::fraction::round_decimals;
use crate::spelled::Spelled;

// How many digits stand at the start.
fn digit_run(s: &[u8]) -> usize
    ensures is { result ≡ prefix_len digit_byte s.now }
    ensures inside { result ≤ length s.now }
    ensures digits { Digits (take result s.now) }
{
    s.iter().take_while(|b| b.is_ascii_digit()).count()
}

// The number that at most eight digits spell.
fn whole_value(digits: DigitRun<'_>) -> u64
    requires { length digits.bytes.now < 9 }
    ensures is { result ≡ numeral digits.entry.bytes.now }
    ensures small { result < 100000000 }
{
    digits
        .bytes
        .iter()
        .fold(0, |n, d| n * 10 + u64::from(*d - b'0'))
}

// The digits behind a point: 1 to 17 of them.
fn behind_point(tail: &[u8]) -> Option<Spelled<u64>>
    ensures is { result ≡ behind_point tail.now (prefix_len digit_byte tail.now) }
    ensures small { IfSome result (λ a. (a.value ≤ 65536) × (a.len ≤ length tail.now + 1)) }
{
    let n = digit_run(tail);
    if !(1..=17).contains(&n) {
        return None;
    }
    let digits = DigitRun { bytes: &tail[..n] };
    Some(Spelled {
        value: u64::from(round_decimals(digits)),
        len: n + 1,
    })
}

// A point with its digits, or no fraction at all.
fn fraction(s: &[u8]) -> Option<Spelled<u64>>
    ensures is { result ≡ fraction_of s.now }
    ensures small { IfSome result (λ a. (a.value ≤ 65536) × (a.len ≤ length s.now)) }
{
    match s {
        [b'.', tail @ ..] => behind_point(tail),
        _ => Some(Spelled { value: 0, len: 0 }),
    }
}

// The amount at the start of the bytes, in 65,536ths: the longest run of digits, and the longest behind a point.
pub(crate) fn amount_in(s: &[u8]) -> Option<Spelled<u64>>
    ensures is { result ≡ amount_of s.now }
    ensures small { IfSome result (λ a. (a.value < 2 ^ 43) × (1 ≤ a.len) × (a.len ≤ length s.now)) }
{
    let n = digit_run(s);
    if !(1..=8).contains(&n) {
        return None;
    }
    let (bytes, behind) = s.split_at(n);
    let part = fraction(behind)?;
    Some(Spelled {
        value: whole_value(DigitRun { bytes }) * 65_536 + part.value,
        len: n + part.len,
    })
}
