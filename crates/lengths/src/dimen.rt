//! An amount with its unit, and the one space byte behind it.
ghost use Rattle.std.specs.Prelude.{◌≡◌, ◌≤◌, true, length, IfSome};
ghost use Rattle.lengths.specs.Dimens.{begins_with, measure_of, swallowed, dimen_of};

use crate::amount::amount_in;
use crate::order::Order;
use crate::spelled::Spelled;

// The largest size of a length and of a stretch.
pub(crate) const LARGEST: u64 = 16_777_215;

// An amount with its unit, and the place behind them and the one space byte that they swallow.
// It has three parts, and a `Spelled` has two: a value and how many bytes spell it. That a size is at most LARGEST is in two
// clauses: as a ghost field it was tried, and every definition of a length would then speak of a copy of these parts.
#[derive(Clone, Copy)]
pub(crate) struct Dimen {
    pub(crate) size: u64,
    pub(crate) order: Order,
    pub(crate) end: usize,
}

// Whether the bytes begin with a word.
pub(crate) fn begins(s: &[u8], word: &[u8]) -> bool
    ensures is { result ≡ begins_with word.now s.now }
    ensures room { result ≡ true → length word.now ≤ length s.now }
{
    s.starts_with(word)
}

// The unit at the start of the bytes, the longest that fits.
fn measure_in(s: &[u8]) -> Option<Spelled<Order>>
    ensures is { result ≡ measure_of s.now }
    ensures inside { IfSome result (λ m. m.len ≤ length s.now) }
{
    let (value, len) = if begins(s, b"pt") {
        (Order::Points, 2)
    } else if begins(s, b"filll") {
        (Order::Filll, 5)
    } else if begins(s, b"fill") {
        (Order::Fill, 4)
    } else if begins(s, b"fil") {
        (Order::Fil, 3)
    } else {
        return None;
    };
    Some(Spelled { value, len })
}

// One space byte at the start is swallowed, no more.
fn space_len(s: &[u8]) -> usize
    ensures is { result ≡ swallowed s.now }
    ensures inside { result ≤ length s.now }
{
    match s {
        [b' ' | b'\n', ..] => 1,
        _ => 0,
    }
}

// The amount with its unit at the start of the bytes, with its end counted from there. The size is tested once, on the rounded amount.
pub(crate) fn dimen_in(s: &[u8]) -> Option<Dimen>
    ensures is { result ≡ dimen_of s.now }
    ensures inside { IfSome result (λ d. (d.size ≤ 16777215) × (1 ≤ d.end) × (d.end ≤ length s.now)) }
{
    let amount = amount_in(s)?;
    let unit = measure_in(&s[amount.len..])?;
    let len = amount.len + unit.len;
    (amount.value <= LARGEST).then(|| Dimen {
        size: amount.value,
        order: unit.value,
        end: len + space_len(&s[len..]),
    })
}
