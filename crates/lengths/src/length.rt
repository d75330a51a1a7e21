//! Lengths: an optional minus, an amount, and `pt`.
ghost use Rattle.std.specs.Prelude.{◌≡◌, ◌<◌, ◌≤◌, length, IfSome, IfOk};
ghost use Rattle.lengths.specs.Laws.{ReadsLength};
ghost use Rattle.lengths.specs.Lengths.{points_of, length_of, missing_at, length_at};
ghost use Rattle.lengths.specs.Ranges.{NaturalRange, SizeRange};

use crate::dimen::dimen_in;
use crate::order::Order;
use faults::{Cause, Fault};
use reader::text::rest_at;
use reader::tokens::token_at;

// A length in 65,536ths of a point, and the place behind it and the one space byte that it swallows.
// Hosts, contracts and tests name these fields.
#[derive(Clone, Copy, PartialEq, Eq, Debug)]
pub struct Length {
    pub sp: i64,
    pub end: usize,
}

// The length without a sign at the start of the bytes, with its end counted from there.
fn points_in(s: &[u8]) -> Option<Length>
    ensures is { result ≡ points_of s.now }
    ensures inside { IfSome result (λ l. SizeRange l.sp × (1 ≤ l.end) × (l.end ≤ length s.now)) }
{
    dimen_in(s)
        .filter(|d| d.order == Order::Points)
        .map(|d| Length {
            sp: d.size as i64,
            end: d.end,
        })
}

// The length at the start of the bytes, with its end counted from there. A minus turns the rounded amount.
fn length_in(s: &[u8]) -> Option<Length>
    ensures is { result ≡ length_of s.now }
    ensures inside { IfSome result (λ l. NaturalRange l.sp × (1 ≤ l.end) × (l.end ≤ length s.now)) }
{
    match s {
        [b'-', tail @ ..] => {
            let l = points_in(tail)?;
            Some(Length {
                sp: -l.sp,
                end: 1 + l.end,
            })
        }
        _ => points_in(s),
    }
}

// The fault where a length or a stretch has to stand and none does: that of the byte or of the control word
// that stands there instead, if it is bad or unknown.
pub(crate) fn missing(text: &[u8], place: usize) -> Fault
    ensures { result ≡ missing_at text.now place }
{
    match token_at(text, place) {
        Err(fault) if matches!(fault.cause, Cause::BadByte | Cause::UnknownControl) => fault,
        _ => Cause::BadLength.at(place.min(text.len())),
    }
}

// The length at a place of a text.
pub fn length_at(text: &[u8], place: usize) -> Result<Length, Fault>
    ensures answer { result ≡ length_at text.now place }
    ensures within { IfOk result (λ l. NaturalRange l.sp × (place < l.end) × (l.end ≤ length text.now)) }
    ensures law { ReadsLength text.now place result }
{
    length_in(rest_at(text, place))
        .map(|l| Length {
            end: place + l.end,
            ..l
        })
        .ok_or_else(|| missing(text, place))
}
