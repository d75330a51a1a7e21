ghost use Rattle.measure.specs.Ranges.{MonoRanges};

pub mod measuring;

// Monospaced: every byte and a space have one width, the pitch; the bytes above the last have no character.
#[derive(Clone, Copy, PartialEq, Eq, Debug)]
pub struct Mono {
    pitch: i64,
    height: i64,
    depth: i64,
    last: i64,
    ghost ranges: { MonoRanges pitch height depth last },
}
