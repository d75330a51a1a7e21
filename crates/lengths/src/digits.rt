//! Bytes that spell a whole number or the part behind a point.
ghost use Rattle.lengths.specs.Fractions.{Digits, Digits-prop};

// Bytes that are all digits.
#[derive(Clone, Copy)]
pub(crate) struct DigitRun<'a> {
    pub(crate) bytes: &'a [u8],
    ghost digits: { Digits bytes.now } by { Digits-prop bytes.now },
}
