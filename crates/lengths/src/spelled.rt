//! What some bytes spell.

// A value, and how many bytes spell it.
#[derive(Clone, Copy)]
pub(crate) struct Spelled<T> {
    pub(crate) value: T,
    pub(crate) len: usize,
}
