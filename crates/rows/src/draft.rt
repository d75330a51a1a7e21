use crate::state::{Memory, State};

/// The fill marks, and the memory that they mark. That they fit is no ghost field here: the steps write through the `&mut`s
/// of `memory`, and the check covers such a write only in a struct without one. `Rows` has it, whose calls take these steps.
#[derive(Drop)]
pub struct Draft<'a, E> {
    pub state: State<E>,
    pub memory: Memory<'a, E>,
}
