ghost use Rattle.std.specs.Prelude.{◌≡◌, ◌+◌, ◌^◌, ◌<◌, Ok, Err};
ghost use Rattle.table.specs.declared.cells.InHand.TheVariants as held;
ghost use Rattle.table.specs.Promises.{fresh_cell, begun_cell, place_of};

use faults::Fault;
use rows::state::Cell;

/// A cell that is neither begun nor omitted. It has to be handed to a call of its table: it cannot be let go or copied.
pub struct Fresh {
    pub(crate) column: usize,
}

/// A cell that takes items. It too has to be handed to a call.
pub struct Begun {
    pub(crate) column: usize,
}

/// A refused call hands its cell back.
pub struct Refusal<C> {
    pub cell: C,
    pub fault: Fault,
}

/// A cell of either kind.
pub enum InHand {
    Fresh(Fresh),
    Begun(Begun),
}

impl From<Fresh> for InHand {
    ghost from_gives = { λ cell h. h ≡ held.Fresh cell };

    fn from(cell: Fresh) -> InHand {
        InHand::Fresh(cell)
    }
}

impl From<Begun> for InHand {
    ghost from_gives = { λ cell h. h ≡ held.Begun cell };

    fn from(cell: Begun) -> InHand {
        InHand::Begun(cell)
    }
}

impl InHand {
    // The cell as its row knows it.
    pub(crate) fn place(self) -> Cell
        ensures { result ≡ place_of self }
    {
        match self {
            InHand::Fresh(Fresh { column }) => Cell::Fresh(column),
            InHand::Begun(Begun { column }) => Cell::Begun(column),
        }
    }
}

impl Fresh {
    // The cell begun.
    pub(crate) fn begun(self) -> Begun
        ensures { result ≡ begun_cell self.column }
    {
        let Fresh { column } = self;
        Begun { column }
    }
}

impl Begun {
    // The cell in the next column.
    pub(crate) fn next(self) -> Fresh
        requires { self.column + 1 < 2 ^ 64 }
        ensures { result ≡ fresh_cell (self.column + 1) }
    {
        let Begun { column } = self;
        Fresh { column: column + 1 }
    }

    // The cell spent, as its row is laid.
    pub(crate) fn end(self) {
        let Begun { column: _ } = self;
    }
}

// The next cell after an accepted call; a refused one hands its cell back.
pub(crate) fn handed<C, D, F: FnOnce(C) -> D + Drop>(
    outcome: Result<(), Fault>,
    cell: C,
    next: F,
) -> Result<D, Refusal<C>>
    requires { outcome ≡ Ok tt → F.pre next cell }
    ensures accepted { outcome ≡ Ok tt → (d : D) × (F.post next cell d × (result ≡ Ok d)) }
    ensures refused { (f : _) → outcome ≡ Err f → result ≡ Err (record { cell = cell; fault = f }) }
{
    match outcome {
        Ok(()) => Ok(next(cell)),
        Err(fault) => Err(Refusal { cell, fault }),
    }
}
