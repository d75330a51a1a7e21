use lengths::order::Order;
use sharing::{Edges, SideGap};

/// Memory that the host lends while columns are settled: what it holds before is read by no answer. Arrays, since the
/// device has no heap.
#[derive(Drop)]
pub struct Workspace<E> {
    pub(crate) cells: [Option<E>; 1024],
    pub(crate) widths: [Option<E>; 32],
    pub(crate) lengths: [i64; 33],
}

impl<E: Copy> Workspace<E> {
    pub fn new() -> Workspace<E> {
        Workspace {
            cells: [None; 1024],
            widths: [None; 32],
            lengths: [0; 33],
        }
    }
}

/// Memory that the host lends while the gaps of one side are set.
#[derive(Drop)]
pub struct Spread {
    pub(crate) numbers: [Option<i64>; 32],
    pub(crate) gaps: [SideGap; 33],
    pub(crate) set: [i64; 33],
    pub(crate) columns: [Edges; 32],
}

impl Spread {
    pub fn new() -> Spread {
        let gap = SideGap {
            natural: 0,
            stretch: 0,
            order: Order::Points,
        };
        Spread {
            numbers: [None; 32],
            gaps: [gap; 33],
            set: [0; 33],
            columns: [Edges { left: 0, right: 0 }; 32],
        }
    }
}
