use pl_base::Items;
use pl_resource::{Cell, Fault, Value};

/// What an event does.
#[derive(Clone, Copy, PartialEq, Eq, Debug)]
pub enum Action {
    /// The value that was loaded from a cell.
    Load(Cell, Value),
    /// The value that was stored in a cell.
    Store(Cell, Value),
    /// A compare-and-swap (C11 7.17.7.4): the number that it saw, and whether it stored.
    Cas(Cell, i64, bool),
    /// A block that was made, and the count of its elements.
    Alloc(u32, u32),
    Free(u32),
    NewLock(u32),
    Acquire(u32),
    Release(u32),
    FreeLock(u32),
    /// The thread that was started.
    Fork(u32),
    /// The thread that had ended.
    Join(u32),
    Print(i64),
    Read(i64),
    /// A loop comes to its head.
    Turn,
    /// The function's place among the program's, from 0.
    Call(u32),
    Return,
}

/// An action of a thread.
#[derive(Clone, Copy, PartialEq, Eq, Debug)]
pub struct Event {
    pub tid: u32,
    pub action: Action,
}

/// What a thread stands before.
#[derive(Clone, Copy, PartialEq, Eq, Debug)]
pub enum Next {
    Act(Touch),
    Fault(Fault),
    Ended,
}

/// What an action touches.
#[derive(Clone, Copy, PartialEq, Eq, Debug)]
pub struct Touch {
    /// The cell of a load, a store or a compare-and-swap.
    pub cell: Option<Cell>,
    /// The block of a free.
    pub block: Option<u32>,
    /// Whether it writes: a store, a compare-and-swap or a free.
    pub writes: bool,
    /// Whether it is atomic (C11 7.17.7).
    pub atomic: bool,
    /// The lock that an acquire wants.
    pub lock: Option<u32>,
    /// The thread that a join waits for.
    pub child: Option<u32>,
    pub forks: bool,
}

/// The events of a run, in their order.
#[derive(Debug, Drop)]
pub struct History {
    pub events: Items<Event>,
}
