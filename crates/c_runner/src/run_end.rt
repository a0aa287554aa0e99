use pl_resource::{Cell, Fault};

/// How a run ends: the first of these that holds, in this order.
#[derive(Clone, Copy, PartialEq, Eq, Debug)]
pub enum RunEnd {
    /// All threads have ended.
    Ended,
    /// The least two threads that race, and their cell (C11 5.1.2.4). Where both free a block, this is its cell of index 0
    /// and field 0.
    Race(u32, u32, Cell),
    /// The least thread that stands before a fault, and the fault.
    CFault(u32, Fault),
    /// No thread is enabled.
    Deadlock,
    /// 1,024 threads are unfinished, and the next action of one is a fork.
    ThreadLimit,
    /// There are as many events as the bound.
    StepBound,
}
