//! What a program holds: blocks of cells, ghost cells, locks and invariants, with the faults of their uses.
#![tactic(auto)]

mod block;
mod ghost_heap;
mod heap;
mod inv_table;
mod lock_table;
mod value;

pub use ghost_heap::GhostHeap;
pub use heap::Heap;
pub use inv_table::InvTable;
pub use lock_table::LockTable;
pub use value::{Cell, Entry, Fault, GValue, Value};

#[cfg(test)]
mod tests;
