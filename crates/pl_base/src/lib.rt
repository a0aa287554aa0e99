//! What every other crate stands on: places, names, lists that contracts see as lists, and the outside of the program.
#![tactic(auto)]

mod items;
mod memory_host;
mod name;
mod outside;
mod perm;
mod pos;
mod store;
mod token;

pub use items::Items;
pub use memory_host::{MemoryHost, SteadyHost};
pub use name::Name;
pub use outside::{Gate, Host, HostError, HostFailed, NullGate, TakeError};
pub use perm::{Perm, SumError, TooFine};
pub use pos::{Memory, Pos};
pub use store::HostFile;
pub use token::{Kind, Token};

#[cfg(test)]
mod tests;
