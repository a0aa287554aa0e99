//! The checker's walk over a function, and what its acceptance means.
#![tactic(auto)]

mod known;
mod laws;
mod text;
mod walk;

pub use laws::walk_laws;
pub use walk::{Duty, WalkError, walk_function};
