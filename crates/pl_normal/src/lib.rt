//! What names stand for, and the linear forms and duties of expressions.
#![tactic(auto)]

mod bindings;
mod copying;
mod forming;
mod laws;
mod opaque;
mod putting;
mod scope;

pub use forming::{condition, normal};
pub use laws::normal_laws;
pub use putting::put_in;
pub use scope::{Atom, Binding, Operands, Origin, Scope};

#[cfg(test)]
mod tests;
