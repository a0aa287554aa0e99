//! What a source program does: its machine, its annotated runs, and what the rule of a statement promises of its event.
#![tactic(auto)]

mod laws;

pub use laws::event_laws;
