//! The meaning of a C program: its threads, their events one at a time, and what each next event touches.
#![tactic(auto)]

mod act;
mod action;
mod code;
mod eval;
mod frame;
mod load;
mod locks;
mod resolve;
mod state;
mod term;
mod thread;
mod touch;
mod world;

pub use action::{Action, Event, History, Next, Touch};
pub use state::CState;

#[cfg(test)]
mod tests;
