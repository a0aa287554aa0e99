// Why a command refuses.
use pl_base::{Items, Name, Pos};
use pl_resource::{Cell, Fault};
use pl_words::UsageKind;

/// A node of a goal, by its text, and the value at which the goal isn't met.
#[derive(Debug, Drop)]
pub struct At {
    pub node: Items<u8>,
    pub value: i128,
}

/// Why a command refuses, with what its line says. Texts and words are bytes, without the end of a line.
#[derive(Debug, Drop)]
pub enum Refusal {
    /// The words of the command, at the place of the first wrong one.
    Usage(UsageKind, u32),
    /// There is no `main` to start with.
    NoMain,
    /// The byte at which the first sequence begins that is no UTF-8.
    BadUtf8(u32),
    /// No token begins there.
    BadChar(Pos),
    /// A number that is too large.
    LongNumber(Pos),
    /// A name that is too long.
    LongName(Pos),
    /// The first token with which no file goes on.
    Syntax(Pos),
    /// The token that opens one level too many.
    Deep(Pos),
    /// A name that isn't known.
    Unknown(Pos),
    /// A name that is declared twice.
    Twice(Pos),
    /// A wrong sort.
    IllTyped(Pos),
    /// Ghost data in code that runs.
    GhostFlow(Pos),
    /// What may not stand where an invariant is open, or may not open one.
    Opening(Pos),
    /// A ghost call without an end.
    Measure(Pos),
    /// No atom fits the one that is needed.
    Missing(Pos, Items<u8>),
    /// A goal that doesn't follow, and values of its nodes at which it isn't met.
    Undone(Pos, Items<u8>, Items<At>),
    /// Atoms are left at the end.
    Leftover(Pos, Items<u8>),
    /// A condition of which neither side follows.
    Undecided(Pos, Items<u8>),
    /// A binder for which no term is found.
    Unsolved(Pos, Name),
    /// A variable that isn't known to be a permission.
    Permission(Pos, Name),
    /// A limit of that kind is passed, by that size.
    Limit(Pos, Items<u8>, u128),
    /// A file is longer than may be; the number is the limit and 1.
    LimitFile(u64),
    /// The input is longer than may be; the number is the limit and 1.
    LimitInput(u64),
    /// There is no room for one thread more.
    LimitThreads,
    /// A number of ghost code is too large.
    LimitGhost,
    /// The first wrong byte of a text of C.
    CByte(u32),
    /// The first wrong byte of a proof.
    ProofByte(u32),
    /// The first wrong line of a history.
    HistoryLine(u32),
    /// The first wrong line of the input.
    InputLine(u32),
    /// A node of a proof, and the rule that it breaks.
    ProofNode(u32, Items<u8>),
    /// The first event that is no step, what its thread would do, if anything, and the event.
    Differs(u32, Option<Items<u8>>, Items<u8>),
    /// No thread goes on after so many events.
    Deadlock(u32),
    /// A run came to its bound after so many events.
    Bound(u32),
    /// Two threads that race, their cell, and how many events there were before.
    Race(u32, u32, Cell, u32),
    /// A thread before a fault, the fault, and how many events there were before.
    Faulted(u32, Fault, u32),
}
