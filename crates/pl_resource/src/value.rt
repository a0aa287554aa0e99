ghost use Rattle.std.specs.Prelude.{◌≡◌};
ghost use Rattle.pl_resource.specs.Heap.{same_kind};

use pl_base::{Items, Name};

/// What a cell or a local of the program holds.
#[derive(Clone, Copy, PartialEq, Eq, Debug)]
pub enum Value {
    Int(i64),
    Truth(bool),
    /// The pointer to nothing.
    Null,
    /// A pointer to the block of that number.
    Block(u32),
    /// The lock of that number.
    Lock(u32),
}

/// What a variable of ghost code, or an argument of a predicate, holds.
#[derive(Clone, Copy, PartialEq, Eq, Debug)]
pub enum GValue {
    Int(i128),
    Truth(bool),
    Null,
    Block(u32),
    Lock(u32),
    /// The ghost cell of that number.
    Cell(u32),
    /// The invariant of that number.
    Inv(u32),
}

/// A cell of a block: a field of one of its elements. All three count from 0.
#[derive(Clone, Copy, PartialEq, Eq, Debug)]
pub struct Cell {
    pub block: u32,
    pub index: u32,
    pub field: u32,
}

/// What a lock or an invariant is made for: a predicate, with its arguments.
#[derive(Debug, Drop)]
pub struct Entry {
    pub pred: Name,
    pub args: Items<GValue>,
}

/// Why an event has no meaning but to fault.
#[derive(Clone, Copy, PartialEq, Eq, Debug)]
pub enum Fault {
    /// The block was freed, or was never made (C11 6.2.4).
    Dead,
    /// The block has no such index or field (C11 6.5.6), or an array is to have a length that isn't from 1 to 1,048,576.
    Outside,
    /// The cell is of another kind than its use (C11 6.5).
    Kind,
    /// The null pointer is used as a block (C11 6.5.3.2).
    Null,
    /// A result isn't in the range of its type (C11 6.5).
    Overflow,
    /// The divisor is 0 (C11 6.5.5).
    ZeroDivisor,
    /// The lock was ended.
    LockFreed,
    /// The lock is to be released or ended, and nobody holds it.
    LockFree,
    /// No such ghost cell was made.
    GhostMissing,
}

impl Value {
    // Whether a cell that holds the one may hold the other.
    pub(crate) fn same_kind(&self, other: &Value) -> bool
        ensures { result ≡ same_kind self.now other.now }
    {
        match (*self, *other) {
            (Value::Int(_), Value::Int(_)) => true,
            (Value::Truth(_), Value::Truth(_)) => true,
            (Value::Null | Value::Block(_), Value::Null | Value::Block(_)) => true,
            (Value::Lock(_), Value::Lock(_)) => true,
            _ => false,
        }
    }
}
