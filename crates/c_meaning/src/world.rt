ghost use Rattle.std.specs.Prelude.{◌≡◌, ℤ, ◌≤◌, drop};
ghost use Rattle.c_meaning.specs.Effects.{next_number, after_number};

use crate::locks::Locks;
use pl_resource::{Heap, Value};

/// What all threads share.
#[derive(Drop)]
pub(crate) struct World {
    pub(crate) heap: Heap,
    pub(crate) locks: Locks,
    pub(crate) input: Vec<i64>,
    /// How many numbers of the input were read.
    pub(crate) at: usize,
    pub(crate) outputs: Vec<i64>,
    /// The first values of the next block come into it.
    pub(crate) first: Vec<Value>,
}

/// The next number of the input, or 0 past its end.
pub(crate) fn take(input: &[i64], at: &mut usize) -> i64
    ensures number { result ≡ next_number (drop at.old input.now) }
    ensures left { drop at.new input.now ≡ after_number (drop at.old input.now) }
{
    match input.get(*at) {
        Some(n) => {
            *at += 1;
            *n
        }
        None => 0,
    }
}
