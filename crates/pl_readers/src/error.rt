ghost use Rattle.std.specs.Prelude.{◌≡◌, true, false, length};
ghost use Rattle.pl_readers.specs.declared.error.ReadError.TheVariants.{Memory};

use pl_base::Memory;
use std::alloc::{AllocError, AllocFailed};

/// Where a reader stopped: how many symbols are left, the refused one first.
#[derive(Clone, Copy, Debug, PartialEq, Eq)]
pub struct Stop {
    /// The refused symbol opens one level too many.
    pub is_deep: bool,
    pub left: usize,
}

/// Why nothing was read.
#[derive(Debug, Drop)]
pub enum ReadError {
    Memory,
    Stop(Stop),
}

impl From<Memory> for ReadError {
    ghost from_gives = { λ _ e. e ≡ Memory };

    fn from(_: Memory) -> ReadError {
        ReadError::Memory
    }
}

impl From<AllocError> for ReadError {
    ghost from_gives = { λ _ e. e ≡ Memory };

    fn from(_: AllocError) -> ReadError {
        ReadError::Memory
    }
}

impl<T: Drop> From<AllocFailed<T>> for ReadError {
    ghost from_gives = { λ _ e. e ≡ Memory };

    fn from(_: AllocFailed<T>) -> ReadError {
        ReadError::Memory
    }
}

/// The refusal of the next symbol.
pub fn refused<S>(symbols: &[S]) -> ReadError
    ensures { result ≡ ReadError.Stop (record { is_deep = false; left = length symbols.now }) }
{
    ReadError::Stop(Stop {
        is_deep: false,
        left: symbols.len(),
    })
}

/// The refusal of the next symbol, which would open a level too many.
pub fn too_deep<S>(symbols: &[S]) -> ReadError
    ensures { result ≡ ReadError.Stop (record { is_deep = true; left = length symbols.now }) }
{
    ReadError::Stop(Stop {
        is_deep: true,
        left: symbols.len(),
    })
}
