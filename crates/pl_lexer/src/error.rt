ghost use Rattle.std.specs.Prelude.{◌≡◌};
ghost use Rattle.pl_lexer.specs.declared.error.LexError.TheVariants.{Memory};

use pl_base::{Memory, Pos};
use std::alloc::{AllocError, AllocFailed};
use thiserror::Error;

/// Why a file has no tokens. Bytes that aren't UTF-8 come before all else; of the others the first by place is answered.
#[derive(Debug, Drop, Error)]
pub enum LexError {
    /// The byte at which the first sequence begins that isn't UTF-8.
    #[error("bad UTF-8 at {0}")]
    BadUtf8(u32),
    /// No lexeme begins here.
    #[error("bad character at {0:?}")]
    BadChar(Pos),
    /// A number passes 2^127 - 1.
    #[error("long number at {0:?}")]
    LongNumber(Pos),
    /// A name has more than 40 characters, or more than 50 bytes once mangled.
    #[error("long name at {0:?}")]
    LongName(Pos),
    #[error("out of memory")]
    Memory,
}

impl From<Memory> for LexError {
    ghost from_gives = { λ _ e. e ≡ Memory };

    fn from(_: Memory) -> LexError {
        LexError::Memory
    }
}

impl From<AllocError> for LexError {
    ghost from_gives = { λ _ e. e ≡ Memory };

    fn from(_: AllocError) -> LexError {
        LexError::Memory
    }
}

impl<T: Drop> From<AllocFailed<T>> for LexError {
    ghost from_gives = { λ _ e. e ≡ Memory };

    fn from(_: AllocFailed<T>) -> LexError {
        LexError::Memory
    }
}
