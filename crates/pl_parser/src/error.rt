ghost use Rattle.std.specs.Prelude.{◌≡◌};
ghost use Rattle.pl_parser.specs.declared.error.ParseError.TheVariants.{Memory};

use pl_base::Pos;
use std::alloc::{AllocError, AllocFailed};
use thiserror::Error;

/// Why tokens are no program. The first by place is answered.
#[derive(Debug, Drop, Error)]
pub enum ParseError {
    /// The first token with which no file of the grammar goes on, and the least number of what was expected: a sign's, or
    /// 253 for the end, 254 for a number, 255 for a name.
    #[error("syntax at {0:?}")]
    Syntax(Pos, u8),
    /// The token that opens the 65th level.
    #[error("too deep at {0:?}")]
    Deep(Pos),
    /// The first token of the 4,097th declaration.
    #[error("too many declarations at {0:?}")]
    TooMany(Pos),
    #[error("out of memory")]
    Memory,
}

impl From<pl_base::Memory> for ParseError {
    ghost from_gives = { λ _ e. e ≡ Memory };

    fn from(_: pl_base::Memory) -> ParseError {
        ParseError::Memory
    }
}

impl From<AllocError> for ParseError {
    ghost from_gives = { λ _ e. e ≡ Memory };

    fn from(_: AllocError) -> ParseError {
        ParseError::Memory
    }
}

impl<T: Drop> From<AllocFailed<T>> for ParseError {
    ghost from_gives = { λ _ e. e ≡ Memory };

    fn from(_: AllocFailed<T>) -> ParseError {
        ParseError::Memory
    }
}
