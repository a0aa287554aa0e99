ghost use Rattle.std.specs.Prelude.{◌≡◌};
ghost use Rattle.c_history.specs.declared.error.HistoryError.TheVariants.{Memory};

use std::alloc::{AllocError, AllocFailed};
use thiserror::Error;

/// Why bytes are no history.
#[derive(Debug, Drop, Error)]
pub enum HistoryError {
    /// The first line, from 1, that no history has. One that is missing at the end counts.
    #[error("history line {0}")]
    BadHistory(u32),
    #[error("out of memory")]
    Memory,
}

impl From<pl_base::Memory> for HistoryError {
    ghost from_gives = { λ _ e. e ≡ Memory };

    fn from(_: pl_base::Memory) -> HistoryError {
        HistoryError::Memory
    }
}

impl From<AllocError> for HistoryError {
    ghost from_gives = { λ _ e. e ≡ Memory };

    fn from(_: AllocError) -> HistoryError {
        HistoryError::Memory
    }
}

impl<T: Drop> From<AllocFailed<T>> for HistoryError {
    ghost from_gives = { λ _ e. e ≡ Memory };

    fn from(_: AllocFailed<T>) -> HistoryError {
        HistoryError::Memory
    }
}
