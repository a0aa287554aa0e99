ghost use Rattle.std.specs.Prelude.{◌≡◌};
ghost use Rattle.c_forms.specs.declared.error.FormsError.TheVariants.{Memory};

use std::alloc::{AllocError, AllocFailed};
use thiserror::Error;

/// Why nothing was read.
#[derive(Debug, Drop, Error)]
pub enum FormsError {
    /// The end of the longest prefix that begins some text of the forms.
    #[error("not of the forms at byte {0}")]
    NotForms(u32),
    #[error("out of memory")]
    Memory,
}

impl From<pl_base::Memory> for FormsError {
    ghost from_gives = { λ _ e. e ≡ Memory };

    fn from(_: pl_base::Memory) -> FormsError {
        FormsError::Memory
    }
}

impl From<AllocError> for FormsError {
    ghost from_gives = { λ _ e. e ≡ Memory };

    fn from(_: AllocError) -> FormsError {
        FormsError::Memory
    }
}

impl<T: Drop> From<AllocFailed<T>> for FormsError {
    ghost from_gives = { λ _ e. e ≡ Memory };

    fn from(_: AllocFailed<T>) -> FormsError {
        FormsError::Memory
    }
}
