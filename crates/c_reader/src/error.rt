ghost use Rattle.std.specs.Prelude.{◌≡◌};
ghost use Rattle.c_reader.specs.declared.error.ReadCError.TheVariants.{Memory};
ghost use Rattle.c_reader.specs.Reads.{of_forms};

use c_forms::FormsError;
use thiserror::Error;

/// Why a C text was not read.
#[derive(Debug, Drop, Error)]
pub enum ReadCError {
    /// The bytes are no text of the fragment. The place is the end of their longest front that begins some text of the
    /// forms; where they are a text of the forms, it is the first byte that breaks a rule.
    #[error("not of the fragment at byte {0}")]
    NotFragment(u32),
    #[error("out of memory")]
    Memory,
}

impl From<pl_base::Memory> for ReadCError {
    ghost from_gives = { λ _ e. e ≡ Memory };

    fn from(_: pl_base::Memory) -> ReadCError {
        ReadCError::Memory
    }
}

impl From<FormsError> for ReadCError {
    ghost from_gives = { λ f e. e ≡ of_forms f };

    fn from(error: FormsError) -> ReadCError {
        match error {
            FormsError::NotForms(place) => ReadCError::NotFragment(place),
            FormsError::Memory => ReadCError::Memory,
        }
    }
}
