ghost use Rattle.std.specs.Prelude.{◌≡◌};
ghost use Rattle.pl_types.specs.declared.error.TypeError.TheVariants.{Memory};

use pl_base::{Memory, Pos};
use thiserror::Error;

/// Why a program isn't typed. `Unknown` and `Twice` come before all others, then the earlier place, and at one place
/// `GhostFlow`, `IllTyped`, `Opening`, `Measure`; `NoMain` comes last.
#[derive(Debug, Drop, Error)]
pub enum TypeError {
    /// A name without a binder in scope or without a declaration.
    #[error("unknown name at {0:?}")]
    Unknown(Pos),
    /// A second binder or declaration of a name.
    #[error("name twice at {0:?}")]
    Twice(Pos),
    /// A sort that isn't wanted, or a statement where it may not stand.
    #[error("ill typed at {0:?}")]
    IllTyped(Pos),
    /// A ghost or logical name where code runs that has none.
    #[error("ghost flow at {0:?}")]
    GhostFlow(Pos),
    /// An invariant that is opened where it may not be, or what may not stand where one is open.
    #[error("opening at {0:?}")]
    Opening(Pos),
    /// A call of a ghost function that need not end.
    #[error("measure at {0:?}")]
    Measure(Pos),
    /// No real function `main` without parameters, result and `requires`.
    #[error("no main")]
    NoMain,
    /// Memory ran out.
    #[error("out of memory")]
    Memory,
}

impl From<Memory> for TypeError {
    ghost from_gives = { λ _ e. e ≡ Memory };

    fn from(_: Memory) -> TypeError {
        TypeError::Memory
    }
}
