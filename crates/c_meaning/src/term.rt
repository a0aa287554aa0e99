ghost use Rattle.std.specs.Prelude.{◌≡◌};
ghost use Rattle.c_meaning.specs.Plain.{plain_basic};
ghost use Rattle.c_meaning.specs.Tree.{binds};

use c_syntax::COp;
use pl_base::Items;

/// An expression whose locals are named by number.
#[derive(Drop)]
pub(crate) enum Term {
    Int(i64),
    Truth(bool),
    Null,
    Var(u32),
    Neg(Box<Term>),
    Not(Box<Term>),
    Bin(COp, Box<Term>, Box<Term>),
}

/// A cell: the local that points to its block, and where it stands there.
#[derive(Drop)]
pub(crate) enum Place {
    Whole(u32),
    At(u32, Term),
    Field(u32, u32),
}

/// A statement that is one event and then goes on behind itself.
#[derive(Drop)]
pub(crate) enum Basic {
    /// The local that is bound, the cell, and whether the load is atomic.
    Load(u32, Place, bool),
    Store(Place, Term, bool),
    Cas(u32, u32, Term, Term),
    /// A block: the local that is bound, whether it is atomic, the first values of an element's fields, and the count.
    Make(u32, bool, Items<Term>, Term),
    Free(u32),
    NewLock(u32),
    Acquire(u32),
    Release(u32),
    Read(u32),
    Print(Term),
    /// The local that gets the result, if one does, the function, and its arguments.
    Call(Option<u32>, u32, Items<Term>),
    Fork(u32, Items<Term>),
    Join,
    Return(Term),
}

impl Basic {
    // The local that it binds, or 0.
    pub(crate) fn binds(&self) -> u32
        ensures { result ≡ binds (plain_basic self.now) }
    {
        match self {
            Basic::Load(x, _, _) => *x,
            Basic::Cas(x, _, _, _) => *x,
            Basic::Make(x, _, _, _) => *x,
            Basic::NewLock(x) => *x,
            Basic::Read(x) => *x,
            Basic::Call(Some(x), _, _) => *x,
            _ => 0,
        }
    }
}
