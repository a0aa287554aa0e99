// What the walk knows before a statement.
ghost use Rattle.std.specs.Prelude.{◌≡◌, ◌<◌, ℕ, Some, None, MatchOption, OnOk, OnErr, IfOk, length, [], ◌++◌, ◌∷◌};
ghost use Rattle.pl_terms.specs.Terms.{Atom};

use pl_base::{Memory, Name};
use pl_terms::Term;
use std::alloc::Global;
use std::collections::HashMap;

/// A block that was allocated: the name that its pointer was bound to, and what its cell holds while it lives.
#[derive(Clone, Copy)]
pub struct Block<'p> {
    pub name: &'p Name,
    pub value: Option<Term>,
}

/// What names stand for, and the blocks by the numbers of their pointers.
#[derive(Drop)]
pub struct Known<'p> {
    names: HashMap<&'p str, Term>,
    blocks: Vec<Block<'p>>,
}

impl<'p> Known<'p> {
    ghost use Rattle.pl_walk.specs.Shown.{known_of};
    ghost use Rattle.pl_terms.specs.Table.{start, allocated, put, Known};
    ghost use Rattle.pl_walk.specs.Blocks.{IsFirst, IsFreed};
    ghost use Rattle.pl_walk.specs.Walk.{NoneOf, PointsTo};

    pub fn new(alloc: Global) -> Known<'p>
        ensures { known_of result ≡ start }
    {
        Known {
            names: HashMap::new(alloc),
            blocks: Vec::new(alloc),
        }
    }

    /// What a name stands for.
    pub fn term(&self, name: &Name) -> Option<Term>
        ensures { result ≡ (known_of self.now).names name.now }
    {
        self.names.get(name.text()).copied()
    }

    /// What the first points-to of that variable holds.
    pub fn value_at(&self, variable: u32) -> Option<Term>
        ensures { MatchOption result (NoneOf (PointsTo (Term.Variable variable)) (known_of self.now).atoms) (λ v. IsFirst (Term.Variable variable) v (known_of self.now).atoms) }
    {
        let place = variable as usize;
        if place >= self.blocks.len() {
            return None;
        }
        self.blocks[place].value
    }

    /// The name stands for the term from now on.
    pub fn bind(&mut self, name: &'p Name, term: Term) -> Result<(), Memory>
        ensures ok { OnOk result (known_of self.new ≡ record (known_of self.old) { names = put name.now term (known_of self.old).names }) }
    {
        self.names.insert(name.text(), term)?;
        Ok(())
    }

    /// A new block that holds the value, and the name for its pointer.
    pub fn allocate(&mut self, name: &'p Name, value: Term) -> Result<(), Memory>
        ensures ok { OnOk result (known_of self.new ≡ allocated (known_of self.old) name.now value) }
    {
        let Ok(number) = u32::try_from(self.blocks.len()) else {
            return Err(Memory);
        };
        self.blocks.push(Block {
            name,
            value: Some(value),
        })?;
        self.bind(name, Term::Variable(number))
    }

    /// Gives the block of that variable up: what its cell held, or `None` where no points-to of it is left.
    pub fn release(&mut self, variable: u32) -> Option<Term>
        ensures { MatchOption result ((known_of self.new ≡ known_of self.old) × NoneOf (PointsTo (Term.Variable variable)) (known_of self.old).atoms) (λ value. IsFreed (Term.Variable variable) value (known_of self.old) (known_of self.new)) }
    {
        let place = variable as usize;
        if place >= self.blocks.len() {
            return None;
        }
        let held = self.blocks[place].value;
        self.blocks[place].value = None;
        held
    }

    /// The blocks by number.
    pub fn blocks(&self) -> &[Block<'p>]
        ensures { result.now ≡ self.now.blocks.items }
    {
        self.blocks.as_slice()
    }
}
