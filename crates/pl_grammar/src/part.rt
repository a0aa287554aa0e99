ghost use Rattle.std.specs.Prelude.{◌≡◌, ◌<◌, ◌^◌, IfOk, Ok};
ghost use Rattle.pl_readers.specs.Given.{Gives};
ghost use Rattle.pl_grammar.specs.Grammar as spec;
ghost use Rattle.pl_grammar.specs.Parts.{plain_part};

use pl_base::Pos;
use pl_readers::ReadError;
use pl_syntax::{BinOp, Expr, Prop};
use std::alloc::Global;

/// An expression that was read, with the place of its first token and how many levels are open behind it.
#[derive(Debug, Drop)]
pub struct Part {
    pub first: Pos,
    pub tree: Expr,
    pub used: u32,
}

/// Two operands and their operator.
pub fn join(alloc: Global, left: Part, op: BinOp, right: Part) -> Result<Part, ReadError>
    ensures value { Gives plain_part result (Ok (spec.joined (plain_part left) op (plain_part right))) }
    ensures used { IfOk result (λ x. x.used ≡ right.used) }
{
    let first = left.first;
    let tree = Expr::Bin(
        first,
        op,
        Box::new(alloc, left.tree)?,
        Box::new(alloc, right.tree)?,
    );
    Ok(Part {
        first,
        tree,
        used: right.used,
    })
}

/// A proposition that was read, with how many levels are open behind it.
#[derive(Debug, Drop)]
pub struct PropPart {
    pub tree: Prop,
    pub used: u32,
}
