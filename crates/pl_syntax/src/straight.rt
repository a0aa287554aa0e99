//! Programs of the forms that the checker handles today.

ghost use Rattle.std.specs.Prelude.{◌≡◌, MatchResult, Some, None};
ghost use Rattle.pl_syntax.specs.Plain.{plain_program};
ghost use Rattle.pl_syntax.specs.Straight.{IsStraight};
ghost use Rattle.pl_syntax.specs.Unbuilt as unbuilt;

use crate::program::Program;
use crate::typed::Typed;
use crate::unbuilt::first_unbuilt;
use pl_base::Pos;
use std::marker::Model;

/// A typed program that is one function `main` of loads, allocations, frees and prints.
#[derive(Drop)]
pub struct Straight {
    program: Program,
}

impl Model for Straight {
    ghost use Rattle.pl_syntax.specs.declared.program.Program.{Program};
    ghost use Rattle.pl_syntax.specs.Plain.{plain_program};
    ghost use Rattle.pl_syntax.specs.Straight.{IsStraight};
    ghost use Rattle.std.specs.Coded.{codes};
    ghost use Rattle.pl_syntax.specs.contracts.expr.Expr as e;
    ghost use Rattle.pl_syntax.specs.contracts.prop.Prop as p;
    ghost use Rattle.pl_syntax.specs.contracts.stmt.Stmts as s;

    ghost Value = { Program };

    ghost coded = { Prim.hlevel (codes, e.the_row.coded, p.the_row.coded, s.the_row.coded) };

    ghost view = { λ t. t.program };

    ghost invariant = { λ t. IsStraight (plain_program t.program) };
}

impl Straight {
    /// The program as a straight one, or the place of its first form that the checker doesn't handle yet.
    pub fn of(typed: Typed) -> Result<Straight, Pos>
        ensures is { MatchResult result (λ s. (s ≡ typed) × (unbuilt.first_unbuilt (plain_program typed) ≡ None)) (λ place. unbuilt.first_unbuilt (plain_program typed) ≡ Some place) }
    {
        match first_unbuilt(typed.program()) {
            Some(place) => Err(place),
            None => Ok(Straight {
                program: typed.into_program(),
            }),
        }
    }

    pub fn program(&self) -> &Program
        ensures same { result.now ≡ self.now }
        ensures straight { IsStraight (plain_program self.now) }
    {
        &self.program
    }
}
