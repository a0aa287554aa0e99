ghost use Rattle.std.specs.Prelude.{◌≡◌};
ghost use Rattle.pl_syntax.specs.Plain.{plain_program};
ghost use Rattle.pl_syntax.specs.Typing.{IsTyped};

use crate::program::Program;
use std::marker::Model;

/// A program that keeps all rules on names, sorts, ghost flow, opening and measures, and has a `main`.
#[derive(Drop)]
pub struct Typed {
    program: Program,
}

impl Model for Typed {
    ghost use Rattle.pl_syntax.specs.declared.program.Program.{Program};
    ghost use Rattle.pl_syntax.specs.Plain.{plain_program};
    ghost use Rattle.pl_syntax.specs.Typing.{IsTyped};
    ghost use Rattle.std.specs.Coded.{codes};
    ghost use Rattle.pl_syntax.specs.contracts.expr.Expr as e;
    ghost use Rattle.pl_syntax.specs.contracts.prop.Prop as p;
    ghost use Rattle.pl_syntax.specs.contracts.stmt.Stmts as s;

    ghost Value = { Program };

    ghost coded = { Prim.hlevel (codes, e.the_row.coded, p.the_row.coded, s.the_row.coded) };

    ghost view = { λ t. t.program };

    ghost invariant = { λ t. IsTyped (plain_program t.program) };
}

impl Typed {
    /// Keeps the fact that the program keeps all rules. It takes no memory.
    pub fn seal(program: Program) -> Typed
        requires { IsTyped (plain_program program) }
        ensures { result ≡ program }
    {
        Typed { program }
    }

    /// The program, which keeps all rules.
    pub fn program(&self) -> &Program
        ensures same { result.now ≡ self.now }
        ensures typed { IsTyped (plain_program self.now) }
    {
        &self.program
    }

    /// The program alone.
    pub fn into_program(self) -> Program
        ensures { result ≡ self }
    {
        self.program
    }
}
