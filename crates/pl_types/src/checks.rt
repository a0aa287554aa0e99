//! The type check of a program.

ghost use Rattle.std.specs.Prelude.{◌≡◌, IfOk, MatchResult, Some};
ghost use Rattle.pl_syntax.specs.Plain.{plain_program, plain_prop};
ghost use Rattle.pl_syntax.specs.Tree as tree;
ghost use Rattle.pl_syntax.specs.Breaches.{least};
ghost use Rattle.pl_syntax.specs.DeclRules as spec;
ghost use Rattle.pl_types.specs.Tables.{placed};
ghost use Rattle.pl_syntax.specs.Typing.{IsTyped};
ghost use Rattle.pl_types.specs.Refusals.{Refused};

use crate::decls::look_decls;
use crate::error::TypeError;
use crate::known_names::tables_of;
use crate::tables::Callee;
use pl_base::Memory;
use pl_syntax::{Breach, Program, Prop, Rule, Typed};
use std::alloc::Global;

fn is_emp(prop: &Prop) -> bool
    ensures { result ≡ spec.is_emp (plain_prop prop.now) }
{
    matches!(prop, Prop::Emp(_))
}

/// Whether it is a real function without parameters, result and `requires`.
fn is_main(f: Option<Callee<'_>>) -> bool
    ensures { result ≡ spec.is_main (placed f.entry) }
{
    match f {
        None => false,
        Some(f) => {
            !f.decl.is_ghost
                && f.decl.params.as_slice().is_empty()
                && !f.decl.result.is_some()
                && is_emp(&f.decl.before)
        }
    }
}

/// What is found of a program: its first breach, and whether it has a `main`.
#[derive(Clone, Copy)]
struct Found {
    breach: Option<Breach>,
    main: bool,
}

fn look_program(alloc: Global, program: &Program) -> Result<Found, Memory>
    ensures breach { IfOk result (λ found. found.breach ≡ least (spec.breaches (plain_program program.now))) }
    ensures main { IfOk result (λ found. found.main ≡ spec.has_main (plain_program program.now)) }
{
    let list = program.decls.as_slice();
    let tables = tables_of(alloc, list)?;
    let breach = look_decls(alloc, &tables, list)?;
    let main = is_main(tables.main());
    Ok(Found { breach, main })
}

/// The refusal of a breach.
fn refusal(breach: Breach) -> TypeError
    ensures { (p : tree.Program) → least (spec.breaches p) ≡ Some breach → Refused p result }
{
    let pos = breach.pos;
    match breach.rule {
        Rule::Unknown => TypeError::Unknown(pos),
        Rule::Twice => TypeError::Twice(pos),
        Rule::GhostFlow => TypeError::GhostFlow(pos),
        Rule::IllTyped => TypeError::IllTyped(pos),
        Rule::Opening => TypeError::Opening(pos),
        Rule::Measure => TypeError::Measure(pos),
    }
}

/// The program as a typed one, or why it isn't one: its first breach, or where it has none that it has no `main`.
#[tactic(auto, using(crate::proofs::Leasts::least_none))]
pub fn type_check(alloc: Global, program: Program) -> Result<Typed, TypeError>
    ensures { MatchResult result (λ t. (t ≡ program) × IsTyped (plain_program t)) (λ e. Refused (plain_program program) e) }
{
    let found = look_program(alloc, &program)?;
    match found.breach {
        Some(breach) => Err(refusal(breach)),
        None => {
            if found.main {
                Ok(Typed::seal(program))
            } else {
                Err(TypeError::NoMain)
            }
        }
    }
}
