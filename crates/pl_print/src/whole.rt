//! Whole texts.

ghost use Rattle.std.specs.Prelude.{◌≡◌, IfOk, flat_map, map};
ghost use Rattle.pl_syntax.specs.Plain.{plain_decl, plain_expr, plain_program, plain_prop};
ghost use Rattle.pl_print.specs.Adds.{Adds};
ghost use Rattle.pl_print.specs.ExprText.{value_text};
ghost use Rattle.pl_print.specs.PropText.{whole_prop_text};
ghost use Rattle.pl_print.specs.ProgramText.{decl_text, program_text};

use crate::decls::put_decl;
use crate::exprs::put_value;
use crate::props::put_whole_prop;
use pl_base::Memory;
use pl_syntax::{Decl, Expr, Program, Prop};
use std::alloc::Global;

fn put_decls(out: &mut Vec<u8>, decls: &[Decl]) -> Result<(), Memory>
    ensures { Adds result out.old out.new (flat_map decl_text (map plain_decl decls.now)) }
{
    for decl in decls {
        put_decl(out, decl)?;
    }
    Ok(())
}

/// The one text of a program.
#[tactic(auto, unfolding(crate::specs::ProgramText::program_text))]
pub fn print(alloc: Global, program: &Program) -> Result<Vec<u8>, Memory>
    ensures { IfOk result (λ text. text.items ≡ program_text (plain_program program.now)) }
{
    let mut out = Vec::new(alloc);
    put_decls(&mut out, program.decls.as_slice())?;
    Ok(out)
}

/// The one text of a proposition that stands alone.
pub fn print_prop(alloc: Global, prop: &Prop) -> Result<Vec<u8>, Memory>
    ensures { IfOk result (λ text. text.items ≡ whole_prop_text (plain_prop prop.now)) }
{
    let mut out = Vec::new(alloc);
    put_whole_prop(&mut out, prop)?;
    Ok(out)
}

/// The one text of an expression that stands alone.
pub fn print_expr(alloc: Global, expr: &Expr) -> Result<Vec<u8>, Memory>
    ensures { IfOk result (λ text. text.items ≡ value_text (plain_expr expr.now)) }
{
    let mut out = Vec::new(alloc);
    put_value(&mut out, expr)?;
    Ok(out)
}
