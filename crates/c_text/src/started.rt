//! The functions with which threads begin.

ghost use Rattle.std.specs.Prelude.{[], ◌∷◌, IfOk, OnOk, map};
ghost use Rattle.c_syntax.specs.Plain.{plain_fun, plain_stmt, plain_stmts};
ghost use Rattle.c_syntax.specs.Text.{funs_starts, stmt_starts, stmts_starts};
ghost use Rattle.c_text.specs.Names.{AddsNames, HasNames};

use c_syntax::{CFun, CStmt};
use pl_base::{Memory, Name};
use std::alloc::Global;
use std::collections::HashSet;

fn add<'a>(names: &mut HashSet<&'a str>, name: &'a Name) -> Result<(), Memory>
    ensures { OnOk result (AddsNames (λ k. k.now) names.old names.new (name.now ∷ [])) }
{
    names.insert(name.text())?;
    Ok(())
}

#[cycle(started)]
fn add_stmt<'a>(names: &mut HashSet<&'a str>, s: &'a CStmt) -> Result<(), Memory>
    ensures { OnOk result (AddsNames (λ k. k.now) names.old names.new (stmt_starts (plain_stmt s.now))) }
{
    match s {
        CStmt::Par(f, _, _, _) => add(names, f),
        CStmt::If(_, first, second) => {
            add_stmts(names, first.as_slice())?;
            add_stmts(names, second.as_slice())?;
            Ok(())
        }
        CStmt::While(loads, _, body) => {
            add_stmts(names, loads.as_slice())?;
            add_stmts(names, body.as_slice())?;
            Ok(())
        }
        _ => Ok(()),
    }
}

#[cycle(started)]
fn add_stmts<'a>(names: &mut HashSet<&'a str>, list: &'a [CStmt]) -> Result<(), Memory>
    ensures { OnOk result (AddsNames (λ k. k.now) names.old names.new (stmts_starts (plain_stmts list.now))) }
{
    for s in list {
        add_stmt(names, s)?;
    }
    Ok(())
}

/// The names of the functions that are first in a `par`.
pub(crate) fn started<'a>(alloc: Global, funs: &'a [CFun]) -> Result<HashSet<&'a str>, Memory>
    ensures { IfOk result (λ names. HasNames (λ k. k.now) names (funs_starts (map plain_fun funs.now))) }
{
    let mut names = HashSet::new(alloc);
    for f in funs {
        add_stmts(&mut names, f.body.as_slice())?;
    }
    Ok(names)
}
