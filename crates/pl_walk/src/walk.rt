// The walk over a function: each statement takes the first atom that fits it.
ghost use Rattle.std.specs.Prelude.{◌≡◌, ◌<◌, Bool, length, map, slice_get, Some, []};
ghost use Rattle.pl_syntax.specs.Plain.{plain_stmt, plain_expr, plain_cell, plain_fun, plain_program};
ghost use Rattle.pl_syntax.specs.Tree as t;
ghost use Rattle.pl_syntax.specs.Straight.{AreSorted};
ghost use Rattle.pl_walk.specs.Ready.{Ready, IsWhole, IsPointer, IsPointerCell, IsLiteral};
ghost use Rattle.pl_walk.specs.Says.{StatementSays, ListSays, EndSays, FunctionSays};
ghost use Rattle.pl_walk.specs.Shown.{known_of};
ghost use Rattle.pl_terms.specs.Table.{term_of};

use crate::known::Known;
use crate::text::{atoms_text, missing};
use pl_base::{Items, Memory, Name, Pos};
use pl_syntax::{CellExpr, Decl, Expr, FunDecl, Stmt, Straight};
use pl_terms::Term;
use std::alloc::Global;

/// A duty that is left undone, with its text.
#[derive(Debug, Drop)]
pub enum Duty {
    /// No atom fits the one that is needed.
    Missing(Items<u8>),
    /// Atoms are left at the end of a function.
    Leftover(Items<u8>),
}

/// Why a function is refused: its first duty that is left undone, with its place.
#[derive(Debug, Drop)]
pub enum WalkError {
    Undone(Pos, Duty),
    Memory,
}

impl From<Memory> for WalkError {
    ghost use Rattle.std.specs.Prelude.{◌≡◌};
    ghost use Rattle.pl_walk.specs.declared.walk.WalkError.TheVariants.{Memory};

    ghost from_gives = { λ _ e. e ≡ Memory };

    fn from(_: Memory) -> WalkError {
        WalkError::Memory
    }
}

// The number of the variable that a name stands for.
fn pointer(known: &Known, name: &Name) -> u32
    requires { IsPointer ((known_of known.now).names name.now) }
    ensures { (known_of known.now).names name.now ≡ Some (Term.Variable result) }
{
    match known.term(name) {
        Some(Term::Variable(number)) => number,
        Some(Term::Literal(_)) | None => unreachable!(),
    }
}

// The term of an expression.
fn value(known: &Known, e: &Expr) -> Term
    requires { IsLiteral (term_of (known_of known.now).names (plain_expr e.now)) }
    ensures { term_of (known_of known.now).names (plain_expr e.now) ≡ Some result }
{
    match e {
        Expr::Int(_, number) => Term::Literal(*number),
        Expr::Var(_, name) => match known.term(name) {
            Some(term) => term,
            None => unreachable!(),
        },
        _ => unreachable!(),
    }
}

// The name of a cell's base.
fn base_of(cell: &CellExpr) -> &Name
    requires { IsWhole (plain_cell cell.now) }
    ensures { plain_cell cell.now ≡ t.Whole result.now }
{
    match cell {
        CellExpr::Whole(base) => base,
        CellExpr::At(..) | CellExpr::Field(..) => unreachable!(),
    }
}

fn walk_load<'p>(
    alloc: Global,
    pos: Pos,
    known: &mut Known<'p>,
    name: &'p Name,
    cell: &'p CellExpr,
) -> Result<(), WalkError>
    requires { IsPointerCell (known_of known.old).names (plain_cell cell.now) }
    ensures { (is_ghost : Bool) → StatementSays result (t.Load pos name.now (plain_cell cell.now) is_ghost) (known_of known.old) (known_of known.new) }
{
    let base = base_of(cell);
    let variable = pointer(known, base);
    match known.value_at(variable) {
        Some(value) => {
            known.bind(name, value)?;
            Ok(())
        }
        None => {
            let text = missing(alloc, base, b" |->{_} w")?;
            Err(WalkError::Undone(pos, Duty::Missing(text)))
        }
    }
}

fn walk_alloc<'p>(
    pos: Pos,
    known: &mut Known<'p>,
    name: &'p Name,
    e: &'p Expr,
) -> Result<(), WalkError>
    requires { IsLiteral (term_of (known_of known.old).names (plain_expr e.now)) }
    ensures { StatementSays result (t.Alloc pos name.now (plain_expr e.now)) (known_of known.old) (known_of known.new) }
{
    let held = value(known, e);
    known.allocate(name, held)?;
    Ok(())
}

fn walk_free<'p>(
    alloc: Global,
    pos: Pos,
    known: &mut Known<'p>,
    name: &'p Name,
) -> Result<(), WalkError>
    requires { IsPointer ((known_of known.old).names name.now) }
    ensures { StatementSays result (t.Free pos name.now) (known_of known.old) (known_of known.new) }
{
    let variable = pointer(known, name);
    match known.release(variable) {
        Some(_) => Ok(()),
        None => {
            let text = missing(alloc, name, b" |-> _")?;
            Err(WalkError::Undone(pos, Duty::Missing(text)))
        }
    }
}

fn walk_statement<'p>(alloc: Global, stmt: &'p Stmt, known: &mut Known<'p>) -> Result<(), WalkError>
    requires { Ready (known_of known.old).names (plain_stmt stmt.now) }
    ensures { StatementSays result (plain_stmt stmt.now) (known_of known.old) (known_of known.new) }
{
    match stmt {
        Stmt::Load(pos, name, cell, _) => walk_load(alloc, *pos, known, name, cell),
        Stmt::Alloc(pos, name, e) => walk_alloc(*pos, known, name, e),
        Stmt::Free(pos, name) => walk_free(alloc, *pos, known, name),
        Stmt::Print(_, e) => {
            let _printed = value(known, e);
            Ok(())
        }
        _ => unreachable!(),
    }
}

fn walk_list<'p>(alloc: Global, list: &'p [Stmt]) -> Result<Known<'p>, WalkError>
    requires { AreSorted [] (map plain_stmt list.now) }
    ensures { ListSays result (map plain_stmt list.now) }
{
    let mut known = Known::new(alloc);
    for stmt in list {
        walk_statement(alloc, stmt, &mut known)?;
    }
    Ok(known)
}

// Nothing may be left over at the closing brace.
fn walk_end(alloc: Global, close: Pos, known: &Known) -> Result<(), WalkError>
    ensures { EndSays result close (known_of known.now) }
{
    match atoms_text(alloc, known.blocks())? {
        Some(text) => Err(WalkError::Undone(close, Duty::Leftover(text))),
        None => Ok(()),
    }
}

fn walk_body(alloc: Global, fun: &FunDecl) -> Result<(), WalkError>
    requires { AreSorted [] (map plain_stmt fun.now.body.list) }
    ensures { FunctionSays result (plain_fun fun.now) }
{
    let known = walk_list(alloc, fun.body.list.as_slice())?;
    walk_end(alloc, fun.body.close, &known)
}

/// Walks over the function of that number, in the file's order from 0: Ok where no duty is left undone,
/// else the first that is.
pub fn walk_function(alloc: Global, straight: &Straight, k: u32) -> Result<(), WalkError>
    requires { k < length (plain_program straight.now).decls }
    ensures { (f : t.FunDecl) → slice_get (plain_program straight.now).decls k ≡ Some (t.Fun f) → FunctionSays result f }
{
    match &straight.program().decls.as_slice()[k as usize] {
        Decl::Fun(fun) => walk_body(alloc, fun),
        Decl::Struct(_) | Decl::Pred(_) => unreachable!(),
    }
}
