//! The first form of a program that the checker doesn't handle yet.

ghost use Rattle.std.specs.Prelude.{◌≡◌, map};
ghost use Rattle.pl_syntax.specs.Plain.{plain_expr, plain_prop, plain_stmt, plain_fun, plain_decl, plain_program};
ghost use Rattle.pl_syntax.specs.DeclRules as rules;
ghost use Rattle.pl_syntax.specs.Unbuilt as spec;

use crate::expr::{CellExpr, Expr};
use crate::program::{Decl, FunDecl, Program};
use crate::prop::Prop;
use crate::stmt::Stmt;
use pl_base::Pos;

/// The place of a statement.
fn place_of(stmt: &Stmt) -> Pos
    ensures { result ≡ spec.place_of (plain_stmt stmt.now) }
{
    match stmt {
        Stmt::Let(place, ..)
        | Stmt::Load(place, ..)
        | Stmt::Store(place, ..)
        | Stmt::Alloc(place, ..)
        | Stmt::AllocArray(place, ..)
        | Stmt::AllocAtomic(place, ..)
        | Stmt::New(place, ..)
        | Stmt::Free(place, ..)
        | Stmt::FreeArray(place, ..)
        | Stmt::AtomicRead(place, ..)
        | Stmt::AtomicWrite(place, ..)
        | Stmt::Cas(place, ..)
        | Stmt::NewLock(place, ..)
        | Stmt::Acquire(place, ..)
        | Stmt::Release(place, ..)
        | Stmt::FreeLock(place, ..)
        | Stmt::Read(place, ..)
        | Stmt::Print(place, ..)
        | Stmt::Call(place, ..)
        | Stmt::Par(place, ..)
        | Stmt::If(place, ..)
        | Stmt::While(place, ..)
        | Stmt::LetMut(place, ..)
        | Stmt::Return(place, ..)
        | Stmt::With(place, ..)
        | Stmt::GLet(place, ..)
        | Stmt::GAlloc(place, ..)
        | Stmt::NewInv(place, ..)
        | Stmt::Fold(place, ..)
        | Stmt::Unfold(place, ..)
        | Stmt::Rewrite(place, ..)
        | Stmt::Share(place, ..)
        | Stmt::Gather(place, ..)
        | Stmt::Split(place, ..)
        | Stmt::Join(place, ..)
        | Stmt::Focus(place, ..)
        | Stmt::Unfocus(place, ..)
        | Stmt::Assert(place, ..)
        | Stmt::WithAssert(place, ..)
        | Stmt::Drop(place, ..) => *place,
    }
}

/// Whether an expression is a literal or a name.
fn is_value(e: &Expr) -> bool
    ensures { result ≡ spec.is_value (plain_expr e.now) }
{
    matches!(e, Expr::Int(..) | Expr::Var(..))
}

/// Whether the checker handles a statement.
fn is_handled(stmt: &Stmt) -> bool
    ensures { result ≡ spec.is_handled (plain_stmt stmt.now) }
{
    match stmt {
        Stmt::Load(_, _, CellExpr::Whole(_), is_ghost) => !*is_ghost,
        Stmt::Alloc(_, _, e) => is_value(e),
        Stmt::Free(..) => true,
        Stmt::Print(_, e) => is_value(e),
        _ => false,
    }
}

/// The place of the first statement that isn't handled.
fn first_other(list: &[Stmt]) -> Option<Pos>
    ensures { result ≡ spec.first_other (map plain_stmt list.now) }
{
    for stmt in list {
        if !is_handled(stmt) {
            return Some(place_of(stmt));
        }
    }
    None
}

fn is_emp(prop: &Prop) -> bool
    ensures { result ≡ rules.is_emp (plain_prop prop.now) }
{
    matches!(prop, Prop::Emp(_))
}

/// Whether a function is real and has no parameters, clauses and result.
fn is_bare(fun: &FunDecl) -> bool
    ensures { result ≡ spec.is_bare (plain_fun fun.now) }
{
    !fun.is_ghost
        && fun.params.as_slice().is_empty()
        && !fun.opens
        && is_emp(&fun.before)
        && !fun.result.is_some()
        && is_emp(&fun.after)
        && !fun.measure.is_some()
}

/// The place of a function's first form that isn't handled.
fn unbuilt_in_fun(fun: &FunDecl) -> Option<Pos>
    ensures { result ≡ spec.unbuilt_in_fun (plain_fun fun.now) }
{
    if fun.name.text() == "main" && is_bare(fun) {
        first_other(fun.body.list.as_slice())
    } else {
        Some(fun.pos)
    }
}

/// The place of a declaration's first form that isn't handled.
fn unbuilt_in(decl: &Decl) -> Option<Pos>
    ensures { result ≡ spec.unbuilt_in (plain_decl decl.now) }
{
    match decl {
        Decl::Struct(s) => Some(s.pos),
        Decl::Pred(p) => Some(p.pos),
        Decl::Fun(f) => unbuilt_in_fun(f),
    }
}

/// The place of a declaration.
fn place_of_decl(decl: &Decl) -> Pos
    ensures { result ≡ rules.place_of (plain_decl decl.now) }
{
    match decl {
        Decl::Struct(s) => s.pos,
        Decl::Pred(p) => p.pos,
        Decl::Fun(f) => f.pos,
    }
}

/// The place of the first form that isn't handled, where it isn't in the first declaration.
fn first_decl(list: &[Decl]) -> Option<Pos>
    ensures { result ≡ spec.first_decl (map plain_decl list.now) }
{
    match list {
        [] => None,
        [first, ..] => Some(place_of_decl(first)),
    }
}

/// The place of the first form that the checker doesn't handle yet.
pub fn first_unbuilt(program: &Program) -> Option<Pos>
    ensures { result ≡ spec.first_unbuilt (plain_program program.now) }
{
    match program.decls.as_slice() {
        [] => None,
        [first, rest @ ..] => match unbuilt_in(first) {
            Some(place) => Some(place),
            None => first_decl(rest),
        },
    }
}
