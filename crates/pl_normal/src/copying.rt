ghost use Rattle.std.specs.Prelude.{◌≡◌, IfOk};
ghost use Rattle.pl_syntax.specs.Plain.{plain_expr};

use pl_base::{Memory, Name};
use pl_syntax::{Expr, Sort};
use std::alloc::Global;

pub(crate) fn copy_name(alloc: Global, name: &Name) -> Result<Name, Memory>
    ensures { IfOk result (λ n. n ≡ name.now) }
{
    Name::of(alloc, name.text())
}

pub(crate) fn copy_sort(alloc: Global, sort: &Sort) -> Result<Sort, Memory>
    ensures { IfOk result (λ s. s ≡ sort.now) }
{
    match sort {
        Sort::I64 => Ok(Sort::I64),
        Sort::Bool => Ok(Sort::Bool),
        Sort::RefI64 => Ok(Sort::RefI64),
        Sort::RefBool => Ok(Sort::RefBool),
        Sort::RefStruct(name) => Ok(Sort::RefStruct(copy_name(alloc, name)?)),
        Sort::Atomic => Ok(Sort::Atomic),
        Sort::Lock => Ok(Sort::Lock),
        Sort::Int => Ok(Sort::Int),
        Sort::Perm => Ok(Sort::Perm),
        Sort::Gref => Ok(Sort::Gref),
        Sort::Iname => Ok(Sort::Iname),
    }
}

pub(crate) fn copy_expr(alloc: Global, e: &Expr) -> Result<Expr, Memory>
    ensures { IfOk result (λ copy. plain_expr copy ≡ plain_expr e.now) }
{
    match e {
        Expr::Int(pos, n) => Ok(Expr::Int(*pos, *n)),
        Expr::Truth(pos, b) => Ok(Expr::Truth(*pos, *b)),
        Expr::Null(pos) => Ok(Expr::Null(*pos)),
        Expr::Var(pos, x) => Ok(Expr::Var(*pos, copy_name(alloc, x)?)),
        Expr::Neg(pos, inner) => {
            let copy = copy_expr(alloc, inner)?;
            Ok(Expr::Neg(*pos, Box::new(alloc, copy)?))
        }
        Expr::Not(pos, inner) => {
            let copy = copy_expr(alloc, inner)?;
            Ok(Expr::Not(*pos, Box::new(alloc, copy)?))
        }
        Expr::Bin(pos, op, a, b) => {
            let a = copy_expr(alloc, a)?;
            let b = copy_expr(alloc, b)?;
            Ok(Expr::Bin(*pos, *op, Box::new(alloc, a)?, Box::new(alloc, b)?))
        }
    }
}
