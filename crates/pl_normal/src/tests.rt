ghost use Rattle.std.specs.Prelude.{◌≡◌, [], IfOk};
ghost use Rattle.pl_forms.specs.declared.fact.Facts.{Facts};
ghost use Rattle.pl_normal.specs.Scope.{scope_of};
ghost use Rattle.pl_normal.specs.Normal.{made_by};
ghost use Rattle.pl_normal.specs.Meaning.{InOrder};

use super::*;
use pl_base::{Items, Memory, Name, Pos};
use pl_forms::{Facts, Form, Goal, Shape, TermError};
use pl_syntax::{BinOp, Binder, Class, Expr, Sort};
use std::alloc::Global;
use std::test::*;

const POS: Pos = Pos {
    line: 1,
    col: 1,
    byte: 0,
};

fn variable(alloc: Global, text: &str) -> Result<Expr, Memory> {
    Ok(Expr::Var(POS, Name::of(alloc, text)?))
}

fn both(alloc: Global, op: BinOp, a: Expr, b: Expr) -> Result<Expr, Memory> {
    Ok(Expr::Bin(POS, op, Box::new(alloc, a)?, Box::new(alloc, b)?))
}

fn denied(alloc: Global, e: Expr) -> Result<Expr, Memory> {
    Ok(Expr::Not(POS, Box::new(alloc, e)?))
}

fn binder(alloc: Global, text: &str, sort: Sort) -> Result<Binder, Memory> {
    Ok(Binder {
        pos: POS,
        class: Class::Real,
        name: Name::of(alloc, text)?,
        sort,
    })
}

// `x`, `y` and `b` are the atoms 0, 1 and 2.
fn three_names(alloc: Global) -> Result<Scope, Memory>
    ensures { IfOk result (λ s. (facts : Facts) → facts.list ≡ [] → InOrder (scope_of s).bound (made_by s facts)) }
{
    let mut scope = Scope::new(alloc);
    scope.bind(&binder(alloc, "x", Sort::I64)?)?;
    scope.bind(&binder(alloc, "y", Sort::I64)?)?;
    scope.bind(&binder(alloc, "b", Sort::Bool)?)?;
    Ok(scope)
}

fn no_facts(alloc: Global) -> Facts
    ensures { result.list ≡ [] }
{
    Facts {
        list: Items::of(Vec::new(alloc)),
    }
}

// `5 op x`, or its negation: what is said of which multiple of x and which constant.
fn side(alloc: Global, op: BinOp, holds: bool) -> Result<Option<(Shape, i64, i128)>, TermError> {
    let mut scope = three_names(alloc)?;
    let mut facts = no_facts(alloc);
    let mut e = both(alloc, op, Expr::Int(POS, 5), variable(alloc, "x")?)?;
    if !holds {
        e = denied(alloc, e)?;
    }
    let goal = condition(alloc, &e, &mut scope, &mut facts)?;
    Ok(match goal {
        Goal::Plain(shape, form) => match form.parts.as_slice() {
            [part] => Some((shape, part.coeff, form.constant)),
            _ => None,
        },
        _ => None,
    })
}

#[test]
fn sides_of_comparisons(rt: HostRuntime) -> Result<(), Fail> {
    let rows = [
        (BinOp::Lt, true, Shape::Below, -1, 6),
        (BinOp::Lt, false, Shape::Below, 1, -5),
        (BinOp::Le, true, Shape::Below, -1, 5),
        (BinOp::Le, false, Shape::Below, 1, -4),
        (BinOp::Gt, true, Shape::Below, 1, -4),
        (BinOp::Gt, false, Shape::Below, -1, 5),
        (BinOp::Ge, true, Shape::Below, 1, -5),
        (BinOp::Ge, false, Shape::Below, -1, 6),
        (BinOp::Eq, true, Shape::Zero, -1, 5),
        (BinOp::Eq, false, Shape::Differs, -1, 5),
        (BinOp::Ne, true, Shape::Differs, -1, 5),
        (BinOp::Ne, false, Shape::Zero, -1, 5),
    ];
    for (op, holds, shape, coeff, constant) in rows {
        assert_eq!(rt;
            side(rt.alloc(), op, holds)?,
            Some((shape, coeff, constant))
        );
    }
    Ok(())
}

// The multiple of the only atom of a form, and its number.
fn only_part(form: &Form) -> Option<(i64, u32)> {
    match form.parts.as_slice() {
        [part] => Some((part.coeff, part.atom)),
        _ => None,
    }
}

#[test]
fn products_and_quotients(rt: HostRuntime) -> Result<(), Fail> {
    let alloc = rt.alloc();
    let mut scope = three_names(alloc)?;
    let mut facts = no_facts(alloc);
    let one = both(
        alloc,
        BinOp::Mul,
        variable(alloc, "x")?,
        variable(alloc, "y")?,
    )?;
    let other = both(
        alloc,
        BinOp::Mul,
        variable(alloc, "y")?,
        variable(alloc, "x")?,
    )?;
    let half = both(alloc, BinOp::Div, Expr::Int(POS, 7), Expr::Int(POS, 2))?;
    let first = normal(alloc, &one, &mut scope, &mut facts)?;
    let second = normal(alloc, &other, &mut scope, &mut facts)?;
    let third = normal(alloc, &half, &mut scope, &mut facts)?;
    let again = normal(alloc, &one, &mut scope, &mut facts)?;
    assert_eq!(rt; only_part(&first), Some((1, 3)));
    assert_eq!(rt; only_part(&second), Some((1, 4)));
    assert_eq!(rt; only_part(&third), Some((1, 5)));
    assert_eq!(rt; only_part(&again), Some((1, 3)));
    assert_eq!(rt; facts.list.as_slice().len(), 0);
    Ok(())
}

#[test]
fn a_new_boolean_at_each_use(rt: HostRuntime) -> Result<(), Fail> {
    let alloc = rt.alloc();
    let mut scope = three_names(alloc)?;
    let mut facts = no_facts(alloc);
    let e = both(alloc, BinOp::Lt, variable(alloc, "x")?, Expr::Int(POS, 3))?;
    let first = normal(alloc, &e, &mut scope, &mut facts)?;
    let second = normal(alloc, &e, &mut scope, &mut facts)?;
    let third = normal(alloc, &denied(alloc, e)?, &mut scope, &mut facts)?;
    assert_eq!(rt; only_part(&first), Some((1, 3)));
    assert_eq!(rt; only_part(&second), Some((1, 4)));
    assert_eq!(rt; only_part(&third), Some((1, 5)));
    assert_eq!(rt; facts.list.as_slice().len(), 6);
    Ok(())
}

#[test]
fn the_negation_of_a_name(rt: HostRuntime) -> Result<(), Fail> {
    let alloc = rt.alloc();
    let mut scope = three_names(alloc)?;
    let mut facts = no_facts(alloc);
    let e = denied(alloc, variable(alloc, "b")?)?;
    let form = normal(alloc, &e, &mut scope, &mut facts)?;
    assert_eq!(rt; only_part(&form), Some((-1, 2)));
    assert_eq!(rt; form.constant, 1);
    let guarded = both(
        alloc,
        BinOp::Implies,
        variable(alloc, "b")?,
        variable(alloc, "b")?,
    )?;
    let goal = condition(alloc, &denied(alloc, guarded)?, &mut scope, &mut facts)?;
    assert!(rt; matches!(goal, Goal::Either(..)));
    Ok(())
}

#[test]
fn a_multiple_passes_its_limit(rt: HostRuntime) -> Result<(), Fail> {
    let alloc = rt.alloc();
    let mut scope = three_names(alloc)?;
    let mut facts = no_facts(alloc);
    let large = Expr::Int(POS, 2_199_023_255_552);
    let e = both(alloc, BinOp::Mul, large, variable(alloc, "x")?)?;
    let form = normal(alloc, &e, &mut scope, &mut facts);
    assert!(rt; matches!(form, Err(TermError::TooLarge(2_199_023_255_552))));
    Ok(())
}

#[test]
fn the_newest_binder_counts(rt: HostRuntime) -> Result<(), Fail> {
    let alloc = rt.alloc();
    let mut scope = three_names(alloc)?;
    let x = binder(alloc, "x", Sort::I64)?;
    let mark = scope.mark();
    scope.set(&x, Form::of_constant(alloc, 4))?;
    let inner = scope.lookup(&x.name).map(|form| form.constant);
    scope.leave(mark);
    let outer = scope.lookup(&x.name).map(|form| form.constant);
    assert_eq!(rt; inner, Some(4));
    assert_eq!(rt; outer, Some(0));
    Ok(())
}

#[test]
fn forms_are_put_in(rt: HostRuntime) -> Result<(), Fail> {
    let alloc = rt.alloc();
    let mut scope = three_names(alloc)?;
    let mut facts = no_facts(alloc);
    let e = both(
        alloc,
        BinOp::Mul,
        variable(alloc, "x")?,
        variable(alloc, "y")?,
    )?;
    let form = normal(alloc, &e, &mut scope, &mut facts)?;
    let four = [Form::of_constant(alloc, 4)];
    let multiple = put_in(&form, &[0], &four, &mut scope)?;
    assert_eq!(rt; only_part(&multiple), Some((4, 1)));
    Ok(())
}

#[test]
fn a_product_is_made_again(rt: HostRuntime) -> Result<(), Fail> {
    let alloc = rt.alloc();
    let mut scope = three_names(alloc)?;
    let mut facts = no_facts(alloc);
    let e = both(
        alloc,
        BinOp::Mul,
        variable(alloc, "x")?,
        variable(alloc, "y")?,
    )?;
    let form = normal(alloc, &e, &mut scope, &mut facts)?;
    let y = [Form::of_atom(alloc, 1)?];
    let square = put_in(&form, &[0], &y, &mut scope)?;
    assert_eq!(rt; only_part(&square), Some((1, 4)));
    Ok(())
}
