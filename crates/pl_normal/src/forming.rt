ghost use Rattle.std.specs.Prelude.{◌≡◌, ◌≤◌, ℤ, List, Ok, [], length, IfOk, IfErr, true, false, Bool};
ghost use Rattle.std.specs.List.{All};
ghost use Rattle.pl_syntax.specs.Tree.{Bin};
ghost use Rattle.pl_syntax.specs.Plain.{plain_expr};
ghost use Rattle.pl_forms.specs.Forms.{IsForm, Answers, limited};
ghost use Rattle.pl_forms.specs.Facts.{IsFact};
ghost use Rattle.pl_forms.specs.Goals.{goal_of, IsGoal, Both, Either};
ghost use Rattle.pl_normal.specs.Scope.{form_of, scope_of};
ghost use Rattle.pl_normal.specs.Normal.{Made, truth_form, or_zero, is_plain, less, at_most, equal, compared, guarded, form_goal, connected, operated, normal, condition, made_of, made_by, Forms, Conditions};
ghost use Rattle.pl_normal.specs.Meaning.{InOrder, FormInOrder, GoalInOrder};
ghost use Rattle.pl_normal.specs.Promises.{KeepsValue, KeepsTruth};

use crate::opaque::{boolean, one_less, opaque_form, product};
use crate::scope::{Atom, Binding, Scope, form_named};
use pl_base::{Items, Memory, Name};
use pl_forms::{Facts, Form, Goal, Shape, TermError};
use pl_syntax::{BinOp, Expr};
use std::alloc::Global;

/// The linear form of an expression. Products, quotients and remainders of what isn't constant, and truth values that aren't
/// plain, are atoms of the scope; what is known of a new boolean is put behind the facts.
pub fn normal(
    alloc: Global,
    e: &Expr,
    scope: &mut Scope,
    facts: &mut Facts,
) -> Result<Form, TermError>
    requires { InOrder (scope_of scope.old).bound (made_by scope.old facts.old) }
    ensures exact { Forms result (made_by scope.new facts.new) (normal (scope_of scope.old).bound (plain_expr e.now) (made_by scope.old facts.old)) }
    ensures names { (scope_of scope.new).bound ≡ (scope_of scope.old).bound }
    ensures order { IfOk result (λ f. FormInOrder (scope_of scope.old).bound (made_by scope.old facts.old) (record { form = f; made = made_by scope.new facts.new })) }
    ensures value { IfOk result (λ f. KeepsValue (scope_of scope.old).bound (plain_expr e.now) (made_by scope.old facts.old) (record { form = f; made = made_by scope.new facts.new })) }
{
    normal_of(alloc, scope.bound.as_slice(), e, &mut scope.atoms, facts)
}

/// The duty that an expression is.
pub fn condition(
    alloc: Global,
    e: &Expr,
    scope: &mut Scope,
    facts: &mut Facts,
) -> Result<Goal, TermError>
    requires { InOrder (scope_of scope.old).bound (made_by scope.old facts.old) }
    ensures exact { Conditions result (made_by scope.new facts.new) (condition (scope_of scope.old).bound (plain_expr e.now) true (made_by scope.old facts.old)) }
    ensures names { (scope_of scope.new).bound ≡ (scope_of scope.old).bound }
    ensures order { IfOk result (λ g. GoalInOrder (scope_of scope.old).bound (made_by scope.old facts.old) (record { goal = goal_of g; made = made_by scope.new facts.new })) }
    ensures truth { IfOk result (λ g. KeepsTruth (scope_of scope.old).bound (plain_expr e.now) true (made_by scope.old facts.old) (record { goal = goal_of g; made = made_by scope.new facts.new })) }
{
    condition_of(
        alloc,
        scope.bound.as_slice(),
        e,
        true,
        &mut scope.atoms,
        facts,
    )
}

#[cycle(forming)]
fn normal_of(
    alloc: Global,
    names: &[Binding],
    e: &Expr,
    atoms: &mut Vec<Atom>,
    facts: &mut Facts,
) -> Result<Form, TermError>
    requires { InOrder names.now (made_of atoms.old.items facts.old.list) }
    ensures exact { Forms result (made_of atoms.new.items facts.new.list) (normal names.now (plain_expr e.now) (made_of atoms.old.items facts.old.list)) }
    ensures order { IfOk result (λ _. InOrder names.now (made_of atoms.new.items facts.new.list)) }
    ensures form { IfOk result (λ f. IsForm f) }
{
    formed(alloc, names, e, atoms, facts)
}

#[cycle(forming)]
fn formed(
    alloc: Global,
    names: &[Binding],
    e: &Expr,
    atoms: &mut Vec<Atom>,
    facts: &mut Facts,
) -> Result<Form, TermError>
    requires { InOrder names.now (made_of atoms.old.items facts.old.list) }
    ensures { Forms result (made_of atoms.new.items facts.new.list) (normal names.now (plain_expr e.now) (made_of atoms.old.items facts.old.list)) }
{
    match e {
        Expr::Int(_, n) => constant(alloc, *n),
        Expr::Truth(_, b) => Ok(truth(alloc, *b)),
        Expr::Null(_) => Ok(Form::of_constant(alloc, 0)),
        Expr::Var(_, x) => Ok(named(alloc, names, x)?),
        Expr::Neg(_, inner) => {
            let form = normal_of(alloc, names, inner, atoms, facts)?;
            Form::scale(alloc, -1, &form)
        }
        Expr::Not(_, inner) => {
            if is_plain(inner) {
                let form = normal_of(alloc, names, inner, atoms, facts)?;
                one_less(alloc, &form)
            } else {
                let negation = condition_of(alloc, names, inner, false, atoms, facts)?;
                boolean(alloc, e, &negation, atoms, facts)
            }
        }
        Expr::Bin(_, op, a, b) => operated(alloc, names, e, *op, a, b, atoms, facts),
    }
}

// An operation as a value: of numbers it has a form of its own, and every other one is a new boolean.
#[cycle(forming)]
fn operated(
    alloc: Global,
    names: &[Binding],
    e: &Expr,
    op: BinOp,
    a: &Expr,
    b: &Expr,
    atoms: &mut Vec<Atom>,
    facts: &mut Facts,
) -> Result<Form, TermError>
    requires { InOrder names.now (made_of atoms.old.items facts.old.list) }
    ensures { Forms result (made_of atoms.new.items facts.new.list) (operated (plain_expr e.now) op (λ n. normal names.now (plain_expr a.now) n) (λ n. normal names.now (plain_expr b.now) n) (λ h n. condition names.now (plain_expr a.now) h n) (λ h n. condition names.now (plain_expr b.now) h n) (made_of atoms.old.items facts.old.list)) }
{
    match op {
        BinOp::Add => {
            let left = normal_of(alloc, names, a, atoms, facts)?;
            let right = normal_of(alloc, names, b, atoms, facts)?;
            Form::add(alloc, &left, &right)
        }
        BinOp::Sub => {
            let left = normal_of(alloc, names, a, atoms, facts)?;
            let right = normal_of(alloc, names, b, atoms, facts)?;
            Form::add_multiple(alloc, &left, -1, &right)
        }
        BinOp::Mul => {
            let left = normal_of(alloc, names, a, atoms, facts)?;
            let right = normal_of(alloc, names, b, atoms, facts)?;
            product(alloc, e, left, right, atoms)
        }
        BinOp::Div | BinOp::Rem => {
            let left = normal_of(alloc, names, a, atoms, facts)?;
            let right = normal_of(alloc, names, b, atoms, facts)?;
            opaque_form(alloc, e, op, left, right, atoms)
        }
        _ => {
            let duty = connected(alloc, names, op, true, a, b, atoms, facts)?;
            boolean(alloc, e, &duty, atoms, facts)
        }
    }
}

// The duty that an expression is, or its negation where it is not to hold.
#[cycle(forming)]
fn condition_of(
    alloc: Global,
    names: &[Binding],
    e: &Expr,
    holds: bool,
    atoms: &mut Vec<Atom>,
    facts: &mut Facts,
) -> Result<Goal, TermError>
    requires { InOrder names.now (made_of atoms.old.items facts.old.list) }
    ensures exact { Conditions result (made_of atoms.new.items facts.new.list) (condition names.now (plain_expr e.now) holds (made_of atoms.old.items facts.old.list)) }
    ensures order { IfOk result (λ _. InOrder names.now (made_of atoms.new.items facts.new.list)) }
    ensures goal { IfOk result (λ g. IsGoal (goal_of g)) }
{
    stated(alloc, names, e, holds, atoms, facts)
}

#[cycle(forming)]
fn stated(
    alloc: Global,
    names: &[Binding],
    e: &Expr,
    holds: bool,
    atoms: &mut Vec<Atom>,
    facts: &mut Facts,
) -> Result<Goal, TermError>
    requires { InOrder names.now (made_of atoms.old.items facts.old.list) }
    ensures { Conditions result (made_of atoms.new.items facts.new.list) (condition names.now (plain_expr e.now) holds (made_of atoms.old.items facts.old.list)) }
{
    match e {
        Expr::Int(_, n) => Ok(Goal::Truth(constant(alloc, *n)?, holds)),
        Expr::Truth(_, b) => Ok(Goal::Truth(truth(alloc, *b), holds)),
        Expr::Null(_) => Ok(Goal::Truth(Form::of_constant(alloc, 0), holds)),
        Expr::Var(_, x) => Ok(Goal::Truth(named(alloc, names, x)?, holds)),
        Expr::Neg(_, inner) => {
            let form = normal_of(alloc, names, inner, atoms, facts)?;
            Ok(Goal::Truth(Form::scale(alloc, -1, &form)?, holds))
        }
        Expr::Not(_, inner) => condition_of(alloc, names, inner, !holds, atoms, facts),
        Expr::Bin(_, op, a, b) => connected(alloc, names, *op, holds, a, b, atoms, facts),
    }
}

// An operation as a condition, or its negation.
#[cycle(forming)]
fn connected(
    alloc: Global,
    names: &[Binding],
    op: BinOp,
    holds: bool,
    a: &Expr,
    b: &Expr,
    atoms: &mut Vec<Atom>,
    facts: &mut Facts,
) -> Result<Goal, TermError>
    requires { InOrder names.now (made_of atoms.old.items facts.old.list) }
    ensures exact { Conditions result (made_of atoms.new.items facts.new.list) (connected op holds (λ n. normal names.now (plain_expr a.now) n) (λ n. normal names.now (plain_expr b.now) n) (λ h n. condition names.now (plain_expr a.now) h n) (λ h n. condition names.now (plain_expr b.now) h n) (made_of atoms.old.items facts.old.list)) }
    ensures order { IfOk result (λ _. InOrder names.now (made_of atoms.new.items facts.new.list)) }
    ensures goal { IfOk result (λ g. IsGoal (goal_of g)) }
{
    linked(alloc, names, op, holds, a, b, atoms, facts)
}

#[cycle(forming)]
fn linked(
    alloc: Global,
    names: &[Binding],
    op: BinOp,
    holds: bool,
    a: &Expr,
    b: &Expr,
    atoms: &mut Vec<Atom>,
    facts: &mut Facts,
) -> Result<Goal, TermError>
    requires { InOrder names.now (made_of atoms.old.items facts.old.list) }
    ensures { Conditions result (made_of atoms.new.items facts.new.list) (connected op holds (λ n. normal names.now (plain_expr a.now) n) (λ n. normal names.now (plain_expr b.now) n) (λ h n. condition names.now (plain_expr a.now) h n) (λ h n. condition names.now (plain_expr b.now) h n) (made_of atoms.old.items facts.old.list)) }
{
    match op {
        BinOp::And => {
            let first = condition_of(alloc, names, a, holds, atoms, facts)?;
            let second = condition_of(alloc, names, b, holds, atoms, facts)?;
            if holds {
                both(alloc, first, second)
            } else {
                either(alloc, first, second)
            }
        }
        BinOp::Or => {
            let first = condition_of(alloc, names, a, holds, atoms, facts)?;
            let second = condition_of(alloc, names, b, holds, atoms, facts)?;
            if holds {
                either(alloc, first, second)
            } else {
                both(alloc, first, second)
            }
        }
        BinOp::Implies => {
            let guard = normal_of(alloc, names, a, atoms, facts)?;
            let duty = condition_of(alloc, names, b, holds, atoms, facts)?;
            Ok(guarded(alloc, holds, guard, duty)?)
        }
        _ => comparison(alloc, names, op, holds, a, b, atoms, facts),
    }
}

// A comparison, or its opposite.
#[cycle(forming)]
fn comparison(
    alloc: Global,
    names: &[Binding],
    op: BinOp,
    holds: bool,
    a: &Expr,
    b: &Expr,
    atoms: &mut Vec<Atom>,
    facts: &mut Facts,
) -> Result<Goal, TermError>
    requires { InOrder names.now (made_of atoms.old.items facts.old.list) }
    ensures { Conditions result (made_of atoms.new.items facts.new.list) (form_goal (normal names.now (plain_expr a.now) (made_of atoms.old.items facts.old.list)) (λ f n. form_goal (normal names.now (plain_expr b.now) n) (λ g k. compared op holds f g k))) }
{
    let left = normal_of(alloc, names, a, atoms, facts)?;
    let right = normal_of(alloc, names, b, atoms, facts)?;
    compared(alloc, op, holds, &left, &right)
}

fn both(alloc: Global, first: Goal, second: Goal) -> Result<Goal, TermError>
    ensures ok { IfOk result (λ g. goal_of g ≡ Both (goal_of first) (goal_of second)) }
    ensures err { IfErr result (λ e. e ≡ TermError.Memory) }
{
    Ok(Goal::Both(Box::new(alloc, first)?, Box::new(alloc, second)?))
}

fn either(alloc: Global, first: Goal, second: Goal) -> Result<Goal, TermError>
    ensures ok { IfOk result (λ g. goal_of g ≡ Either (goal_of first) (goal_of second)) }
    ensures err { IfErr result (λ e. e ≡ TermError.Memory) }
{
    Ok(Goal::Either(Box::new(alloc, first)?, Box::new(alloc, second)?))
}

// A duty under a guard; where it is not to hold, the guard is so and the duty's negation is.
fn guarded(alloc: Global, holds: bool, guard: Form, duty: Goal) -> Result<Goal, Memory>
    ensures { IfOk result (λ g. goal_of g ≡ guarded holds guard (goal_of duty)) }
{
    let duty = Box::new(alloc, duty)?;
    if holds {
        return Ok(Goal::When(guard, duty));
    }
    let never = Goal::Truth(Form::of_constant(alloc, 0), true);
    let is_so = Goal::Truth(guard, true);
    let denied = Goal::Both(Box::new(alloc, is_so)?, duty);
    Ok(Goal::Either(Box::new(alloc, never)?, Box::new(alloc, denied)?))
}

// A comparison of two forms, or its opposite.
fn compared(
    alloc: Global,
    op: BinOp,
    holds: bool,
    left: &Form,
    right: &Form,
) -> Result<Goal, TermError>
    requires left { IsForm left.now }
    requires right { IsForm right.now }
    ensures { (made : Made) → Conditions result made (compared op holds left.now right.now made) }
{
    match op {
        BinOp::Lt => {
            if holds {
                less(alloc, left, right)
            } else {
                at_most(alloc, right, left)
            }
        }
        BinOp::Le => {
            if holds {
                at_most(alloc, left, right)
            } else {
                less(alloc, right, left)
            }
        }
        BinOp::Gt => {
            if holds {
                less(alloc, right, left)
            } else {
                at_most(alloc, left, right)
            }
        }
        BinOp::Ge => {
            if holds {
                at_most(alloc, right, left)
            } else {
                less(alloc, left, right)
            }
        }
        BinOp::Eq => equal(alloc, holds, left, right),
        BinOp::Ne => equal(alloc, !holds, left, right),
        _ => Ok(Goal::Truth(Form::of_constant(alloc, 0), holds)),
    }
}

fn less(alloc: Global, left: &Form, right: &Form) -> Result<Goal, TermError>
    requires left { IsForm left.now }
    requires right { IsForm right.now }
    ensures { (made : Made) → Conditions result made (less left.now right.now made) }
{
    let form = Form::difference(alloc, left, right, 1)?;
    Ok(Goal::Plain(Shape::Below, form))
}

fn at_most(alloc: Global, left: &Form, right: &Form) -> Result<Goal, TermError>
    requires left { IsForm left.now }
    requires right { IsForm right.now }
    ensures { (made : Made) → Conditions result made (at_most left.now right.now made) }
{
    let form = Form::difference(alloc, left, right, 0)?;
    Ok(Goal::Plain(Shape::Below, form))
}

fn equal(alloc: Global, holds: bool, left: &Form, right: &Form) -> Result<Goal, TermError>
    requires left { IsForm left.now }
    requires right { IsForm right.now }
    ensures { (made : Made) → Conditions result made (equal holds left.now right.now made) }
{
    let form = Form::difference(alloc, left, right, 0)?;
    let shape = if holds { Shape::Zero } else { Shape::Differs };
    Ok(Goal::Plain(shape, form))
}

fn constant(alloc: Global, n: i128) -> Result<Form, TermError>
    ensures { Answers result (limited [] n) }
{
    let size = n.unsigned_abs();
    if size > 1 << 80 {
        return Err(TermError::TooLarge(size.min((1 << 127) - 1)));
    }
    Ok(Form {
        parts: Items::of(Vec::new(alloc)),
        constant: n,
    })
}

fn truth(alloc: Global, b: bool) -> Form
    ensures { result ≡ truth_form b }
{
    if b {
        Form::of_constant(alloc, 1)
    } else {
        Form::of_constant(alloc, 0)
    }
}

fn named(alloc: Global, names: &[Binding], name: &Name) -> Result<Form, Memory>
    ensures { IfOk result (λ f. f ≡ or_zero (form_of names.now name.now)) }
{
    match form_named(names, name) {
        Some(form) => form.copy(alloc),
        None => Ok(Form::of_constant(alloc, 0)),
    }
}

// A name, a literal, or a `not` of such: its `not` has a form of its own.
fn is_plain(e: &Expr) -> bool
    ensures { result ≡ is_plain (plain_expr e.now) }
{
    match e {
        Expr::Truth(..) | Expr::Var(..) => true,
        Expr::Not(_, inner) => is_plain(inner),
        _ => false,
    }
}
