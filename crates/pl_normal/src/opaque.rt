ghost use Rattle.std.specs.Prelude.{◌≡◌, ◌≤◌, ◌++◌, ◌∷◌, [], List, Ok, None, length, map, IfOk};
ghost use Rattle.std.specs.List.{All};
ghost use Rattle.pl_syntax.specs.Plain.{plain_expr};
ghost use Rattle.pl_forms.specs.declared.fact.Fact.{Fact};
ghost use Rattle.pl_forms.specs.Forms.{IsForm, Answers};
ghost use Rattle.pl_forms.specs.Facts.{IsFact};
ghost use Rattle.pl_forms.specs.Goals.{goal_of, IsGoal};
ghost use Rattle.pl_forms.specs.Assuming.{one_less};
ghost use Rattle.pl_normal.specs.Scope.{plain_atom, Opaque};
ghost use Rattle.pl_normal.specs.Normal.{same_parts, same_form, same_op, same_operands, find, opaque, product, boolean, made_of, Forms};
ghost use Rattle.pl_normal.specs.Putting.{AreForms, AllForms};

use crate::copying::copy_expr;
use crate::scope::{Atom, Operands, Origin, next_number};
use pl_base::Memory;
use pl_forms::{Facts, Form, Goal, Part, TermError, assume_under};
use pl_syntax::{BinOp, Expr};
use std::alloc::Global;

fn same_parts(one: &[Part], other: &[Part]) -> bool
    ensures { result ≡ same_parts one.now other.now }
{
    if one.len() != other.len() {
        return false;
    }
    for i in 0..one.len() {
        if one[i].coeff != other[i].coeff || one[i].atom != other[i].atom {
            return false;
        }
    }
    true
}

pub(crate) fn same_form(one: &Form, other: &Form) -> bool
    ensures { result ≡ same_form one.now other.now }
{
    one.constant == other.constant && same_parts(one.parts.as_slice(), other.parts.as_slice())
}

// Whether both are products, both quotients, or both remainders.
fn same_op(one: BinOp, other: BinOp) -> bool
    ensures { result ≡ same_op one other }
{
    match one {
        BinOp::Mul => matches!(other, BinOp::Mul),
        BinOp::Div => matches!(other, BinOp::Div),
        BinOp::Rem => matches!(other, BinOp::Rem),
        _ => false,
    }
}

fn same_operands(op: BinOp, left: &Form, right: &Form, operands: &Option<Operands>) -> bool
    ensures { result ≡ same_operands op left.now right.now operands.now }
{
    match operands {
        None => false,
        Some(o) => { same_op(op, o.op) && same_form(left, &o.left) && same_form(right, &o.right) }
    }
}

// The number of the first atom with these operands.
fn find(op: BinOp, left: &Form, right: &Form, atoms: &[Atom]) -> Option<usize>
    ensures { result ≡ find op left.now right.now 0 (map plain_atom atoms.now) }
{
    for i in 0..atoms.len() {
        if same_operands(op, left, right, &atoms[i].operands) {
            return Some(i);
        }
    }
    None
}

/// The form of an operation on two forms, whose atom is numbered when it first appears.
pub(crate) fn opaque_form(
    alloc: Global,
    e: &Expr,
    op: BinOp,
    left: Form,
    right: Form,
    atoms: &mut Vec<Atom>,
) -> Result<Form, TermError>
    ensures exact { (facts : List Fact) → Forms result (made_of atoms.new.items facts) (Ok (opaque (plain_expr e.now) op left right (made_of atoms.old.items facts))) }
    ensures form { IfOk result (λ f. IsForm f) }
    ensures operands { IfOk result (λ _. IsForm left → IsForm right → AllForms atoms.old.items → AllForms atoms.new.items) }
{
    match find(op, &left, &right, atoms.as_slice()) {
        Some(k) => Ok(Form::of_atom(alloc, number_of(k)?)?),
        None => {
            let operands = Operands { op, left, right };
            let number = push_atom(alloc, e, Some(operands), atoms)?;
            Ok(Form::of_atom(alloc, number)?)
        }
    }
}

fn number_of(k: usize) -> Result<u32, Memory>
    ensures { IfOk result (λ n. n ≡ k) }
{
    match u32::try_from(k) {
        Ok(n) => Ok(n),
        Err(_) => Err(Memory),
    }
}

// The number of a new atom, which is printed as the expression.
fn push_atom(
    alloc: Global,
    e: &Expr,
    operands: Option<Operands>,
    atoms: &mut Vec<Atom>,
) -> Result<u32, Memory>
    ensures number { IfOk result (λ n. n ≡ length atoms.old.items) }
    ensures atoms { IfOk result (λ n. map plain_atom atoms.new.items ≡ map plain_atom atoms.old.items ++ record { origin = Opaque (plain_expr e.now); operands = operands } ∷ []) }
    ensures operands { IfOk result (λ _. AreForms operands → AllForms atoms.old.items → AllForms atoms.new.items) }
{
    let number = next_number(atoms.as_slice())?;
    let origin = Origin::Opaque(copy_expr(alloc, e)?);
    atoms.push(Atom { origin, operands })?;
    Ok(number)
}

/// A product, which is opaque unless one of its factors is a constant.
pub(crate) fn product(
    alloc: Global,
    e: &Expr,
    left: Form,
    right: Form,
    atoms: &mut Vec<Atom>,
) -> Result<Form, TermError>
    requires left { IsForm left }
    requires right { IsForm right }
    ensures exact { (facts : List Fact) → Forms result (made_of atoms.new.items facts) (product (plain_expr e.now) left right (made_of atoms.old.items facts)) }
    ensures form { IfOk result (λ f. IsForm f) }
    ensures operands { IfOk result (λ _. IsForm left → IsForm right → AllForms atoms.old.items → AllForms atoms.new.items) }
{
    if left.parts.as_slice().is_empty() {
        Form::scale(alloc, left.constant, &right)
    } else if right.parts.as_slice().is_empty() {
        Form::scale(alloc, right.constant, &left)
    } else {
        opaque_form(alloc, e, BinOp::Mul, left, right, atoms)
    }
}

pub(crate) fn one_less(alloc: Global, form: &Form) -> Result<Form, TermError>
    requires { IsForm form.now }
    ensures exact { Answers result (one_less form.now) }
    ensures form { IfOk result (λ f. IsForm f) }
{
    let one = Form::of_constant(alloc, 1);
    Form::add_multiple(alloc, &one, -1, form)
}

/// The form of a new boolean: where it is 1 the condition is so, and where 1 less it is 1 the negation is.
pub(crate) fn boolean(
    alloc: Global,
    e: &Expr,
    condition: &Goal,
    atoms: &mut Vec<Atom>,
    facts: &mut Facts,
) -> Result<Form, TermError>
    requires condition { IsGoal (goal_of condition.now) }
    requires facts { All IsFact facts.old.list }
    requires few { length facts.old.list ≤ 1024 }
    ensures { Forms result (made_of atoms.new.items facts.new.list) (boolean (plain_expr e.now) (Ok (record { goal = goal_of condition.now; made = made_of atoms.old.items facts.old.list }))) }
{
    let number = push_atom(alloc, e, None, atoms)?;
    let form = Form::of_atom(alloc, number)?;
    let other = one_less(alloc, &form)?;
    assume_under(alloc, &form, condition, true, facts)?;
    assume_under(alloc, &other, condition, false, facts)?;
    Ok(form)
}
