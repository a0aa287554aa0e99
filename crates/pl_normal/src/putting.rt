ghost use Rattle.std.specs.Prelude.{◌≡◌, ◌≢◌, ◌≤◌, ◌^◌, ◌&&◌, pos, unsigned_abs, Some, None, [], map, length, slice_get, IfOk, IfSome, IfNone};
ghost use Rattle.std.specs.List.{All};
ghost use Rattle.std.specs.Option.{option_map};
ghost use Rattle.pl_syntax.specs.Plain.{plain_expr};
ghost use Rattle.pl_forms.specs.Forms.{IsForm, Answers};
ghost use Rattle.pl_forms.specs.Steps.{plus};
ghost use Rattle.pl_normal.specs.Scope.{scope_of, plain_origin, plain_atom};
ghost use Rattle.pl_normal.specs.Normal.{same_form, made_of, Forms};
ghost use Rattle.pl_normal.specs.Meaning.{EachOlder};
ghost use Rattle.pl_normal.specs.Promises.{KeepsOrder};
ghost use Rattle.pl_normal.specs.Putting.{solved_for, is_older, put_form, again, changed, shown_as, shown_atom, put_inside, put_newer, put_atom, put_in, plain_shown, AreForms, AllForms, AreShown};

use crate::copying::copy_expr;
use crate::opaque::{opaque_form, product, same_form};
use crate::scope::{Atom, Operands, Origin, Scope};
use pl_base::Memory;
use pl_forms::{Form, Part, TermError};
use pl_syntax::{BinOp, Expr};
use std::alloc::Global;

/// Puts solved forms in the places of fresh variables, inside products, quotients and remainders too.
///
/// An atom of which an operand changes is made again, and is printed as before; a new boolean stays as it is.
pub fn put_in(
    form: &Form,
    fresh: &[u32],
    solved: &[Form],
    scope: &mut Scope,
) -> Result<Form, TermError>
    requires form { IsForm form.now }
    requires solved { All IsForm solved.now }
    requires each { length solved.now ≡ length fresh.now }
    requires operands { EachOlder 0 (scope_of scope.old).atoms }
    ensures exact { Forms result (made_of scope.new.atoms.items []) (put_in fresh.now solved.now form.now (made_of scope.old.atoms.items [])) }
    ensures names { (scope_of scope.new).bound ≡ (scope_of scope.old).bound }
    ensures form { IfOk result (λ f. IsForm f) }
    ensures order { IfOk result (λ f. KeepsOrder solved.now form.now scope.old f scope.new) }
{
    let depth = scope.atoms.len();
    put_form(scope.alloc, form, fresh, solved, depth, &mut scope.atoms)
}

// A product, a quotient or a remainder, as it is printed.
#[derive(Debug, Drop)]
pub(crate) struct Shown {
    e: Expr,
    operands: Operands,
}

#[cycle(putting)]
fn put_form(
    alloc: Global,
    form: &Form,
    fresh: &[u32],
    solved: &[Form],
    depth: usize,
    atoms: &mut Vec<Atom>,
) -> Result<Form, TermError>
    requires form { IsForm form.now }
    requires solved { All IsForm solved.now }
    requires each { length solved.now ≡ length fresh.now }
    requires operands { AllForms atoms.old.items }
    ensures exact { Forms result (made_of atoms.new.items []) (put_form (λ a k. put_atom fresh.now solved.now depth a k) form.now (made_of atoms.old.items [])) }
    ensures form { IfOk result (λ f. IsForm f) }
    ensures operands { IfOk result (λ _. AllForms atoms.new.items) }
{
    let mut sum = Form::of_constant(alloc, form.constant);
    let parts = form.parts.as_slice();
    for i in 0..parts.len() {
        let part = parts[i];
        let other = put_atom(alloc, part.atom, fresh, solved, depth, atoms)?;
        sum = add_part(alloc, &sum, part, &other)?;
    }
    Ok(sum)
}

#[cycle(putting)]
fn put_atom(
    alloc: Global,
    atom: u32,
    fresh: &[u32],
    solved: &[Form],
    depth: usize,
    atoms: &mut Vec<Atom>,
) -> Result<Form, TermError>
    requires solved { All IsForm solved.now }
    requires each { length solved.now ≡ length fresh.now }
    requires operands { AllForms atoms.old.items }
    ensures exact { Forms result (made_of atoms.new.items []) (put_atom fresh.now solved.now depth atom (made_of atoms.old.items [])) }
    ensures form { IfOk result (λ f. IsForm f) }
    ensures operands { IfOk result (λ _. AllForms atoms.new.items) }
{
    if depth == 0 {
        return Ok(Form::of_atom(alloc, atom)?);
    }
    put_newer(alloc, atom, fresh, solved, depth - 1, atoms)
}

#[cycle(putting)]
fn put_newer(
    alloc: Global,
    atom: u32,
    fresh: &[u32],
    solved: &[Form],
    depth: usize,
    atoms: &mut Vec<Atom>,
) -> Result<Form, TermError>
    requires solved { All IsForm solved.now }
    requires each { length solved.now ≡ length fresh.now }
    requires operands { AllForms atoms.old.items }
    ensures exact { Forms result (made_of atoms.new.items []) (put_newer (λ b k. put_atom fresh.now solved.now depth b k) fresh.now solved.now atom (made_of atoms.old.items [])) }
    ensures form { IfOk result (λ f. IsForm f) }
    ensures operands { IfOk result (λ _. AllForms atoms.new.items) }
{
    if is_older(fresh, atom) {
        return Ok(Form::of_atom(alloc, atom)?);
    }
    match solved_for(fresh, solved, atom) {
        Some(form) => Ok(form.copy(alloc)?),
        None => put_inside(alloc, atom, fresh, solved, depth, atoms),
    }
}

#[cycle(putting)]
fn put_inside(
    alloc: Global,
    atom: u32,
    fresh: &[u32],
    solved: &[Form],
    depth: usize,
    atoms: &mut Vec<Atom>,
) -> Result<Form, TermError>
    requires solved { All IsForm solved.now }
    requires each { length solved.now ≡ length fresh.now }
    requires operands { AllForms atoms.old.items }
    ensures exact { Forms result (made_of atoms.new.items []) (put_inside (λ b k. put_atom fresh.now solved.now depth b k) (shown_atom (slice_get (map plain_atom atoms.old.items) atom)) atom (made_of atoms.old.items [])) }
    ensures form { IfOk result (λ f. IsForm f) }
    ensures operands { IfOk result (λ _. AllForms atoms.new.items) }
{
    match shown_at(alloc, atom, atoms.as_slice())? {
        None => Ok(Form::of_atom(alloc, atom)?),
        Some(shown) => {
            let left = put_form(alloc, &shown.operands.left, fresh, solved, depth, atoms)?;
            let right = put_form(alloc, &shown.operands.right, fresh, solved, depth, atoms)?;
            changed(alloc, atom, &shown, left, right, atoms)
        }
    }
}

// An atom with these operands, made again where one of them is another.
fn changed(
    alloc: Global,
    atom: u32,
    shown: &Shown,
    left: Form,
    right: Form,
    atoms: &mut Vec<Atom>,
) -> Result<Form, TermError>
    requires left { IsForm left }
    requires right { IsForm right }
    requires operands { AllForms atoms.old.items }
    ensures exact { Forms result (made_of atoms.new.items []) (changed (same_form left shown.now.operands.left && same_form right shown.now.operands.right) (plain_expr shown.now.e) shown.now.operands.op left right atom (made_of atoms.old.items [])) }
    ensures form { IfOk result (λ f. IsForm f) }
    ensures operands { IfOk result (λ _. AllForms atoms.new.items) }
{
    let was = &shown.operands;
    if same_form(&left, &was.left) && same_form(&right, &was.right) {
        return Ok(Form::of_atom(alloc, atom)?);
    }
    again(alloc, &shown.e, was.op, left, right, atoms)
}

fn again(
    alloc: Global,
    e: &Expr,
    op: BinOp,
    left: Form,
    right: Form,
    atoms: &mut Vec<Atom>,
) -> Result<Form, TermError>
    requires left { IsForm left }
    requires right { IsForm right }
    requires operands { AllForms atoms.old.items }
    ensures exact { Forms result (made_of atoms.new.items []) (again (plain_expr e.now) op left right (made_of atoms.old.items [])) }
    ensures form { IfOk result (λ f. IsForm f) }
    ensures operands { IfOk result (λ _. AllForms atoms.new.items) }
{
    match op {
        BinOp::Mul => product(alloc, e, left, right, atoms),
        _ => opaque_form(alloc, e, op, left, right, atoms),
    }
}

// The sum of a form and a multiple of another.
fn add_part(alloc: Global, sum: &Form, part: Part, other: &Form) -> Result<Form, TermError>
    requires sum { IsForm sum.now }
    requires other { IsForm other.now }
    requires some { part.coeff ≢ pos 0 }
    requires size { unsigned_abs part.coeff ≤ 2 ^ 40 }
    ensures exact { Answers result (plus sum.now part.coeff other.now) }
    ensures form { IfOk result (λ f. IsForm f) }
{
    Form::add_multiple(alloc, sum, i128::from(part.coeff), other)
}

fn is_older(fresh: &[u32], atom: u32) -> bool
    ensures { result ≡ is_older fresh.now atom }
{
    for i in 0..fresh.len() {
        if fresh[i] <= atom {
            return false;
        }
    }
    true
}

fn solved_for<'a>(fresh: &[u32], solved: &'a [Form], atom: u32) -> Option<&'a Form>
    requires { length solved.now ≡ length fresh.now }
    ensures some { IfSome result (λ f. solved_for fresh.now solved.now atom ≡ Some f.now) }
    ensures none { IfNone result (solved_for fresh.now solved.now atom ≡ None) }
    ensures form { IfSome result (λ f. All IsForm solved.now → IsForm f.now) }
{
    for i in 0..fresh.len() {
        if fresh[i] == atom {
            return Some(&solved[i]);
        }
    }
    None
}

fn shown_at(alloc: Global, atom: u32, atoms: &[Atom]) -> Result<Option<Shown>, Memory>
    requires { AllForms atoms.now }
    ensures is { IfOk result (λ s. option_map plain_shown s ≡ shown_atom (slice_get (map plain_atom atoms.now) atom)) }
    ensures forms { IfOk result (λ s. AreShown s) }
{
    match atoms.get(atom as usize) {
        None => Ok(None),
        Some(a) => copy_shown(alloc, &a.origin, &a.operands),
    }
}

fn copy_shown(
    alloc: Global,
    origin: &Origin,
    operands: &Option<Operands>,
) -> Result<Option<Shown>, Memory>
    requires { AreForms operands.now }
    ensures is { IfOk result (λ s. option_map plain_shown s ≡ shown_as (plain_origin origin.now) operands.now) }
    ensures forms { IfOk result (λ s. AreShown s) }
{
    match origin {
        Origin::Var(..) | Origin::Part(..) => Ok(None),
        Origin::Opaque(e) => match operands {
            None => Ok(None),
            Some(o) => Ok(Some(Shown {
                e: copy_expr(alloc, e)?,
                operands: Operands {
                    op: o.op,
                    left: o.left.copy(alloc)?,
                    right: o.right.copy(alloc)?,
                },
            })),
        },
    }
}
