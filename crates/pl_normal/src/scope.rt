//! What names stand for, and the atoms by their numbers.

ghost use Rattle.std.specs.Prelude.{◌≡◌, ◌<◌, ◌+◌, Some, None, [], length, IfOk, OnOk, IfSome, IfNone};
ghost use Rattle.pl_forms.specs.Forms.{IsForm, atom_form};
ghost use Rattle.pl_forms.specs.Places.{Within};
ghost use Rattle.pl_forms.specs.declared.fact.Facts.{Facts};
ghost use Rattle.pl_normal.specs.Scope.{scope_of, plain_origin, origin_at, form_of, no_names, with_name, with_variable, cut};
ghost use Rattle.pl_normal.specs.Normal.{made_by};
ghost use Rattle.pl_normal.specs.Meaning.{InOrder};

use crate::bindings::Bindings;
use crate::copying::{copy_name, copy_sort};
use pl_base::{Memory, Name, Perm};
use pl_forms::Form;
use pl_syntax::{BinOp, Binder, Expr, Sort};
use std::alloc::Global;

/// Where an atom comes from.
#[derive(Debug, Drop)]
pub enum Origin {
    /// A variable.
    Var(Name, Sort),
    /// A product, a quotient, a remainder or a new boolean, as it is printed.
    Opaque(Expr),
    /// A part of a permission, times the atom of that number where there is one.
    Part(Perm, Option<u32>),
}

/// The operands of a product, a quotient or a remainder.
#[derive(Debug, Drop)]
pub struct Operands {
    pub op: BinOp,
    pub left: Form,
    pub right: Form,
}

/// An atom of linear forms.
#[derive(Debug, Drop)]
pub struct Atom {
    pub origin: Origin,
    pub operands: Option<Operands>,
}

/// A name, and the form for which it stands.
#[derive(Debug, Drop)]
pub struct Binding {
    pub name: Name,
    pub form: Form,
}

/// The atoms by their numbers, and the names with their forms, the oldest first.
#[derive(Drop)]
pub struct Scope {
    pub(crate) alloc: Global,
    pub(crate) atoms: Vec<Atom>,
    pub(crate) bound: Bindings,
}

impl Scope {
    pub fn new(alloc: Global) -> Scope
        ensures scope { scope_of result ≡ no_names }
        ensures order { (facts : Facts) → facts.list ≡ [] → InOrder (scope_of result).bound (made_by result facts) }
    {
        Scope {
            alloc,
            atoms: Vec::new(alloc),
            bound: Bindings::none(alloc),
        }
    }

    /// The number of a new variable, for which its name stands.
    pub fn bind(&mut self, binder: &Binder) -> Result<u32, Memory>
        ensures number { IfOk result (λ k. k ≡ length (scope_of self.old).atoms) }
        ensures scope { IfOk result (λ k. scope_of self.new ≡ with_variable (scope_of self.old) binder.now.name binder.now.sort (record { name = binder.now.name; form = atom_form k })) }
        ensures order { IfOk result (λ k. (facts : Facts) → InOrder (scope_of self.old).bound (made_by self.old facts) → InOrder (scope_of self.new).bound (made_by self.new facts)) }
    {
        let number = next_number(self.atoms.as_slice())?;
        let variable = copy_name(self.alloc, &binder.name)?;
        let origin = Origin::Var(variable, copy_sort(self.alloc, &binder.sort)?);
        let name = copy_name(self.alloc, &binder.name)?;
        let form = Form::of_atom(self.alloc, number)?;
        self.atoms.push(Atom {
            origin,
            operands: None,
        })?;
        self.bound.push(Binding { name, form })?;
        Ok(number)
    }

    /// From here on a name stands for a form.
    pub fn set(&mut self, binder: &Binder, form: Form) -> Result<(), Memory>
        ensures scope { OnOk result (scope_of self.new ≡ with_name (scope_of self.old) (record { name = binder.now.name; form = form })) }
        ensures order { OnOk result ((facts : Facts) → IsForm form → Within (length (scope_of self.old).atoms + 1) form → InOrder (scope_of self.old).bound (made_by self.old facts) → InOrder (scope_of self.new).bound (made_by self.new facts)) }
    {
        let name = copy_name(self.alloc, &binder.name)?;
        self.bound.push(Binding { name, form })?;
        Ok(())
    }

    /// The form for which the newest binder of a name stands.
    pub fn lookup(&self, name: &Name) -> Option<&Form>
        ensures some { IfSome result (λ f. form_of (scope_of self.now).bound name.now ≡ Some f.now) }
        ensures none { IfNone result (form_of (scope_of self.now).bound name.now ≡ None) }
    {
        form_named(self.bound.as_slice(), name)
    }

    pub fn origin(&self, atom: u32) -> &Origin
        requires { atom < length (scope_of self.now).atoms }
        ensures { origin_at atom (scope_of self.now) ≡ Some (plain_origin result.now) }
    {
        &self.atoms[atom as usize].origin
    }

    /// Where the names end that are bound now.
    pub fn mark(&self) -> u32
        ensures { result ≡ length (scope_of self.now).bound }
    {
        self.bound.count()
    }

    /// Unbinds the names that were bound since the mark.
    pub fn leave(&mut self, mark: u32)
        ensures scope { scope_of self.new ≡ cut mark (scope_of self.old) }
        ensures order { (facts : Facts) → InOrder (scope_of self.old).bound (made_by self.old facts) → InOrder (scope_of self.new).bound (made_by self.new facts) }
    {
        self.bound.keep(mark);
    }
}

// The number of an atom more.
pub(crate) fn next_number(atoms: &[Atom]) -> Result<u32, Memory>
    ensures { IfOk result (λ k. k ≡ length atoms.now) }
{
    if atoms.len() >= u32::MAX as usize {
        return Err(Memory);
    }
    Ok(atoms.len() as u32)
}

pub(crate) fn form_named<'a>(bound: &'a [Binding], name: &Name) -> Option<&'a Form>
    ensures some { IfSome result (λ f. form_of bound.now name.now ≡ Some f.now) }
    ensures none { IfNone result (form_of bound.now name.now ≡ None) }
{
    let mut i = bound.len();
    while i > 0 {
        i -= 1;
        if name.same(&bound[i].name) {
            return Some(&bound[i].form);
        }
    }
    None
}
