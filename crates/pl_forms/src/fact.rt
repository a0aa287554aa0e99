ghost use Rattle.std.specs.Prelude.{◌≡◌, IfOk, map, take};

use crate::form::Form;
use pl_base::{Items, Memory, Name};
use std::alloc::Global;

/// What is said of a form.
#[derive(Clone, Copy, Debug, PartialEq, Eq)]
pub enum Shape {
    /// It is 0.
    Zero,
    /// It is at most 0.
    Below,
    /// It isn't 0.
    Differs,
}

/// What is known of a form; with a guard it is known only where the guard is 1.
#[derive(Debug, Drop)]
pub struct Fact {
    pub label: Option<Name>,
    pub guard: Option<Form>,
    pub shape: Shape,
    pub form: Form,
}

/// What is known, oldest first.
#[derive(Debug, Drop)]
pub struct Facts {
    pub list: Items<Fact>,
}

impl Fact {
    pub fn copy(&self, alloc: Global) -> Result<Fact, Memory>
        ensures { IfOk result (λ f. f ≡ self.now) }
    {
        Ok(Fact {
            label: copy_label(alloc, &self.label)?,
            guard: copy_guard(alloc, &self.guard)?,
            shape: self.shape,
            form: self.form.copy(alloc)?,
        })
    }
}

impl Facts {
    pub fn copy(&self, alloc: Global) -> Result<Facts, Memory>
        ensures { IfOk result (λ f. f.list ≡ self.now.list) }
    {
        let list = copy_facts(alloc, self.list.as_slice())?;
        Ok(Facts {
            list: Items::of(list),
        })
    }
}

fn copy_facts(alloc: Global, facts: &[Fact]) -> Result<Vec<Fact>, Memory>
    ensures { IfOk result (λ v. v.items ≡ facts.now) }
{
    let mut out = Vec::new(alloc);
    for fact in facts {
        let copy = fact.copy(alloc)?;
        out.push(copy)?;
    }
    Ok(out)
}

pub(crate) fn copy_label(alloc: Global, label: &Option<Name>) -> Result<Option<Name>, Memory>
    ensures { IfOk result (λ l. l ≡ label.now) }
{
    match label {
        None => Ok(None),
        Some(name) => Ok(Some(Name::of(alloc, name.text())?)),
    }
}

pub(crate) fn copy_guard(alloc: Global, guard: &Option<Form>) -> Result<Option<Form>, Memory>
    ensures { IfOk result (λ g. g ≡ guard.now) }
{
    match guard {
        None => Ok(None),
        Some(form) => Ok(Some(form.copy(alloc)?)),
    }
}

/// A multiple of the solved form of an equation, which is named by its place in the list of facts.
#[derive(Clone, Copy, Debug, PartialEq, Eq)]
pub struct EqTerm {
    pub times: i64,
    pub fact: u32,
}

/// A multiple of a fact, or of the negated goal, to which multiples of solved equations are added first.
#[derive(Debug, Drop)]
pub struct CertItem {
    pub times: i64,
    /// The place of the fact; the negated goal where there is none.
    pub fact: Option<u32>,
    /// The reverse of the fact, which is then an equation.
    pub back: bool,
    pub eqs: Items<EqTerm>,
}

/// Items whose sum is a positive constant.
#[derive(Debug, Drop)]
pub struct Cert {
    pub items: Items<CertItem>,
}
