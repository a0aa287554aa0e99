//! Propositions.

use super::make::{at, binder, emp, one, star};
use crate::print_prop;
use pl_base::Memory;
use pl_syntax::{Class, Prop, Sort};
use std::alloc::Global;
use std::process::Abort;
use std::test::*;

fn expect(rt: &impl Abort, alloc: Global, p: Prop, want: &str) -> Result<(), Fail> {
    let text = print_prop(alloc, &p)?;
    let found = str::from_utf8(text.as_slice()).ok().ok_or("a text")?;
    assert_eq!(rt; found, want);
    Ok(())
}

/// `exists x: int . emp`
fn bound(alloc: Global) -> Result<Prop, Memory> {
    let binders = one(alloc, binder(alloc, Class::Logical, "x", Sort::Int)?)?;
    Ok(Prop::Exists(at(), binders, Box::new(alloc, emp())?))
}

#[test]
fn brackets(rt: HostRuntime) -> Result<(), Fail> {
    let alloc = rt.alloc();
    let left = star(alloc, emp(), emp())?;
    let right = star(alloc, emp(), bound(alloc)?)?;
    let all = star(alloc, left, right)?;
    expect(
        &rt,
        alloc,
        all,
        "(emp ** emp) ** emp ** exists x: int . emp",
    )?;
    let all = star(alloc, bound(alloc)?, emp())?;
    expect(&rt, alloc, all, "(exists x: int . emp) ** emp")
}
