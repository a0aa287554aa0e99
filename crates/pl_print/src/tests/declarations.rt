//! Declarations and whole programs.

use super::make::{at, block, function, int, one};
use crate::print;
use pl_base::Items;
use pl_syntax::{Decl, Program, Stmt};
use std::alloc::Global;
use std::process::Abort;
use std::test::*;

fn expect_all(rt: &impl Abort, alloc: Global, decls: Items<Decl>, want: &str) -> Result<(), Fail> {
    let text = print(alloc, &Program { decls })?;
    let found = str::from_utf8(text.as_slice()).ok().ok_or("a text")?;
    assert_eq!(rt; found, want);
    Ok(())
}

fn expect(rt: &impl Abort, alloc: Global, decl: Decl, want: &str) -> Result<(), Fail> {
    expect_all(rt, alloc, one(alloc, decl)?, want)
}

#[test]
fn an_empty_file(rt: HostRuntime) -> Result<(), Fail> {
    let alloc = rt.alloc();
    expect_all(&rt, alloc, Items::of(Vec::new(alloc)), "")
}

#[test]
fn one_statement(rt: HostRuntime) -> Result<(), Fail> {
    let alloc = rt.alloc();
    let body = block(one(alloc, Stmt::Print(at(), int(7)))?);
    let main = Decl::Fun(function(alloc, "main", body)?);
    expect(&rt, alloc, main, "fn main() {\n  print(7);\n}\n")
}
