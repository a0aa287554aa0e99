use crate::{TypeError, type_check};
use pl_base::{Items, Memory, Name, Pos};
use pl_syntax::{
    BinOp, Binder, CellExpr, Class, Decl, Expr, FunDecl, Program, Prop, Sort, Stmt, Stmts,
};
use std::alloc::Global;
use std::process::Abort;
use std::test::*;

/// A place in the one line of a file.
fn place(col: u32) -> Pos {
    Pos {
        line: 1,
        col,
        byte: col.saturating_sub(1),
    }
}

fn block(list: Vec<Stmt>) -> Stmts {
    Stmts {
        list: Items::of(list),
        close: place(99),
    }
}

/// A function without parameters, clauses and result.
fn function(
    alloc: Global,
    is_ghost: bool,
    name: &str,
    col: u32,
    list: Vec<Stmt>,
) -> Result<FunDecl, Memory> {
    Ok(FunDecl {
        pos: place(col),
        is_ghost,
        name: Name::of(alloc, name)?,
        params: Items::of(Vec::new(alloc)),
        opens: false,
        before: Prop::Emp(place(col)),
        result: None,
        after: Prop::Emp(place(col)),
        measure: None,
        body: block(list),
    })
}

fn parameter(
    alloc: Global,
    col: u32,
    name: &str,
    class: Class,
    sort: Sort,
) -> Result<Binder, Memory> {
    Ok(Binder {
        pos: place(col),
        name: Name::of(alloc, name)?,
        class,
        sort,
    })
}

/// Why a program with these functions is refused.
fn check(alloc: Global, functions: Vec<FunDecl>) -> Result<Option<TypeError>, Memory> {
    let mut decls = Vec::new(alloc);
    for f in functions {
        decls.push(Decl::Fun(f))?;
    }
    let program = Program {
        decls: Items::of(decls),
    };
    match type_check(alloc, program) {
        Ok(_) => Ok(None),
        Err(TypeError::Memory) => Err(Memory),
        Err(e) => Ok(Some(e)),
    }
}

fn call(alloc: Global, col: u32, name: &str) -> Result<Vec<Stmt>, Memory> {
    let mut list = Vec::new(alloc);
    let args = Items::of(Vec::new(alloc));
    list.push(Stmt::Call(place(col), None, Name::of(alloc, name)?, args))?;
    Ok(list)
}

fn main_of(alloc: Global, list: Vec<Stmt>) -> Result<Vec<FunDecl>, Memory> {
    let mut functions = Vec::new(alloc);
    functions.push(function(alloc, false, "main", 4, list)?)?;
    Ok(functions)
}

/// `fn main() { print(-9223372036854775808); }`
#[test]
fn the_least_integer_is_typed(rt: HostRuntime) -> Result<(), Fail> {
    let alloc = rt.alloc();
    let mut list = Vec::new(alloc);
    list.push(Stmt::Print(place(13), Expr::Int(place(19), -9_223_372_036_854_775_808)))?;
    assert!(rt; check(alloc, main_of(alloc, list)?)?.is_none());
    Ok(())
}

/// `fn main() { print(-(9223372036854775808)); }`
#[test]
fn its_negation_is_not(rt: HostRuntime) -> Result<(), Fail> {
    let alloc = rt.alloc();
    let inner = Box::new(alloc, Expr::Int(place(21), 9_223_372_036_854_775_808))?;
    let mut list = Vec::new(alloc);
    list.push(Stmt::Print(place(13), Expr::Neg(place(19), inner)))?;
    match check(alloc, main_of(alloc, list)?)? {
        Some(TypeError::IllTyped(pos)) => assert_eq!(rt; pos.col, 21),
        _ => assert!(rt; false),
    }
    Ok(())
}

/// `fn main() { let x = x; }`
#[test]
fn a_name_is_bound_behind_its_value(rt: HostRuntime) -> Result<(), Fail> {
    let alloc = rt.alloc();
    let value = Expr::Var(place(21), Name::of(alloc, "x")?);
    let mut list = Vec::new(alloc);
    list.push(Stmt::Let(place(13), Name::of(alloc, "x")?, value))?;
    match check(alloc, main_of(alloc, list)?)? {
        Some(TypeError::Unknown(pos)) => assert_eq!(rt; pos.col, 21),
        _ => assert!(rt; false),
    }
    Ok(())
}

/// `fn main() { let x = 1; if (true) { let x = alloc(2); free(x); } print(x); }`: behind the block `x` is the number again
#[test]
fn a_hidden_name_comes_back(rt: HostRuntime) -> Result<(), Fail> {
    let alloc = rt.alloc();
    let mut arm = Vec::new(alloc);
    arm.push(Stmt::Alloc(place(36), Name::of(alloc, "x")?, Expr::Int(place(50), 2)))?;
    arm.push(Stmt::Free(place(54), Name::of(alloc, "x")?))?;
    let mut list = Vec::new(alloc);
    list.push(Stmt::Let(place(13), Name::of(alloc, "x")?, Expr::Int(place(21), 1)))?;
    list.push(Stmt::If(
        place(24),
        Expr::Truth(place(28), true),
        block(arm),
        None,
        None,
    ))?;
    list.push(Stmt::Print(place(65), Expr::Var(place(71), Name::of(alloc, "x")?)))?;
    assert!(rt; check(alloc, main_of(alloc, list)?)?.is_none());
    Ok(())
}

/// `fn main() { let ghost g = 1; if (g == 1) { print(1); } }`
#[test]
fn a_real_branch_has_a_real_condition(rt: HostRuntime) -> Result<(), Fail> {
    let alloc = rt.alloc();
    let left = Box::new(alloc, Expr::Var(place(34), Name::of(alloc, "g")?))?;
    let right = Box::new(alloc, Expr::Int(place(39), 1))?;
    let mut arm = Vec::new(alloc);
    arm.push(Stmt::Print(place(44), Expr::Int(place(50), 1)))?;
    let mut list = Vec::new(alloc);
    list.push(Stmt::GLet(place(13), Name::of(alloc, "g")?, Expr::Int(place(27), 1)))?;
    list.push(Stmt::If(
        place(30),
        Expr::Bin(place(34), BinOp::Eq, left, right),
        block(arm),
        None,
        None,
    ))?;
    match check(alloc, main_of(alloc, list)?)? {
        Some(TypeError::GhostFlow(pos)) => assert_eq!(rt; pos.col, 34),
        _ => assert!(rt; false),
    }
    Ok(())
}

/// `ghost fn f(r: ref i64) { r := 1; } fn main() { }`: of two kinds at one place ghost flow
#[test]
fn ghost_flow_comes_before_sorts(rt: HostRuntime) -> Result<(), Fail> {
    let alloc = rt.alloc();
    let mut list = Vec::new(alloc);
    let cell = CellExpr::Whole(Name::of(alloc, "r")?);
    list.push(Stmt::Store(place(26), cell, Expr::Int(place(31), 1)))?;
    let mut params = Vec::new(alloc);
    params.push(parameter(alloc, 12, "r", Class::Ghost, Sort::RefI64)?)?;
    let mut f = function(alloc, true, "f", 10, list)?;
    f.params = Items::of(params);
    let mut functions = Vec::new(alloc);
    functions.push(f)?;
    functions.push(function(alloc, false, "main", 39, Vec::new(alloc))?)?;
    match check(alloc, functions)? {
        Some(TypeError::GhostFlow(pos)) => assert_eq!(rt; pos.col, 26),
        _ => assert!(rt; false),
    }
    Ok(())
}

/// `ghost fn f() { g(); } ghost fn g() opens { } fn main() { }`
#[test]
fn a_marked_function_opens(rt: HostRuntime) -> Result<(), Fail> {
    let alloc = rt.alloc();
    let mut g = function(alloc, true, "g", 32, Vec::new(alloc))?;
    g.opens = true;
    let mut functions = Vec::new(alloc);
    functions.push(function(alloc, true, "f", 10, call(alloc, 16, "g")?)?)?;
    functions.push(g)?;
    functions.push(function(alloc, false, "main", 49, Vec::new(alloc))?)?;
    match check(alloc, functions)? {
        Some(TypeError::Opening(pos)) => assert_eq!(rt; pos.col, 16),
        _ => assert!(rt; false),
    }
    Ok(())
}

/// `ghost fn f() decreases 1 { g(); } ghost fn g() decreases 1 { f(); } fn main() { }`
#[test]
fn ghost_functions_call_earlier_ones(rt: HostRuntime) -> Result<(), Fail> {
    let alloc = rt.alloc();
    let mut f = function(alloc, true, "f", 10, call(alloc, 28, "g")?)?;
    let mut g = function(alloc, true, "g", 44, call(alloc, 62, "f")?)?;
    f.measure = Some(Expr::Int(place(24), 1));
    g.measure = Some(Expr::Int(place(58), 1));
    let mut functions = Vec::new(alloc);
    functions.push(f)?;
    functions.push(g)?;
    functions.push(function(alloc, false, "main", 72, Vec::new(alloc))?)?;
    match check(alloc, functions)? {
        Some(TypeError::Measure(pos)) => assert_eq!(rt; pos.col, 28),
        _ => assert!(rt; false),
    }
    Ok(())
}

/// `fn f(x: i64, x: i64) { print(y); } fn main() { }`: of two names the earlier place
#[test]
fn parameters_have_two_names(rt: HostRuntime) -> Result<(), Fail> {
    let alloc = rt.alloc();
    let mut params = Vec::new(alloc);
    params.push(parameter(alloc, 6, "x", Class::Real, Sort::I64)?)?;
    params.push(parameter(alloc, 14, "x", Class::Real, Sort::I64)?)?;
    let mut list = Vec::new(alloc);
    list.push(Stmt::Print(place(24), Expr::Var(place(30), Name::of(alloc, "y")?)))?;
    let mut f = function(alloc, false, "f", 4, list)?;
    f.params = Items::of(params);
    let mut functions = Vec::new(alloc);
    functions.push(f)?;
    functions.push(function(alloc, false, "main", 39, Vec::new(alloc))?)?;
    match check(alloc, functions)? {
        Some(TypeError::Twice(pos)) => assert_eq!(rt; pos.col, 14),
        _ => assert!(rt; false),
    }
    Ok(())
}

/// `fn main() requires emp ** emp { }`
#[test]
fn a_main_has_no_requires(rt: HostRuntime) -> Result<(), Fail> {
    let alloc = rt.alloc();
    let left = Box::new(alloc, Prop::Emp(place(20)))?;
    let right = Box::new(alloc, Prop::Emp(place(27)))?;
    let mut main = function(alloc, false, "main", 4, Vec::new(alloc))?;
    main.before = Prop::Star(left, right);
    let mut functions = Vec::new(alloc);
    functions.push(main)?;
    match check(alloc, functions)? {
        Some(TypeError::NoMain) => (),
        _ => assert!(rt; false),
    }
    Ok(())
}
