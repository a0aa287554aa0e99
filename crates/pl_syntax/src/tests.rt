use super::*;
use crate::unbuilt::first_unbuilt;
use pl_base::{Items, Memory, Name, Perm, Pos};
use std::alloc::Global;
use std::process::Abort;
use std::test::*;

fn crosses<T: Send + Sync>(_value: &T) {}

fn _program_crosses(program: &Program) {
    crosses(program);
}

fn _typed_crosses(typed: &Typed) {
    crosses(typed);
}

fn _straight_crosses(straight: &Straight) {
    crosses(straight);
}

fn _statement_crosses(statement: &Stmt) {
    crosses(statement);
}

fn _proposition_crosses(prop: &Prop) {
    crosses(prop);
}

const POS: Pos = Pos {
    line: 1,
    col: 1,
    byte: 0,
};

/// `-x + .. + -x`, with so many signs on either side.
fn tower(alloc: Global, height: u32) -> Result<Expr, Memory> {
    let mut e = Expr::Var(POS, Name::of(alloc, "x")?);
    for _ in 0..height {
        let right = Expr::Neg(POS, Box::new(alloc, Expr::Null(POS))?);
        let left = Expr::Not(POS, Box::new(alloc, e)?);
        e = Expr::Bin(
            POS,
            BinOp::Add,
            Box::new(alloc, left)?,
            Box::new(alloc, right)?,
        );
    }
    Ok(e)
}

/// `r |-> e ** emp`, where there is a permission of 1.
fn points(alloc: Global, e: Expr) -> Result<Prop, Memory> {
    let Some(part) = Perm::new(1, 1) else {
        return Ok(Prop::Emp(POS));
    };
    let perm = PermExpr {
        pos: POS,
        part,
        var: None,
    };
    let cell = CellExpr::Whole(Name::of(alloc, "r")?);
    let points = Prop::Points(POS, cell, perm, e);
    Ok(Prop::Star(Box::new(alloc, points)?, Box::new(alloc, Prop::Emp(POS))?))
}

/// `if (e) { .. } ensures P;`, with so many blocks one inside the other.
fn nested(alloc: Global, height: u32) -> Result<Stmt, Memory> {
    let mut statement = Stmt::Print(POS, tower(alloc, height)?);
    for _ in 0..height {
        let mut list = Vec::new(alloc);
        list.push(statement)?;
        let block = Stmts {
            list: Items::of(list),
            close: POS,
        };
        let after = points(alloc, Expr::Int(POS, 5))?;
        statement = Stmt::If(POS, Expr::Truth(POS, true), block, None, Some(after));
    }
    Ok(statement)
}

fn program(alloc: Global, statement: Stmt) -> Result<Program, Memory> {
    let mut list = Vec::new(alloc);
    list.push(statement)?;
    let main = FunDecl {
        pos: POS,
        is_ghost: false,
        name: Name::of(alloc, "main")?,
        params: Items::of(Vec::new(alloc)),
        opens: false,
        before: points(alloc, Expr::Null(POS))?,
        result: None,
        after: Prop::Emp(POS),
        measure: Some(tower(alloc, 3)?),
        body: Stmts {
            list: Items::of(list),
            close: POS,
        },
    };
    let mut decls = Vec::new(alloc);
    decls.push(Decl::Fun(main))?;
    Ok(Program {
        decls: Items::of(decls),
    })
}

fn build(alloc: Global) -> Result<usize, Memory> {
    let statement = nested(alloc, 64)?;
    let program = program(alloc, statement)?;
    Ok(program.decls.as_slice().len())
}

/// A program is built and dropped, with as many levels as a file may have.
#[test]
fn a_program_is_built(rt: HostRuntime) -> Result<(), Fail> {
    assert_eq!(rt; build(rt.alloc()), Ok(1));
    Ok(())
}

/// A declaration of a table.
#[derive(Clone, Copy)]
enum Row {
    Struct,
    Pred,
    /// A function that isn't `main`.
    Helper,
    /// `main`, with a print and a statement behind it.
    Print,
    /// The same with a read.
    Read,
    /// The same with a ghost load.
    GhostLoad,
    /// The same with a print of a sum.
    Sum,
    /// `main`, with `ensures`.
    Ensures,
}

fn at(byte: u32) -> Pos {
    Pos {
        line: 1,
        col: byte.saturating_add(1),
        byte,
    }
}

/// The statement behind the print in a row's `main`.
fn last(alloc: Global, row: Row, pos: Pos) -> Result<Stmt, Memory> {
    let cell = CellExpr::Whole(Name::of(alloc, "r")?);
    Ok(match row {
        Row::Read => Stmt::Read(pos, Name::of(alloc, "x")?),
        Row::GhostLoad => Stmt::Load(pos, Name::of(alloc, "x")?, cell, true),
        Row::Sum => Stmt::Print(pos, tower(alloc, 1)?),
        _ => Stmt::Print(pos, Expr::Int(pos, 2)),
    })
}

/// A row's function. Its name stands at that byte, and its second statement 5 bytes behind.
fn function(alloc: Global, row: Row, byte: u32) -> Result<FunDecl, Memory> {
    let inner = at(byte.saturating_add(5));
    let mut list = Vec::new(alloc);
    list.push(Stmt::Print(at(byte.saturating_add(2)), Expr::Int(inner, 1)))?;
    list.push(last(alloc, row, inner)?)?;
    let name = match row {
        Row::Helper => Name::of(alloc, "helper")?,
        _ => Name::of(alloc, "main")?,
    };
    let after = match row {
        Row::Ensures => points(alloc, Expr::Int(inner, 5))?,
        _ => Prop::Emp(inner),
    };
    Ok(FunDecl {
        pos: at(byte),
        is_ghost: false,
        name,
        params: Items::of(Vec::new(alloc)),
        opens: false,
        before: Prop::Emp(inner),
        result: None,
        after,
        measure: None,
        body: Stmts {
            list: Items::of(list),
            close: inner,
        },
    })
}

fn declaration(alloc: Global, row: Row, byte: u32) -> Result<Decl, Memory> {
    let pos = at(byte);
    Ok(match row {
        Row::Struct => Decl::Struct(StructDecl {
            pos,
            name: Name::of(alloc, "S")?,
            fields: Items::of(Vec::new(alloc)),
        }),
        Row::Pred => Decl::Pred(PredDecl {
            pos,
            name: Name::of(alloc, "P")?,
            params: Items::of(Vec::new(alloc)),
            body: Body::Plain(Prop::Emp(pos)),
        }),
        _ => Decl::Fun(function(alloc, row, byte)?),
    })
}

/// The byte of the first form that isn't handled in a program with these declarations, each 10 bytes behind the other.
fn unbuilt(alloc: Global, rows: &[Row]) -> Result<Option<u32>, Memory> {
    let mut decls = Vec::new(alloc);
    let mut byte: u32 = 0;
    for row in rows {
        decls.push(declaration(alloc, *row, byte)?)?;
        byte = byte.saturating_add(10);
    }
    let program = Program {
        decls: Items::of(decls),
    };
    Ok(match first_unbuilt(&program) {
        Some(pos) => Some(pos.byte),
        None => None,
    })
}

/// The first form that isn't handled is found, whatever its kind.
#[test]
fn the_first_unbuilt_form_is_found(rt: HostRuntime) -> Result<(), Fail> {
    let alloc = rt.alloc();
    assert_eq!(rt; unbuilt(alloc, &[Row::Print]), Ok(None));
    assert_eq!(rt; unbuilt(alloc, &[Row::Read]), Ok(Some(5)));
    assert_eq!(rt; unbuilt(alloc, &[Row::GhostLoad]), Ok(Some(5)));
    assert_eq!(rt; unbuilt(alloc, &[Row::Sum]), Ok(Some(5)));
    assert_eq!(rt; unbuilt(alloc, &[Row::Ensures]), Ok(Some(0)));
    assert_eq!(rt; unbuilt(alloc, &[Row::Struct, Row::Print]), Ok(Some(0)));
    assert_eq!(rt; unbuilt(alloc, &[Row::Pred, Row::Print]), Ok(Some(0)));
    assert_eq!(rt; unbuilt(alloc, &[Row::Helper, Row::Print]), Ok(Some(0)));
    assert_eq!(rt; unbuilt(alloc, &[Row::Print, Row::Struct]), Ok(Some(10)));
    assert_eq!(rt; unbuilt(alloc, &[Row::Print, Row::Pred]), Ok(Some(10)));
    assert_eq!(rt; unbuilt(alloc, &[Row::Print, Row::Helper]), Ok(Some(10)));
    assert_eq!(rt; unbuilt(alloc, &[Row::Read, Row::Helper]), Ok(Some(5)));
    Ok(())
}
