use super::*;
use pl_base::Pos;
use pl_syntax::{Decl, Program};
use std::alloc::{AllocError, Global};
use std::process::Abort;
use std::test::*;

fn at(alloc: Global, pos: Pos, what: &str) -> Result<String, AllocError> {
    format!(in alloc; "{}:{}: {what}", pos.line, pos.col)
}

fn refusal(alloc: Global, error: FileError) -> Result<String, AllocError> {
    match error {
        FileError::BadUtf8(byte) => format!(in alloc; "byte {byte}: bad UTF-8"),
        FileError::BadChar(pos) => at(alloc, pos, "bad character"),
        FileError::LongNumber(pos) => at(alloc, pos, "long number"),
        FileError::LongName(pos) => at(alloc, pos, "long name"),
        FileError::Syntax(pos) => at(alloc, pos, "syntax"),
        FileError::Deep(pos) => at(alloc, pos, "deep"),
        FileError::TooMany(pos) => at(alloc, pos, "too many"),
        FileError::Unknown(pos) => at(alloc, pos, "unknown name"),
        FileError::Twice(pos) => at(alloc, pos, "name twice"),
        FileError::IllTyped(pos) => at(alloc, pos, "ill typed"),
        FileError::GhostFlow(pos) => at(alloc, pos, "ghost flow"),
        FileError::Opening(pos) => at(alloc, pos, "opening"),
        FileError::Measure(pos) => at(alloc, pos, "measure"),
        FileError::NoMain => format!(in alloc; "no main"),
        FileError::Memory => format!(in alloc; "out of memory"),
    }
}

/// The first declaration of a program.
fn first(alloc: Global, program: &Program) -> Result<String, AllocError> {
    match program.decls.as_slice() {
        [Decl::Struct(s), ..] => format!(in alloc; "struct {}", s.name.text()),
        [Decl::Pred(p), ..] => format!(in alloc; "pred {}", p.name.text()),
        [Decl::Fun(f), ..] => format!(in alloc; "fn {}", f.name.text()),
        [] => format!(in alloc; "nothing"),
    }
}

/// What reading a file answers.
fn answer(rt: &impl Abort, alloc: Global, bytes: &[u8]) -> Result<String, AllocError> {
    assert!(rt; bytes.len() < 1_000_000);
    match read_file(alloc, bytes) {
        Ok(typed) => first(alloc, typed.program()),
        Err(error) => refusal(alloc, error),
    }
}

#[test]
fn a_file_is_typed_or_its_first_fault_is_named(rt: HostRuntime) -> Result<(), Fail> {
    let cases = [
        ("fn main() { let _ = 1; print(_); }", "fn main"),
        ("struct s { a: i64 } fn main() { }", "struct s"),
        ("pred p(x: i64) = emp; fn main() { }", "pred p"),
        ("fn fn $", "1:7: bad character"),
        ("fn main() {\t\r $ }", "1:15: bad character"),
        (
            "fn main() { let ghost x = -170141183460469231731687303715884105728; }",
            "1:28: long number",
        ),
        ("fn fn __________________________() { }", "1:7: long name"),
        ("fn main() { print(12ab); }", "1:21: syntax"),
        ("fn main() {\n", "2:1: syntax"),
        ("fn main() { let x = x; }", "1:21: unknown name"),
        (
            "fn f(x: i64, x: i64) { print(y); } fn main() { }",
            "1:14: name twice",
        ),
        ("fn main() { let x = 1 + true; }", "1:25: ill typed"),
        (
            "fn main() { let ghost g = 1; if (g == 1) { print(1); } }",
            "1:34: ghost flow",
        ),
        (
            "ghost fn f() { g(); } ghost fn g() opens { } fn main() { }",
            "1:16: opening",
        ),
        (
            "ghost fn f() decreases 1 { g(); } ghost fn g() decreases 1 { f(); } fn main() { }",
            "1:28: measure",
        ),
        ("fn main() requires emp ** emp { }", "no main"),
    ];
    for (text, expected) in cases {
        assert_eq!(rt;
            answer(&rt, rt.alloc(), text.as_bytes())?.as_str(),
            expected,
            "{text}"
        );
    }
    Ok(())
}

#[test]
fn bytes_that_are_no_text_come_before_all_else(rt: HostRuntime) -> Result<(), Fail> {
    let bytes = [b'$', b' ', b'/', b'/', 0xff];
    assert_eq!(rt;
        answer(&rt, rt.alloc(), &bytes)?.as_str(),
        "byte 4: bad UTF-8"
    );
    Ok(())
}

/// A text with a piece of it many times.
fn repeated(
    alloc: Global,
    before: &str,
    piece: &str,
    times: u32,
    behind: &str,
) -> Result<String, AllocError> {
    let mut text = String::new(alloc);
    text.push_str(before)?;
    for _ in 0..times {
        text.push_str(piece)?;
    }
    text.push_str(behind)?;
    Ok(text)
}

#[test]
fn the_limits_are_named(rt: HostRuntime) -> Result<(), Fail> {
    let cases = [
        (
            "fn main() requires ",
            "exists x: int . ",
            64,
            "emp { }",
            "no main",
        ),
        (
            "fn main() requires ",
            "exists x: int . ",
            65,
            "emp { }",
            "1:1044: deep",
        ),
        ("", "fn f() { }\n", 4097, "", "4097:1: too many"),
    ];
    for (before, piece, times, behind, expected) in cases {
        let text = repeated(rt.alloc(), before, piece, times, behind)?;
        assert_eq!(rt;
            answer(&rt, rt.alloc(), text.as_str().as_bytes())?.as_str(),
            expected,
            "{times} of {piece}"
        );
    }
    Ok(())
}
