use super::*;
use pl_lexer::{LexError, lex};
use pl_readers::ReadError;
use std::alloc::{AllocError, Global};
use std::process::Abort;
use std::test::*;

/// How many tokens are left behind what is read, the end among them, or where it stops.
fn told<T: Drop>(
    alloc: Global,
    read: Result<(T, &[pl_lexer::Token]), ReadError>,
) -> Result<String, AllocError> {
    match read {
        Ok((_, rest)) => format!(in alloc; "{} left", rest.len()),
        Err(ReadError::Stop(stop)) if stop.is_deep => {
            format!(in alloc; "too deep, {} left", stop.left)
        }
        Err(ReadError::Stop(stop)) => format!(in alloc; "refused, {} left", stop.left),
        Err(ReadError::Memory) => format!(in alloc; "out of memory"),
    }
}

fn read_value(rt: &impl Abort, alloc: Global, text: &str) -> Result<String, AllocError> {
    assert!(rt; text.len() < 1_000_000);
    match lex(alloc, text.as_bytes()) {
        Ok(tokens) => told(alloc, value(alloc, 64, 0, tokens.as_slice())),
        Err(LexError::Memory) => format!(in alloc; "out of memory"),
        Err(_) => format!(in alloc; "no tokens"),
    }
}

fn read_prop(rt: &impl Abort, alloc: Global, text: &str) -> Result<String, AllocError> {
    assert!(rt; text.len() < 1_000_000);
    match lex(alloc, text.as_bytes()) {
        Ok(tokens) => told(alloc, whole_prop(alloc, 64, 0, tokens.as_slice())),
        Err(LexError::Memory) => format!(in alloc; "out of memory"),
        Err(_) => format!(in alloc; "no tokens"),
    }
}

#[test]
fn expressions_are_read(rt: HostRuntime) -> Result<(), Fail> {
    let cases = [
        ("1", "1 left"),
        ("a + b * (c - 1)", "1 left"),
        ("- 5", "1 left"),
        ("- - x", "1 left"),
        ("a < b < c", "3 left"),
        ("not a && b || true ==> null == p", "1 left"),
        ("a == b ==> c ==> d", "3 left"),
        ("1 / / 2", "refused, 3 left"),
        ("(a", "refused, 1 left"),
        ("", "refused, 1 left"),
    ];
    for (text, wanted) in cases {
        let given = read_value(&rt, rt.alloc(), text)?;
        assert_eq!(rt; given.as_str(), wanted);
    }
    Ok(())
}

#[test]
fn propositions_are_read(rt: HostRuntime) -> Result<(), Fail> {
    let cases = [
        ("emp", "1 left"),
        ("emp ** emp", "1 left"),
        ("r |->{1*f} 1", "1 left"),
        ("r |->{1048576/1048576} 1", "1 left"),
        ("r |->{2} 1", "refused, 3 left"),
        ("r |->{0} 1", "refused, 4 left"),
        ("r |->{3/2} 1", "refused, 4 left"),
        ("r |->{2*f} 1", "refused, 5 left"),
        ("exists x: int . r |-> x", "1 left"),
        ("emp ** ", "refused, 1 left"),
    ];
    for (text, wanted) in cases {
        let given = read_prop(&rt, rt.alloc(), text)?;
        assert_eq!(rt; given.as_str(), wanted);
    }
    Ok(())
}

#[test]
fn levels_end_at_64(rt: HostRuntime) -> Result<(), Fail> {
    let alloc = rt.alloc();
    let mut text = String::new(alloc);
    for _ in 0..64 {
        text.push_str("(")?;
    }
    text.push_str("1")?;
    for _ in 0..64 {
        text.push_str(")")?;
    }
    let given = read_value(&rt, alloc, text.as_str())?;
    assert_eq!(rt; given.as_str(), "1 left");
    let mut deeper = String::new(alloc);
    deeper.push_str("(")?;
    deeper.push_str(text.as_str())?;
    deeper.push_str(")")?;
    let given = read_value(&rt, alloc, deeper.as_str())?;
    assert_eq!(rt; given.as_str(), "too deep, 68 left");
    Ok(())
}
