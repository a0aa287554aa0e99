use super::*;
use pl_lexer::{LexError, lex};
use std::alloc::{AllocError, Global};
use std::process::Abort;
use std::test::*;

/// What parsing a text answers.
fn answer(rt: &impl Abort, alloc: Global, text: &str) -> Result<String, AllocError> {
    assert!(rt; text.len() < 1_000_000);
    match lex(alloc, text.as_bytes()) {
        Ok(tokens) => match parse(alloc, &tokens) {
            Ok(program) => format!(in alloc; "{} declarations", program.decls.as_slice().len()),
            Err(ParseError::Syntax(pos, number)) => {
                format!(in alloc; "{}:{}: syntax, wants {number}", pos.line, pos.col)
            }
            Err(ParseError::Deep(pos)) => format!(in alloc; "{}:{}: deep", pos.line, pos.col),
            Err(ParseError::TooMany(pos)) => {
                format!(in alloc; "{}:{}: too many", pos.line, pos.col)
            }
            Err(ParseError::Memory) => format!(in alloc; "out of memory"),
        },
        Err(LexError::Memory) => format!(in alloc; "out of memory"),
        Err(_) => format!(in alloc; "no tokens"),
    }
}

#[test]
fn the_first_token_that_does_not_go_on_is_refused(rt: HostRuntime) -> Result<(), Fail> {
    let cases = [
        ("", "0 declarations"),
        ("fn main() { let _ = 1; print(_); }", "1 declarations"),
        ("fn main() { let x = 1//2;\n; }", "1 declarations"),
        ("fn main() { print(12ab); }", "1:21: syntax, wants 1"),
        ("fn main() { let x = 1 / / 2; }", "1:25: syntax, wants 0"),
        ("fn main() {\n", "2:1: syntax, wants 3"),
        ("fn main() { // x", "1:17: syntax, wants 3"),
        ("fn", "1:3: syntax, wants 255"),
        (
            "fn main() requires r |->{2} 1 { }",
            "1:27: syntax, wants 18",
        ),
        (
            "fn main() requires r |->{0} 1 { }",
            "1:26: syntax, wants 254",
        ),
        (
            "fn main() requires r |->{3/2} 1 { }",
            "1:28: syntax, wants 254",
        ),
        (
            "fn main() requires r |->{2/2097152} 1 { }",
            "1:28: syntax, wants 254",
        ),
        (
            "fn main() requires r |->{1048577/1048577} 1 { }",
            "1:26: syntax, wants 254",
        ),
        (
            "fn main() requires r |->{2*f} 1 { }",
            "1:27: syntax, wants 18",
        ),
        ("fn main() requires r |->{1*f} 1 { }", "1 declarations"),
        (
            "fn main() requires r |->{1048576/1048576} 1 { }",
            "1 declarations",
        ),
        (
            "fn main(){let x=- 5;let x=a- 5;let x=-(5);let x=- -5;}",
            "1 declarations",
        ),
        ("fn main() { rewrite emp ** emp as emp; }", "1 declarations"),
        (
            "fn main() { while (let ghost x = !g; true) invariant emp { } }",
            "1:24: syntax, wants 255",
        ),
        (
            "fn main() { while (let x = !g; true) invariant emp { } }",
            "1 declarations",
        ),
        ("fn main() { let x = f(1) + 1; }", "1:26: syntax, wants 7"),
        ("fn main() { let mut x = f(1); }", "1:26: syntax, wants 7"),
        ("fn main() { print(f(1)); }", "1:20: syntax, wants 1"),
        ("fn main() { let ghost x = f(1); }", "1:28: syntax, wants 7"),
        (
            "fn main() { let x = alloc(1) + 1; }",
            "1:30: syntax, wants 7",
        ),
        (
            "fn main() { let mut x = alloc(1); }",
            "1:25: syntax, wants 0",
        ),
        ("fn main() { focus a[1 == 2]; }", "1:23: syntax, wants 5"),
        (
            "fn main() requires r |-> 1 == 1 { }",
            "1:28: syntax, wants 2",
        ),
        ("fn main() requires r |-> (1 == 1) { }", "1 declarations"),
        ("fn main() { if (true) { }; }", "1:26: syntax, wants 3"),
        ("fn main() { if (true) { } ensures emp; }", "1 declarations"),
        (
            "fn main() { let x = new s { }; }",
            "1:29: syntax, wants 255",
        ),
        ("fn main() { assert x > 0 by 2*h + 3*g; }", "1 declarations"),
        ("fn main() { print(1) }", "1:22: syntax, wants 7"),
        (
            "struct s { a: i64 } pred p(x: i64) = if (x == 1) { emp } else { emp }; fn main() { }",
            "3 declarations",
        ),
    ];
    for (text, expected) in cases {
        assert_eq!(rt; answer(&rt, rt.alloc(), text)?.as_str(), expected, "{text}");
    }
    Ok(())
}

/// A text with a piece of it many times.
fn repeated(
    alloc: Global,
    before: &str,
    piece: &str,
    times: u32,
    behind: &str,
) -> Result<String, AllocError> {
    let mut text = String::new(alloc);
    text.push_str(before)?;
    for _ in 0..times {
        text.push_str(piece)?;
    }
    text.push_str(behind)?;
    Ok(text)
}

#[test]
fn the_token_of_the_65th_level_is_named(rt: HostRuntime) -> Result<(), Fail> {
    let sum =
        "fn main() requires r |-> 1 + 1 + 1 + 1 + 1 + 1 + 1 + 1 + 1 + 1 + 1 + 1 + 1 + 1 + 1 + 1 + 1 + 1 + 1 + 1 + 1 + 1 + 1 + 1 + 1 + 1 + 1 + 1 + 1 + 1 + 1 + 1 + 1";
    let cases = [
        (sum, " ** emp", 32, " { }", "1 declarations"),
        (sum, " ** emp", 33, " { }", "1:380: deep"),
        (
            "fn main() { let ghost x = ",
            "-",
            64,
            "1; }",
            "1 declarations",
        ),
        ("fn main() { let ghost x = ", "-", 65, "1; }", "1:90: deep"),
        ("fn main() { let ghost x = ", "-", 64, "; }", "1:90: deep"),
        (
            "fn main() { let ghost x = ",
            "-",
            63,
            "; }",
            "1:90: syntax, wants 0",
        ),
        (
            "fn main() requires ",
            "exists x: int . ",
            64,
            "emp { }",
            "1 declarations",
        ),
        (
            "fn main() requires ",
            "exists x: int . ",
            65,
            "emp { }",
            "1:1044: deep",
        ),
        ("fn main() { print(", "(", 63, "1;", "1:83: syntax, wants 1"),
        ("fn main() { print(", "(", 64, "1;", "1:82: deep"),
        ("fn main() { ", "if (true) { ", 64, "", "1:779: deep"),
        ("fn main() { let ghost x = ", "-", 64, "x; }", "1:90: deep"),
        (
            "fn main() { let ghost x = ",
            "-",
            64,
            "(1); }",
            "1:90: deep",
        ),
        ("fn main() { let ghost x = ", "-", 64, ") 1", "1:90: deep"),
        (
            "fn main() { let ghost x = ",
            "-",
            64,
            " 1 + (1); }",
            "1:94: deep",
        ),
        (
            "fn main() { let ghost x = ",
            "-",
            63,
            "(1); }",
            "1:90: deep",
        ),
        (
            "fn main() { let ghost x = ",
            "-",
            63,
            "x; }",
            "1 declarations",
        ),
        ("fn main() { print(", "(", 64, ") 1 fn", "1:82: deep"),
        ("fn main() { print(; ", "(", 64, "", "1:19: syntax, wants 0"),
        (
            "fn main() requires ",
            "exists x: int . ",
            64,
            "emp ** emp { }",
            "1:1048: deep",
        ),
        (
            "fn main() requires ",
            "exists x: int . ",
            64,
            "** emp { }",
            "1:1044: syntax, wants 0",
        ),
        (
            "pred p() = if (true) { ",
            "exists x: int . ",
            63,
            "emp } else { emp };",
            "1 declarations",
        ),
        (
            "pred p() = if (true) { ",
            "exists x: int . ",
            64,
            "emp } else { emp };",
            "1:1032: deep",
        ),
        (
            "fn main() { ",
            "if (true) { ",
            63,
            "if (true) ;",
            "1:779: syntax, wants 2",
        ),
        (
            "fn main() { ",
            "if (true) { ",
            63,
            "let x = new s { a: 1 }; ",
            "1:793: syntax, wants 3",
        ),
        (
            "fn main() { assert x > 0 by 2*h",
            " + 3*g",
            100,
            "; }",
            "1 declarations",
        ),
        ("", "fn f() { }\n", 4096, "", "4096 declarations"),
        ("", "fn f() { }\n", 4097, "", "4097:1: too many"),
        ("", "fn f() { }\n", 4096, "struct 1", "4097:1: too many"),
        ("", "fn f() { }\n", 1, "struct 1", "2:8: syntax, wants 255"),
    ];
    for (before, piece, times, behind, expected) in cases {
        let text = repeated(rt.alloc(), before, piece, times, behind)?;
        assert_eq!(rt;
            answer(&rt, rt.alloc(), text.as_str())?.as_str(),
            expected,
            "{times} of {piece}"
        );
    }
    Ok(())
}
