use super::*;
use pl_base::Pos;
use std::alloc::{AllocError, Global};
use std::process::Abort;
use std::test::*;

fn place(pos: Pos) -> (u32, u32, u32) {
    (pos.line, pos.col, pos.byte)
}

/// What lexing answers: of each token its line and column and what it is, `s` before the number of a sign.
fn answer(rt: &impl Abort, alloc: Global, bytes: &[u8]) -> Result<String, AllocError> {
    assert!(rt; bytes.len() < 1000);
    match lex(alloc, bytes) {
        Ok(tokens) => listed(alloc, &tokens),
        Err(LexError::BadUtf8(n)) => format!(in alloc; "bad UTF-8 at {n}"),
        Err(LexError::BadChar(pos)) => format!(in alloc; "{}:{}: bad character", pos.line, pos.col),
        Err(LexError::LongNumber(pos)) => format!(in alloc;
            "{}:{}: long number",
            pos.line, pos.col
        ),
        Err(LexError::LongName(pos)) => format!(in alloc; "{}:{}: long name", pos.line, pos.col),
        Err(LexError::Memory) => format!(in alloc; "out of memory"),
    }
}

fn listed(alloc: Global, tokens: &Tokens) -> Result<String, AllocError> {
    let mut list = String::new(alloc);
    for k in 0..tokens.len() {
        let token = tokens.at(k);
        let (line, col, _) = place(token.pos);
        match &token.kind {
            Kind::Word(name) => write!(list, "{line}:{col} {} ", name.text())?,
            Kind::Number(value) => write!(list, "{line}:{col} {value} ")?,
            Kind::Sign(number) => write!(list, "{line}:{col} s{number} ")?,
            Kind::End => write!(list, "{line}:{col} end")?,
        }
    }
    Ok(list)
}

#[test]
fn texts_are_cut_into_longest_lexemes(rt: HostRuntime) -> Result<(), Fail> {
    let cases = [
        ("", "1:1 end"),
        (
            "fn main(){print(0007);}",
            "1:1 s33 1:4 main 1:8 s0 1:9 s1 1:10 s2 1:11 s86 1:16 s0 1:17 7 1:21 s1 1:22 s7 1:23 s3 1:24 end",
        ),
        ("fn fn $", "1:7: bad character"),
        ("12ab", "1:1 12 1:3 ab 1:5 end"),
        ("fn main() { a |- b }", "1:15: bad character"),
        ("a & b", "1:3: bad character"),
        ("a | b", "1:3: bad character"),
        ("===", "1:1 s24 1:3 s11 1:4 end"),
        ("==>=", "1:1 s28 1:4 s11 1:5 end"),
        ("***", "1:1 s14 1:3 s17 1:4 end"),
        ("fn main() {\t\r $ }", "1:15: bad character"),
        ("1//2;\n; }", "1:1 1 2:1 s7 2:3 s3 2:4 end"),
        ("1 / / 2", "1:1 1 1:3 s18 1:5 s18 1:7 2 1:8 end"),
        ("{\n", "1:1 s2 2:1 end"),
        ("{ // x", "1:1 s2 1:7 end"),
        ("let _ = 1;", "1:1 s39 1:5 _ 1:7 s11 1:9 1 1:10 s7 1:11 end"),
        ("{ \u{661} }", "1:3: bad character"),
        ("\u{feff}fn", "1:1: bad character"),
        ("\u{301}a", "1:1: bad character"),
        (
            "a\u{661}\u{301} fn_ _1",
            "1:1 a\u{661}\u{301} 1:5 fn_ 1:9 _1 1:11 end",
        ),
        ("α = β//γ\nδ", "1:1 α 1:3 s11 1:5 β 2:1 δ 2:2 end"),
        (
            "{ $ 170141183460469231731687303715884105728",
            "1:3: bad character",
        ),
        (
            "{ 170141183460469231731687303715884105728 $",
            "1:3: long number",
        ),
        (
            "x = -170141183460469231731687303715884105727;",
            "1:1 x 1:3 s11 1:5 s16 1:6 170141183460469231731687303715884105727 1:45 s7 1:46 end",
        ),
        ("fn fn __________________________() { }", "1:7: long name"),
        (
            "_________________________",
            "1:1 _________________________ 1:26 end",
        ),
        (
            "a123456789b123456789c123456789d123456789",
            "1:1 a123456789b123456789c123456789d123456789 1:41 end",
        ),
        (
            "a123456789b123456789c123456789d123456789e",
            "1:1: long name",
        ),
        ("ääääääab", "1:1 ääääääab 1:9 end"),
        ("ääääääabc", "1:1: long name"),
        ("// ääääääabc", "1:13 end"),
    ];
    for (text, expected) in cases {
        assert_eq!(rt;
            answer(&rt, rt.alloc(), text.as_bytes())?.as_str(),
            expected,
            "{text}"
        );
    }
    Ok(())
}

#[test]
fn bytes_that_are_no_utf8_come_first(rt: HostRuntime) -> Result<(), Fail> {
    let cases = [
        (b"fn \xff $".as_slice(), "bad UTF-8 at 3"),
        (b"$ // \xc3", "bad UTF-8 at 5"),
        (b"\xce\xb1\xed\xa0\x80", "bad UTF-8 at 2"),
    ];
    for (bytes, expected) in cases {
        assert_eq!(rt; answer(&rt, rt.alloc(), bytes)?.as_str(), expected);
    }
    Ok(())
}

/// The signs in the order of their numbers.
const SIGNS: &str = "( ) { } [ ] , ; : . # = := |-> ** + - * / % < <= > >= == != && || ==> !
struct pred ghost fn opens requires returns ensures decreases let mut if else while invariant with with_invariants
assert by return par not true false null emp pure exists slice block lock_alive lock_held inv fold unfold rewrite as
share gather split join at focus unfocus drop_ alloc alloc_array alloc_atomic new free free_array new_lock acquire
release free_lock read print atomic_read atomic_write cas galloc new_invariant i64 bool ref atomic lock int perm gref
iname";

#[test]
fn signs_have_their_numbers(rt: HostRuntime) -> Result<(), Fail> {
    assert!(rt; SIGNS.len() < 1000);
    let tokens = lex(rt.alloc(), SIGNS.as_bytes())?;
    assert_eq!(rt; tokens.len(), 102);
    for k in 0..101u8 {
        assert!(rt;
            matches!(tokens.at(u32::from(k)).kind, Kind::Sign(number) if number == k),
            "{k}"
        );
    }
    assert!(rt; matches!(tokens.at(101).kind, Kind::End));
    Ok(())
}

#[test]
fn zeros_in_front_do_not_count(rt: HostRuntime) -> Result<(), Fail> {
    let mut digits = vec![in rt.alloc(); b'0'; 300]?;
    digits.push(b'7')?;
    assert_eq!(rt;
        answer(&rt, rt.alloc(), digits.as_slice())?.as_str(),
        "1:1 7 1:302 end"
    );
    Ok(())
}

#[test]
fn bytes_count_from_zero(rt: HostRuntime) -> Result<(), Fail> {
    let tokens = lex(rt.alloc(), "α\n β".as_bytes())?;
    assert_eq!(rt; tokens.len(), 3);
    assert_eq!(rt; place(tokens.at(0).pos), (1, 1, 0));
    assert_eq!(rt; place(tokens.at(1).pos), (2, 2, 4));
    assert_eq!(rt; place(tokens.at(2).pos), (2, 3, 6));
    Ok(())
}
