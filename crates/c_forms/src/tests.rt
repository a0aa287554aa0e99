mod texts;

use crate::error::FormsError;
use crate::exprs::expr;
use crate::lines::{bind_bool, line_f, line_p, line_v};
use crate::names::{name, name_line};
use crate::reading::read_forms;
use crate::source::Source;
use crate::stmt::{Maker, Right, Stmt};
use crate::word::{Cell, Expr, Local, Number};
use crate::words::decimal_number;
use c_syntax::CType;
use pl_readers::ReadError;
use std::alloc::Global;
use std::process::Abort;
use std::test::*;
use texts::{FIRST_PROGRAM, OTHER_FORMS, PRELUDE, RACING_THREADS};

/// Whether a text was read, and how many bytes are left.
fn left<T: Drop>(read: Result<(T, &[u8]), ReadError>) -> Option<(bool, usize)> {
    match read {
        Ok((_, rest)) => Some((true, rest.len())),
        Err(ReadError::Stop(stop)) => Some((false, stop.left)),
        Err(ReadError::Memory) => None,
    }
}

#[test]
fn names_are_read(rt: HostRuntime) -> Result<(), Fail> {
    let alloc = rt.alloc();
    let cases = [
        (b"let(".as_slice(), false, 1),
        (b"lets(", true, 1),
        (b"1(", false, 2),
        (b"a__b(", true, 1),
        (b"_u0003b1(", true, 1),
        (b"_u0003B1(", false, 3),
        (b"x_u000041(", false, 3),
        (b"x_u", false, 0),
    ];
    for (text, read, rest) in cases {
        assert!(rt; left(name(alloc, text)) == Some((read, rest)));
    }
    let cases = [
        (b"let_1".as_slice(), false, 1),
        (b"let__x_1", true, 1),
        (b"x_u000041_1", false, 4),
        (b"_1", false, 1),
    ];
    for (text, read, rest) in cases {
        assert!(rt; left(name_line(alloc, text)) == Some((read, rest)));
    }
    Ok(())
}

#[test]
fn numbers_are_read(rt: HostRuntime) -> Result<(), Fail> {
    let alloc = rt.alloc();
    assert!(rt; matches!(decimal_number(alloc, b"01"), Ok((Number::Small(0), b"1"))));
    assert!(rt;
        matches!(
            decimal_number(alloc, b"4294967295;"),
            Ok((Number::Small(4294967295), b";"))
        )
    );
    assert!(rt;
        matches!(
            decimal_number(alloc, b"4294967296;"),
            Ok((Number::Long(_), b";"))
        )
    );
    assert!(rt; left(decimal_number(alloc, b"x")) == Some((false, 1)));
    Ok(())
}

#[test]
fn expressions_are_read(rt: HostRuntime) -> Result<(), Fail> {
    let alloc = rt.alloc();
    let cases = [
        (b"INT64_C(9223372036854775807)".as_slice(), true, 0),
        (b"INT64_C(9223372036854775808)", false, 2),
        (b"(-INT64_C(9223372036854775808))", false, 3),
        (b"(-INT64_C(9223372036854775807) - INT64_C(1))", true, 0),
        (b"(-INT64_C(7) - INT64_C(1))", false, 14),
        (b"(-INT64_C(0))", true, 0),
        (b"(-(-INT64_C(7)))", true, 0),
        (b"(v_x_1 <= (!false))", true, 0),
        (b"(v_x_1  < NULL)", false, 8),
        (b"(true && ", false, 0),
    ];
    for (text, read, rest) in cases {
        assert!(rt; left(expr(alloc, text)) == Some((read, rest)));
    }
    Ok(())
}

#[test]
fn lines_are_read(rt: HostRuntime) -> Result<(), Fail> {
    let alloc = rt.alloc();
    assert!(rt; left(bind_bool(alloc, b"bool v_x_1 = p_read();\n")) == Some((false, 8)));
    assert!(rt;
        left(bind_bool(alloc, b"bool *v_x_1 = p_new_i64(INT64_C(1));\n")) == Some((true, 0))
    );
    assert!(rt; left(line_v(alloc, b"void v_x_1 = INT64_C(1);\n")) == Some((true, 0)));
    assert!(rt; left(line_v(alloc, b"v_a_1[INT64_C(0)] = v_p_2->m_f;\n")) == Some((false, 7)));
    assert!(rt; left(line_p(alloc, b"p_print( INT64_C(1));\n")) == Some((false, 14)));
    assert!(rt; left(line_f(alloc, b"f_let();\n")) == Some((false, 4)));
    Ok(())
}

fn read(rt: &impl Abort, alloc: Global, text: &[u8]) -> Result<Source, FormsError> {
    assert!(rt; text.len() < 10_000);
    read_forms(alloc, text)
}

/// The place at which a text was refused.
fn refused_at(rt: &impl Abort, alloc: Global, text: &[u8]) -> Option<u32> {
    match read(rt, alloc, text) {
        Err(FormsError::NotForms(place)) => Some(place),
        _ => None,
    }
}

fn is_local(local: &Local, name: &str, number: u32) -> bool {
    local.name.text() == name && matches!(&local.number, Number::Small(n) if *n == number)
}

fn makes_five(right: &Right) -> bool {
    matches!(right, Right::New(Maker::I64, Expr::Int(5)))
}

fn loads_r(right: &Right) -> bool {
    matches!(right, Right::Load(Cell::Whole(base)) if is_local(base, "r", 1))
}

fn is_first_body(body: &[Stmt]) -> bool {
    match body {
        [
            Stmt::Bind(CType::PtrI64, r, made),
            Stmt::Bind(CType::I64, v, loaded),
            Stmt::Print(Expr::Var(printed)),
            Stmt::Free(freed),
        ] => {
            is_local(r, "r", 1)
                && makes_five(made)
                && is_local(v, "v", 2)
                && loads_r(loaded)
                && is_local(printed, "v", 2)
                && is_local(freed, "r", 1)
        }
        _ => false,
    }
}

#[test]
fn the_first_program_is_read(rt: HostRuntime) -> Result<(), Fail> {
    let alloc = rt.alloc();
    let text = format!(in alloc; "{}{}", PRELUDE, FIRST_PROGRAM)?;
    let source = read(&rt, alloc, text.as_bytes())?;
    assert!(rt; source.structs.as_slice().is_empty() && source.starters.as_slice().is_empty());
    match (source.prototypes.as_slice(), source.funs.as_slice()) {
        ([head], [main]) => {
            assert_eq!(rt; head.name.text(), "main");
            assert_eq!(rt; main.head.name.text(), "main");
            assert!(rt; is_first_body(main.body.as_slice()));
        }
        _ => Err("one function")?,
    }
    Ok(())
}

/// How many structures, prototypes, starters and functions a text has.
fn groups(source: &Source) -> [usize; 4] {
    [
        source.structs.as_slice().len(),
        source.prototypes.as_slice().len(),
        source.starters.as_slice().len(),
        source.funs.as_slice().len(),
    ]
}

#[test]
fn whole_texts_are_read(rt: HostRuntime) -> Result<(), Fail> {
    let alloc = rt.alloc();
    let cases = [
        (FIRST_PROGRAM, [0, 1, 0, 1]),
        (RACING_THREADS, [0, 3, 1, 3]),
        (OTHER_FORMS, [1, 2, 0, 2]),
    ];
    for (lines, wanted) in cases {
        let text = format!(in alloc; "{}{}", PRELUDE, lines)?;
        assert_eq!(rt; groups(&read(&rt, alloc, text.as_bytes())?), wanted);
    }
    Ok(())
}

#[test]
fn a_text_is_refused_at_the_first_wrong_byte(rt: HostRuntime) -> Result<(), Fail> {
    let alloc = rt.alloc();
    let cases = [
        (
            "static void f_main(void) {\n  p_print(",
            " INT64_C(1));\n}\n",
        ),
        ("static void f_main(void) {\n ", "p_print(INT64_C(1));\n}\n"),
        ("static void f_main(void) {\n  if (true) {\n  }", "\n}\n"),
        (
            "static void f_main(void) {\n}\nstatic void f_a(void)",
            ";\n",
        ),
        (
            "static void f_main(void);\nstruct ",
            "s_p {\n  bool m_b;\n};\n",
        ),
        ("struct s_p {\n", "};\n"),
        (FIRST_PROGRAM, "\n"),
    ];
    for (front, behind) in cases {
        let text = format!(in alloc; "{}{}{}", PRELUDE, front, behind)?;
        let place = PRELUDE.len() + front.len();
        assert!(rt; place < 10_000);
        assert_eq!(rt; refused_at(&rt, alloc, text.as_bytes()), Some(place as u32));
    }
    Ok(())
}

#[test]
fn a_text_that_is_cut_is_refused_at_its_end(rt: HostRuntime) -> Result<(), Fail> {
    let alloc = rt.alloc();
    for lines in [FIRST_PROGRAM, RACING_THREADS, OTHER_FORMS] {
        let text = format!(in alloc; "{}{}", PRELUDE, lines)?;
        let bytes = text.as_bytes();
        assert!(rt; bytes.len() < 10_000);
        for end in 0..bytes.len() {
            assert_eq!(rt; refused_at(&rt, alloc, &bytes[..end]), Some(end as u32));
        }
    }
    Ok(())
}
