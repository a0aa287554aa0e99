mod texts;

use crate::error::ReadCError;
use crate::read::read_c;
use c_syntax::{CCell, CExpr, CFun, CProgram, CStmt, CType, Local};
use std::alloc::Global;
use std::process::Abort;
use std::test::*;
use texts::{FIRST_PROGRAM, LEAST_NUMBER, PRELUDE, RACING_THREADS, STRANGE_PROGRAM};

const END: &str = "int main(void) {\n  f_main();\n  return 0;\n}\n";

const MAIN: &str = "static void f_main(void) {\n}\n";

const STRUCTURES: &str =
    "struct s_n {\n  int64_t m_v;\n  struct s_n *m_k;\n};\nstruct s_m {\n  bool m_b;\n};\n";

const HEADS: &str =
    "static int64_t f_f(int64_t v_a_1, struct s_n *v_p_2);\nstatic void f_g(int64_t v_a_1);\nstatic void f_main(void);\n";

const OTHERS: &str =
    "static int64_t f_f(int64_t v_a_1, struct s_n *v_p_2) {\n  return v_a_1;\n}\nstatic void f_g(int64_t v_a_1) {\n}\n";

/// A thread that begins with a call of the function `f`.
const STARTER: &str =
    "struct a_f {\n  char a_0;\n  int64_t a_1;\n  struct s_n *a_2;\n};\nstatic int t_f(void *p) {\n  struct a_f *q = p;\n  struct a_f c = *q;\n  free(q);\n  f_f(c.a_1, c.a_2);\n  return 0;\n}\n";

fn read(rt: &impl Abort, alloc: Global, text: &[u8]) -> Result<CProgram, ReadCError> {
    assert!(rt; text.len() < 100_000);
    read_c(alloc, text)
}

/// The place at which a text was refused.
fn refused_at(rt: &impl Abort, alloc: Global, text: &[u8]) -> Option<u32> {
    match read(rt, alloc, text) {
        Err(ReadCError::NotFragment(place)) => Some(place),
        _ => None,
    }
}

/// Behind the prelude these lines are refused at the end of that front.
fn refused_behind(rt: &impl Abort, alloc: Global, front: &str, behind: &str) -> Result<(), Fail> {
    let text = format!(in alloc; "{}{}{}", PRELUDE, front, behind)?;
    let place = PRELUDE.len() + front.len();
    assert!(rt; place < 100_000);
    assert_eq!(rt; refused_at(rt, alloc, text.as_bytes()), Some(place as u32));
    Ok(())
}

/// In the body of `main` of a text with structures and other functions.
fn body_refused(
    rt: &impl Abort,
    alloc: Global,
    starter: &str,
    front: &str,
    behind: &str,
) -> Result<(), Fail> {
    let lines = format!(in alloc;
        "{}{}{}{}static void f_main(void) {{\n{}",
        STRUCTURES, HEADS, starter, OTHERS, front
    )?;
    let rest = format!(in alloc; "{}}}\n{}", behind, END)?;
    refused_behind(rt, alloc, &lines, &rest)
}

fn is_local(local: &Local, name: &str, number: u32) -> bool {
    local.name.text() == name && local.number == number
}

fn is_var(e: &CExpr, name: &str, number: u32) -> bool {
    matches!(e, CExpr::Var(local) if is_local(local, name, number))
}

fn is_first_body(body: &[CStmt]) -> bool {
    match body {
        [
            CStmt::New(CType::PtrI64, made, CExpr::Int(5)),
            CStmt::Load(CType::I64, loaded, CCell::Whole(base)),
            CStmt::Print(printed),
            CStmt::Free(freed),
        ] => {
            is_local(made, "r", 1)
                && is_local(loaded, "v", 2)
                && is_local(base, "r", 1)
                && is_var(printed, "v", 2)
                && is_local(freed, "r", 1)
        }
        _ => false,
    }
}

fn is_plain(f: &CFun, name: &str) -> bool {
    f.name.text() == name && matches!(&f.result, CType::Void) && f.params.as_slice().is_empty()
}

#[test]
fn the_first_program(rt: HostRuntime) -> Result<(), Fail> {
    let alloc = rt.alloc();
    let text = format!(in alloc; "{}{}", PRELUDE, FIRST_PROGRAM)?;
    let program = read(&rt, alloc, text.as_bytes())?;
    assert!(rt; program.structs.as_slice().is_empty());
    match program.funs.as_slice() {
        [main] => {
            assert!(rt; is_plain(main, "main"));
            assert!(rt; is_first_body(main.body.as_slice()));
        }
        _ => Err("one function")?,
    }
    Ok(())
}

#[test]
fn a_text_that_is_cut(rt: HostRuntime) -> Result<(), Fail> {
    let alloc = rt.alloc();
    let text = format!(in alloc; "{}{}", PRELUDE, FIRST_PROGRAM)?;
    let bytes = text.as_bytes();
    assert!(rt; bytes.len() < 100_000);
    for end in 0..bytes.len() {
        assert_eq!(rt; refused_at(&rt, alloc, &bytes[..end]), Some(end as u32));
    }
    Ok(())
}

/// A function of one parameter, `r`.
fn takes_r(f: &CFun, name: &str) -> bool {
    let takes = match f.params.as_slice() {
        [p] => is_local(&p.local, "r", 1) && matches!(&p.kind, CType::PtrI64),
        _ => false,
    };
    takes && f.name.text() == name && matches!(&f.result, CType::Void)
}

fn stores_in_r(s: &CStmt, n: i64) -> bool {
    match s {
        CStmt::Store(CCell::Whole(base), CExpr::Int(k)) => is_local(base, "r", 1) && *k == n,
        _ => false,
    }
}

fn is_alone_r(args: &[CExpr]) -> bool {
    matches!(args, [e] if is_var(e, "r", 1))
}

fn runs_both(s: &CStmt) -> bool {
    match s {
        CStmt::Par(f, args, g, others) => {
            f.text() == "a"
                && is_alone_r(args.as_slice())
                && g.text() == "b"
                && is_alone_r(others.as_slice())
        }
        _ => false,
    }
}

#[test]
fn two_racing_threads(rt: HostRuntime) -> Result<(), Fail> {
    let alloc = rt.alloc();
    let text = format!(in alloc; "{}{}", PRELUDE, RACING_THREADS)?;
    let program = read(&rt, alloc, text.as_bytes())?;
    let [a, b, main] = program.funs.as_slice() else {
        return Err("three functions")?;
    };
    assert!(rt; takes_r(a, "a") && takes_r(b, "b") && is_plain(main, "main"));
    let [CStmt::Print(CExpr::Int(1)), store] = a.body.as_slice() else {
        return Err("a line that prints and one that stores")?;
    };
    assert!(rt; stores_in_r(store, 1));
    let [other] = b.body.as_slice() else {
        return Err("a line that stores")?;
    };
    assert!(rt; stores_in_r(other, 2));
    let [
        CStmt::New(CType::PtrI64, r, CExpr::Int(0)),
        par,
        CStmt::Free(freed),
    ] = main.body.as_slice()
    else {
        return Err("the two threads")?;
    };
    assert!(rt; is_local(r, "r", 1) && runs_both(par) && is_local(freed, "r", 1));
    Ok(())
}

#[test]
fn one_blank_more(rt: HostRuntime) -> Result<(), Fail> {
    let alloc = rt.alloc();
    let (front, behind) = RACING_THREADS.split_once("INT64_C(1)").ok_or("a literal")?;
    let behind = format!(in alloc; " INT64_C(1){}", behind)?;
    refused_behind(&rt, alloc, front, &behind)
}

#[test]
fn the_least_number(rt: HostRuntime) -> Result<(), Fail> {
    let alloc = rt.alloc();
    let text = format!(in alloc; "{}{}", PRELUDE, LEAST_NUMBER)?;
    let program = read(&rt, alloc, text.as_bytes())?;
    let [main] = program.funs.as_slice() else {
        return Err("one function")?;
    };
    let [
        CStmt::Let(CType::I64, first, CExpr::Int(n)),
        CStmt::Let(CType::I64, second, copied),
        CStmt::Print(printed),
    ] = main.body.as_slice()
    else {
        return Err("three lines")?;
    };
    assert_eq!(rt; *n, i64::MIN);
    assert!(rt; is_local(first, "α", 1) && is_local(second, "α", 2));
    assert!(rt; is_var(copied, "α", 1) && is_var(printed, "α", 2));
    Ok(())
}

/// The program of a text with structures and other functions, and those lines in the body of `main`.
fn with_body(rt: &impl Abort, alloc: Global, lines: &str) -> Result<CProgram, Fail> {
    let front = format!(in alloc; "{}{}{}{}", PRELUDE, STRUCTURES, HEADS, OTHERS)?;
    let text = format!(in alloc;
        "{}static void f_main(void) {{\n{}}}\n{}",
        front, lines, END
    )?;
    Ok(read(rt, alloc, text.as_bytes())?)
}

/// The statements of the last function.
fn last_body(program: &CProgram) -> &[CStmt] {
    match program.funs.as_slice() {
        [.., main] => main.body.as_slice(),
        [] => &[],
    }
}

/// Whether it is that often a negation of the literal.
fn is_negated(e: &CExpr, times: u32, n: i64) -> bool {
    match e {
        CExpr::Neg(inner) => times > 0 && is_negated(inner, times - 1, n),
        CExpr::Int(k) => times == 0 && *k == n,
        _ => false,
    }
}

#[test]
fn negations_and_literals(rt: HostRuntime) -> Result<(), Fail> {
    let alloc = rt.alloc();
    let lines =
        "  p_print((-INT64_C(0)));\n  p_print((-INT64_C(7)));\n  p_print((-(-INT64_C(7))));\n";
    let program = with_body(&rt, alloc, lines)?;
    let [CStmt::Print(zero), CStmt::Print(seven), CStmt::Print(twice)] = last_body(&program) else {
        return Err("three lines that print")?;
    };
    assert!(rt; is_negated(zero, 1, 0));
    assert!(rt; is_negated(seven, 0, -7));
    assert!(rt; is_negated(twice, 1, -7));
    Ok(())
}

#[test]
fn an_older_local_of_one_name(rt: HostRuntime) -> Result<(), Fail> {
    let alloc = rt.alloc();
    let lines = "  int64_t v_x_1 = INT64_C(1);\n  int64_t v_x_2 = v_x_1;\n  p_print(v_x_1);\n";
    let program = with_body(&rt, alloc, lines)?;
    let [_, CStmt::Let(_, second, copied), CStmt::Print(printed)] = last_body(&program) else {
        return Err("three lines")?;
    };
    assert!(rt; is_local(second, "x", 2) && is_var(copied, "x", 1) && is_var(printed, "x", 1));
    Ok(())
}

/// The first values are part of the statement that makes the block, and one more such line is a store.
#[test]
fn first_values(rt: HostRuntime) -> Result<(), Fail> {
    let alloc = rt.alloc();
    let lines =
        "  struct s_n *v_p_1 = p_get(sizeof(struct s_n));\n  v_p_1->m_v = INT64_C(1);\n  v_p_1->m_k = NULL;\n  v_p_1->m_v = INT64_C(2);\n";
    let program = with_body(&rt, alloc, lines)?;
    let [
        CStmt::NewStruct(p, name, inits),
        CStmt::Store(CCell::Field(base, member), CExpr::Int(2)),
    ] = last_body(&program)
    else {
        return Err("a block and a store")?;
    };
    assert!(rt; is_local(p, "p", 1) && name.text() == "n");
    assert!(rt; is_local(base, "p", 1) && member.text() == "v");
    let [v, k] = inits.as_slice() else {
        return Err("two first values")?;
    };
    assert!(rt; v.name.text() == "v" && matches!(&v.value, CExpr::Int(1)));
    assert!(rt; k.name.text() == "k" && matches!(&k.value, CExpr::Null));
    Ok(())
}

#[test]
fn a_strange_program(rt: HostRuntime) -> Result<(), Fail> {
    let alloc = rt.alloc();
    let text = format!(in alloc; "{}{}", PRELUDE, STRANGE_PROGRAM)?;
    let program = read(&rt, alloc, text.as_bytes())?;
    assert_eq!(rt; program.structs.as_slice().len(), 2);
    assert_eq!(rt; program.funs.as_slice().len(), 3);
    assert_eq!(rt; last_body(&program).len(), 16);
    Ok(())
}

#[test]
fn the_forms_are_left(rt: HostRuntime) -> Result<(), Fail> {
    let alloc = rt.alloc();
    let cases = [
        (
            "  while (1) {\n    int64_t v_x_1 = ",
            "INT64_C(1);\n    if (!true) {\n      break;\n    }\n  }\n",
        ),
        (
            "  while (1) {\n    int64_t v_x_1 = v_y_2",
            ";\n    if (!true) {\n      break;\n    }\n  }\n",
        ),
        ("  int64_t v_x_0", "1 = INT64_C(1);\n"),
    ];
    for (front, behind) in cases {
        body_refused(&rt, alloc, "", front, behind)?;
    }
    let front = format!(in alloc; "{}{}{}static void f_h(void)", STRUCTURES, HEADS, STARTER)?;
    let behind = format!(in alloc; ";\n{}{}{}", OTHERS, MAIN, END)?;
    refused_behind(&rt, alloc, &front, &behind)
}

#[test]
fn a_rule_is_broken_in_a_line(rt: HostRuntime) -> Result<(), Fail> {
    let alloc = rt.alloc();
    let cases = [
        ("  int64_t ", "v_x_2 = true;\n"),
        (
            "  struct s_n *v_p_1 = p_get(sizeof(struct ",
            "s_m));\n  v_p_1->m_b = true;\n",
        ),
        (
            "  struct s_m *v_p_1 = p_get(sizeof(struct s_m));\n  v_p_1->m_b = true;\n  int64_t v_x_2 = v_p_1->",
            "m_b;\n",
        ),
        (
            "  struct s_m *v_p_1 = p_get(sizeof(struct s_m));\n  v_p_1->m_b = true;\n  ",
            "v_p_1[INT64_C(0)] = true;\n",
        ),
        (
            "  {\n    struct ",
            "a_h *q = p_get(sizeof(struct a_h));\n    thrd_t t = p_fork(t_h, q);\n    f_g(INT64_C(1));\n    p_join(t);\n  }\n",
        ),
    ];
    for (front, behind) in cases {
        body_refused(&rt, alloc, "", front, behind)?;
    }
    let behind =
        "a_f *q = p_get(sizeof(struct a_f));\n    q->a_1 = INT64_C(1);\n    q->a_2 = NULL;\n    thrd_t t = p_fork(t_f, q);\n    f_g(INT64_C(1));\n    p_join(t);\n  }\n";
    body_refused(&rt, alloc, STARTER, "  {\n    struct ", behind)
}

#[test]
fn a_return_at_another_place(rt: HostRuntime) -> Result<(), Fail> {
    let alloc = rt.alloc();
    let cases = [
        (
            "  if (true) {\n    return ",
            "INT64_C(1);\n  } else {\n  }\n",
        ),
        (
            "  while (1) {\n    if (!true) {\n      break;\n    }\n    return ",
            "INT64_C(1);\n  }\n",
        ),
        ("  return ", "INT64_C(1);\n"),
    ];
    for (front, behind) in cases {
        let lines = format!(in alloc;
            "static int64_t f_f(void);\nstatic void f_main(void);\nstatic int64_t f_f(void) {{\n{}",
            front
        )?;
        let rest = format!(in alloc; "{}  return INT64_C(2);\n}}\n{}{}", behind, MAIN, END)?;
        refused_behind(&rt, alloc, &lines, &rest)?;
    }
    Ok(())
}

#[test]
fn a_declaration_is_wrong(rt: HostRuntime) -> Result<(), Fail> {
    let alloc = rt.alloc();
    let arms = format!(in alloc;
        "static bool f_g(void);\n{}static bool f_g(void) {{\n  if (true) {{\n    return true;\n  }} else {{\n    return true;\n  }}\n}}\n{}",
        MAIN, END
    )?;
    refused_behind(&rt, alloc, "static void f_main(void);\n", &arms)?;
    let front =
        "static void f_g(void);\nstatic void f_main(void);\nstruct a_g {\n  char a_0;\n};\n";
    let behind = format!(in alloc;
        "static int t_g(void *p) {{\n  struct a_g *q = p;\n  struct a_g c = *q;\n  free(q);\n  f_main();\n  return 0;\n}}\n{}{}{}",
        "static void f_g(void) {\n}\nstatic void f_main(void) {\n",
        "  {\n    struct a_g *q = p_get(sizeof(struct a_g));\n    thrd_t t = p_fork(t_g, q);\n    f_g();\n    p_join(t);\n  }\n}\n",
        END
    )?;
    refused_behind(&rt, alloc, front, &behind)
}

/// That text so often.
fn often(alloc: Global, text: &str, times: u32) -> Result<String, Fail> {
    let mut all = String::new(alloc);
    for _ in 0..times {
        all.push_str(text)?;
    }
    Ok(all)
}

/// A body that begins with so many blocks in one another, with a line in the last.
fn nested(alloc: Global, blocks: u32, line: &str) -> Result<(String, String), Fail> {
    let mut front = String::new(alloc);
    let mut behind = String::from_str(alloc, line)?;
    for level in 1..=blocks {
        let blanks = often(alloc, "  ", level)?;
        front = format!(in alloc; "{}{}if (true) {{\n", front, blanks)?;
    }
    for back in 0..blocks {
        let blanks = often(alloc, "  ", blocks - back)?;
        behind = format!(in alloc; "{}{}}} else {{\n{}}}\n", behind, blanks, blanks)?;
    }
    Ok((front, behind))
}

/// A function's block is the first of 128.
#[test]
fn blocks_in_blocks(rt: HostRuntime) -> Result<(), Fail> {
    let alloc = rt.alloc();
    let (front, behind) = nested(alloc, 127, "")?;
    let lines = format!(in alloc; "{}{}", front, behind)?;
    assert_eq!(rt; last_body(&with_body(&rt, alloc, &lines)?).len(), 1);
    let blanks = often(alloc, "  ", 128)?;
    let line = format!(in alloc;
        "while (1) {{\n{}  if (!true) {{\n{}    break;\n{}  }}\n{}}}\n",
        blanks, blanks, blanks, blanks
    )?;
    let (front, behind) = nested(alloc, 127, &line)?;
    let front = format!(in alloc; "{}{}", front, blanks)?;
    body_refused(&rt, alloc, "", &front, &behind)
}

#[test]
fn brackets_in_brackets(rt: HostRuntime) -> Result<(), Fail> {
    let alloc = rt.alloc();
    let front = often(alloc, "(!", 128)?;
    let behind = often(alloc, ")", 128)?;
    let lines = format!(in alloc; "  bool v_x_1 = {}true{};\n", front, behind)?;
    assert_eq!(rt; last_body(&with_body(&rt, alloc, &lines)?).len(), 1);
    let front = format!(in alloc; "  bool v_x_1 = {}", front)?;
    let behind = format!(in alloc; "(!true){};\n", behind)?;
    body_refused(&rt, alloc, "", &front, &behind)
}
