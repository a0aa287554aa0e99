mod texts;

use crate::breach::first_breach;
use c_forms::read_forms;
use std::alloc::Global;
use std::process::Abort;
use std::test::*;
use texts::{FIRST_PROGRAM, OTHER_FORMS, PRELUDE, RACING_THREADS};

const END: &str = "int main(void) {\n  f_main();\n  return 0;\n}\n";

const MAIN: &str = "static void f_main(void) {\n}\n";

const STRUCTURE: &str = "struct s_n {\n  int64_t m_v;\n  struct s_n *m_k;\n};\n";

const HEADS: &str =
    "static int64_t f_f(int64_t v_a_1, struct s_n *v_p_2);\nstatic void f_g(int64_t v_a_1);\nstatic void f_main(void);\n";

const OTHERS: &str =
    "static int64_t f_f(int64_t v_a_1, struct s_n *v_p_2) {\n  return v_a_1;\n}\nstatic void f_g(int64_t v_a_1) {\n}\n";

const STARTER: &str =
    "struct a_g {\n  char a_0;\n  int64_t a_1;\n};\nstatic int t_g(void *p) {\n  struct a_g *q = p;\n  struct a_g c = *q;\n  free(q);\n  f_g(c.a_1);\n  return 0;\n}\n";

/// The first breach in a text of the forms.
fn breach_in(rt: &impl Abort, alloc: Global, text: &str) -> Result<Option<u32>, Fail> {
    assert!(rt; text.len() < 10_000);
    let source = read_forms(alloc, text.as_bytes())?;
    Ok(first_breach(alloc, &source)?)
}

/// A text whose declarations break a rule behind that front.
fn declarations_break(
    rt: &impl Abort,
    alloc: Global,
    front: &str,
    behind: &str,
) -> Result<(), Fail> {
    let text = format!(in alloc; "{}{}{}{}", PRELUDE, front, behind, END)?;
    let place = PRELUDE.len() + front.len();
    assert!(rt; place < 10_000);
    assert_eq!(rt; breach_in(rt, alloc, &text)?, Some(place as u32));
    Ok(())
}

/// A text with a structure and other functions, whose `main` breaks a rule behind that front.
fn body_breaks(
    rt: &impl Abort,
    alloc: Global,
    starter: &str,
    front: &str,
    behind: &str,
) -> Result<(), Fail> {
    let lines = format!(in alloc;
        "{}{}{}{}static void f_main(void) {{\n{}",
        STRUCTURE, HEADS, starter, OTHERS, front
    )?;
    let rest = format!(in alloc; "{}}}\n", behind)?;
    declarations_break(rt, alloc, &lines, &rest)
}

#[test]
fn programs_have_no_breach(rt: HostRuntime) -> Result<(), Fail> {
    let alloc = rt.alloc();
    for lines in [FIRST_PROGRAM, RACING_THREADS, OTHER_FORMS] {
        let text = format!(in alloc; "{}{}", PRELUDE, lines)?;
        assert_eq!(rt; breach_in(&rt, alloc, &text)?, None);
    }
    Ok(())
}

#[test]
fn names_and_numbers_of_locals(rt: HostRuntime) -> Result<(), Fail> {
    let alloc = rt.alloc();
    let cases = [
        ("  p_print(", "v_x_1);\n"),
        ("  int64_t v_x_1 = INT64_C(1);\n  p_print(", "v_x_2);\n"),
        ("  int64_t v_x_1 = ", "v_x_1;\n"),
        (
            "  if (true) {\n    int64_t v_x_1 = INT64_C(1);\n  } else {\n  }\n  p_print(",
            "v_x_1);\n",
        ),
        ("  p_print((true + ", "v_x_1));\n"),
        ("  int64_t ", "v_x_0 = INT64_C(1);\n"),
        ("  int64_t ", "v_x_2 = INT64_C(1);\n"),
        ("  int64_t ", "v_x_4294967297 = INT64_C(1);\n"),
        ("  void ", "v_x_1 = INT64_C(1);\n"),
        ("  struct ", "s_m *v_x_1 = p_get(sizeof(struct s_n));\n"),
    ];
    for (front, behind) in cases {
        body_breaks(&rt, alloc, "", front, behind)?;
    }
    Ok(())
}

#[test]
fn sorts_of_expressions(rt: HostRuntime) -> Result<(), Fail> {
    let alloc = rt.alloc();
    let cases = [
        ("  p_print(", "true);\n"),
        ("  bool v_x_1 = (", "true < INT64_C(1));\n"),
        ("  bool v_x_1 = (true && ", "INT64_C(1));\n"),
        ("  bool v_x_1 = ", "(true == INT64_C(1));\n"),
        ("  bool v_x_1 = (", "NULL == NULL);\n"),
        ("  bool v_x_1 = (", "NULL == INT64_C(1));\n"),
        (
            "  struct p_lock *v_l_1 = p_lock_new();\n  bool v_x_2 = (v_l_1 == ",
            "NULL);\n",
        ),
        ("  int64_t v_x_1 = ", "true;\n"),
        ("  int64_t *v_x_1 = ", "NULL;\n"),
        (
            "  while (1) {\n    if (!",
            "INT64_C(1)) {\n      break;\n    }\n  }\n",
        ),
    ];
    for (front, behind) in cases {
        body_breaks(&rt, alloc, "", front, behind)?;
    }
    Ok(())
}

#[test]
fn lines(rt: HostRuntime) -> Result<(), Fail> {
    let alloc = rt.alloc();
    let cases = [
        (
            "  int64_t *v_r_1 = p_new_i64(INT64_C(1));\n  bool v_x_2 = *",
            "v_r_1;\n",
        ),
        (
            "  p_atomic *v_c_1 = p_new_atomic(INT64_C(1));\n  ",
            "v_c_1[INT64_C(0)] = INT64_C(1);\n",
        ),
        ("  bool *", "v_x_1 = p_new_i64(INT64_C(1));\n"),
        ("  bool ", "v_x_1 = p_lock_new();\n"),
        ("  int64_t v_x_1 = INT64_C(1);\n  free(", "v_x_1);\n"),
        ("  ", "f_h();\n"),
        ("  ", "f_f(INT64_C(1), NULL);\n"),
        ("  ", "f_g();\n"),
        ("  f_g(", "true);\n"),
        ("  bool v_x_1 = ", "f_f(INT64_C(1), NULL);\n"),
        ("  return ", "INT64_C(1);\n"),
        (
            "  struct s_n *",
            "v_p_1 = p_get(sizeof(struct s_n));\n  p_print(INT64_C(1));\n",
        ),
        (
            "  struct s_n *v_p_1 = p_get(sizeof(struct s_n));\n  v_p_1->",
            "m_k = NULL;\n  v_p_1->m_v = INT64_C(1);\n",
        ),
        (
            "  struct s_n *v_p_1 = p_get(sizeof(struct s_n));\n  v_p_1->m_v = INT64_C(1);\n  v_p_1->m_k = ",
            "v_p_1;\n",
        ),
    ];
    for (front, behind) in cases {
        body_breaks(&rt, alloc, "", front, behind)?;
    }
    Ok(())
}

#[test]
fn threads(rt: HostRuntime) -> Result<(), Fail> {
    let alloc = rt.alloc();
    let cases = [
        (
            "  {\n    struct ",
            "a_g *q = p_get(sizeof(struct a_g));\n    thrd_t t = p_fork(t_g, q);\n    f_g(INT64_C(1));\n    p_join(t);\n  }\n",
        ),
        (
            "  {\n    struct a_g *q = p_get(sizeof(struct ",
            "a_f));\n    q->a_1 = INT64_C(1);\n    thrd_t t = p_fork(t_g, q);\n    f_g(INT64_C(1));\n    p_join(t);\n  }\n",
        ),
        (
            "  {\n    struct a_g *q = p_get(sizeof(struct a_g));\n    q->",
            "a_2 = INT64_C(1);\n    thrd_t t = p_fork(t_g, q);\n    f_g(INT64_C(1));\n    p_join(t);\n  }\n",
        ),
        (
            "  {\n    struct a_g *q = p_get(sizeof(struct a_g));\n    q->a_1 = INT64_C(1);\n    q->",
            "a_2 = INT64_C(1);\n    thrd_t t = p_fork(t_g, q);\n    f_g(INT64_C(1));\n    p_join(t);\n  }\n",
        ),
        (
            "  {\n    struct a_g *q = p_get(sizeof(struct a_g));\n    q->a_1 = INT64_C(1);\n    thrd_t t = p_fork(",
            "t_f, q);\n    f_g(INT64_C(1));\n    p_join(t);\n  }\n",
        ),
        (
            "  {\n    struct a_g *q = p_get(sizeof(struct a_g));\n    q->a_1 = INT64_C(1);\n    thrd_t t = p_fork(t_g, q);\n    ",
            "f_f(INT64_C(1), NULL);\n    p_join(t);\n  }\n",
        ),
    ];
    for (front, behind) in cases {
        body_breaks(&rt, alloc, STARTER, front, behind)?;
    }
    let without =
        "a_g *q = p_get(sizeof(struct a_g));\n    q->a_1 = INT64_C(1);\n    thrd_t t = p_fork(t_g, q);\n    f_g(INT64_C(1));\n    p_join(t);\n  }\n";
    body_breaks(&rt, alloc, "", "  {\n    struct ", without)
}

#[test]
fn declarations(rt: HostRuntime) -> Result<(), Fail> {
    let alloc = rt.alloc();
    let cases = [
        (
            "struct s_a {\n  bool m_b;\n};\nstruct ",
            "s_a {\n  bool m_b;\n};\nstatic void f_main(void);\n",
        ),
        (
            "struct s_a {\n  bool m_b;\n  bool ",
            "m_b;\n};\nstatic void f_main(void);\n",
        ),
        (
            "struct s_a {\n  void ",
            "m_b;\n};\nstatic void f_main(void);\n",
        ),
        (
            "struct s_a {\n  struct ",
            "s_b *m_b;\n};\nstatic void f_main(void);\n",
        ),
        (
            "struct s_main {\n  bool m_b;\n};\nstatic void ",
            "f_main(void);\n",
        ),
        ("", "static bool f_main(void);\n"),
        ("static void f_main(void);\n", "static void f_g(void);\n"),
        (
            "static void f_main(void);\n",
            "struct a_main {\n  char a_0;\n};\nstatic int t_main(void *p) {\n  struct a_main *q = p;\n  struct a_main c = *q;\n  free(q);\n  f_main();\n  return 0;\n}\n",
        ),
    ];
    for (front, behind) in cases {
        let rest = format!(in alloc; "{}{}", behind, MAIN)?;
        declarations_break(&rt, alloc, front, &rest)?;
    }
    Ok(())
}

#[test]
fn functions(rt: HostRuntime) -> Result<(), Fail> {
    let alloc = rt.alloc();
    let cases = [
        (
            "static void f_main(void);\nstatic void f_main(void) {\n}\nstatic void ",
            "f_g(void) {\n}\n",
        ),
        (
            "",
            "static void f_main(bool v_b_1);\nstatic void f_main(bool v_b_1) {\n}\n",
        ),
        (
            "static void f_main(void);\n",
            "static bool f_g(void);\nstatic void f_main(void) {\n}\nstatic bool f_g(void) {\n}\n",
        ),
        (
            "static void f_main(void);\n",
            "static void f_g(bool v_x_1);\nstatic void f_main(void) {\n}\nstatic void f_g(bool v_y_1) {\n}\n",
        ),
        (
            "static void f_main(void);\nstatic void f_g(bool v_x_1, bool ",
            "v_x_2);\nstatic void f_main(void) {\n}\nstatic void f_g(bool v_x_1, bool v_x_2) {\n}\n",
        ),
        (
            "static void f_main(void);\nstatic void f_g(bool ",
            "v_x_2);\nstatic void f_main(void) {\n}\nstatic void f_g(bool v_x_2) {\n}\n",
        ),
        (
            "static void f_main(void);\nstatic void f_g(void ",
            "v_x_1);\nstatic void f_main(void) {\n}\nstatic void f_g(void v_x_1) {\n}\n",
        ),
    ];
    for (front, behind) in cases {
        declarations_break(&rt, alloc, front, behind)?;
    }
    Ok(())
}

#[test]
fn a_text_without_main(rt: HostRuntime) -> Result<(), Fail> {
    let alloc = rt.alloc();
    let front = format!(in alloc; "{}int main(void) {{\n  ", PRELUDE)?;
    let text = format!(in alloc; "{}f_main();\n  return 0;\n}}\n", front)?;
    assert!(rt; front.len() < 10_000);
    assert_eq!(rt; breach_in(&rt, alloc, &text)?, Some(front.len() as u32));
    Ok(())
}
