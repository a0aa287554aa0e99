//! Texts that stand in the description of the format.

mod forms;

use super::*;
use c_syntax::{
    CCell, CExpr, CFun, CInit, CMember, COp, CParam, CProgram, CStmt, CStruct, CType, Local,
};
use forms::is_program;
use pl_base::{Items, Memory, Name};
use std::alloc::Global;
use std::process::Abort;
use std::test::*;

const PRELUDE: &str = r#"#include <inttypes.h>
#include <stdatomic.h>
#include <stdbool.h>
#include <stdint.h>
#include <stdio.h>
#include <stdlib.h>
#include <threads.h>
typedef _Atomic(int64_t) p_atomic;
struct p_lock {
  atomic_int word;
};
static void *p_get(size_t n) {
  void *p = malloc(n);
  if (p == NULL) {
    abort();
  }
  return p;
}
static int64_t *p_new_i64(int64_t x) {
  int64_t *p = p_get(sizeof(int64_t));
  *p = x;
  return p;
}
static bool *p_new_bool(bool x) {
  bool *p = p_get(sizeof(bool));
  *p = x;
  return p;
}
static p_atomic *p_new_atomic(int64_t x) {
  p_atomic *p = p_get(sizeof(p_atomic));
  atomic_init(p, x);
  return p;
}
static int64_t *p_array(int64_t x, int64_t n) {
  int64_t *p = p_get((size_t)n * sizeof(int64_t));
  for (int64_t i = 0; i < n; i++) {
    p[i] = x;
  }
  return p;
}
static bool p_cas(p_atomic *p, int64_t x, int64_t y) {
  return atomic_compare_exchange_strong(p, &x, y);
}
static struct p_lock *p_lock_new(void) {
  struct p_lock *l = p_get(sizeof(struct p_lock));
  atomic_init(&l->word, 0);
  return l;
}
static void p_acquire(struct p_lock *l) {
  int z = 0;
  while (!atomic_compare_exchange_strong(&l->word, &z, 1)) {
    z = 0;
    thrd_yield();
  }
}
static void p_release(struct p_lock *l) {
  atomic_store(&l->word, 0);
}
static thrd_t p_fork(thrd_start_t f, void *a) {
  thrd_t t;
  if (thrd_create(&t, f, a) != thrd_success) {
    abort();
  }
  return t;
}
static void p_join(thrd_t t) {
  if (thrd_join(t, NULL) != thrd_success) {
    abort();
  }
}
static void p_print(int64_t x) {
  printf("%" PRId64 "\n", x);
}
static int64_t p_read(void) {
  int64_t x = 0;
  if (scanf("%" SCNd64, &x) != 1) {
    x = 0;
  }
  return x;
}
"#;

const FIRST_PROGRAM: &str = r#"static void f_main(void);
static void f_main(void) {
  int64_t *v_r_1 = p_new_i64(INT64_C(5));
  int64_t v_v_2 = *v_r_1;
  p_print(v_v_2);
  free(v_r_1);
}
int main(void) {
  f_main();
  return 0;
}
"#;

const RACING_THREADS: &str = r#"static void f_a(int64_t *v_r_1);
static void f_b(int64_t *v_r_1);
static void f_main(void);
struct a_a {
  char a_0;
  int64_t *a_1;
};
static int t_a(void *p) {
  struct a_a *q = p;
  struct a_a c = *q;
  free(q);
  f_a(c.a_1);
  return 0;
}
static void f_a(int64_t *v_r_1) {
  p_print(INT64_C(1));
  *v_r_1 = INT64_C(1);
}
static void f_b(int64_t *v_r_1) {
  *v_r_1 = INT64_C(2);
}
static void f_main(void) {
  int64_t *v_r_1 = p_new_i64(INT64_C(0));
  {
    struct a_a *q = p_get(sizeof(struct a_a));
    q->a_1 = v_r_1;
    thrd_t t = p_fork(t_a, q);
    f_b(v_r_1);
    p_join(t);
  }
  free(v_r_1);
}
int main(void) {
  f_main();
  return 0;
}
"#;

const LEAST_NUMBER: &str = r#"static void f_main(void);
static void f_main(void) {
  int64_t v__u0003b1_1 = (-INT64_C(9223372036854775807) - INT64_C(1));
  int64_t v__u0003b1_2 = v__u0003b1_1;
  p_print(v__u0003b1_2);
}
int main(void) {
  f_main();
  return 0;
}
"#;

const OTHER_FORMS: &str = r#"struct s_pair {
  int64_t m_left;
  struct s_pair *m_next__one;
};
static bool f_all(p_atomic *v_c_1, struct p_lock *v_l_2, bool *v_b_3);
static void f_main(void);
static bool f_all(p_atomic *v_c_1, struct p_lock *v_l_2, bool *v_b_3) {
  int64_t *v_a_4 = p_array(INT64_C(0), INT64_C(3));
  v_a_4[(INT64_C(1) + INT64_C(1))] = (-INT64_C(7));
  p_atomic *v_n_5 = p_new_atomic(INT64_C(1));
  struct s_pair *v_p_6 = p_get(sizeof(struct s_pair));
  v_p_6->m_left = INT64_C(1);
  v_p_6->m_next__one = NULL;
  int64_t v_x_7 = atomic_load(v_c_1);
  atomic_store(v_c_1, (-v_x_7));
  bool v_r_8 = p_cas(v_c_1, v_x_7, INT64_C(2));
  struct p_lock *v_k_9 = p_lock_new();
  p_acquire(v_k_9);
  p_release(v_k_9);
  int64_t v_y_10 = p_read();
  bool v_s_11 = f_all(v_c_1, v_l_2, v_b_3);
  while (1) {
    int64_t v_z_12 = v_a_4[INT64_C(0)];
    if (!(v_z_12 < v_y_10)) {
      break;
    }
    if ((!v_s_11)) {
      f_main();
    } else {
    }
  }
  return (v_r_8 && true);
}
static void f_main(void) {
  bool *v_b_1 = p_new_bool(false);
}
int main(void) {
  f_main();
  return 0;
}
"#;

fn local(alloc: Global, name: &str, number: u32) -> Result<Local, Memory> {
    Ok(Local {
        name: Name::of(alloc, name)?,
        number,
    })
}

fn var(alloc: Global, name: &str, number: u32) -> Result<CExpr, Memory> {
    Ok(CExpr::Var(local(alloc, name, number)?))
}

fn bin(alloc: Global, op: COp, left: CExpr, right: CExpr) -> Result<CExpr, Memory> {
    Ok(CExpr::Bin(op, Box::new(alloc, left)?, Box::new(alloc, right)?))
}

fn param(alloc: Global, kind: CType, name: &str, number: u32) -> Result<CParam, Memory> {
    Ok(CParam {
        local: local(alloc, name, number)?,
        kind,
    })
}

fn function(
    alloc: Global,
    name: &str,
    gives: CType,
    params: Vec<CParam>,
    body: Vec<CStmt>,
) -> Result<CFun, Memory> {
    Ok(CFun {
        name: Name::of(alloc, name)?,
        result: gives,
        params: Items::of(params),
        body: Items::of(body),
    })
}

/// The text is the prelude and then these lines.
fn expect_lines(
    rt: &impl Abort,
    alloc: Global,
    structs: Vec<CStruct>,
    funs: Vec<CFun>,
    lines: &str,
) -> Result<(), Fail> {
    let program = CProgram {
        structs: Items::of(structs),
        funs: Items::of(funs),
    };
    if !is_program(&program) {
        return Err("a program of the forms")?;
    }
    let text = write_c(alloc, &program)?;
    let found = str::from_utf8(text.as_slice()).ok().ok_or("a text")?;
    assert_eq!(rt; found.strip_prefix(PRELUDE).ok_or("the prelude")?, lines);
    Ok(())
}

#[test]
fn the_first_program(rt: HostRuntime) -> Result<(), Fail> {
    let alloc = rt.alloc();
    let body = vec![in alloc;
        CStmt::New(CType::PtrI64, local(alloc, "r", 1)?, CExpr::Int(5)),
        CStmt::Load(
            CType::I64,
            local(alloc, "v", 2)?,
            CCell::Whole(local(alloc, "r", 1)?)
        ),
        CStmt::Print(var(alloc, "v", 2)?),
        CStmt::Free(local(alloc, "r", 1)?),
    ]?;
    let main = function(alloc, "main", CType::Void, Vec::new(alloc), body)?;
    expect_lines(
        &rt,
        alloc,
        Vec::new(alloc),
        vec![in alloc; main]?,
        FIRST_PROGRAM,
    )
}

fn writes(alloc: Global, name: &str, first: Option<CStmt>, n: i64) -> Result<CFun, Memory> {
    let mut body = Vec::new(alloc);
    if let Some(s) = first {
        body.push(s)?;
    }
    body.push(CStmt::Store(CCell::Whole(local(alloc, "r", 1)?), CExpr::Int(n)))?;
    let params = vec![in alloc; param(alloc, CType::PtrI64, "r", 1)?]?;
    function(alloc, name, CType::Void, params, body)
}

#[test]
fn two_racing_threads(rt: HostRuntime) -> Result<(), Fail> {
    let alloc = rt.alloc();
    let first = writes(alloc, "a", Some(CStmt::Print(CExpr::Int(1))), 1)?;
    let second = writes(alloc, "b", None, 2)?;
    let args = vec![in alloc; var(alloc, "r", 1)?]?;
    let others = vec![in alloc; var(alloc, "r", 1)?]?;
    let body = vec![in alloc;
        CStmt::New(CType::PtrI64, local(alloc, "r", 1)?, CExpr::Int(0)),
        CStmt::Par(
            Name::of(alloc, "a")?,
            Items::of(args),
            Name::of(alloc, "b")?,
            Items::of(others)
        ),
        CStmt::Free(local(alloc, "r", 1)?),
    ]?;
    let main = function(alloc, "main", CType::Void, Vec::new(alloc), body)?;
    expect_lines(
        &rt,
        alloc,
        Vec::new(alloc),
        vec![in alloc; first, second, main]?,
        RACING_THREADS,
    )
}

#[test]
fn the_least_number(rt: HostRuntime) -> Result<(), Fail> {
    let alloc = rt.alloc();
    let body = vec![in alloc;
        CStmt::Let(CType::I64, local(alloc, "α", 1)?, CExpr::Int(i64::MIN)),
        CStmt::Let(CType::I64, local(alloc, "α", 2)?, var(alloc, "α", 1)?),
        CStmt::Print(var(alloc, "α", 2)?),
    ]?;
    let main = function(alloc, "main", CType::Void, Vec::new(alloc), body)?;
    expect_lines(
        &rt,
        alloc,
        Vec::new(alloc),
        vec![in alloc; main]?,
        LEAST_NUMBER,
    )
}

fn make_blocks(alloc: Global, body: &mut Vec<CStmt>) -> Result<(), Memory> {
    let three = CExpr::Int(3);
    body.push(CStmt::NewArray(CType::PtrI64, local(alloc, "a", 4)?, CExpr::Int(0), three))?;
    let index = bin(alloc, COp::Add, CExpr::Int(1), CExpr::Int(1))?;
    body.push(CStmt::Store(CCell::At(local(alloc, "a", 4)?, index), CExpr::Int(-7)))?;
    body.push(CStmt::NewAtomic(local(alloc, "n", 5)?, CExpr::Int(1)))?;
    let inits = vec![in alloc;
        CInit {
            name: Name::of(alloc, "left")?,
            value: CExpr::Int(1)
        },
        CInit {
            name: Name::of(alloc, "next_one")?,
            value: CExpr::Null
        },
    ]?;
    body.push(CStmt::NewStruct(
        local(alloc, "p", 6)?,
        Name::of(alloc, "pair")?,
        Items::of(inits),
    ))?;
    Ok(())
}

fn use_atomics(alloc: Global, body: &mut Vec<CStmt>) -> Result<(), Memory> {
    body.push(CStmt::AtomicLoad(local(alloc, "x", 7)?, local(alloc, "c", 1)?))?;
    let negated = CExpr::Neg(Box::new(alloc, var(alloc, "x", 7)?)?);
    body.push(CStmt::AtomicStore(local(alloc, "c", 1)?, negated))?;
    let old = var(alloc, "x", 7)?;
    body.push(CStmt::Cas(
        local(alloc, "r", 8)?,
        local(alloc, "c", 1)?,
        old,
        CExpr::Int(2),
    ))?;
    body.push(CStmt::NewLock(local(alloc, "k", 9)?))?;
    body.push(CStmt::Acquire(local(alloc, "k", 9)?))?;
    body.push(CStmt::Release(local(alloc, "k", 9)?))?;
    Ok(())
}

fn call_itself(alloc: Global, body: &mut Vec<CStmt>) -> Result<(), Memory> {
    body.push(CStmt::Read(local(alloc, "y", 10)?))?;
    let args = vec![in alloc;
        var(alloc, "c", 1)?,
        var(alloc, "l", 2)?,
        var(alloc, "b", 3)?,
    ]?;
    body.push(CStmt::CallLet(
        CType::Bool,
        local(alloc, "s", 11)?,
        Name::of(alloc, "all")?,
        Items::of(args),
    ))?;
    Ok(())
}

fn loop_and_return(alloc: Global, body: &mut Vec<CStmt>) -> Result<(), Memory> {
    let cell = CCell::At(local(alloc, "a", 4)?, CExpr::Int(0));
    let loads = vec![in alloc; CStmt::Load(CType::I64, local(alloc, "z", 12)?, cell)]?;
    let test = bin(alloc, COp::Lt, var(alloc, "z", 12)?, var(alloc, "y", 10)?)?;
    let call = vec![in alloc; CStmt::Call(Name::of(alloc, "main")?, Items::of(Vec::new(alloc)))]?;
    let condition = CExpr::Not(Box::new(alloc, var(alloc, "s", 11)?)?);
    let inside = vec![in alloc; CStmt::If(condition, Items::of(call), Items::of(Vec::new(alloc)))]?;
    body.push(CStmt::While(Items::of(loads), test, Items::of(inside)))?;
    let both = bin(alloc, COp::And, var(alloc, "r", 8)?, CExpr::Truth(true))?;
    body.push(CStmt::Return(both))?;
    Ok(())
}

fn pair(alloc: Global) -> Result<CStruct, Memory> {
    let next = CType::PtrStruct(Name::of(alloc, "pair")?);
    let members = vec![in alloc;
        CMember {
            name: Name::of(alloc, "left")?,
            kind: CType::I64
        },
        CMember {
            name: Name::of(alloc, "next_one")?,
            kind: next
        },
    ]?;
    Ok(CStruct {
        name: Name::of(alloc, "pair")?,
        members: Items::of(members),
    })
}

#[test]
fn the_other_forms(rt: HostRuntime) -> Result<(), Fail> {
    let alloc = rt.alloc();
    let mut body = Vec::new(alloc);
    make_blocks(alloc, &mut body)?;
    use_atomics(alloc, &mut body)?;
    call_itself(alloc, &mut body)?;
    loop_and_return(alloc, &mut body)?;
    let params = vec![in alloc;
        param(alloc, CType::PtrAtomic, "c", 1)?,
        param(alloc, CType::PtrLock, "l", 2)?,
        param(alloc, CType::PtrBool, "b", 3)?,
    ]?;
    let all = function(alloc, "all", CType::Bool, params, body)?;
    let cell = vec![in alloc;
        CStmt::New(CType::PtrBool, local(alloc, "b", 1)?, CExpr::Truth(false)),
    ]?;
    let main = function(alloc, "main", CType::Void, Vec::new(alloc), cell)?;
    let structs = vec![in alloc; pair(alloc)?]?;
    expect_lines(&rt, alloc, structs, vec![in alloc; all, main]?, OTHER_FORMS)
}
