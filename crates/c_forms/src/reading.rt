//! The whole text, declaration by declaration.

ghost use Rattle.std.specs.Prelude.{◌≡◌, ◌^◌, ◌<◌, ◌++◌, ◌∷◌, ◌&&◌, IfErr, IfOk, List, [], length, map, codes, Ok};
ghost use Rattle.c_syntax.specs.PreludeText.{prelude};
ghost use Rattle.pl_readers.specs.Bytes as byte_readers;
ghost use Rattle.pl_readers.specs.Given.{Gives};
ghost use Rattle.pl_readers.specs.Reader.{whole};
ghost use Rattle.c_syntax.specs.Text.{main_text};
ghost use Rattle.c_forms.specs.Answers.{IfNotForms, IsReadAs, IsRefusedAt, Tells};
ghost use Rattle.c_forms.specs.Forms.{IsFormText};
ghost use Rattle.c_forms.specs.Tree as Tree;
ghost use Rattle.c_forms.specs.Reading.{just, until};
ghost use Rattle.c_forms.specs.StmtReaders.{rows, stmt};
ghost use Rattle.c_forms.specs.SourceReaders as spec;
ghost use Rattle.c_forms.specs.Plain.{plain_fun, plain_source, plain_stmt};

use crate::blocks::rows;
use crate::error::FormsError;
use crate::heads::head;
use crate::source::{Fun, Head, Source, Starter, Struct};
use crate::starters::starter_pair;
use crate::stmt::Stmt;
use crate::structs::structure;
use pl_base::{Items, Memory};
use pl_readers::bytes::{begins, word};
use pl_readers::{ReadError, refused};
use std::alloc::Global;

const PRELUDE: &str = "#include <inttypes.h>
#include <stdatomic.h>
#include <stdbool.h>
#include <stdint.h>
#include <stdio.h>
#include <stdlib.h>
#include <threads.h>
typedef _Atomic(int64_t) p_atomic;
struct p_lock {
  atomic_int word;
};
static void *p_get(size_t n) {
  void *p = malloc(n);
  if (p == NULL) {
    abort();
  }
  return p;
}
static int64_t *p_new_i64(int64_t x) {
  int64_t *p = p_get(sizeof(int64_t));
  *p = x;
  return p;
}
static bool *p_new_bool(bool x) {
  bool *p = p_get(sizeof(bool));
  *p = x;
  return p;
}
static p_atomic *p_new_atomic(int64_t x) {
  p_atomic *p = p_get(sizeof(p_atomic));
  atomic_init(p, x);
  return p;
}
static int64_t *p_array(int64_t x, int64_t n) {
  int64_t *p = p_get((size_t)n * sizeof(int64_t));
  for (int64_t i = 0; i < n; i++) {
    p[i] = x;
  }
  return p;
}
static bool p_cas(p_atomic *p, int64_t x, int64_t y) {
  return atomic_compare_exchange_strong(p, &x, y);
}
static struct p_lock *p_lock_new(void) {
  struct p_lock *l = p_get(sizeof(struct p_lock));
  atomic_init(&l->word, 0);
  return l;
}
static void p_acquire(struct p_lock *l) {
  int z = 0;
  while (!atomic_compare_exchange_strong(&l->word, &z, 1)) {
    z = 0;
    thrd_yield();
  }
}
static void p_release(struct p_lock *l) {
  atomic_store(&l->word, 0);
}
static thrd_t p_fork(thrd_start_t f, void *a) {
  thrd_t t;
  if (thrd_create(&t, f, a) != thrd_success) {
    abort();
  }
  return t;
}
static void p_join(thrd_t t) {
  if (thrd_join(t, NULL) != thrd_success) {
    abort();
  }
}
static void p_print(int64_t x) {
  printf(\"%\" PRId64 \"\\n\", x);
}
static int64_t p_read(void) {
  int64_t x = 0;
  if (scanf(\"%\" SCNd64, &x) != 1) {
    x = 0;
  }
  return x;
}
";

const MAIN: &str = "int main(void) {
  f_main();
  return 0;
}
";

/// The bytes of the prelude.
#[tactic(auto, unfolding(c_syntax::specs::PreludeText::prelude))]
fn prelude_bytes() -> &'static [u8]
    ensures { result.now ≡ prelude }
{
    PRELUDE.as_bytes()
}

fn read_prelude(bytes: &[u8]) -> Result<&[u8], ReadError>
    ensures { Gives (λ rest. (tt, rest.now)) result (byte_readers.word prelude bytes.now) }
{
    word(bytes, prelude_bytes())
}

/// A list with one item more.
fn pushed<T: Drop>(list: Items<T>, item: T) -> Result<Items<T>, Memory>
    ensures { IfOk result (λ l. l ≡ list ++ item ∷ []) }
{
    let mut list = list.into_vec();
    list.push(item)?;
    Ok(Items::of(list))
}

/// With one structure more.
fn with_struct(begun: Source, x: Struct) -> Result<Source, Memory>
    ensures { IfOk result (λ s. plain_source s ≡ spec.with_struct (plain_source begun) x) }
{
    let Source {
        structs,
        prototypes,
        starters,
        funs,
    } = begun;
    let structs = pushed(structs, x)?;
    Ok(Source {
        structs,
        prototypes,
        starters,
        funs,
    })
}

/// With one prototype more.
fn with_prototype(begun: Source, x: Head) -> Result<Source, Memory>
    ensures { IfOk result (λ s. plain_source s ≡ spec.with_prototype (plain_source begun) x) }
{
    let Source {
        structs,
        prototypes,
        starters,
        funs,
    } = begun;
    let prototypes = pushed(prototypes, x)?;
    Ok(Source {
        structs,
        prototypes,
        starters,
        funs,
    })
}

/// With one starter more.
fn with_starter(begun: Source, x: Starter) -> Result<Source, Memory>
    ensures { IfOk result (λ s. plain_source s ≡ spec.with_starter (plain_source begun) x) }
{
    let Source {
        structs,
        prototypes,
        starters,
        funs,
    } = begun;
    let starters = pushed(starters, x)?;
    Ok(Source {
        structs,
        prototypes,
        starters,
        funs,
    })
}

/// With one function more.
fn with_fun(begun: Source, x: Fun) -> Result<Source, Memory>
    ensures { IfOk result (λ s. plain_source s ≡ spec.with_fun (plain_source begun) (plain_fun x)) }
{
    let Source {
        structs,
        prototypes,
        starters,
        funs,
    } = begun;
    let funs = pushed(funs, x)?;
    Ok(Source {
        structs,
        prototypes,
        starters,
        funs,
    })
}

fn none_yet<T>(list: &Items<T>) -> bool
    ensures { result ≡ spec.none_yet list.now }
{
    list.as_slice().is_empty()
}

/// Whether a function may still be followed by a starter.
fn may_starter(begun: &Source) -> bool
    ensures { result ≡ spec.may_starter (plain_source begun.now) }
{
    none_yet(&begun.funs)
}

/// Whether a prototype may still come.
fn may_prototype(begun: &Source) -> bool
    ensures { result ≡ spec.may_prototype (plain_source begun.now) }
{
    none_yet(&begun.starters) && none_yet(&begun.funs)
}

/// Whether a structure may still come.
fn may_struct(begun: &Source) -> bool
    ensures { result ≡ spec.may_struct (plain_source begun.now) }
{
    none_yet(&begun.prototypes) && may_prototype(begun)
}

/// A declaration that begins with `struct `, behind its `st`.
#[tactic(auto, unfolding(crate::specs::SourceReaders::with_structure))]
fn with_structure(alloc: Global, begun: Source, bytes: &[u8]) -> Result<(Source, &[u8]), ReadError>
    ensures { Gives (λ x. (plain_source x.0, x.1.now)) result (spec.with_structure (plain_source begun) bytes.now) }
{
    let rest = word(bytes, b"ruct ")?;
    if may_struct(&begun) && begins(rest, b's') {
        let rest = word(rest, b"s_")?;
        let (structure, rest) = structure(alloc, rest)?;
        return Ok((with_struct(begun, structure)?, rest));
    }
    let (starter, rest) = starter_pair(alloc, rest)?;
    Ok((with_starter(begun, starter)?, rest))
}

/// The statements of a function behind its head.
#[tactic(auto, unfolding(crate::specs::SourceReaders::fun_body))]
fn fun_body(alloc: Global, bytes: &[u8]) -> Result<(Items<Stmt>, &[u8]), ReadError>
    ensures { Gives (λ x. (map plain_stmt x.0, x.1.now)) result (spec.fun_body bytes.now) }
{
    let rest = word(bytes, b" {\n")?;
    let (body, rest) = rows(alloc, 127, 0, rest)?;
    let rest = word(rest, b"}\n")?;
    Ok((body, rest))
}

/// A prototype or a function behind its head.
#[tactic(auto, unfolding(crate::specs::SourceReaders::behind_head))]
fn behind_head(
    alloc: Global,
    begun: Source,
    head: Head,
    bytes: &[u8],
) -> Result<(Source, &[u8]), ReadError>
    ensures { Gives (λ x. (plain_source x.0, x.1.now)) result (spec.behind_head (plain_source begun) head bytes.now) }
{
    if may_prototype(&begun) && begins(bytes, b';') {
        let rest = word(bytes, b";\n")?;
        return Ok((with_prototype(begun, head)?, rest));
    }
    let (body, rest) = fun_body(alloc, bytes)?;
    Ok((with_fun(begun, Fun { head, body })?, rest))
}

/// A prototype or a function, behind its `st`.
#[tactic(auto, unfolding(crate::specs::SourceReaders::with_static))]
fn with_static(alloc: Global, begun: Source, bytes: &[u8]) -> Result<(Source, &[u8]), ReadError>
    ensures { Gives (λ x. (plain_source x.0, x.1.now)) result (spec.with_static (plain_source begun) bytes.now) }
{
    let rest = word(bytes, b"atic ")?;
    let (head, rest) = head(alloc, rest)?;
    behind_head(alloc, begun, head, rest)
}

/// One declaration more.
#[tactic(auto, unfolding(crate::specs::SourceReaders::declaration))]
fn declaration(alloc: Global, begun: Source, bytes: &[u8]) -> Result<(Source, &[u8]), ReadError>
    ensures { Gives (λ x. (plain_source x.0, x.1.now)) result (spec.declaration (plain_source begun) bytes.now) }
{
    let rest = word(bytes, b"st")?;
    if may_starter(&begun) && begins(rest, b'r') {
        return with_structure(alloc, begun, rest);
    }
    with_static(alloc, begun, rest)
}

/// Nothing yet.
fn nothing_yet(alloc: Global) -> Source
    ensures { plain_source result ≡ spec.empty }
{
    Source {
        structs: Items::of(Vec::new(alloc)),
        prototypes: Items::of(Vec::new(alloc)),
        starters: Items::of(Vec::new(alloc)),
        funs: Items::of(Vec::new(alloc)),
    }
}

/// The fixed `main` behind all declarations.
fn finished(begun: Source, bytes: &[u8]) -> Result<(Source, &[u8]), ReadError>
    ensures { Gives (λ x. (plain_source x.0, x.1.now)) result (just (plain_source begun) main_text bytes.now) }
{
    let rest = word(bytes, MAIN.as_bytes())?;
    Ok((begun, rest))
}

/// All declarations, and the fixed `main`.
fn declarations(alloc: Global, bytes: &[u8]) -> Result<(Source, &[u8]), ReadError>
    ensures { Gives (λ x. (plain_source x.0, x.1.now)) result (until spec.source_step spec.empty bytes.now) }
{
    let mut begun = nothing_yet(alloc);
    let mut rest = bytes;
    'items: loop {
        if begins(rest, b'i') {
            return finished(begun, rest);
        }
        let (more, behind) = declaration(alloc, begun, rest)?;
        begun = more;
        rest = behind;
    }
}

/// A whole text, and what stands behind it.
#[tactic(auto, unfolding(crate::specs::SourceReaders::source))]
fn source(alloc: Global, bytes: &[u8]) -> Result<(Source, &[u8]), ReadError>
    ensures { Gives (λ x. (plain_source x.0, x.1.now)) result (spec.source bytes.now) }
{
    let rest = read_prelude(bytes)?;
    declarations(alloc, rest)
}

/// A text and nothing behind it.
fn whole_source(alloc: Global, bytes: &[u8]) -> Result<Source, ReadError>
    ensures { Gives plain_source result (whole spec.source bytes.now) }
{
    let (source, rest) = source(alloc, bytes)?;
    if rest.is_empty() {
        Ok(source)
    } else {
        Err(refused(rest))
    }
}

/// The answer of `read_forms`, as the reader of whole texts gives it.
fn told(alloc: Global, bytes: &[u8]) -> Result<Source, FormsError>
    requires { length bytes.now < 2 ^ 32 }
    ensures { Tells result (whole spec.source bytes.now) (length bytes.now) }
{
    match whole_source(alloc, bytes) {
        Ok(source) => Ok(source),
        Err(ReadError::Memory) => Err(FormsError::Memory),
        Err(ReadError::Stop(stop)) => Err(FormsError::NotForms(
            bytes.len().saturating_sub(stop.left) as u32,
        )),
    }
}

/// What is written in a C text of the forms. `NotForms` names the end of the longest front of the bytes that begins some
/// text of the forms; `Memory` comes only for want of memory.
pub fn read_forms(alloc: Global, bytes: &[u8]) -> Result<Source, FormsError>
    requires { length bytes.now < 2 ^ 32 }
    ensures found { IfOk result (λ s. IsFormText (plain_source s) bytes.now) }
    ensures only { (s : Tree.Source) → IsFormText s bytes.now → IsReadAs result s }
    ensures refused { IfErr result (λ e. IfNotForms e (IsRefusedAt bytes.now)) }
{
    told(alloc, bytes)
}
