//! The prelude of each C text.

ghost use Rattle.c_syntax.specs.PreludeText.{prelude};
ghost use Rattle.c_text.specs.Adds.{Adds};

use crate::pieces::put;
use pl_base::Memory;

const PRELUDE: &str = "#include <inttypes.h>
#include <stdatomic.h>
#include <stdbool.h>
#include <stdint.h>
#include <stdio.h>
#include <stdlib.h>
#include <threads.h>
typedef _Atomic(int64_t) p_atomic;
struct p_lock {
  atomic_int word;
};
static void *p_get(size_t n) {
  void *p = malloc(n);
  if (p == NULL) {
    abort();
  }
  return p;
}
static int64_t *p_new_i64(int64_t x) {
  int64_t *p = p_get(sizeof(int64_t));
  *p = x;
  return p;
}
static bool *p_new_bool(bool x) {
  bool *p = p_get(sizeof(bool));
  *p = x;
  return p;
}
static p_atomic *p_new_atomic(int64_t x) {
  p_atomic *p = p_get(sizeof(p_atomic));
  atomic_init(p, x);
  return p;
}
static int64_t *p_array(int64_t x, int64_t n) {
  int64_t *p = p_get((size_t)n * sizeof(int64_t));
  for (int64_t i = 0; i < n; i++) {
    p[i] = x;
  }
  return p;
}
static bool p_cas(p_atomic *p, int64_t x, int64_t y) {
  return atomic_compare_exchange_strong(p, &x, y);
}
static struct p_lock *p_lock_new(void) {
  struct p_lock *l = p_get(sizeof(struct p_lock));
  atomic_init(&l->word, 0);
  return l;
}
static void p_acquire(struct p_lock *l) {
  int z = 0;
  while (!atomic_compare_exchange_strong(&l->word, &z, 1)) {
    z = 0;
    thrd_yield();
  }
}
static void p_release(struct p_lock *l) {
  atomic_store(&l->word, 0);
}
static thrd_t p_fork(thrd_start_t f, void *a) {
  thrd_t t;
  if (thrd_create(&t, f, a) != thrd_success) {
    abort();
  }
  return t;
}
static void p_join(thrd_t t) {
  if (thrd_join(t, NULL) != thrd_success) {
    abort();
  }
}
static void p_print(int64_t x) {
  printf(\"%\" PRId64 \"\\n\", x);
}
static int64_t p_read(void) {
  int64_t x = 0;
  if (scanf(\"%\" SCNd64, &x) != 1) {
    x = 0;
  }
  return x;
}
";

#[tactic(auto, unfolding(c_syntax::specs::PreludeText::prelude))]
pub(crate) fn put_prelude(out: &mut Vec<u8>) -> Result<(), Memory>
    ensures { Adds result out.old out.new prelude }
{
    put(out, PRELUDE.as_bytes())
}
