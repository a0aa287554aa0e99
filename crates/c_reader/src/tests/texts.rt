//! C texts that stand in the description of the format.

pub const PRELUDE: &str = r#"#include <inttypes.h>
#include <stdatomic.h>
#include <stdbool.h>
#include <stdint.h>
#include <stdio.h>
#include <stdlib.h>
#include <threads.h>
typedef _Atomic(int64_t) p_atomic;
struct p_lock {
  atomic_int word;
};
static void *p_get(size_t n) {
  void *p = malloc(n);
  if (p == NULL) {
    abort();
  }
  return p;
}
static int64_t *p_new_i64(int64_t x) {
  int64_t *p = p_get(sizeof(int64_t));
  *p = x;
  return p;
}
static bool *p_new_bool(bool x) {
  bool *p = p_get(sizeof(bool));
  *p = x;
  return p;
}
static p_atomic *p_new_atomic(int64_t x) {
  p_atomic *p = p_get(sizeof(p_atomic));
  atomic_init(p, x);
  return p;
}
static int64_t *p_array(int64_t x, int64_t n) {
  int64_t *p = p_get((size_t)n * sizeof(int64_t));
  for (int64_t i = 0; i < n; i++) {
    p[i] = x;
  }
  return p;
}
static bool p_cas(p_atomic *p, int64_t x, int64_t y) {
  return atomic_compare_exchange_strong(p, &x, y);
}
static struct p_lock *p_lock_new(void) {
  struct p_lock *l = p_get(sizeof(struct p_lock));
  atomic_init(&l->word, 0);
  return l;
}
static void p_acquire(struct p_lock *l) {
  int z = 0;
  while (!atomic_compare_exchange_strong(&l->word, &z, 1)) {
    z = 0;
    thrd_yield();
  }
}
static void p_release(struct p_lock *l) {
  atomic_store(&l->word, 0);
}
static thrd_t p_fork(thrd_start_t f, void *a) {
  thrd_t t;
  if (thrd_create(&t, f, a) != thrd_success) {
    abort();
  }
  return t;
}
static void p_join(thrd_t t) {
  if (thrd_join(t, NULL) != thrd_success) {
    abort();
  }
}
static void p_print(int64_t x) {
  printf("%" PRId64 "\n", x);
}
static int64_t p_read(void) {
  int64_t x = 0;
  if (scanf("%" SCNd64, &x) != 1) {
    x = 0;
  }
  return x;
}
"#;

pub const FIRST_PROGRAM: &str = r#"static void f_main(void);
static void f_main(void) {
  int64_t *v_r_1 = p_new_i64(INT64_C(5));
  int64_t v_v_2 = *v_r_1;
  p_print(v_v_2);
  free(v_r_1);
}
int main(void) {
  f_main();
  return 0;
}
"#;

pub const RACING_THREADS: &str = r#"static void f_a(int64_t *v_r_1);
static void f_b(int64_t *v_r_1);
static void f_main(void);
struct a_a {
  char a_0;
  int64_t *a_1;
};
static int t_a(void *p) {
  struct a_a *q = p;
  struct a_a c = *q;
  free(q);
  f_a(c.a_1);
  return 0;
}
static void f_a(int64_t *v_r_1) {
  p_print(INT64_C(1));
  *v_r_1 = INT64_C(1);
}
static void f_b(int64_t *v_r_1) {
  *v_r_1 = INT64_C(2);
}
static void f_main(void) {
  int64_t *v_r_1 = p_new_i64(INT64_C(0));
  {
    struct a_a *q = p_get(sizeof(struct a_a));
    q->a_1 = v_r_1;
    thrd_t t = p_fork(t_a, q);
    f_b(v_r_1);
    p_join(t);
  }
  free(v_r_1);
}
int main(void) {
  f_main();
  return 0;
}
"#;

pub const LEAST_NUMBER: &str = r#"static void f_main(void);
static void f_main(void) {
  int64_t v__u0003b1_1 = (-INT64_C(9223372036854775807) - INT64_C(1));
  int64_t v__u0003b1_2 = v__u0003b1_1;
  p_print(v__u0003b1_2);
}
int main(void) {
  f_main();
  return 0;
}
"#;

/// Texts that erasure never makes, and names that stand before their declarations.
pub const STRANGE_PROGRAM: &str = r#"struct s_a {
  struct s_b *m_next;
};
struct s_b {
  bool m_flag;
};
static void f_f(int64_t *v_r_1);
static void f_g(int64_t *v_r_1);
static void f_main(void);
static void f_f(int64_t *v_r_1) {
  f_g(v_r_1);
}
static void f_g(int64_t *v_r_1) {
  f_f(NULL);
}
static void f_main(void) {
  int64_t *v_r_1 = p_new_i64(INT64_C(1));
  int64_t *v_a_2 = p_array(INT64_C(0), INT64_C(2));
  int64_t v_x_3 = v_r_1[INT64_C(0)];
  int64_t v_x_4 = *v_a_2;
  free(v_r_1);
  free(v_r_1);
  bool *v_b_5 = p_new_bool(true);
  v_b_5[INT64_C(0)] = false;
  struct p_lock *v_l_6 = p_lock_new();
  p_release(v_l_6);
  struct p_lock *v_k_7 = v_l_6;
  bool v_s_8 = (v_l_6 == v_k_7);
  p_atomic *v_c_9 = p_new_atomic(INT64_C(1));
  bool v_t_10 = (v_c_9 != v_c_9);
  if (v_s_8) {
  } else {
  }
  while (1) {
    if (!v_t_10) {
      break;
    }
  }
}
int main(void) {
  f_main();
  return 0;
}
"#;
