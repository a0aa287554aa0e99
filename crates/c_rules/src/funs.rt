//! Functions.

ghost use Rattle.std.specs.Prelude.{◌≡◌, ◌+◌, ◌<◌, ◌^◌, [], length, map, flat_map, IfOk};
ghost use Rattle.c_forms.specs.Plain.{plain_fun, plain_stmts};
ghost use Rattle.c_forms.specs.Text.{fun_text, stmts_text};
ghost use Rattle.c_rules.specs.Groups as spec;
ghost use Rattle.c_rules.specs.Kinds.{types};
ghost use Rattle.c_rules.specs.Least.{least};
ghost use Rattle.c_rules.specs.Locals.{scope_of};
ghost use Rattle.c_rules.specs.Tables.{known_of};

use crate::exprs::Part;
use crate::kinds::{Kind, kind_of};
use crate::lengths::type_end;
use crate::locals::Locals;
use crate::one_line::bind_local;
use crate::places::{earlier, unless};
use crate::prototypes::{is_void, look_head};
use crate::stmts::look_stmts;
use crate::tables::Tables;
use c_forms::{Fun, Param};
use c_syntax::CType;
use pl_base::Memory;
use std::alloc::Global;

/// Binds the parameters one after the other.
fn bind_params<'a>(locals: &mut Locals<'a>, list: &'a [Param]) -> Result<(), Memory>
    ensures { IfOk result (λ u. scope_of locals.new.slots.items ≡ spec.bind_params (scope_of locals.old.slots.items) list.now) }
{
    for p in list {
        bind_local(locals, &p.local.name, kind_of(&p.kind))?;
    }
    Ok(())
}

/// What the last `return` is wanted to give.
fn last_of(kind: &CType) -> Option<Kind<'_>>
    ensures { types result ≡ spec.last_of kind.now }
{
    if is_void(kind) {
        None
    } else {
        Some(kind_of(kind))
    }
}

/// The statements of a function, the first of which begins at `at`.
fn look_body<'a>(alloc: Global, tables: &Tables<'a>, at: u32, f: &'a Fun) -> Result<Part, Memory>
    requires { at + length (stmts_text 1 (plain_stmts f.now.body)) < 2 ^ 32 }
    ensures end { IfOk result (λ part. part.end ≡ at + length (stmts_text 1 (plain_stmts f.now.body))) }
    ensures least { IfOk result (λ part. part.least ≡ least (spec.body_breaches (known_of tables.now) at (plain_fun f.now))) }
{
    let mut locals = Locals::new(alloc);
    bind_params(&mut locals, f.head.params.as_slice())?;
    look_stmts(
        tables,
        &mut locals,
        last_of(&f.head.result),
        1,
        at,
        f.body.as_slice(),
    )
}

/// The k-th function, where there are so many prototypes.
#[tactic(auto, using(crate::proofs::Leasts::least_append))]
fn look_fun<'a>(
    alloc: Global,
    tables: &Tables<'a>,
    count: usize,
    k: usize,
    at: u32,
    f: &'a Fun,
) -> Result<Part, Memory>
    requires { at + length (fun_text (plain_fun f.now)) < 2 ^ 32 }
    ensures end { IfOk result (λ part. part.end ≡ at + length (fun_text (plain_fun f.now))) }
    ensures least { IfOk result (λ part. part.least ≡ least (spec.fun_breaches (known_of tables.now) count k at (plain_fun f.now))) }
{
    let head = look_head(alloc, tables, at, &f.head)?;
    let name = unless(k < count, type_end(at + 7, &f.head.result));
    let body = look_body(alloc, tables, head.end + 3, f)?;
    Ok(Part {
        end: body.end + 2,
        least: earlier(name, body.least),
    })
}

/// The functions of a text, where there are so many prototypes.
pub(crate) fn look_funs<'a>(
    alloc: Global,
    tables: &Tables<'a>,
    count: usize,
    at: u32,
    list: &'a [Fun],
) -> Result<Part, Memory>
    requires { at + length (flat_map fun_text (map plain_fun list.now)) < 2 ^ 32 }
    ensures end { IfOk result (λ part. part.end ≡ at + length (flat_map fun_text (map plain_fun list.now))) }
    ensures least { IfOk result (λ part. part.least ≡ least (spec.funs_breaches (known_of tables.now) count 0 at (map plain_fun list.now))) }
{
    let mut part = Part {
        end: at,
        least: None,
    };
    for (i, f) in list.iter().enumerate() {
        let next = look_fun(alloc, tables, count, i, part.end, f)?;
        part = Part {
            end: next.end,
            least: earlier(part.least, next.least),
        };
    }
    Ok(part)
}
