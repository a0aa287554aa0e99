//! The bracketed lines of a `par`.

ghost use Rattle.std.specs.Prelude.{◌≡◌, ◌+◌, ◌<◌, ◌^◌, length, map, drop, flat_map};
ghost use Rattle.std.specs.List.{slice_get};
ghost use Rattle.c_syntax.specs.Text.{indent};
ghost use Rattle.c_forms.specs.Plain.{plain_argument, plain_expr, plain_par};
ghost use Rattle.c_forms.specs.Text.{argument_text, expr_text, slot_name};
ghost use Rattle.c_rules.specs.Kinds.{type, types};
ghost use Rattle.c_rules.specs.Least.{least};
ghost use Rattle.c_rules.specs.Lines as spec;
ghost use Rattle.c_rules.specs.Locals.{scope_of};
ghost use Rattle.c_rules.specs.Tables.{known_of};

use crate::calls::{call, param_kind};
use crate::exprs::{Part, fitting, look, number_of};
use crate::kinds::{Kind, kind_of, same_type};
use crate::lengths::{indented, name_end, number_end};
use crate::locals::Locals;
use crate::places::{earlier, unless};
use crate::tables::Tables;
use c_forms::{Argument, Par, Param};

/// What is found of a line that hands argument k over, whose member's name begins at `at`.
#[tactic(auto, using(crate::proofs::Leasts::least_append))]
fn handed_one(
    locals: &Locals<'_>,
    k: usize,
    at: u32,
    argument: &Argument,
    want: Option<Kind<'_>>,
) -> Part
    requires { at + length (slot_name argument.now.number) + 3 + length (expr_text (plain_expr argument.now.value)) < 2 ^ 32 }
    ensures end { result.end ≡ at + length (slot_name argument.now.number) + 3 + length (expr_text (plain_expr argument.now.value)) }
    ensures least { result.least ≡ least (spec.handed_found (scope_of locals.now.slots.items).bound (types want.entry) k at (plain_argument argument.now)) }
{
    let begin = number_end(at, &argument.number) + 3;
    match want {
        None => Part {
            end: look(locals, begin, &argument.value).end,
            least: Some(at),
        },
        Some(want) => {
            let value = fitting(locals, begin, &argument.value, want);
            let right = number_of(&argument.number) as usize == k;
            Part {
                end: value.end,
                least: earlier(unless(right, at), value.least),
            }
        }
    }
}

/// A line that hands argument k over.
fn handed_line(
    locals: &Locals<'_>,
    level: u32,
    k: usize,
    at: u32,
    argument: &Argument,
    want: Option<Kind<'_>>,
) -> Part
    requires { at + length (argument_text level (plain_argument argument.now)) < 2 ^ 32 }
    ensures end { result.end ≡ at + length (argument_text level (plain_argument argument.now)) }
    ensures least { result.least ≡ least (spec.handed_found (scope_of locals.now.slots.items).bound (types want.entry) k (at + length (indent level) + 3) (plain_argument argument.now)) }
{
    let part = handed_one(locals, k, indented(at, level) + 3, argument, want);
    Part {
        end: part.end + 2,
        least: part.least,
    }
}

/// A breach there, unless no parameter is left.
#[tactic(auto, using(crate::proofs::Drops::slice_get_drop))]
fn unless_none(count: usize, params: &[Param], at: u32) -> Option<u32>
    ensures { result ≡ least (spec.unless_none (slice_get (drop count (map (λ p. p.kind) params.now)) 0) at) }
{
    match param_kind(params, count) {
        None => None,
        Some(_) => Some(at),
    }
}

/// The lines that hand the arguments over.
#[tactic(auto, using(crate::proofs::Leasts::least_append))]
fn handed(
    locals: &Locals<'_>,
    first: u32,
    level: u32,
    at: u32,
    list: &[Argument],
    params: &[Param],
) -> Part
    requires { at + length (flat_map (argument_text level) (map plain_argument list.now)) < 2 ^ 32 }
    ensures end { result.end ≡ at + length (flat_map (argument_text level) (map plain_argument list.now)) }
    ensures least { result.least ≡ least (spec.handed_breaches (scope_of locals.now.slots.items).bound first level 1 at (map plain_argument list.now) (map (λ p. p.kind) params.now)) }
{
    let mut part = Part {
        end: at,
        least: None,
    };
    for (i, argument) in list.iter().enumerate() {
        let next = handed_line(
            locals,
            level,
            i + 1,
            part.end,
            argument,
            param_kind(params, i),
        );
        part = Part {
            end: next.end,
            least: earlier(part.least, next.least),
        };
    }
    Part {
        end: part.end,
        least: earlier(part.least, unless_none(list.len(), params, first)),
    }
}

/// The first call of a thread, whose function's name first stands at `first`, and the lines that hand its arguments over.
#[tactic(auto, using(crate::proofs::Leasts::least_append))]
fn thread(
    tables: &Tables<'_>,
    locals: &Locals<'_>,
    first: u32,
    level: u32,
    at: u32,
    p: &Par,
) -> Part
    requires { at + length (flat_map (argument_text level) (map plain_argument p.now.arguments)) < 2 ^ 32 }
    ensures end { result.end ≡ at + length (flat_map (argument_text level) (map plain_argument p.now.arguments)) }
    ensures least { result.least ≡ least (spec.thread_breaches (known_of tables.now) (scope_of locals.now.slots.items).bound ((known_of tables.now).heads p.now.structure) first level at (plain_par p.now)) }
{
    let arguments = p.arguments.as_slice();
    match tables.head(&p.structure) {
        None => Part {
            end: handed(locals, first, level, at, arguments, &[]).end,
            least: Some(first),
        },
        Some(head) => {
            let part = handed(locals, first, level, at, arguments, head.params.as_slice());
            let fits = same_type(kind_of(&head.result), Kind::Void)
                && !tables.is_missing(&p.structure);
            Part {
                end: part.end,
                least: earlier(unless(fits, first), part.least),
            }
        }
    }
}

/// The lines of a `par` but the braces, the first of which begins at `at`.
#[tactic(auto, using(crate::proofs::Leasts::least_append))]
pub(crate) fn thread_lines(
    tables: &Tables<'_>,
    locals: &Locals<'_>,
    level: u32,
    at: u32,
    p: &Par,
) -> Part
    requires { at + length (spec.par_lines level (plain_par p.now)) < 2 ^ 32 }
    ensures end { result.end ≡ at + length (spec.par_lines level (plain_par p.now)) }
    ensures least { result.least ≡ least (spec.par_breaches (known_of tables.now) (scope_of locals.now.slots.items).bound level at (plain_par p.now)) }
{
    let first = indented(at, level) + 7;
    let size = name_end(first, 2, &p.structure) + 26;
    let begin = name_end(size, 2, &p.size) + 4;
    let part = thread(tables, locals, first, level, begin, p);
    let starter = indented(part.end, level) + 18;
    let next = name_end(starter, 2, &p.starter) + 6;
    let other = call(
        tables,
        locals,
        indented(next, level),
        &p.other,
        p.others.as_slice(),
        Kind::Void,
    );
    let sized = unless(p.size.same(&p.structure), size);
    let started = unless(p.starter.same(&p.structure), starter);
    Part {
        end: indented(other.end + 2, level) + 11,
        least: earlier(earlier(earlier(part.least, sized), started), other.least),
    }
}
