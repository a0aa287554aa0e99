//! Calls, and the lines that bind a local.

ghost use Rattle.std.specs.Prelude.{◌≡◌, ◌+◌, ◌<◌, ◌^◌, ◌&&◌, ◌==◌, length, map};
ghost use Rattle.std.specs.List.{slice_get};
ghost use Rattle.c_syntax.specs.Text.{commas};
ghost use Rattle.c_forms.specs.Plain.{plain_expr};
ghost use Rattle.c_forms.specs.Text.{call_text, expr_text};
ghost use Rattle.c_rules.specs.Commas.{gap};
ghost use Rattle.c_rules.specs.Kinds.{type, types};
ghost use Rattle.c_rules.specs.Least.{least};
ghost use Rattle.c_rules.specs.Lines as spec;
ghost use Rattle.c_rules.specs.Locals.{scope_of};
ghost use Rattle.c_rules.specs.Tables.{known_of};

use crate::exprs::{Part, fitting, look};
use crate::kinds::{Kind, kind_of, same_type};
use crate::lengths::name_end;
use crate::locals::Locals;
use crate::places::{earlier, unless};
use crate::tables::Tables;
use c_forms::{Expr, Param};
use pl_base::Name;

/// The type of the i-th parameter.
#[tactic(auto, using(crate::proofs::Drops::kind_there))]
pub(crate) fn param_kind(params: &[Param], i: usize) -> Option<Kind<'_>>
    ensures { types result ≡ slice_get (map (λ p. p.kind) params.now) i }
{
    match params.get(i) {
        None => None,
        Some(param) => Some(kind_of(&param.kind)),
    }
}

/// An argument for a parameter; one past the parameters isn't looked at.
pub(crate) fn argument(locals: &Locals<'_>, at: u32, e: &Expr, want: Option<Kind<'_>>) -> Part
    requires { at + length (expr_text (plain_expr e.now)) < 2 ^ 32 }
    ensures end { result.end ≡ at + length (expr_text (plain_expr e.now)) }
    ensures least { result.least ≡ least (spec.argument_found (scope_of locals.now.slots.items).bound (types want.entry) at (plain_expr e.now)) }
{
    match want {
        None => Part {
            end: look(locals, at, e).end,
            least: None,
        },
        Some(want) => fitting(locals, at, e, want),
    }
}

/// Where the i-th of texts with commas between them begins, if the one before it ends at `end`.
pub(crate) fn after_comma(i: usize, end: u32) -> u32
    requires { end + gap i < 2 ^ 32 }
    ensures { result ≡ end + gap i }
{
    if i == 0 { end } else { end + 2 }
}

/// Arguments, the first of which begins at `at`.
#[tactic(auto, using(crate::proofs::Leasts::least_append))]
fn arguments(locals: &Locals<'_>, at: u32, args: &[Expr], params: &[Param]) -> Part
    requires { at + length (commas (map expr_text (map plain_expr args.now))) < 2 ^ 32 }
    ensures end { result.end ≡ at + length (commas (map expr_text (map plain_expr args.now))) }
    ensures least { result.least ≡ least (spec.argument_breaches (scope_of locals.now.slots.items).bound at (map plain_expr args.now) (map (λ p. p.kind) params.now)) }
{
    let mut part = Part {
        end: at,
        least: None,
    };
    for (i, e) in args.iter().enumerate() {
        let next = argument(locals, after_comma(i, part.end), e, param_kind(params, i));
        part = Part {
            end: next.end,
            least: earlier(part.least, next.least),
        };
    }
    part
}

/// A call that begins at `at`, of which that result is wanted.
#[tactic(auto, using(crate::proofs::Leasts::least_append))]
pub(crate) fn call(
    tables: &Tables<'_>,
    locals: &Locals<'_>,
    at: u32,
    f: &Name,
    args: &[Expr],
    want: Kind<'_>,
) -> Part
    requires { at + length (call_text f.now (map plain_expr args.now)) < 2 ^ 32 }
    ensures end { result.end ≡ at + length (call_text f.now (map plain_expr args.now)) }
    ensures least { result.least ≡ least (spec.call_breaches (known_of tables.now).heads (scope_of locals.now.slots.items).bound (type want.entry) at f.now (map plain_expr args.now)) }
{
    let begin = name_end(at, 2, f) + 1;
    match tables.head(f) {
        None => Part {
            end: arguments(locals, begin, args, &[]).end + 1,
            least: Some(at),
        },
        Some(head) => {
            let params = head.params.as_slice();
            let inner = arguments(locals, begin, args, params);
            let fits = same_type(kind_of(&head.result), want) && args.len() == params.len();
            Part {
                end: inner.end + 1,
                least: earlier(unless(fits, at), inner.least),
            }
        }
    }
}
