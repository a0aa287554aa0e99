//! Prototypes, and whether they are the heads of the functions.

ghost use Rattle.std.specs.Prelude.{◌≡◌, ◌+◌, ◌<◌, ◌^◌, length, map, flat_map, option_map, IfOk};
ghost use Rattle.std.specs.List.{slice_get};
ghost use Rattle.c_syntax.specs.Text.{type_text, function_name};
ghost use Rattle.c_forms.specs.Plain.{plain_fun, plain_stmt, plain_stmts};
ghost use Rattle.c_forms.specs.Text.{head_text, prototype_text, params_text};
ghost use Rattle.c_rules.specs.Groups as spec;
ghost use Rattle.c_rules.specs.Least.{least};
ghost use Rattle.c_rules.specs.Lent.{lent};
ghost use Rattle.c_rules.specs.Seen.{taken_in};
ghost use Rattle.c_rules.specs.Tables.{known_of};

use crate::binds::type_found;
use crate::exprs::Part;
use crate::heads::{look_params, twice};
use crate::kinds::{Kind, kind_of, same_type};
use crate::lengths::{name_end, type_end};
use crate::places::{earlier, unless};
use crate::seen::Seen;
use crate::tables::Tables;
use c_forms::{Fun, Head, Number, Param, Stmt};
use c_syntax::CType;
use pl_base::Memory;
use std::alloc::Global;

/// The parameter at that place.
pub(crate) fn param_at(list: &[Param], i: usize) -> Option<&Param>
    ensures { lent result ≡ slice_get list.now i }
{
    match list.get(i) {
        None => None,
        Some(p) => Some(p),
    }
}

fn same_number(a: &Number, b: &Number) -> bool
    ensures { result ≡ spec.same_number a.now b.now }
{
    match (a, b) {
        (Number::Small(m), Number::Small(n)) => *m == *n,
        (Number::Long(xs), Number::Long(ys)) => xs.as_slice() == ys.as_slice(),
        _ => false,
    }
}

fn same_param(p: &Param, other: Option<&Param>) -> bool
    ensures { result ≡ spec.same_param p.now (lent other.entry) }
{
    match other {
        None => false,
        Some(q) => {
            same_type(kind_of(&p.kind), kind_of(&q.kind))
                && p.local.name.same(&q.local.name)
                && same_number(&p.local.number, &q.local.number)
        }
    }
}

fn same_params(ps: &[Param], qs: &[Param]) -> bool
    ensures { result ≡ spec.same_params ps.now qs.now }
{
    for (i, p) in ps.iter().enumerate() {
        if !same_param(p, param_at(qs, i)) {
            return false;
        }
    }
    param_at(qs, ps.len()).is_none()
}

fn same_head(a: &Head, b: &Head) -> bool
    ensures { result ≡ spec.same_head a.now b.now }
{
    same_type(kind_of(&a.result), kind_of(&b.result))
        && a.name.same(&b.name)
        && same_params(a.params.as_slice(), b.params.as_slice())
}

fn is_return(s: &Stmt) -> bool
    ensures { result ≡ spec.is_return (plain_stmt s.now) }
{
    matches!(s, Stmt::Return(_))
}

/// Whether the last statement is a `return`.
fn returns(list: &[Stmt]) -> bool
    ensures { result ≡ spec.returns (plain_stmts list.now) }
{
    let mut last = false;
    for s in list {
        last = is_return(s);
    }
    last
}

pub(crate) fn is_void(kind: &CType) -> bool
    ensures { result ≡ spec.is_void kind.now }
{
    same_type(kind_of(kind), Kind::Void)
}

/// Whether a function with a result ends in a `return`.
fn ends_well(f: &Fun) -> bool
    ensures { result ≡ spec.ends_well (plain_fun f.now) }
{
    is_void(&f.head.result) || returns(f.body.as_slice())
}

/// Whether `main` has no parameter and no result.
fn begins_well(f: &Fun) -> bool
    ensures { result ≡ spec.begins_well (plain_fun f.now) }
{
    f.head.name.text() != "main" || (is_void(&f.head.result) && f.head.params.as_slice().len() == 0)
}

/// Where the parameters of a head begin that begins at `at`.
fn params_begin(at: u32, h: &Head) -> u32
    requires { at + length (head_text h.now) < 2 ^ 32 }
    ensures { result ≡ at + 7 + length (type_text h.now.result) + length (function_name h.now.name) + 1 }
{
    name_end(type_end(at + 7, &h.result), 2, &h.name) + 1
}

/// The parameters of a head, where the text of them begins at `at`.
fn head_params(alloc: Global, tables: &Tables<'_>, at: u32, list: &[Param]) -> Result<Part, Memory>
    requires { at + length (params_text list.now) < 2 ^ 32 }
    ensures end { IfOk result (λ part. part.end ≡ at + length (params_text list.now)) }
    ensures least { IfOk result (λ part. part.least ≡ least (spec.params_breaches (known_of tables.now).structs spec.nothing 1 at list.now)) }
{
    match list {
        [] => Ok(Part {
            end: at + 4,
            least: None,
        }),
        _ => look_params(alloc, tables, at, list),
    }
}

/// A head that begins at `at`, with what is found of its parameters.
pub(crate) fn look_head(
    alloc: Global,
    tables: &Tables<'_>,
    at: u32,
    h: &Head,
) -> Result<Part, Memory>
    requires { at + length (head_text h.now) < 2 ^ 32 }
    ensures end { IfOk result (λ part. part.end ≡ at + length (head_text h.now)) }
    ensures least { IfOk result (λ part. part.least ≡ least (spec.params_breaches (known_of tables.now).structs spec.nothing 1 (at + 7 + length (type_text h.now.result) + length (function_name h.now.name) + 1) h.now.params)) }
{
    let params = head_params(alloc, tables, params_begin(at, h), h.params.as_slice())?;
    Ok(Part {
        end: params.end + 1,
        least: params.least,
    })
}

/// A prototype, where that function stands at its place.
#[tactic(auto, using(crate::proofs::Leasts::least_append))]
fn look_prototype(
    alloc: Global,
    tables: &Tables<'_>,
    seen: &Seen<'_>,
    at: u32,
    p: &Head,
    f: Option<&Fun>,
) -> Result<Part, Memory>
    requires { at + length (prototype_text p.now) < 2 ^ 32 }
    ensures end { IfOk result (λ part. part.end ≡ at + length (prototype_text p.now)) }
    ensures least { IfOk result (λ part. part.least ≡ least (spec.prototype_breaches (known_of tables.now).structs (taken_in seen.now) at p.now (option_map plain_fun (lent f.entry)))) }
{
    let head = look_head(alloc, tables, at, p)?;
    match f {
        None => Ok(Part {
            end: head.end + 2,
            least: Some(at),
        }),
        Some(f) => {
            let fits = same_head(p, &f.head) && ends_well(f) && begins_well(f);
            let kind = type_found(tables, at + 7, &p.result);
            let name = twice(seen, type_end(at + 7, &p.result), &p.name);
            Ok(Part {
                end: head.end + 2,
                least: earlier(earlier(earlier(unless(fits, at), kind), name), head.least),
            })
        }
    }
}

/// The function at that place.
fn fun_at(list: &[Fun], i: usize) -> Option<&Fun>
    ensures { lent result ≡ slice_get list.now i }
{
    match list.get(i) {
        None => None,
        Some(f) => Some(f),
    }
}

/// The prototypes of a text, compared with its functions.
pub(crate) fn look_prototypes<'a>(
    alloc: Global,
    tables: &Tables<'_>,
    seen: &mut Seen<'a>,
    at: u32,
    list: &'a [Head],
    funs: &[Fun],
) -> Result<Part, Memory>
    requires { at + length (flat_map prototype_text list.now) < 2 ^ 32 }
    ensures end { IfOk result (λ part. part.end ≡ at + length (flat_map prototype_text list.now)) }
    ensures least { IfOk result (λ part. part.least ≡ least (spec.prototypes_breaches (known_of tables.now).structs (taken_in seen.old) at list.now (map plain_fun funs.now))) }
{
    let mut part = Part {
        end: at,
        least: None,
    };
    for (i, p) in list.iter().enumerate() {
        let next = look_prototype(alloc, tables, seen, part.end, p, fun_at(funs, i))?;
        seen.put(&p.name)?;
        part = Part {
            end: next.end,
            least: earlier(part.least, next.least),
        };
    }
    Ok(part)
}
