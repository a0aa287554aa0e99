//! Structures and prototypes.

ghost use Rattle.std.specs.Prelude.{◌≡◌, ◌+◌, ◌<◌, ◌^◌, ◌∷◌, [], length, map, flat_map, codes, IfOk, Option, Some, None};
ghost use Rattle.c_syntax.specs.Text.{commas, line, struct_name, type_text};
ghost use Rattle.c_forms.specs.Text.{param_text, params_text, struct_text, head_text};
ghost use Rattle.c_rules.specs.Commas.{gap};
ghost use Rattle.c_rules.specs.Groups as spec;
ghost use Rattle.c_rules.specs.Least.{least};
ghost use Rattle.c_rules.specs.Seen.{taken_in};
ghost use Rattle.c_rules.specs.Tables.{known_of};

use crate::binds::{type_found, value_found};
use crate::calls::after_comma;
use crate::exprs::{Part, number_of};
use crate::kinds::kind_of;
use crate::lengths::{local_end, name_end, type_end};
use crate::places::{earlier, unless};
use crate::seen::Seen;
use crate::tables::Tables;
use c_forms::{Head, Member, Param, Struct};
use pl_base::{Memory, Name};
use std::alloc::Global;

/// A breach there, unless the name was not declared before.
pub(crate) fn twice(seen: &Seen<'_>, at: u32, name: &Name) -> Option<u32>
    ensures { result ≡ least (spec.twice_breaches (taken_in seen.now) at name.now) }
{
    unless(!seen.has(name), at)
}

#[tactic(auto, using(crate::proofs::Leasts::least_append))]
fn look_member(tables: &Tables<'_>, seen: &Seen<'_>, at: u32, m: &Member) -> Part
    requires { at + length (spec.member_text m.now) < 2 ^ 32 }
    ensures end { result.end ≡ at + length (spec.member_text m.now) }
    ensures least { result.least ≡ least (spec.member_breaches (known_of tables.now).structs (taken_in seen.now) at m.now) }
{
    let name = type_end(at + 2, &m.kind);
    let kind = type_found(tables, at + 2, &m.kind);
    let value = value_found(name, kind_of(&m.kind));
    Part {
        end: name_end(name, 2, &m.name) + 2,
        least: earlier(earlier(kind, value), twice(seen, name, &m.name)),
    }
}

fn look_members(
    alloc: Global,
    tables: &Tables<'_>,
    at: u32,
    list: &[Member],
) -> Result<Part, Memory>
    requires { at + length (flat_map spec.member_text list.now) < 2 ^ 32 }
    ensures end { IfOk result (λ part. part.end ≡ at + length (flat_map spec.member_text list.now)) }
    ensures least { IfOk result (λ part. part.least ≡ least (spec.members_breaches (known_of tables.now).structs spec.nothing at list.now)) }
{
    let mut seen = Seen::new(alloc);
    let mut part = Part {
        end: at,
        least: None,
    };
    for m in list {
        let next = look_member(tables, &seen, part.end, m);
        seen.put(&m.name)?;
        part = Part {
            end: next.end,
            least: earlier(part.least, next.least),
        };
    }
    Ok(part)
}

#[tactic(auto, using(crate::proofs::Leasts::least_append))]
fn look_struct(
    alloc: Global,
    tables: &Tables<'_>,
    seen: &Seen<'_>,
    at: u32,
    d: &Struct,
) -> Result<Part, Memory>
    requires { at + length (struct_text d.now) < 2 ^ 32 }
    ensures end { IfOk result (λ part. part.end ≡ at + length (struct_text d.now)) }
    ensures least { IfOk result (λ part. part.least ≡ least (spec.struct_breaches (known_of tables.now).structs (taken_in seen.now) at d.now)) }
{
    let place = at + 7;
    let begin = name_end(place, 2, &d.name) + 3;
    let members = look_members(alloc, tables, begin, d.members.as_slice())?;
    Ok(Part {
        end: members.end + 3,
        least: earlier(twice(seen, place, &d.name), members.least),
    })
}

/// The structures of a text.
pub(crate) fn look_structs<'a>(
    alloc: Global,
    tables: &Tables<'_>,
    seen: &mut Seen<'a>,
    at: u32,
    list: &'a [Struct],
) -> Result<Part, Memory>
    requires { at + length (flat_map struct_text list.now) < 2 ^ 32 }
    ensures end { IfOk result (λ part. part.end ≡ at + length (flat_map struct_text list.now)) }
    ensures least { IfOk result (λ part. part.least ≡ least (spec.structs_breaches (known_of tables.now).structs (taken_in seen.old) at list.now)) }
    ensures seen { IfOk result (λ part. taken_in seen.new ≡ spec.put_all (map (λ d. d.name) list.now) (taken_in seen.old)) }
{
    let mut part = Part {
        end: at,
        least: None,
    };
    for d in list {
        let next = look_struct(alloc, tables, seen, part.end, d)?;
        seen.put(&d.name)?;
        part = Part {
            end: next.end,
            least: earlier(part.least, next.least),
        };
    }
    Ok(part)
}

#[tactic(auto, using(crate::proofs::Leasts::least_append))]
fn look_param(tables: &Tables<'_>, seen: &Seen<'_>, k: usize, at: u32, p: &Param) -> Part
    requires { at + length (param_text p.now) < 2 ^ 32 }
    ensures end { result.end ≡ at + length (param_text p.now) }
    ensures least { result.least ≡ least (spec.param_breaches (known_of tables.now).structs (taken_in seen.now) k at p.now) }
{
    let name = type_end(at, &p.kind);
    let kind = type_found(tables, at, &p.kind);
    let value = value_found(name, kind_of(&p.kind));
    let number = unless(number_of(&p.local.number) as usize == k, name);
    Part {
        end: local_end(name, &p.local),
        least: earlier(
            earlier(earlier(kind, value), number),
            twice(seen, name, &p.local.name),
        ),
    }
}

pub(crate) fn look_params(
    alloc: Global,
    tables: &Tables<'_>,
    at: u32,
    list: &[Param],
) -> Result<Part, Memory>
    requires { at + length (commas (map param_text list.now)) < 2 ^ 32 }
    ensures end { IfOk result (λ part. part.end ≡ at + length (commas (map param_text list.now))) }
    ensures least { IfOk result (λ part. part.least ≡ least (spec.params_breaches (known_of tables.now).structs spec.nothing 1 at list.now)) }
{
    let mut seen = Seen::new(alloc);
    let mut part = Part {
        end: at,
        least: None,
    };
    for (i, p) in list.iter().enumerate() {
        let next = look_param(tables, &seen, i + 1, after_comma(i, part.end), p);
        seen.put(&p.local.name)?;
        part = Part {
            end: next.end,
            least: earlier(part.least, next.least),
        };
    }
    Ok(part)
}
