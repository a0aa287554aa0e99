//! The structures of threads' arguments, and the functions with which threads begin.

ghost use Rattle.std.specs.Prelude.{◌≡◌, ◌+◌, ◌<◌, ◌^◌, length, map, flat_map};
ghost use Rattle.std.specs.List.{slice_get};
ghost use Rattle.c_syntax.specs.Text.{commas, statement, type_text};
ghost use Rattle.c_forms.specs.Text.{arguments_struct, slot_name, starter_text, starter_function};
ghost use Rattle.c_rules.specs.Commas.{gap};
ghost use Rattle.c_rules.specs.Groups as spec;
ghost use Rattle.c_rules.specs.Least.{least};
ghost use Rattle.c_rules.specs.Lent.{lent};

use crate::calls::after_comma;
use crate::exprs::{Part, number_of};
use crate::kinds::{kind_of, same_type};
use crate::lengths::{name_end, number_end, type_end};
use crate::places::{earlier, unless};
use crate::prototypes::param_at;
use c_forms::{Head, Number, Param, Slot, Starter};

fn same_slot(k: usize, s: &Slot, p: Option<&Param>) -> bool
    ensures { result ≡ spec.same_slot k s.now (lent p.entry) }
{
    match p {
        None => false,
        Some(p) => same_type(kind_of(&s.kind), kind_of(&p.kind))
            && number_of(&s.number) as usize == k,
    }
}

/// Whether there is a member for each parameter.
fn same_slots(list: &[Slot], params: &[Param]) -> bool
    ensures { result ≡ spec.same_slots 1 list.now params.now }
{
    for (i, s) in list.iter().enumerate() {
        if !same_slot(i + 1, s, param_at(params, i)) {
            return false;
        }
    }
    param_at(params, list.len()).is_none()
}

/// Whether numbers count from 1.
fn are_numbered(list: &[Number]) -> bool
    ensures { result ≡ spec.are_numbered 1 list.now }
{
    for (i, n) in list.iter().enumerate() {
        if number_of(n) as usize != i + 1 {
            return false;
        }
    }
    true
}

fn has_struct(s: &Starter, h: &Head) -> bool
    ensures { result ≡ spec.has_struct s.now h.now }
{
    s.structure.same(&h.name) && same_slots(s.slots.as_slice(), h.params.as_slice())
}

fn has_function(s: &Starter, h: &Head) -> bool
    ensures { result ≡ spec.has_function s.now h.now }
{
    s.name.same(&h.name)
        && s.pointer.same(&h.name)
        && s.copy.same(&h.name)
        && s.function.same(&h.name)
        && are_numbered(s.arguments.as_slice())
        && s.arguments.as_slice().len() == h.params.as_slice().len()
}

/// Where the members end, the first of which begins at `at`.
fn slots_end(at: u32, list: &[Slot]) -> u32
    requires { at + length (flat_map spec.slot_text list.now) < 2 ^ 32 }
    ensures { result ≡ at + length (flat_map spec.slot_text list.now) }
{
    let mut end = at;
    for s in list {
        end = number_end(type_end(end + 2, &s.kind), &s.number) + 2;
    }
    end
}

/// Where the handed arguments end, the first of which begins at `at`.
fn handed_end(at: u32, list: &[Number]) -> u32
    requires { at + length (commas (map spec.handed_text list.now)) < 2 ^ 32 }
    ensures { result ≡ at + length (commas (map spec.handed_text list.now)) }
{
    let mut end = at;
    for (i, n) in list.iter().enumerate() {
        end = number_end(after_comma(i, end) + 2, n);
    }
    end
}

/// Where the structure of arguments ends that begins at `at`.
fn struct_end(at: u32, s: &Starter) -> u32
    requires { at + length (arguments_struct s.now) < 2 ^ 32 }
    ensures { result ≡ at + length (arguments_struct s.now) }
{
    slots_end(name_end(at + 7, 2, &s.structure) + 15, s.slots.as_slice()) + 3
}

/// Where the function ends with which a thread begins, where it begins at `at`.
fn function_end(at: u32, s: &Starter) -> u32
    requires { at + length (starter_function s.now) < 2 ^ 32 }
    ensures { result ≡ at + length (starter_function s.now) }
{
    let pointer = name_end(at + 11, 2, &s.name) + 12;
    let copy = name_end(pointer + 9, 2, &s.pointer) + 9;
    let free = name_end(copy + 9, 2, &s.copy) + 9;
    let call = name_end(free + 13, 2, &s.function) + 1;
    handed_end(call, s.arguments.as_slice()) + 17
}

/// The structure and the function of a thread's first call, where a thread of that function is next.
pub(crate) fn look_starter(at: u32, s: &Starter, h: Option<&Head>) -> Part
    requires { at + length (starter_text s.now) < 2 ^ 32 }
    ensures end { result.end ≡ at + length (starter_text s.now) }
    ensures least { result.least ≡ least (spec.starter_breaches at s.now (lent h.entry)) }
{
    let begin = struct_end(at, s);
    let end = function_end(begin, s);
    let least = match h {
        None => Some(at),
        Some(h) => {
            if has_struct(s, h) {
                unless(has_function(s, h), begin)
            } else {
                Some(at)
            }
        }
    };
    Part { end, least }
}
