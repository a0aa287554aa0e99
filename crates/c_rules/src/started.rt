//! The functions with which threads begin.

ghost use Rattle.std.specs.Prelude.{◌≡◌, ◌+◌, ◌<◌, ◌^◌, [], ◌∷◌, length, map, flat_map, IfOk, OnOk};
ghost use Rattle.std.specs.List.{slice_get};
ghost use Rattle.c_forms.specs.Plain.{plain_fun, plain_stmt, plain_stmts};
ghost use Rattle.c_forms.specs.Text.{starter_text};
ghost use Rattle.c_rules.specs.Groups as spec;
ghost use Rattle.c_rules.specs.Least.{least};
ghost use Rattle.c_rules.specs.Lent.{lent};
ghost use Rattle.c_rules.specs.Seen.{taken_in};

use crate::exprs::Part;
use crate::places::earlier;
use crate::seen::Seen;
use crate::starters::look_starter;
use c_forms::{Fun, Head, Starter, Stmt};
use pl_base::Memory;
use std::alloc::Global;

#[cycle(starts)]
#[tactic(auto, using(crate::proofs::SeenLaws::put_all_append))]
fn add_stmt<'a>(seen: &mut Seen<'a>, s: &'a Stmt) -> Result<(), Memory>
    ensures { OnOk result (taken_in seen.new ≡ spec.put_all (spec.stmt_starts (plain_stmt s.now)) (taken_in seen.old)) }
{
    match s {
        Stmt::Par(p) => {
            seen.put(&p.structure)?;
            Ok(())
        }
        Stmt::If(_, first, second) => {
            add_stmts(seen, first.as_slice())?;
            add_stmts(seen, second.as_slice())?;
            Ok(())
        }
        Stmt::While(_, _, body) => {
            add_stmts(seen, body.as_slice())?;
            Ok(())
        }
        _ => Ok(()),
    }
}

#[cycle(starts)]
#[tactic(auto, using(crate::proofs::SeenLaws::put_all_append))]
fn add_stmts<'a>(seen: &mut Seen<'a>, list: &'a [Stmt]) -> Result<(), Memory>
    ensures { OnOk result (taken_in seen.new ≡ spec.put_all (spec.stmts_starts (plain_stmts list.now)) (taken_in seen.old)) }
{
    for s in list {
        add_stmt(seen, s)?;
    }
    Ok(())
}

/// The names of the functions that are first in a `par`.
#[tactic(auto, using(crate::proofs::SeenLaws::put_all_append))]
fn starts<'a>(alloc: Global, funs: &'a [Fun]) -> Result<Seen<'a>, Memory>
    ensures { IfOk result (λ seen. taken_in seen ≡ spec.among (spec.funs_starts (map plain_fun funs.now))) }
{
    let mut seen = Seen::new(alloc);
    for f in funs {
        add_stmts(&mut seen, f.body.as_slice())?;
    }
    Ok(seen)
}

/// The heads of the functions with which threads begin.
pub(crate) fn started<'a>(alloc: Global, funs: &'a [Fun]) -> Result<Vec<&'a Head>, Memory>
    ensures { IfOk result (λ heads. map (λ h. h.now) heads.items ≡ spec.started (map plain_fun funs.now)) }
{
    let names = starts(alloc, funs)?;
    let mut heads = Vec::new(alloc);
    for f in funs {
        if names.has(&f.head.name) {
            heads.push(&f.head)?;
        }
    }
    Ok(heads)
}

/// The head at that place.
fn head_at<'a>(list: &[&'a Head], i: usize) -> Option<&'a Head>
    ensures { lent result ≡ slice_get (map (λ h. h.now) list.now) i }
{
    match list.get(i) {
        None => None,
        Some(h) => Some(*h),
    }
}

/// The structures of arguments and starters of a text, compared with the functions with which threads begin.
pub(crate) fn look_starters(at: u32, list: &[Starter], heads: &[&Head]) -> Part
    requires { at + length (flat_map starter_text list.now) < 2 ^ 32 }
    ensures end { result.end ≡ at + length (flat_map starter_text list.now) }
    ensures least { result.least ≡ least (spec.starters_breaches at list.now (map (λ h. h.now) heads.now)) }
{
    let mut part = Part {
        end: at,
        least: None,
    };
    for (i, s) in list.iter().enumerate() {
        let next = look_starter(part.end, s, head_at(heads, i));
        part = Part {
            end: next.end,
            least: earlier(part.least, next.least),
        };
    }
    part
}
