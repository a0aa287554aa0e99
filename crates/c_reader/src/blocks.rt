//! Statements in a row, where first values are gathered into the statement that makes their block.

ghost use Rattle.std.specs.Prelude.{◌≡◌, ◌∷◌, [], map, Option, None, IfOk, OnOk};
ghost use Rattle.c_forms.specs.Plain as written;
ghost use Rattle.c_rules.specs.ByName.{structs_in};
ghost use Rattle.c_rules.specs.Lines.{members_or_none, member_of};
ghost use Rattle.c_syntax.specs.Plain.{plain_init, plain_stmt, plain_stmts};
ghost use Rattle.c_syntax.specs.Tree as t;
ghost use Rattle.c_reader.specs.Follow.{follow};
ghost use Rattle.c_reader.specs.Standing as spec;
ghost use Rattle.c_reader.specs.Gathers.{first_value, gathered_of, gathering, structured};

use crate::exprs::expr_of;
use crate::lines::{atomic_store_of, bind_of, call_of, loads_of, par_of, store_of};
use crate::words::{copy_local, copy_name, local_of};
use c_forms::{Local, Member, Right, Stmt};
use c_rules::{FirstValue, next_member, value_line};
use c_syntax::{CInit, CStmt};
use pl_base::{Items, Memory, Name};
use std::alloc::Global;
use std::collections::HashMap;

/// The members of structures by name.
#[derive(Drop)]
pub(crate) struct Structs<'a> {
    pub table: HashMap<&'a str, &'a [Member]>,
}

/// A structure's block whose first values are gathered. It borrows nothing of its lines, so that each can be let go of once
/// it is converted.
#[derive(Drop)]
pub(crate) struct Gathering<'a> {
    /// The local that it is bound to.
    pub local: Local,
    pub structure: Name,
    /// The first values so far.
    pub inits: Vec<CInit>,
    /// The members that are left.
    pub members: &'a [Member],
}

/// The members of the structure of that name; one that isn't declared has none.
fn members<'a>(structs: &Structs<'a>, name: &Name) -> &'a [Member]
    ensures { map member_of result.now ≡ members_or_none (structs_in structs.now.table name.now) }
{
    match structs.table.get(name.text()) {
        None => &[],
        Some(members) => *members,
    }
}

/// A local that gets a structure's block.
#[derive(Clone, Copy)]
pub(crate) struct Bare<'a> {
    pub local: &'a Local,
    pub structure: &'a Name,
}

/// The structure's block that a line binds, if it is such a line.
fn structure_line(s: &Stmt) -> Option<Bare<'_>>
    ensures { structured result ≡ spec.structure_line (written.plain_stmt s.now) }
{
    match s {
        Stmt::Bind(_, local, right) => structure_right(local, right),
        _ => None,
    }
}

/// The structure's block that a right side makes, if it does.
fn structure_right<'a>(local: &'a Local, right: &'a Right) -> Option<Bare<'a>>
    ensures { structured result ≡ spec.structure_right local.now (written.plain_right right.now) }
{
    match right {
        Right::Struct(structure) => Some(Bare { local, structure }),
        _ => None,
    }
}

/// One first value more; those members are left.
fn given<'a>(
    alloc: Global,
    g: Gathering<'a>,
    v: FirstValue<'_>,
    members: &'a [Member],
) -> Result<Gathering<'a>, Memory>
    ensures { IfOk result (λ made. gathered_of made ≡ spec.given (gathered_of g.entry) (first_value v.entry) (map member_of members.now)) }
{
    let Gathering {
        local,
        structure,
        mut inits,
        ..
    } = g;
    let name = copy_name(alloc, v.member)?;
    let value = expr_of(alloc, v.value)?;
    inits.push(CInit { name, value })?;
    Ok(Gathering {
        local,
        structure,
        inits,
        members,
    })
}

/// The block with all its first values.
fn block_of(alloc: Global, g: Gathering<'_>) -> Result<CStmt, Memory>
    ensures { IfOk result (λ s. plain_stmt s ≡ spec.block_of (gathered_of g.entry)) }
{
    let Gathering {
        local,
        structure,
        inits,
        ..
    } = g;
    let local = local_of(alloc, &local)?;
    Ok(CStmt::NewStruct(local, structure, Items::of(inits)))
}

/// The block is whole if no member is left.
#[tactic(auto, using(crate::proofs::FollowLaws::follow_end, crate::proofs::FollowLaws::follow_push))]
fn settle<'a>(
    alloc: Global,
    out: &mut Vec<CStmt>,
    g: Gathering<'a>,
) -> Result<Option<Gathering<'a>>, Memory>
    ensures { IfOk result (λ left. (rest : Option spec.Gathered → t.Stmts) →
        follow (map plain_stmt out.new.items) (rest (gathering left)) ≡ follow (map plain_stmt out.old.items) (spec.begun (gathered_of g.entry) (gathered_of g.entry).members rest)) }
{
    match g.members {
        [] => {
            let block = block_of(alloc, g)?;
            out.push(block)?;
            Ok(None)
        }
        _ => Ok(Some(g)),
    }
}

/// A statement that stands for itself.
#[cycle(blocks)]
#[tactic(auto, using(crate::proofs::FollowLaws::follow_end, crate::proofs::FollowLaws::follow_push))]
fn put_stmt(
    s: &Stmt,
    alloc: Global,
    structs: &Structs<'_>,
    out: &mut Vec<CStmt>,
) -> Result<(), Memory>
    ensures { OnOk result ((rest : t.Stmts) →
        follow (map plain_stmt out.new.items) rest ≡ follow (map plain_stmt out.old.items) (t.more (spec.stmt_of (structs_in structs.now.table) (written.plain_stmt s.now)) rest)) }
{
    let made = stmt_of(s, alloc, structs)?;
    out.push(made)?;
    Ok(())
}

/// A line where that is gathered.
#[cycle(blocks)]
#[tactic(auto, using(crate::proofs::FollowLaws::follow_end, crate::proofs::FollowLaws::follow_push))]
pub(crate) fn put_line<'a>(
    s: &Stmt,
    alloc: Global,
    structs: &Structs<'a>,
    out: &mut Vec<CStmt>,
    gathered: Option<Gathering<'a>>,
) -> Result<Option<Gathering<'a>>, Memory>
    ensures { IfOk result (λ left. (rest : Option spec.Gathered → t.Stmts) →
        follow (map plain_stmt out.new.items) (rest (gathering left)) ≡ follow (map plain_stmt out.old.items)
        (spec.line_of (structs_in structs.now.table) (gathering gathered.entry) (written.plain_stmt s.now) (spec.stmt_of (structs_in structs.now.table) (written.plain_stmt s.now)) rest)) }
{
    let Some(g) = gathered else {
        return put_plain(s, alloc, structs, out);
    };
    let Some((_, left)) = next_member(g.members) else {
        put_stmt(s, alloc, structs, out)?;
        return Ok(None);
    };
    let Some(v) = value_line(&g.local, s) else {
        put_stmt(s, alloc, structs, out)?;
        return Ok(None);
    };
    let g = given(alloc, g, v, left)?;
    settle(alloc, out, g)
}

/// A line where nothing is gathered.
#[cycle(blocks)]
#[tactic(auto, using(crate::proofs::FollowLaws::follow_end, crate::proofs::FollowLaws::follow_push))]
fn put_plain<'a>(
    s: &Stmt,
    alloc: Global,
    structs: &Structs<'a>,
    out: &mut Vec<CStmt>,
) -> Result<Option<Gathering<'a>>, Memory>
    ensures { IfOk result (λ left. (rest : Option spec.Gathered → t.Stmts) →
        follow (map plain_stmt out.new.items) (rest (gathering left)) ≡ follow (map plain_stmt out.old.items)
        (spec.plain_line (structs_in structs.now.table) (spec.structure_line (written.plain_stmt s.now)) (spec.stmt_of (structs_in structs.now.table) (written.plain_stmt s.now)) rest)) }
{
    match structure_line(s) {
        None => {
            put_stmt(s, alloc, structs, out)?;
            Ok(None)
        }
        Some(bare) => {
            let members = members(structs, bare.structure);
            let g = Gathering {
                local: copy_local(alloc, bare.local)?,
                structure: copy_name(alloc, bare.structure)?,
                inits: Vec::with_capacity(alloc, members.len())?,
                members,
            };
            settle(alloc, out, g)
        }
    }
}

/// The statements in a row.
#[cycle(blocks)]
#[tactic(auto, using(crate::proofs::FollowLaws::follow_end, crate::proofs::FollowLaws::follow_push))]
pub(crate) fn stmts_of(
    list: &[Stmt],
    alloc: Global,
    structs: &Structs<'_>,
) -> Result<Items<CStmt>, Memory>
    ensures { IfOk result (λ made. plain_stmts made ≡ spec.stmts_of (structs_in structs.now.table) (written.plain_stmts list.now) None) }
{
    let mut out = Vec::with_capacity(alloc, list.len())?;
    let mut gathered = None;
    for s in list {
        gathered = put_line(s, alloc, structs, &mut out, gathered)?;
    }
    out.shrink_to_fit();
    Ok(Items::of(out))
}

/// The statement that a line stands for by itself.
#[cycle(blocks)]
#[tactic(auto, using(crate::proofs::FollowLaws::follow_end, crate::proofs::FollowLaws::follow_push))]
fn stmt_of(s: &Stmt, alloc: Global, structs: &Structs<'_>) -> Result<CStmt, Memory>
    ensures { IfOk result (λ made. plain_stmt made ≡ spec.stmt_of (structs_in structs.now.table) (written.plain_stmt s.now)) }
{
    match s {
        Stmt::Bind(kind, x, right) => bind_of(alloc, kind, x, right),
        Stmt::Store(cell, e) => store_of(alloc, cell, e),
        Stmt::Free(base) => {
            let base = local_of(alloc, base)?;
            Ok(CStmt::Free(base))
        }
        Stmt::AtomicStore(base, e) => atomic_store_of(alloc, base, e),
        Stmt::Acquire(lock) => {
            let lock = local_of(alloc, lock)?;
            Ok(CStmt::Acquire(lock))
        }
        Stmt::Release(lock) => {
            let lock = local_of(alloc, lock)?;
            Ok(CStmt::Release(lock))
        }
        Stmt::Print(e) => {
            let e = expr_of(alloc, e)?;
            Ok(CStmt::Print(e))
        }
        Stmt::Call(f, args) => call_of(alloc, f, args.as_slice()),
        Stmt::Par(p) => par_of(alloc, p),
        Stmt::If(e, first, second) => {
            let e = expr_of(alloc, e)?;
            let first = stmts_of(first.as_slice(), alloc, structs)?;
            let second = stmts_of(second.as_slice(), alloc, structs)?;
            Ok(CStmt::If(e, first, second))
        }
        Stmt::While(loads, e, body) => {
            let loads = loads_of(alloc, loads.as_slice())?;
            let e = expr_of(alloc, e)?;
            let body = stmts_of(body.as_slice(), alloc, structs)?;
            Ok(CStmt::While(loads, e, body))
        }
        Stmt::Return(e) => {
            let e = expr_of(alloc, e)?;
            Ok(CStmt::Return(e))
        }
    }
}
