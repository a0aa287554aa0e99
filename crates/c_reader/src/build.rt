//! The program for which a text stands that breaks no rule.

ghost use Rattle.std.specs.Prelude.{◌≡◌, map, IfOk};
ghost use Rattle.c_forms.specs.Plain as written;
ghost use Rattle.c_rules.specs.ByName.{structs_in};
ghost use Rattle.c_rules.specs.Groups as rules;
ghost use Rattle.c_rules.specs.Lines.{member_of};
ghost use Rattle.c_syntax.specs.Plain.{plain_fun, plain_program};
ghost use Rattle.c_reader.specs.Standing as spec;

use crate::blocks::{Structs, stmts_of};
use crate::words::{copy_name, copy_type, local_of};
use c_forms::{Fun, Member, Param, Source, Struct};
use c_rules::struct_table;
use c_syntax::{CFun, CMember, CParam, CProgram, CStruct};
use pl_base::{Items, Memory};
use std::alloc::Global;

/// The members that are written.
fn members_of(alloc: Global, list: &[Member]) -> Result<Items<CMember>, Memory>
    ensures { IfOk result (λ made. made ≡ map member_of list.now) }
{
    let mut made = Vec::with_capacity(alloc, list.len())?;
    for m in list {
        let name = copy_name(alloc, &m.name)?;
        let kind = copy_type(alloc, &m.kind)?;
        made.push(CMember { name, kind })?;
    }
    Ok(Items::of(made))
}

/// The structures that are written.
pub(crate) fn structs_of(alloc: Global, list: &[Struct]) -> Result<Items<CStruct>, Memory>
    ensures { IfOk result (λ made. made ≡ map rules.struct_of list.now) }
{
    let mut made = Vec::with_capacity(alloc, list.len())?;
    for d in list {
        let name = copy_name(alloc, &d.name)?;
        let members = members_of(alloc, d.members.as_slice())?;
        made.push(CStruct { name, members })?;
    }
    Ok(Items::of(made))
}

/// The parameters that are written.
pub(crate) fn params_of(alloc: Global, list: &[Param]) -> Result<Items<CParam>, Memory>
    ensures { IfOk result (λ made. made ≡ map spec.param_of list.now) }
{
    let mut made = Vec::with_capacity(alloc, list.len())?;
    for p in list {
        let local = local_of(alloc, &p.local)?;
        let kind = copy_type(alloc, &p.kind)?;
        made.push(CParam { local, kind })?;
    }
    Ok(Items::of(made))
}

/// The function that is written.
fn fun_of(alloc: Global, structs: &Structs<'_>, f: &Fun) -> Result<CFun, Memory>
    ensures { IfOk result (λ made. plain_fun made ≡ spec.fun_of (structs_in structs.now.table) (written.plain_fun f.now)) }
{
    let name = copy_name(alloc, &f.head.name)?;
    let result = copy_type(alloc, &f.head.result)?;
    let params = params_of(alloc, f.head.params.as_slice())?;
    let body = stmts_of(f.body.as_slice(), alloc, structs)?;
    Ok(CFun {
        name,
        result,
        params,
        body,
    })
}

/// The functions that are written.
fn funs_of(alloc: Global, structs: &Structs<'_>, list: &[Fun]) -> Result<Items<CFun>, Memory>
    ensures { IfOk result (λ made. map plain_fun made ≡ map (spec.fun_of (structs_in structs.now.table)) (map written.plain_fun list.now)) }
{
    let mut made = Vec::with_capacity(alloc, list.len())?;
    for f in list {
        let next = fun_of(alloc, structs, f)?;
        made.push(next)?;
    }
    Ok(Items::of(made))
}

/// The program for which a text stands.
pub fn program_of(alloc: Global, source: &Source) -> Result<CProgram, Memory>
    ensures { IfOk result (λ made. plain_program made ≡ spec.program_of (written.plain_source source.now)) }
{
    let structs = structs_of(alloc, source.structs.as_slice())?;
    let table = Structs {
        table: struct_table(alloc, source.structs.as_slice())?,
    };
    let funs = funs_of(alloc, &table, source.funs.as_slice())?;
    Ok(CProgram { structs, funs })
}
