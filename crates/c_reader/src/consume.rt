//! The program for which a text stands, out of trees that are let go of on the way. So no two trees of a whole text, nor of one
//! long function, stand side by side.

ghost use Rattle.std.specs.Prelude.{◌≡◌, map, IfOk, None};
ghost use Rattle.c_forms.specs.Plain as written;
ghost use Rattle.c_rules.specs.ByName.{structs_in};
ghost use Rattle.c_syntax.specs.Plain.{plain_fun, plain_program, plain_stmts};
ghost use Rattle.c_reader.specs.Standing as spec;

use crate::blocks::{Structs, put_line};
use crate::build::{params_of, structs_of};
use c_forms::{Fun, Head, Source, Stmt};
use c_rules::struct_table;
use c_syntax::{CFun, CProgram, CStmt};
use pl_base::{Items, Memory};
use std::alloc::Global;

/// The statements of a function.
fn body_from(
    alloc: Global,
    structs: &Structs<'_>,
    list: Items<Stmt>,
) -> Result<Items<CStmt>, Memory>
    ensures { IfOk result (λ made. plain_stmts made ≡ spec.stmts_of (structs_in structs.now.table) (written.plain_stmts list) None) }
{
    let list = list.into_vec();
    let mut out = Vec::with_capacity(alloc, list.len())?;
    let mut gathered = None;
    for s in list {
        gathered = put_line(&s, alloc, structs, &mut out, gathered)?;
    }
    out.shrink_to_fit();
    Ok(Items::of(out))
}

/// The function that is written.
fn fun_from(alloc: Global, structs: &Structs<'_>, f: Fun) -> Result<CFun, Memory>
    ensures { IfOk result (λ made. plain_fun made ≡ spec.fun_of (structs_in structs.now.table) (written.plain_fun f)) }
{
    let Fun { head, body } = f;
    let Head {
        result,
        name,
        params,
    } = head;
    let params = params_of(alloc, params.as_slice())?;
    let body = body_from(alloc, structs, body)?;
    Ok(CFun {
        name,
        result,
        params,
        body,
    })
}

/// The functions that are written.
fn funs_from(alloc: Global, structs: &Structs<'_>, list: Items<Fun>) -> Result<Items<CFun>, Memory>
    ensures { IfOk result (λ made. map plain_fun made ≡ map (spec.fun_of (structs_in structs.now.table)) (map written.plain_fun list)) }
{
    let list = list.into_vec();
    let mut made = Vec::with_capacity(alloc, list.len())?;
    for f in list {
        let next = fun_from(alloc, structs, f)?;
        made.push(next)?;
    }
    Ok(Items::of(made))
}

/// The program for which a text stands.
pub(crate) fn program_from(alloc: Global, source: Source) -> Result<CProgram, Memory>
    ensures { IfOk result (λ made. plain_program made ≡ spec.program_of (written.plain_source source)) }
{
    let Source { structs, funs, .. } = source;
    let made = structs_of(alloc, structs.as_slice())?;
    let table = Structs {
        table: struct_table(alloc, structs.as_slice())?,
    };
    let funs = funs_from(alloc, &table, funs)?;
    Ok(CProgram {
        structs: made,
        funs,
    })
}
