//! Tables of what a file declares.

ghost use Rattle.std.specs.Prelude.{◌≡◌, IfOk, OnOk, map};
ghost use Rattle.pl_syntax.specs.Plain.{plain_decl};
ghost use Rattle.pl_syntax.specs.Known as spec;
ghost use Rattle.pl_types.specs.Tables.{lists_in, funs_in, taken_in, known_of};

use crate::seen::Seen;
use crate::tables::{Callee, Tables};
use pl_base::Memory;
use pl_syntax::{Binder, Decl, FunDecl};
use std::alloc::Global;
use std::collections::HashMap;

/// The fields of a structure under its name.
fn put_struct<'a>(table: &mut HashMap<&'a str, &'a [Binder]>, d: &'a Decl) -> Result<(), Memory>
    ensures { OnOk result (lists_in table.new ≡ spec.with_struct (plain_decl d.now) (lists_in table.old)) }
{
    match d {
        Decl::Struct(s) => {
            table.insert(s.name.text(), s.fields.as_slice())?;
            Ok(())
        }
        _ => Ok(()),
    }
}

/// The parameters of a predicate under its name.
fn put_pred<'a>(table: &mut HashMap<&'a str, &'a [Binder]>, d: &'a Decl) -> Result<(), Memory>
    ensures { OnOk result (lists_in table.new ≡ spec.with_pred (plain_decl d.now) (lists_in table.old)) }
{
    match d {
        Decl::Pred(p) => {
            table.insert(p.name.text(), p.params.as_slice())?;
            Ok(())
        }
        _ => Ok(()),
    }
}

/// A function with its place.
fn place_at<'a>(place: usize, decl: &'a FunDecl) -> Callee<'a>
    ensures place { result.place ≡ place }
    ensures decl { result.decl.now ≡ decl.now }
{
    Callee { place, decl }
}

/// A function under its name.
fn put_fun<'a>(
    table: &mut HashMap<&'a str, Callee<'a>>,
    place: usize,
    d: &'a Decl,
) -> Result<(), Memory>
    ensures { OnOk result (funs_in table.new ≡ spec.with_fun place (plain_decl d.now) (funs_in table.old)) }
{
    match d {
        Decl::Fun(f) => {
            table.insert(f.name.text(), place_at(place, f))?;
            Ok(())
        }
        _ => Ok(()),
    }
}

/// The fields of structures by name; of two structures of one name the first counts.
fn struct_table<'a>(
    alloc: Global,
    list: &'a [Decl],
) -> Result<HashMap<&'a str, &'a [Binder]>, Memory>
    ensures { IfOk result (λ table. lists_in table ≡ spec.structs_of (map plain_decl list.now)) }
{
    let mut table = HashMap::new(alloc);
    let mut i = list.len();
    while i > 0 {
        i -= 1;
        put_struct(&mut table, &list[i])?;
    }
    Ok(table)
}

/// The parameters of predicates by name.
fn pred_table<'a>(alloc: Global, list: &'a [Decl]) -> Result<HashMap<&'a str, &'a [Binder]>, Memory>
    ensures { IfOk result (λ table. lists_in table ≡ spec.preds_of (map plain_decl list.now)) }
{
    let mut table = HashMap::new(alloc);
    let mut i = list.len();
    while i > 0 {
        i -= 1;
        put_pred(&mut table, &list[i])?;
    }
    Ok(table)
}

/// Functions by name.
fn fun_table<'a>(alloc: Global, list: &'a [Decl]) -> Result<HashMap<&'a str, Callee<'a>>, Memory>
    ensures { IfOk result (λ table. funs_in table ≡ spec.funs_of 0 (map plain_decl list.now)) }
{
    let mut table = HashMap::new(alloc);
    let mut i = list.len();
    while i > 0 {
        i -= 1;
        put_fun(&mut table, i, &list[i])?;
    }
    Ok(table)
}

/// The names of fields.
fn put_fields<'a>(seen: &mut Seen<'a>, list: &'a [Binder]) -> Result<(), Memory>
    ensures { OnOk result (taken_in seen.new ≡ spec.put_fields list.now (taken_in seen.old)) }
{
    for b in list {
        seen.put(&b.name)?;
    }
    Ok(())
}

/// The names of the fields of a structure.
fn put_decl<'a>(seen: &mut Seen<'a>, d: &'a Decl) -> Result<(), Memory>
    ensures { OnOk result (taken_in seen.new ≡ spec.with_fields (plain_decl d.now) (taken_in seen.old)) }
{
    match d {
        Decl::Struct(s) => put_fields(seen, s.fields.as_slice()),
        _ => Ok(()),
    }
}

/// The names of all fields.
fn field_names<'a>(alloc: Global, list: &'a [Decl]) -> Result<Seen<'a>, Memory>
    ensures { IfOk result (λ seen. taken_in seen ≡ spec.fields_of (map plain_decl list.now) spec.nothing) }
{
    let mut seen = Seen::new(alloc);
    for d in list {
        put_decl(&mut seen, d)?;
    }
    Ok(seen)
}

/// What a file declares.
pub(crate) fn tables_of<'a>(alloc: Global, list: &'a [Decl]) -> Result<Tables<'a>, Memory>
    ensures { IfOk result (λ tables. known_of tables ≡ spec.known_in (map plain_decl list.now)) }
{
    let structs = struct_table(alloc, list)?;
    let preds = pred_table(alloc, list)?;
    let funs = fun_table(alloc, list)?;
    let fields = field_names(alloc, list)?;
    Ok(Tables {
        structs,
        preds,
        funs,
        fields,
    })
}
