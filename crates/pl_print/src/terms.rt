//! What expressions stand in: cells, calls, permissions and binders.

ghost use Rattle.std.specs.Prelude.{◌≡◌, ◌++◌, map};
ghost use Rattle.pl_syntax.specs.Plain.{plain_cell, plain_expr, plain_instance};
ghost use Rattle.pl_print.specs.Adds.{Adds};
ghost use Rattle.pl_print.specs.Lists.{commas};
ghost use Rattle.pl_print.specs.ExprText.{arrow_text, binder_text, binders_text, call_text, cell_text, instance_text, is_all, is_whole_part, label_text, last_perm_text, part_of_text, part_text, perm_text, sort_text, value_text};

use crate::exprs::{put_sum, put_value};
use crate::words::{put, put_count, put_name};
use pl_base::{Memory, Name, Perm};
use pl_syntax::{Binder, CellExpr, Expr, Instance, PermExpr, Sort};

pub(crate) fn put_cell(out: &mut Vec<u8>, cell: &CellExpr) -> Result<(), Memory>
    ensures { Adds result out.old out.new (cell_text (plain_cell cell.now)) }
{
    match cell {
        CellExpr::Whole(base) => put_name(out, base),
        CellExpr::At(base, index) => {
            put_name(out, base)?;
            put(out, b"[")?;
            put_sum(out, index)?;
            put(out, b"]")
        }
        CellExpr::Field(base, field) => {
            put_name(out, base)?;
            put(out, b".")?;
            put_name(out, field)
        }
    }
}

fn put_arguments(out: &mut Vec<u8>, args: &[Expr]) -> Result<(), Memory>
    ensures { Adds result out.old out.new (commas (map value_text (map plain_expr args.now))) }
{
    let [first, others @ ..] = args else {
        return Ok(());
    };
    put_value(out, first)?;
    for e in others {
        put(out, b", ")?;
        put_value(out, e)?;
    }
    Ok(())
}

pub(crate) fn put_call(out: &mut Vec<u8>, f: &Name, args: &[Expr]) -> Result<(), Memory>
    ensures { Adds result out.old out.new (call_text f.now (map plain_expr args.now)) }
{
    put_name(out, f)?;
    put(out, b"(")?;
    put_arguments(out, args)?;
    put(out, b")")
}

pub(crate) fn put_instance(out: &mut Vec<u8>, i: &Instance) -> Result<(), Memory>
    ensures { Adds result out.old out.new (instance_text (plain_instance i.now)) }
{
    put_call(out, &i.pred, i.args.as_slice())
}

/// Adds the label of an expression in front of it.
pub(crate) fn put_label(out: &mut Vec<u8>, label: &Option<Name>) -> Result<(), Memory>
    ensures { Adds result out.old out.new (label_text label.now) }
{
    let Some(name) = label else {
        return Ok(());
    };
    put_name(out, name)?;
    put(out, b": ")
}

/// Whether a part is the whole. In lowest terms it alone has the denominator 1.
fn is_whole(part: Perm) -> bool
    ensures { result ≡ is_whole_part part }
{
    part.den() == 1
}

fn put_part(out: &mut Vec<u8>, part: Perm) -> Result<(), Memory>
    ensures { Adds result out.old out.new (part_text part) }
{
    put_count(out, part.num())?;
    if is_whole(part) {
        return Ok(());
    }
    put(out, b"/")?;
    put_count(out, part.den())
}

/// Adds a part of a variable. Where it is the whole, the variable stands alone.
fn put_part_of(out: &mut Vec<u8>, part: Perm, name: &Name) -> Result<(), Memory>
    ensures { Adds result out.old out.new (part_of_text part name.now) }
{
    if !is_whole(part) {
        put_part(out, part)?;
        put(out, b"*")?;
    }
    put_name(out, name)
}

pub(crate) fn put_perm(out: &mut Vec<u8>, perm: &PermExpr) -> Result<(), Memory>
    ensures { Adds result out.old out.new (perm_text perm.now) }
{
    match &perm.var {
        None => put_part(out, perm.part),
        Some(name) => put_part_of(out, perm.part, name),
    }
}

/// Whether a permission is 1 without a variable.
fn is_all(perm: &PermExpr) -> bool
    ensures { result ≡ is_all perm.now }
{
    perm.var.is_none() && is_whole(perm.part)
}

/// Adds the arrow of a points-to with its permission.
pub(crate) fn put_arrow(out: &mut Vec<u8>, perm: &PermExpr) -> Result<(), Memory>
    ensures { Adds result out.old out.new (arrow_text perm.now) }
{
    if is_all(perm) {
        return put(out, b" |-> ");
    }
    put(out, b" |->{")?;
    put_perm(out, perm)?;
    put(out, b"} ")
}

/// Adds the permission of a slice behind its bounds.
pub(crate) fn put_last_perm(out: &mut Vec<u8>, perm: &PermExpr) -> Result<(), Memory>
    ensures { Adds result out.old out.new (last_perm_text perm.now) }
{
    if is_all(perm) {
        return Ok(());
    }
    put(out, b", ")?;
    put_perm(out, perm)
}

fn put_sort(out: &mut Vec<u8>, sort: &Sort) -> Result<(), Memory>
    ensures { Adds result out.old out.new (sort_text sort.now) }
{
    match sort {
        Sort::I64 => put(out, b"i64"),
        Sort::Bool => put(out, b"bool"),
        Sort::RefI64 => put(out, b"ref i64"),
        Sort::RefBool => put(out, b"ref bool"),
        Sort::RefStruct(name) => {
            put(out, b"ref ")?;
            put_name(out, name)
        }
        Sort::Atomic => put(out, b"atomic"),
        Sort::Lock => put(out, b"lock"),
        Sort::Int => put(out, b"int"),
        Sort::Perm => put(out, b"perm"),
        Sort::Gref => put(out, b"gref"),
        Sort::Iname => put(out, b"iname"),
    }
}

pub(crate) fn put_binder(out: &mut Vec<u8>, binder: &Binder) -> Result<(), Memory>
    ensures { Adds result out.old out.new (binder_text binder.now) }
{
    put_name(out, &binder.name)?;
    put(out, b": ")?;
    put_sort(out, &binder.sort)
}

pub(crate) fn put_binders(out: &mut Vec<u8>, binders: &[Binder]) -> Result<(), Memory>
    ensures { Adds result out.old out.new (binders_text binders.now) }
{
    let [first, others @ ..] = binders else {
        return Ok(());
    };
    put_binder(out, first)?;
    for binder in others {
        put(out, b", ")?;
        put_binder(out, binder)?;
    }
    Ok(())
}
