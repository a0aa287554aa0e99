//! Expressions, cells and calls.

ghost use Rattle.std.specs.Prelude.{map};
ghost use Rattle.c_syntax.specs.Plain.{plain_expr, plain_cell};
ghost use Rattle.c_syntax.specs.Tree as t;
ghost use Rattle.c_syntax.specs.Text.{constant, literal_text, truth_text, operator, expr_text, cell_text, call_text, commas};
ghost use Rattle.c_text.specs.Adds.{Adds};

use crate::pieces::{put, put_function_name, put_local, put_member_name, put_number};
use c_syntax::{CCell, CExpr, COp, Local};
use pl_base::{Memory, Name};

fn put_constant(out: &mut Vec<u8>, n: u64) -> Result<(), Memory>
    ensures { Adds result out.old out.new (constant n) }
{
    put(out, b"INT64_C(")?;
    put_number(out, n)?;
    put(out, b")")
}

fn put_literal(out: &mut Vec<u8>, n: i64) -> Result<(), Memory>
    ensures { Adds result out.old out.new (literal_text n) }
{
    if n >= 0 {
        return put_constant(out, n.unsigned_abs());
    }
    put(out, b"(-")?;
    if n == i64::MIN {
        put_constant(out, i64::MAX.unsigned_abs())?;
        put(out, b" - ")?;
        put_constant(out, 1)?;
    } else {
        put_constant(out, n.unsigned_abs())?;
    }
    put(out, b")")
}

fn put_truth(out: &mut Vec<u8>, b: bool) -> Result<(), Memory>
    ensures { Adds result out.old out.new (truth_text b) }
{
    if b {
        put(out, b"true")
    } else {
        put(out, b"false")
    }
}

fn put_operator(out: &mut Vec<u8>, op: COp) -> Result<(), Memory>
    ensures { Adds result out.old out.new (operator op) }
{
    let text: &[u8] = match op {
        COp::Add => b" + ",
        COp::Sub => b" - ",
        COp::Mul => b" * ",
        COp::Div => b" / ",
        COp::Rem => b" % ",
        COp::Lt => b" < ",
        COp::Le => b" <= ",
        COp::Gt => b" > ",
        COp::Ge => b" >= ",
        COp::Eq => b" == ",
        COp::Ne => b" != ",
        COp::And => b" && ",
        COp::Or => b" || ",
    };
    put(out, text)
}

pub(crate) fn put_expr(out: &mut Vec<u8>, e: &CExpr) -> Result<(), Memory>
    ensures { Adds result out.old out.new (expr_text (plain_expr e.now)) }
{
    match e {
        CExpr::Int(n) => put_literal(out, *n),
        CExpr::Truth(b) => put_truth(out, *b),
        CExpr::Null => put(out, b"NULL"),
        CExpr::Var(x) => put_local(out, x),
        CExpr::Neg(inner) => {
            put(out, b"(-")?;
            put_expr(out, inner)?;
            put(out, b")")
        }
        CExpr::Not(inner) => {
            put(out, b"(!")?;
            put_expr(out, inner)?;
            put(out, b")")
        }
        CExpr::Bin(op, left, right) => {
            put(out, b"(")?;
            put_expr(out, left)?;
            put_operator(out, *op)?;
            put_expr(out, right)?;
            put(out, b")")
        }
    }
}

pub(crate) fn put_field(out: &mut Vec<u8>, base: &Local, member: &Name) -> Result<(), Memory>
    ensures { Adds result out.old out.new (cell_text (t.Field base.now member.now)) }
{
    put_local(out, base)?;
    put(out, b"->")?;
    put_member_name(out, member)
}

pub(crate) fn put_cell(out: &mut Vec<u8>, cell: &CCell) -> Result<(), Memory>
    ensures { Adds result out.old out.new (cell_text (plain_cell cell.now)) }
{
    match cell {
        CCell::Whole(base) => {
            put(out, b"*")?;
            put_local(out, base)
        }
        CCell::At(base, index) => {
            put_local(out, base)?;
            put(out, b"[")?;
            put_expr(out, index)?;
            put(out, b"]")
        }
        CCell::Field(base, member) => put_field(out, base, member),
    }
}

fn put_arguments(out: &mut Vec<u8>, args: &[CExpr]) -> Result<(), Memory>
    ensures { Adds result out.old out.new (commas (map expr_text (map plain_expr args.now))) }
{
    let [first, others @ ..] = args else {
        return Ok(());
    };
    put_expr(out, first)?;
    for e in others {
        put(out, b", ")?;
        put_expr(out, e)?;
    }
    Ok(())
}

pub(crate) fn put_call(out: &mut Vec<u8>, f: &Name, args: &[CExpr]) -> Result<(), Memory>
    ensures { Adds result out.old out.new (call_text f.now (map plain_expr args.now)) }
{
    put_function_name(out, f)?;
    put(out, b"(")?;
    put_arguments(out, args)?;
    put(out, b")")
}
