//! Expressions.

ghost use Rattle.std.specs.Prelude.{◌≡◌};
ghost use Rattle.pl_syntax.specs.Plain.{plain_expr};
ghost use Rattle.pl_print.specs.Adds.{Adds};
ghost use Rattle.pl_print.specs.ExprText.{behind_minus, expr_text, groups, is_bare, left_place, literal_text, operator, right_place, sum, sum_text, tightness, truth_text, unary, value_text, whole};

use crate::words::{put, put_name, put_number, put_where};
use pl_base::Memory;
use pl_syntax::{BinOp, Expr};

// Places, by how tight what stands there binds at least.

/// Any expression.
const WHOLE: u8 = 0;
/// A sum.
const SUM: u8 = 4;
/// An operand of a unary operator.
const UNARY: u8 = 6;
/// Right behind a minus, where a number would be read as a negative literal.
const BEHIND_MINUS: u8 = 7;

/// How tight an operator with its operands binds.
fn tightness(op: BinOp) -> u8
    ensures { result ≡ tightness op }
{
    match op {
        BinOp::Implies => 0,
        BinOp::Or => 1,
        BinOp::And => 2,
        BinOp::Lt | BinOp::Le | BinOp::Gt | BinOp::Ge | BinOp::Eq | BinOp::Ne => 3,
        BinOp::Add | BinOp::Sub => 4,
        BinOp::Mul | BinOp::Div | BinOp::Rem => 5,
    }
}

/// Whether an operator groups.
fn groups(op: BinOp) -> bool
    ensures { result ≡ groups op }
{
    match op {
        BinOp::Implies => false,
        BinOp::Lt | BinOp::Le | BinOp::Gt | BinOp::Ge | BinOp::Eq | BinOp::Ne => false,
        _ => true,
    }
}

fn right_place(op: BinOp) -> u8
    ensures { result ≡ right_place op }
{
    match op {
        BinOp::Implies => 1,
        BinOp::Or => 2,
        BinOp::And => 3,
        BinOp::Lt | BinOp::Le | BinOp::Gt | BinOp::Ge | BinOp::Eq | BinOp::Ne => 4,
        BinOp::Add | BinOp::Sub => 5,
        BinOp::Mul | BinOp::Div | BinOp::Rem => 6,
    }
}

fn left_place(op: BinOp) -> u8
    ensures { result ≡ left_place op }
{
    if groups(op) {
        tightness(op)
    } else {
        right_place(op)
    }
}

fn put_operator(out: &mut Vec<u8>, op: BinOp) -> Result<(), Memory>
    ensures { Adds result out.old out.new (operator op) }
{
    let text: &[u8] = match op {
        BinOp::Add => b" + ",
        BinOp::Sub => b" - ",
        BinOp::Mul => b" * ",
        BinOp::Div => b" / ",
        BinOp::Rem => b" % ",
        BinOp::Lt => b" < ",
        BinOp::Le => b" <= ",
        BinOp::Gt => b" > ",
        BinOp::Ge => b" >= ",
        BinOp::Eq => b" == ",
        BinOp::Ne => b" != ",
        BinOp::And => b" && ",
        BinOp::Or => b" || ",
        BinOp::Implies => b" ==> ",
    };
    put(out, text)
}

fn put_truth(out: &mut Vec<u8>, b: bool) -> Result<(), Memory>
    ensures { Adds result out.old out.new (truth_text b) }
{
    if b {
        put(out, b"true")
    } else {
        put(out, b"false")
    }
}

/// Whether a number has no minus.
fn is_bare(n: i128) -> bool
    ensures { result ≡ is_bare n }
{
    n >= 0
}

fn put_literal(out: &mut Vec<u8>, place: u8, n: i128) -> Result<(), Memory>
    ensures { Adds result out.old out.new (literal_text place n) }
{
    let in_brackets = place == BEHIND_MINUS && is_bare(n);
    put_where(out, in_brackets, b"(")?;
    put_number(out, n)?;
    put_where(out, in_brackets, b")")
}

/// Adds an expression, in brackets where it binds less tight than its place wants.
fn put_at(out: &mut Vec<u8>, place: u8, e: &Expr) -> Result<(), Memory>
    ensures { Adds result out.old out.new (expr_text place (plain_expr e.now)) }
{
    match e {
        Expr::Int(_, n) => put_literal(out, place, *n),
        Expr::Truth(_, b) => put_truth(out, *b),
        Expr::Null(_) => put(out, b"null"),
        Expr::Var(_, x) => put_name(out, x),
        Expr::Neg(_, operand) => {
            put(out, b"-")?;
            put_at(out, BEHIND_MINUS, operand)
        }
        Expr::Not(_, operand) => {
            put(out, b"not ")?;
            put_at(out, UNARY, operand)
        }
        Expr::Bin(_, op, left, right) => {
            let in_brackets = tightness(*op) < place;
            put_where(out, in_brackets, b"(")?;
            put_at(out, left_place(*op), left)?;
            put_operator(out, *op)?;
            put_at(out, right_place(*op), right)?;
            put_where(out, in_brackets, b")")
        }
    }
}

pub(crate) fn put_value(out: &mut Vec<u8>, e: &Expr) -> Result<(), Memory>
    ensures { Adds result out.old out.new (value_text (plain_expr e.now)) }
{
    put_at(out, WHOLE, e)
}

pub(crate) fn put_sum(out: &mut Vec<u8>, e: &Expr) -> Result<(), Memory>
    ensures { Adds result out.old out.new (sum_text (plain_expr e.now)) }
{
    put_at(out, SUM, e)
}
