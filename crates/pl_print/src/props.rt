//! Propositions.

ghost use Rattle.std.specs.Prelude.{◌++◌, true, false};
ghost use Rattle.pl_syntax.specs.Plain.{plain_body, plain_cell, plain_expr, plain_instance, plain_prop};
ghost use Rattle.pl_print.specs.Adds.{Adds};
ghost use Rattle.pl_print.specs.PropText.{alive_text, arms_text, array_text, body_text, held_text, inv_text, points_text, prop_text, pure_text, slice_text, whole_prop_text};

use crate::exprs::{put_sum, put_value};
use crate::pieces::{Piece, put_pieces};
use crate::terms::{put_arrow, put_binders, put_cell, put_instance};
use crate::words::{put, put_where};
use pl_base::{Memory, Name};
use pl_syntax::{Body, CellExpr, Expr, Instance, PermExpr, Prop};

fn put_pure<'a>(out: &mut Vec<u8>, label: &'a Option<Name>, e: &'a Expr) -> Result<(), Memory>
    ensures { Adds result out.old out.new (pure_text label.now (plain_expr e.now)) }
{
    let pieces = [Piece::Text("pure("), Piece::Label(label), Piece::Expr(e)];
    put_pieces(out, &pieces, ")")
}

fn put_points(out: &mut Vec<u8>, cell: &CellExpr, perm: &PermExpr, e: &Expr) -> Result<(), Memory>
    ensures { Adds result out.old out.new (points_text (plain_cell cell.now) perm.now (plain_expr e.now)) }
{
    put_cell(out, cell)?;
    put_arrow(out, perm)?;
    put_sum(out, e)
}

fn put_slice<'a>(
    out: &mut Vec<u8>,
    a: &'a Expr,
    lo: &'a Expr,
    hi: &'a Expr,
    perm: &'a PermExpr,
) -> Result<(), Memory>
    ensures { Adds result out.old out.new (slice_text (plain_expr a.now) (plain_expr lo.now) (plain_expr hi.now) perm.now) }
{
    let pieces = [
        Piece::Text("slice("),
        Piece::Expr(a),
        Piece::Text(", "),
        Piece::Expr(lo),
        Piece::Text(", "),
        Piece::Expr(hi),
        Piece::LastPerm(perm),
    ];
    put_pieces(out, &pieces, ")")
}

fn put_array<'a>(out: &mut Vec<u8>, a: &'a Expr, n: &'a Expr) -> Result<(), Memory>
    ensures { Adds result out.old out.new (array_text (plain_expr a.now) (plain_expr n.now)) }
{
    let pieces = [
        Piece::Text("block("),
        Piece::Expr(a),
        Piece::Text(", "),
        Piece::Expr(n),
    ];
    put_pieces(out, &pieces, ")")
}

fn put_alive<'a>(
    out: &mut Vec<u8>,
    l: &'a Expr,
    perm: &'a PermExpr,
    i: &'a Instance,
) -> Result<(), Memory>
    ensures { Adds result out.old out.new (alive_text (plain_expr l.now) perm.now (plain_instance i.now)) }
{
    let pieces = [
        Piece::Text("lock_alive("),
        Piece::Expr(l),
        Piece::Text(", "),
        Piece::Perm(perm),
        Piece::Text(", "),
        Piece::Instance(i),
    ];
    put_pieces(out, &pieces, ")")
}

fn put_held(out: &mut Vec<u8>, l: &Expr) -> Result<(), Memory>
    ensures { Adds result out.old out.new (held_text (plain_expr l.now)) }
{
    let pieces = [Piece::Text("lock_held("), Piece::Expr(l)];
    put_pieces(out, &pieces, ")")
}

fn put_inv<'a>(out: &mut Vec<u8>, name: &'a Expr, i: &'a Instance) -> Result<(), Memory>
    ensures { Adds result out.old out.new (inv_text (plain_expr name.now) (plain_instance i.now)) }
{
    let pieces = [
        Piece::Text("inv("),
        Piece::Expr(name),
        Piece::Text(", "),
        Piece::Instance(i),
    ];
    put_pieces(out, &pieces, ")")
}

/// Adds a proposition. At the left of a `**` a star and an `exists` have brackets.
fn put_prop(out: &mut Vec<u8>, is_left: bool, p: &Prop) -> Result<(), Memory>
    ensures { Adds result out.old out.new (prop_text is_left (plain_prop p.now)) }
{
    match p {
        Prop::Emp(_) => put(out, b"emp"),
        Prop::Pure(_, label, e) => put_pure(out, label, e),
        Prop::Star(left, right) => {
            put_where(out, is_left, b"(")?;
            put_prop(out, true, left)?;
            put(out, b" ** ")?;
            put_prop(out, false, right)?;
            put_where(out, is_left, b")")
        }
        Prop::Exists(_, binders, inner) => {
            put_where(out, is_left, b"(")?;
            put(out, b"exists ")?;
            put_binders(out, binders.as_slice())?;
            put(out, b" . ")?;
            put_prop(out, false, inner)?;
            put_where(out, is_left, b")")
        }
        Prop::Points(_, cell, perm, e) => put_points(out, cell, perm, e),
        Prop::Slice(_, a, lo, hi, perm) => put_slice(out, a, lo, hi, perm),
        Prop::Block(_, a, n) => put_array(out, a, n),
        Prop::Alive(_, l, perm, i) => put_alive(out, l, perm, i),
        Prop::Held(_, l) => put_held(out, l),
        Prop::Inv(_, name, i) => put_inv(out, name, i),
        Prop::App(i) => put_instance(out, i),
    }
}

pub(crate) fn put_whole_prop(out: &mut Vec<u8>, p: &Prop) -> Result<(), Memory>
    ensures { Adds result out.old out.new (whole_prop_text (plain_prop p.now)) }
{
    put_prop(out, false, p)
}

fn put_arms(out: &mut Vec<u8>, e: &Expr, p: &Prop, q: &Prop) -> Result<(), Memory>
    ensures { Adds result out.old out.new (arms_text (plain_expr e.now) (plain_prop p.now) (plain_prop q.now)) }
{
    put(out, b"if (")?;
    put_value(out, e)?;
    put(out, b") { ")?;
    put_whole_prop(out, p)?;
    put(out, b" } else { ")?;
    put_whole_prop(out, q)?;
    put(out, b" }")
}

/// Adds the body of a predicate.
pub(crate) fn put_body(out: &mut Vec<u8>, body: &Body) -> Result<(), Memory>
    ensures { Adds result out.old out.new (body_text (plain_body body.now)) }
{
    match body {
        Body::Plain(p) => put_whole_prop(out, p),
        Body::Cond(e, p, q) => put_arms(out, e, p, q),
    }
}
