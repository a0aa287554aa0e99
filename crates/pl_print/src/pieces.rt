//! Texts that are made of pieces.

ghost use Rattle.std.specs.Prelude.{map};
ghost use Rattle.pl_print.specs.Adds.{Adds};
ghost use Rattle.pl_print.specs.Lists.{joined};
ghost use Rattle.pl_print.specs.Pieces.{piece_text};

use crate::exprs::{put_sum, put_value};
use crate::terms::{
    put_binders, put_call, put_cell, put_instance, put_label, put_last_perm, put_perm,
};
use crate::words::{put, put_name};
use pl_base::{Memory, Name};
use pl_syntax::{Binder, CellExpr, Expr, Instance, PermExpr};

/// A piece of a text.
#[derive(Clone, Copy)]
pub(crate) enum Piece<'a> {
    Text(&'a str),
    Name(&'a Name),
    Expr(&'a Expr),
    /// An expression where the grammar has a sum.
    Sum(&'a Expr),
    Cell(&'a CellExpr),
    Call(&'a Name, &'a [Expr]),
    Instance(&'a Instance),
    /// The label of an expression, in front of it.
    Label(&'a Option<Name>),
    Perm(&'a PermExpr),
    /// The permission of a slice, behind its bounds.
    LastPerm(&'a PermExpr),
    Binders(&'a [Binder]),
}

fn put_piece(out: &mut Vec<u8>, piece: &Piece) -> Result<(), Memory>
    ensures { Adds result out.old out.new (piece_text piece.now) }
{
    match *piece {
        Piece::Text(text) => put(out, text.as_bytes()),
        Piece::Name(name) => put_name(out, name),
        Piece::Expr(e) => put_value(out, e),
        Piece::Sum(e) => put_sum(out, e),
        Piece::Cell(cell) => put_cell(out, cell),
        Piece::Call(f, args) => put_call(out, f, args),
        Piece::Instance(i) => put_instance(out, i),
        Piece::Label(label) => put_label(out, label),
        Piece::Perm(perm) => put_perm(out, perm),
        Piece::LastPerm(perm) => put_last_perm(out, perm),
        Piece::Binders(binders) => put_binders(out, binders),
    }
}

/// Adds pieces, one behind the other, and then the last text.
pub(crate) fn put_pieces(out: &mut Vec<u8>, pieces: &[Piece], last: &str) -> Result<(), Memory>
    ensures { Adds result out.old out.new (joined (map piece_text pieces.now) last.now) }
{
    for piece in pieces {
        put_piece(out, piece)?;
    }
    put(out, last.as_bytes())
}
