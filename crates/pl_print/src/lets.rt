//! Statements that bind a name.

ghost use Rattle.std.specs.Prelude.{[], ◌∷◌, codes, map};
ghost use Rattle.pl_syntax.specs.Plain.{plain_cell, plain_expr, plain_init, plain_instance};
ghost use Rattle.pl_print.specs.Adds.{Adds};
ghost use Rattle.pl_print.specs.ExprText.{call_text, instance_text, value_text};
ghost use Rattle.pl_print.specs.Lists.{commas};
ghost use Rattle.pl_print.specs.Pieces.{piece_text};
ghost use Rattle.pl_print.specs.StmtText.{binding, ended, ghost_binding, init_text, load_text};

use crate::exprs::put_value;
use crate::pieces::{Piece, put_pieces};
use crate::words::{put, put_name};
use pl_base::{Memory, Name};
use pl_syntax::{CellExpr, Expr, Init, Instance};

/// Adds what binds a name to what the pieces spell.
fn put_binding(out: &mut Vec<u8>, x: &Name, pieces: &[Piece]) -> Result<(), Memory>
    ensures { Adds result out.old out.new (binding x.now (map piece_text pieces.now)) }
{
    put(out, b"let ")?;
    put_name(out, x)?;
    put(out, b" = ")?;
    put_pieces(out, pieces, ";")
}

/// The same of a ghost name.
fn put_ghost_binding(out: &mut Vec<u8>, x: &Name, pieces: &[Piece]) -> Result<(), Memory>
    ensures { Adds result out.old out.new (ghost_binding x.now (map piece_text pieces.now)) }
{
    put(out, b"let ghost ")?;
    put_name(out, x)?;
    put(out, b" = ")?;
    put_pieces(out, pieces, ";")
}

pub(crate) fn put_let(out: &mut Vec<u8>, x: &Name, e: &Expr) -> Result<(), Memory>
    ensures { Adds result out.old out.new (binding x.now (value_text (plain_expr e.now) ∷ [])) }
{
    let pieces = [Piece::Expr(e)];
    put_binding(out, x, &pieces)
}

pub(crate) fn put_ghost_let(out: &mut Vec<u8>, x: &Name, e: &Expr) -> Result<(), Memory>
    ensures { Adds result out.old out.new (ghost_binding x.now (value_text (plain_expr e.now) ∷ [])) }
{
    let pieces = [Piece::Expr(e)];
    put_ghost_binding(out, x, &pieces)
}

pub(crate) fn put_load(
    out: &mut Vec<u8>,
    x: &Name,
    cell: &CellExpr,
    is_ghost: bool,
) -> Result<(), Memory>
    ensures { Adds result out.old out.new (load_text x.now (plain_cell cell.now) is_ghost) }
{
    let pieces = [Piece::Text("!"), Piece::Cell(cell)];
    if is_ghost {
        put_ghost_binding(out, x, &pieces)
    } else {
        put_binding(out, x, &pieces)
    }
}

/// Adds what binds a name to what is made of an expression.
pub(crate) fn put_made<'a>(
    out: &mut Vec<u8>,
    x: &Name,
    word: &'a str,
    e: &'a Expr,
) -> Result<(), Memory>
    ensures { Adds result out.old out.new (binding x.now (word.now ∷ value_text (plain_expr e.now) ∷ codes ")" ∷ [])) }
{
    let pieces = [Piece::Text(word), Piece::Expr(e), Piece::Text(")")];
    put_binding(out, x, &pieces)
}

pub(crate) fn put_alloc_array<'a>(
    out: &mut Vec<u8>,
    x: &Name,
    e: &'a Expr,
    n: &'a Expr,
) -> Result<(), Memory>
    ensures { Adds result out.old out.new (binding x.now (codes "alloc_array(" ∷ value_text (plain_expr e.now) ∷ codes ", " ∷ value_text (plain_expr n.now) ∷ codes ")" ∷ [])) }
{
    let pieces = [
        Piece::Text("alloc_array("),
        Piece::Expr(e),
        Piece::Text(", "),
        Piece::Expr(n),
        Piece::Text(")"),
    ];
    put_binding(out, x, &pieces)
}

fn put_init(out: &mut Vec<u8>, init: &Init) -> Result<(), Memory>
    ensures { Adds result out.old out.new (init_text (plain_init init.now)) }
{
    put_name(out, &init.name)?;
    put(out, b": ")?;
    put_value(out, &init.value)
}

fn put_inits(out: &mut Vec<u8>, inits: &[Init]) -> Result<(), Memory>
    ensures { Adds result out.old out.new (commas (map init_text (map plain_init inits.now))) }
{
    let [first, others @ ..] = inits else {
        return Ok(());
    };
    put_init(out, first)?;
    for init in others {
        put(out, b", ")?;
        put_init(out, init)?;
    }
    Ok(())
}

pub(crate) fn put_new<'a>(
    out: &mut Vec<u8>,
    x: &'a Name,
    structure: &'a Name,
    inits: &[Init],
) -> Result<(), Memory>
    ensures { Adds result out.old out.new (binding x.now (codes "new " ∷ structure.now ∷ codes " { " ∷ commas (map init_text (map plain_init inits.now)) ∷ codes " }" ∷ [])) }
{
    let pieces = [
        Piece::Text("let "),
        Piece::Name(x),
        Piece::Text(" = new "),
        Piece::Name(structure),
    ];
    put_pieces(out, &pieces, " { ")?;
    put_inits(out, inits)?;
    put(out, b" };")
}

pub(crate) fn put_atomic_read(out: &mut Vec<u8>, x: &Name, base: &Name) -> Result<(), Memory>
    ensures { Adds result out.old out.new (binding x.now (codes "atomic_read(" ∷ base.now ∷ codes ")" ∷ [])) }
{
    let pieces = [
        Piece::Text("atomic_read("),
        Piece::Name(base),
        Piece::Text(")"),
    ];
    put_binding(out, x, &pieces)
}

pub(crate) fn put_cas<'a>(
    out: &mut Vec<u8>,
    x: &Name,
    base: &'a Name,
    old: &'a Expr,
    new: &'a Expr,
) -> Result<(), Memory>
    ensures { Adds result out.old out.new (binding x.now (codes "cas(" ∷ base.now ∷ codes ", " ∷ value_text (plain_expr old.now) ∷ codes ", " ∷ value_text (plain_expr new.now) ∷ codes ")" ∷ [])) }
{
    let pieces = [
        Piece::Text("cas("),
        Piece::Name(base),
        Piece::Text(", "),
        Piece::Expr(old),
        Piece::Text(", "),
        Piece::Expr(new),
        Piece::Text(")"),
    ];
    put_binding(out, x, &pieces)
}

pub(crate) fn put_new_lock(out: &mut Vec<u8>, x: &Name, i: &Instance) -> Result<(), Memory>
    ensures { Adds result out.old out.new (binding x.now (codes "new_lock(" ∷ instance_text (plain_instance i.now) ∷ codes ")" ∷ [])) }
{
    let pieces = [
        Piece::Text("new_lock("),
        Piece::Instance(i),
        Piece::Text(")"),
    ];
    put_binding(out, x, &pieces)
}

pub(crate) fn put_read(out: &mut Vec<u8>, x: &Name) -> Result<(), Memory>
    ensures { Adds result out.old out.new (binding x.now (codes "read()" ∷ [])) }
{
    let pieces = [Piece::Text("read()")];
    put_binding(out, x, &pieces)
}

/// Adds what binds a name to the result of a call.
pub(crate) fn put_call_let<'a>(
    out: &mut Vec<u8>,
    x: &Name,
    f: &'a Name,
    args: &'a [Expr],
) -> Result<(), Memory>
    ensures { Adds result out.old out.new (binding x.now (call_text f.now (map plain_expr args.now) ∷ [])) }
{
    put_binding(out, x, &[Piece::Call(f, args)])
}

pub(crate) fn put_galloc(out: &mut Vec<u8>, x: &Name, e: &Expr) -> Result<(), Memory>
    ensures { Adds result out.old out.new (ghost_binding x.now (codes "galloc(" ∷ value_text (plain_expr e.now) ∷ codes ")" ∷ [])) }
{
    let pieces = [Piece::Text("galloc("), Piece::Expr(e), Piece::Text(")")];
    put_ghost_binding(out, x, &pieces)
}

pub(crate) fn put_new_invariant(out: &mut Vec<u8>, x: &Name, i: &Instance) -> Result<(), Memory>
    ensures { Adds result out.old out.new (ghost_binding x.now (codes "new_invariant(" ∷ instance_text (plain_instance i.now) ∷ codes ")" ∷ [])) }
{
    let pieces = [
        Piece::Text("new_invariant("),
        Piece::Instance(i),
        Piece::Text(")"),
    ];
    put_ghost_binding(out, x, &pieces)
}

pub(crate) fn put_let_mut<'a>(out: &mut Vec<u8>, x: &'a Name, e: &'a Expr) -> Result<(), Memory>
    ensures { Adds result out.old out.new (ended (codes "let mut " ∷ x.now ∷ codes " = " ∷ value_text (plain_expr e.now) ∷ [])) }
{
    let pieces = [
        Piece::Text("let mut "),
        Piece::Name(x),
        Piece::Text(" = "),
        Piece::Expr(e),
    ];
    put_pieces(out, &pieces, ";")
}
