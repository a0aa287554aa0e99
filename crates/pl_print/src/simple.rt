//! Statements that bind no real or ghost name and have no block.

ghost use Rattle.std.specs.Option.{option_map};
ghost use Rattle.std.specs.Prelude.{[], ◌∷◌, ◌++◌, codes, map};
ghost use Rattle.pl_syntax.specs.Plain.{plain_cell, plain_expr, plain_instance, plain_key, plain_prop};
ghost use Rattle.pl_print.specs.Adds.{Adds};
ghost use Rattle.pl_print.specs.ExprText.{binders_text, call_text, cell_text, instance_text, label_text, sum_text, value_text};
ghost use Rattle.pl_print.specs.Lists.{joined, separated};
ghost use Rattle.pl_print.specs.PropText.{whole_prop_text};
ghost use Rattle.pl_print.specs.StmtText.{called_text, ended, hint_text, key_text, term_text};

use crate::lets::put_call_let;
use crate::pieces::{Piece, put_pieces};
use crate::props::put_whole_prop;
use crate::terms::{put_binders, put_cell};
use crate::words::{put, put_name, put_number};
use pl_base::{Memory, Name};
use pl_syntax::{Binder, CellExpr, Expr, Hint, HintTerm, Instance, Key, Prop};

pub(crate) fn put_store<'a>(
    out: &mut Vec<u8>,
    cell: &'a CellExpr,
    e: &'a Expr,
) -> Result<(), Memory>
    ensures { Adds result out.old out.new (ended (cell_text (plain_cell cell.now) ∷ codes " := " ∷ value_text (plain_expr e.now) ∷ [])) }
{
    let pieces = [Piece::Cell(cell), Piece::Text(" := "), Piece::Expr(e)];
    put_pieces(out, &pieces, ";")
}

/// Adds a word and a bracket, a name and the other bracket.
pub(crate) fn put_name_in<'a>(
    out: &mut Vec<u8>,
    word: &'a str,
    name: &'a Name,
) -> Result<(), Memory>
    ensures { Adds result out.old out.new (ended (word.now ∷ name.now ∷ codes ")" ∷ [])) }
{
    let pieces = [Piece::Text(word), Piece::Name(name), Piece::Text(")")];
    put_pieces(out, &pieces, ";")
}

pub(crate) fn put_atomic_write<'a>(
    out: &mut Vec<u8>,
    base: &'a Name,
    e: &'a Expr,
) -> Result<(), Memory>
    ensures { Adds result out.old out.new (ended (codes "atomic_write(" ∷ base.now ∷ codes ", " ∷ value_text (plain_expr e.now) ∷ codes ")" ∷ [])) }
{
    let pieces = [
        Piece::Text("atomic_write("),
        Piece::Name(base),
        Piece::Text(", "),
        Piece::Expr(e),
        Piece::Text(")"),
    ];
    put_pieces(out, &pieces, ";")
}

pub(crate) fn put_print(out: &mut Vec<u8>, e: &Expr) -> Result<(), Memory>
    ensures { Adds result out.old out.new (ended (codes "print(" ∷ value_text (plain_expr e.now) ∷ codes ")" ∷ [])) }
{
    let pieces = [Piece::Text("print("), Piece::Expr(e), Piece::Text(")")];
    put_pieces(out, &pieces, ";")
}

/// Adds a call, whose result may be bound.
pub(crate) fn put_called<'a>(
    out: &mut Vec<u8>,
    x: &Option<Name>,
    f: &'a Name,
    args: &'a [Expr],
) -> Result<(), Memory>
    ensures { Adds result out.old out.new (called_text x.now f.now (map plain_expr args.now)) }
{
    match x {
        None => put_pieces(out, &[Piece::Call(f, args)], ";"),
        Some(name) => put_call_let(out, name, f, args),
    }
}

pub(crate) fn put_par<'a>(
    out: &mut Vec<u8>,
    f: &'a Name,
    args: &'a [Expr],
    g: &'a Name,
    others: &'a [Expr],
) -> Result<(), Memory>
    ensures { Adds result out.old out.new (ended (codes "par " ∷ call_text f.now (map plain_expr args.now) ∷ codes ", " ∷ call_text g.now (map plain_expr others.now) ∷ [])) }
{
    let pieces = [
        Piece::Text("par "),
        Piece::Call(f, args),
        Piece::Text(", "),
        Piece::Call(g, others),
    ];
    put_pieces(out, &pieces, ";")
}

pub(crate) fn put_return(out: &mut Vec<u8>, e: &Expr) -> Result<(), Memory>
    ensures { Adds result out.old out.new (ended (codes "return " ∷ value_text (plain_expr e.now) ∷ [])) }
{
    let pieces = [Piece::Text("return "), Piece::Expr(e)];
    put_pieces(out, &pieces, ";")
}

/// Adds a word and a predicate with its arguments.
pub(crate) fn put_instance_of<'a>(
    out: &mut Vec<u8>,
    word: &'a str,
    i: &'a Instance,
) -> Result<(), Memory>
    ensures { Adds result out.old out.new (ended (word.now ∷ instance_text (plain_instance i.now) ∷ [])) }
{
    let pieces = [Piece::Text(word), Piece::Instance(i)];
    put_pieces(out, &pieces, ";")
}

pub(crate) fn put_rewrite(out: &mut Vec<u8>, p: &Prop, q: &Prop) -> Result<(), Memory>
    ensures { Adds result out.old out.new (
        ended (codes "rewrite " ∷ whole_prop_text (plain_prop p.now) ∷ codes " as " ∷ whole_prop_text (plain_prop q.now) ∷ [])) }
{
    put(out, b"rewrite ")?;
    put_whole_prop(out, p)?;
    put(out, b" as ")?;
    put_whole_prop(out, q)?;
    put(out, b";")
}

fn put_range<'a>(
    out: &mut Vec<u8>,
    word: &'a str,
    a: &'a Expr,
    lo: &'a Expr,
    hi: &'a Expr,
    last: &str,
) -> Result<(), Memory>
    ensures { Adds result out.old out.new (
        joined (word.now ∷ value_text (plain_expr a.now) ∷ codes ", " ∷ value_text (plain_expr lo.now) ∷ codes ", " ∷ value_text (plain_expr hi.now) ∷ []) last.now) }
{
    let pieces = [
        Piece::Text(word),
        Piece::Expr(a),
        Piece::Text(", "),
        Piece::Expr(lo),
        Piece::Text(", "),
        Piece::Expr(hi),
    ];
    put_pieces(out, &pieces, last)
}

fn put_key(out: &mut Vec<u8>, key: &Key) -> Result<(), Memory>
    ensures { Adds result out.old out.new (key_text (plain_key key.now)) }
{
    match key {
        Key::Cell(cell) => put_cell(out, cell),
        Key::Slice(a, lo, hi) => put_range(out, "slice(", a, lo, hi, ")"),
    }
}

/// Adds a word and what is shared or gathered.
pub(crate) fn put_key_of(out: &mut Vec<u8>, word: &str, key: &Key) -> Result<(), Memory>
    ensures { Adds result out.old out.new (ended (word.now ∷ key_text (plain_key key.now) ∷ [])) }
{
    put(out, word.as_bytes())?;
    put_key(out, key)?;
    put(out, b";")
}

pub(crate) fn put_split<'a>(
    out: &mut Vec<u8>,
    a: &'a Expr,
    lo: &'a Expr,
    hi: &'a Expr,
    m: &'a Expr,
) -> Result<(), Memory>
    ensures { Adds result out.old out.new (ended (codes "split slice(" ∷ value_text (plain_expr a.now) ∷ codes ", " ∷ value_text (plain_expr lo.now) ∷ codes ", " ∷ value_text (plain_expr hi.now) ∷ codes ") at " ∷ value_text (plain_expr m.now) ∷ [])) }
{
    let pieces = [
        Piece::Text("split slice("),
        Piece::Expr(a),
        Piece::Text(", "),
        Piece::Expr(lo),
        Piece::Text(", "),
        Piece::Expr(hi),
        Piece::Text(") at "),
        Piece::Expr(m),
    ];
    put_pieces(out, &pieces, ";")
}

pub(crate) fn put_join<'a>(
    out: &mut Vec<u8>,
    a: &'a Expr,
    lo: &'a Expr,
    m: &'a Expr,
    hi: &'a Expr,
) -> Result<(), Memory>
    ensures { Adds result out.old out.new (ended (codes "join slice(" ∷ value_text (plain_expr a.now) ∷ codes ", " ∷ value_text (plain_expr lo.now) ∷ codes ", " ∷ value_text (plain_expr m.now) ∷ codes ", " ∷ value_text (plain_expr hi.now) ∷ codes ")" ∷ [])) }
{
    let pieces = [
        Piece::Text("join slice("),
        Piece::Expr(a),
        Piece::Text(", "),
        Piece::Expr(lo),
        Piece::Text(", "),
        Piece::Expr(m),
        Piece::Text(", "),
        Piece::Expr(hi),
        Piece::Text(")"),
    ];
    put_pieces(out, &pieces, ";")
}

/// Adds a word and an element of an array.
pub(crate) fn put_focus<'a>(
    out: &mut Vec<u8>,
    word: &'a str,
    base: &'a Name,
    index: &'a Expr,
) -> Result<(), Memory>
    ensures { Adds result out.old out.new (ended (word.now ∷ base.now ∷ codes "[" ∷ sum_text (plain_expr index.now) ∷ codes "]" ∷ [])) }
{
    let pieces = [
        Piece::Text(word),
        Piece::Name(base),
        Piece::Text("["),
        Piece::Sum(index),
        Piece::Text("]"),
    ];
    put_pieces(out, &pieces, ";")
}

fn put_term(out: &mut Vec<u8>, term: &HintTerm) -> Result<(), Memory>
    ensures { Adds result out.old out.new (term_text term.now) }
{
    put_number(out, term.times)?;
    put(out, b" * ")?;
    put_name(out, &term.label)
}

fn put_terms(out: &mut Vec<u8>, terms: &[HintTerm]) -> Result<(), Memory>
    ensures { Adds result out.old out.new (separated (codes " + ") (map term_text terms.now)) }
{
    let [first, others @ ..] = terms else {
        return Ok(());
    };
    put_term(out, first)?;
    for term in others {
        put(out, b" + ")?;
        put_term(out, term)?;
    }
    Ok(())
}

fn put_hint(out: &mut Vec<u8>, hint: &Option<Hint>) -> Result<(), Memory>
    ensures { Adds result out.old out.new (hint_text hint.now) }
{
    let Some(hint) = hint else {
        return Ok(());
    };
    put(out, b" by ")?;
    put_terms(out, hint.terms.as_slice())
}

pub(crate) fn put_assert<'a>(
    out: &mut Vec<u8>,
    label: &'a Option<Name>,
    e: &'a Expr,
    hint: &Option<Hint>,
) -> Result<(), Memory>
    ensures { Adds result out.old out.new (ended (codes "assert " ∷ label_text label.now ∷ value_text (plain_expr e.now) ∷ hint_text hint.now ∷ [])) }
{
    let pieces = [Piece::Text("assert "), Piece::Label(label), Piece::Expr(e)];
    put_pieces(out, &pieces, "")?;
    put_hint(out, hint)?;
    put(out, b";")
}

pub(crate) fn put_with_assert(out: &mut Vec<u8>, binders: &[Binder], p: &Prop) -> Result<(), Memory>
    ensures { Adds result out.old out.new (ended (codes "with " ∷ binders_text binders.now ∷ codes " . assert " ∷ whole_prop_text (plain_prop p.now) ∷ [])) }
{
    put(out, b"with ")?;
    put_binders(out, binders)?;
    put(out, b" . assert ")?;
    put_whole_prop(out, p)?;
    put(out, b";")
}

pub(crate) fn put_drop(out: &mut Vec<u8>, p: &Prop) -> Result<(), Memory>
    ensures { Adds result out.old out.new (ended (codes "drop_ " ∷ whole_prop_text (plain_prop p.now) ∷ [])) }
{
    put(out, b"drop_ ")?;
    put_whole_prop(out, p)?;
    put(out, b";")
}
