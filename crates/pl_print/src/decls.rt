//! Declarations.

ghost use Rattle.std.specs.Prelude.{◌≡◌, map};
ghost use Rattle.std.specs.Option.{option_map};
ghost use Rattle.pl_syntax.specs.Plain.{plain_decl, plain_expr, plain_fun, plain_pred, plain_prop};
ghost use Rattle.pl_print.specs.Adds.{Adds};
ghost use Rattle.pl_print.specs.Lists.{commas};
ghost use Rattle.pl_print.specs.ProgramText.{clauses_text, decl_text, fun_text, gap_text, has_clauses, head_text, is_emp, mark_text, measure_clause, param_text, pred_text, prop_clause, result_clause, struct_text};

use crate::pieces::{Piece, put_pieces};
use crate::props::{put_body, put_whole_prop};
use crate::stmts::put_block;
use crate::terms::put_binder;
use crate::words::{put, put_name, put_where};
use pl_base::Memory;
use pl_syntax::{Binder, Class, Decl, Expr, FunDecl, PredDecl, Prop, StructDecl};

fn put_struct(out: &mut Vec<u8>, structure: &StructDecl) -> Result<(), Memory>
    ensures { Adds result out.old out.new (struct_text structure.now) }
{
    let pieces = [
        Piece::Text("struct "),
        Piece::Name(&structure.name),
        Piece::Text(" { "),
        Piece::Binders(structure.fields.as_slice()),
    ];
    put_pieces(out, &pieces, " }\n")
}

fn put_pred(out: &mut Vec<u8>, pred: &PredDecl) -> Result<(), Memory>
    ensures { Adds result out.old out.new (pred_text (plain_pred pred.now)) }
{
    let pieces = [
        Piece::Text("pred "),
        Piece::Name(&pred.name),
        Piece::Text("("),
        Piece::Binders(pred.params.as_slice()),
    ];
    put_pieces(out, &pieces, ") = ")?;
    put_body(out, &pred.body)?;
    put(out, b";\n")
}

/// Adds what marks a parameter of a function.
fn put_mark(out: &mut Vec<u8>, is_ghost: bool, class: Class) -> Result<(), Memory>
    ensures { Adds result out.old out.new (mark_text is_ghost class) }
{
    match class {
        Class::Real => Ok(()),
        Class::Ghost => put_where(out, !is_ghost, b"ghost "),
        Class::Logical => put(out, b"#"),
    }
}

fn put_param(out: &mut Vec<u8>, is_ghost: bool, param: &Binder) -> Result<(), Memory>
    ensures { Adds result out.old out.new (param_text is_ghost param.now) }
{
    put_mark(out, is_ghost, param.class)?;
    put_binder(out, param)
}

fn put_params(out: &mut Vec<u8>, is_ghost: bool, params: &[Binder]) -> Result<(), Memory>
    ensures { Adds result out.old out.new (commas (map (param_text is_ghost) params.now)) }
{
    let [first, others @ ..] = params else {
        return Ok(());
    };
    put_param(out, is_ghost, first)?;
    for param in others {
        put(out, b", ")?;
        put_param(out, is_ghost, param)?;
    }
    Ok(())
}

/// Adds the first line of a function.
fn put_head(out: &mut Vec<u8>, function: &FunDecl) -> Result<(), Memory>
    ensures { Adds result out.old out.new (head_text (plain_fun function.now)) }
{
    put_where(out, function.is_ghost, b"ghost ")?;
    let pieces = [Piece::Text("fn "), Piece::Name(&function.name)];
    put_pieces(out, &pieces, "(")?;
    put_params(out, function.is_ghost, function.params.as_slice())?;
    put(out, b")")?;
    put_where(out, function.opens, b" opens")
}

/// Whether a proposition is `emp` as a whole.
fn is_emp(p: &Prop) -> bool
    ensures { result ≡ is_emp (plain_prop p.now) }
{
    matches!(p, Prop::Emp(_))
}

/// Adds a clause with a proposition on a line of its own, but for `emp`.
fn put_prop_clause(out: &mut Vec<u8>, word: &[u8], p: &Prop) -> Result<(), Memory>
    ensures { Adds result out.old out.new (prop_clause word.now (plain_prop p.now)) }
{
    if is_emp(p) {
        return Ok(());
    }
    put(out, b"\n  ")?;
    put(out, word)?;
    put_whole_prop(out, p)
}

fn put_result(out: &mut Vec<u8>, bound: &Option<Binder>) -> Result<(), Memory>
    ensures { Adds result out.old out.new (result_clause bound.now) }
{
    let Some(binder) = bound else {
        return Ok(());
    };
    put(out, b"\n  returns ")?;
    put_binder(out, binder)
}

fn put_measure(out: &mut Vec<u8>, measure: &Option<Expr>) -> Result<(), Memory>
    ensures { Adds result out.old out.new (measure_clause (option_map plain_expr measure.now)) }
{
    let Some(e) = measure else {
        return Ok(());
    };
    put_pieces(out, &[Piece::Text("\n  decreases "), Piece::Expr(e)], "")
}

fn put_clauses(out: &mut Vec<u8>, function: &FunDecl) -> Result<(), Memory>
    ensures { Adds result out.old out.new (clauses_text (plain_fun function.now)) }
{
    put_prop_clause(out, b"requires ", &function.before)?;
    put_result(out, &function.result)?;
    put_prop_clause(out, b"ensures ", &function.after)?;
    put_measure(out, &function.measure)
}

/// Whether a function shows clauses.
fn has_clauses(function: &FunDecl) -> bool
    ensures { result ≡ has_clauses (plain_fun function.now) }
{
    !is_emp(&function.before)
        || function.result.is_some()
        || !is_emp(&function.after)
        || function.measure.is_some()
}

/// Adds what stands before the opening brace of a function.
fn put_gap(out: &mut Vec<u8>, has_clauses: bool) -> Result<(), Memory>
    ensures { Adds result out.old out.new (gap_text has_clauses) }
{
    if has_clauses {
        put(out, b"\n")
    } else {
        put(out, b" ")
    }
}

fn put_fun(out: &mut Vec<u8>, function: &FunDecl) -> Result<(), Memory>
    ensures { Adds result out.old out.new (fun_text (plain_fun function.now)) }
{
    put_head(out, function)?;
    put_clauses(out, function)?;
    put_gap(out, has_clauses(function))?;
    put_block(out, 0, &function.body)?;
    put(out, b"\n")
}

pub(crate) fn put_decl(out: &mut Vec<u8>, decl: &Decl) -> Result<(), Memory>
    ensures { Adds result out.old out.new (decl_text (plain_decl decl.now)) }
{
    match decl {
        Decl::Struct(structure) => put_struct(out, structure),
        Decl::Pred(pred) => put_pred(out, pred),
        Decl::Fun(function) => put_fun(out, function),
    }
}
