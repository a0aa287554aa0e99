//! Statements with blocks, and blocks.

ghost use Rattle.std.specs.Prelude.{◌++◌, ◌+◌, [], ◌∷◌, codes};
ghost use Rattle.std.specs.Option.{option_map};
ghost use Rattle.pl_syntax.specs.Plain.{otherwise, plain_block, plain_expr, plain_prop, plain_stmt, plain_stmts};
ghost use Rattle.pl_print.specs.Adds.{Adds};
ghost use Rattle.pl_print.specs.ExprText.{value_text};
ghost use Rattle.pl_print.specs.PropText.{whole_prop_text};
ghost use Rattle.pl_print.specs.StmtText.{after_text, block_text, else_text, kept_text, lines_text, loads_text, opening_text, stmt_text};

use crate::exprs::put_value;
use crate::lets::{
    put_alloc_array, put_atomic_read, put_cas, put_galloc, put_ghost_let, put_let, put_let_mut,
    put_load, put_made, put_new, put_new_invariant, put_new_lock, put_read,
};
use crate::pieces::{Piece, put_pieces};
use crate::props::put_whole_prop;
use crate::simple::{
    put_assert, put_atomic_write, put_called, put_drop, put_focus, put_instance_of, put_join,
    put_key_of, put_name_in, put_par, put_print, put_return, put_rewrite, put_split, put_store,
    put_with_assert,
};
use crate::words::{put, put_indent};
use pl_base::{Memory, Name};
use pl_syntax::{Expr, Prop, Stmt, Stmts};

/// Adds what holds behind a block.
fn put_after(out: &mut Vec<u8>, after: &Option<Prop>) -> Result<(), Memory>
    ensures { Adds result out.old out.new (after_text (option_map plain_prop after.now)) }
{
    let Some(p) = after else {
        return Ok(());
    };
    put(out, b" ensures ")?;
    put_whole_prop(out, p)?;
    put(out, b";")
}

/// Adds the test of a loop and its invariant.
#[tactic(auto, unfolding(crate::specs::StmtText::kept_text))]
fn put_kept(out: &mut Vec<u8>, e: &Expr, kept: &Prop) -> Result<(), Memory>
    ensures { Adds result out.old out.new (kept_text (plain_expr e.now) (plain_prop kept.now)) }
{
    put_value(out, e)?;
    put(out, b") invariant ")?;
    put_whole_prop(out, kept)?;
    put(out, b" ")
}

/// Adds what stands before a block that opens an invariant.
#[tactic(auto, unfolding(crate::specs::StmtText::opening_text))]
fn put_opening(out: &mut Vec<u8>, name: &Name) -> Result<(), Memory>
    ensures { Adds result out.old out.new (opening_text name.now) }
{
    put_pieces(
        out,
        &[Piece::Text("with_invariants "), Piece::Name(name)],
        " ",
    )
}

/// Adds a statement that stands so many levels deep.
#[cycle(stmt)]
fn put_stmt(out: &mut Vec<u8>, level: u64, s: &Stmt) -> Result<(), Memory>
    ensures { Adds result out.old out.new (stmt_text level (plain_stmt s.now)) }
{
    match s {
        Stmt::Let(_, x, e) => put_let(out, x, e),
        Stmt::Load(_, x, cell, is_ghost) => put_load(out, x, cell, *is_ghost),
        Stmt::Store(_, cell, e) => put_store(out, cell, e),
        Stmt::Alloc(_, x, e) => put_made(out, x, "alloc(", e),
        Stmt::AllocArray(_, x, e, n) => put_alloc_array(out, x, e, n),
        Stmt::AllocAtomic(_, x, e) => put_made(out, x, "alloc_atomic(", e),
        Stmt::New(_, x, name, inits) => put_new(out, x, name, inits.as_slice()),
        Stmt::Free(_, base) => put_name_in(out, "free(", base),
        Stmt::FreeArray(_, base) => put_name_in(out, "free_array(", base),
        Stmt::AtomicRead(_, x, base) => put_atomic_read(out, x, base),
        Stmt::AtomicWrite(_, base, e) => put_atomic_write(out, base, e),
        Stmt::Cas(_, x, base, old, new) => put_cas(out, x, base, old, new),
        Stmt::NewLock(_, x, i) => put_new_lock(out, x, i),
        Stmt::Acquire(_, lock) => put_name_in(out, "acquire(", lock),
        Stmt::Release(_, lock) => put_name_in(out, "release(", lock),
        Stmt::FreeLock(_, lock) => put_name_in(out, "free_lock(", lock),
        Stmt::Read(_, x) => put_read(out, x),
        Stmt::Print(_, e) => put_print(out, e),
        Stmt::Call(_, x, f, args) => put_called(out, x, f, args.as_slice()),
        Stmt::Par(_, f, args, g, others) => {
            put_par(out, f, args.as_slice(), g, others.as_slice())
        }
        Stmt::If(_, e, first, second, after) => {
            put(out, b"if (")?;
            put_value(out, e)?;
            put(out, b") ")?;
            put_block(out, level, first)?;
            match second {
                None => put_after(out, after),
                Some(block) => {
                    put(out, b" else ")?;
                    put_block(out, level, block)?;
                    put_after(out, after)
                }
            }
        }
        Stmt::While(_, loads, e, kept, body) => {
            put(out, b"while (")?;
            put_loads(out, level, loads.as_slice())?;
            put_kept(out, e, kept)?;
            put_block(out, level, body)
        }
        Stmt::LetMut(_, x, e) => put_let_mut(out, x, e),
        Stmt::Return(_, e) => put_return(out, e),
        Stmt::With(_, name, body, after) => {
            put_opening(out, name)?;
            put_block(out, level, body)?;
            put_after(out, after)
        }
        Stmt::GLet(_, x, e) => put_ghost_let(out, x, e),
        Stmt::GAlloc(_, x, e) => put_galloc(out, x, e),
        Stmt::NewInv(_, x, i) => put_new_invariant(out, x, i),
        Stmt::Fold(_, i) => put_instance_of(out, "fold ", i),
        Stmt::Unfold(_, i) => put_instance_of(out, "unfold ", i),
        Stmt::Rewrite(_, p, q) => put_rewrite(out, p, q),
        Stmt::Share(_, key) => put_key_of(out, "share ", key),
        Stmt::Gather(_, key) => put_key_of(out, "gather ", key),
        Stmt::Split(_, a, lo, hi, m) => put_split(out, a, lo, hi, m),
        Stmt::Join(_, a, lo, m, hi) => put_join(out, a, lo, m, hi),
        Stmt::Focus(_, base, index) => put_focus(out, "focus ", base, index),
        Stmt::Unfocus(_, base, index) => put_focus(out, "unfocus ", base, index),
        Stmt::Assert(_, label, e, hint) => put_assert(out, label, e, hint),
        Stmt::WithAssert(_, binders, p) => put_with_assert(out, binders.as_slice(), p),
        Stmt::Drop(_, p) => put_drop(out, p),
    }
}

/// Adds the loads in the head of a loop, each before a blank.
#[cycle(stmt)]
fn put_loads(out: &mut Vec<u8>, level: u64, loads: &[Stmt]) -> Result<(), Memory>
    ensures { Adds result out.old out.new (loads_text level (plain_stmts loads.now)) }
{
    for s in loads {
        put_stmt(out, level, s)?;
        put(out, b" ")?;
    }
    Ok(())
}

/// Adds statements, each on lines of its own.
#[cycle(stmt)]
fn put_lines(out: &mut Vec<u8>, level: u64, list: &[Stmt]) -> Result<(), Memory>
    ensures { Adds result out.old out.new (lines_text level (plain_stmts list.now)) }
{
    for s in list {
        put_indent(out, level)?;
        put_stmt(out, level, s)?;
        put(out, b"\n")?;
    }
    Ok(())
}

/// Adds a block behind a text that stands so many levels deep.
#[cycle(stmt)]
pub(crate) fn put_block(out: &mut Vec<u8>, level: u64, block: &Stmts) -> Result<(), Memory>
    ensures { Adds result out.old out.new (block_text level (plain_block block.now)) }
{
    // No memory holds the text of a level past this one.
    let Some(deeper) = level.checked_add(1) else {
        return Err(Memory);
    };
    put(out, b"{\n")?;
    put_lines(out, deeper, block.list.as_slice())?;
    put_indent(out, level)?;
    put(out, b"}")
}
