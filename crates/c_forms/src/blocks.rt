//! Statements: blocks, and the choice of a statement by its first byte.

ghost use Rattle.std.specs.Prelude.{◌≡◌, ◌^◌, ◌<◌, ◌+◌, ◌-◌, List, map, codes, Ok};
ghost use Rattle.c_syntax.specs.Text.{indent};
ghost use Rattle.pl_readers.specs.Bytes as byte_readers;
ghost use Rattle.pl_readers.specs.Bytes.{is};
ghost use Rattle.pl_readers.specs.Given.{Gives};
ghost use Rattle.pl_readers.specs.Reader.{repeat};
ghost use Rattle.c_forms.specs.StmtReaders as spec;
ghost use Rattle.c_forms.specs.Plain.{plain_stmt};

use crate::exprs::expr;
use crate::lines::{
    bind_bool, bind_i64, bind_struct, line_a, line_f, line_p, line_r, line_v, store_whole,
};
use crate::lists::exact;
use crate::loops::loop_heads;
use crate::pars::par;
use crate::stmt::Stmt;
use pl_base::Items;
use pl_readers::bytes::{begins, word};
use pl_readers::{ReadError, refused};
use std::alloc::Global;

/// The indentation of a line, `level` levels deep.
#[tactic(auto, unfolding(pl_readers::specs::Bytes::word))]
pub fn indent(level: u32, bytes: &[u8]) -> Result<&[u8], ReadError>
    ensures { Gives (λ rest. (tt, rest.now)) result (byte_readers.word (indent level) bytes.now) }
{
    if level == 0 {
        return Ok(bytes);
    }
    match bytes {
        [b' ', b' ', rest @ ..] => indent(level - 1, rest),
        [b' ', rest @ ..] => Err(refused(rest)),
        _ => Err(refused(bytes)),
    }
}

/// A statement one level below `level`, and the indentation of the line behind it.
#[cycle(stmt)]
#[tactic(auto, unfolding(crate::specs::StmtReaders::row))]
fn row(alloc: Global, nesting: u32, level: u32, bytes: &[u8]) -> Result<(Stmt, &[u8]), ReadError>
    requires { level + nesting + 1 < 2 ^ 31 }
    ensures { Gives (λ x. (plain_stmt x.0, x.1.now)) result (spec.row level (spec.stmt nesting (level + 1)) bytes.now) }
{
    let rest = word(bytes, b"  ")?;
    let (statement, rest) = stmt(alloc, nesting, level + 1, rest)?;
    let rest = indent(level, rest)?;
    Ok((statement, rest))
}

/// Any number of these.
#[cycle(stmt)]
fn more_rows(
    alloc: Global,
    nesting: u32,
    level: u32,
    bytes: &[u8],
) -> Result<(Items<Stmt>, &[u8]), ReadError>
    requires { level + nesting + 1 < 2 ^ 31 }
    ensures { Gives (λ x. (map plain_stmt x.0, x.1.now)) result (repeat (is 32) (spec.row level (spec.stmt nesting (level + 1))) bytes.now) }
{
    let mut all = Vec::new(alloc);
    let mut rest = bytes;
    'items: while begins(rest, b' ') {
        let (item, behind) = row(alloc, nesting, level, rest)?;
        all.push(item)?;
        rest = behind;
    }
    Ok((exact(all), rest))
}

/// The statements of a block that stands at this level, with the indentation of the line behind them.
#[cycle(stmt)]
#[tactic(auto, unfolding(crate::specs::StmtReaders::rows))]
pub fn rows(
    alloc: Global,
    nesting: u32,
    level: u32,
    bytes: &[u8],
) -> Result<(Items<Stmt>, &[u8]), ReadError>
    requires { level + nesting + 1 < 2 ^ 31 }
    ensures { Gives (λ x. (map plain_stmt x.0, x.1.now)) result (spec.rows level (spec.stmt nesting (level + 1)) bytes.now) }
{
    let rest = indent(level, bytes)?;
    more_rows(alloc, nesting, level, rest)
}

/// An `if` behind its `i`.
#[cycle(stmt)]
#[tactic(auto, unfolding(crate::specs::StmtReaders::branch))]
fn branch(alloc: Global, nesting: u32, level: u32, bytes: &[u8]) -> Result<(Stmt, &[u8]), ReadError>
    requires { level + nesting + 1 < 2 ^ 31 }
    ensures { Gives (λ x. (plain_stmt x.0, x.1.now)) result (spec.branch level (spec.stmt nesting (level + 1)) bytes.now) }
{
    let rest = word(bytes, b"f (")?;
    let (test, rest) = expr(alloc, rest)?;
    let rest = word(rest, b") {\n")?;
    let (first, rest) = rows(alloc, nesting, level, rest)?;
    let rest = word(rest, b"} else {\n")?;
    let (second, rest) = rows(alloc, nesting, level, rest)?;
    let rest = word(rest, b"}\n")?;
    Ok((Stmt::If(test, first, second), rest))
}

/// A loop.
#[cycle(stmt)]
#[tactic(auto, unfolding(crate::specs::StmtReaders::while_lines))]
fn turns(alloc: Global, nesting: u32, level: u32, bytes: &[u8]) -> Result<(Stmt, &[u8]), ReadError>
    requires { level + nesting + 1 < 2 ^ 31 }
    ensures { Gives (λ x. (plain_stmt x.0, x.1.now)) result (spec.while_lines level (spec.stmt nesting (level + 1)) bytes.now) }
{
    let rest = word(bytes, b"while (1) {\n")?;
    let ((loads, test), rest) = loop_heads(alloc, level + 1, rest)?;
    let (body, rest) = rows(alloc, nesting, level, rest)?;
    let rest = word(rest, b"}\n")?;
    Ok((Stmt::While(loads, test, body), rest))
}

/// A statement that begins with `i`.
#[cycle(stmt)]
#[tactic(auto, unfolding(crate::specs::StmtReaders::begun_i, crate::specs::StmtReaders::block_i, crate::specs::StmtReaders::plain_i))]
fn begun_i(
    alloc: Global,
    nesting: u32,
    level: u32,
    bytes: &[u8],
) -> Result<(Stmt, &[u8]), ReadError>
    requires { level + nesting < 2 ^ 31 }
    ensures { Gives (λ x. (plain_stmt x.0, x.1.now)) result (spec.begun_i nesting level (λ r. spec.stmt r (level + 1)) bytes.now) }
{
    let rest = word(bytes, b"i")?;
    if nesting > 0 && begins(rest, b'f') {
        return branch(alloc, nesting - 1, level, rest);
    }
    bind_i64(alloc, rest)
}

/// A loop, the lines of a `par`, or a return.
#[cycle(stmt)]
#[tactic(auto, unfolding(crate::specs::StmtReaders::block_or_return))]
fn block_or_return(
    alloc: Global,
    nesting: u32,
    level: u32,
    bytes: &[u8],
) -> Result<(Stmt, &[u8]), ReadError>
    requires { level + nesting + 1 < 2 ^ 31 }
    ensures { Gives (λ x. (plain_stmt x.0, x.1.now)) result (spec.block_or_return level (spec.stmt nesting (level + 1)) bytes.now) }
{
    if begins(bytes, b'w') {
        return turns(alloc, nesting, level, bytes);
    }
    if begins(bytes, b'{') {
        return par(alloc, level, bytes);
    }
    line_r(alloc, bytes)
}

/// A statement that begins with no byte of a line but a return.
#[cycle(stmt)]
#[tactic(auto, unfolding(crate::specs::StmtReaders::begun_otherwise))]
fn begun_otherwise(
    alloc: Global,
    nesting: u32,
    level: u32,
    bytes: &[u8],
) -> Result<(Stmt, &[u8]), ReadError>
    requires { level + nesting < 2 ^ 31 }
    ensures { Gives (λ x. (plain_stmt x.0, x.1.now)) result (spec.begun_otherwise nesting level (λ r. spec.stmt r (level + 1)) bytes.now) }
{
    if nesting == 0 {
        return line_r(alloc, bytes);
    }
    block_or_return(alloc, nesting - 1, level, bytes)
}

/// A statement, by its first byte.
#[cycle(stmt)]
#[tactic(auto, unfolding(crate::specs::StmtReaders::stmt_of))]
fn by_first(
    alloc: Global,
    nesting: u32,
    level: u32,
    bytes: &[u8],
) -> Result<(Stmt, &[u8]), ReadError>
    requires { level + nesting < 2 ^ 31 }
    ensures { Gives (λ x. (plain_stmt x.0, x.1.now)) result
        (spec.stmt_of (spec.begun_i nesting level (λ r. spec.stmt r (level + 1))) (spec.begun_otherwise nesting level (λ r. spec.stmt r (level + 1))) bytes.now) }
{
    if begins(bytes, b'i') {
        return begun_i(alloc, nesting, level, bytes);
    }
    if begins(bytes, b'b') {
        return bind_bool(alloc, bytes);
    }
    if begins(bytes, b's') {
        return bind_struct(alloc, bytes);
    }
    if begins(bytes, b'v') {
        return line_v(alloc, bytes);
    }
    if begins(bytes, b'p') {
        return line_p(alloc, bytes);
    }
    if begins(bytes, b'f') {
        return line_f(alloc, bytes);
    }
    if begins(bytes, b'a') {
        return line_a(alloc, bytes);
    }
    if begins(bytes, b'*') {
        return store_whole(alloc, bytes);
    }
    begun_otherwise(alloc, nesting, level, bytes)
}

/// A statement behind its indentation, in which blocks nest to `nesting`.
#[cycle(stmt)]
fn stmt(alloc: Global, nesting: u32, level: u32, bytes: &[u8]) -> Result<(Stmt, &[u8]), ReadError>
    requires { level + nesting < 2 ^ 31 }
    ensures { Gives (λ x. (plain_stmt x.0, x.1.now)) result (spec.stmt nesting level bytes.now) }
{
    by_first(alloc, nesting, level, bytes)
}
