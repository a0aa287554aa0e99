//! The bracketed lines of a `par`.

ghost use Rattle.std.specs.Prelude.{◌≡◌, ◌^◌, ◌<◌, ◌+◌, List, [], map, codes, Ok};
ghost use Rattle.pl_readers.specs.Bytes.{is};
ghost use Rattle.pl_readers.specs.Given.{Gives};
ghost use Rattle.pl_readers.specs.Reader.{repeat};
ghost use Rattle.c_forms.specs.StmtReaders as spec;
ghost use Rattle.c_forms.specs.Plain.{plain_expr, plain_argument, plain_stmt};

use crate::blocks::indent;
use crate::cells::call;
use crate::lines::stored;
use crate::lists::exact;
use crate::names::name;
use crate::stmt::{Argument, Par, Stmt};
use crate::word::Expr;
use crate::words::decimal_number;
use pl_base::{Items, Name};
use pl_readers::ReadError;
use pl_readers::bytes::{begins, word};
use std::alloc::Global;

/// A line that hands an argument over.
#[tactic(auto, unfolding(crate::specs::StmtReaders::argument))]
fn argument(alloc: Global, bytes: &[u8]) -> Result<(Argument, &[u8]), ReadError>
    ensures { Gives (λ x. (plain_argument x.0, x.1.now)) result (spec.argument bytes.now) }
{
    let rest = word(bytes, b"q->a_")?;
    let (number, rest) = decimal_number(alloc, rest)?;
    let (value, rest) = stored(alloc, rest)?;
    Ok((Argument { number, value }, rest))
}

/// The same with the indentation of the line behind it.
#[tactic(auto, unfolding(crate::specs::StmtReaders::argument_row))]
fn argument_row(alloc: Global, level: u32, bytes: &[u8]) -> Result<(Argument, &[u8]), ReadError>
    ensures { Gives (λ x. (plain_argument x.0, x.1.now)) result (spec.argument_row level bytes.now) }
{
    let (argument, rest) = argument(alloc, bytes)?;
    let rest = indent(level, rest)?;
    Ok((argument, rest))
}

/// Any number of these.
fn more_arguments(
    alloc: Global,
    level: u32,
    bytes: &[u8],
) -> Result<(Items<Argument>, &[u8]), ReadError>
    ensures { Gives (λ x. (map plain_argument x.0, x.1.now)) result (repeat (is 113) (spec.argument_row level) bytes.now) }
{
    let mut all = Vec::new(alloc);
    let mut rest = bytes;
    'items: while begins(rest, b'q') {
        let (item, behind) = argument_row(alloc, level, rest)?;
        all.push(item)?;
        rest = behind;
    }
    Ok((exact(all), rest))
}

/// All lines that hand arguments over, with the indentation of the line behind them.
#[tactic(auto, unfolding(crate::specs::StmtReaders::arguments))]
fn arguments(alloc: Global, level: u32, bytes: &[u8]) -> Result<(Items<Argument>, &[u8]), ReadError>
    ensures { Gives (λ x. (map plain_argument x.0, x.1.now)) result (spec.arguments level bytes.now) }
{
    let rest = indent(level, bytes)?;
    more_arguments(alloc, level, rest)
}

/// The two names of the structure in its first line.
#[tactic(auto, unfolding(crate::specs::StmtReaders::par_names))]
fn par_names(alloc: Global, bytes: &[u8]) -> Result<((Name, Name), &[u8]), ReadError>
    ensures { Gives (λ x. ((x.0.0, x.0.1), x.1.now)) result (spec.par_names bytes.now) }
{
    let rest = word(bytes, b"struct a_")?;
    let (structure, rest) = name(alloc, rest)?;
    let rest = word(rest, b" *q = p_get(sizeof(struct a_")?;
    let (size, rest) = name(alloc, rest)?;
    let rest = word(rest, b"));\n")?;
    Ok(((structure, size), rest))
}

/// The line that makes the thread, with the indentation of the line behind it.
#[tactic(auto, unfolding(crate::specs::StmtReaders::par_fork))]
fn par_fork(alloc: Global, level: u32, bytes: &[u8]) -> Result<(Name, &[u8]), ReadError>
    ensures { Gives (λ x. (x.0, x.1.now)) result (spec.par_fork level bytes.now) }
{
    let rest = word(bytes, b"thrd_t t = p_fork(t_")?;
    let (starter, rest) = name(alloc, rest)?;
    let rest = word(rest, b", q);\n")?;
    let rest = indent(level, rest)?;
    Ok((starter, rest))
}

/// The other call, and the line that waits for the thread.
#[tactic(auto, unfolding(crate::specs::StmtReaders::par_second))]
fn par_second(
    alloc: Global,
    level: u32,
    bytes: &[u8],
) -> Result<((Name, Items<Expr>), &[u8]), ReadError>
    requires { level + 1 < 2 ^ 32 }
    ensures { Gives (λ x. ((x.0.0, map plain_expr x.0.1), x.1.now)) result (spec.par_second level bytes.now) }
{
    let ((other, others), rest) = call(alloc, bytes)?;
    let rest = word(rest, b";\n")?;
    let rest = indent(level + 1, rest)?;
    let rest = word(rest, b"p_join(t);\n")?;
    Ok(((other, others), rest))
}

/// The last lines: the other call.
#[tactic(auto, unfolding(crate::specs::StmtReaders::par_call))]
fn par_call(
    alloc: Global,
    level: u32,
    bytes: &[u8],
) -> Result<((Name, Items<Expr>), &[u8]), ReadError>
    requires { level + 1 < 2 ^ 32 }
    ensures { Gives (λ x. ((x.0.0, map plain_expr x.0.1), x.1.now)) result (spec.par_call level bytes.now) }
{
    let rest = word(bytes, b"f_")?;
    let ((other, others), rest) = par_second(alloc, level, rest)?;
    let rest = indent(level, rest)?;
    let rest = word(rest, b"}\n")?;
    Ok(((other, others), rest))
}

/// The bracketed lines.
#[tactic(auto, unfolding(crate::specs::StmtReaders::par))]
pub fn par(alloc: Global, level: u32, bytes: &[u8]) -> Result<(Stmt, &[u8]), ReadError>
    requires { level + 1 < 2 ^ 32 }
    ensures { Gives (λ x. (plain_stmt x.0, x.1.now)) result (spec.par level bytes.now) }
{
    let rest = word(bytes, b"{\n")?;
    let rest = indent(level + 1, rest)?;
    let ((structure, size), rest) = par_names(alloc, rest)?;
    let (arguments, rest) = arguments(alloc, level + 1, rest)?;
    let (starter, rest) = par_fork(alloc, level + 1, rest)?;
    let ((other, others), rest) = par_call(alloc, level, rest)?;
    let lines = Par {
        structure,
        size,
        arguments,
        starter,
        other,
        others,
    };
    Ok((Stmt::Par(Box::new(alloc, lines)?), rest))
}
