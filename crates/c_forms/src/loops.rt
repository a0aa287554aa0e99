//! The heads of loops.

ghost use Rattle.std.specs.Prelude.{◌≡◌, ◌^◌, ◌<◌, ◌+◌, List, [], map, codes, Ok};
ghost use Rattle.c_syntax.specs.Text.{indent};
ghost use Rattle.pl_readers.specs.Given.{Gives};
ghost use Rattle.c_forms.specs.Reading.{after, until};
ghost use Rattle.c_forms.specs.StmtReaders as spec;
ghost use Rattle.c_forms.specs.Plain.{plain_expr, plain_line, plain_load};

use crate::blocks::indent;
use crate::cells::cell;
use crate::exprs::expr;
use crate::lists::exact;
use crate::stmt::Load;
use crate::word::Expr;
use crate::words::{i64_tail, local, other_type};
use c_syntax::CType;
use pl_base::Items;
use pl_readers::ReadError;
use pl_readers::bytes::{begins, word};
use std::alloc::Global;

/// A line of the head of a loop.
#[derive(Drop)]
pub enum HeadLine {
    Load(Load),
    Test(Expr),
}

/// A load of a local of this type, behind the type.
#[tactic(auto, unfolding(crate::specs::StmtReaders::load_behind))]
fn load_behind(alloc: Global, kind: CType, bytes: &[u8]) -> Result<(Load, &[u8]), ReadError>
    ensures { Gives (λ x. (plain_load x.0, x.1.now)) result (spec.load_behind kind bytes.now) }
{
    let (local, rest) = local(alloc, bytes)?;
    let rest = word(rest, b" = ")?;
    let (cell, rest) = cell(alloc, rest)?;
    let rest = word(rest, b";\n")?;
    Ok((Load { kind, local, cell }, rest))
}

/// A load of a type that does not begin with `i`.
#[tactic(auto, unfolding(crate::specs::StmtReaders::other_load))]
fn other_load(alloc: Global, bytes: &[u8]) -> Result<(Load, &[u8]), ReadError>
    ensures { Gives (λ x. (plain_load x.0, x.1.now)) result (spec.other_load bytes.now) }
{
    if begins(bytes, b'v') {
        let rest = word(bytes, b"void ")?;
        return load_behind(alloc, CType::Void, rest);
    }
    let (kind, rest) = other_type(alloc, bytes)?;
    load_behind(alloc, kind, rest)
}

/// The test of a loop behind its `i`, `level` levels deep.
#[tactic(auto, unfolding(crate::specs::StmtReaders::loop_test))]
fn loop_test(alloc: Global, level: u32, bytes: &[u8]) -> Result<(Expr, &[u8]), ReadError>
    requires { level + 1 < 2 ^ 32 }
    ensures { Gives (λ x. (plain_expr x.0, x.1.now)) result (spec.loop_test level bytes.now) }
{
    let rest = word(bytes, b"f (!")?;
    let (test, rest) = expr(alloc, rest)?;
    let rest = word(rest, b") {\n")?;
    let rest = indent(level + 1, rest)?;
    let rest = word(rest, b"break;\n")?;
    let rest = indent(level, rest)?;
    let rest = word(rest, b"}\n")?;
    Ok((test, rest))
}

/// A line of the head of a loop behind its indentation.
#[tactic(auto, unfolding(crate::specs::StmtReaders::head_line))]
fn head_line(alloc: Global, level: u32, bytes: &[u8]) -> Result<(HeadLine, &[u8]), ReadError>
    requires { level + 1 < 2 ^ 32 }
    ensures { Gives (λ x. (plain_line x.0, x.1.now)) result (spec.head_line level bytes.now) }
{
    if begins(bytes, b'i') {
        let rest = word(bytes, b"i")?;
        if begins(rest, b'f') {
            let (test, rest) = loop_test(alloc, level, rest)?;
            return Ok((HeadLine::Test(test), rest));
        }
        let (kind, rest) = i64_tail(rest)?;
        let (load, rest) = load_behind(alloc, kind, rest)?;
        return Ok((HeadLine::Load(load), rest));
    }
    let (load, rest) = other_load(alloc, bytes)?;
    Ok((HeadLine::Load(load), rest))
}

/// A line of the head of a loop.
fn indented_line(alloc: Global, level: u32, bytes: &[u8]) -> Result<(HeadLine, &[u8]), ReadError>
    requires { level + 1 < 2 ^ 32 }
    ensures { Gives (λ x. (plain_line x.0, x.1.now)) result (after (indent level) (spec.head_line level) bytes.now) }
{
    let rest = indent(level, bytes)?;
    head_line(alloc, level, rest)
}

/// The loads in the head of a loop, and its test.
fn loop_head(
    alloc: Global,
    level: u32,
    bytes: &[u8],
) -> Result<((Items<Load>, Expr), &[u8]), ReadError>
    requires { level + 1 < 2 ^ 32 }
    ensures { Gives (λ x. ((map plain_load x.0.0, plain_expr x.0.1), x.1.now)) result (until (spec.head_step level) [] bytes.now) }
{
    let mut all = Vec::new(alloc);
    let mut rest = bytes;
    'items: loop {
        let (line, behind) = indented_line(alloc, level, rest)?;
        match line {
            HeadLine::Load(load) => {
                all.push(load)?;
                rest = behind;
            }
            HeadLine::Test(test) => return Ok(((exact(all), test), behind)),
        }
    }
}

/// The same, as the head of a loop's lines.
#[tactic(auto, unfolding(crate::specs::StmtReaders::loop_heads))]
pub fn loop_heads(
    alloc: Global,
    level: u32,
    bytes: &[u8],
) -> Result<((Items<Load>, Expr), &[u8]), ReadError>
    requires { level + 1 < 2 ^ 32 }
    ensures { Gives (λ x. ((map plain_load x.0.0, plain_expr x.0.1), x.1.now)) result (spec.loop_heads level bytes.now) }
{
    loop_head(alloc, level, bytes)
}
