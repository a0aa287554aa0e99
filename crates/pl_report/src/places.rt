// Lines about a place of a file.
ghost use Rattle.std.specs.Prelude.{◌≡◌, ◌++◌, IfOk, OnOk, codes, flat_map};
ghost use Rattle.std.specs.Fmt.{decimal, signed_decimal};
ghost use Rattle.pl_report.specs.Lines as text;

use crate::refusal::At;
use pl_base::{Memory, Pos};
use std::alloc::Global;

/// `LINE:COLUMN: WORDS`
pub fn placed(alloc: Global, pos: Pos, words: &str) -> Result<Vec<u8>, Memory>
    ensures { IfOk result (λ line. line.items ≡ text.placed pos words.now) }
{
    placed_text(alloc, pos, words, b"")
}

/// `LINE:COLUMN: WORDS TEXT`; the blank belongs to the words.
pub fn placed_text(alloc: Global, pos: Pos, words: &str, behind: &[u8]) -> Result<Vec<u8>, Memory>
    ensures { IfOk result (λ line. line.items ≡ text.placed pos (words.now ++ behind.now)) }
{
    let (at, column) = (pos.line, pos.col);
    let mut line = format!(in alloc; "{at}:{column}: {words}")?.into_bytes();
    line.extend_from_slice(behind)?;
    line.push(b'\n')?;
    Ok(line)
}

// ` SIZE`
fn size_text(alloc: Global, size: u128) -> Result<Vec<u8>, Memory>
    ensures { IfOk result (λ piece. piece.items ≡ codes " " ++ decimal size) }
{
    Ok(format!(in alloc; " {size}")?.into_bytes())
}

/// `LINE:COLUMN: limit KIND SIZE`
pub fn limit_line(alloc: Global, pos: Pos, kind: &[u8], size: u128) -> Result<Vec<u8>, Memory>
    ensures { IfOk result (λ line. line.items ≡ text.placed pos (text.limit_text kind.now size)) }
{
    let mut words = Vec::from_slice(alloc, kind)?;
    let size = size_text(alloc, size)?;
    words.extend_from_slice(size.as_slice())?;
    placed_text(alloc, pos, "limit ", words.as_slice())
}

// ` = VALUE`
fn value_text(alloc: Global, value: i128) -> Result<Vec<u8>, Memory>
    ensures { IfOk result (λ piece. piece.items ≡ codes " = " ++ signed_decimal value) }
{
    Ok(format!(in alloc; " = {value}")?.into_bytes())
}

// `NODE = VALUE`, behind what stands between it and what comes before.
fn node_text(alloc: Global, before: &[u8], at: &At) -> Result<Vec<u8>, Memory>
    ensures { IfOk result (λ piece. piece.items ≡ before.now ++ text.node_text at.now) }
{
    let value = value_text(alloc, at.value)?;
    let mut piece = Vec::from_slice(alloc, before)?;
    piece.extend_from_slice(at.node.as_slice())?;
    piece.extend_from_slice(value.as_slice())?;
    Ok(piece)
}

fn put_node(alloc: Global, words: &mut Vec<u8>, before: &[u8], at: &At) -> Result<(), Memory>
    ensures { OnOk result (words.new.items ≡ words.old.items ++ (before.now ++ text.node_text at.now)) }
{
    let piece = node_text(alloc, before, at)?;
    words.extend_from_slice(piece.as_slice())?;
    Ok(())
}

// `, NODE = VALUE` for each.
fn put_others(alloc: Global, words: &mut Vec<u8>, others: &[At]) -> Result<(), Memory>
    ensures { OnOk result (words.new.items ≡ words.old.items ++ flat_map text.next_node others.now) }
{
    for node in others {
        put_node(alloc, words, b", ", node)?;
    }
    Ok(())
}

// ` at NODE = VALUE, NODE = VALUE`; nothing where there are no nodes.
fn put_nodes(alloc: Global, words: &mut Vec<u8>, nodes: &[At]) -> Result<(), Memory>
    ensures { OnOk result (words.new.items ≡ words.old.items ++ text.at_text nodes.now) }
{
    match nodes {
        [] => Ok(()),
        [first, others @ ..] => {
            put_node(alloc, words, b" at ", first)?;
            put_others(alloc, words, others)
        }
    }
}

/// `LINE:COLUMN: undone TEXT`, and the values of nodes behind it.
pub fn undone_line(alloc: Global, pos: Pos, goal: &[u8], nodes: &[At]) -> Result<Vec<u8>, Memory>
    ensures { IfOk result (λ line. line.items ≡ text.placed pos (text.undone_text goal.now nodes.now)) }
{
    let mut words = Vec::from_slice(alloc, goal)?;
    put_nodes(alloc, &mut words, nodes)?;
    placed_text(alloc, pos, "undone ", words.as_slice())
}
