// The texts of duties.
ghost use Rattle.std.specs.Prelude.{◌≡◌, ◌++◌, OnOk, IfOk};
ghost use Rattle.pl_walk.specs.Texts.{IsAtomsText, names_of, block_text, blocks_text};
ghost use Rattle.pl_walk.specs.Walk.{term_text};

use crate::known::Block;
use pl_base::{Items, Memory, Name};
use pl_terms::Term;
use std::alloc::Global;

fn put(out: &mut Vec<u8>, bytes: &[u8]) -> Result<(), Memory>
    ensures { OnOk result (out.new.items ≡ out.old.items ++ bytes.now) }
{
    out.extend_from_slice(bytes)?;
    Ok(())
}

/// A name and what stands behind it.
pub fn missing(alloc: Global, name: &Name, behind: &[u8]) -> Result<Items<u8>, Memory>
    ensures { IfOk result (λ text. text ≡ name.now ++ behind.now) }
{
    let mut out = Vec::new(alloc);
    put(&mut out, name.bytes())?;
    put(&mut out, behind)?;
    Ok(Items::of(out))
}

fn put_term(alloc: Global, out: &mut Vec<u8>, blocks: &[Block], term: Term) -> Result<(), Memory>
    ensures { OnOk result (out.new.items ≡ out.old.items ++ term_text (names_of blocks.now) term) }
{
    match term {
        Term::Literal(number) => {
            let text = format!(in alloc; "{number}")?;
            put(out, text.as_bytes())
        }
        Term::Variable(number) => match blocks.get(number as usize) {
            Some(block) => put(out, block.name.bytes()),
            None => Ok(()),
        },
    }
}

// ` ** ` and the two atoms of a block that lives.
fn put_block(
    alloc: Global,
    out: &mut Vec<u8>,
    blocks: &[Block],
    block: &Block,
) -> Result<(), Memory>
    ensures { OnOk result (out.new.items ≡ out.old.items ++ block_text (names_of blocks.now) block.now) }
{
    let Some(value) = block.value else {
        return Ok(());
    };
    put(out, b" ** ")?;
    put(out, block.name.bytes())?;
    put(out, b" |-> ")?;
    put_term(alloc, out, blocks, value)?;
    put(out, b" ** block(")?;
    put(out, block.name.bytes())?;
    put(out, b", 1)")?;
    Ok(())
}

fn put_blocks(alloc: Global, blocks: &[Block]) -> Result<Vec<u8>, Memory>
    ensures { IfOk result (λ text. text.items ≡ blocks_text blocks.now) }
{
    let mut out = Vec::new(alloc);
    for block in blocks {
        put_block(alloc, &mut out, blocks, block)?;
    }
    Ok(out)
}

/// The atoms of the blocks that live, joined by ` ** `; `None` where none lives.
pub fn atoms_text(alloc: Global, blocks: &[Block]) -> Result<Option<Items<u8>>, Memory>
    ensures { IfOk result (λ text. IsAtomsText text blocks.now) }
{
    let text = put_blocks(alloc, blocks)?;
    match text.as_slice() {
        [_, _, _, _, rest @ ..] => Ok(Some(Items::of(Vec::from_slice(alloc, rest)?))),
        _ => Ok(None),
    }
}
