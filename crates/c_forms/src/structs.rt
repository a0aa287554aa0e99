//! Structures.

ghost use Rattle.std.specs.Prelude.{◌≡◌, List, [], codes, Ok};
ghost use Rattle.pl_readers.specs.Bytes.{is};
ghost use Rattle.pl_readers.specs.Given.{Gives};
ghost use Rattle.pl_readers.specs.Reader.{onto, repeat};
ghost use Rattle.c_forms.specs.SourceReaders as spec;

use crate::lists::exact;
use crate::names::name;
use crate::source::{Member, Struct};
use crate::words::any_type;
use pl_base::Items;
use pl_readers::ReadError;
use pl_readers::bytes::{begins, word};
use std::alloc::Global;

/// A member.
#[tactic(auto, unfolding(crate::specs::SourceReaders::member))]
fn member(alloc: Global, bytes: &[u8]) -> Result<(Member, &[u8]), ReadError>
    ensures { Gives (λ x. (x.0, x.1.now)) result (spec.member bytes.now) }
{
    let rest = word(bytes, b"  ")?;
    let (kind, rest) = any_type(alloc, rest)?;
    let rest = word(rest, b"m_")?;
    let (name, rest) = name(alloc, rest)?;
    let rest = word(rest, b";\n")?;
    Ok((Member { kind, name }, rest))
}

/// Any number of members; they are put behind those that are read.
fn more_members(
    alloc: Global,
    mut all: Vec<Member>,
    bytes: &[u8],
) -> Result<(Items<Member>, &[u8]), ReadError>
    ensures { Gives (λ x. (x.0, x.1.now)) result (onto all.items (repeat (is 32) spec.member) bytes.now) }
{
    let mut rest = bytes;
    'items: while begins(rest, b' ') {
        let (item, behind) = member(alloc, rest)?;
        all.push(item)?;
        rest = behind;
    }
    Ok((exact(all), rest))
}

/// One member at least, and the end of the structure.
#[tactic(auto, unfolding(crate::specs::SourceReaders::members))]
fn members(alloc: Global, bytes: &[u8]) -> Result<(Items<Member>, &[u8]), ReadError>
    ensures { Gives (λ x. (x.0, x.1.now)) result (spec.members bytes.now) }
{
    let (first, rest) = member(alloc, bytes)?;
    let mut begun = Vec::new(alloc);
    begun.push(first)?;
    let (all, rest) = more_members(alloc, begun, rest)?;
    let rest = word(rest, b"};\n")?;
    Ok((all, rest))
}

/// A structure behind `struct s_`.
#[tactic(auto, unfolding(crate::specs::SourceReaders::structure))]
pub fn structure(alloc: Global, bytes: &[u8]) -> Result<(Struct, &[u8]), ReadError>
    ensures { Gives (λ x. (x.0, x.1.now)) result (spec.structure bytes.now) }
{
    let (name, rest) = name(alloc, bytes)?;
    let rest = word(rest, b" {\n")?;
    let (members, rest) = members(alloc, rest)?;
    Ok((Struct { name, members }, rest))
}
