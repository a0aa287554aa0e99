//! The structures of the arguments of threads' first calls, and the functions with which threads begin.

ghost use Rattle.std.specs.Prelude.{◌≡◌, List, [], codes, Ok};
ghost use Rattle.pl_readers.specs.Bytes.{is};
ghost use Rattle.pl_readers.specs.Given.{Gives};
ghost use Rattle.pl_readers.specs.Reader.{onto, repeat};
ghost use Rattle.c_forms.specs.Reading.{after};
ghost use Rattle.c_forms.specs.ExprReaders.{decimal_number, list_of, listed};
ghost use Rattle.c_forms.specs.SourceReaders as spec;

use crate::lists::exact;
use crate::names::name;
use crate::source::{Slot, Starter};
use crate::word::Number;
use crate::words::{any_type, decimal_number};
use pl_base::{Items, Name};
use pl_readers::ReadError;
use pl_readers::bytes::{begins, word};
use std::alloc::Global;

/// A member for an argument.
#[tactic(auto, unfolding(crate::specs::SourceReaders::slot))]
fn slot(alloc: Global, bytes: &[u8]) -> Result<(Slot, &[u8]), ReadError>
    ensures { Gives (λ x. (x.0, x.1.now)) result (spec.slot bytes.now) }
{
    let rest = word(bytes, b"  ")?;
    let (kind, rest) = any_type(alloc, rest)?;
    let rest = word(rest, b"a_")?;
    let (number, rest) = decimal_number(alloc, rest)?;
    let rest = word(rest, b";\n")?;
    Ok((Slot { kind, number }, rest))
}

/// Any number of these.
fn more_slots(alloc: Global, bytes: &[u8]) -> Result<(Items<Slot>, &[u8]), ReadError>
    ensures { Gives (λ x. (x.0, x.1.now)) result (repeat (is 32) spec.slot bytes.now) }
{
    let mut all = Vec::new(alloc);
    let mut rest = bytes;
    'items: while begins(rest, b' ') {
        let (item, behind) = slot(alloc, rest)?;
        all.push(item)?;
        rest = behind;
    }
    Ok((exact(all), rest))
}

/// A structure of arguments behind `struct a_`.
#[tactic(auto, unfolding(crate::specs::SourceReaders::slots))]
fn slots(alloc: Global, bytes: &[u8]) -> Result<((Name, Items<Slot>), &[u8]), ReadError>
    ensures { Gives (λ x. ((x.0.0, x.0.1), x.1.now)) result (spec.slots bytes.now) }
{
    let (structure, rest) = name(alloc, bytes)?;
    let rest = word(rest, b" {\n  char a_0;\n")?;
    let (slots, rest) = more_slots(alloc, rest)?;
    let rest = word(rest, b"};\n")?;
    Ok(((structure, slots), rest))
}

/// The two names of the structure in a starter.
#[tactic(auto, unfolding(crate::specs::SourceReaders::copies))]
fn copies(alloc: Global, bytes: &[u8]) -> Result<((Name, Name), &[u8]), ReadError>
    ensures { Gives (λ x. ((x.0.0, x.0.1), x.1.now)) result (spec.copies bytes.now) }
{
    let (pointer, rest) = name(alloc, bytes)?;
    let rest = word(rest, b" *q = p;\n  struct a_")?;
    let (copy, rest) = name(alloc, rest)?;
    let rest = word(rest, b" c = *q;\n  free(q);\n")?;
    Ok(((pointer, copy), rest))
}

/// The number of an argument that is handed on.
fn handed(alloc: Global, bytes: &[u8]) -> Result<(Number, &[u8]), ReadError>
    ensures { Gives (λ x. (x.0, x.1.now)) result (after (codes "c.a_") decimal_number bytes.now) }
{
    let rest = word(bytes, b"c.a_")?;
    decimal_number(alloc, rest)
}

/// The same behind a comma.
fn next_handed(alloc: Global, bytes: &[u8]) -> Result<(Number, &[u8]), ReadError>
    ensures { Gives (λ x. (x.0, x.1.now)) result (after (codes ", ") (after (codes "c.a_") decimal_number) bytes.now) }
{
    let rest = word(bytes, b", ")?;
    handed(alloc, rest)
}

/// Any number of these; they are put behind those that are read.
fn more_handed(
    alloc: Global,
    mut all: Vec<Number>,
    bytes: &[u8],
) -> Result<(Items<Number>, &[u8]), ReadError>
    ensures { Gives (λ x. (x.0, x.1.now)) result (onto all.items (repeat (is 44) (after (codes ", ") (after (codes "c.a_") decimal_number))) bytes.now) }
{
    let mut rest = bytes;
    'items: while begins(rest, b',') {
        let (item, behind) = next_handed(alloc, rest)?;
        all.push(item)?;
        rest = behind;
    }
    Ok((exact(all), rest))
}

/// Numbers of arguments with commas between them.
#[tactic(auto, unfolding(crate::specs::ExprReaders::listed))]
fn listed_handed(alloc: Global, bytes: &[u8]) -> Result<(Items<Number>, &[u8]), ReadError>
    ensures { Gives (λ x. (x.0, x.1.now)) result (listed (after (codes "c.a_") decimal_number) (after (codes "c.a_") decimal_number) bytes.now) }
{
    let (first, rest) = handed(alloc, bytes)?;
    let mut begun = Vec::new(alloc);
    begun.push(first)?;
    more_handed(alloc, begun, rest)
}

/// Numbers of arguments with commas between them, if any, and the closing bracket.
#[tactic(auto, unfolding(crate::specs::ExprReaders::list_of))]
fn all_handed(alloc: Global, bytes: &[u8]) -> Result<(Items<Number>, &[u8]), ReadError>
    ensures { Gives (λ x. (x.0, x.1.now)) result (list_of (after (codes "c.a_") decimal_number) bytes.now) }
{
    if begins(bytes, b')') {
        let rest = word(bytes, b")")?;
        return Ok((Items::of(Vec::new(alloc)), rest));
    }
    let (all, rest) = listed_handed(alloc, bytes)?;
    let rest = word(rest, b")")?;
    Ok((all, rest))
}

/// The call of a starter.
#[tactic(auto, unfolding(crate::specs::SourceReaders::starter_call))]
fn starter_call(alloc: Global, bytes: &[u8]) -> Result<((Name, Items<Number>), &[u8]), ReadError>
    ensures { Gives (λ x. ((x.0.0, x.0.1), x.1.now)) result (spec.starter_call bytes.now) }
{
    let rest = word(bytes, b"  f_")?;
    let (function, rest) = name(alloc, rest)?;
    let rest = word(rest, b"(")?;
    let (arguments, rest) = all_handed(alloc, rest)?;
    let rest = word(rest, b";\n  return 0;\n}\n")?;
    Ok(((function, arguments), rest))
}

/// The names and the arguments in a starter.
#[tactic(auto, unfolding(crate::specs::SourceReaders::starter_code))]
fn starter_code(
    alloc: Global,
    bytes: &[u8],
) -> Result<((Name, (Name, Name), (Name, Items<Number>)), &[u8]), ReadError>
    ensures { Gives (λ x. ((x.0.0, ((x.0.1.0, x.0.1.1), (x.0.2.0, x.0.2.1))), x.1.now)) result (spec.starter_code bytes.now) }
{
    let rest = word(bytes, b"static int t_")?;
    let (name, rest) = name(alloc, rest)?;
    let rest = word(rest, b"(void *p) {\n  struct a_")?;
    let (copies, rest) = copies(alloc, rest)?;
    let (call, rest) = starter_call(alloc, rest)?;
    Ok(((name, copies, call), rest))
}

/// A structure of arguments and its starter, behind `struct `.
#[tactic(auto, unfolding(crate::specs::SourceReaders::starter_pair))]
pub fn starter_pair(alloc: Global, bytes: &[u8]) -> Result<(Starter, &[u8]), ReadError>
    ensures { Gives (λ x. (x.0, x.1.now)) result (spec.starter_pair bytes.now) }
{
    let rest = word(bytes, b"a_")?;
    let ((structure, slots), rest) = slots(alloc, rest)?;
    let ((name, (pointer, copy), (function, arguments)), rest) = starter_code(alloc, rest)?;
    let starter = Starter {
        structure,
        slots,
        name,
        pointer,
        copy,
        function,
        arguments,
    };
    Ok((starter, rest))
}
