//! The heads of functions.

ghost use Rattle.std.specs.Prelude.{◌≡◌, List, [], codes, Ok};
ghost use Rattle.pl_readers.specs.Bytes.{is};
ghost use Rattle.pl_readers.specs.Given.{Gives};
ghost use Rattle.pl_readers.specs.Reader.{onto, repeat};
ghost use Rattle.c_forms.specs.Reading.{after};
ghost use Rattle.c_forms.specs.ExprReaders.{listed};
ghost use Rattle.c_forms.specs.SourceReaders as spec;

use crate::lists::exact;
use crate::names::name;
use crate::source::{Head, Param};
use crate::words::{any_type, local, shown_type};
use c_syntax::CType;
use pl_base::Items;
use pl_readers::ReadError;
use pl_readers::bytes::{begins, word};
use std::alloc::Global;

/// A parameter but one of type `void`.
#[tactic(auto, unfolding(crate::specs::SourceReaders::shown_param))]
fn shown_param(alloc: Global, bytes: &[u8]) -> Result<(Param, &[u8]), ReadError>
    ensures { Gives (λ x. (x.0, x.1.now)) result (spec.shown_param bytes.now) }
{
    let (kind, rest) = shown_type(alloc, bytes)?;
    let (local, rest) = local(alloc, rest)?;
    Ok((Param { kind, local }, rest))
}

/// A parameter.
#[tactic(auto, unfolding(crate::specs::SourceReaders::param))]
fn param(alloc: Global, bytes: &[u8]) -> Result<(Param, &[u8]), ReadError>
    ensures { Gives (λ x. (x.0, x.1.now)) result (spec.param bytes.now) }
{
    let (kind, rest) = any_type(alloc, bytes)?;
    let (local, rest) = local(alloc, rest)?;
    Ok((Param { kind, local }, rest))
}

/// A parameter of type `void`, behind that word.
#[tactic(auto, unfolding(crate::specs::SourceReaders::void_param))]
fn void_param(alloc: Global, bytes: &[u8]) -> Result<(Param, &[u8]), ReadError>
    ensures { Gives (λ x. (x.0, x.1.now)) result (spec.void_param bytes.now) }
{
    let rest = word(bytes, b" ")?;
    let (local, rest) = local(alloc, rest)?;
    let kind = CType::Void;
    Ok((Param { kind, local }, rest))
}

/// A parameter behind a comma.
fn next_param(alloc: Global, bytes: &[u8]) -> Result<(Param, &[u8]), ReadError>
    ensures { Gives (λ x. (x.0, x.1.now)) result (after (codes ", ") spec.param bytes.now) }
{
    let rest = word(bytes, b", ")?;
    param(alloc, rest)
}

/// Any number of parameters, each behind a comma; they are put behind those that are read.
fn more_params(
    alloc: Global,
    mut all: Vec<Param>,
    bytes: &[u8],
) -> Result<(Items<Param>, &[u8]), ReadError>
    ensures { Gives (λ x. (x.0, x.1.now)) result (onto all.items (repeat (is 44) (after (codes ", ") spec.param)) bytes.now) }
{
    let mut rest = bytes;
    'items: while begins(rest, b',') {
        let (item, behind) = next_param(alloc, rest)?;
        all.push(item)?;
        rest = behind;
    }
    Ok((exact(all), rest))
}

/// Parameters of which the first is of type `void`, behind that word.
#[tactic(auto, unfolding(crate::specs::ExprReaders::listed))]
fn void_params(alloc: Global, bytes: &[u8]) -> Result<(Items<Param>, &[u8]), ReadError>
    ensures { Gives (λ x. (x.0, x.1.now)) result (listed spec.void_param spec.param bytes.now) }
{
    let (first, rest) = void_param(alloc, bytes)?;
    let mut begun = Vec::new(alloc);
    begun.push(first)?;
    more_params(alloc, begun, rest)
}

/// Parameters of which the first is of another type.
#[tactic(auto, unfolding(crate::specs::ExprReaders::listed))]
fn shown_params(alloc: Global, bytes: &[u8]) -> Result<(Items<Param>, &[u8]), ReadError>
    ensures { Gives (λ x. (x.0, x.1.now)) result (listed spec.shown_param spec.param bytes.now) }
{
    let (first, rest) = shown_param(alloc, bytes)?;
    let mut begun = Vec::new(alloc);
    begun.push(first)?;
    more_params(alloc, begun, rest)
}

/// The parameters of a function, with the closing bracket.
#[tactic(auto, unfolding(crate::specs::SourceReaders::params))]
fn params(alloc: Global, bytes: &[u8]) -> Result<(Items<Param>, &[u8]), ReadError>
    ensures { Gives (λ x. (x.0, x.1.now)) result (spec.params bytes.now) }
{
    if begins(bytes, b'v') {
        let rest = word(bytes, b"void")?;
        if begins(rest, b')') {
            let rest = word(rest, b")")?;
            return Ok((Items::of(Vec::new(alloc)), rest));
        }
        let (all, rest) = void_params(alloc, rest)?;
        let rest = word(rest, b")")?;
        return Ok((all, rest));
    }
    let (all, rest) = shown_params(alloc, bytes)?;
    let rest = word(rest, b")")?;
    Ok((all, rest))
}

/// A function's result, name and parameters, behind `static `.
#[tactic(auto, unfolding(crate::specs::SourceReaders::head))]
pub fn head(alloc: Global, bytes: &[u8]) -> Result<(Head, &[u8]), ReadError>
    ensures { Gives (λ x. (x.0, x.1.now)) result (spec.head bytes.now) }
{
    let (result, rest) = any_type(alloc, bytes)?;
    let rest = word(rest, b"f_")?;
    let (name, rest) = name(alloc, rest)?;
    let rest = word(rest, b"(")?;
    let (params, rest) = params(alloc, rest)?;
    Ok((
        Head {
            result,
            name,
            params,
        },
        rest,
    ))
}
