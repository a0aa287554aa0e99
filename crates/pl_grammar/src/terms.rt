//! Terms: what stands in propositions and statements.

ghost use Rattle.std.specs.Prelude.{◌≡◌, ◌<◌, ◌≤◌, ◌+◌, ◌-◌, [], ◌∷◌, map, length, IfOk, Ok, Some};
ghost use Rattle.std.specs.Option.{option_map};
ghost use Rattle.pl_readers.specs.Given.{Gives, Fails};
ghost use Rattle.pl_readers.specs.Reader.{onto, one, repeat};
ghost use Rattle.pl_syntax.specs.Plain.{plain_expr, plain_cell, plain_instance, plain_prop, plain_body, plain_init, plain_key, plain_stmt, plain_block, plain_decl, otherwise};
ghost use Rattle.pl_grammar.specs.Parts.{plain_prop_part};
ghost use Rattle.pl_grammar.specs.PropReaders as read;
ghost use Rattle.pl_grammar.specs.PropGrammar as spec;
ghost use Rattle.pl_grammar.specs.Signs.{signs_of, entry_of};

use crate::exprs::{expression, sum};
use crate::tokens::{begins, begins_name, name, number, sign};
use pl_base::{Items, Name, Perm, Pos};
use pl_lexer::{Kind, Token};
use pl_readers::{ReadError, refused};
use pl_syntax::{Binder, CellExpr, Class, Expr, Instance, PermExpr, Sort};
use std::alloc::Global;

/// An expression in a bracket or an argument: its levels end with it.
#[tactic(auto, unfolding(crate::specs::PropReaders::value))]
pub fn value(
    alloc: Global,
    depth: u32,
    used: u32,
    tokens: &[Token],
) -> Result<(Expr, &[Token]), ReadError>
    requires { used ≤ depth }
    ensures value { Gives (λ x. (plain_expr x.0, x.1.now)) result (read.value depth used tokens.now) }
    ensures less { IfOk result (λ x. length x.1.now < length tokens.now) }
{
    let (x, rest) = expression(alloc, depth, used, tokens)?;
    Ok((x.tree, rest))
}

/// The same of a sum.
#[tactic(auto, unfolding(crate::specs::PropReaders::summed))]
pub fn summed(
    alloc: Global,
    depth: u32,
    used: u32,
    tokens: &[Token],
) -> Result<(Expr, &[Token]), ReadError>
    requires { used ≤ depth }
    ensures value { Gives (λ x. (plain_expr x.0, x.1.now)) result (read.summed depth used tokens.now) }
    ensures less { IfOk result (λ x. length x.1.now < length tokens.now) }
{
    let (x, rest) = sum(alloc, depth, used, tokens)?;
    Ok((x.tree, rest))
}

/// `"," expr`
#[tactic(auto, unfolding(crate::specs::PropReaders::next_value))]
pub fn next_value(
    alloc: Global,
    depth: u32,
    used: u32,
    tokens: &[Token],
) -> Result<(Expr, &[Token]), ReadError>
    requires { used ≤ depth }
    ensures value { Gives (λ x. (plain_expr x.0, x.1.now)) result (read.next_value depth used tokens.now) }
    ensures less { IfOk result (λ x. length x.1.now < length tokens.now) }
{
    let (_, rest) = sign(tokens, 6)?;
    value(alloc, depth, used, rest)
}

/// `{ "," expr }`, behind the first.
pub fn more_values(
    alloc: Global,
    depth: u32,
    used: u32,
    first: Expr,
    tokens: &[Token],
) -> Result<(Items<Expr>, &[Token]), ReadError>
    requires { used ≤ depth }
    ensures value { Gives (λ x. (map plain_expr x.0, x.1.now)) result (onto (plain_expr first ∷ []) (read.more_values depth used) tokens.now) }
    ensures less { IfOk result (λ x. length x.1.now ≤ length tokens.now) }
{
    let mut all = Vec::new(alloc);
    all.push(first)?;
    let mut rest = tokens;
    'turns: while begins(rest, &[6]) {
        let (item, after) = next_value(alloc, depth, used, rest)?;
        all.push(item)?;
        rest = after;
    }
    Ok((Items::of(all), rest))
}

/// `[ expr { "," expr } ] ")"`
#[tactic(auto, unfolding(crate::specs::PropReaders::arguments))]
pub fn arguments(
    alloc: Global,
    depth: u32,
    used: u32,
    tokens: &[Token],
) -> Result<(Items<Expr>, &[Token]), ReadError>
    requires { used ≤ depth }
    ensures value { Gives (λ x. (map plain_expr x.0, x.1.now)) result (read.arguments depth used tokens.now) }
    ensures less { IfOk result (λ x. length x.1.now < length tokens.now) }
{
    if begins(tokens, &[1]) {
        let (_, rest) = sign(tokens, 1)?;
        Ok((Items::of(Vec::new(alloc)), rest))
    } else {
        let (first, rest) = value(alloc, depth, used, tokens)?;
        let (more, rest) = more_values(alloc, depth, used, first, rest)?;
        let (_, rest) = sign(rest, 1)?;
        Ok((more, rest))
    }
}

/// `[ "[" sum "]" | "." NAME ], behind a name`
#[tactic(auto, unfolding(crate::specs::PropReaders::cell_behind))]
pub fn cell_behind(
    alloc: Global,
    depth: u32,
    used: u32,
    x: (Pos, Name),
    tokens: &[Token],
) -> Result<(CellExpr, &[Token]), ReadError>
    requires { used ≤ depth }
    ensures value { Gives (λ x. (plain_cell x.0, x.1.now)) result (read.cell_behind depth used x tokens.now) }
    ensures less { IfOk result (λ x. length x.1.now ≤ length tokens.now) }
{
    if !begins(tokens, &[4, 9]) {
        return Ok((CellExpr::Whole(x.1), tokens));
    }
    if begins(tokens, &[4]) {
        let (_, rest) = sign(tokens, 4)?;
        let (i, rest) = summed(alloc, depth, used, rest)?;
        let (_, rest) = sign(rest, 5)?;
        Ok((CellExpr::At(x.1, i), rest))
    } else {
        let (_, rest) = sign(tokens, 9)?;
        let (f, rest) = name(alloc, rest)?;
        Ok((CellExpr::Field(x.1, f.1), rest))
    }
}

/// `cell = NAME [ "[" sum "]" | "." NAME ]`
#[tactic(auto, unfolding(crate::specs::PropReaders::cell))]
pub fn cell(
    alloc: Global,
    depth: u32,
    used: u32,
    tokens: &[Token],
) -> Result<(CellExpr, &[Token]), ReadError>
    requires { used ≤ depth }
    ensures value { Gives (λ x. (plain_cell x.0, x.1.now)) result (read.cell depth used tokens.now) }
    ensures less { IfOk result (λ x. length x.1.now < length tokens.now) }
{
    let (x, rest) = name(alloc, tokens)?;
    cell_behind(alloc, depth, used, x, rest)
}

/// `"(" [ expr { "," expr } ] ")", behind a name`
#[tactic(auto, unfolding(crate::specs::PropReaders::instance_behind))]
pub fn instance_behind(
    alloc: Global,
    depth: u32,
    used: u32,
    x: (Pos, Name),
    tokens: &[Token],
) -> Result<(Instance, &[Token]), ReadError>
    requires { used ≤ depth }
    ensures value { Gives (λ x. (plain_instance x.0, x.1.now)) result (read.instance_behind depth used x tokens.now) }
    ensures less { IfOk result (λ x. length x.1.now < length tokens.now) }
{
    let (_, rest) = sign(tokens, 0)?;
    let (args, rest) = arguments(alloc, depth, used, rest)?;
    Ok((
        Instance {
            pos: x.0,
            pred: x.1,
            args,
        },
        rest,
    ))
}

/// `inst = NAME "(" [ expr { "," expr } ] ")"`
#[tactic(auto, unfolding(crate::specs::PropReaders::instance))]
pub fn instance(
    alloc: Global,
    depth: u32,
    used: u32,
    tokens: &[Token],
) -> Result<(Instance, &[Token]), ReadError>
    requires { used ≤ depth }
    ensures value { Gives (λ x. (plain_instance x.0, x.1.now)) result (read.instance depth used tokens.now) }
    ensures less { IfOk result (λ x. length x.1.now < length tokens.now) }
{
    let (x, rest) = name(alloc, tokens)?;
    instance_behind(alloc, depth, used, x, rest)
}

/// The sort behind `ref`.
fn ref_sort(alloc: Global, tokens: &[Token]) -> Result<(Sort, &[Token]), ReadError>
    ensures value { Gives (λ x. (x.0, x.1.now)) result (one spec.ref_of tokens.now) }
    ensures less { IfOk result (λ x. length x.1.now < length tokens.now) }
{
    let [t, rest @ ..] = tokens else {
        return Err(refused(tokens));
    };
    let sort = match &t.kind {
        Kind::Word(name) => Sort::RefStruct(Name::of(alloc, name.text())?),
        Kind::Sign(92) => Sort::RefI64,
        Kind::Sign(93) => Sort::RefBool,
        _ => return Err(refused(tokens)),
    };
    Ok((sort, rest))
}

/// A sort of one word.
fn sort_word(tokens: &[Token]) -> Result<(Sort, &[Token]), ReadError>
    ensures value { Gives (λ x. (x.0, x.1.now)) result (one (entry_of spec.sorts) tokens.now) }
    ensures less { IfOk result (λ x. length x.1.now < length tokens.now) }
{
    let [t, rest @ ..] = tokens else {
        return Err(refused(tokens));
    };
    let sort = match t.kind {
        Kind::Sign(92) => Sort::I64,
        Kind::Sign(93) => Sort::Bool,
        Kind::Sign(95) => Sort::Atomic,
        Kind::Sign(96) => Sort::Lock,
        Kind::Sign(97) => Sort::Int,
        Kind::Sign(98) => Sort::Perm,
        Kind::Sign(99) => Sort::Gref,
        Kind::Sign(100) => Sort::Iname,
        _ => return Err(refused(tokens)),
    };
    Ok((sort, rest))
}

/// `sort = "i64" | "bool" | "ref" ( "i64" | "bool" | NAME ) | "atomic" | "lock" | "int" | "perm" | "gref" | "iname"`
#[tactic(auto, unfolding(crate::specs::PropReaders::sort))]
pub fn sort(alloc: Global, tokens: &[Token]) -> Result<(Sort, &[Token]), ReadError>
    ensures value { Gives (λ x. (x.0, x.1.now)) result (read.sort tokens.now) }
    ensures less { IfOk result (λ x. length x.1.now < length tokens.now) }
{
    if begins(tokens, &[94]) {
        let (_, rest) = sign(tokens, 94)?;
        ref_sort(alloc, rest)
    } else {
        sort_word(tokens)
    }
}

/// `bind = NAME ":" sort, whose place is the name's`
#[tactic(auto, unfolding(crate::specs::PropReaders::binder))]
pub fn binder(
    alloc: Global,
    class: Class,
    tokens: &[Token],
) -> Result<(Binder, &[Token]), ReadError>
    ensures value { Gives (λ x. (x.0, x.1.now)) result (read.binder class tokens.now) }
    ensures less { IfOk result (λ x. length x.1.now < length tokens.now) }
{
    let (x, rest) = name(alloc, tokens)?;
    let (_, rest) = sign(rest, 8)?;
    let (s, rest) = sort(alloc, rest)?;
    Ok((
        Binder {
            pos: x.0,
            class,
            name: x.1,
            sort: s,
        },
        rest,
    ))
}

/// `"," bind`
#[tactic(auto, unfolding(crate::specs::PropReaders::next_binder))]
pub fn next_binder(
    alloc: Global,
    class: Class,
    tokens: &[Token],
) -> Result<(Binder, &[Token]), ReadError>
    ensures value { Gives (λ x. (x.0, x.1.now)) result (read.next_binder class tokens.now) }
    ensures less { IfOk result (λ x. length x.1.now < length tokens.now) }
{
    let (_, rest) = sign(tokens, 6)?;
    binder(alloc, class, rest)
}

/// `{ "," bind }`, behind the first.
pub fn more_binders(
    alloc: Global,
    class: Class,
    first: Binder,
    tokens: &[Token],
) -> Result<(Items<Binder>, &[Token]), ReadError>
    ensures value { Gives (λ x. (x.0, x.1.now)) result (onto (first ∷ []) (read.more_binders class) tokens.now) }
    ensures less { IfOk result (λ x. length x.1.now ≤ length tokens.now) }
{
    let mut all = Vec::new(alloc);
    all.push(first)?;
    let mut rest = tokens;
    'turns: while begins(rest, &[6]) {
        let (item, after) = next_binder(alloc, class, rest)?;
        all.push(item)?;
        rest = after;
    }
    Ok((Items::of(all), rest))
}

/// `bind { "," bind }`
#[tactic(auto, unfolding(crate::specs::PropReaders::binders))]
pub fn binders(
    alloc: Global,
    class: Class,
    tokens: &[Token],
) -> Result<(Items<Binder>, &[Token]), ReadError>
    ensures value { Gives (λ x. (x.0, x.1.now)) result (read.binders class tokens.now) }
    ensures less { IfOk result (λ x. length x.1.now < length tokens.now) }
{
    let (first, rest) = binder(alloc, class, tokens)?;
    let (more, rest) = more_binders(alloc, class, first, rest)?;
    Ok((more, rest))
}
