//! Statements without blocks.

ghost use Rattle.std.specs.Prelude.{◌≡◌, ◌<◌, ◌≤◌, [], ◌∷◌, map, length, IfOk, Ok, Some, None};
ghost use Rattle.pl_readers.specs.Given.{Gives};
ghost use Rattle.pl_readers.specs.Reader.{onto};
ghost use Rattle.pl_syntax.specs.Plain.{plain_stmt, plain_key, plain_prop};
ghost use Rattle.pl_syntax.specs.Tree as tree;
ghost use Rattle.pl_grammar.specs.StatementReaders as read;
ghost use Rattle.pl_statements.specs.Behind as behind;

use crate::lets::let_rule;
use pl_base::{Items, Name, Pos};
use pl_grammar::{
    arguments, begins, binders, cell, cell_behind, instance, labelled, name, number, prop, sign,
    summed, value, whole_prop,
};
use pl_lexer::Token;
use pl_readers::ReadError;
use pl_syntax::{Class, Hint, HintTerm, Key, Prop, Stmt};
use std::alloc::Global;

/// `"(" [ expr { "," expr } ] ")" ";"`, behind the name of a function.
#[tactic(auto, unfolding(pl_grammar::specs::StatementReaders::call_behind))]
fn call_behind(
    alloc: Global,
    depth: u32,
    start: Pos,
    x: Option<Name>,
    f: Name,
    tokens: &[Token],
) -> Result<(Stmt, &[Token]), ReadError>
    ensures value { Gives (λ x. (plain_stmt x.0, x.1.now)) result (read.call_behind depth start x f tokens.now) }
    ensures less { IfOk result (λ x. length x.1.now < length tokens.now) }
{
    let (_, rest) = sign(tokens, 0)?;
    let (args, rest) = arguments(alloc, depth, 0, rest)?;
    let (_, rest) = sign(rest, 7)?;
    Ok((Stmt::Call(start, x, f, args), rest))
}

/// `cell ":=" expr ";"`, behind the name of the cell.
#[tactic(auto, unfolding(pl_grammar::specs::StatementReaders::store_behind))]
fn store_behind(
    alloc: Global,
    depth: u32,
    x: (Pos, Name),
    tokens: &[Token],
) -> Result<(Stmt, &[Token]), ReadError>
    ensures value { Gives (λ x. (plain_stmt x.0, x.1.now)) result (read.store_behind depth x tokens.now) }
    ensures less { IfOk result (λ x. length x.1.now < length tokens.now) }
{
    let start = x.0;
    let (c, rest) = cell_behind(alloc, depth, 0, x, tokens)?;
    let (_, rest) = sign(rest, 12)?;
    let (e, rest) = value(alloc, depth, 0, rest)?;
    let (_, rest) = sign(rest, 7)?;
    Ok((Stmt::Store(start, c, e), rest))
}

/// `NAME "(" .. ";" | cell ":=" expr ";"`
#[tactic(auto, unfolding(pl_grammar::specs::StatementReaders::named_statement))]
fn named_statement(
    alloc: Global,
    depth: u32,
    tokens: &[Token],
) -> Result<(Stmt, &[Token]), ReadError>
    ensures value { Gives (λ x. (plain_stmt x.0, x.1.now)) result (read.named_statement depth tokens.now) }
    ensures less { IfOk result (λ x. length x.1.now < length tokens.now) }
{
    let (x, rest) = name(alloc, tokens)?;
    if begins(rest, &[0]) {
        call_behind(alloc, depth, x.0, None, x.1, rest)
    } else {
        store_behind(alloc, depth, x, rest)
    }
}

/// `"free" "(" NAME ")" ";"`
#[tactic(auto, unfolding(pl_grammar::specs::StatementReaders::free_rule))]
fn free_rule(alloc: Global, tokens: &[Token]) -> Result<(Stmt, &[Token]), ReadError>
    ensures value { Gives (λ x. (plain_stmt x.0, x.1.now)) result (read.free_rule tokens.now) }
    ensures less { IfOk result (λ x. length x.1.now < length tokens.now) }
{
    let (start, rest) = sign(tokens, 79)?;
    let (_, rest) = sign(rest, 0)?;
    let (x, rest) = name(alloc, rest)?;
    let (_, rest) = sign(rest, 1)?;
    let (_, rest) = sign(rest, 7)?;
    Ok((Stmt::Free(start, x.1), rest))
}

/// `"free_array" "(" NAME ")" ";"`
#[tactic(auto, unfolding(pl_grammar::specs::StatementReaders::free_array_rule))]
fn free_array_rule(alloc: Global, tokens: &[Token]) -> Result<(Stmt, &[Token]), ReadError>
    ensures value { Gives (λ x. (plain_stmt x.0, x.1.now)) result (read.free_array_rule tokens.now) }
    ensures less { IfOk result (λ x. length x.1.now < length tokens.now) }
{
    let (start, rest) = sign(tokens, 80)?;
    let (_, rest) = sign(rest, 0)?;
    let (x, rest) = name(alloc, rest)?;
    let (_, rest) = sign(rest, 1)?;
    let (_, rest) = sign(rest, 7)?;
    Ok((Stmt::FreeArray(start, x.1), rest))
}

/// `"acquire" "(" NAME ")" ";"`
#[tactic(auto, unfolding(pl_grammar::specs::StatementReaders::acquire_rule))]
fn acquire_rule(alloc: Global, tokens: &[Token]) -> Result<(Stmt, &[Token]), ReadError>
    ensures value { Gives (λ x. (plain_stmt x.0, x.1.now)) result (read.acquire_rule tokens.now) }
    ensures less { IfOk result (λ x. length x.1.now < length tokens.now) }
{
    let (start, rest) = sign(tokens, 82)?;
    let (_, rest) = sign(rest, 0)?;
    let (x, rest) = name(alloc, rest)?;
    let (_, rest) = sign(rest, 1)?;
    let (_, rest) = sign(rest, 7)?;
    Ok((Stmt::Acquire(start, x.1), rest))
}

/// `"release" "(" NAME ")" ";"`
#[tactic(auto, unfolding(pl_grammar::specs::StatementReaders::release_rule))]
fn release_rule(alloc: Global, tokens: &[Token]) -> Result<(Stmt, &[Token]), ReadError>
    ensures value { Gives (λ x. (plain_stmt x.0, x.1.now)) result (read.release_rule tokens.now) }
    ensures less { IfOk result (λ x. length x.1.now < length tokens.now) }
{
    let (start, rest) = sign(tokens, 83)?;
    let (_, rest) = sign(rest, 0)?;
    let (x, rest) = name(alloc, rest)?;
    let (_, rest) = sign(rest, 1)?;
    let (_, rest) = sign(rest, 7)?;
    Ok((Stmt::Release(start, x.1), rest))
}

/// `"free_lock" "(" NAME ")" ";"`
#[tactic(auto, unfolding(pl_grammar::specs::StatementReaders::free_lock_rule))]
fn free_lock_rule(alloc: Global, tokens: &[Token]) -> Result<(Stmt, &[Token]), ReadError>
    ensures value { Gives (λ x. (plain_stmt x.0, x.1.now)) result (read.free_lock_rule tokens.now) }
    ensures less { IfOk result (λ x. length x.1.now < length tokens.now) }
{
    let (start, rest) = sign(tokens, 84)?;
    let (_, rest) = sign(rest, 0)?;
    let (x, rest) = name(alloc, rest)?;
    let (_, rest) = sign(rest, 1)?;
    let (_, rest) = sign(rest, 7)?;
    Ok((Stmt::FreeLock(start, x.1), rest))
}

/// `"atomic_write" "(" NAME "," expr ")" ";"`
#[tactic(auto, unfolding(pl_grammar::specs::StatementReaders::atomic_write_rule))]
fn atomic_write_rule(
    alloc: Global,
    depth: u32,
    tokens: &[Token],
) -> Result<(Stmt, &[Token]), ReadError>
    ensures value { Gives (λ x. (plain_stmt x.0, x.1.now)) result (read.atomic_write_rule depth tokens.now) }
    ensures less { IfOk result (λ x. length x.1.now < length tokens.now) }
{
    let (start, rest) = sign(tokens, 88)?;
    let (_, rest) = sign(rest, 0)?;
    let (c, rest) = name(alloc, rest)?;
    let (_, rest) = sign(rest, 6)?;
    let (e, rest) = value(alloc, depth, 0, rest)?;
    let (_, rest) = sign(rest, 1)?;
    let (_, rest) = sign(rest, 7)?;
    Ok((Stmt::AtomicWrite(start, c.1, e), rest))
}

/// `"print" "(" expr ")" ";"`
#[tactic(auto, unfolding(pl_grammar::specs::StatementReaders::print_rule))]
fn print_rule(alloc: Global, depth: u32, tokens: &[Token]) -> Result<(Stmt, &[Token]), ReadError>
    ensures value { Gives (λ x. (plain_stmt x.0, x.1.now)) result (read.print_rule depth tokens.now) }
    ensures less { IfOk result (λ x. length x.1.now < length tokens.now) }
{
    let (start, rest) = sign(tokens, 86)?;
    let (_, rest) = sign(rest, 0)?;
    let (e, rest) = value(alloc, depth, 0, rest)?;
    let (_, rest) = sign(rest, 1)?;
    let (_, rest) = sign(rest, 7)?;
    Ok((Stmt::Print(start, e), rest))
}

/// `"par" NAME "(" .. ")" "," NAME "(" .. ")" ";"`
#[tactic(auto, unfolding(pl_grammar::specs::StatementReaders::par_rule))]
fn par_rule(alloc: Global, depth: u32, tokens: &[Token]) -> Result<(Stmt, &[Token]), ReadError>
    ensures value { Gives (λ x. (plain_stmt x.0, x.1.now)) result (read.par_rule depth tokens.now) }
    ensures less { IfOk result (λ x. length x.1.now < length tokens.now) }
{
    let (start, rest) = sign(tokens, 50)?;
    let (f, rest) = name(alloc, rest)?;
    let (_, rest) = sign(rest, 0)?;
    let (xs, rest) = arguments(alloc, depth, 0, rest)?;
    let (_, rest) = sign(rest, 6)?;
    let (g, rest) = name(alloc, rest)?;
    let (_, rest) = sign(rest, 0)?;
    let (ys, rest) = arguments(alloc, depth, 0, rest)?;
    let (_, rest) = sign(rest, 7)?;
    Ok((Stmt::Par(start, f.1, xs, g.1, ys), rest))
}

/// `"return" expr ";"`
#[tactic(auto, unfolding(pl_grammar::specs::StatementReaders::return_rule))]
fn return_rule(alloc: Global, depth: u32, tokens: &[Token]) -> Result<(Stmt, &[Token]), ReadError>
    ensures value { Gives (λ x. (plain_stmt x.0, x.1.now)) result (read.return_rule depth tokens.now) }
    ensures less { IfOk result (λ x. length x.1.now < length tokens.now) }
{
    let (start, rest) = sign(tokens, 49)?;
    let (e, rest) = value(alloc, depth, 0, rest)?;
    let (_, rest) = sign(rest, 7)?;
    Ok((Stmt::Return(start, e), rest))
}

/// `"fold" inst ";"`
#[tactic(auto, unfolding(pl_grammar::specs::StatementReaders::fold_rule))]
fn fold_rule(alloc: Global, depth: u32, tokens: &[Token]) -> Result<(Stmt, &[Token]), ReadError>
    ensures value { Gives (λ x. (plain_stmt x.0, x.1.now)) result (read.fold_rule depth tokens.now) }
    ensures less { IfOk result (λ x. length x.1.now < length tokens.now) }
{
    let (start, rest) = sign(tokens, 63)?;
    let (i, rest) = instance(alloc, depth, 0, rest)?;
    let (_, rest) = sign(rest, 7)?;
    Ok((Stmt::Fold(start, i), rest))
}

/// `"unfold" inst ";"`
#[tactic(auto, unfolding(pl_grammar::specs::StatementReaders::unfold_rule))]
fn unfold_rule(alloc: Global, depth: u32, tokens: &[Token]) -> Result<(Stmt, &[Token]), ReadError>
    ensures value { Gives (λ x. (plain_stmt x.0, x.1.now)) result (read.unfold_rule depth tokens.now) }
    ensures less { IfOk result (λ x. length x.1.now < length tokens.now) }
{
    let (start, rest) = sign(tokens, 64)?;
    let (i, rest) = instance(alloc, depth, 0, rest)?;
    let (_, rest) = sign(rest, 7)?;
    Ok((Stmt::Unfold(start, i), rest))
}

/// `cell | "slice" "(" expr "," expr "," expr ")"`
#[tactic(auto, unfolding(pl_grammar::specs::StatementReaders::key))]
fn key(alloc: Global, depth: u32, tokens: &[Token]) -> Result<(Key, &[Token]), ReadError>
    ensures value { Gives (λ x. (plain_key x.0, x.1.now)) result (read.key depth tokens.now) }
    ensures less { IfOk result (λ x. length x.1.now < length tokens.now) }
{
    if begins(tokens, &[58]) {
        let (_, rest) = sign(tokens, 58)?;
        let (_, rest) = sign(rest, 0)?;
        let (a, rest) = value(alloc, depth, 0, rest)?;
        let (_, rest) = sign(rest, 6)?;
        let (lo, rest) = value(alloc, depth, 0, rest)?;
        let (_, rest) = sign(rest, 6)?;
        let (hi, rest) = value(alloc, depth, 0, rest)?;
        let (_, rest) = sign(rest, 1)?;
        Ok((Key::Slice(a, lo, hi), rest))
    } else {
        let (c, rest) = cell(alloc, depth, 0, tokens)?;
        Ok((Key::Cell(c), rest))
    }
}

/// `"share" key ";"`
#[tactic(auto, unfolding(pl_grammar::specs::StatementReaders::share_rule))]
fn share_rule(alloc: Global, depth: u32, tokens: &[Token]) -> Result<(Stmt, &[Token]), ReadError>
    ensures value { Gives (λ x. (plain_stmt x.0, x.1.now)) result (read.share_rule depth tokens.now) }
    ensures less { IfOk result (λ x. length x.1.now < length tokens.now) }
{
    let (start, rest) = sign(tokens, 67)?;
    let (k, rest) = key(alloc, depth, rest)?;
    let (_, rest) = sign(rest, 7)?;
    Ok((Stmt::Share(start, k), rest))
}

/// `"gather" key ";"`
#[tactic(auto, unfolding(pl_grammar::specs::StatementReaders::gather_rule))]
fn gather_rule(alloc: Global, depth: u32, tokens: &[Token]) -> Result<(Stmt, &[Token]), ReadError>
    ensures value { Gives (λ x. (plain_stmt x.0, x.1.now)) result (read.gather_rule depth tokens.now) }
    ensures less { IfOk result (λ x. length x.1.now < length tokens.now) }
{
    let (start, rest) = sign(tokens, 68)?;
    let (k, rest) = key(alloc, depth, rest)?;
    let (_, rest) = sign(rest, 7)?;
    Ok((Stmt::Gather(start, k), rest))
}

/// `"split" "slice" "(" expr "," expr "," expr ")" "at" expr ";"`
#[tactic(auto, unfolding(pl_grammar::specs::StatementReaders::split_rule))]
fn split_rule(alloc: Global, depth: u32, tokens: &[Token]) -> Result<(Stmt, &[Token]), ReadError>
    ensures value { Gives (λ x. (plain_stmt x.0, x.1.now)) result (read.split_rule depth tokens.now) }
    ensures less { IfOk result (λ x. length x.1.now < length tokens.now) }
{
    let (start, rest) = sign(tokens, 69)?;
    let (_, rest) = sign(rest, 58)?;
    let (_, rest) = sign(rest, 0)?;
    let (a, rest) = value(alloc, depth, 0, rest)?;
    let (_, rest) = sign(rest, 6)?;
    let (lo, rest) = value(alloc, depth, 0, rest)?;
    let (_, rest) = sign(rest, 6)?;
    let (hi, rest) = value(alloc, depth, 0, rest)?;
    let (_, rest) = sign(rest, 1)?;
    let (_, rest) = sign(rest, 71)?;
    let (m, rest) = value(alloc, depth, 0, rest)?;
    let (_, rest) = sign(rest, 7)?;
    Ok((Stmt::Split(start, a, lo, hi, m), rest))
}

/// `"join" "slice" "(" expr "," expr "," expr "," expr ")" ";"`
#[tactic(auto, unfolding(pl_grammar::specs::StatementReaders::join_rule))]
fn join_rule(alloc: Global, depth: u32, tokens: &[Token]) -> Result<(Stmt, &[Token]), ReadError>
    ensures value { Gives (λ x. (plain_stmt x.0, x.1.now)) result (read.join_rule depth tokens.now) }
    ensures less { IfOk result (λ x. length x.1.now < length tokens.now) }
{
    let (start, rest) = sign(tokens, 70)?;
    let (_, rest) = sign(rest, 58)?;
    let (_, rest) = sign(rest, 0)?;
    let (a, rest) = value(alloc, depth, 0, rest)?;
    let (_, rest) = sign(rest, 6)?;
    let (lo, rest) = value(alloc, depth, 0, rest)?;
    let (_, rest) = sign(rest, 6)?;
    let (m, rest) = value(alloc, depth, 0, rest)?;
    let (_, rest) = sign(rest, 6)?;
    let (hi, rest) = value(alloc, depth, 0, rest)?;
    let (_, rest) = sign(rest, 1)?;
    let (_, rest) = sign(rest, 7)?;
    Ok((Stmt::Join(start, a, lo, m, hi), rest))
}

/// `"focus" NAME "[" sum "]" ";"`
#[tactic(auto, unfolding(pl_grammar::specs::StatementReaders::focus_rule))]
fn focus_rule(alloc: Global, depth: u32, tokens: &[Token]) -> Result<(Stmt, &[Token]), ReadError>
    ensures value { Gives (λ x. (plain_stmt x.0, x.1.now)) result (read.focus_rule depth tokens.now) }
    ensures less { IfOk result (λ x. length x.1.now < length tokens.now) }
{
    let (start, rest) = sign(tokens, 72)?;
    let (a, rest) = name(alloc, rest)?;
    let (_, rest) = sign(rest, 4)?;
    let (i, rest) = summed(alloc, depth, 0, rest)?;
    let (_, rest) = sign(rest, 5)?;
    let (_, rest) = sign(rest, 7)?;
    Ok((Stmt::Focus(start, a.1, i), rest))
}

/// `"unfocus" NAME "[" sum "]" ";"`
#[tactic(auto, unfolding(pl_grammar::specs::StatementReaders::unfocus_rule))]
fn unfocus_rule(alloc: Global, depth: u32, tokens: &[Token]) -> Result<(Stmt, &[Token]), ReadError>
    ensures value { Gives (λ x. (plain_stmt x.0, x.1.now)) result (read.unfocus_rule depth tokens.now) }
    ensures less { IfOk result (λ x. length x.1.now < length tokens.now) }
{
    let (start, rest) = sign(tokens, 73)?;
    let (a, rest) = name(alloc, rest)?;
    let (_, rest) = sign(rest, 4)?;
    let (i, rest) = summed(alloc, depth, 0, rest)?;
    let (_, rest) = sign(rest, 5)?;
    let (_, rest) = sign(rest, 7)?;
    Ok((Stmt::Unfocus(start, a.1, i), rest))
}

/// `NUMBER "*" NAME`
#[tactic(auto, unfolding(pl_grammar::specs::StatementReaders::hint_term))]
fn hint_term(alloc: Global, tokens: &[Token]) -> Result<(HintTerm, &[Token]), ReadError>
    ensures value { Gives (λ x. (x.0, x.1.now)) result (read.hint_term tokens.now) }
    ensures less { IfOk result (λ x. length x.1.now < length tokens.now) }
{
    let (n, rest) = number(tokens)?;
    let (_, rest) = sign(rest, 17)?;
    let (l, rest) = name(alloc, rest)?;
    Ok((
        HintTerm {
            times: n.1,
            label: l.1,
        },
        rest,
    ))
}

/// `"+" NUMBER "*" NAME`
#[tactic(auto, unfolding(pl_grammar::specs::StatementReaders::next_hint_term))]
fn next_hint_term(alloc: Global, tokens: &[Token]) -> Result<(HintTerm, &[Token]), ReadError>
    ensures value { Gives (λ x. (x.0, x.1.now)) result (read.next_hint_term tokens.now) }
    ensures less { IfOk result (λ x. length x.1.now < length tokens.now) }
{
    let (_, rest) = sign(tokens, 15)?;
    hint_term(alloc, rest)
}

/// `{ "+" NUMBER "*" NAME }`, behind the first.
fn more_hint_terms(
    alloc: Global,
    first: HintTerm,
    tokens: &[Token],
) -> Result<(Items<HintTerm>, &[Token]), ReadError>
    ensures value { Gives (λ x. (x.0, x.1.now)) result (onto (first ∷ []) read.more_hint_terms tokens.now) }
    ensures less { IfOk result (λ x. length x.1.now ≤ length tokens.now) }
{
    let mut all = Vec::new(alloc);
    all.push(first)?;
    let mut rest = tokens;
    'turns: while begins(rest, &[15]) {
        let (item, after) = next_hint_term(alloc, rest)?;
        all.push(item)?;
        rest = after;
    }
    Ok((Items::of(all), rest))
}

/// `[ "by" NUMBER "*" NAME { "+" NUMBER "*" NAME } ]`
#[tactic(auto, unfolding(pl_grammar::specs::StatementReaders::hint))]
fn hint(alloc: Global, tokens: &[Token]) -> Result<(Option<Hint>, &[Token]), ReadError>
    ensures value { Gives (λ x. (x.0, x.1.now)) result (read.hint tokens.now) }
    ensures less { IfOk result (λ x. length x.1.now ≤ length tokens.now) }
{
    if !begins(tokens, &[48]) {
        return Ok((None, tokens));
    }
    let (_, rest) = sign(tokens, 48)?;
    let (first, rest) = hint_term(alloc, rest)?;
    let (terms, rest) = more_hint_terms(alloc, first, rest)?;
    Ok((Some(Hint { terms }), rest))
}

/// `"assert" [ NAME ":" ] expr [ "by" .. ] ";"`
#[tactic(auto, unfolding(pl_grammar::specs::StatementReaders::assert_rule))]
fn assert_rule(alloc: Global, depth: u32, tokens: &[Token]) -> Result<(Stmt, &[Token]), ReadError>
    ensures value { Gives (λ x. (plain_stmt x.0, x.1.now)) result (read.assert_rule depth tokens.now) }
    ensures less { IfOk result (λ x. length x.1.now < length tokens.now) }
{
    let (start, rest) = sign(tokens, 47)?;
    let (e, rest) = labelled(alloc, depth, 0, rest)?;
    let (h, rest) = hint(alloc, rest)?;
    let (_, rest) = sign(rest, 7)?;
    Ok((Stmt::Assert(start, e.0, e.1, h), rest))
}

/// `"with" bind { "," bind } "." "assert" prop ";"`
#[tactic(auto, unfolding(pl_grammar::specs::StatementReaders::with_assert_rule))]
fn with_assert_rule(
    alloc: Global,
    depth: u32,
    tokens: &[Token],
) -> Result<(Stmt, &[Token]), ReadError>
    ensures value { Gives (λ x. (plain_stmt x.0, x.1.now)) result (read.with_assert_rule depth tokens.now) }
    ensures less { IfOk result (λ x. length x.1.now < length tokens.now) }
{
    let (start, rest) = sign(tokens, 45)?;
    let (bs, rest) = binders(alloc, Class::Logical, rest)?;
    let (_, rest) = sign(rest, 9)?;
    let (_, rest) = sign(rest, 47)?;
    let (p, rest) = whole_prop(alloc, depth, 0, rest)?;
    let (_, rest) = sign(rest, 7)?;
    Ok((Stmt::WithAssert(start, bs, p), rest))
}

/// `"drop_" prop ";"`
#[tactic(auto, unfolding(pl_grammar::specs::StatementReaders::drop_rule))]
fn drop_rule(alloc: Global, depth: u32, tokens: &[Token]) -> Result<(Stmt, &[Token]), ReadError>
    ensures value { Gives (λ x. (plain_stmt x.0, x.1.now)) result (read.drop_rule depth tokens.now) }
    ensures less { IfOk result (λ x. length x.1.now < length tokens.now) }
{
    let (start, rest) = sign(tokens, 74)?;
    let (p, rest) = whole_prop(alloc, depth, 0, rest)?;
    let (_, rest) = sign(rest, 7)?;
    Ok((Stmt::Drop(start, p), rest))
}

/// A `rewrite` of these two.
fn rewritten(start: Pos, from: Prop, to: Prop) -> Stmt
    ensures { plain_stmt result ≡ tree.Rewrite start (plain_prop from) (plain_prop to) }
{
    Stmt::Rewrite(start, from, to)
}

/// `"as" prop ";"`, behind the first proposition of a `rewrite`, whose levels go on in the second.
fn second_prop(
    alloc: Global,
    depth: u32,
    used: u32,
    tokens: &[Token],
) -> Result<(Prop, &[Token]), ReadError>
    requires { used ≤ depth }
    ensures value { Gives (λ x. (plain_prop x.0, x.1.now)) result (behind.second_prop depth used tokens.now) }
    ensures less { IfOk result (λ x. length x.1.now < length tokens.now) }
{
    let (_, rest) = sign(tokens, 66)?;
    let (to, rest) = prop(alloc, depth, used, rest)?;
    let (_, rest) = sign(rest, 7)?;
    Ok((to.tree, rest))
}

/// `"rewrite" prop "as" prop ";"`
#[tactic(auto, unfolding(pl_grammar::specs::StatementReaders::rewrite_rule))]
fn rewrite_rule(alloc: Global, depth: u32, tokens: &[Token]) -> Result<(Stmt, &[Token]), ReadError>
    ensures value { Gives (λ x. (plain_stmt x.0, x.1.now)) result (read.rewrite_rule depth tokens.now) }
    ensures less { IfOk result (λ x. length x.1.now < length tokens.now) }
{
    let (start, rest) = sign(tokens, 65)?;
    let (from, rest) = prop(alloc, depth, 0, rest)?;
    let (to, rest) = second_prop(alloc, depth, from.used, rest)?;
    Ok((rewritten(start, from.tree, to), rest))
}

/// A statement without blocks.
#[tactic(auto, unfolding(pl_grammar::specs::StatementReaders::simple_statement))]
pub fn simple_statement(
    alloc: Global,
    depth: u32,
    tokens: &[Token],
) -> Result<(Stmt, &[Token]), ReadError>
    ensures value { Gives (λ x. (plain_stmt x.0, x.1.now)) result (read.simple_statement depth tokens.now) }
    ensures less { IfOk result (λ x. length x.1.now < length tokens.now) }
{
    if begins(tokens, &[39]) {
        let_rule(alloc, depth, tokens)
    } else if begins(tokens, &[79]) {
        free_rule(alloc, tokens)
    } else if begins(tokens, &[80]) {
        free_array_rule(alloc, tokens)
    } else if begins(tokens, &[82]) {
        acquire_rule(alloc, tokens)
    } else if begins(tokens, &[83]) {
        release_rule(alloc, tokens)
    } else if begins(tokens, &[84]) {
        free_lock_rule(alloc, tokens)
    } else if begins(tokens, &[88]) {
        atomic_write_rule(alloc, depth, tokens)
    } else if begins(tokens, &[86]) {
        print_rule(alloc, depth, tokens)
    } else if begins(tokens, &[50]) {
        par_rule(alloc, depth, tokens)
    } else if begins(tokens, &[49]) {
        return_rule(alloc, depth, tokens)
    } else if begins(tokens, &[63]) {
        fold_rule(alloc, depth, tokens)
    } else if begins(tokens, &[64]) {
        unfold_rule(alloc, depth, tokens)
    } else if begins(tokens, &[65]) {
        rewrite_rule(alloc, depth, tokens)
    } else if begins(tokens, &[67]) {
        share_rule(alloc, depth, tokens)
    } else if begins(tokens, &[68]) {
        gather_rule(alloc, depth, tokens)
    } else if begins(tokens, &[69]) {
        split_rule(alloc, depth, tokens)
    } else if begins(tokens, &[70]) {
        join_rule(alloc, depth, tokens)
    } else if begins(tokens, &[72]) {
        focus_rule(alloc, depth, tokens)
    } else if begins(tokens, &[73]) {
        unfocus_rule(alloc, depth, tokens)
    } else if begins(tokens, &[47]) {
        assert_rule(alloc, depth, tokens)
    } else if begins(tokens, &[45]) {
        with_assert_rule(alloc, depth, tokens)
    } else if begins(tokens, &[74]) {
        drop_rule(alloc, depth, tokens)
    } else {
        named_statement(alloc, depth, tokens)
    }
}
