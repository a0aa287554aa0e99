//! What begins with `let`. Operators' levels end with a statement, so each begins with none open.

ghost use Rattle.std.specs.Prelude.{◌≡◌, ◌<◌, ◌≤◌, [], ◌∷◌, map, length, IfOk, Ok, Some, false};
ghost use Rattle.pl_readers.specs.Given.{Gives};
ghost use Rattle.pl_readers.specs.Reader.{onto};
ghost use Rattle.pl_syntax.specs.Plain.{plain_stmt, plain_init};
ghost use Rattle.pl_grammar.specs.StatementReaders as read;

use pl_base::{Items, Name, Pos};
use pl_grammar::{arguments, begins, begins_label, cell, instance, name, sign, value};
use pl_lexer::Token;
use pl_readers::ReadError;
use pl_syntax::{Init, Stmt};
use std::alloc::Global;

/// `"mut" NAME "=" expr ";"`
#[tactic(auto, unfolding(pl_grammar::specs::StatementReaders::let_mut))]
fn let_mut(
    alloc: Global,
    depth: u32,
    start: Pos,
    tokens: &[Token],
) -> Result<(Stmt, &[Token]), ReadError>
    ensures value { Gives (λ x. (plain_stmt x.0, x.1.now)) result (read.let_mut depth start tokens.now) }
    ensures less { IfOk result (λ x. length x.1.now < length tokens.now) }
{
    let (_, rest) = sign(tokens, 40)?;
    let (x, rest) = name(alloc, rest)?;
    let (_, rest) = sign(rest, 11)?;
    let (e, rest) = value(alloc, depth, 0, rest)?;
    let (_, rest) = sign(rest, 7)?;
    Ok((Stmt::LetMut(start, x.1, e), rest))
}

/// `"!" cell ";"`
#[tactic(auto, unfolding(pl_grammar::specs::StatementReaders::load_behind))]
pub fn load_behind(
    alloc: Global,
    depth: u32,
    start: Pos,
    x: (Pos, Name),
    is_ghost: bool,
    tokens: &[Token],
) -> Result<(Stmt, &[Token]), ReadError>
    ensures value { Gives (λ x. (plain_stmt x.0, x.1.now)) result (read.load_behind depth start x is_ghost tokens.now) }
    ensures less { IfOk result (λ x. length x.1.now < length tokens.now) }
{
    let (_, rest) = sign(tokens, 29)?;
    let (c, rest) = cell(alloc, depth, 0, rest)?;
    let (_, rest) = sign(rest, 7)?;
    Ok((Stmt::Load(start, x.1, c, is_ghost), rest))
}

/// `"galloc" "(" expr ")" ";"`
#[tactic(auto, unfolding(pl_grammar::specs::StatementReaders::galloc_behind))]
fn galloc_behind(
    alloc: Global,
    depth: u32,
    start: Pos,
    x: (Pos, Name),
    tokens: &[Token],
) -> Result<(Stmt, &[Token]), ReadError>
    ensures value { Gives (λ x. (plain_stmt x.0, x.1.now)) result (read.galloc_behind depth start x tokens.now) }
    ensures less { IfOk result (λ x. length x.1.now < length tokens.now) }
{
    let (_, rest) = sign(tokens, 90)?;
    let (_, rest) = sign(rest, 0)?;
    let (e, rest) = value(alloc, depth, 0, rest)?;
    let (_, rest) = sign(rest, 1)?;
    let (_, rest) = sign(rest, 7)?;
    Ok((Stmt::GAlloc(start, x.1, e), rest))
}

/// `"new_invariant" "(" inst ")" ";"`
#[tactic(auto, unfolding(pl_grammar::specs::StatementReaders::new_invariant_behind))]
fn new_invariant_behind(
    alloc: Global,
    depth: u32,
    start: Pos,
    x: (Pos, Name),
    tokens: &[Token],
) -> Result<(Stmt, &[Token]), ReadError>
    ensures value { Gives (λ x. (plain_stmt x.0, x.1.now)) result (read.new_invariant_behind depth start x tokens.now) }
    ensures less { IfOk result (λ x. length x.1.now < length tokens.now) }
{
    let (_, rest) = sign(tokens, 91)?;
    let (_, rest) = sign(rest, 0)?;
    let (e, rest) = instance(alloc, depth, 0, rest)?;
    let (_, rest) = sign(rest, 1)?;
    let (_, rest) = sign(rest, 7)?;
    Ok((Stmt::NewInv(start, x.1, e), rest))
}

/// `expr ";"`
#[tactic(auto, unfolding(pl_grammar::specs::StatementReaders::ghost_let_behind))]
fn ghost_let_behind(
    alloc: Global,
    depth: u32,
    start: Pos,
    x: (Pos, Name),
    tokens: &[Token],
) -> Result<(Stmt, &[Token]), ReadError>
    ensures value { Gives (λ x. (plain_stmt x.0, x.1.now)) result (read.ghost_let_behind depth start x tokens.now) }
    ensures less { IfOk result (λ x. length x.1.now < length tokens.now) }
{
    let (e, rest) = value(alloc, depth, 0, tokens)?;
    let (_, rest) = sign(rest, 7)?;
    Ok((Stmt::GLet(start, x.1, e), rest))
}

/// What stands behind `"let" "ghost" NAME "="`.
#[tactic(auto, unfolding(pl_grammar::specs::StatementReaders::ghost_made))]
fn ghost_made(
    alloc: Global,
    depth: u32,
    start: Pos,
    x: (Pos, Name),
    tokens: &[Token],
) -> Result<(Stmt, &[Token]), ReadError>
    ensures value { Gives (λ x. (plain_stmt x.0, x.1.now)) result (read.ghost_made depth start x tokens.now) }
    ensures less { IfOk result (λ x. length x.1.now < length tokens.now) }
{
    if begins(tokens, &[29]) {
        load_behind(alloc, depth, start, x, true, tokens)
    } else if begins(tokens, &[90]) {
        galloc_behind(alloc, depth, start, x, tokens)
    } else if begins(tokens, &[91]) {
        new_invariant_behind(alloc, depth, start, x, tokens)
    } else {
        ghost_let_behind(alloc, depth, start, x, tokens)
    }
}

/// `"ghost" NAME "=" ..`
#[tactic(auto, unfolding(pl_grammar::specs::StatementReaders::let_ghost))]
fn let_ghost(
    alloc: Global,
    depth: u32,
    start: Pos,
    tokens: &[Token],
) -> Result<(Stmt, &[Token]), ReadError>
    ensures value { Gives (λ x. (plain_stmt x.0, x.1.now)) result (read.let_ghost depth start tokens.now) }
    ensures less { IfOk result (λ x. length x.1.now < length tokens.now) }
{
    let (_, rest) = sign(tokens, 32)?;
    let (x, rest) = name(alloc, rest)?;
    let (_, rest) = sign(rest, 11)?;
    ghost_made(alloc, depth, start, x, rest)
}

/// `"alloc" "(" expr ")" ";"`
#[tactic(auto, unfolding(pl_grammar::specs::StatementReaders::alloc_behind))]
fn alloc_behind(
    alloc: Global,
    depth: u32,
    start: Pos,
    x: (Pos, Name),
    tokens: &[Token],
) -> Result<(Stmt, &[Token]), ReadError>
    ensures value { Gives (λ x. (plain_stmt x.0, x.1.now)) result (read.alloc_behind depth start x tokens.now) }
    ensures less { IfOk result (λ x. length x.1.now < length tokens.now) }
{
    let (_, rest) = sign(tokens, 75)?;
    let (_, rest) = sign(rest, 0)?;
    let (e, rest) = value(alloc, depth, 0, rest)?;
    let (_, rest) = sign(rest, 1)?;
    let (_, rest) = sign(rest, 7)?;
    Ok((Stmt::Alloc(start, x.1, e), rest))
}

/// `"alloc_array" "(" expr "," expr ")" ";"`
#[tactic(auto, unfolding(pl_grammar::specs::StatementReaders::alloc_array_behind))]
fn alloc_array_behind(
    alloc: Global,
    depth: u32,
    start: Pos,
    x: (Pos, Name),
    tokens: &[Token],
) -> Result<(Stmt, &[Token]), ReadError>
    ensures value { Gives (λ x. (plain_stmt x.0, x.1.now)) result (read.alloc_array_behind depth start x tokens.now) }
    ensures less { IfOk result (λ x. length x.1.now < length tokens.now) }
{
    let (_, rest) = sign(tokens, 76)?;
    let (_, rest) = sign(rest, 0)?;
    let (e, rest) = value(alloc, depth, 0, rest)?;
    let (_, rest) = sign(rest, 6)?;
    let (n, rest) = value(alloc, depth, 0, rest)?;
    let (_, rest) = sign(rest, 1)?;
    let (_, rest) = sign(rest, 7)?;
    Ok((Stmt::AllocArray(start, x.1, e, n), rest))
}

/// `"alloc_atomic" "(" expr ")" ";"`
#[tactic(auto, unfolding(pl_grammar::specs::StatementReaders::alloc_atomic_behind))]
fn alloc_atomic_behind(
    alloc: Global,
    depth: u32,
    start: Pos,
    x: (Pos, Name),
    tokens: &[Token],
) -> Result<(Stmt, &[Token]), ReadError>
    ensures value { Gives (λ x. (plain_stmt x.0, x.1.now)) result (read.alloc_atomic_behind depth start x tokens.now) }
    ensures less { IfOk result (λ x. length x.1.now < length tokens.now) }
{
    let (_, rest) = sign(tokens, 77)?;
    let (_, rest) = sign(rest, 0)?;
    let (e, rest) = value(alloc, depth, 0, rest)?;
    let (_, rest) = sign(rest, 1)?;
    let (_, rest) = sign(rest, 7)?;
    Ok((Stmt::AllocAtomic(start, x.1, e), rest))
}

/// `NAME ":" expr`
#[tactic(auto, unfolding(pl_grammar::specs::StatementReaders::init))]
fn init(alloc: Global, depth: u32, tokens: &[Token]) -> Result<(Init, &[Token]), ReadError>
    ensures value { Gives (λ x. (plain_init x.0, x.1.now)) result (read.init depth tokens.now) }
    ensures less { IfOk result (λ x. length x.1.now < length tokens.now) }
{
    let (f, rest) = name(alloc, tokens)?;
    let (_, rest) = sign(rest, 8)?;
    let (value, rest) = value(alloc, depth, 0, rest)?;
    Ok((Init { name: f.1, value }, rest))
}

/// `"," NAME ":" expr`
#[tactic(auto, unfolding(pl_grammar::specs::StatementReaders::next_init))]
fn next_init(alloc: Global, depth: u32, tokens: &[Token]) -> Result<(Init, &[Token]), ReadError>
    ensures value { Gives (λ x. (plain_init x.0, x.1.now)) result (read.next_init depth tokens.now) }
    ensures less { IfOk result (λ x. length x.1.now < length tokens.now) }
{
    let (_, rest) = sign(tokens, 6)?;
    init(alloc, depth, rest)
}

/// `{ "," NAME ":" expr }`, behind the first.
fn more_inits(
    alloc: Global,
    depth: u32,
    first: Init,
    tokens: &[Token],
) -> Result<(Items<Init>, &[Token]), ReadError>
    ensures value { Gives (λ x. (map plain_init x.0, x.1.now)) result (onto (plain_init first ∷ []) (read.more_inits depth) tokens.now) }
    ensures less { IfOk result (λ x. length x.1.now ≤ length tokens.now) }
{
    let mut all = Vec::new(alloc);
    all.push(first)?;
    let mut rest = tokens;
    'turns: while begins(rest, &[6]) {
        let (item, after) = next_init(alloc, depth, rest)?;
        all.push(item)?;
        rest = after;
    }
    Ok((Items::of(all), rest))
}

/// `"new" NAME "{" NAME ":" expr { "," NAME ":" expr } "}" ";"`
#[tactic(auto, unfolding(pl_grammar::specs::StatementReaders::new_behind))]
fn new_behind(
    alloc: Global,
    depth: u32,
    start: Pos,
    x: (Pos, Name),
    tokens: &[Token],
) -> Result<(Stmt, &[Token]), ReadError>
    ensures value { Gives (λ x. (plain_stmt x.0, x.1.now)) result (read.new_behind depth start x tokens.now) }
    ensures less { IfOk result (λ x. length x.1.now < length tokens.now) }
{
    let (_, rest) = sign(tokens, 78)?;
    let (s, rest) = name(alloc, rest)?;
    let (_, rest) = sign(rest, 2)?;
    let (first, rest) = init(alloc, depth, rest)?;
    let (inits, rest) = more_inits(alloc, depth, first, rest)?;
    let (_, rest) = sign(rest, 3)?;
    let (_, rest) = sign(rest, 7)?;
    Ok((Stmt::New(start, x.1, s.1, inits), rest))
}

/// `"atomic_read" "(" NAME ")" ";"`
#[tactic(auto, unfolding(pl_grammar::specs::StatementReaders::atomic_read_behind))]
fn atomic_read_behind(
    alloc: Global,
    start: Pos,
    x: (Pos, Name),
    tokens: &[Token],
) -> Result<(Stmt, &[Token]), ReadError>
    ensures value { Gives (λ x. (plain_stmt x.0, x.1.now)) result (read.atomic_read_behind start x tokens.now) }
    ensures less { IfOk result (λ x. length x.1.now < length tokens.now) }
{
    let (_, rest) = sign(tokens, 87)?;
    let (_, rest) = sign(rest, 0)?;
    let (c, rest) = name(alloc, rest)?;
    let (_, rest) = sign(rest, 1)?;
    let (_, rest) = sign(rest, 7)?;
    Ok((Stmt::AtomicRead(start, x.1, c.1), rest))
}

/// `"cas" "(" NAME "," expr "," expr ")" ";"`
#[tactic(auto, unfolding(pl_grammar::specs::StatementReaders::cas_behind))]
fn cas_behind(
    alloc: Global,
    depth: u32,
    start: Pos,
    x: (Pos, Name),
    tokens: &[Token],
) -> Result<(Stmt, &[Token]), ReadError>
    ensures value { Gives (λ x. (plain_stmt x.0, x.1.now)) result (read.cas_behind depth start x tokens.now) }
    ensures less { IfOk result (λ x. length x.1.now < length tokens.now) }
{
    let (_, rest) = sign(tokens, 89)?;
    let (_, rest) = sign(rest, 0)?;
    let (c, rest) = name(alloc, rest)?;
    let (_, rest) = sign(rest, 6)?;
    let (old, rest) = value(alloc, depth, 0, rest)?;
    let (_, rest) = sign(rest, 6)?;
    let (new, rest) = value(alloc, depth, 0, rest)?;
    let (_, rest) = sign(rest, 1)?;
    let (_, rest) = sign(rest, 7)?;
    Ok((Stmt::Cas(start, x.1, c.1, old, new), rest))
}

/// `"new_lock" "(" inst ")" ";"`
#[tactic(auto, unfolding(pl_grammar::specs::StatementReaders::new_lock_behind))]
fn new_lock_behind(
    alloc: Global,
    depth: u32,
    start: Pos,
    x: (Pos, Name),
    tokens: &[Token],
) -> Result<(Stmt, &[Token]), ReadError>
    ensures value { Gives (λ x. (plain_stmt x.0, x.1.now)) result (read.new_lock_behind depth start x tokens.now) }
    ensures less { IfOk result (λ x. length x.1.now < length tokens.now) }
{
    let (_, rest) = sign(tokens, 81)?;
    let (_, rest) = sign(rest, 0)?;
    let (e, rest) = instance(alloc, depth, 0, rest)?;
    let (_, rest) = sign(rest, 1)?;
    let (_, rest) = sign(rest, 7)?;
    Ok((Stmt::NewLock(start, x.1, e), rest))
}

/// `"read" "(" ")" ";"`
#[tactic(auto, unfolding(pl_grammar::specs::StatementReaders::read_behind))]
fn read_behind(start: Pos, x: (Pos, Name), tokens: &[Token]) -> Result<(Stmt, &[Token]), ReadError>
    ensures value { Gives (λ x. (plain_stmt x.0, x.1.now)) result (read.read_behind start x tokens.now) }
    ensures less { IfOk result (λ x. length x.1.now < length tokens.now) }
{
    let (_, rest) = sign(tokens, 85)?;
    let (_, rest) = sign(rest, 0)?;
    let (_, rest) = sign(rest, 1)?;
    let (_, rest) = sign(rest, 7)?;
    Ok((Stmt::Read(start, x.1), rest))
}

/// `NAME "(" [ expr { "," expr } ] ")"`
#[tactic(auto, unfolding(pl_grammar::specs::StatementReaders::called))]
fn called(
    alloc: Global,
    depth: u32,
    start: Pos,
    x: (Pos, Name),
    tokens: &[Token],
) -> Result<(Stmt, &[Token]), ReadError>
    ensures value { Gives (λ x. (plain_stmt x.0, x.1.now)) result (read.called depth start x tokens.now) }
    ensures less { IfOk result (λ x. length x.1.now < length tokens.now) }
{
    let (f, rest) = name(alloc, tokens)?;
    let (_, rest) = sign(rest, 0)?;
    let (args, rest) = arguments(alloc, depth, 0, rest)?;
    Ok((Stmt::Call(start, Some(x.1), f.1, args), rest))
}

/// A call, or an expression.
fn call_or_value(
    alloc: Global,
    depth: u32,
    start: Pos,
    x: (Pos, Name),
    tokens: &[Token],
) -> Result<(Stmt, &[Token]), ReadError>
    ensures value { Gives (λ x. (plain_stmt x.0, x.1.now)) result (read.call_or_value depth start x tokens.now) }
    ensures less { IfOk result (λ x. length x.1.now < length tokens.now) }
{
    if begins_label(tokens, 0) {
        return called(alloc, depth, start, x, tokens);
    }
    let (e, rest) = value(alloc, depth, 0, tokens)?;
    Ok((Stmt::Let(start, x.1, e), rest))
}

/// A call or an expression, and then `";"`.
#[tactic(auto, unfolding(pl_grammar::specs::StatementReaders::call_or_let))]
fn call_or_let(
    alloc: Global,
    depth: u32,
    start: Pos,
    x: (Pos, Name),
    tokens: &[Token],
) -> Result<(Stmt, &[Token]), ReadError>
    ensures value { Gives (λ x. (plain_stmt x.0, x.1.now)) result (read.call_or_let depth start x tokens.now) }
    ensures less { IfOk result (λ x. length x.1.now < length tokens.now) }
{
    let (s, rest) = call_or_value(alloc, depth, start, x, tokens)?;
    let (_, rest) = sign(rest, 7)?;
    Ok((s, rest))
}

/// What stands behind `"let" NAME "="`.
#[tactic(auto, unfolding(pl_grammar::specs::StatementReaders::made))]
fn made(
    alloc: Global,
    depth: u32,
    start: Pos,
    x: (Pos, Name),
    tokens: &[Token],
) -> Result<(Stmt, &[Token]), ReadError>
    ensures value { Gives (λ x. (plain_stmt x.0, x.1.now)) result (read.made depth start x tokens.now) }
    ensures less { IfOk result (λ x. length x.1.now < length tokens.now) }
{
    if begins(tokens, &[29]) {
        load_behind(alloc, depth, start, x, false, tokens)
    } else if begins(tokens, &[75]) {
        alloc_behind(alloc, depth, start, x, tokens)
    } else if begins(tokens, &[76]) {
        alloc_array_behind(alloc, depth, start, x, tokens)
    } else if begins(tokens, &[77]) {
        alloc_atomic_behind(alloc, depth, start, x, tokens)
    } else if begins(tokens, &[78]) {
        new_behind(alloc, depth, start, x, tokens)
    } else if begins(tokens, &[87]) {
        atomic_read_behind(alloc, start, x, tokens)
    } else if begins(tokens, &[89]) {
        cas_behind(alloc, depth, start, x, tokens)
    } else if begins(tokens, &[81]) {
        new_lock_behind(alloc, depth, start, x, tokens)
    } else if begins(tokens, &[85]) {
        read_behind(start, x, tokens)
    } else {
        call_or_let(alloc, depth, start, x, tokens)
    }
}

/// `NAME "=" ..`
#[tactic(auto, unfolding(pl_grammar::specs::StatementReaders::let_name))]
fn let_name(
    alloc: Global,
    depth: u32,
    start: Pos,
    tokens: &[Token],
) -> Result<(Stmt, &[Token]), ReadError>
    ensures value { Gives (λ x. (plain_stmt x.0, x.1.now)) result (read.let_name depth start tokens.now) }
    ensures less { IfOk result (λ x. length x.1.now < length tokens.now) }
{
    let (x, rest) = name(alloc, tokens)?;
    let (_, rest) = sign(rest, 11)?;
    made(alloc, depth, start, x, rest)
}

/// `"let" ..`
#[tactic(auto, unfolding(pl_grammar::specs::StatementReaders::let_rule))]
pub fn let_rule(alloc: Global, depth: u32, tokens: &[Token]) -> Result<(Stmt, &[Token]), ReadError>
    ensures value { Gives (λ x. (plain_stmt x.0, x.1.now)) result (read.let_rule depth tokens.now) }
    ensures less { IfOk result (λ x. length x.1.now < length tokens.now) }
{
    let (start, rest) = sign(tokens, 39)?;
    if begins(rest, &[40]) {
        let_mut(alloc, depth, start, rest)
    } else if begins(rest, &[32]) {
        let_ghost(alloc, depth, start, rest)
    } else {
        let_name(alloc, depth, start, rest)
    }
}

/// `"let" NAME "=" "!" cell ";"`
#[tactic(auto, unfolding(pl_grammar::specs::StatementReaders::load_rule))]
pub fn load_rule(alloc: Global, depth: u32, tokens: &[Token]) -> Result<(Stmt, &[Token]), ReadError>
    ensures value { Gives (λ x. (plain_stmt x.0, x.1.now)) result (read.load_rule depth tokens.now) }
    ensures less { IfOk result (λ x. length x.1.now < length tokens.now) }
{
    let (start, rest) = sign(tokens, 39)?;
    let (x, rest) = name(alloc, rest)?;
    let (_, rest) = sign(rest, 11)?;
    load_behind(alloc, depth, start, x, false, rest)
}
