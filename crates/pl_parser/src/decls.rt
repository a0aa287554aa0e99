//! Declarations.

ghost use Rattle.std.specs.Prelude.{◌≡◌, ◌<◌, ◌≤◌, [], ◌∷◌, length, IfOk, Ok};
ghost use Rattle.std.specs.Option.{option_map};
ghost use Rattle.pl_readers.specs.Given.{Gives};
ghost use Rattle.pl_readers.specs.Reader.{onto};
ghost use Rattle.pl_syntax.specs.Plain.{plain_expr, plain_prop, plain_body, plain_decl};
ghost use Rattle.pl_grammar.specs.FileGrammar as spec;
ghost use Rattle.pl_grammar.specs.FileReaders as read;
ghost use Rattle.pl_grammar.specs.StatementReaders as blocks;

use pl_base::{Items, Pos};
use pl_grammar::{begins, binder, binders, name, no_brace, prop, sign, value, whole_prop};
use pl_lexer::Token;
use pl_readers::ReadError;
use pl_statements::block;
use pl_syntax::{Binder, Body, Class, Decl, Expr, FunDecl, PredDecl, Prop, StructDecl};
use std::alloc::Global;

/// `"struct" NAME "{" bind { "," bind } "}"`
#[tactic(auto, unfolding(pl_grammar::specs::FileReaders::struct_rule))]
fn struct_rule(alloc: Global, tokens: &[Token]) -> Result<(Decl, &[Token]), ReadError>
    ensures value { Gives (λ x. (plain_decl x.0, x.1.now)) result (read.struct_rule tokens.now) }
    ensures less { IfOk result (λ x. length x.1.now < length tokens.now) }
{
    let (_, rest) = sign(tokens, 30)?;
    let (x, rest) = name(alloc, rest)?;
    let (_, rest) = sign(rest, 2)?;
    let (fields, rest) = binders(alloc, Class::Real, rest)?;
    let (_, rest) = sign(rest, 3)?;
    Ok((
        Decl::Struct(StructDecl {
            pos: x.0,
            name: x.1,
            fields,
        }),
        rest,
    ))
}

/// `[ bind { "," bind } ] ")"`
#[tactic(auto, unfolding(pl_grammar::specs::FileReaders::pred_parameters))]
fn pred_parameters(alloc: Global, tokens: &[Token]) -> Result<(Items<Binder>, &[Token]), ReadError>
    ensures value { Gives (λ x. (x.0, x.1.now)) result (read.pred_parameters tokens.now) }
    ensures less { IfOk result (λ x. length x.1.now < length tokens.now) }
{
    if begins(tokens, &[1]) {
        let (_, rest) = sign(tokens, 1)?;
        return Ok((Items::of(Vec::new(alloc)), rest));
    }
    let (bs, rest) = binders(alloc, Class::Logical, tokens)?;
    let (_, rest) = sign(rest, 1)?;
    Ok((bs, rest))
}

/// `"{" prop "}"`, for which a level has to be left.
fn arm(alloc: Global, depth: u32, tokens: &[Token]) -> Result<(Prop, &[Token]), ReadError>
    ensures value { Gives (λ x. (plain_prop x.0, x.1.now)) result (read.arm depth tokens.now) }
    ensures less { IfOk result (λ x. length x.1.now < length tokens.now) }
{
    if depth == 0 {
        return Err(no_brace(tokens));
    }
    arm_of(alloc, depth - 1, tokens)
}

/// `"{" prop "}"`, with so many levels behind the brace.
#[tactic(auto, unfolding(pl_grammar::specs::FileReaders::arm_of))]
fn arm_of(alloc: Global, depth: u32, tokens: &[Token]) -> Result<(Prop, &[Token]), ReadError>
    ensures value { Gives (λ x. (plain_prop x.0, x.1.now)) result (read.arm_of depth tokens.now) }
    ensures less { IfOk result (λ x. length x.1.now < length tokens.now) }
{
    let (_, rest) = sign(tokens, 2)?;
    let (p, rest) = prop(alloc, depth, 0, rest)?;
    let (_, rest) = sign(rest, 3)?;
    Ok((p.tree, rest))
}

/// `"if" "(" expr ")" "{" prop "}" "else" "{" prop "}" | prop`
#[tactic(auto, unfolding(pl_grammar::specs::FileReaders::body))]
fn body(alloc: Global, depth: u32, tokens: &[Token]) -> Result<(Body, &[Token]), ReadError>
    ensures value { Gives (λ x. (plain_body x.0, x.1.now)) result (read.body depth (read.arm depth) tokens.now) }
    ensures less { IfOk result (λ x. length x.1.now < length tokens.now) }
{
    if begins(tokens, &[41]) {
        let (_, rest) = sign(tokens, 41)?;
        let (_, rest) = sign(rest, 0)?;
        let (e, rest) = value(alloc, depth, 0, rest)?;
        let (_, rest) = sign(rest, 1)?;
        let (p, rest) = arm(alloc, depth, rest)?;
        let (_, rest) = sign(rest, 42)?;
        let (q, rest) = arm(alloc, depth, rest)?;
        Ok((Body::Cond(e, p, q), rest))
    } else {
        let (p, rest) = whole_prop(alloc, depth, 0, tokens)?;
        Ok((Body::Plain(p), rest))
    }
}

/// `"pred" NAME "(" [ bind { "," bind } ] ")" "=" body ";"`
#[tactic(auto, unfolding(pl_grammar::specs::FileReaders::pred_rule))]
fn pred_rule(alloc: Global, depth: u32, tokens: &[Token]) -> Result<(Decl, &[Token]), ReadError>
    ensures value { Gives (λ x. (plain_decl x.0, x.1.now)) result (read.pred_rule depth (read.arm depth) tokens.now) }
    ensures less { IfOk result (λ x. length x.1.now < length tokens.now) }
{
    let (_, rest) = sign(tokens, 31)?;
    let (x, rest) = name(alloc, rest)?;
    let (_, rest) = sign(rest, 0)?;
    let (params, rest) = pred_parameters(alloc, rest)?;
    let (_, rest) = sign(rest, 11)?;
    let (body, rest) = body(alloc, depth, rest)?;
    let (_, rest) = sign(rest, 7)?;
    Ok((
        Decl::Pred(PredDecl {
            pos: x.0,
            name: x.1,
            params,
            body,
        }),
        rest,
    ))
}

/// The class of an unmarked parameter.
fn class_of(is_ghost: bool) -> Class
    ensures { result ≡ spec.class_of is_ghost }
{
    if is_ghost { Class::Ghost } else { Class::Real }
}

/// `[ "ghost" | "#" ] bind`
#[tactic(auto, unfolding(pl_grammar::specs::FileReaders::parameter))]
fn parameter(
    alloc: Global,
    is_ghost: bool,
    tokens: &[Token],
) -> Result<(Binder, &[Token]), ReadError>
    ensures value { Gives (λ x. (x.0, x.1.now)) result (read.parameter is_ghost tokens.now) }
    ensures less { IfOk result (λ x. length x.1.now < length tokens.now) }
{
    if begins(tokens, &[32]) {
        let (_, rest) = sign(tokens, 32)?;
        binder(alloc, Class::Ghost, rest)
    } else if begins(tokens, &[10]) {
        let (_, rest) = sign(tokens, 10)?;
        binder(alloc, Class::Logical, rest)
    } else {
        binder(alloc, class_of(is_ghost), tokens)
    }
}

/// `"," param`
#[tactic(auto, unfolding(pl_grammar::specs::FileReaders::next_parameter))]
fn next_parameter(
    alloc: Global,
    is_ghost: bool,
    tokens: &[Token],
) -> Result<(Binder, &[Token]), ReadError>
    ensures value { Gives (λ x. (x.0, x.1.now)) result (read.next_parameter is_ghost tokens.now) }
    ensures less { IfOk result (λ x. length x.1.now < length tokens.now) }
{
    let (_, rest) = sign(tokens, 6)?;
    parameter(alloc, is_ghost, rest)
}

/// `{ "," param }`, behind the first.
fn more_parameters(
    alloc: Global,
    is_ghost: bool,
    first: Binder,
    tokens: &[Token],
) -> Result<(Items<Binder>, &[Token]), ReadError>
    ensures value { Gives (λ x. (x.0, x.1.now)) result (onto (first ∷ []) (read.more_parameters is_ghost) tokens.now) }
    ensures less { IfOk result (λ x. length x.1.now ≤ length tokens.now) }
{
    let mut all = Vec::new(alloc);
    all.push(first)?;
    let mut rest = tokens;
    'turns: while begins(rest, &[6]) {
        let (item, after) = next_parameter(alloc, is_ghost, rest)?;
        all.push(item)?;
        rest = after;
    }
    Ok((Items::of(all), rest))
}

/// `[ param { "," param } ] ")"`
#[tactic(auto, unfolding(pl_grammar::specs::FileReaders::parameters))]
fn parameters(
    alloc: Global,
    is_ghost: bool,
    tokens: &[Token],
) -> Result<(Items<Binder>, &[Token]), ReadError>
    ensures value { Gives (λ x. (x.0, x.1.now)) result (read.parameters is_ghost tokens.now) }
    ensures less { IfOk result (λ x. length x.1.now < length tokens.now) }
{
    if begins(tokens, &[1]) {
        let (_, rest) = sign(tokens, 1)?;
        return Ok((Items::of(Vec::new(alloc)), rest));
    }
    let (first, rest) = parameter(alloc, is_ghost, tokens)?;
    let (params, rest) = more_parameters(alloc, is_ghost, first, rest)?;
    let (_, rest) = sign(rest, 1)?;
    Ok((params, rest))
}

/// `[ "opens" ]`
#[tactic(auto, unfolding(pl_grammar::specs::FileReaders::opens))]
fn opens(tokens: &[Token]) -> Result<(bool, &[Token]), ReadError>
    ensures value { Gives (λ x. (x.0, x.1.now)) result (read.opens tokens.now) }
    ensures less { IfOk result (λ x. length x.1.now ≤ length tokens.now) }
{
    if !begins(tokens, &[34]) {
        return Ok((false, tokens));
    }
    let (_, rest) = sign(tokens, 34)?;
    Ok((true, rest))
}

/// `[ "requires" prop ]`, of a function whose name stands at `p`.
#[tactic(auto, unfolding(pl_grammar::specs::FileReaders::requires_clause))]
fn requires_clause(
    alloc: Global,
    depth: u32,
    p: Pos,
    tokens: &[Token],
) -> Result<(Prop, &[Token]), ReadError>
    ensures value { Gives (λ x. (plain_prop x.0, x.1.now)) result (read.requires_clause depth p tokens.now) }
    ensures less { IfOk result (λ x. length x.1.now ≤ length tokens.now) }
{
    if !begins(tokens, &[35]) {
        return Ok((Prop::Emp(p), tokens));
    }
    let (_, rest) = sign(tokens, 35)?;
    whole_prop(alloc, depth, 0, rest)
}

/// `[ "ensures" prop ]`, of a function whose name stands at `p`.
#[tactic(auto, unfolding(pl_grammar::specs::FileReaders::ensures_clause))]
fn ensures_clause(
    alloc: Global,
    depth: u32,
    p: Pos,
    tokens: &[Token],
) -> Result<(Prop, &[Token]), ReadError>
    ensures value { Gives (λ x. (plain_prop x.0, x.1.now)) result (read.ensures_clause depth p tokens.now) }
    ensures less { IfOk result (λ x. length x.1.now ≤ length tokens.now) }
{
    if !begins(tokens, &[37]) {
        return Ok((Prop::Emp(p), tokens));
    }
    let (_, rest) = sign(tokens, 37)?;
    whole_prop(alloc, depth, 0, rest)
}

/// `[ "returns" bind ]`
#[tactic(auto, unfolding(pl_grammar::specs::FileReaders::returns_clause))]
fn returns_clause(alloc: Global, tokens: &[Token]) -> Result<(Option<Binder>, &[Token]), ReadError>
    ensures value { Gives (λ x. (x.0, x.1.now)) result (read.returns_clause tokens.now) }
    ensures less { IfOk result (λ x. length x.1.now ≤ length tokens.now) }
{
    if !begins(tokens, &[36]) {
        return Ok((None, tokens));
    }
    let (_, rest) = sign(tokens, 36)?;
    let (b, rest) = binder(alloc, Class::Real, rest)?;
    Ok((Some(b), rest))
}

/// `[ "decreases" expr ]`
#[tactic(auto, unfolding(pl_grammar::specs::FileReaders::decreases_clause))]
fn decreases_clause(
    alloc: Global,
    depth: u32,
    tokens: &[Token],
) -> Result<(Option<Expr>, &[Token]), ReadError>
    ensures value { Gives (λ x. (option_map plain_expr x.0, x.1.now)) result (read.decreases_clause depth tokens.now) }
    ensures less { IfOk result (λ x. length x.1.now ≤ length tokens.now) }
{
    if !begins(tokens, &[38]) {
        return Ok((None, tokens));
    }
    let (_, rest) = sign(tokens, 38)?;
    let (e, rest) = value(alloc, depth, 0, rest)?;
    Ok((Some(e), rest))
}

/// What stands behind `"fn"`.
#[tactic(auto, unfolding(pl_grammar::specs::FileReaders::function_behind))]
fn function_behind(
    alloc: Global,
    depth: u32,
    is_ghost: bool,
    tokens: &[Token],
) -> Result<(Decl, &[Token]), ReadError>
    ensures value { Gives (λ x. (plain_decl x.0, x.1.now)) result (read.function_behind depth (blocks.block depth) is_ghost tokens.now) }
    ensures less { IfOk result (λ x. length x.1.now < length tokens.now) }
{
    let (x, rest) = name(alloc, tokens)?;
    let (_, rest) = sign(rest, 0)?;
    let (params, rest) = parameters(alloc, is_ghost, rest)?;
    let (opens, rest) = opens(rest)?;
    let (before, rest) = requires_clause(alloc, depth, x.0, rest)?;
    let (result, rest) = returns_clause(alloc, rest)?;
    let (after, rest) = ensures_clause(alloc, depth, x.0, rest)?;
    let (measure, rest) = decreases_clause(alloc, depth, rest)?;
    let (body, rest) = block(alloc, depth, rest)?;
    let fun = FunDecl {
        pos: x.0,
        is_ghost,
        name: x.1,
        params,
        opens,
        before,
        result,
        after,
        measure,
        body,
    };
    Ok((Decl::Fun(fun), rest))
}

/// `[ "ghost" ] "fn" ..`
#[tactic(auto, unfolding(pl_grammar::specs::FileReaders::function_rule))]
fn function_rule(alloc: Global, depth: u32, tokens: &[Token]) -> Result<(Decl, &[Token]), ReadError>
    ensures value { Gives (λ x. (plain_decl x.0, x.1.now)) result (read.function_rule depth (blocks.block depth) tokens.now) }
    ensures less { IfOk result (λ x. length x.1.now < length tokens.now) }
{
    if begins(tokens, &[32]) {
        let (_, rest) = sign(tokens, 32)?;
        let (_, rest) = sign(rest, 33)?;
        function_behind(alloc, depth, true, rest)
    } else {
        let (_, rest) = sign(tokens, 33)?;
        function_behind(alloc, depth, false, rest)
    }
}

/// `struct | pred | func`
#[tactic(auto, unfolding(pl_grammar::specs::FileReaders::declaration))]
pub fn declaration(
    alloc: Global,
    depth: u32,
    tokens: &[Token],
) -> Result<(Decl, &[Token]), ReadError>
    ensures value { Gives (λ x. (plain_decl x.0, x.1.now)) result (read.declaration depth tokens.now) }
    ensures less { IfOk result (λ x. length x.1.now < length tokens.now) }
{
    if begins(tokens, &[30]) {
        struct_rule(alloc, tokens)
    } else if begins(tokens, &[31]) {
        pred_rule(alloc, depth, tokens)
    } else {
        function_rule(alloc, depth, tokens)
    }
}
