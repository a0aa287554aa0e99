//! Atoms. `depth` levels may be open in the innermost bracket or clause, and `used` of them are.

ghost use Rattle.std.specs.Prelude.{◌≡◌, ◌<◌, ◌≤◌, ◌+◌, ◌-◌, [], ◌∷◌, map, length, IfOk, Ok, Some};
ghost use Rattle.std.specs.Option.{option_map};
ghost use Rattle.pl_readers.specs.Given.{Gives, Fails};
ghost use Rattle.pl_readers.specs.Reader.{onto, one, repeat};
ghost use Rattle.pl_syntax.specs.Plain.{plain_expr, plain_cell, plain_instance, plain_prop, plain_body, plain_init, plain_key, plain_stmt, plain_block, plain_decl, otherwise};
ghost use Rattle.pl_grammar.specs.Parts.{plain_prop_part};
ghost use Rattle.pl_grammar.specs.PropReaders as read;
ghost use Rattle.pl_grammar.specs.PropGrammar as spec;
ghost use Rattle.pl_grammar.specs.PropReaders.{test};

use crate::exprs::sum;
use crate::part::PropPart;
use crate::perms::{permission, whole_at};
use crate::terms::{arguments, binders, cell_behind, instance, instance_behind, value};
use crate::tokens::{begins, begins_label, begins_name, name, sign};
use pl_base::{Name, Pos};
use pl_lexer::Token;
use pl_readers::{ReadError, too_deep};
use pl_syntax::{Class, Expr, PermExpr, Prop};
use std::alloc::Global;

/// `NAME ":" expr`
#[tactic(auto, unfolding(crate::specs::PropReaders::with_label))]
fn with_label(
    alloc: Global,
    depth: u32,
    used: u32,
    tokens: &[Token],
) -> Result<((Option<Name>, Expr), &[Token]), ReadError>
    requires { used ≤ depth }
    ensures value { Gives (λ x. ((x.0.0, plain_expr x.0.1), x.1.now)) result (read.with_label depth used tokens.now) }
    ensures less { IfOk result (λ x. length x.1.now < length tokens.now) }
{
    let (h, rest) = name(alloc, tokens)?;
    let (_, rest) = sign(rest, 8)?;
    let (e, rest) = value(alloc, depth, used, rest)?;
    Ok(((Some(h.1), e), rest))
}

/// `[ NAME ":" ] expr`
#[tactic(auto, unfolding(crate::specs::PropReaders::labelled))]
pub fn labelled(
    alloc: Global,
    depth: u32,
    used: u32,
    tokens: &[Token],
) -> Result<((Option<Name>, Expr), &[Token]), ReadError>
    requires { used ≤ depth }
    ensures value { Gives (λ x. ((x.0.0, plain_expr x.0.1), x.1.now)) result (read.labelled depth used tokens.now) }
    ensures less { IfOk result (λ x. length x.1.now < length tokens.now) }
{
    if begins_label(tokens, 8) {
        return with_label(alloc, depth, used, tokens);
    }
    let (e, rest) = value(alloc, depth, used, tokens)?;
    Ok(((None, e), rest))
}

/// `[ "{" perm "}" ], in an atom at a place; a missing permission is 1`
#[tactic(auto, unfolding(crate::specs::PropReaders::permission_or_whole))]
fn permission_or_whole(
    alloc: Global,
    p: Pos,
    tokens: &[Token],
) -> Result<(PermExpr, &[Token]), ReadError>
    ensures value { Gives (λ x. (x.0, x.1.now)) result (read.permission_or_whole p tokens.now) }
    ensures less { IfOk result (λ x. length x.1.now ≤ length tokens.now) }
{
    if !begins(tokens, &[2]) {
        return Ok((whole_at(p), tokens));
    }
    let (_, rest) = sign(tokens, 2)?;
    let (q, rest) = permission(alloc, rest)?;
    let (_, rest) = sign(rest, 3)?;
    Ok((q, rest))
}

/// `cell "|->" [ "{" perm "}" ] sum, behind the name of the cell`
#[tactic(auto, unfolding(crate::specs::PropReaders::points_behind))]
fn points_behind(
    alloc: Global,
    depth: u32,
    used: u32,
    x: (Pos, Name),
    tokens: &[Token],
) -> Result<(PropPart, &[Token]), ReadError>
    requires { used ≤ depth }
    ensures value { Gives (λ x. (plain_prop_part x.0, x.1.now)) result (read.points_behind depth used x tokens.now) }
    ensures less { IfOk result (λ x. length x.1.now < length tokens.now) }
    ensures keeps { IfOk result (λ x. x.0.used ≤ depth) }
{
    let at = x.0;
    let (c, rest) = cell_behind(alloc, depth, used, x, tokens)?;
    let (_, rest) = sign(rest, 13)?;
    let (q, rest) = permission_or_whole(alloc, at, rest)?;
    let (e, rest) = sum(alloc, depth, used, rest)?;
    let tree = Prop::Points(at, c, q, e.tree);
    Ok((PropPart { tree, used: e.used }, rest))
}

/// `inst | cell "|->" [ "{" perm "}" ] sum`
#[tactic(auto, unfolding(crate::specs::PropReaders::named_atom))]
fn named_atom(
    alloc: Global,
    depth: u32,
    used: u32,
    tokens: &[Token],
) -> Result<(PropPart, &[Token]), ReadError>
    requires { used ≤ depth }
    ensures value { Gives (λ x. (plain_prop_part x.0, x.1.now)) result (read.named_atom depth used tokens.now) }
    ensures less { IfOk result (λ x. length x.1.now < length tokens.now) }
    ensures keeps { IfOk result (λ x. x.0.used ≤ depth) }
{
    let (x, rest) = name(alloc, tokens)?;
    if begins(rest, &[0]) {
        let (i, rest) = instance_behind(alloc, depth, used, x, rest)?;
        Ok((
            PropPart {
                tree: Prop::App(i),
                used,
            },
            rest,
        ))
    } else {
        points_behind(alloc, depth, used, x, rest)
    }
}

/// `"emp"`
#[tactic(auto, unfolding(crate::specs::PropReaders::emp_atom))]
fn emp_atom(
    alloc: Global,
    depth: u32,
    used: u32,
    tokens: &[Token],
) -> Result<(PropPart, &[Token]), ReadError>
    requires { used ≤ depth }
    ensures value { Gives (λ x. (plain_prop_part x.0, x.1.now)) result (read.emp_atom depth used tokens.now) }
    ensures less { IfOk result (λ x. length x.1.now < length tokens.now) }
    ensures keeps { IfOk result (λ x. x.0.used ≤ depth) }
{
    let (p, rest) = sign(tokens, 55)?;
    Ok((
        PropPart {
            tree: Prop::Emp(p),
            used,
        },
        rest,
    ))
}

/// `"pure" "(" [ NAME ":" ] expr ")"`
#[tactic(auto, unfolding(crate::specs::PropReaders::pure_atom))]
fn pure_atom(
    alloc: Global,
    depth: u32,
    used: u32,
    tokens: &[Token],
) -> Result<(PropPart, &[Token]), ReadError>
    requires { used ≤ depth }
    ensures value { Gives (λ x. (plain_prop_part x.0, x.1.now)) result (read.pure_atom depth used tokens.now) }
    ensures less { IfOk result (λ x. length x.1.now < length tokens.now) }
    ensures keeps { IfOk result (λ x. x.0.used ≤ depth) }
{
    let (p, rest) = sign(tokens, 56)?;
    let (_, rest) = sign(rest, 0)?;
    let (e, rest) = labelled(alloc, depth, used, rest)?;
    let (_, rest) = sign(rest, 1)?;
    Ok((
        PropPart {
            tree: Prop::Pure(p, e.0, e.1),
            used,
        },
        rest,
    ))
}

/// `"block" "(" expr "," expr ")"`
#[tactic(auto, unfolding(crate::specs::PropReaders::block_atom))]
fn block_atom(
    alloc: Global,
    depth: u32,
    used: u32,
    tokens: &[Token],
) -> Result<(PropPart, &[Token]), ReadError>
    requires { used ≤ depth }
    ensures value { Gives (λ x. (plain_prop_part x.0, x.1.now)) result (read.block_atom depth used tokens.now) }
    ensures less { IfOk result (λ x. length x.1.now < length tokens.now) }
    ensures keeps { IfOk result (λ x. x.0.used ≤ depth) }
{
    let (p, rest) = sign(tokens, 59)?;
    let (_, rest) = sign(rest, 0)?;
    let (a, rest) = value(alloc, depth, used, rest)?;
    let (_, rest) = sign(rest, 6)?;
    let (n, rest) = value(alloc, depth, used, rest)?;
    let (_, rest) = sign(rest, 1)?;
    Ok((
        PropPart {
            tree: Prop::Block(p, a, n),
            used,
        },
        rest,
    ))
}

/// `[ "," perm ]`
#[tactic(auto, unfolding(crate::specs::PropReaders::last_permission))]
fn last_permission(
    alloc: Global,
    p: Pos,
    tokens: &[Token],
) -> Result<(PermExpr, &[Token]), ReadError>
    ensures value { Gives (λ x. (x.0, x.1.now)) result (read.last_permission p tokens.now) }
    ensures less { IfOk result (λ x. length x.1.now ≤ length tokens.now) }
{
    if !begins(tokens, &[6]) {
        return Ok((whole_at(p), tokens));
    }
    let (_, rest) = sign(tokens, 6)?;
    permission(alloc, rest)
}

/// `"slice" "(" expr "," expr "," expr [ "," perm ] ")"`
#[tactic(auto, unfolding(crate::specs::PropReaders::slice_atom))]
fn slice_atom(
    alloc: Global,
    depth: u32,
    used: u32,
    tokens: &[Token],
) -> Result<(PropPart, &[Token]), ReadError>
    requires { used ≤ depth }
    ensures value { Gives (λ x. (plain_prop_part x.0, x.1.now)) result (read.slice_atom depth used tokens.now) }
    ensures less { IfOk result (λ x. length x.1.now < length tokens.now) }
    ensures keeps { IfOk result (λ x. x.0.used ≤ depth) }
{
    let (p, rest) = sign(tokens, 58)?;
    let (_, rest) = sign(rest, 0)?;
    let (a, rest) = value(alloc, depth, used, rest)?;
    let (_, rest) = sign(rest, 6)?;
    let (lo, rest) = value(alloc, depth, used, rest)?;
    let (_, rest) = sign(rest, 6)?;
    let (hi, rest) = value(alloc, depth, used, rest)?;
    let (q, rest) = last_permission(alloc, p, rest)?;
    let (_, rest) = sign(rest, 1)?;
    Ok((
        PropPart {
            tree: Prop::Slice(p, a, lo, hi, q),
            used,
        },
        rest,
    ))
}

/// `"lock_alive" "(" expr "," perm "," inst ")"`
#[tactic(auto, unfolding(crate::specs::PropReaders::alive_atom))]
fn alive_atom(
    alloc: Global,
    depth: u32,
    used: u32,
    tokens: &[Token],
) -> Result<(PropPart, &[Token]), ReadError>
    requires { used ≤ depth }
    ensures value { Gives (λ x. (plain_prop_part x.0, x.1.now)) result (read.alive_atom depth used tokens.now) }
    ensures less { IfOk result (λ x. length x.1.now < length tokens.now) }
    ensures keeps { IfOk result (λ x. x.0.used ≤ depth) }
{
    let (p, rest) = sign(tokens, 60)?;
    let (_, rest) = sign(rest, 0)?;
    let (l, rest) = value(alloc, depth, used, rest)?;
    let (_, rest) = sign(rest, 6)?;
    let (q, rest) = permission(alloc, rest)?;
    let (_, rest) = sign(rest, 6)?;
    let (i, rest) = instance(alloc, depth, used, rest)?;
    let (_, rest) = sign(rest, 1)?;
    Ok((
        PropPart {
            tree: Prop::Alive(p, l, q, i),
            used,
        },
        rest,
    ))
}

/// `"lock_held" "(" expr ")"`
#[tactic(auto, unfolding(crate::specs::PropReaders::held_atom))]
fn held_atom(
    alloc: Global,
    depth: u32,
    used: u32,
    tokens: &[Token],
) -> Result<(PropPart, &[Token]), ReadError>
    requires { used ≤ depth }
    ensures value { Gives (λ x. (plain_prop_part x.0, x.1.now)) result (read.held_atom depth used tokens.now) }
    ensures less { IfOk result (λ x. length x.1.now < length tokens.now) }
    ensures keeps { IfOk result (λ x. x.0.used ≤ depth) }
{
    let (p, rest) = sign(tokens, 61)?;
    let (_, rest) = sign(rest, 0)?;
    let (l, rest) = value(alloc, depth, used, rest)?;
    let (_, rest) = sign(rest, 1)?;
    Ok((
        PropPart {
            tree: Prop::Held(p, l),
            used,
        },
        rest,
    ))
}

/// `"inv" "(" expr "," inst ")"`
#[tactic(auto, unfolding(crate::specs::PropReaders::inv_atom))]
fn inv_atom(
    alloc: Global,
    depth: u32,
    used: u32,
    tokens: &[Token],
) -> Result<(PropPart, &[Token]), ReadError>
    requires { used ≤ depth }
    ensures value { Gives (λ x. (plain_prop_part x.0, x.1.now)) result (read.inv_atom depth used tokens.now) }
    ensures less { IfOk result (λ x. length x.1.now < length tokens.now) }
    ensures keeps { IfOk result (λ x. x.0.used ≤ depth) }
{
    let (p, rest) = sign(tokens, 62)?;
    let (_, rest) = sign(rest, 0)?;
    let (e, rest) = value(alloc, depth, used, rest)?;
    let (_, rest) = sign(rest, 6)?;
    let (i, rest) = instance(alloc, depth, used, rest)?;
    let (_, rest) = sign(rest, 1)?;
    Ok((
        PropPart {
            tree: Prop::Inv(p, e, i),
            used,
        },
        rest,
    ))
}

/// An atom but a proposition in brackets.
#[tactic(auto, unfolding(crate::specs::PropReaders::atom))]
pub fn atom(
    alloc: Global,
    depth: u32,
    used: u32,
    tokens: &[Token],
) -> Result<(PropPart, &[Token]), ReadError>
    requires { used ≤ depth }
    ensures value { Gives (λ x. (plain_prop_part x.0, x.1.now)) result (read.atom depth used tokens.now) }
    ensures less { IfOk result (λ x. length x.1.now < length tokens.now) }
    ensures keeps { IfOk result (λ x. x.0.used ≤ depth) }
{
    if begins(tokens, &[55]) {
        emp_atom(alloc, depth, used, tokens)
    } else if begins(tokens, &[56]) {
        pure_atom(alloc, depth, used, tokens)
    } else if begins(tokens, &[59]) {
        block_atom(alloc, depth, used, tokens)
    } else if begins(tokens, &[58]) {
        slice_atom(alloc, depth, used, tokens)
    } else if begins(tokens, &[60]) {
        alive_atom(alloc, depth, used, tokens)
    } else if begins(tokens, &[61]) {
        held_atom(alloc, depth, used, tokens)
    } else if begins(tokens, &[62]) {
        inv_atom(alloc, depth, used, tokens)
    } else {
        named_atom(alloc, depth, used, tokens)
    }
}
