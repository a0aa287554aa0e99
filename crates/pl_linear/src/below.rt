// What becomes of a duty `t <= 0`.
ghost use Rattle.std.specs.Prelude.{◌≡◌, ◌≤◌, ◌<◌, ◌∷◌, [], map, length, IfOk};
ghost use Rattle.std.specs.List.{All};
ghost use Rattle.pl_forms.specs.Forms.{IsForm, Small};
ghost use Rattle.pl_forms.specs.Facts.{IsFact};
ghost use Rattle.pl_forms.specs.Equations.{AreSolutions, AreNamed};
ghost use Rattle.pl_linear.specs.declared.found.Decided.TheVariants.{Done};
ghost use Rattle.pl_linear.specs.Duty.{asked};
ghost use Rattle.pl_linear.specs.Bounds.{forms_of};
ghost use Rattle.pl_linear.specs.Nodes.{node_form, value_at, number_of};
ghost use Rattle.pl_linear.specs.Decisions.{Becomes, Decides, in_order, own_nodes, last_form, shown};
ghost use Rattle.pl_linear.specs.Witnesses.{IfDone, IsOfBelow};

use crate::bounds::{Bound, bounds};
use crate::ends::ends_of;
use crate::finding::settle;
use crate::found::{Decided, Found, NodeValue};
use crate::nodes::is_same;
use pl_base::{Items, Memory};
use pl_forms::{Eqs, Facts, Form, Group, Part, TermError};
use std::alloc::{AllocError, Global};

// A certificate of a duty `goal <= 0` as the one group, or the point at the nodes of the goal.
pub fn decide_below(
    alloc: Global,
    eqs: &Eqs,
    facts: &Facts,
    goal: &Form,
) -> Result<Decided, TermError>
    requires eqs { AreSolutions eqs.now.solved }
    requires named { AreNamed eqs.now.solved }
    requires facts { All IsFact facts.now.list }
    requires goal { IsForm goal.now }
    requires few { length facts.now.list ≤ 1024 }
    ensures exact { Decides result (Becomes (asked eqs.now.solved facts.now.list goal.now)) }
    ensures witness { IfOk result (λ d. IfDone d (IsOfBelow eqs.now.solved facts.now.list goal.now)) }
{
    let list = bounds(alloc, eqs.solved.as_slice(), facts.list.as_slice(), goal)?;
    match settle(alloc, &list)? {
        Found::Cert(cert) => Ok(alone(alloc, Group::Cert(cert))?),
        Found::Point(point) => Ok(Decided::Undone(goal_point(alloc, &list, point.as_slice())?)),
    }
}

// Done, by one group.
pub fn alone(alloc: Global, group: Group) -> Result<Decided, AllocError>
    ensures { IfOk result (λ d. d ≡ Done (group ∷ [])) }
{
    let groups = vec![in alloc; group]?;
    Ok(Decided::Done(Items::of(groups)))
}

// What a point gives the nodes of the last inequality.
fn goal_point(
    alloc: Global,
    bounds: &[Bound],
    point: &[NodeValue],
) -> Result<Items<NodeValue>, Memory>
    requires { All (λ b. IsForm b.form) bounds.now }
    ensures { IfOk result (λ p. p ≡ shown point.now (own_nodes (last_form (forms_of bounds.now)))) }
{
    match bounds.last() {
        None => Ok(Items::of(Vec::new(alloc))),
        Some(bound) => {
            let nodes = own_nodes(alloc, &bound.form)?;
            Ok(Items::of(shown(alloc, point, &nodes)?))
        }
    }
}

// The nodes of an inequality: none, one, or the two of a difference, the lower atom first.
fn own_nodes(alloc: Global, form: &Form) -> Result<Vec<Items<Part>>, Memory>
    requires { IsForm form.now }
    ensures { IfOk result (λ v. v.items ≡ own_nodes form.now) }
{
    let ends = ends_of(alloc, form.parts.as_slice())?;
    in_order(alloc, ends.to, ends.from)
}

fn in_order(alloc: Global, to: Items<Part>, from: Items<Part>) -> Result<Vec<Items<Part>>, Memory>
    ensures { IfOk result (λ v. v.items ≡ in_order to from) }
{
    let mut nodes = Vec::new(alloc);
    match (to.as_slice().first(), from.as_slice().first()) {
        (None, None) => {}
        (Some(_), None) => nodes.push(to)?,
        (None, Some(_)) => nodes.push(from)?,
        (Some(one), Some(other)) => {
            if one.atom < other.atom {
                nodes.push(to)?;
                nodes.push(from)?;
            } else {
                nodes.push(from)?;
                nodes.push(to)?;
            }
        }
    }
    Ok(nodes)
}

fn shown(
    alloc: Global,
    point: &[NodeValue],
    nodes: &[Items<Part>],
) -> Result<Vec<NodeValue>, Memory>
    ensures { IfOk result (λ v. v.items ≡ shown point.now nodes.now) }
{
    let mut out = Vec::new(alloc);
    for node in nodes {
        let entry = shown_node(alloc, point, node)?;
        out.push(entry)?;
    }
    Ok(out)
}

fn shown_node(
    alloc: Global,
    point: &[NodeValue],
    node: &Items<Part>,
) -> Result<NodeValue, AllocError>
    ensures { IfOk result (λ v. v ≡ record { node = node_form node.now; value = value_at point.now node.now }) }
{
    let mut parts = Vec::new(alloc);
    parts.extend_from_slice(node.as_slice())?;
    Ok(NodeValue {
        node: Form {
            parts: Items::of(parts),
            constant: 0,
        },
        value: value_at(point, node.as_slice()),
    })
}

// What a point gives a node; where it doesn't have it, what it gives the first.
fn value_at(point: &[NodeValue], node: &[Part]) -> i128
    ensures { result ≡ value_at point.now node.now }
{
    for i in 0..point.len() {
        if is_same(point[i].node.parts.as_slice(), node) {
            return point[i].value;
        }
    }
    match point.first() {
        None => 0,
        Some(entry) => entry.value,
    }
}
