// The nodes of inequalities, each once, and the edges between them.
ghost use Rattle.std.specs.Prelude.{◌≡◌, ◌≤◌, ◌<◌, ◌^◌, [], ◌∷◌, map, length, unsigned_abs, Option, IfOk};
ghost use Rattle.std.specs.List.{All};
ghost use Rattle.pl_forms.specs.Forms.{IsForm};
ghost use Rattle.pl_linear.specs.Nodes.{same_part, same_parts, place_of, number_of, with_node, with_ends, nodes_of, edge_of};
ghost use Rattle.pl_linear.specs.Bounds.{forms_of};

use crate::bounds::Bound;
use crate::ends::ends_of;
use pl_base::{Items, Memory};
use pl_diffs::Edge;
use pl_forms::{Form, Part};
use std::alloc::{AllocError, Global};

// Zero, and the nodes of the inequalities.
pub fn all_nodes(alloc: Global, bounds: &[Bound]) -> Result<Vec<Items<Part>>, Memory>
    requires { All (λ b. IsForm b.form) bounds.now }
    ensures { IfOk result (λ v. v.items ≡ nodes_of (forms_of bounds.now)) }
{
    let mut nodes = vec![in alloc; Items::of(Vec::new(alloc))]?;
    for bound in bounds {
        add_ends(alloc, &mut nodes, &bound.form)?;
    }
    Ok(nodes)
}

fn add_ends(alloc: Global, nodes: &mut Vec<Items<Part>>, form: &Form) -> Result<(), Memory>
    requires { IsForm form.now }
    ensures { IfOk result (λ _. nodes.new.items ≡ with_ends nodes.old.items form.now) }
{
    let ends = ends_of(alloc, form.parts.as_slice())?;
    add_node(nodes, ends.to)?;
    add_node(nodes, ends.from)?;
    Ok(())
}

fn add_node(nodes: &mut Vec<Items<Part>>, node: Items<Part>) -> Result<(), AllocError>
    ensures { IfOk result (λ _. nodes.new.items ≡ with_node nodes.old.items node) }
{
    if number(nodes, node.as_slice()).is_none() {
        nodes.push(node)?;
    }
    Ok(())
}

// Where a node stands.
fn number(nodes: &[Items<Part>], node: &[Part]) -> Option<usize>
    ensures { result ≡ place_of 0 node.now nodes.now }
{
    for i in 0..nodes.len() {
        if is_same(nodes[i].as_slice(), node) {
            return Some(i);
        }
    }
    None
}

pub fn is_same(one: &[Part], other: &[Part]) -> bool
    ensures { result ≡ same_parts one.now other.now }
{
    if one.len() != other.len() {
        return false;
    }
    for i in 0..one.len() {
        if !is_same_part(one[i], other[i]) {
            return false;
        }
    }
    true
}

fn is_same_part(one: Part, other: Part) -> bool
    ensures { result ≡ same_part one other }
{
    one.coeff == other.coeff && one.atom == other.atom
}

// The inequalities as edges.
pub fn all_edges(
    alloc: Global,
    nodes: &[Items<Part>],
    bounds: &[Bound],
) -> Result<Vec<Edge>, Memory>
    requires bounds { All (λ b. IsForm b.form) bounds.now }
    requires nodes { length nodes.now ≤ 4096 }
    ensures { IfOk result (λ v. v.items ≡ map (edge_of nodes.now) (forms_of bounds.now)) }
{
    let mut edges = Vec::new(alloc);
    for bound in bounds {
        let edge = edge(alloc, nodes, &bound.form)?;
        edges.push(edge)?;
    }
    Ok(edges)
}

fn edge(alloc: Global, nodes: &[Items<Part>], form: &Form) -> Result<Edge, Memory>
    requires form { IsForm form.now }
    requires nodes { length nodes.now ≤ 4096 }
    ensures { IfOk result (λ e. e ≡ edge_of nodes.now form.now) }
{
    let ends = ends_of(alloc, form.parts.as_slice())?;
    Ok(Edge {
        from: number_or_zero(nodes, ends.from.as_slice()),
        to: number_or_zero(nodes, ends.to.as_slice()),
        most: -form.constant,
    })
}

fn number_or_zero(nodes: &[Items<Part>], node: &[Part]) -> u32
    requires { length nodes.now ≤ 4096 }
    ensures { result ≡ number_of nodes.now node.now }
{
    match number(nodes, node) {
        Some(k) => k as u32,
        None => 0,
    }
}
