ghost use Rattle.std.specs.Prelude.{◌≡◌, ◌≤◌, ◌<◌, ◌-ℤ◌, ◌^◌, length, map, unsigned_abs, IfOk};
ghost use Rattle.std.specs.List.{All};
ghost use Rattle.pl_forms.specs.Forms.{IsForm};
ghost use Rattle.pl_forms.specs.Facts.{IsFact};
ghost use Rattle.pl_forms.specs.Equations.{AreSolutions, AreNamed};
ghost use Rattle.pl_forms.specs.Solving.{solved};
ghost use Rattle.pl_diffs.specs.Differences.{at};
ghost use Rattle.pl_linear.specs.Duty.{asked, asked_by};
ghost use Rattle.pl_linear.specs.Nodes.{node_form, nodes_of, edges_of};
ghost use Rattle.pl_linear.specs.Bounds.{bound_at, forms_of, IsCycleOf};
ghost use Rattle.pl_linear.specs.Findings.{Finds, Settles, IfCert, IsCertificate, IsCertificateOf};

use crate::bounds::{Bound, bounds};
use crate::found::{Found, NodeValue};
use crate::nodes::{all_edges, all_nodes};
use pl_base::{Items, Memory};
use pl_diffs::{Edge, Solved, solve};
use pl_forms::{Cert, CertItem, Eqs, Facts, Form, Part, TermError};
use std::alloc::{AllocError, Global};

/// A certificate of the duty `goal <= 0` where it is done by the facts, and else the point of least distances.
///
/// The facts' equations are solved first; the rest is as in `find_with`.
pub fn find(alloc: Global, facts: &Facts, goal: &Form) -> Result<Found, TermError>
    requires facts { All IsFact facts.now.list }
    requires goal { IsForm goal.now }
    requires few { length facts.now.list ≤ 1024 }
    ensures exact { Finds result (asked_by (solved facts.now.list) facts.now.list goal.now) }
    ensures certificate { IfOk result (λ f. IfCert f (IsCertificateOf facts.now.list goal.now)) }
{
    let eqs = Eqs::of(alloc, facts)?;
    find_with(alloc, &eqs, facts, goal)
}

/// A certificate of the duty `goal <= 0` where it is done, and else the point of least distances.
///
/// It is done where no whole numbers for the nodes meet all reduced and tightened inequalities that count and the negated
/// goal `1 - goal <= 0`. The nodes are zero, the atoms, and each primitive sum that is neither one atom nor a difference of
/// two. `TooLarge` comes exactly where a form on the way, the facts' in their order and then the goal's, passes its limit.
pub fn find_with(alloc: Global, eqs: &Eqs, facts: &Facts, goal: &Form) -> Result<Found, TermError>
    requires eqs { AreSolutions eqs.now.solved }
    requires named { AreNamed eqs.now.solved }
    requires facts { All IsFact facts.now.list }
    requires goal { IsForm goal.now }
    requires few { length facts.now.list ≤ 1024 }
    ensures exact { Finds result (asked eqs.now.solved facts.now.list goal.now) }
    ensures certificate { IfOk result (λ f. IfCert f (IsCertificate eqs.now.solved facts.now.list goal.now)) }
{
    let solutions = eqs.solved.as_slice();
    let list = bounds(alloc, solutions, facts.list.as_slice(), goal)?;
    Ok(settle(alloc, &list)?)
}

// A certificate of a negative cycle of the inequalities, or numbers that meet them all.
pub(crate) fn settle(alloc: Global, bounds: &[Bound]) -> Result<Found, Memory>
    requires forms { All (λ b. IsForm b.form) bounds.now }
    requires few { length bounds.now ≤ 4096 }
    requires nodes { length (nodes_of (forms_of bounds.now)) ≤ 4096 }
    ensures exact { IfOk result (λ f. Settles f (forms_of bounds.now)) }
    ensures cycle { IfOk result (λ f. IfCert f (IsCycleOf bounds.now)) }
{
    let nodes = all_nodes(alloc, bounds)?;
    let edges = all_edges(alloc, &nodes, bounds)?;
    outcome(alloc, bounds, &nodes, &edges)
}

// .. of their graph.
fn outcome(
    alloc: Global,
    bounds: &[Bound],
    nodes: &[Items<Part>],
    edges: &[Edge],
) -> Result<Found, Memory>
    requires forms { All (λ b. IsForm b.form) bounds.now }
    requires nodes { nodes.now ≡ nodes_of (forms_of bounds.now) }
    requires edges { edges.now ≡ edges_of (forms_of bounds.now) }
    requires few_nodes { length nodes.now ≤ 4096 }
    requires few_edges { length edges.now ≤ 4096 }
    ensures exact { IfOk result (λ f. Settles f (forms_of bounds.now)) }
    ensures cycle { IfOk result (λ f. IfCert f (IsCycleOf bounds.now)) }
{
    match solve(alloc, nodes.len() as u32, edges)? {
        Solved::Cycle(places) => Ok(Found::Cert(cert(alloc, bounds, places.as_slice())?)),
        Solved::Potentials(distances) => {
            let point = point(alloc, nodes, distances.as_slice())?;
            Ok(Found::Point(Items::of(point)))
        }
    }
}

// The items of the inequalities at these places.
fn cert(alloc: Global, bounds: &[Bound], places: &[u32]) -> Result<Cert, Memory>
    requires { All (λ i. i < length bounds.now) places.now }
    ensures { IfOk result (λ c. c.items ≡ map (λ i. (bound_at bounds.now i).item) places.now) }
{
    let mut items = Vec::new(alloc);
    for place in places {
        let item = copy_item(alloc, &bounds[*place as usize].item)?;
        items.push(item)?;
    }
    Ok(Cert {
        items: Items::of(items),
    })
}

pub(crate) fn copy_item(alloc: Global, item: &CertItem) -> Result<CertItem, AllocError>
    ensures { IfOk result (λ i. i ≡ item.now) }
{
    let mut eqs = Vec::new(alloc);
    eqs.extend_from_slice(item.eqs.as_slice())?;
    Ok(CertItem {
        times: item.times,
        fact: item.fact,
        back: item.back,
        eqs: Items::of(eqs),
    })
}

// Each node with its distance less that of zero, the first.
fn point(
    alloc: Global,
    nodes: &[Items<Part>],
    distances: &[i128],
) -> Result<Vec<NodeValue>, AllocError>
    requires some { 0 < length nodes.now }
    requires lengths { length distances.now ≡ length nodes.now }
    requires sizes { All (λ x. unsigned_abs x ≤ 2 ^ 106) distances.now }
    ensures nodes { IfOk result (λ v. map (λ x. x.node) v.items ≡ map node_form nodes.now) }
    ensures values { IfOk result (λ v. map (λ x. x.value) v.items ≡ map (λ x. x -ℤ at distances.now 0) distances.now) }
{
    let mut out = Vec::new(alloc);
    for i in 0..nodes.len() {
        let entry = node_value(alloc, &nodes[i], distances, i)?;
        out.push(entry)?;
    }
    Ok(out)
}

fn node_value(
    alloc: Global,
    node: &Items<Part>,
    distances: &[i128],
    place: usize,
) -> Result<NodeValue, AllocError>
    requires place { place < length distances.now }
    requires sizes { All (λ x. unsigned_abs x ≤ 2 ^ 106) distances.now }
    ensures { IfOk result (λ v. v ≡ record { node = node_form node.now; value = at distances.now place -ℤ at distances.now 0 }) }
{
    let mut parts = Vec::new(alloc);
    parts.extend_from_slice(node.as_slice())?;
    Ok(NodeValue {
        node: Form {
            parts: Items::of(parts),
            constant: 0,
        },
        value: less(distances[place], distances[0]),
    })
}

fn less(distance: i128, zero: i128) -> i128
    requires distance { unsigned_abs distance ≤ 2 ^ 106 }
    requires zero { unsigned_abs zero ≤ 2 ^ 106 }
    ensures { result ≡ distance -ℤ zero }
{
    distance - zero
}
