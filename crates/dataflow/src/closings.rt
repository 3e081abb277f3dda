// Up to where the nodes of a plan are final at a punctuation, each found once.
ghost use Rattle.std.specs.Prelude.{◌≡◌, ◌<◌, ◌≤◌, ℕ, Some, length, slice_get, slice_index_or};
ghost use Rattle.tw_rows.specs.Instant.{inf};
ghost use Rattle.plan_model.specs.declared.node.Node.{Node};
ghost use Rattle.plan_model.specs.Meaning.{left_child, right_child, left_of, right_of, HasLower, node_closes};
ghost use Rattle.plan_model.specs.Reach.{HasPeriod};
ghost use Rattle.dataflow.specs.Closings.{AreClosings};
ghost use Rattle.dataflow.specs.Stages.{left_closing as left_closing_of, right_closing as right_closing_of};

use plan_model::{MOST_NODES, Node, Plan};
use tw_rows::{Time, floor_to};

// Up to where a node is final, from up to where its children are.
fn closing_over(node: &Node, left: Time, right: Time) -> Time
    requires { HasPeriod node.now }
    ensures { result ≡ node_closes node.now left right }
{
    match node {
        Node::Delay { by, .. } => left.plus(*by),
        Node::Hop { period, .. } => floor_to(left, *period),
        Node::Union { .. }
        | Node::Clip { .. }
        | Node::Join { .. }
        | Node::Anti { .. }
        | Node::Follow { .. } => left.min(right),
        _ => left,
    }
}

// Up to where the left child of the node is final, where `closings` has that of the nodes before it.
fn left_before(node: &Node, closings: &[Time; MOST_NODES], p: Time) -> Time
    requires { HasLower 256 (left_child node.now) }
    ensures { result ≡ left_of inf (λ s. p) (λ i. slice_index_or closings.now i inf) node.now }
{
    match node.left_child() {
        Some(child) => closings[child],
        None => p,
    }
}

// The same of the right child: infinity where there is none.
#[tactic(auto, unfolding(tw_rows::specs::Instant::inf))]
fn right_before(node: &Node, closings: &[Time; MOST_NODES]) -> Time
    requires { HasLower 256 (right_child node.now) }
    ensures { result ≡ right_of inf (λ i. slice_index_or closings.now i inf) node.now }
{
    match node.right_child() {
        Some(child) => closings[child],
        None => Time::INF,
    }
}

/// Up to where each node of the plan is final at the punctuation `p`.
pub(crate) fn closings_at(plan: &Plan, p: Time) -> [Time; MOST_NODES]
    ensures { AreClosings plan.now p result }
{
    let nodes = plan.nodes();
    let mut closings = [p; MOST_NODES];
    for i in 0..nodes.len() {
        let node = &nodes[i];
        let left = left_before(node, &closings, p);
        let right = right_before(node, &closings);
        closings[i] = closing_over(node, left, right);
    }
    closings
}

/// The closing of what the node of number `i` reads on the left.
pub(crate) fn left_closing(plan: &Plan, closings: &[Time; MOST_NODES], i: usize, p: Time) -> Time
    requires node { i < length plan.now.nodes }
    requires closings { AreClosings plan.now p closings.now }
    ensures { (n : Node) → slice_get plan.now.nodes i ≡ Some n →
        result ≡ left_closing_of plan.now.nodes p n }
{
    let nodes = plan.nodes();
    left_before(&nodes[i], closings, p)
}

/// The closing of what it reads on the right: infinity where that is nothing.
pub(crate) fn right_closing(plan: &Plan, closings: &[Time; MOST_NODES], i: usize) -> Time
    requires { i < length plan.now.nodes }
    ensures { (p : ℕ) (n : Node) → AreClosings plan.now p closings.now →
        slice_get plan.now.nodes i ≡ Some n → result ≡ right_closing_of plan.now.nodes p n }
{
    let nodes = plan.nodes();
    right_before(&nodes[i], closings)
}
