// What a plan tells of its nodes: up to where they are final, whether their rows are events, and how far they look back.
// Each goes over the nodes up to the one that is asked for, with what it found of the earlier ones in an array.
ghost use Rattle.std.specs.Prelude.{◌≡◌, ◌<◌, ◌≤◌, true, length, slice_index_or};
ghost use Rattle.tw_rows.specs.Instant.{inf};
ghost use Rattle.plan_model.specs.IsPlan.{most_reach};
ghost use Rattle.plan_model.specs.Meaning.{left_child, right_child, left_of, right_of, HasLower, node_closes, closes as closes_of};
ghost use Rattle.plan_model.specs.Reach.{HasPeriod, node_reach, reach as reach_of, node_is_event_level, event_level as event_level_of};

use crate::limits::{MOST_NODES, level_over};
use crate::node::Node;
use crate::plan::Plan;
use tw_rows::{Time, floor_to};

// Up to where a node is final, from up to where its children are.
fn closing_of(node: &Node, left: Time, right: Time) -> Time
    requires { HasPeriod node.now }
    ensures { result ≡ node_closes node.now left right }
{
    match node {
        Node::Union { .. }
        | Node::Clip { .. }
        | Node::Join { .. }
        | Node::Anti { .. }
        | Node::Follow { .. } => left.min(right),
        Node::Delay { by, .. } => left.plus(*by),
        Node::Hop { period, .. } => floor_to(left, *period),
        _ => left,
    }
}

#[tactic(auto, unfolding(tw_rows::specs::Instant::inf))]
// Up to where the next node is final, where `done` has that of the nodes before it.
fn next_closing(node: &Node, done: &[Time; MOST_NODES], p: Time) -> Time
    requires period { HasPeriod node.now }
    requires left { HasLower 256 (left_child node.now) }
    requires right { HasLower 256 (right_child node.now) }
    ensures { result ≡ node_closes node.now
        (left_of inf (λ s. p) (λ i. slice_index_or done.now i inf) node.now)
        (right_of inf (λ i. slice_index_or done.now i inf) node.now) }
{
    let left = match node.left_child() {
        Some(child) => done[child],
        None => p,
    };
    let right = match node.right_child() {
        Some(child) => done[child],
        None => Time::INF,
    };
    closing_of(node, left, right)
}

/// The time below which the rows of the node of that number are final, where those of the streams are final below `p`.
pub fn closes(plan: &Plan, node: usize, p: Time) -> Time
    requires { node < length plan.now.nodes }
    ensures { result ≡ closes_of plan.now.nodes node p }
{
    let nodes = plan.nodes();
    let mut done = [p; MOST_NODES];
    for i in 0..node {
        done[i] = next_closing(&nodes[i], &done, p);
    }
    next_closing(&nodes[node], &done, p)
}

// Whether the rows of the next node are events, where `done` has that of the nodes before it.
fn next_level(node: &Node, done: &[bool; MOST_NODES]) -> bool
    requires left { HasLower 256 (left_child node.now) }
    requires right { HasLower 256 (right_child node.now) }
    ensures { result ≡ node_is_event_level node.now
        (left_of true (λ s. true) (λ i. slice_index_or done.now i true) node.now)
        (right_of true (λ i. slice_index_or done.now i true) node.now) }
{
    let left = match node.left_child() {
        Some(child) => done[child],
        None => true,
    };
    let right = match node.right_child() {
        Some(child) => done[child],
        None => true,
    };
    level_over(node, left, right)
}

/// Whether the rows of the node of that number are events. Where they are not, no step that changes lifetimes may stand over
/// it.
pub fn event_level(plan: &Plan, node: usize) -> bool
    requires { node < length plan.now.nodes }
    ensures { result ≡ event_level_of plan.now.nodes node }
{
    let nodes = plan.nodes();
    let mut done = [true; MOST_NODES];
    for i in 0..node {
        done[i] = next_level(&nodes[i], &done);
    }
    next_level(&nodes[node], &done)
}

// How far a node looks back, from how far its children do, where that is not too far.
#[tactic(auto, unfolding(crate::specs::IsPlan::most_reach))]
fn reach_within(node: &Node, left: u64, right: u64) -> u64
    requires { node_reach node.now left right ≤ most_reach }
    ensures { result ≡ node_reach node.now left right }
{
    left.max(right) + node.own_duration()
}

// How far the next node looks back, where `done` has that of the nodes before it.
fn next_reach(node: &Node, done: &[u64; MOST_NODES]) -> u64
    requires left { HasLower 256 (left_child node.now) }
    requires right { HasLower 256 (right_child node.now) }
    requires near { node_reach node.now
        (left_of 0 (λ s. 0) (λ i. slice_index_or done.now i 0) node.now)
        (right_of 0 (λ i. slice_index_or done.now i 0) node.now) ≤ most_reach }
    ensures { result ≡ node_reach node.now
        (left_of 0 (λ s. 0) (λ i. slice_index_or done.now i 0) node.now)
        (right_of 0 (λ i. slice_index_or done.now i 0) node.now) }
{
    let left = match node.left_child() {
        Some(child) => done[child],
        None => 0,
    };
    let right = match node.right_child() {
        Some(child) => done[child],
        None => 0,
    };
    reach_within(node, left, right)
}

/// How far the node of that number looks back, in units of time, with all that stands below it: 2^60 at most.
pub fn reach(plan: &Plan, node: usize) -> u64
    requires { node < length plan.now.nodes }
    ensures reach { result ≡ reach_of plan.now.nodes node }
    ensures near { result ≤ most_reach }
{
    let nodes = plan.nodes();
    let mut done = [0; MOST_NODES];
    for i in 0..node {
        done[i] = next_reach(&nodes[i], &done);
    }
    next_reach(&nodes[node], &done)
}
