// What is found and checked of nodes that are put behind others.
ghost use Rattle.std.specs.Prelude.{◌≡◌, ◌+◌, ◌^◌, ◌<◌, nat_lt, not, true, slice_index_or};
ghost use Rattle.plan_model.specs.Meaning.{at_child};
ghost use Rattle.query_plan.specs.Answer.{Is};
ghost use Rattle.query_plan.specs.Checked.{is_wide, has_twice, checked};
ghost use Rattle.query_plan.specs.Draft.{needs, has_key_twice};
ghost use Rattle.query_plan.specs.Growing.{next_level, next_reach, near_reach, reaches_with};

use crate::draft::PlannedNode;
use crate::schemas::{key_twice, name_twice};
use plan_model::{MOST_COLUMNS, MOST_NODES, Node, QueryError, QueryFault, level_over, reach_over};

/// Nothing, or the fault where the test fails.
pub(crate) fn needs(test: bool, fault: QueryFault) -> Result<(), QueryError>
    ensures { Is (λ u. u) result (needs test fault) }
{
    if test {
        Ok(())
    } else {
        Err(QueryError::Fault(fault))
    }
}

// Whether the rows of the child are events, and true where there is no child.
fn level_at(levels: &[bool], child: Option<usize>) -> bool
    ensures { result ≡ at_child true (λ i. slice_index_or levels.now i true) child }
{
    match child {
        Some(child) => level_of_number(levels, child),
        None => true,
    }
}

/// Whether the rows of the node of that number are events, and true where there is no node.
pub(crate) fn level_of_number(levels: &[bool], i: usize) -> bool
    ensures { result ≡ slice_index_or levels.now i true }
{
    match levels.get(i) {
        Some(level) => *level,
        None => true,
    }
}

/// Whether the rows of the next node are events, where `levels` tells that of the nodes before it.
pub(crate) fn next_level(node: &Node, levels: &[bool]) -> bool
    ensures { result ≡ next_level node.now levels.now }
{
    let left = level_at(levels, node.left_child());
    let right = level_at(levels, node.right_child());
    level_over(node, left, right)
}

// How far the child looks back, and 0 where there is no child.
fn reach_at(reaches: &[u64], child: Option<usize>) -> u64
    ensures { result ≡ at_child 0 (λ i. slice_index_or reaches.now i 0) child }
{
    match child {
        Some(child) => reach_of_number(reaches, child),
        None => 0,
    }
}

// How far the node of that number looks back, and 0 where there is no node.
fn reach_of_number(reaches: &[u64], i: usize) -> u64
    ensures { result ≡ slice_index_or reaches.now i 0 }
{
    match reaches.get(i) {
        Some(reach) => *reach,
        None => 0,
    }
}

// How far the next node looks back, where `reaches` tells that of the nodes before it; or the fault where that is too far.
fn near_reach(item: usize, node: &Node, reaches: &[u64]) -> Result<u64, QueryError>
    ensures { Is (λ r. r) result (near_reach item node.now reaches.now) }
{
    let left = reach_at(reaches, node.left_child());
    let right = reach_at(reaches, node.right_child());
    match reach_over(node, left, right) {
        Some(reach) => Ok(reach),
        None => Err(QueryError::Fault(QueryFault::ReachTooLong { item })),
    }
}

/// The reaches with those of these nodes behind them, or the fault where one of them is too far.
pub(crate) fn reaches_with(
    item: usize,
    reaches: Vec<u64>,
    planned: &[PlannedNode],
) -> Result<Vec<u64>, QueryError>
    ensures { Is (λ v. v.items) result (reaches_with item reaches.items planned.now) }
{
    let mut reaches = reaches;
    for (i, next) in planned.iter().enumerate() {
        let reach = near_reach(item, &next.node, &reaches)?;
        reaches.push(reach)?;
    }
    Ok(reaches)
}

// Whether one of the nodes has more columns than a node may have.
fn is_wide(planned: &[PlannedNode]) -> bool
    ensures { result ≡ is_wide planned.now }
{
    planned
        .iter()
        .any(|next| next.schema.items().len() > MOST_COLUMNS)
}

// Whether the node names a column twice in its key.
fn has_key_twice(node: &Node) -> bool
    ensures { result ≡ has_key_twice node.now }
{
    match node {
        Node::Session { key, .. } | Node::Group { key, .. } | Node::Top { key, .. } => {
            key_twice(key.items())
        }
        Node::Clip { left_key, .. }
        | Node::Join { left_key, .. }
        | Node::Anti { left_key, .. }
        | Node::Follow { left_key, .. } => { key_twice(left_key.items()) }
        _ => false,
    }
}

// Whether one of the nodes has two columns of one name, or names a column twice in its key.
fn has_twice(planned: &[PlannedNode]) -> bool
    ensures { result ≡ has_twice planned.now }
{
    planned.iter().any(|next| name_twice(next.schema.items()) || has_key_twice(&next.node))
}

/// Nothing, or the first fault of these nodes behind `count` others, but for how far they look back.
pub(crate) fn checked(item: usize, count: usize, planned: &[PlannedNode]) -> Result<(), QueryError>
    requires { count < 2 ^ 63 }
    ensures { Is (λ u. u) result (checked item count planned.now) }
{
    needs(
        count + planned.len() <= MOST_NODES,
        QueryFault::TooManyNodes { item },
    )?;
    needs(!is_wide(planned), QueryFault::TooManyColumns { item })?;
    needs(!has_twice(planned), QueryFault::NameTaken { item })
}
