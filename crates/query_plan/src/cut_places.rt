// The columns by which the rows of nodes are cut.
ghost use Rattle.std.specs.Prelude.{◌≡◌, ◌+◌, ℕ, nat_lt, not, ◌&&◌, IfOk, [], filter, slice_index_or};
ghost use Rattle.plan_model.specs.Shape.{at_child, left_of, right_of};
ghost use Rattle.query_plan.specs.Cuts.{is_among as is_among_list, is_cut_column as is_cut_item, stream_widths, stream_places};
ghost use Rattle.query_plan.specs.Cuts.{passing_from, in_both_keys as in_both, node_places as places_of, width_at};

use plan_model::{Expr, ExprNode, Key, Node, Plan};
use std::alloc::Global;
use tw_rows::{Memory, StreamDef};

// Whether the number is one of the list.
fn is_among(places: &[usize], place: usize) -> bool
    ensures { result ≡ is_among_list places.now place }
{
    places.iter().any(|p| place == *p)
}

// Whether the item is just a column of the list.
fn is_cut_column(places: &[usize], item: &Expr) -> bool
    ensures { result ≡ is_cut_item places.now item.now }
{
    match item.items() {
        [ExprNode::Column(column)] => is_among(places, *column),
        _ => false,
    }
}

// The columns that are among those that are cut.
fn kept(alloc: Global, columns: &[usize], cut: &[usize]) -> Result<Vec<usize>, Memory>
    ensures { IfOk result (λ v. v.items ≡ filter (is_among_list cut.now) columns.now) }
{
    let mut places = Vec::new(alloc);
    for column in columns {
        if is_among(cut, *column) {
            places.push(*column)?;
        }
    }
    Ok(places)
}

// Where a key names columns that are cut.
fn named(alloc: Global, key: &[usize], cut: &[usize]) -> Result<Vec<usize>, Memory>
    ensures { IfOk result (λ v. v.items ≡ passing_from (is_among_list cut.now) 0 key.now) }
{
    let mut places = Vec::new(alloc);
    for (i, column) in key.iter().enumerate() {
        if is_among(cut, *column) {
            places.push(i)?;
        }
    }
    Ok(places)
}

// Where items are columns that are cut.
fn selected(alloc: Global, items: &[Expr], cut: &[usize]) -> Result<Vec<usize>, Memory>
    ensures { IfOk result (λ v. v.items ≡ passing_from (is_cut_item cut.now) 0 items.now) }
{
    let mut places = Vec::new(alloc);
    for (i, item) in items.iter().enumerate() {
        if is_cut_column(cut, item) {
            places.push(i)?;
        }
    }
    Ok(places)
}

// The columns of the left key by which both sides are cut.
fn in_both_keys(
    alloc: Global,
    left_key: &[usize],
    right_key: &[usize],
    left: &[usize],
    right: &[usize],
) -> Result<Vec<usize>, Memory>
    ensures { IfOk result (λ v. v.items ≡ in_both left_key.now right_key.now left.now right.now) }
{
    let mut places = Vec::new(alloc);
    for (i, column) in left_key.iter().enumerate() {
        let Some(other) = right_key.get(i) else {
            break;
        };
        if is_among(left, *column) && is_among(right, *other) {
            places.push(*column)?;
        }
    }
    Ok(places)
}

// The columns that a mean leaves.
fn left_by_mean(
    alloc: Global,
    at: &[usize],
    width: usize,
    cut: &[usize],
) -> Result<Vec<usize>, Memory>
    ensures { IfOk result (λ v. v.items ≡ filter
        (λ place. not (is_among_list at.now place) && nat_lt (place + 1) width) cut.now) }
{
    let mut places = Vec::new(alloc);
    for place in cut {
        if !is_among(at, *place) && *place < width && width - *place > 1 {
            places.push(*place)?;
        }
    }
    Ok(places)
}

// How many columns the node of that number has.
fn width_of(plan: &Plan, number: usize) -> usize
    ensures { result ≡ width_at plan.now.schemas number }
{
    match plan.schemas().get(number) {
        Some(schema) => schema.items().len(),
        None => 0,
    }
}

// The columns by which a node is cut, from those of its children.
fn node_places(
    alloc: Global,
    plan: &Plan,
    node: &Node,
    left: &[usize],
    right: &[usize],
) -> Result<Vec<usize>, Memory>
    ensures { IfOk result (λ v. v.items
        ≡ places_of (width_at plan.now.schemas) node.now left.now right.now) }
{
    match node {
        Node::Select { items, .. } => selected(alloc, items.items(), left),
        Node::Union { .. } => kept(alloc, left, right),
        Node::Session { key, .. } | Node::Top { key, .. } => kept(alloc, key.items(), left),
        Node::Group { key, .. } => named(alloc, key.items(), left),
        Node::Clip {
            left_key,
            right_key,
            ..
        }
        | Node::Join {
            left_key,
            right_key,
            ..
        }
        | Node::Anti {
            left_key,
            right_key,
            ..
        }
        | Node::Follow {
            left_key,
            right_key,
            ..
        } => in_both_keys(alloc, left_key.items(), right_key.items(), left, right),
        Node::Mean { of, at } => left_by_mean(alloc, at.items(), width_of(plan, *of), left),
        Node::Source { .. }
        | Node::Where { .. }
        | Node::Delay { .. }
        | Node::Hop { .. }
        | Node::Duration { .. }
        | Node::Extend { .. }
        | Node::Coalesce { .. } => Ok(left.to_vec(alloc)?),
    }
}

// How many columns the stream of that number has.
fn stream_width(streams: &[StreamDef], number: usize) -> usize
    ensures { result ≡ slice_index_or (stream_widths streams.now) number 0 }
{
    match streams.get(number) {
        Some(stream) => stream.schema.items().len(),
        None => 0,
    }
}

// The columns by which the rows of a stream are cut: its column of the list, if it has one of that number.
fn source_places(
    alloc: Global,
    streams: &[StreamDef],
    columns: &[usize],
    number: usize,
) -> Result<Vec<usize>, Memory>
    ensures { IfOk result (λ v. v.items ≡ stream_places streams.now columns.now number) }
{
    let width = stream_width(streams, number);
    let mut places = Vec::new(alloc);
    if let Some(column) = columns.get(number) {
        if *column < width {
            places.push(*column)?;
        }
    }
    Ok(places)
}

// The columns by which the node of that number is cut, of those that are known.
fn at(done: &[Key], number: usize) -> &[usize]
    ensures { result.now ≡ slice_index_or done.now number [] }
{
    match done.get(number) {
        Some(places) => places.items(),
        None => &[],
    }
}

/// The columns by which the next node is cut, where `done` has those of the nodes before it.
pub(crate) fn next_places(
    alloc: Global,
    plan: &Plan,
    columns: &[usize],
    node: &Node,
    done: &[Key],
) -> Result<Vec<usize>, Memory>
    ensures { IfOk result (λ v. v.items ≡ places_of (width_at plan.now.schemas) node.now
        (left_of [] (stream_places plan.now.streams columns.now)
        (λ i. slice_index_or done.now i []) node.now)
        (right_of [] (λ i. slice_index_or done.now i []) node.now)) }
{
    match node {
        Node::Source { stream } => source_places(alloc, plan.streams(), columns, *stream),
        Node::Where { of, .. }
        | Node::Select { of, .. }
        | Node::Delay { of, .. }
        | Node::Hop { of, .. }
        | Node::Duration { of, .. }
        | Node::Extend { of, .. }
        | Node::Session { of, .. }
        | Node::Group { of, .. }
        | Node::Coalesce { of }
        | Node::Mean { of, .. }
        | Node::Top { of, .. } => node_places(alloc, plan, node, at(done, *of), &[]),
        Node::Union { left, right }
        | Node::Clip { left, right, .. }
        | Node::Join { left, right, .. }
        | Node::Anti { left, right, .. }
        | Node::Follow { left, right, .. } => {
            node_places(alloc, plan, node, at(done, *left), at(done, *right))
        }
    }
}
