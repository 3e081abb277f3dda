// New edges of a side taken in and all that are due taken out, in one call.
ghost use Rattle.std.specs.Prelude.{◌≡◌, ◌+◌, ◌<◌, ◌≤◌, ◌∷◌, [], ℕ, All, map, length, cond, IsTrue, OnOk, IfOk, IfSome, IfNone};
ghost use Rattle.tw_rows.specs.Bag.{SameBag, total};
ghost use Rattle.tw_rows.specs.Cells.{datum_kind};
ghost use Rattle.tw_rows.specs.declared.edge.Edge.{Edge};
ghost use Rattle.edge_history.specs.Order.{failing, is_below, is_from, KeepsOrder};
ghost use Rattle.edge_history.specs.Opens.{singles, singles_of};
ghost use Rattle.edge_stream.specs.Listing.{cells_of};
ghost use Rattle.sweep_laws.specs.Sweeps.{SyncsRise};
ghost use Rattle.sweep_sides.specs.Waiting.{queued, AreTimed};
ghost use Rattle.sweep_sides.specs.Ends.{end_of, ends_of, weight, HaveStarts, KeepsStarts};

use crate::endings::{Ending, Endings};
use crate::waiting::{is_single, put_edge, put_singles};
use edge_stream::EdgeList;
use end_queue::EndQueue;
use std::alloc::Global;
use std::collections::VecDeque;
use tw_rows::{Edge, Memory, Time};

// So many edges are taken out one by one. To split the queue costs more than that.
const FEW: usize = 8;

// Takes out edges that are due before a time, at most a few of them, and puts them last.
fn pop_few(queue: &mut EndQueue, due: &mut Vec<Edge>, below: Time) -> Result<(), Memory>
    ensures parts { OnOk result ((w : Edge → ℕ) → total w due.new.items + total w (queued queue.new)
        ≡ total w due.old.items + total w (queued queue.old)) }
    ensures early { OnOk result ((to : ℕ) → below ≤ to → AreTimed queue.old →
        failing (is_below to) due.old.items ≡ 0 → failing (is_below to) due.new.items ≡ 0) }
    ensures timed { OnOk result (AreTimed queue.old → AreTimed queue.new) }
{
    for _ in 0..FEW {
        let Some(edge) = queue.pop_due(below) else {
            return Ok(());
        };
        due.push(edge)?;
    }
    Ok(())
}

// Takes out all edges that are due before a time, and puts them last.
fn pop_before(queue: &mut EndQueue, due: &mut Vec<Edge>, below: Time) -> Result<(), Memory>
    ensures parts { OnOk result ((w : Edge → ℕ) → total w due.new.items + total w (queued queue.new)
        ≡ total w due.old.items + total w (queued queue.old)) }
    ensures early { OnOk result ((to : ℕ) → below ≤ to → AreTimed queue.old →
        failing (is_below to) due.old.items ≡ 0 → failing (is_below to) due.new.items ≡ 0) }
    ensures rest { OnOk result (AreTimed queue.old →
        failing (is_from below) (queued queue.new) ≡ 0) }
    ensures timed { OnOk result (AreTimed queue.old → AreTimed queue.new) }
{
    pop_few(queue, due, below)?;
    queue.pop_all(below, due)?;
    Ok(())
}

// The end as an edge.
fn end_edge(due: &[Edge], end: Ending) -> Result<Edge, Memory>
    requires { end.start < length due.now }
    ensures { IfOk result (λ edge. edge ≡ end_of due.now end) }
{
    let start = &due[end.start];
    Ok(Edge {
        sync: end.sync,
        other: start.sync,
        cells: start.cells.clone()?,
    })
}

// Puts an end to those that wait in the queue.
#[inline(never)]
fn put_end(queue: &mut EndQueue, due: &[Edge], end: Ending) -> Result<(), Memory>
    requires { end.start < length due.now }
    ensures put { OnOk result ((w : Edge → ℕ) →
        total w (queued queue.new) ≡ total w (queued queue.old) + w (end_of due.now end)) }
    ensures timed { OnOk result (AreTimed queue.old → AreTimed queue.new) }
{
    let edge = end_edge(due, end)?;
    put_edge(queue, edge)?;
    Ok(())
}

// Puts an end to those that come, if it is due before a time and near the last of them. Else it waits, and comes out of
// the queue where it is due.
fn place_end(
    queue: &mut EndQueue,
    due: &[Edge],
    ends: &mut Endings,
    to: Time,
    end: Ending,
) -> Result<(), Memory>
    requires start { end.start < length due.now }
    requires starts { HaveStarts due.now ends.old }
    ensures starts { OnOk result (HaveStarts due.now ends.new) }
    ensures parts { OnOk result ((w : Edge → ℕ) →
        total w (ends_of due.now ends.new) + total w (queued queue.new)
        ≡ (total w (ends_of due.now ends.old) + total w (queued queue.old)) + w
        (end_of due.now end)) }
    ensures early { OnOk result (failing (is_below to) (ends_of due.now ends.old) ≡ 0 →
        failing (is_below to) (ends_of due.now ends.new) ≡ 0) }
    ensures timed { OnOk result (AreTimed queue.old → AreTimed queue.new) }
{
    if end.sync < to && ends.is_near(end.sync) {
        ends.put(end)?;
        return Ok(());
    }
    put_end(queue, due, end)?;
    Ok(())
}

// Takes out the first edge, if it comes at the time or before it.
fn next_edge(waited: &mut VecDeque<Edge>, t: Time) -> Option<Edge>
    ensures some { IfSome result (λ edge. waited.old.items ≡ edge ∷ waited.new.items) }
    ensures none { IfNone result (waited.new.items ≡ waited.old.items) }
{
    if t < waited.front()?.sync {
        return None;
    }
    waited.pop_front()
}

// Moves the first edges that waited, those that come at the time or before it, behind the edges that are due.
#[inline(never)]
fn move_waited(waited: &mut VecDeque<Edge>, due: &mut Vec<Edge>, t: Time) -> Result<(), Memory>
    ensures parts { OnOk result ((w : Edge → ℕ) → total w due.new.items + total w waited.new.items
        ≡ total w due.old.items + total w waited.old.items) }
    ensures kept { OnOk result (KeepsStarts due.old.items due.new.items) }
{
    while let Some(edge) = next_edge(waited, t) {
        due.push(edge)?;
    }
    Ok(())
}

// The same, at no cost where no edge waited.
#[inline(always)]
fn push_waited(waited: &mut VecDeque<Edge>, due: &mut Vec<Edge>, t: Time) -> Result<(), Memory>
    ensures parts { OnOk result ((w : Edge → ℕ) → total w due.new.items + total w waited.new.items
        ≡ total w due.old.items + total w waited.old.items) }
    ensures kept { OnOk result (KeepsStarts due.old.items due.new.items) }
{
    if waited.is_empty() {
        return Ok(());
    }
    move_waited(waited, due, t)
}

// Puts an end last, behind the edges that waited and come before it.
#[inline(always)]
fn push_end(waited: &mut VecDeque<Edge>, due: &mut Vec<Edge>, end: Ending) -> Result<(), Memory>
    requires { end.start < length due.old.items }
    ensures parts { OnOk result ((w : Edge → ℕ) → total w due.new.items + total w waited.new.items
        ≡ (total w due.old.items + total w waited.old.items) + w (end_of due.old.items end)) }
    ensures kept { OnOk result (KeepsStarts due.old.items due.new.items) }
{
    push_waited(waited, due, end.sync)?;
    let edge = end_edge(due, end)?;
    due.push(edge)?;
    Ok(())
}

// Moves what comes at the time or before it behind the edges that are due.
fn release(
    ends: &mut Endings,
    waited: &mut VecDeque<Edge>,
    due: &mut Vec<Edge>,
    t: Time,
) -> Result<(), Memory>
    requires { HaveStarts due.old.items ends.old }
    ensures starts { OnOk result (HaveStarts due.new.items ends.new) }
    ensures parts { OnOk result ((w : Edge → ℕ) → weight w due.new.items ends.new waited.new.items
        ≡ weight w due.old.items ends.old waited.old.items) }
{
    while let Some(end) = ends.pop_until(t) {
        push_end(waited, due, end)?;
    }
    push_waited(waited, due, t)?;
    Ok(())
}

// Moves all that comes behind the edges that are due.
fn release_all(
    mut ends: Endings,
    mut waited: VecDeque<Edge>,
    due: &mut Vec<Edge>,
) -> Result<(), Memory>
    requires { HaveStarts due.old.items ends }
    ensures { OnOk result ((w : Edge → ℕ) →
        total w due.new.items ≡ weight w due.old.items ends waited.items) }
{
    while let Some(end) = ends.pop() {
        push_end(&mut waited, due, end)?;
    }
    due.append(&mut waited.into_vec())?;
    Ok(())
}

// Puts a start or an end last, and of an interval the start, whose end comes or waits.
fn push_due(
    queue: &mut EndQueue,
    due: &mut Vec<Edge>,
    ends: &mut Endings,
    to: Time,
    edge: Edge,
) -> Result<(), Memory>
    requires { HaveStarts due.old.items ends.old }
    ensures starts { OnOk result (HaveStarts due.new.items ends.new) }
    ensures parts { OnOk result ((w : Edge → ℕ) →
        (total w due.new.items + total w (ends_of due.new.items ends.new)) + total w
        (queued queue.new) ≡ ((total w due.old.items + total w (ends_of due.old.items ends.old))
        + total w (queued queue.old)) + total w (singles_of edge)) }
    ensures early { OnOk result (edge.sync < to → failing (is_below to) due.old.items ≡ 0 →
        failing (is_below to) due.new.items ≡ 0) }
    ensures ends_early { OnOk result (failing (is_below to) (ends_of due.old.items ends.old) ≡ 0 →
        failing (is_below to) (ends_of due.new.items ends.new) ≡ 0) }
    ensures timed { OnOk result (AreTimed queue.old → AreTimed queue.new) }
{
    if is_single(&edge) {
        due.push(edge)?;
        return Ok(());
    }
    let end = Ending {
        sync: edge.other,
        start: due.len(),
    };
    let start = Edge {
        sync: edge.sync,
        other: Time::bounds().1,
        cells: edge.cells,
    };
    due.push(start)?;
    place_end(queue, due, ends, to, end)?;
    Ok(())
}

// Whether the edge comes before the time.
fn is_due(edge: &Edge, to: Time) -> bool
    ensures { result ≡ is_below to edge.now }
{
    edge.sync < to
}

// Takes in an edge: one that is due before a time is put behind what comes before it, and each other waits.
fn take_edge(
    queue: &mut EndQueue,
    due: &mut Vec<Edge>,
    ends: &mut Endings,
    waited: &mut VecDeque<Edge>,
    to: Time,
    edge: Edge,
) -> Result<(), Memory>
    requires { HaveStarts due.old.items ends.old }
    ensures starts { OnOk result (HaveStarts due.new.items ends.new) }
    ensures parts { OnOk result ((w : Edge → ℕ) →
        weight w due.new.items ends.new waited.new.items + total w (queued queue.new)
        ≡ (weight w due.old.items ends.old waited.old.items + total w (queued queue.old)) + total w
        (singles_of edge)) }
    ensures early { OnOk result (weight
        (λ e. cond (is_below to e) 0 1) due.old.items ends.old waited.old.items ≡ 0 → weight
        (λ e. cond (is_below to e) 0 1) due.new.items ends.new waited.new.items ≡ 0) }
    ensures timed { OnOk result (AreTimed queue.old → AreTimed queue.new) }
{
    if !is_due(&edge, to) {
        put_singles(queue, edge)?;
        return Ok(());
    }
    release(ends, waited, due, edge.sync)?;
    push_due(queue, due, ends, to, edge)?;
    Ok(())
}

fn sync_of(edge: &Edge) -> u64
    ensures { result ≡ edge.now.sync }
{
    edge.sync.word()
}

// Whether the syncs never fall.
fn rise(edges: &[Edge]) -> bool
    ensures { IsTrue result → SyncsRise 0 edges.now }
{
    let mut last = Time::bounds().0;
    for edge in edges {
        if edge.sync < last {
            return false;
        }
        last = edge.sync;
    }
    true
}

// Puts the edges in the order of their syncs, in which they mostly are.
fn by_sync(edges: &mut Vec<Edge>) -> Result<(), Memory>
    ensures same { OnOk result (SameBag edges.old.items edges.new.items) }
    ensures order { OnOk result (SyncsRise 0 edges.new.items) }
{
    if rise(edges.as_slice()) {
        return Ok(());
    }
    edges.sort_by_key(|edge| sync_of(edge))?;
    Ok(())
}

// The edges that are due before a time.
fn popped(queue: &mut EndQueue, alloc: Global, to: Time) -> Result<VecDeque<Edge>, Memory>
    ensures parts { IfOk result (λ ends. (w : Edge → ℕ) →
        total w ends.items + total w (queued queue.new) ≡ total w (queued queue.old)) }
    ensures early { IfOk result (λ ends. AreTimed queue.old →
        failing (is_below to) ends.items ≡ 0) }
    ensures timed { OnOk result (AreTimed queue.old → AreTimed queue.new) }
{
    let mut due = Vec::new(alloc);
    pop_before(queue, &mut due, to)?;
    Ok(VecDeque::from_vec(due))
}

// Room for so many edges of a list and their ends is made at once. A long list may have few that are due.
const SOME: u64 = 256;

fn room_for(edges: &EdgeList) -> usize
    ensures { result ≤ 256 }
{
    edges.len().min(SOME) as usize
}

/// Puts the edges of a list to the pending ones, each until its sync is due, and takes out those that are due before a time, in
/// the order of their syncs, in place of what `due` held: its room is used again. A start of the list that is due at once is not
/// put in at all, and an end only where it comes far before others.
pub fn take_into(
    queue: &mut EndQueue,
    alloc: Global,
    due: &mut Vec<Edge>,
    edges: &EdgeList,
    to: Time,
) -> Result<(), Memory>
    ensures parts { OnOk result ((w : Edge → ℕ) →
        total w due.new.items + total w (queued queue.new)
        ≡ total w (queued queue.old) + total w (singles edges.now.edges)) }
    ensures below { OnOk result (AreTimed queue.old → failing (is_below to) due.new.items ≡ 0) }
    ensures order { OnOk result (SyncsRise 0 due.new.items) }
    ensures rest { OnOk result (AreTimed queue.old → failing (is_from to) (queued queue.new) ≡ 0) }
    ensures timed { OnOk result (AreTimed queue.old → AreTimed queue.new) }
    ensures list { KeepsOrder edges.now.edges }
    ensures cells { OnOk result (All (λ e. map datum_kind e.cells
        ≡ cells_of edges.now) edges.now.edges) }
{
    let mut cursor = edges.cursor();
    // What waited comes in order, and so do the edges of the list. So each end goes to its place, mostly near the back.
    let mut waited = popped(queue, alloc, to)?;
    let mut ends = Endings::new(alloc, room_for(edges))?;
    due.clear();
    due.reserve(2 * room_for(edges))?;
    while let Some(edge) = cursor.next()? {
        take_edge(queue, due, &mut ends, &mut waited, to, edge)?;
    }
    release_all(ends, waited, due)?;
    // Ends that came far before the last ones.
    pop_before(queue, due, to)?;
    by_sync(due)?;
    Ok(())
}

/// The same, in a list of its own.
pub fn take_in(
    queue: &mut EndQueue,
    alloc: Global,
    edges: &EdgeList,
    to: Time,
) -> Result<Vec<Edge>, Memory>
    ensures parts { IfOk result (λ due. (w : Edge → ℕ) →
        total w due.items + total w (queued queue.new)
        ≡ total w (queued queue.old) + total w (singles edges.now.edges)) }
    ensures below { IfOk result (λ due. AreTimed queue.old → failing (is_below to) due.items ≡ 0) }
    ensures order { IfOk result (λ due. SyncsRise 0 due.items) }
    ensures rest { OnOk result (AreTimed queue.old → failing (is_from to) (queued queue.new) ≡ 0) }
    ensures timed { OnOk result (AreTimed queue.old → AreTimed queue.new) }
    ensures list { KeepsOrder edges.now.edges }
    ensures cells { OnOk result (All (λ e. map datum_kind e.cells
        ≡ cells_of edges.now) edges.now.edges) }
{
    let mut due = Vec::new(alloc);
    take_into(queue, alloc, &mut due, edges, to)?;
    Ok(due)
}

// The room of so many edges is kept, and not that of more.
const KEPT: usize = 4096;

/// Lets the edges go. Their room is kept for the next ones, unless it is that of very many.
pub fn let_go(due: &mut Vec<Edge>, alloc: Global)
    ensures { due.new.items ≡ [] }
{
    if due.capacity() > KEPT {
        *due = Vec::new(alloc);
        return;
    }
    due.clear();
}
