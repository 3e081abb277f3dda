// New edges of the child of a Group taken in, and all that are due taken out, in order.
ghost use Rattle.std.specs.Prelude.{◌≡◌, ◌+◌, ◌<◌, ◌≤◌, ◌↔◌, IsTrue, true, ℕ, All, map, OnOk, IfOk};
ghost use Rattle.tw_rows.specs.Bag.{SameBag, total};
ghost use Rattle.tw_rows.specs.Cells.{datum_kind};
ghost use Rattle.tw_rows.specs.declared.edge.Edge.{Edge};
ghost use Rattle.edge_history.specs.Order.{failing, is_below, is_from, rank, Rises};
ghost use Rattle.edge_history.specs.Opens.{singles_of, singles};
ghost use Rattle.sweep_sides.specs.Waiting.{queued, AreTimed};
ghost use Rattle.snapshot_agg.specs.Changing.{GainTogether, StayTogether, TakeTogether};

use crate::queue::Queue;
use edge_history::in_order;
use edge_stream::Cursor;
use std::alloc::Global;
use tw_rows::{Edge, Memory, Time};

// Whether a time comes before the other.
fn is_due(sync: Time, to: Time) -> bool
    ensures { IsTrue result ↔ (sync < to) }
{
    sync < to
}

// Puts an edge to the due ones, or to the pending ones.
fn place(due: &mut Vec<Edge>, waiting: &mut Queue, to: Time, edge: Edge) -> Result<(), Memory>
    ensures parts { OnOk result (GainTogether due.old.items (queued waiting.old)
        due.new.items (queued waiting.new) edge) }
    ensures below { OnOk result (failing (is_below to) due.old.items ≡ 0 →
        failing (is_below to) due.new.items ≡ 0) }
    ensures own { OnOk result (AreTimed waiting.old → AreTimed waiting.new) }
{
    if is_due(edge.sync, to) {
        due.push(edge)?;
        return Ok(());
    }
    waiting.put(edge)?;
    Ok(())
}

// An interval is a start and an end, which is pending even where it is due; each other edge is one of them.
fn place_singles(
    due: &mut Vec<Edge>,
    waiting: &mut Queue,
    to: Time,
    edge: Edge,
) -> Result<(), Memory>
    ensures parts { OnOk result (TakeTogether due.old.items (queued waiting.old)
        due.new.items (queued waiting.new) (singles_of edge)) }
    ensures below { OnOk result (failing (is_below to) due.old.items ≡ 0 →
        failing (is_below to) due.new.items ≡ 0) }
    ensures own { OnOk result (AreTimed waiting.old → AreTimed waiting.new) }
{
    let infinity = Time::bounds().1;
    if edge.is_end() || edge.other == infinity {
        return place(due, waiting, to, edge);
    }
    let start = Edge {
        sync: edge.sync,
        other: infinity,
        cells: edge.cells.clone()?,
    };
    let end = Edge {
        sync: edge.other,
        other: edge.sync,
        cells: edge.cells,
    };
    place(due, waiting, to, start)?;
    waiting.put(end)?;
    Ok(())
}

// The time behind a sync, or the other if that is less.
fn up_to(sync: Time, to: Time) -> Time
    ensures { result ≤ to }
{
    let after = sync.plus(1);
    if after < to {
        return after;
    }
    to
}

// Takes out what is pending and comes before a start of that sync, unless this was done for the last one, and answers for
// which it is done now.
fn pop_before(
    due: &mut Vec<Edge>,
    waiting: &mut Queue,
    to: Time,
    last: Time,
    sync: Time,
) -> Result<Time, Memory>
    requires own { AreTimed waiting.old }
    ensures parts { OnOk result (StayTogether due.old.items (queued waiting.old)
        due.new.items (queued waiting.new)) }
    ensures below { OnOk result (failing (is_below to) due.old.items ≡ 0 →
        failing (is_below to) due.new.items ≡ 0) }
    ensures own { OnOk result (AreTimed waiting.new) }
{
    if sync <= last {
        return Ok(last);
    }
    let below = up_to(sync, to);
    waiting.pop_all(below, due)?;
    Ok(sync)
}

// Whether the edge may stand behind another in a list: by its sync, and at one sync the ends first.
fn comes_behind(edge: &Edge, last: &Edge) -> bool
    ensures { result ≡ true → rank last.now ≤ rank edge.now }
{
    if edge.sync != last.sync {
        return last.sync < edge.sync;
    }
    if last.is_end() {
        return true;
    }
    !edge.is_end()
}

// Whether the edges are in order. That their times are real is known.
fn are_in_order(due: &[Edge]) -> bool
    ensures { result ≡ true → Rises 0 due.now }
{
    for i in 1..due.len() {
        if !comes_behind(&due[i], &due[i - 1]) {
            return false;
        }
    }
    true
}

// Puts the edges in order. They mostly are.
fn put_in_order(due: &mut Vec<Edge>) -> Result<(), Memory>
    ensures same { OnOk result (SameBag due.old.items due.new.items) }
    ensures order { OnOk result (Rises 0 due.new.items) }
{
    if are_in_order(due.as_slice()) {
        return Ok(());
    }
    in_order(due)?;
    Ok(())
}

// Takes in the starts and the ends of the edges that are left, about so many, and takes out what comes below a time, in order.
pub(crate) fn take_due(
    alloc: Global,
    waiting: &mut Queue,
    cursor: &mut Cursor,
    count: usize,
    to: Time,
) -> Result<Vec<Edge>, Memory>
    requires own { AreTimed waiting.old }
    ensures parts { IfOk result (λ due. (w : Edge → ℕ) →
        total w due.items + total w (queued waiting.new)
        ≡ total w (queued waiting.old) + total w (singles cursor.old.edges)) }
    ensures below { IfOk result (λ due. failing (is_below to) due.items ≡ 0) }
    ensures later { OnOk result (failing (is_from to) (queued waiting.new) ≡ 0) }
    ensures order { IfOk result (λ due. Rises 0 due.items) }
    ensures own { OnOk result (AreTimed waiting.new) }
    ensures cells { OnOk result (
        All (λ e. map datum_kind e.cells ≡ cursor.old.kinds) cursor.old.edges) }
{
    let mut last = Time::bounds().0;
    // Most new edges are intervals, which are two edges each.
    let mut due = Vec::with_capacity(alloc, count.saturating_mul(2))?;
    while let Some(edge) = cursor.next()? {
        let passed = pop_before(&mut due, waiting, to, last, edge.sync)?;
        place_singles(&mut due, waiting, to, edge)?;
        last = passed;
    }
    waiting.pop_all(to, &mut due)?;
    put_in_order(&mut due)?;
    Ok(due)
}
