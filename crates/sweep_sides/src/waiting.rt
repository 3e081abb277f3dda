// Pending edges of a side: new ones are put in, and those that are due taken out.
ghost use Rattle.std.specs.Prelude.{◌≡◌, ◌+◌, ℕ, All, map, OnOk, IfOk};
ghost use Rattle.tw_rows.specs.Bag.{total};
ghost use Rattle.tw_rows.specs.Cells.{datum_kind};
ghost use Rattle.tw_rows.specs.declared.edge.Edge.{Edge};
ghost use Rattle.edge_history.specs.Order.{failing, is_below, is_from, KeepsOrder};
ghost use Rattle.edge_history.specs.Balance.{is_single as single};
ghost use Rattle.edge_history.specs.Opens.{singles, singles_of};
ghost use Rattle.edge_stream.specs.Listing.{cells_of};
ghost use Rattle.sweep_laws.specs.Changes.{TakeIn};
ghost use Rattle.sweep_laws.specs.Sweeps.{SyncsRise};
ghost use Rattle.sweep_sides.specs.Waiting.{queued, AreTimed};

use edge_stream::EdgeList;
use end_queue::EndQueue;
use std::alloc::Global;
use tw_rows::{Edge, Memory, Time};

// Whether the edge tells of a start or of an end, and not of both.
#[tactic(auto, unfolding(tw_rows::specs::Instant::inf))]
pub(crate) fn is_single(edge: &Edge) -> bool
    ensures { result ≡ single edge.now }
{
    edge.is_end() || edge.other == Time::INF
}

/// Puts an edge, which is pending until its sync is due.
pub fn put_edge(queue: &mut EndQueue, edge: Edge) -> Result<(), Memory>
    ensures put { OnOk result ((w : Edge → ℕ) →
        total w (queued queue.new) ≡ total w (queued queue.old) + w edge) }
    ensures timed { OnOk result (AreTimed queue.old → AreTimed queue.new) }
{
    queue.put(edge.sync, edge)?;
    Ok(())
}

/// Puts an edge: of an interval its start and its end, each of which is pending until its sync is due.
#[inline(never)]
pub fn put_singles(queue: &mut EndQueue, edge: Edge) -> Result<(), Memory>
    ensures put { OnOk result (TakeIn (queued queue.old) (queued queue.new) (singles_of edge)) }
    ensures timed { OnOk result (AreTimed queue.old → AreTimed queue.new) }
{
    if is_single(&edge) {
        put_edge(queue, edge)?;
        return Ok(());
    }
    let end = Edge {
        sync: edge.other,
        other: edge.sync,
        cells: edge.cells.clone()?,
    };
    let start = Edge {
        sync: edge.sync,
        other: Time::bounds().1,
        cells: edge.cells,
    };
    put_edge(queue, start)?;
    put_edge(queue, end)?;
    Ok(())
}

/// Puts the edges of a list to the pending ones, each until its sync is due.
pub fn put_all(queue: &mut EndQueue, edges: &EdgeList) -> Result<(), Memory>
    ensures put { OnOk result
        (TakeIn (queued queue.old) (queued queue.new) (singles edges.now.edges)) }
    ensures timed { OnOk result (AreTimed queue.old → AreTimed queue.new) }
    ensures order { KeepsOrder edges.now.edges }
    ensures cells { OnOk result (All (λ e. map datum_kind e.cells
        ≡ cells_of edges.now) edges.now.edges) }
{
    let mut cursor = edges.cursor();
    while let Some(edge) = cursor.next()? {
        put_singles(queue, edge)?;
    }
    Ok(())
}

/// Takes out the edges that are due before a time, in the order of their syncs.
pub fn take_due(queue: &mut EndQueue, alloc: Global, to: Time) -> Result<Vec<Edge>, Memory>
    ensures parts { IfOk result (λ due. (w : Edge → ℕ) →
        total w due.items + total w (queued queue.new) ≡ total w (queued queue.old)) }
    ensures below { IfOk result (λ due. AreTimed queue.old → failing (is_below to) due.items ≡ 0) }
    ensures order { IfOk result (λ due. AreTimed queue.old → SyncsRise 0 due.items) }
    ensures rest { OnOk result (AreTimed queue.old → failing (is_from to) (queued queue.new) ≡ 0) }
    ensures timed { OnOk result (AreTimed queue.old → AreTimed queue.new) }
{
    // Its call tells the proof that the times of the queue never fall.
    let _ = queue.len();
    let mut due = Vec::new(alloc);
    while let Some(edge) = queue.pop_due(to) {
        due.push(edge)?;
    }
    Ok(due)
}
