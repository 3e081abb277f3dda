// Pending starts, of a side of which no end is asked.
ghost use Rattle.std.specs.Prelude.{◌≡◌, All, map, OnOk};
ghost use Rattle.tw_rows.specs.Cells.{datum_kind};
ghost use Rattle.tw_rows.specs.declared.edge.Edge.{Edge};
ghost use Rattle.edge_history.specs.Order.{KeepsOrder};
ghost use Rattle.edge_stream.specs.Listing.{cells_of};
ghost use Rattle.sweep_sides.specs.Waiting.{queued, AreTimed};
ghost use Rattle.sweep_sides.specs.Starts.{start_in, starts_in};
ghost use Rattle.sweep_laws.specs.Changes.{TakeIn};

use crate::waiting::put_edge;
use edge_stream::EdgeList;
use end_queue::EndQueue;
use tw_rows::{Edge, Memory, Time};

// Puts the start that an edge tells of.
fn put_start(queue: &mut EndQueue, edge: Edge) -> Result<(), Memory>
    ensures put { OnOk result (TakeIn (queued queue.old) (queued queue.new) (start_in edge)) }
    ensures timed { OnOk result (AreTimed queue.old → AreTimed queue.new) }
{
    if edge.is_end() {
        return Ok(());
    }
    let start = Edge {
        sync: edge.sync,
        other: Time::bounds().1,
        cells: edge.cells,
    };
    put_edge(queue, start)?;
    Ok(())
}

/// Puts the starts that the edges of a list tell of to the pending ones, each until its sync is due. Ends are let go.
pub fn put_starts(queue: &mut EndQueue, edges: &EdgeList) -> Result<(), Memory>
    ensures put { OnOk result
        (TakeIn (queued queue.old) (queued queue.new) (starts_in edges.now.edges)) }
    ensures timed { OnOk result (AreTimed queue.old → AreTimed queue.new) }
    ensures order { KeepsOrder edges.now.edges }
    ensures cells { OnOk result (All (λ e. map datum_kind e.cells
        ≡ cells_of edges.now) edges.now.edges) }
{
    let mut cursor = edges.cursor();
    while let Some(edge) = cursor.next()? {
        put_start(queue, edge)?;
    }
    Ok(())
}
