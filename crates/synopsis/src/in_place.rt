// The edges of one instant, made in place into those to be emitted.
ghost use Rattle.std.specs.Prelude.{◌≡◌, ◌<◌, ◌*◌, ℕ, suc, [], flat_map, OnOk};
ghost use Rattle.tw_rows.specs.Bag.{total};
ghost use Rattle.tw_rows.specs.Instant.{inf};
ghost use Rattle.tw_rows.specs.declared.edge.Edge.{Edge as Told};
ghost use Rattle.sweep_laws.specs.Queues.{Cells as Row, queue_told, queue_after};
ghost use Rattle.sweep_laws.specs.Sweeps.{InOrder};
ghost use Rattle.synopsis.specs.Kept.{EachIsOpen, ends_of, starts_of, rows_of};
ghost use Rattle.synopsis.specs.Holding.{since_of, AreMovedBy, TellEdges, AreEarly, AreApart, HaveStarts, moves_of, MovesInPlace};

use crate::held::{Held, put_start, take_start};
use std::alloc::Global;
use tw_rows::{Edge, Memory, Time};

// Ends or starts the row of an edge, and makes of it the edge to be emitted: an end names the first open start of its row.
#[tactic(auto, unfolding(tw_rows::specs::Instant::inf))]
fn move_row(held: &mut Held, alloc: Global, at: Time, edge: &mut Edge) -> Result<(), Memory>
    ensures moved { OnOk result (MovesInPlace at edge.old edge.new held.old held.new) }
    ensures filled { EachIsOpen held.old.starts → EachIsOpen held.new.starts }
{
    let ends = edge.is_end();
    edge.sync = at;
    if !ends {
        edge.other = Time::INF;
        put_start(held, alloc, at, &edge.cells)?;
        return Ok(());
    }
    let taken = take_start(held, &edge.cells)?;
    let Some(start) = taken else {
        return Ok(());
    };
    edge.other = start;
    Ok(())
}

// Does so with each of edges that are apart.
fn move_each(held: &mut Held, alloc: Global, at: Time, now: &mut [Edge]) -> Result<(), Memory>
    ensures since { OnOk result (AreApart now.old → (c : Row) →
        since_of held.new c ≡ queue_after at (ends_of (moves_of now.old))
        (starts_of (moves_of now.old)) (since_of held.old) c) }
    ensures told { OnOk result (AreApart now.old → HaveStarts (since_of held.old) now.old →
        (w : Told → ℕ) → total w now.new ≡ total w
        (flat_map (queue_told at (ends_of (moves_of now.old)) (starts_of (moves_of now.old))
        (since_of held.old)) (rows_of (moves_of now.old)))) }
    ensures order { OnOk result (AreApart now.old → HaveStarts (since_of held.old) now.old →
        at < inf → AreEarly at (since_of held.old) → InOrder (suc (2 * at)) now.new) }
    ensures filled { EachIsOpen held.old.starts → EachIsOpen held.new.starts }
{
    for i in 0..now.len() {
        move_row(held, alloc, at, &mut now[i])?;
    }
    Ok(())
}

/// Ends and starts the rows of edges that are apart, and makes of these the edges to be emitted, in order.
pub(crate) fn tell_in_place(
    held: &mut Held,
    alloc: Global,
    at: Time,
    now: &mut [Edge],
) -> Result<(), Memory>
    requires { AreApart now.old }
    ensures since { OnOk result (AreMovedBy at now.old held.old held.new) }
    ensures tells { OnOk result (TellEdges at now.old held.old [] now.new) }
    ensures filled { EachIsOpen held.old.starts → EachIsOpen held.new.starts }
{
    move_each(held, alloc, at, now)?;
    Ok(())
}
