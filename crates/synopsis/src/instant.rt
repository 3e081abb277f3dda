// One instant of coalesced events, from the rows that were lost and those that were won.
ghost use Rattle.std.specs.Prelude.{◌≡◌, ◌<◌, ◌+◌, ℕ, suc, List, OnOk};
ghost use Rattle.tw_rows.specs.Instant.{inf};
ghost use Rattle.tw_rows.specs.declared.cells.Datum.{Datum};
ghost use Rattle.tw_rows.specs.SameCells.{same_cells as same};
ghost use Rattle.key_nodes.specs.Coalesced.{how_often, coalesced};
ghost use Rattle.sweep_laws.specs.Queues.{Cells as Row, AreMoves, open_starts, queue_after};
ghost use Rattle.sweep_laws.specs.Sweeps.{Tells};
ghost use Rattle.synopsis.specs.Kept.{EachIsOpen};
ghost use Rattle.synopsis.specs.Holding.{since_of};

use crate::gathering::{gather, lone_moves};
use crate::held::Held;
use crate::moves::tell;
use std::alloc::Global;
use tw_rows::{Cells, Edge, Memory, Time};

/// Ends the rows that were lost at an instant and starts those that were won, and emits the difference.
pub(crate) fn tell_instant(
    held: &mut Held,
    answer: &mut Vec<Edge>,
    alloc: Global,
    at: Time,
    lost: &[Cells],
    won: &[Cells],
) -> Result<(), Memory>
    ensures since { OnOk result ((c : Row) →
        since_of held.new c ≡ queue_after at (λ r. how_often same r lost.now)
        (λ r. how_often same r won.now) (since_of held.old) c) }
    ensures tells { OnOk result ((f : ℕ → List Row) → at < inf →
        AreMoves same f at (λ r. how_often same r lost.now) (λ r. how_often same r won.now) →
        ((c : Row) → since_of held.old c ≡ open_starts same f c at) →
        Tells (coalesced same f) at (suc at) answer.old.items answer.new.items) }
    ensures filled { EachIsOpen held.old.starts → EachIsOpen held.new.starts }
{
    // One row alone needs no counts.
    if let Some(alone) = lone_moves(lost, won)? {
        let moves = [alone];
        tell(held, answer, alloc, at, &moves)?;
        return Ok(());
    }
    let moves = gather(alloc, lost, won)?;
    tell(held, answer, alloc, at, moves.as_slice())?;
    Ok(())
}
