// The edges that the moves of an instant give.
ghost use Rattle.std.specs.Prelude.{◌≡◌, ◌<◌, ◌++◌, ◌+◌, ◌-◌, ◌*◌, ℕ, suc, List};
ghost use Rattle.std.specs.Prelude.{drop, flat_map, replicate, OnOk};
ghost use Rattle.tw_rows.specs.Bag.{total};
ghost use Rattle.tw_rows.specs.Instant.{inf};
ghost use Rattle.tw_rows.specs.declared.cells.Datum.{Datum};
ghost use Rattle.tw_rows.specs.declared.edge.Edge.{Edge as Told};
ghost use Rattle.sweep_laws.specs.Changes.{TakeIn};
ghost use Rattle.sweep_laws.specs.Queues.{queue_ends, queue_starts, queue_told, queue_after};
ghost use Rattle.sweep_laws.specs.Sweeps.{InOrder};
ghost use Rattle.synopsis.specs.Kept.{EachIsOpen, ends_of, starts_of, rows_of, AreOnce};
ghost use Rattle.synopsis.specs.Holding.{since_of, AreEarly};

use crate::held::{Held, end_often, start_often};
use std::alloc::Global;
use tw_rows::{Cells, Edge, Memory, Time};

/// How often a row ends and starts at an instant.
#[derive(Drop)]
pub(crate) struct Moves {
    pub(crate) cells: Cells,
    pub(crate) ends: usize,
    pub(crate) starts: usize,
}

// Ends the rows that end more often than they start.
fn end_all(held: &mut Held, answer: &mut Vec<Edge>, at: Time, moves: &[Moves]) -> Result<(), Memory>
    ensures since { OnOk result (AreOnce moves.now → (c : List Datum) → since_of held.new c
        ≡ drop (ends_of moves.now c - starts_of moves.now c) (since_of held.old c)) }
    ensures told { OnOk result (AreOnce moves.now → (w : Told → ℕ) → total w answer.new.items
        ≡ total w answer.old.items + total
        (λ m. total w (queue_ends at (m.ends - m.starts) m.cells
        (since_of held.old m.cells))) moves.now) }
    ensures order { OnOk result (AreEarly at (since_of held.old) →
        InOrder (2 * at) answer.old.items → InOrder (2 * at) answer.new.items) }
    ensures filled { EachIsOpen held.old.starts → EachIsOpen held.new.starts }
{
    for moved in moves {
        end_often(
            held,
            answer,
            at,
            &moved.cells,
            moved.ends.saturating_sub(moved.starts),
        )?;
    }
    Ok(())
}

// Starts the rows that start more often than they end.
fn start_all(
    held: &mut Held,
    answer: &mut Vec<Edge>,
    alloc: Global,
    at: Time,
    moves: &[Moves],
) -> Result<(), Memory>
    ensures since { OnOk result (AreOnce moves.now → (c : List Datum) → since_of held.new c
        ≡ since_of held.old c ++ replicate (starts_of moves.now c - ends_of moves.now c) at) }
    ensures told { OnOk result ((w : Told → ℕ) → total w answer.new.items
        ≡ total w answer.old.items + total
        (λ m. total w (queue_starts at (m.starts - m.ends) m.cells)) moves.now) }
    ensures order { OnOk result (at < inf →
        InOrder (suc (2 * at)) answer.old.items → InOrder (suc (2 * at)) answer.new.items) }
    ensures filled { EachIsOpen held.old.starts → EachIsOpen held.new.starts }
{
    for moved in moves {
        start_often(
            held,
            answer,
            alloc,
            at,
            &moved.cells,
            moved.starts.saturating_sub(moved.ends),
        )?;
    }
    Ok(())
}

/// Emits what an instant shows of the rows that moved, ends first, and keeps their open starts.
pub(crate) fn tell(
    held: &mut Held,
    answer: &mut Vec<Edge>,
    alloc: Global,
    at: Time,
    moves: &[Moves],
) -> Result<(), Memory>
    ensures since { OnOk result (AreOnce moves.now → (c : List Datum) → since_of held.new c
        ≡ queue_after at (ends_of moves.now) (starts_of moves.now) (since_of held.old) c) }
    ensures told { OnOk result (AreOnce moves.now → TakeIn answer.old.items answer.new.items
        (flat_map (queue_told at (ends_of moves.now) (starts_of moves.now) (since_of held.old))
        (rows_of moves.now))) }
    ensures order { OnOk result (at < inf → AreEarly at (since_of held.old) →
        InOrder (2 * at) answer.old.items → InOrder (suc (2 * at)) answer.new.items) }
    ensures filled { EachIsOpen held.old.starts → EachIsOpen held.new.starts }
{
    end_all(held, answer, at, moves)?;
    start_all(held, answer, alloc, at, moves)
}
