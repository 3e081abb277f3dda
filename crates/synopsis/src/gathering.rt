// How often each row ends and starts at an instant, counted in a map.
ghost use Rattle.std.specs.Prelude.{◌≡◌, ◌+◌, ◌++◌, ◌∷◌, [], ℕ, List, cond, map, option_to_list, OnOk, IfOk, IfSome};
ghost use Rattle.tw_rows.specs.declared.cells.Datum.{Datum};
ghost use Rattle.tw_rows.specs.SameCells.{same_cells as same};
ghost use Rattle.std.specs.Option.{option_map};
ghost use Rattle.key_nodes.specs.Coalesced.{how_often};
ghost use Rattle.synopsis.specs.Kept.{ends_of, starts_of, AreOnce};
ghost use Rattle.synopsis.specs.Counted.{ends_at, starts_at, as_moves};

use crate::few_moves::few_moves;
use crate::moves::Moves;
use indexmap::IndexMap;
use std::alloc::Global;
use tw_rows::{Cells, Memory};

/// How often a row ends and starts.
#[derive(Clone, Copy, Debug, PartialEq, Eq)]
pub(crate) struct Counts {
    pub(crate) ends: usize,
    pub(crate) starts: usize,
}

type Counted = IndexMap<Cells, Counts>;

// A sum that has no room is told as out of memory.
fn sum_of(a: usize, b: usize) -> Result<usize, Memory>
    ensures { IfOk result (λ n. n ≡ a + b) }
{
    a.checked_add(b).ok_or(Memory)
}

// How often a row is counted.
fn counts_of(counted: &Counted, cells: &Cells) -> Counts
    ensures ends { result.ends ≡ ends_at counted.now cells.now }
    ensures starts { result.starts ≡ starts_at counted.now cells.now }
{
    match counted.get(cells) {
        Some(counts) => *counts,
        None => Counts { ends: 0, starts: 0 },
    }
}

// Counts a row so often.
fn count(counted: &mut Counted, cells: &Cells, more: Counts) -> Result<(), Memory>
    ensures ends { OnOk result ((c : List Datum) →
        ends_at counted.new c ≡ ends_at counted.old c + cond (same cells.now c) more.ends 0) }
    ensures starts { OnOk result ((c : List Datum) →
        starts_at counted.new c ≡ starts_at counted.old c + cond (same cells.now c) more.starts 0) }
{
    let had = counts_of(counted, cells);
    let ends = sum_of(had.ends, more.ends)?;
    let starts = sum_of(had.starts, more.starts)?;
    let kept = cells.clone()?;
    counted.insert(kept, Counts { ends, starts })?;
    Ok(())
}

// Counts an end of each row.
fn count_lost(counted: &mut Counted, rows: &[Cells]) -> Result<(), Memory>
    ensures ends { OnOk result ((c : List Datum) →
        ends_at counted.new c ≡ ends_at counted.old c + how_often same c rows.now) }
    ensures starts { OnOk result ((c : List Datum) →
        starts_at counted.new c ≡ starts_at counted.old c) }
{
    for cells in rows {
        count(counted, cells, Counts { ends: 1, starts: 0 })?;
    }
    Ok(())
}

// Counts a start of each row.
fn count_won(counted: &mut Counted, rows: &[Cells]) -> Result<(), Memory>
    ensures ends { OnOk result ((c : List Datum) → ends_at counted.new c ≡ ends_at counted.old c) }
    ensures starts { OnOk result ((c : List Datum) →
        starts_at counted.new c ≡ starts_at counted.old c + how_often same c rows.now) }
{
    for cells in rows {
        count(counted, cells, Counts { ends: 0, starts: 1 })?;
    }
    Ok(())
}

// The counts of an entry as moves.
fn push_moves(moves: &mut Vec<Moves>, entry: Option<(&Cells, &Counts)>) -> Result<(), Memory>
    ensures { OnOk result (moves.new.items ≡ moves.old.items ++ map as_moves
        (option_to_list (option_map (λ p. (p.0.now, p.1.now)) entry.entry))) }
{
    if let Some((cells, counts)) = entry {
        moves.push(Moves {
            cells: cells.clone()?,
            ends: counts.ends,
            starts: counts.starts,
        })?;
    }
    Ok(())
}

// The counts as moves.
fn moves_of(alloc: Global, counted: Counted) -> Result<Vec<Moves>, Memory>
    ensures once { IfOk result (λ moves. AreOnce moves.items) }
    ensures ends { IfOk result (λ moves. (c : List Datum) →
        ends_of moves.items c ≡ ends_at counted c) }
    ensures starts { IfOk result (λ moves. (c : List Datum) →
        starts_of moves.items c ≡ starts_at counted c) }
{
    let mut moves = Vec::new(alloc);
    for i in 0..counted.len() {
        push_moves(&mut moves, counted.get_index(i))?;
    }
    Ok(moves)
}

/// The moves of a row that moves alone, once.
pub(crate) fn lone_moves(lost: &[Cells], won: &[Cells]) -> Result<Option<Moves>, Memory>
    ensures ends { IfOk result (λ found. IfSome found
        (λ m. (c : List Datum) → ends_of (m ∷ []) c ≡ how_often same c lost.now)) }
    ensures starts { IfOk result (λ found. IfSome found
        (λ m. (c : List Datum) → starts_of (m ∷ []) c ≡ how_often same c won.now)) }
{
    if lost.is_empty() && won.len() == 1 {
        let cells = won[0].clone()?;
        return Ok(Some(Moves {
            cells,
            ends: 0,
            starts: 1,
        }));
    }
    if won.is_empty() && lost.len() == 1 {
        let cells = lost[0].clone()?;
        return Ok(Some(Moves {
            cells,
            ends: 1,
            starts: 0,
        }));
    }
    Ok(None)
}

/// How often each row that was lost or won ends and starts, each row once.
pub(crate) fn gather(alloc: Global, lost: &[Cells], won: &[Cells]) -> Result<Vec<Moves>, Memory>
    ensures once { IfOk result (λ moves. AreOnce moves.items) }
    ensures ends { IfOk result (λ moves. (c : List Datum) →
        ends_of moves.items c ≡ how_often same c lost.now) }
    ensures starts { IfOk result (λ moves. (c : List Datum) →
        starts_of moves.items c ≡ how_often same c won.now) }
{
    if let Some(moves) = few_moves(alloc, lost, won)? {
        return Ok(moves);
    }
    let mut counted = IndexMap::new(alloc);
    count_lost(&mut counted, lost)?;
    count_won(&mut counted, won)?;
    moves_of(alloc, counted)
}
