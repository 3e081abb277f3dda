// The rows that an instant touches, with how often each ends and starts there.
ghost use Rattle.std.specs.Prelude.{◌≡◌, ◌↔◌, ℕ, ◌+◌, Bool, List, [], ◌∷◌, ◌++◌, length, IsTrue, IfOk, OnOk};
ghost use Rattle.tw_rows.specs.declared.cells.Datum.{Datum};
ghost use Rattle.edge_history.specs.Opens.{ended_of, started_of};
ghost use Rattle.edge_history.specs.Order.{failing};
ghost use Rattle.plan_laws.specs.Places.{AreDistinct};
ghost use Rattle.egress.specs.Kept.{KeepCells};
ghost use Rattle.egress.specs.Gathering.{with_counts, CountsEnds, CountsStarts, TouchesRow, AddsCells, AreEndsOf, AreStartsOf, AreRowsOf};

use std::alloc::Global;
use tw_rows::{Cells, Edge, Memory, same_cells};

// How often a row ends and starts at one instant, and its cells.
#[derive(Drop)]
pub struct Moves {
    pub cells: Cells,
    pub ends: usize,
    pub starts: usize,
}

// The counts alone.
#[derive(Clone, Copy, Debug, PartialEq, Eq)]
pub(crate) struct Counts {
    pub(crate) ends: usize,
    pub(crate) starts: usize,
}

// The counts of one edge: an end, or a start.
pub(crate) fn counts_of(edge: &Edge) -> Counts
    ensures ends { result.ends ≡ length (ended_of edge.now) }
    ensures starts { result.starts ≡ length (started_of edge.now) }
{
    if edge.is_end() {
        Counts { ends: 1, starts: 0 }
    } else {
        Counts { ends: 0, starts: 1 }
    }
}

// The moves, and so many more of the same row. A count that has no room is out of memory.
fn more_moves(moves: Moves, counts: Counts) -> Result<Moves, Memory>
    ensures cells { IfOk result (λ m. m.cells ≡ moves.cells) }
    ensures ends { IfOk result (λ m. m.ends ≡ moves.ends + counts.ends) }
    ensures starts { IfOk result (λ m. m.starts ≡ moves.starts + counts.starts) }
{
    let ends = moves.ends.checked_add(counts.ends).ok_or(Memory)?;
    let starts = moves.starts.checked_add(counts.starts).ok_or(Memory)?;
    Ok(Moves {
        cells: moves.cells,
        ends,
        starts,
    })
}

// Adds the moves of a row.
fn push_moves(touched: &mut Vec<Moves>, edge: &Edge, counts: Counts) -> Result<(), Memory>
    ensures { OnOk result (touched.new.items ≡ touched.old.items
        ++ with_counts edge.now counts.ends counts.starts ∷ []) }
{
    let cells = edge.cells.clone()?;
    touched.push(Moves {
        cells,
        ends: counts.ends,
        starts: counts.starts,
    })?;
    Ok(())
}

// Whether there are moves, and the last are of the row of these cells.
fn is_last(touched: &[Moves], cells: &Cells) -> bool
    ensures some { IsTrue result → touched.now ≡ [] → ⊥ }
    ensures same { (rest : List Moves) (last : Moves) → touched.now ≡ rest ++ last ∷ [] →
        IsTrue result ↔ (last.cells ≡ cells.now) }
{
    let Some(last) = touched.last() else {
        return false;
    };
    same_cells(&last.cells, cells)
}

// Counts an end of the row of an end edge, and a start of that of any other, with the last row where it is the same.
fn count_edge(touched: &mut Vec<Moves>, edge: &Edge) -> Result<(), Memory>
    ensures ends { OnOk result ((texts : List (List ℕ)) →
        CountsEnds texts edge.now touched.old.items touched.new.items) }
    ensures starts { OnOk result ((texts : List (List ℕ)) →
        CountsStarts texts edge.now touched.old.items touched.new.items) }
    ensures rows { OnOk result ((texts : List (List ℕ)) → AreDistinct texts →
        TouchesRow texts edge.now touched.old.items touched.new.items) }
    ensures cells { OnOk result (AddsCells edge.now touched.old.items touched.new.items) }
{
    let counts = counts_of(edge);
    if !is_last(touched, &edge.cells) {
        push_moves(touched, edge, counts)?;
        return Ok(());
    }
    let Some(last) = touched.pop() else {
        return Ok(());
    };
    let more = more_moves(last, counts)?;
    touched.push(more)?;
    Ok(())
}

// What edges of one instant end and start, row by row. Edges of one row stand beside each other.
pub(crate) fn gather(alloc: Global, edges: &[Edge]) -> Result<Vec<Moves>, Memory>
    ensures ends { IfOk result (λ touched. (texts : List (List ℕ)) →
        AreEndsOf texts edges.now touched.items) }
    ensures starts { IfOk result (λ touched. (texts : List (List ℕ)) →
        AreStartsOf texts edges.now touched.items) }
    ensures rows { IfOk result (λ touched. (texts : List (List ℕ)) → AreDistinct texts →
        AreRowsOf texts edges.now touched.items) }
    ensures cells { IfOk result (λ touched. (p : List Datum → Bool) →
        failing (λ e. p e.cells) edges.now ≡ 0 → KeepCells p touched.items) }
{
    let mut touched = Vec::with_capacity(alloc, edges.len())?;
    for edge in edges {
        count_edge(&mut touched, edge)?;
    }
    Ok(touched)
}
