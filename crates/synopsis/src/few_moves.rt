// The moves of few rows, which are compared with each other and not hashed.
ghost use Rattle.std.specs.Prelude.{◌≡◌, ◌≤◌, ◌++◌, List, length, drop, not, IsTrue, OnOk, IfOk, IfSome};
ghost use Rattle.std.specs.List.{list_all};
ghost use Rattle.tw_rows.specs.declared.cells.Datum.{Datum};
ghost use Rattle.tw_rows.specs.SameCells.{same_cells as same};
ghost use Rattle.key_nodes.specs.Coalesced.{how_often};
ghost use Rattle.synopsis.specs.Kept.{ends_of, starts_of, AreOnce};
ghost use Rattle.synopsis.specs.Counted.{each_moves};

use crate::moves::Moves;
use std::alloc::Global;
use tw_rows::{Cells, Memory, same_cells};

// How many rows that were lost, and how many that were won, are few.
const FEW: usize = 8;

// Whether the moves are of different rows.
fn is_other(one: &Moves, moved: &Moves) -> bool
    ensures { result ≡ not (same one.now.cells moved.now.cells) }
{
    !same_cells(&one.cells, &moved.cells)
}

// Whether each move is of another row than this one.
fn are_others(one: &Moves, moves: &[Moves]) -> bool
    ensures { result ≡ list_all (λ m. not (same one.now.cells m.cells)) moves.now }
{
    for moved in moves {
        if !is_other(one, moved) {
            return false;
        }
    }
    true
}

// The moves behind so many.
fn rest(moves: &[Moves], done: usize) -> &[Moves]
    requires { done ≤ length moves.now }
    ensures { result.now ≡ drop done moves.now }
{
    &moves[done..]
}

// Whether no row stands twice.
fn are_once(moves: &[Moves]) -> bool
    ensures { IsTrue result → AreOnce moves.now }
{
    for i in 0..moves.len() {
        if !are_others(&moves[i], rest(moves, i + 1)) {
            return false;
        }
    }
    true
}

// Puts a move of each row, which ends and starts so often.
fn push_each(
    moves: &mut Vec<Moves>,
    rows: &[Cells],
    ends: usize,
    starts: usize,
) -> Result<(), Memory>
    ensures { OnOk result (moves.new.items ≡ moves.old.items ++ each_moves ends starts rows.now) }
{
    for cells in rows {
        moves.push(Moves {
            cells: cells.clone()?,
            ends,
            starts,
        })?;
    }
    Ok(())
}

/// The moves of few rows that are all different. Nothing is hashed.
pub(crate) fn few_moves(
    alloc: Global,
    lost: &[Cells],
    won: &[Cells],
) -> Result<Option<Vec<Moves>>, Memory>
    ensures once { IfOk result (λ found. IfSome found (λ moves. AreOnce moves.items)) }
    ensures ends { IfOk result (λ found. IfSome found (λ moves.
        (c : List Datum) → ends_of moves.items c ≡ how_often same c lost.now)) }
    ensures starts { IfOk result (λ found. IfSome found (λ moves.
        (c : List Datum) → starts_of moves.items c ≡ how_often same c won.now)) }
{
    if lost.len() > FEW || won.len() > FEW {
        return Ok(None);
    }
    let mut moves = Vec::new(alloc);
    push_each(&mut moves, lost, 1, 0)?;
    push_each(&mut moves, won, 0, 1)?;
    if !are_once(moves.as_slice()) {
        return Ok(None);
    }
    Ok(Some(moves))
}
