// The edges of one instant in a queue: those of different rows are moved one by one, and others are counted by row.
ghost use Rattle.std.specs.Prelude.{◌≡◌, ◌↔◌, ◌<◌, ◌≤◌, ◌+◌, ◌*◌, ◌++◌, ℕ, suc, IsTrue, length, drop, flat_map, OnOk};
ghost use Rattle.std.specs.List.{list_all};
ghost use Rattle.tw_rows.specs.Bag.{total};
ghost use Rattle.tw_rows.specs.Instant.{inf};
ghost use Rattle.tw_rows.specs.declared.edge.Edge.{Edge as Told};
ghost use Rattle.tw_rows.specs.SameCells.{same_cells as same};
ghost use Rattle.edge_history.specs.Order.{is_end};
ghost use Rattle.edge_history.specs.Opens.{bare, ended_of, started_of};
ghost use Rattle.sweep_laws.specs.Queues.{Cells as Row, queue_told, queue_after};
ghost use Rattle.sweep_laws.specs.Sweeps.{InOrder};
ghost use Rattle.synopsis.specs.Kept.{EachIsOpen, ends_of, starts_of, rows_of};
ghost use Rattle.synopsis.specs.Holding.{since_of, AreMovedBy, TellEdges, AreEarly, may_follow, AreApart, moves_of, MovesOnce};

use crate::held::{Held, end_one, start_one};
use crate::instant::tell_instant;
use std::alloc::Global;
use tw_rows::{Cells, Edge, Memory, Time, same_cells};

// How many edges are few: they are compared with each other.
const FEW: usize = 8;

// Whether an edge may stand behind another.
fn follows(one: &Edge, other: &Edge) -> bool
    ensures { result ≡ may_follow one.now other.now }
{
    if !one.is_end() && other.is_end() {
        return false;
    }
    !same_cells(&one.cells, &other.cells)
}

// Whether all these edges may stand behind another.
fn all_follow(one: &Edge, edges: &[Edge]) -> bool
    ensures { result ≡ list_all (may_follow one.now) edges.now }
{
    for edge in edges {
        if !follows(one, edge) {
            return false;
        }
    }
    true
}

// The edges behind so many.
fn rest(edges: &[Edge], done: usize) -> &[Edge]
    requires { done ≤ length edges.now }
    ensures { result.now ≡ drop done edges.now }
{
    &edges[done..]
}

// Whether the edges are of different rows, and their ends stand first.
fn are_apart(edges: &[Edge]) -> bool
    ensures { IsTrue result ↔ AreApart edges.now }
{
    for i in 0..edges.len() {
        if !all_follow(&edges[i], rest(edges, i + 1)) {
            return false;
        }
    }
    true
}

/// Whether the edges are few, of different rows, and their ends stand first. More are not compared with each other.
pub fn is_few_apart(edges: &[Edge]) -> bool
    ensures { IsTrue result ↔ ((length edges.now ≤ 8) × AreApart edges.now) }
{
    if edges.len() > FEW {
        return false;
    }
    are_apart(edges)
}

// Puts the row of an edge last: to those that were lost, where it ends, and else to those that were won.
fn push_row(lost: &mut Vec<Cells>, won: &mut Vec<Cells>, edge: &Edge) -> Result<(), Memory>
    ensures lost { OnOk result (lost.new.items ≡ lost.old.items ++ bare (ended_of edge.now)) }
    ensures won { OnOk result (won.new.items ≡ won.old.items ++ bare (started_of edge.now)) }
{
    let cells = edge.cells.clone()?;
    if edge.is_end() {
        lost.push(cells)?;
        return Ok(());
    }
    won.push(cells)?;
    Ok(())
}

// Ends or starts the row of an edge.
fn move_one(
    held: &mut Held,
    answer: &mut Vec<Edge>,
    alloc: Global,
    at: Time,
    edge: &Edge,
) -> Result<(), Memory>
    ensures moved { OnOk result (MovesOnce at edge.now held.old held.new answer.old.items
        answer.new.items) }
    ensures filled { EachIsOpen held.old.starts → EachIsOpen held.new.starts }
{
    if edge.is_end() {
        end_one(held, answer, at, &edge.cells)?;
        return Ok(());
    }
    start_one(held, answer, alloc, at, &edge.cells)?;
    Ok(())
}

// Ends and starts the rows of edges that are apart.
fn move_apart(
    held: &mut Held,
    answer: &mut Vec<Edge>,
    alloc: Global,
    at: Time,
    now: &[Edge],
) -> Result<(), Memory>
    ensures since { OnOk result (AreApart now.now → (c : Row) →
        since_of held.new c ≡ queue_after at (ends_of (moves_of now.now))
        (starts_of (moves_of now.now)) (since_of held.old) c) }
    ensures told { OnOk result (AreApart now.now → (w : Told → ℕ) →
        total w answer.new.items ≡ total w answer.old.items + total w
        (flat_map (queue_told at (ends_of (moves_of now.now)) (starts_of (moves_of now.now))
        (since_of held.old)) (rows_of (moves_of now.now)))) }
    ensures order { OnOk result (AreApart now.now → at < inf → AreEarly at (since_of held.old) →
        InOrder (2 * at) answer.old.items → InOrder (suc (2 * at)) answer.new.items) }
    ensures filled { EachIsOpen held.old.starts → EachIsOpen held.new.starts }
{
    for edge in now {
        move_one(held, answer, alloc, at, edge)?;
    }
    Ok(())
}

// The same of any edges: an end and a start of one row show nothing.
fn move_together(
    held: &mut Held,
    answer: &mut Vec<Edge>,
    alloc: Global,
    at: Time,
    now: &[Edge],
) -> Result<(), Memory>
    ensures since { OnOk result (AreMovedBy at now.now held.old held.new) }
    ensures tells { OnOk result (
        TellEdges at now.now held.old answer.old.items answer.new.items) }
    ensures filled { EachIsOpen held.old.starts → EachIsOpen held.new.starts }
{
    let mut lost = Vec::new(alloc);
    let mut won = Vec::new(alloc);
    for edge in now {
        push_row(&mut lost, &mut won, edge)?;
    }
    tell_instant(held, answer, alloc, at, lost.as_slice(), won.as_slice())?;
    Ok(())
}

/// Ends the rows of the end edges of an instant and starts those of the others, and emits the difference.
pub(crate) fn tell_edges(
    held: &mut Held,
    answer: &mut Vec<Edge>,
    alloc: Global,
    at: Time,
    now: &[Edge],
) -> Result<(), Memory>
    ensures since { OnOk result (AreMovedBy at now.now held.old held.new) }
    ensures tells { OnOk result (
        TellEdges at now.now held.old answer.old.items answer.new.items) }
    ensures filled { EachIsOpen held.old.starts → EachIsOpen held.new.starts }
{
    // Edges of different rows need no counts.
    if is_few_apart(now) {
        move_apart(held, answer, alloc, at, now)?;
        return Ok(());
    }
    move_together(held, answer, alloc, at, now)?;
    Ok(())
}
