// What is left of a sweep over few rows: edges to come wait in the queue of their side, and its rows go to the rows by their keys.
ghost use Rattle.std.specs.Prelude.{◌≡◌, ◌≤◌, ◌+◌, ◌++◌, ◌∷◌, [], ℕ, All, map, cond, nat_eq, length, IfOk, OnOk};
ghost use Rattle.tw_rows.specs.Bag.{total};
ghost use Rattle.tw_rows.specs.Cells.{datum_kind};
ghost use Rattle.tw_rows.specs.Instant.{inf};
ghost use Rattle.tw_rows.specs.declared.edge.Edge.{Edge};
ghost use Rattle.tw_rows.specs.declared.edge.HeldRow.{HeldRow};
ghost use Rattle.edge_history.specs.Opens.{singles};
ghost use Rattle.edge_stream.specs.Entries.{entries_of};
ghost use Rattle.sweep_laws.specs.Changes.{TakeIn};
ghost use Rattle.sweep_laws.specs.Saving.{starts_of};
ghost use Rattle.sweep_sides.specs.Waiting.{queued, AreTimed};
ghost use Rattle.temporal_join.specs.Lives.{end_of, end_weight, row_of, life_rows, life_waits, wait_of};

use crate::lives::{Life, Lives};
use edge_stream::{Cursor, Saved, save_edges};
use end_queue::EndQueue;
use std::alloc::Global;
use sweep_sides::{put_edge, put_singles, save_block, save_rows, save_waiting};
use synopsis::Synopsis;
use tw_rows::{Edge, HeldRow, Memory, Time};

// Whether no end of the row is known.
#[tactic(auto, unfolding(tw_rows::specs::Instant::inf))]
fn is_open(life: &Life) -> bool
    ensures { result ≡ nat_eq life.now.edge.other inf }
{
    life.edge.other == Time::INF
}

/// Puts the edges of a list to the pending ones. The list is empty then.
pub(crate) fn put_now(queue: &mut EndQueue, now: &mut Vec<Edge>) -> Result<(), Memory>
    ensures put { OnOk result
        (TakeIn (queued queue.old) (queued queue.new) (singles now.old.items)) }
    ensures timed { OnOk result (AreTimed queue.old → AreTimed queue.new) }
{
    while let Some(edge) = now.pop() {
        put_singles(queue, edge)?;
    }
    Ok(())
}

/// Puts the edges that are to come to the pending ones.
pub(crate) fn put_rest(queue: &mut EndQueue, cursor: &mut Cursor) -> Result<(), Memory>
    ensures put { OnOk result
        (TakeIn (queued queue.old) (queued queue.new) (singles cursor.old.edges)) }
    ensures timed { OnOk result (AreTimed queue.old → AreTimed queue.new) }
    ensures cells { OnOk result (
        All (λ e. map datum_kind e.cells ≡ cursor.old.kinds) cursor.old.edges) }
{
    while let Some(edge) = cursor.next()? {
        put_singles(queue, edge)?;
    }
    Ok(())
}

// Puts the end of a row to the pending edges, if it is known.
fn put_end(queue: &mut EndQueue, life: &Life) -> Result<(), Memory>
    ensures put { OnOk result ((w : Edge → ℕ) →
        total w (queued queue.new) ≡ total w (queued queue.old) + end_weight w life.now) }
    ensures timed { OnOk result (AreTimed queue.old → AreTimed queue.new) }
{
    if is_open(life) {
        return Ok(());
    }
    let edge = &life.edge;
    let end = Edge {
        sync: edge.other,
        other: edge.sync,
        cells: edge.cells.clone()?,
    };
    put_edge(queue, end)?;
    Ok(())
}

/// Moves all rows to those by their keys, and their ends to the pending edges.
pub(crate) fn settle(
    lives: &mut Lives,
    rows: &mut Synopsis,
    queue: &mut EndQueue,
) -> Result<(), Memory>
    ensures rows { OnOk result ((w : HeldRow → ℕ) → total w rows.new.rows
        ≡ total w rows.old.rows + total (λ l. w (row_of l)) lives.old.lives) }
    ensures ends { OnOk result ((w : Edge → ℕ) → total w (queued queue.new)
        ≡ total w (queued queue.old) + total (end_weight w) lives.old.lives) }
    ensures timed { OnOk result (AreTimed queue.old → AreTimed queue.new) }
    ensures none { OnOk result (lives.new.lives ≡ []) }
    ensures key { OnOk result (rows.new.key ≡ rows.old.key) }
    ensures columns { OnOk result (lives.new.columns ≡ lives.old.columns) }
{
    while let Some(life) = lives.pop() {
        put_end(queue, &life)?;
        let edge = life.edge;
        rows.add(edge.cells, edge.sync)?;
    }
    Ok(())
}

// Copies of the rows.
fn rows_of(alloc: Global, lives: &[Life]) -> Result<Vec<HeldRow>, Memory>
    ensures { IfOk result (λ rows. rows.items ≡ life_rows lives.now) }
{
    let mut rows = Vec::new(alloc);
    for life in lives {
        let edge = &life.edge;
        rows.push(HeldRow {
            cells: edge.cells.clone()?,
            start: edge.sync,
        })?;
    }
    Ok(rows)
}

// Puts the end of a row last, if it is known.
fn push_end(ends: &mut Vec<Edge>, life: &Life) -> Result<(), Memory>
    ensures { OnOk result (ends.new.items ≡ ends.old.items ++ cond
        (nat_eq life.now.edge.other inf) [] (end_of life.now ∷ [])) }
{
    if is_open(life) {
        return Ok(());
    }
    let edge = &life.edge;
    ends.push(Edge {
        sync: edge.other,
        other: edge.sync,
        cells: edge.cells.clone()?,
    })?;
    Ok(())
}

// The ends that are known, as edges.
fn ends_of(alloc: Global, lives: &[Life]) -> Result<Vec<Edge>, Memory>
    ensures { IfOk result (λ ends. ends.items ≡ queued (life_waits lives.now)) }
{
    let mut ends = Vec::new(alloc);
    for life in lives {
        push_end(&mut ends, life)?;
    }
    Ok(ends)
}

// How many ends of the row are known: one or none.
fn count_end(life: &Life) -> usize
    ensures count { result ≡ length (wait_of life.now) }
    ensures few { result ≤ 1 }
{
    if is_open(life) { 0 } else { 1 }
}

/// How many ends are known.
pub(crate) fn count_ends(lives: &[Life]) -> usize
    ensures { result ≡ length (life_waits lives.now) }
{
    let mut count: usize = 0;
    for life in lives {
        count += count_end(life);
    }
    count
}

/// Adds the rows of a side as entries of that part, each as its start.
pub(crate) fn save_side_rows(
    alloc: Global,
    saved: &mut Saved,
    part: u64,
    rows: &Synopsis,
    lives: &Lives,
) -> Result<(), Memory>
    ensures { OnOk result (saved.new ≡ saved.old ++ entries_of part
        (starts_of (rows.now.rows ++ life_rows lives.now.lives))) }
{
    let few = rows_of(alloc, lives.lives())?;
    save_rows(saved, part, rows)?;
    save_block(saved, part, &few)?;
    Ok(())
}

/// Adds the pending edges of a side as entries of that part.
pub(crate) fn save_side_waiting(
    alloc: Global,
    saved: &mut Saved,
    part: u64,
    waiting: &EndQueue,
    lives: &Lives,
) -> Result<(), Memory>
    ensures { OnOk result (saved.new ≡ saved.old ++ entries_of part
        (queued (waiting.now ++ life_waits lives.now.lives))) }
{
    let ends = ends_of(alloc, lives.lives())?;
    save_waiting(alloc, saved, part, waiting)?;
    save_edges(saved, part, &ends)?;
    Ok(())
}
