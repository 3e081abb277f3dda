// The rows that are open, few in a list and others in a map: how they end and start.
ghost use Rattle.std.specs.Prelude.{◌≡◌, ◌++◌, [], List, false, drop, cond, replicate, IsTrue, IfOk, OnOk};
ghost use Rattle.std.specs.Option.{option_to_list};
ghost use Rattle.tw_rows.specs.declared.cells.Datum.{Datum};
ghost use Rattle.tw_rows.specs.SameCells.{same_cells as same};
ghost use Rattle.sweep_laws.specs.Queues.{queue_ends, queue_starts};
ghost use Rattle.synopsis.specs.Kept.{since_at, EachIsOpen};
ghost use Rattle.synopsis.specs.Holding.{since_of};

use crate::few_rows::FewRows;
use crate::queues::{Starts, open_row, push_end, push_start, take_first};
use std::alloc::Global;
use tw_rows::{Cells, Edge, Memory, Time};

/// Rows that are open: few are found one by one, and others in a map. Of a row that stands in both the few started first.
#[derive(Drop)]
pub(crate) struct Held {
    pub(crate) few: FewRows,
    pub(crate) starts: Starts,
}

// Whether a row stands in the map.
fn is_mapped(starts: &Starts, cells: &Cells) -> bool
    ensures { result ≡ false → since_at starts.now cells.now ≡ [] }
{
    if starts.is_empty() {
        return false;
    }
    match starts.get(cells) {
        Some(_) => true,
        None => false,
    }
}

// Whether a row that starts goes to the few: there is room, and the map has none of it.
fn goes_to_few(held: &Held, cells: &Cells) -> bool
    ensures { IsTrue result → since_at held.now.starts cells.now ≡ [] }
{
    if !held.few.has_room() {
        return false;
    }
    !is_mapped(&held.starts, cells)
}

/// Takes the first open start of a row out.
pub(crate) fn take_start(held: &mut Held, cells: &Cells) -> Result<Option<Time>, Memory>
    ensures first { IfOk result (λ start. since_of held.old cells.now
        ≡ option_to_list start ++ drop 1 (since_of held.old cells.now)) }
    ensures since { OnOk result ((c : List Datum) → since_of held.new c
        ≡ cond (same cells.now c) (drop 1 (since_of held.old c)) (since_of held.old c)) }
    ensures filled { EachIsOpen held.old.starts → EachIsOpen held.new.starts }
{
    if let Some(start) = held.few.take(cells) {
        return Ok(Some(start));
    }
    let start = take_first(&mut held.starts, cells)?;
    Ok(start)
}

/// Puts a start last in the queue of a row.
pub(crate) fn put_start(
    held: &mut Held,
    alloc: Global,
    at: Time,
    cells: &Cells,
) -> Result<(), Memory>
    ensures since { OnOk result ((c : List Datum) → since_of held.new c
        ≡ cond (same cells.now c) (since_of held.old c ++ replicate 1 at) (since_of held.old c)) }
    ensures filled { EachIsOpen held.old.starts → EachIsOpen held.new.starts }
{
    if goes_to_few(held, cells) {
        held.few.push(cells, at)?;
        return Ok(());
    }
    open_row(&mut held.starts, alloc, cells, at, 1)?;
    Ok(())
}

/// Ends the first open start of a row, and emits the end.
pub(crate) fn end_one(
    held: &mut Held,
    answer: &mut Vec<Edge>,
    at: Time,
    cells: &Cells,
) -> Result<(), Memory>
    ensures since { OnOk result ((c : List Datum) → since_of held.new c
        ≡ cond (same cells.now c) (drop 1 (since_of held.old c)) (since_of held.old c)) }
    ensures told { OnOk result (answer.new.items
        ≡ answer.old.items ++ queue_ends at 1 cells.now (since_of held.old cells.now)) }
    ensures filled { EachIsOpen held.old.starts → EachIsOpen held.new.starts }
{
    let taken = take_start(held, cells)?;
    let Some(start) = taken else {
        return Ok(());
    };
    push_end(answer, at, start, cells)?;
    Ok(())
}

/// Starts a row, and emits the start.
pub(crate) fn start_one(
    held: &mut Held,
    answer: &mut Vec<Edge>,
    alloc: Global,
    at: Time,
    cells: &Cells,
) -> Result<(), Memory>
    ensures since { OnOk result ((c : List Datum) → since_of held.new c
        ≡ cond (same cells.now c) (since_of held.old c ++ replicate 1 at) (since_of held.old c)) }
    ensures told { OnOk result (answer.new.items
        ≡ answer.old.items ++ queue_starts at 1 cells.now) }
    ensures filled { EachIsOpen held.old.starts → EachIsOpen held.new.starts }
{
    push_start(answer, at, cells)?;
    put_start(held, alloc, at, cells)?;
    Ok(())
}

/// Ends a row so often.
pub(crate) fn end_often(
    held: &mut Held,
    answer: &mut Vec<Edge>,
    at: Time,
    cells: &Cells,
    count: usize,
) -> Result<(), Memory>
    ensures since { OnOk result ((c : List Datum) → since_of held.new c
        ≡ cond (same cells.now c) (drop count (since_of held.old c)) (since_of held.old c)) }
    ensures told { OnOk result (answer.new.items
        ≡ answer.old.items ++ queue_ends at count cells.now (since_of held.old cells.now)) }
    ensures filled { EachIsOpen held.old.starts → EachIsOpen held.new.starts }
{
    for _ in 0..count {
        end_one(held, answer, at, cells)?;
    }
    Ok(())
}

/// Starts a row so often.
pub(crate) fn start_often(
    held: &mut Held,
    answer: &mut Vec<Edge>,
    alloc: Global,
    at: Time,
    cells: &Cells,
    count: usize,
) -> Result<(), Memory>
    ensures since { OnOk result ((c : List Datum) →
        since_of held.new c ≡ cond (same cells.now c) (since_of held.old c ++ replicate count at)
        (since_of held.old c)) }
    ensures told { OnOk result (answer.new.items ≡ answer.old.items
        ++ queue_starts at count cells.now) }
    ensures filled { EachIsOpen held.old.starts → EachIsOpen held.new.starts }
{
    for _ in 0..count {
        start_one(held, answer, alloc, at, cells)?;
    }
    Ok(())
}
