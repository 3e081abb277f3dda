// The open starts of rows, a queue for each row.
ghost use Rattle.std.specs.Prelude.{◌≡◌, ◌<◌, ◌≤◌, ◌++◌, ◌∷◌, [], ◌+◌, ◌-◌, List, Some};
ghost use Rattle.std.specs.Prelude.{drop, cond, length, replicate, IfOk, OnOk};
ghost use Rattle.std.specs.Option.{option_to_list};
ghost use Rattle.indexmap.specs.IndexMap.{get};
ghost use Rattle.tw_rows.specs.Instant.{inf};
ghost use Rattle.tw_rows.specs.declared.cells.Datum.{Datum};
ghost use Rattle.tw_rows.specs.SameCells.{same_cells as same};
ghost use Rattle.synopsis.specs.Kept.{since_at, EachIsOpen};

use indexmap::IndexMap;
use std::alloc::Global;
use std::collections::VecDeque;
use tw_rows::{Cells, Edge, Memory, Time};

/// The open starts of each row, the first to end first.
pub type Starts = IndexMap<Cells, VecDeque<Time>>;

/// Emits a start.
#[tactic(auto, unfolding(tw_rows::specs::Instant::inf))]
pub(crate) fn push_start(answer: &mut Vec<Edge>, at: Time, cells: &Cells) -> Result<(), Memory>
    ensures { OnOk result (answer.new.items ≡ answer.old.items
        ++ record { sync = at; other = inf; cells = cells.now } ∷ []) }
{
    answer.push(Edge {
        sync: at,
        other: Time::INF,
        cells: cells.clone()?,
    })?;
    Ok(())
}

/// Emits an end.
pub(crate) fn push_end(
    answer: &mut Vec<Edge>,
    at: Time,
    start: Time,
    cells: &Cells,
) -> Result<(), Memory>
    ensures { OnOk result (answer.new.items ≡ answer.old.items
        ++ record { sync = at; other = start; cells = cells.now } ∷ []) }
{
    answer.push(Edge {
        sync: at,
        other: start,
        cells: cells.clone()?,
    })?;
    Ok(())
}

/// Puts a row back that was taken out, with the starts that are left of it.
pub fn put_back(starts: &mut Starts, cells: &Cells, since: VecDeque<Time>) -> Result<(), Memory>
    requires { 1 ≤ length since.items }
    ensures since { OnOk result ((c : List Datum) → get same starts.new c
        ≡ cond (same cells.now c) (Some since) (get same starts.old c)) }
    ensures filled { EachIsOpen starts.old → EachIsOpen starts.new }
{
    let kept = cells.clone()?;
    starts.insert(kept, since)?;
    Ok(())
}

/// Takes the first open start of a row out.
pub(crate) fn take_first(starts: &mut Starts, cells: &Cells) -> Result<Option<Time>, Memory>
    ensures first { IfOk result (λ start. since_at starts.old cells.now
        ≡ option_to_list start ++ drop 1 (since_at starts.old cells.now)) }
    ensures since { OnOk result ((c : List Datum) → since_at starts.new c
        ≡ cond (same cells.now c) (drop 1 (since_at starts.old c)) (since_at starts.old c)) }
    ensures filled { EachIsOpen starts.old → EachIsOpen starts.new }
{
    let Some(mut since) = starts.swap_remove(cells) else {
        return Ok(None);
    };
    let start = since.pop_front();
    if since.is_empty() {
        return Ok(start);
    }
    put_back(starts, cells, since)?;
    Ok(start)
}

fn open_more(since: &mut VecDeque<Time>, at: Time, count: usize) -> Result<(), Memory>
    ensures ok { OnOk result (since.new.items ≡ since.old.items ++ replicate count at) }
    ensures kept { length since.old.items ≤ length since.new.items }
{
    for _ in 0..count {
        since.push_back(at)?;
    }
    Ok(())
}

/// Opens a row so often at a time: its new starts are the last to end.
pub fn open_row(
    starts: &mut Starts,
    alloc: Global,
    cells: &Cells,
    at: Time,
    count: usize,
) -> Result<(), Memory>
    ensures since { OnOk result ((c : List Datum) → since_at starts.new c
        ≡ cond (same cells.now c) (since_at starts.old c ++ replicate count at)
        (since_at starts.old c)) }
    ensures filled { 1 ≤ count → EachIsOpen starts.old → EachIsOpen starts.new }
{
    if let Some(since) = starts.get_mut(cells) {
        open_more(since, at, count)?;
        return Ok(());
    }
    let mut since = VecDeque::new(alloc);
    open_more(&mut since, at, count)?;
    let kept = cells.clone()?;
    starts.insert(kept, since)?;
    Ok(())
}
