// What an output keeps, as saved entries.
ghost use Rattle.std.specs.Prelude.{◌≡◌, ◌≤◌, ℕ, List, ◌++◌, cond, map, take, drop, IfOk, OnOk};
ghost use Rattle.std.specs.Option.{option_to_list};
ghost use Rattle.tw_rows.specs.Instant.{inf};
ghost use Rattle.tw_rows.specs.declared.cells.Datum.{Datum as DatumOf};
ghost use Rattle.synopsis.specs.Kept.{since_at};
ghost use Rattle.egress.specs.Waiting.{waiting_in};
ghost use Rattle.egress.specs.Saved.{entry_at, HasDropped, Taken, TakenRest, TakesWaiting};

use crate::waiting::Pending;
use edge_stream::Saved;
use std::collections::VecDeque;
use synopsis::Starts;
use tw_rows::{Cells, Edge, Memory, Time};

// A copy of the open starts.
pub(crate) fn copy_starts(starts: &Starts) -> Result<Starts, Memory>
    ensures { IfOk result (λ copy. (c : List DatumOf) → since_at copy c ≡ since_at starts.now c) }
{
    let copy = starts.clone()?;
    Ok(copy)
}

// Takes out the first open start of a row.
fn take_first(starts: &mut Starts, cells: &Cells) -> Option<Time>
    ensures since { HasDropped cells.now starts.old starts.new }
    ensures first { option_to_list result ≡ take 1 (since_at starts.old cells.now) }
{
    let Some(since) = starts.get_mut(cells) else {
        return None;
    };
    since.pop_front()
}

// Adds an entry of the row of an edge that ends at the time, with the first open start of the row, which is taken out.
fn save_end(saved: &mut Saved, starts: &mut Starts, edge: &Edge, at: Time) -> Result<(), Memory>
    ensures entries { OnOk result (saved.new ≡ saved.old
        ++ map (entry_at at edge.now.cells) (take 1 (since_at starts.old edge.now.cells))) }
    ensures since { OnOk result (HasDropped edge.now.cells starts.old starts.new) }
{
    let Some(sync) = take_first(starts, &edge.cells) else {
        return Ok(());
    };
    saved.push_cells(0, sync, at, &edge.cells)?;
    Ok(())
}

// Adds an entry for each of the edges, which end at the time.
fn save_ends(saved: &mut Saved, starts: &mut Starts, edges: &[Edge], at: Time) -> Result<(), Memory>
    ensures { OnOk result (Taken at edges.now saved.old saved.new (since_at starts.old)
        (since_at starts.new)) }
{
    for edge in edges {
        save_end(saved, starts, edge, at)?;
    }
    Ok(())
}

// Adds an entry for each pending edge, in the order of their instants, with the first open start of its row, which is
// taken out.
pub(crate) fn save_waiting(
    saved: &mut Saved,
    starts: &mut Starts,
    waiting: &mut Pending,
    last: Time,
) -> Result<(), Memory>
    requires { last ≡ inf }
    ensures { OnOk result (TakesWaiting starts.old (waiting_in waiting.old) saved.old saved.new
        (since_at starts.new)) }
{
    'instants: while let Some(due) = waiting.pop_due(last)? {
        save_ends(saved, starts, &due.edges, due.at)?;
    }
    Ok(())
}

// Adds an entry without an end for each of the starts of a row.
fn save_starts(
    saved: &mut Saved,
    cells: &Cells,
    since: &VecDeque<Time>,
    last: Time,
) -> Result<(), Memory>
    ensures { OnOk result (saved.new ≡ saved.old ++ map (entry_at last cells.now) since.now.items) }
{
    for i in 0..since.len() {
        saved.push_cells(0, since[i], last, cells)?;
    }
    Ok(())
}

// Adds an entry without an end for each open start, those of the row that came last first.
pub(crate) fn save_rest(saved: &mut Saved, starts: &Starts, last: Time) -> Result<(), Memory>
    requires { last ≡ inf }
    ensures { OnOk result (TakenRest saved.old saved.new (since_at starts.now)) }
{
    let mut rows = starts.iter();
    'rows: while let Some((cells, since)) = rows.next_back() {
        save_starts(saved, cells, since, last)?;
    }
    Ok(())
}
