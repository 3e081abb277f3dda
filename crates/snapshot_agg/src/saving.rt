// What a Group keeps, as saved entries.
ghost use Rattle.std.specs.Prelude.{◌≡◌, ◌∷◌, ◌++◌, [], map, OnOk};
ghost use Rattle.edge_stream.specs.Entries.{entry_of, entries_of};
ghost use Rattle.sweep_laws.specs.Moves.{start_of};
ghost use Rattle.sweep_laws.specs.Saving.{starts_of};
ghost use Rattle.snapshot_agg.specs.Changing.{row_since};
ghost use Rattle.snapshot_agg.specs.KeptRows.{row_ended};

use crate::passes::Running;
use edge_stream::Saved;
use std::collections::VecDeque;
use tw_rows::{Cells, Edge, HeldRow, Memory, Time};

// Adds the row of these cells that began then as an entry of that part, as its start.
fn save_start(saved: &mut Saved, part: u64, cells: &Cells, start: Time) -> Result<(), Memory>
    ensures { OnOk result (saved.new ≡ saved.old
        ++ entry_of part (start_of (row_since cells.now start)) ∷ []) }
{
    saved.push_cells(part, start, Time::bounds().1, cells)?;
    Ok(())
}

// Adds the row as an entry of that part, as its start.
fn save_row(saved: &mut Saved, part: u64, row: &HeldRow) -> Result<(), Memory>
    ensures { OnOk result (saved.new ≡ saved.old ++ entry_of part (start_of row.now) ∷ []) }
{
    save_start(saved, part, &row.cells, row.start)
}

// Adds the rows of a line as entries of that part, each as its start.
pub(crate) fn save_line(
    saved: &mut Saved,
    part: u64,
    line: &VecDeque<HeldRow>,
) -> Result<(), Memory>
    ensures { OnOk result (saved.new ≡ saved.old ++ entries_of part (starts_of line.now.items)) }
{
    for i in 0..line.len() {
        save_row(saved, part, &line[i])?;
    }
    Ok(())
}

// Adds the edges of a line as entries of that part.
pub(crate) fn save_edge_line(
    saved: &mut Saved,
    part: u64,
    line: &VecDeque<Edge>,
) -> Result<(), Memory>
    ensures { OnOk result (saved.new ≡ saved.old ++ entries_of part line.now.items) }
{
    for i in 0..line.len() {
        let edge = &line[i];
        saved.push_cells(part, edge.sync, edge.other, &edge.cells)?;
    }
    Ok(())
}

// Adds the emitted rows as entries of that part, each as its start.
pub(crate) fn save_runs(saved: &mut Saved, part: u64, running: &Running) -> Result<(), Memory>
    ensures { OnOk result (saved.new ≡ saved.old
        ++ entries_of part (map (λ e. start_of e.1) running.now.entries)) }
{
    for (_, row) in running {
        save_row(saved, part, row)?;
    }
    Ok(())
}

// Adds the rows of a line of end edges as entries of that part, each as its start.
pub(crate) fn save_lives(saved: &mut Saved, part: u64, ends: &VecDeque<Edge>) -> Result<(), Memory>
    ensures { OnOk result (saved.new ≡ saved.old
        ++ entries_of part (map (λ e. start_of (row_ended e)) ends.now.items)) }
{
    for i in 0..ends.len() {
        let end = &ends[i];
        save_start(saved, part, &end.cells, end.other)?;
    }
    Ok(())
}
