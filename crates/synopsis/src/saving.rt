// Open starts as saved entries, and how many they are.
ghost use Rattle.std.specs.Prelude.{◌≡◌, ◌-◌, ◌^◌, ◌++◌, length, min, OnOk};
ghost use Rattle.edge_stream.specs.Entries.{entries_of};
ghost use Rattle.sweep_laws.specs.Queues.{held_with};
ghost use Rattle.sweep_laws.specs.Saving.{starts_of};
ghost use Rattle.synopsis.specs.Kept.{rows_in};

use crate::queues::Starts;
use edge_stream::Saved;
use std::collections::VecDeque;
use tw_rows::{Cells, Memory, Time};

fn count(since: &VecDeque<Time>) -> u64
    ensures { result ≡ length since.now.items }
{
    since.len() as u64
}

/// How many starts there are, or the greatest number where there are more.
pub(crate) fn start_count(starts: &Starts) -> u64
    ensures { result ≡ min (length (rows_in starts.now.entries)) (2 ^ 64 - 1) }
{
    let mut len: u64 = 0;
    for (_, since) in starts.iter() {
        len = len.saturating_add(count(since));
    }
    len
}

// Adds an entry of each start of a row.
fn save_queue(
    saved: &mut Saved,
    part: u64,
    cells: &Cells,
    since: &VecDeque<Time>,
) -> Result<(), Memory>
    ensures { OnOk result (saved.new ≡ saved.old ++ entries_of part
        (starts_of (held_with cells.now since.now.items))) }
{
    for i in 0..since.len() {
        saved.push_cells(part, since[i], Time::bounds().1, cells)?;
    }
    Ok(())
}

/// Adds an entry of each start, those of one row in order.
pub(crate) fn save_starts(saved: &mut Saved, part: u64, starts: &Starts) -> Result<(), Memory>
    ensures { OnOk result (saved.new ≡ saved.old ++ entries_of part
        (starts_of (rows_in starts.now.entries))) }
{
    for (cells, since) in starts.iter() {
        save_queue(saved, part, cells, since)?;
    }
    Ok(())
}
