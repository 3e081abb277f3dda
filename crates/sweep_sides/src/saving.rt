// What is kept of a side, as saved entries and back.
ghost use Rattle.std.specs.Prelude.{◌≡◌, ◌+◌, ◌-◌, ◌^◌, ◌++◌, nat_eq, nat_lt, nat_le, map, length, min, IfOk, OnOk};
ghost use Rattle.std.specs.List.{list_all};
ghost use Rattle.tw_rows.specs.Bag.{SameBag};
ghost use Rattle.tw_rows.specs.Instant.{inf};
ghost use Rattle.tw_rows.specs.Kinds.{cell_kind_of};
ghost use Rattle.edge_history.specs.Order.{is_end as ends, is_real};
ghost use Rattle.edge_history.specs.Opens.{is_start};
ghost use Rattle.edge_stream.specs.Entries.{entries_of, part_of, saved_edge};
ghost use Rattle.sweep_laws.specs.Saving.{store_all, starts_of, rows_of, is_row_start, may_wait, are_row_starts, may_all_wait};
ghost use Rattle.sweep_sides.specs.Waiting.{queued, AreTimed};

use crate::waiting::put_edge;
use edge_stream::{Saved, SavedEntry, edges_of_part, is_stored_as, save_edges};
use end_queue::EndQueue;
use std::alloc::Global;
use synopsis::Synopsis;
use tw_rows::{Edge, HeldRow, Kind, Memory, Time};

/// How many rows are kept of a side and edges are pending, or the greatest number that there is room for.
pub fn kept_count(rows: &Synopsis, waiting: &EndQueue) -> u64
    ensures { result ≡ min (length rows.now.rows + length waiting.now) (2 ^ 64 - 1) }
{
    (rows.len() as u64).saturating_add(waiting.len() as u64)
}

/// Adds the starts of the rows as entries of that part.
pub fn save_block(saved: &mut Saved, part: u64, rows: &[HeldRow]) -> Result<(), Memory>
    ensures { OnOk result (saved.new ≡ saved.old ++ entries_of part (starts_of rows.now)) }
{
    for row in rows {
        saved.push_cells(part, row.start, Time::bounds().1, &row.cells)?;
    }
    Ok(())
}

/// Adds the rows as entries of that part, each as its start.
pub fn save_rows(saved: &mut Saved, part: u64, rows: &Synopsis) -> Result<(), Memory>
    ensures { OnOk result (saved.new ≡ saved.old ++ entries_of part (starts_of rows.now.rows)) }
{
    for k in 0..rows.block_count() {
        save_block(saved, part, rows.block(k))?;
    }
    Ok(())
}

/// Adds the pending edges as entries of that part.
pub fn save_waiting(
    alloc: Global,
    saved: &mut Saved,
    part: u64,
    waiting: &EndQueue,
) -> Result<(), Memory>
    ensures { OnOk result (saved.new ≡ saved.old ++ entries_of part (queued waiting.now)) }
{
    let edges = waiting.edges(alloc)?;
    save_edges(saved, part, &edges)?;
    Ok(())
}

// Whether columns of these kinds store the cells of the entry.
fn stores(entry: &SavedEntry, kinds: &[Kind]) -> bool
    ensures { result ≡ store_all (map cell_kind_of kinds.now) entry.now.cells }
{
    is_stored_as(entry.cells.items(), kinds)
}

// Whether the entry has no end yet.
fn is_open(entry: &SavedEntry) -> bool
    ensures { result ≡ nat_eq entry.now.other inf }
{
    entry.other == Time::bounds().1
}

// Whether the entry names an end before its time.
fn is_end(entry: &SavedEntry) -> bool
    ensures { result ≡ ends (saved_edge entry.now) }
{
    entry.other < entry.sync
}

fn comes_before(entry: &SavedEntry, to: Time) -> bool
    ensures { result ≡ nat_lt entry.now.sync to }
{
    entry.sync < to
}

fn comes_from(entry: &SavedEntry, from: Time) -> bool
    ensures { result ≡ nat_le from entry.now.sync }
{
    from <= entry.sync
}

// Whether the entry is the start of a row with such cells that began before the time.
fn starts_row(entry: &SavedEntry, kinds: &[Kind], to: Time) -> bool
    ensures { result ≡ is_row_start (map cell_kind_of kinds.now) to (saved_edge entry.now) }
{
    if !is_open(entry) {
        return false;
    }
    if !comes_before(entry, to) {
        return false;
    }
    stores(entry, kinds)
}

/// Whether the entries of that part are rows: starts before the time, of such cells.
pub fn are_rows(saved: &Saved, part: u64, kinds: &[Kind], to: Time) -> bool
    ensures { result ≡ are_row_starts (map cell_kind_of kinds.now) to (part_of part saved.now) }
{
    let entries = saved.entries();
    for entry in entries {
        if entry.part == part && !starts_row(entry, kinds, to) {
            return false;
        }
    }
    true
}

fn is_at_most_infinity(time: Time) -> bool
    ensures { result ≡ nat_le time inf }
{
    time <= Time::bounds().1
}

// Whether the times of an entry are real.
fn has_real_times(entry: &SavedEntry) -> bool
    ensures { result ≡ is_real (saved_edge entry.now) }
{
    if !comes_before(entry, Time::bounds().1) {
        return false;
    }
    if !is_at_most_infinity(entry.other) {
        return false;
    }
    entry.other != entry.sync
}

// Whether the entry may be pending from the time on, with such cells.
fn waits(entry: &SavedEntry, kinds: &[Kind], from: Time) -> bool
    ensures { result ≡ may_wait (map cell_kind_of kinds.now) from (saved_edge entry.now) }
{
    if !has_real_times(entry) {
        return false;
    }
    if !is_end(entry) && !is_open(entry) {
        return false;
    }
    if !comes_from(entry, from) {
        return false;
    }
    stores(entry, kinds)
}

/// Whether the entries of that part can be pending: each is a start or an end of such cells, at the time or later.
pub fn can_wait(saved: &Saved, part: u64, kinds: &[Kind], from: Time) -> bool
    ensures { result ≡ may_all_wait (map cell_kind_of kinds.now) from (part_of part saved.now) }
{
    let entries = saved.entries();
    for entry in entries {
        if entry.part == part && !waits(entry, kinds, from) {
            return false;
        }
    }
    true
}

/// Whether the entries of that part are starts.
pub fn are_starts(saved: &Saved, part: u64) -> bool
    ensures { result ≡ list_all is_start (part_of part saved.now) }
{
    let entries = saved.entries();
    for entry in entries {
        if entry.part == part && is_end(entry) {
            return false;
        }
    }
    true
}

// The rows that the edges start.
fn rows_started(alloc: Global, key: &[usize], edges: &[Edge]) -> Result<Synopsis, Memory>
    ensures key { IfOk result (λ rows. rows.key ≡ key.now) }
    ensures rows { IfOk result (λ rows. SameBag rows.rows (rows_of edges.now)) }
{
    let mut rows = Synopsis::new(alloc, key)?;
    for edge in edges {
        rows.add(edge.cells.clone()?, edge.sync)?;
    }
    Ok(rows)
}

/// The rows of that part, with these key columns.
pub fn load_rows(alloc: Global, saved: &Saved, part: u64, key: &[usize]) -> Result<Synopsis, Memory>
    ensures key { IfOk result (λ rows. rows.key ≡ key.now) }
    ensures rows { IfOk result (λ rows. SameBag rows.rows (rows_of (part_of part saved.now))) }
{
    let edges = edges_of_part(alloc, saved, part)?;
    rows_started(alloc, key, &edges)
}

// A queue of the edges, each due at its sync.
fn queue_of(alloc: Global, edges: &[Edge]) -> Result<EndQueue, Memory>
    ensures edges { IfOk result (λ queue. SameBag (queued queue) edges.now) }
    ensures timed { IfOk result AreTimed }
{
    let mut queue = EndQueue::new(alloc);
    for edge in edges {
        put_edge(&mut queue, edge.clone()?)?;
    }
    Ok(queue)
}

/// The edges of that part, pending again.
pub fn load_waiting(alloc: Global, saved: &Saved, part: u64) -> Result<EndQueue, Memory>
    ensures edges { IfOk result (λ queue. SameBag (queued queue) (part_of part saved.now)) }
    ensures timed { IfOk result AreTimed }
{
    let edges = edges_of_part(alloc, saved, part)?;
    queue_of(alloc, &edges)
}
