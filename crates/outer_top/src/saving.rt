// What is kept of a Top, as saved entries and back.
ghost use Rattle.std.specs.Prelude.{◌≡◌, ◌≤◌, ◌-◌, ◌^◌, ◌++◌, ◌↔◌, IsTrue, true, ℕ, List, map, length, min, IfOk, OnOk};
ghost use Rattle.tw_rows.specs.Bag.{SameBag};
ghost use Rattle.tw_rows.specs.Kinds.{cell_kind_of};
ghost use Rattle.tw_rows.specs.Instant.{inf};
ghost use Rattle.tw_rows.specs.declared.cells.Datum.{Datum};
ghost use Rattle.tw_rows.specs.declared.kind.CellKind.{CellKind};
ghost use Rattle.edge_stream.specs.Entries.{entries_of, part_of};
ghost use Rattle.synopsis.specs.Queued.{queue_of};
ghost use Rattle.sweep_sides.specs.Waiting.{queued};
ghost use Rattle.sweep_sides.specs.Sides.{IsSide};
ghost use Rattle.sweep_laws.specs.Saving.{starts_of, rows_of, are_row_starts, HaveBegun};
ghost use Rattle.outer_top.specs.TopKeys.{kept_rows};
ghost use Rattle.outer_top.specs.TopEvents.{AreSettled};
ghost use Rattle.outer_top.specs.States.{TopSound};

use crate::keys::Keys;
use crate::side::TopSide;
use crate::tops::Tops;
use edge_stream::{Saved, are_of_parts, edges_of_part};
use std::alloc::Global;
use sweep_sides::{are_rows, can_wait, load_waiting};
use synopsis::RowQueues;
use tw_rows::{Edge, Kind, Memory, Time};

/// How many rows of all keys there are, or the greatest number that there is room for. It goes from group to group.
pub(crate) fn row_count(keys: &Keys) -> u64
    ensures { result ≡ min (length (kept_rows keys.now.entries)) (2 ^ 64 - 1) }
{
    let mut len: u64 = 0;
    for (_, ranked) in keys.iter() {
        len = len.saturating_add(ranked.len());
    }
    len
}

/// Adds the starts of the rows as entries of that part.
pub(crate) fn save_keys(saved: &mut Saved, part: u64, keys: &Keys) -> Result<(), Memory>
    ensures { OnOk result (saved.new ≡ saved.old ++ entries_of part
        (starts_of (kept_rows keys.now.entries))) }
{
    for (_, ranked) in keys.iter() {
        ranked.save(saved, part)?;
    }
    Ok(())
}

/// Whether saved entries can be the state of a Top whose side is closed up to a time, with columns of these kinds.
pub(crate) fn is_sound(saved: &Saved, kinds: &[Kind], to: Time) -> bool
    ensures { IsTrue result ↔ TopSound (map cell_kind_of kinds.now) to saved.now }
{
    if !are_of_parts(saved, 3) {
        return false;
    }
    if !are_rows(saved, 0, kinds, to) {
        return false;
    }
    if !can_wait(saved, 1, kinds, to) {
        return false;
    }
    are_rows(saved, 2, kinds, to)
}

// The rows that the edges start.
fn tops_of(
    alloc: Global,
    key: &[usize],
    by: usize,
    most: usize,
    starts: &[Edge],
) -> Result<Tops, Memory>
    requires { 1 ≤ most }
    ensures key { IfOk result (λ t. t.key.columns ≡ key.now) }
    ensures by { IfOk result (λ t. t.by ≡ by) }
    ensures most { IfOk result (λ t. t.most ≡ most) }
    ensures settled { IfOk result (λ t. AreSettled key.now by most t.keys.entries) }
    ensures rows { IfOk result (λ t. (kinds : List CellKind) (to : ℕ) → to ≤ inf →
        are_row_starts kinds to starts.now ≡ true →
        SameBag (kept_rows t.keys.entries) (rows_of starts.now)) }
{
    let mut tops = Tops::new(alloc, key, by, most)?;
    let mut lost = Vec::new(alloc);
    let mut won = Vec::new(alloc);
    tops.pass(starts, &mut lost, &mut won)?;
    Ok(tops)
}

/// The rows of the part 0, the edges of the part 1 as they wait, and the open starts of the part 2.
pub(crate) fn load_side(
    alloc: Global,
    key: &[usize],
    by: usize,
    most: usize,
    saved: &Saved,
) -> Result<TopSide, Memory>
    requires { 1 ≤ most }
    ensures key { IfOk result (λ s. s.tops.key.columns ≡ key.now) }
    ensures by { IfOk result (λ s. s.tops.by ≡ by) }
    ensures most { IfOk result (λ s. s.tops.most ≡ most) }
    ensures settled { IfOk result (λ s. AreSettled key.now by most s.tops.keys.entries) }
    ensures rows { IfOk result (λ s. (kinds : List CellKind) (to : ℕ) → to ≤ inf →
        TopSound kinds to saved.now → SameBag (kept_rows s.tops.keys.entries)
        (rows_of (part_of 0 saved.now))) }
    ensures waiting { IfOk result (λ s. SameBag (queued s.waiting) (part_of 1 saved.now)) }
    ensures queues { IfOk result (λ s. (c : List Datum) →
        queue_of s.queues c ≡ queue_of (rows_of (part_of 2 saved.now)) c) }
    ensures side { IfOk result (λ s. (kinds : List CellKind) (to : ℕ) → to ≤ inf →
        TopSound kinds to saved.now → IsSide kinds to (kept_rows s.tops.keys.entries) s.waiting) }
    ensures shown { IfOk result (λ s. (kinds : List CellKind) (to : ℕ) →
        TopSound kinds to saved.now → HaveBegun kinds to s.queues) }
{
    let starts = edges_of_part(alloc, saved, 0)?;
    Ok(TopSide {
        alloc,
        tops: tops_of(alloc, key, by, most, starts.as_slice())?,
        queues: RowQueues::load(alloc, saved, 2)?,
        waiting: load_waiting(alloc, saved, 1)?,
    })
}
