// What an output kept, taken up from saved entries.
ghost use Rattle.std.specs.Prelude.{◌≡◌, ◌↔◌, ℕ, List, [], ◌∷◌, ◌++◌, None, nat_lt, IsTrue, IfOk, IfErr, OnOk};
ghost use Rattle.std.specs.List.Sorted.{IsNonDecreasing};
ghost use Rattle.tw_rows.specs.Instant.{inf};
ghost use Rattle.tw_rows.specs.declared.cells.Datum.{Datum as DatumOf};
ghost use Rattle.synopsis.specs.Kept.{since_at, EachIsOpen};
ghost use Rattle.egress.specs.Waiting.{waiting_in, ArePut};
ghost use Rattle.egress.specs.Saving.{starts_of, end_of, ends_of, IsKept, IsSound, MayFollow};
ghost use Rattle.egress.specs.Loading.{HasTaken};

use crate::waiting::Pending;
use edge_stream::{LoadFault, SavedEntry, is_stored_as};
use indexmap::IndexMap;
use std::alloc::Global;
use std::collections::VecDeque;
use synopsis::{Starts, open_row};
use tw_rows::{Cells, Edge, Kind, Memory, Time};

// What is kept of entries: the open starts of each row, its ends, and the edges of those that are known.
#[derive(Drop)]
pub(crate) struct Loaded {
    pub(crate) starts: Starts,
    pub(crate) ends: IndexMap<Cells, VecDeque<Time>>,
    pub(crate) waiting: Pending,
}

// Whether an output of these kinds keeps such an entry at the time.
fn is_kept(entry: &SavedEntry, kinds: &[Kind], closed: Time) -> bool
    ensures { IsTrue result ↔ IsKept kinds.now closed entry.now }
{
    let part = entry.part;
    let sync = entry.sync.word();
    let other = entry.other.word();
    let closing = closed.word();
    if part != 0 {
        return false;
    }
    if sync >= closing {
        return false;
    }
    if other < closing {
        return false;
    }
    is_stored_as(entry.cells.items(), kinds)
}

// Whether none of the times is after this one.
fn is_last(times: &VecDeque<Time>, time: Time) -> bool
    requires { IsNonDecreasing times.now.items }
    ensures { IsTrue result ↔ IsNonDecreasing (times.now.items ++ time ∷ []) }
{
    let Some(back) = times.back() else {
        return true;
    };
    let last = back.word();
    let next = time.word();
    if next < last {
        return false;
    }
    true
}

// Whether no time of the row is after this one.
fn comes_after(times: &IndexMap<Cells, VecDeque<Time>>, cells: &Cells, time: Time) -> bool
    requires { IsNonDecreasing (since_at times.now cells.now) }
    ensures { IsTrue result ↔ IsNonDecreasing (since_at times.now cells.now ++ time ∷ []) }
{
    let Some(since) = times.get(cells) else {
        return true;
    };
    is_last(since, time)
}

#[tactic(auto, unfolding(tw_rows::specs::Instant::inf))]
// Whether the time is no infinity.
fn is_instant(time: Time) -> bool
    ensures { result ≡ nat_lt time inf }
{
    time < Time::INF
}

// Puts the end of the entry, if it is known.
fn put_end(waiting: &mut Pending, entry: &SavedEntry) -> Result<(), Memory>
    ensures { OnOk result (ArePut (waiting_in waiting.old) (waiting_in waiting.new)
        (end_of entry.now)) }
{
    let known = is_instant(entry.other);
    if !known {
        return Ok(());
    }
    let cells = entry.cells.clone()?;
    let end = Edge {
        sync: entry.other,
        other: Time::ZERO,
        cells,
    };
    waiting.put(end)?;
    Ok(())
}

// Keeps what one more entry tells.
fn keep_entry(loaded: &mut Loaded, alloc: Global, entry: &SavedEntry) -> Result<(), Memory>
    ensures { OnOk result (HasTaken entry.now loaded.old loaded.new) }
{
    open_row(&mut loaded.starts, alloc, &entry.cells, entry.sync, 1)?;
    open_row(&mut loaded.ends, alloc, &entry.cells, entry.other, 1)?;
    put_end(&mut loaded.waiting, entry)?;
    Ok(())
}

// Takes up one more entry, if an output can have it after those before.
fn load_entry(
    loaded: &mut Loaded,
    alloc: Global,
    kinds: &[Kind],
    closed: Time,
    entry: &SavedEntry,
) -> Result<(), LoadFault>
    requires starts_rise { (c : List DatumOf) → IsNonDecreasing (since_at loaded.old.starts c) }
    requires ends_rise { (c : List DatumOf) → IsNonDecreasing (since_at loaded.old.ends c) }
    ensures taken { OnOk result (HasTaken entry.now loaded.old loaded.new) }
    ensures follows { OnOk result
        (MayFollow kinds.now closed loaded.old.starts loaded.old.ends entry.now) }
    ensures refused { IfErr result (λ fault. fault ≡ LoadFault.NotState →
        MayFollow kinds.now closed loaded.old.starts loaded.old.ends entry.now → ⊥) }
{
    if !is_kept(entry, kinds, closed) {
        return Err(LoadFault::NotState);
    }
    if !comes_after(&loaded.starts, &entry.cells, entry.sync) {
        return Err(LoadFault::NotState);
    }
    if !comes_after(&loaded.ends, &entry.cells, entry.other) {
        return Err(LoadFault::NotState);
    }
    keep_entry(loaded, alloc, entry)?;
    Ok(())
}

// Takes up the entries, if an output of these kinds can have them at the time.
pub(crate) fn load_entries(
    alloc: Global,
    entries: &[SavedEntry],
    kinds: &[Kind],
    closed: Time,
) -> Result<Loaded, LoadFault>
    ensures starts { IfOk result (λ loaded. (c : List DatumOf) →
        since_at loaded.starts c ≡ starts_of entries.now c) }
    ensures open { IfOk result (λ loaded. EachIsOpen loaded.starts) }
    ensures waiting { IfOk result (λ loaded.
        ArePut (λ t. None) (waiting_in loaded.waiting) (ends_of entries.now)) }
    ensures sound { OnOk result (IsSound kinds.now entries.now closed) }
    ensures refused { IfErr result (λ fault. fault ≡ LoadFault.NotState →
        IsSound kinds.now entries.now closed → ⊥) }
{
    // Its call tells the proof that it is a time.
    let _ = closed.word();
    let starts = IndexMap::new(alloc);
    let ends = IndexMap::new(alloc);
    let waiting = Pending::new(alloc);
    let mut loaded = Loaded {
        starts,
        ends,
        waiting,
    };
    for entry in entries {
        load_entry(&mut loaded, alloc, kinds, closed, entry)?;
    }
    Ok(loaded)
}
