// The pass over the edges of one instant, and those over the keys that it touched.
ghost use Rattle.std.specs.Prelude.{◌≡◌, ◌+◌, ◌*◌, ◌<◌, ◌≤◌, ◌++◌, ℕ, suc, true, false, Some, Option, List, [], ◌∷◌, map, length, IfOk, OnOk, IfErr};
ghost use Rattle.std.specs.List.{list_any};
ghost use Rattle.tw_rows.specs.Bag.{total};
ghost use Rattle.tw_rows.specs.Instant.{inf};
ghost use Rattle.tw_rows.specs.SameCells.{same_cells};
ghost use Rattle.tw_rows.specs.declared.cells.Datum.{Datum};
ghost use Rattle.tw_rows.specs.declared.edge.HeldRow.{HeldRow};
ghost use Rattle.edge_history.specs.Opens.{ended_of, started_of, ended_rows, started_rows};
ghost use Rattle.sweep_laws.specs.Sweeps.{InOrder};
ghost use Rattle.sweep_laws.specs.Moves.{HoldsEnded};
ghost use Rattle.sweep_laws.specs.Running.{end_part, start_part, kept, begun_at, has_row};
ghost use Rattle.sweep_laws.specs.Grouping.{keys_of, IsEarly};
ghost use Rattle.sweep_laws.specs.Changes.{NoMore, TakeAtMost};
ghost use Rattle.snapshot_agg.specs.Counting.{IsCounted, key_by, row_now, is_undefined_now};
ghost use Rattle.snapshot_agg.specs.Totaled.{run_of, Reruns};
ghost use Rattle.snapshot_agg.specs.Touching.{EndsOfKeys, StartsOfKeys, Touches};

use crate::groups::{Groups, KeyRow};
use edge_stream::StepFault;
use indexmap::IndexMap;
use smallvec::SmallVec;
use std::hash::BuildHasherDefault;
use std::mem;
use synopsis::WordHasher;
use tw_rows::{Cells, Edge, HeldRow, Memory, Time, same_cells};

// The emitted row of each key, and since when it goes on.
pub(crate) type Running = IndexMap<Cells, HeldRow, BuildHasherDefault<WordHasher>>;

// Takes out the row that the edge ends, or puts in the one that it starts, whose cells are moved out of it.
fn apply_one(groups: &mut Groups, edge: &mut Edge) -> Result<(), Memory>
    requires counted { IsCounted groups.old }
    requires settled { groups.old.rows.rows.ends ≡ [] }
    ensures counted { OnOk result (IsCounted groups.new) }
    ensures settled { OnOk result (groups.new.rows.rows.ends ≡ []) }
    ensures moved { OnOk result (HoldsEnded edge.old groups.old.rows.rows.held → (w : HeldRow → ℕ) →
        total w groups.new.rows.rows.held + total w (ended_of edge.old)
        ≡ total w groups.old.rows.rows.held + total w (started_of edge.old)) }
    ensures fewer { OnOk result (TakeAtMost groups.old.rows.rows.held groups.new.rows.rows.held
        (started_of edge.old)) }
    ensures touched { OnOk result (Touches groups.old.touched.items groups.new.touched.items
        (key_by groups.old edge.old.cells)) }
    ensures key { groups.new.key ≡ groups.old.key }
    ensures aggs { groups.new.aggs ≡ groups.old.aggs }
{
    if edge.is_end() {
        return groups.take(&edge.cells, edge.other);
    }
    let none = Cells::new(SmallVec::new(groups.alloc));
    let cells = mem::replace(&mut edge.cells, none);
    groups.add(cells, edge.sync)
}

// Takes out the rows that end and puts in those that start, whose cells are moved out of the edges. The keys of the edges
// are touched then, and no other. It goes from the last edge to the first, so that starts come in before ends: a key that
// has rows before and after the instant keeps its totals, and stands among the touched ones once. No row may be
// kept with its end.
pub(crate) fn apply(groups: &mut Groups, now: &mut [Edge]) -> Result<(), Memory>
    requires counted { IsCounted groups.old }
    requires settled { groups.old.rows.rows.ends ≡ [] }
    ensures counted { OnOk result (IsCounted groups.new) }
    ensures settled { OnOk result (groups.new.rows.rows.ends ≡ []) }
    ensures moved { OnOk result (NoMore groups.old.rows.rows.held (ended_rows now.old) →
        (w : HeldRow → ℕ) →
        total w groups.new.rows.rows.held + total w (ended_rows now.old)
        ≡ total w groups.old.rows.rows.held + total w (started_rows now.old)) }
    ensures fewer { OnOk result (TakeAtMost groups.old.rows.rows.held groups.new.rows.rows.held
        (started_rows now.old)) }
    ensures touched { OnOk result ((q : List Datum) →
        list_any (same_cells q) groups.new.touched.items
        ≡ list_any (same_cells q) (keys_of (key_by groups.old) now.old)) }
    ensures key { groups.new.key ≡ groups.old.key }
    ensures aggs { groups.new.aggs ≡ groups.old.aggs }
{
    groups.begin()?;
    let mut next = now.len();
    while next > 0 {
        next -= 1;
        apply_one(groups, &mut now[next])?;
    }
    Ok(())
}

// Adds a row, or that there is none.
fn push_row(rows: &mut Vec<Option<Cells>>, row: Option<Cells>) -> Result<(), Memory>
    ensures { OnOk result (rows.new.items ≡ rows.old.items ++ row ∷ []) }
{
    rows.push(row)?;
    Ok(())
}

// The row of the group of each key, if it has one. An instant at which one of the groups is undefined is refused.
pub(crate) fn rows_of(
    groups: &Groups,
    keys: &[Cells],
    t: Time,
) -> Result<Vec<Option<Cells>>, StepFault>
    requires counted { IsCounted groups.now }
    ensures rows { IfOk result (λ rows. rows.items ≡ map (row_now groups.now) keys.now) }
    ensures undefined { IfErr result (λ fault. (v : ℕ) → fault ≡ StepFault.Overflow v →
        (v ≡ t) × ((k : List Datum) × (is_undefined_now groups.now k ≡ true))) }
    ensures defined { OnOk result ((k : List Datum) → list_any (same_cells k) keys.now ≡ true →
        is_undefined_now groups.now k ≡ false) }
{
    let mut rows = Vec::new(groups.alloc);
    for key in keys {
        match groups.row_of(key)? {
            KeyRow::Undefined => return Err(StepFault::Overflow { time: t }),
            KeyRow::Row(row) => push_row(&mut rows, row)?,
        }
    }
    Ok(rows)
}

// Whether the row, if there is one, has these cells.
fn is_same(row: &Option<Cells>, cells: &Cells) -> bool
    ensures { result ≡ has_row row.now cells.now }
{
    match row {
        Some(own) => same_cells(cells, own),
        None => false,
    }
}

// Emits the end of the row of a key, if its row is another now.
fn end_key(
    running: &mut Running,
    answer: &mut Vec<Edge>,
    t: Time,
    key: &Cells,
    row: &Option<Cells>,
) -> Result<(), Memory>
    ensures pushed { OnOk result (answer.new.items ≡ answer.old.items
        ++ end_part t row.now (run_of running.old key.now)) }
    ensures run { OnOk result (Reruns running.old running.new key.now
        (kept row.now (run_of running.old key.now))) }
{
    match running.get(key) {
        None => return Ok(()),
        Some(run) => {
            if is_same(row, &run.cells) {
                return Ok(());
            }
        }
    }
    if let Some(run) = running.swap_remove(key) {
        answer.push(Edge {
            sync: t,
            other: run.start,
            cells: run.cells,
        })?;
    }
    Ok(())
}

// Keeps that the row of a key was emitted as beginning at a time.
pub(crate) fn put_run(
    running: &mut Running,
    key: &Cells,
    row: Cells,
    start: Time,
) -> Result<(), Memory>
    ensures { OnOk result (Reruns running.old running.new key.now
        (Some (record { row = row; start = start }))) }
{
    running.insert(key.clone()?, HeldRow { cells: row, start })?;
    Ok(())
}

// Emits the start of a row.
fn begin_run(
    running: &mut Running,
    answer: &mut Vec<Edge>,
    t: Time,
    key: &Cells,
    row: &Cells,
) -> Result<(), Memory>
    ensures pushed { OnOk result (answer.new.items ≡ answer.old.items
        ++ record { sync = t; other = inf; cells = row.now } ∷ []) }
    ensures run { OnOk result (Reruns running.old running.new key.now
        (Some (record { row = row.now; start = t }))) }
{
    answer.push(Edge {
        sync: t,
        other: Time::bounds().1,
        cells: row.clone()?,
    })?;
    put_run(running, key, row.clone()?, t)
}

// Emits the start of the row of a key, if none goes on.
fn start_key(
    running: &mut Running,
    answer: &mut Vec<Edge>,
    t: Time,
    key: &Cells,
    row: &Option<Cells>,
) -> Result<(), Memory>
    ensures pushed { OnOk result (answer.new.items ≡ answer.old.items
        ++ start_part t row.now (run_of running.old key.now)) }
    ensures run { OnOk result (Reruns running.old running.new key.now
        (begun_at t row.now (run_of running.old key.now))) }
{
    if running.get(key).is_some() {
        return Ok(());
    }
    match row {
        Some(row) => begin_run(running, answer, t, key, row),
        None => Ok(()),
    }
}

// Emits the ends at an instant of the rows of the keys that changed. The keys have these rows now.
pub(crate) fn emit_ends(
    running: &mut Running,
    answer: &mut Vec<Edge>,
    t: Time,
    keys: &[Cells],
    rows: &[Option<Cells>],
) -> Result<(), Memory>
    requires long { length rows.now ≡ length keys.now }
    ensures order { OnOk result ((row : List Datum → Option (List Datum)) →
        rows.now ≡ map row keys.now → ((k : List Datum) → IsEarly t (run_of running.old k)) →
        InOrder (2 * t) answer.old.items → InOrder (2 * t) answer.new.items) }
    ensures told { OnOk result ((row : List Datum → Option (List Datum)) →
        rows.now ≡ map row keys.now → EndsOfKeys t keys.now row
        (run_of running.old) (run_of running.new) answer.old.items answer.new.items) }
{
    for i in 0..keys.len() {
        end_key(running, answer, t, &keys[i], &rows[i])?;
    }
    Ok(())
}

// Emits the starts at an instant of the rows of the keys that changed.
pub(crate) fn emit_starts(
    running: &mut Running,
    answer: &mut Vec<Edge>,
    t: Time,
    keys: &[Cells],
    rows: &[Option<Cells>],
) -> Result<(), Memory>
    requires long { length rows.now ≡ length keys.now }
    ensures order { OnOk result (t < inf → InOrder (suc (2 * t)) answer.old.items →
        InOrder (suc (2 * t)) answer.new.items) }
    ensures told { OnOk result ((row : List Datum → Option (List Datum)) →
        rows.now ≡ map row keys.now → StartsOfKeys t keys.now row
        (run_of running.old) (run_of running.new) answer.old.items answer.new.items) }
{
    for i in 0..keys.len() {
        start_key(running, answer, t, &keys[i], &rows[i])?;
    }
    Ok(())
}
