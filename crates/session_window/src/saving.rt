// What is kept of sessions, as saved entries and back.
ghost use Rattle.std.specs.Prelude.{◌≡◌, ◌↔◌, IsTrue, ◌+◌, ◌++◌, List, map, IfOk, OnOk};
ghost use Rattle.tw_rows.specs.Bag.{SameBag};
ghost use Rattle.tw_rows.specs.Kinds.{cell_kind_of};
ghost use Rattle.tw_rows.specs.declared.edge.HeldRow.{HeldRow};
ghost use Rattle.tw_rows.specs.declared.kind.CellKind.{CellKind};
ghost use Rattle.edge_history.specs.Order.{failing};
ghost use Rattle.edge_history.specs.Opens.{is_start};
ghost use Rattle.edge_stream.specs.Entries.{entries_of, part_of};
ghost use Rattle.sweep_sides.specs.Waiting.{queued};
ghost use Rattle.sweep_sides.specs.Sides.{IsSide};
ghost use Rattle.sweep_laws.specs.Changes.{TakeIn};
ghost use Rattle.sweep_laws.specs.Saving.{starts_of, rows_of};
ghost use Rattle.session_window.specs.Kept.{HasOne, is_placed_at};
ghost use Rattle.session_window.specs.Sessions.{IsLike};
ghost use Rattle.session_window.specs.States.{SessionSound};

use crate::open_rows::OpenRows;
use crate::session::no_side;
use crate::sessions::Sessions;
use crate::side::SessionSide;
use edge_stream::{Saved, are_of_parts};
use std::alloc::Global;
use sweep_sides::{are_rows, are_starts, can_wait, load_rows, load_waiting, save_block};
use synopsis::Synopsis;
use tw_rows::{HeldRow, Kind, Memory, Time};

/// Adds the rows as entries of that part, each as its start.
pub(crate) fn save_open(saved: &mut Saved, part: u64, rows: &OpenRows) -> Result<(), Memory>
    ensures { OnOk result (saved.new ≡ saved.old ++ entries_of part (starts_of rows.now.rows)) }
{
    for k in 0..rows.block_count() {
        save_block(saved, part, rows.block(k))?;
    }
    Ok(())
}

// Puts in rows; the end of the session of each key that comes with them is looked at then.
fn put_block(sessions: &mut Sessions, rows: &[HeldRow], at: Time) -> Result<(), Memory>
    ensures rows { OnOk result (TakeIn sessions.old.rows.rows sessions.new.rows.rows rows.now) }
    ensures one { OnOk result
        (HasOne sessions.old.rows.key sessions.old.rows.rows sessions.old.ends →
        HasOne sessions.old.rows.key sessions.new.rows.rows sessions.new.ends) }
    ensures at { OnOk result (failing (is_placed_at at) sessions.old.ends ≡ 0 →
        failing (is_placed_at at) sessions.new.ends ≡ 0) }
    ensures like { IsLike sessions.old sessions.new }
{
    for row in rows {
        sessions.put_in(row.cells.clone()?, row.start, at)?;
    }
    Ok(())
}

fn put_rows(sessions: &mut Sessions, rows: &Synopsis, at: Time) -> Result<(), Memory>
    ensures rows { OnOk result
        (TakeIn sessions.old.rows.rows sessions.new.rows.rows rows.now.rows) }
    ensures one { OnOk result
        (HasOne sessions.old.rows.key sessions.old.rows.rows sessions.old.ends →
        HasOne sessions.old.rows.key sessions.new.rows.rows sessions.new.ends) }
    ensures at { OnOk result (failing (is_placed_at at) sessions.old.ends ≡ 0 →
        failing (is_placed_at at) sessions.new.ends ≡ 0) }
    ensures like { IsLike sessions.old sessions.new }
{
    for k in 0..rows.block_count() {
        put_block(sessions, rows.block(k), at)?;
    }
    Ok(())
}

/// Whether saved entries can be the state of a Session whose side is closed up to a time, with columns of these kinds.
pub(crate) fn is_sound(saved: &Saved, kinds: &[Kind], to: Time) -> bool
    ensures { IsTrue result ↔ SessionSound (map cell_kind_of kinds.now) to saved.now }
{
    if !are_of_parts(saved, 2) {
        return false;
    }
    if !are_rows(saved, 0, kinds, to) {
        return false;
    }
    if !can_wait(saved, 1, kinds, to) {
        return false;
    }
    are_starts(saved, 1)
}

/// The rows of the part 0, and the starts of the part 1 as they wait, kept up to a time. The end of each session is looked at
/// at that time.
pub(crate) fn load_side(
    alloc: Global,
    timeout: u64,
    key: &[usize],
    saved: &Saved,
    to: Time,
) -> Result<SessionSide, Memory>
    ensures key { IfOk result (λ s. s.sessions.rows.key ≡ key.now) }
    ensures timeout { IfOk result (λ s. s.sessions.timeout ≡ timeout) }
    ensures rows { IfOk result (λ s. SameBag s.sessions.rows.rows (rows_of (part_of 0 saved.now))) }
    ensures waiting { IfOk result (λ s. SameBag (queued s.waiting) (part_of 1 saved.now)) }
    ensures one { IfOk result (λ s. HasOne key.now s.sessions.rows.rows s.sessions.ends) }
    ensures at { IfOk result (λ s. failing (is_placed_at to) s.sessions.ends ≡ 0) }
    ensures side { IfOk result (λ s. (kinds : List CellKind) →
        SessionSound kinds to saved.now → IsSide kinds to s.sessions.rows.rows s.waiting) }
    ensures starts { IfOk result (λ s. (kinds : List CellKind) →
        SessionSound kinds to saved.now → failing is_start (queued s.waiting) ≡ 0) }
{
    let rows = load_rows(alloc, saved, 0, key)?;
    let waiting = load_waiting(alloc, saved, 1)?;
    let mut side = no_side(alloc, timeout, key)?;
    put_rows(&mut side.sessions, &rows, to)?;
    side.waiting = waiting;
    Ok(side)
}
