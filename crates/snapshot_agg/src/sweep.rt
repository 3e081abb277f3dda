// The sweep of a Group over the instants of what is due.
ghost use Rattle.std.specs.Prelude.{◌≡◌, ◌<◌, ◌≤◌, ℕ, suc, List, [], drop, length, OnOk, IfErr};
ghost use Rattle.tw_rows.specs.Bag.{SameBag};
ghost use Rattle.tw_rows.specs.Event.{AreEvents};
ghost use Rattle.tw_rows.specs.Instant.{inf};
ghost use Rattle.tw_rows.specs.declared.edge.Edge.{Edge};
ghost use Rattle.tw_rows.specs.declared.edge.HeldRow.{HeldRow};
ghost use Rattle.tw_rows.specs.declared.kind.CellKind.{CellKind};
ghost use Rattle.edge_history.specs.History.{CellEvent};
ghost use Rattle.edge_history.specs.Order.{failing, is_from, is_below, Rises};
ghost use Rattle.edge_history.specs.Balance.{news};
ghost use Rattle.edge_history.specs.Opens.{started_rows};
ghost use Rattle.sweep_laws.specs.Sweeps.{HeadFrom, IsDue};
ghost use Rattle.sweep_laws.specs.Changes.{TakeAtMost};
ghost use Rattle.snapshot_agg.specs.Counting.{IsCounted, AreSwept, Emits, AreDefined, IsUndefinedFirst, AreEmitted};
ghost use Rattle.snapshot_agg.specs.Answering.{is_stored};
ghost use Rattle.snapshot_agg.specs.Living.{IsApplied};

use crate::groups::Groups;
use crate::passes::{Running, apply, emit_ends, emit_starts, rows_of};
use edge_stream::StepFault;
use sweep_sides::{first_instant, rest};
use tw_rows::{Edge, Time};

// How many edges stand before the first that comes at the time or later. They have no place in the list.
fn first_from(due: &[Edge], from: Time) -> usize
    ensures within { result ≤ length due.now }
    ensures head { HeadFrom from (drop result due.now) }
    ensures none { failing (is_from from) due.now ≡ 0 → result ≡ 0 }
{
    for i in 0..due.len() {
        if from <= due[i].sync {
            return i;
        }
    }
    due.len()
}

// The end of an instant, once the rows that end have left and those that start have come: no group that was touched may be
// undefined, and then the rows that changed are emitted. Each key is looked at once, however many rows of it came and went.
pub(crate) fn tell_touched(
    groups: &Groups,
    running: &mut Running,
    answer: &mut Vec<Edge>,
    t: Time,
) -> Result<(), StepFault>
    requires counted { IsCounted groups.now }
    ensures swept { OnOk result ((now : List Edge) (rows : List HeldRow) (a : List CellEvent) →
        IsApplied groups.now now rows → t < inf → AreEvents a → SameBag now (news t (suc t) a) →
        AreSwept groups.now a t rows running.old →
        AreSwept groups.now a (suc t) groups.now.rows.rows.held running.new
        × Emits groups.now a t (suc t) answer.old.items answer.new.items) }
    ensures overflow { IfErr result (λ fault. (v : ℕ) → fault ≡ StepFault.Overflow v → (v ≡ t)
        × ((now : List Edge) (rows : List HeldRow) (a : List CellEvent) →
        IsApplied groups.now now rows → t < inf → AreEvents a → SameBag now (news t (suc t) a) →
        AreSwept groups.now a t rows running.old →
        IsUndefinedFirst groups.now a t (suc t) t)) }
    ensures so_far { OnOk result ((now : List Edge) (rows : List HeldRow)
        (left : List CellKind) (from to : ℕ) → IsApplied groups.now now rows →
        from ≤ t → t < to → to ≤ inf → failing (is_stored left) now ≡ 0 →
        AreEmitted groups.now left from t to running.old answer.old.items →
        AreEmitted groups.now left from (suc t) to running.new answer.new.items) }
{
    let keys = groups.touched.as_slice();
    let kept = rows_of(groups, keys, t)?;
    let rows = kept.as_slice();
    emit_ends(running, answer, t, keys, rows)?;
    emit_starts(running, answer, t, keys, rows)?;
    Ok(())
}

// One instant: the rows that end leave and those that start come, then no group that was touched may be undefined, and
// then the rows that changed are emitted. Only the first pass goes over the edges: each key is looked at once, however many
// rows of it came and went.
fn sweep_instant(
    groups: &mut Groups,
    running: &mut Running,
    answer: &mut Vec<Edge>,
    t: Time,
    now: &mut [Edge],
) -> Result<(), StepFault>
    requires counted { IsCounted groups.old }
    requires settled { groups.old.rows.rows.ends ≡ [] }
    ensures counted { OnOk result (IsCounted groups.new) }
    ensures settled { OnOk result (groups.new.rows.rows.ends ≡ []) }
    ensures swept { OnOk result ((a : List CellEvent) → t < inf → AreEvents a →
        SameBag now.old (news t (suc t) a) →
        AreSwept groups.old a t groups.old.rows.rows.held running.old →
        AreSwept groups.old a (suc t) groups.new.rows.rows.held running.new
        × Emits groups.old a t (suc t) answer.old.items answer.new.items) }
    ensures overflow { IfErr result (λ fault. (v : ℕ) → fault ≡ StepFault.Overflow v → (v ≡ t)
        × ((a : List CellEvent) → t < inf → AreEvents a → SameBag now.old (news t (suc t) a) →
        AreSwept groups.old a t groups.old.rows.rows.held running.old →
        IsUndefinedFirst groups.old a t (suc t) t)) }
    ensures so_far { OnOk result ((left : List CellKind) (from to : ℕ) →
        from ≤ t → t < to → to ≤ inf → failing (is_stored left) now.old ≡ 0 →
        AreEmitted groups.old left from t to running.old answer.old.items →
        AreEmitted groups.old left from (suc t) to running.new answer.new.items) }
    ensures fewer { OnOk result (TakeAtMost groups.old.rows.rows.held groups.new.rows.rows.held
        (started_rows now.old)) }
    ensures key { groups.new.key ≡ groups.old.key }
    ensures aggs { groups.new.aggs ≡ groups.old.aggs }
{
    apply(groups, now)?;
    tell_touched(groups, running, answer, t)
}

// Goes through what is due from a time on, instant by instant.
pub(crate) fn sweep_due(
    groups: &mut Groups,
    running: &mut Running,
    answer: &mut Vec<Edge>,
    due: &mut [Edge],
    from: Time,
) -> Result<(), StepFault>
    requires counted { IsCounted groups.old }
    requires settled { groups.old.rows.rows.ends ≡ [] }
    ensures counted { OnOk result (IsCounted groups.new) }
    ensures settled { OnOk result (groups.new.rows.rows.ends ≡ []) }
    ensures swept { OnOk result ((a : List CellEvent) (to : ℕ) → IsDue a from to due.old →
        AreSwept groups.old a from groups.old.rows.rows.held running.old →
        AreSwept groups.old a to groups.new.rows.rows.held running.new
        × Emits groups.old a from to answer.old.items answer.new.items
        × AreDefined groups.old a from to) }
    ensures overflow { IfErr result (λ fault. (v : ℕ) → fault ≡ StepFault.Overflow v →
        (a : List CellEvent) (to : ℕ) → IsDue a from to due.old →
        AreSwept groups.old a from groups.old.rows.rows.held running.old →
        IsUndefinedFirst groups.old a from to v) }
    ensures so_far { OnOk result ((left : List CellKind) (lo to : ℕ) → lo ≤ from → from ≤ to →
        to ≤ inf → failing (is_stored left) due.old ≡ 0 → failing (is_below to) due.old ≡ 0 →
        Rises 0 due.old → AreEmitted groups.old left lo from to running.old answer.old.items →
        AreEmitted groups.old left lo to to running.new answer.new.items) }
    ensures fewer { OnOk result (TakeAtMost groups.old.rows.rows.held groups.new.rows.rows.held
        (started_rows due.old)) }
    ensures key { groups.new.key ≡ groups.old.key }
    ensures aggs { groups.new.aggs ≡ groups.old.aggs }
{
    let mut done = first_from(due, from);
    while done < due.len() {
        let t = due[done].sync;
        let left = rest(due, done);
        let n = first_instant(left, t);
        sweep_instant(groups, running, answer, t, &mut due[done..done + n])?;
        done += n;
    }
    Ok(())
}
