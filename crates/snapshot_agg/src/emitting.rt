// New edges taken in, and the changes of the groups up to a time emitted.
ghost use Rattle.std.specs.Prelude.{◌≡◌, ◌≤◌, ◌++◌, ℕ, None, Some, List, [], OnOk, IfOk, IfErr, All, map};
ghost use Rattle.tw_rows.specs.Cells.{datum_kind};
ghost use Rattle.tw_rows.specs.declared.edge.Edge.{Edge};
ghost use Rattle.edge_stream.specs.Listing.{cells_of};
ghost use Rattle.edge_history.specs.Order.{KeepsOrder};
ghost use Rattle.sweep_sides.specs.Sides.{IsSide};
ghost use Rattle.sweep_sides.specs.Waiting.{AreTimed};
ghost use Rattle.snapshot_agg.specs.Answering.{AreRunsOf};
ghost use Rattle.snapshot_agg.specs.Counting.{IsCounted, AreKept, AreEmitted, MayFollow, first_undefined, kinds_over, pending_of};
ghost use Rattle.snapshot_agg.specs.Keeping.{HasFewKeys};
ghost use Rattle.snapshot_agg.specs.Living.{AreLate, AreTold, AreRefused, to_come};
ghost use Rattle.snapshot_agg.specs.Totaled.{run_of};

use crate::groups::Groups;
use crate::intervals::live_on;
use crate::passes::Running;
use crate::queue::Queue;
use crate::sweep::sweep_due;
use crate::waiting::take_due;
use edge_stream::{Cursor, EdgeList, StepFault};
use std::alloc::Global;
use tw_rows::{Edge, Time};

// Keys are few. A call does nothing but tell a proof of this.
pub(crate) fn keys_are_few(groups: &Groups, running: &Running)
    requires counted { IsCounted groups.now }
    ensures { HasFewKeys groups.now.rows.rows.held groups.now.totals running.now }
{
    let _ = (groups.totals.len(), running.len());
}

// Gives up the totals of each key, of a step that failed.
fn give_up(groups: &mut Groups, running: &Running)
    ensures few { HasFewKeys groups.new.rows.rows.held groups.new.totals running.now }
    ensures key { groups.new.key ≡ groups.old.key }
    ensures aggs { groups.new.aggs ≡ groups.old.aggs }
{
    groups.totals.clear();
    let _ = running.len();
}

// Takes in the edges that are left, about so many, and answers what happens from a time on and before another. The ends that
// are kept with their rows are first moved to the queue.
fn emit_others(
    groups: &mut Groups,
    running: &mut Running,
    waiting: &mut Queue,
    answer: &mut Vec<Edge>,
    cursor: &mut Cursor,
    count: usize,
    from: Time,
    to: Time,
) -> Result<(), StepFault>
    requires rises { from ≤ to }
    requires counted { IsCounted groups.old }
    requires own { AreTimed waiting.old }
    ensures counted { OnOk result (IsCounted groups.new) }
    ensures told { OnOk result ((due : List Edge)
        × AreTold groups.old.key.items groups.old.aggs.items
        groups.old.rows.rows.held groups.new.rows.rows.held
        (run_of running.old) (run_of running.new)
        (to_come groups.old.rows.rows.ends waiting.old cursor.old.edges)
        (to_come groups.new.rows.rows.ends waiting.new [])
        from to answer.old.items answer.new.items due) }
    ensures refused { IfErr result (λ fault. (v : ℕ) → fault ≡ StepFault.Overflow v →
        AreLate from (to_come groups.old.rows.rows.ends waiting.old cursor.old.edges) →
        (due : List Edge) × (come : List Edge)
        × AreRefused groups.old.key.items groups.old.aggs.items groups.old.rows.rows.held
        (run_of running.old)
        (to_come groups.old.rows.rows.ends waiting.old cursor.old.edges) come from to v due) }
    ensures own { OnOk result (AreTimed waiting.new) }
    ensures cells { OnOk result (
        All (λ e. map datum_kind e.cells ≡ cursor.old.kinds) cursor.old.edges) }
    ensures key { groups.new.key ≡ groups.old.key }
    ensures aggs { groups.new.aggs ≡ groups.old.aggs }
{
    groups.settle(waiting)?;
    let mut due = take_due(groups.alloc, waiting, cursor, count, to)?;
    sweep_due(groups, running, answer, &mut due, from)?;
    Ok(())
}

// Takes in the edges, about so many, and answers what happens from a time on and before another. Rows that come as intervals
// are kept with their ends, as long as nothing else comes.
fn emit_all(
    groups: &mut Groups,
    running: &mut Running,
    waiting: &mut Queue,
    answer: &mut Vec<Edge>,
    cursor: &mut Cursor,
    count: usize,
    from: Time,
    to: Time,
) -> Result<(), StepFault>
    requires rises { from ≤ to }
    requires counted { IsCounted groups.old }
    requires own { AreTimed waiting.old }
    requires order { KeepsOrder cursor.old.edges }
    ensures counted { OnOk result (IsCounted groups.new) }
    ensures told { OnOk result ((due : List Edge)
        × AreTold groups.old.key.items groups.old.aggs.items
        groups.old.rows.rows.held groups.new.rows.rows.held
        (run_of running.old) (run_of running.new)
        (to_come groups.old.rows.rows.ends waiting.old cursor.old.edges)
        (to_come groups.new.rows.rows.ends waiting.new [])
        from to answer.old.items answer.new.items due) }
    ensures refused { IfErr result (λ fault. (v : ℕ) → fault ≡ StepFault.Overflow v →
        AreLate from (to_come groups.old.rows.rows.ends waiting.old cursor.old.edges) →
        (due : List Edge) × (come : List Edge) × (d : ℕ) × (d ≤ to)
        × AreRefused groups.old.key.items groups.old.aggs.items groups.old.rows.rows.held
        (run_of running.old)
        (to_come groups.old.rows.rows.ends waiting.old cursor.old.edges) come from d v due) }
    ensures own { OnOk result (AreTimed waiting.new) }
    ensures cells { OnOk result (
        All (λ e. map datum_kind e.cells ≡ cursor.old.kinds) cursor.old.edges) }
    ensures key { groups.new.key ≡ groups.old.key }
    ensures aggs { groups.new.aggs ≡ groups.old.aggs }
{
    let (done, whole) = live_on(groups, running, waiting, answer, cursor, from, to)?;
    if whole {
        return Ok(());
    }
    emit_others(groups, running, waiting, answer, cursor, count, done, to)?;
    Ok(())
}

// Takes in the new edges of a side that was closed up to one time and is now up to another, and answers what happens to the
// groups between the two.
pub(crate) fn emit_due(
    alloc: Global,
    groups: &mut Groups,
    running: &mut Running,
    waiting: &mut Queue,
    left: &EdgeList,
    from: Time,
    to: Time,
) -> Result<Vec<Edge>, StepFault>
    requires rises { from ≤ to }
    requires counted { IsCounted groups.old }
    requires side { IsSide (cells_of left.now) from groups.old.rows.rows.held
        (pending_of groups.old waiting.old) }
    ensures counted { OnOk result (IsCounted groups.new) }
    ensures side { OnOk result (IsSide (cells_of left.now) to groups.new.rows.rows.held
        (pending_of groups.new waiting.new)) }
    ensures cells { OnOk result (
        All (λ e. map datum_kind e.cells ≡ cells_of left.now) left.now.edges) }
    ensures so_far { IfOk result (λ answer.
        AreRunsOf (kinds_over groups.old (cells_of left.now)) from (run_of running.old) →
        AreEmitted groups.old (cells_of left.now) from to to running.new answer.items) }
    ensures kept { IfOk result (λ answer. (came out : List Edge) →
        AreKept groups.old running.old waiting.old from came out →
        MayFollow from came left.now.edges →
        AreKept groups.new running.new waiting.new to
        (came ++ left.now.edges) (out ++ answer.items)) }
    ensures defined { OnOk result ((came out : List Edge) →
        AreKept groups.old running.old waiting.old from came out →
        MayFollow from came left.now.edges →
        first_undefined groups.old (came ++ left.now.edges) to ≡ None) }
    ensures overflow { IfErr result (λ fault. (time : ℕ) → fault ≡ StepFault.Overflow time →
        (came out : List Edge) →
        AreKept groups.old running.old waiting.old from came out →
        MayFollow from came left.now.edges →
        first_undefined groups.old (came ++ left.now.edges) to ≡ Some time) }
    ensures few { HasFewKeys groups.new.rows.rows.held groups.new.totals running.new }
    ensures key { groups.new.key ≡ groups.old.key }
    ensures aggs { groups.new.aggs ≡ groups.old.aggs }
{
    keys_are_few(groups, running);
    let mut answer = Vec::new(alloc);
    let mut cursor = left.cursor();
    let count = left.len() as usize;
    match emit_all(
        groups,
        running,
        waiting,
        &mut answer,
        &mut cursor,
        count,
        from,
        to,
    ) {
        Ok(()) => {}
        Err(fault) => {
            give_up(groups, running);
            return Err(fault);
        }
    }
    keys_are_few(groups, running);
    Ok(answer)
}
