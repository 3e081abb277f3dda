// The passes of a Coalesce over the edges of an instant: in place where they are few and apart, else row by row.
ghost use Rattle.std.specs.Prelude.{◌≡◌, ◌+◌, ◌<◌, ◌≤◌, ℕ, suc, [], take, drop, length, List, IfOk, OnOk};
ghost use Rattle.tw_rows.specs.Bag.{SameBag};
ghost use Rattle.tw_rows.specs.Event.{alive, AreEvents};
ghost use Rattle.tw_rows.specs.Instant.{inf};
ghost use Rattle.edge_history.specs.Order.{failing};
ghost use Rattle.edge_history.specs.History.{CellEvent};
ghost use Rattle.edge_history.specs.Balance.{news};
ghost use Rattle.edge_history.specs.Opens.{started_rows};
ghost use Rattle.synopsis.specs.Holding.{AreApart};
ghost use Rattle.synopsis.specs.Queued.{AreQueues};
ghost use Rattle.sweep_laws.specs.Changes.{TakeAtMost};
ghost use Rattle.sweep_laws.specs.Sweeps.{is_at, IsDue, Tells};
ghost use Rattle.coalesce_op.specs.Coalesces.{coalesces};
ghost use Rattle.coalesce_op.specs.Holding.{CoalesceReached};

use sweep_sides::{first_instant, next_instant, rest};
use synopsis::{RowQueues, is_few_apart};
use tw_rows::{Edge, Memory, Time};

// Goes on past one instant.
fn pass(queues: &mut RowQueues, answer: &mut Vec<Edge>, t: Time, now: &[Edge]) -> Result<(), Memory>
    ensures swept { OnOk result ((a : List CellEvent) → t < inf → AreEvents a →
        SameBag now.now (news t (suc t) a) → AreQueues (alive a) t queues.old →
        AreQueues (alive a) (suc t) queues.new × Tells (coalesces a) t (suc t) answer.old.items
        answer.new.items) }
    ensures rows { OnOk result (failing (is_at t) now.now ≡ 0 →
        TakeAtMost queues.old queues.new (started_rows now.now)) }
{
    queues.move_edges(answer, t, now)?;
    Ok(())
}

// Goes on past one instant in place.
fn pass_in_place(queues: &mut RowQueues, t: Time, now: &mut [Edge]) -> Result<(), Memory>
    requires { AreApart now.old }
    ensures swept { OnOk result ((a : List CellEvent) → t < inf → AreEvents a →
        SameBag now.old (news t (suc t) a) → AreQueues (alive a) t queues.old →
        AreQueues (alive a) (suc t) queues.new × Tells (coalesces a) t (suc t) [] now.new) }
    ensures rows { OnOk result (failing (is_at t) now.old ≡ 0 →
        TakeAtMost queues.old queues.new (started_rows now.old)) }
{
    queues.move_in_place(t, now)?;
    Ok(())
}

// Goes through what is due, instant by instant.
fn sweep(queues: &mut RowQueues, answer: &mut Vec<Edge>, due: &[Edge]) -> Result<(), Memory>
    ensures swept { OnOk result ((a : List CellEvent) (from to : ℕ) → IsDue a from to due.now →
        AreQueues (alive a) from queues.old → AreQueues (alive a) to queues.new
        × Tells (coalesces a) from to answer.old.items answer.new.items) }
    ensures rows { OnOk result (TakeAtMost queues.old queues.new (started_rows due.now)) }
{
    let mut done = 0;
    while done < due.len() {
        let left = rest(due, done);
        let t = next_instant(left, &[]);
        let n = first_instant(left, t);
        pass(queues, answer, t, &left[..n])?;
        done += n;
    }
    Ok(())
}

// Goes through what is due in place, up to an instant whose edges are many or not apart. Answers how many are done.
fn sweep_in_place(queues: &mut RowQueues, due: &mut [Edge]) -> Result<usize, Memory>
    ensures within { IfOk result (λ done. done ≤ length due.old) }
    ensures rest { IfOk result (λ done. drop done due.new ≡ drop done due.old) }
    ensures swept { IfOk result (λ done. (a : List CellEvent) (from to : ℕ) →
        IsDue a from to due.old → AreQueues (alive a) from queues.old → (u : ℕ)
        × CoalesceReached a from u to (drop done due.old) queues.new [] (take done due.new)) }
    ensures rows { IfOk result (λ done. TakeAtMost queues.old queues.new
        (started_rows (take done due.old))) }
{
    let mut done = 0;
    while done < due.len() {
        let left = rest(due, done);
        let t = next_instant(left, &[]);
        let n = first_instant(left, t);
        if !is_few_apart(&left[..n]) {
            return Ok(done);
        }
        pass_in_place(queues, t, &mut due[done..done + n])?;
        done += n;
    }
    Ok(done)
}

/// Goes through what is due, and answers the edges to be emitted. They are written over the due ones, as long as those of an
/// instant are few and apart.
pub(crate) fn tell_due(queues: &mut RowQueues, mut due: Vec<Edge>) -> Result<Vec<Edge>, Memory>
    ensures swept { IfOk result (λ told. (a : List CellEvent) (from to : ℕ) →
        IsDue a from to due.items → AreQueues (alive a) from queues.old →
        AreQueues (alive a) to queues.new × Tells (coalesces a) from to [] told.items) }
    ensures rows { OnOk result (TakeAtMost queues.old queues.new (started_rows due.items)) }
{
    let done = sweep_in_place(queues, &mut due)?;
    let left = due.split_off(done)?;
    sweep(queues, &mut due, left.as_slice())?;
    Ok(due)
}
