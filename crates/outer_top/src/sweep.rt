// The passes of a Top over the edges of an instant.
ghost use Rattle.std.specs.Prelude.{◌≡◌, ◌+◌, ◌<◌, ◌≤◌, ℕ, suc, Bool, List, [], map, IfOk, OnOk};
ghost use Rattle.tw_rows.specs.Bag.{SameBag};
ghost use Rattle.tw_rows.specs.Event.{AreEvents};
ghost use Rattle.tw_rows.specs.Instant.{inf};
ghost use Rattle.tw_rows.specs.declared.cells.Datum.{Datum};
ghost use Rattle.edge_history.specs.Order.{failing, is_below};
ghost use Rattle.edge_history.specs.History.{CellEvent};
ghost use Rattle.edge_history.specs.Balance.{news};
ghost use Rattle.edge_history.specs.Opens.{started_rows};
ghost use Rattle.sweep_laws.specs.Changes.{TakeAtMost};
ghost use Rattle.sweep_laws.specs.Sweeps.{IsDue, Tells};
ghost use Rattle.outer_top.specs.TopKeys.{kept_rows};
ghost use Rattle.outer_top.specs.TopEvents.{tops as tops_of_events, AreSettled, TopHeld};
ghost use Rattle.outer_top.specs.TopLikes.{IsLike};
ghost use Rattle.outer_top.specs.Sweeping.{QueuesFit, has_begun};

use crate::tops::Tops;
use sweep_sides::{first_instant, next_instant, rest};
use synopsis::RowQueues;
use tw_rows::{Edge, Memory, Time};

// Goes on past one instant.
fn pass(
    tops: &mut Tops,
    queues: &mut RowQueues,
    answer: &mut Vec<Edge>,
    t: Time,
    now: &[Edge],
) -> Result<(), Memory>
    requires { 1 ≤ tops.old.most }
    ensures swept { OnOk result ((a : List CellEvent) → t < inf → AreEvents a →
        SameBag now.now (news t (suc t) a) → TopHeld tops.old.key.columns tops.old.by tops.old.most
        a t tops.old.keys.entries queues.old → TopHeld tops.old.key.columns tops.old.by
        tops.old.most a (suc t) tops.new.keys.entries queues.new
        × Tells (tops_of_events tops.old.key.columns tops.old.by tops.old.most a) t (suc t)
        answer.old.items answer.new.items) }
    ensures rows { OnOk result
        (TakeAtMost (kept_rows tops.old.keys.entries) (kept_rows tops.new.keys.entries)
        (started_rows now.now)) }
    ensures queues { OnOk result (QueuesFit t
        (kept_rows tops.old.keys.entries) now.now queues.old queues.new) }
    ensures settled { OnOk result
        (AreSettled tops.old.key.columns tops.old.by tops.old.most tops.old.keys.entries →
        AreSettled tops.old.key.columns tops.old.by tops.old.most tops.new.keys.entries) }
    ensures like { IsLike tops.old tops.new }
{
    let mut lost = Vec::new(tops.alloc);
    let mut won = Vec::new(tops.alloc);
    tops.pass(now, &mut lost, &mut won)?;
    queues.move_rows(answer, t, lost.as_slice(), won.as_slice())?;
    Ok(())
}

/// Goes through what is due, instant by instant.
pub(crate) fn sweep(
    tops: &mut Tops,
    queues: &mut RowQueues,
    answer: &mut Vec<Edge>,
    due: &[Edge],
) -> Result<(), Memory>
    requires { 1 ≤ tops.old.most }
    ensures swept { OnOk result ((a : List CellEvent) (from to : ℕ) → IsDue a from to due.now →
        TopHeld tops.old.key.columns tops.old.by tops.old.most a from tops.old.keys.entries
        queues.old → TopHeld tops.old.key.columns tops.old.by tops.old.most a to
        tops.new.keys.entries queues.new × Tells
        (tops_of_events tops.old.key.columns tops.old.by tops.old.most a) from to answer.old.items
        answer.new.items) }
    ensures rows { OnOk result
        (TakeAtMost (kept_rows tops.old.keys.entries) (kept_rows tops.new.keys.entries)
        (started_rows due.now)) }
    ensures queues { OnOk result ((to : ℕ) (p : List Datum → Bool) →
        failing (is_below to) due.now ≡ 0 → failing (λ x. p x.cells) due.now ≡ 0 →
        failing (λ r. p r.cells) (kept_rows tops.old.keys.entries) ≡ 0 →
        failing (has_begun to p) queues.old ≡ 0 → failing (has_begun to p) queues.new ≡ 0) }
    ensures settled { OnOk result
        (AreSettled tops.old.key.columns tops.old.by tops.old.most tops.old.keys.entries →
        AreSettled tops.old.key.columns tops.old.by tops.old.most tops.new.keys.entries) }
    ensures like { IsLike tops.old tops.new }
{
    let mut done = 0;
    while done < due.len() {
        let left = rest(due, done);
        let t = next_instant(left, &[]);
        let n = first_instant(left, t);
        pass(tops, queues, answer, t, &left[..n])?;
        done += n;
    }
    Ok(())
}
