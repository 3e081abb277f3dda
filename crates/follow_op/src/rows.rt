// The left rows that wait for a right row, and the passes over the edges of an instant.
ghost use Rattle.std.specs.Prelude.{◌≡◌, ◌+◌, ◌*◌, ◌<◌, ◌≤◌, ◌++◌, ◌∷◌, [], ℕ, suc, Bool, true, cond, List, map, filter, OnOk, IfOk, IfSome, IfNone};
ghost use Rattle.tw_rows.specs.Bag.{SameBag, total};
ghost use Rattle.tw_rows.specs.Event.{AreEvents};
ghost use Rattle.tw_rows.specs.Instant.{inf, later};
ghost use Rattle.tw_rows.specs.declared.edge.Edge.{Edge as Told};
ghost use Rattle.tw_rows.specs.declared.edge.HeldRow.{HeldRow as Held};
ghost use Rattle.edge_history.specs.Order.{failing, many};
ghost use Rattle.edge_history.specs.History.{CellEvent};
ghost use Rattle.edge_history.specs.Balance.{news};
ghost use Rattle.edge_history.specs.Opens.{is_held, started_of, started_rows};
ghost use Rattle.synopsis.specs.Held.{is_of_key};
ghost use Rattle.sweep_laws.specs.Changes.{TakeIn, NoMore, TakeAtMost};
ghost use Rattle.sweep_laws.specs.Sweeps.{IsDue, InOrder};
ghost use Rattle.sweep_laws.specs.Unending.{unending};
ghost use Rattle.follow_op.specs.Followed.{follows, match_told, is_met, is_followed};
ghost use Rattle.follow_op.specs.Waits.{still_waits, StartsRise, FirstWaits, FollowHeld};
ghost use Rattle.follow_op.specs.Intervals.{TellsAhead};

use std::alloc::Global;
use std::collections::VecDeque;
use sweep_sides::{first_instant, next_instant, pair_cells, rest};
use synopsis::{HeldRow, KeyRoom, Synopsis};
use tw_rows::{Datum, Edge, Memory, Time};

/// The left rows that wait, by their key, and the same rows in the order of their starts, with some that were followed. A row
/// waits within a time from its start on.
#[derive(Drop)]
pub(crate) struct FollowRows {
    pub(crate) alloc: Global,
    pub(crate) within: u64,
    pub(crate) right_key: KeyRoom,
    pub(crate) left: Synopsis,
    pub(crate) queue: VecDeque<HeldRow>,
}

// Emits the events of left rows with a right row, from its start on until their time is over.
fn tell_rows(
    answer: &mut Vec<Edge>,
    alloc: Global,
    t: Time,
    within: u64,
    right_key: &[usize],
    right: &[Datum],
    rows: &[HeldRow],
) -> Result<(), Memory>
    ensures { OnOk result (answer.new.items
        ≡ answer.old.items ++ map (match_told right_key.now within t right.now) rows.now) }
{
    for row in rows {
        answer.push(Edge {
            sync: t,
            other: row.start.plus(within),
            cells: pair_cells(alloc, right_key, row.cells.items(), right)?,
        })?;
    }
    Ok(())
}

// Emits the events that the left rows that wait give with the right rows that start.
fn tell_matches(
    answer: &mut Vec<Edge>,
    alloc: Global,
    t: Time,
    within: u64,
    room: &mut KeyRoom,
    left: &Synopsis,
    now: &[Edge],
) -> Result<(), Memory>
    ensures told { OnOk result ((w : Told → ℕ) →
        total w answer.new.items ≡ total w answer.old.items + total
        (λ x. total (λ r. cond (is_met left.now.key room.old.columns x r)
        (w (match_told room.old.columns within t x.cells r)) 0) left.now.rows) now.now) }
    ensures order { OnOk result (failing (still_waits within t) left.now.rows ≡ 0 →
        InOrder (suc (2 * t)) answer.old.items → InOrder (suc (2 * t)) answer.new.items) }
    ensures columns { room.new.columns ≡ room.old.columns }
{
    for edge in now {
        room.write(edge.cells.items());
        tell_rows(
            answer,
            alloc,
            t,
            within,
            room.columns(),
            edge.cells.items(),
            left.rows_of(room.values()),
        )?;
    }
    Ok(())
}

// A copy of the last of the rows of a key.
fn last_of(left: &Synopsis, key: &[Datum]) -> Result<Option<HeldRow>, Memory>
    ensures some { IfOk result (λ found. IfSome found
        (λ r. (is_of_key left.now.key key.now r ≡ true)
        × (1 ≤ many (is_held r.cells r.start) left.now.rows))) }
    ensures none { IfOk result (λ found. IfNone found
        (filter (is_of_key left.now.key key.now) left.now.rows ≡ [])) }
{
    let Some(row) = left.rows_of(key).last() else {
        return Ok(None);
    };
    Ok(Some(HeldRow {
        cells: row.cells.clone()?,
        start: row.start,
    }))
}

// Takes out the rows of a key.
fn drop_key(left: &mut Synopsis, key: &[Datum]) -> Result<(), Memory>
    ensures rows { OnOk result ((w : Held → ℕ) → total w left.new.rows
        ≡ total (λ r. cond (is_of_key left.old.key key.now r) 0 (w r)) left.old.rows) }
    ensures key { left.new.key ≡ left.old.key }
{
    'rows: while let Some(row) = last_of(left, key)? {
        left.remove(row.cells.items(), row.start);
    }
    Ok(())
}

// Takes out the rows that right rows followed.
fn drop_matched(left: &mut Synopsis, room: &mut KeyRoom, now: &[Edge]) -> Result<(), Memory>
    ensures rows { OnOk result ((w : Held → ℕ) →
        total w left.new.rows ≡ total (λ r. cond
        (is_followed left.old.key room.old.columns now.now r) 0 (w r)) left.old.rows) }
    ensures key { left.new.key ≡ left.old.key }
    ensures columns { room.new.columns ≡ room.old.columns }
{
    for edge in now {
        room.write(edge.cells.items());
        drop_key(left, room.values())?;
    }
    Ok(())
}

// Puts in the row that a start edge starts.
fn start_one(left: &mut Synopsis, queue: &mut VecDeque<HeldRow>, edge: &Edge) -> Result<(), Memory>
    ensures rows { OnOk result (TakeIn left.old.rows left.new.rows (started_of edge.now)) }
    ensures queue { OnOk result (queue.new.items ≡ queue.old.items ++ started_of edge.now) }
    ensures key { left.new.key ≡ left.old.key }
{
    if edge.is_end() {
        return Ok(());
    }
    left.add(edge.cells.clone()?, edge.sync)?;
    queue.push_back(HeldRow {
        cells: edge.cells.clone()?,
        start: edge.sync,
    })?;
    Ok(())
}

// Puts in the rows that start.
fn start_rows(
    left: &mut Synopsis,
    queue: &mut VecDeque<HeldRow>,
    now: &[Edge],
) -> Result<(), Memory>
    ensures rows { OnOk result (TakeIn left.old.rows left.new.rows (started_rows now.now)) }
    ensures queue { OnOk result (queue.new.items ≡ queue.old.items ++ started_rows now.now) }
    ensures key { left.new.key ≡ left.old.key }
{
    for edge in now {
        start_one(left, queue, edge)?;
    }
    Ok(())
}

// Takes out the first row, if its time is over.
fn pop_over(queue: &mut VecDeque<HeldRow>, within: u64, t: Time) -> Option<HeldRow>
    ensures some { IfSome result (λ r. (queue.old.items ≡ r ∷ queue.new.items)
        × (later within r.start ≤ t)) }
    ensures none { IfNone result ((queue.new.items ≡ queue.old.items)
        × FirstWaits within t queue.old.items) }
{
    if t < queue.front()?.start.plus(within) {
        return None;
    }
    queue.pop_front()
}

// Takes out the rows whose time is over. A row that was followed is not there any more.
fn drop_over(left: &mut Synopsis, queue: &mut VecDeque<HeldRow>, within: u64, t: Time)
    ensures rows { (p : Held → Bool) → SameBag left.old.rows (filter p queue.old.items) →
        SameBag left.new.rows (filter p queue.new.items) }
    ensures queue { StartsRise 0 queue.old.items → StartsRise 0 queue.new.items
        × (queue.new.items ≡ filter (still_waits within t) queue.old.items) }
    ensures fewer { NoMore left.old.rows left.new.rows }
    ensures key { left.new.key ≡ left.old.key }
{
    'over: while let Some(row) = pop_over(queue, within, t) {
        let _ = left.take(row.cells.items(), row.start);
    }
}

impl FollowRows {
    ghost use Rattle.follow_op.specs.Keys.{SameKeys};

    // Goes on past one instant. The rows that start come last: a right row follows none that starts with it.
    fn pass(
        &mut self,
        answer: &mut Vec<Edge>,
        t: Time,
        now_left: &[Edge],
        now_right: &[Edge],
    ) -> Result<(), Memory>
        ensures swept { OnOk result ((a b : List CellEvent) (v : ℕ) → v ≤ t → t < inf →
            1 ≤ self.old.within → AreEvents a → AreEvents b →
            SameBag now_left.now (news t (suc t) (map unending a)) →
            SameBag now_right.now (news t (suc t) (map unending b)) →
            FollowHeld self.old.left.key self.old.right_key.columns self.old.within a b v t
            self.old.left.rows self.old.queue.items →
            FollowHeld self.old.left.key self.old.right_key.columns self.old.within a b t (suc t)
            self.new.left.rows self.new.queue.items
            × TellsAhead (follows self.old.left.key self.old.right_key.columns self.old.within a b)
            t (suc t) answer.old.items answer.new.items) }
        ensures rows { OnOk result
            (TakeAtMost self.old.left.rows self.new.left.rows (started_rows now_left.now)) }
        ensures keys { SameKeys self.old self.new }
    {
        drop_over(&mut self.left, &mut self.queue, self.within, t);
        tell_matches(
            answer,
            self.alloc,
            t,
            self.within,
            &mut self.right_key,
            &self.left,
            now_right,
        )?;
        drop_matched(&mut self.left, &mut self.right_key, now_right)?;
        start_rows(&mut self.left, &mut self.queue, now_left)?;
        Ok(())
    }

    /// Goes through the starts that are due on both sides, instant by instant, up to a time.
    pub(crate) fn sweep(
        &mut self,
        answer: &mut Vec<Edge>,
        left_due: &[Edge],
        right_due: &[Edge],
        to: Time,
    ) -> Result<(), Memory>
        ensures swept { OnOk result ((a b : List CellEvent) (from : ℕ) → 1 ≤ self.old.within →
            AreEvents a → AreEvents b → IsDue (map unending a) from to left_due.now →
            IsDue (map unending b) from to right_due.now →
            FollowHeld self.old.left.key self.old.right_key.columns self.old.within a b from from
            self.old.left.rows self.old.queue.items →
            FollowHeld self.old.left.key self.old.right_key.columns self.old.within a b to to
            self.new.left.rows self.new.queue.items
            × TellsAhead (follows self.old.left.key self.old.right_key.columns self.old.within a b)
            from to answer.old.items answer.new.items) }
        ensures rows { OnOk result
            (TakeAtMost self.old.left.rows self.new.left.rows (started_rows left_due.now)) }
        ensures keys { SameKeys self.old self.new }
    {
        let mut i = 0;
        let mut j = 0;
        while i < left_due.len() || j < right_due.len() {
            let left_rest = rest(left_due, i);
            let right_rest = rest(right_due, j);
            let t = next_instant(left_rest, right_rest);
            let n = first_instant(left_rest, t);
            let m = first_instant(right_rest, t);
            self.pass(answer, t, &left_rest[..n], &right_rest[..m])?;
            i += n;
            j += m;
        }
        // What waits no longer than up to the closing is not kept beyond it.
        drop_over(&mut self.left, &mut self.queue, self.within, to);
        Ok(())
    }
}
