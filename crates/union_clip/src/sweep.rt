// The left rows of a Clip that are open, and the passes over the edges of an instant.
ghost use Rattle.std.specs.Prelude.{◌≡◌, ◌+◌, ◌<◌, ◌++◌, ℕ, suc, not, Bool, true, false, List, map, filter, OnOk};
ghost use Rattle.tw_rows.specs.Bag.{SameBag};
ghost use Rattle.tw_rows.specs.Event.{AreEvents};
ghost use Rattle.tw_rows.specs.Instant.{inf};
ghost use Rattle.tw_rows.specs.declared.edge.HeldRow.{HeldRow};
ghost use Rattle.edge_history.specs.History.{CellEvent};
ghost use Rattle.edge_history.specs.Balance.{news};
ghost use Rattle.edge_history.specs.Opens.{ended_of, started_of, ended_rows, started_rows};
ghost use Rattle.synopsis.specs.Held.{is_of_key};
ghost use Rattle.sweep_laws.specs.Changes.{TakeIn, GiveUp, NoMore, TakeAtMost};
ghost use Rattle.sweep_laws.specs.Moves.{Adds, told_at};
ghost use Rattle.sweep_laws.specs.Sweeps.{IsDue, Tells};
ghost use Rattle.sweep_laws.specs.Unending.{unending};
ghost use Rattle.union_clip.specs.Clipped.{clips};
ghost use Rattle.union_clip.specs.Leaving.{is_met, row_named, Leave, EndsHeld};
ghost use Rattle.union_clip.specs.Holding.{ClipHeld};

use std::alloc::Global;
use sweep_sides::{first_instant, next_instant, rest};
use synopsis::{HeldRow, KeyRoom, Synopsis};
use tw_rows::{Edge, Memory, Time};

/// The left rows that are open and not clipped, by their key, and room for the key of a right row.
#[derive(Drop)]
pub(crate) struct ClipRows {
    pub(crate) alloc: Global,
    pub(crate) right_key: KeyRoom,
    pub(crate) left: Synopsis,
}

// Emits the ends of rows.
fn tell_ends(answer: &mut Vec<Edge>, t: Time, rows: &[HeldRow]) -> Result<(), Memory>
    ensures { OnOk result (answer.new.items ≡ answer.old.items ++ map (told_at false t) rows.now) }
{
    for row in rows {
        answer.push(Edge {
            sync: t,
            other: row.start,
            cells: row.cells.clone()?,
        })?;
    }
    Ok(())
}

// Takes out the rows that end edges name.
fn take_out(rows: &mut Synopsis, ends: &[Edge])
    ensures taken { NoMore rows.old.rows (map row_named ends.now) →
        GiveUp rows.old.rows rows.new.rows (map row_named ends.now) }
    ensures key { rows.new.key ≡ rows.old.key }
{
    for end in ends {
        let _ = rows.take(end.cells.items(), end.other);
    }
}

impl ClipRows {
    ghost use Rattle.union_clip.specs.Keys.{SameKeys};

    // Takes out all left rows of the key that the room holds, and emits their ends.
    fn clip_key(&mut self, answer: &mut Vec<Edge>, t: Time) -> Result<(), Memory>
        ensures left { OnOk result (Leave (filter
            (is_of_key self.old.left.key self.old.right_key.values) self.old.left.rows) t
            self.old.left.rows self.new.left.rows answer.old.items answer.new.items) }
        ensures keys { SameKeys self.old self.new }
    {
        let told = answer.len();
        tell_ends(answer, t, self.left.rows_of(self.right_key.values()))?;
        take_out(&mut self.left, rest(answer.as_slice(), told));
        Ok(())
    }

    // Takes out the left rows that right starts meet, and emits their ends.
    fn clip_rows(&mut self, answer: &mut Vec<Edge>, t: Time, now: &[Edge]) -> Result<(), Memory>
        ensures left { OnOk result (Leave (filter
            (is_met self.old.left.key self.old.right_key.columns now.now) self.old.left.rows) t
            self.old.left.rows self.new.left.rows answer.old.items answer.new.items) }
        ensures keys { SameKeys self.old self.new }
    {
        for edge in now {
            self.right_key.write(edge.cells.items());
            self.clip_key(answer, t)?;
        }
        Ok(())
    }

    // Takes out the left row that an end edge ends, and emits its end. A row that was clipped is not there any more.
    fn end_one(&mut self, answer: &mut Vec<Edge>, t: Time, edge: &Edge) -> Result<(), Memory>
        ensures ended { OnOk result ((clipped : HeldRow → Bool) →
            EndsHeld clipped (ended_of edge.now) self.old.left.rows →
            Leave (filter (λ r. not (clipped r)) (ended_of edge.now)) t self.old.left.rows
            self.new.left.rows answer.old.items answer.new.items) }
        ensures fewer { OnOk result (NoMore self.old.left.rows self.new.left.rows) }
        ensures keys { SameKeys self.old self.new }
    {
        if !edge.is_end() {
            return Ok(());
        }
        if !self.left.take(edge.cells.items(), edge.other) {
            return Ok(());
        }
        answer.push(Edge {
            sync: t,
            other: edge.other,
            cells: edge.cells.clone()?,
        })?;
        Ok(())
    }

    // Takes out the left rows that end, and emits their ends.
    fn end_rows(&mut self, answer: &mut Vec<Edge>, t: Time, now: &[Edge]) -> Result<(), Memory>
        ensures ended { OnOk result ((clipped : HeldRow → Bool) →
            EndsHeld clipped (ended_rows now.now) self.old.left.rows →
            Leave (filter (λ r. not (clipped r)) (ended_rows now.now)) t self.old.left.rows
            self.new.left.rows answer.old.items answer.new.items) }
        ensures fewer { OnOk result (NoMore self.old.left.rows self.new.left.rows) }
        ensures keys { SameKeys self.old self.new }
    {
        for edge in now {
            self.end_one(answer, t, edge)?;
        }
        Ok(())
    }

    // Puts in the left row that a start edge starts, and emits its start.
    fn start_one(&mut self, answer: &mut Vec<Edge>, t: Time, edge: &Edge) -> Result<(), Memory>
        ensures started { OnOk result
            (TakeIn self.old.left.rows self.new.left.rows (started_of edge.now)) }
        ensures told { OnOk result (Adds answer.old.items answer.new.items
            (map (told_at true t) (started_of edge.now))) }
        ensures keys { SameKeys self.old self.new }
    {
        if edge.is_end() {
            return Ok(());
        }
        answer.push(Edge {
            sync: t,
            other: Time::bounds().1,
            cells: edge.cells.clone()?,
        })?;
        self.left.add(edge.cells.clone()?, edge.sync)?;
        Ok(())
    }

    // Puts in the left rows that start, and emits their starts.
    fn start_rows(&mut self, answer: &mut Vec<Edge>, t: Time, now: &[Edge]) -> Result<(), Memory>
        ensures started { OnOk result
            (TakeIn self.old.left.rows self.new.left.rows (started_rows now.now)) }
        ensures told { OnOk result (Adds answer.old.items answer.new.items
            (map (told_at true t) (started_rows now.now))) }
        ensures keys { SameKeys self.old self.new }
    {
        for edge in now {
            self.start_one(answer, t, edge)?;
        }
        Ok(())
    }

    // Goes on past one instant. The rows that right starts meet leave first, then those that end, and the rows that start come
    // last: a right start clips no row that starts with it.
    fn pass(
        &mut self,
        answer: &mut Vec<Edge>,
        t: Time,
        now_left: &[Edge],
        now_right: &[Edge],
    ) -> Result<(), Memory>
        ensures swept { OnOk result ((a b : List CellEvent) → t < inf → AreEvents a →
            SameBag now_left.now (news t (suc t) a) →
            SameBag now_right.now (news t (suc t) (map unending b)) →
            ClipHeld self.old.left.key self.old.right_key.columns a
            (map unending b) t self.old.left.rows →
            ClipHeld self.old.left.key self.old.right_key.columns a (map unending b)
            (suc t) self.new.left.rows × Tells (clips self.old.left.key self.old.right_key.columns a
            (map unending b)) t (suc t) answer.old.items answer.new.items) }
        ensures rows { OnOk result
            (TakeAtMost self.old.left.rows self.new.left.rows (started_rows now_left.now)) }
        ensures keys { SameKeys self.old self.new }
    {
        self.clip_rows(answer, t, now_right)?;
        self.end_rows(answer, t, now_left)?;
        self.start_rows(answer, t, now_left)?;
        Ok(())
    }

    /// Goes through what is due on both sides, instant by instant. Of the right side these are starts alone.
    pub(crate) fn sweep(
        &mut self,
        answer: &mut Vec<Edge>,
        left_due: &[Edge],
        right_due: &[Edge],
    ) -> Result<(), Memory>
        ensures swept { OnOk result ((a b : List CellEvent) (from to : ℕ) →
            IsDue a from to left_due.now → IsDue (map unending b) from to right_due.now →
            ClipHeld self.old.left.key self.old.right_key.columns a
            (map unending b) from self.old.left.rows →
            ClipHeld self.old.left.key self.old.right_key.columns a
            (map unending b) to self.new.left.rows × Tells
            (clips self.old.left.key self.old.right_key.columns a
            (map unending b)) from to answer.old.items answer.new.items) }
        ensures rows { OnOk result
            (TakeAtMost self.old.left.rows self.new.left.rows (started_rows left_due.now)) }
        ensures keys { SameKeys self.old self.new }
    {
        let mut i = 0;
        let mut j = 0;
        while i < left_due.len() || j < right_due.len() {
            let left_rest = rest(left_due, i);
            let right_rest = rest(right_due, j);
            let t = next_instant(left_rest, right_rest);
            let n = first_instant(left_rest, t);
            let m = first_instant(right_rest, t);
            self.pass(answer, t, &left_rest[..n], &right_rest[..m])?;
            i += n;
            j += m;
        }
        Ok(())
    }
}
