// The rows of both sides of an Anti, and the passes over the edges of an instant, which emit the starts and the ends of runs: of
// a left row the stretches of time over which no right row has its key.
ghost use Rattle.std.specs.Prelude.{◌≡◌, ◌+◌, ◌<◌, ◌≤◌, ◌++◌, ℕ, suc, nat_eq, true, false, Some, None, List, [], ◌∷◌, map, filter, flat_map, OnOk};
ghost use Rattle.tw_rows.specs.Bag.{SameBag};
ghost use Rattle.tw_rows.specs.Event.{AreEvents};
ghost use Rattle.tw_rows.specs.Instant.{inf};
ghost use Rattle.tw_rows.specs.declared.cells.Datum.{Datum};
ghost use Rattle.tw_rows.specs.declared.edge.HeldRow.{HeldRow};
ghost use Rattle.tw_rows.specs.declared.kind.CellKind.{CellKind};
ghost use Rattle.edge_history.specs.Order.{failing, many, is_below};
ghost use Rattle.edge_history.specs.History.{CellEvent};
ghost use Rattle.edge_history.specs.Balance.{news};
ghost use Rattle.edge_history.specs.Opens.{ended_of, started_of, ended_rows, started_rows};
ghost use Rattle.synopsis.specs.Held.{is_of_key};
ghost use Rattle.sweep_laws.specs.Changes.{TakeIn, GiveUp, NoMore, TakeAtMost};
ghost use Rattle.sweep_laws.specs.Moves.{Adds, HoldsEnded};
ghost use Rattle.sweep_laws.specs.Saving.{HaveBegun};
ghost use Rattle.sweep_laws.specs.Sweeps.{IsDue, Tells};
ghost use Rattle.sweep_laws.specs.Antijoining.{end_of, begin_of};
ghost use Rattle.anti_join.specs.AntiJoined.{antis};
ghost use Rattle.anti_join.specs.Free.{free_since, other_since, told_since};
ghost use Rattle.anti_join.specs.Holding.{AntiHeld};

use crate::free_times::FreeTimes;
use std::alloc::Global;
use sweep_sides::{first_instant, next_instant, rest};
use synopsis::{HeldRow, KeyRoom, Synopsis};
use tw_rows::{Datum, Edge, Memory, Time};

/// The rows of both sides that are alive, by their keys, and the times since which keys of left rows are free.
#[derive(Drop)]
pub(crate) struct AntiRows {
    pub(crate) alloc: Global,
    pub(crate) left_key: KeyRoom,
    pub(crate) right_key: KeyRoom,
    pub(crate) left: Synopsis,
    pub(crate) right: Synopsis,
    pub(crate) times: FreeTimes,
}

// The other time of an edge of a run: of an end the time at which the run started, of a start infinity.
fn other_time(since: Option<Time>, start: Time) -> Time
    ensures { result ≡ other_since since start }
{
    match since {
        Some(since) => { if start < since { since } else { start } }
        None => Time::bounds().1,
    }
}

// Emits of each row the end of its run, where a time is given since which its key was free, and else the start of one.
fn tell(
    answer: &mut Vec<Edge>,
    t: Time,
    since: Option<Time>,
    rows: &[HeldRow],
) -> Result<(), Memory>
    ensures { OnOk result (answer.new.items ≡ answer.old.items
        ++ map (told_since since t) rows.now) }
{
    for row in rows {
        answer.push(Edge {
            sync: t,
            other: other_time(since, row.start),
            cells: row.cells.clone()?,
        })?;
    }
    Ok(())
}

impl AntiRows {
    ghost use Rattle.anti_join.specs.Rows.{AreByKey, SameKeys, SetsTime, SetsTimes, ForgetsTimes};
    ghost use Rattle.anti_join.specs.Rows.{left_key_of, status, free, ends_told, starts_told};
    ghost use Rattle.anti_join.specs.Rows.{lefts_of, times_of, TimesBegin};

    // No right row has the key.
    fn is_free(&self, key: &[Datum]) -> bool
        ensures { result ≡ free self.now key.now }
    {
        self.right.rows_of(key).is_empty()
    }

    // No left row has the key.
    fn has_none(&self, key: &[Datum]) -> bool
        ensures { result ≡ nat_eq (lefts_of self.now key.now) 0 }
    {
        self.left.rows_of(key).is_empty()
    }

    // Since when the key is free, where it is.
    fn status(&self, key: &[Datum]) -> Option<Time>
        ensures { self.now.times.key ≡ self.now.left.key → result ≡ status self.now key.now }
    {
        if !self.is_free(key) {
            return None;
        }
        Some(self.times.since(key))
    }

    // Emits the end of the run of a row that ended, if its key is free.
    fn tell_ended(&self, answer: &mut Vec<Edge>, t: Time, edge: &Edge) -> Result<(), Memory>
        ensures { OnOk result (self.now.times.key ≡ self.now.left.key →
            answer.new.items ≡ answer.old.items ++ end_of
            (status self.now self.now.left_key.values) t
            (record { cells = edge.now.cells; start = edge.now.other })) }
    {
        match self.status(self.left_key.values()) {
            None => Ok(()),
            Some(since) => {
                answer.push(Edge {
                    sync: t,
                    other: other_time(Some(since), edge.other),
                    cells: edge.cells.clone()?,
                })?;
                Ok(())
            }
        }
    }

    // Takes out the left row that an end edge ends, and emits the end of its run.
    fn end_left_one(&mut self, answer: &mut Vec<Edge>, t: Time, edge: &Edge) -> Result<(), Memory>
        ensures ended { OnOk result (HoldsEnded edge.now self.old.left.rows →
            GiveUp self.old.left.rows self.new.left.rows (ended_of edge.now)) }
        ensures fewer { OnOk result (NoMore self.old.left.rows self.new.left.rows) }
        ensures told { OnOk result (AreByKey self.old → HoldsEnded edge.now self.old.left.rows →
            Adds answer.old.items answer.new.items (flat_map (λ r. end_of (status self.old
            (left_key_of self.old r)) t r) (ended_of edge.now))) }
        ensures right { self.new.right ≡ self.old.right }
        ensures times { self.new.times ≡ self.old.times }
        ensures keys { SameKeys self.old self.new }
    {
        if !edge.is_end() {
            return Ok(());
        }
        if !self.left.take(edge.cells.items(), edge.other) {
            return Ok(());
        }
        self.left_key.write(edge.cells.items());
        self.tell_ended(answer, t, edge)?;
        Ok(())
    }

    // Takes out the left rows that end, and emits the ends of their runs.
    fn end_left(&mut self, answer: &mut Vec<Edge>, t: Time, now: &[Edge]) -> Result<(), Memory>
        ensures ended { OnOk result (NoMore self.old.left.rows (ended_rows now.now) →
            GiveUp self.old.left.rows self.new.left.rows (ended_rows now.now)) }
        ensures fewer { OnOk result (NoMore self.old.left.rows self.new.left.rows) }
        ensures told { OnOk result (AreByKey self.old →
            NoMore self.old.left.rows (ended_rows now.now) → Adds answer.old.items answer.new.items
            (flat_map (λ r. end_of (status self.old (left_key_of self.old r)) t r)
            (ended_rows now.now))) }
        ensures right { self.new.right ≡ self.old.right }
        ensures times { self.new.times ≡ self.old.times }
        ensures keys { SameKeys self.old self.new }
    {
        for edge in now {
            self.end_left_one(answer, t, edge)?;
        }
        Ok(())
    }

    // Emits the ends of the runs of the key of a right row that comes, if it was free.
    fn tell_blocked(&self, answer: &mut Vec<Edge>, t: Time) -> Result<(), Memory>
        ensures free { OnOk result (self.now.times.key ≡ self.now.left.key →
            free self.now self.now.right_key.values ≡ true →
            answer.new.items ≡ answer.old.items ++ map
            (told_since (Some (free_since self.now.left.key self.now.times.rows
            self.now.right_key.values)) t) (filter (is_of_key self.now.left.key
            self.now.right_key.values) self.now.left.rows)) }
        ensures blocked { OnOk result (free self.now self.now.right_key.values ≡ false →
            answer.new.items ≡ answer.old.items) }
    {
        let key = self.right_key.values();
        if !self.is_free(key) {
            return Ok(());
        }
        tell(
            answer,
            t,
            Some(self.times.since(key)),
            self.left.rows_of(key),
        )?;
        Ok(())
    }

    // Puts in the right row that a start edge starts. Where its key was free, the ends of the key's runs are emitted.
    fn start_right_one(
        &mut self,
        answer: &mut Vec<Edge>,
        t: Time,
        edge: &Edge,
    ) -> Result<(), Memory>
        ensures started { OnOk result
            (TakeIn self.old.right.rows self.new.right.rows (started_of edge.now)) }
        ensures told { OnOk result (AreByKey self.old → Adds answer.old.items answer.new.items
            (flat_map (ends_told t self.old self.new) self.old.left.rows)) }
        ensures left { self.new.left ≡ self.old.left }
        ensures times { self.new.times ≡ self.old.times }
        ensures keys { SameKeys self.old self.new }
    {
        if edge.is_end() {
            return Ok(());
        }
        self.right_key.write(edge.cells.items());
        self.tell_blocked(answer, t)?;
        self.right.add(edge.cells.clone()?, edge.sync)?;
        Ok(())
    }

    // Puts in the right rows that start, and emits the ends of the runs of the keys that are free no more.
    fn start_right(&mut self, answer: &mut Vec<Edge>, t: Time, now: &[Edge]) -> Result<(), Memory>
        ensures started { OnOk result
            (TakeIn self.old.right.rows self.new.right.rows (started_rows now.now)) }
        ensures told { OnOk result (AreByKey self.old → Adds answer.old.items answer.new.items
            (flat_map (ends_told t self.old self.new) self.old.left.rows)) }
        ensures left { self.new.left ≡ self.old.left }
        ensures times { self.new.times ≡ self.old.times }
        ensures keys { SameKeys self.old self.new }
    {
        for edge in now {
            self.start_right_one(answer, t, edge)?;
        }
        Ok(())
    }

    // Emits the starts of the runs of the left rows whose key the room of right keys holds, and keeps the time for it.
    fn tell_free(&mut self, answer: &mut Vec<Edge>, t: Time) -> Result<(), Memory>
        ensures told { OnOk result (answer.new.items ≡ answer.old.items ++ map (told_since None t)
            (filter (is_of_key self.old.left.key self.old.right_key.values) self.old.left.rows)) }
        ensures times { OnOk result (self.old.times.key ≡ self.old.left.key →
            SetsTime self.old.right_key.values t self.old self.new) }
        ensures begun { OnOk result (TimesBegin t self.old self.new) }
        ensures left { self.new.left ≡ self.old.left }
        ensures right { self.new.right ≡ self.old.right }
        ensures keys { SameKeys self.old self.new }
    {
        let rows = self.left.rows_of(self.right_key.values());
        tell(answer, t, None, rows)?;
        if rows.is_empty() {
            return Ok(());
        }
        self.times.set(rows[0].cells.clone()?, t)?;
        Ok(())
    }

    // Takes out the right row that an end edge ends. Where its key is free then, the starts of the key's runs are emitted.
    fn end_right_one(&mut self, answer: &mut Vec<Edge>, t: Time, edge: &Edge) -> Result<(), Memory>
        ensures ended { OnOk result (HoldsEnded edge.now self.old.right.rows →
            GiveUp self.old.right.rows self.new.right.rows (ended_of edge.now)) }
        ensures fewer { OnOk result (NoMore self.old.right.rows self.new.right.rows) }
        ensures told { OnOk result (AreByKey self.old → Adds answer.old.items answer.new.items
            (flat_map (starts_told t self.old self.new) self.old.left.rows)) }
        ensures times { OnOk result (AreByKey self.old → SetsTimes t self.old self.new) }
        ensures begun { OnOk result (TimesBegin t self.old self.new) }
        ensures left { self.new.left ≡ self.old.left }
        ensures keys { SameKeys self.old self.new }
    {
        if !edge.is_end() {
            return Ok(());
        }
        if !self.right.take(edge.cells.items(), edge.other) {
            return Ok(());
        }
        self.right_key.write(edge.cells.items());
        if !self.is_free(self.right_key.values()) {
            return Ok(());
        }
        self.tell_free(answer, t)?;
        Ok(())
    }

    // Takes out the right rows that end, and emits the starts of the runs of the keys that are free again.
    fn end_right(&mut self, answer: &mut Vec<Edge>, t: Time, now: &[Edge]) -> Result<(), Memory>
        ensures ended { OnOk result (NoMore self.old.right.rows (ended_rows now.now) →
            GiveUp self.old.right.rows self.new.right.rows (ended_rows now.now)) }
        ensures fewer { OnOk result (NoMore self.old.right.rows self.new.right.rows) }
        ensures told { OnOk result (AreByKey self.old → Adds answer.old.items answer.new.items
            (flat_map (starts_told t self.old self.new) self.old.left.rows)) }
        ensures times { OnOk result (AreByKey self.old → SetsTimes t self.old self.new) }
        ensures begun { OnOk result (TimesBegin t self.old self.new) }
        ensures left { self.new.left ≡ self.old.left }
        ensures keys { SameKeys self.old self.new }
    {
        for edge in now {
            self.end_right_one(answer, t, edge)?;
        }
        Ok(())
    }

    // Emits the start of a row, if its key, which the room of left keys holds, is free.
    fn tell_begun(&self, answer: &mut Vec<Edge>, t: Time, edge: &Edge) -> Result<(), Memory>
        ensures { OnOk result (answer.new.items ≡ answer.old.items
            ++ begin_of (free self.now self.now.left_key.values) t
            (record { cells = edge.now.cells; start = edge.now.sync })) }
    {
        if !self.is_free(self.left_key.values()) {
            return Ok(());
        }
        answer.push(Edge {
            sync: t,
            other: Time::bounds().1,
            cells: edge.cells.clone()?,
        })?;
        Ok(())
    }

    // Puts in the left row that a start edge starts, and emits its start if its key is free.
    fn start_left_one(&mut self, answer: &mut Vec<Edge>, t: Time, edge: &Edge) -> Result<(), Memory>
        ensures started { OnOk result
            (TakeIn self.old.left.rows self.new.left.rows (started_of edge.now)) }
        ensures told { OnOk result (AreByKey self.old →
            Adds answer.old.items answer.new.items (flat_map
            (λ r. begin_of (free self.old (left_key_of self.old r)) t r) (started_of edge.now))) }
        ensures right { self.new.right ≡ self.old.right }
        ensures times { self.new.times ≡ self.old.times }
        ensures keys { SameKeys self.old self.new }
    {
        if edge.is_end() {
            return Ok(());
        }
        self.left_key.write(edge.cells.items());
        self.tell_begun(answer, t, edge)?;
        self.left.add(edge.cells.clone()?, edge.sync)?;
        Ok(())
    }

    // Puts in the left rows that start, and emits the starts of those whose key is free.
    fn start_left(&mut self, answer: &mut Vec<Edge>, t: Time, now: &[Edge]) -> Result<(), Memory>
        ensures started { OnOk result
            (TakeIn self.old.left.rows self.new.left.rows (started_rows now.now)) }
        ensures told { OnOk result (AreByKey self.old →
            Adds answer.old.items answer.new.items (flat_map
            (λ r. begin_of (free self.old (left_key_of self.old r)) t r) (started_rows now.now))) }
        ensures right { self.new.right ≡ self.old.right }
        ensures times { self.new.times ≡ self.old.times }
        ensures keys { SameKeys self.old self.new }
    {
        for edge in now {
            self.start_left_one(answer, t, edge)?;
        }
        Ok(())
    }

    // Forgets the time of a key of which an end edge took the last left row.
    fn forget_one(&mut self, edge: &Edge) -> Result<(), Memory>
        ensures times { OnOk result (AreByKey self.old → ForgetsTimes self.old self.new) }
        ensures gone { OnOk result (AreByKey self.old → (k : List Datum) → lefts_of self.old k ≡ 0 →
            1 ≤ many (is_of_key self.old.left.key k) (ended_of edge.now) →
            times_of self.old self.new k ≡ 0) }
        ensures fewer { OnOk result (NoMore self.old.times.rows self.new.times.rows) }
        ensures left { self.new.left ≡ self.old.left }
        ensures right { self.new.right ≡ self.old.right }
        ensures keys { SameKeys self.old self.new }
    {
        if !edge.is_end() {
            return Ok(());
        }
        self.left_key.write(edge.cells.items());
        if !self.has_none(self.left_key.values()) {
            return Ok(());
        }
        self.times.forget(edge.cells.items())?;
        Ok(())
    }

    // Forgets the times of keys that have no left row any more.
    fn forget(&mut self, now: &[Edge]) -> Result<(), Memory>
        ensures times { OnOk result (AreByKey self.old → ForgetsTimes self.old self.new) }
        ensures gone { OnOk result (AreByKey self.old → (k : List Datum) → lefts_of self.old k ≡ 0 →
            1 ≤ many (is_of_key self.old.left.key k) (ended_rows now.now) →
            times_of self.old self.new k ≡ 0) }
        ensures fewer { OnOk result (NoMore self.old.times.rows self.new.times.rows) }
        ensures left { self.new.left ≡ self.old.left }
        ensures right { self.new.right ≡ self.old.right }
        ensures keys { SameKeys self.old self.new }
    {
        for edge in now {
            self.forget_one(edge)?;
        }
        Ok(())
    }

    // Goes on past one instant. The left rows that end leave first, whose runs end by the keys as they were. Of the right rows
    // those that start come before those that end leave, so that for a row that takes the place of another nothing is emitted;
    // then the left rows that start come, whose runs start by the keys as they are.
    fn pass(
        &mut self,
        answer: &mut Vec<Edge>,
        t: Time,
        now_left: &[Edge],
        now_right: &[Edge],
    ) -> Result<(), Memory>
        ensures swept { OnOk result ((a b : List CellEvent) → AreByKey self.old → t < inf →
            AreEvents a → AreEvents b → SameBag now_left.now (news t (suc t) a) →
            SameBag now_right.now (news t (suc t) b) →
            AntiHeld self.old.left.key self.old.right.key a b t self.old.left.rows
            self.old.right.rows self.old.times.rows →
            AntiHeld self.old.left.key self.old.right.key a b (suc t) self.new.left.rows
            self.new.right.rows self.new.times.rows
            × Tells (antis self.old.left.key self.old.right.key a b) t (suc t) answer.old.items
            answer.new.items) }
        ensures left_rows { OnOk result
            (TakeAtMost self.old.left.rows self.new.left.rows (started_rows now_left.now)) }
        ensures right_rows { OnOk result
            (TakeAtMost self.old.right.rows self.new.right.rows (started_rows now_right.now)) }
        ensures begun { OnOk result (TimesBegin t self.old self.new) }
        ensures keys { SameKeys self.old self.new }
    {
        self.end_left(answer, t, now_left)?;
        self.start_right(answer, t, now_right)?;
        self.end_right(answer, t, now_right)?;
        self.start_left(answer, t, now_left)?;
        self.forget(now_left)?;
        Ok(())
    }

    /// Goes through what is due on both sides, instant by instant.
    pub(crate) fn sweep(
        &mut self,
        answer: &mut Vec<Edge>,
        left_due: &[Edge],
        right_due: &[Edge],
    ) -> Result<(), Memory>
        ensures swept { OnOk result ((a b : List CellEvent) (from to : ℕ) → AreByKey self.old →
            IsDue a from to left_due.now → IsDue b from to right_due.now →
            AntiHeld self.old.left.key self.old.right.key a b from self.old.left.rows
            self.old.right.rows self.old.times.rows →
            AntiHeld self.old.left.key self.old.right.key a b to self.new.left.rows
            self.new.right.rows self.new.times.rows
            × Tells (antis self.old.left.key self.old.right.key a b) from to answer.old.items
            answer.new.items) }
        ensures left_rows { OnOk result
            (TakeAtMost self.old.left.rows self.new.left.rows (started_rows left_due.now)) }
        ensures right_rows { OnOk result
            (TakeAtMost self.old.right.rows self.new.right.rows (started_rows right_due.now)) }
        ensures begun { OnOk result ((kinds : List CellKind) (to : ℕ) →
            failing (is_below to) left_due.now ≡ 0 → failing (is_below to) right_due.now ≡ 0 →
            HaveBegun kinds to (started_rows left_due.now) → HaveBegun kinds to self.old.left.rows →
            HaveBegun kinds to self.old.times.rows → HaveBegun kinds to self.new.times.rows) }
        ensures keys { SameKeys self.old self.new }
    {
        let mut i = 0;
        let mut j = 0;
        while i < left_due.len() || j < right_due.len() {
            let left_rest = rest(left_due, i);
            let right_rest = rest(right_due, j);
            let t = next_instant(left_rest, right_rest);
            let n = first_instant(left_rest, t);
            let m = first_instant(right_rest, t);
            self.pass(answer, t, &left_rest[..n], &right_rest[..m])?;
            i += n;
            j += m;
        }
        Ok(())
    }
}
