// The sessions that go on, from instant to instant.
ghost use Rattle.std.specs.Prelude.{◌≡◌, ◌+◌, ◌≤◌, ◌⊎◌, ℕ, suc, nat_eq, nat_le, cond, true, false, ◌∷◌, List, [], map, OnOk, IfOk};
ghost use Rattle.tw_rows.specs.Bag.{SameBag, total};
ghost use Rattle.tw_rows.specs.Event.{AreEvents};
ghost use Rattle.tw_rows.specs.Instant.{inf, later};
ghost use Rattle.tw_rows.specs.declared.edge.HeldRow.{HeldRow};
ghost use Rattle.edge_history.specs.Order.{failing, many};
ghost use Rattle.edge_history.specs.History.{CellEvent};
ghost use Rattle.edge_history.specs.Balance.{news};
ghost use Rattle.edge_history.specs.Opens.{started_of, started_rows};
ghost use Rattle.end_queue.specs.Pending.{Pending};
ghost use Rattle.synopsis.specs.Held.{key_of, is_of_key};
ghost use Rattle.sweep_laws.specs.Changes.{TakeIn, TakeAtMost};
ghost use Rattle.sweep_laws.specs.Moves.{Adds, told_at};
ghost use Rattle.sweep_laws.specs.Sweeps.{IsDue, Tells};
ghost use Rattle.session_window.specs.Kept.{Await, Ends, waits_from, waits_below};
ghost use Rattle.session_window.specs.Windows.{windows};
ghost use Rattle.session_window.specs.Holding.{SessionHeld, IsNextTime, BeginsAt};

use crate::open_rows::OpenRows;
use crate::times::is_before;
use end_queue::EndQueue;
use std::alloc::Global;
use sweep_sides::{first_instant, rest};
use tw_rows::{Cells, Datum, Edge, HeldRow, Memory, Time};

/// The rows of the sessions that go on, and for each key an entry: a time at which it is seen whether its session ends.
#[derive(Drop)]
pub(crate) struct Sessions {
    pub(crate) alloc: Global,
    pub(crate) timeout: u64,
    pub(crate) rows: OpenRows,
    pub(crate) ends: EndQueue,
}

// An entry for a key.
fn entry_of(alloc: Global, key: &[Datum], at: Time) -> Result<Edge, Memory>
    ensures { IfOk result (λ entry. entry ≡ record { sync = at; other = at; cells = key.now }) }
{
    Ok(Edge {
        sync: at,
        other: at,
        cells: Cells::from_slice(alloc, key)?,
    })
}

// Emits the ends of rows at t.
fn tell_ends(answer: &mut Vec<Edge>, t: Time, rows: &[HeldRow]) -> Result<(), Memory>
    ensures { OnOk result (Adds answer.old.items answer.new.items
        (map (told_at false t) rows.now)) }
{
    for row in rows {
        answer.push(Edge {
            sync: t,
            other: row.start,
            cells: row.cells.clone()?,
        })?;
    }
    Ok(())
}

// The time of the first entry, and infinity where there is none.
fn first_time(ends: &EndQueue) -> Time
    ensures first { failing (waits_from result) ends.now ≡ 0 }
    ensures found { (result ≡ inf) ⊎ BeginsAt result ends.now }
{
    if ends.len() == 0 {
        return Time::bounds().1;
    }
    ends.time_at(0)
}

impl Sessions {
    ghost use Rattle.session_window.specs.Sessions.{IsLike};

    /// Puts in a row. Where it is the first of its key, an entry for the time comes with it.
    pub(crate) fn put_in(&mut self, cells: Cells, start: Time, at: Time) -> Result<(), Memory>
        ensures rows { OnOk result ((w : HeldRow → ℕ) →
            total w self.new.rows.rows ≡ total w self.old.rows.rows + w
            (record { cells = cells; start = start })) }
        ensures ends { OnOk result ((w : Pending → ℕ) →
            total w self.new.ends ≡ total w self.old.ends + cond
            (nat_eq (many (is_of_key self.old.rows.key (key_of self.old.rows.key cells))
            self.old.rows.rows) 0) (w (record {
              at = at;
              edge = record
                  { sync = at; other = at; cells = key_of self.old.rows.key cells };
            })) 0) }
        ensures like { IsLike self.old self.new }
    {
        let first = self.rows.add(cells, start)?;
        if !first {
            return Ok(());
        }
        let entry = entry_of(self.alloc, self.rows.key_values(), at)?;
        self.ends.put(at, entry)?;
        Ok(())
    }

    // Puts in the row that an edge starts, and emits its start at t.
    fn start_one(&mut self, answer: &mut Vec<Edge>, t: Time, edge: &Edge) -> Result<(), Memory>
        ensures rows { OnOk result
            (TakeIn self.old.rows.rows self.new.rows.rows (started_of edge.now)) }
        ensures told { OnOk result (Adds answer.old.items answer.new.items
            (map (told_at true t) (started_of edge.now))) }
        ensures awaits { OnOk result
            (Await self.old.timeout self.old.rows.key self.old.rows.rows self.old.ends →
            Await self.old.timeout self.old.rows.key self.new.rows.rows self.new.ends) }
        ensures later { OnOk result ((u : ℕ) → u ≤ later self.old.timeout edge.now.sync →
            failing (waits_from u) self.old.ends ≡ 0 → failing (waits_from u) self.new.ends ≡ 0) }
        ensures like { IsLike self.old self.new }
    {
        if edge.is_end() {
            return Ok(());
        }
        let at = edge.sync.plus(self.timeout);
        self.put_in(edge.cells.clone()?, edge.sync, at)?;
        answer.push(Edge {
            sync: t,
            other: Time::bounds().1,
            cells: edge.cells.clone()?,
        })?;
        Ok(())
    }

    // Puts in the rows that start at t, and emits their starts.
    fn start_all(&mut self, answer: &mut Vec<Edge>, t: Time, now: &[Edge]) -> Result<(), Memory>
        ensures rows { OnOk result
            (TakeIn self.old.rows.rows self.new.rows.rows (started_rows now.now)) }
        ensures told { OnOk result (Adds answer.old.items answer.new.items
            (map (told_at true t) (started_rows now.now))) }
        ensures awaits { OnOk result
            (Await self.old.timeout self.old.rows.key self.old.rows.rows self.old.ends →
            Await self.old.timeout self.old.rows.key self.new.rows.rows self.new.ends) }
        ensures later { OnOk result ((u : ℕ) → failing
            (λ e. nat_le u (later self.old.timeout e.sync)) now.now ≡ 0 →
            failing (waits_from u) self.old.ends ≡ 0 → failing (waits_from u) self.new.ends ≡ 0) }
        ensures like { IsLike self.old self.new }
    {
        for edge in now {
            self.start_one(answer, t, edge)?;
        }
        Ok(())
    }

    // Ends the session of the key of an entry, where its timeout has passed by t. Where it has not, the entry waits on until
    // it may have.
    fn end_one(&mut self, answer: &mut Vec<Edge>, t: Time, entry: Edge) -> Result<(), Memory>
        ensures ended { OnOk result (Ends self.old.timeout self.old.rows.key t self.old.rows.rows
            self.new.rows.rows answer.old.items answer.new.items) }
        ensures awaits { OnOk result ((p : Pending) (ends : List Pending) → p.edge ≡ entry → ends
            ≡ p ∷ self.old.ends → Await self.old.timeout self.old.rows.key self.old.rows.rows ends →
            Await self.old.timeout self.old.rows.key self.new.rows.rows self.new.ends) }
        ensures fewer { OnOk result (many (waits_below (later 1 t)) self.new.ends
            ≤ many (waits_below (later 1 t)) self.old.ends) }
        ensures like { IsLike self.old self.new }
    {
        let Some(last) = self.rows.last_of(entry.cells.items()) else {
            return Ok(());
        };
        let at = last.plus(self.timeout);
        if is_before(t, at) {
            self.ends.put(at, entry)?;
            return Ok(());
        }
        let rows = self.rows.take(entry.cells.items());
        tell_ends(answer, t, rows.as_slice())?;
        Ok(())
    }

    // Ends the sessions whose timeout has passed by t.
    fn end_due(&mut self, answer: &mut Vec<Edge>, t: Time) -> Result<(), Memory>
        ensures ended { OnOk result (Ends self.old.timeout self.old.rows.key t self.old.rows.rows
            self.new.rows.rows answer.old.items answer.new.items) }
        ensures awaits { OnOk result
            (Await self.old.timeout self.old.rows.key self.old.rows.rows self.old.ends →
            Await self.old.timeout self.old.rows.key self.new.rows.rows self.new.ends) }
        ensures later { OnOk result (failing (waits_from (later 1 t)) self.new.ends ≡ 0) }
        ensures like { IsLike self.old self.new }
    {
        let below = t.plus(1);
        while let Some(entry) = self.ends.pop_due(below) {
            self.end_one(answer, t, entry)?;
        }
        Ok(())
    }

    // Goes on past one instant: the sessions whose timeout has passed end before a row starts, so that it opens another one.
    fn pass(&mut self, answer: &mut Vec<Edge>, t: Time, now: &[Edge]) -> Result<(), Memory>
        ensures swept { OnOk result ((a : List CellEvent) → 1 ≤ self.old.timeout → t + 1 ≤ inf →
            AreEvents a → SameBag now.now (news t (suc t) a) →
            SessionHeld self.old.rows.key self.old.timeout a t self.old.rows.rows self.old.ends →
            SessionHeld self.old.rows.key self.old.timeout a
            (suc t) self.new.rows.rows self.new.ends
            × Tells (windows self.old.rows.key self.old.timeout a) t
            (suc t) answer.old.items answer.new.items) }
        ensures rows { OnOk result
            (TakeAtMost self.old.rows.rows self.new.rows.rows (started_rows now.now)) }
        ensures like { IsLike self.old self.new }
    {
        self.end_due(answer, t)?;
        self.start_all(answer, t, now)?;
        Ok(())
    }

    // The next time at which a row starts or an entry is looked at.
    fn next_time(&self, rest: &[Edge]) -> Time
        ensures { IsNextTime result rest.now self.now.ends }
    {
        let at = first_time(&self.ends);
        match rest.get(0) {
            Some(edge) => edge.sync.min(at),
            None => at,
        }
    }

    /// Goes through the starts that are due from one time on and before another, and through the ends of sessions between.
    pub(crate) fn sweep(
        &mut self,
        answer: &mut Vec<Edge>,
        due: &[Edge],
        from: Time,
        to: Time,
    ) -> Result<(), Memory>
        ensures swept { OnOk result ((a : List CellEvent) → 1 ≤ self.old.timeout →
            IsDue a from to due.now → SessionHeld self.old.rows.key self.old.timeout a from
            self.old.rows.rows self.old.ends → SessionHeld self.old.rows.key self.old.timeout a to
            self.new.rows.rows self.new.ends × Tells (windows self.old.rows.key self.old.timeout a)
            from to answer.old.items answer.new.items) }
        ensures rows { OnOk result
            (TakeAtMost self.old.rows.rows self.new.rows.rows (started_rows due.now)) }
        ensures like { IsLike self.old self.new }
    {
        // Its call tells the proof that it is a time.
        let _ = to.word();
        let mut u = from;
        let mut i = 0;
        'instants: loop {
            let left = rest(due, i);
            let t = self.next_time(left);
            // No time comes back before u: this tells the proof that the loop ends.
            if is_before(t, u) {
                return Ok(());
            }
            if !is_before(t, to) {
                return Ok(());
            }
            let n = first_instant(left, t);
            self.pass(answer, t, &left[..n])?;
            i += n;
            u = t.plus(1);
        }
    }
}
