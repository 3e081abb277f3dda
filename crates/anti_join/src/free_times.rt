// The times since which keys are free.
ghost use Rattle.std.specs.Prelude.{◌≡◌, [], ◌∷◌, nat_eq, not, filter, length, ◌≤◌, List, IfOk, IfErr, OnOk, OnErr};
ghost use Rattle.tw_rows.specs.Bag.{SameBag};
ghost use Rattle.tw_rows.specs.declared.cells.Datum.{Datum};
ghost use Rattle.tw_rows.specs.declared.edge.HeldRow.{HeldRow};
ghost use Rattle.edge_history.specs.Order.{many};
ghost use Rattle.sweep_laws.specs.Saving.{rows_of};
ghost use Rattle.synopsis.specs.Held.{key_of, is_of_key};
ghost use Rattle.anti_join.specs.Free.{free_since};
ghost use Rattle.anti_join.specs.Times.{HaveOneTime};

use edge_stream::LoadFault;
use std::alloc::Global;
use std::marker::Model;
use synopsis::{KeyRoom, Synopsis};
use tw_rows::{Cells, Datum, Edge, Memory, Time};

/// For each of some keys the time since which it is free, as the start of a row with that key.
pub(crate) struct FreeTimes {
    rows: Synopsis,
    room: KeyRoom,
}

// By hand, so that its users cite this and not the destructors of its parts.
impl Drop for FreeTimes {
    fn drop(self) {
        let FreeTimes {
            rows: _rows,
            room: _room,
        } = self;
    }
}

impl Model for FreeTimes {
    ghost use Rattle.std.specs.Prelude.{◌≡◌, ◌≤◌, List};
    ghost use Rattle.tw_rows.specs.declared.cells.Datum.{Datum};
    ghost use Rattle.edge_history.specs.Order.{many};
    ghost use Rattle.synopsis.specs.Held.{is_of_key};
    ghost use Rattle.anti_join.specs.Free.{KeyTimes};

    ghost Value = { KeyTimes };

    ghost view = { λ f. record { key = f.rows.key; rows = f.rows.rows } };

    ghost invariant = { λ f. (f.room.columns ≡ f.rows.key)
        × ((key : List Datum) → many (is_of_key f.rows.key key) f.rows.rows ≤ 1) };
}

// Takes out the row with this key, if there is one.
fn take_key(rows: &mut Synopsis, key: &[Datum]) -> Result<(), Memory>
    ensures ok { OnOk result (((values : List Datum) →
        many (is_of_key rows.old.key values) rows.old.rows ≤ 1) →
        SameBag rows.new.rows (filter (λ r. not
        (is_of_key rows.old.key key.now r)) rows.old.rows)) }
    ensures err { OnErr result (rows.new.rows ≡ rows.old.rows) }
    ensures key { rows.new.key ≡ rows.old.key }
{
    let found = rows.rows_of(key);
    if found.is_empty() {
        return Ok(());
    }
    let first = &found[0];
    let cells = first.cells.clone()?;
    let start = first.start;
    let _ = rows.take(cells.items(), start);
    Ok(())
}

impl FreeTimes {
    /// No times, of keys in these columns.
    pub(crate) fn new(alloc: Global, key: &[usize]) -> Result<FreeTimes, Memory>
        ensures key { IfOk result (λ f. f.key ≡ key.now) }
        ensures rows { IfOk result (λ f. f.rows ≡ []) }
    {
        Ok(FreeTimes {
            rows: Synopsis::new(alloc, key)?,
            room: KeyRoom::new(alloc, key)?,
        })
    }

    /// The time since which the key is free.
    pub(crate) fn since(&self, key: &[Datum]) -> Time
        ensures { result ≡ free_since self.now.key self.now.rows key.now }
    {
        let _ = &self.room;
        let found = self.rows.rows_of(key);
        if found.is_empty() {
            return Time::bounds().0;
        }
        found[0].start
    }

    /// Forgets the time of the key of a row.
    pub(crate) fn forget(&mut self, cells: &[Datum]) -> Result<(), Memory>
        ensures ok { OnOk result (SameBag self.new.rows (filter (λ r. not (is_of_key self.old.key
            (key_of self.old.key cells.now) r)) self.old.rows)) }
        ensures key { self.new.key ≡ self.old.key }
    {
        self.room.write(cells);
        take_key(&mut self.rows, self.room.values())?;
        Ok(())
    }

    /// The key of a row is free since that time.
    pub(crate) fn set(&mut self, cells: Cells, at: Time) -> Result<(), Memory>
        ensures ok { OnOk result (SameBag self.new.rows
            (record { cells = cells; start = at } ∷ filter
            (λ r. not (is_of_key self.old.key (key_of self.old.key cells) r)) self.old.rows)) }
        ensures key { self.new.key ≡ self.old.key }
    {
        self.room.write(cells.items());
        take_key(&mut self.rows, self.room.values())?;
        self.rows.add(cells, at)?;
        Ok(())
    }

    // The key of the row that an edge starts is free since its start.
    fn set_start(&mut self, edge: &Edge) -> Result<(), Memory>
        ensures ok { OnOk result (SameBag self.new.rows
            (record { cells = edge.now.cells; start = edge.now.sync } ∷ filter
            (λ r. not (is_of_key self.old.key
            (key_of self.old.key edge.now.cells) r)) self.old.rows)) }
        ensures key { self.new.key ≡ self.old.key }
    {
        self.set(edge.cells.clone()?, edge.sync)
    }

    // Whether no time is kept of the key of a row.
    fn has_none(&mut self, cells: &[Datum]) -> bool
        ensures none { result ≡ nat_eq (many (is_of_key self.old.key
            (key_of self.old.key cells.now)) self.old.rows) 0 }
        ensures same { self.new ≡ self.old }
    {
        self.room.write(cells);
        self.rows.rows_of(self.room.values()).is_empty()
    }

    /// The times of the keys of edges that start rows. Two of one key are no state.
    pub(crate) fn of_starts(
        alloc: Global,
        key: &[usize],
        edges: &[Edge],
    ) -> Result<FreeTimes, LoadFault>
        ensures key { IfOk result (λ f. f.key ≡ key.now) }
        ensures rows { IfOk result (λ f. SameBag f.rows (rows_of edges.now)) }
        ensures single { OnOk result (HaveOneTime key.now edges.now) }
        ensures refused { IfErr result (λ fault. fault ≡ LoadFault.NotState →
            HaveOneTime key.now edges.now → ⊥) }
    {
        let mut times = FreeTimes::new(alloc, key)?;
        for edge in edges {
            if !times.has_none(edge.cells.items()) {
                return Err(LoadFault::NotState);
            }
            times.set_start(edge)?;
        }
        // Its call tells the proof that no key has two times.
        let _ = times.len();
        Ok(times)
    }

    /// How many times are kept.
    pub(crate) fn len(&self) -> usize
        ensures count { result ≡ length self.now.rows }
        ensures single { (k : List Datum) → many (is_of_key self.now.key k) self.now.rows ≤ 1 }
    {
        let _ = &self.room;
        self.rows.len()
    }

    /// The rows whose starts are the times, one a key.
    pub(crate) fn rows(&self) -> &Synopsis
        ensures { result.now.rows ≡ self.now.rows }
    {
        let _ = &self.room;
        &self.rows
    }
}
