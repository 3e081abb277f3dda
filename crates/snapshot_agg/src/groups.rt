// The rows of a Group that are alive, with the totals of each key, as rows come and go.
ghost use Rattle.std.specs.Prelude.{◌≡◌, ◌<◌, ◌≤◌, ◌^◌, ℕ, suc, true, false, Bool, Option, List, [], ◌∷◌, length, IfOk, OnOk};
ghost use Rattle.std.specs.Option.{option_copied};
ghost use Rattle.tw_rows.specs.Bag.{SameBag};
ghost use Rattle.tw_rows.specs.SameCells.{same_cells};
ghost use Rattle.tw_rows.specs.declared.cells.Datum.{Datum};
ghost use Rattle.edge_history.specs.Order.{many, failing, is_end, is_from};
ghost use Rattle.edge_history.specs.Opens.{is_held};
ghost use Rattle.plan_model.specs.declared.agg.Agg.{Agg};
ghost use Rattle.sweep_laws.specs.Changes.{NoMore};
ghost use Rattle.tw_rows.specs.declared.edge.Edge.{Edge};
ghost use Rattle.sweep_sides.specs.Waiting.{queued, AreTimed};
ghost use Rattle.snapshot_agg.specs.Changing.{Gains, GainTogether, StayTogether, row_since};
ghost use Rattle.snapshot_agg.specs.KeptRows.{row_ended, IsEnded};
ghost use Rattle.snapshot_agg.specs.Touching.{Touches};
ghost use Rattle.snapshot_agg.specs.Totaled.{IsTotalOf, TellTouched, totals_of};
ghost use Rattle.snapshot_agg.specs.KeyRow.{IsKeyRow};

use crate::lives::Lives;
use crate::queue::Queue;
use crate::totals::{Totals, touch};
use indexmap::IndexMap;
use plan_model::Agg;
use std::alloc::Global;
use std::hash::BuildHasherDefault;
use synopsis::{KeyRoom, WordHasher};
use tw_rows::{Cells, Datum, Edge, Memory, Time};

// The totals of each key that has rows.
pub(crate) type KeyTotals = IndexMap<Vec<Datum>, Totals, BuildHasherDefault<WordHasher>>;

// What a group is at an instant: undefined, or its row, if it has one.
#[derive(Drop)]
pub(crate) enum KeyRow {
    Undefined,
    Row(Option<Cells>),
}

// The rows that are alive, and the totals of those of each key.
#[derive(Drop)]
pub(crate) struct Groups {
    pub(crate) alloc: Global,
    pub(crate) key: Vec<usize>,
    // Room for the key of a row, by the same columns.
    pub(crate) room: KeyRoom,
    pub(crate) aggs: Vec<Agg>,
    pub(crate) rows: Lives,
    pub(crate) totals: KeyTotals,
    // The keys of the rows that came or went at the instant, and its number.
    pub(crate) touched: Vec<Cells>,
    pub(crate) instant: u64,
}

// Takes a row in among those of its key, which is touched at the instant of that number.
fn add_to(
    totals: &mut KeyTotals,
    touched: &mut Vec<Cells>,
    instant: u64,
    alloc: Global,
    aggs: &[Agg],
    key: &[Datum],
    cells: &[Datum],
) -> Result<(), Memory>
    requires few { (rows : List (List Datum))
        × IsTotalOf (totals_of totals.old key.now) aggs.now rows × (length rows < 2 ^ 63) }
    requires tells { TellTouched (totals_of totals.old key.now) instant touched.old.items key.now }
    ensures others { OnOk result ((q : List Datum) → same_cells key.now q ≡ false →
        totals_of totals.new q ≡ totals_of totals.old q) }
    ensures own { OnOk result ((rows : List (List Datum)) →
        IsTotalOf (totals_of totals.old key.now) aggs.now rows →
        IsTotalOf (totals_of totals.new key.now) aggs.now (cells.now ∷ rows)) }
    ensures touched { OnOk result (Touches touched.old.items touched.new.items key.now) }
    ensures tells { OnOk result (
        TellTouched (totals_of totals.new key.now) instant touched.new.items key.now) }
{
    if let Some(there) = totals.get_mut(key) {
        there.touch_at(alloc, touched, key, instant)?;
        there.add(cells)?;
        return Ok(());
    }
    touch(alloc, touched, key)?;
    let mut new = Totals::new(alloc, aggs, instant)?;
    new.add(cells)?;
    let owned = Vec::from_slice(alloc, key)?;
    totals.insert(owned, new)?;
    Ok(())
}

// Gives up a row of a key that is there, which is touched at the instant of that number. The last row takes the totals
// with it.
fn take_from(
    totals: &mut KeyTotals,
    touched: &mut Vec<Cells>,
    instant: u64,
    alloc: Global,
    key: &[Datum],
    cells: &[Datum],
) -> Result<(), Memory>
    requires there { (aggs : List Agg) × (rows : List (List Datum)) × (rest : List (List Datum))
        × IsTotalOf (totals_of totals.old key.now) aggs rows
        × SameBag rows (cells.now ∷ rest) }
    requires tells { TellTouched (totals_of totals.old key.now) instant touched.old.items key.now }
    ensures others { OnOk result ((q : List Datum) → same_cells key.now q ≡ false →
        totals_of totals.new q ≡ totals_of totals.old q) }
    ensures own { OnOk result ((aggs : List Agg) (rows rest : List (List Datum)) →
        IsTotalOf (totals_of totals.old key.now) aggs rows →
        SameBag rows (cells.now ∷ rest) → IsTotalOf (totals_of totals.new key.now) aggs rest) }
    ensures touched { OnOk result (Touches touched.old.items touched.new.items key.now) }
    ensures tells { OnOk result (
        TellTouched (totals_of totals.new key.now) instant touched.new.items key.now) }
{
    if let Some(there) = totals.get_mut(key) {
        there.touch_at(alloc, touched, key, instant)?;
        there.remove(cells);
        if there.count() > 0 {
            return Ok(());
        }
    }
    totals.swap_remove(key);
    Ok(())
}

// The totals of a key, if it has rows.
fn totals_at<'a>(totals: &'a KeyTotals, key: &Cells) -> Option<&'a Totals>
    ensures value { option_copied result ≡ totals_of totals.now key.now }
{
    totals.get(key.items())
}

impl Groups {
    ghost use Rattle.snapshot_agg.specs.Counting.{IsCounted, key_by, row_now, is_undefined_now};

    // No rows.
    pub(crate) fn new(alloc: Global, key: &[usize], aggs: &[Agg]) -> Result<Groups, Memory>
        ensures key { IfOk result (λ g. g.key.items ≡ key.now) }
        ensures aggs { IfOk result (λ g. g.aggs.items ≡ aggs.now) }
        ensures rows { IfOk result (λ g. g.rows.rows.held ≡ []) }
        ensures ends { IfOk result (λ g. g.rows.rows.ends ≡ []) }
        ensures counted { IfOk result IsCounted }
    {
        Ok(Groups {
            alloc,
            key: Vec::from_slice(alloc, key)?,
            room: KeyRoom::new(alloc, key)?,
            aggs: Vec::from_slice(alloc, aggs)?,
            rows: Lives::new(alloc, key)?,
            totals: IndexMap::with_hasher(alloc, BuildHasherDefault::new()),
            touched: Vec::new(alloc),
            instant: 0,
        })
    }

    // Begins the next instant, at which no key is touched so far.
    pub(crate) fn begin(&mut self) -> Result<(), Memory>
        requires counted { IsCounted self.old }
        ensures counted { OnOk result (IsCounted self.new) }
        ensures none { OnOk result (self.new.touched.items ≡ []) }
        ensures rows { self.new.rows ≡ self.old.rows }
        ensures key { self.new.key ≡ self.old.key }
        ensures aggs { self.new.aggs ≡ self.old.aggs }
    {
        // A number that no longer fits is answered as out of memory.
        let Some(next) = self.instant.checked_add(1) else {
            return Err(Memory);
        };
        self.touched.clear();
        self.instant = next;
        Ok(())
    }

    // Puts in a row. Its key is touched.
    pub(crate) fn add(&mut self, cells: Cells, start: Time) -> Result<(), Memory>
        requires counted { IsCounted self.old }
        ensures counted { OnOk result (IsCounted self.new) }
        ensures added { OnOk result (Gains self.old.rows.rows.held self.new.rows.rows.held
            (row_since cells start)) }
        ensures ends { OnOk result (self.new.rows.rows.ends ≡ self.old.rows.rows.ends) }
        ensures touched { OnOk result (Touches self.old.touched.items self.new.touched.items
            (key_by self.old cells)) }
        ensures key { self.new.key ≡ self.old.key }
        ensures aggs { self.new.aggs ≡ self.old.aggs }
    {
        // More rows have no room in any memory.
        if self.rows.len() >= i64::MAX as u64 {
            return Err(Memory);
        }
        self.room.write(cells.items());
        add_to(
            &mut self.totals,
            &mut self.touched,
            self.instant,
            self.alloc,
            &self.aggs,
            self.room.values(),
            cells.items(),
        )?;
        self.rows.add(cells, start)?;
        Ok(())
    }

    // Puts in a row that came with its end, which is then pending. Its key is touched.
    pub(crate) fn keep(&mut self, waiting: &mut Queue, end: Edge) -> Result<(), Memory>
        requires counted { IsCounted self.old }
        requires end { is_end end ≡ true }
        ensures counted { OnOk result (IsCounted self.new) }
        ensures added { OnOk result (Gains self.old.rows.rows.held self.new.rows.rows.held
            (row_ended end)) }
        ensures pending { OnOk result (GainTogether self.old.rows.rows.ends (queued waiting.old)
            self.new.rows.rows.ends (queued waiting.new) end) }
        ensures own { OnOk result (AreTimed waiting.old → AreTimed waiting.new) }
        ensures late { OnOk result ((t : ℕ) → t ≤ end.sync →
            failing (is_from t) (queued waiting.old) ≡ 0 →
            failing (is_from t) (queued waiting.new) ≡ 0) }
        ensures touched { OnOk result (Touches self.old.touched.items self.new.touched.items
            (key_by self.old end.cells)) }
        ensures key { self.new.key ≡ self.old.key }
        ensures aggs { self.new.aggs ≡ self.old.aggs }
    {
        // More rows have no room in any memory.
        if self.rows.len() >= i64::MAX as u64 {
            return Err(Memory);
        }
        self.room.write(end.cells.items());
        add_to(
            &mut self.totals,
            &mut self.touched,
            self.instant,
            self.alloc,
            &self.aggs,
            self.room.values(),
            end.cells.items(),
        )?;
        self.rows.keep(waiting, end)?;
        Ok(())
    }

    // Takes out the first row that is kept with its end, if that comes at the time, and answers whether one was taken. Its key
    // is touched.
    pub(crate) fn end_first(&mut self, t: Time) -> Result<bool, Memory>
        requires counted { IsCounted self.old }
        ensures counted { OnOk result (IsCounted self.new) }
        ensures ended { IfOk result (λ ended. ended ≡ true → (e : Edge)
            × IsEnded e t self.old.rows.rows self.new.rows.rows
            × Touches self.old.touched.items self.new.touched.items (key_by self.old e.cells)) }
        ensures none { IfOk result (λ ended. ended ≡ false → (self.new.rows ≡ self.old.rows)
            × (self.new.touched ≡ self.old.touched)) }
        ensures late { IfOk result (λ ended. ended ≡ false →
            failing (is_from t) self.old.rows.rows.ends ≡ 0 →
            failing (is_from (suc t)) self.old.rows.rows.ends ≡ 0) }
        ensures key { self.new.key ≡ self.old.key }
        ensures aggs { self.new.aggs ≡ self.old.aggs }
    {
        let Some(end) = self.rows.end_first(t) else {
            return Ok(false);
        };
        self.room.write(end.cells.items());
        let key = self.room.values();
        take_from(
            &mut self.totals,
            &mut self.touched,
            self.instant,
            self.alloc,
            key,
            end.cells.items(),
        )?;
        Ok(true)
    }

    // Takes out a row that began then, if there is one. Its key is touched. No row may be kept with its end.
    pub(crate) fn take(&mut self, cells: &Cells, start: Time) -> Result<(), Memory>
        requires counted { IsCounted self.old }
        requires settled { self.old.rows.rows.ends ≡ [] }
        ensures settled { self.new.rows.rows.ends ≡ [] }
        ensures counted { OnOk result (IsCounted self.new) }
        ensures taken { OnOk result (1 ≤ many (is_held cells.now start) self.old.rows.rows.held →
            Gains self.new.rows.rows.held self.old.rows.rows.held (row_since cells.now start)) }
        ensures fewer { OnOk result (NoMore self.old.rows.rows.held self.new.rows.rows.held) }
        ensures touched { OnOk result (Touches self.old.touched.items self.new.touched.items
            (key_by self.old cells.now)) }
        ensures key { self.new.key ≡ self.old.key }
        ensures aggs { self.new.aggs ≡ self.old.aggs }
    {
        self.room.write(cells.items());
        let key = self.room.values();
        let taken = self.rows.take(cells.items(), start)?;
        if taken {
            take_from(
                &mut self.totals,
                &mut self.touched,
                self.instant,
                self.alloc,
                key,
                cells.items(),
            )?;
            return Ok(());
        }
        touch(self.alloc, &mut self.touched, key)?;
        Ok(())
    }

    // Moves the ends that are kept with their rows to the queue.
    pub(crate) fn settle(&mut self, waiting: &mut Queue) -> Result<(), Memory>
        requires counted { IsCounted self.old }
        ensures counted { OnOk result (IsCounted self.new) }
        ensures settled { OnOk result (self.new.rows.rows.ends ≡ []) }
        ensures held { OnOk result (SameBag self.old.rows.rows.held self.new.rows.rows.held) }
        ensures pending { OnOk result (StayTogether self.old.rows.rows.ends (queued waiting.old)
            self.new.rows.rows.ends (queued waiting.new)) }
        ensures own { OnOk result (AreTimed waiting.old → AreTimed waiting.new) }
        ensures key { self.new.key ≡ self.old.key }
        ensures aggs { self.new.aggs ≡ self.old.aggs }
    {
        self.rows.settle(waiting)
    }

    // What the group of a key is.
    pub(crate) fn row_of(&self, key: &Cells) -> Result<KeyRow, Memory>
        requires counted { IsCounted self.now }
        ensures { IfOk result (λ row.
            IsKeyRow row (is_undefined_now self.now key.now) (row_now self.now key.now)) }
    {
        match totals_at(&self.totals, key) {
            None => Ok(KeyRow::Row(None)),
            Some(totals) => match totals.row(self.alloc, key.items())? {
                None => Ok(KeyRow::Undefined),
                Some(row) => Ok(KeyRow::Row(Some(row))),
            },
        }
    }
}
