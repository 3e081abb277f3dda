// What is kept of the rows of one key.
ghost use Rattle.std.specs.Prelude.{◌≡◌, ℕ, ◌<◌, ◌≤◌, ◌^◌, List, [], ◌∷◌, length, IfOk, OnOk};
ghost use Rattle.tw_rows.specs.Bag.{SameBag};
ghost use Rattle.tw_rows.specs.declared.cells.Datum.{Datum};
ghost use Rattle.plan_laws.specs.Keeping.{plain_cells};
ghost use Rattle.plan_model.specs.declared.agg.Agg.{Agg};
ghost use Rattle.snapshot_agg.specs.States.{AreStatesOf, IsTotals, told_row};
ghost use Rattle.snapshot_agg.specs.Touching.{Touches, TellsTouched};

use crate::state::State;
use plan_model::Agg;
use smallvec::SmallVec;
use std::alloc::Global;
use tw_rows::{Cells, Datum, Memory};

// A group of more rows is undefined, by our profile.
const MOST_ROWS: u64 = 4611686018427387904;

// Of the rows of a key: how many there are, and the state of each aggregate.
#[derive(Drop)]
pub(crate) struct Totals {
    count: u64,
    states: Vec<State>,
    // The number of the instant at which the key was touched last.
    instant: u64,
}

// Puts the key to the touched ones.
pub(crate) fn touch(alloc: Global, touched: &mut Vec<Cells>, key: &[Datum]) -> Result<(), Memory>
    ensures { OnOk result (Touches touched.old.items touched.new.items key.now) }
{
    touched.push(Cells::from_slice(alloc, key)?)?;
    Ok(())
}

// Takes a row into each state.
fn add_all(states: &mut [State], cells: &[Datum]) -> Result<(), Memory>
    requires { (aggs : List Agg) × (rows : List (List Datum))
        × AreStatesOf states.old aggs rows × (length rows < 2 ^ 63) }
    ensures { OnOk result ((aggs : List Agg) (rows : List (List Datum)) →
        AreStatesOf states.old aggs rows → AreStatesOf states.new aggs (cells.now ∷ rows)) }
{
    for state in states.iter_mut() {
        state.add(cells)?;
    }
    Ok(())
}

// Gives a row up in each state.
fn remove_all(states: &mut [State], cells: &[Datum])
    requires { (aggs : List Agg) × (rows : List (List Datum)) × (rest : List (List Datum))
        × AreStatesOf states.old aggs rows × SameBag rows (cells.now ∷ rest) }
    ensures { (aggs : List Agg) (rows rest : List (List Datum)) →
        AreStatesOf states.old aggs rows → SameBag rows (cells.now ∷ rest) →
        AreStatesOf states.new aggs rest }
{
    for state in states.iter_mut() {
        state.remove(cells);
    }
}

impl Totals {
    ghost use Rattle.snapshot_agg.specs.Totaled.{AreTotalsOf};

    // Of no rows of a key that is touched at the instant of that number.
    pub(crate) fn new(alloc: Global, aggs: &[Agg], instant: u64) -> Result<Totals, Memory>
        ensures none { IfOk result (λ t. AreTotalsOf t aggs.now []) }
        ensures instant { IfOk result (λ t. t.instant ≡ instant) }
    {
        let mut states = Vec::new(alloc);
        for agg in aggs {
            states.push(State::new(alloc, *agg))?;
        }
        Ok(Totals {
            count: 0,
            states,
            instant,
        })
    }

    // How many rows there are.
    pub(crate) fn count(&self) -> u64
        ensures { result ≡ self.now.count }
    {
        self.count
    }

    // Touches the key at the instant of that number, unless it is touched there already.
    pub(crate) fn touch_at(
        &mut self,
        alloc: Global,
        touched: &mut Vec<Cells>,
        key: &[Datum],
        instant: u64,
    ) -> Result<(), Memory>
        requires { TellsTouched self.old.instant instant touched.old.items key.now }
        ensures touched { OnOk result (Touches touched.old.items touched.new.items key.now) }
        ensures instant { OnOk result (self.new.instant ≡ instant) }
        ensures count { self.new.count ≡ self.old.count }
        ensures states { self.new.states ≡ self.old.states }
    {
        if self.instant == instant {
            return Ok(());
        }
        touch(alloc, touched, key)?;
        self.instant = instant;
        Ok(())
    }

    // Takes in a row of the key.
    pub(crate) fn add(&mut self, cells: &[Datum]) -> Result<(), Memory>
        requires { (aggs : List Agg) × (rows : List (List Datum))
            × AreTotalsOf self.old aggs rows × (length rows < 2 ^ 63) }
        ensures own { OnOk result ((aggs : List Agg) (rows : List (List Datum)) →
            AreTotalsOf self.old aggs rows → AreTotalsOf self.new aggs (cells.now ∷ rows)) }
        ensures instant { self.new.instant ≡ self.old.instant }
    {
        self.count += 1;
        add_all(&mut self.states, cells)?;
        Ok(())
    }

    // Gives up a row of the key that is there.
    pub(crate) fn remove(&mut self, cells: &[Datum])
        requires { (aggs : List Agg) × (rows : List (List Datum)) × (rest : List (List Datum))
            × AreTotalsOf self.old aggs rows × SameBag rows (cells.now ∷ rest) }
        ensures own { (aggs : List Agg) (rows rest : List (List Datum)) →
            AreTotalsOf self.old aggs rows → SameBag rows (cells.now ∷ rest) →
            AreTotalsOf self.new aggs rest }
        ensures instant { self.new.instant ≡ self.old.instant }
    {
        self.count -= 1;
        remove_all(&mut self.states, cells);
    }

    // The row of the group, unless it is undefined.
    pub(crate) fn row(&self, alloc: Global, key: &[Datum]) -> Result<Option<Cells>, Memory>
        requires { (aggs : List Agg) × (rows : List (List Datum))
            × AreTotalsOf self.now aggs rows × (0 < length rows) }
        ensures { IfOk result (λ row. (aggs : List Agg) (rows : List (List Datum)) →
            AreTotalsOf self.now aggs rows → row ≡ told_row aggs key.now rows) }
    {
        if self.count > MOST_ROWS {
            return Ok(None);
        }
        let mut data = SmallVec::<Datum, 4>::from_slice(alloc, key)?;
        for state in &self.states {
            match state.value() {
                Some(x) => data.push(Datum::Int(x))?,
                None => return Ok(None),
            }
        }
        let row = Cells::from_slice(alloc, data.as_slice())?;
        Ok(Some(row))
    }
}
