// The state of one aggregate over the rows of a key. As in Trill, a snapshot aggregate takes a row in where its lifetime starts
// and gives it up where it ends. An undefined sum is our profile.
ghost use Rattle.std.specs.Prelude.{◌≡◌, ℕ, ◌<◌, ◌≤◌, ◌^◌, List, [], ◌∷◌, length, OnOk};
ghost use Rattle.tw_rows.specs.Bag.{SameBag};
ghost use Rattle.tw_rows.specs.declared.cells.Datum.{Datum};
ghost use Rattle.plan_laws.specs.Keeping.{plain_cells};
ghost use Rattle.plan_model.specs.declared.agg.Agg.{Agg};
ghost use Rattle.plan_model.specs.RowOps.{int_in};
ghost use Rattle.snapshot_agg.specs.States.{IsStateOf, told_of};

use agg_state::{Aggregate, Count, Greatest, Least, Sum};
use plan_model::Agg;
use std::alloc::Global;
use tw_rows::{Datum, Memory};

// The state of an aggregate, with the column of its ints.
#[derive(Drop)]
pub(crate) enum State {
    Counted(Count),
    Summed(usize, Sum),
    Lowest(usize, Least),
    Highest(usize, Greatest),
}

// The int of a row in a column. A datum that is not there, or is no int, reads as 0.
fn int_at(cells: &[Datum], column: usize) -> i64
    ensures { result ≡ int_in plain_cells column cells.now }
{
    match cells.get(column) {
        Some(Datum::Int(x)) => *x,
        Some(Datum::Bool(_)) | Some(Datum::Text(_)) | None => 0,
    }
}

impl State {
    // The state of no rows.
    pub(crate) fn new(alloc: Global, agg: Agg) -> State
        ensures { IsStateOf result agg [] }
    {
        match agg {
            Agg::Count => State::Counted(Count::new(alloc)),
            Agg::Sum(column) => State::Summed(column, Sum::new(alloc)),
            Agg::Least(column) => State::Lowest(column, Least::new(alloc)),
            Agg::Greatest(column) => State::Highest(column, Greatest::new(alloc)),
        }
    }

    // Takes in a row.
    pub(crate) fn add(&mut self, cells: &[Datum]) -> Result<(), Memory>
        requires { (a : Agg) × (rows : List (List Datum))
            × IsStateOf self.old a rows × (length rows < 2 ^ 63) }
        ensures { OnOk result ((a : Agg) (rows : List (List Datum)) → IsStateOf self.old a rows →
            IsStateOf self.new a (cells.now ∷ rows)) }
    {
        match self {
            State::Counted(count) => count.add(0),
            State::Summed(column, sum) => sum.add(int_at(cells, *column)),
            State::Lowest(column, least) => least.add(int_at(cells, *column)),
            State::Highest(column, greatest) => greatest.add(int_at(cells, *column)),
        }
    }

    // Gives up a row that is there.
    pub(crate) fn remove(&mut self, cells: &[Datum])
        requires { (a : Agg) × (rows : List (List Datum)) × (rest : List (List Datum))
            × IsStateOf self.old a rows × SameBag rows (cells.now ∷ rest) }
        ensures { (a : Agg) (rows rest : List (List Datum)) → IsStateOf self.old a rows →
            SameBag rows (cells.now ∷ rest) → IsStateOf self.new a rest }
    {
        match self {
            State::Counted(count) => count.remove(0),
            State::Summed(column, sum) => sum.remove(int_at(cells, *column)),
            State::Lowest(column, least) => least.remove(int_at(cells, *column)),
            State::Highest(column, greatest) => greatest.remove(int_at(cells, *column)),
        }
    }

    // The aggregate of the rows: none where a sum lies outside the ints.
    pub(crate) fn value(&self) -> Option<i64>
        requires { (a : Agg) × (rows : List (List Datum))
            × IsStateOf self.now a rows × (0 < length rows) }
        ensures { (a : Agg) (rows : List (List Datum)) → IsStateOf self.now a rows →
            length rows ≤ 2 ^ 62 → result ≡ told_of a rows }
    {
        match self {
            State::Counted(count) => count.value(),
            State::Summed(_, sum) => sum.value(),
            State::Lowest(_, least) => least.value(),
            State::Highest(_, greatest) => greatest.value(),
        }
    }
}
