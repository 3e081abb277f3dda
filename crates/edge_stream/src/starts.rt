// Start edges that are taken out of a list again.
ghost use Rattle.std.specs.Prelude.{◌≡◌, ◌<◌, ℕ, List, ◌∷◌, false, true, slice_get, length, All};
ghost use Rattle.std.specs.Prelude.{Some, IsTrue, IfSome, IsNone};
ghost use Rattle.tw_rows.specs.Instant.{inf};
ghost use Rattle.tw_rows.specs.Bag.{SameBag};
ghost use Rattle.tw_rows.specs.declared.kind.CellKind.{CellKind};
ghost use Rattle.batch.specs.Rows.{Row, edge_of, edges_of};
ghost use Rattle.edge_history.specs.Order.{many, starts_it, KeepsOrder};
ghost use Rattle.edge_stream.specs.Listing.{IsOf, edges_in, SameShape};

use crate::list::EdgeList;
use batch::Batch;
use std::collections::VecDeque;
use tw_rows::{Cells, Datum, Time};

// Whether the edge of the row `i` is the start edge of these cells at that time.
#[tactic(auto, unfolding(tw_rows::specs::Instant::inf))]
fn is_start(batch: &Batch, i: usize, cells: &[Datum], start: Time) -> bool
    requires { i < length batch.now.rows }
    ensures { (r : Row) → slice_get batch.now.rows i ≡ Some r →
        result ≡ starts_it cells.now start (edge_of r) }
{
    if batch.other_at(i) != Time::INF {
        return false;
    }
    if batch.sync_at(i).word() != start.word() {
        return false;
    }
    batch.has_cells(i, cells)
}

// The first row with a start edge of these cells at that time.
fn start_row(batch: &Batch, cells: &[Datum], start: Time) -> Option<usize>
    ensures some { IfSome result (λ i. (r : Row) → slice_get batch.now.rows i ≡ Some r →
        r.occupied ≡ true) }
    ensures starts { IfSome result (λ i. (r : Row) → slice_get batch.now.rows i ≡ Some r →
        starts_it cells.now start (edge_of r) ≡ true) }
    ensures within { IfSome result (λ i. i < length batch.now.rows) }
    ensures none { IsNone result → many (starts_it cells.now start) (edges_of batch.now.rows) ≡ 0 }
{
    for i in 0..batch.rows() {
        if batch.occupancy().is_set(i) && is_start(batch, i, cells, start) {
            return Some(i);
        }
    }
    None
}

// Takes out of the batches a start edge of these cells at that time, if there is one. Its row stays,
// unoccupied.
fn take_start_of(batches: &mut VecDeque<Batch>, cells: &[Datum], start: Time) -> bool
    ensures taken { IsTrue result → SameBag
        (record { sync = start; other = inf; cells = cells.now } ∷ edges_in batches.new.items)
        (edges_in batches.old.items) }
    ensures none { result ≡ false →
        many (starts_it cells.now start) (edges_in batches.old.items) ≡ 0 }
    ensures kept { result ≡ false → batches.new.items ≡ batches.old.items }
    ensures order { KeepsOrder (edges_in batches.old.items) →
        KeepsOrder (edges_in batches.new.items) }
    ensures alike { (kinds : List CellKind) (capacity : ℕ) →
        All (IsOf kinds capacity) batches.old.items → All (IsOf kinds capacity) batches.new.items }
{
    for place in 0..batches.len() {
        if let Some(row) = start_row(&batches[place], cells, start) {
            batches[place].clear_row(row);
            return true;
        }
    }
    false
}

impl EdgeList {
    /// Takes out a start edge of these cells at that time, if there is one. Its row stays, unoccupied.
    pub fn take_start(&mut self, cells: &Cells, start: Time) -> bool
        ensures taken { IsTrue result → SameBag
            (record { sync = start; other = inf; cells = cells.now } ∷ self.new.edges)
            self.old.edges }
        ensures none { result ≡ false → many (starts_it cells.now start) self.old.edges ≡ 0 }
        ensures kept { result ≡ false → self.new ≡ self.old }
        ensures shape { SameShape self.old self.new }
    {
        take_start_of(&mut self.batches, cells.items(), start)
    }
}
