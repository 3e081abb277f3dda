// The last of the batches of a list.
ghost use Rattle.std.specs.Prelude.{◌≡◌, ◌+◌, ◌<◌, ◌≤◌, true, ℕ, List, [], ◌∷◌, ◌++◌, length, map, take, slice_get, Some, All};
ghost use Rattle.tw_rows.specs.Cells.{datum_kind};
ghost use Rattle.tw_rows.specs.declared.kind.CellKind.{CellKind};
ghost use Rattle.batch.specs.Rows.{Row, edge_of, edges_of};
ghost use Rattle.edge_stream.specs.Listing.{IsOf, edges_in, last_room};

use batch::Batch;
use std::collections::VecDeque;
use tw_rows::{Datum, Time};

/// How many rows more the last batch takes.
pub(crate) fn room(batches: &VecDeque<Batch>) -> usize
    ensures { result ≡ last_room batches.now.items }
{
    match batches.back() {
        Some(last) => last.capacity() - last.rows(),
        None => 0,
    }
}

/// Adds the edge of these times and cells to the last batch, which has room for it.
pub(crate) fn push_last(batches: &mut VecDeque<Batch>, sync: Time, other: Time, cells: &[Datum])
    requires room { 0 < last_room batches.old.items }
    requires kinds { All (λ b. b.kinds ≡ map datum_kind cells.now) batches.old.items }
    ensures edges { edges_in batches.new.items ≡ edges_in batches.old.items
        ++ record { sync = sync; other = other; cells = cells.now } ∷ [] }
    ensures room { last_room batches.new.items + 1 ≡ last_room batches.old.items }
    ensures len { length batches.new.items ≡ length batches.old.items }
    ensures alike { (kinds : List CellKind) (capacity : ℕ) →
        All (IsOf kinds capacity) batches.old.items → All (IsOf kinds capacity) batches.new.items }
{
    if let Some(last) = batches.back_mut() {
        // There is room.
        let _ = last.push_row(sync, other, cells);
    }
}

/// Adds the row `i` of a batch, which holds an edge, to the last batch, which has room for it.
pub(crate) fn copy_last(batches: &mut VecDeque<Batch>, batch: &Batch, i: usize)
    requires room { 0 < last_room batches.old.items }
    requires kinds { All (λ b. b.kinds ≡ batch.now.kinds) batches.old.items }
    requires place { i < length batch.now.rows }
    requires occupied { (r : Row) → slice_get batch.now.rows i ≡ Some r → r.occupied ≡ true }
    ensures edges { (r : Row) → slice_get batch.now.rows i ≡ Some r →
        edges_in batches.new.items ≡ edges_in batches.old.items ++ edge_of r ∷ [] }
    ensures room { last_room batches.new.items + 1 ≡ last_room batches.old.items }
    ensures len { length batches.new.items ≡ length batches.old.items }
    ensures alike { (kinds : List CellKind) (capacity : ℕ) →
        All (IsOf kinds capacity) batches.old.items → All (IsOf kinds capacity) batches.new.items }
{
    if let Some(last) = batches.back_mut() {
        batch.copy_row(i, last);
    }
}

/// Adds the first rows of a batch to the last batch, which has room for them.
pub(crate) fn extend_last(batches: &mut VecDeque<Batch>, batch: &Batch, rows: usize)
    requires some { 0 < rows }
    requires room { rows ≤ last_room batches.old.items }
    requires kinds { All (λ b. b.kinds ≡ batch.now.kinds) batches.old.items }
    requires within { rows ≤ length batch.now.rows }
    ensures edges { edges_in batches.new.items
        ≡ edges_in batches.old.items ++ edges_of (take rows batch.now.rows) }
    ensures len { length batches.new.items ≡ length batches.old.items }
    ensures alike { (kinds : List CellKind) (capacity : ℕ) →
        All (IsOf kinds capacity) batches.old.items → All (IsOf kinds capacity) batches.new.items }
{
    if let Some(last) = batches.back_mut() {
        batch.copy_first(rows, last);
    }
}
