// The edges of a list before a time: copies of them, and the list without them.
ghost use Rattle.std.specs.Prelude.{◌≡◌, ◌+◌, ◌-◌, ◌<◌, ◌≤◌, true, ℕ, List, [], ◌++◌, take, drop, length};
ghost use Rattle.std.specs.Prelude.{filter, All, OnOk, OnErr};
ghost use Rattle.std.specs.List.{list_all};
ghost use Rattle.tw_rows.specs.declared.kind.CellKind.{CellKind};
ghost use Rattle.batch.specs.Rows.{edges_of};
ghost use Rattle.batch.specs.PoolsView.{IsPartTaken};
ghost use Rattle.edge_history.specs.Order.{Rises, KeepsOrder, is_below, is_from};
ghost use Rattle.edge_stream.specs.Listing.{IsOf, cells_of, edges_in, SameShape};
ghost use Rattle.edge_stream.specs.Taking.{batches_taken, AreBatchesTaken};
ghost use Rattle.edge_stream.specs.Growing.{HasGrown};

use crate::counted::{has_rest, row_from};
use crate::last::{extend_last, room};
use crate::list::EdgeList;
use batch::{Batch, Pools};
use std::collections::VecDeque;
use tw_rows::{Memory, Time};

// Whether all edges of a batch come before `t`.
fn is_passed(batch: &Batch, t: Time) -> bool
    ensures { Rises 0 (edges_of batch.now.rows) →
        result ≡ list_all (is_below t) (edges_of batch.now.rows) }
{
    !has_rest(batch, row_from(batch, t))
}

// Leaves the rows without an edge.
fn clear_first(batch: &mut Batch, rows: usize)
    requires { rows ≤ length batch.old.rows }
    ensures edges { edges_of batch.new.rows ≡ edges_of (drop rows batch.old.rows) }
    ensures capacity { batch.new.capacity ≡ batch.old.capacity }
    ensures kinds { batch.new.kinds ≡ batch.old.kinds }
{
    for i in 0..rows {
        batch.clear_row(i);
    }
}

// Takes the edges of the first rows of a batch out. Where none is left, all its room is free again.
fn remove_edges(batch: &mut Batch, rows: usize)
    requires { rows ≤ length batch.old.rows }
    ensures edges { edges_of batch.new.rows ≡ edges_of (drop rows batch.old.rows) }
    ensures capacity { batch.new.capacity ≡ batch.old.capacity }
    ensures kinds { batch.new.kinds ≡ batch.old.kinds }
{
    if !has_rest(batch, rows) {
        batch.reset();
    } else if batch.occupied() == batch.rows() {
        batch.remove_first(rows);
    } else {
        clear_first(batch, rows);
    }
}

// Takes the edges before `t` out of the first batch.
fn remove_front(batches: &mut VecDeque<Batch>, t: Time)
    requires rises { Rises 0 (edges_in batches.old.items) }
    requires from { list_all (is_from t) (edges_in (drop 1 batches.old.items)) ≡ true }
    ensures edges { edges_in batches.new.items ≡ filter (is_from t) (edges_in batches.old.items) }
    ensures alike { (kinds : List CellKind) (capacity : ℕ) →
        All (IsOf kinds capacity) batches.old.items → All (IsOf kinds capacity) batches.new.items }
{
    if let Some(first) = batches.front_mut() {
        let rows = row_from(first, t);
        remove_edges(first, rows);
    }
}

// Takes the edges before `t` out of the batches. The last one stays, with its room.
fn remove_below(batches: &mut VecDeque<Batch>, t: Time)
    requires { Rises 0 (edges_in batches.old.items) }
    ensures edges { edges_in batches.new.items ≡ filter (is_from t) (edges_in batches.old.items) }
    ensures alike { (kinds : List CellKind) (capacity : ℕ) →
        All (IsOf kinds capacity) batches.old.items → All (IsOf kinds capacity) batches.new.items }
{
    'whole: while batches.len() > 1 && is_passed(&batches[0], t) {
        batches.pop_front();
    }
    remove_front(batches, t);
}

// Adds copies of the edges of the batches before `t` last to a list of their kinds and capacity.
fn copy_front(
    batches: &VecDeque<Batch>,
    pools: &mut Pools,
    t: Time,
    to: &mut EdgeList,
) -> Result<(), Memory>
    requires pools { pools.old.capacity ≡ to.old.capacity }
    requires alike { All (IsOf (cells_of to.old) to.old.capacity) batches.now.items }
    requires order { KeepsOrder (to.old.edges ++ edges_in batches.now.items) }
    ensures ok { OnOk result (to.new.edges
        ≡ to.old.edges ++ filter (is_below t) (edges_in batches.now.items)) }
    ensures shape { SameShape to.old to.new }
    ensures batches { to.old.batches ≤ to.new.batches }
    ensures pools { OnOk result (pools.new
        ≡ batches_taken (to.new.batches - to.old.batches) pools.old (cells_of to.old)) }
    ensures err_pools { OnErr result (AreBatchesTaken pools.old pools.new (cells_of to.old)) }
{
    for place in 0..batches.len() {
        let batch = &batches[place];
        let rows = row_from(batch, t);
        to.append_first(pools, batch, rows)?;
        if has_rest(batch, rows) {
            return Ok(());
        }
    }
    Ok(())
}

impl EdgeList {
    // Opens a batch where the last one has no room for so many rows more.
    fn make_room_for(&mut self, pools: &mut Pools, rows: usize) -> Result<(), Memory>
        requires pools { pools.old.capacity ≡ self.old.capacity }
        requires rows { rows ≤ self.old.capacity }
        ensures edges { OnOk result (self.new.edges ≡ self.old.edges) }
        ensures room { OnOk result (rows ≤ self.new.room) }
        ensures grown { OnOk result (HasGrown self.old self.new pools.old pools.new) }
        ensures err { OnErr result (self.new ≡ self.old) }
        ensures err_pools { OnErr result (IsPartTaken pools.old pools.new (cells_of self.old)) }
    {
        if room(&self.batches) < rows {
            self.open_batch(pools)
        } else {
            Ok(())
        }
    }

    // Adds the edges of the first rows of a batch last, in a batch that has room for all of them.
    fn append_first(&mut self, pools: &mut Pools, batch: &Batch, rows: usize) -> Result<(), Memory>
        requires pools { pools.old.capacity ≡ self.old.capacity }
        requires kinds { batch.now.kinds ≡ cells_of self.old }
        requires within { rows ≤ length batch.now.rows }
        requires room { rows ≤ self.old.capacity }
        requires order { KeepsOrder (self.old.edges ++ edges_of (take rows batch.now.rows)) }
        ensures ok { OnOk result (self.new.edges
            ≡ self.old.edges ++ edges_of (take rows batch.now.rows)) }
        ensures grown { OnOk result (HasGrown self.old self.new pools.old pools.new) }
        ensures err { OnErr result (self.new ≡ self.old) }
        ensures err_pools { OnErr result (IsPartTaken pools.old pools.new (cells_of self.old)) }
    {
        if rows == 0 {
            return Ok(());
        }
        self.make_room_for(pools, rows)?;
        extend_last(&mut self.batches, batch, rows);
        Ok(())
    }

    /// Adds copies of the edges before `t` to an empty list of the same kinds, whole columns at once.
    /// Memory is taken for batches alone; out of memory the first of them are added.
    pub fn copy_below(&self, pools: &mut Pools, t: Time, to: &mut EdgeList) -> Result<(), Memory>
        requires pools { pools.old.capacity ≡ self.now.capacity }
        requires capacity { to.old.capacity ≡ self.now.capacity }
        requires kinds { cells_of to.old ≡ cells_of self.now }
        requires empty { to.old.edges ≡ [] }
        ensures ok { OnOk result (to.new.edges ≡ filter (is_below t) self.now.edges) }
        ensures order { KeepsOrder self.now.edges }
        ensures shape { SameShape to.old to.new }
        ensures batches { to.old.batches ≤ to.new.batches }
        ensures pools { OnOk result (pools.new
            ≡ batches_taken (to.new.batches - to.old.batches) pools.old (cells_of self.now)) }
        ensures err_pools { OnErr result (AreBatchesTaken pools.old pools.new (cells_of self.now)) }
    {
        copy_front(&self.batches, pools, t, to)
    }

    /// Lets the edges before `t` go. It takes no memory, and the last batch keeps its room.
    pub fn drop_below(&mut self, t: Time)
        ensures edges { self.new.edges ≡ filter (is_from t) self.old.edges }
        ensures shape { SameShape self.old self.new }
    {
        remove_below(&mut self.batches, t);
    }
}
