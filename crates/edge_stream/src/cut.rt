// Where a list of batches is cut at a time.
ghost use Rattle.std.specs.Prelude.{◌≡◌, ◌+◌, ◌<◌, ◌≤◌, true, false, ◌++◌};
ghost use Rattle.std.specs.Prelude.{length, map, filter, take, drop, slice_get, Some, All, IfOk};
ghost use Rattle.std.specs.Prelude.{OnOk, OnErr};
ghost use Rattle.std.specs.Option.{option_to_list};
ghost use Rattle.std.specs.VecDeque.{deque_len, deque_capacity};
ghost use Rattle.std.specs.List.{list_all};
ghost use Rattle.tw_rows.specs.Kinds.{cell_kind_of};
ghost use Rattle.tw_rows.specs.declared.edge.Edge.{Edge};
ghost use Rattle.batch.specs.Rows.{Table, edges_of};
ghost use Rattle.batch.specs.PoolsView.{batch_taken, IsPartTaken};
ghost use Rattle.edge_history.specs.Order.{Rises, is_below, is_from};
ghost use Rattle.edge_stream.specs.Sides.{is_on_side, side_bits};
ghost use Rattle.edge_stream.specs.Listing.{IsOf, edges_in};
ghost use Rattle.edge_stream.specs.Taking.{batches_taken};

use batch::{Batch, Pools};
use occupancy::Occupancy;
use std::alloc::Global;
use std::collections::VecDeque;
use tw_rows::{Kind, Memory, Time};

/// The edges whose sync time is below a time, or the others.
#[derive(Clone, Copy)]
pub(crate) enum Side {
    Below,
    From,
}

impl Side {
    // Whether the sync time lies on this side of `t`.
    fn has(self, sync: Time, t: Time) -> bool
        ensures { (e : Edge) → e.sync ≡ sync → result ≡ is_on_side self t e }
    {
        match self {
            Side::Below => sync < t,
            Side::From => t <= sync,
        }
    }
}

// Whether each edge of the batch lies on that side of `t`.
fn all_on_side(batch: &Batch, side: Side, t: Time) -> bool
    ensures all { result ≡ list_all (is_on_side side t) (edges_of batch.now.rows) }
    ensures within { length batch.now.rows ≤ batch.now.capacity }
{
    for i in 0..batch.rows() {
        if batch.occupancy().is_set(i) && !side.has(batch.sync_at(i), t) {
            return false;
        }
    }
    true
}

// Which rows of the batch lie on that side of `t`.
fn rows_on(alloc: Global, batch: &Batch, side: Side, t: Time) -> Result<Occupancy, Memory>
    ensures { IfOk result (λ mask. mask.items ≡ side_bits side t batch.now.rows) }
{
    let mut mask = Occupancy::new(alloc, batch.rows())?;
    for i in 0..batch.rows() {
        mask.push(side.has(batch.sync_at(i), t));
    }
    Ok(mask)
}

// A batch with the edges whose sync time is `t` or later.
fn later_part(
    alloc: Global,
    pools: &mut Pools,
    kinds: &[Kind],
    batch: &Batch,
    t: Time,
) -> Result<Batch, Memory>
    requires width { length kinds.now ≤ 32 }
    requires kinds { batch.now.kinds ≡ map cell_kind_of kinds.now }
    requires capacity { batch.now.capacity ≡ pools.old.capacity }
    requires within { length batch.now.rows ≤ batch.now.capacity }
    ensures edges { IfOk result (λ part. edges_of part.rows
        ≡ filter (is_from t) (edges_of batch.now.rows)) }
    ensures alike { IfOk result (IsOf (map cell_kind_of kinds.now) pools.old.capacity) }
    ensures pools { OnOk result (pools.new ≡ batch_taken pools.old (map cell_kind_of kinds.now)) }
    ensures err_pools { OnErr result (IsPartTaken pools.old pools.new
        (map cell_kind_of kinds.now)) }
{
    let mask = rows_on(alloc, batch, Side::From, t)?;
    let mut part = Batch::new(alloc, pools, kinds)?;
    batch.copy_kept(&mask, &mut part);
    Ok(part)
}

/// How many batches from the front have all their edges below `t`.
pub(crate) fn batches_below(batches: &VecDeque<Batch>, t: Time) -> usize
    ensures within { result ≤ length batches.now.items }
    ensures below { list_all (is_below t) (edges_in (take result batches.now.items)) ≡ true }
    ensures next { (b : Table) → slice_get batches.now.items result ≡ Some b →
        list_all (is_below t) (edges_of b.rows) ≡ false }
{
    for place in 0..batches.len() {
        if !all_on_side(&batches[place], Side::Below, t) {
            return place;
        }
    }
    batches.len()
}

/// Takes out of the batch at the place its edges below `t`, where it holds edges of both sides. The
/// batches before it have all their edges below `t`, and it has not.
pub(crate) fn part_at(
    alloc: Global,
    pools: &mut Pools,
    kinds: &[Kind],
    batches: &mut VecDeque<Batch>,
    place: usize,
    t: Time,
) -> Result<Option<Batch>, Memory>
    requires width { length kinds.now ≤ 32 }
    requires place { place ≤ length batches.old.items }
    requires alike { All (IsOf (map cell_kind_of kinds.now) pools.old.capacity) batches.old.items }
    requires rises { Rises 0 (edges_in batches.old.items) }
    requires below { list_all (is_below t) (edges_in (take place batches.old.items)) ≡ true }
    requires next { (b : Table) → slice_get batches.old.items place ≡ Some b →
        list_all (is_below t) (edges_of b.rows) ≡ false }
    ensures len { length batches.new.items ≡ length batches.old.items }
    ensures lower { IfOk result (λ part.
        edges_in (take place batches.new.items ++ option_to_list part)
        ≡ filter (is_below t) (edges_in batches.old.items)) }
    ensures upper { OnOk result (edges_in (drop place batches.new.items)
        ≡ filter (is_from t) (edges_in batches.old.items)) }
    ensures alike { All (IsOf (map cell_kind_of kinds.now) pools.old.capacity) batches.new.items }
    ensures part { IfOk result (λ part. All (IsOf (map cell_kind_of kinds.now) pools.old.capacity)
        (option_to_list part)) }
    ensures pools { IfOk result (λ part. pools.new
        ≡ batches_taken (length (option_to_list part)) pools.old (map cell_kind_of kinds.now)) }
    ensures err { OnErr result (batches.new.items ≡ batches.old.items) }
    ensures err_pools { OnErr result (IsPartTaken pools.old pools.new
        (map cell_kind_of kinds.now)) }
{
    if place == batches.len() || all_on_side(&batches[place], Side::From, t) {
        return Ok(None);
    }
    let lower = rows_on(alloc, &batches[place], Side::Below, t)?;
    let later = later_part(alloc, pools, kinds, &batches[place], t)?;
    let mut part = std::mem::replace(&mut batches[place], later);
    part.keep(&lower);
    Ok(Some(part))
}

/// Moves so many batches from the front of one queue to the end of another, which has room for them.
pub(crate) fn move_front(from: &mut VecDeque<Batch>, count: usize, to: &mut VecDeque<Batch>)
    requires some { count ≤ length from.old.items }
    requires room { deque_len to.old + count ≤ deque_capacity to.old }
    ensures moved { to.new.items ≡ to.old.items ++ take count from.old.items }
    ensures left { from.new.items ≡ drop count from.old.items }
    ensures capacity { deque_capacity to.new ≡ deque_capacity to.old }
{
    for _ in 0..count {
        if let Some(batch) = from.pop_front() {
            to.push_back_reserved(batch);
        }
    }
}
