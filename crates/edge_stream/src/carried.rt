// Edges that are carried from step to step.
ghost use Rattle.std.specs.Prelude.{◌≡◌, ◌+◌, true, List, [], ◌++◌, filter, IfOk, IfSome, IfNone, OnOk};
ghost use Rattle.tw_rows.specs.Bag.{SameBag};
ghost use Rattle.tw_rows.specs.declared.edge.Edge.{Edge};
ghost use Rattle.batch.specs.Rows.{edges_of};
ghost use Rattle.edge_history.specs.Order.{failing, is_below, is_from, KeepsOrder};
ghost use Rattle.edge_stream.specs.Listing.{cells_of, SameShape};
ghost use Rattle.edge_stream.specs.Few.{may_stay};
ghost use Rattle.edge_stream.specs.Together.{AreTogether};

use crate::EdgeList;
use batch::{Batch, Pools};
use std::alloc::Global;
use tw_rows::{Memory, Time};

/// Puts the batch last.
pub fn put_last(list: &mut EdgeList, batch: Batch) -> Result<(), Memory>
    requires kinds { batch.kinds ≡ cells_of list.old }
    requires capacity { batch.capacity ≡ list.old.capacity }
    requires order { KeepsOrder (list.old.edges ++ edges_of batch.rows) }
    ensures edges { OnOk result (list.new.edges ≡ list.old.edges ++ edges_of batch.rows) }
    ensures batches { OnOk result (list.new.batches ≡ list.old.batches + 1) }
    ensures shape { SameShape list.old list.new }
{
    match list.put_batch(batch) {
        Ok(()) => Ok(()),
        Err(_) => Err(Memory),
    }
}

// Puts the batches of a later list behind those of the list, as they are.
fn put_behind(list: &mut EdgeList, later: EdgeList) -> Result<(), Memory>
    requires kinds { cells_of later ≡ cells_of list.old }
    requires capacity { later.capacity ≡ list.old.capacity }
    requires order { KeepsOrder (list.old.edges ++ later.edges) }
    ensures edges { OnOk result (list.new.edges ≡ list.old.edges ++ later.edges) }
    ensures batches { OnOk result (list.new.batches ≡ list.old.batches + later.batches) }
    ensures shape { SameShape list.old list.new }
{
    let mut later = later;
    while let Some(batch) = later.take_batch() {
        put_last(list, batch)?;
    }
    Ok(())
}

// Copies the edges of a later list into the last batch of the list, and into further ones as it is full.
fn copy_behind(pools: &mut Pools, list: &mut EdgeList, later: &EdgeList) -> Result<(), Memory>
    requires kinds { cells_of later.now ≡ cells_of list.old }
    requires pools { pools.old.capacity ≡ list.old.capacity }
    requires order { KeepsOrder (list.old.edges ++ later.now.edges) }
    ensures edges { OnOk result (list.new.edges ≡ list.old.edges ++ later.now.edges) }
    ensures shape { OnOk result (SameShape list.old list.new) }
    ensures pools { pools.new.capacity ≡ pools.old.capacity }
    ensures limit { pools.new.limit ≡ pools.old.limit }
{
    let mut cursor = later.cursor();
    while cursor.rank().is_some() {
        cursor.copy_next(pools, list)?;
    }
    Ok(())
}

// Whether batches of the later list may stand behind those of the list as they are. Else many steps with few edges each would
// make as many batches, and keep the memory of them.
fn stay_few(list: &EdgeList, later: &EdgeList) -> bool
    ensures { result ≡ may_stay list.now later.now }
{
    let half = (later.batches() as u64).saturating_mul(later.capacity() as u64 / 2);
    list.batches() < 2 || later.len() >= half
}

// The edges of the list, and behind them those of a later one, whose batches are not copied where they may stay.
fn joined(pools: &mut Pools, list: EdgeList, later: EdgeList) -> Result<EdgeList, Memory>
    requires kinds { cells_of later ≡ cells_of list }
    requires capacity { later.capacity ≡ list.capacity }
    requires pools { pools.old.capacity ≡ list.capacity }
    requires order { KeepsOrder (list.edges ++ later.edges) }
    ensures edges { IfOk result (λ all. all.edges ≡ list.edges ++ later.edges) }
    ensures stay { IfOk result (λ all. may_stay list later ≡ true →
        all.batches ≡ list.batches + later.batches) }
    ensures shape { IfOk result (λ all. SameShape list all) }
    ensures pools { pools.new.capacity ≡ pools.old.capacity }
    ensures limit { pools.new.limit ≡ pools.old.limit }
{
    let mut all = list;
    if stay_few(&all, &later) {
        put_behind(&mut all, later)?;
        return Ok(all);
    }
    copy_behind(pools, &mut all, &later)?;
    later.give_back(pools);
    Ok(all)
}

// The edges that were carried and new ones, in order.
fn in_order(pools: &mut Pools, carried: EdgeList, new: EdgeList) -> Result<EdgeList, Memory>
    requires kinds { cells_of carried ≡ cells_of new }
    requires capacity { carried.capacity ≡ new.capacity }
    requires pools { pools.old.capacity ≡ carried.capacity }
    ensures all { IfOk result (AreTogether carried new) }
    ensures pools { pools.new.capacity ≡ pools.old.capacity }
    ensures limit { pools.new.limit ≡ pools.old.limit }
{
    if carried.cursor().rank().is_none() {
        // Its call tells the proof that the edges keep the order.
        let _ = new.cursor();
        carried.give_back(pools);
        return Ok(new);
    }
    let all = EdgeList::merge(pools, carried, new)?;
    Ok(all)
}

// The sync time of the first edge. No edge of the list comes before it.
fn first_sync(list: &EdgeList) -> Option<Time>
    ensures none { IfNone result (list.now.edges ≡ []) }
    ensures first { IfSome result (λ t. failing (is_from t) list.now.edges ≡ 0) }
{
    let cursor = list.cursor();
    let (sync, _) = cursor.times()?;
    Some(sync)
}

// The edges that were carried and new ones, in order. Only those that were carried and do not come before all new ones are
// gone through beside them; most often there are none.
fn with_new(pools: &mut Pools, carried: EdgeList, new: EdgeList) -> Result<EdgeList, Memory>
    requires kinds { cells_of carried ≡ cells_of new }
    requires capacity { carried.capacity ≡ new.capacity }
    requires pools { pools.old.capacity ≡ carried.capacity }
    ensures all { IfOk result (AreTogether carried new) }
    ensures pools { pools.new.capacity ≡ pools.old.capacity }
    ensures limit { pools.new.limit ≡ pools.old.limit }
{
    // Its call tells the proof that the edges keep the order.
    let _ = carried.cursor();
    let Some(first) = first_sync(&new) else {
        new.give_back(pools);
        return Ok(carried);
    };
    let mut later = carried;
    let earlier = later.split_below(pools, first)?;
    let rest = in_order(pools, later, new)?;
    let all = joined(pools, earlier, rest)?;
    Ok(all)
}

/// Adds new edges to those that are carried, and takes out those below a time. The others stay.
pub fn take_below(
    alloc: Global,
    pools: &mut Pools,
    carried: &mut EdgeList,
    new: EdgeList,
    below: Time,
) -> Result<EdgeList, Memory>
    requires kinds { cells_of carried.old ≡ cells_of new }
    requires capacity { carried.old.capacity ≡ new.capacity }
    requires pools { pools.old.capacity ≡ carried.old.capacity }
    ensures edges { IfOk result (λ due. (all : List Edge)
        × SameBag all (carried.old.edges ++ new.edges) × KeepsOrder all
        × (due.edges ≡ filter (is_below below) all)
        × (carried.new.edges ≡ filter (is_from below) all)) }
    ensures due_kinds { IfOk result (λ due. cells_of due ≡ cells_of carried.old) }
    ensures due_capacity { IfOk result (λ due. due.capacity ≡ carried.old.capacity) }
    ensures kinds { cells_of carried.new ≡ cells_of carried.old }
    ensures capacity { carried.new.capacity ≡ carried.old.capacity }
    ensures pools { pools.new.capacity ≡ pools.old.capacity }
    ensures limit { pools.new.limit ≡ pools.old.limit }
{
    let empty = EdgeList::new(alloc, carried.kinds(), carried.capacity())?;
    let before = std::mem::replace(carried, empty);
    *carried = with_new(pools, before, new)?;
    let due = carried.split_below(pools, below)?;
    Ok(due)
}
