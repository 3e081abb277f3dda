// What a Delay, a Hop, a Duration or a Mean keeps from one step to the next, and what it answers of the edges that come.
ghost use Rattle.std.specs.Prelude.{◌≡◌, ◌≤◌, true, false, map, [], length, IfOk};
ghost use Rattle.edge_history.specs.Order.{failing, is_from};
ghost use Rattle.edge_stream.specs.Lists.{no_edges};
ghost use Rattle.edge_stream.specs.Listing.{SameShape, cells_of};
ghost use Rattle.plan_laws.specs.Answers.{answered, answered_below};
ghost use Rattle.tw_rows.specs.Kinds.{cell_kind_of};
ghost use Rattle.lifetime_ops.specs.Nodes.{node_of, answer_kinds, divides_ints};
ghost use Rattle.lifetime_ops.specs.Times.{retimed};

use crate::change::Change;
use crate::mean::means_of;
use batch::Pools;
use edge_stream::{EdgeList, put_last};
use std::alloc::Global;
use tw_rows::{Kind, Memory, Time};

/// The operator of a Delay, a Hop or a Duration: Trill's `AlterEventLifetime`, whose new start and duration follow from the
/// start alone, or move both ends. It is that of a Mean too, which changes cells alone. It carries the edges that are not
/// below the time up to which it answers.
pub struct AlterLifetime {
    pub(crate) alloc: Global,
    pub(crate) change: Change,
    pub(crate) carried: EdgeList,
    pub(crate) left_to: Time,
    pub(crate) right_to: Time,
    pub(crate) failed: bool,
    ghost late: { failed ≡ false →
        failing (is_from (answered_below (node_of change) left_to)) carried.edges ≡ 0 },
    ghost ints: { divides_ints change (cells_of carried) ≡ true },
}

// By hand, so that its users cite this and not the destructors of its parts.
impl Drop for AlterLifetime {
    fn drop(self) {
        let AlterLifetime {
            alloc: _,
            change: _change,
            carried: _carried,
            left_to: _,
            right_to: _,
            failed: _,
        } = self;
    }
}

// The edges of a list that are answered, with their new times, in place batch by batch.
fn retime(change: &Change, alloc: Global, due: EdgeList) -> Result<EdgeList, Memory>
    ensures edges { IfOk result (λ answer. answer.edges ≡ retimed (node_of change.now) due.edges) }
    ensures shape { IfOk result (λ answer. SameShape due answer) }
{
    let mut due = due;
    let mut answer = EdgeList::new(alloc, due.kinds(), due.capacity())?;
    // Its call tells the proof that the edges keep the order.
    let _ = due.cursor();
    while let Some(mut batch) = due.take_batch() {
        change.apply(alloc, &mut batch)?;
        put_last(&mut answer, batch)?;
    }
    Ok(answer)
}

// The edges that are answered of those of a list.
pub(crate) fn answer_of(
    change: &Change,
    alloc: Global,
    pools: &mut Pools,
    due: EdgeList,
) -> Result<EdgeList, Memory>
    requires capacity { pools.old.capacity ≡ due.capacity }
    requires ints { divides_ints change.now (cells_of due) ≡ true }
    ensures edges { IfOk result (λ answer. answer.edges ≡ answered (node_of change.now) due.edges) }
    ensures kinds { IfOk result (λ answer.
        cells_of answer ≡ answer_kinds change.now (cells_of due)) }
    ensures capacity { IfOk result (λ answer. answer.capacity ≡ due.capacity) }
    ensures pools { pools.new.capacity ≡ pools.old.capacity }
    ensures limit { pools.new.limit ≡ pools.old.limit }
{
    match change {
        Change::Mean { at } => means_of(alloc, pools, at.items(), due),
        _ => retime(change, alloc, due),
    }
}

impl AlterLifetime {
    /// The operator of a node that makes this change, of rows with columns of these kinds, in batches of that capacity.
    pub fn new(
        alloc: Global,
        change: Change,
        kinds: &[Kind],
        capacity: usize,
    ) -> Result<AlterLifetime, Memory>
        requires width { length kinds.now ≤ 32 }
        requires room { 1 ≤ capacity }
        requires ints { divides_ints change (map cell_kind_of kinds.now) ≡ true }
        ensures change { IfOk result (λ o. o.change ≡ change) }
        ensures carried { IfOk result (λ o. o.carried ≡ no_edges kinds.now capacity) }
        ensures times { IfOk result (λ o. (o.left_to ≡ 0) × (o.right_to ≡ 0)) }
        ensures works { IfOk result (λ o. o.failed ≡ false) }
    {
        Ok(AlterLifetime {
            alloc,
            change,
            carried: EdgeList::new(alloc, kinds, capacity)?,
            left_to: Time::bounds().0,
            right_to: Time::bounds().0,
            failed: false,
        })
    }
}
