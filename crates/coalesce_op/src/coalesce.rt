// A Coalesce: the `Swept` of its side, and one that keeps nothing yet.
ghost use Rattle.std.specs.Prelude.{◌≡◌, ◌≤◌, [], length, IfOk};
ghost use Rattle.plan_model.specs.declared.node.Node.TheVariants.{Coalesce as CoalesceNode};
ghost use Rattle.sweep_sides.specs.Operating.{standing, IsNew};
ghost use Rattle.sweep_sides.specs.Sweepers.{new_standing};

use crate::side::CoalesceSide;
use end_queue::EndQueue;
use std::alloc::Global;
use sweep_sides::Swept;
use synopsis::RowQueues;
use tw_rows::{Kind, Memory};

/// A Coalesce: the rows of its child at each instant, put together into events that depend on those rows alone, whatever
/// lifetimes the child's events have. Of equal rows the one that started first ends first. What is kept is the starts that were
/// emitted and have no end yet, and the edges of the child from the time on up to which it is closed.
pub type Coalesce = Swept<CoalesceSide>;

/// A Coalesce of nothing yet, of rows with columns of these kinds, in batches of that capacity.
pub fn new_coalesce(alloc: Global, kinds: &[Kind], capacity: usize) -> Result<Coalesce, Memory>
    requires width { length kinds.now ≤ 32 }
    requires room { 1 ≤ capacity }
    ensures stands { IfOk result (λ c. standing c
        ≡ new_standing (CoalesceNode 0) kinds.now [] kinds.now capacity) }
    ensures opening { IfOk result IsNew }
{
    let side = CoalesceSide {
        alloc,
        queues: RowQueues::new(alloc),
        waiting: EndQueue::new(alloc),
    };
    Swept::new(alloc, side, kinds, &[], kinds, capacity)
}
