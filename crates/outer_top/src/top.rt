// A Top: the `Swept` of its side, and one that keeps nothing yet.
ghost use Rattle.std.specs.Prelude.{◌≡◌, ◌≤◌, [], length, IfOk};
ghost use Rattle.plan_model.specs.declared.node.Node.TheVariants.{Top as TopNode};
ghost use Rattle.sweep_sides.specs.Operating.{standing, IsNew};
ghost use Rattle.sweep_sides.specs.Sweepers.{new_standing};

use crate::side::TopSide;
use crate::tops::Tops;
use end_queue::EndQueue;
use std::alloc::Global;
use sweep_sides::Swept;
use synopsis::RowQueues;
use tw_rows::{Kind, Memory};

/// A Top: of the rows of its child at each instant, for each key, those with the greatest ints in one column: so many of them,
/// and all that are equal to the least of them. A row is shown where fewer rows of its key than so many are greater. What is
/// kept is the rows that are alive, the open starts of those that are shown, and the edges of the child from the time on up to
/// which it is closed.
pub type Top = Swept<TopSide>;

// No rows and no edges, by these key columns and that column, of which so many are shown for each key.
fn no_side(alloc: Global, key: &[usize], by: usize, most: usize) -> Result<TopSide, Memory>
    requires { 1 ≤ most }
    ensures key { IfOk result (λ s. s.tops.key.columns ≡ key.now) }
    ensures by { IfOk result (λ s. s.tops.by ≡ by) }
    ensures most { IfOk result (λ s. s.tops.most ≡ most) }
    ensures rows { IfOk result (λ s. s.tops.keys.entries ≡ []) }
    ensures shown { IfOk result (λ s. s.queues ≡ []) }
    ensures waiting { IfOk result (λ s. s.waiting ≡ []) }
{
    Ok(TopSide {
        alloc,
        tops: Tops::new(alloc, key, by, most)?,
        queues: RowQueues::new(alloc),
        waiting: EndQueue::new(alloc),
    })
}

/// A Top of nothing yet, by these key columns and the ints of that column, of which so many are shown for each key, of rows
/// with columns of these kinds, in batches of that capacity.
pub fn new_top(
    alloc: Global,
    key: &[usize],
    by: usize,
    most: usize,
    kinds: &[Kind],
    capacity: usize,
) -> Result<Top, Memory>
    requires some { 1 ≤ most }
    requires width { length kinds.now ≤ 32 }
    requires room { 1 ≤ capacity }
    ensures stands { IfOk result (λ t. standing t
        ≡ new_standing (TopNode 0 key.now by most) kinds.now [] kinds.now capacity) }
    ensures opening { IfOk result IsNew }
{
    let side = no_side(alloc, key, by, most)?;
    Swept::new(alloc, side, kinds, &[], kinds, capacity)
}
