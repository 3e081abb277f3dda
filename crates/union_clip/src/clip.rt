// A Clip: the `Swept` of its sides, and one that keeps nothing yet.
ghost use Rattle.std.specs.Prelude.{◌≡◌, ◌≤◌, [], length, IfOk};
ghost use Rattle.sweep_sides.specs.Sweepers.{new_standing};
ghost use Rattle.sweep_sides.specs.Operating.{standing, IsNew};
ghost use Rattle.plan_model.specs.declared.node.Node.TheVariants.{Clip as ClipNode};

use crate::sides::ClipSides;
use crate::sweep::ClipRows;
use end_queue::EndQueue;
use std::alloc::Global;
use sweep_sides::Swept;
use synopsis::{KeyRoom, Synopsis};
use tw_rows::{Kind, Memory};

/// A clip: each row of the left side ends at the latest where a row of the right side starts that has the same data in its key
/// columns and starts after it. What is kept of the left side is its rows that are open just before the lesser of the times up
/// to which the sides are closed and that are not clipped, and its edges from then on; of the right side its starts from then
/// on.
pub type Clip = Swept<ClipSides>;

// No rows and no edges, by these key columns.
fn no_sides(alloc: Global, left_key: &[usize], right_key: &[usize]) -> Result<ClipSides, Memory>
    ensures left_key { IfOk result (λ s. s.rows.left.key ≡ left_key.now) }
    ensures right_key { IfOk result (λ s. s.rows.right_key.columns ≡ right_key.now) }
    ensures by_key { IfOk result (λ s. s.left_key.items ≡ left_key.now) }
    ensures rows { IfOk result (λ s. s.rows.left.rows ≡ []) }
    ensures waiting { IfOk result (λ s. (s.left_waiting ≡ []) × (s.right_waiting ≡ [])) }
{
    Ok(ClipSides {
        rows: ClipRows {
            alloc,
            right_key: KeyRoom::new(alloc, right_key)?,
            left: Synopsis::new(alloc, left_key)?,
        },
        left_key: Vec::from_slice(alloc, left_key)?,
        left_waiting: EndQueue::new(alloc),
        right_waiting: EndQueue::new(alloc),
    })
}

/// A clip of nothing yet, by these key columns, of rows with columns of these kinds, in batches of that capacity.
pub fn new_clip(
    alloc: Global,
    left_key: &[usize],
    right_key: &[usize],
    left_kinds: &[Kind],
    right_kinds: &[Kind],
    capacity: usize,
) -> Result<Clip, Memory>
    requires width { length left_kinds.now ≤ 32 }
    requires room { 1 ≤ capacity }
    ensures stands { IfOk result (λ c. standing c
        ≡ new_standing (ClipNode 0 1 left_key.now right_key.now) left_kinds.now right_kinds.now
        left_kinds.now capacity) }
    ensures opening { IfOk result IsNew }
{
    let sides = no_sides(alloc, left_key, right_key)?;
    Swept::new(alloc, sides, left_kinds, right_kinds, left_kinds, capacity)
}
