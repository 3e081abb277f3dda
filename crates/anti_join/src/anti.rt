// An Anti: the `Swept` of its sides, and one that keeps nothing yet.
ghost use Rattle.std.specs.Prelude.{◌≡◌, ◌≤◌, length, [], IfOk};
ghost use Rattle.plan_model.specs.declared.node.Node.TheVariants.{Anti as AntiNode};
ghost use Rattle.sweep_sides.specs.Operating.{standing, IsNew};
ghost use Rattle.sweep_sides.specs.Sweepers.{new_standing};
ghost use Rattle.anti_join.specs.Rows.{AreByKey};

use crate::free_times::FreeTimes;
use crate::sides::AntiSides;
use crate::sweep::AntiRows;
use end_queue::EndQueue;
use std::alloc::Global;
use sweep_sides::Swept;
use synopsis::{KeyRoom, Synopsis};
use tw_rows::{Kind, Memory};

/// An anti-join: of the rows of the left side those that have the data of no right row in their key columns. What is kept of a
/// side is its rows that are alive just before the lesser of the times up to which the sides are closed, and its edges from
/// then on.
pub type Anti = Swept<AntiSides>;

// No rows and no edges, by these key columns.
fn no_sides(alloc: Global, left_key: &[usize], right_key: &[usize]) -> Result<AntiSides, Memory>
    ensures left_key { IfOk result (λ s. s.rows.left.key ≡ left_key.now) }
    ensures right_key { IfOk result (λ s. s.rows.right.key ≡ right_key.now) }
    ensures by { IfOk result (λ s. AreByKey s.rows) }
    ensures rows { IfOk result (λ s. (s.rows.left.rows ≡ []) × (s.rows.right.rows ≡ [])
        × (s.rows.times.rows ≡ [])) }
    ensures waiting { IfOk result (λ s. (s.left_waiting ≡ []) × (s.right_waiting ≡ [])) }
{
    Ok(AntiSides {
        rows: AntiRows {
            alloc,
            left_key: KeyRoom::new(alloc, left_key)?,
            right_key: KeyRoom::new(alloc, right_key)?,
            left: Synopsis::new(alloc, left_key)?,
            right: Synopsis::new(alloc, right_key)?,
            times: FreeTimes::new(alloc, left_key)?,
        },
        left_waiting: EndQueue::new(alloc),
        right_waiting: EndQueue::new(alloc),
    })
}

/// An anti-join of nothing yet, by these key columns, of rows with columns of these kinds, in batches of that capacity.
pub fn new_anti(
    alloc: Global,
    left_key: &[usize],
    right_key: &[usize],
    left_kinds: &[Kind],
    right_kinds: &[Kind],
    capacity: usize,
) -> Result<Anti, Memory>
    requires width { length left_kinds.now ≤ 32 }
    requires room { 1 ≤ capacity }
    ensures stands { IfOk result (λ j. standing j
        ≡ new_standing (AntiNode 0 1 left_key.now right_key.now) left_kinds.now right_kinds.now
        left_kinds.now capacity) }
    ensures opening { IfOk result IsNew }
{
    let sides = no_sides(alloc, left_key, right_key)?;
    Swept::new(alloc, sides, left_kinds, right_kinds, left_kinds, capacity)
}
