// A Join: the `Swept` of its sides, and one that keeps nothing yet.
ghost use Rattle.std.specs.Prelude.{◌≡◌, ◌≤◌, length, [], IfOk};
ghost use Rattle.plan_model.specs.Keys.{paired_row};
ghost use Rattle.plan_model.specs.declared.node.Node.TheVariants.{Join as JoinNode};
ghost use Rattle.sweep_sides.specs.Operating.{standing, IsNew};
ghost use Rattle.sweep_sides.specs.Sweepers.{new_standing};

use crate::few::JoinLives;
use crate::lives::Lives;
use crate::sides::JoinSides;
use crate::sweep::JoinRows;
use end_queue::EndQueue;
use std::alloc::Global;
use sweep_sides::{Swept, pair_kinds};
use synopsis::Synopsis;
use tw_rows::{Kind, Memory};

/// A join of the rows of two sides that have the same data in their key columns. What is kept of a side is its rows that are
/// alive just before the lesser of the times up to which the sides are closed, and its edges from then on.
pub type Join = Swept<JoinSides>;

// No rows and no edges, by these key columns.
fn no_sides(alloc: Global, left_key: &[usize], right_key: &[usize]) -> Result<JoinSides, Memory>
    ensures left_key { IfOk result (λ s. s.rows.left_key.items ≡ left_key.now) }
    ensures right_key { IfOk result (λ s. s.rows.right_key.items ≡ right_key.now) }
    ensures by { IfOk result (λ s. (s.rows.left.key ≡ left_key.now)
        × (s.rows.right.key ≡ right_key.now)) }
    ensures few_left { IfOk result (λ s. s.few.left_key.items ≡ left_key.now) }
    ensures few_right { IfOk result (λ s. s.few.right_key.items ≡ right_key.now) }
    ensures few_by { IfOk result (λ s. (s.few.left.columns ≡ left_key.now)
        × (s.few.right.columns ≡ right_key.now)) }
    ensures rows { IfOk result (λ s. (s.rows.left.rows ≡ []) × (s.rows.right.rows ≡ [])) }
    ensures few { IfOk result (λ s. (s.few.left.lives ≡ []) × (s.few.right.lives ≡ [])) }
    ensures waiting { IfOk result (λ s. (s.left_waiting ≡ []) × (s.right_waiting ≡ [])) }
{
    Ok(JoinSides {
        rows: JoinRows {
            alloc,
            left_key: Vec::from_slice(alloc, left_key)?,
            right_key: Vec::from_slice(alloc, right_key)?,
            left: Synopsis::new(alloc, left_key)?,
            right: Synopsis::new(alloc, right_key)?,
        },
        left_waiting: EndQueue::new(alloc),
        right_waiting: EndQueue::new(alloc),
        left_due: Vec::new(alloc),
        right_due: Vec::new(alloc),
        few: JoinLives {
            alloc,
            left_key: Vec::from_slice(alloc, left_key)?,
            right_key: Vec::from_slice(alloc, right_key)?,
            left: Lives::new(alloc, left_key)?,
            right: Lives::new(alloc, right_key)?,
        },
    })
}

/// A join of nothing yet, by these key columns, of rows with columns of these kinds, in batches of that capacity.
pub fn new_join(
    alloc: Global,
    left_key: &[usize],
    right_key: &[usize],
    left_kinds: &[Kind],
    right_kinds: &[Kind],
    capacity: usize,
) -> Result<Join, Memory>
    requires width { length (paired_row right_key.now left_kinds.now right_kinds.now) ≤ 32 }
    requires room { 1 ≤ capacity }
    ensures stands { IfOk result (λ j. standing j
        ≡ new_standing (JoinNode 0 1 left_key.now right_key.now) left_kinds.now right_kinds.now
        (paired_row right_key.now left_kinds.now right_kinds.now) capacity) }
    ensures opening { IfOk result IsNew }
{
    let sides = no_sides(alloc, left_key, right_key)?;
    let own_kinds = pair_kinds(alloc, right_key, left_kinds, right_kinds)?;
    Swept::new(
        alloc,
        sides,
        left_kinds,
        right_kinds,
        own_kinds.as_slice(),
        capacity,
    )
}
