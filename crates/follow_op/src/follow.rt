// What a Follow keeps from one step to the next, and a Follow that keeps nothing yet.
ghost use Rattle.std.specs.Prelude.{◌≡◌, ◌≤◌, min, length, false, [], IfOk};
ghost use Rattle.plan_model.specs.Keys.{paired_row};
ghost use Rattle.follow_op.specs.States.{IsWorking};

use crate::rows::FollowRows;
use crate::sides::FollowSides;
use end_queue::EndQueue;
use std::alloc::Global;
use std::collections::VecDeque;
use sweep_sides::pair_kinds;
use synopsis::{KeyRoom, Synopsis};
use tw_rows::{Kind, Memory, Time};

/// A Follow: each row of the left side with the rows of the right side that start next after it, with the same data in their
/// key columns, where they do so within a time from its start on. The lifetime of such a pair is from the start of the right row
/// until the time is over. What is kept is the left rows that wait for a right row, and the starts of both sides from the lesser
/// of the times on up to which they are closed. No end is kept: that of a pair is known at its start.
#[derive(Drop)]
pub struct Follow {
    pub(crate) sides: FollowSides,
    pub(crate) left_key: Vec<usize>,
    pub(crate) left_kinds: Vec<Kind>,
    pub(crate) right_kinds: Vec<Kind>,
    pub(crate) own_kinds: Vec<Kind>,
    pub(crate) capacity: usize,
    pub(crate) left_to: Time,
    pub(crate) right_to: Time,
    pub(crate) failed: bool,
    pub ghost positive: { 1 ≤ sides.rows.within },
    pub ghost own: { own_kinds.items
        ≡ paired_row sides.rows.right_key.columns left_kinds.items right_kinds.items },
    ghost by_key: { left_key.items ≡ sides.rows.left.key },
    ghost working: { failed ≡ false →
        IsWorking sides left_kinds.items right_kinds.items own_kinds.items capacity
        (min left_to right_to) },
}

// No rows and no starts, by these key columns, with this time.
fn no_sides(
    alloc: Global,
    within: u64,
    left_key: &[usize],
    right_key: &[usize],
) -> Result<FollowSides, Memory>
    ensures within { IfOk result (λ s. s.rows.within ≡ within) }
    ensures left_key { IfOk result (λ s. s.rows.left.key ≡ left_key.now) }
    ensures right_key { IfOk result (λ s. s.rows.right_key.columns ≡ right_key.now) }
    ensures rows { IfOk result (λ s. s.rows.left.rows ≡ []) }
    ensures queue { IfOk result (λ s. s.rows.queue.items ≡ []) }
    ensures waiting { IfOk result (λ s. (s.left_waiting ≡ []) × (s.right_waiting ≡ [])) }
{
    Ok(FollowSides {
        rows: FollowRows {
            alloc,
            within,
            right_key: KeyRoom::new(alloc, right_key)?,
            left: Synopsis::new(alloc, left_key)?,
            queue: VecDeque::new(alloc),
        },
        left_waiting: EndQueue::new(alloc),
        right_waiting: EndQueue::new(alloc),
    })
}

impl Follow {
    ghost use Rattle.follow_op.specs.Operating.{IsNew};

    /// A Follow of nothing yet, by these key columns, within this time, of rows with columns of these kinds, in batches of that
    /// capacity.
    pub fn new(
        alloc: Global,
        left_key: &[usize],
        right_key: &[usize],
        within: u64,
        left_kinds: &[Kind],
        right_kinds: &[Kind],
        capacity: usize,
    ) -> Result<Follow, Memory>
        requires within { 1 ≤ within }
        requires width { length (paired_row right_key.now left_kinds.now right_kinds.now) ≤ 32 }
        requires room { 1 ≤ capacity }
        ensures left_key { IfOk result (λ f. f.sides.rows.left.key ≡ left_key.now) }
        ensures right_key { IfOk result (λ f. f.sides.rows.right_key.columns ≡ right_key.now) }
        ensures within { IfOk result (λ f. f.sides.rows.within ≡ within) }
        ensures left_kinds { IfOk result (λ f. f.left_kinds.items ≡ left_kinds.now) }
        ensures right_kinds { IfOk result (λ f. f.right_kinds.items ≡ right_kinds.now) }
        ensures own_kinds { IfOk result (λ f. f.own_kinds.items
            ≡ paired_row right_key.now left_kinds.now right_kinds.now) }
        ensures capacity { IfOk result (λ f. f.capacity ≡ capacity) }
        ensures opening { IfOk result IsNew }
    {
        Ok(Follow {
            sides: no_sides(alloc, within, left_key, right_key)?,
            left_key: Vec::from_slice(alloc, left_key)?,
            left_kinds: Vec::from_slice(alloc, left_kinds)?,
            right_kinds: Vec::from_slice(alloc, right_kinds)?,
            own_kinds: pair_kinds(alloc, right_key, left_kinds, right_kinds)?,
            capacity,
            left_to: Time::bounds().0,
            right_to: Time::bounds().0,
            failed: false,
        })
    }
}
