// A sweep at work: its columns, the times up to which its sides are closed, and one step of it.
ghost use Rattle.std.specs.Prelude.{◌≡◌, ◌≤◌, map, length, false, is_err, IfOk, OnOk};
ghost use Rattle.tw_rows.specs.Kinds.{cell_kind_of};
ghost use Rattle.edge_stream.specs.Listing.{cells_of};
ghost use Rattle.plan_model.specs.IsPlan.{node_kinds};
ghost use Rattle.plan_model.specs.Meaning.{node_closes};
ghost use Rattle.edge_stream.specs.Taking.{batches_taken};
ghost use Rattle.sweep_sides.specs.Sweepers.{HasColumns, new_standing};
ghost use Rattle.sweep_sides.specs.Sweeping.{both_given};

use crate::list_of;
use crate::sweep::Sweep;
use batch::Pools;
use edge_stream::EdgeList;
use std::alloc::Global;
use tw_rows::{Kind, Memory, Time};

/// A sweep with the columns of its node, the times up to which its sides are closed, and whether a step failed.
#[derive(Drop)]
pub struct Swept<S: Sweep> {
    pub(crate) alloc: Global,
    pub(crate) sweep: S,
    pub(crate) left_kinds: Vec<Kind>,
    pub(crate) right_kinds: Vec<Kind>,
    pub(crate) own_kinds: Vec<Kind>,
    pub(crate) capacity: usize,
    pub(crate) left_to: Time,
    pub(crate) right_to: Time,
    pub(crate) failed: bool,
    ghost columns: { HasColumns (S.node sweep)
        left_kinds.items right_kinds.items own_kinds.items capacity },
    ghost fits: { failed ≡ false → ∥ S.fits
        (map cell_kind_of left_kinds.items) (map cell_kind_of right_kinds.items)
        (node_closes (S.node sweep) left_to right_to) sweep ∥₁ },
}

impl<S: Sweep> Swept<S> {
    ghost use Rattle.edge_stream.specs.Standing.{IsLike};
    ghost use Rattle.edge_stream.specs.Steps.{StaysKept, AnswersBetween};
    ghost use Rattle.sweep_sides.specs.Operating.{standing, IsNew, IsKept};

    /// The operator of a sweep that keeps nothing yet, over sides with columns of these kinds, in batches of that capacity.
    pub fn new(
        alloc: Global,
        sweep: S,
        left_kinds: &[Kind],
        right_kinds: &[Kind],
        own_kinds: &[Kind],
        capacity: usize,
    ) -> Result<Swept<S>, Memory>
        requires empty { S.is_empty sweep }
        requires kinds { map cell_kind_of own_kinds.now
            ≡ node_kinds (S.node sweep) (map cell_kind_of left_kinds.now)
            (map cell_kind_of right_kinds.now) }
        requires width { length own_kinds.now ≤ 32 }
        requires room { 1 ≤ capacity }
        ensures stands { IfOk result (λ o. standing o
            ≡ new_standing (S.node sweep) left_kinds.now right_kinds.now own_kinds.now capacity) }
        ensures opening { IfOk result IsNew }
    {
        S::laws();
        Ok(Swept {
            alloc,
            sweep,
            left_kinds: Vec::from_slice(alloc, left_kinds)?,
            right_kinds: Vec::from_slice(alloc, right_kinds)?,
            own_kinds: Vec::from_slice(alloc, own_kinds)?,
            capacity,
            left_to: Time::bounds().0,
            right_to: Time::bounds().0,
            failed: false,
        })
    }

    // The operator's step.
    pub(crate) fn advance(
        &mut self,
        pools: &mut Pools,
        left: EdgeList,
        right: EdgeList,
        left_to: Time,
        right_to: Time,
    ) -> Result<EdgeList, Memory>
        requires works { self.old.failed ≡ false }
        requires left_rises { self.old.left_to ≤ left_to }
        requires right_rises { self.old.right_to ≤ right_to }
        requires left_kinds { cells_of left ≡ map cell_kind_of self.old.left_kinds.items }
        requires right_kinds { cells_of right ≡ map cell_kind_of self.old.right_kinds.items }
        requires left_capacity { left.capacity ≡ self.old.capacity }
        requires right_capacity { right.capacity ≡ self.old.capacity }
        requires capacity { pools.old.capacity ≡ self.old.capacity }
        ensures kept { IfOk result (λ answer. StaysKept (standing self.old)
            (IsKept self.old) (IsKept self.new) left.edges right.edges answer.edges) }
        ensures between { IfOk result (λ answer. AnswersBetween (standing self.old)
            left.edges right.edges left_to right_to answer.edges) }
        ensures kinds { IfOk result (λ answer. cells_of answer
            ≡ map cell_kind_of self.old.own_kinds.items) }
        ensures capacity { IfOk result (λ answer. answer.capacity ≡ self.old.capacity) }
        ensures given { IfOk result (λ answer. pools.new ≡ batches_taken answer.batches
            (both_given left right pools.old) (map cell_kind_of self.old.own_kinds.items)) }
        ensures pools { pools.new.capacity ≡ pools.old.capacity }
        ensures limit { pools.new.limit ≡ pools.old.limit }
        ensures left_to { OnOk result (self.new.left_to ≡ left_to) }
        ensures right_to { OnOk result (self.new.right_to ≡ right_to) }
        ensures failed { self.new.failed ≡ is_err result }
        ensures like { IsLike (standing self.old) (standing self.new) }
    {
        S::laws();
        self.failed = true;
        let from = self.sweep.closes(self.left_to, self.right_to);
        let to = self.sweep.closes(left_to, right_to);
        // Their calls tell the proof that these are times, and how the cells of both sides are stored.
        let _ = (left_to.word(), right_to.word(), to.word());
        left.cells_are_of_kinds();
        right.cells_are_of_kinds();
        let told = self.sweep.advance(&left, &right, from, to)?;
        left.give_back(pools);
        right.give_back(pools);
        let answer = list_of(
            self.alloc,
            pools,
            self.own_kinds.as_slice(),
            self.capacity,
            from,
            to,
            told.as_slice(),
        )?;
        self.left_to = left_to;
        self.right_to = right_to;
        self.failed = false;
        Ok(answer)
    }
}
