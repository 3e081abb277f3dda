// The operator of a Group: its state, and one step of it.
ghost use Rattle.std.specs.Prelude.{◌≡◌, ◌≤◌, ℕ, false, None, Some, map, length, OnOk, IfOk, IfErr, is_err};
ghost use Rattle.tw_rows.specs.Kinds.{cell_kind_of};
ghost use Rattle.edge_stream.specs.Listing.{cells_of};
ghost use Rattle.sweep_sides.specs.Sides.{IsSide};
ghost use Rattle.edge_stream.specs.Steps.{ComeBetween, StaysKept, IsFirstUndefined};
ghost use Rattle.snapshot_agg.specs.Answering.{group_kinds, AreRunsOf};
ghost use Rattle.snapshot_agg.specs.Counting.{IsCounted, kinds_over, pending_of};
ghost use Rattle.snapshot_agg.specs.Keeping.{IsOpening, HasFewKeys};
ghost use Rattle.snapshot_agg.specs.OneProof.{counted_prop, few_prop, under};
ghost use Rattle.snapshot_agg.specs.Totaled.{run_of};

use crate::emitting::{emit_due, keys_are_few};
use crate::groups::Groups;
use crate::laws::groups_stand_for_their_node;
use crate::passes::Running;
use crate::queue::Queue;
use batch::Pools;
use edge_stream::{EdgeList, StepFault};
use indexmap::IndexMap;
use plan_model::Agg;
use std::alloc::Global;
use std::hash::BuildHasherDefault;
use tw_rows::{Kind, Memory, Time};

/// The operator of a Group, which computes Trill's snapshot aggregates: at each instant one row for each key that has a row,
/// of the key and of the aggregates over the rows alive then. That a sum outside the ints is an overflow is our profile.
pub struct Grouped {
    pub(crate) alloc: Global,
    pub(crate) groups: Groups,
    // The emitted rows that go on.
    pub(crate) running: Running,
    // The pending edges of the child.
    pub(crate) waiting: Queue,
    // How the columns of its child and its own are stored.
    pub(crate) left_kinds: Vec<Kind>,
    pub(crate) kinds: Vec<Kind>,
    pub(crate) capacity: usize,
    pub(crate) left_to: Time,
    pub(crate) right_to: Time,
    pub(crate) failed: bool,
    ghost counted: { failed ≡ false → IsCounted groups } by { under failed (counted_prop groups) },
    ghost side: { failed ≡ false →
        IsSide (map cell_kind_of left_kinds.items) left_to groups.rows.rows.held
        (pending_of groups waiting) },
    ghost runs: { failed ≡ false →
        AreRunsOf (map cell_kind_of kinds.items) left_to (run_of running) },
    ghost few: { HasFewKeys groups.rows.rows.held groups.totals running } by { few_prop groups.rows.rows.held groups.totals running },
    ghost like: { map cell_kind_of kinds.items
        ≡ kinds_over groups (map cell_kind_of left_kinds.items) },
    ghost width: { length kinds.items ≤ 32 },
    ghost room: { 1 ≤ capacity },
}

// By hand, so that its users cite this and not the destructors of its parts.
impl Drop for Grouped {
    fn drop(self) {
        let Grouped {
            alloc: _,
            groups: _groups,
            running: _running,
            waiting: _waiting,
            left_kinds: _left_kinds,
            kinds: _kinds,
            capacity: _,
            left_to: _,
            right_to: _,
            failed: _,
        } = self;
    }
}

impl Grouped {
    ghost use Rattle.snapshot_agg.specs.Operating.{standing, IsKept, pools_after};

    /// A Group by these key columns, with these aggregates, of rows with columns of the kinds `left_kinds`, which answers
    /// rows with columns of the kinds `kinds` in batches of that capacity.
    pub fn new(
        alloc: Global,
        key: &[usize],
        aggs: &[Agg],
        left_kinds: &[Kind],
        kinds: &[Kind],
        capacity: usize,
    ) -> Result<Grouped, Memory>
        requires like { map cell_kind_of kinds.now
            ≡ group_kinds key.now aggs.now (map cell_kind_of left_kinds.now) }
        requires width { length kinds.now ≤ 32 }
        requires room { 1 ≤ capacity }
        ensures key { IfOk result (λ g. g.groups.key.items ≡ key.now) }
        ensures aggs { IfOk result (λ g. g.groups.aggs.items ≡ aggs.now) }
        ensures left_kinds { IfOk result (λ g. g.left_kinds.items ≡ left_kinds.now) }
        ensures kinds { IfOk result (λ g. g.kinds.items ≡ kinds.now) }
        ensures capacity { IfOk result (λ g. g.capacity ≡ capacity) }
        ensures opening { IfOk result (λ g.
            IsOpening g.groups.rows.rows g.running g.waiting g.left_to g.right_to g.failed) }
    {
        let groups = Groups::new(alloc, key, aggs)?;
        let running = IndexMap::with_hasher(alloc, BuildHasherDefault::new());
        keys_are_few(&groups, &running);
        Ok(Grouped {
            alloc,
            groups,
            running,
            waiting: Queue::new(alloc),
            left_kinds: Vec::from_slice(alloc, left_kinds)?,
            kinds: Vec::from_slice(alloc, kinds)?,
            capacity,
            left_to: Time::bounds().0,
            right_to: Time::bounds().0,
            failed: false,
        })
    }

    // Takes in the new edges, and answers what happens to the groups below the time up to which they are known.
    pub(crate) fn advance(
        &mut self,
        pools: &mut Pools,
        left: EdgeList,
        right: EdgeList,
        left_to: Time,
        right_to: Time,
    ) -> Result<EdgeList, StepFault>
        requires works { self.old.failed ≡ false }
        requires left_rises { self.old.left_to ≤ left_to }
        requires left_kinds { cells_of left ≡ map cell_kind_of self.old.left_kinds.items }
        requires left_capacity { left.capacity ≡ self.old.capacity }
        requires right_capacity { right.capacity ≡ self.old.capacity }
        requires capacity { pools.old.capacity ≡ self.old.capacity }
        ensures kept { IfOk result (λ answer. StaysKept (standing self.old)
            (IsKept self.old) (IsKept self.new) left.edges right.edges answer.edges) }
        ensures between { IfOk result (λ answer.
            ComeBetween self.old.left_to left_to answer.edges) }
        ensures defined { OnOk result (
            IsFirstUndefined (standing self.old) (IsKept self.old) left.edges left_to right_to
            None) }
        ensures overflow { IfErr result (λ fault. (time : ℕ) → fault ≡ StepFault.Overflow time →
            IsFirstUndefined (standing self.old) (IsKept self.old) left.edges left_to right_to
            (Some time)) }
        ensures cells { IfOk result (λ answer.
            cells_of answer ≡ map cell_kind_of self.old.kinds.items) }
        ensures answer_capacity { IfOk result (λ answer. answer.capacity ≡ self.old.capacity) }
        ensures given { IfOk result (λ answer.
            pools.new ≡ pools_after pools.old left right answer) }
        ensures pools { pools.new.capacity ≡ pools.old.capacity }
        ensures limit { pools.new.limit ≡ pools.old.limit }
        ensures left_to { OnOk result (self.new.left_to ≡ left_to) }
        ensures right_to { OnOk result (self.new.right_to ≡ right_to) }
        ensures failed { self.new.failed ≡ is_err result }
        ensures key { self.new.groups.key ≡ self.old.groups.key }
        ensures aggs { self.new.groups.aggs ≡ self.old.groups.aggs }
        ensures left_kinds { self.new.left_kinds ≡ self.old.left_kinds }
        ensures kinds { self.new.kinds ≡ self.old.kinds }
        ensures capacity { self.new.capacity ≡ self.old.capacity }
    {
        groups_stand_for_their_node();
        self.failed = true;
        // Its call tells the proof that it is a time.
        let _ = left_to.word();
        let emitted = emit_due(
            self.alloc,
            &mut self.groups,
            &mut self.running,
            &mut self.waiting,
            &left,
            self.left_to,
            left_to,
        );
        right.give_back(pools);
        left.give_back(pools);
        let edges = emitted?;
        let answer = EdgeList::from_edges(self.alloc, pools, &self.kinds, &edges)?;
        self.left_to = left_to;
        self.right_to = right_to;
        self.failed = false;
        Ok(answer)
    }
}
