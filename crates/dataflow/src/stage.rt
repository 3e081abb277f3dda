// The stage of a node, whole or in shards, by its kind: its step, and how much it holds.
ghost use Rattle.std.specs.Prelude.{◌≡◌, ◌-◌, ◌^◌, ◌<◌, ◌≤◌, ℕ, min, true, Some, None, length, IfOk, IfErr, OnOk, OnErr};
ghost use Rattle.tw_rows.specs.Texts.{BeginsWith};
ghost use Rattle.plan_model.specs.declared.node.Node.{Node};
ghost use Rattle.plan_model.specs.IsPlan.{most_columns};
ghost use Rattle.plan_laws.specs.Places.{EdgesArePlaced};
ghost use Rattle.lane_expr.specs.Steps.{with_texts};
ghost use Rattle.where_select.specs.Texts.{nodes_in, HasFirstTexts};
ghost use Rattle.dataflow.specs.Stages.{CanTake, StaysReady, KeepsOn, IsUndefinedAt, IsAnswerOf, HasStopped};
ghost use Rattle.dataflow.specs.Stages.{entries_in, KeepsAtMost, AtNode, StartsFor};
ghost use Rattle.dataflow.specs.Shards.{RunsNode, RunsAt};

use crate::any_operator::{step_operator, step_sharded};
use crate::laws::stages_keep_at_most;
use crate::making::{StageMaker, reads_rows_alone, rows_stage};
use anti_join::Anti;
use batch::Pools;
use coalesce_op::Coalesce;
use edge_stream::{EdgeList, Operator, StepFault};
use follow_op::Follow;
use lifetime_ops::{AlterLifetime, ExtendLifetime};
use outer_top::Top;
use plan_model::Plan;
use session_window::Session;
use shard_apply::{Gate, Sharded};
use snapshot_agg::Grouped;
use std::alloc::Global;
use std::thread::Threads;
use temporal_join::Join;
use tw_rows::{Memory, TextTable, Time};
use union_clip::Clip;

/// What computes one node of a plan: a node with a key in shards, every other as a whole. Contracts see it through `IsReady`,
/// `StageKeeps` and `RunsNode` alone, which are by cases of what it is.
pub enum Stage {
    /// Of a Source, a Where or a Select.
    Rows(where_select::RowStage),
    /// Of a Delay, a Hop, a Duration or a Mean.
    Life(AlterLifetime),
    /// Of a Union.
    Union(union_clip::Union),
    /// Of an Extend.
    Extend(ExtendLifetime),
    /// Of a Join.
    Join(Sharded<Join>),
    /// Of a Group.
    Group(Sharded<Grouped>),
    /// Of an Anti.
    Anti(Sharded<Anti>),
    /// Of a Clip.
    Clip(Sharded<Clip>),
    /// Of a Session.
    Session(Sharded<Session>),
    /// Of a Coalesce.
    Coalesce(Coalesce),
    /// Of a Follow.
    Follow(Follow),
    /// Of a Top.
    Top(Top),
}

// By hand, so that what lets a stage go cites this and not the destructors of each operator.
impl Drop for Stage {
    fn drop(self) {
        match self {
            Stage::Rows(_rows) => {}
            Stage::Life(_operator) => {}
            Stage::Union(_operator) => {}
            Stage::Extend(_operator) => {}
            Stage::Join(_operator) => {}
            Stage::Group(_operator) => {}
            Stage::Anti(_operator) => {}
            Stage::Clip(_operator) => {}
            Stage::Session(_operator) => {}
            Stage::Coalesce(_operator) => {}
            Stage::Follow(_operator) => {}
            Stage::Top(_operator) => {}
        }
    }
}

impl Stage {
    /// The stage of a node of the plan, for batches of `capacity` rows, with a shard for each worker where the node has a key.
    /// The texts of the node's expressions come into the table, and stay there out of memory.
    pub fn new(
        alloc: Global,
        plan: &Plan,
        node: usize,
        capacity: usize,
        workers: usize,
        texts: &mut TextTable,
    ) -> Result<Stage, Memory>
        requires node { node < length plan.now.nodes }
        requires room { 1 ≤ capacity }
        requires some { 1 ≤ workers }
        requires few { workers ≤ 16 }
        ensures starts { IfOk result (λ s.
            AtNode plan.now node (λ n. StartsFor texts.new capacity plan.now n s)) }
        ensures runs { IfOk result (RunsAt workers plan.now node) }
        ensures table { OnOk result (
            AtNode plan.now node (λ n. texts.new ≡ with_texts texts.old (nodes_in n))) }
        ensures err { OnErr result (
            AtNode plan.now node (λ n. HasFirstTexts texts.new texts.old (nodes_in n))) }
        ensures begins { BeginsWith texts.new texts.old }
    {
        let nodes = plan.nodes();
        if reads_rows_alone(&nodes[node]) {
            rows_stage(alloc, plan, node, capacity, texts)
        } else {
            let maker = StageMaker {
                alloc,
                plan,
                node,
                capacity,
                workers,
            };
            maker.operator_stage()
        }
    }

    /// The edges that the node emits once the new edges of its sides came in, which are then closed up to the two times. Of a
    /// node with one child the right list has no columns. Shards pass the gate, and run beside each other where threads can be
    /// made. Out of memory the lists are lost.
    pub fn step<R: Threads + Sync, G: Gate>(
        &mut self,
        rt: &R,
        gate: &G,
        alloc: Global,
        pools: &mut Pools,
        texts: &TextTable,
        left: EdgeList,
        right: EdgeList,
        left_to: Time,
        right_to: Time,
    ) -> Result<EdgeList, StepFault>
        requires ready { CanTake texts.now left right self.old left_to right_to }
        requires capacity { (pools.old.capacity ≡ left.capacity)
            × (right.capacity ≡ left.capacity) }
        requires limit { most_columns ≤ pools.old.limit }
        requires placed { EdgesArePlaced texts.now left.edges
            × EdgesArePlaced texts.now right.edges }
        ensures ready { IfOk result (λ answer. StaysReady texts.now left right self.old self.new
            left_to right_to) }
        ensures kept { IfOk result (λ answer. KeepsOn texts.now left right self.old self.new left_to
            right_to answer) }
        ensures defined { OnOk result (IsUndefinedAt texts.now left right self.old left_to right_to
            None) }
        ensures overflow { IfErr result (λ fault. (time : ℕ) → fault ≡ StepFault.Overflow time →
            IsUndefinedAt texts.now left right self.old left_to right_to (Some time)) }
        ensures stopped { OnErr result (HasStopped self.old self.new) }
        ensures runs { (workers : ℕ) (n : Node) → RunsNode workers n self.old →
            RunsNode workers n self.new }
        ensures kinds { IfOk result (IsAnswerOf texts.now left right self.old) }
        ensures capacity { IfOk result (λ answer. answer.capacity ≡ left.capacity) }
        ensures pools { pools.new.capacity ≡ pools.old.capacity }
        ensures limit { pools.new.limit ≡ pools.old.limit }
    {
        match self {
            Stage::Rows(stage) => step_rows(
                stage, alloc, pools, texts, left, right, left_to, right_to,
            ),
            Stage::Life(operator) => step_operator(operator, pools, left, right, left_to, right_to),
            Stage::Union(operator) => {
                step_operator(operator, pools, left, right, left_to, right_to)
            }
            Stage::Extend(operator) => {
                step_operator(operator, pools, left, right, left_to, right_to)
            }
            Stage::Join(whole) => {
                step_sharded(whole, rt, gate, pools, left, right, left_to, right_to)
            }
            Stage::Group(whole) => {
                step_sharded(whole, rt, gate, pools, left, right, left_to, right_to)
            }
            Stage::Session(whole) => {
                step_sharded(whole, rt, gate, pools, left, right, left_to, right_to)
            }
            Stage::Anti(whole) => {
                step_sharded(whole, rt, gate, pools, left, right, left_to, right_to)
            }
            Stage::Clip(whole) => {
                step_sharded(whole, rt, gate, pools, left, right, left_to, right_to)
            }
            Stage::Coalesce(operator) => {
                step_operator(operator, pools, left, right, left_to, right_to)
            }
            Stage::Follow(operator) => {
                step_operator(operator, pools, left, right, left_to, right_to)
            }
            Stage::Top(operator) => {
                step_operator(operator, pools, left, right, left_to, right_to)
            }
        }
    }

    /// How many entries it keeps for later steps, or the greatest number that there is room for. They are no more than its
    /// node may keep.
    pub fn held(&self) -> u64
        ensures exact { result ≡ min (entries_in self.now) (2 ^ 64 - 1) }
        ensures bounded { KeepsAtMost result self.now }
    {
        stages_keep_at_most();
        self.entries_kept()
    }

    // How many entries it keeps.
    fn entries_kept(&self) -> u64
        ensures { result ≡ min (entries_in self.now) (2 ^ 64 - 1) }
    {
        match self {
            Stage::Rows(_) => 0,
            Stage::Life(operator) => operator.held(),
            Stage::Union(operator) => operator.held(),
            Stage::Extend(operator) => operator.held(),
            Stage::Join(whole) => whole.held(),
            Stage::Group(whole) => whole.held(),
            Stage::Anti(whole) => whole.held(),
            Stage::Clip(whole) => whole.held(),
            Stage::Session(whole) => whole.held(),
            Stage::Coalesce(operator) => operator.held(),
            Stage::Follow(operator) => operator.held(),
            Stage::Top(operator) => operator.held(),
        }
    }
}

// The same of a Source, a Where or a Select, which read no right list.
fn step_rows(
    stage: &mut where_select::RowStage,
    alloc: Global,
    pools: &mut Pools,
    texts: &TextTable,
    left: EdgeList,
    right: EdgeList,
    left_to: Time,
    right_to: Time,
) -> Result<EdgeList, StepFault>
    requires ready { CanTake texts.now left right (Stage.Rows stage.old) left_to right_to }
    requires capacity { (pools.old.capacity ≡ left.capacity) × (right.capacity ≡ left.capacity) }
    requires limit { most_columns ≤ pools.old.limit }
    requires placed { EdgesArePlaced texts.now left.edges × EdgesArePlaced texts.now right.edges }
    ensures ready { IfOk result (λ answer. StaysReady texts.now left right (Stage.Rows stage.old)
        (Stage.Rows stage.new) left_to right_to) }
    ensures kept { IfOk result (λ answer. KeepsOn texts.now left right (Stage.Rows stage.old)
        (Stage.Rows stage.new) left_to right_to answer) }
    ensures defined { OnOk result (IsUndefinedAt texts.now left right (Stage.Rows stage.old) left_to
        right_to None) }
    ensures overflow { IfErr result (λ fault. (time : ℕ) → fault ≡ StepFault.Overflow time →
        IsUndefinedAt texts.now left right (Stage.Rows stage.old) left_to right_to (Some time)) }
    ensures same { stage.new ≡ stage.old }
    ensures kinds { IfOk result (IsAnswerOf texts.now left right (Stage.Rows stage.old)) }
    ensures capacity { IfOk result (λ answer. answer.capacity ≡ left.capacity) }
    ensures pools { pools.new.capacity ≡ pools.old.capacity }
    ensures limit { pools.new.limit ≡ pools.old.limit }
{
    drop(right);
    match stage.step(alloc, pools, texts, left) {
        Ok(answer) => Ok(answer),
        Err(_) => Err(StepFault::Memory),
    }
}
