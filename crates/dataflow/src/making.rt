// The stage of a node of each kind, made with the columns of its children.
ghost use Rattle.std.specs.Prelude.{◌≡◌, ◌<◌, ◌≤◌, ℕ, true, false, length, map, All, Ok, IfOk, OnOk, OnErr};
ghost use Rattle.tw_rows.specs.Kinds.{cell_kind_of};
ghost use Rattle.tw_rows.specs.Texts.{BeginsWith};
ghost use Rattle.plan_model.specs.declared.node.Node.{Node};
ghost use Rattle.plan_model.specs.IsPlan.{kinds_at};
ghost use Rattle.lane_expr.specs.Steps.{with_texts};
ghost use Rattle.where_select.specs.Stages.{is_of_rows};
ghost use Rattle.where_select.specs.Texts.{nodes_in, HasFirstTexts};
ghost use Rattle.dataflow.specs.Held.{has_two};
ghost use Rattle.dataflow.specs.Stages.{left_kinds, changing, AtNode, StartsFor};
ghost use Rattle.dataflow.specs.Shards.{RunsAt};

use crate::sharding::{in_shards, new_grouped, operators_of};
use crate::stage::Stage;
use anti_join::new_anti;
use coalesce_op::new_coalesce;
use edge_stream::Operator;
use follow_op::Follow;
use lifetime_ops::{AlterLifetime, Change, ExtendLifetime};
use outer_top::new_top;
use plan_model::{Agg, Key, Node, Plan};
use session_window::new_session;
use shard_apply::Sharded;
use std::alloc::Global;
use temporal_join::new_join;
use tw_rows::{Kind, Memory, TextTable};
use union_clip::new_clip;
use where_select::{column_kinds, read_kinds};

// The kinds of the columns of a node of the plan.
fn kinds_told(alloc: Global, plan: &Plan, node: usize) -> Result<Vec<Kind>, Memory>
    requires { node < length plan.now.nodes }
    ensures kinds { IfOk result (λ v. map cell_kind_of v.items ≡ kinds_at plan.now.schemas node) }
    ensures width { IfOk result (λ v. length v.items ≤ 32) }
{
    let schemas = plan.schemas();
    let kinds = column_kinds(alloc, schemas[node].items())?;
    Ok(kinds)
}

/// Whether the node is a Source, a Where or a Select.
pub(crate) fn reads_rows_alone(node: &Node) -> bool
    ensures { result ≡ is_of_rows node.now }
{
    matches!(
        node,
        Node::Source { .. } | Node::Where { .. } | Node::Select { .. }
    )
}

/// The stage of a Source, a Where or a Select of the plan. The texts of its expressions come into the table, and stay there
/// out of memory.
pub(crate) fn rows_stage(
    alloc: Global,
    plan: &Plan,
    node: usize,
    capacity: usize,
    texts: &mut TextTable,
) -> Result<Stage, Memory>
    requires node { node < length plan.now.nodes }
    requires rows { AtNode plan.now node (λ n. is_of_rows n ≡ true) }
    ensures starts { IfOk result (λ s.
        AtNode plan.now node (λ n. StartsFor texts.new capacity plan.now n s)) }
    ensures runs { IfOk result (λ s. (workers : ℕ) → RunsAt workers plan.now node s) }
    ensures table { OnOk result (
        AtNode plan.now node (λ n. texts.new ≡ with_texts texts.old (nodes_in n))) }
    ensures err { OnErr result (
        AtNode plan.now node (λ n. HasFirstTexts texts.new texts.old (nodes_in n))) }
    ensures begins { BeginsWith texts.new texts.old }
{
    let stage = where_select::RowStage::new(alloc, plan, node, capacity, texts)?;
    Ok(Stage::Rows(stage))
}

/// A node of a plan whose stage is to be made, for batches of `capacity` rows, with a shard for each worker where the node has
/// a key.
#[derive(Clone, Copy)]
pub(crate) struct StageMaker<'a> {
    pub(crate) alloc: Global,
    pub(crate) plan: &'a Plan,
    pub(crate) node: usize,
    pub(crate) capacity: usize,
    pub(crate) workers: usize,
    ghost inside: { node < length plan.now.nodes },
    ghost room: { 1 ≤ capacity },
    ghost some: { 1 ≤ workers },
    ghost few: { workers ≤ 16 },
}

impl<'a> StageMaker<'a> {
    ghost use Rattle.shard_apply.specs.Whole.{AreNew};
    ghost use Rattle.dataflow.specs.Making.{IsOf, StartsOf, RunsOf, MakesShards};

    // The kinds of the columns that the node reads on the left.
    fn kinds_read(&self) -> Result<Vec<Kind>, Memory>
        ensures kinds { IfOk result (λ v. IsOf self.now
            (λ n. map cell_kind_of v.items ≡ left_kinds self.now.plan.now n)) }
        ensures width { IfOk result (λ v. length v.items ≤ 32) }
    {
        let nodes = self.plan.nodes();
        let kinds = read_kinds(self.alloc, self.plan, self.node)?;
        prove!(self.node < nodes.len());
        Ok(kinds)
    }

    // An operator for each worker, as `make` gives it, side by side, by the keys of both sides.
    fn shards<O: Operator, F: Fn() -> Result<O, Memory>>(
        &self,
        left_key: &[usize],
        right_key: &[usize],
        make: &F,
    ) -> Result<Sharded<O>, Memory>
        requires callable { F.IsAlwaysCallable make.now }
        requires makes { MakesShards O.is_opening O.standing (λ o. F.post make.now (Ok o))
            left_key.now right_key.now self.now.capacity }
        ensures each { IfOk result (λ w. All (λ o. F.post make.now (Ok o)) w.operators) }
        ensures count { IfOk result (λ w. length w.operators ≡ self.now.workers) }
        ensures opening { IfOk result (AreNew O.is_opening O.standing) }
    {
        let operators = operators_of(self.alloc, self.workers, make)?;
        let whole = in_shards(self.alloc, operators, self.capacity, left_key, right_key)?;
        Ok(whole)
    }

    /// The stage of another node of the plan. Its operator needs no texts.
    pub(crate) fn operator_stage(&self) -> Result<Stage, Memory>
        requires other { IsOf self.now (λ n. is_of_rows n ≡ false) }
        ensures starts { IfOk result (StartsOf self.now) }
        ensures runs { IfOk result (RunsOf self.now) }
    {
        let nodes = self.plan.nodes();
        match &nodes[self.node] {
            Node::Delay { by, .. } => self.life_stage(Change::Delay { by: *by }),
            Node::Hop { size, period, .. } => {
                let hop = Change::Hop {
                    size: *size,
                    period: *period,
                };
                self.life_stage(hop)
            }
            Node::Duration { by, .. } => self.life_stage(Change::Duration { by: *by }),
            Node::Extend { by, .. } => self.extend_stage(*by),
            Node::Group { key, aggs, .. } => self.group_stage(key.items(), aggs.items()),
            Node::Session { timeout, key, .. } => self.session_stage(*timeout, key.items()),
            Node::Coalesce { .. } => self.coalesce_stage(),
            Node::Mean { at, .. } => self.mean_stage(at.items()),
            Node::Top { key, by, count, .. } => {
                let most = *count as usize;
                self.top_stage(key.items(), *by, most)
            }
            _ => self.two_sided_stage(),
        }
    }

    // The stage of a node of the plan that has two children.
    fn two_sided_stage(&self) -> Result<Stage, Memory>
        requires two { IsOf self.now (λ n. has_two n ≡ true) }
        ensures starts { IfOk result (StartsOf self.now) }
        ensures runs { IfOk result (RunsOf self.now) }
    {
        let nodes = self.plan.nodes();
        match &nodes[self.node] {
            Node::Union { .. } => self.union_stage(),
            Node::Join {
                right,
                left_key: l,
                right_key: r,
                ..
            } => self.join_stage(*right, l.items(), r.items()),
            Node::Anti {
                right,
                left_key: l,
                right_key: r,
                ..
            } => self.anti_stage(*right, l.items(), r.items()),
            Node::Clip {
                right,
                left_key: l,
                right_key: r,
                ..
            } => self.clip_stage(*right, l.items(), r.items()),
            Node::Follow {
                right,
                left_key: l,
                right_key: r,
                within,
                ..
            } => self.follow_stage(*right, l.items(), r.items(), *within),
            _ => unreachable!(),
        }
    }

    // The stage of a node of the plan that makes this change.
    fn life_stage(&self, change: Change) -> Result<Stage, Memory>
        requires is { IsOf self.now (λ n. (of : ℕ) × (n ≡ changing of change)) }
        ensures starts { IfOk result (StartsOf self.now) }
        ensures runs { IfOk result (RunsOf self.now) }
    {
        // Its call tells the proof what a plan keeps.
        let _ = self.plan.nodes();
        let kinds = self.kinds_read()?;
        let operator = AlterLifetime::new(self.alloc, change, &kinds, self.capacity)?;
        Ok(Stage::Life(operator))
    }

    // The stage of a Union.
    fn union_stage(&self) -> Result<Stage, Memory>
        requires is { IsOf self.now
            (λ n. (left : ℕ) × ((right : ℕ) × (n ≡ Node.Union left right))) }
        ensures starts { IfOk result (StartsOf self.now) }
        ensures runs { IfOk result (RunsOf self.now) }
    {
        // Its call tells the proof what a plan keeps.
        let _ = self.plan.nodes();
        let kinds = self.kinds_read()?;
        let operator = union_clip::Union::new(self.alloc, &kinds, self.capacity)?;
        Ok(Stage::Union(operator))
    }

    // The stage of an Extend of the plan, which moves ends by so much.
    fn extend_stage(&self, by: u64) -> Result<Stage, Memory>
        requires is { IsOf self.now (λ n. (of : ℕ) × (n ≡ Node.Extend of by)) }
        ensures starts { IfOk result (StartsOf self.now) }
        ensures runs { IfOk result (RunsOf self.now) }
    {
        let kinds = self.kinds_read()?;
        let operator = ExtendLifetime::new(self.alloc, by, &kinds, self.capacity)?;
        Ok(Stage::Extend(operator))
    }

    // The stage of a Session of the plan, with this timeout and this key.
    fn session_stage(&self, timeout: u64, key: &[usize]) -> Result<Stage, Memory>
        requires is { IsOf self.now (λ n. (of : ℕ) × (n ≡ Node.Session of timeout key.now)) }
        ensures starts { IfOk result (StartsOf self.now) }
        ensures runs { IfOk result (RunsOf self.now) }
    {
        // Its call tells the proof what a plan keeps.
        let _ = self.plan.nodes();
        let kinds = self.kinds_read()?;
        let read = kinds.as_slice();
        let (alloc, capacity) = (self.alloc, self.capacity);
        let whole = self.shards(
            key,
            &[],
            &|| { new_session(alloc, timeout, key, read, capacity) },
        )?;
        Ok(Stage::Session(whole))
    }

    // The stage of a Mean of the plan, of these columns.
    fn mean_stage(&self, at: &[usize]) -> Result<Stage, Memory>
        requires is { IsOf self.now (λ n. (of : ℕ) × (n ≡ Node.Mean of at.now)) }
        ensures starts { IfOk result (StartsOf self.now) }
        ensures runs { IfOk result (RunsOf self.now) }
    {
        let at = Key::from_vec(Vec::from_slice(self.alloc, at)?);
        self.life_stage(Change::Mean { at })
    }

    // The stage of a Coalesce of the plan.
    fn coalesce_stage(&self) -> Result<Stage, Memory>
        requires is { IsOf self.now (λ n. (of : ℕ) × (n ≡ Node.Coalesce of)) }
        ensures starts { IfOk result (StartsOf self.now) }
        ensures runs { IfOk result (RunsOf self.now) }
    {
        // Its call tells the proof what a plan keeps.
        let _ = self.plan.nodes();
        let kinds = self.kinds_read()?;
        let operator = new_coalesce(self.alloc, &kinds, self.capacity)?;
        Ok(Stage::Coalesce(operator))
    }

    // The stage of a Top of the plan, by this key and this column, of which so many are shown.
    fn top_stage(&self, key: &[usize], by: usize, most: usize) -> Result<Stage, Memory>
        requires is { IsOf self.now (λ n. (of : ℕ) × (n ≡ Node.Top of key.now by most)) }
        ensures starts { IfOk result (StartsOf self.now) }
        ensures runs { IfOk result (RunsOf self.now) }
    {
        // Its call tells the proof what a plan keeps.
        let _ = self.plan.nodes();
        let kinds = self.kinds_read()?;
        let operator = new_top(self.alloc, key, by, most, &kinds, self.capacity)?;
        Ok(Stage::Top(operator))
    }

    // The stage of a Join of the plan, by these keys of the left and of the right child.
    fn join_stage(
        &self,
        right: usize,
        left_key: &[usize],
        right_key: &[usize],
    ) -> Result<Stage, Memory>
        requires is { IsOf self.now (λ n. (left : ℕ)
            × (n ≡ Node.Join left right left_key.now right_key.now)) }
        ensures starts { IfOk result (StartsOf self.now) }
        ensures runs { IfOk result (RunsOf self.now) }
    {
        // Its call tells the proof what a plan keeps.
        let _ = self.plan.nodes();
        let left_kinds = self.kinds_read()?;
        let right_kinds = kinds_told(self.alloc, self.plan, right)?;
        let read = left_kinds.as_slice();
        let told = right_kinds.as_slice();
        let (alloc, capacity) = (self.alloc, self.capacity);
        let whole = self.shards(
            left_key,
            right_key,
            &|| { new_join(alloc, left_key, right_key, read, told, capacity) },
        )?;
        Ok(Stage::Join(whole))
    }

    // The stage of a Group of the plan, by this key and with these aggregates.
    fn group_stage(&self, key: &[usize], aggs: &[Agg]) -> Result<Stage, Memory>
        requires is { IsOf self.now (λ n. (of : ℕ) × (n ≡ Node.Group of key.now aggs.now)) }
        ensures starts { IfOk result (StartsOf self.now) }
        ensures runs { IfOk result (RunsOf self.now) }
    {
        // Its call tells the proof what a plan keeps.
        let _ = self.plan.nodes();
        let left_kinds = self.kinds_read()?;
        let own_kinds = kinds_told(self.alloc, self.plan, self.node)?;
        let read = left_kinds.as_slice();
        let told = own_kinds.as_slice();
        let (alloc, capacity) = (self.alloc, self.capacity);
        let whole = self.shards(
            key,
            &[],
            &|| { new_grouped(alloc, key, aggs, read, told, capacity) },
        )?;
        Ok(Stage::Group(whole))
    }

    // The stage of an Anti of the plan, by these keys of the left and of the right child.
    fn anti_stage(
        &self,
        right: usize,
        left_key: &[usize],
        right_key: &[usize],
    ) -> Result<Stage, Memory>
        requires is { IsOf self.now (λ n. (left : ℕ)
            × (n ≡ Node.Anti left right left_key.now right_key.now)) }
        ensures starts { IfOk result (StartsOf self.now) }
        ensures runs { IfOk result (RunsOf self.now) }
    {
        // Its call tells the proof what a plan keeps.
        let _ = self.plan.nodes();
        let left_kinds = self.kinds_read()?;
        let right_kinds = kinds_told(self.alloc, self.plan, right)?;
        let read = left_kinds.as_slice();
        let told = right_kinds.as_slice();
        let (alloc, capacity) = (self.alloc, self.capacity);
        let whole = self.shards(
            left_key,
            right_key,
            &|| { new_anti(alloc, left_key, right_key, read, told, capacity) },
        )?;
        Ok(Stage::Anti(whole))
    }

    // The stage of a Clip of the plan, by these keys of the left and of the right child.
    fn clip_stage(
        &self,
        right: usize,
        left_key: &[usize],
        right_key: &[usize],
    ) -> Result<Stage, Memory>
        requires is { IsOf self.now (λ n. (left : ℕ)
            × (n ≡ Node.Clip left right left_key.now right_key.now)) }
        ensures starts { IfOk result (StartsOf self.now) }
        ensures runs { IfOk result (RunsOf self.now) }
    {
        // Its call tells the proof what a plan keeps.
        let _ = self.plan.nodes();
        let left_kinds = self.kinds_read()?;
        let right_kinds = kinds_told(self.alloc, self.plan, right)?;
        let read = left_kinds.as_slice();
        let told = right_kinds.as_slice();
        let (alloc, capacity) = (self.alloc, self.capacity);
        let whole = self.shards(
            left_key,
            right_key,
            &|| { new_clip(alloc, left_key, right_key, read, told, capacity) },
        )?;
        Ok(Stage::Clip(whole))
    }

    // The stage of a Follow of the plan, by these keys of the left and of the right child, within this time.
    fn follow_stage(
        &self,
        right: usize,
        left_key: &[usize],
        right_key: &[usize],
        within: u64,
    ) -> Result<Stage, Memory>
        requires is { IsOf self.now (λ n. (left : ℕ)
            × (n ≡ Node.Follow left right left_key.now right_key.now within)) }
        ensures starts { IfOk result (StartsOf self.now) }
        ensures runs { IfOk result (RunsOf self.now) }
    {
        // Its call tells the proof what a plan keeps.
        let _ = self.plan.nodes();
        let left_kinds = self.kinds_read()?;
        let right_kinds = kinds_told(self.alloc, self.plan, right)?;
        let operator = Follow::new(
            self.alloc,
            left_key,
            right_key,
            within,
            &left_kinds,
            &right_kinds,
            self.capacity,
        )?;
        Ok(Stage::Follow(operator))
    }
}
