// One step of a node in shards.
ghost use Rattle.std.specs.Prelude.{◌≡◌, ℕ, ◌≤◌, true, false, is_err, Some, None, length, map, All, IfOk, IfErr, OnOk};
ghost use Rattle.edge_history.specs.Order.{KeepsOrder};
ghost use Rattle.edge_stream.specs.Listing.{cells_of};
ghost use Rattle.plan_laws.specs.Undefined.{is_group};
ghost use Rattle.edge_stream.specs.Standing.{IsLike};
ghost use Rattle.edge_stream.specs.Steps.{AnswersBetween, StaysKept, IsFirstUndefined};
ghost use Rattle.shard_apply.specs.Stepping.{CanTake, HasStepped};
ghost use Rattle.shard_apply.specs.Whole.{first_of, side_by_side, standing_in, AreInStep, ShardsKeep};
ghost use Rattle.shard_apply.specs.Shards.{operators_of, rooms_of};

use crate::fork::step_shards;
use crate::gate::Gate;
use crate::gather::gathered;
use crate::shard::{Cut, News, Shard};
use crate::sharded::Sharded;
use batch::Pools;
use edge_stream::{EdgeList, Operator, StepFault};
use std::alloc::Global;
use std::thread::Threads;
use tw_rows::Time;

impl<O: Operator> Sharded<O> {
    /// Takes the new edges of both sides, which are closed up to the two times, and answers what the node has to tell up to its
    /// new closing. Each shard passes the gate, and takes the edges of its number in a thread of its own where one can be made.
    /// Where a shard is out of memory the answer is Memory, and else the earliest overflow. After a failure no further step may
    /// be taken.
    pub fn step<R: Threads + Sync, G: Gate>(
        &mut self,
        rt: &R,
        gate: &G,
        pools: &mut Pools,
        left: EdgeList,
        right: EdgeList,
        left_to: Time,
        right_to: Time,
    ) -> Result<EdgeList, StepFault>
        requires works { (standing_in O.standing self.old).has_failed ≡ false }
        requires left_rises { (standing_in O.standing self.old).left_closed ≤ left_to }
        requires right_rises { (standing_in O.standing self.old).right_closed ≤ right_to }
        requires left_kinds { cells_of left ≡ (standing_in O.standing self.old).left_kinds }
        requires right_kinds { cells_of right ≡ (standing_in O.standing self.old).right_kinds }
        requires left_capacity { left.capacity ≡ (standing_in O.standing self.old).batch_rows }
        requires right_capacity { right.capacity ≡ (standing_in O.standing self.old).batch_rows }
        requires capacity { pools.old.capacity ≡ (standing_in O.standing self.old).batch_rows }
        ensures kept { IfOk result (λ answer. StaysKept (standing_in O.standing self.old)
            (ShardsKeep O.standing O.keeps self.old) (ShardsKeep O.standing O.keeps self.new)
            left.edges right.edges answer.edges) }
        ensures between { IfOk result (λ answer. AnswersBetween (standing_in O.standing self.old)
            left.edges right.edges left_to right_to answer.edges) }
        ensures defined { OnOk result (IsFirstUndefined (standing_in O.standing self.old)
            (ShardsKeep O.standing O.keeps self.old) left.edges left_to right_to None) }
        ensures overflow { IfErr result (λ fault. (time : ℕ) → fault ≡ StepFault.Overflow time →
            IsFirstUndefined (standing_in O.standing self.old)
            (ShardsKeep O.standing O.keeps self.old) left.edges left_to right_to (Some time)) }
        ensures group { IfErr result (λ fault. (time : ℕ) → fault ≡ StepFault.Overflow time →
            is_group (standing_in O.standing self.old).node ≡ true) }
        ensures kinds { IfOk result (λ answer. cells_of answer
            ≡ (standing_in O.standing self.old).own_kinds) }
        ensures capacity { IfOk result (λ answer.
            answer.capacity ≡ (standing_in O.standing self.old).batch_rows) }
        ensures pools { pools.new.capacity ≡ pools.old.capacity }
        ensures limit { pools.new.limit ≡ pools.old.limit }
        ensures left_to { OnOk result ((standing_in O.standing self.new).left_closed ≡ left_to) }
        ensures right_to { OnOk result ((standing_in O.standing self.new).right_closed ≡ right_to) }
        ensures failed { (standing_in O.standing self.new).has_failed ≡ is_err result }
        ensures like { IsLike (standing_in O.standing self.old) (standing_in O.standing self.new) }
        ensures shards { length self.new.operators ≡ length self.old.operators }
    {
        if self.shards.len() == 1 {
            gate.enter(0);
            return self.step_alone(pools, left, right, left_to, right_to);
        }
        let answer = self.step_apart(rt, gate, pools, &left, &right, left_to, right_to);
        give_back_both(pools, left, right);
        answer
    }

    // The step of a node in one shard, which takes all edges.
    fn step_alone(
        &mut self,
        pools: &mut Pools,
        left: EdgeList,
        right: EdgeList,
        left_to: Time,
        right_to: Time,
    ) -> Result<EdgeList, StepFault>
        requires can { CanTake
            (standing_in O.standing self.old) pools.old.capacity left right left_to right_to }
        requires one { length self.old.operators ≡ 1 }
        ensures stepped { HasStepped (standing_in O.standing self.old)
            (standing_in O.standing self.new) (ShardsKeep O.standing O.keeps self.old)
            (ShardsKeep O.standing O.keeps self.new)
            left.edges right.edges left_to right_to result }
        ensures failed { (standing_in O.standing self.new).has_failed ≡ is_err result }
        ensures pools { pools.new.capacity ≡ pools.old.capacity }
        ensures limit { pools.new.limit ≡ pools.old.limit }
        ensures shards { length self.new.operators ≡ length self.old.operators }
    {
        self.failed = true;
        let answer = self.shards[0]
            .operator
            .step(pools, left, right, left_to, right_to);
        is_in_order(&answer);
        self.failed = answer.is_err();
        answer
    }

    // The step of a node in several shards, each of which takes its edges of the lists.
    fn step_apart<R: Threads + Sync, G: Gate>(
        &mut self,
        rt: &R,
        gate: &G,
        pools: &mut Pools,
        left: &EdgeList,
        right: &EdgeList,
        left_to: Time,
        right_to: Time,
    ) -> Result<EdgeList, StepFault>
        requires can { CanTake (standing_in O.standing self.old) pools.old.capacity left.now
            right.now left_to right_to }
        ensures stepped { HasStepped (standing_in O.standing self.old)
            (standing_in O.standing self.new) (ShardsKeep O.standing O.keeps self.old)
            (ShardsKeep O.standing O.keeps self.new) left.now.edges right.now.edges left_to right_to
            result }
        ensures failed { (standing_in O.standing self.new).has_failed ≡ is_err result }
        ensures pools { pools.new.capacity ≡ pools.old.capacity }
        ensures limit { pools.new.limit ≡ pools.old.limit }
        ensures shards { length self.new.operators ≡ length self.old.operators }
    {
        self.failed = true;
        let cut = Cut {
            left_key: &self.left_key,
            right_key: &self.right_key,
            count: self.shards.len(),
        };
        let news = News {
            left,
            right,
            left_to,
            right_to,
        };
        let answer = step_together(rt, gate, self.alloc, pools, &mut self.shards, &cut, &news);
        self.failed = answer.is_err();
        answer
    }
}

// The edges of an answer are in order. A law: the call does nothing.
fn is_in_order(answer: &Result<EdgeList, StepFault>)
    ensures { IfOk answer.now (λ list. KeepsOrder list.edges) }
{
    if let Ok(list) = answer {
        // A cursor tells it.
        let _cursor = list.cursor();
    }
}

// One step of all shards, and what they answered, put together.
fn step_together<R: Threads + Sync, G: Gate, O: Operator>(
    rt: &R,
    gate: &G,
    alloc: Global,
    pools: &mut Pools,
    shards: &mut [Shard<O>],
    cut: &Cut<'_>,
    news: &News<'_>,
) -> Result<EdgeList, StepFault>
    requires in_step { AreInStep (map O.standing (operators_of shards.old))
        cut.now.left_key.now cut.now.right_key.now }
    requires can { CanTake (first_of (map O.standing (operators_of shards.old))) pools.old.capacity
        news.now.left.now news.now.right.now news.now.left_to news.now.right_to }
    requires capacities { All (λ s. s.pools.capacity ≡ pools.old.capacity) shards.old }
    requires count { cut.now.count ≡ length shards.old }
    ensures stepped { HasStepped
        (standing_in O.standing (side_by_side (operators_of shards.old)
        cut.now.left_key.now cut.now.right_key.now false))
        (standing_in O.standing (side_by_side (operators_of shards.new)
        cut.now.left_key.now cut.now.right_key.now (is_err result)))
        (ShardsKeep O.standing O.keeps (side_by_side (operators_of shards.old)
        cut.now.left_key.now cut.now.right_key.now false))
        (ShardsKeep O.standing O.keeps (side_by_side (operators_of shards.new)
        cut.now.left_key.now cut.now.right_key.now (is_err result)))
        news.now.left.now.edges news.now.right.now.edges news.now.left_to news.now.right_to result }
    ensures in_step { OnOk result (
        AreInStep (map O.standing (operators_of shards.new))
        cut.now.left_key.now cut.now.right_key.now) }
    ensures capacities { rooms_of shards.new ≡ rooms_of shards.old }
    ensures pools { pools.new.capacity ≡ pools.old.capacity }
    ensures limit { pools.new.limit ≡ pools.old.limit }
{
    // The room of a list tells the proof that it is not 0.
    let _room = news.left.capacity();
    step_shards(rt, gate, shards, cut, news);
    gathered(alloc, pools, shards)
}

// Gives the columns of both lists back.
fn give_back_both(pools: &mut Pools, left: EdgeList, right: EdgeList)
    requires left { pools.old.capacity ≡ left.capacity }
    requires right { pools.old.capacity ≡ right.capacity }
    ensures capacity { pools.new.capacity ≡ pools.old.capacity }
    ensures limit { pools.new.limit ≡ pools.old.limit }
{
    left.give_back(pools);
    right.give_back(pools);
}
