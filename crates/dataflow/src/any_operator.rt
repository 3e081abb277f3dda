// A step of any operator in a plan, as a whole or in shards.
ghost use Rattle.std.specs.Prelude.{◌≡◌, ℕ, true, Some, None, length, IfOk, IfErr, OnOk, OnErr};
ghost use Rattle.shard_apply.specs.Whole.{standing_in, ShardsKeep};
ghost use Rattle.dataflow.specs.Operating.{CanOperateOn, StaysOperating, KeepsOperating, OperatesUndefinedAt, OperatesOver};

use batch::Pools;
use edge_stream::{EdgeList, Operator, StepFault};
use shard_apply::{Gate, Sharded};
use std::thread::Threads;
use tw_rows::Time;

/// The edges that the node of the operator emits once the new edges of its sides came in, which are then closed up to the two
/// times.
pub(crate) fn step_operator<O: Operator>(
    operator: &mut O,
    pools: &mut Pools,
    left: EdgeList,
    right: EdgeList,
    left_to: Time,
    right_to: Time,
) -> Result<EdgeList, StepFault>
    requires can { CanOperateOn left right (O.standing operator.old) left_to right_to }
    requires capacity { (pools.old.capacity ≡ left.capacity) × (right.capacity ≡ left.capacity) }
    ensures ready { OnOk result (StaysOperating left right (O.standing operator.old)
        (O.standing operator.new) left_to right_to) }
    ensures kept { IfOk result (KeepsOperating left right (O.standing operator.old)
        (O.keeps operator.old) (O.keeps operator.new) left_to right_to) }
    ensures defined { OnOk result (OperatesUndefinedAt left right (O.standing operator.old)
        (O.keeps operator.old) left_to right_to None) }
    ensures overflow { IfErr result (λ fault. (time : ℕ) → fault ≡ StepFault.Overflow time →
        OperatesUndefinedAt left right (O.standing operator.old) (O.keeps operator.old) left_to
        right_to (Some time)) }
    ensures stopped { OnErr result ((O.standing operator.new).has_failed ≡ true) }
    ensures kinds { IfOk result (OperatesOver left right (O.standing operator.old)) }
    ensures capacity { IfOk result (λ answer. answer.capacity ≡ left.capacity) }
    ensures pools { pools.new.capacity ≡ pools.old.capacity }
    ensures limit { pools.new.limit ≡ pools.old.limit }
{
    operator.step(pools, left, right, left_to, right_to)
}

/// The same of a node in shards, which pass the gate. How many there are stays.
pub(crate) fn step_sharded<R: Threads + Sync, G: Gate, O: Operator>(
    whole: &mut Sharded<O>,
    rt: &R,
    gate: &G,
    pools: &mut Pools,
    left: EdgeList,
    right: EdgeList,
    left_to: Time,
    right_to: Time,
) -> Result<EdgeList, StepFault>
    requires can { CanOperateOn left right (standing_in O.standing whole.old) left_to right_to }
    requires capacity { (pools.old.capacity ≡ left.capacity) × (right.capacity ≡ left.capacity) }
    ensures ready { OnOk result (StaysOperating left right
        (standing_in O.standing whole.old) (standing_in O.standing whole.new) left_to right_to) }
    ensures kept { IfOk result (KeepsOperating left right (standing_in O.standing whole.old)
        (ShardsKeep O.standing O.keeps whole.old) (ShardsKeep O.standing O.keeps whole.new) left_to
        right_to) }
    ensures defined { OnOk result (OperatesUndefinedAt left right (standing_in O.standing whole.old)
        (ShardsKeep O.standing O.keeps whole.old) left_to right_to None) }
    ensures overflow { IfErr result (λ fault. (time : ℕ) → fault ≡ StepFault.Overflow time →
        OperatesUndefinedAt left right (standing_in O.standing whole.old)
        (ShardsKeep O.standing O.keeps whole.old) left_to right_to (Some time)) }
    ensures stopped { OnErr result (whole.new.failed ≡ true) }
    ensures kinds { IfOk result (OperatesOver left right (standing_in O.standing whole.old)) }
    ensures capacity { IfOk result (λ answer. answer.capacity ≡ left.capacity) }
    ensures pools { pools.new.capacity ≡ pools.old.capacity }
    ensures limit { pools.new.limit ≡ pools.old.limit }
    ensures shards { length whole.new.operators ≡ length whole.old.operators }
{
    whole.step(rt, gate, pools, left, right, left_to, right_to)
}
