// What a step of any operator answers, known from the trait alone.
ghost use Rattle.std.specs.Prelude.{◌≡◌, ℕ, ◌≤◌, false, Some, None, List, ◌++◌, IfOk, IfErr, OnOk};
ghost use Rattle.edge_stream.specs.Listing.{cells_of};
ghost use Rattle.edge_stream.specs.Steps.{StandsAfter, IsFirstUndefined};

use crate::operator::Operator;
use crate::{EdgeList, StepFault};
use batch::Pools;
use tw_rows::Time;

/// One step of any operator. All that it answered so far then stands for its node, up to its new closing, below which the
/// node is not undefined. It answers an overflow at the first instant below this closing at which the node is.
pub fn step_once<O: Operator>(
    operator: &mut O,
    pools: &mut Pools,
    left: EdgeList,
    right: EdgeList,
    left_to: Time,
    right_to: Time,
) -> Result<EdgeList, StepFault>
    requires works { (O.standing operator.old).has_failed ≡ false }
    requires left_rises { (O.standing operator.old).left_closed ≤ left_to }
    requires right_rises { (O.standing operator.old).right_closed ≤ right_to }
    requires left_kinds { cells_of left ≡ (O.standing operator.old).left_kinds }
    requires right_kinds { cells_of right ≡ (O.standing operator.old).right_kinds }
    requires left_capacity { left.capacity ≡ (O.standing operator.old).batch_rows }
    requires right_capacity { right.capacity ≡ (O.standing operator.old).batch_rows }
    requires capacity { pools.old.capacity ≡ (O.standing operator.old).batch_rows }
    ensures stands { IfOk result (λ answer.
        StandsAfter (O.standing operator.old) (O.keeps operator.old) left.edges right.edges left_to
        right_to answer.edges) }
    ensures defined { OnOk result (IsFirstUndefined (O.standing operator.old)
        (O.keeps operator.old) left.edges left_to right_to None) }
    ensures overflow { IfErr result (λ fault. (time : ℕ) → fault ≡ StepFault.Overflow time →
        IsFirstUndefined (O.standing operator.old) (O.keeps operator.old) left.edges left_to
        right_to (Some time)) }
{
    O::laws();
    operator.step(pools, left, right, left_to, right_to)
}
