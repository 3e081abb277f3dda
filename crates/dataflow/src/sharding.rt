// The making of nodes that run in shards.
ghost use Rattle.std.specs.Prelude.{◌≡◌, ◌≤◌, [], Ok, false, length, map, All, IfOk};
ghost use Rattle.tw_rows.specs.Kinds.{cell_kind_of};
ghost use Rattle.plan_model.specs.declared.node.Node.{Node};
ghost use Rattle.snapshot_agg.specs.Answering.{group_kinds};
ghost use Rattle.snapshot_agg.specs.Operating.{standing as group_standing};
ghost use Rattle.sweep_sides.specs.Sweepers.{new_standing};
ghost use Rattle.shard_apply.specs.Whole.{first_of, side_by_side, AreInStep, AreNew};
ghost use Rattle.dataflow.specs.Stages.{IsNewGroup};

use batch::Pools;
use edge_stream::Operator;
use plan_model::{Agg, MOST_COLUMNS};
use shard_apply::Sharded;
use snapshot_agg::Grouped;
use std::alloc::Global;
use tw_rows::{Kind, Memory};

/// So many operators, each as `make` gives it.
pub(crate) fn operators_of<O: Operator, F: Fn() -> Result<O, Memory>>(
    alloc: Global,
    count: usize,
    make: &F,
) -> Result<Vec<O>, Memory>
    requires { F.IsAlwaysCallable make.now }
    ensures count { IfOk result (λ operators. length operators.items ≡ count) }
    ensures each { IfOk result (λ operators. All (λ o. F.post make.now (Ok o)) operators.items) }
{
    let mut operators = Vec::with_capacity(alloc, count)?;
    for _ in 0..count {
        operators.push(make()?)?;
    }
    Ok(operators)
}

// Pools for each of so many shards, for lists of as many columns as a node may have.
fn pools_of(alloc: Global, count: usize, capacity: usize) -> Result<Vec<Pools>, Memory>
    ensures count { IfOk result (λ pools. length pools.items ≡ count) }
    ensures capacities { IfOk result (λ pools. All (λ p. p.capacity ≡ capacity) pools.items) }
{
    let mut pools = Vec::with_capacity(alloc, count)?;
    for _ in 0..count {
        pools.push(Pools::new(alloc, MOST_COLUMNS, capacity)?)?;
    }
    Ok(pools)
}

/// The node of these operators, which stand as they were made and are alike, with the columns of its keys.
pub(crate) fn in_shards<O: Operator>(
    alloc: Global,
    operators: Vec<O>,
    capacity: usize,
    left_key: &[usize],
    right_key: &[usize],
) -> Result<Sharded<O>, Memory>
    requires few { length operators.items ≤ 16 }
    requires opening { All O.is_opening operators.items }
    requires in_step { AreInStep (map O.standing operators.items) left_key.now right_key.now }
    requires capacity { (first_of (map O.standing operators.items)).batch_rows ≡ capacity }
    ensures whole { IfOk result (λ w. w ≡ side_by_side operators.items left_key.now right_key.now
        false) }
    ensures opening { IfOk result (AreNew O.is_opening O.standing) }
{
    let pools = pools_of(alloc, operators.len(), capacity)?;
    Sharded::new(alloc, operators, pools, left_key, right_key)
}

/// The operator of a Group by this key with these aggregates, of children with such columns.
pub(crate) fn new_grouped(
    alloc: Global,
    key: &[usize],
    aggs: &[Agg],
    left: &[Kind],
    own: &[Kind],
    capacity: usize,
) -> Result<Grouped, Memory>
    requires like { map cell_kind_of own.now
        ≡ group_kinds key.now aggs.now (map cell_kind_of left.now) }
    requires width { length own.now ≤ 32 }
    requires room { 1 ≤ capacity }
    ensures stands { IfOk result (λ g. group_standing g
        ≡ new_standing (Node.Group 0 key.now aggs.now) left.now [] own.now capacity) }
    ensures opening { IfOk result IsNewGroup }
{
    let operator = Grouped::new(alloc, key, aggs, left, own, capacity)?;
    Ok(operator)
}
