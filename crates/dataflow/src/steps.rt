// One step of each node of a plan.
ghost use Rattle.std.specs.Prelude.{◌≡◌, ◌<◌, ◌≤◌, ℕ, true, false, List, length, IsTrue, IfOk, IfErr, OnOk};
ghost use Rattle.plan_model.specs.IsPlan.{kinds_at, most_columns};
ghost use Rattle.plan_laws.specs.Places.{EdgesArePlaced};
ghost use Rattle.dataflow.specs.Faults.{fault_at};
ghost use Rattle.edge_stream.specs.Lists.{edges_at};
ghost use Rattle.dataflow.specs.Lists.{AreGiven, IsListOf};
ghost use Rattle.dataflow.specs.Shards.{RunAll};
ghost use Rattle.dataflow.specs.Flows.{parts_of, MayStep, StepsOn, GivesOn, OverflowsAt};
ghost use Rattle.dataflow.specs.Below.{MayStepBelow, GivesBelow, StepsBelow, AreMade, StopsAt, StopsUnder, OverflowsUnder};

use crate::closings::{closings_at, left_closing, right_closing};
use crate::fault::PlanFault;
use crate::readers::Readers;
use crate::reading::{left_list, right_list};
use crate::stage::Stage;
use batch::Pools;
use edge_stream::{EdgeList, StepFault};
use plan_model::Plan;
use shard_apply::Gate;
use std::alloc::Global;
use std::thread::Threads;
use tw_rows::{TextTable, Time};

// The fault of the node of that number.
fn fault_of(node: usize, fault: &StepFault) -> PlanFault
    ensures { result ≡ fault_at node fault.now }
{
    match fault {
        StepFault::Overflow { time } => PlanFault::Overflow { node, time: *time },
        StepFault::Memory => PlanFault::Memory,
    }
}

// Whether all places in the edges are in the table. It is tested where stages took up what was saved,
// which can be what no engine wrote; else the edges are answers of steps, whose places are there.
fn are_sure(thawed: bool, list: &EdgeList, texts: &TextTable) -> bool
    ensures tested { thawed ≡ true → IsTrue result → EdgesArePlaced texts.now list.now.edges }
    ensures sure { thawed ≡ false → IsTrue result }
{
    !thawed || list.are_placed(texts)
}

/// The same of some lists.
pub(crate) fn are_all_sure(thawed: bool, lists: &[EdgeList], texts: &TextTable) -> bool
    ensures tested { thawed ≡ true → IsTrue result →
        (s : ℕ) → EdgesArePlaced texts.now (edges_at lists.now s) }
    ensures sure { thawed ≡ false → IsTrue result }
{
    for i in 0..lists.len() {
        if !are_sure(thawed, &lists[i], texts) {
            return false;
        }
    }
    true
}

/// One step of each of the first `count` nodes of a plan, in order of number: what each made, as long as no later one took it.
pub(crate) fn step_nodes<R: Threads + Sync, G: Gate>(
    rt: &R,
    gate: &G,
    alloc: Global,
    pools: &mut Pools,
    texts: &TextTable,
    plan: &Plan,
    stages: &mut Vec<Stage>,
    thawed: bool,
    mut given: Vec<EdgeList>,
    p: Time,
    count: usize,
) -> Result<Vec<EdgeList>, PlanFault>
    requires count { count ≤ length plan.now.nodes }
    requires may { MayStepBelow texts.now p count (edges_at given.items)
        (parts_of plan.now stages.old.items pools.old.capacity thawed) }
    requires given { AreGiven texts.now pools.old.capacity plan.now given.items }
    requires limit { most_columns ≤ pools.old.limit }
    ensures flowed { IfOk result (λ made. GivesBelow texts.now p count (edges_at given.items)
        (parts_of plan.now stages.old.items pools.old.capacity thawed)
        (parts_of plan.now stages.new.items pools.old.capacity thawed) made.items) }
    ensures can { OnOk result (StepsBelow texts.now p count
        (parts_of plan.now stages.old.items pools.old.capacity thawed)
        (parts_of plan.now stages.new.items pools.old.capacity thawed)) }
    ensures made { IfOk result (λ made. AreMade texts.now pools.old.capacity plan.now count
        made.items) }
    ensures stopped { IfErr result (λ fault. (node time : ℕ) →
        fault ≡ PlanFault.Overflow node time → StopsUnder texts.now p count (edges_at given.items)
        node (parts_of plan.now stages.old.items pools.old.capacity thawed)
        (parts_of plan.now stages.new.items pools.old.capacity thawed)) }
    ensures overflow { IfErr result (λ fault. (node time : ℕ) →
        fault ≡ PlanFault.Overflow node time → OverflowsUnder texts.now p count
        (edges_at given.items) (parts_of plan.now stages.old.items pools.old.capacity thawed) node
        time) }
    ensures runs { (workers : ℕ) → RunAll workers plan.now.nodes stages.old.items →
        RunAll workers plan.now.nodes stages.new.items }
    ensures capacity { pools.new.capacity ≡ pools.old.capacity }
    ensures limit { pools.new.limit ≡ pools.old.limit }
{
    // Its call tells the proof that it is a time.
    let _ = p.word();
    let nodes = plan.nodes();
    let closings = closings_at(plan, p);
    let readers = Readers::of(alloc, plan)?;
    let mut made: Vec<EdgeList> = Vec::new(alloc);
    for i in 0..count {
        let left = left_list(alloc, pools, plan, &readers, i, &mut given, &mut made)?;
        let right = right_list(alloc, pools, plan, &readers, i, &mut made)?;
        let left_to = left_closing(plan, &closings, i, p);
        let right_to = right_closing(plan, &closings, i);
        match stages[i].step(
            rt, gate, alloc, pools, texts, left, right, left_to, right_to,
        ) {
            Ok(list) => {
                if !are_sure(thawed, &list, texts) {
                    return Err(PlanFault::Memory);
                }
                made.push(list)?
            }
            Err(fault) => return Err(fault_of(i, &fault)),
        }
    }
    Ok(made)
}

/// One step of each node of a plan, in order of number: the new edges of the root.
pub(crate) fn step_all<R: Threads + Sync, G: Gate>(
    rt: &R,
    gate: &G,
    alloc: Global,
    pools: &mut Pools,
    texts: &TextTable,
    plan: &Plan,
    stages: &mut Vec<Stage>,
    thawed: bool,
    given: Vec<EdgeList>,
    p: Time,
) -> Result<EdgeList, PlanFault>
    requires may { MayStep texts.now p (edges_at given.items)
        (parts_of plan.now stages.old.items pools.old.capacity thawed) }
    requires given { AreGiven texts.now pools.old.capacity plan.now given.items }
    requires limit { most_columns ≤ pools.old.limit }
    ensures flowed { IfOk result (λ out. GivesOn texts.now p (edges_at given.items)
        (parts_of plan.now stages.old.items pools.old.capacity thawed)
        (parts_of plan.now stages.new.items pools.old.capacity thawed) out.edges) }
    ensures can { OnOk result (StepsOn texts.now p
        (parts_of plan.now stages.old.items pools.old.capacity thawed)
        (parts_of plan.now stages.new.items pools.old.capacity thawed)) }
    ensures stopped { IfErr result (λ fault. (node time : ℕ) →
        fault ≡ PlanFault.Overflow node time → StopsAt texts.now p (edges_at given.items) node
        (parts_of plan.now stages.old.items pools.old.capacity thawed)
        (parts_of plan.now stages.new.items pools.old.capacity thawed)) }
    ensures overflow { IfErr result (λ fault. (node time : ℕ) →
        fault ≡ PlanFault.Overflow node time → OverflowsAt texts.now p (edges_at given.items)
        (parts_of plan.now stages.old.items pools.old.capacity thawed) node time) }
    ensures runs { (workers : ℕ) → RunAll workers plan.now.nodes stages.old.items →
        RunAll workers plan.now.nodes stages.new.items }
    ensures list { IfOk result (λ out. IsListOf texts.now pools.old.capacity
        (kinds_at plan.now.schemas plan.now.root) out) }
    ensures capacity { pools.new.capacity ≡ pools.old.capacity }
    ensures limit { pools.new.limit ≡ pools.old.limit }
{
    let count = plan.nodes().len();
    match step_nodes(
        rt, gate, alloc, pools, texts, plan, stages, thawed, given, p, count,
    ) {
        Ok(mut made) => Ok(made.swap_remove(plan.root())),
        Err(fault) => Err(fault),
    }
}
