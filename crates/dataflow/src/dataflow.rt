// A plan at work: a stage for each node, a step of all of them, and what they keep, saved and loaded.
ghost use Rattle.std.specs.Prelude.{◌≡◌, ◌≢◌, ◌<◌, ◌≤◌, ℕ, true, false, Some, None, Err, List, [], map, length, slice_get};
ghost use Rattle.std.specs.Prelude.{IfOk, IfErr, OnOk, OnErr};
ghost use Rattle.tw_rows.specs.Texts.{BeginsWith};
ghost use Rattle.tw_rows.specs.declared.edge.Edge.{Edge};
ghost use Rattle.plan_model.specs.declared.node.Node.{Node};
ghost use Rattle.plan_model.specs.IsPlan.{IsPlan, kinds_at, most_columns};
ghost use Rattle.plan_laws.specs.Places.{EdgesArePlaced};
ghost use Rattle.lane_expr.specs.Steps.{with_texts};
ghost use Rattle.where_select.specs.Texts.{HasFirstTexts};
ghost use Rattle.edge_stream.specs.Lists.{edges_at};
ghost use Rattle.dataflow.specs.Lists.{AreOfStreams, IsListOf};
ghost use Rattle.dataflow.specs.declared.stage.Stage.{Stage as Kept};
ghost use Rattle.dataflow.specs.Stages.{StandsAsMade};
ghost use Rattle.dataflow.specs.Shards.{RunAll};
ghost use Rattle.dataflow.specs.Flows.{CanStep, MayStep, StepsOn, Flows, GivesOn, OverflowsAt, held_from};
ghost use Rattle.dataflow.specs.SameRun.{SameRun};
ghost use Rattle.dataflow.specs.Below.{MayStepBelow, StopsAt, UnderNone, OverflowsUnder};
ghost use Rattle.dataflow.specs.Saving.{SavesAll, AreStates, AreStored, FlowsResume};
ghost use Rattle.dataflow.specs.Held.{AreFresh, nodes_in_all};

use crate::fault::PlanFault;
use crate::saving::{load_all, save_all};
use crate::stage::Stage;
use crate::steps::{are_all_sure, step_all, step_nodes};
use batch::Pools;
use edge_stream::{EdgeList, LoadFault, Saved};
use plan_model::Plan;
use shard_apply::Gate;
use std::alloc::Global;
use std::marker::Model;
use std::thread::Threads;
use tw_rows::{Memory, TextTable, Time};

/// A plan at work. Contracts see the plan, its stages, how many rows each batch has room for, in how many shards a node with a
/// key is run, whether the stages took up what was saved, and the fault of a step; `Flows` says of which edges the stages have
/// taken steps. Once a step answered a fault, each later one answers it again.
pub struct Dataflow {
    alloc: Global,
    plan: Plan,
    stages: Vec<Stage>,
    capacity: usize,
    workers: usize,
    thawed: bool,
    // why a step gave no edges
    fault: Option<PlanFault>,
}

// By hand, so that crates that let one go cite this and not the destructors of its parts.
impl Drop for Dataflow {
    fn drop(self) {
        let Dataflow {
            alloc: _,
            plan: _plan,
            stages: _stages,
            capacity: _,
            workers: _,
            thawed: _,
            fault: _fault,
        } = self;
    }
}

impl Model for Dataflow {
    ghost use Rattle.std.specs.Coded.{codes};
    ghost use Rattle.dataflow.specs.contracts.stage.Stage as stage;
    ghost use Rattle.dataflow.specs.Flows.{DataflowView};
    ghost use Rattle.dataflow.specs.Shards.{RunAll};

    ghost Value = { DataflowView };

    ghost coded = { Prim.hlevel (codes, stage.the_row.coded) };

    ghost view = { λ d. record {
      plan = d.plan;
      stages = d.stages.items;
      capacity = d.capacity;
      workers = d.workers;
      thawed = d.thawed;
      fault = d.fault;
    } };

    ghost invariant = { λ d. RunAll d.workers d.plan.nodes d.stages.items };
}

// A stage for each node of the plan.
fn stages_of(
    alloc: Global,
    plan: &Plan,
    capacity: usize,
    workers: usize,
    texts: &mut TextTable,
) -> Result<Vec<Stage>, Memory>
    requires room { 1 ≤ capacity }
    requires some { 1 ≤ workers }
    requires few { workers ≤ 16 }
    ensures runs { IfOk result (λ stages. RunAll workers plan.now.nodes stages.items) }
    ensures fresh { IfOk result (λ stages. AreFresh texts.new capacity plan.now stages.items) }
    ensures table { OnOk result (texts.new ≡ with_texts texts.old (nodes_in_all plan.now.nodes)) }
    ensures err { OnErr result (HasFirstTexts texts.new texts.old (nodes_in_all plan.now.nodes)) }
    ensures begins { BeginsWith texts.new texts.old }
{
    let mut stages = Vec::new(alloc);
    for i in 0..plan.nodes().len() {
        stages.push(Stage::new(alloc, plan, i, capacity, workers, texts)?)?;
    }
    Ok(stages)
}

// For each stage its number, and how many entries it keeps.
fn held_by(alloc: Global, stages: &[Stage]) -> Result<Vec<(usize, u64)>, Memory>
    ensures { IfOk result (λ held. held.items ≡ held_from 0 stages.now) }
{
    let mut held = Vec::new(alloc);
    for i in 0..stages.len() {
        held.push((i, stages[i].held()))?;
    }
    Ok(held)
}

// The fault of an answer, where it is one.
fn fault_in(answer: &Result<EdgeList, PlanFault>) -> Option<PlanFault>
    ensures ok { OnOk answer.now (result ≡ None) }
    ensures err { IfErr answer.now (λ fault. result ≡ Some fault) }
{
    match answer {
        Ok(_) => None,
        Err(fault) => Some(*fault),
    }
}

// The fault that is kept behind a further step: its own, or else the one before.
fn fault_behind(
    before: Option<PlanFault>,
    stepped: &Result<Vec<EdgeList>, PlanFault>,
) -> Option<PlanFault>
    ensures ok { OnOk stepped.now (result ≡ before) }
    ensures err { IfErr stepped.now (λ fault. result ≡ Some fault) }
{
    match stepped {
        Ok(_) => before,
        Err(fault) => Some(*fault),
    }
}

impl Dataflow {
    /// The plan with a stage for each of its nodes, for batches of `capacity` rows, a node with a key in a shard for each
    /// worker. The texts of its expressions come into the table, and stay there out of memory.
    pub fn new(
        alloc: Global,
        plan: Plan,
        capacity: usize,
        workers: usize,
        texts: &mut TextTable,
    ) -> Result<Dataflow, Memory>
        requires room { 1 ≤ capacity }
        requires some { 1 ≤ workers }
        requires few { workers ≤ 16 }
        ensures flows { IfOk result (λ d. Flows texts.new 0 (λ s. []) (λ k. []) d) }
        ensures made { IfOk result (λ d. (i : ℕ) (s : Kept) → slice_get d.stages i ≡ Some s →
            StandsAsMade s) }
        ensures plan { IfOk result (λ d. d.plan ≡ plan) }
        ensures capacity { IfOk result (λ d. d.capacity ≡ capacity) }
        ensures workers { IfOk result (λ d. d.workers ≡ workers) }
        ensures thawed { IfOk result (λ d. d.thawed ≡ false) }
        ensures table { OnOk result (texts.new ≡ with_texts texts.old (nodes_in_all plan.nodes)) }
        ensures err { OnErr result (HasFirstTexts texts.new texts.old (nodes_in_all plan.nodes)) }
        ensures begins { BeginsWith texts.new texts.old }
    {
        let stages = stages_of(alloc, &plan, capacity, workers, texts)?;
        Ok(Dataflow {
            alloc,
            plan,
            stages,
            capacity,
            workers,
            thawed: false,
            fault: None,
        })
    }

    /// The plan.
    pub fn plan(&self) -> &Plan
        ensures { result.now ≡ self.now.plan }
    {
        &self.plan
    }

    /// In how many shards a node with a key is run.
    pub fn workers(&self) -> usize
        ensures { result ≡ self.now.workers }
    {
        self.workers
    }

    /// What computes each node, in order of number.
    pub fn stages(&self) -> &[Stage]
        ensures stages { result.now ≡ self.now.stages }
        ensures runs { RunAll self.now.workers self.now.plan.nodes result.now }
    {
        &self.stages
    }

    /// For each node, in order, its number and how many entries its stage keeps for later steps.
    pub fn held(&self) -> Result<Vec<(usize, u64)>, Memory>
        ensures { IfOk result (λ held. held.items ≡ held_from 0 self.now.stages) }
    {
        held_by(self.alloc, &self.stages)
    }

    /// One step of each node, in order of number, at the punctuation `p`, which is later than the last one: of the new edges
    /// of each stream the new edges of the root. Columns are taken from the pools, and go back there. After a fault each later
    /// step answers it again. Where the stages took up what was saved, Memory also tells that a place is not in the table.
    /// Shards pass the gate, and run beside each other where threads can be made; no answer depends on their number.
    pub fn step<R: Threads + Sync, G: Gate>(
        &mut self,
        rt: &R,
        gate: &G,
        pools: &mut Pools,
        texts: &TextTable,
        given: Vec<EdgeList>,
        p: Time,
    ) -> Result<EdgeList, PlanFault>
        requires may { self.old.fault ≡ None → MayStep texts.now p (edges_at given.items) self.old }
        requires given { AreOfStreams self.old.capacity self.old.plan given.items }
        requires placed { self.old.thawed ≡ false → (s : ℕ) →
            EdgesArePlaced texts.now (edges_at given.items s) }
        requires capacity { pools.old.capacity ≡ self.old.capacity }
        requires limit { most_columns ≤ pools.old.limit }
        ensures flowed { IfOk result (λ out. GivesOn texts.now p (edges_at given.items) self.old
            self.new out.edges) }
        ensures can { OnOk result (StepsOn texts.now p self.old self.new) }
        ensures overflow { self.old.fault ≡ None →
            IfErr result (λ fault. (node time : ℕ) → fault ≡ PlanFault.Overflow node time →
            OverflowsAt texts.now p (edges_at given.items) self.old node time) }
        ensures stopped { self.old.fault ≡ None →
            IfErr result (λ fault. (node time : ℕ) → fault ≡ PlanFault.Overflow node time →
            StopsAt texts.now p (edges_at given.items) node self.old self.new) }
        ensures kept { IfErr result (λ fault. self.new.fault ≡ Some fault) }
        ensures again { (fault : PlanFault) → self.old.fault ≡ Some fault → result ≡ Err fault }
        ensures list { IfOk result (λ out. IsListOf texts.now self.old.capacity
            (kinds_at self.old.plan.schemas self.old.plan.root) out) }
        ensures same { SameRun self.old self.new }
        ensures pools { pools.new.capacity ≡ pools.old.capacity }
        ensures limit { pools.new.limit ≡ pools.old.limit }
    {
        if let Some(fault) = self.fault {
            return Err(fault);
        }
        self.fault = Some(PlanFault::Memory);
        if !are_all_sure(self.thawed, &given, texts) {
            return Err(PlanFault::Memory);
        }
        let stepped = step_all(
            rt,
            gate,
            self.alloc,
            pools,
            texts,
            &self.plan,
            &mut self.stages,
            self.thawed,
            given,
            p,
        );
        self.fault = fault_in(&stepped);
        stepped
    }

    /// After a step that failed: one step more of the nodes below `node`, at the later punctuation `p`, with all edges before
    /// it that were not given yet. The fault is that of the lowest of them that overflows by then. A fault stays kept: this
    /// one, or else the one that was.
    pub fn step_below<R: Threads + Sync, G: Gate>(
        &mut self,
        rt: &R,
        gate: &G,
        pools: &mut Pools,
        texts: &TextTable,
        node: usize,
        given: Vec<EdgeList>,
        p: Time,
    ) -> Result<(), PlanFault>
        requires failed { self.old.fault ≢ None }
        requires node { node ≤ length self.old.plan.nodes }
        requires may { MayStepBelow texts.now p node (edges_at given.items) self.old }
        requires given { AreOfStreams self.old.capacity self.old.plan given.items }
        requires placed { self.old.thawed ≡ false → (s : ℕ) →
            EdgesArePlaced texts.now (edges_at given.items s) }
        requires capacity { pools.old.capacity ≡ self.old.capacity }
        requires limit { most_columns ≤ pools.old.limit }
        ensures none { OnOk result (UnderNone texts.now p node (edges_at given.items) self.old) }
        ensures overflow { IfErr result (λ fault. (lower time : ℕ) →
            fault ≡ PlanFault.Overflow lower time →
            OverflowsUnder texts.now p node (edges_at given.items) self.old lower time) }
        ensures kept { IfErr result (λ fault. self.new.fault ≡ Some fault) }
        ensures stays { OnOk result (self.new.fault ≡ self.old.fault) }
        ensures same { SameRun self.old self.new }
        ensures pools { pools.new.capacity ≡ pools.old.capacity }
        ensures limit { pools.new.limit ≡ pools.old.limit }
    {
        if !are_all_sure(self.thawed, &given, texts) {
            self.fault = Some(PlanFault::Memory);
            return Err(PlanFault::Memory);
        }
        let stepped = step_nodes(
            rt,
            gate,
            self.alloc,
            pools,
            texts,
            &self.plan,
            &mut self.stages,
            self.thawed,
            given,
            p,
            node,
        );
        self.fault = fault_behind(self.fault, &stepped);
        match stepped {
            Ok(_made) => {}
            Err(fault) => return Err(fault),
        }
        Ok(())
    }
}

// What each step answers once lists were taken up, where it is a fault.
fn fault_after(loaded: &Result<(), LoadFault>) -> Option<PlanFault>
    ensures ok { OnOk loaded.now (result ≡ None) }
    ensures err { OnErr loaded.now (result ≡ Some PlanFault.Memory) }
{
    match loaded {
        Ok(()) => None,
        Err(_) => Some(PlanFault::Memory),
    }
}

impl Dataflow {
    /// What each stage keeps, as entries, in order of number: for each a list for each of its shards, and no more entries than
    /// it keeps. No step failed.
    pub fn save(&self) -> Result<Vec<Vec<Saved>>, Memory>
        requires { (texts : List (List ℕ)) × ((last : ℕ) × CanStep texts last self.now) }
        ensures saves { IfOk result (λ saved. SavesAll self.now.stages
            (map (λ v. v.items) saved.items)) }
        ensures states { IfOk result (λ saved. (texts : List (List ℕ)) (last : ℕ) →
            CanStep texts last self.now → AreStates self.now.workers self.now.plan last
            (map (λ v. v.items) saved.items)) }
        ensures resumes { IfOk result (λ saved.
            (texts : List (List ℕ)) (last : ℕ) (given lists : ℕ → List Edge) →
            Flows texts last given lists self.now →
            FlowsResume texts last given lists self.now.workers self.now.plan
            (map (λ v. v.items) saved.items)) }
        ensures stored { IfOk result (λ saved. IsPlan self.now.plan →
            AreStored self.now.plan (map (λ v. v.items) saved.items)) }
    {
        save_all(self.alloc, &self.stages)
    }

    /// Takes up what was saved once the punctuation `last` was worked through, 0 before the first one. Each stage stands as it
    /// was made. It is refused where the lists are no state of the plan, for this number of workers. After a fault the plan is
    /// of no more use: each step answers Memory.
    pub fn load(&mut self, saved: &[Vec<Saved>], last: Time) -> Result<(), LoadFault>
        requires made { (i : ℕ) (s : Kept) → slice_get self.old.stages i ≡ Some s → StandsAsMade s }
        requires can { (texts : List (List ℕ)) × CanStep texts 0 self.old }
        ensures can { OnOk result ((texts : List (List ℕ)) → CanStep texts 0 self.old →
            CanStep texts last self.new) }
        ensures flows { OnOk result ((texts then : List (List ℕ)) (given lists : ℕ → List Edge) →
            CanStep texts 0 self.old → BeginsWith texts then →
            FlowsResume then last given lists self.old.workers self.old.plan
            (map (λ v. v.items) saved.now) → Flows texts last given lists self.new) }
        ensures states { OnOk result (AreStates self.old.workers self.old.plan last
            (map (λ v. v.items) saved.now)) }
        ensures refused { IfErr result (λ fault. fault ≡ LoadFault.NotState →
            AreStates self.old.workers self.old.plan last (map (λ v. v.items) saved.now) → ⊥) }
        ensures stopped { OnErr result (self.new.fault ≡ Some PlanFault.Memory) }
        ensures thawed { self.new.thawed ≡ true }
        ensures plan { self.new.plan ≡ self.old.plan }
        ensures capacity { self.new.capacity ≡ self.old.capacity }
        ensures workers { self.new.workers ≡ self.old.workers }
    {
        self.thawed = true;
        self.fault = Some(PlanFault::Memory);
        if saved.len() != self.plan.nodes().len() {
            return Err(LoadFault::NotState);
        }
        let loaded = load_all(&self.plan, &mut self.stages, saved, last);
        self.fault = fault_after(&loaded);
        loaded
    }
}
