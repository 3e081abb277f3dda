// The parts of an engine at work.
ghost use Rattle.std.specs.Prelude.{◌≡◌, ◌≢◌, ◌<◌, ◌≤◌, ◌↔◌, IsTrue, ℕ, List, [], ◌∷◌, ◌++◌, true};
ghost use Rattle.std.specs.Prelude.{false, Some, None, length, map, nat_lt, cond, All};
ghost use Rattle.std.specs.Prelude.{IfOk, IfErr, OnOk};
ghost use Rattle.tw_rows.specs.Instant.{inf};
ghost use Rattle.plan_laws.specs.Places.{AreDistinct};
ghost use Rattle.admission.specs.declared.policy.Policy.{Policy as Admitting};
ghost use Rattle.admission.specs.Entries.{Told};
ghost use Rattle.admission.specs.Progress.{Progress, judged, start, progress, fault as fault_of};
ghost use Rattle.tempo_engine.specs.Faults.{IsFaultOf, IsBadOf, IsFaultAtEnd};
ghost use Rattle.tempo_engine.specs.Output.{result_kinds, plan_text, told};

use crate::fault::EngineFault;
use admission::Policy;
use batch::Pools;
use dataflow::Dataflow;
use egress::Egress;
use ingress::{Ingress, event_times_stay};
use plan_model::{MOST_COLUMNS, Plan};
use row_reader::read_cells;
use shard_apply::Gate;
use std::alloc::Global;
use std::thread::Threads;
use tw_rows::{Datum, Kind, Memory, TextTable, Time};
use where_select::column_kinds;

/// The parts of an engine: lines come in at the ingress, their edges go through the dataflow of the plan, and the egress shows
/// what the root changes. `closed` is how far the text goes, and `row` has the values of the last event that was read.
pub struct Parts {
    pub(crate) alloc: Global,
    pub(crate) texts: TextTable,
    pub(crate) ingress: Ingress,
    pub(crate) pools: Pools,
    pub(crate) dataflow: Dataflow,
    pub(crate) egress: Egress,
    pub(crate) closed: Time,
    pub(crate) row: Vec<Datum>,
}

// By hand, so that its users cite this and not the destructors of its parts.
impl Drop for Parts {
    fn drop(self) {
        let Parts {
            alloc: _,
            texts: _texts,
            ingress: _ingress,
            pools: _pools,
            dataflow: _dataflow,
            egress: _egress,
            closed: _,
            row: _row,
        } = self;
    }
}

// No text stands twice in a table.
pub(crate) fn each_text_once(texts: &TextTable)
    ensures { AreDistinct texts.now }
{
    let _count = texts.len();
}

// The time after all instants.
#[tactic(auto, unfolding(tw_rows::specs::Instant::inf))]
fn infinity() -> Time
    ensures { result ≡ inf }
{
    Time::INF
}

pub(crate) fn is_before(a: Time, b: Time) -> bool
    ensures { IsTrue result ↔ (a < b) }
{
    a < b
}

// The kinds of the columns of the result.
pub(crate) fn kinds_of_result(alloc: Global, plan: &Plan) -> Result<Vec<Kind>, Memory>
    ensures { IfOk result (λ kinds. kinds.items ≡ result_kinds plan.now) }
{
    let schemas = plan.schemas();
    column_kinds(alloc, schemas[plan.root()].items())
}

impl Parts {
    ghost use Rattle.tempo_engine.specs.Went.{HasFed, Further, WhateverFed, CanRun, TookLines};
    ghost use Rattle.tempo_engine.specs.Held.{HasWorked};
    ghost use Rattle.tempo_engine.specs.Working.{HasTaken};

    // Before the first line.
    pub(crate) fn new(
        alloc: Global,
        plan: Plan,
        policy: Policy,
        batch: usize,
        workers: usize,
    ) -> Result<Parts, Memory>
        requires batch { 1 ≤ batch }
        requires workers { (1 ≤ workers) × (workers ≤ 16) }
        ensures fed { IfOk result (HasFed plan policy [] (λ s. []) (λ k. [])) }
        ensures run { IfOk result CanRun }
        ensures thawed { IfOk result (λ e. e.dataflow.thawed ≡ false) }
        ensures batch { IfOk result (λ e. e.dataflow.capacity ≡ batch) }
        ensures workers { IfOk result (λ e. e.dataflow.workers ≡ workers) }
    {
        // its call tells the proof that no line has other times than event times
        event_times_stay();
        let ingress = Ingress::new(alloc, policy, plan.streams(), batch)?;
        let kinds = kinds_of_result(alloc, &plan)?;
        let egress = Egress::new(alloc, &kinds)?;
        let pools = Pools::new(alloc, MOST_COLUMNS, batch)?;
        let mut texts = TextTable::new(alloc);
        let dataflow = Dataflow::new(alloc, plan, batch, workers, &mut texts)?;
        Ok(Parts {
            alloc,
            texts,
            ingress,
            pools,
            dataflow,
            egress,
            closed: Time::ZERO,
            row: Vec::new(alloc),
        })
    }

    // Admits the line of that number.
    pub(crate) fn take_line(&mut self, number: u64, line: &[u8]) -> Result<(), EngineFault>
        requires short { length line.now ≤ 65536 }
        requires no_feed { All (λ b. b ≢ 10) line.now }
        requires run { CanRun self.old }
        ensures run { OnOk result (CanRun self.new) }
        ensures thawed { self.new.dataflow.thawed ≡ self.old.dataflow.thawed }
        ensures plan { self.new.dataflow.plan ≡ self.old.dataflow.plan }
        ensures workers { self.new.dataflow.workers ≡ self.old.dataflow.workers }
        ensures taken { OnOk result (WhateverFed self.old (λ plan policy lines given lists.
            HasTaken plan policy lines (told plan number line.now) given lists self.new)) }
        ensures fault { IfErr result (λ f. WhateverFed self.old (λ plan policy lines given lists.
            IsFaultOf f (fault_of plan policy (lines ++ told plan number line.now ∷ []) false))) }
        ensures bad { IfErr result (IsBadOf self.old.dataflow.plan number line.now) }
    {
        // its call tells the proof that the line has no other times than event times
        event_times_stay();
        let streams = self.dataflow.plan().streams();
        let first = number == 1;
        let said = match read_cells(
            self.alloc,
            line,
            first,
            streams,
            &mut self.texts,
            &mut self.row,
        ) {
            Ok(said) => said,
            Err(fault) => return Err(EngineFault::of_row(number, &fault)),
        };
        let row = self.row.as_slice();
        match self
            .ingress
            .admit_row(said, row, &self.texts, &mut self.pools)
        {
            Ok(_) => Ok(()),
            Err(refusal) => Err(EngineFault::of_refusal(number, &refusal)),
        }
    }

    // Works through infinity.
    pub(crate) fn finish<R: Threads + Sync, G: Gate>(
        &mut self,
        rt: &R,
        gate: &G,
    ) -> Result<Vec<u8>, EngineFault>
        requires run { CanRun self.old }
        requires took { TookLines self.old }
        ensures texts { self.new.texts ≡ self.old.texts }
        ensures fine { OnOk result (WhateverFed self.old (λ plan policy lines given lists.
            fault_of plan policy lines true ≡ None)) }
        ensures worked { OnOk result (WhateverFed self.old (λ plan policy lines given lists.
            HasWorked plan (progress plan policy lines true) self.new)) }
        ensures text { IfOk result (λ bytes. WhateverFed self.old (λ plan policy lines given lists.
            plan_text plan policy lines true ≡ plan_text plan policy lines false ++ bytes.items)) }
        ensures fault { IfErr result (λ f. WhateverFed self.old (λ plan policy lines given lists.
            IsFaultOf f (fault_of plan policy lines true))) }
        ensures at_end { IfErr result IsFaultAtEnd }
    {
        let end = infinity();
        if is_before(self.ingress.released(), end) {
            match self.punctuate(rt, gate, end) {
                Ok(bytes) => Ok(bytes),
                Err(fault) => Err(EngineFault::of_plan(end, &fault)),
            }
        } else {
            Ok(Vec::new(self.alloc))
        }
    }
}
