// The parts of an engine while they work through a punctuation, in slices of its epoch: the edges before it that were not
// given to the plan yet.
ghost use Rattle.std.specs.Prelude.{◌≡◌, ◌<◌, ◌≤◌, ℕ, List, Some, None, length, nat_lt, cond, IfOk, IfErr, OnOk};
ghost use Rattle.tw_rows.specs.Instant.{inf};
ghost use Rattle.tw_rows.specs.declared.edge.Edge.{Edge};
ghost use Rattle.plan_laws.specs.Undefined.{overflow};
ghost use Rattle.admission.specs.Admission.{Admission, rows};
ghost use Rattle.admission.specs.Progress.{judged};

use crate::parts::{Parts, each_text_once, is_before};
use dataflow::{PlanFault, overflows_stay};
use plan_model::closes;
use shard_apply::Gate;
use std::thread::Threads;
use tw_rows::{Memory, Time};

// The time, where it is later than the other.
fn if_later(last: Time, time: Time) -> Option<Time>
    ensures { result ≡ cond (nat_lt last time) (Some time) None }
{
    if last < time { Some(time) } else { None }
}

impl Parts {
    ghost use Rattle.tempo_engine.specs.Went.{Went, Further, CanRun};
    ghost use Rattle.tempo_engine.specs.Held.{HasWorked};
    ghost use Rattle.tempo_engine.specs.Working.{IsDue, IsDueOfLines, WhenDue, IsShown};
    ghost use Rattle.tempo_engine.specs.Underway.{IsUnderway, WhileUnderway, IsUnderwayOfLines};
    ghost use Rattle.tempo_engine.specs.Underway.{CanStepRest, HasOverflowed, HasOverflowedOfLines};

    // What is told of the epoch of `p` after a step failed at the end of one of its slices: of an overflow, that of the lowest
    // node that overflows by `p`. So the nodes below it take all that is left of the epoch.
    fn lowest_fault<R: Threads + Sync, G: Gate>(
        &mut self,
        rt: &R,
        gate: &G,
        fault: PlanFault,
        p: Time,
    ) -> PlanFault
        requires can { (node time : ℕ) → fault ≡ PlanFault.Overflow node time →
            CanStepRest node self.old }
        requires lines { (node time : ℕ) → fault ≡ PlanFault.Overflow node time →
            HasOverflowedOfLines node time self.old }
        requires low { (self.old.ingress.released ≤ p) × (p ≤ inf) }
        ensures overflow { (node time lower at : ℕ) → fault ≡ PlanFault.Overflow node time →
            result ≡ PlanFault.Overflow lower at → (a : Admission) (given lists : ℕ → List Edge) →
            HasOverflowed node time a given lists self.old →
            overflow (rows a) self.old.dataflow.plan.nodes p
            ≡ Some (record { node = lower; time = at }) }
        ensures memory { fault ≡ PlanFault.Memory → result ≡ PlanFault.Memory }
        ensures thawed { self.new.dataflow.thawed ≡ self.old.dataflow.thawed }
        ensures plan { self.new.dataflow.plan ≡ self.old.dataflow.plan }
        ensures workers { self.new.dataflow.workers ≡ self.old.dataflow.workers }
        ensures texts { self.new.texts ≡ self.old.texts }
    {
        let node = match fault {
            PlanFault::Overflow { node, .. } => node,
            PlanFault::Memory => return fault,
        };
        if !is_before(self.ingress.released(), p) {
            return fault;
        }
        each_text_once(&self.texts);
        // its call tells the proof that the fault of a slice stays, unless a lower node has one
        overflows_stay();
        let rest = match self.ingress.release(&mut self.pools, p) {
            Ok(rest) => rest,
            Err(Memory) => return PlanFault::Memory,
        };
        match self
            .dataflow
            .step_below(rt, gate, &mut self.pools, &self.texts, node, rest, p)
        {
            Ok(()) => fault,
            Err(lower) => lower,
        }
    }

    // Works through a slice of the epoch of `p`: the edges before `end` go through the plan, and the egress takes what the root
    // changes up to its closing. After a fault, which is that of the whole epoch, nothing more is asked.
    fn work_slice<R: Threads + Sync, G: Gate>(
        &mut self,
        rt: &R,
        gate: &G,
        end: Time,
        p: Time,
    ) -> Result<(), PlanFault>
        requires run { CanRun self.old }
        requires later { (self.old.ingress.released < end) × ((end ≤ p) × (p ≤ inf)) }
        requires lines { IsUnderwayOfLines self.old }
        ensures run { OnOk result (CanRun self.new) }
        ensures released { OnOk result (self.new.ingress.released ≡ end) }
        ensures thawed { self.new.dataflow.thawed ≡ self.old.dataflow.thawed }
        ensures plan { self.new.dataflow.plan ≡ self.old.dataflow.plan }
        ensures workers { self.new.dataflow.workers ≡ self.old.dataflow.workers }
        ensures texts { self.new.texts ≡ self.old.texts }
        ensures underway { OnOk result (WhileUnderway self.old
            (λ plan policy w given lists. Further given lists
            (λ more_given more_lists. IsUnderway plan policy w more_given more_lists self.new))) }
        ensures overflow { IfErr result (λ fault. (node time : ℕ) →
            fault ≡ PlanFault.Overflow node time → WhileUnderway self.old
            (λ plan policy w given lists. overflow (rows w.after) plan.nodes p
            ≡ Some (record { node = node; time = time }))) }
    {
        each_text_once(&self.texts);
        let given = match self.ingress.release(&mut self.pools, end) {
            Ok(given) => given,
            Err(Memory) => return Err(PlanFault::Memory),
        };
        let edges = match self
            .dataflow
            .step(rt, gate, &mut self.pools, &self.texts, given, end)
        {
            Ok(edges) => edges,
            Err(fault) => return Err(self.lowest_fault(rt, gate, fault, p)),
        };
        // its call tells the proof how the cells are stored
        edges.cells_are_of_kinds();
        let plan = self.dataflow.plan();
        let to = closes(plan, plan.root(), end);
        match self.egress.take(&mut self.pools, edges, to, &self.texts) {
            Ok(()) => Ok(()),
            Err(Memory) => Err(PlanFault::Memory),
        }
    }

    // Works through a punctuation, slice by slice, and then renders what the root changes up to its closing. After a fault
    // nothing more is asked.
    pub(crate) fn punctuate<R: Threads + Sync, G: Gate>(
        &mut self,
        rt: &R,
        gate: &G,
        p: Time,
    ) -> Result<Vec<u8>, PlanFault>
        requires run { CanRun self.old }
        requires later { (self.old.ingress.released < p) × (p ≤ inf) }
        requires due { IsDueOfLines p self.old }
        ensures run { OnOk result (CanRun self.new) }
        ensures thawed { self.new.dataflow.thawed ≡ self.old.dataflow.thawed }
        ensures plan { self.new.dataflow.plan ≡ self.old.dataflow.plan }
        ensures workers { self.new.dataflow.workers ≡ self.old.dataflow.workers }
        ensures texts { self.new.texts ≡ self.old.texts }
        ensures went { OnOk result (WhenDue p self.old
            (λ plan policy w given lists. ((s : ℕ) → s < length plan.streams →
            p ≤ w.after.bound s) → Further given lists
            (λ more_given more_lists. Went plan policy (judged p w None) more_given more_lists
            self.new))) }
        ensures worked { OnOk result (WhenDue p self.old (λ plan policy w given lists.
            HasWorked plan (judged p w None) self.new)) }
        ensures shown { IfOk result (λ bytes. WhenDue p self.old (λ plan policy w given lists.
            IsShown p plan w bytes.items)) }
        ensures overflow { IfErr result (λ fault. (node time : ℕ) →
            fault ≡ PlanFault.Overflow node time → WhenDue p self.old
            (λ plan policy w given lists. overflow (rows w.after) plan.nodes p
            ≡ Some (record { node = node; time = time }))) }
    {
        'slices: while is_before(self.ingress.released(), p) {
            let end = self.ingress.slice_end(p, self.pools.capacity());
            match self.work_slice(rt, gate, end, p) {
                Ok(()) => {}
                Err(fault) => return Err(fault),
            }
        }
        let plan = self.dataflow.plan();
        let to = closes(plan, plan.root(), p);
        match self.egress.render(if_later(self.closed, to)) {
            Ok(bytes) => {
                self.closed = to;
                Ok(bytes)
            }
            Err(Memory) => Err(PlanFault::Memory),
        }
    }
}
