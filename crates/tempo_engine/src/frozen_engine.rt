// An engine frozen, and an engine that was made of what another was frozen to.
ghost use Rattle.std.specs.Prelude.{◌≡◌, ◌↔◌, ◌≤◌, ℕ, false, Some, None, Err, List, IfOk, IfErr};
ghost use Rattle.tw_rows.specs.declared.edge.Edge.{Edge};
ghost use Rattle.plan_model.specs.IsPlan.{PlanParts};
ghost use Rattle.admission.specs.declared.policy.Policy.{Policy as Admitting};
ghost use Rattle.admission.specs.Entries.{Told};
ghost use Rattle.admission.specs.Progress.{progress};

use crate::engine::{Engine, Options};
use crate::fault::EngineFault;
use crate::laws::answers_of_lines_stand;
use crate::parts::{Parts, each_text_once};
use dataflow::{plans_keep_at_most, row_stages_keep_nothing};
use edge_stream::LoadFault;
use frozen_state::Frozen;
use plan_model::Plan;
use std::alloc::Global;
use tw_rows::{Memory, Time};

/// Why no engine is made of what was frozen.
#[derive(Clone, Copy, Debug, PartialEq, Eq)]
pub enum ThawFault {
    /// It is no state of an engine of the plan and the options.
    NotState,
    /// Out of memory.
    Memory,
}

impl ThawFault {
    fn of_load(fault: LoadFault) -> ThawFault
        ensures { (result ≡ ThawFault.NotState) ↔ (fault ≡ LoadFault.NotState) }
    {
        match fault {
            LoadFault::NotState => ThawFault::NotState,
            LoadFault::Memory => ThawFault::Memory,
        }
    }
}

impl Engine {
    ghost use Rattle.tempo_engine.specs.Fed.{Fed, FedBy, WhateverTook};
    ghost use Rattle.tempo_engine.specs.Held.{MadeDue};
    ghost use Rattle.tempo_engine.specs.Frozen.{Fits, FitsBy, IsState};
    ghost use Rattle.tempo_engine.specs.Entries.{entries_of, may_freeze};

    /// What it keeps, while the input goes on. It stays as it was. After a fault it answers that fault. Memory also tells that
    /// what it keeps is of no form; that is never so of an engine that took its state from lines.
    pub fn freeze(&self) -> Result<Frozen, EngineFault>
        requires going { self.now.ended ≡ false }
        ensures fits { IfOk result (λ f. WhateverTook self.now (λ plan policy lines.
            Fits self.now.parts.dataflow.workers plan policy lines f)) }
        ensures lists { IfOk result (λ f. (plan : PlanParts) (policy : Admitting)
            (lines : List Told) (given lists : ℕ → List Edge) →
            FedBy plan policy lines given lists self.now →
            FitsBy self.now.parts.dataflow.workers plan policy lines given lists f) }
        ensures lines { IfOk result (λ f. f.lines ≡ self.now.lines) }
        ensures few { IfOk result (λ f. WhateverTook self.now
            (λ plan policy lines. (made : List Told) → MadeDue plan policy lines false made →
            entries_of f.parts ≤ may_freeze plan policy made lines)) }
        ensures again { (f : EngineFault) → self.now.fault ≡ Some f → result ≡ Err f }
        ensures fault { self.now.fault ≡ None → IfErr result (λ f. f ≡ EngineFault.Memory) }
    {
        if let Some(fault) = self.fault {
            return Err(fault);
        }
        // These calls tell the proof how much the nodes may keep, and which rows the root shows.
        each_text_once(&self.parts.texts);
        plans_keep_at_most();
        row_stages_keep_nothing();
        answers_of_lines_stand();
        match self.parts.freeze(self.lines) {
            Ok(frozen) => Ok(frozen),
            Err(Memory) => Err(EngineFault::Memory),
        }
    }

    /// The last punctuation that was worked through, and 0 before the first.
    pub fn last_punctuation(&self) -> Time
        ensures { WhateverTook self.now (λ plan policy lines.
            result ≡ (progress plan policy lines false).last) }
    {
        self.parts.ingress.released()
    }

    /// An engine that goes on from what was frozen: as if it had taken the lines that this fits.
    pub fn thaw(
        alloc: Global,
        plan: Plan,
        options: Options,
        frozen: Frozen,
    ) -> Result<Engine, ThawFault>
        requires batch { 1 ≤ options.batch }
        requires workers { (1 ≤ options.workers) × (options.workers ≤ 16) }
        ensures fed { IfOk result (λ e. (lines : List Told) →
            Fits options.workers plan options.policy lines frozen →
            Fed plan options.policy lines e) }
        ensures lists { IfOk result (λ e. (lines : List Told) (given lists : ℕ → List Edge) →
            FitsBy options.workers plan options.policy lines given lists frozen →
            FedBy plan options.policy lines given lists e) }
        ensures lines { IfOk result (λ e. e.lines ≡ frozen.lines) }
        ensures going { IfOk result (λ e. (e.fault ≡ None) × (e.ended ≡ false)) }
        ensures plan { IfOk result (λ e. e.parts.dataflow.plan ≡ plan) }
        ensures batch { IfOk result (λ e. e.parts.dataflow.capacity ≡ options.batch) }
        ensures workers { IfOk result (λ e. e.parts.dataflow.workers ≡ options.workers) }
        ensures state { IfOk result (λ e. IsState options.workers plan frozen) }
        ensures refused { IfErr result (λ fault. fault ≡ ThawFault.NotState →
            IsState options.workers plan frozen → ⊥) }
    {
        let lines = frozen.lines();
        match Parts::thaw(
            alloc,
            plan,
            options.policy,
            options.batch,
            options.workers,
            frozen,
        ) {
            Ok(parts) => Ok(Engine {
                parts,
                lines,
                fault: None,
                ended: false,
            }),
            Err(fault) => Err(ThawFault::of_load(fault)),
        }
    }
}
