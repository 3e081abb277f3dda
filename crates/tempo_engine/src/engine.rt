// An engine: lines in, text out.
ghost use Rattle.std.specs.Prelude.{◌≡◌, ◌≢◌, ◌≤◌, Bool, List, [], ◌∷◌, ◌++◌, true, false, None, Some, length, All, IfOk, IfErr, OnOk};
ghost use Rattle.plan_model.specs.IsPlan.{PlanParts};
ghost use Rattle.admission.specs.declared.policy.Policy.{Policy as Admitting};
ghost use Rattle.admission.specs.Entries.{Told};
ghost use Rattle.admission.specs.Progress.{progress, fault as fault_of};
ghost use Rattle.dataflow.specs.Shards.{RunAll};
ghost use Rattle.tempo_engine.specs.Faults.{IsFaultOf, IsBadOf, IsFaultAtEnd};
ghost use Rattle.tempo_engine.specs.Held.{with_first};
ghost use Rattle.tempo_engine.specs.Output.{plan_text, told};

use crate::block::FedBlock;
use crate::fault::EngineFault;
use crate::parts::{Parts, each_text_once};
use admission::Policy;
use dataflow::{Stage, plans_keep_at_most};
use plan_model::Plan;
use shard_apply::Gate;
use std::alloc::Global;
use std::marker::Model;
use std::thread::Threads;
use tw_rows::Memory;

/// How an engine works: so many rows go through the plan at once, each node with a key is so many operators side by side, and
/// lines are admitted by the policy.
#[derive(Clone, Copy, Debug, PartialEq, Eq)]
pub struct Options {
    pub batch: usize,
    pub workers: usize,
    pub policy: Policy,
}

/// A plan at work. `Fed` says which lines it took. Once a call answered a fault, each later one answers it again; after the
/// end of the input nothing more is taken, and nothing answered.
pub struct Engine {
    pub(crate) parts: Parts,
    // the number of the last line, 0 before the first one
    pub(crate) lines: u64,
    pub(crate) fault: Option<EngineFault>,
    pub(crate) ended: bool,
}

// By hand, so that a crate that lets an engine go cites this and not the destructors of all its parts.
impl Drop for Engine {
    fn drop(self) {
        let Engine {
            parts: _parts,
            lines: _,
            fault: _,
            ended: _,
        } = self;
    }
}

impl Model for Engine {
    ghost use Rattle.tempo_engine.specs.Went.{EngineView, GoesOn};
    ghost use Rattle.std.specs.Coded.{codes};
    ghost use Rattle.tempo_engine.specs.contracts.parts.Parts as pieces;

    ghost Value = { EngineView };

    ghost coded = { Prim.hlevel (codes, pieces.the_row.coded) };

    ghost view = { λ e. record {
      parts = e.parts;
      lines = e.lines;
      fault = e.fault;
      ended = e.ended;
    } };

    ghost invariant = { λ e. GoesOn e.fault e.ended e.parts };
}

// The fault of an answer, where it is one.
fn fault_in<T>(answer: &Result<T, EngineFault>) -> Option<EngineFault>
    ensures ok { OnOk answer.now (result ≡ None) }
    ensures err { IfErr answer.now (λ fault. result ≡ Some fault) }
{
    match answer {
        Ok(_) => None,
        Err(fault) => Some(*fault),
    }
}

// Lets the first pair tell this number.
fn tell_first(pairs: &mut Vec<(usize, u64)>, number: u64)
    ensures { pairs.new.items ≡ with_first number pairs.old.items }
{
    if !pairs.is_empty() {
        pairs[0] = (pairs[0].0, number);
    }
}

impl Engine {
    ghost use Rattle.tempo_engine.specs.Fed.{Fed, WhateverTook, FeedsOn};
    ghost use Rattle.tempo_engine.specs.Held.{Holds, AreHeld};
    ghost use Rattle.tempo_engine.specs.Block.{between_feeds, told_block, GrowsWith, StopsIn};
    ghost use Rattle.tempo_engine.specs.Block.{BadIn, FeedsAllOn};

    /// An engine that took no line.
    pub fn new(alloc: Global, plan: Plan, options: Options) -> Result<Engine, Memory>
        requires batch { 1 ≤ options.batch }
        requires workers { (1 ≤ options.workers) × (options.workers ≤ 16) }
        ensures fed { IfOk result (Fed plan options.policy []) }
        ensures batch { IfOk result (λ e. e.parts.dataflow.capacity ≡ options.batch) }
        ensures workers { IfOk result (λ e. e.parts.dataflow.workers ≡ options.workers) }
    {
        let parts = Parts::new(alloc, plan, options.policy, options.batch, options.workers)?;
        Ok(Engine {
            parts,
            lines: 0,
            fault: None,
            ended: false,
        })
    }

    /// What computes each node of the plan, in order of number: as many operators as there are workers where the node has a key.
    pub fn stages(&self) -> &[Stage]
        ensures stages { result.now ≡ self.now.parts.dataflow.stages }
        ensures runs { RunAll self.now.parts.dataflow.workers self.now.parts.dataflow.plan.nodes
            result.now }
    {
        self.parts.dataflow.stages()
    }

    /// For each node, in order, its number and how many entries it keeps for later lines. What is pending for the Sources is
    /// counted at the first of them. The numbers are as exact as there is room for.
    pub fn held(&self) -> Result<Vec<(usize, u64)>, Memory>
        ensures { IfOk result (λ held. (plan : PlanParts) (policy : Admitting) (lines : List Told)
            (ended : Bool) → Holds plan policy lines ended self.now →
            AreHeld plan (progress plan policy lines ended) self.now.parts held.items) }
    {
        let mut held = self.parts.dataflow.held()?;
        tell_first(&mut held, self.parts.ingress.held());
        Ok(held)
    }

    /// Takes the lines between which LFs stand, of which the first has that number: the bytes by which the text grows, up to the
    /// first line that has a fault. One line without its line feed is a block of one.
    pub fn feed_block<R: Threads + Sync, G: Gate>(
        &mut self,
        rt: &R,
        gate: &G,
        first: u64,
        lines: &[u8],
    ) -> FedBlock
        requires short { All (λ l. length l ≤ 65536) (between_feeds lines.now) }
        ensures fed { result.fault ≡ None → WhateverTook self.old (λ plan policy before.
            Fed plan policy (before ++ told_block plan first lines.now) self.new) }
        ensures lists { result.fault ≡ None →
            FeedsAllOn self.old (λ plan. told_block plan first lines.now) self.new }
        ensures holds { result.fault ≡ None → WhateverTook self.old (λ plan policy before.
            Holds plan policy (before ++ told_block plan first lines.now) false self.new) }
        ensures text { result.fault ≡ None → WhateverTook self.old (λ plan policy before.
            GrowsWith plan policy before (told_block plan first lines.now) result.text.items) }
        ensures fault { (f : EngineFault) → result.fault ≡ Some f → WhateverTook self.old
            (λ plan policy before. StopsIn plan policy before first (between_feeds lines.now)
            result.text.items f) }
        ensures kept { self.new.fault ≡ result.fault }
        ensures again { (f : EngineFault) → self.old.fault ≡ Some f →
            (result.fault ≡ Some f) × (result.text.items ≡ []) }
        ensures over { self.old.ended ≡ true → result.text.items ≡ [] }
        ensures ended { self.new.ended ≡ self.old.ended }
        ensures bad { self.old.fault ≡ None → (f : EngineFault) → result.fault ≡ Some f →
            BadIn self.old.parts.dataflow.plan first (between_feeds lines.now) f }
        ensures plan { self.new.parts.dataflow.plan ≡ self.old.parts.dataflow.plan }
        ensures workers { self.new.parts.dataflow.workers ≡ self.old.parts.dataflow.workers }
    {
        let mut text = Vec::new(self.parts.alloc);
        if let Some(fault) = self.fault {
            return FedBlock {
                text,
                fault: Some(fault),
            };
        }
        if self.ended {
            return FedBlock { text, fault: None };
        }
        let fed = self.parts.feed_lines(rt, gate, first, lines, &mut text);
        self.fault = fault_in(&fed);
        self.lines = fed.unwrap_or(self.lines);
        // These calls tell the proof how much the nodes may keep.
        each_text_once(&self.parts.texts);
        plans_keep_at_most();
        FedBlock {
            text,
            fault: self.fault,
        }
    }

    /// Takes the line of that number, which stands without its line feed: the bytes by which the text grows.
    pub fn feed_line<R: Threads + Sync, G: Gate>(
        &mut self,
        rt: &R,
        gate: &G,
        number: u64,
        line: &[u8],
    ) -> Result<Vec<u8>, EngineFault>
        requires short { length line.now ≤ 65536 }
        requires no_feed { All (λ b. b ≢ 10) line.now }
        ensures fed { OnOk result (WhateverTook self.old (λ plan policy lines.
            Fed plan policy (lines ++ told plan number line.now ∷ []) self.new)) }
        ensures lists { OnOk result (FeedsOn self.old (λ plan. told plan number line.now)
            self.new) }
        ensures holds { OnOk result (WhateverTook self.old (λ plan policy lines.
            Holds plan policy (lines ++ told plan number line.now ∷ []) false self.new)) }
        ensures text { IfOk result (λ bytes. WhateverTook self.old
            (λ plan policy lines. plan_text plan policy (lines ++ told plan number line.now ∷ [])
            false ≡ plan_text plan policy lines false ++ bytes.items)) }
        ensures fault { IfErr result (λ f. WhateverTook self.old (λ plan policy lines.
            IsFaultOf f (fault_of plan policy (lines ++ told plan number line.now ∷ []) false))) }
        ensures kept { IfErr result (λ f. self.new.fault ≡ Some f) }
        ensures again { (f : EngineFault) → self.old.fault ≡ Some f → result ≡ Err f }
        ensures over { self.old.ended ≡ true → IfOk result (λ bytes. bytes.items ≡ []) }
        ensures ended { self.new.ended ≡ self.old.ended }
        ensures fine { OnOk result (self.new.fault ≡ None) }
        ensures bad { self.old.fault ≡ None → IfErr result
            (IsBadOf self.old.parts.dataflow.plan number line.now) }
        ensures plan { self.new.parts.dataflow.plan ≡ self.old.parts.dataflow.plan }
        ensures workers { self.new.parts.dataflow.workers ≡ self.old.parts.dataflow.workers }
    {
        let FedBlock { text, fault } = self.feed_block(rt, gate, number, line);
        match fault {
            None => Ok(text),
            Some(fault) => Err(fault),
        }
    }

    /// The input ends here: the bytes by which the text grows.
    pub fn finish<R: Threads + Sync, G: Gate>(
        &mut self,
        rt: &R,
        gate: &G,
    ) -> Result<Vec<u8>, EngineFault>
        ensures fine { OnOk result (WhateverTook self.old
            (λ plan policy lines. fault_of plan policy lines true ≡ None)) }
        ensures holds { OnOk result (WhateverTook self.old
            (λ plan policy lines. Holds plan policy lines true self.new)) }
        ensures text { IfOk result (λ bytes. WhateverTook self.old (λ plan policy lines.
            plan_text plan policy lines true ≡ plan_text plan policy lines false ++ bytes.items)) }
        ensures fault { IfErr result (λ f. WhateverTook self.old (λ plan policy lines.
            IsFaultOf f (fault_of plan policy lines true))) }
        ensures kept { IfErr result (λ f. self.new.fault ≡ Some f) }
        ensures again { (f : EngineFault) → self.old.fault ≡ Some f → result ≡ Err f }
        ensures over { self.old.ended ≡ true → IfOk result (λ bytes. bytes.items ≡ []) }
        ensures ended { OnOk result (self.new.ended ≡ true) }
        ensures at_end { self.old.fault ≡ None → IfErr result IsFaultAtEnd }
    {
        if let Some(fault) = self.fault {
            return Err(fault);
        }
        if self.ended {
            return Ok(Vec::new(self.parts.alloc));
        }
        self.ended = true;
        let finished = self.parts.finish(rt, gate);
        self.fault = fault_in(&finished);
        // These calls tell the proof how much the nodes may keep.
        each_text_once(&self.parts.texts);
        plans_keep_at_most();
        finished
    }
}
