// A query answered over generated lines, and the summary of the answer.
ghost use Rattle.std.specs.Prelude.{◌≡◌, ◌≤◌, ◌<◌, ◌+◌, [], IfOk, IfErr, OnOk, List, ℕ, None, map, length, true, false};
ghost use Rattle.wire_lines.specs.Journal.{Grows};
ghost use Rattle.sample_trades.specs.Lines.{line_of};
ghost use Rattle.sample_trades.specs.ToCome.{to_come};
ghost use Rattle.tempo_cli.specs.Told.{answers};
ghost use Rattle.tempo_cli.specs.Summing.{IsFailed, Sums, summary_for};
ghost use Rattle.tempo_cli.specs.Feeding.{Asked, from_start, answers_to, IsAsked, IsOwn};
ghost use Rattle.tempo_cli.specs.Sampled.{Sampled};
ghost use Rattle.tempo_cli.specs.Status.{Counts};

use crate::answering::feed;
use crate::status::Status;
use plan_model::Plan;
use sample_trades::{LineCounts, Sample};
use shard_apply::Gate;
use std::alloc::Global;
use std::thread::Threads;
use tempo_engine::{Engine, Options};
use tw_rows::Memory;
use wire_lines::{Wire, WriteFailed, send};

/// A query at work on generated lines: the lines still to come, the one that was fed last and its number, and the counts of the
/// answer so far.
#[derive(Drop)]
pub struct Sampling {
    pub alloc: Global,
    pub engine: Engine,
    pub header: bool,
    pub sample: Sample,
    pub line: Vec<u8>,
    pub number: u64,
    pub counts: LineCounts,
}

impl Sampling {
    /// No line fed.
    pub fn new(
        alloc: Global,
        plan: Plan,
        options: Options,
        header: bool,
        sample: Sample,
    ) -> Result<Sampling, Memory>
        requires batch { 1 ≤ options.batch }
        requires workers { (1 ≤ options.workers) × (options.workers ≤ 16) }
        ensures sampled { IfOk result (λ s.
            Sampled (from_start plan options.policy header) (map line_of (to_come sample)) s) }
        ensures number { IfOk result (λ s. s.number ≡ 0) }
        ensures to_come { IfOk result (λ s. to_come s.sample ≡ to_come sample) }
    {
        let engine = Engine::new(alloc, plan, options)?;
        let counts = LineCounts::new(alloc);
        Ok(Sampling {
            alloc,
            engine,
            header,
            sample,
            line: Vec::new(alloc),
            number: 0,
            counts,
        })
    }

    // What the next line comes to: it is counted, and there may be another; or there was none.
    fn feed_next<R: Threads + Sync, G: Gate>(&mut self, rt: &R, gate: &G) -> Result<bool, Status>
        requires few { self.old.number + length (to_come self.old.sample) ≤ 2000000 }
        ensures few { IfOk result (λ _. self.new.number + length
            (to_come self.new.sample) ≤ 2000000) }
        ensures sampled { IfOk result (λ _. (q : Asked) (all : List (List ℕ)) →
            Sampled q all self.old → Sampled q all self.new) }
        ensures less { IfOk result (λ more. more ≡ true →
            length (to_come self.new.sample) < length (to_come self.old.sample)) }
        ensures end { IfOk result (λ more. more ≡ false → to_come self.new.sample ≡ []) }
        ensures failed { IfErr result (λ status. (q : Asked) (all : List (List ℕ)) →
            Sampled q all self.old → IsFailed (answers_to q) all status) }
        ensures own { IfErr result IsOwn }
    {
        let Some(next) = self.sample.next_line() else {
            return Ok(false);
        };
        next.write(&mut self.line)?;
        self.number += 1;
        let out = feed(
            rt,
            self.alloc,
            &mut self.engine,
            self.header,
            self.number,
            &self.line,
            gate,
        )?;
        self.counts.add(&out)?;
        Ok(true)
    }

    // Feeds all lines that are to come.
    fn feed_all<R: Threads + Sync, G: Gate>(&mut self, rt: &R, gate: &G) -> Result<(), Status>
        requires few { self.old.number + length (to_come self.old.sample) ≤ 2000000 }
        ensures sampled { OnOk result ((q : Asked) (all : List (List ℕ)) → Sampled q all self.old →
            Sampled q all self.new) }
        ensures end { OnOk result (to_come self.new.sample ≡ []) }
        ensures failed { IfErr result (λ status. (q : Asked) (all : List (List ℕ)) →
            Sampled q all self.old → IsFailed (answers_to q) all status) }
        ensures own { IfErr result IsOwn }
    {
        'lines: loop {
            let more = self.feed_next(rt, gate)?;
            if !more {
                return Ok(());
            }
        }
    }

    // The summary, after all lines.
    fn finish<R: Threads + Sync, G: Gate>(&mut self, rt: &R, gate: &G) -> Result<Vec<u8>, Status>
        requires end { to_come self.old.sample ≡ [] }
        ensures fine { IfOk result (λ _. (q : Asked) (all : List (List ℕ)) →
            Sampled q all self.old → (answers_to q).fault all true ≡ None) }
        ensures text { IfOk result (λ text. (q : Asked) (all : List (List ℕ)) →
            Sampled q all self.old → text.items ≡ summary_for (answers_to q) all) }
        ensures failed { IfErr result (λ status. (q : Asked) (all : List (List ℕ)) →
            Sampled q all self.old → IsFailed (answers_to q) all status) }
        ensures own { IfErr result IsOwn }
    {
        let last = self.engine.finish(rt, gate)?;
        self.counts.add(&last)?;
        let text = self.counts.summary(self.alloc)?;
        Ok(text)
    }

    // The summary of all lines that are to come.
    fn sum<R: Threads + Sync, G: Gate>(&mut self, rt: &R, gate: &G) -> Result<Vec<u8>, Status>
        requires few { self.old.number + length (to_come self.old.sample) ≤ 2000000 }
        ensures fine { IfOk result (λ _. (q : Asked) (all : List (List ℕ)) →
            Sampled q all self.old → (answers_to q).fault all true ≡ None) }
        ensures text { IfOk result (λ text. (q : Asked) (all : List (List ℕ)) →
            Sampled q all self.old → text.items ≡ summary_for (answers_to q) all) }
        ensures failed { IfErr result (λ status. (q : Asked) (all : List (List ℕ)) →
            Sampled q all self.old → IsFailed (answers_to q) all status) }
        ensures own { IfErr result IsOwn }
    {
        self.feed_all(rt, gate)?;
        self.finish(rt, gate)
    }
}

// The summary of what the plan answers to the lines.
fn summed_up<R: Threads + Sync, G: Gate>(
    rt: &R,
    alloc: Global,
    plan: Plan,
    options: Options,
    header: bool,
    sample: Sample,
    gate: &G,
) -> Result<Vec<u8>, Status>
    requires batch { 1 ≤ options.batch }
    requires workers { (1 ≤ options.workers) × (options.workers ≤ 16) }
    requires few { length (to_come sample) ≤ 2000000 }
    ensures fine { IfOk result (λ _. (answers plan options.policy header).fault
        (map line_of (to_come sample)) true ≡ None) }
    ensures text { IfOk result (λ text. text.items
        ≡ summary_for (answers plan options.policy header) (map line_of (to_come sample))) }
    ensures failed { IfErr result (IsFailed (answers plan options.policy header)
        (map line_of (to_come sample))) }
    ensures own { IfErr result IsOwn }
{
    let mut sampling = Sampling::new(alloc, plan, options, header, sample)?;
    sampling.sum(rt, gate)
}

/// Answers the lines of the sample, and writes the summary of the answer.
pub fn sum_up<R: Threads + Sync, W: Wire, G: Gate>(
    rt: &R,
    alloc: Global,
    plan: Plan,
    options: Options,
    header: bool,
    sample: Sample,
    wire: &mut W,
    gate: &G,
) -> Status
    requires batch { 1 ≤ options.batch }
    requires workers { (1 ≤ options.workers) × (options.workers ≤ 16) }
    requires few { length (to_come sample) ≤ 2000000 }
    ensures sums { Grows (W.journal wire.old) (W.journal wire.new)
        (Sums (answers plan options.policy header) (map line_of (to_come sample)) result) }
    ensures asked { IsAsked result }
    ensures counts { Counts (W.read_faults wire.old) (W.read_faults wire.new)
        (W.write_faults wire.old) (W.write_faults wire.new) result }
{
    match summed_up(rt, alloc, plan, options, header, sample, gate) {
        Ok(text) => match send(wire, &text) {
            Ok(()) => Status::Done,
            Err(WriteFailed) => Status::WriteFault,
        },
        Err(status) => status,
    }
}
