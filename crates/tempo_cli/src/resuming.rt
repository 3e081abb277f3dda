// A run that goes on from a checkpoint: its lines are read back, and what was frozen is at work again.
ghost use Rattle.std.specs.Prelude.{◌≡◌, ◌≢◌, ◌≤◌, ◌<◌, ◌+◌, ◌++◌, [], List, ℕ, IfOk, OnOk, IfErr};
ghost use Rattle.std.specs.Prelude.{None, true, false, length};
ghost use Rattle.wire_lines.specs.Lines.{lines};
ghost use Rattle.wire_lines.specs.Journal.{Entry, Grows};
ghost use Rattle.checkpoint.specs.Form.{FormView, form_of};
ghost use Rattle.tempo_cli.specs.Table.{limit, Ends};
ghost use Rattle.tempo_cli.specs.Status.{Counts};
ghost use Rattle.tempo_cli.specs.Feeding.{Asked, answers_to, WantsBytes, LineRules, IsOwn, IsAsked};
ghost use Rattle.tempo_cli.specs.Working.{status_of};
ghost use Rattle.tempo_cli.specs.Jobs.{HasResumed};
ghost use Rattle.tempo_cli.specs.Restored.{Reads, IsWhole, TakesLine, WhateverTaken, PartComes};
ghost use Rattle.tempo_cli.specs.Restored.{PartsCome, HasFewer, TakesMore, IsOwnPart, GrewBy};
ghost use Rattle.tempo_cli.specs.Restored.{StopsAt, CameIn, BreaksOff, GoesOnFrom, StandsBehind};

use crate::answer::{answer_on, asked, work};
use crate::answering::{Answering, LIMIT, LONGEST};
use crate::status::Status;
use checkpoint::{Form, Reader, ReadingStage, TakeFault, Taken};
use frozen_state::Frozen;
use plan_model::Plan;
use shard_apply::Gate;
use std::alloc::Global;
use std::thread::Threads;
use tempo_engine::{Engine, Options, ThawFault, what_fits_is_a_state};
use tw_rows::Memory;
use wire_lines::{Cut, LineCutter, Wire, send};

/// A checkpoint that is read from an input: bytes come in from a wire, and a reader takes their lines.
#[derive(Drop)]
pub struct Restoring {
    pub cutter: LineCutter,
    pub reader: Reader,
    /// How many lines were taken.
    pub taken: u64,
}

/// What the next line of a checkpoint comes to.
#[derive(Drop)]
pub enum Part {
    /// All lines that came in were taken.
    More,
    /// The checkpoint goes on.
    Taken,
    /// It was the last line, and this was frozen.
    Whole(Frozen),
    /// No more lines are taken.
    Stop(Status),
}

/// What was read back, how many bytes may still come, and whether the input has ended.
#[derive(Drop)]
pub struct Restored {
    pub frozen: Frozen,
    pub left: u64,
    pub ended: bool,
}

/// Gives the line of that number to the reader: what was frozen, where it is the last one.
pub fn take_line(reader: &mut Reader, number: u64, line: &[u8]) -> Result<Option<Frozen>, Status>
    requires going { reader.old.stage ≢ ReadingStage.Ended }
    ensures takes { TakesLine reader.old number line.now result reader.new }
    ensures going { result ≡ Ok None → reader.new.stage ≢ ReadingStage.Ended }
    ensures own { IfErr result IsOwn }
{
    match reader.take(line) {
        Ok(Taken::More) => {
            reader.goes_on();
            Ok(None)
        }
        Ok(Taken::Whole(frozen)) => Ok(Some(frozen)),
        Err(TakeFault::NotCheckpoint) => Err(Status::BadCheckpoint { line: number }),
        Err(TakeFault::Memory) => Err(Status::Memory),
    }
}

impl Restoring {
    /// No line taken.
    pub fn new(alloc: Global, form: Form) -> Result<Restoring, Memory>
        ensures reads { IfOk result (λ r. Reads form [] [] r) }
        ensures wants { IfOk result (λ r. WantsBytes r.cutter) }
        ensures going { IfOk result (λ r. r.reader.stage ≢ ReadingStage.Ended) }
    {
        let cutter = LineCutter::new(alloc, LONGEST, LIMIT)?;
        let reader = Reader::new(alloc, form)?;
        reader.goes_on();
        Ok(Restoring {
            cutter,
            reader,
            taken: 0,
        })
    }

    // What the next line comes to.
    fn next_part(&mut self) -> Part
        requires longest { self.old.cutter.longest ≡ 65536 }
        requires going { self.old.reader.stage ≢ ReadingStage.Ended }
        ensures longest { self.new.cutter.longest ≡ 65536 }
        ensures going { TakesMore self.new result }
        ensures comes { WhateverTaken self.old
            (λ form bytes given. PartComes form bytes given self.new result) }
        ensures wants { result ≡ Part.More → WantsBytes self.new.cutter }
        ensures own { IsOwnPart result }
        ensures less { HasFewer self.old.cutter self.new.cutter result }
    {
        let taken = match self.cutter.next_line() {
            Cut::More => return Part::More,
            Cut::TooMany => return Part::Stop(Status::InputTooLong),
            Cut::TooLong { number } => return Part::Stop(Status::BadCheckpoint { line: number }),
            Cut::Line(line) => {
                self.taken = line.number;
                take_line(&mut self.reader, line.number, line.bytes)
            }
        };
        match taken {
            Ok(None) => Part::Taken,
            Ok(Some(frozen)) => Part::Whole(frozen),
            Err(status) => Part::Stop(status),
        }
    }

    // Takes all whole lines that came in, up to the last one of the checkpoint.
    fn take_lines(&mut self) -> Result<Option<Frozen>, Status>
        requires longest { self.old.cutter.longest ≡ 65536 }
        requires going { self.old.reader.stage ≢ ReadingStage.Ended }
        ensures longest { self.new.cutter.longest ≡ 65536 }
        ensures comes { WhateverTaken self.old
            (λ form bytes given. PartsCome form bytes given self.new result) }
        ensures going { result ≡ Ok None → self.new.reader.stage ≢ ReadingStage.Ended }
        ensures wants { result ≡ Ok None → WantsBytes self.new.cutter }
        ensures own { IfErr result IsOwn }
    {
        loop {
            match self.next_part() {
                Part::More => return Ok(None),
                Part::Taken => {}
                Part::Whole(frozen) => return Ok(Some(frozen)),
                Part::Stop(status) => return Err(status),
            }
        }
    }

    // What was frozen, where the last line, which no LF ends, is the last one of the checkpoint. The input has ended.
    fn last_part(&mut self) -> Result<Frozen, Status>
        requires wants { WantsBytes self.old.cutter }
        requires going { self.old.reader.stage ≢ ReadingStage.Ended }
        ensures whole { IfOk result (λ f.
            (form : FormView) (bytes : List ℕ) (given : List (List ℕ)) →
            Reads form bytes given self.old →
            IsWhole form f (lines bytes true)) }
        ensures number { OnOk result ((form : FormView) (bytes : List ℕ) (given : List (List ℕ)) →
            Reads form bytes given self.old →
            self.new.taken ≡ length (lines bytes true)) }
        ensures stops { IfErr result (λ status.
            (form : FormView) (bytes : List ℕ) (given : List (List ℕ)) →
            Reads form bytes given self.old →
            StopsAt form status bytes given true) }
        ensures own { IfErr result IsOwn }
    {
        let Some(line) = self.cutter.last_line() else {
            return Err(Status::BadCheckpoint {
                line: self.taken.saturating_add(1),
            });
        };
        self.taken = line.number;
        match take_line(&mut self.reader, line.number, line.bytes) {
            Ok(Some(frozen)) => Ok(frozen),
            Ok(None) => Err(Status::BadCheckpoint {
                line: self.taken.saturating_add(1),
            }),
            Err(status) => Err(status),
        }
    }
}

// Reads a checkpoint back, up to its last line.
fn read_back<W: Wire>(restoring: &mut Restoring, wire: &mut W) -> Result<Restored, Status>
    requires wants { WantsBytes restoring.old.cutter }
    requires going { restoring.old.reader.stage ≢ ReadingStage.Ended }
    ensures came { IfOk result (λ d. (form : FormView) → Reads form [] [] restoring.old →
        Grows (W.journal wire.old) (W.journal wire.new)
        (CameIn form d.frozen restoring.new d.left d.ended)) }
    ensures longest { IfOk result (λ d. d.ended ≡ false → restoring.new.cutter.longest ≡ 65536) }
    ensures same { OnOk result ((W.read_faults wire.new ≡ W.read_faults wire.old)
        × (W.write_faults wire.new ≡ W.write_faults wire.old)) }
    ensures broke { IfErr result (λ status. (form : FormView) → Reads form [] [] restoring.old →
        Grows (W.journal wire.old) (W.journal wire.new) (BreaksOff form status)) }
    ensures asked { IfErr result IsAsked }
    ensures counts { IfErr result
        (Counts (W.read_faults wire.old) (W.read_faults wire.new) (W.write_faults wire.old)
        (W.write_faults wire.new)) }
{
    let mut left = LIMIT + 1;
    while left > 0 {
        let count = restoring.cutter.read_from(wire, asked(left))?;
        if count == 0 {
            let frozen = restoring.last_part()?;
            return Ok(Restored {
                frozen,
                left,
                ended: true,
            });
        }
        left -= count as u64;
        if let Some(frozen) = restoring.take_lines()? {
            return Ok(Restored {
                frozen,
                left,
                ended: false,
            });
        }
    }
    Err(Status::InputTooLong)
}

// Answers what comes behind a checkpoint. Where the input has ended with it, nothing does.
fn answer_behind<R: Threads + Sync, W: Wire, G: Gate>(
    rt: &R,
    answering: &mut Answering,
    left: u64,
    ended: bool,
    wire: &mut W,
    gate: &G,
) -> Result<(), Status>
    requires longest { ended ≡ false → answering.old.cutter.longest ≡ 65536 }
    ensures ends { (q : Asked) (J : List Entry) → GoesOnFrom q answering.old left ended J →
        Grows (W.journal wire.old) (W.journal wire.new)
        (λ K. Ends (answers_to q) (status_of result) (J ++ K)) }
    ensures grew { (k : LineRules) (J : List Entry) → StandsBehind k answering.old left ended J →
        Grows (W.journal wire.old) (W.journal wire.new) (GrewBy k ended (status_of result) J) }
    ensures asked { IsAsked (status_of result) }
    ensures counts { Counts (W.read_faults wire.old) (W.read_faults wire.new)
        (W.write_faults wire.old) (W.write_faults wire.new) (status_of result) }
{
    if ended {
        let rest = answering.finish(rt, gate)?;
        send(wire, &rest)?;
        return Ok(());
    }
    work(rt, answering, wire, gate)?;
    answer_on(rt, answering, left, wire, gate)
}

// Lets an engine go on from what was read back.
fn take_up<R: Threads + Sync, W: Wire, G: Gate>(
    rt: &R,
    alloc: Global,
    plan: Plan,
    options: Options,
    restoring: Restoring,
    restored: Restored,
    wire: &mut W,
    gate: &G,
) -> Status
    requires batch { 1 ≤ options.batch }
    requires workers { (1 ≤ options.workers) × (options.workers ≤ 16) }
    requires longest { restored.ended ≡ false → restoring.cutter.longest ≡ 65536 }
    ensures resumes { (query : List ℕ) (J : List Entry) →
        CameIn (form_of query options.workers options.policy plan)
        restored.frozen restoring restored.left restored.ended J →
        Grows (W.journal wire.old) (W.journal wire.new)
        (λ K. HasResumed query options.workers plan options.policy result (J ++ K)) }
    ensures asked { IsAsked result }
    ensures counts { Counts (W.read_faults wire.old) (W.read_faults wire.new)
        (W.write_faults wire.old) (W.write_faults wire.new) result }
{
    // Its call tells the proof that an engine can be made of what was frozen.
    what_fits_is_a_state();
    let Restoring {
        cutter,
        reader: _reader,
        taken,
    } = restoring;
    let base = restored.frozen.lines();
    match Engine::thaw(alloc, plan, options, restored.frozen) {
        Ok(engine) => {
            let mut answering = Answering {
                alloc,
                cutter,
                engine,
                header: false,
                base,
                skipped: taken,
            };
            match answer_behind(
                rt,
                &mut answering,
                restored.left,
                restored.ended,
                wire,
                gate,
            ) {
                Ok(()) => Status::Done,
                Err(status) => status,
            }
        }
        Err(ThawFault::NotState) => Status::BadCheckpoint { line: taken },
        Err(ThawFault::Memory) => Status::Memory,
    }
}

/// Reads a checkpoint of the query and these options back, and answers by its plan what comes behind it.
pub fn resume<R: Threads + Sync, W: Wire, G: Gate>(
    rt: &R,
    alloc: Global,
    query: &str,
    plan: Plan,
    options: Options,
    wire: &mut W,
    gate: &G,
) -> Status
    requires batch { 1 ≤ options.batch }
    requires workers { (1 ≤ options.workers) × (options.workers ≤ 16) }
    ensures resumes { Grows (W.journal wire.old) (W.journal wire.new)
        (HasResumed query.now options.workers plan options.policy result) }
    ensures asked { IsAsked result }
    ensures counts { Counts (W.read_faults wire.old) (W.read_faults wire.new)
        (W.write_faults wire.old) (W.write_faults wire.new) result }
{
    what_fits_is_a_state();
    let Ok(form) = Form::new(alloc, query, options.workers as u64, &options.policy, &plan) else {
        return Status::Memory;
    };
    let Ok(mut restoring) = Restoring::new(alloc, form) else {
        return Status::Memory;
    };
    match read_back(&mut restoring, wire) {
        Ok(restored) => take_up(rt, alloc, plan, options, restoring, restored, wire, gate),
        Err(status) => status,
    }
}
