// The checkpoint at the end of an input.
ghost use Rattle.std.specs.Prelude.{◌≡◌, ◌↔◌, ◌<◌, ◌≤◌, ◌+◌, ◌^◌, ℕ, List, [], false, true};
ghost use Rattle.std.specs.Prelude.{length, All, IsTrue, IfOk, OnOk, IfErr, vec_capacity};
ghost use Rattle.wire_lines.specs.Journal.{Grows};
ghost use Rattle.wire_lines.specs.Lines.{lines};
ghost use Rattle.plan_model.specs.IsPlan.{PlanParts, IsPlan};
ghost use Rattle.admission.specs.declared.policy.Policy.{Policy};
ghost use Rattle.frozen_state.specs.Formed.{IsFormed};
ghost use Rattle.checkpoint.specs.Form.{form_of};
ghost use Rattle.checkpoint.specs.Text.{checkpoint_lines};
ghost use Rattle.tempo_engine.specs.Frozen.{Fits};
ghost use Rattle.command_line.specs.Words.{AreWithin, asked_by};
ghost use Rattle.tempo_cli.specs.Freezing.{HasText, Freezes};
ghost use Rattle.tempo_cli.specs.Jobs.{HasFroze};
ghost use Rattle.tempo_cli.specs.Told.{answers};
ghost use Rattle.tempo_cli.specs.Table.{limit};
ghost use Rattle.tempo_cli.specs.Status.{Counts};
ghost use Rattle.tempo_cli.specs.Working.{status_of};
ghost use Rattle.tempo_cli.specs.Halting.{IsSmall, SendsLines, FreezesAll, FreezesOn};
ghost use Rattle.tempo_cli.specs.Feeding.{fed_by, WhateverEnded, WantsBytes, IsAsked, IsOwn};

use crate::answer::read_on;
use crate::answering::{Answering, LIMIT};
use crate::running::options_of;
use crate::status::Status;
use checkpoint::{Form, Place, formed_has_text, lines_are_short, write_line};
use command_line::CommandLine;
use frozen_state::Frozen;
use plan_model::Plan;
use shard_apply::Gate;
use std::alloc::Global;
use std::thread::Threads;
use tw_rows::{Label, Memory};
use wire_lines::{Wire, send};

// The most bytes of a text whose line of a checkpoint is no longer than a line of input may be.
const LONGEST_TEXT: usize = 65530;

// The greatest number of a line that a checkpoint may have.
const LAST_LINE: u64 = 1 << 62;

// Lines of a checkpoint are held until they have more bytes than this.
const BATCH: usize = 65536;

// These bytes and one line more, with its line feed.
const ROOM: usize = BATCH + 65537;

fn are_short(texts: &[Label]) -> bool
    ensures { IsTrue result ↔ All (λ t. length t ≤ 65530) texts.now }
{
    texts.iter().all(|text| text.as_str().len() <= LONGEST_TEXT)
}

// Whether its number and its texts are small enough for a checkpoint.
fn is_small(frozen: &Frozen) -> bool
    ensures { IsTrue result ↔ IsSmall frozen.now }
{
    frozen.lines() <= LAST_LINE && are_short(frozen.texts())
}

/// A buffer for the lines of the checkpoint of what was frozen. No text and no number of an engine
/// that lines were fed to is too great for one; where one is, this answers Memory.
pub fn buffer_for(alloc: Global, frozen: &Frozen) -> Result<Vec<u8>, Memory>
    ensures text { OnOk result
        ((query : List ℕ) (workers : ℕ) (plan : PlanParts) (policy : Policy) →
        IsFormed workers plan frozen.now → IsPlan plan →
        workers < 2 ^ 64 → policy.lateness < 2 ^ 64 → policy.period < 2 ^ 64 →
        HasText (form_of query workers policy plan) frozen.now) }
    ensures room { IfOk result (λ buffer. ROOM ≤ vec_capacity buffer) }
    ensures none { IfOk result (λ buffer. buffer.items ≡ []) }
{
    if !is_small(frozen) {
        return Err(Memory);
    }
    // These calls tell the proof that it has a text, and that no line of it is too long.
    formed_has_text(frozen);
    lines_are_short();
    Ok(Vec::with_capacity(alloc, ROOM)?)
}

// Writes the lines of the checkpoint. They are printed into the buffer, and written where it holds
// more than BATCH bytes. No line is longer than it has room for, so memory is not wanted between
// two writes.
pub(crate) fn send_lines<W: Wire>(
    form: &Form,
    frozen: &Frozen,
    buffer: &mut Vec<u8>,
    wire: &mut W,
) -> Result<(), Status>
    requires room { ROOM ≤ vec_capacity buffer.old }
    requires none { buffer.old.items ≡ [] }
    ensures sent { SendsLines (checkpoint_lines form.now.head frozen.now)
        (W.journal wire.old) (W.journal wire.new) (status_of result) }
    ensures counts { Counts (W.read_faults wire.old) (W.read_faults wire.new)
        (W.write_faults wire.old) (W.write_faults wire.new) (status_of result) }
{
    let mut place = Place::Head(0);
    'lines: while let Some(next) = write_line(form, frozen, place, buffer)? {
        place = next;
        if buffer.len() > BATCH {
            send(wire, buffer)?;
            buffer.clear();
        }
    }
    send(wire, buffer)?;
    Ok(())
}

impl Answering {
    // What the engine is frozen to. The input has ended, and its last line was taken.
    fn freeze(&self) -> Result<Frozen, Status>
        requires going { self.now.engine.ended ≡ false }
        ensures fits { IfOk result (λ f. WhateverEnded self.now (λ q bytes written.
            Fits self.now.engine.parts.dataflow.workers q.plan q.policy
            (fed_by q (lines bytes true)) f)) }
        ensures err { IfErr result (λ status.
            WhateverEnded self.now (λ q bytes written. status ≡ Status.Memory)) }
        ensures own { IfErr result IsOwn }
    {
        let frozen = self.engine.freeze()?;
        Ok(frozen)
    }
}

// Writes what is due for the last line, and then the checkpoint.
fn end_frozen<R: Threads + Sync, W: Wire, G: Gate>(
    rt: &R,
    answering: &mut Answering,
    form: &Form,
    wire: &mut W,
    gate: &G,
) -> Result<(), Status>
    requires wants { WantsBytes answering.old.cutter }
    requires going { answering.old.engine.ended ≡ false }
    ensures ends { FreezesAll (W.journal wire.old) (W.journal wire.new) form.now answering.old
        (status_of result) }
    ensures asked { IsAsked (status_of result) }
    ensures counts { Counts (W.read_faults wire.old) (W.read_faults wire.new)
        (W.write_faults wire.old) (W.write_faults wire.new) (status_of result) }
{
    let last = answering.last_line(rt, gate)?;
    send(wire, &last)?;
    let frozen = answering.freeze()?;
    let mut buffer = buffer_for(answering.alloc, &frozen)?;
    send_lines(form, &frozen, &mut buffer, wire)
}

// Answers the input to its end, and writes the checkpoint.
fn freeze_on<R: Threads + Sync, W: Wire, G: Gate>(
    rt: &R,
    answering: &mut Answering,
    form: &Form,
    wire: &mut W,
    gate: &G,
) -> Result<(), Status>
    requires wants { WantsBytes answering.old.cutter }
    requires going { answering.old.engine.ended ≡ false }
    ensures ends { FreezesOn (W.journal wire.old) (W.journal wire.new) form.now answering.old
        (limit + 1) (status_of result) }
    ensures asked { IsAsked (status_of result) }
    ensures counts { Counts (W.read_faults wire.old) (W.read_faults wire.new)
        (W.write_faults wire.old) (W.write_faults wire.new) (status_of result) }
{
    read_on(rt, answering, LIMIT + 1, wire, gate)?;
    end_frozen(rt, answering, form, wire, gate)
}

/// Answers the input by the plan of the query, and writes a checkpoint at its end.
pub fn answer_frozen<R: Threads + Sync, W: Wire, G: Gate>(
    rt: &R,
    alloc: Global,
    asked: &CommandLine<'_>,
    plan: Plan,
    wire: &mut W,
    gate: &G,
) -> Status
    requires within { AreWithin (asked_by asked.now) }
    ensures ends { Grows (W.journal wire.old) (W.journal wire.new)
        (Freezes (answers plan asked.now.policy asked.now.header)
        (HasFroze (asked_by asked.now) plan) result) }
    ensures asked { IsAsked result }
    ensures counts { Counts (W.read_faults wire.old) (W.read_faults wire.new)
        (W.write_faults wire.old) (W.write_faults wire.new) result }
{
    let workers = asked.workers as u64;
    let Ok(form) = Form::new(alloc, asked.query, workers, &asked.policy, &plan) else {
        return Status::Memory;
    };
    let options = options_of(asked);
    let Ok(mut answering) = Answering::new(alloc, plan, options, asked.header) else {
        return Status::Memory;
    };
    match freeze_on(rt, &mut answering, &form, wire, gate) {
        Ok(()) => Status::Done,
        Err(status) => status,
    }
}
