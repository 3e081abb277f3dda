// A query answered over a wire: from the bytes that come in to the bytes that go out and the status.
ghost use Rattle.std.specs.Prelude.{◌≡◌, ◌≤◌, ℕ, List, All, OnOk, IfErr, min, true};
ghost use Rattle.wire_lines.specs.Journal.{Grows, IsOut};
ghost use Rattle.tempo_cli.specs.Status.{Counts};
ghost use Rattle.tempo_cli.specs.Table.{Ends};
ghost use Rattle.tempo_cli.specs.Told.{answers};
ghost use Rattle.tempo_cli.specs.Feeding.{answers_to, WantsBytes, WhateverGave, StopsFor, IsAsked};
ghost use Rattle.tempo_cli.specs.Working.{WorksThrough, StopsWith, WhateverRead, AtEnd, Stops, EndsAll, status_of};
ghost use Rattle.tempo_cli.specs.Working.{AfterGiven, GivesOn, GivesOut, WhateverCame, HasAllCome, EndsFor};
ghost use Rattle.tempo_cli.specs.Halting.{StaysOpen};

use crate::answering::{Answering, LIMIT, PIECE, Step};
use crate::holding::hold;
use crate::status::Status;
use plan_model::Plan;
use shard_apply::Gate;
use std::alloc::Global;
use std::thread::Threads;
use tempo_engine::{FedBlock, Options};
use wire_lines::{Wire, send};

// How many bytes the next read asks for, where so many more may come.
pub(crate) fn asked(left: u64) -> usize
    ensures { result ≡ min left 65536 }
{
    left.min(PIECE) as usize
}

// Works through all whole lines that came in, and writes what is due for them.
pub(crate) fn work<R: Threads + Sync, W: Wire, G: Gate>(
    rt: &R,
    answering: &mut Answering,
    wire: &mut W,
    gate: &G,
) -> Result<(), Status>
    requires longest { answering.old.cutter.longest ≡ 65536 }
    ensures ok { OnOk result (WorksThrough (W.journal wire.old) (W.journal wire.new) answering.old
        answering.new) }
    ensures gives { OnOk result (AfterGiven (W.journal wire.old) (W.journal wire.new) answering.old
        (λ k bytes. GivesOn k bytes answering.new)) }
    ensures wants { OnOk result (WantsBytes answering.new.cutter) }
    ensures open { OnOk result (StaysOpen answering.old.engine answering.new.engine) }
    ensures same { OnOk result ((W.read_faults wire.new ≡ W.read_faults wire.old)
        × (W.write_faults wire.new ≡ W.write_faults wire.old)) }
    ensures err { IfErr result (StopsWith (W.journal wire.old) (W.journal wire.new) answering.old) }
    ensures reason { IfErr result (λ status.
        AfterGiven (W.journal wire.old) (W.journal wire.new) answering.old
        (λ k bytes. GivesOut k bytes status)) }
    ensures asked { IfErr result IsAsked }
    ensures counts { IfErr result (Counts (W.read_faults wire.old) (W.read_faults wire.new)
        (W.write_faults wire.old) (W.write_faults wire.new)) }
{
    let mut held = Vec::new(answering.alloc);
    'lines: loop {
        if let Some(FedBlock { text, fault }) = answering.next_block(rt, gate) {
            hold(wire, &mut held, &text)?;
            if let Some(fault) = fault {
                send(wire, &held)?;
                return Err(Status::from(fault));
            }
            continue;
        }
        match answering.next_step(rt, gate) {
            Step::More => {
                send(wire, &held)?;
                return Ok(());
            }
            Step::Stop(status) => {
                send(wire, &held)?;
                return Err(status);
            }
            Step::Out(out) => hold(wire, &mut held, &out)?,
        }
    }
}

// Writes what is due for the last line and at the end of the input.
fn end<R: Threads + Sync, W: Wire, G: Gate>(
    rt: &R,
    answering: &mut Answering,
    wire: &mut W,
    gate: &G,
) -> Result<(), Status>
    requires wants { WantsBytes answering.old.cutter }
    ensures ends { EndsAll (W.journal wire.old) (W.journal wire.new) answering.old
        (status_of result) }
    ensures grows { Grows (W.journal wire.old) (W.journal wire.new) (λ O. All IsOut O) }
    ensures reason { WhateverGave answering.old
        (λ k bytes given. StopsFor k (status_of result) bytes true) }
    ensures asked { IsAsked (status_of result) }
    ensures counts { Counts (W.read_faults wire.old) (W.read_faults wire.new)
        (W.write_faults wire.old) (W.write_faults wire.new) (status_of result) }
{
    let last = answering.last_line(rt, gate)?;
    send(wire, &last)?;
    let rest = answering.finish(rt, gate)?;
    send(wire, &rest)?;
    Ok(())
}

// Reads the input to its end, so many bytes at most, and writes before each read what is due. A last line that no LF ends is still
// to be taken.
pub(crate) fn read_on<R: Threads + Sync, W: Wire, G: Gate>(
    rt: &R,
    answering: &mut Answering,
    most: u64,
    wire: &mut W,
    gate: &G,
) -> Result<(), Status>
    requires wants { WantsBytes answering.old.cutter }
    ensures ok { OnOk result (WhateverRead (W.journal wire.old) (W.journal wire.new) answering.old
        most (λ q J. AtEnd q answering.new J)) }
    ensures wants { OnOk result (WantsBytes answering.new.cutter) }
    ensures open { OnOk result (StaysOpen answering.old.engine answering.new.engine) }
    ensures same { OnOk result ((W.read_faults wire.new ≡ W.read_faults wire.old)
        × (W.write_faults wire.new ≡ W.write_faults wire.old)) }
    ensures err { IfErr result (λ status. WhateverRead (W.journal wire.old) (W.journal wire.new)
        answering.old most (λ q J. Stops (answers_to q) status J)) }
    ensures came { OnOk result (WhateverCame (W.journal wire.old) (W.journal wire.new) answering.old
        most (λ k J. HasAllCome k answering.new J)) }
    ensures reason { IfErr result (λ status.
        WhateverCame (W.journal wire.old) (W.journal wire.new) answering.old most
        (λ k J. EndsFor k status J)) }
    ensures asked { IfErr result IsAsked }
    ensures counts { IfErr result (Counts (W.read_faults wire.old) (W.read_faults wire.new)
        (W.write_faults wire.old) (W.write_faults wire.new)) }
{
    let mut left = most;
    while left > 0 {
        let count = answering.read(wire, asked(left))?;
        if count == 0 {
            return Ok(());
        }
        left -= count as u64;
        work(rt, answering, wire, gate)?;
    }
    Err(Status::InputTooLong)
}

// Reads and answers the input to its end. Only who made what answers drops it: dropping it costs the prover half a minute at
// each place.
pub(crate) fn answer_on<R: Threads + Sync, W: Wire, G: Gate>(
    rt: &R,
    answering: &mut Answering,
    most: u64,
    wire: &mut W,
    gate: &G,
) -> Result<(), Status>
    requires wants { WantsBytes answering.old.cutter }
    ensures ends { WhateverRead (W.journal wire.old) (W.journal wire.new) answering.old most
        (λ q J. Ends (answers_to q) (status_of result) J) }
    ensures reason { WhateverCame (W.journal wire.old) (W.journal wire.new) answering.old most
        (λ k J. EndsFor k (status_of result) J) }
    ensures asked { IsAsked (status_of result) }
    ensures counts { Counts (W.read_faults wire.old) (W.read_faults wire.new)
        (W.write_faults wire.old) (W.write_faults wire.new) (status_of result) }
{
    read_on(rt, answering, most, wire, gate)?;
    end(rt, answering, wire, gate)
}

/// Answers the input by the plan.
pub fn answer<R: Threads + Sync, W: Wire, G: Gate>(
    rt: &R,
    alloc: Global,
    plan: Plan,
    options: Options,
    header: bool,
    wire: &mut W,
    gate: &G,
) -> Status
    requires batch { 1 ≤ options.batch }
    requires workers { (1 ≤ options.workers) × (options.workers ≤ 16) }
    ensures ends { Grows (W.journal wire.old) (W.journal wire.new)
        (Ends (answers plan options.policy header) result) }
    ensures asked { IsAsked result }
    ensures counts { Counts (W.read_faults wire.old) (W.read_faults wire.new)
        (W.write_faults wire.old) (W.write_faults wire.new) result }
{
    let Ok(mut answering) = Answering::new(alloc, plan, options, header) else {
        return Status::Memory;
    };
    match answer_on(rt, &mut answering, LIMIT + 1, wire, gate) {
        Ok(()) => Status::Done,
        Err(status) => status,
    }
}
