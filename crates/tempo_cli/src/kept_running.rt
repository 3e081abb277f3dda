// A whole run that keeps checkpoints: from what is asked for and what FILE has to how it ends.
ghost use Rattle.std.specs.Prelude.{◌≡◌, [], List};
ghost use Rattle.wire_lines.specs.Journal.{Grows};
ghost use Rattle.command_line.specs.Words.{AreWithin, asked_by};
ghost use Rattle.admission.specs.Entries.{Told as Said};
ghost use Rattle.tempo_cli.specs.Keeping.{Places, RunsOn, RunsFirst, RunsByFile, RunsAsked};
ghost use Rattle.tempo_cli.specs.Keeping.{task_from, IsStartOf, HasState};
ghost use Rattle.tempo_cli.specs.KeptStatus.{kept_of, KeptCounts, IsKeptNoted, IsRefusal, TellsEnd};

use crate::kept_status::KeptStatus;
use crate::running::{plan_of, status_of};
use crate::starting::{start_again, start_first};
use crate::{Status, note};
use command_line::CommandLine;
use kept_wire::{KeptWire, ReadFault};
use plan_model::Plan;
use shard_apply::Gate;
use std::alloc::Global;
use std::thread::Threads;
use wire_lines::{Wire, WriteFailed, send};

// A first run.
fn run_first<R: Threads + Sync, W: KeptWire, G: Gate>(
    rt: &R,
    alloc: Global,
    asked: &CommandLine<'_>,
    every: u64,
    plan: Plan,
    wire: &mut W,
    gate: &G,
) -> Result<(), KeptStatus>
    requires within { AreWithin (asked_by asked.now) }
    ensures runs { Grows (W.journal wire.old) (W.journal wire.new)
        (RunsFirst (asked_by asked.now) plan every (kept_of result)) }
    ensures tells { TellsEnd (W.read_faults wire.old) (W.read_faults wire.new)
        (W.write_faults wire.old) (W.write_faults wire.new) (kept_of result) }
{
    let mut keeper = start_first(alloc, asked, every, plan, wire)?;
    keeper.go(rt, wire, gate)
}

// A run that goes on from the bytes of FILE.
fn run_again<R: Threads + Sync, W: KeptWire, G: Gate>(
    rt: &R,
    alloc: Global,
    asked: &CommandLine<'_>,
    every: u64,
    plan: Plan,
    bytes: &[u8],
    wire: &mut W,
    gate: &G,
) -> Result<(), KeptStatus>
    requires within { AreWithin (asked_by asked.now) }
    ensures runs { (before : List Said) (start : Places) →
        let t = task_from (asked_by asked.now) plan before start in IsStartOf t bytes.now →
        Grows (W.journal wire.old) (W.journal wire.new) (RunsOn t every (kept_of result)) }
    ensures refused { (HasState (asked_by asked.now) plan bytes.now → ⊥) →
        Grows (W.journal wire.old) (W.journal wire.new)
        (λ J. (J ≡ []) × IsRefusal (kept_of result)) }
    ensures tells { TellsEnd (W.read_faults wire.old) (W.read_faults wire.new)
        (W.write_faults wire.old) (W.write_faults wire.new) (kept_of result) }
{
    let mut keeper = start_again(alloc, asked, every, plan, bytes, wire)?;
    keeper.go(rt, wire, gate)
}

// The run of a plan, by what FILE has.
fn run_plan<R: Threads + Sync, W: KeptWire, G: Gate>(
    rt: &R,
    alloc: Global,
    asked: &CommandLine<'_>,
    every: u64,
    plan: Plan,
    wire: &mut W,
    gate: &G,
) -> Result<(), KeptStatus>
    requires within { AreWithin (asked_by asked.now) }
    ensures does { RunsByFile (asked_by asked.now) plan every (W.told wire.old) (kept_of result)
        (W.journal wire.old) (W.journal wire.new) }
    ensures tells { TellsEnd (W.read_faults wire.old) (W.read_faults wire.new)
        (W.write_faults wire.old) (W.write_faults wire.new) (kept_of result) }
{
    match wire.open(alloc) {
        Ok(None) => run_first(rt, alloc, asked, every, plan, wire, gate),
        Ok(Some(bytes)) => run_again(rt, alloc, asked, every, plan, &bytes, wire, gate),
        Err(ReadFault::Memory) => Err(KeptStatus::Ended(Status::Memory)),
        Err(ReadFault::Failed) => Err(KeptStatus::CheckpointFailed),
    }
}

// The run of what is asked for.
fn perform<R: Threads + Sync, W: KeptWire, G: Gate>(
    rt: &R,
    alloc: Global,
    asked: &CommandLine<'_>,
    every: u64,
    wire: &mut W,
    gate: &G,
) -> KeptStatus
    requires within { AreWithin (asked_by asked.now) }
    ensures does { RunsAsked (asked_by asked.now) every (W.told wire.old) result
        (W.journal wire.old) (W.journal wire.new) }
    ensures counts { KeptCounts (W.read_faults wire.old) (W.read_faults wire.new)
        (W.write_faults wire.old) (W.write_faults wire.new) result }
{
    match plan_of(alloc, asked.query) {
        Ok(plan) => match run_plan(rt, alloc, asked, every, plan, wire, gate) {
            Ok(()) => KeptStatus::Ended(Status::Done),
            Err(status) => status,
        },
        Err(error) => KeptStatus::Ended(status_of(error)),
    }
}

// Writes the note of the status.
fn note_kept<N: Wire>(notes: &mut N, status: &KeptStatus)
    ensures { Grows (N.journal notes.old) (N.journal notes.new)
        (IsKeptNoted status.now (N.write_faults notes.old) (N.write_faults notes.new)) }
{
    match status {
        KeptStatus::Ended(status) => note(notes, status),
        KeptStatus::CheckpointFailed => match send(notes, b"checkpoint failed\n") {
            Ok(()) => {}
            Err(WriteFailed) => {}
        },
    }
}

/// A run that keeps checkpoints of what is asked for, in FILE of the wire: at its start, at the first punctuation that is `every`
/// or more after that of the checkpoint before, and at the end of the input, which is none for the query: a last line that no LF
/// ends is not taken. Where FILE has a checkpoint the run goes on from it, and a FILE that has none of what is asked for is refused.
///
/// The clauses on bytes hold where the wire tells its journal and its disk; over the system's files no contract can say what came
/// or went, or what a disk has.
pub fn run_kept<R: Threads + Sync, W: KeptWire, N: Wire, G: Gate>(
    rt: &R,
    alloc: Global,
    asked: &CommandLine<'_>,
    every: u64,
    wire: &mut W,
    notes: &mut N,
    gate: &G,
) -> KeptStatus
    requires within { AreWithin (asked_by asked.now) }

    // What came in, went out, was brought to the disk and kept, by what the query is and what FILE has.
    ensures does { RunsAsked (asked_by asked.now) every (W.told wire.old) result
        (W.journal wire.old) (W.journal wire.new) }
    ensures counts { KeptCounts (W.read_faults wire.old) (W.read_faults wire.new)
        (W.write_faults wire.old) (W.write_faults wire.new) result }

    ensures notes { Grows (N.journal notes.old) (N.journal notes.new)
        (IsKeptNoted result (N.write_faults notes.old) (N.write_faults notes.new)) }
{
    let status = perform(rt, alloc, asked, every, wire, gate);
    note_kept(notes, &status);
    status
}
