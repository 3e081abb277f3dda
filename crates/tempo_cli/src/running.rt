// The whole run: from the words and the bytes that come in to the bytes that go out, the notes and the status.
ghost use Rattle.std.specs.Prelude.{◌≡◌, ◌≤◌, ◌⊎◌, ℕ, IfOk, List, [], map, option_map};
ghost use Rattle.wire_lines.specs.Journal.{Grows};
ghost use Rattle.plan_model.specs.IsPlan.{PlanParts};
ghost use Rattle.tempo_cli.specs.Jobs.{Job, IsJob, IsPlanned, HasPlan, HasFault, Does, DoesMode, Tells, HasReason, HasQueryReason, query_status};
ghost use Rattle.tempo_cli.specs.Feeding.{IsAsked};
ghost use Rattle.tempo_cli.specs.Status.{Counts, IsNoted, IsRefusalTold};
ghost use Rattle.command_line.specs.Words.{AreWithin, asked_by};
ghost use Rattle.plan_model.specs.declared.fault.QueryFault.{QueryFault as SomeFault};

use crate::answer::answer;
use crate::freezing::answer_frozen;
use crate::notes::note;
use crate::resuming::resume;
use crate::sampling::sum_up;
use crate::status::Status;
use command_line::{CommandLine, Mode, WordsFault, read_words};
use plan_model::{Plan, QueryError};
use query_plan::{cut_text, explain, plan};
use query_text::parse;
use sample_trades::Sample;
use shard_apply::Gate;
use std::alloc::Global;
use std::thread::Threads;
use tempo_engine::Options;
use tw_rows::Memory;
use wire_lines::{Wire, WriteFailed, send};

/// The plan of the query that the text spells.
pub fn plan_of(alloc: Global, text: &str) -> Result<Plan, QueryError>
    ensures { IsPlanned text.now result }
{
    let query = parse(alloc, text)?;
    plan(alloc, &query)
}

// Writes a text that is told of the plan, where there was memory for it.
fn tell<W: Wire>(text: Result<Vec<u8>, Memory>, wire: &mut W) -> Status
    ensures asked { IsAsked result }
    ensures tells { (t : List ℕ) → IfOk text (λ v. v.items ≡ t) →
        Grows (W.journal wire.old) (W.journal wire.new) (Tells t result) }
    ensures counts { Counts (W.read_faults wire.old) (W.read_faults wire.new)
        (W.write_faults wire.old) (W.write_faults wire.new) result }
{
    let Ok(text) = text else {
        return Status::Memory;
    };
    match send(wire, &text) {
        Ok(()) => Status::Done,
        Err(WriteFailed) => Status::WriteFault,
    }
}

/// How an engine works for what the words ask for.
pub fn options_of(asked: &CommandLine<'_>) -> Options
    ensures { result ≡ record {
      batch = asked.now.batch;
      workers = asked.now.workers;
      policy =
          asked.now.policy;
    } }
{
    Options {
        batch: asked.batch,
        workers: asked.workers,
        policy: asked.policy,
    }
}

// In how many shards a node with a key runs where nothing is kept for a later run: one where no step has so many edges that
// threads pay, since in turn shards only cost. Else an odd number: with an even one most keys are in the same shard.
fn shards_for<G: Gate>(asked: &CommandLine<'_>, gate: &G) -> usize
    requires within { AreWithin (asked_by asked.now) }
    ensures some { 1 ≤ result }
    ensures few { result ≤ 16 }
{
    let fewest = gate.fewest_edges();
    if (asked.batch as u64) < fewest {
        1
    } else if fewest > 0 && asked.workers % 2 == 0 {
        asked.workers - 1
    } else {
        asked.workers
    }
}

// Does what the mode says with the plan.
fn do_mode<R: Threads + Sync, W: Wire, G: Gate>(
    rt: &R,
    alloc: Global,
    asked: &CommandLine<'_>,
    plan: Plan,
    wire: &mut W,
    gate: &G,
) -> Status
    requires within { AreWithin (asked_by asked.now) }
    ensures asked { IsAsked result }
    ensures does { Grows (W.journal wire.old) (W.journal wire.new)
        (DoesMode asked.now.mode (asked_by asked.now) plan result) }
    ensures counts { Counts (W.read_faults wire.old) (W.read_faults wire.new)
        (W.write_faults wire.old) (W.write_faults wire.new) result }
{
    let options = options_of(asked);
    let once = Options {
        workers: shards_for(asked, gate),
        ..options
    };
    match asked.mode {
        Mode::Run => answer(rt, alloc, plan, once, asked.header, wire, gate),
        Mode::Freeze => answer_frozen(rt, alloc, asked, plan, wire, gate),
        Mode::Resume => resume(rt, alloc, asked.query, plan, options, wire, gate),
        Mode::Explain => tell(explain(alloc, &plan), wire),
        Mode::Cut => tell(cut_text(alloc, &plan), wire),
        Mode::Sample => {
            let sample = Sample::new(asked.number, asked.events);
            sum_up(rt, alloc, plan, once, asked.header, sample, wire, gate)
        }
    }
}

// Does what is asked for. The words were taken.
fn perform<R: Threads + Sync, W: Wire, G: Gate>(
    rt: &R,
    alloc: Global,
    asked: &CommandLine<'_>,
    wire: &mut W,
    gate: &G,
) -> Status
    requires within { AreWithin (asked_by asked.now) }
    ensures reason { HasQueryReason asked.now.query.now result }
    ensures planned { (plan : PlanParts) → HasPlan asked.now.query.now plan →
        Grows (W.journal wire.old) (W.journal wire.new)
        (DoesMode asked.now.mode (asked_by asked.now) plan result) }
    ensures unplanned { (fault : SomeFault) → HasFault asked.now.query.now fault →
        Grows (W.journal wire.old) (W.journal wire.new)
        (λ J. (J ≡ []) × ((result ≡ Status.BadQuery fault) ⊎ (result ≡ Status.Memory))) }
    ensures counts { Counts (W.read_faults wire.old) (W.read_faults wire.new)
        (W.write_faults wire.old) (W.write_faults wire.new) result }
{
    match plan_of(alloc, asked.query) {
        Ok(plan) => do_mode(rt, alloc, asked, plan, wire, gate),
        Err(error) => status_of(error),
    }
}

/// The status of a run whose query has no plan, or that is out of memory.
pub fn status_of(error: QueryError) -> Status
    ensures { result ≡ query_status error }
{
    match error {
        QueryError::Fault(fault) => Status::BadQuery(fault),
        QueryError::Memory => Status::Memory,
    }
}

// Writes the text of a refusal of the words, where there is one.
fn tell_refusal<N: Wire>(notes: &mut N, text: &Option<String>)
    ensures text { Grows (N.journal notes.old) (N.journal notes.new)
        (IsRefusalTold (option_map (λ t. t.bytes.items) text.now) (N.write_faults notes.old)
        (N.write_faults notes.new)) }
    ensures noted { Grows (N.journal notes.old) (N.journal notes.new)
        (IsNoted Status.BadWords (N.write_faults notes.old) (N.write_faults notes.new)) }
{
    if let Some(text) = text {
        match send(notes, text.as_bytes()) {
            Ok(()) => {}
            Err(WriteFailed) => {}
        }
    }
}

/// What the program does where `--checkpoint` is not among the words. Where it is, `main` calls `run_kept`; this call
/// would run as without it.
///
/// `words` are the words of the command line, the program's name first. Bytes come in and go out over `wire`, and what is
/// told of a run that did not end Done goes to `notes`, whose faults change nothing. The clauses on bytes hold where the
/// wire tells its journal; over the standard streams no contract can say what came or went.
///
/// A node with a key runs as so many shards as there are workers, in threads where `rt` can make them; each passes `gate`
/// before it steps. Where `--batch` is below the fewest edges of the gate no step would fork, and a run that is neither frozen nor
/// resumed makes one shard. Of the number of workers only the clauses on checkpoints speak, whose text has it: for any number
/// the same is written for the lines.
pub fn run<'a, R: Threads + Sync, W: Wire, N: Wire, G: Gate>(
    rt: &R,
    alloc: Global,
    words: &'a [&'a str],
    wire: &mut W,
    notes: &mut N,
    gate: &G,
) -> Status
    // Words and queries are refused only for a fault of theirs.
    ensures reason { HasReason (map (λ w. w.now) words.now) result }

    // What is done for what the words ask for: what was written before each read and at the end, by the status.
    ensures does { (job : Job) → IsJob (map (λ w. w.now) words.now) job →
        Grows (W.journal wire.old) (W.journal wire.new) (Does job result) }
    ensures counts { Counts (W.read_faults wire.old) (W.read_faults wire.new)
        (W.write_faults wire.old) (W.write_faults wire.new) result }

    ensures notes { Grows (N.journal notes.old) (N.journal notes.new)
        (IsNoted result (N.write_faults notes.old) (N.write_faults notes.new)) }
{
    match read_words(alloc, words) {
        Ok(asked) => {
            let status = perform(rt, alloc, &asked, wire, gate);
            note(notes, &status);
            status
        }
        Err(WordsFault::Refused { text }) => {
            tell_refusal(notes, &text);
            Status::BadWords
        }
        Err(WordsFault::Memory) => {
            note(notes, &Status::Memory);
            Status::Memory
        }
    }
}
