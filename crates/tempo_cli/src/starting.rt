// Where a run starts: at the beginning, or from FILE.
ghost use Rattle.std.specs.Prelude.{◌≡◌, ◌&&◌, nat_eq, [], ◌∷◌, List, IfOk, IfErr, OnOk, OnErr};
ghost use Rattle.wire_lines.specs.Journal.{Did, Adds, Grows};
ghost use Rattle.command_line.specs.Words.{AreWithin, asked_by};
ghost use Rattle.admission.specs.Entries.{Told};
ghost use Rattle.tempo_engine.specs.Frozen.{IsState};
ghost use Rattle.tempo_cli.specs.Keeping.{Places, first_start, first_task, task_from};
ghost use Rattle.tempo_cli.specs.Keeping.{IsStartOf, HasState};
ghost use Rattle.tempo_cli.specs.Standing.{Begun, StartsWith, IsWanting, HasThawed, IsFresh};
ghost use Rattle.tempo_cli.specs.KeptStatus.{KeptCounts, StaysCounted, TellsEnd, IsKeptAsked, IsEndedOwn};
ghost use Rattle.tempo_cli.specs.KeptStatus.{IsRefusal};

use crate::Status;
use crate::answering::{Answering, LIMIT, LONGEST};
use crate::keeping::Keeper;
use crate::kept_status::KeptStatus;
use crate::reading::{KeptState, read_state};
use crate::running::options_of;
use checkpoint::Form;
use command_line::CommandLine;
use kept_wire::KeptWire;
use plan_model::Plan;
use std::alloc::Global;
use tempo_engine::{Engine, ThawFault, what_fits_is_a_state};
use tw_rows::Time;
use wire_lines::LineCutter;

// A first run, behind all that the output's file has.
pub(crate) fn start_first<W: KeptWire>(
    alloc: Global,
    asked: &CommandLine<'_>,
    every: u64,
    plan: Plan,
    wire: &mut W,
) -> Result<Keeper, KeptStatus>
    requires within { AreWithin (asked_by asked.now) }
    ensures fresh { IfOk result (λ k. IsFresh (asked_by asked.now) k.answering) }
    ensures starts { IfOk result (λ k. Adds (W.journal wire.old) (W.journal wire.new)
        (Did (first_start k.output) ∷ [])) }
    ensures begun { IfOk result (λ k.
        Begun (first_task (asked_by asked.now) plan k.output) every k) }
    ensures silent { OnErr result (Grows (W.journal wire.old) (W.journal wire.new) (λ J. J ≡ [])) }
    ensures wanting { IfErr result IsWanting }
    ensures counted { OnOk result (StaysCounted (W.read_faults wire.old) (W.read_faults wire.new)
        (W.write_faults wire.old) (W.write_faults wire.new)) }
    ensures counts { IfErr result (KeptCounts (W.read_faults wire.old) (W.read_faults wire.new)
        (W.write_faults wire.old) (W.write_faults wire.new)) }
{
    let workers = asked.workers as u64;
    let form = Form::new(alloc, asked.query, workers, &asked.policy, &plan)?;
    let answering = Answering::new(alloc, plan, options_of(asked), asked.header)?;
    let output = wire.start_new()?;
    Ok(Keeper {
        answering,
        form,
        every,
        input: 0,
        output,
        kept_at: Time::ZERO,
    })
}

// Whether the first line behind that byte of the input is a header.
fn has_header(header: bool, input: u64) -> bool
    ensures { result ≡ (nat_eq input 0 && header) }
{
    input == 0 && header
}

// What answers the lines behind a checkpoint.
fn thawed(
    alloc: Global,
    asked: &CommandLine<'_>,
    plan: Plan,
    state: KeptState,
) -> Result<Answering, KeptStatus>
    requires within { AreWithin (asked_by asked.now) }
    ensures fresh { IfOk result (IsFresh (asked_by asked.now)) }
    ensures thaws { HasThawed (asked_by asked.now) plan state.input state.frozen result }
    ensures state { OnOk result (IsState (asked_by asked.now).workers plan state.frozen) }
    ensures asked { IfErr result IsKeptAsked }
    ensures own { IfErr result IsEndedOwn }
    ensures refusal { IfErr result IsRefusal }
{
    // Its call tells the proof that an engine can be made of what was frozen.
    what_fits_is_a_state();
    let base = state.frozen.lines();
    let header = has_header(asked.header, state.input);
    let cutter = LineCutter::new(alloc, LONGEST, LIMIT)?;
    match Engine::thaw(alloc, plan, options_of(asked), state.frozen) {
        Ok(engine) => Ok(Answering {
            alloc,
            cutter,
            engine,
            header,
            base,
            skipped: 0,
        }),
        Err(ThawFault::NotState) => {
            Err(KeptStatus::Ended(Status::BadCheckpoint { line: state.lines }))
        }
        Err(ThawFault::Memory) => Err(KeptStatus::Ended(Status::Memory)),
    }
}

// A run that goes on from what FILE has.
pub(crate) fn start_again<W: KeptWire>(
    alloc: Global,
    asked: &CommandLine<'_>,
    every: u64,
    plan: Plan,
    bytes: &[u8],
    wire: &mut W,
) -> Result<Keeper, KeptStatus>
    requires within { AreWithin (asked_by asked.now) }
    ensures fresh { IfOk result (λ k. IsFresh (asked_by asked.now) k.answering) }
    ensures starts { IfOk result (λ k. (before : List Told) (start : Places) →
        let t = task_from (asked_by asked.now) plan before start in IsStartOf t bytes.now →
        Grows (W.journal wire.old) (W.journal wire.new) (StartsWith t every k)) }
    ensures silent { OnErr result (Grows (W.journal wire.old) (W.journal wire.new) (λ J. J ≡ [])) }
    ensures wanting { IfErr result (λ status. (before : List Told) (start : Places) →
        IsStartOf (task_from (asked_by asked.now) plan before start) bytes.now →
        IsWanting status) }
    ensures state { OnOk result (HasState (asked_by asked.now) plan bytes.now) }
    ensures refusal { IfErr result IsRefusal }
    ensures counted { OnOk result (StaysCounted (W.read_faults wire.old) (W.read_faults wire.new)
        (W.write_faults wire.old) (W.write_faults wire.new)) }
    ensures tells { IfErr result (TellsEnd (W.read_faults wire.old) (W.read_faults wire.new)
        (W.write_faults wire.old) (W.write_faults wire.new)) }
{
    let workers = asked.workers as u64;
    let form = Form::new(alloc, asked.query, workers, &asked.policy, &plan)?;
    let read_form = Form::new(alloc, asked.query, workers, &asked.policy, &plan)?;
    let state = read_state(alloc, read_form, bytes)?;
    let input = state.input;
    let output = state.output;
    let answering = thawed(alloc, asked, plan, state)?;
    wire.start_at(input, output)?;
    Ok(Keeper {
        answering,
        form,
        every,
        input,
        output,
        kept_at: Time::ZERO,
    })
}
