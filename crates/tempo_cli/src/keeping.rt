// Lines answered as they come, and checkpoints kept where they are due.
ghost use Rattle.std.specs.Prelude.{◌≡◌, ◌+◌, ◌++◌, ◌∷◌, [], ℕ, List, min, nat_le, false, length};
ghost use Rattle.std.specs.Prelude.{IfOk, OnOk, OnErr, IfErr};
ghost use Rattle.wire_lines.specs.Journal.{Entry, Grows};
ghost use Rattle.checkpoint.specs.Text.{checkpoint_lines};
ghost use Rattle.checkpoint.specs.Writing.{bytes_of};
ghost use Rattle.tempo_cli.specs.Table.{limit};
ghost use Rattle.tempo_cli.specs.Feeding.{WantsBytes};
ghost use Rattle.tempo_cli.specs.Keeping.{Task, task_after, place_lines, StartsTask};
ghost use Rattle.tempo_cli.specs.Keeping.{last_behind, Keeps};
ghost use Rattle.tempo_cli.specs.Standing.{Stands, Begun, MayRead, Fails, IsWanting, IsAsBefore};
ghost use Rattle.tempo_cli.specs.Standing.{SaysSame, WhateverStands, WhateverText, TakesOn, EndsAt};
ghost use Rattle.tempo_cli.specs.Standing.{TakesHeld, EndsHeld, HasFewer};
ghost use Rattle.tempo_cli.specs.KeptStatus.{kept_of, KeptCounts, StaysCounted, TellsEnd};

use crate::Status;
use crate::answering::{Answering, LIMIT, PIECE, Step};
use crate::freezing::buffer_for;
use crate::holding::hold;
use crate::kept_status::KeptStatus;
use checkpoint::{Form, Place, push_input_line, push_output_line, write_entries, write_line};
use frozen_state::{Frozen, FrozenPart};
use kept_wire::KeptWire;
use shard_apply::Gate;
use std::alloc::Global;
use std::thread::Threads;
use tw_rows::{Memory, Time};
use wire_lines::send;

/// A run that keeps checkpoints: what answers its lines, and what is known of its checkpoints.
#[derive(Drop)]
pub struct Keeper {
    pub answering: Answering,
    pub form: Form,
    /// The least time from the last punctuation of one checkpoint to that of the next.
    pub every: u64,
    /// At which byte of the input its lines begin.
    pub input: u64,
    /// How many bytes the output's file has, those that are held and not written yet counted with them.
    pub output: u64,
    /// The last punctuation of the last checkpoint.
    pub kept_at: Time,
}

// How many bytes the next read asks for, where so many more may come.
fn piece(left: u64) -> usize
    ensures { result ≡ min left 65536 }
{
    left.min(PIECE) as usize
}

// How many bytes of room the text has for an entry, of which lines of four cells mostly take a third. It is more than an entry
// takes in memory, so the text is the largest block of a checkpoint: the C library then keeps the memory that a checkpoint gives
// back, and the next one finds its pages there. Room that is not written to costs nothing.
const ROOM_OF_ENTRY: usize = 128;

// How many entries the parts have, or the greatest number that there is room for.
fn count_entries(parts: &[FrozenPart]) -> usize {
    let mut count: usize = 0;
    for part in parts {
        count = count.saturating_add(part.saved.entries().len());
    }
    count
}

// Makes room for the lines of the entries, where there is memory for it: the text then grows once. Where there is none it grows
// as it is written.
fn reserve_for(frozen: &Frozen, text: &mut Vec<u8>)
    ensures { text.new.items ≡ text.old.items }
{
    let room = count_entries(frozen.parts()).saturating_mul(ROOM_OF_ENTRY);
    let _made = text.reserve(room);
}

// Appends the lines of the checkpoint.
fn push_lines(form: &Form, frozen: &Frozen, out: &mut Vec<u8>) -> Result<(), Memory>
    ensures { OnOk result (out.new.items ≡ out.old.items
        ++ bytes_of (checkpoint_lines form.now.head frozen.now)) }
{
    let mut place = Place::Head(0);
    'lines: while let Some(next) = write_line(form, frozen, place, out)? {
        place = write_entries(frozen, next, out)?;
    }
    Ok(())
}

// Appends the lines of the places.
fn push_places(input: u64, output: u64, out: &mut Vec<u8>) -> Result<(), Memory>
    ensures { OnOk result (out.new.items ≡ out.old.items
        ++ bytes_of (place_lines (record { input = input; output = output }))) }
{
    push_input_line(out, input)?;
    out.push(b'\n')?;
    push_output_line(out, output)?;
    out.push(b'\n')?;
    Ok(())
}

impl Keeper {
    // What FILE is to have once all that was taken is behind it. It answers Memory too where a count is none of 64 bits.
    fn text(&self) -> Result<Vec<u8>, Memory>
        requires going { self.now.answering.engine.ended ≡ false }
        ensures { IfOk result (λ text. WhateverStands self.now
            (λ t J given counts. StartsTask (task_after t given) text.items)) }
    {
        let Some(input) = self.input.checked_add(self.answering.cutter.passed()) else {
            return Err(Memory);
        };
        if self.output == u64::MAX {
            return Err(Memory);
        }
        let Ok(frozen) = self.answering.engine.freeze() else {
            return Err(Memory);
        };
        let mut text = buffer_for(self.answering.alloc, &frozen)?;
        reserve_for(&frozen, &mut text);
        push_places(input, self.output, &mut text)?;
        push_lines(&self.form, &frozen, &mut text)?;
        Ok(text)
    }

    // Keeps a checkpoint. What was written so far is brought to the disk before.
    fn take_checkpoint<W: KeptWire>(&mut self, wire: &mut W) -> Result<(), KeptStatus>
        requires going { self.old.answering.engine.ended ≡ false }
        ensures same { IsAsBefore self.old self.new }
        ensures ok { OnOk result (WhateverStands self.old (λ t J given counts.
            Grows (W.journal wire.old) (W.journal wire.new) (λ K. SaysSame J (J ++ K)
            × Stands t self.new (J ++ K) given (counts ++ length given ∷ [])))) }
        ensures at { OnOk result (WhateverStands self.old
            (λ t J given counts. self.new.kept_at ≡ last_behind t given)) }
        ensures err { OnErr result (WhateverStands self.old (λ t J given counts.
            Grows (W.journal wire.old) (W.journal wire.new)
            (λ K. SaysSame J (J ++ K) × Fails t given counts (J ++ K)))) }
        ensures wanting { IfErr result IsWanting }
        ensures counted { OnOk result (StaysCounted (W.read_faults wire.old)
            (W.read_faults wire.new) (W.write_faults wire.old) (W.write_faults wire.new)) }
        ensures counts { IfErr result (KeptCounts (W.read_faults wire.old) (W.read_faults wire.new)
            (W.write_faults wire.old) (W.write_faults wire.new)) }
    {
        wire.sync_output()?;
        let text = self.text()?;
        wire.keep(&text)?;
        self.kept_at = self.answering.engine.last_punctuation();
        Ok(())
    }

    // Whether a checkpoint is due.
    #[tactic(auto, unfolding(tw_rows::specs::Instant::inf))]
    fn is_due(&self) -> bool
        ensures { WhateverText self.now (λ t J given counts.
            result ≡ nat_le (self.now.kept_at + self.now.every) (last_behind t given)) }
    {
        let last = self.answering.engine.last_punctuation();
        self.kept_at.word().saturating_add(self.every) <= last.word()
    }

    // Takes the next line, and keeps a checkpoint where one is due: false where no whole line is left. What the line makes due is
    // held, and all that is held is written before a checkpoint is kept, and before the run ends.
    fn take_line<R: Threads + Sync, W: KeptWire, G: Gate>(
        &mut self,
        rt: &R,
        wire: &mut W,
        gate: &G,
        held: &mut Vec<u8>,
    ) -> Result<bool, KeptStatus>
        requires longest { self.old.answering.cutter.longest ≡ 65536 }
        requires going { self.old.answering.engine.ended ≡ false }
        ensures longest { self.new.answering.cutter.longest ≡ 65536 }
        ensures going { self.new.answering.engine.ended ≡ false }
        ensures fewer { IfOk result (HasFewer self.old.answering.cutter self.new.answering.cutter) }
        ensures ok { OnOk result (TakesHeld (W.journal wire.old) (W.journal wire.new) self.old
            held.old.items self.new held.new.items) }
        ensures err { IfErr result
            (EndsHeld (W.journal wire.old) (W.journal wire.new) self.old held.old.items) }
        ensures counted { OnOk result (StaysCounted (W.read_faults wire.old)
            (W.read_faults wire.new) (W.write_faults wire.old) (W.write_faults wire.new)) }
        ensures tells { IfErr result (TellsEnd (W.read_faults wire.old) (W.read_faults wire.new)
            (W.write_faults wire.old) (W.write_faults wire.new)) }
    {
        match self.answering.next_step(rt, gate) {
            Step::More => Ok(false),
            Step::Stop(status) => {
                send(wire, held)?;
                Err(KeptStatus::Ended(status))
            }
            Step::Out(out) => {
                hold(wire, held, &out)?;
                self.output = self.output.saturating_add(out.len() as u64);
                if self.is_due() {
                    send(wire, held)?;
                    held.clear();
                    self.take_checkpoint(wire)?;
                }
                Ok(true)
            }
        }
    }

    // Takes all whole lines that came in, and writes what they make due.
    fn take_lines<R: Threads + Sync, W: KeptWire, G: Gate>(
        &mut self,
        rt: &R,
        wire: &mut W,
        gate: &G,
    ) -> Result<(), KeptStatus>
        requires longest { self.old.answering.cutter.longest ≡ 65536 }
        requires going { self.old.answering.engine.ended ≡ false }
        ensures going { self.new.answering.engine.ended ≡ false }
        ensures wants { OnOk result (WantsBytes self.new.answering.cutter) }
        ensures ok { OnOk result
            (TakesOn (W.journal wire.old) (W.journal wire.new) self.old self.new) }
        ensures err { IfErr result (EndsAt (W.journal wire.old) (W.journal wire.new) self.old) }
        ensures counted { OnOk result (StaysCounted (W.read_faults wire.old)
            (W.read_faults wire.new) (W.write_faults wire.old) (W.write_faults wire.new)) }
        ensures tells { IfErr result (TellsEnd (W.read_faults wire.old) (W.read_faults wire.new)
            (W.write_faults wire.old) (W.write_faults wire.new)) }
    {
        let mut held = Vec::new(self.answering.alloc);
        'lines: loop {
            let more = self.take_line(rt, wire, gate, &mut held)?;
            if !more {
                send(wire, &held)?;
                return Ok(());
            }
        }
    }

    // Takes lines to the end of the input, and keeps a checkpoint there.
    fn keep_on<R: Threads + Sync, W: KeptWire, G: Gate>(
        &mut self,
        rt: &R,
        wire: &mut W,
        gate: &G,
    ) -> Result<(), KeptStatus>
        requires wants { WantsBytes self.old.answering.cutter }
        requires going { self.old.answering.engine.ended ≡ false }
        ensures ends { (t : Task) (every : ℕ) (J : List Entry) →
            MayRead t every self.old (limit + 1) J →
            Grows (W.journal wire.old) (W.journal wire.new)
            (λ K. Keeps t every (kept_of result) (J ++ K)) }
        ensures tells { TellsEnd (W.read_faults wire.old) (W.read_faults wire.new)
            (W.write_faults wire.old) (W.write_faults wire.new) (kept_of result) }
    {
        let mut left = LIMIT + 1;
        'reads: while left > 0 {
            let count = self.answering.read(wire, piece(left))?;
            if count == 0 {
                self.take_checkpoint(wire)?;
                return Ok(());
            }
            left -= count as u64;
            self.take_lines(rt, wire, gate)?;
        }
        Err(KeptStatus::Ended(Status::InputTooLong))
    }

    // The run from its start on.
    pub(crate) fn go<R: Threads + Sync, W: KeptWire, G: Gate>(
        &mut self,
        rt: &R,
        wire: &mut W,
        gate: &G,
    ) -> Result<(), KeptStatus>
        requires wants { WantsBytes self.old.answering.cutter }
        requires going { self.old.answering.engine.ended ≡ false }
        ensures ends { (t : Task) (every : ℕ) → Begun t every self.old →
            Grows (W.journal wire.old) (W.journal wire.new) (Keeps t every (kept_of result)) }
        ensures tells { TellsEnd (W.read_faults wire.old) (W.read_faults wire.new)
            (W.write_faults wire.old) (W.write_faults wire.new) (kept_of result) }
    {
        self.take_checkpoint(wire)?;
        self.keep_on(rt, wire, gate)
    }
}
