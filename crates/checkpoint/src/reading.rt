// A checkpoint that is read line by line.
ghost use Rattle.std.specs.Prelude.{◌≡◌, ◌≢◌, true, false, Some, None, length, slice_get, OnOk, OnErr, IfOk, IfErr, IfSome, IfNone};
ghost use Rattle.row_reader.specs.Fields.{commas};
ghost use Rattle.checkpoint.specs.Reading.{text_of, part_of};
ghost use Rattle.frozen_state.specs.Forms.{AreApart};
ghost use Rattle.checkpoint.specs.Steps.{State, standing, head_step, bound_step, cells_step, placed_step, place_of};
ghost use Rattle.checkpoint.specs.Steps.{entry_step, text_step, step, opening, empty_parts, kinds_in};

use crate::entry::read_entry_line;
use crate::form::Form;
use crate::head::is_end_line;
use crate::owner::{EntryPart, read_entry_part};
use crate::progress::{read_bound_line, read_time_line};
use crate::text::read_text_line;
use edge_stream::Saved;
use frozen_state::{Frozen, FrozenPart, PartForm};
use std::alloc::{AllocFailed, Global};
use tw_rows::{CellKind, Label, Memory, Time};

/// Where a reader stands.
#[derive(Clone, Copy, Debug, PartialEq, Eq)]
pub enum ReadingStage {
    /// So many of the lines in front of what was frozen were read, and the times not yet.
    Head(usize),
    /// The times were read, and streams and texts so far.
    Texts,
    /// The last line was of an entry, of the part of that number.
    Entries(usize),
    /// All was read, and given away.
    Ended,
}

/// Why a line was not taken.
#[derive(Clone, Copy, Debug, PartialEq, Eq)]
pub enum TakeFault {
    /// No checkpoint of this form begins with the lines so far and this one.
    NotCheckpoint,
    Memory,
}

impl From<Memory> for TakeFault {
    ghost use Rattle.checkpoint.specs.declared.reading.TakeFault.TheVariants as faults;

    ghost from_gives = { λ _ fault. fault ≡ faults.Memory };

    fn from(_memory: Memory) -> TakeFault {
        TakeFault::Memory
    }
}

/// What was read so far, and where it stands.
#[derive(Drop)]
pub(crate) struct Reading {
    pub alloc: Global,
    pub form: Form,
    pub stage: ReadingStage,
    pub frozen: Frozen,
}

// Parts of these forms, without entries.
fn parts_without_entries(alloc: Global, forms: &[PartForm]) -> Result<Vec<FrozenPart>, Memory>
    ensures { IfOk result (λ parts. parts.items ≡ empty_parts forms.now) }
{
    let mut parts = Vec::new(alloc);
    for form in forms {
        parts.push(FrozenPart {
            owner: form.owner(),
            shard: form.shard(),
            saved: Saved::new(alloc),
        })?;
    }
    Ok(parts)
}

// The number of the first form of that owner and shard, from a number on.
fn place(forms: &[PartForm], from: usize, part: &EntryPart) -> Option<usize>
    ensures { result ≡ place_of forms.now from part.now }
{
    for number in from..forms.len() {
        if forms[number].is_of(part.owner, part.shard) {
            return Some(number);
        }
    }
    None
}

// How the cells are stored of an entry of that part of the part of that number.
fn kinds_at(forms: &[PartForm], number: usize, part: u64) -> Option<&[CellKind]>
    ensures some { IfSome result (λ kinds. kinds_in forms.now number part ≡ Some kinds.now) }
    ensures none { IfNone result (kinds_in forms.now number part ≡ None) }
{
    match forms.get(number) {
        Some(form) => form.kinds(part),
        None => None,
    }
}

impl Reading {
    /// Before the first line.
    pub fn new(alloc: Global, form: Form) -> Result<Reading, Memory>
        ensures form { IfOk result (λ r. r.form ≡ form) }
        ensures stage { IfOk result (λ r. r.stage ≡ ReadingStage.Head 0) }
        ensures frozen { IfOk result (λ r. r.frozen ≡ opening form) }
        ensures apart { AreApart form.parts }
    {
        let parts = parts_without_entries(alloc, form.parts())?;
        let frozen = Frozen::new(
            0,
            Time::ZERO,
            Vec::new(alloc),
            Vec::new(alloc),
            Vec::new(alloc),
            parts,
        );
        Ok(Reading {
            alloc,
            form,
            stage: ReadingStage::Head(0),
            frozen,
        })
    }

    /// Whether all was read.
    pub fn has_ended(&self) -> bool
        ensures yes { result ≡ true → self.now.stage ≡ ReadingStage.Ended }
        ensures no { result ≡ false → self.now.stage ≢ ReadingStage.Ended }
    {
        matches!(self.stage, ReadingStage::Ended)
    }

    // Takes a line behind so many of the first ones.
    fn take_head(&mut self, passed: usize, line: &[u8]) -> Result<(), TakeFault>
        ensures ok { OnOk result (
            head_step self.old.frozen passed line.now (slice_get self.old.form.head passed)
            ≡ Some (standing self.new.stage self.new.frozen)) }
        ensures refused { IfErr result (λ fault. fault ≡ TakeFault.NotCheckpoint →
            head_step self.old.frozen passed line.now (slice_get self.old.form.head passed) ≡ None) }
        ensures err { OnErr result (self.new ≡ self.old) }
        ensures form { self.new.form ≡ self.old.form }
    {
        let Some(expected) = self.form.head_line(passed) else {
            let Some((lines, last)) = read_time_line(line) else {
                return Err(TakeFault::NotCheckpoint);
            };
            self.frozen.set_times(lines, last);
            self.stage = ReadingStage::Texts;
            return Ok(());
        };
        if line != expected {
            return Err(TakeFault::NotCheckpoint);
        }
        self.stage = ReadingStage::Head(passed + 1);
        Ok(())
    }

    // Takes the line of a stream.
    fn take_bound(&mut self, line: &[u8]) -> Result<(), TakeFault>
        requires { self.old.stage ≡ ReadingStage.Texts }
        ensures ok { OnOk result (
            bound_step self.old.frozen line.now ≡ Some (standing self.new.stage self.new.frozen)) }
        ensures refused { IfErr result (λ fault. fault ≡ TakeFault.NotCheckpoint →
            bound_step self.old.frozen line.now ≡ None) }
        ensures err { OnErr result (self.new ≡ self.old) }
        ensures form { self.new.form ≡ self.old.form }
    {
        let Some((bound, mark)) = read_bound_line(line) else {
            return Err(TakeFault::NotCheckpoint);
        };
        self.frozen.push_bound(bound, mark)?;
        Ok(())
    }

    // Takes the line of an entry of one of the parts from a number on.
    fn take_entry(&mut self, from: usize, line: &[u8]) -> Result<(), TakeFault>
        requires { length self.old.frozen.parts ≡ length self.old.form.parts }
        ensures ok { OnOk result (
            entry_step self.old.form self.old.frozen from line.now
            ≡ Some (standing self.new.stage self.new.frozen)) }
        ensures refused { IfErr result (λ fault. fault ≡ TakeFault.NotCheckpoint →
            entry_step self.old.form self.old.frozen from line.now ≡ None) }
        ensures err { OnErr result (self.new ≡ self.old) }
        ensures form { self.new.form ≡ self.old.form }
    {
        let Some(part) = read_entry_part(line) else {
            return Err(TakeFault::NotCheckpoint);
        };
        let Some(number) = place(self.form.parts(), from, &part) else {
            return Err(TakeFault::NotCheckpoint);
        };
        let Some(kinds) = kinds_at(self.form.parts(), number, part.part) else {
            return Err(TakeFault::NotCheckpoint);
        };
        let Some(read) = read_entry_line(self.alloc, line, kinds)? else {
            return Err(TakeFault::NotCheckpoint);
        };
        self.frozen.push_entry(number, read.entry)?;
        self.stage = ReadingStage::Entries(number);
        Ok(())
    }

    // Takes the line of a text, or of the first entry.
    fn take_text(&mut self, line: &[u8]) -> Result<(), TakeFault>
        requires stage { self.old.stage ≡ ReadingStage.Texts }
        requires parts { length self.old.frozen.parts ≡ length self.old.form.parts }
        ensures ok { OnOk result (
            text_step self.old.form self.old.frozen line.now (text_of line.now)
            ≡ Some (standing self.new.stage self.new.frozen)) }
        ensures refused { IfErr result (λ fault. fault ≡ TakeFault.NotCheckpoint →
            text_step self.old.form self.old.frozen line.now (text_of line.now) ≡ None) }
        ensures err { OnErr result (self.new ≡ self.old) }
        ensures form { self.new.form ≡ self.old.form }
    {
        let Some(text) = read_text_line(line) else {
            return self.take_entry(0, line);
        };
        self.frozen.push_text(Label::new(self.alloc, text)?)?;
        Ok(())
    }

    /// Takes a line: the one after those that it took.
    pub fn take(&mut self, line: &[u8]) -> Result<(), TakeFault>
        requires { length self.old.frozen.parts ≡ length self.old.form.parts }
        ensures ok { OnOk result (
            step self.old.form line.now (standing self.old.stage self.old.frozen)
            ≡ Some (standing self.new.stage self.new.frozen)) }
        ensures refused { IfErr result (λ fault. fault ≡ TakeFault.NotCheckpoint →
            step self.old.form line.now (standing self.old.stage self.old.frozen) ≡ None) }
        ensures err { OnErr result (self.new ≡ self.old) }
        ensures form { self.new.form ≡ self.old.form }
    {
        match self.stage {
            ReadingStage::Head(passed) => self.take_head(passed, line),
            ReadingStage::Texts => {
                if self.frozen.bounds().len() < self.form.streams() {
                    return self.take_bound(line);
                }
                if is_end_line(line) {
                    self.stage = ReadingStage::Ended;
                    return Ok(());
                }
                self.take_text(line)
            }
            ReadingStage::Entries(from) => {
                if is_end_line(line) {
                    self.stage = ReadingStage::Ended;
                    return Ok(());
                }
                self.take_entry(from, line)
            }
            ReadingStage::Ended => Err(TakeFault::NotCheckpoint),
        }
    }
}
