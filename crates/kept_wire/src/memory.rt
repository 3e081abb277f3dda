// A wire over files that are in memory, which crashes where it is told to.
use crate::{KeptWire, MediumFailed, MemoryMedium, ReadFault, counted, open, replace};
use std::alloc::Global;
use std::marker::Model;
use wire_lines::{ReadFailed, Wire, WriteFailed};

// An entry of the journal.
#[derive(Drop)]
enum Done {
    In(Vec<u8>),
    Out(Vec<u8>),
    StartNew(u64),
    StartAt(u64, u64),
    Sync,
    Keep(Vec<u8>),
}

/// A wire whose files are in memory, and whose calls fail from a given one on, as those of a process that is ended.
#[derive(Drop)]
pub struct MemoryFileWire {
    alloc: Global,
    input: Vec<u8>,
    step: usize,
    taken: usize,
    // All that stands in the output's file.
    output: Vec<u8>,
    // How many bytes of the output's file a crash leaves.
    kept: usize,
    medium: MemoryMedium,
    calls: u64,
    journal: Vec<Done>,
    read_faults: u64,
    write_faults: u64,
}

impl Model for MemoryFileWire {
    ghost use Rattle.std.specs.Prelude.{◌≤◌, ◌<◌, length, map};
    ghost use Rattle.kept_wire.specs.Memory.{WireView, entry_of};

    ghost Value = { WireView };

    ghost view = { λ w. record {
      input = w.input.items;
      step = w.step;
      taken = w.taken;
      output = w.output.items;
      kept = w.kept;
      file = w.medium;
      calls = w.calls;
      journal = map entry_of w.journal.items;
      read_faults = w.read_faults;
      write_faults = w.write_faults;
    } };

    ghost invariant = { λ w. (0 < w.step)
        × (w.taken ≤ length w.input.items)
        × (w.kept ≤ length w.output.items) };
}

impl MemoryFileWire {
    ghost use Rattle.std.specs.Prelude.{◌≡◌, ◌≤◌, ◌<◌, ◌+◌, ◌-◌, ◌^◌, ◌++◌, ◌∷◌, [], length, take, drop, min, option_map, OnSome, IfSome, IfNone};
    ghost use Rattle.wire_lines.specs.Journal.{In, Out};
    ghost use Rattle.kept_wire.specs.MediumMemory.{left_back};
    ghost use Rattle.kept_wire.specs.Memory.{opened, crashed, killed, entry_of};

    /// Reads give the input, `step` bytes at most at a time. The output's file has these bytes. So many reads, writes, starts and
    /// syncs go on, and each one behind them fails.
    pub fn new(
        alloc: Global,
        input: Vec<u8>,
        step: usize,
        output: Vec<u8>,
        medium: MemoryMedium,
        calls: u64,
    ) -> MemoryFileWire
        requires { 0 < step }
        ensures { result ≡ opened input.items step output.items (length output.items) medium calls }
    {
        let kept = output.len();
        MemoryFileWire {
            alloc,
            input,
            step,
            taken: 0,
            output,
            kept,
            medium,
            calls,
            journal: Vec::new(alloc),
            read_faults: 0,
            write_faults: 0,
        }
    }

    /// All that stands in the output's file.
    pub fn output(&self) -> &[u8]
        ensures { result.now ≡ self.now.output }
    {
        self.output.as_slice()
    }

    // What the next process finds where nothing is done to the files. No call of it fails.
    fn reopened(self) -> MemoryFileWire
        ensures { result
            ≡ opened self.input self.step self.output self.kept self.file (2 ^ 64 - 1) }
    {
        let MemoryFileWire {
            alloc,
            input,
            step,
            taken: _,
            output,
            kept,
            medium,
            calls: _,
            journal: _,
            read_faults: _,
            write_faults: _,
        } = self;
        MemoryFileWire {
            alloc,
            input,
            step,
            taken: 0,
            output,
            kept,
            medium,
            calls: u64::MAX,
            journal: Vec::new(alloc),
            read_faults: 0,
            write_faults: 0,
        }
    }

    /// What the next process finds after a crash: FILE as the medium's `crash` leaves it, and of the output's file the bytes that
    /// are kept and so many more. No call of it fails.
    pub fn crash(self, back: usize, torn: Vec<u8>, more: usize) -> Option<MemoryFileWire>
        ensures { result ≡ option_map (crashed self more)
            (left_back self.file.told.now back torn.items) }
    {
        let mut next = self.reopened();
        let more = more.min(next.output.len() - next.kept);
        next.output.truncate(next.kept + more);
        next.kept = next.output.len();
        next.medium = next.medium.crash(back, torn)?;
        Some(next)
    }

    /// What the next process finds where this one was ended and the machine went on. No call of it fails.
    pub fn killed(self) -> MemoryFileWire
        ensures { result ≡ killed self }
    {
        let mut next = self.reopened();
        next.medium = next.medium.killed();
        next
    }

    // One call fewer may go on. None where none may, or out of memory for its entry.
    fn pass(&mut self) -> Option<()>
        ensures rest { self.new ≡ record self.old { calls = self.new.calls } }
        ensures fewer { OnSome result (self.old.calls ≡ self.new.calls + 1) }
    {
        self.calls = self.calls.checked_sub(1)?;
        self.journal.reserve(1).ok()
    }

    // The next bytes of the input.
    fn take_in(&mut self, into: &mut [u8]) -> Option<usize>
        ensures count { IfSome result (λ n.
            n ≡ min (min self.old.step (length into.old))
            (length self.old.input - self.old.taken)) }
        ensures bytes { IfSome result (λ n.
            into.new ≡ take n (drop self.old.taken self.old.input) ++ drop n into.old) }
        ensures some { IfSome result (λ n. self.new ≡ record self.old {
          taken = self.old.taken + n;
          calls = self.old.calls - 1;
          journal = self.old.journal ++ In (take n into.new) ∷ [];
        }) }
        ensures none { IfNone result (self.new ≡ record self.old { calls = self.new.calls }) }
    {
        self.pass()?;
        let count = self.step.min(into.len()).min(self.input.len() - self.taken);
        let piece = &self.input[self.taken..self.taken + count];
        let done = Done::In(piece.to_vec(self.alloc).ok()?);
        self.journal.push(done).ok()?;
        into[..count].copy_from_slice(piece);
        self.taken += count;
        Some(count)
    }

    // All the bytes go behind the output.
    fn put_out(&mut self, piece: &[u8]) -> Option<()>
        ensures some { OnSome result (self.new ≡ record self.old {
          output = self.old.output ++ piece.now;
          calls = self.old.calls - 1;
          journal = self.old.journal ++ Out piece.now ∷ [];
        }) }
        ensures none { IfNone result (self.new ≡ record self.old { calls = self.new.calls }) }
    {
        self.pass()?;
        let done = Done::Out(piece.to_vec(self.alloc).ok()?);
        self.output.reserve(piece.len()).ok()?;
        self.journal.push(done).ok()?;
        match self.output.extend_from_slice(piece) {
            Ok(()) => Some(()),
            Err(_) => unreachable!(),
        }
    }
}

impl Wire for MemoryFileWire {
    ghost use Rattle.std.specs.Prelude.{Some, ◌≡◌, ◌≤◌, ◌<◌, ◌+◌, ◌++◌, length, take, drop, IfOk};
    ghost use Rattle.wire_lines.specs.Journal.{Reads, Writes};
    ghost use Rattle.wire_lines.specs.Faults.{HasCause, IsOther};

    ghost journal = { λ w. Some w.journal };

    ghost read_faults = { λ w. w.read_faults };

    ghost write_faults = { λ w. w.write_faults };

    fn read(&mut self, into: &mut [u8]) -> Result<usize, ReadFailed>
        requires { 0 < length into.old }
        ensures bound { IfOk result (λ n. n ≤ length into.new) }
        ensures told { Reads (Some self.old.journal) (Some self.new.journal) result into.new }
        ensures cause { HasCause self.old.read_faults self.new.read_faults result }
        ensures other { IsOther self.old.write_faults self.new.write_faults result }

        // Beyond what every wire does: the bytes are the next ones of the input.
        ensures bytes { IfOk result (λ n.
            into.new ≡ take n (drop self.old.taken self.old.input) ++ drop n into.old) }
        ensures behind { IfOk result (λ n. self.new.taken ≡ self.old.taken + n) }
    {
        match self.take_in(into) {
            Some(count) => Ok(count),
            None => {
                self.read_faults = self.read_faults.saturating_add(1);
                Err(ReadFailed)
            }
        }
    }

    fn write(&mut self, piece: &[u8]) -> Result<usize, WriteFailed>
        requires { 0 < length piece.now }
        ensures some { IfOk result (λ n. 0 < n) }
        ensures bound { IfOk result (λ n. n ≤ length piece.now) }
        ensures told { Writes (Some self.old.journal) (Some self.new.journal) result piece.now }
        ensures cause { HasCause self.old.write_faults self.new.write_faults result }
        ensures other { IsOther self.old.read_faults self.new.read_faults result }

        // Beyond what every wire does: all bytes go behind the output, and nothing more is kept.
        ensures bytes { IfOk result (λ n. self.new.output ≡ self.old.output ++ piece.now) }
        ensures kept { self.new.kept ≡ self.old.kept }
    {
        match self.put_out(piece) {
            Some(()) => Ok(piece.len()),
            None => {
                self.write_faults = self.write_faults.saturating_add(1);
                Err(WriteFailed)
            }
        }
    }
}

impl MemoryFileWire {
    ghost use Rattle.std.specs.Prelude.{◌≡◌, ◌-◌, ◌++◌, ◌∷◌, [], length, take, OnSome, IfNone};
    ghost use Rattle.wire_lines.specs.Journal.{Did, Sync};
    ghost use Rattle.kept_wire.specs.Memory.{entry_of};

    // The input goes on there, and the output behind so many bytes of its file. That stands in the journal so.
    fn start(&mut self, input: u64, output: u64, done: Done) -> Option<()>
        ensures some { OnSome result (self.new ≡ record self.old {
          taken = input;
          output = take output self.old.output;
          kept = output;
          calls = self.old.calls - 1;
          journal = self.old.journal ++ entry_of done ∷ [];
        }) }
        ensures none { IfNone result (self.new ≡ record self.old { calls = self.new.calls }) }
    {
        self.pass()?;
        if (self.input.len() as u64) < input || (self.output.len() as u64) < output {
            return None;
        }
        self.journal.push(done).ok()?;
        self.taken = input as usize;
        self.output.truncate(output as usize);
        self.kept = output as usize;
        Some(())
    }

    // All that went out is kept.
    fn sync(&mut self) -> Option<()>
        ensures some { OnSome result (self.new ≡ record self.old {
          kept = length self.old.output;
          calls = self.old.calls - 1;
          journal = self.old.journal ++ Did Sync ∷ [];
        }) }
        ensures none { IfNone result (self.new ≡ record self.old { calls = self.new.calls }) }
    {
        self.pass()?;
        self.journal.push(Done::Sync).ok()?;
        self.kept = self.output.len();
        Some(())
    }
}

impl KeptWire for MemoryFileWire {
    ghost use Rattle.std.specs.Prelude.{Some, ◌≡◌, ◌∷◌, [], length, take, IfOk, OnOk, OnErr};
    ghost use Rattle.wire_lines.specs.Journal.{Did, Start, AtEnd, CutAt, Sync, Keep, Adds};
    ghost use Rattle.wire_lines.specs.Faults.{HasCause, IsOther};
    ghost use Rattle.kept_wire.specs.Calls.{Goes};
    ghost use Rattle.kept_wire.specs.Replaced.{HasReplaced};
    ghost use Rattle.kept_wire.specs.Kept.{HasNotKept};

    ghost told = { λ w. Some w.file.told };

    fn open(&mut self, alloc: Global) -> Result<Option<Vec<u8>>, ReadFault> {
        let opened = open(&mut self.medium, alloc);
        if let Err(ReadFault::Failed) = &opened {
            self.read_faults = self.read_faults.saturating_add(1);
        }
        opened
    }

    fn start_new(&mut self) -> Result<u64, MediumFailed>
        ensures ok { IfOk result (λ output. Adds (Some self.old.journal) (Some self.new.journal)
            (Did (Start 0 (AtEnd output)) ∷ [])) }
        ensures err { OnErr result (Adds (Some self.old.journal) (Some self.new.journal) []) }
        ensures cause { HasCause self.old.write_faults self.new.write_faults result }
        ensures other { IsOther self.old.read_faults self.new.read_faults result }

        // Beyond what every wire does: the output goes behind all that is there.
        ensures length { IfOk result (λ n. n ≡ length self.old.output) }
        ensures output { self.new.output ≡ self.old.output }
    {
        let output = self.output.len() as u64;
        let started = self.start(0, output, Done::StartNew(output));
        counted(&mut self.write_faults, started.ok_or(MediumFailed))?;
        Ok(output)
    }

    fn start_at(&mut self, input: u64, output: u64) -> Result<(), MediumFailed>
        ensures ok { OnOk result (Adds (Some self.old.journal) (Some self.new.journal)
            (Did (Start input (CutAt output)) ∷ [])) }
        ensures err { OnErr result (Adds (Some self.old.journal) (Some self.new.journal) []) }
        ensures cause { HasCause self.old.write_faults self.new.write_faults result }
        ensures other { IsOther self.old.read_faults self.new.read_faults result }

        // Beyond what every wire does: the output is cut there, and the input goes on there.
        ensures output { OnOk result (self.new.output ≡ take output self.old.output) }
        ensures input { OnOk result (self.new.taken ≡ input) }
    {
        let started = self.start(input, output, Done::StartAt(input, output));
        counted(&mut self.write_faults, started.ok_or(MediumFailed))
    }

    fn sync_output(&mut self) -> Result<(), MediumFailed>
        ensures ok { OnOk result
            (Adds (Some self.old.journal) (Some self.new.journal) (Did Sync ∷ [])) }
        ensures err { OnErr result (Adds (Some self.old.journal) (Some self.new.journal) []) }
        ensures cause { HasCause self.old.write_faults self.new.write_faults result }
        ensures other { IsOther self.old.read_faults self.new.read_faults result }

        // Beyond what every wire does: a crash leaves all of the output.
        ensures kept { OnOk result (self.new.kept ≡ length self.old.output) }
        ensures output { self.new.output ≡ self.old.output }
    {
        let synced = self.sync();
        counted(&mut self.write_faults, synced.ok_or(MediumFailed))
    }

    fn keep(&mut self, bytes: &[u8]) -> Result<(), MediumFailed> {
        let kept = self.keep_bytes(bytes);
        if kept.is_err() {
            self.write_faults = self.write_faults.saturating_add(1);
        }
        kept
    }
}

impl MemoryFileWire {
    ghost use Rattle.std.specs.Prelude.{◌≡◌, ◌⊎◌, OnOk, OnErr};
    ghost use Rattle.kept_wire.specs.Replaced.{HasReplaced};
    ghost use Rattle.kept_wire.specs.Memory.{with_keep};

    // FILE is replaced, and that stands in the journal. Out of memory nothing is done.
    fn keep_bytes(&mut self, bytes: &[u8]) -> Result<(), MediumFailed>
        ensures told { HasReplaced bytes.now result self.old.file.told self.new.file.told }
        ensures ok { OnOk result (self.new.journal ≡ with_keep self.old bytes.now) }
        ensures err { OnErr result
            ((self.new.journal ≡ with_keep self.old bytes.now) ⊎ (self.new ≡ self.old)) }
        ensures faults { (self.new.read_faults ≡ self.old.read_faults)
            × (self.new.write_faults ≡ self.old.write_faults) }
    {
        let Ok(copy) = bytes.to_vec(self.alloc) else {
            return Err(MediumFailed);
        };
        if self.journal.push(Done::Keep(copy)).is_err() {
            return Err(MediumFailed);
        }
        replace(&mut self.medium, bytes)
    }
}
