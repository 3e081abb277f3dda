// A wire in memory: its input is given, its output kept, and its calls fail where they are told to.
ghost use Rattle.std.specs.Prelude.{◌==◌, ◌≡◌, ◌≤◌, ◌<◌, length, IfOk, vec_capacity};
ghost use Rattle.std.specs.List.{list_any};
ghost use Rattle.wire_lines.specs.Memory.{fresh, call_fails};

use crate::{ReadFailed, Wire, WriteFailed};
use std::alloc::Global;
use std::marker::Model;
use tw_rows::Memory;

/// One successful call, by places in the bytes that were read and in those that were written:
/// from the first place up to, and not including, the second.
#[derive(Clone, Copy, Debug, PartialEq, Eq)]
pub enum WireStep {
    In { from: usize, to: usize },
    Out { from: usize, to: usize },
}

/// A wire whose input is given and whose output is kept, and whose calls fail where they are told to.
#[derive(Drop)]
pub struct MemoryWire {
    input: Vec<u8>,
    output: Vec<u8>,
    steps: Vec<WireStep>,
    step: usize,
    room: usize,
    failing: Vec<u64>,
    calls: u64,
    taken: usize,
    read_faults: u64,
    write_faults: u64,
}

impl Model for MemoryWire {
    ghost use Rattle.std.specs.Prelude.{◌≤◌, ◌<◌, length, vec_capacity};
    ghost use Rattle.std.specs.List.{All};
    ghost use Rattle.wire_lines.specs.Memory.{MemoryState, IsWithin};

    ghost Value = { MemoryState };

    ghost view = { λ m. record {
      input = m.input.items;
      output = m.output.items;
      steps = m.steps.items;
      step = m.step;
      room = m.room;
      failing = m.failing.items;
      calls = m.calls;
      taken = m.taken;
      read_faults = m.read_faults;
      write_faults = m.write_faults;
    } };

    ghost invariant = { λ m. (0 < m.step)
        × (m.taken ≤ length m.input.items)
        × (m.room ≤ vec_capacity m.output)
        × (m.room ≤ vec_capacity m.steps)
        × All (IsWithin m.input.items m.output.items) m.steps.items };
}

impl MemoryWire {
    /// Reads give the input, `step` bytes at most at a time. Calls of `read` and `write` are
    /// counted together from 0, and those whose number is in `failing` fail. There is room for
    /// `room` written bytes and for `room` entries of the journal, all of it taken here: no later
    /// call takes memory.
    pub fn new(
        alloc: Global,
        input: Vec<u8>,
        step: usize,
        room: usize,
        failing: Vec<u64>,
    ) -> Result<MemoryWire, Memory>
        requires { 0 < step }
        ensures { IfOk result (λ m. m ≡ fresh input.items step room failing.items) }
    {
        let output = Vec::with_capacity(alloc, room)?;
        let steps = Vec::with_capacity(alloc, room)?;
        Ok(MemoryWire {
            input,
            output,
            steps,
            step,
            room,
            failing,
            calls: 0,
            taken: 0,
            read_faults: 0,
            write_faults: 0,
        })
    }

    /// All bytes written so far.
    pub fn output(&self) -> &[u8]
        ensures { result.now ≡ self.now.output }
    {
        self.output.as_slice()
    }

    /// The journal, as places in the input and the output.
    pub fn steps(&self) -> &[WireStep]
        ensures { result.now ≡ self.now.steps }
    {
        self.steps.as_slice()
    }

    // Whether the next call fails, whatever it is.
    fn fails_now(&self) -> bool
        ensures { result ≡ call_fails self.now }
    {
        self.failing.contains(&self.calls) || self.steps.len() >= self.room
    }
}

impl Wire for MemoryWire {
    ghost use Rattle.std.specs.Prelude.{Some, ◌≡◌, ◌≤◌, ◌<◌, ◌++◌, length, IfOk, OnErr, take, drop, not, is_ok};
    ghost use Rattle.wire_lines.specs.Memory.{told, call_fails, write_fails, read_count};
    ghost use Rattle.wire_lines.specs.Memory.{after_read, after_write, after_failed_read};
    ghost use Rattle.wire_lines.specs.Memory.{after_failed_write};
    ghost use Rattle.wire_lines.specs.Journal.{Reads, Writes};
    ghost use Rattle.wire_lines.specs.Faults.{HasCause, IsOther};

    ghost journal = { λ m. Some (told m) };

    ghost read_faults = { λ m. m.read_faults };

    ghost write_faults = { λ m. m.write_faults };

    fn read(&mut self, into: &mut [u8]) -> Result<usize, ReadFailed>
        requires { 0 < length into.old }
        ensures bound { IfOk result (λ n. n ≤ length into.new) }
        ensures told { Reads (Some (told self.old)) (Some (told self.new)) result into.new }
        ensures cause { HasCause self.old.read_faults self.new.read_faults result }
        ensures other { IsOther self.old.write_faults self.new.write_faults result }

        // Beyond what every wire does: when it fails, how much it gives, and what it leaves.
        ensures fails { is_ok result ≡ not (call_fails self.old) }
        ensures count { IfOk result (λ n. n ≡ read_count self.old (length into.old)) }
        ensures bytes { IfOk result (λ n.
            into.new ≡ take n (drop self.old.taken self.old.input) ++ drop n into.old) }
        ensures ok { IfOk result (λ n. self.new ≡ after_read self.old n) }
        ensures err { OnErr result (self.new ≡ after_failed_read self.old) }
    {
        let fails = self.fails_now();
        self.calls = self.calls.saturating_add(1);
        if fails {
            self.read_faults = self.read_faults.saturating_add(1);
            return Err(ReadFailed);
        }
        let from = self.taken;
        let count = self.step.min(into.len()).min(self.input.len() - from);
        let to = from + count;
        into[..count].copy_from_slice(&self.input[from..to]);
        self.steps.push_reserved(WireStep::In { from, to });
        self.taken = to;
        Ok(count)
    }

    fn write(&mut self, piece: &[u8]) -> Result<usize, WriteFailed>
        requires { 0 < length piece.now }
        ensures some { IfOk result (λ n. 0 < n) }
        ensures bound { IfOk result (λ n. n ≤ length piece.now) }
        ensures told { Writes (Some (told self.old)) (Some (told self.new)) result piece.now }
        ensures cause { HasCause self.old.write_faults self.new.write_faults result }
        ensures other { IsOther self.old.read_faults self.new.read_faults result }

        // Beyond what every wire does: when it fails, that it takes all, and what it leaves.
        ensures fails { is_ok result ≡ not (write_fails self.old (length piece.now)) }
        ensures all { IfOk result (λ n. n ≡ length piece.now) }
        ensures ok { IfOk result (λ n. self.new ≡ after_write self.old piece.now) }
        ensures err { OnErr result (self.new ≡ after_failed_write self.old) }
    {
        let fails = self.fails_now() || piece.len() > self.room.saturating_sub(self.output.len());
        self.calls = self.calls.saturating_add(1);
        if fails {
            self.write_faults = self.write_faults.saturating_add(1);
            return Err(WriteFailed);
        }
        let from = self.output.len();
        let to = from + piece.len();
        match self.output.extend_from_slice(piece) {
            Ok(()) => {}
            Err(_) => unreachable!(),
        }
        self.steps.push_reserved(WireStep::Out { from, to });
        Ok(piece.len())
    }
}
