// Wires over readers and writers, such as the standard streams.
ghost use Rattle.std.specs.Prelude.{◌≡◌, ◌≤◌, ◌<◌, length, IfOk, take};
ghost use Rattle.std.specs.Io.KnownBytes.{Appends};
ghost use Rattle.wire_lines.specs.Faults.{HasCause};

use crate::{ReadFailed, Wire, WriteFailed};
use std::io::{Read, Write};

// Writes a prefix of the piece and flushes. Every error counts, and a write that takes nothing.
// After a failure a prefix of the piece may have gone out all the same.
fn write_through<W: Write>(
    output: &mut W,
    piece: &[u8],
    faults: &mut u64,
) -> Result<usize, WriteFailed>
    ensures some { IfOk result (λ n. 0 < n) }
    ensures bound { IfOk result (λ n. n ≤ length piece.now) }
    ensures cause { HasCause faults.old faults.new result }
    ensures bytes { IfOk result (λ n.
        Appends (W.contents output.old) (W.contents output.new) (take n piece.now)) }
{
    if let Ok(count) = output.write(piece) {
        if count > 0 && output.flush().is_ok() {
            return Ok(count);
        }
    }
    *faults = faults.saturating_add(1);
    Err(WriteFailed)
}

/// A wire over a reader and a writer: standard input and output in the program. It flushes after
/// each write and tells no journal, since what a stream gives or takes no contract can say.
#[derive(Drop)]
pub struct StdWire<R: Read, W: Write> {
    input: R,
    output: W,
    read_faults: u64,
    write_faults: u64,
}

impl<R: Read, W: Write> StdWire<R, W> {
    /// No fault is counted yet.
    pub fn new(input: R, output: W) -> StdWire<R, W>
        ensures input { result.input ≡ input }
        ensures output { result.output ≡ output }
        ensures unfailed { (result.read_faults ≡ 0) × (result.write_faults ≡ 0) }
    {
        StdWire {
            input,
            output,
            read_faults: 0,
            write_faults: 0,
        }
    }
}

impl<R: Read, W: Write> Wire for StdWire<R, W> {
    ghost use Rattle.std.specs.Prelude.{None, ◌≡◌, ◌≤◌, ◌<◌, length, IfOk, take};
    ghost use Rattle.std.specs.Io.KnownBytes.{Appends, ReadConsumes};
    ghost use Rattle.wire_lines.specs.Journal.{Reads, Writes};
    ghost use Rattle.wire_lines.specs.Faults.{HasCause, IsOther};

    ghost journal = { λ _. None };

    ghost read_faults = { λ s. s.read_faults };

    ghost write_faults = { λ s. s.write_faults };

    fn read(&mut self, into: &mut [u8]) -> Result<usize, ReadFailed>
        requires { 0 < length into.old }
        ensures bound { IfOk result (λ n. n ≤ length into.new) }
        ensures told { Reads None None result into.new }
        ensures cause { HasCause self.old.read_faults self.new.read_faults result }
        ensures other { IsOther self.old.write_faults self.new.write_faults result }

        // Of a reader that knows its bytes, as one over a slice does.
        ensures bytes { ReadConsumes
            (R.remaining self.old.input) (R.remaining self.new.input) result into.new }
        ensures output { self.new.output ≡ self.old.output }
    {
        match self.input.read(into) {
            Ok(count) => Ok(count),
            Err(_) => {
                self.read_faults = self.read_faults.saturating_add(1);
                Err(ReadFailed)
            }
        }
    }

    fn write(&mut self, piece: &[u8]) -> Result<usize, WriteFailed>
        requires { 0 < length piece.now }
        ensures some { IfOk result (λ n. 0 < n) }
        ensures bound { IfOk result (λ n. n ≤ length piece.now) }
        ensures told { Writes None None result piece.now }
        ensures cause { HasCause self.old.write_faults self.new.write_faults result }
        ensures other { IsOther self.old.read_faults self.new.read_faults result }

        // Of a writer that knows its bytes, as a vector does.
        ensures bytes { IfOk result (λ n.
            Appends (W.contents self.old.output) (W.contents self.new.output) (take n piece.now)) }
        ensures input { self.new.input ≡ self.old.input }
    {
        write_through(&mut self.output, piece, &mut self.write_faults)
    }
}

/// A wire over a writer alone: standard error in the program. Nothing comes in, so each read
/// is the end of the input; else it is as `StdWire`.
#[derive(Drop)]
pub struct ErrWire<W: Write> {
    output: W,
    write_faults: u64,
}

impl<W: Write> ErrWire<W> {
    /// No fault is counted yet.
    pub fn new(output: W) -> ErrWire<W>
        ensures output { result.output ≡ output }
        ensures unfailed { result.write_faults ≡ 0 }
    {
        ErrWire {
            output,
            write_faults: 0,
        }
    }
}

impl<W: Write> Wire for ErrWire<W> {
    ghost use Rattle.std.specs.Prelude.{None, Ok, ◌≡◌, ◌≤◌, ◌<◌, length, IfOk, take};
    ghost use Rattle.std.specs.Io.KnownBytes.{Appends};
    ghost use Rattle.wire_lines.specs.Journal.{Reads, Writes};
    ghost use Rattle.wire_lines.specs.Faults.{HasCause, IsOther};

    ghost journal = { λ _. None };

    ghost read_faults = { λ _. 0 };

    ghost write_faults = { λ s. s.write_faults };

    fn read(&mut self, into: &mut [u8]) -> Result<usize, ReadFailed>
        requires { 0 < length into.old }
        ensures bound { IfOk result (λ n. n ≤ length into.new) }
        ensures told { Reads None None result into.new }
        ensures cause { HasCause 0 0 result }
        ensures other { IsOther self.old.write_faults self.new.write_faults result }
        ensures ended { result ≡ Ok 0 }
        ensures unchanged { self.new ≡ self.old }
    {
        Ok(0)
    }

    fn write(&mut self, piece: &[u8]) -> Result<usize, WriteFailed>
        requires { 0 < length piece.now }
        ensures some { IfOk result (λ n. 0 < n) }
        ensures bound { IfOk result (λ n. n ≤ length piece.now) }
        ensures told { Writes None None result piece.now }
        ensures cause { HasCause self.old.write_faults self.new.write_faults result }
        ensures other { IsOther 0 0 result }

        // Of a writer that knows its bytes, as a vector does.
        ensures bytes { IfOk result (λ n.
            Appends (W.contents self.old.output) (W.contents self.new.output) (take n piece.now)) }
    {
        write_through(&mut self.output, piece, &mut self.write_faults)
    }
}
