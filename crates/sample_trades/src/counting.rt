// The lines of a text that comes in parts, counted by how they begin.
ghost use Rattle.std.specs.Prelude.{◌≡◌, ◌≤◌, ◌+◌, ◌++◌, ◌∷◌, [], ℕ, List, IfOk, OnOk, length, nat_eq, if◌then◌else◌};
ghost use Rattle.std.specs.List.{starts_with};
ghost use Rattle.sample_trades.specs.Summary.{summary_of, summary_text};
ghost use Rattle.sample_trades.specs.Counted.{Counted};

use crate::pieces::write_pieces;
use itoa::Buffer;
use std::alloc::Global;
use tw_rows::Memory;

// How many bytes tell what a line is.
const TELLING: usize = 10;

/// How many start lines, end lines and punctuations a text has so far, and the first bytes of its last line, which goes on.
#[derive(Drop)]
pub struct LineCounts {
    starts: u64,
    ends: u64,
    puncts: u64,
    first: Vec<u8>,
}

// The count of lines that begin with `front`, with one more line, whose first bytes are these.
fn with_line(count: u64, first: &[u8], front: &[u8]) -> Result<u64, Memory>
    ensures { IfOk result (λ n. n ≡ count +
        (if starts_with nat_eq first.now front.now then 1 else 0)) }
{
    if first.starts_with(front) {
        count.checked_add(1).ok_or(Memory)
    } else {
        Ok(count)
    }
}

impl LineCounts {
    /// Of no text.
    pub fn new(alloc: Global) -> LineCounts
        ensures { Counted [] result }
    {
        LineCounts {
            starts: 0,
            ends: 0,
            puncts: 0,
            first: Vec::new(alloc),
        }
    }

    fn end_line(&mut self) -> Result<(), Memory>
        ensures { OnOk result ((text : List ℕ) → Counted text self.old →
            Counted (text ++ 10 ∷ []) self.new) }
    {
        let first = self.first.as_slice();
        let starts = with_line(self.starts, first, b"out,start,")?;
        let ends = with_line(self.ends, first, b"out,end,")?;
        let puncts = with_line(self.puncts, first, b"*,punct,")?;
        self.starts = starts;
        self.ends = ends;
        self.puncts = puncts;
        self.first.clear();
        Ok(())
    }

    fn add_byte(&mut self, byte: u8) -> Result<(), Memory>
        ensures { OnOk result ((text : List ℕ) → Counted text self.old →
            Counted (text ++ byte ∷ []) self.new) }
    {
        if byte == b'\n' {
            return self.end_line();
        }
        if self.first.as_slice().len() < TELLING {
            self.first.push(byte)?;
        }
        Ok(())
    }

    /// The text goes on with these bytes. Out of memory nothing is said of the counts; a count that no u64 holds is answered
    /// so too.
    pub fn add(&mut self, bytes: &[u8]) -> Result<(), Memory>
        ensures { OnOk result ((text : List ℕ) → Counted text self.old →
            Counted (text ++ bytes.now) self.new) }
    {
        for byte in bytes {
            self.add_byte(*byte)?;
        }
        Ok(())
    }

    /// The summary of the text.
    pub fn summary(&self, alloc: Global) -> Result<Vec<u8>, Memory>
        ensures { IfOk result (λ bytes. (text : List ℕ) → Counted text self.now →
            bytes.items ≡ summary_text (summary_of text)) }
    {
        let mut starts = Buffer::new();
        let mut ends = Buffer::new();
        let mut puncts = Buffer::new();
        let mut text = Vec::new(alloc);
        write_pieces(
            &mut text,
            &[
                b"starts ".as_slice(),
                starts.format(self.starts).as_bytes(),
                b"\nends ",
                ends.format(self.ends).as_bytes(),
                b"\npuncts ",
                puncts.format(self.puncts).as_bytes(),
                b"\n",
            ],
        )?;
        Ok(text)
    }
}
