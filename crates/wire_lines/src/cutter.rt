// Bytes in pieces of any size, cut into lines.
ghost use Rattle.std.specs.Prelude.{◌≡◌, ◌≤◌, ◌<◌, ◌+◌, ◌-◌, ◌++◌, ◌∷◌, [], ℕ, List, length, take, drop, slice_range, IfOk, MatchResult};
ghost use Rattle.std.specs.Prelude.{◌==◌, min, IfSome, IfNone};
ghost use Rattle.std.specs.List.{count_by, slice_split};
ghost use Rattle.wire_lines.specs.Lines.{line_len, whole};
ghost use Rattle.wire_lines.specs.Found.{found, FoundFits};
ghost use Rattle.wire_lines.specs.Journal.{In, Adds};
ghost use Rattle.wire_lines.specs.Faults.{HasCause, IsOther};

use crate::{ReadFailed, Wire};
use memchr::{memchr, memrchr};
use std::alloc::Global;
use std::marker::Model;
use tw_rows::Memory;

/// A line without the LF that ends it; a CR before that LF is still there. Numbers count from 1.
#[derive(Clone, Copy)]
pub struct Line<'a> {
    pub number: u64,
    pub bytes: &'a [u8],
}

/// Lines with an LF between each two, and the number of the first. The LF that ends the last one
/// is none of the bytes.
#[derive(Clone, Copy)]
pub struct Block<'a> {
    pub number: u64,
    pub bytes: &'a [u8],
}

/// What stands next: a line, a line that is too long, more bytes than the input may have, or
/// nothing before more bytes are fed.
#[derive(Clone, Copy)]
pub enum Cut<'a> {
    Line(Line<'a>),
    TooLong { number: u64 },
    TooMany,
    More,
}

// The most bytes that come in at once.
const PIECE: usize = 65536;

/// Cuts bytes into lines, however the bytes come. `longest` is the most bytes of a line, its LF
/// not counted, and `total` the most bytes of the whole input.
///
/// It keeps the bytes from the next line on in one buffer, which a wire reads into: no byte is
/// copied into it, and no line out of it.
#[derive(Drop)]
pub struct LineCutter {
    longest: usize,
    total: u64,
    passed: u64,
    number: u64,
    buffer: Vec<u8>,
    from: usize,
    to: usize,
    wants_bytes: bool,
}

impl Model for LineCutter {
    ghost use Rattle.std.specs.Prelude.{◌≤◌, ◌≡◌, ◌+◌, ◌-◌, length, slice_range, IsTrue, ⊤};
    ghost use Rattle.wire_lines.specs.Cutter.{CutterState};

    ghost Value = { CutterState };

    ghost view = { λ c. record {
      longest = c.longest;
      total = c.total;
      passed = c.passed;
      number = c.number;
      rest = slice_range c.buffer.items c.from c.to;
      wants_bytes = c.wants_bytes;
    } };

    ghost invariant = { λ c. (c.from ≤ c.to)
        × (c.to ≤ length c.buffer.items)
        × (c.longest + 65536 ≤ length c.buffer.items)
        × (c.passed ≤ c.total)
        × (c.number ≤ c.passed)
        × (IsTrue c.wants_bytes → c.to ≤ c.from + c.longest)
        × (IsTrue c.wants_bytes → c.passed + (c.to - c.from) ≤ c.total) };
}

// How many bytes stand before the first LF, or all of them.
fn line_length(bytes: &[u8]) -> usize
    ensures { result ≡ line_len bytes.now }
{
    match memchr(b'\n', bytes) {
        Some(length) => length,
        None => bytes.len(),
    }
}

// What stands next in the rest.
enum Found {
    TooLong,
    Line(usize),
    TooMany,
    More,
}

// `room` is how many more bytes of the input may come.
fn look(rest: &[u8], longest: usize, room: u64) -> Found
    ensures which { result ≡ found longest room rest.now }
    ensures fits { FoundFits longest room rest.now result }
{
    let length = line_length(rest);
    if (longest as u64) < room.min(length as u64) {
        return Found::TooLong;
    }
    if (length as u64) < room.min(rest.len() as u64) {
        return Found::Line(length);
    }
    if rest.len() as u64 > room {
        return Found::TooMany;
    }
    Found::More
}

// How many bytes stand before the LF that ends a block's last line, where the block has a line.
fn block_length(rest: &[u8], longest: usize, room: u64) -> Option<usize>
    ensures some { IfSome result (λ n. slice_split (λ b. b == 10) (take n rest.now)
        ≡ whole (take (min (longest + 1) room) rest.now)) }
    ensures within { IfSome result (λ n. (n < room) × (n < length rest.now)) }
    ensures none { IfNone result (whole (take (min (longest + 1) room) rest.now) ≡ []) }
{
    let most = rest.len().min(longest.saturating_add(1));
    let most = room.min(most as u64) as usize;
    memrchr(b'\n', &rest[..most])
}

// How many bytes are counted at once: so few that a byte holds the count, and the loop is one over
// vectors of bytes.
const COUNTED: usize = 128;

// How many LFs stand among so few bytes.
fn count_few(bytes: &[u8]) -> u8
    requires { length bytes.now < 256 }
    ensures { result ≡ count_by (λ b. b == 10) bytes.now }
{
    let mut count = 0;
    for byte in bytes {
        if *byte == b'\n' {
            count += 1;
        }
    }
    count
}

// How many LFs stand among the bytes.
fn count_feeds(bytes: &[u8]) -> u64
    ensures { result ≡ count_by (λ b. b == 10) bytes.now }
{
    let mut count = 0;
    let mut rest = bytes;
    while rest.len() > COUNTED {
        let (few, more) = rest.split_at(COUNTED);
        count += count_few(few) as u64;
        rest = more;
    }
    count + count_few(rest) as u64
}

// Moves the bytes from one place up to another to the front, and answers how many they are.
fn move_to_front(buffer: &mut Vec<u8>, from: usize, to: usize) -> usize
    requires order { from ≤ to }
    requires within { to ≤ length buffer.old.items }
    ensures count { result ≡ to - from }
    ensures moved { take result buffer.new.items ≡ slice_range buffer.old.items from to }
    ensures len { length buffer.new.items ≡ length buffer.old.items }
{
    buffer.copy_within(from..to, 0);
    to - from
}

// Puts a piece into the buffer, from that place on.
fn put_at(buffer: &mut Vec<u8>, at: usize, piece: &[u8])
    requires { at + length piece.now ≤ length buffer.old.items }
    ensures put { take (at + length piece.now) buffer.new.items ≡ take at buffer.old.items
        ++ piece.now }
    ensures len { length buffer.new.items ≡ length buffer.old.items }
{
    buffer[at..at + piece.len()].copy_from_slice(piece);
}

// Reads the next bytes of a wire into the buffer, from that place on, so many at most.
fn read_at<W: Wire>(
    wire: &mut W,
    buffer: &mut Vec<u8>,
    at: usize,
    most: usize,
) -> Result<usize, ReadFailed>
    requires some { 0 < most }
    requires room { at + most ≤ length buffer.old.items }
    ensures bound { IfOk result (λ n. n ≤ most) }
    ensures told { MatchResult result (λ n.
        Adds (W.journal wire.old) (W.journal wire.new)
        (In (slice_range buffer.new.items at (at + n)) ∷ []))
        (λ _. Adds (W.journal wire.old) (W.journal wire.new) []) }
    ensures kept { take at buffer.new.items ≡ take at buffer.old.items }
    ensures len { length buffer.new.items ≡ length buffer.old.items }
    ensures cause { HasCause (W.read_faults wire.old) (W.read_faults wire.new) result }
    ensures other { IsOther (W.write_faults wire.old) (W.write_faults wire.new) result }
{
    wire.read(&mut buffer[at..at + most])
}

impl LineCutter {
    ghost use Rattle.std.specs.Prelude.{IsNone, IfSome, ◌↔◌, ◌≡◌, ◌++◌, ◌+◌, ◌≤◌, ◌<◌, ℕ, List, length, IsTrue, IfOk, [], true, false, ⊤};
    ghost use Rattle.std.specs.Borrow.{sem, follows_so};
    ghost use mathlib.Core.Option.{none};
    ghost use Rattle.wire_lines.specs.Cutter.{opening};
    ghost use Rattle.wire_lines.specs.Next.{next, after_next};
    ghost use Rattle.wire_lines.specs.Cut.{cut_view};
    ghost use Rattle.wire_lines.specs.Cuts.{Cuts};
    ghost use Rattle.wire_lines.specs.Reading.{HasRead};
    ghost use Rattle.wire_lines.specs.Block.{block_lines, after_block};
    ghost use Rattle.wire_lines.specs.contracts.cutter.LineCutter.{the_row};

    /// Takes all the memory that it will use: `longest` and 65,536 bytes. Where the two together
    /// are no `usize`, that is out of memory too.
    pub fn new(alloc: Global, longest: usize, total: u64) -> Result<LineCutter, Memory>
        ensures state { IfOk result (λ c. c ≡ opening longest total) }
        ensures lines { IfOk result (λ c. Cuts [] c []) }
    {
        let Some(capacity) = longest.checked_add(PIECE) else {
            return Err(Memory);
        };
        let buffer = Vec::from_elem(alloc, 0u8, capacity)?;
        Ok(LineCutter {
            longest,
            total,
            passed: 0,
            number: 0,
            buffer,
            from: 0,
            to: 0,
            wants_bytes: true,
        })
    }

    /// Takes the next bytes, 65,536 at most. It needs that the last `next_line` gave `More` and
    /// nothing was fed since; or that nothing was fed at all. It takes no memory.
    pub fn feed(&mut self, piece: &[u8])
        requires fits { length piece.now ≤ 65536 }
        requires wants_bytes { IsTrue self.old.wants_bytes }
        ensures state { self.new ≡
            record self.old { rest = self.old.rest ++ piece.now; wants_bytes = false } }
        ensures lines { (bytes : List ℕ) (given : List (List ℕ)) →
            Cuts bytes self.old given → Cuts (bytes ++ piece.now) self.new given }
    {
        let kept = move_to_front(&mut self.buffer, self.from, self.to);
        put_at(&mut self.buffer, kept, piece);
        self.from = 0;
        self.to = kept + piece.len();
        self.wants_bytes = false;
    }

    /// Reads the next bytes of a wire into the buffer, so many at most, and answers how many they
    /// are: 0 is the end of the input. It needs that the last `next_line` gave `More` and no byte
    /// came in since; or that none came in at all. It takes no memory.
    pub fn read_from<W: Wire>(&mut self, wire: &mut W, most: usize) -> Result<usize, ReadFailed>
        requires some { 0 < most }
        requires fits { most ≤ 65536 }
        requires wants_bytes { IsTrue self.old.wants_bytes }
        ensures bound { IfOk result (λ n. n ≤ most) }
        ensures read { HasRead (W.journal wire.old) (W.journal wire.new) self.old self.new result }
        ensures cause { HasCause (W.read_faults wire.old) (W.read_faults wire.new) result }
        ensures other { IsOther (W.write_faults wire.old) (W.write_faults wire.new) result }
    {
        let kept = move_to_front(&mut self.buffer, self.from, self.to);
        self.from = 0;
        self.to = kept;
        let count = read_at(wire, &mut self.buffer, kept, most)?;
        if count > 0 {
            self.to = kept + count;
            self.wants_bytes = false;
        }
        Ok(count)
    }

    /// The next line, or why there is none. After `TooLong` and `TooMany` it gives the same again.
    /// `answers_tell_lines` is the law that ties each answer to all bytes fed. It takes no memory.
    pub fn next_line(&mut self) -> Cut<'_>
        // Once the answer is let go, the cutter is the one after the next line.
        ensures* after { sem 𝓛 (follows_so the_row the_row self.entry.ghost_name none
            (λ _ _. ⊤) (λ c. c ≡ after_next self.old)) }
        ensures value { cut_view result ≡ next self.old }
    {
        let from = self.from;
        let room = self.total - self.passed;
        match look(&self.buffer[from..self.to], self.longest, room) {
            Found::TooLong => {
                self.wants_bytes = false;
                Cut::TooLong {
                    number: self.number + 1,
                }
            }
            Found::Line(length) => {
                self.from = from + length + 1;
                self.passed += length as u64 + 1;
                self.number += 1;
                self.wants_bytes = false;
                let line = Line {
                    number: self.number,
                    bytes: &self.buffer[from..from + length],
                };
                Cut::Line(line)
            }
            Found::TooMany => {
                self.wants_bytes = false;
                Cut::TooMany
            }
            Found::More => {
                self.wants_bytes = true;
                Cut::More
            }
        }
    }

    /// The next lines, as many of them as have together, each with its LF, no more bytes than the
    /// longest line has with its own. None where `next_line` gives no line; nothing changes then.
    /// `blocks_are_lines` is the law that ties a block to `next_line`. It takes no memory.
    pub fn next_block(&mut self) -> Option<Block<'_>>
        // Once the answer is let go, the cutter is the one after the block.
        ensures* after { sem 𝓛 (follows_so the_row the_row self.entry.ghost_name none
            (λ _ _. ⊤) (λ c. c ≡ after_block self.old)) }
        ensures some { IfSome result (λ b. (b.number ≡ self.old.number + 1)
            × (slice_split (λ byte. byte == 10) b.bytes.now ≡ block_lines self.old)) }
        ensures none { IsNone result ↔ (block_lines self.old ≡ []) }
    {
        let from = self.from;
        let room = self.total - self.passed;
        let length = block_length(&self.buffer[from..self.to], self.longest, room)?;
        let number = self.number + 1;
        self.from = from + length + 1;
        self.passed += length as u64 + 1;
        self.number = number + count_feeds(&self.buffer[from..from + length]);
        self.wants_bytes = false;
        let block = Block {
            number,
            bytes: &self.buffer[from..from + length],
        };
        Some(block)
    }

    /// How many bytes the lines given so far had, their LFs counted.
    pub fn passed(&self) -> u64
        ensures { result ≡ self.now.passed }
    {
        self.passed
    }

    /// The bytes after the last LF, once all bytes were fed: the last `next_line` gave `More` and
    /// nothing was fed since. They are a last line, where there are any.
    pub fn last_line(&mut self) -> Option<Line<'_>>
        requires { IsTrue self.old.wants_bytes }
        // Once the answer is let go, the cutter is as it was.
        ensures* after { sem 𝓛 (follows_so the_row the_row self.entry.ghost_name none
            (λ _ _. ⊤) (λ c. c ≡ self.old)) }
        ensures none { IsNone result ↔ (self.old.rest ≡ []) }
        ensures some { IfSome result (λ l.
            (l.number ≡ self.old.number + 1) × (l.bytes.now ≡ self.old.rest)) }
    {
        let rest = &self.buffer[self.from..self.to];
        if rest.is_empty() {
            return None;
        }
        let line = Line {
            number: self.number + 1,
            bytes: rest,
        };
        Some(line)
    }
}
