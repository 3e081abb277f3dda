// The lines of how far the input has come.
ghost use Rattle.std.specs.Prelude.{◌≡◌, ◌++◌, ◌∷◌, [], ℕ, List, OnOk, OnErr, IfSome, IfNone, ◌≤◌, vec_capacity};
ghost use Rattle.checkpoint.specs.Room.{LacksRoom};
ghost use Rattle.row_reader.specs.Fields.{commas, left};
ghost use Rattle.checkpoint.specs.Lines.{time_line, bound_line};
ghost use Rattle.checkpoint.specs.Reading.{time_of, bound_of};

use crate::fields::{push_number_field, push_time_field, read_instant};
use row_reader::{Fields, read_number};
use tw_rows::{Memory, Time};

/// Appends the line of the number of the last line that was fed, which is 0 where there was none, and of the last punctuation.
pub fn push_time_line(out: &mut Vec<u8>, lines: u64, last: Time) -> Result<(), Memory>
    ensures ok { OnOk result (out.new.items ≡ out.old.items ++ time_line lines last) }
    ensures room { vec_capacity out.old ≤ vec_capacity out.new }
    ensures full { OnErr result (LacksRoom out.old (time_line lines last)) }
{
    out.extend_from_slice(b"#time")?;
    push_number_field(out, lines)?;
    push_time_field(out, last)
}

/// Appends the line of a stream: its bound and its mark.
pub fn push_bound_line(out: &mut Vec<u8>, bound: Time, mark: Time) -> Result<(), Memory>
    ensures ok { OnOk result (out.new.items ≡ out.old.items ++ bound_line bound mark) }
    ensures room { vec_capacity out.old ≤ vec_capacity out.new }
    ensures full { OnErr result (LacksRoom out.old (bound_line bound mark)) }
{
    out.extend_from_slice(b"#bound")?;
    push_time_field(out, bound)?;
    push_time_field(out, mark)
}

// The fields of a line that has three.
fn split_three(line: &[u8]) -> Option<(&[u8], &[u8], &[u8])>
    ensures some { IfSome result (λ f. commas line.now ≡ f.0.now ∷ f.1.now ∷ f.2.now ∷ []) }
    ensures none { IfNone result ((a b c : List ℕ) → commas line.now ≡ a ∷ b ∷ c ∷ [] → ⊥) }
{
    let mut fields = Fields::Plain(Some(line));
    let first = fields.next_field()?;
    let second = fields.next_field()?;
    let third = fields.next_field()?;
    if fields.next_field().is_some() {
        return None;
    }
    Some((first, second, third))
}

/// The most lines that a checkpoint may tell of.
const MOST_LINES: u64 = 1 << 62;

/// What a line of `push_time_line` says, where it is one.
pub fn read_time_line(line: &[u8]) -> Option<(u64, Time)>
    ensures { result ≡ time_of line.now }
{
    let (word, lines, last) = split_three(line)?;
    if word != b"#time".as_slice() {
        return None;
    }
    Some((read_number(lines, MOST_LINES + 1)?, read_instant(last)?))
}

/// What a line of `push_bound_line` says, where it is one.
pub fn read_bound_line(line: &[u8]) -> Option<(Time, Time)>
    ensures { result ≡ bound_of line.now }
{
    let (word, bound, mark) = split_three(line)?;
    if word != b"#bound".as_slice() {
        return None;
    }
    Some((read_instant(bound)?, read_instant(mark)?))
}
