// The lines of where a run goes on in its input and in its output.
ghost use Rattle.std.specs.Prelude.{◌≡◌, ◌++◌, [], ◌∷◌, ℕ, List, OnOk, OnErr, IfSome, IfNone, ◌≤◌, vec_capacity, codes, decimal};
ghost use Rattle.checkpoint.specs.Room.{LacksRoom};
ghost use Rattle.row_reader.specs.Fields.{commas};
ghost use Rattle.checkpoint.specs.Lines.{input_line, output_line};
ghost use Rattle.checkpoint.specs.Reading.{input_of, output_of, single_of};

use crate::fields::push_number_field;
use row_reader::{Fields, read_whole};
use tw_rows::Memory;

/// Appends the line of how many bytes of the input were taken.
pub fn push_input_line(out: &mut Vec<u8>, bytes: u64) -> Result<(), Memory>
    ensures ok { OnOk result (out.new.items ≡ out.old.items ++ input_line bytes) }
    ensures room { vec_capacity out.old ≤ vec_capacity out.new }
    ensures full { OnErr result (LacksRoom out.old (input_line bytes)) }
{
    out.extend_from_slice(b"#input")?;
    push_number_field(out, bytes)
}

/// Appends the line of how many bytes of the output count.
pub fn push_output_line(out: &mut Vec<u8>, bytes: u64) -> Result<(), Memory>
    ensures ok { OnOk result (out.new.items ≡ out.old.items ++ output_line bytes) }
    ensures room { vec_capacity out.old ≤ vec_capacity out.new }
    ensures full { OnErr result (LacksRoom out.old (output_line bytes)) }
{
    out.extend_from_slice(b"#output")?;
    push_number_field(out, bytes)
}

// The fields of a line that has two.
fn split_two(line: &[u8]) -> Option<(&[u8], &[u8])>
    ensures some { IfSome result (λ f. commas line.now ≡ f.0.now ∷ f.1.now ∷ []) }
    ensures none { IfNone result ((a b : List ℕ) → commas line.now ≡ a ∷ b ∷ [] → ⊥) }
{
    let mut fields = Fields::Plain(Some(line));
    let first = fields.next_field()?;
    let second = fields.next_field()?;
    if fields.next_field().is_some() {
        return None;
    }
    Some((first, second))
}

// The number behind that word, in a line that has two fields.
fn read_single(line: &[u8], expected: &[u8]) -> Option<u64>
    ensures { result ≡ single_of expected.now (commas line.now) }
{
    let (word, bytes) = split_two(line)?;
    if word != expected {
        return None;
    }
    read_whole(bytes)
}

/// What a line of `push_input_line` says, where it is one.
pub fn read_input_line(line: &[u8]) -> Option<u64>
    ensures { result ≡ input_of line.now }
{
    read_single(line, b"#input")
}

/// What a line of `push_output_line` says, where it is one.
pub fn read_output_line(line: &[u8]) -> Option<u64>
    ensures { result ≡ output_of line.now }
{
    read_single(line, b"#output")
}
