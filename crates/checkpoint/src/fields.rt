// Fields of lines: numbers and times.
ghost use Rattle.std.specs.Prelude.{◌≡◌, ◌++◌, ◌∷◌, ◌^◌, decimal, OnOk, OnErr, ◌≤◌, vec_capacity};
ghost use Rattle.row_reader.specs.Number.{number_of};
ghost use Rattle.row_reader.specs.FieldTexts.{time_text};
ghost use Rattle.checkpoint.specs.Reading.{instant_of};
ghost use Rattle.checkpoint.specs.Room.{LacksRoom};

use itoa::Buffer;
use row_reader::read_number;
use tw_rows::{Memory, Time};

// Appends the number.
fn push_decimal(out: &mut Vec<u8>, number: u64) -> Result<(), Memory>
    ensures ok { OnOk result (out.new.items ≡ out.old.items ++ decimal number) }
    ensures room { vec_capacity out.old ≤ vec_capacity out.new }
    ensures full { OnErr result (LacksRoom out.old (decimal number)) }
{
    let mut buffer = Buffer::new();
    out.extend_from_slice(buffer.format(number).as_bytes())?;
    Ok(())
}

/// Appends a comma and the number.
pub fn push_number_field(out: &mut Vec<u8>, number: u64) -> Result<(), Memory>
    ensures ok { OnOk result (out.new.items ≡ out.old.items ++ 44 ∷ decimal number) }
    ensures room { vec_capacity out.old ≤ vec_capacity out.new }
    ensures full { OnErr result (LacksRoom out.old (44 ∷ decimal number)) }
{
    out.push(b',')?;
    push_decimal(out, number)
}

// Appends the time as a field: what `push_time` of row_reader does for it tells nothing of room.
fn push_time(out: &mut Vec<u8>, time: Time) -> Result<(), Memory>
    ensures ok { OnOk result (out.new.items ≡ out.old.items ++ time_text time) }
    ensures room { vec_capacity out.old ≤ vec_capacity out.new }
    ensures full { OnErr result (LacksRoom out.old (time_text time)) }
{
    match time.get() {
        Some(number) => push_decimal(out, number),
        None => {
            out.extend_from_slice(b"inf")?;
            Ok(())
        }
    }
}

/// Appends a comma and the time.
pub fn push_time_field(out: &mut Vec<u8>, time: Time) -> Result<(), Memory>
    ensures ok { OnOk result (out.new.items ≡ out.old.items ++ 44 ∷ time_text time) }
    ensures room { vec_capacity out.old ≤ vec_capacity out.new }
    ensures full { OnErr result (LacksRoom out.old (44 ∷ time_text time)) }
{
    out.push(b',')?;
    push_time(out, time)
}

// The instant that the field spells by its digits.
fn read_finite(text: &[u8]) -> Option<Time>
    ensures { result ≡ number_of (2 ^ 61) text.now }
{
    match read_number(text, 1 << 61) {
        Some(number) => Time::new(number),
        None => None,
    }
}

/// The time that the field spells, which may be any.
#[tactic(auto, unfolding(crate::specs::Reading::instant_of, tw_rows::specs::Instant::inf))]
pub fn read_instant(text: &[u8]) -> Option<Time>
    ensures { result ≡ instant_of text.now }
{
    if text == b"inf".as_slice() {
        Some(Time::INF)
    } else {
        read_finite(text)
    }
}
