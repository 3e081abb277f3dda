// Fields of a line: values, times, and texts, between double quotes where they need them.
ghost use Rattle.std.specs.Prelude.{◌≡◌, ◌++◌, ◌∷◌, [], OnOk, OnErr};
ghost use Rattle.csv.specs.Writing.{default_writer, field_text, needs_byte, escaped};
ghost use Rattle.tw_rows.specs.Cells.{IsPlaced, read_datum};
ghost use Rattle.row_reader.specs.FieldTexts.{value_text, time_text, places_of};
ghost use Rattle.row_reader.specs.RecordTexts.{Begins};

use crate::number_text::push_number;
use itoa::Buffer;
use tw_rows::{Datum, Kind, Memory, TextTable, Time};

// Whether a field with that byte stands between double quotes.
fn needs_quotes(byte: u8) -> bool
    ensures { result ≡ needs_byte default_writer byte }
{
    matches!(byte, b'"' | b',' | b'\n' | b'\r')
}

#[tactic(auto, unfolding(csv::specs::Writing::escaped), using(crate::proofs::Begin::begin_steps))]
fn push_doubled_byte(out: &mut Vec<u8>, byte: u8) -> Result<(), Memory>
    ensures ok { OnOk result (out.new.items ≡ out.old.items ++ escaped default_writer (byte ∷ [])) }
    ensures err { OnErr result (Begins out.old.items out.new.items) }
{
    if byte == b'"' {
        out.extend_from_slice(b"\"\"")?;
    } else {
        out.push(byte)?;
    }
    Ok(())
}

// Appends the text, each double quote doubled.
#[tactic(auto, using(crate::proofs::Begin::begin_steps))]
fn push_doubled(out: &mut Vec<u8>, text: &[u8]) -> Result<(), Memory>
    ensures ok { OnOk result (out.new.items ≡ out.old.items ++ escaped default_writer text.now) }
    ensures err { OnErr result (Begins out.old.items out.new.items) }
{
    for byte in text {
        push_doubled_byte(out, *byte)?;
    }
    Ok(())
}

/// Appends the text as a field: as it stands, or between double quotes where it needs them.
#[tactic(auto, using(crate::proofs::Begin::begin_steps))]
pub fn push_text(out: &mut Vec<u8>, text: &str) -> Result<(), Memory>
    ensures ok { OnOk result (out.new.items ≡ out.old.items ++ field_text default_writer text.now) }
    ensures err { OnErr result (Begins out.old.items out.new.items) }
{
    let bytes = text.as_bytes();
    if bytes.iter().any(|byte| needs_quotes(*byte)) {
        out.push(b'"')?;
        push_doubled(out, bytes)?;
        out.push(b'"')?;
    } else {
        out.extend_from_slice(bytes)?;
    }
    Ok(())
}

// How many places the numbers of the kind have.
fn places_of(kind: Kind) -> u8
    ensures { result ≡ places_of kind }
{
    match kind {
        Kind::Dec(places) => places,
        Kind::Int | Kind::Bool | Kind::Text => 0,
    }
}

/// Appends the value that a datum of a column of that kind stands for, as a field.
#[tactic(auto, using(crate::proofs::Begin::begin_steps, std::proofs::lemmas::Option::get_or_from_slice_get))]
pub fn push_datum(
    out: &mut Vec<u8>,
    kind: Kind,
    datum: Datum,
    texts: &TextTable,
) -> Result<(), Memory>
    requires { IsPlaced texts.now datum }
    ensures ok { OnOk result (out.new.items ≡ out.old.items
        ++ field_text default_writer (value_text kind (read_datum texts.now datum))) }
    ensures err { OnErr result (Begins out.old.items out.new.items) }
{
    match datum {
        Datum::Int(number) => push_number(out, places_of(kind), number)?,
        Datum::Bool(true) => out.extend_from_slice(b"true")?,
        Datum::Bool(false) => out.extend_from_slice(b"false")?,
        Datum::Text(place) => push_text(out, texts.text(place))?,
    }
    Ok(())
}

/// Appends the time as a field.
pub fn push_time(out: &mut Vec<u8>, time: Time) -> Result<(), Memory>
    ensures ok { OnOk result (out.new.items ≡ out.old.items ++ time_text time) }
    ensures err { OnErr result (Begins out.old.items out.new.items) }
{
    match time.get() {
        Some(number) => {
            let mut buffer = Buffer::new();
            out.extend_from_slice(buffer.format(number).as_bytes())?;
        }
        None => out.extend_from_slice(b"inf")?,
    }
    Ok(())
}
