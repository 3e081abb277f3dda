// The fields of a line with quotes, as `csv` reads them.
ghost use Rattle.std.specs.Prelude.{◌≡◌, ◌≢◌, ◌<◌, [], IfOk, OnOk, length};
ghost use Rattle.std.specs.List.{All};
ghost use Rattle.std.specs.Str.{IsUtf8};
ghost use Rattle.csv.specs.Records.{fields_of, partial_of};
ghost use Rattle.row_reader.specs.Record.{record_of, ReadsOn};

use crate::quotes::Place;
use csv::{ByteRecord, StringRecord};
use std::alloc::{AllocError, Global};

// Takes a byte that stands in a field without quotes, and answers where the next byte stands.
#[tactic(auto, using(crate::proofs::Records::plain_steps))]
fn take_plain(byte: u8, field: &mut Vec<u8>, fields: &mut ByteRecord) -> Result<Place, AllocError>
    requires no_return { byte ≢ 13 }
    requires no_feed { byte ≢ 10 }
    requires partial { partial_of fields.old ≡ [] }
    ensures partial { OnOk result (partial_of fields.new ≡ []) }
    ensures step { IfOk result (λ after. ReadsOn Place.Plain byte
        (fields_of fields.old) field.old.items after (fields_of fields.new) field.new.items) }
{
    if byte == b',' {
        fields.push_field(field.as_slice())?;
        field.clear();
        Ok(Place::Start)
    } else {
        field.push(byte)?;
        Ok(Place::Plain)
    }
}

// Takes one byte more of a line into the fields and the field at hand, and answers where the next byte stands.
#[tactic(auto, using(crate::proofs::Records::record_steps))]
fn take_byte(
    place: Place,
    byte: u8,
    field: &mut Vec<u8>,
    fields: &mut ByteRecord,
) -> Result<Place, AllocError>
    requires no_return { byte ≢ 13 }
    requires no_feed { byte ≢ 10 }
    requires partial { partial_of fields.old ≡ [] }
    ensures partial { OnOk result (partial_of fields.new ≡ []) }
    ensures step { IfOk result (λ after. ReadsOn place byte
        (fields_of fields.old) field.old.items after (fields_of fields.new) field.new.items) }
{
    match place {
        Place::Start => {
            if byte == b'"' {
                Ok(Place::Quoted)
            } else {
                take_plain(byte, field, fields)
            }
        }
        Place::Plain => take_plain(byte, field, fields),
        Place::Quoted => {
            if byte == b'"' {
                Ok(Place::Closed)
            } else {
                field.push(byte)?;
                Ok(Place::Quoted)
            }
        }
        Place::Closed => {
            if byte == b'"' {
                field.push(byte)?;
                Ok(Place::Quoted)
            } else {
                take_plain(byte, field, fields)
            }
        }
    }
}

// The record of a line, as `csv` reads it.
#[tactic(auto, using(crate::proofs::Records::split_steps))]
fn split(alloc: Global, line: &[u8]) -> Result<ByteRecord, AllocError>
    requires some { 0 < length line.now }
    requires no_return { All (λ b. b ≢ 13) line.now }
    requires no_feed { All (λ b. b ≢ 10) line.now }
    ensures { IfOk result (λ r. fields_of r ≡ record_of line.now) }
{
    let mut fields = ByteRecord::new(alloc);
    let mut field = Vec::new(alloc);
    let mut place = Place::Start;
    for byte in line {
        place = take_byte(place, *byte, &mut field, &mut fields)?;
    }
    fields.push_field(field.as_slice())?;
    Ok(fields)
}

/// The record of a line of text, as `csv` reads it.
pub fn read_record(alloc: Global, line: &[u8]) -> Result<StringRecord, AllocError>
    requires some { 0 < length line.now }
    requires no_return { All (λ b. b ≢ 13) line.now }
    requires no_feed { All (λ b. b ≢ 10) line.now }
    requires utf8 { IsUtf8 line.now }
    ensures { IfOk result (λ r. fields_of r ≡ record_of line.now) }
{
    match StringRecord::from_byte_record(split(alloc, line)?) {
        Ok(fields) => Ok(fields),
        Err(_) => unreachable!(),
    }
}
