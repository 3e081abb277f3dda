// A line read into cells: what it says, the values of an event as data, and their texts in a table.
ghost use Rattle.std.specs.Prelude.{◌≡◌, ◌≢◌, ◌≤◌, ◌<◌, ℕ, List, Ok, Err, None, IfErr, OnOk, length, drop, codes};
ghost use Rattle.std.specs.List.{All};
ghost use Rattle.std.specs.Str.{IsUtf8, is_utf8};
ghost use Rattle.csv.specs.Records.{AllText};
ghost use Rattle.tw_rows.specs.Texts.{BeginsWith};
ghost use Rattle.tw_rows.specs.declared.cells.Datum.{Datum};
ghost use Rattle.row_reader.specs.Fields.{left};
ghost use Rattle.row_reader.specs.Drafted.{row_in};
ghost use Rattle.row_reader.specs.Line.{text_of};
ghost use Rattle.row_reader.specs.Interned.{Interns, IsReadIn};
ghost use Rattle.row_reader.specs.TextRead.{ReadsText};
ghost use Rattle.row_reader.specs.Entry.{entry, punctuation, of_all, of_stream, event, named, record_entry, text_fault};
ghost use Rattle.row_reader.specs.Record.{field_of};
ghost use Rattle.row_reader.specs.Number.{same_text};
ghost use Rattle.row_reader.specs.Answers.{AnswersIn, IsCause, IsNamed, unless_wrong, values_of};

use crate::entry::{BadLine, RowFault, Said};
use crate::fields::Fields;
use crate::intervals::{place_interval, read_interval};
use crate::line::{has_byte_order_mark, has_special, text_of_line};
use crate::quotes::has_odd_quotes;
use crate::record::read_record;
use crate::value::{has_life, place_texts, read_end, read_form, read_times, read_value};
use std::alloc::Global;
use tw_rows::{Datum, Memory, Schema, StreamDef, TextTable};

// This cause, where so many fields are left as are still wanted.
fn unless_wrong_fields(fields: &Fields, wanted: usize, cause: BadLine) -> BadLine
    ensures { result ≡ unless_wrong wanted (left fields.now) cause }
{
    if fields.count() == wanted {
        cause
    } else {
        BadLine::WrongFields
    }
}

// Reads the values of an event line, of which these fields are left, into the row, but for its texts, or answers why there
// are none.
fn read_values(schema: &Schema, mut fields: Fields, row: &mut Vec<Datum>) -> Result<(), RowFault>
    ensures values { OnOk result (values_of schema.now (left fields.entry)
        ≡ Ok (row_in (left fields.entry) row.new.items)) }
    ensures cause { IfErr result (λ fault.
        IsCause fault (values_of schema.now (left fields.entry))) }
{
    let columns = schema.items();
    row.clear();
    for (i, column) in columns.iter().enumerate() {
        let Some(field) = fields.next_field() else {
            return Err(RowFault::Bad(BadLine::WrongFields));
        };
        match read_value(column.kind, field) {
            Some(datum) => row.push(datum)?,
            None => {
                let cause = BadLine::BadValue { column: i + 1 };
                let wanted = columns.len() - i - 1;
                return Err(RowFault::Bad(unless_wrong_fields(&fields, wanted, cause)));
            }
        }
    }
    match fields.next_field() {
        Some(_) => Err(RowFault::Bad(BadLine::WrongFields)),
        None => Ok(()),
    }
}

// The punctuation of a stream, or of all, whose fields behind `punct` these are.
#[tactic(auto, unfolding(crate::specs::Entry::punctuation))]
fn read_punctuation(stream: Option<usize>, mut fields: Fields) -> Result<Said, RowFault>
    ensures { (table all : List (List ℕ)) (row : List Datum) → left fields.entry ≡ drop 1 all →
        IsReadIn table table row result (punctuation stream all) }
{
    if fields.count() != 1 {
        return Err(RowFault::Bad(BadLine::WrongFields));
    }
    match read_end(fields.take_field()) {
        Some(time) => Ok(Said::Punct { stream, time }),
        None => Err(RowFault::Bad(BadLine::BadTime)),
    }
}

// The event that has this word as its form, and these fields behind it.
#[tactic(auto, unfolding(crate::specs::Entry::event), using(crate::proofs::Celled::same_table))]
fn read_event(
    stream: usize,
    schema: &Schema,
    word: &[u8],
    mut fields: Fields,
    texts: &mut TextTable,
    row: &mut Vec<Datum>,
) -> Result<Said, RowFault>
    requires { AllText (left fields) }
    ensures entry { (all : List (List ℕ)) → word.now ≡ field_of all 0 →
        left fields.entry ≡ drop 1 all → IsReadIn texts.old texts.new row.new.items result
        (event stream schema.now all) }
    ensures begins { BeginsWith texts.new texts.old }
{
    let Some(form) = read_form(word) else {
        return Err(RowFault::Bad(BadLine::UnknownKind));
    };
    let Some(sync) = fields.next_field() else {
        return Err(RowFault::Bad(BadLine::WrongFields));
    };
    let Some(other) = fields.next_field() else {
        return Err(RowFault::Bad(BadLine::WrongFields));
    };
    let columns = schema.items().len();
    let Some(times) = read_times(form, sync, other) else {
        let cause = unless_wrong_fields(&fields, columns, BadLine::BadTime);
        return Err(RowFault::Bad(cause));
    };
    if !has_life(form, times.0, times.1) {
        let cause = unless_wrong_fields(&fields, columns, BadLine::BadLife);
        return Err(RowFault::Bad(cause));
    }
    match read_values(schema, fields, row) {
        Ok(()) => {}
        Err(fault) => return Err(fault),
    }
    // only now that nothing is bad: a bad line leaves no text
    match place_texts(fields, row, texts) {
        Ok(()) => Ok(Said::Event {
            stream,
            form,
            sync: times.0,
            other: times.1,
        }),
        Err(Memory) => Err(RowFault::Memory),
    }
}

// The stream of that name, with its number.
fn find_stream<'a>(streams: &'a [StreamDef], name: &[u8]) -> Option<(usize, &'a StreamDef)>
    ensures { IsNamed result (named 0 streams.now name.now) }
{
    for (i, stream) in streams.iter().enumerate() {
        if stream.name.as_str().as_bytes() == name {
            return Some((i, stream));
        }
    }
    None
}

fn is_star(word: &[u8]) -> bool
    ensures { result ≡ same_text word.now (codes "*") }
{
    word == b"*".as_slice()
}

fn is_punct(word: &[u8]) -> bool
    ensures { result ≡ same_text word.now (codes "punct") }
{
    word == b"punct".as_slice()
}

fn read_of_all(mut fields: Fields) -> Result<Said, RowFault>
    ensures { (table : List (List ℕ)) (row : List Datum) →
        IsReadIn table table row result (of_all (left fields.entry)) }
{
    if is_punct(fields.take_field()) {
        read_punctuation(None, fields)
    } else {
        Err(RowFault::Bad(BadLine::UnknownKind))
    }
}

#[tactic(auto, using(crate::proofs::Celled::same_table))]
fn read_of_stream(
    number: usize,
    stream: &StreamDef,
    mut fields: Fields,
    texts: &mut TextTable,
    row: &mut Vec<Datum>,
) -> Result<Said, RowFault>
    requires { AllText (left fields) }
    ensures entry { IsReadIn texts.old texts.new row.new.items result
        (of_stream number stream.now.schema (left fields.entry)) }
    ensures begins { BeginsWith texts.new texts.old }
{
    if let Some(found) = read_interval(stream.schema.items(), fields, texts, row) {
        return place_interval(number, found, texts, row);
    }
    let word = fields.take_field();
    if is_punct(word) {
        read_punctuation(Some(number), fields)
    } else {
        read_event(number, &stream.schema, word, fields, texts, row)
    }
}

#[tactic(auto, unfolding(crate::specs::Entry::record_entry), using(crate::proofs::Celled::same_table))]
fn read_entry(
    mut fields: Fields,
    streams: &[StreamDef],
    texts: &mut TextTable,
    row: &mut Vec<Datum>,
) -> Result<Said, RowFault>
    requires { AllText (left fields) }
    ensures entry { IsReadIn texts.old texts.new row.new.items result
        (record_entry streams.now (left fields.entry)) }
    ensures begins { BeginsWith texts.new texts.old }
{
    let name = fields.take_field();
    if is_star(name) {
        return read_of_all(fields);
    }
    match find_stream(streams, name) {
        Some((number, stream)) => read_of_stream(number, stream, fields, texts, row),
        None => Err(RowFault::Bad(BadLine::UnknownStream)),
    }
}

// The entry of a text without quotes.
fn read_plain(
    text: &[u8],
    streams: &[StreamDef],
    texts: &mut TextTable,
    row: &mut Vec<Datum>,
) -> Result<Said, RowFault>
    requires utf8 { IsUtf8 text.now }
    requires some { 0 < length text.now }
    requires no_quote { All (λ b. b ≢ 34) text.now }
    requires no_return { All (λ b. b ≢ 13) text.now }
    requires no_feed { All (λ b. b ≢ 10) text.now }
    ensures { ReadsText streams.now text.now texts.old texts.new row.new.items result }
{
    if has_byte_order_mark(text) {
        return Err(RowFault::Bad(BadLine::UnknownStream));
    }
    read_entry(Fields::Plain(Some(text)), streams, texts, row)
}

// The entry of a text that may have quotes.
fn read_quoted(
    alloc: Global,
    text: &[u8],
    streams: &[StreamDef],
    texts: &mut TextTable,
    row: &mut Vec<Datum>,
) -> Result<Said, RowFault>
    requires utf8 { IsUtf8 text.now }
    requires some { 0 < length text.now }
    requires no_return { All (λ b. b ≢ 13) text.now }
    requires no_feed { All (λ b. b ≢ 10) text.now }
    ensures { ReadsText streams.now text.now texts.old texts.new row.new.items result }
{
    if has_odd_quotes(text) {
        return Err(RowFault::Bad(BadLine::OddQuotes));
    }
    if has_byte_order_mark(text) {
        return Err(RowFault::Bad(BadLine::UnknownStream));
    }
    let record = read_record(alloc, text)?;
    read_entry(Fields::Record(&record, 0), streams, texts, row)
}

fn is_text(bytes: &[u8]) -> bool
    ensures { result ≡ is_utf8 bytes.now }
{
    str::from_utf8(bytes).is_ok()
}

// The entry of bytes that may be no text, or have a CR or quotes.
fn read_special(
    alloc: Global,
    bytes: &[u8],
    streams: &[StreamDef],
    texts: &mut TextTable,
    row: &mut Vec<Datum>,
) -> Result<Said, RowFault>
    requires some { 0 < length bytes.now }
    requires no_feed { All (λ b. b ≢ 10) bytes.now }
    ensures { ReadsText streams.now bytes.now texts.old texts.new row.new.items result }
{
    if !is_text(bytes) {
        return Err(RowFault::Bad(BadLine::NotUtf8));
    }
    if bytes.contains(&b'\r') {
        return Err(RowFault::Bad(BadLine::StrayReturn));
    }
    if bytes.contains(&b'"') {
        read_quoted(alloc, bytes, streams, texts, row)
    } else {
        read_plain(bytes, streams, texts, row)
    }
}

/// What a line says, as `read_row` tells it. The values of an event are in the row then, and their texts in the table; a bad line
/// leaves the table as it was. Memory is taken for fields between quotes, for new texts, and where the row has too little room.
#[tactic(auto, using(crate::proofs::Celled::same_table))]
pub fn read_cells(
    alloc: Global,
    line: &[u8],
    first: bool,
    streams: &[StreamDef],
    texts: &mut TextTable,
    row: &mut Vec<Datum>,
) -> Result<Said, RowFault>
    requires short { length line.now ≤ 65536 }
    requires no_feed { All (λ b. b ≢ 10) line.now }
    ensures entry { AnswersIn texts.new row.new.items result (entry streams.now first line.now) }
    ensures texts { Interns texts.old texts.new result (entry streams.now first line.now) }
    ensures begins { BeginsWith texts.new texts.old }
    ensures memory { result ≡ Err RowFault.Memory → text_fault (text_of first line.now) ≡ None }
{
    let bytes = text_of_line(line, first);
    if bytes.is_empty() {
        return Ok(Said::Skip);
    }
    if has_special(bytes) {
        read_special(alloc, bytes, streams, texts, row)
    } else {
        read_plain(bytes, streams, texts, row)
    }
}
