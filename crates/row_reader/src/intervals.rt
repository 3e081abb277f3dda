// Intervals as most lines have them: without quotes, and with numbers of few digits as times and ints. Such a line is read in one
// pass. Of any other nothing is told here, and its fields are read one after the other.
ghost use Rattle.std.specs.Prelude.{◌≡◌, ◌<◌, ◌≤◌, ◌^◌, ◌∷◌, ℕ, true, List, Some, Ok, length, get_or, decimal, codes, IfSome};
ghost use Rattle.std.specs.Str.{IsUtf8};
ghost use Rattle.csv.specs.Records.{AllText};
ghost use Rattle.tw_rows.specs.Texts.{BeginsWith};
ghost use Rattle.tw_rows.specs.declared.schema.ColumnDef.{ColumnDef};
ghost use Rattle.row_reader.specs.Answers.{values_of};
ghost use Rattle.row_reader.specs.Drafted.{value_in, row_in, IsFirst, IsInterval, IsKnown, AreKnown};
ghost use Rattle.row_reader.specs.Entry.{of_stream};
ghost use Rattle.row_reader.specs.Fields.{commas, left};
ghost use Rattle.row_reader.specs.Interned.{IsReadIn};
ghost use Rattle.row_reader.specs.declared.fields.Fields.TheVariants.{Plain};

use crate::Form;
use crate::entry::{RowFault, Said};
use crate::fields::{Fields, split_field};
use crate::number::leading_number;
use crate::value::{as_text, place_texts, read_value};
use tw_rows::{ColumnDef, Datum, Kind, Memory, TextTable, Time};

// The times of an interval, and what is left of its line: its values.
#[derive(Clone, Copy)]
pub(crate) struct Interval<'a> {
    pub(crate) start: Time,
    pub(crate) end: Time,
    pub(crate) values: Option<&'a [u8]>,
    // Each of its texts is in the table, and the row has its place.
    pub(crate) known: bool,
}

// A value of a line and what stands behind its comma. A text that is not known is none of the table.
#[derive(Clone, Copy)]
struct First<'a> {
    datum: Datum,
    rest: Option<&'a [u8]>,
    known: bool,
}

// Whether so many digits, with which the text begins, are some, without a zero in front of others.
fn are_spelled(text: &[u8], digits: usize) -> bool
    requires { digits ≤ length text.now }
    ensures some { result ≡ true → 0 < digits }
    ensures first { result ≡ true → get_or text.now 0 0 ≡ 48 → digits ≡ 1 }
{
    if digits <= 1 {
        return digits == 1;
    }
    text[0] != b'0'
}

// The number that the first field spells, and what stands behind its comma. `None` where it spells none, or has many digits.
fn split_number(text: &[u8]) -> Option<(u64, Option<&[u8]>)>
    ensures field { IfSome result (λ p. commas text.now ≡ decimal p.0 ∷ left (Plain p.1)) }
    ensures small { IfSome result (λ p. p.0 < 2 ^ 60) }
{
    let (digits, number) = leading_number(text);
    if !are_spelled(text, digits) {
        return None;
    }
    if digits == text.len() {
        return Some((number, None));
    }
    if text[digits] != b',' {
        return None;
    }
    Some((number, Some(&text[digits + 1..])))
}

// The first value of ints, where it is such a number, and what stands behind its comma.
fn split_int(kind: Kind, text: &[u8]) -> Option<(Datum, Option<&[u8]>)>
    ensures { (texts : List (List ℕ)) →
        IfSome result (λ p. IsFirst texts kind (commas text.now) p.0 true (left (Plain p.1))) }
{
    match kind {
        Kind::Int => {
            let (number, rest) = split_number(text)?;
            Some((Datum::Int(number as i64), rest))
        }
        Kind::Dec(_) | Kind::Bool | Kind::Text => None,
    }
}

// The datum of that field with the place of its text, and whether the table has the text.
fn look_up(datum: Datum, field: &[u8], texts: &TextTable) -> (Datum, bool)
    requires { IsUtf8 field.now }
    ensures value { value_in field.now result.0 ≡ value_in field.now datum }
    ensures known { result.1 ≡ true → IsKnown texts.now field.now result.0 }
{
    match datum {
        Datum::Int(number) => (Datum::Int(number), true),
        Datum::Bool(flag) => (Datum::Bool(flag), true),
        Datum::Text(place) => match texts.find(as_text(field)) {
            Some(place) => (Datum::Text(place), true),
            None => (Datum::Text(place), false),
        },
    }
}

// The first value, and what stands behind its comma.
fn split_value<'a>(kind: Kind, text: &'a [u8], texts: &TextTable) -> Option<First<'a>>
    requires { AllText (commas text.now) }
    ensures { IfSome result (λ f. IsFirst texts.now kind (commas text.now) f.datum f.known
        (left (Plain f.rest))) }
{
    if let Some((datum, rest)) = split_int(kind, text) {
        return Some(First {
            datum,
            rest,
            known: true,
        });
    }
    let (field, rest) = split_field(text);
    let Some(read) = read_value(kind, field) else {
        return None;
    };
    let (datum, known) = look_up(read, field, texts);
    Some(First { datum, rest, known })
}

// Reads the values into the row, where each column has one and no field is left, and tells whether each text is known.
fn read_short_values(
    columns: &[ColumnDef],
    values: Option<&[u8]>,
    texts: &TextTable,
    row: &mut Vec<Datum>,
) -> Option<bool>
    requires { AllText (left (Plain values)) }
    ensures read { IfSome result (λ _. values_of columns.now (left (Plain values.entry))
        ≡ Ok (row_in (left (Plain values.entry)) row.new.items)) }
    ensures known { result ≡ Some true →
        AreKnown texts.now (left (Plain values.entry)) row.new.items }
{
    row.clear();
    let mut rest = values;
    let mut known = true;
    for i in 0..columns.len() {
        let Some(text) = rest else {
            return None;
        };
        let Some(first) = split_value(columns[i].kind, text, texts) else {
            return None;
        };
        let Ok(()) = row.push(first.datum) else {
            return None;
        };
        rest = first.rest;
        known &= first.known;
    }
    match rest {
        Some(_) => None,
        None => Some(known),
    }
}

// The times of an interval, which these fields begin with. The start comes first.
#[tactic(auto, unfolding(tw_rows::specs::Instant::inf))]
fn split_times(text: &[u8]) -> Option<Interval<'_>>
    ensures fields { IfSome result (λ i.
        commas text.now ≡ decimal i.start ∷ decimal i.end ∷ left (Plain i.values)) }
    ensures life { IfSome result (λ i. (i.start < i.end) × (i.end < 2 ^ 60)) }
{
    let (start, rest) = split_number(text)?;
    let Some(behind) = rest else {
        return None;
    };
    let (end, values) = split_number(behind)?;
    if start >= end {
        return None;
    }
    Some(Interval {
        start: Time::from_word(start),
        end: Time::from_word(end),
        values,
        known: false,
    })
}

// What stands behind the word of an interval and its comma.
fn behind_word(text: &[u8]) -> Option<&[u8]>
    ensures { IfSome result (λ rest. commas text.now ≡ codes "interval" ∷ commas rest.now) }
{
    text.strip_prefix(b"interval,".as_slice())
}

// The interval that these fields tell, where they are such a line's behind its name. Its values are in the row then, but for the
// texts that are not known.
pub(crate) fn read_interval<'a>(
    columns: &[ColumnDef],
    fields: Fields<'a>,
    texts: &TextTable,
    row: &mut Vec<Datum>,
) -> Option<Interval<'a>>
    requires { AllText (left fields) }
    ensures told { IfSome result (λ i. IsInterval columns.now (left fields.entry)
        i.start i.end (left (Plain i.values)) row.new.items) }
    ensures known { IfSome result (λ i. i.known ≡ true →
        AreKnown texts.now (left (Plain i.values)) row.new.items) }
{
    let Fields::Plain(rest) = fields else {
        return None;
    };
    let Some(text) = rest else {
        return None;
    };
    let Some(times) = behind_word(text) else {
        return None;
    };
    let Some(found) = split_times(times) else {
        return None;
    };
    let Some(known) = read_short_values(columns, found.values, texts, row) else {
        return None;
    };
    Some(Interval {
        start: found.start,
        end: found.end,
        values: found.values,
        known,
    })
}

// The interval of a stream whose values are in the row. The texts that are not known come into the table.
pub(crate) fn place_interval(
    stream: usize,
    found: Interval,
    texts: &mut TextTable,
    row: &mut Vec<Datum>,
) -> Result<Said, RowFault>
    requires { AllText (left (Plain found.values)) }
    ensures entry { (columns : List ColumnDef) (fields : List (List ℕ)) → IsInterval columns fields
        found.entry.start found.entry.end (left (Plain found.entry.values)) row.old.items →
        (found.entry.known ≡ true →
        AreKnown texts.old (left (Plain found.entry.values)) row.old.items) →
        IsReadIn texts.old texts.new row.new.items result (of_stream stream columns fields) }
    ensures begins { BeginsWith texts.new texts.old }
{
    let said = Said::Event {
        stream,
        form: Form::Interval,
        sync: found.start,
        other: found.end,
    };
    if found.known {
        return Ok(said);
    }
    match place_texts(Fields::Plain(found.values), row, texts) {
        Ok(()) => Ok(said),
        Err(Memory) => Err(RowFault::Memory),
    }
}
