// What a field spells: a time, a value, or the word that says what the line tells of an event.
ghost use Rattle.std.specs.Prelude.{◌≡◌, ◌≤◌, ◌∷◌, ℕ, List, false, length, take, drop, IfOk, OnOk, OnErr, option_map};
ghost use Rattle.std.specs.Str.{IsUtf8};
ghost use Rattle.csv.specs.Records.{AllText};
ghost use Rattle.tw_rows.specs.Cells.{IsPlaced, ArePlaced, read_datum, read_cells, with_value, with_row};
ghost use Rattle.tw_rows.specs.Texts.{BeginsWith};
ghost use Rattle.tw_rows.specs.declared.cells.Datum.{Datum};
ghost use Rattle.tw_rows.specs.declared.kind.Kind.TheVariants as kinds;
ghost use Rattle.tw_rows.specs.declared.row.Value.TheVariants as values;
ghost use Rattle.row_reader.specs.Drafted.{value_in, row_in, HaveNoText};
ghost use Rattle.row_reader.specs.Fields.{left};
ghost use Rattle.row_reader.specs.Values.{time_of, end_of, inf_of, form_of, times_of, is_alive, value_of};

use crate::Form;
use crate::fields::Fields;
use crate::number::{read_number, read_places};
use tw_rows::{Datum, Kind, Memory, TextTable, Time};

#[tactic(auto, unfolding(tw_rows::specs::Instant::inf))]
fn read_time(text: &[u8]) -> Option<Time>
    ensures { result ≡ time_of text.now }
{
    match read_number(text, 1 << 60) {
        Some(number) => Time::new(number),
        None => None,
    }
}

/// The time that the text spells, which may be infinity.
#[tactic(auto, unfolding(crate::specs::Values::end_of, tw_rows::specs::Instant::inf))]
pub fn read_end(text: &[u8]) -> Option<Time>
    ensures { result ≡ end_of text.now }
{
    if text == b"inf".as_slice() {
        Some(Time::INF)
    } else {
        read_time(text)
    }
}

#[tactic(auto, unfolding(crate::specs::Values::inf_of, tw_rows::specs::Instant::inf))]
fn read_inf(text: &[u8]) -> Option<Time>
    ensures { result ≡ inf_of text.now }
{
    if text == b"inf".as_slice() {
        Some(Time::INF)
    } else {
        None
    }
}

/// What a line of that second field says of an event.
#[tactic(auto, unfolding(crate::specs::Values::form_of))]
pub fn read_form(text: &[u8]) -> Option<Form>
    ensures { result ≡ form_of text.now }
{
    if text == b"interval".as_slice() {
        Some(Form::Interval)
    } else if text == b"start".as_slice() {
        Some(Form::Start)
    } else if text == b"end".as_slice() {
        Some(Form::End)
    } else {
        None
    }
}

/// The two times of an event line, as they stand.
#[tactic(auto, unfolding(crate::specs::Values::times_of))]
pub fn read_times(form: Form, sync: &[u8], other: &[u8]) -> Option<(Time, Time)>
    ensures { result ≡ times_of form sync.now other.now }
{
    let sync = read_time(sync)?;
    let other = match form {
        Form::Interval => read_end(other)?,
        Form::Start => read_inf(other)?,
        Form::End => read_time(other)?,
    };
    Some((sync, other))
}

/// Whether the event starts before it ends. What only starts ends at infinity.
pub fn has_life(form: Form, sync: Time, other: Time) -> bool
    ensures { result ≡ is_alive form sync other }
{
    match form {
        Form::Interval | Form::Start => sync < other,
        Form::End => other < sync,
    }
}

// The truth value of that name.
#[tactic(auto, unfolding(crate::specs::Values::value_of))]
fn read_flag(text: &[u8]) -> Option<bool>
    ensures { option_map values.Bool result ≡ value_of kinds.Bool text.now }
{
    if text == b"true".as_slice() {
        Some(true)
    } else if text == b"false".as_slice() {
        Some(false)
    } else {
        None
    }
}

// The text of these bytes.
pub(crate) fn as_text(bytes: &[u8]) -> &str
    requires { IsUtf8 bytes.now }
    ensures { result.now ≡ bytes.now }
{
    match str::from_utf8(bytes) {
        Ok(text) => text,
        Err(_) => unreachable!(),
    }
}

/// The datum of the value of that kind that the bytes of a text spell. A text is not in a table yet: its datum has place 0.
#[tactic(auto, unfolding(crate::specs::Values::value_of))]
pub fn read_value(kind: Kind, text: &[u8]) -> Option<Datum>
    ensures { option_map (value_in text.now) result ≡ value_of kind text.now }
{
    Some(match kind {
        Kind::Int => Datum::Int(read_places(text, 0)?),
        Kind::Dec(places) => Datum::Int(read_places(text, places)?),
        Kind::Bool => Datum::Bool(read_flag(text)?),
        Kind::Text => Datum::Text(0),
    })
}

// The datum that was read of that field, whose text, where it is one, is in the table then.
fn place_value(datum: Datum, field: &[u8], texts: &mut TextTable) -> Result<Datum, Memory>
    requires { IsUtf8 field.now }
    ensures read { IfOk result (λ d. read_datum texts.new d ≡ value_in field.now datum) }
    ensures placed { IfOk result (λ d. IsPlaced texts.new d) }
    ensures table { OnOk result (texts.new ≡ with_value texts.old (value_in field.now datum)) }
    ensures err { OnErr result (texts.new ≡ texts.old) }
{
    Ok(match datum {
        Datum::Int(number) => Datum::Int(number),
        Datum::Bool(flag) => Datum::Bool(flag),
        Datum::Text(_) => Datum::Text(texts.intern(as_text(field))?),
    })
}

fn is_text(datum: Datum) -> bool
    ensures { (ds : List Datum) → result ≡ false → HaveNoText ds → HaveNoText (datum ∷ ds) }
{
    matches!(datum, Datum::Text(_))
}

// How many of the data stand before the last text and at it.
fn texts_end(row: &[Datum]) -> usize
    ensures within { result ≤ length row.now }
    ensures rest { HaveNoText (drop result row.now) }
{
    for i in 0..row.len() {
        let end = row.len() - i;
        if is_text(row[end - 1]) {
            return end;
        }
    }
    0
}

/// Puts the texts of a row that was read of these fields into the table, in order, and their places into the row. After a
/// refusal those of the first values are there.
pub fn place_texts(
    mut fields: Fields,
    row: &mut Vec<Datum>,
    texts: &mut TextTable,
) -> Result<(), Memory>
    requires { AllText (left fields) }
    ensures read { OnOk result (read_cells texts.new row.new.items
        ≡ row_in (left fields.entry) row.old.items) }
    ensures placed { OnOk result (ArePlaced texts.new row.new.items) }
    ensures table { OnOk result (texts.new
        ≡ with_row texts.old (row_in (left fields.entry) row.old.items)) }
    ensures err { OnErr result ((n : ℕ) × (texts.new
        ≡ with_row texts.old (take n (row_in (left fields.entry) row.old.items)))) }
    ensures begins { BeginsWith texts.new texts.old }
{
    for i in 0..texts_end(row.as_slice()) {
        row[i] = place_value(row[i], fields.take_field(), texts)?;
    }
    Ok(())
}
