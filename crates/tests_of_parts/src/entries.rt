// Lines in words, as entries of two streams with a column of ints each.
ghost use Rattle.std.specs.Prelude.{◌≡◌, ◌<◌, ◌≤◌, [], ◌∷◌, length, IfSome, IfOk};
ghost use Rattle.tw_rows.specs.declared.kind.CellKind.{CellKind};
ghost use Rattle.plan_model.specs.IsPlan.{kinds_of_schema};
ghost use Rattle.ingress.specs.Fits.{Fits, row_cells};

use admission::{Lateness, Policy};
use row_reader::{Entry, Form};
use std::alloc::Global;
use tw_rows::{ColumnDef, Kind, Label, Memory, Row, Schema, StreamDef, Time, Value};

/// The words of a line.
pub(crate) fn words_of<'a>(alloc: Global, line: &'a str) -> Result<Vec<&'a str>, Memory> {
    let mut words = Vec::new(alloc);
    for word in line.split_whitespace() {
        words.push(word)?;
    }
    Ok(words)
}

/// The word of that number, and no word past the last.
pub(crate) fn word<'a>(words: &[&'a str], i: usize) -> &'a str {
    if i < words.len() { words[i] } else { "" }
}

/// The number that a word spells, and 0 where it spells none.
pub(crate) fn number(word: &str) -> u64 {
    match word.parse::<u64>() {
        Ok(number) => number,
        Err(_) => 0,
    }
}

/// The time that a word spells.
#[tactic(auto, unfolding(tw_rows::specs::Instant::inf))]
pub(crate) fn time(word: &str) -> Time {
    if word == "inf" {
        return Time::INF;
    }
    Time::new(number(word)).unwrap_or(Time::INF)
}

/// The rules that words tell: what becomes of late lines, the lateness and the period, after a first word.
pub(crate) fn policy(words: &[&str]) -> Policy {
    let late = match word(words, 1) {
        "refuse" => Lateness::Refuse,
        "drop" => Lateness::Drop,
        _ => Lateness::Adjust,
    };
    Policy {
        lateness: number(word(words, 2)),
        late,
        period: number(word(words, 3)),
    }
}

fn columns(alloc: Global) -> Result<Vec<ColumnDef>, Memory>
    ensures kinds { IfOk result (λ cs. kinds_of_schema cs.items ≡ CellKind.Whole ∷ []) }
    ensures width { IfOk result (λ cs. length cs.items ≤ 32) }
{
    let column = ColumnDef {
        name: Label::new(alloc, "v")?,
        kind: Kind::Int,
    };
    let mut columns = Vec::new(alloc);
    columns.push(column)?;
    Ok(columns)
}

/// A stream with a column of ints.
pub(crate) fn stream(alloc: Global, name: &str) -> Result<StreamDef, Memory>
    ensures kinds { IfOk result (λ d. kinds_of_schema d.schema ≡ CellKind.Whole ∷ []) }
    ensures width { IfOk result (λ d. length d.schema ≤ 32) }
{
    Ok(StreamDef {
        name: Label::new(alloc, name)?,
        schema: Schema::from_vec(columns(alloc)?),
    })
}

// A row of the number, which is to be below 1000.
fn row(alloc: Global, value: u64) -> Result<Row, Memory>
    ensures { IfOk result (λ row. row_cells row ≡ CellKind.Whole ∷ []) }
{
    let mut values = Vec::new(alloc);
    values.push(Value::Int((value % 1000) as i64))?;
    Ok(Row::from_vec(values))
}

fn form(words: &[&str]) -> Form {
    match word(words, 1) {
        "i" => Form::Interval,
        "s" => Form::Start,
        _ => Form::End,
    }
}

fn event(alloc: Global, words: &[&str]) -> Result<Entry, Memory>
    ensures { IfOk result (λ e. Fits ((CellKind.Whole ∷ []) ∷ (CellKind.Whole ∷ []) ∷ []) e) }
{
    let (sync, other) = (time(word(words, 2)), time(word(words, 3)));
    let row = row(alloc, number(word(words, 4)))?;
    let form = form(words);
    if word(words, 0) == "t" {
        return Ok(Entry::Event {
            stream: 1,
            form,
            sync,
            other,
            row,
        });
    }
    Ok(Entry::Event {
        stream: 0,
        form,
        sync,
        other,
        row,
    })
}

/// The stream that a line is of, if it is of one.
pub(crate) fn stream_of(words: &[&str]) -> Option<usize>
    ensures { IfSome result (λ s. s < 2) }
{
    match word(words, 0) {
        "s" => Some(0),
        "t" => Some(1),
        _ => None,
    }
}

/// The entry of a line: `skip`, `s p 40` or `* p 40` (a punctuation), or an event, as `s i 3 20 1` (an interval), `s s 3 inf 1`
/// (a start) or `s e 9 3 1` (an end) of the row 1.
pub(crate) fn entry(alloc: Global, words: &[&str]) -> Result<Entry, Memory>
    ensures { IfOk result (λ e. Fits ((CellKind.Whole ∷ []) ∷ (CellKind.Whole ∷ []) ∷ []) e) }
{
    if word(words, 0) == "skip" {
        return Ok(Entry::Skip);
    }
    if word(words, 1) != "p" {
        return event(alloc, words);
    }
    Ok(Entry::Punct {
        stream: stream_of(words),
        time: time(word(words, 2)),
    })
}
