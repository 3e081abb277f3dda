// Changelog lines and punctuation lines, appended to a text.
ghost use Rattle.std.specs.Prelude.{◌≡◌, ◌++◌, ◌∷◌, [], List, ℕ, OnOk, OnErr, map};
ghost use Rattle.tw_rows.specs.Cells.{ArePlaced, read_cells};
ghost use Rattle.csv.specs.Writing.{default_writer, field_text, fields_text};
ghost use Rattle.row_reader.specs.FieldTexts.{form_text, time_text, row_texts, event_fields, start_fields, end_fields, punctuation_fields};
ghost use Rattle.row_reader.specs.RecordTexts.{record_text, Begins, EndsLine};

use crate::field::{push_datum, push_text, push_time};
use tw_rows::{Datum, Kind, Memory, TextTable, Time};

// Appends the values of the cells, a comma before each.
#[tactic(auto, using(crate::proofs::Begin::begin_steps))]
fn push_cells(
    out: &mut Vec<u8>,
    kinds: &[Kind],
    cells: &[Datum],
    texts: &TextTable,
) -> Result<(), Memory>
    requires { ArePlaced texts.now cells.now }
    ensures ok { OnOk result (out.new.items ≡ out.old.items
        ++ fields_text default_writer (row_texts kinds.now (read_cells texts.now cells.now))) }
    ensures err { OnErr result (Begins out.old.items out.new.items) }
{
    for (kind, datum) in kinds.iter().zip(cells) {
        out.push(b',')?;
        push_datum(out, *kind, *datum, texts)?;
    }
    Ok(())
}

// Appends the values of the cells, a comma before each, and the end of the line.
#[tactic(auto, using(crate::proofs::Begin::begin_steps))]
fn push_rest(
    out: &mut Vec<u8>,
    kinds: &[Kind],
    cells: &[Datum],
    texts: &TextTable,
) -> Result<(), Memory>
    requires { ArePlaced texts.now cells.now }
    ensures ok { OnOk result (EndsLine kinds.now
        (read_cells texts.now cells.now) out.old.items out.new.items) }
    ensures err { OnErr result (Begins out.old.items out.new.items) }
{
    push_cells(out, kinds, cells, texts)?;
    out.push(b'\n')?;
    Ok(())
}

#[tactic(auto, using(crate::proofs::Begin::begin_steps))]
fn push_start_fields(
    out: &mut Vec<u8>,
    at: Time,
    kinds: &[Kind],
    cells: &[Datum],
    texts: &TextTable,
) -> Result<(), Memory>
    requires { ArePlaced texts.now cells.now }
    ensures ok { OnOk result (out.new.items ≡ out.old.items
        ++ record_text (start_fields kinds.now at (read_cells texts.now cells.now))) }
    ensures err { OnErr result (Begins out.old.items out.new.items) }
{
    out.extend_from_slice(b"out,start,")?;
    push_time(out, at)?;
    out.extend_from_slice(b",inf")?;
    push_rest(out, kinds, cells, texts)?;
    Ok(())
}

/// Appends the line that says that a row of the output starts, with columns of these kinds. What is the same in each such
/// line is appended in one piece. Where there is no memory, nothing is appended.
#[tactic(auto, using(crate::proofs::Begin::Begins_take))]
pub fn push_start_line(
    out: &mut Vec<u8>,
    at: Time,
    kinds: &[Kind],
    cells: &[Datum],
    texts: &TextTable,
) -> Result<(), Memory>
    requires { ArePlaced texts.now cells.now }
    ensures ok { OnOk result (out.new.items ≡ out.old.items
        ++ record_text (start_fields kinds.now at (read_cells texts.now cells.now))) }
    ensures err { OnErr result (out.new.items ≡ out.old.items) }
{
    let before = out.len();
    let pushed = push_start_fields(out, at, kinds, cells, texts);
    if pushed.is_err() {
        out.truncate(before);
    }
    pushed
}

#[tactic(auto, using(crate::proofs::Begin::begin_steps))]
fn push_end_fields(
    out: &mut Vec<u8>,
    at: Time,
    start: Time,
    kinds: &[Kind],
    cells: &[Datum],
    texts: &TextTable,
) -> Result<(), Memory>
    requires { ArePlaced texts.now cells.now }
    ensures ok { OnOk result (out.new.items ≡ out.old.items
        ++ record_text (end_fields kinds.now at start (read_cells texts.now cells.now))) }
    ensures err { OnErr result (Begins out.old.items out.new.items) }
{
    out.extend_from_slice(b"out,end,")?;
    push_time(out, at)?;
    out.push(b',')?;
    push_time(out, start)?;
    push_rest(out, kinds, cells, texts)?;
    Ok(())
}

/// Appends the line that says that a row of the output ends, which began at `start`. Where there is no memory, nothing is
/// appended.
#[tactic(auto, using(crate::proofs::Begin::Begins_take))]
pub fn push_end_line(
    out: &mut Vec<u8>,
    at: Time,
    start: Time,
    kinds: &[Kind],
    cells: &[Datum],
    texts: &TextTable,
) -> Result<(), Memory>
    requires { ArePlaced texts.now cells.now }
    ensures ok { OnOk result (out.new.items ≡ out.old.items
        ++ record_text (end_fields kinds.now at start (read_cells texts.now cells.now))) }
    ensures err { OnErr result (out.new.items ≡ out.old.items) }
{
    let before = out.len();
    let pushed = push_end_fields(out, at, start, kinds, cells, texts);
    if pushed.is_err() {
        out.truncate(before);
    }
    pushed
}

#[tactic(auto, using(crate::proofs::Begin::begin_steps))]
fn push_punctuation_fields(out: &mut Vec<u8>, name: &str, time: Time) -> Result<(), Memory>
    ensures ok { OnOk result (out.new.items ≡ out.old.items
        ++ record_text (punctuation_fields name.now time)) }
    ensures err { OnErr result (Begins out.old.items out.new.items) }
{
    push_text(out, name)?;
    out.extend_from_slice(b",punct,")?;
    push_time(out, time)?;
    out.push(b'\n')?;
    Ok(())
}

/// Appends the line that says that no event before the time comes any more, of the stream of that name, or of any stream
/// for `*`. Where there is no memory, nothing is appended.
#[tactic(auto, using(crate::proofs::Begin::Begins_take))]
pub fn push_punctuation(out: &mut Vec<u8>, name: &str, time: Time) -> Result<(), Memory>
    ensures ok { OnOk result (out.new.items ≡ out.old.items
        ++ record_text (punctuation_fields name.now time)) }
    ensures err { OnErr result (out.new.items ≡ out.old.items) }
{
    let before = out.len();
    let pushed = push_punctuation_fields(out, name, time);
    if pushed.is_err() {
        out.truncate(before);
    }
    pushed
}
