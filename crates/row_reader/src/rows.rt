// A line read into its entry: what it says, with the values of an event.
ghost use Rattle.std.specs.Prelude.{◌≡◌, ◌≢◌, ◌≤◌, IfOk, length};
ghost use Rattle.std.specs.List.{All};
ghost use Rattle.tw_rows.specs.Cells.{IsPlaced, ArePlaced, read_datum, read_cells as row_at};
ghost use Rattle.row_reader.specs.Entry.{entry};
ghost use Rattle.row_reader.specs.Celled.{entry_in, IsPlacedIn};
ghost use Rattle.row_reader.specs.Answers.{Answers};

use crate::entry::{Entry, RowFault, Said};
use crate::read::read_cells;
use std::alloc::Global;
use tw_rows::{Datum, Label, Memory, Row, StreamDef, TextTable, Value};

// The value that a datum stands for.
fn value_of_datum(alloc: Global, datum: Datum, texts: &TextTable) -> Result<Value, Memory>
    requires { IsPlaced texts.now datum }
    ensures { IfOk result (λ value. value ≡ read_datum texts.now datum) }
{
    Ok(match datum {
        Datum::Int(number) => Value::Int(number),
        Datum::Bool(flag) => Value::Bool(flag),
        Datum::Text(place) => Value::Text(Label::new(alloc, texts.text(place))?),
    })
}

// The row that cells stand for.
fn row_of_cells(alloc: Global, cells: &[Datum], texts: &TextTable) -> Result<Row, Memory>
    requires { ArePlaced texts.now cells.now }
    ensures { IfOk result (λ row. row ≡ row_at texts.now cells.now) }
{
    let mut values = Vec::with_capacity(alloc, cells.len())?;
    for datum in cells {
        values.push(value_of_datum(alloc, *datum, texts)?)?;
    }
    Ok(Row::from_vec(values))
}

// The entry that is said, with the row of an event.
fn entry_of_said(
    alloc: Global,
    said: Said,
    row: &[Datum],
    texts: &TextTable,
) -> Result<Entry, Memory>
    requires { IsPlacedIn texts.now said row.now }
    ensures { IfOk result (λ e. e ≡ entry_in texts.now said row.now) }
{
    Ok(match said {
        Said::Skip => Entry::Skip,
        Said::Punct { stream, time } => Entry::Punct { stream, time },
        Said::Event {
            stream,
            form,
            sync,
            other,
        } => Entry::Event {
            stream,
            form,
            sync,
            other,
            row: row_of_cells(alloc, row, texts)?,
        },
    })
}

/// The entry of a line, which stands without its LF, or the first cause for which the line is bad. `first` says that the line
/// is the first of the input, where a byte order mark may stand before it. One CR at its end is no part of the line.
pub fn read_row(
    alloc: Global,
    line: &[u8],
    first: bool,
    streams: &[StreamDef],
) -> Result<Entry, RowFault>
    requires short { length line.now ≤ 65536 }
    requires no_feed { All (λ b. b ≢ 10) line.now }
    ensures { Answers result (entry streams.now first line.now) }
{
    let mut texts = TextTable::new(alloc);
    let mut row = Vec::new(alloc);
    match read_cells(alloc, line, first, streams, &mut texts, &mut row) {
        Ok(said) => match entry_of_said(alloc, said, row.as_slice(), &texts) {
            Ok(entry) => Ok(entry),
            Err(Memory) => Err(RowFault::Memory),
        },
        Err(fault) => Err(fault),
    }
}
