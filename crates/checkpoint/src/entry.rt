// The line of an entry.
ghost use Rattle.std.specs.Prelude.{◌≡◌, ◌≤◌, ◌++◌, OnOk, OnErr, IfOk, IfSome, drop, length, vec_capacity};
ghost use Rattle.row_reader.specs.Fields.{commas, left};
ghost use Rattle.checkpoint.specs.Room.{LacksRoom};
ghost use Rattle.checkpoint.specs.Lines.{cell_texts, entry_line};
ghost use Rattle.checkpoint.specs.Pieces.{line_head};
ghost use Rattle.checkpoint.specs.Reading.{flag_of, datum_of, times_of, cells_of, entry_of};

use crate::fields::read_instant;
use crate::owner::take_part;
use crate::putting::{put_cells, put_line_head};
use edge_stream::SavedEntry;
use frozen_state::Owner;
use row_reader::{Fields, read_places, read_whole};
use smallvec::SmallVec;
use std::alloc::Global;
use tw_rows::{CellKind, Cells, Datum, Memory, SHORT_ROW, Time};

/// An entry, and whose it is.
#[derive(Drop)]
pub struct EntryLine {
    pub owner: Owner,
    pub shard: u64,
    pub entry: SavedEntry,
}

// The most cells that are appended at once, and the most bytes that they take.
const FEW_CELLS: usize = 8;

const ROOM_OF_CELLS: usize = 168;

// The most bytes of what stands before the cells.
const ROOM_OF_HEAD: usize = 111;

// Appends the line up to its cells.
fn push_line_head(
    out: &mut Vec<u8>,
    owner: Owner,
    shard: u64,
    entry: &SavedEntry,
) -> Result<(), Memory>
    ensures ok { OnOk result (out.new.items ≡ out.old.items ++ line_head owner shard entry.now) }
    ensures room { vec_capacity out.old ≤ vec_capacity out.new }
    ensures full { OnErr result (LacksRoom out.old (line_head owner shard entry.now)) }
{
    let mut line = [0; ROOM_OF_HEAD];
    let at = put_line_head(&mut line, ROOM_OF_HEAD, owner, shard, entry);
    out.extend_from_slice(&line[at..])?;
    Ok(())
}

// Appends the cells, each behind a comma.
fn push_few_cells(out: &mut Vec<u8>, cells: &[Datum]) -> Result<(), Memory>
    requires { length cells.now ≤ FEW_CELLS }
    ensures ok { OnOk result (out.new.items ≡ out.old.items ++ cell_texts cells.now) }
    ensures room { vec_capacity out.old ≤ vec_capacity out.new }
    ensures full { OnErr result (LacksRoom out.old (cell_texts cells.now)) }
{
    let mut line = [0; ROOM_OF_CELLS];
    let at = put_cells(&mut line, ROOM_OF_CELLS, cells);
    out.extend_from_slice(&line[at..])?;
    Ok(())
}

// Appends the cells, each behind a comma, however many they are.
fn push_cells(out: &mut Vec<u8>, cells: &[Datum]) -> Result<(), Memory>
    ensures ok { OnOk result (out.new.items ≡ out.old.items ++ cell_texts cells.now) }
    ensures room { vec_capacity out.old ≤ vec_capacity out.new }
    ensures full { OnErr result (LacksRoom out.old (cell_texts cells.now)) }
{
    let mut rest = cells;
    while !rest.is_empty() {
        let (few, more) = rest.split_at(rest.len().min(FEW_CELLS));
        push_few_cells(out, few)?;
        rest = more;
    }
    Ok(())
}

/// Appends the line of an entry of the owner's shard.
pub fn push_entry_line(
    out: &mut Vec<u8>,
    owner: Owner,
    shard: u64,
    entry: &SavedEntry,
) -> Result<(), Memory>
    ensures ok { OnOk result (out.new.items ≡ out.old.items ++ entry_line owner shard entry.now) }
    ensures room { vec_capacity out.old ≤ vec_capacity out.new }
    ensures full { OnErr result (LacksRoom out.old (entry_line owner shard entry.now)) }
{
    push_line_head(out, owner, shard, entry)?;
    push_cells(out, entry.cells.items())?;
    Ok(())
}

#[tactic(auto, unfolding(crate::specs::Reading::flag_of))]
fn read_flag(text: &[u8]) -> Option<Datum>
    ensures { result ≡ flag_of text.now }
{
    if text == b"1".as_slice() {
        Some(Datum::Bool(true))
    } else if text == b"0".as_slice() {
        Some(Datum::Bool(false))
    } else {
        None
    }
}

fn read_datum(kind: CellKind, text: &[u8]) -> Option<Datum>
    ensures { result ≡ datum_of kind text.now }
{
    match kind {
        CellKind::Whole => Some(Datum::Int(read_places(text, 0)?)),
        CellKind::Bit => read_flag(text),
        CellKind::Place => Some(Datum::Text(read_whole(text)?)),
    }
}

// The two times of an entry, of which the fields are taken off.
fn take_times(fields: &mut Fields) -> Option<(Time, Time)>
    ensures times { result ≡ times_of (left fields.old) }
    ensures left { IfSome result (λ times. left fields.new ≡ drop 2 (left fields.old)) }
{
    let sync = fields.next_field()?;
    let other = fields.next_field()?;
    Some((read_instant(sync)?, read_instant(other)?))
}

// The cells of these kinds that all fields that are left spell.
fn take_cells(
    alloc: Global,
    kinds: &[CellKind],
    fields: &mut Fields,
) -> Result<Option<Cells>, Memory>
    ensures { IfOk result (λ cells. cells ≡ cells_of kinds.now (left fields.old)) }
{
    let mut cells: SmallVec<Datum, SHORT_ROW> = SmallVec::new(alloc);
    for kind in kinds {
        let Some(field) = fields.next_field() else {
            return Ok(None);
        };
        let Some(datum) = read_datum(*kind, field) else {
            return Ok(None);
        };
        cells.push(datum)?;
    }
    if fields.next_field().is_some() {
        return Ok(None);
    }
    Ok(Some(Cells::new(cells)))
}

/// What a line of `push_entry_line` with cells of these kinds says, where it is one.
pub fn read_entry_line(
    alloc: Global,
    line: &[u8],
    kinds: &[CellKind],
) -> Result<Option<EntryLine>, Memory>
    ensures { IfOk result (λ entry. entry ≡ entry_of kinds.now line.now) }
{
    let mut fields = Fields::Plain(Some(line));
    let Some(part) = take_part(&mut fields) else {
        return Ok(None);
    };
    let Some((sync, other)) = take_times(&mut fields) else {
        return Ok(None);
    };
    let Some(cells) = take_cells(alloc, kinds, &mut fields)? else {
        return Ok(None);
    };
    Ok(Some(EntryLine {
        owner: part.owner,
        shard: part.shard,
        entry: SavedEntry {
            part: part.part,
            sync,
            other,
            cells,
        },
    }))
}
