// Fields put into a short buffer from its end on, the last one first: each is written where it stands, and so a line is
// appended in few pieces.
ghost use Rattle.std.specs.Prelude.{◌≡◌, ◌+◌, ◌*◌, ◌≤◌, ◌++◌, ◌∷◌, decimal, drop, length};
ghost use Rattle.row_reader.specs.NumberTexts.{number_text};
ghost use Rattle.row_reader.specs.FieldTexts.{time_text};
ghost use Rattle.checkpoint.specs.Lines.{owner_text, datum_text, cell_texts};
ghost use Rattle.checkpoint.specs.Pieces.{line_head};

use edge_stream::SavedEntry;
use frozen_state::Owner;
use itoa::write_digits;
use tw_rows::{Datum, Time};

// Puts the byte before that place. This, and each of the others, answers the place where what it put begins.
fn put_byte(line: &mut [u8], at: usize, byte: u8) -> usize
    requires { (1 ≤ at) × (at ≤ length line.old) }
    ensures put { drop result line.new ≡ byte ∷ drop at line.old }
    ensures from { result + 1 ≡ at }
{
    line[at - 1] = byte;
    at - 1
}

fn put_word(line: &mut [u8], at: usize, word: &[u8]) -> usize
    requires { (length word.now ≤ at) × (at ≤ length line.old) }
    ensures put { drop result line.new ≡ word.now ++ drop at line.old }
    ensures from { result + length word.now ≡ at }
{
    let from = at - word.len();
    line[from..at].copy_from_slice(word);
    from
}

fn put_decimal(line: &mut [u8], at: usize, number: u64) -> usize
    requires { (20 ≤ at) × (at ≤ length line.old) }
    ensures put { drop result line.new ≡ decimal number ++ drop at line.old }
    ensures from { (at ≤ result + 20) × (result ≤ at) }
{
    write_digits(number, line, at)
}

fn put_int(line: &mut [u8], at: usize, number: i64) -> usize
    requires { (20 ≤ at) × (at ≤ length line.old) }
    ensures put { drop result line.new ≡ number_text 0 number ++ drop at line.old }
    ensures from { (at ≤ result + 20) × (result ≤ at) }
{
    let from = write_digits(number.unsigned_abs(), line, at);
    if number < 0 {
        return put_byte(line, from, b'-');
    }
    from
}

fn put_datum(line: &mut [u8], at: usize, datum: Datum) -> usize
    requires { (20 ≤ at) × (at ≤ length line.old) }
    ensures put { drop result line.new ≡ datum_text datum ++ drop at line.old }
    ensures from { (at ≤ result + 20) × (result ≤ at) }
{
    match datum {
        Datum::Int(number) => put_int(line, at, number),
        Datum::Bool(flag) => put_byte(line, at, if flag { b'1' } else { b'0' }),
        Datum::Text(place) => put_decimal(line, at, place),
    }
}

// Puts a comma and the cell.
fn put_cell(line: &mut [u8], at: usize, datum: Datum) -> usize
    requires { (21 ≤ at) × (at ≤ length line.old) }
    ensures put { drop result line.new ≡ (44 ∷ datum_text datum) ++ drop at line.old }
    ensures from { (at ≤ result + 21) × (result ≤ at) }
{
    let from = put_datum(line, at, datum);
    put_byte(line, from, b',')
}

/// Puts the cells, each behind a comma.
pub fn put_cells(line: &mut [u8], at: usize, cells: &[Datum]) -> usize
    requires { (21 * length cells.now ≤ at) × (at ≤ length line.old) }
    ensures put { drop result line.new ≡ cell_texts cells.now ++ drop at line.old }
    ensures from { result ≤ at }
{
    let mut from = at;
    let mut left = cells.len();
    while left > 0 {
        left -= 1;
        from = put_cell(line, from, cells[left]);
    }
    from
}

// Puts a comma and the number.
fn put_number_field(line: &mut [u8], at: usize, number: u64) -> usize
    requires { (21 ≤ at) × (at ≤ length line.old) }
    ensures put { drop result line.new ≡ (44 ∷ decimal number) ++ drop at line.old }
    ensures from { (at ≤ result + 21) × (result ≤ at) }
{
    let from = put_decimal(line, at, number);
    put_byte(line, from, b',')
}

fn put_time(line: &mut [u8], at: usize, time: Time) -> usize
    requires { (20 ≤ at) × (at ≤ length line.old) }
    ensures put { drop result line.new ≡ time_text time ++ drop at line.old }
    ensures from { (at ≤ result + 20) × (result ≤ at) }
{
    match time.get() {
        Some(number) => put_decimal(line, at, number),
        None => put_word(line, at, b"inf"),
    }
}

// Puts a comma and the time.
fn put_time_field(line: &mut [u8], at: usize, time: Time) -> usize
    requires { (21 ≤ at) × (at ≤ length line.old) }
    ensures put { drop result line.new ≡ (44 ∷ time_text time) ++ drop at line.old }
    ensures from { (at ≤ result + 21) × (result ≤ at) }
{
    let from = put_time(line, at, time);
    put_byte(line, from, b',')
}

fn put_owner(line: &mut [u8], at: usize, owner: Owner) -> usize
    requires { (20 ≤ at) × (at ≤ length line.old) }
    ensures put { drop result line.new ≡ owner_text owner ++ drop at line.old }
    ensures from { (at ≤ result + 20) × (result ≤ at) }
{
    match owner {
        Owner::In => put_word(line, at, b"in"),
        Owner::Node(number) => put_decimal(line, at, number),
        Owner::Out => put_word(line, at, b"out"),
    }
}

// Puts a comma and the owner.
fn put_owner_field(line: &mut [u8], at: usize, owner: Owner) -> usize
    requires { (21 ≤ at) × (at ≤ length line.old) }
    ensures put { drop result line.new ≡ (44 ∷ owner_text owner) ++ drop at line.old }
    ensures from { (at ≤ result + 21) × (result ≤ at) }
{
    let from = put_owner(line, at, owner);
    put_byte(line, from, b',')
}

/// Puts the line of an entry up to its cells.
pub fn put_line_head(
    line: &mut [u8],
    at: usize,
    owner: Owner,
    shard: u64,
    entry: &SavedEntry,
) -> usize
    requires { (111 ≤ at) × (at ≤ length line.old) }
    ensures put { drop result line.new ≡ line_head owner shard entry.now ++ drop at line.old }
    ensures from { result ≤ at }
{
    let from = put_time_field(line, at, entry.other);
    let from = put_time_field(line, from, entry.sync);
    let from = put_number_field(line, from, entry.part);
    let from = put_number_field(line, from, shard);
    let from = put_owner_field(line, from, owner);
    put_word(line, from, b"#entry")
}
