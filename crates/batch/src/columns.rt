// What is done to all payload columns of a batch, one after another.
ghost use Rattle.std.specs.Prelude.{◌≡◌, ◌≤◌, ◌+◌, ◌++◌, ◌↔◌, length, take, map, All, IsTrue};
ghost use Rattle.tw_rows.specs.Cells.{datum_kind};
ghost use Rattle.batch.specs.Payloads.{payload_kind, payload_clear, pushed, cells_at, HasRoom, Reaches, Holds, HasRoomFor, payload_cut, extended};

use crate::payload::Payload;
use occupancy::Occupancy;
use tw_rows::Datum;

/// Adds to each column its cell of a row.
pub(crate) fn push_cells(columns: &mut [Payload], cells: &[Datum])
    requires kinds { map datum_kind cells.now ≡ map payload_kind columns.old }
    requires room { All HasRoom columns.old }
    ensures { columns.new ≡ pushed columns.old cells.now }
{
    for c in 0..columns.len() {
        columns[c].push(cells[c]);
    }
}

/// Adds to each column the cell that stands at the place in another one.
pub(crate) fn copy_cells(columns: &mut [Payload], from: &[Payload], i: usize)
    requires kinds { map payload_kind from.now ≡ map payload_kind columns.old }
    requires room { All HasRoom columns.old }
    requires place { All (Reaches i) from.now }
    ensures { columns.new ≡ pushed columns.old (cells_at from.now i) }
{
    for c in 0..columns.len() {
        let datum = from[c].datum(i);
        columns[c].push(datum);
    }
}

/// Leaves no cell in the columns.
pub(crate) fn clear_columns(columns: &mut [Payload])
    ensures { columns.new ≡ map payload_clear columns.old }
{
    for c in 0..columns.len() {
        columns[c].clear();
    }
}

fn same_datum(a: Datum, b: Datum) -> bool
    ensures { IsTrue result ↔ (a ≡ b) }
{
    a == b
}

/// Whether the cells that stand at the place in the columns are these.
pub(crate) fn have_cells(columns: &[Payload], i: usize, cells: &[Datum]) -> bool
    requires { All (Reaches i) columns.now }
    ensures { IsTrue result ↔ (cells_at columns.now i ≡ cells.now) }
{
    if columns.len() != cells.len() {
        return false;
    }
    for c in 0..cells.len() {
        if !same_datum(columns[c].datum(i), cells[c]) {
            return false;
        }
    }
    true
}

/// Adds to each column the first `count` cells of another one.
pub(crate) fn extend_columns(columns: &mut [Payload], from: &[Payload], count: usize)
    requires kinds { map payload_kind from.now ≡ map payload_kind columns.old }
    requires count { All (Holds count) from.now }
    requires room { All (HasRoomFor count) columns.old }
    ensures { columns.new ≡ extended count columns.old from.now }
{
    for c in 0..columns.len() {
        columns[c].extend_first(&from[c], count);
    }
}

/// Takes the first `count` cells of each column out.
pub(crate) fn cut_columns(columns: &mut [Payload], count: usize)
    requires { All (Holds count) columns.old }
    ensures { columns.new ≡ map (payload_cut count) columns.old }
{
    for c in 0..columns.len() {
        columns[c].remove_first(count);
    }
}

/// Adds the first `count` bits of another list last.
pub(crate) fn extend_bits(bits: &mut Occupancy, from: &Occupancy, count: usize)
    requires count { count ≤ length from.now.items }
    requires room { length bits.old.items + count ≤ bits.old.capacity }
    ensures { bits.new ≡ record bits.old { items = bits.old.items ++ take count from.now.items } }
{
    // mostly all are set
    if from.count() == from.len() {
        bits.push_set(count);
        return;
    }
    for i in 0..count {
        bits.push(from.is_set(i));
    }
}
