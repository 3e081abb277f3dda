// How the cells of a batch are stored, and whether their texts are in a table.
ghost use Rattle.std.specs.Prelude.{◌≡◌, ◌↔◌, true, length, map, All, IsTrue};
ghost use Rattle.tw_rows.specs.Cells.{datum_kind, ArePlaced};
ghost use Rattle.batch.specs.Payloads.{payload_data};
ghost use Rattle.batch.specs.Places.{IsColumnPlaced};

use crate::batch::Batch;
use crate::payload::Payload;
use column_pool::Column;
use occupancy::Occupancy;
use tw_rows::{Datum, TextTable};

impl Batch {
    /// The cells of each row, occupied or not, are stored as the kinds of their columns tell. A law:
    /// the call does nothing.
    pub fn cells_are_of_kinds(&self)
        ensures { All (λ r. map datum_kind r.cells ≡ self.now.kinds) self.now.rows }
    {
        // the check opens the columns where one is read
        let _columns = self.payload.as_slice();
    }

    /// Whether each text in the occupied rows has its place in the table. It goes through the columns
    /// of texts alone.
    pub fn are_placed(&self, texts: &TextTable) -> bool
        ensures { IsTrue result ↔ All (λ r. r.occupied ≡ true →
            ArePlaced texts.now r.cells) self.now.rows }
    {
        for column in self.payload.as_slice() {
            if !is_column_placed(column, &self.occupied, texts) {
                return false;
            }
        }
        true
    }
}

// Whether the column holds no texts, or the places of texts of the table wherever a row is occupied.
fn is_column_placed(column: &Payload, occupied: &Occupancy, texts: &TextTable) -> bool
    requires { length (payload_data column.now) ≡ length occupied.now.items }
    ensures { IsTrue result ↔ IsColumnPlaced texts.now occupied.now.items
        (payload_data column.now) }
{
    match column {
        Payload::Ints(_) => true,
        Payload::Bits(_) => true,
        Payload::Places(places) => are_in_table(places, occupied, texts),
    }
}

// Whether the places are those of texts of the table wherever a row is occupied.
fn are_in_table(places: &Column<u64>, occupied: &Occupancy, texts: &TextTable) -> bool
    requires { length places.now.items ≡ length occupied.now.items }
    ensures { IsTrue result ↔ IsColumnPlaced texts.now occupied.now.items
        (map Datum.Text places.now.items) }
{
    for i in 0..places.len() {
        if occupied.is_set(i) && texts.len() <= places.get(i) {
            return false;
        }
    }
    true
}
