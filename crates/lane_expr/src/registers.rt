// The results of steps over a block of rows.
ghost use Rattle.std.specs.Prelude.{◌≡◌, ◌+◌, ◌<◌, ◌≤◌, ℕ, pos, length, slice_index_or};
ghost use Rattle.tw_rows.specs.Cells.{datum_kind};
ghost use Rattle.batch.specs.Payloads.{payload_kind, payload_data};
ghost use Rattle.lane_expr.specs.Registers.{datum_of};

use crate::numbers::{Numbers, fill, load};
use crate::places::{Places, fill_places, load_places};
use crate::words::word_of;
use batch::Payload;
use tw_rows::{CellKind, Datum};

/// The results of a step over the 64 rows of a block. Those that are stored as its kind says are of use.
#[derive(Clone, Copy, Drop)]
pub struct Register {
    pub(crate) numbers: Numbers,
    pub(crate) places: Places,
    // Bit j is the truth value of row j.
    pub(crate) bits: u64,
    pub(crate) kind: CellKind,
}

impl Register {
    /// A register for results that are stored so.
    pub(crate) fn new(kind: CellKind) -> Register
        ensures { result.kind ≡ kind }
    {
        Register {
            numbers: Numbers::filled(0),
            places: Places::filled(0),
            bits: 0,
            kind,
        }
    }

    /// Writes the same datum for each row.
    pub(crate) fn fill(&mut self, datum: Datum)
        ensures kind { self.new.kind ≡ self.old.kind }
        ensures data { (j : ℕ) → j < 64 → datum_of (datum_kind datum) self.new j ≡ datum }
    {
        match datum {
            Datum::Int(value) => fill(&mut self.numbers, value),
            Datum::Bool(value) => self.bits = if value { u64::MAX } else { 0 },
            Datum::Text(value) => fill_places(&mut self.places, value),
        }
    }

    /// Writes the cells of `count` rows of a column, from the row `first` on.
    pub(crate) fn load(&mut self, column: &Payload, first: usize, count: usize)
        requires within { first + count ≤ length (payload_data column.now) }
        requires few { count ≤ 64 }
        ensures kind { self.new.kind ≡ self.old.kind }
        ensures data { (j : ℕ) → j < count → datum_of (payload_kind column.now) self.new j
            ≡ slice_index_or (payload_data column.now) (first + j) (Datum.Int (pos 0)) }
    {
        match column {
            Payload::Ints(cells) => load(&mut self.numbers, cells.as_slice(), first, count),
            Payload::Bits(cells) => self.bits = word_of(cells.as_slice(), first, count),
            Payload::Places(cells) => {
                load_places(&mut self.places, cells.as_slice(), first, count);
            }
        }
    }
}
