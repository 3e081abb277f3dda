// A column of payload cells.
ghost use Rattle.std.specs.Prelude.{◌≡◌, ◌+◌, ◌<◌, ◌≤◌, [], ◌∷◌, ◌++◌, length, slice_get, Some, pos, slice_index_or, IfOk};
ghost use Rattle.tw_rows.specs.Cells.{datum_kind};
ghost use Rattle.batch.specs.Payloads.{payload_kind, payload_data, payload_capacity, payload_push, payload_clear, payload_cut, payload_extend};

use column_pool::{Bit, Column};
use std::alloc::{AllocError, Global};
use std::default::MadeWith;
use tw_rows::{CellKind, Datum};

/// A payload column. Which one holds the values of a kind is told by how its cells are stored.
#[derive(Drop)]
pub enum Payload {
    /// Whole numbers.
    Ints(Column<i64>),
    /// Truth values.
    Bits(Column<Bit>),
    /// Places of texts.
    Places(Column<u64>),
}

impl Payload {
    /// An empty column for cells that are stored so.
    pub fn new(alloc: Global, kind: CellKind, capacity: usize) -> Result<Payload, AllocError>
        ensures kind { IfOk result (λ p. payload_kind p ≡ kind) }
        ensures empty { IfOk result (λ p. payload_data p ≡ []) }
        ensures capacity { IfOk result (λ p. payload_capacity p ≡ capacity) }
    {
        Ok(match kind {
            CellKind::Whole => Payload::Ints(Column::new(alloc, capacity)?),
            CellKind::Bit => Payload::Bits(Column::new(alloc, capacity)?),
            CellKind::Place => Payload::Places(Column::new(alloc, capacity)?),
        })
    }

    /// How the cells of the column are stored.
    pub fn cell_kind(&self) -> CellKind
        ensures { result ≡ payload_kind self.now }
    {
        match self {
            Payload::Ints(_) => CellKind::Whole,
            Payload::Bits(_) => CellKind::Bit,
            Payload::Places(_) => CellKind::Place,
        }
    }

    /// How many cells the column holds.
    pub fn len(&self) -> usize
        ensures len { result ≡ length (payload_data self.now) }
        ensures within { result ≤ payload_capacity self.now }
    {
        match self {
            Payload::Ints(column) => column.len(),
            Payload::Bits(column) => column.len(),
            Payload::Places(column) => column.len(),
        }
    }

    /// How many cells the column has room for in all.
    pub fn capacity(&self) -> usize
        ensures { result ≡ payload_capacity self.now }
    {
        match self {
            Payload::Ints(column) => column.capacity(),
            Payload::Bits(column) => column.capacity(),
            Payload::Places(column) => column.capacity(),
        }
    }

    /// The cell at the place.
    pub fn datum(&self, i: usize) -> Datum
        requires { i < length (payload_data self.now) }
        ensures datum { slice_get (payload_data self.now) i ≡ Some result }
        ensures kind { datum_kind result ≡ payload_kind self.now }
    {
        match self {
            Payload::Ints(column) => Datum::Int(column.get(i)),
            Payload::Bits(column) => Datum::Bool(column.get(i).is_set()),
            Payload::Places(column) => Datum::Text(column.get(i)),
        }
    }

    /// Adds the cell last.
    pub fn push(&mut self, datum: Datum)
        requires kind { datum_kind datum ≡ payload_kind self.old }
        requires room { length (payload_data self.old) < payload_capacity self.old }
        ensures { self.new ≡ payload_push self.old datum }
    {
        match (self, datum) {
            (Payload::Ints(column), Datum::Int(number)) => column.push(number),
            (Payload::Bits(column), Datum::Bool(flag)) => column.push(Bit::new(flag)),
            (Payload::Places(column), Datum::Text(place)) => column.push(place),
            _ => {}
        }
    }

    /// Adds the first `count` cells of a column of the same kind last.
    pub fn extend_first(&mut self, from: &Payload, count: usize)
        requires kind { payload_kind from.now ≡ payload_kind self.old }
        requires count { count ≤ length (payload_data from.now) }
        requires room { length (payload_data self.old) + count ≤ payload_capacity self.old }
        ensures { self.new ≡ payload_extend count self.old from.now }
    {
        match (self, from) {
            (Payload::Ints(column), Payload::Ints(cells)) => column.extend(
                &cells.as_slice()[..count],
            ),
            (Payload::Bits(column), Payload::Bits(cells)) => column.extend(
                &cells.as_slice()[..count],
            ),
            (Payload::Places(column), Payload::Places(cells)) => {
                column.extend(&cells.as_slice()[..count]);
            }
            _ => {}
        }
    }

    /// Takes the first `count` cells out.
    pub fn remove_first(&mut self, count: usize)
        requires { count ≤ length (payload_data self.old) }
        ensures { self.new ≡ payload_cut count self.old }
    {
        match self {
            Payload::Ints(column) => column.remove_first(count),
            Payload::Bits(column) => column.remove_first(count),
            Payload::Places(column) => column.remove_first(count),
        }
    }

    /// Leaves no cell, and the room as it was.
    pub fn clear(&mut self)
        ensures { self.new ≡ payload_clear self.old }
    {
        match self {
            Payload::Ints(column) => column.clear(),
            Payload::Bits(column) => column.clear(),
            Payload::Places(column) => column.clear(),
        }
    }
}

/// What fills the places of a short list of columns that are not in use: a column with no room.
impl MadeWith<Global> for Payload {
    fn made_with(alloc: Global) -> Payload {
        Payload::Places(Column::without_room(alloc))
    }
}
