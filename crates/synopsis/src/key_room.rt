// Room for the key of a row.
ghost use Rattle.std.specs.Prelude.{◌≡◌, ◌≤◌, true, IfOk, IfSome, take, map, length};
ghost use Rattle.std.specs.Vec.{vec_len, vec_capacity};
ghost use Rattle.synopsis.specs.Held.{KeyValues, key_of, cell_or_zero};

use std::alloc::Global;
use std::marker::Model;
use tw_rows::{Datum, Memory};

/// Key columns, and the data that the row that was written last has in them.
pub struct KeyRoom {
    columns: Vec<usize>,
    values: Vec<Datum>,
}

// By hand, so that crates that let one go cite this and not the destructors of its parts.
impl Drop for KeyRoom {
    fn drop(self) {
        let KeyRoom {
            columns: _columns,
            values: _values,
        } = self;
    }
}

impl Model for KeyRoom {
    ghost use Rattle.std.specs.Prelude.{◌≤◌, length};
    ghost use Rattle.std.specs.Vec.{vec_capacity};
    ghost use Rattle.synopsis.specs.Held.{KeyValues};

    ghost Value = { KeyValues };

    ghost view = { λ k. record { columns = k.columns.items; values = k.values.items } };

    ghost invariant = { λ k. length k.columns.items ≤ vec_capacity k.values };
}

// The datum of a row in a column.
pub(crate) fn cell_at(cells: &[Datum], column: usize) -> Datum
    ensures { result ≡ cell_or_zero cells.now column }
{
    cells.get(column).copied().unwrap_or(Datum::Int(0))
}

/// The data of a row in the key columns, where they stand in the row as they are: in one column.
pub fn lone_key<'a>(columns: &[usize], cells: &'a [Datum]) -> Option<&'a [Datum]>
    ensures { IfSome result (λ key. key.now ≡ key_of columns.now cells.now) }
{
    if columns.len() != 1 {
        return None;
    }
    let column = columns[0];
    if column >= cells.len() {
        return None;
    }
    Some(&cells[column..column + 1])
}

// Writes the key of the cells into room that is there for it.
#[inline]
fn write_key(values: &mut Vec<Datum>, columns: &[usize], cells: &[Datum])
    requires room { length columns.now ≤ vec_capacity values.old }
    ensures room { length columns.now ≤ vec_capacity values.new }
    ensures values { values.new.items ≡ key_of columns.now cells.now }
{
    values.clear();
    for i in 0..columns.len() {
        let pushed = values.push(cell_at(cells, columns[i])).is_ok();
        prove!(pushed);
    }
}

// Writes a key of one column over one that was written before, without a loop. Tells whether the key is such a one.
fn write_lone(values: &mut [Datum], columns: &[usize], cells: &[Datum]) -> bool
    ensures { result ≡ true → values.new ≡ key_of columns.now cells.now }
{
    if columns.len() != 1 || values.len() != 1 {
        return false;
    }
    let column = columns[0];
    if column >= cells.len() {
        return false;
    }
    values[0] = cells[column];
    true
}

impl KeyRoom {
    /// Room for the keys of these columns. No later call takes memory.
    pub fn new(alloc: Global, columns: &[usize]) -> Result<KeyRoom, Memory>
        ensures { IfOk result (λ k. k.columns ≡ columns.now) }
    {
        let values = Vec::with_capacity(alloc, columns.len())?;
        Ok(KeyRoom {
            columns: Vec::from_slice(alloc, columns)?,
            values,
        })
    }

    /// Writes the data of a row in the key columns.
    #[inline]
    pub fn write(&mut self, cells: &[Datum])
        ensures values { self.new.values ≡ key_of self.old.columns cells.now }
        ensures columns { self.new.columns ≡ self.old.columns }
    {
        if !write_lone(self.values.as_mut_slice(), self.columns.as_slice(), cells) {
            write_key(&mut self.values, self.columns.as_slice(), cells);
        }
    }

    /// The data that were written last.
    pub fn values(&self) -> &[Datum]
        ensures { result.now ≡ self.now.values }
    {
        self.values.as_slice()
    }

    /// The key columns.
    pub fn columns(&self) -> &[usize]
        ensures { result.now ≡ self.now.columns }
    {
        self.columns.as_slice()
    }
}
