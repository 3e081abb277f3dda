// The rows of one side of a node that are alive: in a list while they are few, else in a bucket for each key.
ghost use Rattle.std.specs.Prelude.{◌≡◌, ◌≤◌, ◌<◌, ◌+◌, ℕ, true, false, [], List, filter, flat_map, length, slice_get, Some, IfOk, OnOk, OnErr};
ghost use Rattle.tw_rows.specs.Bag.{total};
ghost use Rattle.tw_rows.specs.declared.edge.HeldRow.{HeldRow};
ghost use Rattle.edge_history.specs.Order.{many};
ghost use Rattle.edge_history.specs.Opens.{is_held};
ghost use Rattle.synopsis.specs.Held.{is_of_key};
ghost use Rattle.synopsis.specs.Buckets.{rows_in, AreKeyed};

use crate::buckets::{KeyBuckets, put_row, rows_with, take_row};
use crate::few::Few;
use crate::key_room::{KeyRoom, lone_key};
use crate::spares::Spares;
use indexmap::IndexMap;
use std::alloc::Global;
use std::hash::BuildHasherDefault;
use std::marker::Model;
use tw_rows::{Cells, Datum, HeldRow, Memory, Time};

// The most rows that stand in a list. Among so few a walk costs less than a look-up by hash.
const FEW: usize = 16;

/// Rows that are alive, each with its start. A row is found by its cells and its start, and those with the same data in the
/// key columns lie side by side; both take no longer where more rows are held.
pub struct Synopsis {
    alloc: Global,
    key: KeyRoom,
    // The rows, where they are few. Where one more comes all go into buckets, and new ones too until none is left.
    few: Few,
    buckets: KeyBuckets,
    spares: Spares,
    count: usize,
}

// By hand, so that crates that let one go cite this and not the destructors of its parts.
impl Drop for Synopsis {
    fn drop(self) {
        let Synopsis {
            alloc: _,
            key: _key,
            few: _few,
            buckets: _buckets,
            spares: _spares,
            count: _,
        } = self;
    }
}

impl Model for Synopsis {
    ghost use Rattle.std.specs.Prelude.{◌≡◌, ◌++◌, ◌+◌, ◌⊎◌, [], length};
    ghost use Rattle.synopsis.specs.Held.{KeyedRows};
    ghost use Rattle.synopsis.specs.Buckets.{rows_in, blocks_in, AreKeyed};
    ghost use Rattle.synopsis.specs.Few.{few_block, AreHeld};

    ghost Value = { KeyedRows };

    ghost view = { λ s. record {
      key = s.key.columns;
      rows = s.few.rows ++ rows_in s.buckets.entries;
      blocks = few_block s.few.rows ++ blocks_in s.buckets.entries;
    } };

    ghost invariant = { λ s. AreHeld s.key.columns s.few s.buckets.entries s.count };
}

// The rows and one more, in buckets by that key.
fn in_buckets(
    alloc: Global,
    key: &mut KeyRoom,
    spares: &mut Spares,
    rows: &[HeldRow],
    cells: Cells,
    start: Time,
) -> Result<KeyBuckets, Memory>
    ensures rows { IfOk result (λ b. (w : HeldRow → ℕ) → total w (rows_in b.entries)
        ≡ total w rows.now + w (record { cells = cells; start = start })) }
    ensures keyed { IfOk result (λ b. AreKeyed key.old.columns b.entries) }
    ensures columns { key.new.columns ≡ key.old.columns }
{
    let mut buckets = IndexMap::with_hasher(alloc, BuildHasherDefault::new());
    for row in rows {
        let copy = row.cells.clone()?;
        key.write(copy.items());
        put_row(alloc, &mut buckets, spares, key.values(), copy, row.start)?;
    }
    key.write(cells.items());
    put_row(alloc, &mut buckets, spares, key.values(), cells, start)?;
    Ok(buckets)
}

// Takes a row with these cells that began then out of the bucket of its key, if there is one.
fn take_keyed(
    key: &mut KeyRoom,
    buckets: &mut KeyBuckets,
    spares: &mut Spares,
    cells: &[Datum],
    start: Time,
) -> bool
    ensures taken { result ≡ true → (w : HeldRow → ℕ) → total w (rows_in buckets.old.entries)
        ≡ total w (rows_in buckets.new.entries) + w (record { cells = cells.now; start = start }) }
    ensures none { result ≡ false → AreKeyed key.old.columns buckets.old.entries →
        many (is_held cells.now start) (rows_in buckets.old.entries) ≡ 0 }
    ensures unchanged { result ≡ false → buckets.new.entries ≡ buckets.old.entries }
    ensures keyed { (columns : List ℕ) → AreKeyed columns buckets.old.entries →
        AreKeyed columns buckets.new.entries }
    ensures columns { key.new.columns ≡ key.old.columns }
{
    // A key of one column needs no copy.
    if let Some(lone) = lone_key(key.columns(), cells) {
        return take_row(buckets, spares, lone, cells, start);
    }
    key.write(cells);
    take_row(buckets, spares, key.values(), cells, start)
}

impl Synopsis {
    /// No rows, by these key columns.
    pub fn new(alloc: Global, key: &[usize]) -> Result<Synopsis, Memory>
        ensures key { IfOk result (λ s. s.key ≡ key.now) }
        ensures rows { IfOk result (λ s. s.rows ≡ []) }
    {
        Ok(Synopsis {
            alloc,
            key: KeyRoom::new(alloc, key)?,
            few: Few::new(alloc, key)?,
            buckets: IndexMap::with_hasher(alloc, BuildHasherDefault::new()),
            spares: Spares::new(alloc)?,
            count: 0,
        })
    }

    /// Puts in a row. Out of memory nothing changes.
    pub fn add(&mut self, cells: Cells, start: Time) -> Result<(), Memory>
        ensures ok { OnOk result ((w : HeldRow → ℕ) → total w self.new.rows ≡ total w self.old.rows
            + w (record { cells = cells; start = start })) }
        ensures err { OnErr result (self.new.rows ≡ self.old.rows) }
        ensures key { self.new.key ≡ self.old.key }
    {
        // A count that no longer fits is told as out of memory.
        let Some(count) = self.count.checked_add(1) else {
            return Err(Memory);
        };
        if !self.buckets.is_empty() {
            self.key.write(cells.items());
            let key = self.key.values();
            put_row(
                self.alloc,
                &mut self.buckets,
                &mut self.spares,
                key,
                cells,
                start,
            )?;
            self.count = count;
            return Ok(());
        }
        if self.few.rows().len() < FEW {
            self.key.write(cells.items());
            self.few.put(self.key.values(), cells, start)?;
            self.count = count;
            return Ok(());
        }
        let few = self.few.rows();
        let buckets = in_buckets(
            self.alloc,
            &mut self.key,
            &mut self.spares,
            few,
            cells,
            start,
        )?;
        self.buckets = buckets;
        self.few.clear();
        self.count = count;
        Ok(())
    }

    /// Takes out a row with these cells that began then, if there is one, and tells whether there was. It takes no memory.
    pub fn take(&mut self, cells: &[Datum], start: Time) -> bool
        ensures taken { result ≡ true → (w : HeldRow → ℕ) → total w self.old.rows
            ≡ total w self.new.rows + w (record { cells = cells.now; start = start }) }
        ensures none { result ≡ false → many (is_held cells.now start) self.old.rows ≡ 0 }
        ensures unchanged { result ≡ false → self.new.rows ≡ self.old.rows }
        ensures key { self.new.key ≡ self.old.key }
    {
        if self.buckets.is_empty() {
            if !self.few.take(cells, start) {
                return false;
            }
            self.count -= 1;
            return true;
        }
        if !take_keyed(
            &mut self.key,
            &mut self.buckets,
            &mut self.spares,
            cells,
            start,
        ) {
            return false;
        }
        self.count -= 1;
        true
    }

    /// Takes out a row with these cells that began then. It takes no memory.
    pub fn remove(&mut self, cells: &[Datum], start: Time)
        requires { 1 ≤ many (is_held cells.now start) self.old.rows }
        ensures taken { (w : HeldRow → ℕ) → total w self.old.rows ≡ total w self.new.rows
            + w (record { cells = cells.now; start = start }) }
        ensures key { self.new.key ≡ self.old.key }
    {
        let taken = self.take(cells, start);
        prove!(taken);
    }

    /// The rows with these data in the key columns.
    pub fn rows_of(&self, key: &[Datum]) -> &[HeldRow]
        ensures { result.now ≡ filter (is_of_key self.now.key key.now) self.now.rows }
    {
        let _ = &self.count;
        if self.buckets.is_empty() {
            return self.few.rows_with(key);
        }
        rows_with(&self.buckets, key)
    }

    /// How many rows it holds.
    pub fn len(&self) -> usize
        ensures { result ≡ length self.now.rows }
    {
        self.count
    }

    /// How many blocks of rows there are.
    pub fn block_count(&self) -> usize
        ensures count { result ≡ length self.now.blocks }
        ensures rows { self.now.rows ≡ flat_map (λ b. b) self.now.blocks }
        ensures few { result ≤ length self.now.rows }
    {
        if self.few.rows().is_empty() {
            return self.buckets.len();
        }
        1
    }

    /// The rows block after block, by number.
    pub fn block(&self, k: usize) -> &[HeldRow]
        requires { k < length self.now.blocks }
        ensures { slice_get self.now.blocks k ≡ Some result.now }
    {
        let few = self.few.rows();
        if few.is_empty() {
            return self.buckets[k].rows();
        }
        few
    }

    /// The row at that place. It passes the blocks before that of the row one by one.
    pub fn row_at(&self, i: usize) -> &HeldRow
        requires { i < length self.now.rows }
        ensures { slice_get self.now.rows i ≡ Some result.now }
    {
        let few = self.few.rows();
        if !few.is_empty() {
            return &few[i];
        }
        let mut left = i;
        for k in 0..self.buckets.len() {
            let rows = self.buckets[k].rows();
            if left < rows.len() {
                return &rows[left];
            }
            left -= rows.len();
        }
        unreachable!()
    }
}
