// A batch of edges, in columns.
ghost use Rattle.std.specs.Prelude.{◌≡◌, ◌+◌, ◌<◌, ◌≤◌, ◌↔◌, ◌&&◌, true, false, [], ◌∷◌, ◌++◌};
ghost use Rattle.std.specs.Prelude.{length, take, drop, map, Some, slice_get, slice_set, slice_index_or, All};
ghost use Rattle.std.specs.Prelude.{IsTrue, IsOk, IsErr, IfOk, OnOk, OnErr};
ghost use Rattle.tw_rows.specs.Cells.{datum_kind};
ghost use Rattle.batch.specs.Rows.{Row, Table, edge_of, edges_of, occupied_rows, row_of, kept, cell_column};
ghost use Rattle.batch.specs.Payloads.{payload_kind, payload_data, payload_capacity};
ghost use Rattle.batch.specs.Columns.{IsColumn, with_cells};
ghost use Rattle.batch.specs.PoolsView.{batch_given};

use crate::columns::{
    clear_columns, copy_cells, cut_columns, extend_bits, extend_columns, have_cells, push_cells,
};
use crate::making::give_columns;
use crate::payload::Payload;
use crate::pools::Pools;
use column_pool::Column;
use occupancy::Occupancy;
use smallvec::SmallVec;
use std::error::Error;
use std::fmt;
use std::marker::Model;
use tw_rows::{Cells, Datum, Edge, Memory, SHORT_ROW, Time};

/// How many payload columns are kept without memory of their own.
pub(crate) const WIDTH: usize = 32;

/// A batch holds as many rows as it has room for.
#[derive(Clone, Copy, Debug, PartialEq, Eq)]
pub struct Full;

impl fmt::Display for Full {
    fn fmt<W: fmt::Write>(&self, f: &mut fmt::Formatter<W>) -> fmt::Result {
        write!(f, "the batch is full")
    }
}

impl Error for Full {}

/// Edges in columns: their times, a key and a hash, and their cells. A row that is not occupied keeps
/// its place and holds no edge. Contracts see the batch as its rows, its capacity, and how the cells of
/// each payload column are stored.
pub struct Batch {
    pub(crate) sync: Column<u64>,
    pub(crate) other: Column<u64>,
    pub(crate) key: Column<u64>,
    pub(crate) hash: Column<u64>,
    pub(crate) payload: SmallVec<Payload, WIDTH>,
    pub(crate) occupied: Occupancy,
}

// By hand, so that crates that let one go cite this and not the destructors of its parts.
impl Drop for Batch {
    fn drop(self) {
        let Batch {
            sync: _sync,
            other: _other,
            key: _key,
            hash: _hash,
            payload: _payload,
            occupied: _occupied,
        } = self;
    }
}

impl Model for Batch {
    ghost use Rattle.std.specs.Prelude.{map};
    ghost use Rattle.batch.specs.Rows.{Table};
    ghost use Rattle.batch.specs.Payloads.{payload_kind};
    ghost use Rattle.batch.specs.Columns.{Columns, rows_of, IsBatch};

    ghost Value = { Table };

    ghost view = { λ b. record {
      rows = rows_of (record {
        sync = b.sync.items;
        other = b.other.items;
        key = b.key.items;
        hash = b.hash.items;
        payload = b.payload.items;
        occupied = b.occupied.items;
      });
      capacity = b.sync.capacity;
      kinds = map payload_kind b.payload.items;
    } };

    ghost invariant = { λ b. IsBatch b.sync.capacity b.other.capacity b.key.capacity b.hash.capacity b.occupied.capacity (record {
      sync = b.sync.items;
      other = b.other.items;
      key = b.key.items;
      hash = b.hash.items;
      payload = b.payload.items;
      occupied = b.occupied.items;
    }) };
}

impl Batch {
    /// How many rows there are, occupied or not.
    pub fn rows(&self) -> usize
        ensures rows { result ≡ length self.now.rows }
        ensures within { length self.now.rows ≤ self.now.capacity }
    {
        self.sync.len()
    }

    /// How many rows there is room for in all.
    pub fn capacity(&self) -> usize
        ensures capacity { result ≡ self.now.capacity }
        ensures within { length self.now.rows ≤ self.now.capacity }
    {
        self.sync.capacity()
    }

    /// How many rows are occupied.
    pub fn occupied(&self) -> usize
        ensures { result ≡ length (occupied_rows self.now.rows) }
    {
        self.occupied.count()
    }

    /// Which rows are occupied.
    pub fn occupancy(&self) -> &Occupancy
        ensures { result.now ≡ record {
          items = map (λ r. r.occupied) self.now.rows;
          capacity = self.now.capacity;
        } }
    {
        &self.occupied
    }

    /// The payload column `c`, with a cell for each row, occupied or not.
    pub fn column(&self, c: usize) -> &Payload
        requires { c < length self.now.kinds }
        ensures kind { slice_get self.now.kinds c ≡ Some (payload_kind result.now) }
        ensures cells { payload_data result.now ≡ cell_column self.now.rows c }
        ensures capacity { payload_capacity result.now ≡ self.now.capacity }
    {
        &self.payload.as_slice()[c]
    }

    /// The sync time of the row `i`.
    pub fn sync_at(&self, i: usize) -> Time
        requires { i < length self.now.rows }
        ensures { slice_get (map (λ r. r.sync) self.now.rows) i ≡ Some result }
    {
        Time::from_word(self.sync.get(i))
    }

    /// The other time of the row `i`.
    pub fn other_at(&self, i: usize) -> Time
        requires { i < length self.now.rows }
        ensures { slice_get (map (λ r. r.other) self.now.rows) i ≡ Some result }
    {
        Time::from_word(self.other.get(i))
    }

    /// The hash of the row `i`.
    pub fn hash_at(&self, i: usize) -> u64
        requires { i < length self.now.rows }
        ensures { slice_get (map (λ r. r.hash) self.now.rows) i ≡ Some result }
    {
        self.hash.get(i)
    }

    /// Sets the key and the hash of the row `i`.
    pub fn mark(&mut self, i: usize, key: u64, hash: u64)
        requires { i < length self.old.rows }
        ensures { (r : Row) → slice_get self.old.rows i ≡ Some r →
            self.new ≡ record self.old {
              rows = slice_set self.old.rows i
                  (record r { key = key; hash = hash });
            } }
    {
        self.key.set(i, key);
        self.hash.set(i, hash);
    }

    /// Sets the times of the row `i`, and leaves its cells where they are.
    pub fn set_times(&mut self, i: usize, sync: Time, other: Time)
        requires { i < length self.old.rows }
        ensures { (r : Row) → slice_get self.old.rows i ≡ Some r →
            self.new ≡ record self.old {
              rows = slice_set self.old.rows i
                  (record r { sync = sync; other = other });
            } }
    {
        self.sync.set(i, sync.word());
        self.other.set(i, other.word());
    }

    /// Leaves the row `i` in its place, and unoccupied.
    pub fn clear_row(&mut self, i: usize)
        requires { i < length self.old.rows }
        ensures { (r : Row) → slice_get self.old.rows i ≡ Some r →
            self.new ≡ record self.old {
              rows = slice_set self.old.rows i
                  (record r { occupied = false });
            } }
    {
        self.occupied.clear_at(i);
    }

    /// Adds a row with the edge, whose key and hash are 0.
    pub fn push_edge(&mut self, edge: &Edge) -> Result<(), Full>
        requires { map datum_kind edge.now.cells ≡ self.old.kinds }
        ensures full { IsErr result ↔ (length self.old.rows ≡ self.old.capacity) }
        ensures ok { OnOk result (self.new ≡ record self.old {
          rows = self.old.rows ++ row_of edge.now ∷ [];
        }) }
        ensures err { OnErr result (self.new ≡ self.old) }
    {
        self.push_row(edge.sync, edge.other, edge.cells.items())
    }

    /// Adds a row with the edge of these times and cells, as `push_edge` does.
    pub fn push_row(&mut self, sync: Time, other: Time, cells: &[Datum]) -> Result<(), Full>
        requires { map datum_kind cells.now ≡ self.old.kinds }
        ensures full { IsErr result ↔ (length self.old.rows ≡ self.old.capacity) }
        ensures ok { OnOk result (self.new ≡ record self.old {
          rows = self.old.rows
              ++ row_of (record { sync = sync; other = other; cells = cells.now }) ∷ [];
        }) }
        ensures err { OnErr result (self.new ≡ self.old) }
    {
        if self.sync.len() == self.sync.capacity() {
            return Err(Full);
        }
        self.sync.push(sync.word());
        self.other.push(other.word());
        self.key.push(0);
        self.hash.push(0);
        self.occupied.push(true);
        push_cells(self.payload.as_mut_slice(), cells);
        Ok(())
    }

    /// Leaves no row, and the room as it was.
    pub fn reset(&mut self)
        ensures { self.new ≡ record self.old { rows = [] } }
    {
        self.sync.clear();
        self.other.clear();
        self.key.clear();
        self.hash.clear();
        self.occupied.reset();
        clear_columns(self.payload.as_mut_slice());
    }

    /// Leaves occupied just the occupied rows whose bit is set.
    pub fn keep(&mut self, mask: &Occupancy)
        requires { length mask.now.items ≡ length self.old.rows }
        ensures { self.new ≡ record self.old { rows = kept self.old.rows mask.now.items } }
    {
        self.occupied.and_mask(mask);
    }

    /// The batch with these payload columns, and those that it had.
    pub fn exchange(
        mut self,
        payload: SmallVec<Payload, WIDTH>,
    ) -> (Batch, SmallVec<Payload, WIDTH>)
        requires { All (IsColumn (length self.rows) self.capacity) payload.items }
        ensures batch { result.0 ≡ record self {
          rows = with_cells payload.items 0 self.rows;
          kinds = map payload_kind payload.items;
        } }
        ensures kinds { map payload_kind result.1.items ≡ self.kinds }
        ensures whole { All (IsColumn (length self.rows) self.capacity) result.1.items }
        ensures cells { with_cells result.1.items 0 self.rows ≡ self.rows }
    {
        let old = std::mem::replace(&mut self.payload, payload);
        (self, old)
    }

    /// Whether the cells of the row `i` are these.
    pub fn has_cells(&self, i: usize, cells: &[Datum]) -> bool
        requires { i < length self.now.rows }
        ensures { (r : Row) → slice_get self.now.rows i ≡ Some r →
            IsTrue result ↔ (r.cells ≡ cells.now) }
    {
        have_cells(self.payload.as_slice(), i, cells)
    }

    /// The edge of the row `i`. Memory is taken only for more than 4 cells.
    pub fn edge_at(&self, i: usize) -> Result<Edge, Memory>
        requires { i < length self.now.rows }
        ensures ok { IfOk result (λ e. slice_get (map edge_of self.now.rows) i ≡ Some e) }
        ensures kinds { IfOk result (λ e. map datum_kind e.cells ≡ self.now.kinds) }
        ensures succeeds { length self.now.kinds ≤ 4 → IsOk result }
    {
        let alloc = *self.payload.allocator();
        let mut data: SmallVec<Datum, SHORT_ROW> = SmallVec::new(alloc);
        for column in self.payload.as_slice() {
            data.push(column.datum(i))?;
        }
        Ok(Edge {
            sync: Time::from_word(self.sync.get(i)),
            other: Time::from_word(self.other.get(i)),
            cells: Cells::new(data),
        })
    }

    /// Adds the row `i`, occupied or not, to another batch of the same kinds that has room for it.
    pub fn copy_row(&self, i: usize, to: &mut Batch)
        requires place { i < length self.now.rows }
        requires kinds { self.now.kinds ≡ to.old.kinds }
        requires room { length to.old.rows < to.old.capacity }
        ensures { (r : Row) → slice_get self.now.rows i ≡ Some r →
            to.new ≡ record to.old { rows = to.old.rows ++ r ∷ [] } }
    {
        to.sync.push(self.sync.get(i));
        to.other.push(self.other.get(i));
        to.key.push(self.key.get(i));
        to.hash.push(self.hash.get(i));
        to.occupied.push(self.occupied.is_set(i));
        copy_cells(to.payload.as_mut_slice(), self.payload.as_slice(), i);
    }

    /// Adds the occupied rows, in order, to another batch of the same kinds that has room for them.
    pub fn copy_into(&self, to: &mut Batch)
        requires kinds { self.now.kinds ≡ to.old.kinds }
        requires room { length to.old.rows + length
            (occupied_rows self.now.rows) ≤ to.old.capacity }
        ensures { to.new ≡ record to.old { rows = to.old.rows ++ occupied_rows self.now.rows } }
    {
        for i in 0..self.rows() {
            if self.occupied.is_set(i) {
                self.copy_row(i, to);
            }
        }
    }

    /// Adds the first `count` rows, occupied or not, to another batch of the same kinds that has room for them:
    /// one copy of memory for each column.
    pub fn copy_first(&self, count: usize, to: &mut Batch)
        requires count { count ≤ length self.now.rows }
        requires kinds { self.now.kinds ≡ to.old.kinds }
        requires room { length to.old.rows + count ≤ to.old.capacity }
        ensures { to.new ≡ record to.old { rows = to.old.rows ++ take count self.now.rows } }
    {
        to.sync.extend(&self.sync.as_slice()[..count]);
        to.other.extend(&self.other.as_slice()[..count]);
        to.key.extend(&self.key.as_slice()[..count]);
        to.hash.extend(&self.hash.as_slice()[..count]);
        extend_bits(&mut to.occupied, &self.occupied, count);
        extend_columns(to.payload.as_mut_slice(), self.payload.as_slice(), count);
    }

    /// Takes the first `count` rows out, of a batch whose rows are all occupied, and leaves the room as it was.
    pub fn remove_first(&mut self, count: usize)
        requires count { count ≤ length self.old.rows }
        requires occupied { occupied_rows self.old.rows ≡ self.old.rows }
        ensures { self.new ≡ record self.old { rows = drop count self.old.rows } }
    {
        self.sync.remove_first(count);
        self.other.remove_first(count);
        self.key.remove_first(count);
        self.hash.remove_first(count);
        let left = self.occupied.len() - count;
        self.occupied.reset();
        self.occupied.push_set(left);
        cut_columns(self.payload.as_mut_slice(), count);
    }

    // Whether the row `i` is occupied and its bit is set.
    fn is_kept(&self, mask: &Occupancy, i: usize) -> bool
        requires place { i < length self.now.rows }
        requires mask { length mask.now.items ≡ length self.now.rows }
        ensures { result ≡ (slice_index_or (map
            (λ r. r.occupied) self.now.rows) i false && slice_index_or mask.now.items i false) }
    {
        self.occupied.is_set(i) && mask.is_set(i)
    }

    /// Adds the occupied rows whose bit is set, in order, to another batch of the same kinds that has
    /// room for them.
    pub fn copy_kept(&self, mask: &Occupancy, to: &mut Batch)
        requires kinds { self.now.kinds ≡ to.old.kinds }
        requires mask { length mask.now.items ≡ length self.now.rows }
        requires room { length to.old.rows + length
            (occupied_rows (kept self.now.rows mask.now.items)) ≤ to.old.capacity }
        ensures { to.new ≡ record to.old {
          rows = to.old.rows ++ occupied_rows (kept self.now.rows mask.now.items);
        } }
    {
        for i in 0..self.rows() {
            if self.is_kept(mask, i) {
                self.copy_row(i, to);
            }
        }
    }

    /// Gives the columns back to pools of the batch's capacity, for which they are made empty. What
    /// would pass the limit is dropped.
    pub fn give_back(self, pools: &mut Pools)
        requires { self.capacity ≡ pools.old.capacity }
        ensures { pools.new ≡ batch_given pools.old self.kinds }
    {
        let Batch {
            sync,
            other,
            key,
            hash,
            payload,
            occupied,
        } = self;
        pools.give(Payload::Places(sync));
        pools.give(Payload::Places(other));
        pools.give(Payload::Places(key));
        pools.give(Payload::Places(hash));
        pools.give_occupancy(occupied);
        give_columns(pools, payload);
    }
}
