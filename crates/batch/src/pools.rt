// The pools of an engine or a shard: one of columns for each sort of cell, and free bit vectors.
ghost use Rattle.std.specs.Prelude.{◌≡◌, ◌+◌, ◌-◌, ◌<◌, ◌≤◌, ◌↔◌, [], max, min, length, IsNone, IfSome, IfOk, OnOk, OnErr};
ghost use Rattle.batch.specs.Payloads.{payload_kind, payload_data, payload_capacity};
ghost use Rattle.batch.specs.PoolsView.{PoolsView, free_of, with_free, taken, given, NoMore};

use crate::payload::Payload;
use column_pool::{Bit, Cell, Column, Pool};
use occupancy::Occupancy;
use std::alloc::Global;
use std::marker::Model;
use tw_rows::{CellKind, Memory};

/// Pools of columns, one for each sort of cell, and free bit vectors. All have one limit and one
/// capacity. Only `new`, `refill` and `Batch::new` take memory. Contracts see how many of each are
/// free, the limit and the capacity.
pub struct Pools {
    pub words: Pool<u64>,
    pub ints: Pool<i64>,
    pub bits: Pool<Bit>,
    occupancies: Vec<Occupancy>,
    alloc: Global,
}

// By hand, so that crates that let one go cite this and not the destructors of its parts.
impl Drop for Pools {
    fn drop(self) {
        let Pools {
            words: _words,
            ints: _ints,
            bits: _bits,
            occupancies: _occupancies,
            alloc: _,
        } = self;
    }
}

impl Model for Pools {
    ghost use Rattle.std.specs.Prelude.{◌≡◌, ◌≤◌, [], All, vec_len, vec_capacity};
    ghost use Rattle.batch.specs.PoolsView.{PoolsView};

    ghost Value = { PoolsView };

    ghost view = { λ p. record {
      words = p.words.free;
      ints = p.ints.free;
      bits = p.bits.free;
      occupancies = vec_len p.occupancies;
      limit = p.words.limit;
      capacity = p.words.capacity;
    } };

    ghost invariant = { λ p. (p.ints.limit ≡ p.words.limit) × (p.ints.capacity ≡ p.words.capacity)
        × (p.bits.limit ≡ p.words.limit) × (p.bits.capacity ≡ p.words.capacity)
        × (vec_len p.occupancies ≤ p.words.limit) × (p.words.limit ≤ vec_capacity p.occupancies)
        × All (λ o. o ≡ record { items = []; capacity = p.words.capacity }) p.occupancies.items };
}

impl Pools {
    /// Pools with nothing free, for at most `limit` columns of each sort with room for `capacity`
    /// cells each.
    pub fn new(alloc: Global, limit: usize, capacity: usize) -> Result<Pools, Memory>
        ensures { IfOk result (λ p. p ≡ record {
          words = 0;
          ints = 0;
          bits = 0;
          occupancies = 0;
          limit = limit;
          capacity = capacity;
        }) }
    {
        Ok(Pools {
            words: Pool::new(alloc, limit, capacity)?,
            ints: Pool::new(alloc, limit, capacity)?,
            bits: Pool::new(alloc, limit, capacity)?,
            occupancies: Vec::with_capacity(alloc, limit)?,
            alloc,
        })
    }

    /// How many cells each column has room for.
    pub fn capacity(&self) -> usize
        ensures { result ≡ self.now.capacity }
    {
        self.words.capacity()
    }

    /// How many columns of a sort may be free at most.
    pub fn limit(&self) -> usize
        ensures { result ≡ self.now.limit }
    {
        self.words.limit()
    }

    /// How many columns for cells that are stored so are free.
    pub fn free(&self, kind: CellKind) -> usize
        ensures { result ≡ free_of self.now kind }
    {
        match kind {
            CellKind::Whole => self.ints.free(),
            CellKind::Bit => self.bits.free(),
            CellKind::Place => self.words.free(),
        }
    }

    /// Makes columns until `n` of each sort are free. Out of memory, those that were made
    /// stay.
    pub fn refill(&mut self, n: usize) -> Result<(), Memory>
        requires { n ≤ self.old.limit }
        ensures ok { OnOk result (self.new
            ≡ record self.old {
              words = max self.old.words n;
              ints = max self.old.ints n;
              bits = max self.old.bits n;
              occupancies = max self.old.occupancies n;
            }) }
        ensures err { OnErr result (NoMore self.new self.old) }
    {
        self.words.refill(n)?;
        self.ints.refill(n)?;
        self.bits.refill(n)?;
        for _ in self.occupancies.len()..n {
            self.make_occupancy()?;
        }
        Ok(())
    }

    // Makes one more bit vector.
    fn make_occupancy(&mut self) -> Result<(), Memory>
        requires { self.old.occupancies < self.old.limit }
        ensures ok { OnOk result (self.new ≡ record self.old {
          occupancies = self.old.occupancies + 1;
        }) }
        ensures err { OnErr result (self.new ≡ self.old) }
    {
        let occupancy = Occupancy::new(self.alloc, self.words.capacity())?;
        self.occupancies.push_reserved(occupancy);
        Ok(())
    }

    /// Takes out a free column, which is empty, for cells that are stored so.
    pub fn take(&mut self, kind: CellKind) -> Option<Payload>
        ensures none { IsNone result ↔ (free_of self.old kind ≡ 0) }
        ensures kind { IfSome result (λ p. payload_kind p ≡ kind) }
        ensures empty { IfSome result (λ p. payload_data p ≡ []) }
        ensures capacity { IfSome result (λ p. payload_capacity p ≡ self.old.capacity) }
        ensures left { self.new ≡ taken self.old kind }
    {
        Some(match kind {
            CellKind::Whole => Payload::Ints(self.ints.take()?),
            CellKind::Bit => Payload::Bits(self.bits.take()?),
            CellKind::Place => Payload::Places(self.words.take()?),
        })
    }

    /// Takes the column back, whatever it holds. Where the limit is reached it is dropped.
    pub fn give(&mut self, payload: Payload)
        requires { payload_capacity payload ≡ self.old.capacity }
        ensures { self.new ≡ given self.old (payload_kind payload) }
    {
        match payload {
            Payload::Ints(column) => give_column(&mut self.ints, column),
            Payload::Bits(column) => give_column(&mut self.bits, column),
            Payload::Places(column) => give_column(&mut self.words, column),
        }
    }

    // Takes out a column of words, or makes one.
    pub(crate) fn words_column(&mut self) -> Result<Column<u64>, Memory>
        ensures ok { IfOk result (λ c. c ≡ record { items = []; capacity = self.old.capacity }) }
        ensures left { self.new ≡ taken self.old CellKind.Place }
    {
        match self.words.take() {
            Some(column) => Ok(column),
            None => Ok(Column::new(self.alloc, self.words.capacity())?),
        }
    }

    // Takes out a payload column, or makes one.
    pub(crate) fn payload_column(&mut self, kind: CellKind) -> Result<Payload, Memory>
        ensures kind { IfOk result (λ p. payload_kind p ≡ kind) }
        ensures empty { IfOk result (λ p. payload_data p ≡ []) }
        ensures capacity { IfOk result (λ p. payload_capacity p ≡ self.old.capacity) }
        ensures left { self.new ≡ taken self.old kind }
    {
        match self.take(kind) {
            Some(payload) => Ok(payload),
            None => Ok(Payload::new(self.alloc, kind, self.words.capacity())?),
        }
    }

    // Takes out a bit vector, or makes one.
    pub(crate) fn occupancy(&mut self) -> Result<Occupancy, Memory>
        ensures ok { IfOk result (λ o. o ≡ record { items = []; capacity = self.old.capacity }) }
        ensures left { self.new ≡ record self.old { occupancies = self.old.occupancies - 1 } }
    {
        match self.occupancies.pop() {
            Some(occupancy) => Ok(occupancy),
            None => Ok(Occupancy::new(self.alloc, self.words.capacity())?),
        }
    }

    // Takes the bit vector back, whatever it holds. Where the limit is reached it is dropped.
    pub(crate) fn give_occupancy(&mut self, mut occupancy: Occupancy)
        requires { occupancy.capacity ≡ self.old.capacity }
        ensures { self.new ≡ record self.old {
          occupancies = min (self.old.occupancies + 1) self.old.limit;
        } }
    {
        if self.occupancies.len() < self.words.limit() {
            occupancy.reset();
            self.occupancies.push_reserved(occupancy);
        }
    }
}

// Gives the column to the pool, or drops it where the limit is reached.
fn give_column<T: Cell>(pool: &mut Pool<T>, column: Column<T>)
    requires { column.capacity ≡ pool.old.capacity }
    ensures { pool.new ≡ record pool.old { free = min (pool.old.free + 1) pool.old.limit } }
{
    if pool.free() < pool.limit() {
        match pool.give(column) {
            Some(_) => {}
            None => {}
        }
    }
}
