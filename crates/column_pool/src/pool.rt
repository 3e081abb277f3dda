// A pool of free columns of one kind and one capacity, made ahead of their use.
ghost use Rattle.std.specs.Prelude.{◌≡◌, ◌+◌, ◌-◌, ◌<◌, ◌≤◌, ◌↔◌, [], max, IsNone, IsSome, IfSome, IfNone, IfOk, OnOk, OnErr};

use crate::cell::Cell;
use crate::column::Column;
use std::alloc::{AllocError, Global};
use std::marker::Model;

/// Empty columns of one capacity, ready to be taken, and at most as many as the limit. Only `new`
/// and `refill` take memory. Contracts see it as the number of its free columns, its limit and the
/// capacity of its columns.
#[derive(Drop)]
pub struct Pool<T: Cell> {
    columns: Vec<Column<T>>,
    limit: usize,
    capacity: usize,
    alloc: Global,
}

impl<T: Cell> Model for Pool<T> {
    ghost use Rattle.column_pool.specs.PoolView.{PoolView};

    ghost Value = { PoolView };

    ghost use Rattle.std.specs.Prelude.{◌≡◌, ◌≤◌, [], All, vec_len, vec_capacity};

    ghost view = { λ p. record {
      free = vec_len p.columns;
      limit = p.limit;
      capacity = p.capacity;
    } };

    ghost invariant = { λ p. (vec_len p.columns ≤ p.limit) × (p.limit ≤ vec_capacity p.columns)
        × All (λ c. c ≡ record { items = []; capacity = p.capacity }) p.columns.items };
}

impl<T: Cell> Pool<T> {
    /// A pool with no column, for at most `limit` columns with room for `capacity` cells each.
    pub fn new(alloc: Global, limit: usize, capacity: usize) -> Result<Pool<T>, AllocError>
        ensures { IfOk result (λ p. p ≡ record { free = 0; limit = limit; capacity = capacity }) }
    {
        Ok(Pool {
            columns: Vec::with_capacity(alloc, limit)?,
            limit,
            capacity,
            alloc,
        })
    }

    /// Makes columns until `n` are free. Out of memory, those that were made stay.
    pub fn refill(&mut self, n: usize) -> Result<(), AllocError>
        requires { n ≤ self.old.limit }
        ensures ok { OnOk result (self.new ≡ record self.old { free = max self.old.free n }) }
        ensures none_lost { OnErr result (self.old.free ≤ self.new.free) }
        ensures some_lack { OnErr result (self.new.free < n) }
        ensures others_stay { self.new ≡ record self.old { free = self.new.free } }
    {
        for _ in self.columns.len()..n {
            let column = Column::new(self.alloc, self.capacity)?;
            self.columns.push_reserved(column);
        }
        Ok(())
    }

    /// Takes out a free column, which is empty.
    pub fn take(&mut self) -> Option<Column<T>>
        ensures none { IsNone result ↔ (self.old.free ≡ 0) }
        ensures empty { IfSome result
            (λ c. c ≡ record { items = []; capacity = self.old.capacity }) }
        ensures left { self.new ≡ record self.old { free = self.old.free - 1 } }
    {
        self.columns.pop()
    }

    /// Takes the column back, whatever it holds. Where the limit is reached it is handed back as it
    /// came.
    pub fn give(&mut self, mut column: Column<T>) -> Option<Column<T>>
        requires { column.capacity ≡ self.old.capacity }
        ensures full { IsSome result ↔ (self.old.free ≡ self.old.limit) }
        ensures handed_back { IfSome result (λ c. (c ≡ column) × (self.new ≡ self.old)) }
        ensures kept { IfNone result (self.new ≡ record self.old { free = self.old.free + 1 }) }
    {
        if self.columns.len() == self.limit {
            return Some(column);
        }
        column.clear();
        self.columns.push_reserved(column);
        None
    }

    /// How many columns are free.
    pub fn free(&self) -> usize
        ensures free { result ≡ self.now.free }
        ensures within { self.now.free ≤ self.now.limit }
    {
        self.columns.len()
    }

    /// How many columns may be free at most.
    pub fn limit(&self) -> usize
        ensures limit { result ≡ self.now.limit }
        ensures within { self.now.free ≤ self.now.limit }
    {
        self.limit
    }

    /// How many cells each column has room for.
    pub fn capacity(&self) -> usize
        ensures { result ≡ self.now.capacity }
    {
        self.capacity
    }
}
