// A list of cells whose room is made once.
ghost use Rattle.std.specs.Prelude.{drop, ◌≡◌, ◌+◌, ◌<◌, ◌≤◌, [], ◌∷◌, ◌++◌, length, slice_get, slice_set, Some, IfOk, IsTrue, ◌↔◌};

use crate::cell::Cell;
use std::alloc::{AllocError, Global};
use std::marker::Model;

/// A list of cells with room for a number of them that is chosen at the start. Only `new` takes
/// memory. Contracts see it as its cells and its capacity.
#[derive(Drop)]
pub struct Column<T: Cell> {
    items: Vec<T>,
    // How many cells there is room for, as asked for.
    capacity: usize,
}

impl<T: Cell> Model for Column<T> {
    ghost use Rattle.std.specs.Prelude.{◌≤◌, vec_len, vec_capacity};
    ghost use Rattle.column_pool.specs.Contents.{Contents, contents_code};

    ghost Value = { Contents T };

    ghost coded = { contents_code T.code };

    ghost view = { λ c. record { items = c.items.items; capacity = c.capacity } };

    ghost invariant = { λ c. (vec_len c.items ≤ c.capacity) × (c.capacity ≤ vec_capacity c.items) };
}

impl<T: Cell> Column<T> {
    /// An empty column with room for `capacity` cells.
    pub fn new(alloc: Global, capacity: usize) -> Result<Column<T>, AllocError>
        ensures { IfOk result (λ c. c ≡ record { items = []; capacity = capacity }) }
    {
        Ok(Column {
            items: Vec::with_capacity(alloc, capacity)?,
            capacity,
        })
    }

    /// An empty column with room for no cell, which takes no memory.
    pub fn without_room(alloc: Global) -> Column<T>
        ensures { result ≡ record { items = []; capacity = 0 } }
    {
        Column {
            items: Vec::new(alloc),
            capacity: 0,
        }
    }

    /// Adds the cell last.
    pub fn push(&mut self, item: T)
        requires { length self.old.items < self.old.capacity }
        ensures { self.new ≡ record self.old { items = self.old.items ++ item ∷ [] } }
    {
        self.items.push_reserved(item);
    }

    /// Adds the cells last, in order, as one copy of memory.
    pub fn extend(&mut self, items: &[T])
        requires { length self.old.items + length items.now ≤ self.old.capacity }
        ensures { self.new ≡ record self.old { items = self.old.items ++ items.now } }
    {
        // There is room, so no memory is taken and this does not fail.
        let _ = self.items.extend_from_slice(items);
    }

    /// The cell at the place `i`.
    pub fn get(&self, i: usize) -> T
        requires { i < length self.now.items }
        ensures { slice_get self.now.items i ≡ Some result }
    {
        self.items[i]
    }

    /// Writes the cell at the place `i`.
    pub fn set(&mut self, i: usize, item: T)
        requires { i < length self.old.items }
        ensures { self.new ≡ record self.old { items = slice_set self.old.items i item } }
    {
        self.items[i] = item;
    }

    /// The cells in order.
    pub fn as_slice(&self) -> &[T]
        ensures { result.now ≡ self.now.items }
    {
        &self.items
    }

    /// How many cells the column holds.
    pub fn len(&self) -> usize
        ensures len { result ≡ length self.now.items }
        ensures within { length self.now.items ≤ self.now.capacity }
    {
        self.items.len()
    }

    /// Tells whether the column holds no cell.
    pub fn is_empty(&self) -> bool
        ensures { IsTrue result ↔ (self.now.items ≡ []) }
    {
        self.items.is_empty()
    }

    /// How many cells there is room for in all.
    pub fn capacity(&self) -> usize
        ensures capacity { result ≡ self.now.capacity }
        ensures within { length self.now.items ≤ self.now.capacity }
    {
        self.capacity
    }

    /// Takes the first `count` cells out, and leaves the room as it was.
    pub fn remove_first(&mut self, count: usize)
        requires { count ≤ length self.old.items }
        ensures { self.new ≡ record self.old { items = drop count self.old.items } }
    {
        self.items.copy_within(count.., 0);
        self.items.truncate(self.items.len() - count);
    }

    /// Leaves no cell, and the room as it was.
    pub fn clear(&mut self)
        ensures { self.new ≡ record self.old { items = [] } }
    {
        self.items.clear();
    }
}
