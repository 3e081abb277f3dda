// The list of edges in batches: made, added to, cut at a time, read and given back.
ghost use Rattle.std.specs.Prelude.{◌≡◌, ◌+◌, ◌-◌, ◌^◌, min, ◌<◌, ◌≤◌, ◌↔◌, true, [], ◌∷◌, ◌++◌};
ghost use Rattle.std.specs.Prelude.{length, map, filter, slice_get, Some, IsNone, IfNone, IfSome};
ghost use Rattle.std.specs.Prelude.{IsErr, IfErr, IfOk, OnOk, OnErr};
ghost use Rattle.tw_rows.specs.Kinds.{cell_kind_of};
ghost use Rattle.tw_rows.specs.Cells.{datum_kind};
ghost use Rattle.batch.specs.Rows.{Row, edge_of, edges_of};
ghost use Rattle.batch.specs.PoolsView.{batch_taken, IsPartTaken};
ghost use Rattle.edge_history.specs.Order.{is_below, is_from, KeepsOrder};
ghost use Rattle.edge_stream.specs.Listing.{cells_of, edges_in, opened, with_room, appended, SameShape};
ghost use Rattle.edge_stream.specs.Lists.{no_edges};
ghost use Rattle.edge_stream.specs.Taking.{room_taken, batches_taken, batches_given};

use crate::cursor::Cursor;
use crate::cut::{batches_below, move_front, part_at};
use crate::last::{copy_last, push_last, room};
use batch::{Batch, Pools};
use std::alloc::Global;
use std::collections::VecDeque;
use std::error::Error;
use std::fmt;
use std::marker::Model;
use tw_rows::{Datum, Edge, Kind, Memory, Time};

/// Edges in order, in batches of one capacity. At one sync time end edges stand first. Contracts see
/// the edges, the kinds of the columns, the capacity, how many batches there are, and how many rows
/// more the last one takes. A batch may hold no edge. Pools that are handed to its calls have its
/// capacity.
pub struct EdgeList {
    pub(crate) batches: VecDeque<Batch>,
    pub(crate) kinds: Vec<Kind>,
    pub(crate) capacity: usize,
    pub(crate) alloc: Global,
}

// By hand, so that crates that let one go cite this and not the destructors of its parts.
impl Drop for EdgeList {
    fn drop(self) {
        let EdgeList {
            batches: _batches,
            kinds: _kinds,
            capacity: _,
            alloc: _,
        } = self;
    }
}

impl Model for EdgeList {
    ghost use Rattle.std.specs.Prelude.{map, length};
    ghost use Rattle.tw_rows.specs.Kinds.{cell_kind_of};
    ghost use Rattle.edge_stream.specs.Listing.{EdgeListView, edges_in, last_room, IsListing};

    ghost Value = { EdgeListView };

    ghost view = { λ l. record {
      edges = edges_in l.batches.items;
      kinds = l.kinds.items;
      capacity = l.capacity;
      batches = length l.batches.items;
      room = last_room l.batches.items;
    } };

    ghost invariant = { λ l. IsListing (map cell_kind_of l.kinds.items) l.capacity l.batches.items };
}

/// Out of memory for one batch more, which comes back as it was.
#[derive(Drop)]
pub struct Refused {
    pub batch: Batch,
}

impl fmt::Debug for Refused {
    fn fmt<W: fmt::Write>(&self, f: &mut fmt::Formatter<W>) -> fmt::Result {
        write!(f, "Refused")
    }
}

impl fmt::Display for Refused {
    fn fmt<W: fmt::Write>(&self, f: &mut fmt::Formatter<W>) -> fmt::Result {
        write!(f, "no memory for one batch more")
    }
}

impl Error for Refused {}

// How many edges the batches hold, or the greatest number where there are more.
fn count(batches: &VecDeque<Batch>) -> u64
    ensures { result ≡ min (length (edges_in batches.now.items)) (2 ^ 64 - 1) }
{
    let mut len: u64 = 0;
    for place in 0..batches.len() {
        len = len.saturating_add(batches[place].occupied() as u64);
    }
    len
}

impl EdgeList {
    /// A list with no edge, for batches of that capacity.
    pub fn new(alloc: Global, kinds: &[Kind], capacity: usize) -> Result<EdgeList, Memory>
        requires width { length kinds.now ≤ 32 }
        requires room { 1 ≤ capacity }
        ensures { IfOk result (λ list. list ≡ no_edges kinds.now capacity) }
    {
        Ok(EdgeList {
            batches: VecDeque::new(alloc),
            kinds: Vec::from_slice(alloc, kinds)?,
            capacity,
            alloc,
        })
    }

    /// The kinds of the columns.
    pub fn kinds(&self) -> &[Kind]
        ensures kinds { result.now ≡ self.now.kinds }
        ensures width { length result.now ≤ 32 }
    {
        &self.kinds
    }

    /// How many rows each batch has room for.
    pub fn capacity(&self) -> usize
        ensures capacity { result ≡ self.now.capacity }
        ensures room { 1 ≤ self.now.capacity }
    {
        self.capacity
    }

    /// How many batches there are.
    pub fn batches(&self) -> usize
        ensures { result ≡ self.now.batches }
    {
        self.batches.len()
    }

    /// How many edges there are, or the greatest number where there are more. It goes through the
    /// batches.
    pub fn len(&self) -> u64
        ensures { result ≡ min (length self.now.edges) (2 ^ 64 - 1) }
    {
        count(&self.batches)
    }

    // Opens a batch where the last one is full.
    fn make_room(&mut self, pools: &mut Pools) -> Result<(), Memory>
        requires { pools.old.capacity ≡ self.old.capacity }
        ensures ok { OnOk result (self.new ≡ with_room self.old) }
        ensures room { OnOk result (0 < self.new.room) }
        ensures pools { OnOk result (pools.new ≡ room_taken self.old pools.old) }
        ensures err { OnErr result (self.new ≡ self.old) }
        ensures err_pools { OnErr result (IsPartTaken pools.old pools.new (cells_of self.old)) }
        ensures full { IsErr result → self.old.room ≡ 0 }
    {
        if room(&self.batches) > 0 {
            Ok(())
        } else {
            self.open_batch(pools)
        }
    }

    // Opens a batch, whatever room the last one has. It is a function of its own since a call clears
    // the memory of all its locals, and a batch is large.
    #[inline(never)]
    pub(crate) fn open_batch(&mut self, pools: &mut Pools) -> Result<(), Memory>
        requires { pools.old.capacity ≡ self.old.capacity }
        ensures ok { OnOk result (self.new ≡ opened self.old) }
        ensures pools { OnOk result (pools.new ≡ batch_taken pools.old (cells_of self.old)) }
        ensures err { OnErr result (self.new ≡ self.old) }
        ensures err_pools { OnErr result (IsPartTaken pools.old pools.new (cells_of self.old)) }
    {
        let batch = Batch::new(self.alloc, pools, &self.kinds)?;
        self.batches.push_back(batch)?;
        Ok(())
    }

    /// Adds the edge last. Memory is taken only where the last batch is full; out of memory nothing
    /// changes but the pools.
    pub fn append(&mut self, pools: &mut Pools, edge: &Edge) -> Result<(), Memory>
        requires capacity { pools.old.capacity ≡ self.old.capacity }
        requires kinds { map datum_kind edge.now.cells ≡ cells_of self.old }
        requires order { KeepsOrder (self.old.edges ++ edge.now ∷ []) }
        ensures ok { OnOk result (self.new ≡ appended self.old edge.now) }
        ensures pools { OnOk result (pools.new ≡ room_taken self.old pools.old) }
        ensures err { OnErr result (self.new ≡ self.old) }
        ensures err_pools { OnErr result (IsPartTaken pools.old pools.new (cells_of self.old)) }
        ensures full { IsErr result → self.old.room ≡ 0 }
    {
        self.append_cells(pools, edge.sync, edge.other, edge.cells.items())
    }

    /// Adds the edge of these times and cells last, as `append` adds an edge.
    pub fn append_cells(
        &mut self,
        pools: &mut Pools,
        sync: Time,
        other: Time,
        cells: &[Datum],
    ) -> Result<(), Memory>
        requires capacity { pools.old.capacity ≡ self.old.capacity }
        requires kinds { map datum_kind cells.now ≡ cells_of self.old }
        requires order { KeepsOrder (self.old.edges
            ++ record { sync = sync; other = other; cells = cells.now } ∷ []) }
        ensures ok { OnOk result (self.new ≡ appended self.old
            (record { sync = sync; other = other; cells = cells.now })) }
        ensures pools { OnOk result (pools.new ≡ room_taken self.old pools.old) }
        ensures err { OnErr result (self.new ≡ self.old) }
        ensures err_pools { OnErr result (IsPartTaken pools.old pools.new (cells_of self.old)) }
        ensures full { IsErr result → self.old.room ≡ 0 }
    {
        self.make_room(pools)?;
        push_last(&mut self.batches, sync, other, cells);
        Ok(())
    }

    /// Adds the edge in the row `i` of a batch last, as `append` adds an edge.
    pub(crate) fn append_row(
        &mut self,
        pools: &mut Pools,
        batch: &Batch,
        i: usize,
    ) -> Result<(), Memory>
        requires capacity { pools.old.capacity ≡ self.old.capacity }
        requires kinds { batch.now.kinds ≡ cells_of self.old }
        requires place { i < length batch.now.rows }
        requires occupied { (r : Row) → slice_get batch.now.rows i ≡ Some r → r.occupied ≡ true }
        requires order { (r : Row) → slice_get batch.now.rows i ≡ Some r →
            KeepsOrder (self.old.edges ++ edge_of r ∷ []) }
        ensures ok { OnOk result ((r : Row) → slice_get batch.now.rows i ≡ Some r →
            self.new ≡ appended self.old (edge_of r)) }
        ensures pools { OnOk result (pools.new ≡ room_taken self.old pools.old) }
        ensures err { OnErr result (self.new ≡ self.old) }
        ensures err_pools { OnErr result (IsPartTaken pools.old pools.new (cells_of self.old)) }
    {
        self.make_room(pools)?;
        copy_last(&mut self.batches, batch, i);
        Ok(())
    }

    /// Takes out the edges whose sync time is below `t`. At most one batch is copied, and only its
    /// later rows. Out of memory nothing changes but the pools.
    pub fn split_below(&mut self, pools: &mut Pools, t: Time) -> Result<EdgeList, Memory>
        requires { pools.old.capacity ≡ self.old.capacity }
        ensures below { IfOk result (λ front. front.edges ≡ filter (is_below t) self.old.edges) }
        ensures rest { OnOk result (self.new.edges ≡ filter (is_from t) self.old.edges) }
        ensures whole { IfOk result (λ front. front.edges ++ self.new.edges ≡ self.old.edges) }
        ensures batches { IfOk result
            (λ front. (self.old.batches ≤ front.batches + self.new.batches)
            × (front.batches + self.new.batches ≤ self.old.batches + 1)) }
        ensures pools { IfOk result (λ front. pools.new
            ≡ batches_taken (front.batches + self.new.batches - self.old.batches) pools.old
            (cells_of self.old)) }
        ensures err { OnErr result (self.new ≡ self.old) }
        ensures err_pools { OnErr result (IsPartTaken pools.old pools.new (cells_of self.old)) }
        ensures alike { IfOk result (λ front. SameShape self.old front) }
        ensures shape { SameShape self.old self.new }
    {
        let whole = batches_below(&self.batches, t);
        let mut front = VecDeque::with_capacity(self.alloc, whole + 1)?;
        let kinds = Vec::from_slice(self.alloc, &self.kinds)?;
        let part = part_at(self.alloc, pools, &self.kinds, &mut self.batches, whole, t)?;
        move_front(&mut self.batches, whole, &mut front);
        if let Some(batch) = part {
            front.push_back_reserved(batch);
        }
        Ok(EdgeList {
            batches: front,
            kinds,
            capacity: self.capacity,
            alloc: self.alloc,
        })
    }

    /// Takes out the first batch.
    pub fn take_batch(&mut self) -> Option<Batch>
        ensures none { IsNone result ↔ (self.old.batches ≡ 0) }
        ensures empty { IfNone result (self.old.edges ≡ []) }
        ensures unchanged { IfNone result (self.new ≡ self.old) }
        ensures edges { IfSome result (λ batch.
            self.old.edges ≡ edges_of batch.rows ++ self.new.edges) }
        ensures batches { IfSome result (λ batch. self.new.batches + 1 ≡ self.old.batches) }
        ensures kinds { IfSome result (λ batch. batch.kinds ≡ cells_of self.old) }
        ensures capacity { IfSome result (λ batch. batch.capacity ≡ self.old.capacity) }
        ensures shape { SameShape self.old self.new }
    {
        self.batches.pop_front()
    }

    /// Puts the batch last. Out of memory it is handed back, and the list is as it was.
    pub fn put_batch(&mut self, batch: Batch) -> Result<(), Refused>
        requires kinds { batch.kinds ≡ cells_of self.old }
        requires capacity { batch.capacity ≡ self.old.capacity }
        requires order { KeepsOrder (self.old.edges ++ edges_of batch.rows) }
        ensures ok { OnOk result (self.new
            ≡ record self.old {
              edges = self.old.edges
                  ++ edges_of batch.rows;
              batches = self.old.batches + 1;
              room = self.old.capacity - length batch.rows;
            }) }
        ensures batch { IfErr result (λ refused. refused.batch ≡ batch) }
        ensures err { OnErr result (self.new ≡ self.old) }
    {
        if let Err(failed) = self.batches.push_back(batch) {
            return Err(Refused {
                batch: failed.value,
            });
        }
        Ok(())
    }

    /// A cursor before the first edge.
    pub fn cursor(&self) -> Cursor<'_>
        ensures cursor { result ≡ record { edges = self.now.edges; kinds = cells_of self.now } }
        ensures order { KeepsOrder self.now.edges }
    {
        Cursor::new(&self.batches, &self.kinds)
    }

    /// Gives the columns of all batches back to pools of their capacity.
    pub fn give_back(mut self, pools: &mut Pools)
        requires { pools.old.capacity ≡ self.capacity }
        ensures { pools.new ≡ batches_given self.batches pools.old (cells_of self) }
    {
        while let Some(batch) = self.take_batch() {
            batch.give_back(pools);
        }
    }
}
