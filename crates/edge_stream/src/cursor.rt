// Reading the edges of a list, one after another.
ghost use Rattle.std.specs.Prelude.{◌≡◌, ◌≤◌, ◌<◌, ◌↔◌, List, [], ◌∷◌, ◌++◌, map, drop, length, All, IfSome, IsNone, IfOk, OnOk, OnErr};
ghost use Rattle.std.specs.Option.{option_to_list};
ghost use Rattle.tw_rows.specs.Cells.{datum_kind};
ghost use Rattle.tw_rows.specs.declared.edge.Edge.{Edge};
ghost use Rattle.tw_rows.specs.Kinds.{cell_kind_of};
ghost use Rattle.batch.specs.PoolsView.{IsPartTaken};
ghost use Rattle.edge_history.specs.Order.{rank, KeepsOrder};
ghost use Rattle.edge_stream.specs.Listing.{edges_in, cells_of, appended};
ghost use Rattle.edge_stream.specs.Taking.{room_taken};
ghost use Rattle.edge_stream.specs.Reading.{edges_from, IsAtEdge, AreOfKinds};
ghost use Rattle.edge_stream.specs.Shards.{shard_by};

use crate::counted::rank_of;
use crate::list::EdgeList;
use crate::shards::shard_at;
use batch::{Batch, Pools};
use std::collections::VecDeque;
use std::marker::Model;
use tw_rows::{Edge, Kind, Memory, Time};

/// Reads the edges of a list in order. Contracts see the edges that are still to come, and how the
/// cells of each column are stored.
#[derive(Drop)]
pub struct Cursor<'a> {
    batches: &'a VecDeque<Batch>,
    kinds: &'a [Kind],
    // The batch and the row of the next edge. Past the last batch there is none.
    place: usize,
    row: usize,
}

impl<'a> Model for Cursor<'a> {
    ghost use Rattle.std.specs.Prelude.{map, drop};
    ghost use Rattle.tw_rows.specs.Kinds.{cell_kind_of};
    ghost use Rattle.edge_stream.specs.Reading.{Unread, edges_from, IsReading};

    ghost Value = { Unread };

    ghost view = { λ c. record {
      edges = edges_from c.row (drop c.place c.batches.now.items);
      kinds = map cell_kind_of c.kinds.now;
    } };

    ghost invariant = { λ c. IsReading (map cell_kind_of c.kinds.now) c.batches.now.items c.place c.row };
}

// The first place at this one or later where an occupied row stands, and the place past the last
// batch where there is none.
fn next_place(batches: &VecDeque<Batch>, from_place: usize, from_row: usize) -> (usize, usize)
    ensures same { edges_from result.1 (drop result.0 batches.now.items)
        ≡ edges_from from_row (drop from_place batches.now.items) }
    ensures at { IsAtEdge batches.now.items result.0 result.1 }
{
    let mut place = from_place;
    let mut row = from_row;
    while place < batches.len() {
        match batches[place].occupancy().next_set(row) {
            Some(found) => return (place, found),
            None => {
                place += 1;
                row = 0;
            }
        }
    }
    (place, row)
}

impl<'a> Cursor<'a> {
    /// A cursor before the first edge of the batches.
    pub(crate) fn new(batches: &'a VecDeque<Batch>, kinds: &'a [Kind]) -> Cursor<'a>
        requires { AreOfKinds (map cell_kind_of kinds.now) batches.now.items }
        ensures { result ≡ record {
          edges = edges_in batches.now.items;
          kinds = map cell_kind_of kinds.now;
        } }
    {
        let (place, row) = next_place(batches, 0, 0);
        Cursor {
            batches,
            kinds,
            place,
            row,
        }
    }

    /// Goes past the next edge.
    pub(crate) fn advance(&mut self)
        ensures edges { (e : Edge) (rest : List Edge) → self.old.edges ≡ e ∷ rest →
            self.new.edges ≡ rest }
        ensures kinds { self.new.kinds ≡ self.old.kinds }
    {
        if self.place < self.batches.len() {
            // The number of rows tells the proof that the next row has a number.
            let _rows = self.batches[self.place].rows();
            let (place, row) = next_place(self.batches, self.place, self.row + 1);
            self.place = place;
            self.row = row;
        }
    }

    /// The next edge. Memory is taken only for more than 4 cells; out of memory the cursor stays where it was.
    pub fn next(&mut self) -> Result<Option<Edge>, Memory>
        ensures edges { IfOk result (λ item. self.old.edges ≡ option_to_list item
            ++ self.new.edges) }
        ensures end { IfOk result (λ item. IsNone item ↔ (self.old.edges ≡ [])) }
        ensures cells { IfOk result (λ item. IfSome item
            (λ e. map datum_kind e.cells ≡ self.old.kinds)) }
        ensures err { OnErr result (self.new.edges ≡ self.old.edges) }
        ensures kinds { self.new.kinds ≡ self.old.kinds }
    {
        if self.place >= self.batches.len() {
            return Ok(None);
        }
        let edge = self.batches[self.place].edge_at(self.row)?;
        self.advance();
        Ok(Some(edge))
    }

    /// The sync and the other time of the next edge, whose cells are left where they are.
    pub fn times(&self) -> Option<(Time, Time)>
        ensures none { IsNone result ↔ (self.now.edges ≡ []) }
        ensures sync { IfSome result (λ times. (e : Edge) (rest : List Edge) →
            self.now.edges ≡ e ∷ rest → times.0 ≡ e.sync) }
        ensures other { IfSome result (λ times. (e : Edge) (rest : List Edge) →
            self.now.edges ≡ e ∷ rest → times.1 ≡ e.other) }
    {
        if self.place >= self.batches.len() {
            return None;
        }
        let batch = &self.batches[self.place];
        Some((batch.sync_at(self.row), batch.other_at(self.row)))
    }

    /// The rank of the next edge: twice its sync time, and one more where it is a start. So ranks are
    /// in the order of a list.
    pub fn rank(&self) -> Option<u64>
        ensures none { IsNone result ↔ (self.now.edges ≡ []) }
        ensures rank { IfSome result (λ r. (e : Edge) (rest : List Edge) →
            self.now.edges ≡ e ∷ rest → r ≡ rank e) }
    {
        let (sync, other) = self.times()?;
        Some(rank_of(sync, other))
    }

    /// The number of the shard of the next edge, of so many.
    pub(crate) fn shard(&self, count: usize, key: &[usize]) -> Option<usize>
        requires count { 1 ≤ count }
        requires key { All (λ column. column < length self.now.kinds) key.now }
        ensures none { IsNone result ↔ (self.now.edges ≡ []) }
        ensures shard { IfSome result (λ number. (e : Edge) (rest : List Edge) →
            self.now.edges ≡ e ∷ rest → number ≡ shard_by count key.now e.cells) }
    {
        if self.place >= self.batches.len() {
            return None;
        }
        Some(shard_at(&self.batches[self.place], self.row, count, key))
    }

    /// Adds the next edge last to a list of the same kinds, and goes past it. Memory is taken only
    /// where the list's last batch is full; out of memory nothing changes but the pools. Where no edge
    /// is left, nothing changes.
    pub fn copy_next(&mut self, pools: &mut Pools, to: &mut EdgeList) -> Result<(), Memory>
        requires kinds { self.old.kinds ≡ cells_of to.old }
        requires capacity { pools.old.capacity ≡ to.old.capacity }
        requires order { (e : Edge) (rest : List Edge) → self.old.edges ≡ e ∷ rest →
            KeepsOrder (to.old.edges ++ e ∷ []) }
        ensures ok { OnOk result ((e : Edge) (rest : List Edge) → self.old.edges ≡ e ∷ rest →
            to.new ≡ appended to.old e) }
        ensures rest { OnOk result ((e : Edge) (rest : List Edge) → self.old.edges ≡ e ∷ rest →
            self.new.edges ≡ rest) }
        ensures pools { OnOk result ((e : Edge) (rest : List Edge) → self.old.edges ≡ e ∷ rest →
            pools.new ≡ room_taken to.old pools.old) }
        ensures err { OnErr result ((to.new ≡ to.old) × (self.new.edges ≡ self.old.edges)) }
        ensures err_pools { OnErr result (IsPartTaken pools.old pools.new (cells_of to.old)) }
        ensures kinds { self.new.kinds ≡ self.old.kinds }
        ensures end { self.old.edges ≡ [] → OnOk result
            ((to.new ≡ to.old) × (pools.new ≡ pools.old) × (self.new.edges ≡ [])) }
    {
        if self.place < self.batches.len() {
            to.append_row(pools, &self.batches[self.place], self.row)?;
            self.advance();
        }
        Ok(())
    }
}
