// How many edges of a list come before a time, and which one comes first after it.
ghost use Rattle.std.specs.Prelude.{◌≡◌, ◌+◌, ◌-◌, ◌<◌, ◌≤◌, true, false, [], take, drop, length};
ghost use Rattle.std.specs.Prelude.{filter, IfSome, IsNone, IsTrue};
ghost use Rattle.std.specs.List.{list_all};
ghost use Rattle.tw_rows.specs.declared.edge.Edge.{Edge};
ghost use Rattle.batch.specs.Rows.{edges_of};
ghost use Rattle.edge_history.specs.Order.{KeepsOrder, Rises, rank, many, is_below, is_from};
ghost use Rattle.edge_stream.specs.Listing.{edges_in};
ghost use Rattle.edge_stream.specs.Reading.{first_sync, last_rank};

use crate::list::EdgeList;
use batch::Batch;
use std::collections::VecDeque;
use tw_rows::Time;

/// A row before which all edges of the batch come before `t`, and from which on they come at `t` or
/// later. It is found by halving.
pub(crate) fn row_from(batch: &Batch, t: Time) -> usize
    ensures within { result ≤ length batch.now.rows }
    ensures room { result ≤ batch.now.capacity }
    ensures below { Rises 0 (edges_of batch.now.rows) →
        list_all (is_below t) (edges_of (take result batch.now.rows)) ≡ true }
    ensures from { Rises 0 (edges_of batch.now.rows) →
        list_all (is_from t) (edges_of (drop result batch.now.rows)) ≡ true }
{
    let mut low = 0;
    let mut high = batch.rows();
    'halves: while low < high {
        let middle = low + (high - low) / 2;
        match batch.occupancy().next_set(middle) {
            Some(row) if row < high && batch.sync_at(row) < t => low = row + 1,
            _ => high = middle,
        }
    }
    low
}

/// Whether a row of the batch from this one on holds an edge.
pub(crate) fn has_rest(batch: &Batch, row: usize) -> bool
    ensures some { IsTrue result → (edges_of (drop row batch.now.rows) ≡ []) → ⊥ }
    ensures none { result ≡ false → edges_of (drop row batch.now.rows) ≡ [] }
{
    batch.occupancy().next_set(row).is_some()
}

// How many edges stand in the rows of a batch from one on and before another.
fn edges_between(batch: &Batch, from: usize, to: usize) -> usize
    requires from { from ≤ length batch.now.rows }
    requires to { to ≤ length batch.now.rows }
    ensures { result ≡ length (edges_of (take to batch.now.rows))
        - length (edges_of (take from batch.now.rows)) }
{
    // mostly all rows hold one
    if batch.occupied() == batch.rows() {
        return to.saturating_sub(from);
    }
    let mut count = 0;
    for i in from..to {
        if batch.occupancy().is_set(i) {
            count += 1;
        }
    }
    count
}

// How many edges of a batch come at `from` or later and before `to`, and whether one comes after them.
fn count_in(batch: &Batch, from: Time, to: Time) -> (usize, bool)
    requires { from ≤ to }
    ensures count { Rises 0 (edges_of batch.now.rows) →
        many (is_below from) (edges_of batch.now.rows) + result.0
        ≡ many (is_below to) (edges_of batch.now.rows) }
    ensures later { Rises 0 (edges_of batch.now.rows) → IsTrue result.1 →
        list_all (is_below to) (edges_of batch.now.rows) ≡ false }
{
    let end = row_from(batch, to);
    let count = edges_between(batch, row_from(batch, from), end);
    (count, has_rest(batch, end))
}

// What is left of `room` once the edges of the batches from `from` on and before `to` have taken a
// place each. None where they are more.
fn left_of(batches: &VecDeque<Batch>, from: Time, to: Time, room: usize) -> Option<usize>
    requires order { from ≤ to }
    requires rises { Rises 0 (edges_in batches.now.items) }
    ensures some { IfSome result (λ rest. many (is_below to) (edges_in batches.now.items) + rest
        ≡ many (is_below from) (edges_in batches.now.items) + room) }
    ensures none { IsNone result → many (is_below from) (edges_in batches.now.items) + room
        < many (is_below to) (edges_in batches.now.items) }
{
    let mut rest = room;
    for place in 0..batches.len() {
        let (count, later) = count_in(&batches[place], from, to);
        rest = rest.checked_sub(count)?;
        if later {
            return Some(rest);
        }
    }
    Some(rest)
}

// The sync of the first edge of a batch that comes at `t` or later.
fn first_in(batch: &Batch, t: Time) -> Option<Time>
    ensures { Rises 0 (edges_of batch.now.rows) →
        result ≡ first_sync (filter (is_from t) (edges_of batch.now.rows)) }
{
    let row = batch.occupancy().next_set(row_from(batch, t))?;
    Some(batch.sync_at(row))
}

// The sync of the first edge of the batches that comes at `t` or later.
fn first_of(batches: &VecDeque<Batch>, t: Time) -> Option<Time>
    requires { Rises 0 (edges_in batches.now.items) }
    ensures { result ≡ first_sync (filter (is_from t) (edges_in batches.now.items)) }
{
    for place in 0..batches.len() {
        if let Some(sync) = first_in(&batches[place], t) {
            return Some(sync);
        }
    }
    None
}

// The rank of the last edge of a batch.
fn last_in(batch: &Batch) -> Option<u64>
    ensures { result ≡ last_rank (edges_of batch.now.rows) }
{
    for i in (0..batch.rows()).rev() {
        if batch.occupancy().is_set(i) {
            return Some(rank_of(batch.sync_at(i), batch.other_at(i)));
        }
    }
    None
}

// The rank of the last edge of the batches.
fn last_of(batches: &VecDeque<Batch>) -> Option<u64>
    ensures { result ≡ last_rank (edges_in batches.now.items) }
{
    for place in (0..batches.len()).rev() {
        if let Some(rank) = last_in(&batches[place]) {
            return Some(rank);
        }
    }
    None
}

/// The rank of the edge with these times: twice its sync time, and one more where it is a start.
pub(crate) fn rank_of(sync: Time, other: Time) -> u64
    ensures { (e : Edge) → e.sync ≡ sync → e.other ≡ other → result ≡ rank e }
{
    let twice = 2 * sync.word();
    if other < sync { twice } else { twice + 1 }
}

impl EdgeList {
    /// What is left of `room` once the edges from `from` on and before `to` have taken a place each. None
    /// where they are more. It looks at no batch after those edges.
    pub fn room_left(&self, from: Time, to: Time, room: usize) -> Option<usize>
        requires { from ≤ to }
        ensures some { IfSome result (λ rest. many (is_below to) self.now.edges + rest
            ≡ many (is_below from) self.now.edges + room) }
        ensures none { IsNone result →
            many (is_below from) self.now.edges + room < many (is_below to) self.now.edges }
    {
        left_of(&self.batches, from, to, room)
    }

    /// The sync of the first edge that comes at `t` or later.
    pub fn first_from(&self, t: Time) -> Option<Time>
        ensures sync { result ≡ first_sync (filter (is_from t) self.now.edges) }
        ensures order { KeepsOrder self.now.edges }
    {
        first_of(&self.batches, t)
    }

    /// The rank of the last edge.
    pub fn last_rank(&self) -> Option<u64>
        ensures rank { result ≡ last_rank self.now.edges }
        ensures order { KeepsOrder self.now.edges }
    {
        last_of(&self.batches)
    }
}
