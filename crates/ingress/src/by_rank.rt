// Edges by rank, each of which comes in logarithmic time wherever its place is.
ghost use Rattle.std.specs.Prelude.{◌≡◌, ◌+◌, ◌-◌, ◌*◌, ◌^◌, ◌<◌, ◌≤◌, min, length, get_or};
ghost use Rattle.std.specs.Prelude.{filter, true, false, IsTrue, IfSome, IsNone, OnOk, OnErr, List, []};
ghost use Rattle.std.specs.Prelude.{◌∷◌, ◌++◌};
ghost use Rattle.tw_rows.specs.Instant.{inf};
ghost use Rattle.tw_rows.specs.Bag.{SameBag};
ghost use Rattle.tw_rows.specs.declared.cells.Datum.{Datum};
ghost use Rattle.tw_rows.specs.declared.edge.Edge.{Edge};
ghost use Rattle.edge_history.specs.Order.{rank, many, failing, starts_it, is_below, is_from, KeepsOrder};
ghost use Rattle.edge_stream.specs.Listing.{cells_of, SameShape};
ghost use Rattle.ingress.specs.Fits.{is_fit};
ghost use Rattle.ingress.specs.Held.{edge_with};
ghost use Rattle.ingress.specs.Ranks.{is_up_to, is_between, TakesBatches, SamePools, IsShorterBelow, StartsFrom};

use batch::Pools;
use edge_stream::EdgeList;
use std::alloc::Global;
use std::collections::BTreeMap;
use std::marker::Model;
use tw_rows::{Cells, Edge, Memory, Time, same_cells};

/// Edges in the order of their ranks. An edge is added in logarithmic time.
#[derive(Drop)]
pub struct ByRank {
    pub(crate) ranks: BTreeMap<u64, Vec<Edge>>,
    alloc: Global,
}

impl Model for ByRank {
    ghost use Rattle.std.specs.Prelude.{List};
    ghost use Rattle.tw_rows.specs.declared.edge.Edge.{Edge as Item};
    ghost use Rattle.ingress.specs.Ranks.{edges_at, AreRanked};

    ghost Value = { List Item };

    ghost view = { λ w. edges_at w.ranks.entries };

    ghost invariant = { λ w. AreRanked 0 w.ranks.entries };
}

// Twice the number of a time, which is the rank of the ends there.
#[tactic(auto, unfolding(tw_rows::specs::Instant::inf))]
pub(crate) fn end_rank(t: Time) -> u64
    ensures rank { result ≡ 2 * t }
    ensures small { result < 2 ^ 63 }
{
    t.word() * 2
}

// The rank of an edge of these times: by its sync, and at one sync the ends first.
pub(crate) fn rank_between(sync: Time, other: Time) -> u64
    ensures { (cells : List Datum) → result ≡ rank (edge_with sync other cells) }
{
    let ends = end_rank(sync);
    if other < sync { ends } else { ends + 1 }
}

// The rank of an edge.
pub(crate) fn rank_of(edge: &Edge) -> u64
    ensures { result ≡ rank edge.now }
{
    rank_between(edge.sync, edge.other)
}

// Whether it is the start edge of these cells at that time.
#[tactic(auto, unfolding(tw_rows::specs::Instant::inf))]
pub(crate) fn is_start_of(edge: &Edge, cells: &Cells, start: Time) -> bool
    ensures { result ≡ starts_it cells.now start edge.now }
{
    edge.other == Time::INF
        && !edge.is_end()
        && same_cells(&edge.cells, cells)
        && edge.sync == start
}

// The place of a start edge of these cells, if there is one.
fn start_place(edges: &[Edge], cells: &Cells, start: Time) -> Option<usize>
    ensures within { IfSome result (λ i. i < length edges.now) }
    ensures some { IfSome result (λ i. (d : Edge) →
        starts_it cells.now start (get_or edges.now i d) ≡ true) }
    ensures none { IsNone result → (many (starts_it cells.now start) edges.now ≡ 0) }
{
    for i in 0..edges.len() {
        if is_start_of(&edges[i], cells, start) {
            return Some(i);
        }
    }
    None
}

// Takes one start edge of these cells out, if there is one.
fn remove_start(edges: &mut Vec<Edge>, cells: &Cells, start: Time) -> bool
    ensures taken { IsTrue result → SameBag
        (record { sync = start; other = inf; cells = cells.now } ∷ edges.new.items) edges.old.items }
    ensures kept { result ≡ false → edges.new.items ≡ edges.old.items }
    ensures none { result ≡ false → many (starts_it cells.now start) edges.old.items ≡ 0 }
{
    match start_place(edges, cells, start) {
        Some(place) => {
            edges.remove(place);
            true
        }
        None => false,
    }
}

fn count(edges: &[Edge]) -> u64
    ensures { result ≡ length edges.now }
{
    edges.len() as u64
}

impl ByRank {
    /// No edge.
    pub fn new(alloc: Global) -> ByRank
        ensures { result ≡ [] }
    {
        ByRank {
            ranks: BTreeMap::new(alloc),
            alloc,
        }
    }

    /// Adds an edge.
    pub fn put(&mut self, edge: Edge) -> Result<(), Memory>
        ensures ok { OnOk result (SameBag self.new (edge ∷ self.old)) }
        ensures err { OnErr result (self.new ≡ self.old) }
    {
        let rank = rank_of(&edge);
        if let Some(edges) = self.ranks.get_mut(&rank) {
            edges.push(edge)?;
            return Ok(());
        }
        // most times have one edge
        let mut edges = Vec::with_capacity(self.alloc, 1)?;
        edges.push(edge)?;
        self.ranks.insert(rank, edges)?;
        Ok(())
    }

    /// How many edges are pending, or the greatest number where there are more. It goes through their times.
    pub fn len(&self) -> u64
        ensures { result ≡ min (length self.now) (2 ^ 64 - 1) }
    {
        let mut len: u64 = 0;
        for (_, edges) in self.ranks.iter() {
            len = len.saturating_add(count(edges));
        }
        len
    }

    /// Takes a start edge out, if it is there. Only the edges that start at that time are looked at.
    pub fn take_out(&mut self, cells: &Cells, start: Time) -> bool
        ensures taken { IsTrue result → SameBag
            (record { sync = start; other = inf; cells = cells.now } ∷ self.new) self.old }
        ensures kept { result ≡ false → self.new ≡ self.old }
        ensures none { result ≡ false → many (starts_it cells.now start) self.old ≡ 0 }
    {
        let rank = end_rank(start) + 1;
        if let Some(edges) = self.ranks.get_mut(&rank) {
            return remove_start(edges, cells, start);
        }
        false
    }

    /// Adds copies of the edges of the ranks from `from` on and below `to` to a list of edges up to `from`, in order. Out of
    /// memory changes the list and the pools alone. It is asked between any two edges of a queue, where mostly there are none.
    #[inline(always)]
    pub fn append_between(
        &self,
        pools: &mut Pools,
        from: u64,
        to: u64,
        list: &mut EdgeList,
    ) -> Result<(), Memory>
        requires capacity { pools.old.capacity ≡ list.old.capacity }
        requires rises { from ≤ to }
        requires order { KeepsOrder list.old.edges }
        requires low { failing (is_up_to from) list.old.edges ≡ 0 }
        requires fit { failing (is_fit (cells_of list.old)) self.now ≡ 0 }
        ensures ok { OnOk result (list.new.edges ≡ list.old.edges
            ++ filter (is_between from to) self.now) }
        ensures order { OnOk result (KeepsOrder list.new.edges) }
        ensures high { OnOk result (failing (is_up_to to) list.new.edges ≡ 0) }
        ensures shape { SameShape list.old list.new }
        ensures taken { OnOk result (TakesBatches list.old pools.old list.new pools.new) }
        ensures pools { SamePools pools.old pools.new }
    {
        if self.ranks.is_empty() {
            return Ok(());
        }
        for (_, edges) in self.ranks.range(from..to) {
            append_all(pools, edges, list)?;
        }
        Ok(())
    }

    /// Whether an edge comes before `t`.
    pub fn has_below(&self, t: Time) -> bool
        ensures { result ≡ false → filter (is_below t) self.now ≡ [] }
    {
        match self.ranks.first_key_value() {
            Some((rank, _)) => *rank < end_rank(t),
            None => false,
        }
    }

    /// Takes the edges before `t` out.
    pub fn drop_below(&mut self, t: Time)
        ensures { self.new ≡ filter (is_from t) self.old }
    {
        let end = end_rank(t);
        'ranks: while drop_first_below(&mut self.ranks, end) {}
    }
}

// Adds copies of edges to the end of a list.
fn append_all(pools: &mut Pools, edges: &[Edge], list: &mut EdgeList) -> Result<(), Memory>
    requires capacity { pools.old.capacity ≡ list.old.capacity }
    requires order { KeepsOrder (list.old.edges ++ edges.now) }
    requires fit { failing (is_fit (cells_of list.old)) edges.now ≡ 0 }
    ensures ok { OnOk result (list.new.edges ≡ list.old.edges ++ edges.now) }
    ensures shape { SameShape list.old list.new }
    ensures taken { OnOk result (TakesBatches list.old pools.old list.new pools.new) }
    ensures pools { SamePools pools.old pools.new }
{
    for edge in edges {
        list.append(pools, edge)?;
    }
    Ok(())
}

// Takes the first rank out, where it is below `end`.
fn drop_first_below(ranks: &mut BTreeMap<u64, Vec<Edge>>, end: u64) -> bool
    ensures taken { IsTrue result → IsShorterBelow end ranks.old.entries ranks.new.entries }
    ensures none { result ≡ false → (ranks.new.entries ≡ ranks.old.entries)
        × StartsFrom end ranks.old.entries }
{
    let Some((rank, _)) = ranks.first_key_value() else {
        return false;
    };
    if end <= *rank {
        return false;
    }
    ranks.pop_first();
    true
}
