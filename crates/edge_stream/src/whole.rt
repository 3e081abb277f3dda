// Lists that are made whole: from edges, as a copy, and from two lists.
ghost use Rattle.std.specs.Prelude.{◌≡◌, ◌≤◌, ◌+◌, ◌↔◌, true, false, ℕ, ◌++◌, map};
ghost use Rattle.std.specs.Prelude.{length, All, Some, None, IsNone, IsSome, IfOk, OnErr};
ghost use Rattle.tw_rows.specs.Kinds.{cell_kind_of};
ghost use Rattle.tw_rows.specs.Cells.{datum_kind};
ghost use Rattle.tw_rows.specs.Bag.{SameBag};
ghost use Rattle.edge_history.specs.Order.{KeepsOrder};
ghost use Rattle.edge_stream.specs.Listing.{cells_of, IsFilled, SameShape};
ghost use Rattle.edge_stream.specs.Taking.{batches_taken, batches_given, AreBatchesTaken};

use crate::list::EdgeList;
use batch::Pools;
use std::alloc::Global;
use tw_rows::{Edge, Kind, Memory};

impl EdgeList {
    /// A list of these edges, in batches of the pools' capacity.
    pub fn from_edges(
        alloc: Global,
        pools: &mut Pools,
        kinds: &[Kind],
        edges: &[Edge],
    ) -> Result<EdgeList, Memory>
        requires width { length kinds.now ≤ 32 }
        requires room { 1 ≤ pools.old.capacity }
        requires order { KeepsOrder edges.now }
        requires cells { All (λ e. map datum_kind e.cells ≡ map cell_kind_of kinds.now) edges.now }
        ensures edges { IfOk result (λ list. list.edges ≡ edges.now) }
        ensures kinds { IfOk result (λ list. list.kinds ≡ kinds.now) }
        ensures capacity { IfOk result (λ list. list.capacity ≡ pools.old.capacity) }
        ensures filled { IfOk result IsFilled }
        ensures pools { IfOk result (λ list. pools.new
            ≡ batches_taken list.batches pools.old (cells_of list)) }
        ensures err_pools { OnErr result (AreBatchesTaken pools.old pools.new
            (map cell_kind_of kinds.now)) }
    {
        let mut list = EdgeList::new(alloc, kinds, pools.capacity())?;
        for edge in edges {
            list.append(pools, edge)?;
        }
        Ok(list)
    }

    /// The edges in order.
    pub fn to_vec(&self) -> Result<Vec<Edge>, Memory>
        ensures edges { IfOk result (λ edges. edges.items ≡ self.now.edges) }
        ensures cells { IfOk result (λ edges. All
            (λ e. map datum_kind e.cells ≡ cells_of self.now) edges.items) }
    {
        let mut edges = Vec::new(self.alloc);
        let mut cursor = self.cursor();
        while let Some(edge) = cursor.next()? {
            edges.push(edge)?;
        }
        Ok(edges)
    }

    /// A list of the same edges, for a second use of them.
    pub fn copy(&self, pools: &mut Pools) -> Result<EdgeList, Memory>
        requires { pools.old.capacity ≡ self.now.capacity }
        ensures edges { IfOk result (λ copy. copy.edges ≡ self.now.edges) }
        ensures shape { IfOk result (λ copy. SameShape self.now copy) }
        ensures filled { IfOk result IsFilled }
        ensures pools { IfOk result (λ copy. pools.new
            ≡ batches_taken copy.batches pools.old (cells_of self.now)) }
        ensures err_pools { OnErr result (AreBatchesTaken pools.old pools.new (cells_of self.now)) }
    {
        let mut copy = EdgeList::new(self.alloc, &self.kinds, self.capacity)?;
        let mut cursor = self.cursor();
        while cursor.rank().is_some() {
            cursor.copy_next(pools, &mut copy)?;
        }
        Ok(copy)
    }

    /// The edges of two lists whose cells are stored alike, in batches of one capacity, in one list
    /// with the kinds of the first, in order. The columns of both lists go to the pools.
    pub fn merge(pools: &mut Pools, a: EdgeList, b: EdgeList) -> Result<EdgeList, Memory>
        requires kinds { cells_of a ≡ cells_of b }
        requires capacity { a.capacity ≡ b.capacity }
        requires pools { pools.old.capacity ≡ a.capacity }
        ensures edges { IfOk result (λ list. SameBag list.edges (a.edges ++ b.edges)) }
        ensures order { IfOk result (λ list. KeepsOrder list.edges) }
        ensures shape { IfOk result (λ list. SameShape a list) }
        ensures filled { IfOk result IsFilled }
        ensures pools { IfOk result (λ list. pools.new
            ≡ batches_given (a.batches + b.batches)
            (batches_taken list.batches pools.old (cells_of a)) (cells_of a)) }
        ensures err_pools { OnErr result (AreBatchesTaken pools.old pools.new (cells_of a)) }
    {
        let list = merged(pools, &a, &b)?;
        a.give_back(pools);
        b.give_back(pools);
        Ok(list)
    }
}

// Which of two next edges comes first, by their ranks: true for the left one. None where there is
// neither.
fn left_first(left: Option<u64>, right: Option<u64>) -> Option<bool>
    ensures none { IsNone result ↔ ((left ≡ None) × (right ≡ None)) }
    ensures left { result ≡ Some true → IsSome left
        × ((r s : ℕ) → left ≡ Some r → right ≡ Some s → r ≤ s) }
    ensures right { result ≡ Some false → IsSome right
        × ((r s : ℕ) → left ≡ Some r → right ≡ Some s → s ≤ r) }
{
    match (left, right) {
        (Some(r), Some(s)) => Some(r <= s),
        (Some(_), None) => Some(true),
        (None, Some(_)) => Some(false),
        (None, None) => None,
    }
}

// The edges of both lists in order, copied.
fn merged(pools: &mut Pools, a: &EdgeList, b: &EdgeList) -> Result<EdgeList, Memory>
    requires kinds { cells_of a.now ≡ cells_of b.now }
    requires pools { pools.old.capacity ≡ a.now.capacity }
    ensures edges { IfOk result (λ list. SameBag list.edges (a.now.edges ++ b.now.edges)) }
    ensures order { IfOk result (λ list. KeepsOrder list.edges) }
    ensures shape { IfOk result (λ list. SameShape a.now list) }
    ensures filled { IfOk result IsFilled }
    ensures pools { IfOk result (λ list. pools.new
        ≡ batches_taken list.batches pools.old (cells_of a.now)) }
    ensures err_pools { OnErr result (AreBatchesTaken pools.old pools.new (cells_of a.now)) }
{
    let mut list = EdgeList::new(a.alloc, &a.kinds, a.capacity)?;
    let mut left = a.cursor();
    let mut right = b.cursor();
    while let Some(from_left) = left_first(left.rank(), right.rank()) {
        if from_left {
            left.copy_next(pools, &mut list)?;
        } else {
            right.copy_next(pools, &mut list)?;
        }
    }
    Ok(list)
}
