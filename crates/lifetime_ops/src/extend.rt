// What an Extend keeps from one step to the next, and how the ends of lifetimes are moved.
ghost use Rattle.std.specs.Prelude.{◌≡◌, ◌≤◌, ◌+◌, nat_lt, true, false, List, [], ◌∷◌, ◌++◌, map, length, All, IfOk, OnOk};
ghost use Rattle.tw_rows.specs.Instant.{inf};
ghost use Rattle.tw_rows.specs.Cells.{datum_kind};
ghost use Rattle.tw_rows.specs.declared.edge.Edge.{Edge};
ghost use Rattle.tw_rows.specs.declared.kind.CellKind.{CellKind};
ghost use Rattle.edge_history.specs.Order.{failing, is_end, is_below, is_from, IsReal};
ghost use Rattle.edge_stream.specs.Lists.{no_edges};
ghost use Rattle.edge_stream.specs.Listing.{cells_of};
ghost use Rattle.plan_laws.specs.Extending.{extended_starts, extended_ends};
ghost use Rattle.lifetime_ops.specs.Waiting.{edges_of_pending, TakesIn, IsWaitingEnd};

use batch::Pools;
use edge_stream::EdgeList;
use end_queue::EndQueue;
use std::alloc::Global;
use tw_rows::{Edge, Kind, Memory, Time};

/// The operator of an Extend: Trill's `ExtendLifetime`. A start or an interval edge is answered at once, its known end moved; an
/// end is pending until the time to which it moves. Edges that are not below the time up to which the side is closed are carried.
pub struct ExtendLifetime {
    pub(crate) alloc: Global,
    pub(crate) by: u64,
    pub(crate) carried: EdgeList,
    pub(crate) ends: EndQueue,
    pub(crate) left_to: Time,
    pub(crate) right_to: Time,
    pub(crate) failed: bool,
    ghost late: { failed ≡ false → failing (is_from left_to) carried.edges ≡ 0 },
    ghost waiting: { All (IsWaitingEnd (cells_of carried)) ends },
    ghost due: { failed ≡ false → All (λ p. left_to ≤ p.at) ends },
}

// By hand, so that its users cite this and not the destructors of its parts.
impl Drop for ExtendLifetime {
    fn drop(self) {
        let ExtendLifetime {
            alloc: _,
            by: _,
            carried: _carried,
            ends: _ends,
            left_to: _,
            right_to: _,
            failed: _,
        } = self;
    }
}

// Whether the time is no infinity.
fn is_instant(time: Time) -> bool
    ensures { result ≡ nat_lt time inf }
{
    time < Time::bounds().1
}

// Puts the end at the time to which it moves, if that is no infinity.
fn put_end(ends: &mut EndQueue, by: u64, edge: Edge) -> Result<(), Memory>
    requires end { is_end edge ≡ true }
    requires real { IsReal edge }
    ensures ends { OnOk result (TakesIn ends.old ends.new (extended_ends by (edge ∷ []))) }
    ensures waiting { (kinds : List CellKind) → map datum_kind edge.cells ≡ kinds →
        All (IsWaitingEnd kinds) ends.old → All (IsWaitingEnd kinds) ends.new }
{
    let at = edge.sync.plus(by);
    if !is_instant(at) {
        return Ok(());
    }
    let moved = Edge {
        sync: at,
        other: edge.other,
        cells: edge.cells,
    };
    ends.put(at, moved)?;
    Ok(())
}

// Puts the ends among the edges into the queue, and the others, with their known ends moved, into an empty list.
pub(crate) fn part_due(
    by: u64,
    due: &EdgeList,
    ends: &mut EndQueue,
    pools: &mut Pools,
    starts: &mut EdgeList,
) -> Result<(), Memory>
    requires empty { starts.old.edges ≡ [] }
    requires kinds { cells_of starts.old ≡ cells_of due.now }
    requires capacity { pools.old.capacity ≡ starts.old.capacity }
    requires waiting { All (IsWaitingEnd (cells_of due.now)) ends.old }
    ensures starts { OnOk result (starts.new.edges ≡ extended_starts by due.now.edges) }
    ensures ends { OnOk result (TakesIn ends.old ends.new (extended_ends by due.now.edges)) }
    ensures waiting { All (IsWaitingEnd (cells_of due.now)) ends.new }
    ensures starts_kinds { cells_of starts.new ≡ cells_of starts.old }
    ensures starts_capacity { starts.new.capacity ≡ starts.old.capacity }
    ensures pools { pools.new.capacity ≡ pools.old.capacity }
    ensures limit { pools.new.limit ≡ pools.old.limit }
{
    let mut cursor = due.cursor();
    while let Some(edge) = cursor.next()? {
        if edge.is_end() {
            put_end(ends, by, edge)?;
        } else {
            let extended = Edge {
                sync: edge.sync,
                other: edge.other.plus(by),
                cells: edge.cells,
            };
            starts.append(pools, &extended)?;
        }
    }
    Ok(())
}

// Takes out of the queue the ends that are due below a time, in a list like another one.
pub(crate) fn take_due(
    alloc: Global,
    pools: &mut Pools,
    ends: &mut EndQueue,
    like: &EdgeList,
    below: Time,
) -> Result<EdgeList, Memory>
    requires waiting { All (IsWaitingEnd (cells_of like.now)) ends.old }
    requires capacity { pools.old.capacity ≡ like.now.capacity }
    ensures edges { IfOk result (λ due. edges_of_pending ends.old ≡ due.edges
        ++ edges_of_pending ends.new) }
    ensures low { IfOk result (λ due. failing (is_below below) due.edges ≡ 0) }
    ensures late { OnOk result (All (λ p. below ≤ p.at) ends.new) }
    ensures waiting { All (IsWaitingEnd (cells_of like.now)) ends.new }
    ensures kinds { IfOk result (λ due. cells_of due ≡ cells_of like.now) }
    ensures capacity { IfOk result (λ due. due.capacity ≡ like.now.capacity) }
    ensures pools { pools.new.capacity ≡ pools.old.capacity }
    ensures limit { pools.new.limit ≡ pools.old.limit }
{
    // Its call tells the proof that they come due in order.
    let _ = ends.len();
    let mut due = EdgeList::new(alloc, like.kinds(), like.capacity())?;
    while let Some(edge) = ends.pop_due(below) {
        due.append(pools, &edge)?;
    }
    Ok(due)
}

impl ExtendLifetime {
    /// The operator of a node that moves ends by so much, of rows with columns of these kinds, in batches of that capacity.
    pub fn new(
        alloc: Global,
        by: u64,
        kinds: &[Kind],
        capacity: usize,
    ) -> Result<ExtendLifetime, Memory>
        requires width { length kinds.now ≤ 32 }
        requires room { 1 ≤ capacity }
        ensures by { IfOk result (λ o. o.by ≡ by) }
        ensures carried { IfOk result (λ o. o.carried ≡ no_edges kinds.now capacity) }
        ensures ends { IfOk result (λ o. o.ends ≡ []) }
        ensures times { IfOk result (λ o. (o.left_to ≡ 0) × (o.right_to ≡ 0)) }
        ensures works { IfOk result (λ o. o.failed ≡ false) }
    {
        Ok(ExtendLifetime {
            alloc,
            by,
            carried: EdgeList::new(alloc, kinds, capacity)?,
            ends: EndQueue::new(alloc),
            left_to: Time::bounds().0,
            right_to: Time::bounds().0,
            failed: false,
        })
    }
}
