// What was emitted, as a list of edges.
ghost use Rattle.std.specs.Prelude.{◌≡◌, ◌≤◌, length, map, IfOk};
ghost use Rattle.std.specs.List.{list_all};
ghost use Rattle.tw_rows.specs.Kinds.{cell_kind_of};
ghost use Rattle.edge_history.specs.Order.{failing};
ghost use Rattle.edge_stream.specs.Taking.{batches_taken};
ghost use Rattle.sweep_sides.specs.Answers.{is_between, FitsList};

use batch::Pools;
use edge_history::keeps_order;
use edge_stream::{EdgeList, is_stored_as};
use std::alloc::Global;
use tw_rows::{Edge, Kind, Memory, Time};

// Whether the edge comes at the time `from` or later, and before `to`.
fn comes_between(edge: &Edge, from: Time, to: Time) -> bool
    ensures { result ≡ is_between from to edge.now }
{
    if edge.sync < from {
        return false;
    }
    edge.sync < to
}

// Whether all edges do so.
fn come_between(edges: &[Edge], from: Time, to: Time) -> bool
    ensures { result ≡ list_all (is_between from to) edges.now }
{
    for edge in edges {
        if !comes_between(edge, from, to) {
            return false;
        }
    }
    true
}

/// A list of these edges, which are answered from one closing up to another. Where they are out of order, or one of them
/// comes at another time, the list is empty, and it ends before one of other kinds.
pub fn list_of(
    alloc: Global,
    pools: &mut Pools,
    kinds: &[Kind],
    capacity: usize,
    from: Time,
    to: Time,
    edges: &[Edge],
) -> Result<EdgeList, Memory>
    requires width { length kinds.now ≤ 32 }
    requires room { 1 ≤ capacity }
    requires pools { pools.old.capacity ≡ capacity }
    ensures edges { IfOk result (λ list.
        FitsList (map cell_kind_of kinds.now) from to edges.now → list.edges ≡ edges.now) }
    ensures between { IfOk result (λ list. failing (is_between from to) list.edges ≡ 0) }
    ensures kinds { IfOk result (λ list. list.kinds ≡ kinds.now) }
    ensures capacity { IfOk result (λ list. list.capacity ≡ capacity) }
    ensures taken { IfOk result (λ list.
        pools.new ≡ batches_taken list.batches pools.old (map cell_kind_of kinds.now)) }
    ensures pools { pools.new.capacity ≡ pools.old.capacity }
    ensures limit { pools.new.limit ≡ pools.old.limit }
{
    let mut list = EdgeList::new(alloc, kinds, capacity)?;
    if !keeps_order(edges) {
        return Ok(list);
    }
    if !come_between(edges, from, to) {
        return Ok(list);
    }
    for edge in edges {
        if !is_stored_as(edge.cells.items(), kinds) {
            return Ok(list);
        }
        list.append(pools, edge)?;
    }
    Ok(list)
}
