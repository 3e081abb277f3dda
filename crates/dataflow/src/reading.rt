// The lists that the nodes of a plan read. A list that is read again later is copied, and else it is moved out.
ghost use Rattle.std.specs.Prelude.{◌≡◌, ◌↔◌, ◌≢◌, ◌⊎◌, ◌<◌, ◌≤◌, ◌+◌, ℕ, IsTrue, true, Some, List, [], length, get_or, slice_get, IfOk, OnOk};
ghost use Rattle.tw_rows.specs.declared.edge.Edge.{Edge};
ghost use Rattle.edge_stream.specs.Listing.{EdgeListView};
ghost use Rattle.plan_model.specs.declared.node.Node.{Node};
ghost use Rattle.plan_model.specs.Meaning.{left_of, right_of};
ghost use Rattle.dataflow.specs.Stages.{left_kinds, right_kinds};
ghost use Rattle.dataflow.specs.Held.{IsListWith, IsNeededRight, HeldBefore, HeldBetween};
ghost use Rattle.dataflow.specs.Readers.{AreReaders};

use crate::readers::Readers;
use batch::Pools;
use edge_stream::EdgeList;
use plan_model::{Node, Plan};
use std::alloc::Global;
use tw_rows::Memory;

fn is_child(number: Option<usize>, child: usize) -> bool
    ensures { IsTrue result ↔ (number ≡ Some child) }
{
    match number {
        Some(read) => read == child,
        None => false,
    }
}

// Whether the node of number `i` reads that of number `child` on the right too, or a later one reads it.
fn is_needed_right(plan: &Plan, readers: &Readers, i: usize, child: usize) -> bool
    requires node { i < length plan.now.nodes }
    requires readers { AreReaders plan.now readers.now }
    requires child { child < length plan.now.nodes }
    ensures { IsTrue result ↔ IsNeededRight plan.now i child }
{
    let nodes = plan.nodes();
    is_child(nodes[i].right_child(), child) || readers.is_needed(plan, i + 1, child)
}

// The list of that number: a copy where it is needed again, and else the list itself, which is then no more there.
fn take_list(
    alloc: Global,
    pools: &mut Pools,
    lists: &mut Vec<EdgeList>,
    at: usize,
    again: bool,
) -> Result<EdgeList, Memory>
    requires at { at < length lists.old.items }
    requires pools { (d : EdgeListView) → pools.old.capacity
        ≡ (get_or lists.old.items at d).capacity }
    ensures edges { IfOk result (λ l. (d : EdgeListView) →
        l.edges ≡ (get_or lists.old.items at d).edges) }
    ensures kinds { IfOk result (λ l. (d : EdgeListView) →
        l.kinds ≡ (get_or lists.old.items at d).kinds) }
    ensures capacity { IfOk result (λ l. (d : EdgeListView) →
        l.capacity ≡ (get_or lists.old.items at d).capacity) }
    ensures others { OnOk result ((k : ℕ) (d : EdgeListView) → (k ≢ at) ⊎ (again ≡ true) →
        get_or lists.new.items k d ≡ get_or lists.old.items k d) }
    ensures count { length lists.new.items ≡ length lists.old.items }
    ensures pools { pools.new.capacity ≡ pools.old.capacity }
    ensures limit { pools.new.limit ≡ pools.old.limit }
{
    if again {
        return lists[at].copy(pools);
    }
    let none = EdgeList::new(alloc, &[], 1)?;
    Ok(std::mem::replace(&mut lists[at], none))
}

// The list that the node of number `i` reads on the left: its child's, or that of its stream.
pub(crate) fn left_list(
    alloc: Global,
    pools: &mut Pools,
    plan: &Plan,
    readers: &Readers,
    i: usize,
    streams: &mut Vec<EdgeList>,
    made: &mut Vec<EdgeList>,
) -> Result<EdgeList, Memory>
    requires node { i < length plan.now.nodes }
    requires readers { AreReaders plan.now readers.now }
    requires streams { length streams.old.items ≡ length plan.now.streams }
    requires made { length made.old.items ≡ i }
    requires held { (texts : List (List ℕ))
        × ((given : ℕ → List Edge) × ((more : ℕ → List Edge)
        × HeldBefore texts pools.old.capacity plan.now i given more streams.old.items
        made.old.items)) }
    ensures list { IfOk result (λ l. (texts : List (List ℕ)) (given more : ℕ → List Edge)
        (n : Node) → HeldBefore texts pools.old.capacity plan.now i given more streams.old.items
        made.old.items → slice_get plan.now.nodes i ≡ Some n →
        IsListWith texts pools.old.capacity (left_kinds plan.now n) (left_of [] given more n) l) }
    ensures held { OnOk result ((texts : List (List ℕ)) (given more : ℕ → List Edge) →
        HeldBefore texts pools.old.capacity plan.now i given more streams.old.items made.old.items →
        HeldBetween texts pools.old.capacity plan.now i given more
        streams.new.items made.new.items) }
    ensures streams { length streams.new.items ≡ length streams.old.items }
    ensures made { length made.new.items ≡ length made.old.items }
    ensures pools { pools.new.capacity ≡ pools.old.capacity }
    ensures limit { pools.new.limit ≡ pools.old.limit }
{
    let nodes = plan.nodes();
    match &nodes[i] {
        Node::Source { stream } => {
            let again = readers.is_stream_needed(plan, i + 1, *stream);
            take_list(alloc, pools, streams, *stream, again)
        }
        other => match other.left_child() {
            Some(child) => {
                let again = is_needed_right(plan, readers, i, child);
                take_list(alloc, pools, made, child, again)
            }
            None => unreachable!(),
        },
    }
}

// The list that the node of number `i` reads on the right: its right child's, or a list with no columns where it has none.
pub(crate) fn right_list(
    alloc: Global,
    pools: &mut Pools,
    plan: &Plan,
    readers: &Readers,
    i: usize,
    made: &mut Vec<EdgeList>,
) -> Result<EdgeList, Memory>
    requires node { i < length plan.now.nodes }
    requires readers { AreReaders plan.now readers.now }
    requires room { 1 ≤ pools.old.capacity }
    requires made { length made.old.items ≡ i }
    requires held { (texts : List (List ℕ))
        × ((given : ℕ → List Edge)
        × ((more : ℕ → List Edge)
        × ((streams : List EdgeListView)
        × HeldBetween texts pools.old.capacity plan.now i given more streams made.old.items))) }
    ensures list { IfOk result (λ l. (texts : List (List ℕ)) (given more : ℕ → List Edge)
        (streams : List EdgeListView) (n : Node) →
        HeldBetween texts pools.old.capacity plan.now i given more streams made.old.items →
        slice_get plan.now.nodes i ≡ Some n → IsListWith texts pools.old.capacity
        (right_kinds plan.now n) (right_of [] more n) l) }
    ensures held { OnOk result
        ((texts : List (List ℕ)) (given more : ℕ → List Edge) (streams : List EdgeListView) →
        HeldBetween texts pools.old.capacity plan.now i given more streams made.old.items →
        HeldBefore texts pools.old.capacity plan.now (i + 1) given more streams made.new.items) }
    ensures made { length made.new.items ≡ length made.old.items }
    ensures pools { pools.new.capacity ≡ pools.old.capacity }
    ensures limit { pools.new.limit ≡ pools.old.limit }
{
    let nodes = plan.nodes();
    match nodes[i].right_child() {
        Some(child) => {
            let again = readers.is_needed(plan, i + 1, child);
            take_list(alloc, pools, made, child, again)
        }
        None => EdgeList::new(alloc, &[], pools.capacity()),
    }
}
