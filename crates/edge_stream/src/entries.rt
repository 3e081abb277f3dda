// Lists of edges as saved entries, and back.
ghost use Rattle.std.specs.Prelude.{◌≡◌, ◌↔◌, List, ◌∷◌, ◌++◌, IsTrue, map, All, IfSome, IfNone, IfOk, OnOk};
ghost use Rattle.tw_rows.specs.Cells.{datum_kind};
ghost use Rattle.tw_rows.specs.Kinds.{cell_kind_of};
ghost use Rattle.edge_history.specs.Order.{rank, IsReal, KeepsOrder};
ghost use Rattle.edge_stream.specs.Listing.{cells_of, SameShape};
ghost use Rattle.edge_stream.specs.declared.saved.SavedEntry.{SavedEntry as SavedEntryOf};
ghost use Rattle.edge_stream.specs.Entries.{saved_edge, entries_of, part_of, are_of_parts as of_parts, MayBeCarried, MayFollow, IsEdgePart};

use crate::{EdgeList, Saved, SavedEntry};
use batch::Pools;
use std::alloc::Global;
use tw_rows::{Datum, Edge, Kind, Memory, Time, cell_of};

/// Adds the edges, in order, as entries of that part.
pub fn save_edges(saved: &mut Saved, part: u64, edges: &[Edge]) -> Result<(), Memory>
    ensures { OnOk result (saved.new ≡ saved.old ++ entries_of part edges.now) }
{
    for edge in edges {
        saved.push_cells(part, edge.sync, edge.other, &edge.cells)?;
    }
    Ok(())
}

/// Adds the edges of the list, in order, as entries of that part.
pub fn save_part(saved: &mut Saved, part: u64, list: &EdgeList) -> Result<(), Memory>
    ensures entries { OnOk result (saved.new ≡ saved.old ++ entries_of part list.now.edges) }
    ensures order { KeepsOrder list.now.edges }
    ensures cells { OnOk result (All (λ e. map datum_kind e.cells
        ≡ cells_of list.now) list.now.edges) }
{
    // Its call tells the proof that the edges keep the order.
    let _ = list.cursor();
    let edges = list.to_vec()?;
    save_edges(saved, part, &edges)?;
    Ok(())
}

/// Whether each entry belongs to one of the first `count` parts.
pub fn are_of_parts(saved: &Saved, count: u64) -> bool
    ensures { result ≡ of_parts count saved.now }
{
    let entries = saved.entries();
    for entry in entries {
        if entry.part >= count {
            return false;
        }
    }
    true
}

/// The edges of the entries of that part, in order.
pub fn edges_of_part(alloc: Global, saved: &Saved, part: u64) -> Result<Vec<Edge>, Memory>
    ensures { IfOk result (λ edges. edges.items ≡ part_of part saved.now) }
{
    let entries = saved.entries();
    let mut edges = Vec::new(alloc);
    for entry in entries {
        if entry.part == part {
            edges.push(Edge {
                sync: entry.sync,
                other: entry.other,
                cells: entry.cells.clone()?,
            })?;
        }
    }
    Ok(edges)
}

/// Whether a column of the kind stores the datum.
pub fn stores(kind: Kind, datum: Datum) -> bool
    ensures { IsTrue result ↔ (datum_kind datum ≡ cell_kind_of kind) }
{
    datum.cell_kind() == cell_of(kind)
}

/// Whether the cells are stored as columns of these kinds are.
pub fn is_stored_as(cells: &[Datum], kinds: &[Kind]) -> bool
    ensures { IsTrue result ↔ (map datum_kind cells.now ≡ map cell_kind_of kinds.now) }
{
    if cells.len() != kinds.len() {
        return false;
    }
    for i in 0..cells.len() {
        if !stores(kinds[i], cells[i]) {
            return false;
        }
    }
    true
}

// The place of an edge with these times in a list: by its sync time, and at one time ends first.
fn rank_of(entry: &SavedEntry) -> u128
    ensures { result ≡ rank (saved_edge entry.now) }
{
    let twice = 2 * u128::from(entry.sync.word());
    if entry.other < entry.sync {
        twice
    } else {
        twice + 1
    }
}

// Whether an edge with these times stands at an instant, and its other time is another one.
fn is_real(entry: &SavedEntry) -> bool
    ensures { IsTrue result ↔ IsReal (saved_edge entry.now) }
{
    match (entry.sync.get(), entry.other.get()) {
        (Some(sync), Some(other)) => other != sync,
        (sync, _) => sync.is_some(),
    }
}

// Whether a list with columns of these kinds may hold the edge of the entry, which does not come before the time.
fn may_be_carried(entry: &SavedEntry, kinds: &[Kind], from: Time) -> bool
    ensures { IsTrue result ↔ MayBeCarried (map cell_kind_of kinds.now) from
        (saved_edge entry.now) }
{
    is_real(entry) && is_stored_as(entry.cells.items(), kinds) && from <= entry.sync
}

// The least rank that further edges of the part may have behind the entry, if it may stand there.
fn rank_behind(
    entry: &SavedEntry,
    part: u64,
    kinds: &[Kind],
    from: Time,
    least: u128,
) -> Option<u128>
    ensures some { IfSome result (λ n. (rest : List SavedEntryOf) →
        MayFollow (map cell_kind_of kinds.now) from n (part_of part rest)
        ↔ MayFollow (map cell_kind_of kinds.now) from least (part_of part (entry.now ∷ rest))) }
    ensures none { IfNone result ((rest : List SavedEntryOf) →
        MayFollow (map cell_kind_of kinds.now) from least (part_of part (entry.now ∷ rest)) → ⊥) }
{
    if entry.part != part {
        return Some(least);
    }
    let rank = rank_of(entry);
    if rank < least {
        return None;
    }
    if !may_be_carried(entry, kinds, from) {
        return None;
    }
    Some(rank)
}

/// Whether a list with columns of these kinds may hold the edges of the entries of that part, and none of them comes before
/// the time. It takes no memory.
pub fn is_edge_part(saved: &Saved, part: u64, kinds: &[Kind], from: Time) -> bool
    ensures { IsTrue result ↔ IsEdgePart (map cell_kind_of kinds.now) from
        (part_of part saved.now) }
{
    let entries = saved.entries();
    let mut least = 0;
    for entry in entries {
        let Some(rank) = rank_behind(entry, part, kinds, from, least) else {
            return false;
        };
        least = rank;
    }
    true
}

/// A list like another one of the edges of that part, which it may hold.
pub fn load_part(
    alloc: Global,
    saved: &Saved,
    part: u64,
    like: &EdgeList,
) -> Result<EdgeList, Memory>
    requires order { KeepsOrder (part_of part saved.now) }
    requires cells { All (λ e. map datum_kind e.cells ≡ cells_of like.now)
        (part_of part saved.now) }
    ensures edges { IfOk result (λ list. list.edges ≡ part_of part saved.now) }
    ensures shape { IfOk result (λ list. SameShape like.now list) }
{
    let edges = edges_of_part(alloc, saved, part)?;
    let mut pools = Pools::new(alloc, 0, like.capacity())?;
    let list = EdgeList::from_edges(alloc, &mut pools, like.kinds(), &edges)?;
    Ok(list)
}
