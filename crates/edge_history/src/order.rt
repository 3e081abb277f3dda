// The order of edges.
ghost use Rattle.std.specs.Prelude.{◌≡◌, ◌<◌, ◌≤◌, ◌↔◌, IsTrue, OnOk, OnErr};
ghost use Rattle.std.specs.List.Sorted.{IsStableByKey};
ghost use Rattle.std.specs.Ordering.{nat_cmp};
ghost use Rattle.tw_rows.specs.Bag.{SameBag};
ghost use Rattle.edge_history.specs.Order.{rank, Rises, IsReal, KeepsOrder};

use tw_rows::{Edge, Memory};

// The place of the edge in a list: by its sync time, and at one time ends first.
fn rank_of(edge: &Edge) -> u128
    ensures { result ≡ rank edge.now }
{
    let twice = 2 * u128::from(edge.sync.word());
    if edge.is_end() { twice } else { twice + 1 }
}

// Whether the edge stands at an instant and its other time is another one.
fn is_real(edge: &Edge) -> bool
    ensures { IsTrue result ↔ IsReal edge.now }
{
    match (edge.sync.get(), edge.other.get()) {
        (Some(sync), Some(other)) => other != sync,
        (sync, _) => sync.is_some(),
    }
}

/// Whether the edges keep the rule of a list.
pub fn keeps_order(edges: &[Edge]) -> bool
    ensures { IsTrue result ↔ KeepsOrder edges.now }
{
    let mut least = 0;
    for edge in edges {
        let rank = rank_of(edge);
        if rank < least || !is_real(edge) {
            return false;
        }
        least = rank;
    }
    true
}

/// Puts the edges in the order of a list. Edges of one rank keep their order.
pub fn in_order(edges: &mut Vec<Edge>) -> Result<(), Memory>
    ensures same { OnOk result (SameBag edges.old.items edges.new.items) }
    ensures order { OnOk result (Rises 0 edges.new.items) }
    ensures stable { OnOk result (IsStableByKey rank nat_cmp edges.old.items edges.new.items) }
    ensures err { OnErr result (edges.new.items ≡ edges.old.items) }
{
    edges.sort_by_key(|edge| rank_of(edge))?;
    Ok(())
}
