// The rows of a Top by key: how they come and go, and when a key is let go.
ghost use Rattle.std.specs.Prelude.{◌≡◌, ◌≤◌, Some, OnOk};
ghost use Rattle.std.specs.Map.{lookup};
ghost use Rattle.tw_rows.specs.SameCells.{same_cells as same};
ghost use Rattle.outer_top.specs.Shown.{IsBare};
ghost use Rattle.outer_top.specs.TopKeys.{ChangesKey, SettlesKey, Gone};
ghost use Rattle.outer_top.specs.declared.ranked.Ranked.{Ranked as RankedRows};

use crate::ranked::Ranked;
use indexmap::IndexMap;
use std::alloc::Global;
use std::hash::BuildHasherDefault;
use synopsis::WordHasher;
use tw_rows::{Cells, Edge, Memory};

/// The rows of each key that has rows.
pub(crate) type Keys = IndexMap<Cells, Ranked, BuildHasherDefault<WordHasher>>;

/// Takes the row of an edge in among the rows of its key, or out where it ends there.
pub(crate) fn change(
    keys: &mut Keys,
    alloc: Global,
    key: Cells,
    rank: u64,
    edge: &Edge,
    lost: &mut Vec<Cells>,
    won: &mut Vec<Cells>,
) -> Result<(), Memory>
    ensures { OnOk result (ChangesKey key rank edge.now lost.old.items lost.new.items won.old.items
        won.new.items keys.old.entries keys.new.entries) }
{
    if let Some(ranked) = keys.get_mut(&key) {
        ranked.change(alloc, rank, edge, lost, won)?;
        return Ok(());
    }
    let mut ranked = Ranked::new(alloc);
    ranked.change(alloc, rank, edge, lost, won)?;
    keys.insert(key, ranked)?;
    Ok(())
}

// Lets a key go that has no rows.
fn let_go(keys: &mut Keys, key: &Cells)
    ensures { (r : RankedRows) → lookup (same key.now) keys.old.entries ≡ Some r → IsBare r →
        Gone keys.old.entries keys.new.entries }
{
    if let Some(place) = keys.get_index_of(key) {
        let _ = keys.swap_remove_index(place);
    }
}

/// Settles the rows of a key, which goes where it has none.
pub(crate) fn settle(
    keys: &mut Keys,
    key: &Cells,
    most: usize,
    lost: &mut Vec<Cells>,
    won: &mut Vec<Cells>,
) -> Result<(), Memory>
    requires { 1 ≤ most }
    ensures { OnOk result (SettlesKey key.now most lost.old.items lost.new.items won.old.items
        won.new.items keys.old.entries keys.new.entries) }
{
    let Some(ranked) = keys.get_mut(key) else {
        return Ok(());
    };
    ranked.settle_rows(most, lost, won)?;
    if ranked.is_empty() {
        let_go(keys, key);
    }
    Ok(())
}
