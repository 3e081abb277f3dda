// The rows of one key of a Top, in groups of equal rank.
ghost use Rattle.std.specs.Prelude.{◌≡◌, ◌+◌, ◌-◌, ◌^◌, ◌++◌, ℕ, Bool, true, false, List, OnOk, OnErr, length, map, min};
ghost use Rattle.tw_rows.specs.Bag.{total};
ghost use Rattle.tw_rows.specs.declared.cells.Datum.{Datum as Item};
ghost use Rattle.tw_rows.specs.declared.edge.HeldRow.{HeldRow};
ghost use Rattle.edge_history.specs.Opens.{bare, is_held};
ghost use Rattle.edge_history.specs.Order.{failing, many};
ghost use Rattle.edge_stream.specs.Entries.{entries_of};
ghost use Rattle.sweep_laws.specs.Saving.{starts_of};
ghost use Rattle.outer_top.specs.Ranks.{rows_in, AreRanked, IsOnlyRank};

use edge_stream::Saved;
use std::alloc::Global;
use std::collections::BTreeMap;
use sweep_sides::save_block;
use synopsis::Bucket;
use tw_rows::{Cells, Datum, HeldRow, Memory, Time};

/// Groups of rows, each with the rank of its rows.
pub(crate) type Groups = BTreeMap<u64, Bucket>;

/// Adds the cells of rows to a list.
pub(crate) fn push_cells(list: &mut Vec<Cells>, rows: &[HeldRow]) -> Result<(), Memory>
    ensures { OnOk result ((w : List Item → ℕ) →
        total w list.new.items ≡ total w list.old.items + total w (bare rows.now)) }
{
    for row in rows {
        list.push(row.cells.clone()?)?;
    }
    Ok(())
}

/// Puts a row into the group of its rank, which is made where there is none.
pub(crate) fn put_row(
    groups: &mut Groups,
    alloc: Global,
    rank: u64,
    row: HeldRow,
) -> Result<(), Memory>
    ensures weighs { OnOk result ((w : HeldRow → ℕ) →
        total w (rows_in groups.new.entries) ≡ total w (rows_in groups.old.entries) + w row) }
    ensures ranked { OnOk result ((rank_of : List Item → ℕ → Bool) → rank_of row.cells rank ≡ true →
        AreRanked rank_of groups.old.entries → AreRanked rank_of groups.new.entries) }
    ensures keys { OnOk result ((p : ℕ → Bool) → p rank ≡ true →
        failing (λ g. p g.0) groups.old.entries ≡ 0 → failing (λ g. p g.0) groups.new.entries ≡ 0) }
    ensures err { OnErr result (groups.new.entries ≡ groups.old.entries) }
{
    if let Some(group) = groups.get_mut(&rank) {
        group.add(alloc, row.cells, row.start)?;
        return Ok(());
    }
    groups.insert(rank, Bucket::of_one(Vec::new(alloc), row.cells, row.start)?)?;
    Ok(())
}

/// Takes a row with these cells that began then out of the group of the rank, if there is one. No group is left empty.
pub(crate) fn take_row(groups: &mut Groups, rank: u64, cells: &[Datum], start: Time) -> bool
    ensures taken { result ≡ true → (w : HeldRow → ℕ) → total w (rows_in groups.old.entries)
        ≡ total w (rows_in groups.new.entries) + w (record { cells = cells.now; start = start }) }
    ensures none { result ≡ false → groups.new.entries ≡ groups.old.entries }
    ensures ranked { (rank_of : List Item → ℕ → Bool) → AreRanked rank_of groups.old.entries →
        AreRanked rank_of groups.new.entries }
    ensures keys { (p : ℕ → Bool) → failing (λ g. p g.0) groups.old.entries ≡ 0 →
        failing (λ g. p g.0) groups.new.entries ≡ 0 }
    ensures missing { result ≡ false → (rank_of : List Item → ℕ → Bool) →
        IsOnlyRank rank_of cells.now rank → AreRanked rank_of groups.old.entries →
        many (is_held cells.now start) (rows_in groups.old.entries) ≡ 0 }
{
    let Some(group) = groups.get_mut(&rank) else {
        return false;
    };
    if !group.take(cells, start) {
        return false;
    }
    if group.rows().is_empty() {
        groups.remove(&rank);
    }
    true
}

/// How many rows there are, or the greatest number that there is room for. It goes from group to group.
pub(crate) fn row_count(groups: &Groups) -> u64
    ensures { result ≡ min (length (rows_in groups.now.entries)) (2 ^ 64 - 1) }
{
    let mut len: u64 = 0;
    for (_, group) in groups.iter() {
        len = len.saturating_add(group.rows().len() as u64);
    }
    len
}

/// Adds the starts of the rows as entries of that part.
pub(crate) fn save_groups(saved: &mut Saved, part: u64, groups: &Groups) -> Result<(), Memory>
    ensures { OnOk result (saved.new ≡ saved.old ++ entries_of part
        (starts_of (rows_in groups.now.entries))) }
{
    for (_, group) in groups.iter() {
        save_block(saved, part, group.rows())?;
    }
    Ok(())
}
