// The rows of a Top by key, and one instant of them.
ghost use Rattle.std.specs.Prelude.{◌≡◌, ◌≤◌, ℕ, true, [], IfOk, OnOk};
ghost use Rattle.outer_top.specs.Ranks.{has_rank};
ghost use Rattle.outer_top.specs.TopKeys.{value_of, ChangesKey, SettlesKey, HasPassed};
ghost use Rattle.synopsis.specs.Held.{key_of};

use crate::keys::{self, Keys};
use indexmap::IndexMap;
use std::alloc::Global;
use std::hash::BuildHasherDefault;
use synopsis::KeyRoom;
use tw_rows::{Cells, Datum, Edge, Memory};

/// The rows of a top, by their keys.
#[derive(Drop)]
pub(crate) struct Tops {
    pub(crate) alloc: Global,
    pub(crate) key: KeyRoom,
    pub(crate) by: usize,
    pub(crate) most: usize,
    pub(crate) keys: Keys,
}

// The int of a row in the column. One that is not there, or of another kind, reads as 0.
fn int_at(cells: &[Datum], by: usize) -> i64
    ensures { result ≡ value_of by cells.now }
{
    match cells.get(by) {
        Some(Datum::Int(number)) => *number,
        _ => 0,
    }
}

// The rank of a row, which is in the order of the ints.
fn rank_of(cells: &[Datum], by: usize) -> u64
    ensures { has_rank (value_of by) cells.now result ≡ true }
{
    int_at(cells, by).abs_diff(i64::MIN)
}

impl Tops {
    ghost use Rattle.outer_top.specs.TopLikes.{IsLike};

    /// No rows, by these key columns and that column, of which so many are shown for each key.
    pub(crate) fn new(alloc: Global, key: &[usize], by: usize, most: usize) -> Result<Tops, Memory>
        ensures key { IfOk result (λ t. t.key.columns ≡ key.now) }
        ensures by { IfOk result (λ t. t.by ≡ by) }
        ensures most { IfOk result (λ t. t.most ≡ most) }
        ensures rows { IfOk result (λ t. t.keys.entries ≡ []) }
    {
        Ok(Tops {
            alloc,
            key: KeyRoom::new(alloc, key)?,
            by,
            most,
            keys: IndexMap::with_hasher(alloc, BuildHasherDefault::new()),
        })
    }

    // The data of a row in the key columns.
    fn key_of(&mut self, cells: &Cells) -> Result<Cells, Memory>
        ensures key { IfOk result (λ k. k ≡ key_of self.old.key.columns cells.now) }
        ensures rows { self.new.keys.entries ≡ self.old.keys.entries }
        ensures like { IsLike self.old self.new }
    {
        self.key.write(cells.items());
        let key = Cells::from_slice(self.alloc, self.key.values())?;
        Ok(key)
    }

    // Takes the row of an edge in, or out where it ends there.
    fn change(
        &mut self,
        edge: &Edge,
        lost: &mut Vec<Cells>,
        won: &mut Vec<Cells>,
    ) -> Result<(), Memory>
        ensures changes { OnOk result ((rank : ℕ)
            × (has_rank (value_of self.old.by) edge.now.cells rank ≡ true)
            × ChangesKey (key_of self.old.key.columns edge.now.cells) rank edge.now
            lost.old.items lost.new.items won.old.items won.new.items
            self.old.keys.entries self.new.keys.entries) }
        ensures like { IsLike self.old self.new }
    {
        let key = self.key_of(&edge.cells)?;
        let rank = rank_of(edge.cells.items(), self.by);
        keys::change(&mut self.keys, self.alloc, key, rank, edge, lost, won)?;
        Ok(())
    }

    // Settles the rows of the key of an edge.
    fn settle(
        &mut self,
        edge: &Edge,
        lost: &mut Vec<Cells>,
        won: &mut Vec<Cells>,
    ) -> Result<(), Memory>
        requires { 1 ≤ self.old.most }
        ensures settles { OnOk result (SettlesKey (key_of self.old.key.columns edge.now.cells)
            self.old.most lost.old.items lost.new.items won.old.items won.new.items
            self.old.keys.entries self.new.keys.entries) }
        ensures like { IsLike self.old self.new }
    {
        let key = self.key_of(&edge.cells)?;
        keys::settle(&mut self.keys, &key, self.most, lost, won)?;
        Ok(())
    }

    /// Goes on past one instant: the rows of its edges come and go, and then each key that has one is settled.
    pub(crate) fn pass(
        &mut self,
        now: &[Edge],
        lost: &mut Vec<Cells>,
        won: &mut Vec<Cells>,
    ) -> Result<(), Memory>
        requires { 1 ≤ self.old.most }
        ensures passed { OnOk result (HasPassed self.old.key.columns self.old.by self.old.most
            now.now lost.old.items lost.new.items won.old.items won.new.items self.old.keys.entries
            self.new.keys.entries) }
        ensures like { IsLike self.old self.new }
    {
        'changes: for edge in now {
            self.change(edge, lost, won)?;
        }
        'settles: for edge in now {
            self.settle(edge, lost, won)?;
        }
        // Its call tells the proof that no key stands twice.
        let _ = self.keys.len();
        Ok(())
    }
}
