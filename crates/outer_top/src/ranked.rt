// Which rows of a key are shown.
ghost use Rattle.std.specs.Prelude.{◌≡◌, ◌+◌, ◌-◌, ◌^◌, min, ◌++◌, ◌<◌, ◌≤◌, nat_lt, ℕ, suc, ℤ};
ghost use Rattle.std.specs.Prelude.{int_lt, Bool, true, false, List, [], length, flat_map, OnOk};
ghost use Rattle.std.specs.Prelude.{IfOk};
ghost use Rattle.tw_rows.specs.Bag.{total, SameBag};
ghost use Rattle.key_nodes.specs.Runs.{Tells};
ghost use Rattle.key_nodes.specs.Tops.{top_rows};
ghost use Rattle.outer_top.specs.Keyed.{Block, AreOfKeys, AreOtherKeys, tops_of_blocks};
ghost use Rattle.tw_rows.specs.declared.cells.Datum.{Datum};
ghost use Rattle.tw_rows.specs.declared.edge.HeldRow.{HeldRow};
ghost use Rattle.edge_history.specs.Order.{many, failing};
ghost use Rattle.edge_history.specs.Opens.{bare, is_held};
ghost use Rattle.outer_top.specs.Ranks.{Group, has_rank, rows_in, AreBelow, AreFrom, AreRanked, AreApart, AreFew, AreEnough, IsOnlyRank};

use crate::groups::{Groups, push_cells, put_row, row_count, save_groups, take_row};
use edge_stream::Saved;
use std::alloc::Global;
use std::collections::BTreeMap;
use tw_rows::{Cells, Edge, HeldRow, Memory, Time};

/// The rows of one key: those of the greatest ranks, which are shown, and the rest.
#[derive(Drop)]
pub struct Ranked {
    shown: Groups,
    hidden: Groups,
    count: usize,
    ghost apart: { AreApart shown.entries hidden.entries },
    ghost counted: { count ≡ length (rows_in shown.entries) },
}

/// The top rows of rows of several keys are those of each key, together. A call does nothing but tell a proof of this.
pub fn tops_are_found_key_by_key<R, K>()
    ensures { (key : R → K) (same : K → K → Bool) → Tells same →
        (value : R → ℤ) (most : ℕ) (blocks : List (Block R K)) → AreOfKeys key same blocks →
        AreOtherKeys same blocks → SameBag (top_rows
        (λ r x. same (key r) (key x)) value most (flat_map (λ e. e.1) blocks))
        (tops_of_blocks value most blocks) }
{}

// Whether a group has a rank as great or greater.
fn is_low(groups: &Groups, rank: u64) -> bool
    ensures low { result ≡ true → (shown : List Group) → AreApart shown groups.now.entries →
        AreFrom (suc rank) shown }
    ensures high { result ≡ false → AreBelow rank groups.now.entries }
{
    match groups.last_key_value() {
        Some((greatest, _)) => rank <= *greatest,
        None => false,
    }
}

// A sum that has no room is told as out of memory.
fn sum_of(a: usize, b: usize) -> Result<usize, Memory>
    ensures { IfOk result (λ n. n ≡ a + b) }
{
    a.checked_add(b).ok_or(Memory)
}

impl Ranked {
    ghost use Rattle.std.specs.Prelude.{IsTrue};
    ghost use Rattle.edge_stream.specs.Entries.{entries_of};
    ghost use Rattle.outer_top.specs.Shown.{rows_of, shown_of, weight_of, KeepsRanks, HasChanged, HasSettled, IsBare};
    ghost use Rattle.sweep_laws.specs.Saving.{starts_of};

    /// No rows.
    pub fn new(alloc: Global) -> Ranked
        ensures shown { result.shown.entries ≡ [] }
        ensures hidden { result.hidden.entries ≡ [] }
    {
        Ranked {
            shown: BTreeMap::new(alloc),
            hidden: BTreeMap::new(alloc),
            count: 0,
        }
    }

    /// Puts in a row of that rank. It is shown until rows are settled, unless one of a rank as great or greater is hidden.
    pub fn add(
        &mut self,
        alloc: Global,
        rank: u64,
        row: HeldRow,
        won: &mut Vec<Cells>,
    ) -> Result<(), Memory>
        ensures rows { OnOk result ((w : HeldRow → ℕ) →
            weight_of w self.new ≡ weight_of w self.old + w row) }
        ensures won { OnOk result ((w : List Datum → ℕ) →
            total w (shown_of self.new) + total w won.old.items ≡ total w (shown_of self.old)
            + total w won.new.items) }
        ensures ranked { OnOk result ((rank_of : List Datum → ℕ → Bool) → rank_of row.cells rank
            ≡ true → AreRanked rank_of self.old.shown.entries →
            AreRanked rank_of self.old.hidden.entries →
            AreRanked rank_of self.new.shown.entries × AreRanked rank_of self.new.hidden.entries) }
    {
        if is_low(&self.hidden, rank) {
            put_row(&mut self.hidden, alloc, rank, row)?;
            return Ok(());
        }
        let count = sum_of(self.count, 1)?;
        won.push(row.cells.clone()?)?;
        put_row(&mut self.shown, alloc, rank, row)?;
        self.count = count;
        Ok(())
    }

    /// Takes out a row of that rank with these cells that began then, if there is one, and tells whether there was.
    pub fn take(
        &mut self,
        rank: u64,
        cells: &Cells,
        start: Time,
        lost: &mut Vec<Cells>,
    ) -> Result<bool, Memory>
        ensures rows { IfOk result (λ there. there ≡ true → (w : HeldRow → ℕ) →
            weight_of w self.old ≡ weight_of w self.new + w
            (record { cells = cells.now; start = start })) }
        ensures lost { OnOk result ((w : List Datum → ℕ) →
            total w (shown_of self.new) + total w lost.new.items ≡ total w (shown_of self.old)
            + total w lost.old.items) }
        ensures ranked { OnOk result (KeepsRanks self.old self.new) }
        ensures missing { IfOk result (λ there. there ≡ false → (rank_of : List Datum → ℕ → Bool) →
            IsOnlyRank rank_of cells.now rank → AreRanked rank_of self.old.shown.entries →
            AreRanked rank_of self.old.hidden.entries →
            many (is_held cells.now start) (rows_in self.old.shown.entries) + many
            (is_held cells.now start) (rows_in self.old.hidden.entries) ≡ 0) }
        ensures none { IfOk result (λ there. there ≡ false →
            (self.new.shown.entries ≡ self.old.shown.entries)
            × (self.new.hidden.entries ≡ self.old.hidden.entries)) }
    {
        if is_low(&self.hidden, rank) {
            return Ok(take_row(&mut self.hidden, rank, cells.items(), start));
        }
        if !self.take_shown(rank, cells, start) {
            return Ok(false);
        }
        lost.push(cells.clone()?)?;
        Ok(true)
    }

    // The same among those that are shown.
    fn take_shown(&mut self, rank: u64, cells: &Cells, start: Time) -> bool
        ensures taken { result ≡ true → (w : HeldRow → ℕ) → total w (rows_in self.old.shown.entries)
            ≡ total w (rows_in self.new.shown.entries) + w
            (record { cells = cells.now; start = start }) }
        ensures none { result ≡ false → self.new.shown.entries ≡ self.old.shown.entries }
        ensures missing { result ≡ false → (rank_of : List Datum → ℕ → Bool) →
            IsOnlyRank rank_of cells.now rank → AreRanked rank_of self.old.shown.entries →
            many (is_held cells.now start) (rows_in self.old.shown.entries) ≡ 0 }
        ensures ranked { (rank_of : List Datum → ℕ → Bool) →
            AreRanked rank_of self.old.shown.entries → AreRanked rank_of self.new.shown.entries }
        ensures hidden { self.new.hidden.entries ≡ self.old.hidden.entries }
    {
        let gone = take_row(&mut self.shown, rank, cells.items(), start);
        if gone {
            self.count -= 1;
        }
        gone
    }

    // Hides the group of the least rank that is shown, if so many rows are shown above it. Tells whether it did.
    fn hide_one(&mut self, most: usize, lost: &mut Vec<Cells>) -> Result<bool, Memory>
        requires { 1 ≤ most }
        ensures rows { OnOk result ((w : HeldRow → ℕ) →
            weight_of w self.new ≡ weight_of w self.old) }
        ensures lost { OnOk result ((w : List Datum → ℕ) →
            total w (shown_of self.new) + total w lost.new.items ≡ total w (shown_of self.old)
            + total w lost.old.items) }
        ensures ranked { OnOk result (KeepsRanks self.old self.new) }
        ensures few { IfOk result (λ more. more ≡ false → AreFew most self.new.shown.entries) }
        ensures less { IfOk result (λ more. more ≡ true →
            length self.old.shown.entries ≡ length self.new.shown.entries + 1) }
    {
        let over = match self.shown.first_key_value() {
            Some((_, group)) => self.count - group.rows().len() >= most,
            None => false,
        };
        if !over {
            return Ok(false);
        }
        let Some((rank, group)) = self.shown.pop_first() else {
            return Ok(false);
        };
        self.count -= group.rows().len();
        push_cells(lost, group.rows())?;
        self.hidden.insert(rank, group)?;
        Ok(true)
    }

    // Shows the group of the greatest rank that is hidden, where there is one. Tells whether it did.
    fn show_one(&mut self, won: &mut Vec<Cells>) -> Result<bool, Memory>
        ensures rows { OnOk result ((w : HeldRow → ℕ) →
            weight_of w self.new ≡ weight_of w self.old) }
        ensures won { OnOk result ((w : List Datum → ℕ) →
            total w (shown_of self.new) + total w won.old.items ≡ total w (shown_of self.old)
            + total w won.new.items) }
        ensures ranked { OnOk result (KeepsRanks self.old self.new) }
        ensures few { OnOk result ((most : ℕ) → self.old.count < most →
            AreFew most self.old.shown.entries → AreFew most self.new.shown.entries) }
        ensures none { IfOk result (λ more. more ≡ false → self.new.hidden.entries ≡ []) }
        ensures less { IfOk result (λ more. more ≡ true →
            length self.old.hidden.entries ≡ length self.new.hidden.entries + 1) }
    {
        let Some((rank, group)) = self.hidden.pop_last() else {
            return Ok(false);
        };
        let count = sum_of(self.count, group.rows().len())?;
        push_cells(won, group.rows())?;
        self.shown.insert(rank, group)?;
        self.count = count;
        Ok(true)
    }

    /// Takes the row of an edge in, or out where it ends there.
    pub(crate) fn change(
        &mut self,
        alloc: Global,
        rank: u64,
        edge: &Edge,
        lost: &mut Vec<Cells>,
        won: &mut Vec<Cells>,
    ) -> Result<(), Memory>
        ensures { OnOk result (HasChanged rank edge.now lost.old.items lost.new.items won.old.items
            won.new.items self.old self.new) }
    {
        if edge.is_end() {
            self.take(rank, &edge.cells, edge.other, lost)?;
            return Ok(());
        }
        let row = HeldRow {
            cells: edge.cells.clone()?,
            start: edge.sync,
        };
        self.add(alloc, rank, row, won)?;
        Ok(())
    }

    /// The same as `settle`, in one fact.
    pub(crate) fn settle_rows(
        &mut self,
        most: usize,
        lost: &mut Vec<Cells>,
        won: &mut Vec<Cells>,
    ) -> Result<(), Memory>
        requires { 1 ≤ most }
        ensures { OnOk result (HasSettled most lost.old.items lost.new.items won.old.items
            won.new.items self.old self.new) }
    {
        self.settle(most, lost, won)?;
        Ok(())
    }

    /// How many rows there are, or the greatest number that there is room for. It goes from group to group.
    pub(crate) fn len(&self) -> u64
        ensures { result ≡ min (length (rows_of self.now)) (2 ^ 64 - 1) }
    {
        row_count(&self.shown).saturating_add(row_count(&self.hidden))
    }

    /// Adds the starts of the rows as entries of that part.
    pub(crate) fn save(&self, saved: &mut Saved, part: u64) -> Result<(), Memory>
        ensures { OnOk result (saved.new ≡ saved.old ++ entries_of part
            (starts_of (rows_of self.now))) }
    {
        save_groups(saved, part, &self.shown)?;
        save_groups(saved, part, &self.hidden)?;
        Ok(())
    }

    /// Whether there are no rows.
    pub(crate) fn is_empty(&self) -> bool
        ensures { IsTrue result → IsBare self.now }
    {
        self.shown.is_empty() && self.hidden.is_empty()
    }

    /// Hides and shows groups of equal rank until those of the greatest ranks are shown, with fewer than so many rows above the
    /// least of them. What is lost and what is won by it is added to the lists.
    pub fn settle(
        &mut self,
        most: usize,
        lost: &mut Vec<Cells>,
        won: &mut Vec<Cells>,
    ) -> Result<(), Memory>
        requires { 1 ≤ most }
        ensures rows { OnOk result ((w : HeldRow → ℕ) →
            weight_of w self.new ≡ weight_of w self.old) }
        ensures moved { OnOk result ((w : List Datum → ℕ) →
            total w (shown_of self.new) + total w lost.new.items + total w won.old.items
            ≡ total w (shown_of self.old) + total w lost.old.items + total w won.new.items) }
        ensures ranked { OnOk result (KeepsRanks self.old self.new) }
        ensures fits { OnOk result ((p : List Datum → Bool) → failing p (shown_of self.old) ≡ 0 →
            failing p (bare (rows_in self.old.hidden.entries)) ≡ 0 → failing p won.old.items ≡ 0 →
            failing p won.new.items ≡ 0) }
        ensures few { OnOk result (AreFew most self.new.shown.entries) }
        ensures enough { OnOk result
            (AreEnough most self.new.shown.entries self.new.hidden.entries) }
    {
        'hide: while self.hide_one(most, lost)? {}
        'show: while self.count < most {
            if !self.show_one(won)? {
                break;
            }
        }
        Ok(())
    }

    /// What is shown of settled rows: the top rows of the key, by the column whose values their ranks stand for. A call does nothing
    /// but tell a proof of this.
    pub fn are_top(&self, most: usize)
        ensures { (value : List Datum → ℤ) → AreRanked (has_rank value) self.now.shown.entries →
            AreRanked (has_rank value) self.now.hidden.entries →
            AreFew most self.now.shown.entries →
            AreEnough most self.now.shown.entries self.now.hidden.entries →
            SameBag (top_rows (λ a b. true) value most
            (bare (rows_in self.now.shown.entries ++ rows_in self.now.hidden.entries)))
            (shown_of self.now) }
    {}
}
