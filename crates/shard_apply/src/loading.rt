// Going on from what the shards of a node saved.
ghost use Rattle.std.specs.Prelude.{◌≡◌, ◌↔◌, ◌≤◌, ◌<◌, ℕ, true, false, is_err, List, length, map, slice_index_or};
ghost use Rattle.std.specs.Prelude.{All, IsTrue, IfOk, IfErr, OnOk};
ghost use Rattle.std.specs.List.{range_with_len};
ghost use Rattle.edge_stream.specs.declared.saved.SavedEntry.{SavedEntry};
ghost use Rattle.edge_stream.specs.Standing.{IsLike, Implies};
ghost use Rattle.shard_apply.specs.Saving.{is_row_of, AreRowsOf, AreSound, AreOwn, ShardsResume, HasLoaded};
ghost use Rattle.shard_apply.specs.Whole.{standing_in, AreInStep, AreNew, ShardsKeep};
ghost use Rattle.shard_apply.specs.Shards.{rooms_of};

use crate::shard::Shard;
use crate::sharded::Sharded;
use edge_stream::{LoadFault, Operator, PartRow, Saved, SavedEntry, shard_of_row};
use std::alloc::Global;
use tw_rows::{Memory, Time};

// The columns of the keys of the rows that are saved, and how many shards there are.
#[derive(Clone, Copy)]
struct RowKeys<'a> {
    left: &'a [usize],
    right: &'a [usize],
    // The first columns, as many as the left key has.
    first: &'a [usize],
    count: usize,
}

impl<O: Operator> Sharded<O> {
    /// Takes up what was saved, entries for each operator, with sides that are closed up to the two times. It is refused where
    /// the entries of an operator are no state of it, or hold a row of another shard. After a fault nothing more may be done.
    pub fn load(&mut self, saved: &[Saved], left_to: Time, right_to: Time) -> Result<(), LoadFault>
        requires opening { AreNew O.is_opening O.standing self.old }
        requires many { length saved.now ≡ length self.old.operators }
        ensures resumed { OnOk result
            (Implies (ShardsResume O.standing O.resumes self.old saved.now left_to right_to)
            (ShardsKeep O.standing O.keeps self.new)) }
        ensures sound { OnOk result (AreSound O.sound self.old saved.now left_to right_to) }
        ensures own { OnOk result (AreOwn O.row_of_part self.old saved.now) }
        ensures refused { IfErr result (λ fault. fault ≡ LoadFault.NotState →
            AreSound O.sound self.old saved.now left_to right_to →
            AreOwn O.row_of_part self.old saved.now → ⊥) }
        ensures left_to { OnOk result ((standing_in O.standing self.new).left_closed ≡ left_to) }
        ensures right_to { OnOk result ((standing_in O.standing self.new).right_closed ≡ right_to) }
        ensures failed { (standing_in O.standing self.new).has_failed ≡ is_err result }
        ensures like { IsLike (standing_in O.standing self.old) (standing_in O.standing self.new) }
        ensures shards { length self.new.operators ≡ length self.old.operators }
    {
        let loaded = load_shards(
            self.alloc,
            &mut self.shards,
            &self.left_key,
            &self.right_key,
            saved,
            left_to,
            right_to,
        );
        self.failed = loaded.is_err();
        loaded
    }

    /// Whether the entries for each operator are of rows of its shard. No step failed.
    pub fn are_own(&self, saved: &[Saved]) -> Result<bool, Memory>
        requires works { self.now.failed ≡ false }
        requires many { length saved.now ≡ length self.now.operators }
        ensures in_step { AreInStep
            (map O.standing self.now.operators) self.now.left_key self.now.right_key }
        ensures own { IfOk result (λ own. IsTrue own ↔ AreOwn O.row_of_part self.now saved.now) }
    {
        let first = columns_below(self.alloc, self.left_key.len())?;
        let keys = RowKeys {
            left: &self.left_key,
            right: &self.right_key,
            first: &first,
            count: self.shards.len(),
        };
        for i in 0..saved.len() {
            if !are_rows_of::<O>(&saved[i], i, &keys) {
                return Ok(false);
            }
        }
        Ok(true)
    }
}

// Takes up the entries of each shard.
fn load_shards<O: Operator>(
    alloc: Global,
    shards: &mut [Shard<O>],
    left_key: &[usize],
    right_key: &[usize],
    saved: &[Saved],
    left_to: Time,
    right_to: Time,
) -> Result<(), LoadFault>
    requires some { 1 ≤ length shards.old }
    requires opening { All (λ s. O.is_opening s.operator) shards.old }
    requires many { length saved.now ≡ length shards.old }
    ensures loaded { OnOk result ((i : ℕ) (d : Shard O) (e : List SavedEntry) →
        i < length shards.old → HasLoaded (O.resumes (slice_index_or shards.old i d).operator
        (slice_index_or saved.now i e) left_to right_to)
        (O.keeps (slice_index_or shards.new i d).operator)
        (O.sound (slice_index_or shards.old i d).operator
        (slice_index_or saved.now i e) left_to right_to)
        (AreRowsOf O.row_of_part (length shards.old) left_key.now right_key.now
        (range_with_len 0 (length left_key.now)) i (slice_index_or saved.now i e))
        (O.standing (slice_index_or shards.new i d).operator) left_to right_to) }
    ensures refused { IfErr result (λ fault. fault ≡ LoadFault.NotState →
        ((i : ℕ) (d : Shard O) (e : List SavedEntry) → i < length shards.old →
        O.sound (slice_index_or shards.old i d).operator
        (slice_index_or saved.now i e) left_to right_to) →
        ((i : ℕ) (e : List SavedEntry) → i < length shards.old →
        AreRowsOf O.row_of_part (length shards.old) left_key.now right_key.now
        (range_with_len 0 (length left_key.now)) i (slice_index_or saved.now i e)) → ⊥) }
    ensures like { (i : ℕ) (d : Shard O) → i < length shards.old →
        IsLike (O.standing (slice_index_or shards.old i d).operator)
        (O.standing (slice_index_or shards.new i d).operator) }
    ensures capacities { rooms_of shards.new ≡ rooms_of shards.old }
{
    let Ok(first) = columns_below(alloc, left_key.len()) else {
        return Err(LoadFault::Memory);
    };
    let keys = RowKeys {
        left: left_key,
        right: right_key,
        first: &first,
        count: shards.len(),
    };
    for i in 0..shards.len() {
        if let Err(fault) = load_shard(&mut shards[i], i, &keys, &saved[i], left_to, right_to) {
            return Err(fault);
        }
    }
    Ok(())
}

// The columns 0 to n - 1.
fn columns_below(alloc: Global, n: usize) -> Result<Vec<usize>, Memory>
    ensures { IfOk result (λ columns. columns.items ≡ range_with_len 0 n) }
{
    let mut columns = Vec::with_capacity(alloc, n)?;
    for column in 0..n {
        columns.push_reserved(column);
    }
    Ok(columns)
}

// Takes up the entries of one shard.
fn load_shard<O: Operator>(
    shard: &mut Shard<O>,
    number: usize,
    keys: &RowKeys<'_>,
    saved: &Saved,
    left_to: Time,
    right_to: Time,
) -> Result<(), LoadFault>
    requires opening { O.is_opening shard.old.operator }
    requires count { 1 ≤ keys.now.count }
    ensures loaded { OnOk result (HasLoaded
        (O.resumes shard.old.operator saved.now left_to right_to) (O.keeps shard.new.operator)
        (O.sound shard.old.operator saved.now left_to right_to)
        (AreRowsOf O.row_of_part keys.now.count keys.now.left.now keys.now.right.now
        keys.now.first.now number saved.now) (O.standing shard.new.operator) left_to right_to) }
    ensures refused { IfErr result (λ fault. fault ≡ LoadFault.NotState →
        O.sound shard.old.operator saved.now left_to right_to →
        AreRowsOf O.row_of_part keys.now.count keys.now.left.now keys.now.right.now
        keys.now.first.now number saved.now → ⊥) }
    ensures like { IsLike (O.standing shard.old.operator) (O.standing shard.new.operator) }
    ensures capacity { shard.new.pools.capacity ≡ shard.old.pools.capacity }
{
    if !are_rows_of::<O>(saved, number, keys) {
        return Err(LoadFault::NotState);
    }
    shard.operator.load(saved, left_to, right_to)
}

// Whether all entries are of rows of the shard of that number.
fn are_rows_of<O: Operator>(saved: &Saved, number: usize, keys: &RowKeys<'_>) -> bool
    requires { 1 ≤ keys.now.count }
    ensures { IsTrue result ↔ AreRowsOf O.row_of_part keys.now.count keys.now.left.now
        keys.now.right.now keys.now.first.now number saved.now }
{
    for entry in saved.entries() {
        if !is_row_of_shard::<O>(entry, number, keys) {
            return false;
        }
    }
    true
}

// Whether the entry is of a row of the shard of that number.
fn is_row_of_shard<O: Operator>(entry: &SavedEntry, number: usize, keys: &RowKeys<'_>) -> bool
    requires { 1 ≤ keys.now.count }
    ensures { result ≡ is_row_of keys.now.count keys.now.left.now keys.now.right.now
        keys.now.first.now number entry.now.cells (O.row_of_part entry.now.part) }
{
    match O::part_row(entry.part) {
        None => false,
        Some(row) => {
            let key = match row {
                PartRow::Left | PartRow::Own => keys.left,
                PartRow::Right => keys.right,
                PartRow::KeyFirst => keys.first,
            };
            shard_of_row(entry.cells.items(), keys.count, key) == number
        }
    }
}
