// Lists of edges cut into shards by their keys, and put together again.
ghost use Rattle.std.specs.Prelude.{◌≡◌, ◌/◌, ◌%◌, ◌^◌, ◌≤◌, ◌<◌, [], length, map, slice_get, slice_index_or};
ghost use Rattle.std.specs.Prelude.{pos, flat_map, All, Some, IfNone, IfSome, IfOk, OnErr};
ghost use Rattle.tw_rows.specs.Kinds.{cell_kind_of};
ghost use Rattle.tw_rows.specs.Words.{word_of};
ghost use Rattle.tw_rows.specs.Bag.{SameBag};
ghost use Rattle.batch.specs.Rows.{Row};
ghost use Rattle.edge_history.specs.Order.{KeepsOrder};
ghost use Rattle.edge_stream.specs.Listing.{cells_of, IsFilled, SameShape};
ghost use Rattle.edge_stream.specs.Reading.{Unread, IsFirst, is_below_rank};
ghost use Rattle.edge_stream.specs.Shards.{key_cells, hash_of_key, shard_by, edges_in_shard};
ghost use Rattle.edge_stream.specs.Taking.{batches_taken, AreBatchesTaken};

use crate::cursor::Cursor;
use crate::list::EdgeList;
use batch::{Batch, Pools};
use std::alloc::Global;
use tw_rows::{Datum, Kind, Memory, mix_words};

/// What the hash of a key begins with.
const FIRST: u64 = 14695981039346656037;

/// The numbers of shards come from the upper half of a hash, whose bits are mixed best.
const HALF: u64 = 4294967296;

// The hash of the key columns of the row.
fn hash_at(batch: &Batch, row: usize, key: &[usize]) -> u64
    requires row { row < length batch.now.rows }
    requires key { All (λ column. column < length batch.now.kinds) key.now }
    ensures { (r : Row) → slice_get batch.now.rows row ≡ Some r →
        result ≡ hash_of_key (key_cells key.now r.cells) }
{
    let mut hash = FIRST;
    for column in key {
        hash = mix_words(hash, batch.column(*column).datum(row).word());
    }
    hash
}

// The number of the shard of the rows with that hash, of so many.
fn number_of(hash: u64, count: usize) -> usize
    requires { 1 ≤ count }
    ensures { result ≡ (hash / 2 ^ 32) % count }
{
    (hash / HALF % count as u64) as usize
}

/// The number of the row's shard, of so many.
pub(crate) fn shard_at(batch: &Batch, row: usize, count: usize, key: &[usize]) -> usize
    requires row { row < length batch.now.rows }
    requires count { 1 ≤ count }
    requires key { All (λ column. column < length batch.now.kinds) key.now }
    ensures { (r : Row) → slice_get batch.now.rows row ≡ Some r →
        result ≡ shard_by count key.now r.cells }
{
    number_of(hash_at(batch, row, key), count)
}

// The word of the cell in the column, or 0 where there is no such column.
fn word_at(cells: &[Datum], column: usize) -> u64
    ensures { result ≡ word_of (slice_index_or cells.now column (Datum.Int (pos 0))) }
{
    match cells.get(column) {
        Some(datum) => datum.word(),
        None => 0,
    }
}

/// The number of the shard of a row with these cells, of so many, by the columns of its key.
pub fn shard_of_row(cells: &[Datum], count: usize, key: &[usize]) -> usize
    requires { 1 ≤ count }
    ensures { result ≡ shard_by count key.now cells.now }
{
    let mut hash = FIRST;
    for column in key {
        hash = mix_words(hash, word_at(cells, *column));
    }
    number_of(hash, count)
}

impl EdgeList {
    /// A list of the edges of the shard of that number, of so many. A row's shard is told by the hash of
    /// its key columns, so rows of one key are in one shard.
    pub fn copy_where(
        &self,
        pools: &mut Pools,
        number: usize,
        count: usize,
        key: &[usize],
    ) -> Result<EdgeList, Memory>
        requires pools { pools.old.capacity ≡ self.now.capacity }
        requires count { 1 ≤ count }
        requires key { All (λ column. column < length self.now.kinds) key.now }
        ensures edges { IfOk result (λ part. part.edges
            ≡ edges_in_shard count key.now number self.now.edges) }
        ensures shape { IfOk result (λ part. SameShape self.now part) }
        ensures filled { IfOk result IsFilled }
        ensures pools { IfOk result (λ part.
            pools.new ≡ batches_taken part.batches pools.old (cells_of self.now)) }
        ensures err_pools { OnErr result (AreBatchesTaken pools.old pools.new (cells_of self.now)) }
    {
        let mut part = EdgeList::new(self.alloc, &self.kinds, self.capacity)?;
        let mut cursor = self.cursor();
        while let Some(shard) = cursor.shard(count, key) {
            if shard == number {
                cursor.copy_next(pools, &mut part)?;
            } else {
                cursor.advance();
            }
        }
        Ok(part)
    }

    /// The edges of lists whose cells are stored as these kinds tell, in batches of the pools' capacity,
    /// in one list, in order. The lists stay as they are.
    pub fn merged(
        alloc: Global,
        pools: &mut Pools,
        kinds: &[Kind],
        lists: &[EdgeList],
    ) -> Result<EdgeList, Memory>
        requires width { length kinds.now ≤ 32 }
        requires room { 1 ≤ pools.old.capacity }
        requires kinds { All (λ l. cells_of l ≡ map cell_kind_of kinds.now) lists.now }
        ensures edges { IfOk result (λ list. SameBag list.edges
            (flat_map (λ l. l.edges) lists.now)) }
        ensures order { IfOk result (λ list. KeepsOrder list.edges) }
        ensures kinds { IfOk result (λ list. list.kinds ≡ kinds.now) }
        ensures capacity { IfOk result (λ list. list.capacity ≡ pools.old.capacity) }
        ensures filled { IfOk result IsFilled }
        ensures pools { IfOk result (λ list. pools.new
            ≡ batches_taken list.batches pools.old (cells_of list)) }
        ensures err_pools { OnErr result (AreBatchesTaken pools.old pools.new
            (map cell_kind_of kinds.now)) }
    {
        let mut cursors = Vec::with_capacity(alloc, lists.len())?;
        for list in lists {
            cursors.push_reserved(list.cursor());
        }
        let mut whole = EdgeList::new(alloc, kinds, pools.capacity())?;
        while let Some(first) = first_of(&cursors) {
            cursors[first].copy_next(pools, &mut whole)?;
        }
        Ok(whole)
    }
}

// Whether a rank that is there is below the other one, or that one is not there.
fn is_earlier(rank: Option<u64>, than: Option<u64>) -> bool
    ensures { result ≡ is_below_rank rank than }
{
    match (rank, than) {
        (Some(r), Some(s)) => r < s,
        (Some(_), None) => true,
        (None, _) => false,
    }
}

// The place of a cursor whose next edge has the least rank. None where no edge is left.
fn first_of(cursors: &[Cursor<'_>]) -> Option<usize>
    ensures none { IfNone result (All (λ c. c.edges ≡ []) cursors.now) }
    ensures within { IfSome result (λ i. i < length cursors.now) }
    ensures least { IfSome result (λ i. (c : Unread) → slice_get cursors.now i ≡ Some c →
        IsFirst c cursors.now) }
{
    let mut first = None;
    let mut least = None;
    for i in 0..cursors.len() {
        let rank = cursors[i].rank();
        if is_earlier(rank, least) {
            first = Some(i);
            least = rank;
        }
    }
    first
}
