// Buckets by the data of their keys.
ghost use Rattle.std.specs.Prelude.{◌≡◌, ◌+◌, ◌++◌, ℕ, true, false, List, filter, OnOk, OnErr};
ghost use Rattle.tw_rows.specs.Bag.{total};
ghost use Rattle.tw_rows.specs.declared.edge.HeldRow.{HeldRow};
ghost use Rattle.edge_history.specs.Order.{many};
ghost use Rattle.edge_history.specs.Opens.{is_held};
ghost use Rattle.synopsis.specs.Held.{key_of, is_of_key};
ghost use Rattle.synopsis.specs.Buckets.{rows_in, AreKeyed};

use crate::bucket::Bucket;
use crate::spares::{Spare, Spares};
use crate::word_hasher::WordHasher;
use indexmap::IndexMap;
use std::alloc::Global;
use std::hash::BuildHasherDefault;
use tw_rows::{Cells, Datum, HeldRow, Memory, Time};

/// Buckets, each with its key.
pub type KeyBuckets = IndexMap<Vec<Datum>, Bucket, BuildHasherDefault<WordHasher>>;

// Datum by datum, since a key is short.
fn copy_key(owned: &mut Vec<Datum>, key: &[Datum]) -> Result<(), Memory>
    ensures { OnOk result (owned.new.items ≡ owned.old.items ++ key.now) }
{
    for datum in key {
        owned.push(*datum)?;
    }
    Ok(())
}

/// Puts a row into the bucket of its key, which is made where there is none.
pub fn put_row(
    alloc: Global,
    buckets: &mut KeyBuckets,
    spares: &mut Spares,
    key: &[Datum],
    cells: Cells,
    start: Time,
) -> Result<(), Memory>
    ensures rows { OnOk result ((w : HeldRow → ℕ) → total w (rows_in buckets.new.entries)
        ≡ total w (rows_in buckets.old.entries) + w (record { cells = cells; start = start })) }
    ensures keyed { OnOk result ((columns : List ℕ) → key.now ≡ key_of columns cells →
        AreKeyed columns buckets.old.entries → AreKeyed columns buckets.new.entries) }
    ensures err { OnErr result (buckets.new.entries ≡ buckets.old.entries) }
{
    if let Some(bucket) = buckets.get_mut(key) {
        bucket.add(alloc, cells, start)?;
        return Ok(());
    }
    let Spare {
        key: mut owned,
        rows,
    } = spares.next();
    copy_key(&mut owned, key)?;
    buckets.insert(owned, Bucket::of_one(rows, cells, start)?)?;
    Ok(())
}

/// Takes a row with these cells that began then out of the bucket of the key, if there is one. No bucket is left empty.
pub fn take_row(
    buckets: &mut KeyBuckets,
    spares: &mut Spares,
    key: &[Datum],
    cells: &[Datum],
    start: Time,
) -> bool
    ensures taken { result ≡ true → (w : HeldRow → ℕ) → total w (rows_in buckets.old.entries)
        ≡ total w (rows_in buckets.new.entries) + w (record { cells = cells.now; start = start }) }
    ensures none { result ≡ false → (columns : List ℕ) → key.now ≡ key_of columns cells.now →
        AreKeyed columns buckets.old.entries →
        many (is_held cells.now start) (rows_in buckets.old.entries) ≡ 0 }
    ensures unchanged { result ≡ false → buckets.new.entries ≡ buckets.old.entries }
    ensures keyed { (columns : List ℕ) → AreKeyed columns buckets.old.entries →
        AreKeyed columns buckets.new.entries }
{
    let Some(i) = buckets.get_index_of(key) else {
        return false;
    };
    let (_, bucket) = buckets.pair_mut(i);
    if !bucket.take(cells, start) {
        return false;
    }
    if bucket.rows().is_empty() {
        spares.keep(buckets.swap_remove_index(i));
    }
    true
}

/// The rows of a key.
pub fn rows_with<'a>(buckets: &'a KeyBuckets, key: &[Datum]) -> &'a [HeldRow]
    ensures { (columns : List ℕ) → AreKeyed columns buckets.now.entries → result.now
        ≡ filter (is_of_key columns key.now) (rows_in buckets.now.entries) }
{
    // Its call tells the proof that no key stands twice.
    let _ = buckets.len();
    match buckets.get(key) {
        Some(bucket) => bucket.rows(),
        None => &[],
    }
}
