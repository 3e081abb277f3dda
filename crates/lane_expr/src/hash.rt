// The keys and hashes of rows.
ghost use Rattle.std.specs.Prelude.{◌≡◌, ◌<◌, length, All, pos, slice_index_or};
ghost use Rattle.lane_expr.specs.Running.{cells_of};
ghost use Rattle.lane_expr.specs.Hash.{key_of, hash_of, hashed};

use batch::Batch;
use tw_rows::{Datum, mix_words};

/// What a hash begins with.
const FIRST: u64 = 14695981039346656037;

/// Sets the key and the hash of each row, occupied or not, by its key columns. Rows whose key columns are equal
/// have equal hashes, whatever their batch.
pub fn hash_keys(batch: &mut Batch, key: &[usize])
    requires { All (λ column. column < length batch.old.kinds) key.now }
    ensures { batch.new ≡ record batch.old { rows = hashed key.now batch.old.rows } }
{
    for row in 0..batch.rows() {
        let first = first_word(batch, row, key);
        let hash = hash_at(batch, row, key);
        batch.mark(row, first, hash);
    }
}

// The cell of the row in that column.
fn cell_at(batch: &Batch, row: usize, column: usize) -> Datum
    requires row { row < length batch.now.rows }
    requires column { column < length batch.now.kinds }
    ensures { result ≡ slice_index_or (cells_of batch.now.rows row) column (Datum.Int (pos 0)) }
{
    batch.column(column).datum(row)
}

// The word of the first key column, or 0 where there is none.
fn first_word(batch: &Batch, row: usize, key: &[usize]) -> u64
    requires row { row < length batch.now.rows }
    requires key { All (λ column. column < length batch.now.kinds) key.now }
    ensures { result ≡ key_of (cells_of batch.now.rows row) key.now }
{
    match key.first() {
        Some(column) => cell_at(batch, row, *column).word(),
        None => 0,
    }
}

// The hash of the key columns.
fn hash_at(batch: &Batch, row: usize, key: &[usize]) -> u64
    requires row { row < length batch.now.rows }
    requires key { All (λ column. column < length batch.now.kinds) key.now }
    ensures { result ≡ hash_of (cells_of batch.now.rows row) key.now }
{
    let mut hash = FIRST;
    for column in key {
        hash = mix_words(hash, cell_at(batch, row, *column).word());
    }
    hash
}
