// The hashes of keys that `hash_keys` puts beside the rows of a batch. The values are of the offset and the prime of FNV-1a.
ghost use Rattle.std.specs.Prelude.{◌≡◌, [], ◌∷◌, IfOk};

use batch::{Batch, Pools};
use lane_expr::hash_keys;
use std::alloc::Global;
use std::process::Abort;
use std::test::Fail;
use tw_rows::{CellKind, Cells, Datum, Edge, Kind, Time};

// Adds a row of a number.
fn push_row(rt: &impl Abort, alloc: Global, batch: &mut Batch, number: i64) -> Result<(), Fail>
    requires kinds { batch.old.kinds ≡ CellKind.Whole ∷ [] }
    ensures kinds { batch.new.kinds ≡ batch.old.kinds }
{
    let cells = Cells::from_slice(alloc, &[Datum::Int(number)])?;
    let edge = Edge {
        sync: Time::ZERO,
        other: Time::ZERO,
        cells,
    };
    let pushed = batch.push_edge(&edge);
    assert!(rt; pushed.is_ok());
    Ok(())
}

// A batch of the rows of 0 and -1.
fn two_rows(rt: &impl Abort, alloc: Global) -> Result<Batch, Fail>
    ensures { IfOk result (λ b. b.kinds ≡ CellKind.Whole ∷ []) }
{
    let mut pools = Pools::new(alloc, 8, 2)?;
    let mut batch = Batch::new(alloc, &mut pools, &[Kind::Int])?;
    push_row(rt, alloc, &mut batch, 0)?;
    push_row(rt, alloc, &mut batch, -1)?;
    Ok(batch)
}

fn check_hashes(rt: &impl Abort, batch: &Batch, first: u64, second: u64) {
    assert!(rt; batch.rows() == 2);
    assert_eq!(rt; batch.hash_at(0), first);
    assert_eq!(rt; batch.hash_at(1), second);
}

/// Rows without a key, and then by their one column, whose words are 0 and 2^64 - 1.
#[test]
fn hashes_are_as_defined(rt: HostRuntime) -> Result<(), Fail> {
    let mut batch = two_rows(&rt, rt.alloc())?;
    hash_keys(&mut batch, &[]);
    check_hashes(&rt, &batch, 14695981039346656037, 14695981039346656037);
    hash_keys(&mut batch, &[0]);
    check_hashes(&rt, &batch, 12638153115695167455, 5808589858502755950);
    Ok(())
}
