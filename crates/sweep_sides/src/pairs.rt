// The columns of the pairs of a left row and a right row.
ghost use Rattle.std.specs.Prelude.{◌≡◌, ◌++◌, ◌∷◌, [], nat_eq, cond, IfOk, OnOk};
ghost use Rattle.std.specs.List.{list_any};
ghost use Rattle.plan_model.specs.Keys.{paired_row};

use smallvec::SmallVec;
use std::alloc::Global;
use tw_rows::{Cells, Datum, Kind, Memory, SHORT_ROW};

fn is_among(columns: &[usize], column: usize) -> bool
    ensures { result ≡ list_any (nat_eq column) columns.now }
{
    for c in columns {
        if column == *c {
            return true;
        }
    }
    false
}

// Puts the datum of a column last, where the column stands in no key.
fn push_outside(
    row: &mut SmallVec<Datum, SHORT_ROW>,
    key: &[usize],
    column: usize,
    datum: Datum,
) -> Result<(), Memory>
    ensures { OnOk result (row.new.items ≡ row.old.items ++ cond
        (list_any (nat_eq column) key.now) [] (datum ∷ [])) }
{
    if is_among(key, column) {
        return Ok(());
    }
    row.push(datum)?;
    Ok(())
}

/// The left row, followed by what the right row has in no column of its key.
pub fn pair_cells(
    alloc: Global,
    right_key: &[usize],
    left: &[Datum],
    right: &[Datum],
) -> Result<Cells, Memory>
    ensures { IfOk result (λ cells. cells ≡ paired_row right_key.now left.now right.now) }
{
    let mut data = SmallVec::new(alloc);
    data.extend_from_slice(left)?;
    for i in 0..right.len() {
        push_outside(&mut data, right_key, i, right[i])?;
    }
    Ok(Cells::new(data))
}

// Puts the kind of a column last, where the column stands in no key.
fn push_kind(kinds: &mut Vec<Kind>, key: &[usize], column: usize, kind: Kind) -> Result<(), Memory>
    ensures { OnOk result (kinds.new.items ≡ kinds.old.items ++ cond
        (list_any (nat_eq column) key.now) [] (kind ∷ [])) }
{
    if is_among(key, column) {
        return Ok(());
    }
    kinds.push(kind)?;
    Ok(())
}

/// The kinds of the columns of a pair: those of the left row, and those of the right row in no column of its key.
pub fn pair_kinds(
    alloc: Global,
    right_key: &[usize],
    left: &[Kind],
    right: &[Kind],
) -> Result<Vec<Kind>, Memory>
    ensures { IfOk result (λ kinds. kinds.items ≡ paired_row right_key.now left.now right.now) }
{
    let mut kinds = Vec::from_slice(alloc, left)?;
    for i in 0..right.len() {
        push_kind(&mut kinds, right_key, i, right[i])?;
    }
    Ok(kinds)
}
