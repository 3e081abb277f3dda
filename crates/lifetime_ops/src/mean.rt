// The averages of a Mean, from sums and the count that stands in the last column.
ghost use Rattle.std.specs.Prelude.{◌≡◌, nat_eq, true, cond, IfOk};
ghost use Rattle.std.specs.List.{list_any};
ghost use Rattle.edge_stream.specs.Listing.{cells_of};
ghost use Rattle.plan_laws.specs.Answers.{answered};
ghost use Rattle.plan_laws.specs.Keeping.{plain_cells};
ghost use Rattle.plan_model.specs.CellOps.{datum_int};
ghost use Rattle.plan_model.specs.Means.{mean_of as mean_of_int, mean_row as row_of_means};
ghost use Rattle.lifetime_ops.specs.Nodes.{node_of, answer_kinds, divides_ints};

use crate::change::Change;
use batch::Pools;
use edge_stream::EdgeList;
use smallvec::SmallVec;
use std::alloc::Global;
use tw_rows::{Cells, Datum, Edge, Memory};

// The int that a datum is. One of another kind reads as 0.
fn int_of(datum: Datum) -> i64
    ensures { result ≡ datum_int datum }
{
    match datum {
        Datum::Int(number) => number,
        Datum::Bool(_) | Datum::Text(_) => 0,
    }
}

// The Euclidean quotient of the datum's int by the count, where that is at least 1.
fn mean_of(datum: Datum, count: Datum) -> Datum
    ensures { result ≡ mean_of_int plain_cells (datum_int count) datum }
{
    let count = int_of(count);
    if count > 0 {
        Datum::Int(int_of(datum).div_euclid(count))
    } else {
        datum
    }
}

// What stands in a column: the mean, if it is one of the columns `at`.
fn mean_in(at: &[usize], column: usize, datum: Datum, count: Datum) -> Datum
    ensures { result ≡ cond (list_any (nat_eq column) at.now)
        (mean_of_int plain_cells (datum_int count) datum) datum }
{
    if at.contains(&column) {
        mean_of(datum, count)
    } else {
        datum
    }
}

// The cells but for the last one, the count, and with the means in the columns `at`.
fn mean_row(alloc: Global, at: &[usize], cells: &[Datum]) -> Result<Cells, Memory>
    ensures { IfOk result (λ row. row ≡ row_of_means plain_cells at.now cells.now) }
{
    let Some((count, rest)) = cells.split_last() else {
        return Ok(Cells::new(SmallVec::new(alloc)));
    };
    let mut data = SmallVec::new(alloc);
    for (column, datum) in rest.iter().enumerate() {
        data.push(mean_in(at, column, *datum, *count))?;
    }
    Ok(Cells::new(data))
}

// The edges of a list with their means, for a Mean of the columns `at`.
pub(crate) fn means_of(
    alloc: Global,
    pools: &mut Pools,
    at: &[usize],
    due: EdgeList,
) -> Result<EdgeList, Memory>
    requires capacity { pools.old.capacity ≡ due.capacity }
    requires ints { divides_ints (Change.Mean at.now) (cells_of due) ≡ true }
    ensures edges { IfOk result (λ answer. answer.edges
        ≡ answered (node_of (Change.Mean at.now)) due.edges) }
    ensures kinds { IfOk result (λ answer. cells_of answer
        ≡ answer_kinds (Change.Mean at.now) (cells_of due)) }
    ensures capacity { IfOk result (λ answer. answer.capacity ≡ due.capacity) }
    ensures pools { pools.new.capacity ≡ pools.old.capacity }
    ensures limit { pools.new.limit ≡ pools.old.limit }
{
    let kinds = due.kinds();
    let mut answer = EdgeList::new(
        alloc,
        &kinds[..kinds.len().saturating_sub(1)],
        due.capacity(),
    )?;
    let mut cursor = due.cursor();
    while let Some(edge) = cursor.next()? {
        let mean = Edge {
            sync: edge.sync,
            other: edge.other,
            cells: mean_row(alloc, at, edge.cells.items())?,
        };
        answer.append(pools, &mean)?;
    }
    due.give_back(pools);
    Ok(answer)
}
