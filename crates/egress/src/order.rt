// The order of rows, from the cells that stand for them.
ghost use Rattle.std.specs.Prelude.{◌≡◌, List, [], map, slice_index_or, IsPermutation};
ghost use Rattle.std.specs.List.Sorted.{IsSorted};
ghost use Rattle.tw_rows.specs.Cells.{read_datum, read_cells};
ghost use Rattle.tw_rows.specs.Rows.{value_cmp, row_cmp};

use std::cmp::Ordering;
use tw_rows::{Datum, Edge, TextTable};

// The text at the place, and no text where the table does not have it.
fn text_at(texts: &TextTable, place: u64) -> &str
    ensures { result.now ≡ slice_index_or texts.now place [] }
{
    if place < texts.len() {
        texts.text(place)
    } else {
        ""
    }
}

fn cmp_data(a: Datum, b: Datum, texts: &TextTable) -> Ordering
    ensures { result ≡ value_cmp (read_datum texts.now a) (read_datum texts.now b) }
{
    match (a, b) {
        (Datum::Int(x), Datum::Int(y)) => x.cmp(&y),
        (Datum::Int(_), _) => Ordering::Less,
        (_, Datum::Int(_)) => Ordering::Greater,
        (Datum::Bool(x), Datum::Bool(y)) => x.cmp(&y),
        (Datum::Bool(_), _) => Ordering::Less,
        (_, Datum::Bool(_)) => Ordering::Greater,
        (Datum::Text(x), Datum::Text(y)) => text_at(texts, x).cmp(text_at(texts, y)),
    }
}

// How the rows compare for which the cells stand. No row is made.
fn cmp_cells(a: &[Datum], b: &[Datum], texts: &TextTable) -> Ordering
    ensures { result ≡ row_cmp (read_cells texts.now a.now) (read_cells texts.now b.now) }
{
    for i in 0..a.len().min(b.len()) {
        match cmp_data(a[i], b[i], texts) {
            Ordering::Less => return Ordering::Less,
            Ordering::Greater => return Ordering::Greater,
            Ordering::Equal => {}
        }
    }
    a.len().cmp(&b.len())
}

// Puts the edges in the order of their rows, in place.
pub(crate) fn sort_by_row(edges: &mut Vec<Edge>, texts: &TextTable)
    ensures same { IsPermutation edges.old.items edges.new.items }
    ensures sorted { IsSorted row_cmp (map (λ e. read_cells texts.now e.cells) edges.new.items) }
{
    edges.sort_unstable_by(|a, b| cmp_cells(a.cells.items(), b.cells.items(), texts));
}
