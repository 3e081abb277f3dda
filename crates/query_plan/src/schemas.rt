// The columns that steps make, and how keys, aggregates and schemas fit together.
ghost use Rattle.std.specs.Prelude.{◌≡◌, ◌+◌, ◌<◌, ◌^◌, ◌++◌, ◌∷◌, [], nat_eq, IfOk, OnOk, length, map, slice_get};
ghost use lib.Pointwise.{pointwise};
ghost use Rattle.query_plan.specs.Types.{same_kind, kinds};
ghost use Rattle.std.specs.List.{list_any};
ghost use Rattle.query_plan.specs.Schemas.{column_at, select_schema, agg_kind, agg_columns};
ghost use Rattle.query_plan.specs.Schemas.{group_schema, count_column, join_schema, same_kinds};
ghost use Rattle.query_plan.specs.Schemas.{kinds_of_key, keys_alike, fun_takes, agg_fits};
ghost use Rattle.query_plan.specs.Schemas.{aggs_fit, is_avg, averages_from, fills_fit};
ghost use Rattle.query_plan.specs.Schemas.{same_name, name_twice, key_twice};

use crate::names::agg_column;
use crate::types::{is_number, nth_kind, same_kind};
use plan_model::Agg;
use query_text::{AggFun, Item, QueryAgg};
use std::alloc::Global;
use tw_rows::{ColumnDef, Kind, Label, Memory, Schema};

/// A copy of the columns.
pub fn copied(alloc: Global, columns: &[ColumnDef]) -> Result<Schema, Memory>
    ensures { IfOk result (λ s. s ≡ columns.now) }
{
    let mut all = Vec::new(alloc);
    push_copies(columns, &mut all)?;
    Ok(Schema::from_vec(all))
}

// Puts copies of the columns behind the others.
fn push_copies(columns: &[ColumnDef], all: &mut Vec<ColumnDef>) -> Result<(), Memory>
    ensures { OnOk result (all.new.items ≡ all.old.items ++ columns.now) }
{
    for column in columns {
        all.push(column.clone()?)?;
    }
    Ok(())
}

// The column of that name and kind.
fn column_with(name: &Label, kind: Kind) -> Result<ColumnDef, Memory>
    ensures { IfOk result (λ c. c ≡ record { name = name.now; kind = kind }) }
{
    Ok(ColumnDef {
        name: name.clone()?,
        kind,
    })
}

/// The columns of a select, where `kinds` are those of its expressions.
pub fn select_schema(alloc: Global, items: &[Item], kinds: &[Kind]) -> Result<Schema, Memory>
    ensures { IfOk result (λ s. s ≡ select_schema items.now kinds.now) }
{
    let mut all = Vec::new(alloc);
    for (i, item) in items.iter().enumerate() {
        match nth_kind(kinds, i) {
            Some(kind) => all.push(column_with(&item.name, kind)?)?,
            None => return Ok(Schema::from_vec(all)),
        }
    }
    Ok(Schema::from_vec(all))
}

/// The columns of a group: those of the key, in its order, and one for each aggregate, where `computed` are these over the
/// columns. A number of the key that is no column's gives an int without a name.
pub fn group_schema(
    alloc: Global,
    schema: &[ColumnDef],
    key: &[usize],
    aggs: &[QueryAgg],
    computed: &[Agg],
) -> Result<Schema, Memory>
    ensures { IfOk result (λ s. s ≡ group_schema schema.now key.now aggs.now computed.now) }
{
    let columns = group_columns(alloc, schema, key, aggs, computed)?;
    Ok(Schema::from_vec(columns))
}

/// The columns of a group that has averages: those of `group_schema`, and the count by which they are divided.
pub fn counted_schema(
    alloc: Global,
    schema: &[ColumnDef],
    key: &[usize],
    aggs: &[QueryAgg],
    computed: &[Agg],
) -> Result<Schema, Memory>
    ensures { IfOk result (λ s. s ≡ group_schema schema.now key.now aggs.now computed.now
        ++ count_column ∷ []) }
{
    let mut columns = group_columns(alloc, schema, key, aggs, computed)?;
    let count = ColumnDef {
        name: Label::new(alloc, "count")?,
        kind: Kind::Int,
    };
    columns.push(count)?;
    Ok(Schema::from_vec(columns))
}

// The columns of a group as they are made.
fn group_columns(
    alloc: Global,
    schema: &[ColumnDef],
    key: &[usize],
    aggs: &[QueryAgg],
    computed: &[Agg],
) -> Result<Vec<ColumnDef>, Memory>
    ensures { IfOk result (λ s. s.items ≡ group_schema schema.now key.now aggs.now computed.now) }
{
    let mut all = Vec::new(alloc);
    for column in key {
        all.push(column_copy(alloc, schema, *column)?)?;
    }
    push_aggs(schema, aggs, computed, &mut all)?;
    Ok(all)
}

// A copy of the column of that number.
fn column_copy(alloc: Global, schema: &[ColumnDef], column: usize) -> Result<ColumnDef, Memory>
    ensures { IfOk result (λ c. c ≡ column_at schema.now column) }
{
    match schema.get(column) {
        Some(column) => Ok(column.clone()?),
        None => Ok(ColumnDef {
            name: Label::new(alloc, "")?,
            kind: Kind::Int,
        }),
    }
}

// Puts the columns of the aggregates behind the others.
fn push_aggs(
    schema: &[ColumnDef],
    aggs: &[QueryAgg],
    computed: &[Agg],
    all: &mut Vec<ColumnDef>,
) -> Result<(), Memory>
    ensures { OnOk result (all.new.items ≡ all.old.items
        ++ agg_columns schema.now aggs.now computed.now) }
{
    for (i, agg) in aggs.iter().enumerate() {
        match nth_agg_kind(schema, computed, i) {
            Some(kind) => all.push(column_with(&agg.name, kind)?)?,
            None => return Ok(()),
        }
    }
    Ok(())
}

// The kind of the aggregate of that number.
fn nth_agg_kind(schema: &[ColumnDef], computed: &[Agg], number: usize) -> Option<Kind>
    ensures { result ≡ slice_get (map (agg_kind schema.now) computed.now) number }
{
    match computed.get(number) {
        Some(agg) => Some(agg_kind(schema, agg)),
        None => None,
    }
}

// The kind of an aggregate.
fn agg_kind(schema: &[ColumnDef], agg: &Agg) -> Kind
    ensures { result ≡ agg_kind schema.now agg.now }
{
    match agg {
        Agg::Count => Kind::Int,
        Agg::Sum(column) | Agg::Least(column) | Agg::Greatest(column) => kind_at(schema, *column),
    }
}

/// The columns of a join: the left ones, then those of the right ones that stand in no key.
pub fn join_schema(
    alloc: Global,
    left: &[ColumnDef],
    right: &[ColumnDef],
    right_key: &[usize],
) -> Result<Schema, Memory>
    ensures { IfOk result (λ s. s ≡ join_schema left.now right.now right_key.now) }
{
    let mut all = Vec::new(alloc);
    push_copies(left, &mut all)?;
    for (i, column) in right.iter().enumerate() {
        if !is_in(i, right_key) {
            all.push(column.clone()?)?;
        }
    }
    Ok(Schema::from_vec(all))
}

// Whether the number stands in the key.
fn is_in(column: usize, key: &[usize]) -> bool
    ensures { result ≡ list_any (nat_eq column) key.now }
{
    for other in key {
        if column == *other {
            return true;
        }
    }
    false
}

/// Whether two schemas have as many columns and the same kinds, column by column. Names do not count.
pub fn same_kinds(left: &[ColumnDef], right: &[ColumnDef]) -> bool
    ensures { result ≡ same_kinds left.now right.now }
{
    if left.len() != right.len() {
        return false;
    }
    for (i, column) in left.iter().enumerate() {
        if !same_kind(column.kind, right[i].kind) {
            return false;
        }
    }
    true
}

/// Whether two keys have as many columns and the same kinds, one by one. A number that is no column's counts as an int.
pub fn keys_alike(
    left: &[ColumnDef],
    right: &[ColumnDef],
    left_key: &[usize],
    right_key: &[usize],
) -> bool
    ensures { result ≡ keys_alike left.now right.now left_key.now right_key.now }
{
    if left_key.len() != right_key.len() {
        return false;
    }
    for (i, column) in left_key.iter().enumerate() {
        if !same_kind(kind_at(left, *column), kind_at(right, right_key[i])) {
            return false;
        }
    }
    true
}

// The kind of the column of that number.
fn kind_at(schema: &[ColumnDef], column: usize) -> Kind
    ensures { result ≡ (column_at schema.now column).kind }
{
    match schema.get(column) {
        Some(column) => column.kind,
        None => Kind::Int,
    }
}

/// Whether what is summed or compared is a number, and what is averaged an int. A name that is no column's fits.
pub fn aggs_fit(schema: &[ColumnDef], aggs: &[QueryAgg]) -> bool
    ensures { result ≡ aggs_fit schema.now aggs.now }
{
    for agg in aggs {
        if !agg_fits(schema, agg) {
            return false;
        }
    }
    true
}

// Whether the aggregate takes the values of its column.
fn agg_fits(schema: &[ColumnDef], agg: &QueryAgg) -> bool
    ensures { result ≡ agg_fits schema.now agg.now }
{
    match agg_column(schema, agg) {
        Some(column) => fun_takes(agg.fun, kind_at(schema, column)),
        None => true,
    }
}

// Whether an aggregate takes values of the kind.
fn fun_takes(fun: AggFun, kind: Kind) -> bool
    ensures { result ≡ fun_takes fun kind }
{
    match fun {
        AggFun::Count => true,
        AggFun::Sum | AggFun::Min | AggFun::Max => is_number(kind),
        AggFun::Avg => same_kind(kind, Kind::Int),
    }
}

/// The numbers of the columns of the averages, where the first aggregate has the column of number `first`.
pub fn averages(alloc: Global, first: usize, aggs: &[QueryAgg]) -> Result<Vec<usize>, Memory>
    requires { first + length aggs.now < 2 ^ 64 }
    ensures { IfOk result (λ v. v.items ≡ averages_from first aggs.now) }
{
    let mut columns = Vec::new(alloc);
    for (i, agg) in aggs.iter().enumerate() {
        if is_average(agg.fun) {
            columns.push(first + i)?;
        }
    }
    Ok(columns)
}

// Whether an aggregate is an average.
fn is_average(fun: AggFun) -> bool
    ensures { result ≡ is_avg fun }
{
    matches!(fun, AggFun::Avg)
}

/// Whether `kinds`, those of the literals of a `left`, are those of the right columns outside the key, one for each.
pub fn fills_fit(
    alloc: Global,
    right: &[ColumnDef],
    right_key: &[usize],
    kinds: &[Kind],
) -> Result<bool, Memory>
    ensures { IfOk result (λ fit. fit ≡ fills_fit right.now right_key.now kinds.now) }
{
    let filled = join_schema(alloc, &[], right, right_key)?;
    Ok(are_of_kinds(filled.items(), kinds))
}

// Whether the columns are of these kinds, one for each.
fn are_of_kinds(columns: &[ColumnDef], wanted: &[Kind]) -> bool
    ensures { result ≡ pointwise same_kind (kinds columns.now) wanted.now }
{
    if columns.len() != wanted.len() {
        return false;
    }
    for (i, column) in columns.iter().enumerate() {
        if !same_kind(column.kind, wanted[i]) {
            return false;
        }
    }
    true
}

/// Whether two columns have one name.
pub fn name_twice(schema: &[ColumnDef]) -> bool
    ensures { result ≡ name_twice schema.now }
{
    for (i, column) in schema.iter().enumerate() {
        if has_name(column, &schema[i + 1..]) {
            return true;
        }
    }
    false
}

// Whether one of the others has the column's name.
fn has_name(column: &ColumnDef, others: &[ColumnDef]) -> bool
    ensures { result ≡ list_any (same_name column.now) others.now }
{
    for other in others {
        if column.name.as_str() == other.name.as_str() {
            return true;
        }
    }
    false
}

/// Whether a key names a column twice.
pub fn key_twice(key: &[usize]) -> bool
    ensures { result ≡ key_twice key.now }
{
    for (i, column) in key.iter().enumerate() {
        if is_in(*column, &key[i + 1..]) {
            return true;
        }
    }
    false
}
