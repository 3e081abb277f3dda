// Groups, and the rows with the greatest values.
ghost use Rattle.std.specs.Prelude.{◌≡◌, ◌++◌, ◌∷◌, [], ok_or, Ok, IfOk, nat_le};
ghost use Rattle.plan_model.specs.declared.agg.Agg.TheVariants as A;
ghost use Rattle.plan_model.specs.declared.fault.QueryFault.TheVariants as F;
ghost use Rattle.query_plan.specs.Names.{column_of as column_named, aggs_of};
ghost use Rattle.query_plan.specs.Types.{is_number};
ghost use Rattle.query_plan.specs.Schemas.{column_at, count_column, averages_from};
ghost use Rattle.query_plan.specs.Answer.{Is};
ghost use Rattle.query_plan.specs.Steps.{has_average, grouped, group_step, is_top_count, top_step};

use crate::checks::needs;
use crate::draft::PlannedNode;
use crate::names::{aggs_of, column_of};
use crate::schemas::{aggs_fit, averages, counted_schema, group_schema};
use crate::steps::{StepContext, found};
use crate::types::is_number;
use plan_model::{Agg, AggList, Key, Node, QueryError, QueryFault};
use query_text::{AggFun, NameList, QueryAgg};
use std::alloc::Global;
use tw_rows::{ColumnDef, Kind, Label, Memory};

// The aggregates over the columns that they name.
fn computed(
    alloc: Global,
    item: usize,
    schema: &[ColumnDef],
    aggs: &query_text::AggList,
) -> Result<AggList, QueryError>
    ensures { Is (λ a. a) result (ok_or (aggs_of schema.now aggs.now) (F.UnknownName item)) }
{
    let told = aggs_of(alloc, schema, aggs.items())?;
    found(told, QueryFault::UnknownName { item })
}

// Whether one of the aggregates is an average.
fn has_average(aggs: &[QueryAgg]) -> bool
    ensures { result ≡ has_average aggs.now }
{
    aggs.iter().any(|agg| matches!(agg.fun, AggFun::Avg))
}

// The aggregates, and a count behind them.
fn with_count(alloc: Global, aggs: &[Agg]) -> Result<AggList, Memory>
    ensures { IfOk result (λ list. list ≡ aggs.now ++ A.Count ∷ []) }
{
    let mut counted = Vec::new(alloc);
    counted.extend_from_slice(aggs)?;
    counted.push(Agg::Count)?;
    Ok(AggList::from_vec(counted))
}

// The column of that name.
fn column_named(item: usize, schema: &[ColumnDef], name: &Label) -> Result<usize, QueryError>
    ensures { Is (λ n. n) result (ok_or (column_named schema.now name.now) (F.UnknownName item)) }
{
    found(
        column_of(schema, name.as_str()),
        QueryFault::UnknownName { item },
    )
}

// Whether the column of that number holds numbers. A number that is no column's counts as one of ints.
fn is_numeric(schema: &[ColumnDef], column: usize) -> bool
    ensures { result ≡ is_number (column_at schema.now column).kind }
{
    match schema.get(column) {
        Some(column) => is_number(column.kind),
        None => true,
    }
}

// Whether a `top` may ask for so many values.
fn is_top_count(count: u64) -> bool
    ensures { result ≡ is_top_count count }
{
    count >= 1 && count <= 1000
}

impl<'a> StepContext<'a> {
    // The nodes of a group: one, or two where there are averages.
    fn grouped(
        &self,
        key: Key,
        aggs: &[QueryAgg],
        computed: AggList,
    ) -> Result<Vec<PlannedNode>, Memory>
        ensures { IfOk result
            (λ v. v.items ≡ grouped self.now.draft.now self.now.at key aggs.now computed) }
    {
        let before = self.draft.schema_at(self.at);
        let schema = group_schema(self.alloc, before, key.items(), aggs, computed.items())?;
        if !has_average(aggs) {
            let node = Node::Group {
                of: self.at,
                key,
                aggs: computed,
            };
            let nodes = vec![in self.alloc; PlannedNode { node, schema }]?;
            return Ok(nodes);
        }
        let counted = counted_schema(self.alloc, before, key.items(), aggs, computed.items())?;
        let mean = Node::Mean {
            of: self.draft.len(),
            at: Key::from_vec(averages(self.alloc, key.items().len(), aggs)?),
        };
        let sums = Node::Group {
            of: self.at,
            key,
            aggs: with_count(self.alloc, computed.items())?,
        };
        let nodes = vec![in self.alloc;
            PlannedNode {
                node: sums,
                schema: counted
            },
            PlannedNode { node: mean, schema },
        ]?;
        Ok(nodes)
    }

    /// A key, and aggregates of numbers.
    pub(crate) fn group_step(
        &self,
        names: &NameList,
        aggs: &query_text::AggList,
    ) -> Result<Vec<PlannedNode>, QueryError>
        ensures { Is (λ v. v.items) result
            (group_step self.now.item self.now.draft.now self.now.at names.now aggs.now) }
    {
        let before = self.draft.schema_at(self.at);
        let key = self.key_columns(before, names)?;
        let computed = computed(self.alloc, self.item, before, aggs)?;
        let fit = aggs_fit(before, aggs.items());
        needs(fit, QueryFault::TypeClash { item: self.item })?;
        let nodes = self.grouped(key, aggs.items(), computed)?;
        Ok(nodes)
    }

    /// The rows with the greatest values in a column of numbers, for each value of a key.
    pub(crate) fn top_step(
        &self,
        count: u64,
        names: &NameList,
        by: &Label,
    ) -> Result<Vec<PlannedNode>, QueryError>
        ensures { Is (λ v. v.items) result
            (top_step self.now.item self.now.draft.now self.now.at count names.now by.now) }
    {
        let before = self.draft.schema_at(self.at);
        let key = self.key_columns(before, names)?;
        let column = column_named(self.item, before, by)?;
        let fit = is_numeric(before, column);
        needs(fit, QueryFault::TypeClash { item: self.item })?;
        needs(
            is_top_count(count),
            QueryFault::BadWindow { item: self.item },
        )?;
        self.alone(Node::Top {
            of: self.at,
            key,
            by: column,
            count,
        })
    }
}
