// The nodes that a step makes, or its first fault.
ghost use Rattle.std.specs.Prelude.{◌≡◌, ◌∷◌, [], ok_or, Ok};
ghost use Rattle.tw_rows.specs.declared.kind.Kind.TheVariants as K;
ghost use Rattle.plan_model.specs.declared.fault.QueryFault.TheVariants as F;
ghost use Rattle.query_plan.specs.Names.{key_of};
ghost use Rattle.query_plan.specs.Types.{same_kind, types_of};
ghost use Rattle.query_plan.specs.Answer.{Is};
ghost use Rattle.query_plan.specs.Steps.{operand, over_events, alone, where_step, select_step};
ghost use Rattle.query_plan.specs.Steps.{union_step, duration_step, extend_step, is_window};
ghost use Rattle.query_plan.specs.Steps.{hop_step, session_step, step_nodes};

use crate::checks::needs;
use crate::draft::{Draft, PlannedNode};
use crate::names::{expr_of, exprs_of, key_of};
use crate::schemas::{copied, same_kinds, select_schema};
use crate::types::{type_of, types_of};
use plan_model::{Key, Node, QueryError, QueryFault};
use query_text::{ItemList, NameList, QueryStep, Tree};
use std::alloc::Global;
use tw_rows::{ColumnDef, Kind, Label, Schema};

/// A step that is planned: the number of its item, what is planned before it, and the number of the node that it works on.
#[derive(Clone, Copy)]
pub(crate) struct StepContext<'a> {
    pub(crate) alloc: Global,
    pub(crate) item: usize,
    pub(crate) draft: &'a Draft,
    pub(crate) at: usize,
}

/// What was found, or the fault where there is nothing.
pub(crate) fn found<T: Drop>(value: Option<T>, fault: QueryFault) -> Result<T, QueryError>
    ensures { Is (λ x. x) result (ok_or value fault) }
{
    match value {
        Some(x) => Ok(x),
        None => Err(QueryError::Fault(fault)),
    }
}

/// The node that an operand, or a base, names.
pub(crate) fn operand(item: usize, draft: &Draft, name: &Label) -> Result<usize, QueryError>
    ensures { Is (λ n. n) result (operand item draft.now name.now) }
{
    found(
        draft.node_named(name.as_str()),
        QueryFault::UnknownName { item },
    )
}

fn is_bool(kind: Kind) -> bool
    ensures { result ≡ same_kind kind K.Bool }
{
    matches!(kind, Kind::Bool)
}

// The kinds of the items of a select.
fn kinds_of(
    alloc: Global,
    item: usize,
    schema: &[ColumnDef],
    items: &ItemList,
) -> Result<Vec<Kind>, QueryError>
    ensures { Is (λ v. v.items) result (ok_or (types_of schema.now items.now) (F.TypeClash item)) }
{
    match types_of(alloc, schema, items.items())? {
        Some(kinds) => Ok(kinds),
        None => Err(QueryError::Fault(QueryFault::TypeClash { item })),
    }
}

// The size and the period are at least 1, and the period divides the size.
fn is_window(size: u64, period: u64) -> bool
    ensures { result ≡ is_window size period }
{
    size >= 1 && period >= 1 && size % period == 0
}

impl<'a> StepContext<'a> {
    /// The columns of the schema that the names of a key stand for.
    pub(crate) fn key_columns(
        &self,
        schema: &[ColumnDef],
        names: &NameList,
    ) -> Result<Key, QueryError>
        ensures { Is (λ k. k) result
            (ok_or (key_of schema.now names.now) (F.UnknownName self.now.item)) }
    {
        let key = key_of(self.alloc, schema, names.items())?;
        found(key, QueryFault::UnknownName { item: self.item })
    }

    /// One node.
    pub(crate) fn one(&self, node: Node, schema: Schema) -> Result<Vec<PlannedNode>, QueryError>
        ensures { Is (λ v. v.items) result (Ok (record { node = node; schema = schema } ∷ [])) }
    {
        let nodes = vec![in self.alloc; PlannedNode { node, schema }]?;
        Ok(nodes)
    }

    /// A step that changes lifetimes stands over events, as the rows of that node.
    pub(crate) fn over_events(&self, node: usize) -> Result<(), QueryError>
        ensures { Is (λ _. tt) result (over_events self.now.item self.now.draft.now node) }
    {
        needs(
            self.draft.is_event_level(node),
            QueryFault::NotEventLevel { item: self.item },
        )
    }

    /// One node, with the columns of the node before it.
    pub(crate) fn alone(&self, node: Node) -> Result<Vec<PlannedNode>, QueryError>
        ensures { Is (λ v. v.items) result (alone self.now.draft.now self.now.at node) }
    {
        let schema = copied(self.alloc, self.draft.schema_at(self.at))?;
        self.one(node, schema)
    }

    // A filter by a test.
    fn where_step(&self, tree: &Tree) -> Result<Vec<PlannedNode>, QueryError>
        ensures { Is (λ v. v.items) result
            (where_step self.now.item self.now.draft.now self.now.at tree.now) }
    {
        let schema = self.draft.schema_at(self.at);
        let told = expr_of(self.alloc, schema, tree)?;
        let test = found(told, QueryFault::UnknownName { item: self.item })?;
        let typed = type_of(self.alloc, schema, tree)?;
        let kind = found(typed, QueryFault::TypeClash { item: self.item })?;
        needs(is_bool(kind), QueryFault::TypeClash { item: self.item })?;
        self.alone(Node::Where { of: self.at, test })
    }

    // A column for each item.
    fn select_step(&self, items: &ItemList) -> Result<Vec<PlannedNode>, QueryError>
        ensures { Is (λ v. v.items) result
            (select_step self.now.item self.now.draft.now self.now.at items.now) }
    {
        let before = self.draft.schema_at(self.at);
        let told = exprs_of(self.alloc, before, items.items())?;
        let exprs = found(told, QueryFault::UnknownName { item: self.item })?;
        let kinds = kinds_of(self.alloc, self.item, before, items)?;
        let schema = select_schema(self.alloc, items.items(), kinds.as_slice())?;
        self.one(
            Node::Select {
                of: self.at,
                items: exprs,
            },
            schema,
        )
    }

    // The rows of both sides, whose columns have the same kinds.
    fn union_step(&self, name: &Label) -> Result<Vec<PlannedNode>, QueryError>
        ensures { Is (λ v. v.items) result
            (union_step self.now.item self.now.draft.now self.now.at name.now) }
    {
        let right = operand(self.item, self.draft, name)?;
        let same = same_kinds(self.draft.schema_at(self.at), self.draft.schema_at(right));
        needs(same, QueryFault::TypeClash { item: self.item })?;
        self.alone(Node::Union {
            left: self.at,
            right,
        })
    }

    // A duration of at least 1.
    fn duration_step(&self, by: u64) -> Result<Vec<PlannedNode>, QueryError>
        ensures { Is (λ v. v.items) result
            (duration_step self.now.item self.now.draft.now self.now.at by) }
    {
        self.over_events(self.at)?;
        needs(by >= 1, QueryFault::BadWindow { item: self.item })?;
        self.alone(Node::Duration { of: self.at, by })
    }

    fn extend_step(&self, by: u64) -> Result<Vec<PlannedNode>, QueryError>
        ensures { Is (λ v. v.items) result
            (extend_step self.now.item self.now.draft.now self.now.at by) }
    {
        self.over_events(self.at)?;
        self.alone(Node::Extend { of: self.at, by })
    }

    fn hop_step(&self, size: u64, period: u64) -> Result<Vec<PlannedNode>, QueryError>
        ensures { Is (λ v. v.items) result
            (hop_step self.now.item self.now.draft.now self.now.at size period) }
    {
        self.over_events(self.at)?;
        needs(
            is_window(size, period),
            QueryFault::BadWindow { item: self.item },
        )?;
        self.alone(Node::Hop {
            of: self.at,
            size,
            period,
        })
    }

    // A timeout of at least 1, and a key.
    fn session_step(&self, timeout: u64, names: &NameList) -> Result<Vec<PlannedNode>, QueryError>
        ensures { Is (λ v. v.items) result
            (session_step self.now.item self.now.draft.now self.now.at timeout names.now) }
    {
        let key = self.key_columns(self.draft.schema_at(self.at), names)?;
        self.over_events(self.at)?;
        needs(timeout >= 1, QueryFault::BadWindow { item: self.item })?;
        self.alone(Node::Session {
            of: self.at,
            timeout,
            key,
        })
    }

    /// The nodes of the step, or its first fault: of names, then of kinds, then of levels, then of windows.
    pub(crate) fn step_nodes(&self, step: &QueryStep) -> Result<Vec<PlannedNode>, QueryError>
        ensures { Is (λ v. v.items) result
            (step_nodes self.now.item self.now.draft.now self.now.at step.now) }
    {
        match step {
            QueryStep::Where(tree) => self.where_step(tree),
            QueryStep::Select(items) => self.select_step(items),
            QueryStep::Union(name) => self.union_step(name),
            QueryStep::Delay(by) => self.alone(Node::Delay {
                of: self.at,
                by: *by,
            }),
            QueryStep::Duration(by) => self.duration_step(*by),
            QueryStep::Extend(by) => self.extend_step(*by),
            QueryStep::Hop { size, period } => self.hop_step(*size, *period),
            QueryStep::Session { timeout, key } => { self.session_step(*timeout, key) }
            QueryStep::Clip { right, key } => self.clip_step(right, key),
            QueryStep::Join { right, key } => self.join_step(right, key),
            QueryStep::Anti { right, key } => self.anti_step(right, key),
            QueryStep::Group { key, aggs } => self.group_step(key, aggs),
            QueryStep::Coalesce => self.alone(Node::Coalesce { of: self.at }),
            QueryStep::Left { right, key, fills } => { self.left_step(right, key, fills) }
            QueryStep::Top { count, key, by } => self.top_step(*count, key, by),
            QueryStep::Follow { right, key, within } => { self.follow_step(right, key, *within) }
        }
    }
}
