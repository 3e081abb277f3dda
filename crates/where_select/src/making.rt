// Row stages made of nodes of a plan, and the kinds of the columns that nodes read.
ghost use Rattle.std.specs.Prelude.{◌≡◌, ◌<◌, ◌≤◌, true, Some, length, map, slice_get, All, IfOk, OnOk, OnErr};
ghost use Rattle.tw_rows.specs.Kinds.{cell_kind_of};
ghost use Rattle.tw_rows.specs.Texts.{BeginsWith};
ghost use Rattle.plan_model.specs.declared.node.Node.{Node as PlanNode};
ghost use Rattle.plan_model.specs.IsPlan.{kinds_of_stream, kinds_at};
ghost use Rattle.plan_model.specs.Typed.{IsTyped, kind_of};
ghost use Rattle.lane_expr.specs.Steps.{AreStepsPlaced, with_texts};
ghost use Rattle.where_select.specs.Projects.{exprs_of};
ghost use Rattle.where_select.specs.Stages.{is_of_rows, kinds_read, IsFor, IsFilterOf, IsProjectOf, IsStageOf};
ghost use Rattle.where_select.specs.Texts.{nodes_of_items, nodes_in, HasFirstTexts};

use crate::row_stage::RowStage;
use crate::{Filter, Project};
use lane_expr::Kernel;
use plan_model::{Expr, Node, Plan};
use std::alloc::Global;
use tw_rows::{CellKind, ColumnDef, Kind, Memory, Schema, StreamDef, TextTable};

impl RowStage {
    /// The stage of a Source, a Where or a Select of the plan, for batches of `capacity` rows. The texts of the node's
    /// expressions come into the table, and stay there out of memory.
    pub fn new(
        alloc: Global,
        plan: &Plan,
        node: usize,
        capacity: usize,
        texts: &mut TextTable,
    ) -> Result<RowStage, Memory>
        requires node { node < length plan.now.nodes }
        requires rows { (n : Node) → slice_get plan.now.nodes node ≡ Some n → is_of_rows n ≡ true }
        ensures stage { IfOk result (λ s. (n : PlanNode) → slice_get plan.now.nodes node ≡ Some n →
            IsStageOf texts.new capacity (kinds_read plan.now n) n s) }
        ensures table { OnOk result ((n : PlanNode) → slice_get plan.now.nodes node ≡ Some n →
            texts.new ≡ with_texts texts.old (nodes_in n)) }
        ensures err { OnErr result ((n : PlanNode) → slice_get plan.now.nodes node ≡ Some n →
            HasFirstTexts texts.new texts.old (nodes_in n)) }
        ensures begins { BeginsWith texts.new texts.old }
    {
        let kinds = read_kinds(alloc, plan, node)?;
        let nodes = plan.nodes();
        match &nodes[node] {
            Node::Source { .. } => Ok(RowStage::Source),
            Node::Where { test, .. } => {
                let filter = filter_of(alloc, test, &kinds, capacity, texts)?;
                Ok(RowStage::Where(filter))
            }
            Node::Select { items, .. } => {
                let project = project_of(alloc, items.items(), &kinds, capacity, texts)?;
                Ok(RowStage::Select(project))
            }
            _ => unreachable!(),
        }
    }
}

/// The kinds of the columns that a node of the plan reads: its child's, or those of its stream where it is a Source.
pub fn read_kinds(alloc: Global, plan: &Plan, node: usize) -> Result<Vec<Kind>, Memory>
    requires { node < length plan.now.nodes }
    ensures { IfOk result (λ v. (n : Node) → slice_get plan.now.nodes node ≡ Some n →
        map cell_kind_of v.items ≡ kinds_read plan.now n) }
{
    let nodes = plan.nodes();
    let streams = plan.streams();
    let schemas = plan.schemas();
    match &nodes[node] {
        Node::Source { stream } => stream_kinds(alloc, streams, *stream),
        other => match other.left_child() {
            Some(child) => child_kinds(alloc, schemas, child),
            None => unreachable!(),
        },
    }
}

// The kinds of the columns of the stream of that number.
fn stream_kinds(alloc: Global, streams: &[StreamDef], stream: usize) -> Result<Vec<Kind>, Memory>
    requires { stream < length streams.now }
    ensures { IfOk result (λ v. map cell_kind_of v.items ≡ kinds_of_stream streams.now stream) }
{
    column_kinds(alloc, streams[stream].schema.items())
}

// The kinds of the columns of the node of that number.
fn child_kinds(alloc: Global, schemas: &[Schema], child: usize) -> Result<Vec<Kind>, Memory>
    requires { child < length schemas.now }
    ensures { IfOk result (λ v. map cell_kind_of v.items ≡ kinds_at schemas.now child) }
{
    column_kinds(alloc, schemas[child].items())
}

/// The kinds of the columns.
pub fn column_kinds(alloc: Global, columns: &[ColumnDef]) -> Result<Vec<Kind>, Memory>
    ensures { IfOk result (λ v. v.items ≡ map (λ c. c.kind) columns.now) }
{
    Ok(columns.iter().map(|column| column.kind).collect(alloc)?)
}

// The filter of a test over columns of these kinds.
fn filter_of(
    alloc: Global,
    test: &Expr,
    kinds: &[Kind],
    capacity: usize,
    texts: &mut TextTable,
) -> Result<Filter, Memory>
    requires typed { IsTyped (map cell_kind_of kinds.now) test.now }
    requires bit { kind_of test.now (map cell_kind_of kinds.now) ≡ CellKind.Bit }
    ensures filter { IfOk result (λ f. IsFilterOf texts.new capacity
        (map cell_kind_of kinds.now) test.now f) }
    ensures table { OnOk result (texts.new ≡ with_texts texts.old test.now) }
    ensures err { OnErr result (HasFirstTexts texts.new texts.old test.now) }
    ensures begins { BeginsWith texts.new texts.old }
{
    let kernel = Kernel::compile(alloc, test, kinds, texts, capacity)?;
    Filter::new(alloc, kernel, capacity)
}

// The projection to items over columns of these kinds.
fn project_of(
    alloc: Global,
    items: &[Expr],
    kinds: &[Kind],
    capacity: usize,
    texts: &mut TextTable,
) -> Result<Project, Memory>
    requires typed { All (IsTyped (map cell_kind_of kinds.now)) items.now }
    requires few { length items.now ≤ 32 }
    ensures project { IfOk result (λ ks. IsProjectOf texts.new capacity
        (map cell_kind_of kinds.now) items.now ks) }
    ensures table { OnOk result (texts.new ≡ with_texts texts.old (nodes_of_items items.now)) }
    ensures err { OnErr result (HasFirstTexts texts.new texts.old (nodes_of_items items.now)) }
    ensures begins { BeginsWith texts.new texts.old }
{
    let kernels = kernels_of(alloc, items, kinds, capacity, texts)?;
    Project::new(alloc, kernels, kinds)
}

// The kernels of the items.
fn kernels_of(
    alloc: Global,
    items: &[Expr],
    kinds: &[Kind],
    capacity: usize,
    texts: &mut TextTable,
) -> Result<Vec<Kernel>, Memory>
    requires { All (IsTyped (map cell_kind_of kinds.now)) items.now }
    ensures same { IfOk result (λ ks. exprs_of texts.new ks.items ≡ items.now) }
    ensures placed { IfOk result (λ ks. All (λ k. AreStepsPlaced texts.new k.steps) ks.items) }
    ensures suited { IfOk result (λ ks. All
        (IsFor capacity (map cell_kind_of kinds.now)) ks.items) }
    ensures table { OnOk result (texts.new ≡ with_texts texts.old (nodes_of_items items.now)) }
    ensures err { OnErr result (HasFirstTexts texts.new texts.old (nodes_of_items items.now)) }
    ensures begins { BeginsWith texts.new texts.old }
{
    let mut kernels = Vec::new(alloc);
    for item in items {
        kernels.push(Kernel::compile(alloc, item, kinds, texts, capacity)?)?;
    }
    Ok(kernels)
}
