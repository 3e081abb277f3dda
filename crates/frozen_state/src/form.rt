// What is known of the parts of a plan at work before their entries are read.
ghost use Rattle.std.specs.Prelude.{◌≡◌, ◌<◌, ◌≤◌, [], ◌++◌, map, length, slice_get, Some, IfOk, IfSome, IfNone, OnOk, ℕ};
ghost use Rattle.plan_model.specs.declared.node.Node.{Node as PlanNode};
ghost use Rattle.plan_model.specs.IsPlan.{kinds_of_schema, kinds_at};
ghost use Rattle.plan_model.specs.Meaning.{at_child};
ghost use Rattle.frozen_state.specs.Forms.{part_rows as rows_of_parts, kinds_of_row, node_rows, stream_rows, shard_forms};
ghost use Rattle.frozen_state.specs.Forms.{shards_of, node_forms, is_form_of, part_forms as forms_of};

use crate::owner::{Owner, is_owner};
use edge_stream::PartRow;
use plan_model::{Node, Plan};
use std::alloc::Global;
use std::marker::Model;
use tw_rows::{CellKind, ColumnDef, Memory, StreamDef, cell_of};

/// What is known of one part before its entries are read: whose it is, its shard, and for each number that an entry of it may
/// have as its part how the cells of such an entry are stored.
#[derive(Drop)]
pub struct PartForm {
    owner: Owner,
    shard: u64,
    rows: Vec<Vec<CellKind>>,
}

impl Model for PartForm {
    ghost use Rattle.std.specs.Prelude.{map};
    ghost use Rattle.frozen_state.specs.Forms.{PartFormView};

    ghost Value = { PartFormView };

    ghost view = { λ f. record {
      owner = f.owner;
      shard = f.shard;
      rows = map (λ row. row.items) f.rows.items;
    } };
}

impl PartForm {
    /// Whose the part is.
    pub fn owner(&self) -> Owner
        ensures { result ≡ self.now.owner }
    {
        self.owner
    }

    /// The number of its shard, from 0 on; 0 where there is but one.
    pub fn shard(&self) -> u64
        ensures { result ≡ self.now.shard }
    {
        self.shard
    }

    /// Whether it is the form of that owner's shard.
    pub fn is_of(&self, owner: Owner, shard: u64) -> bool
        ensures { result ≡ is_form_of owner shard self.now }
    {
        is_owner(self.owner, owner) && self.shard == shard
    }

    /// How the cells of an entry with that number are stored, if an entry may have it.
    pub fn kinds(&self, part: u64) -> Option<&[CellKind]>
        ensures some { IfSome result (λ kinds. slice_get self.now.rows part ≡ Some kinds.now) }
        ensures none { IfNone result (length self.now.rows ≤ part) }
    {
        match self.rows.get(part as usize) {
            Some(kinds) => Some(kinds.as_slice()),
            None => None,
        }
    }
}

// Whose rows the cells of a node's entries are, by the number of the entry's part. It is what the node's operator says.
fn part_rows(node: &Node) -> &'static [PartRow]
    ensures { result.now ≡ rows_of_parts node.now }
{
    match node {
        Node::Delay { .. } | Node::Hop { .. } | Node::Duration { .. } | Node::Mean { .. } => {
            &[PartRow::Left]
        }
        Node::Extend { .. } | Node::Session { .. } | Node::Coalesce { .. } => {
            &[PartRow::Left, PartRow::Left]
        }
        Node::Union { .. } => &[PartRow::Left, PartRow::Right],
        Node::Clip { .. } | Node::Follow { .. } => {
            &[PartRow::Left, PartRow::Left, PartRow::Right]
        }
        Node::Top { .. } => &[PartRow::Left, PartRow::Left, PartRow::Left],
        Node::Group { .. } => &[PartRow::Left, PartRow::Left, PartRow::KeyFirst],
        Node::Join { .. } => &[PartRow::Left, PartRow::Right, PartRow::Left, PartRow::Right],
        Node::Anti { .. } => &[
            PartRow::Left,
            PartRow::Right,
            PartRow::Left,
            PartRow::Right,
            PartRow::Left,
        ],
        Node::Source { .. } | Node::Where { .. } | Node::Select { .. } => &[],
    }
}

/// How many parts the node's state has: a shard each where it is run as shards.
pub fn shards_of_node(node: &Node, workers: u64) -> u64
    ensures { result ≡ shards_of workers node.now }
{
    match node {
        Node::Group { .. }
        | Node::Join { .. }
        | Node::Anti { .. }
        | Node::Clip { .. }
        | Node::Session { .. } => workers,
        Node::Union { .. }
        | Node::Delay { .. }
        | Node::Hop { .. }
        | Node::Duration { .. }
        | Node::Extend { .. }
        | Node::Coalesce { .. }
        | Node::Mean { .. }
        | Node::Top { .. }
        | Node::Follow { .. } => 1,
        Node::Source { .. } | Node::Where { .. } | Node::Select { .. } => 0,
    }
}

// How the cells of these columns are stored.
fn kinds_of_columns(alloc: Global, columns: &[ColumnDef]) -> Result<Vec<CellKind>, Memory>
    ensures { IfOk result (λ kinds. kinds.items ≡ kinds_of_schema columns.now) }
{
    Ok(
        columns
            .iter()
            .map(|column| cell_of(column.kind))
            .collect(alloc)?,
    )
}

// How the cells of the rows of the node of that number are stored, if there is one.
fn kinds_at_node(alloc: Global, plan: &Plan, number: usize) -> Result<Vec<CellKind>, Memory>
    ensures { IfOk result (λ kinds. kinds.items ≡ kinds_at plan.now.schemas number) }
{
    match plan.schemas().get(number) {
        Some(schema) => kinds_of_columns(alloc, schema.items()),
        None => Ok(Vec::new(alloc)),
    }
}

// And those of a child.
fn kinds_at_child(alloc: Global, plan: &Plan, child: Option<usize>) -> Result<Vec<CellKind>, Memory>
    ensures { IfOk result (λ kinds. kinds.items ≡ at_child [] (kinds_at plan.now.schemas) child) }
{
    match child {
        Some(number) => kinds_at_node(alloc, plan, number),
        None => Ok(Vec::new(alloc)),
    }
}

// How the cells are stored of such a row of the node of that number.
fn kinds_of_part_row(
    alloc: Global,
    plan: &Plan,
    number: usize,
    node: &Node,
    row: PartRow,
) -> Result<Vec<CellKind>, Memory>
    ensures { IfOk result (λ kinds. kinds.items ≡ kinds_of_row plan.now number node.now row) }
{
    match row {
        PartRow::Left => kinds_at_child(alloc, plan, node.left_child()),
        PartRow::Right => kinds_at_child(alloc, plan, node.right_child()),
        PartRow::Own | PartRow::KeyFirst => kinds_at_node(alloc, plan, number),
    }
}

// How the cells of the node's entries are stored, by the number of the entry's part.
fn rows_of_node(
    alloc: Global,
    plan: &Plan,
    number: usize,
    node: &Node,
) -> Result<Vec<Vec<CellKind>>, Memory>
    ensures { IfOk result (λ rows. map (λ row. row.items) rows.items
        ≡ node_rows plan.now number node.now) }
{
    let mut rows = Vec::new(alloc);
    for row in part_rows(node) {
        rows.push(kinds_of_part_row(alloc, plan, number, node, *row)?)?;
    }
    Ok(rows)
}

// How the cells of the input's entries are stored: of stream i the parts 3i, 3i + 1 and 3i + 2 are held edges, open starts
// and dropped ones.
fn rows_of_streams(alloc: Global, streams: &[StreamDef]) -> Result<Vec<Vec<CellKind>>, Memory>
    ensures { IfOk result (λ rows. map (λ row. row.items) rows.items ≡ stream_rows streams.now) }
{
    let mut rows = Vec::new(alloc);
    for stream in streams {
        rows.push(kinds_of_columns(alloc, stream.schema.items())?)?;
        rows.push(kinds_of_columns(alloc, stream.schema.items())?)?;
        rows.push(kinds_of_columns(alloc, stream.schema.items())?)?;
    }
    Ok(rows)
}

// Adds the forms of a node, one for each shard.
fn push_node(
    alloc: Global,
    forms: &mut Vec<PartForm>,
    plan: &Plan,
    number: usize,
    shards: u64,
) -> Result<(), Memory>
    requires { number < length plan.now.nodes }
    ensures { OnOk result ((n : PlanNode) → slice_get plan.now.nodes number ≡ Some n →
        forms.new.items ≡ forms.old.items ++ shard_forms (Owner.Node number)
        (node_rows plan.now number n) 0 shards) }
{
    let nodes = plan.nodes();
    for shard in 0..shards {
        forms.push(PartForm {
            owner: Owner::Node(number as u64),
            shard,
            rows: rows_of_node(alloc, plan, number, &nodes[number])?,
        })?;
    }
    Ok(())
}

// Adds the forms of all nodes, in order of number.
fn push_nodes(
    alloc: Global,
    forms: &mut Vec<PartForm>,
    plan: &Plan,
    workers: u64,
) -> Result<(), Memory>
    ensures { OnOk result (forms.new.items ≡ forms.old.items
        ++ node_forms workers plan.now 0 plan.now.nodes) }
{
    let nodes = plan.nodes();
    for number in 0..nodes.len() {
        push_node(
            alloc,
            forms,
            plan,
            number,
            shards_of_node(&nodes[number], workers),
        )?;
    }
    Ok(())
}

/// The forms of the parts of a plan at work: that of the input, of each node that keeps something, by number, one for each
/// shard, and that of the output.
pub fn part_forms(alloc: Global, plan: &Plan, workers: u64) -> Result<Vec<PartForm>, Memory>
    ensures { IfOk result (λ forms. forms.items ≡ forms_of workers plan.now) }
{
    let mut forms = Vec::new(alloc);
    forms.push(PartForm {
        owner: Owner::In,
        shard: 0,
        rows: rows_of_streams(alloc, plan.streams())?,
    })?;
    push_nodes(alloc, &mut forms, plan, workers)?;
    let mut rows = Vec::new(alloc);
    rows.push(kinds_at_node(alloc, plan, plan.root())?)?;
    forms.push(PartForm {
        owner: Owner::Out,
        shard: 0,
        rows,
    })?;
    Ok(forms)
}
