// The text of a plan.
ghost use Rattle.std.specs.Prelude.{◌≡◌, ◌++◌, ◌<◌, OnOk, IfOk, [], codes, decimal, flat_map, length, map, slice_index_or};
ghost use Rattle.query_plan.specs.Explained.{word_of as word_of_node, kind_word as word_of_kind};
ghost use Rattle.query_plan.specs.Explained.{level_word as word_of_level, listed, column_text};
ghost use Rattle.query_plan.specs.Explained.{children, node_line, explained};
ghost use Rattle.plan_model.specs.Reach.{reach as reach_of, event_level as event_level_of};

use itoa::Buffer;
use plan_model::{Node, Plan, event_level, reach};
use std::alloc::Global;
use tw_rows::{ColumnDef, Kind, Memory};

fn word_of(node: &Node) -> &'static str
    ensures { result.now ≡ word_of_node node.now }
{
    match node {
        Node::Source { .. } => "source",
        Node::Where { .. } => "where",
        Node::Select { .. } => "select",
        Node::Union { .. } => "union",
        Node::Delay { .. } => "delay",
        Node::Hop { .. } => "hop",
        Node::Duration { .. } => "duration",
        Node::Extend { .. } => "extend",
        Node::Session { .. } => "session",
        Node::Clip { .. } => "clip",
        Node::Group { .. } => "group",
        Node::Join { .. } => "join",
        Node::Anti { .. } => "anti",
        Node::Coalesce { .. } => "coalesce",
        Node::Mean { .. } => "mean",
        Node::Top { .. } => "top",
        Node::Follow { .. } => "follow",
    }
}

fn put_kind(out: &mut Vec<u8>, kind: Kind) -> Result<(), Memory>
    ensures { OnOk result (out.new.items ≡ out.old.items ++ word_of_kind kind) }
{
    match kind {
        Kind::Int => out.extend_from_slice(b"int")?,
        Kind::Bool => out.extend_from_slice(b"bool")?,
        Kind::Text => out.extend_from_slice(b"text")?,
        Kind::Dec(places) => {
            out.extend_from_slice(b"dec(")?;
            put_number(out, u64::from(places))?;
            out.extend_from_slice(b")")?;
        }
    }
    Ok(())
}

fn level_word(is_event_level: bool) -> &'static str
    ensures { result.now ≡ word_of_level is_event_level }
{
    if is_event_level { "event" } else { "snapshot" }
}

fn put_number(out: &mut Vec<u8>, number: u64) -> Result<(), Memory>
    ensures { OnOk result (out.new.items ≡ out.old.items ++ decimal number) }
{
    let mut buffer = Buffer::new();
    out.extend_from_slice(buffer.format(number).as_bytes())?;
    Ok(())
}

fn put_children(out: &mut Vec<u8>, node: &Node) -> Result<(), Memory>
    ensures { OnOk result (out.new.items ≡ out.old.items ++ listed
        (map decimal (children node.now))) }
{
    match (node.left_child(), node.right_child()) {
        (Some(left), Some(right)) => {
            put_number(out, left as u64)?;
            out.extend_from_slice(b",")?;
            put_number(out, right as u64)?;
        }
        (Some(child), None) | (None, Some(child)) => put_number(out, child as u64)?,
        (None, None) => out.extend_from_slice(b"-")?,
    }
    Ok(())
}

fn put_column(out: &mut Vec<u8>, column: &ColumnDef) -> Result<(), Memory>
    ensures { OnOk result (out.new.items ≡ out.old.items ++ column_text column.now) }
{
    out.extend_from_slice(column.name.as_str().as_bytes())?;
    out.extend_from_slice(b":")?;
    put_kind(out, column.kind)?;
    Ok(())
}

// The columns after the first, each behind a comma.
fn put_more_columns(out: &mut Vec<u8>, columns: &[ColumnDef]) -> Result<(), Memory>
    ensures { OnOk result (out.new.items ≡ out.old.items ++ flat_map
        (λ y. codes "," ++ y) (map column_text columns.now)) }
{
    for column in columns {
        out.extend_from_slice(b",")?;
        put_column(out, column)?;
    }
    Ok(())
}

fn put_columns(out: &mut Vec<u8>, columns: &[ColumnDef]) -> Result<(), Memory>
    ensures { OnOk result (out.new.items ≡ out.old.items ++ listed (map column_text columns.now)) }
{
    match columns {
        [first, more @ ..] => {
            put_column(out, first)?;
            put_more_columns(out, more)?;
        }
        [] => out.extend_from_slice(b"-")?,
    }
    Ok(())
}

// The columns of the node of that number.
fn columns_of(plan: &Plan, number: usize) -> &[ColumnDef]
    requires { number < length plan.now.nodes }
    ensures { result.now ≡ slice_index_or plan.now.schemas number [] }
{
    plan.schemas()[number].items()
}

// The word of a node between its number and its children.
fn put_head(out: &mut Vec<u8>, number: usize, node: &Node) -> Result<(), Memory>
    ensures { OnOk result (out.new.items ≡ out.old.items ++ decimal number ++ codes " "
        ++ word_of_node node.now ++ codes " " ++ listed (map decimal (children node.now))) }
{
    put_number(out, number as u64)?;
    out.extend_from_slice(b" ")?;
    out.extend_from_slice(word_of(node).as_bytes())?;
    out.extend_from_slice(b" ")?;
    put_children(out, node)?;
    Ok(())
}

// The level and the reach of a node, each behind a space.
fn put_level(out: &mut Vec<u8>, plan: &Plan, number: usize) -> Result<(), Memory>
    requires { number < length plan.now.nodes }
    ensures { OnOk result (out.new.items ≡ out.old.items ++ codes " "
        ++ word_of_level (event_level_of plan.now.nodes number) ++ codes " "
        ++ decimal (reach_of plan.now.nodes number)) }
{
    out.extend_from_slice(b" ")?;
    out.extend_from_slice(level_word(event_level(plan, number)).as_bytes())?;
    out.extend_from_slice(b" ")?;
    put_number(out, reach(plan, number))?;
    Ok(())
}

// The line of the node, which has that number in the plan.
fn put_node(out: &mut Vec<u8>, plan: &Plan, number: usize, node: &Node) -> Result<(), Memory>
    requires { number < length plan.now.nodes }
    ensures { OnOk result (out.new.items ≡ out.old.items ++ node_line plan.now number node.now) }
{
    put_head(out, number, node)?;
    put_level(out, plan, number)?;
    out.extend_from_slice(b" ")?;
    put_columns(out, columns_of(plan, number))?;
    out.extend_from_slice(b"\n")?;
    Ok(())
}

/// The plan as text: a line for each node, and a last line with the number of the root.
pub fn explain(alloc: Global, plan: &Plan) -> Result<Vec<u8>, Memory>
    ensures { IfOk result (λ bytes. bytes.items ≡ explained plan.now) }
{
    let mut out = Vec::new(alloc);
    for (i, node) in plan.nodes().iter().enumerate() {
        put_node(&mut out, plan, i, node)?;
    }
    out.extend_from_slice(b"root ")?;
    put_number(&mut out, plan.root() as u64)?;
    out.extend_from_slice(b"\n")?;
    Ok(out)
}
