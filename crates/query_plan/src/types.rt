// The kind of the values of an expression over the columns of a schema, where it has one.
ghost use Rattle.std.specs.Prelude.{◌≡◌, ◌-◌, IfOk, Some, option_map, length, slice_get};
ghost use Rattle.query_plan.specs.Types.{same_kind, is_number, kinds, if_kind, if_alike};
ghost use Rattle.query_plan.specs.Types.{number, if_number, sum_kind, product_kind, arith_kind};
ghost use Rattle.query_plan.specs.Types.{arith_type, column_type, node_type, type_of, types_of};
ghost use Rattle.query_plan.specs.Types.{tree_types};

use crate::names::column_of;
use plan_model::ArithOp;
use query_text::{Item, Tree, TreeNode};
use std::alloc::Global;
use tw_rows::{ColumnDef, Kind, Memory};

/// The kind of a tree's values over the columns, or none where a name is no column's or kinds clash.
pub fn type_of(alloc: Global, schema: &[ColumnDef], tree: &Tree) -> Result<Option<Kind>, Memory>
    ensures { IfOk result (λ r. r ≡ type_of schema.now tree.now) }
{
    let mut types = Vec::new(alloc);
    for node in tree.items() {
        match node_type(schema, types.as_slice(), node) {
            Some(kind) => types.push(kind)?,
            None => return Ok(None),
        }
    }
    Ok(last_of(types.as_slice()))
}

// The last of these kinds.
fn last_of(types: &[Kind]) -> Option<Kind>
    ensures { result ≡ slice_get types.now (length types.now - 1) }
{
    match types.last() {
        Some(kind) => Some(*kind),
        None => None,
    }
}

/// The kinds of the items of a select over the columns, in their order, or none where one of them has none.
pub fn types_of(
    alloc: Global,
    schema: &[ColumnDef],
    items: &[Item],
) -> Result<Option<Vec<Kind>>, Memory>
    ensures { IfOk result (λ r. option_map (λ v. v.items) r ≡ types_of schema.now items.now) }
{
    let mut types = Vec::new(alloc);
    for item in items {
        match type_of(alloc, schema, &item.tree)? {
            Some(kind) => types.push(kind)?,
            None => return Ok(None),
        }
    }
    Ok(Some(types))
}

/// The kinds of several trees over the columns, in their order, or none where one of them has none.
pub fn tree_types(
    alloc: Global,
    schema: &[ColumnDef],
    trees: &[Tree],
) -> Result<Option<Vec<Kind>>, Memory>
    ensures { IfOk result (λ r. option_map (λ v. v.items) r ≡ tree_types schema.now trees.now) }
{
    let mut types = Vec::new(alloc);
    for tree in trees {
        match type_of(alloc, schema, tree)? {
            Some(kind) => types.push(kind)?,
            None => return Ok(None),
        }
    }
    Ok(Some(types))
}

// The kind of a node's values, where `before` are those of the nodes before it.
fn node_type(schema: &[ColumnDef], before: &[Kind], node: &TreeNode) -> Option<Kind>
    ensures { result ≡ node_type schema.now before.now node.now }
{
    match node {
        TreeNode::Name(name) => column_type(schema, name.as_str()),
        TreeNode::Int(_) => Some(Kind::Int),
        TreeNode::Dec { places, .. } => Some(Kind::Dec(*places)),
        TreeNode::Bool(_) => Some(Kind::Bool),
        TreeNode::Text(_) => Some(Kind::Text),
        TreeNode::Neg(of) => if_number(nth_kind(before, *of)),
        TreeNode::Div { of, .. } | TreeNode::Mod { of, .. } => {
            if_kind(Kind::Int, nth_kind(before, *of), Some(Kind::Int))
        }
        TreeNode::Not(of) => if_kind(Kind::Bool, nth_kind(before, *of), Some(Kind::Bool)),
        TreeNode::Arith { op, left, right } => {
            arith_type(*op, nth_kind(before, *left), nth_kind(before, *right))
        }
        TreeNode::Compare { left, right, .. } => {
            if_alike(nth_kind(before, *left), nth_kind(before, *right))
        }
        TreeNode::And { left, right } | TreeNode::Or { left, right } => {
            if_both(Kind::Bool, before, *left, *right)
        }
    }
}

// The kind of the column of that name.
fn column_type(schema: &[ColumnDef], name: &str) -> Option<Kind>
    ensures { result ≡ column_type schema.now name.now }
{
    match column_of(schema, name) {
        Some(column) => column_kind(schema, column),
        None => None,
    }
}

// The kind of the column of that number.
fn column_kind(schema: &[ColumnDef], column: usize) -> Option<Kind>
    ensures { result ≡ slice_get (kinds schema.now) column }
{
    match schema.get(column) {
        Some(column) => Some(column.kind),
        None => None,
    }
}

// The kind of that number.
pub(crate) fn nth_kind(kinds: &[Kind], number: usize) -> Option<Kind>
    ensures { result ≡ slice_get kinds.now number }
{
    match kinds.get(number) {
        Some(kind) => Some(*kind),
        None => None,
    }
}

// The kind, where its values are numbers.
fn number(kind: Kind) -> Option<Kind>
    ensures { result ≡ number kind }
{
    if is_number(kind) { Some(kind) } else { None }
}

// The kind of an operand, where its values are numbers.
fn if_number(operand: Option<Kind>) -> Option<Kind>
    ensures { result ≡ if_number operand }
{
    match operand {
        Some(kind) => number(kind),
        None => None,
    }
}

// The kind of a sum or a difference.
fn sum_kind(left: Kind, right: Kind) -> Option<Kind>
    ensures { result ≡ sum_kind left right }
{
    if is_number(left) && same_kind(right, left) {
        Some(left)
    } else {
        None
    }
}

// The kind of a product.
fn product_kind(left: Kind, right: Kind) -> Option<Kind>
    ensures { result ≡ product_kind left right }
{
    match (left, right) {
        (Kind::Int, right) => number(right),
        (Kind::Dec(places), Kind::Int) => Some(Kind::Dec(places)),
        _ => None,
    }
}

// The kind of what is computed of values of these two kinds.
fn arith_kind(op: ArithOp, left: Kind, right: Kind) -> Option<Kind>
    ensures { result ≡ arith_kind op left right }
{
    match op {
        ArithOp::Add | ArithOp::Sub => sum_kind(left, right),
        ArithOp::Mul => product_kind(left, right),
    }
}

// The kind of what is computed of two operands.
fn arith_type(op: ArithOp, left: Option<Kind>, right: Option<Kind>) -> Option<Kind>
    ensures { result ≡ arith_type op left right }
{
    match (left, right) {
        (Some(left), Some(right)) => arith_kind(op, left, right),
        _ => None,
    }
}

// `given`, where there is an operand and it is of the kind.
fn if_kind(wanted: Kind, operand: Option<Kind>, given: Option<Kind>) -> Option<Kind>
    ensures { result ≡ if_kind wanted operand given }
{
    match operand {
        Some(kind) => { if same_kind(kind, wanted) { given } else { None } }
        None => None,
    }
}

// The kind, where both operands are of it.
fn if_both(wanted: Kind, before: &[Kind], left: usize, right: usize) -> Option<Kind>
    ensures { result ≡ if_kind wanted (slice_get before.now left)
        (if_kind wanted (slice_get before.now right) (Some wanted)) }
{
    let right = if_kind(wanted, nth_kind(before, right), Some(wanted));
    if_kind(wanted, nth_kind(before, left), right)
}

// Bool, where both operands are of one kind.
fn if_alike(left: Option<Kind>, right: Option<Kind>) -> Option<Kind>
    ensures { result ≡ if_alike left right (Some Kind.Bool) }
{
    match left {
        Some(kind) => if_kind(kind, right, Some(Kind::Bool)),
        None => None,
    }
}

/// Whether two kinds are one. Decimals of different places are of different kinds.
pub fn same_kind(left: Kind, right: Kind) -> bool
    ensures { result ≡ same_kind left right }
{
    match (left, right) {
        (Kind::Int, Kind::Int) | (Kind::Bool, Kind::Bool) | (Kind::Text, Kind::Text) => true,
        (Kind::Dec(left), Kind::Dec(right)) => left == right,
        _ => false,
    }
}

/// Whether the values of a kind are numbers: ints and decimals.
pub fn is_number(kind: Kind) -> bool
    ensures { result ≡ is_number kind }
{
    matches!(kind, Kind::Int | Kind::Dec(_))
}
