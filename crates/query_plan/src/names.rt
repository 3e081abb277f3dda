// Names of columns, and what they stand for over the columns of a schema.
ghost use Rattle.std.specs.Prelude.{◌≡◌, IfOk, option_map, option_and_then};
ghost use Rattle.query_plan.specs.Names.{column_of, key_of, node_of, expr_of, exprs_of, tree_exprs, agg_over, agg_of, aggs_of};

use plan_model::{Agg, AggList, Expr, ExprList, ExprNode, Key};
use query_text::{AggFun, Item, QueryAgg, Tree, TreeNode};
use std::alloc::Global;
use tw_rows::{ColumnDef, Label, Memory};

/// The number of the column of that name, counted from 0; the first of them where several have it.
pub fn column_of(schema: &[ColumnDef], name: &str) -> Option<usize>
    ensures { result ≡ column_of schema.now name.now }
{
    for (i, column) in schema.iter().enumerate() {
        if column.name.as_str() == name {
            return Some(i);
        }
    }
    None
}

/// The key of the columns of these names, in the order of the names, or none where a name is no column's.
pub fn key_of(alloc: Global, schema: &[ColumnDef], names: &[Label]) -> Result<Option<Key>, Memory>
    ensures { IfOk result (λ r. r ≡ key_of schema.now names.now) }
{
    let mut columns = Vec::new(alloc);
    for name in names {
        match column_of(schema, name.as_str()) {
            Some(column) => columns.push(column)?,
            None => return Ok(None),
        }
    }
    Ok(Some(Key::from_vec(columns)))
}

/// The expression of a tree, with the numbers of the columns in place of their names, the units of decimals in place of
/// these, and copies of its texts; or none where a name is no column's.
pub fn expr_of(alloc: Global, schema: &[ColumnDef], tree: &Tree) -> Result<Option<Expr>, Memory>
    ensures { IfOk result (λ r. r ≡ expr_of schema.now tree.now) }
{
    let mut nodes = Vec::new(alloc);
    for node in tree.items() {
        match node_of(alloc, schema, node)? {
            Some(node) => nodes.push(node)?,
            None => return Ok(None),
        }
    }
    Ok(Some(Expr::from_vec(nodes)))
}

// The node over the columns of the schema.
fn node_of(alloc: Global, schema: &[ColumnDef], node: &TreeNode) -> Result<Option<ExprNode>, Memory>
    ensures { IfOk result (λ r. r ≡ node_of schema.now node.now) }
{
    Ok(Some(match node {
        TreeNode::Name(name) => return Ok(column_node(schema, name.as_str())),
        TreeNode::Int(number) => ExprNode::Int(*number),
        TreeNode::Dec { units, .. } => ExprNode::Int(*units),
        TreeNode::Bool(flag) => ExprNode::Bool(*flag),
        TreeNode::Text(text) => ExprNode::Text(Label::new(alloc, text.as_str())?),
        TreeNode::Neg(of) => ExprNode::Neg(*of),
        TreeNode::Not(of) => ExprNode::Not(*of),
        TreeNode::Arith { op, left, right } => ExprNode::Arith {
            op: *op,
            left: *left,
            right: *right,
        },
        TreeNode::Div { of, by } => ExprNode::Div { of: *of, by: *by },
        TreeNode::Mod { of, by } => ExprNode::Mod { of: *of, by: *by },
        TreeNode::Compare { op, left, right } => ExprNode::Compare {
            op: *op,
            left: *left,
            right: *right,
        },
        TreeNode::And { left, right } => ExprNode::And {
            left: *left,
            right: *right,
        },
        TreeNode::Or { left, right } => ExprNode::Or {
            left: *left,
            right: *right,
        },
    }))
}

// The node of the column of that name.
fn column_node(schema: &[ColumnDef], name: &str) -> Option<ExprNode>
    ensures { result ≡ node_of schema.now (TreeNode.Name name.now) }
{
    match column_of(schema, name) {
        Some(column) => Some(ExprNode::Column(column)),
        None => None,
    }
}

/// The expressions of the items of a select, in their order, or none where a name is no column's.
pub fn exprs_of(
    alloc: Global,
    schema: &[ColumnDef],
    items: &[Item],
) -> Result<Option<ExprList>, Memory>
    ensures { IfOk result (λ r. r ≡ exprs_of schema.now items.now) }
{
    let mut exprs = Vec::new(alloc);
    for item in items {
        match expr_of(alloc, schema, &item.tree)? {
            Some(expr) => exprs.push(expr)?,
            None => return Ok(None),
        }
    }
    Ok(Some(ExprList::from_vec(exprs)))
}

/// The expressions of several trees, in their order, or none where a name is no column's.
pub fn tree_exprs(
    alloc: Global,
    schema: &[ColumnDef],
    trees: &[Tree],
) -> Result<Option<Vec<Expr>>, Memory>
    ensures { IfOk result (λ r. option_map (λ v. v.items) r ≡ tree_exprs schema.now trees.now) }
{
    let mut exprs = Vec::new(alloc);
    for tree in trees {
        match expr_of(alloc, schema, tree)? {
            Some(expr) => exprs.push(expr)?,
            None => return Ok(None),
        }
    }
    Ok(Some(exprs))
}

/// The aggregates of a group, in their order, or none where a name is no column's. A count asks for no column, and an
/// average is planned as the sum that is divided later.
pub fn aggs_of(
    alloc: Global,
    schema: &[ColumnDef],
    aggs: &[QueryAgg],
) -> Result<Option<AggList>, Memory>
    ensures { IfOk result (λ r. r ≡ aggs_of schema.now aggs.now) }
{
    let mut list = Vec::new(alloc);
    for agg in aggs {
        match agg_of(schema, agg) {
            Some(agg) => list.push(agg)?,
            None => return Ok(None),
        }
    }
    Ok(Some(AggList::from_vec(list)))
}

// The aggregate over the columns of the schema.
fn agg_of(schema: &[ColumnDef], agg: &QueryAgg) -> Option<Agg>
    ensures { result ≡ agg_of schema.now agg.now }
{
    agg_over(agg.fun, agg_column(schema, agg))
}

// The number of the column that an aggregate names.
pub(crate) fn agg_column(schema: &[ColumnDef], agg: &QueryAgg) -> Option<usize>
    ensures { result ≡ option_and_then (column_of schema.now) agg.now.column }
{
    match &agg.column {
        Some(name) => column_of(schema, name.as_str()),
        None => None,
    }
}

// The aggregate of that column.
fn agg_over(fun: AggFun, column: Option<usize>) -> Option<Agg>
    ensures { result ≡ agg_over fun column }
{
    match (fun, column) {
        (AggFun::Count, _) => Some(Agg::Count),
        (AggFun::Sum | AggFun::Avg, Some(column)) => Some(Agg::Sum(column)),
        (AggFun::Min, Some(column)) => Some(Agg::Least(column)),
        (AggFun::Max, Some(column)) => Some(Agg::Greatest(column)),
        (_, None) => None,
    }
}
