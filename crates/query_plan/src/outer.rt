// Left joins: a join that keeps the left rows without a partner.
ghost use Rattle.std.specs.Prelude.{◌≡◌, ◌+◌, ◌<◌, ◌^◌, ◌++◌, ◌∷◌, [], ok_or, IfOk, OnOk, length, map};
ghost use Rattle.tw_rows.specs.Instant.{instants};
ghost use Rattle.plan_model.specs.declared.fault.QueryFault.TheVariants as F;
ghost use Rattle.query_plan.specs.Names.{tree_exprs};
ghost use Rattle.query_plan.specs.Types.{tree_types};
ghost use Rattle.query_plan.specs.Answer.{Is};
ghost use Rattle.plan_model.specs.declared.node.Node.{Node};
ghost use Rattle.query_plan.specs.Steps.{anti_node, columns_alone, filled_node, join_node, joined, key_group, left_nodes, left_step};

use crate::checks::needs;
use crate::draft::PlannedNode;
use crate::names::tree_exprs;
use crate::schemas::fills_fit;
use crate::sides::PlannedSides;
use crate::steps::StepContext;
use crate::types::tree_types;
use plan_model::{Expr, ExprList, ExprNode, Node, QueryError, QueryFault};
use query_text::{NameList, TreeList};
use std::alloc::Global;
use tw_rows::{ColumnDef, Kind, Label, Memory};

// The expressions of the literals.
fn fill_exprs(
    alloc: Global,
    item: usize,
    schema: &[ColumnDef],
    fills: &TreeList,
) -> Result<Vec<Expr>, QueryError>
    ensures { Is (λ v. v.items) result (ok_or (tree_exprs schema.now fills.now)
        (F.UnknownName item)) }
{
    match tree_exprs(alloc, schema, fills.items())? {
        Some(exprs) => Ok(exprs),
        None => Err(QueryError::Fault(QueryFault::UnknownName { item })),
    }
}

// The kinds of the literals.
fn fill_kinds(
    alloc: Global,
    item: usize,
    schema: &[ColumnDef],
    fills: &TreeList,
) -> Result<Vec<Kind>, QueryError>
    ensures { Is (λ v. v.items) result (ok_or (tree_types schema.now fills.now)
        (F.TypeClash item)) }
{
    match tree_types(alloc, schema, fills.items())? {
        Some(kinds) => Ok(kinds),
        None => Err(QueryError::Fault(QueryFault::TypeClash { item })),
    }
}

// An expression for each of the first columns: its value.
#[tactic(auto, using(crate::proofs::StepLemmas::items_more))]
fn columns_alone(alloc: Global, count: usize) -> Result<Vec<Expr>, Memory>
    ensures { IfOk result (λ v. v.items ≡ columns_alone count) }
{
    let mut exprs = Vec::new(alloc);
    for column in 0..count {
        exprs.push(Expr::from_vec(vec![in alloc; ExprNode::Column(column)]?))?;
    }
    Ok(exprs)
}

impl<'a> StepContext<'a> {
    // The left rows without a partner, which has number `of`, with the literals in place of the right columns.
    fn filled_node(
        &self,
        sides: &PlannedSides,
        of: usize,
        fills: Vec<Expr>,
    ) -> Result<PlannedNode, Memory>
        ensures { IfOk result
            (λ p. p ≡ filled_node self.now.draft.now self.now.at sides.now of fills.items) }
    {
        let schema = self.joined_schema(sides)?;
        let mut items = columns_alone(self.alloc, self.draft.schema_at(self.at).len())?;
        let mut fills = fills;
        items.append(&mut fills)?;
        let node = Node::Select {
            of,
            items: ExprList::from_vec(items),
        };
        Ok(PlannedNode { node, schema })
    }

    // The union of the pairs, which have number `first`, and the filled rows three nodes behind them.
    fn left_union(&self, sides: &PlannedSides, first: usize) -> Result<PlannedNode, Memory>
        requires { first < 2 ^ 63 }
        ensures { IfOk result (λ p. p ≡ record {
          node = Node.Union first (first + 3);
          schema = joined self.now.draft.now self.now.at sides.now;
        }) }
    {
        let schema = self.joined_schema(sides)?;
        let node = Node::Union {
            left: first,
            right: first + 3,
        };
        Ok(PlannedNode { node, schema })
    }

    // Puts the pairs of a left join last, and the keys of its right rows behind them.
    fn push_pairs(&self, nodes: &mut Vec<PlannedNode>, sides: &PlannedSides) -> Result<(), Memory>
        ensures { OnOk result (nodes.new.items ≡ nodes.old.items
            ++ join_node self.now.draft.now self.now.at sides.now
            ∷ key_group self.now.draft.now sides.now ∷ []) }
    {
        nodes.push(self.join_node(sides)?)?;
        nodes.push(self.key_group(sides)?)?;
        Ok(())
    }

    // Puts the left rows without a partner last, and the union of the pairs, which have number `first`, and these rows with
    // the literals.
    fn push_rest(
        &self,
        nodes: &mut Vec<PlannedNode>,
        sides: &PlannedSides,
        first: usize,
        filled: PlannedNode,
    ) -> Result<(), Memory>
        requires { first < 2 ^ 63 }
        ensures { OnOk result (nodes.new.items ≡ nodes.old.items
            ++ anti_node self.now.draft.now self.now.at sides.now (first + 1) ∷ filled
            ∷ record {
              node = Node.Union first (first + 3);
              schema = joined self.now.draft.now self.now.at sides.now;
            }
            ∷ []) }
    {
        nodes.push(self.anti_node(sides, first + 1)?)?;
        nodes.push(filled)?;
        nodes.push(self.left_union(sides, first)?)?;
        Ok(())
    }

    // The five nodes of a left join behind `first` nodes.
    fn left_nodes(
        &self,
        sides: &PlannedSides,
        first: usize,
        fills: Vec<Expr>,
    ) -> Result<Vec<PlannedNode>, Memory>
        requires { first < 2 ^ 63 }
        ensures { IfOk result
            (λ v. v.items ≡ left_nodes self.now.draft.now self.now.at sides.now first fills.items) }
    {
        let filled = self.filled_node(sides, first + 2, fills)?;
        let mut nodes = Vec::new(self.alloc);
        self.push_pairs(&mut nodes, sides)?;
        self.push_rest(&mut nodes, sides, first, filled)?;
        Ok(nodes)
    }

    /// A join that keeps each left row without a partner, with the literals in place of the right columns.
    pub(crate) fn left_step(
        &self,
        name: &Label,
        names: &NameList,
        fills: &TreeList,
    ) -> Result<Vec<PlannedNode>, QueryError>
        ensures { Is (λ v. v.items) result
            (left_step self.now.item self.now.draft.now self.now.at name.now names.now fills.now) }
    {
        let both = self.named_sides(name, names)?;
        let exprs = fill_exprs(self.alloc, self.item, self.draft.schema_at(self.at), fills)?;
        needs(
            self.are_alike(&both),
            QueryFault::TypeClash { item: self.item },
        )?;
        let kinds = fill_kinds(self.alloc, self.item, self.draft.schema_at(self.at), fills)?;
        let right_schema = self.draft.schema_at(both.right);
        let fit = fills_fit(
            self.alloc,
            right_schema,
            both.right_key.items(),
            kinds.as_slice(),
        )?;
        needs(fit, QueryFault::TypeClash { item: self.item })?;
        let nodes = self.left_nodes(&both, self.draft.len(), exprs)?;
        Ok(nodes)
    }
}
