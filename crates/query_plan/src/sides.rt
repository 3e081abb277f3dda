// Steps with a right operand: the operand and the key.
ghost use Rattle.std.specs.Prelude.{◌≡◌, IfOk, length};
ghost use Rattle.tw_rows.specs.Instant.{instants};
ghost use Rattle.query_plan.specs.Answer.{Is};
ghost use Rattle.query_plan.specs.Steps.{named_sides, are_alike, sides, joined, key_group, anti_node};

use crate::checks::needs;
use crate::draft::PlannedNode;
use crate::schemas::{copied, group_schema, join_schema, keys_alike};
use crate::steps::{StepContext, operand};
use plan_model::{AggList, Key, Node, QueryError, QueryFault};
use query_text::NameList;
use std::alloc::Global;
use std::marker::Model;
use tw_rows::{Label, Memory, Schema};

/// A right operand, and the columns of a key on both sides.
#[derive(Drop)]
pub(crate) struct PlannedSides {
    pub(crate) right: usize,
    pub(crate) left_key: Key,
    pub(crate) right_key: Key,
}

impl Model for PlannedSides {
    ghost use Rattle.query_plan.specs.Steps.{PlannedSides as Found};

    ghost Value = { Found };

    ghost view = { λ s. record {
      right = s.right;
      left_key = s.left_key;
      right_key = s.right_key;
    } };
}

/// A copy of the key.
pub(crate) fn key_copy(alloc: Global, key: &Key) -> Result<Key, Memory>
    ensures { IfOk result (λ k. k ≡ key.now) }
{
    let mut columns = Vec::new(alloc);
    columns.extend_from_slice(key.items())?;
    Ok(Key::from_vec(columns))
}

// The first columns, as many as are told.
#[tactic(auto, using(crate::proofs::StepLemmas::columns_more))]
fn first_columns(alloc: Global, count: usize) -> Result<Key, Memory>
    ensures { IfOk result (λ key. key ≡ instants 0 count) }
{
    let mut columns = Vec::new(alloc);
    for column in 0..count {
        columns.push(column)?;
    }
    Ok(Key::from_vec(columns))
}

impl<'a> StepContext<'a> {
    /// The right operand of a step by a key, and the key's columns on both sides.
    pub(crate) fn named_sides(
        &self,
        name: &Label,
        names: &NameList,
    ) -> Result<PlannedSides, QueryError>
        ensures { Is (λ s. s) result
            (named_sides self.now.item self.now.draft.now self.now.at name.now names.now) }
    {
        let right = operand(self.item, self.draft, name)?;
        let left_key = self.key_columns(self.draft.schema_at(self.at), names)?;
        let right_key = self.key_columns(self.draft.schema_at(right), names)?;
        Ok(PlannedSides {
            right,
            left_key,
            right_key,
        })
    }

    /// Whether the columns of the key are of the same kinds on both sides.
    pub(crate) fn are_alike(&self, sides: &PlannedSides) -> bool
        ensures { result ≡ are_alike self.now.draft.now self.now.at sides.now }
    {
        keys_alike(
            self.draft.schema_at(self.at),
            self.draft.schema_at(sides.right),
            sides.left_key.items(),
            sides.right_key.items(),
        )
    }

    /// The right operand of a step by a key, whose columns are of the same kinds on both sides.
    pub(crate) fn find_sides(
        &self,
        name: &Label,
        names: &NameList,
    ) -> Result<PlannedSides, QueryError>
        ensures { Is (λ s. s) result
            (sides self.now.item self.now.draft.now self.now.at name.now names.now) }
    {
        let both = self.named_sides(name, names)?;
        needs(
            self.are_alike(&both),
            QueryFault::TypeClash { item: self.item },
        )?;
        Ok(both)
    }

    /// The left columns, and then the right ones outside the key.
    pub(crate) fn joined_schema(&self, sides: &PlannedSides) -> Result<Schema, Memory>
        ensures { IfOk result (λ s. s ≡ joined self.now.draft.now self.now.at sides.now) }
    {
        join_schema(
            self.alloc,
            self.draft.schema_at(self.at),
            self.draft.schema_at(sides.right),
            sides.right_key.items(),
        )
    }

    /// A group of the right keys alone.
    pub(crate) fn key_group(&self, sides: &PlannedSides) -> Result<PlannedNode, Memory>
        ensures { IfOk result (λ p. p ≡ key_group self.now.draft.now sides.now) }
    {
        let key = sides.right_key.items();
        let schema = group_schema(self.alloc, self.draft.schema_at(sides.right), key, &[], &[])?;
        let node = Node::Group {
            of: sides.right,
            key: key_copy(self.alloc, &sides.right_key)?,
            aggs: AggList::from_vec(Vec::new(self.alloc)),
        };
        Ok(PlannedNode { node, schema })
    }

    /// The anti-join with the group of the right keys, which has number `group`. Its right key is all of the group's columns.
    pub(crate) fn anti_node(
        &self,
        sides: &PlannedSides,
        group: usize,
    ) -> Result<PlannedNode, Memory>
        ensures { IfOk result (λ p. p ≡ anti_node self.now.draft.now self.now.at sides.now group) }
    {
        let schema = copied(self.alloc, self.draft.schema_at(self.at))?;
        let node = Node::Anti {
            left: self.at,
            right: group,
            left_key: key_copy(self.alloc, &sides.left_key)?,
            right_key: first_columns(self.alloc, sides.right_key.items().len())?,
        };
        Ok(PlannedNode { node, schema })
    }
}
