// A plan that is being made: the names that are known, the nodes so far, and how the next ones are admitted or refused.
ghost use Rattle.std.specs.Prelude.{◌≡◌, ◌<◌, ◌^◌, ◌++◌, map, length, IfOk, OnOk};
ghost use Rattle.plan_model.specs.Reach.{event_level};
ghost use Rattle.query_plan.specs.Answer.{Is};
ghost use Rattle.query_plan.specs.Draft.{no_draft, node_named, is_taken, schema_at, with_name, admitted};
ghost use Rattle.query_plan.specs.Growing.{levels_of};

use crate::checks::{checked, level_of_number, next_level, reaches_with};
use plan_model::{Node, NodeList, QueryError, SchemaList};
use std::alloc::Global;
use std::marker::Model;
use tw_rows::{ColumnDef, Label, Memory, Schema};

/// A name of a stream or of a let, and the number of the node whose rows it stands for.
#[derive(Drop)]
pub(crate) struct Named {
    name: Label,
    node: usize,
}

impl Model for Named {
    ghost use Rattle.query_plan.specs.Draft.{Named as Known};

    ghost Value = { Known };

    ghost view = { λ n. record { name = n.name; node = n.node } };
}

/// A node, and the names and kinds of its columns.
#[derive(Drop)]
pub(crate) struct PlannedNode {
    pub(crate) node: Node,
    pub(crate) schema: Schema,
}

impl Model for PlannedNode {
    ghost use Rattle.query_plan.specs.Draft.{Planned};

    ghost Value = { Planned };

    ghost view = { λ p. record { node = p.node; schema = p.schema } };
}

/// What is planned so far: the names that are known, the nodes, and of each node its schema, whether its rows are events,
/// and how far it looks back.
#[derive(Drop)]
pub(crate) struct Draft {
    names: Vec<Named>,
    nodes: Vec<Node>,
    schemas: Vec<Schema>,
    levels: Vec<bool>,
    reaches: Vec<u64>,
}

impl Model for Draft {
    ghost use Rattle.query_plan.specs.Draft.{Draft as Drafted};
    ghost use Rattle.query_plan.specs.Growing.{AreFound};

    ghost Value = { Drafted };

    ghost view = { λ d. record {
      names = d.names.items;
      nodes = d.nodes.items;
      schemas = d.schemas.items;
    } };

    ghost invariant = { λ d. AreFound d.levels.items d.reaches.items d.nodes.items };
}

impl Draft {
    /// Nothing is planned.
    pub(crate) fn new(alloc: Global) -> Draft
        ensures { result ≡ no_draft }
    {
        Draft {
            names: Vec::new(alloc),
            nodes: Vec::new(alloc),
            schemas: Vec::new(alloc),
            levels: Vec::new(alloc),
            reaches: Vec::new(alloc),
        }
    }

    /// The node that the name stands for.
    pub(crate) fn node_named(&self, name: &str) -> Option<usize>
        ensures { result ≡ node_named self.now.names name.now }
    {
        for (i, named) in self.names.iter().enumerate() {
            if named.name.as_str() == name {
                return Some(named.node);
            }
        }
        None
    }

    /// Whether a stream or a let has the name.
    pub(crate) fn is_taken(&self, name: &str) -> bool
        ensures { result ≡ is_taken self.now.names name.now }
    {
        self.node_named(name).is_some()
    }

    /// The columns of the node of that number, and none where there is no node.
    pub(crate) fn schema_at(&self, i: usize) -> &[ColumnDef]
        ensures { result.now ≡ schema_at self.now i }
    {
        match self.schemas.get(i) {
            Some(schema) => schema.items(),
            None => &[],
        }
    }

    /// Whether the rows of the node of that number are events.
    pub(crate) fn is_event_level(&self, i: usize) -> bool
        ensures { result ≡ event_level self.now.nodes i }
    {
        level_of_number(&self.levels, i)
    }

    /// How many nodes there are.
    pub(crate) fn len(&self) -> usize
        ensures count { result ≡ length self.now.nodes }
        ensures small { result < 2 ^ 63 }
    {
        self.nodes.len()
    }

    /// Gives the name to the node.
    pub(crate) fn name(&mut self, name: &Label, node: usize) -> Result<(), Memory>
        ensures { IfOk result (λ _. self.new ≡ with_name self.old name.now node) }
    {
        let name = name.clone()?;
        self.names.push(Named { name, node })?;
        Ok(())
    }

    /// The draft with these nodes, which the item makes, or the first of its faults.
    pub(crate) fn admit(self, item: usize, planned: Vec<PlannedNode>) -> Result<Draft, QueryError>
        ensures { Is (λ d. d) result (admitted item self planned.items) }
    {
        let Draft {
            names,
            mut nodes,
            mut schemas,
            mut levels,
            reaches,
        } = self;
        let reaches = reaches_with(item, reaches, &planned)?;
        checked(item, nodes.len(), &planned)?;
        put_all(planned, &mut nodes, &mut schemas, &mut levels)?;
        Ok(Draft {
            names,
            nodes,
            schemas,
            levels,
            reaches,
        })
    }

    /// The nodes and their schemas.
    pub(crate) fn into_parts(self) -> (NodeList, SchemaList)
        ensures nodes { result.0 ≡ self.nodes }
        ensures schemas { result.1 ≡ self.schemas }
    {
        let Draft { nodes, schemas, .. } = self;
        (NodeList::from_vec(nodes), SchemaList::from_vec(schemas))
    }
}

// Puts the nodes and their schemas behind the others, and whether their rows are events.
fn put_all(
    planned: Vec<PlannedNode>,
    nodes: &mut Vec<Node>,
    schemas: &mut Vec<Schema>,
    levels: &mut Vec<bool>,
) -> Result<(), Memory>
    requires { levels.old.items ≡ levels_of nodes.old.items }
    ensures nodes { OnOk result (nodes.new.items ≡ nodes.old.items ++ map
        (λ p. p.node) planned.items) }
    ensures schemas { OnOk result (schemas.new.items ≡ schemas.old.items ++ map
        (λ p. p.schema) planned.items) }
    ensures levels { OnOk result (levels.new.items ≡ levels_of nodes.new.items) }
{
    for next in planned {
        let level = next_level(&next.node, levels);
        levels.push(level)?;
        nodes.push(next.node)?;
        schemas.push(next.schema)?;
    }
    Ok(())
}
