// The lists that plans and nodes hold, each a type of its own: expressions, keys, aggregates, streams, nodes and schemas.
ghost use Rattle.std.specs.Prelude.{◌≡◌};

use crate::agg::Agg;
use crate::expr::Expr;
use crate::node::Node;
use std::marker::Model;
use tw_rows::{Schema, StreamDef};

/// Expressions, in order.
#[derive(Drop)]
pub struct ExprList {
    exprs: Vec<Expr>,
}

impl Model for ExprList {
    ghost use Rattle.std.specs.Prelude.{List};
    ghost use Rattle.plan_model.specs.declared.expr.ExprNode.{ExprNode};

    ghost Value = { List (List ExprNode) };

    ghost view = { λ e. e.exprs.items };
}

impl ExprList {
    /// The list of these expressions. It takes no memory.
    pub fn from_vec(items: Vec<Expr>) -> ExprList
        ensures { result ≡ items.items }
    {
        ExprList { exprs: items }
    }

    /// The expressions, in order.
    pub fn items(&self) -> &[Expr]
        ensures { result.now ≡ self.now }
    {
        self.exprs.as_slice()
    }
}

/// The columns of a key by their numbers, counted from 0, in order.
#[derive(Drop)]
pub struct Key {
    columns: Vec<usize>,
}

impl Model for Key {
    ghost use Rattle.std.specs.Prelude.{ℕ, List};

    ghost Value = { List ℕ };

    ghost view = { λ k. k.columns.items };
}

impl Key {
    /// The key of these columns. It takes no memory.
    pub fn from_vec(items: Vec<usize>) -> Key
        ensures { result ≡ items.items }
    {
        Key { columns: items }
    }

    /// The numbers of the columns, in order.
    pub fn items(&self) -> &[usize]
        ensures { result.now ≡ self.now }
    {
        self.columns.as_slice()
    }
}

/// Aggregates, in order.
#[derive(Drop)]
pub struct AggList {
    aggs: Vec<Agg>,
}

impl Model for AggList {
    ghost use Rattle.std.specs.Prelude.{List};
    ghost use Rattle.plan_model.specs.declared.agg.Agg.{Agg as Item};

    ghost Value = { List Item };

    ghost view = { λ a. a.aggs.items };
}

impl AggList {
    /// The list of these aggregates. It takes no memory.
    pub fn from_vec(items: Vec<Agg>) -> AggList
        ensures { result ≡ items.items }
    {
        AggList { aggs: items }
    }

    /// The aggregates, in order.
    pub fn items(&self) -> &[Agg]
        ensures { result.now ≡ self.now }
    {
        self.aggs.as_slice()
    }
}

/// Streams, in order.
#[derive(Drop)]
pub struct StreamList {
    streams: Vec<StreamDef>,
}

impl Model for StreamList {
    ghost use Rattle.std.specs.Prelude.{List};
    ghost use Rattle.tw_rows.specs.declared.schema.StreamDef.{StreamDef as Item};

    ghost Value = { List Item };

    ghost view = { λ l. l.streams.items };
}

impl StreamList {
    /// The list of these streams. It takes no memory.
    pub fn from_vec(items: Vec<StreamDef>) -> StreamList
        ensures { result ≡ items.items }
    {
        StreamList { streams: items }
    }

    /// The streams, in order.
    pub fn items(&self) -> &[StreamDef]
        ensures { result.now ≡ self.now }
    {
        self.streams.as_slice()
    }
}

/// The nodes of a plan, children before their parents.
#[derive(Drop)]
pub struct NodeList {
    nodes: Vec<Node>,
}

impl Model for NodeList {
    ghost use Rattle.std.specs.Prelude.{List};
    ghost use Rattle.plan_model.specs.declared.node.Node.{Node as Item};

    ghost Value = { List Item };

    ghost view = { λ l. l.nodes.items };
}

impl NodeList {
    /// The list of these nodes. It takes no memory.
    pub fn from_vec(items: Vec<Node>) -> NodeList
        ensures { result ≡ items.items }
    {
        NodeList { nodes: items }
    }

    /// The nodes, in order.
    pub fn items(&self) -> &[Node]
        ensures { result.now ≡ self.now }
    {
        self.nodes.as_slice()
    }
}

/// Schemas, in order.
#[derive(Drop)]
pub struct SchemaList {
    schemas: Vec<Schema>,
}

impl Model for SchemaList {
    ghost use Rattle.std.specs.Prelude.{List};
    ghost use Rattle.tw_rows.specs.declared.schema.ColumnDef.{ColumnDef as Item};

    ghost Value = { List (List Item) };

    ghost view = { λ l. l.schemas.items };
}

impl SchemaList {
    /// The list of these schemas. It takes no memory.
    pub fn from_vec(items: Vec<Schema>) -> SchemaList
        ensures { result ≡ items.items }
    {
        SchemaList { schemas: items }
    }

    /// The schemas, in order.
    pub fn items(&self) -> &[Schema]
        ensures { result.now ≡ self.now }
    {
        self.schemas.as_slice()
    }
}
