// A plan: its streams, its nodes with their schemas, and the node whose rows are the result.
ghost use Rattle.std.specs.Prelude.{◌≡◌, ◌<◌, length};
ghost use Rattle.plan_model.specs.IsPlan.{AreNodes, IsPlan};

use crate::lists::{NodeList, SchemaList, StreamList};
use crate::node::Node;
use std::marker::Model;
use tw_rows::{Schema, StreamDef};

/// A plan: the streams of a query, the nodes over them with a schema each, and the number of the node whose rows are the
/// result.
pub struct Plan {
    streams: StreamList,
    nodes: NodeList,
    schemas: SchemaList,
    root: usize,
}

// By hand, so that crates that let one go cite this and not the destructors of its parts.
impl Drop for Plan {
    fn drop(self) {
        let Plan {
            streams: _streams,
            nodes: _nodes,
            schemas: _schemas,
            root: _,
        } = self;
    }
}

impl Model for Plan {
    ghost use Rattle.plan_model.specs.IsPlan.{PlanParts, IsPlan};

    ghost Value = { PlanParts };

    ghost view = { λ p. record {
      streams = p.streams;
      nodes = p.nodes;
      schemas = p.schemas;
      root = p.root;
    } };

    ghost invariant = { λ p. IsPlan (record {
      streams = p.streams;
      nodes = p.nodes;
      schemas = p.schemas;
      root = p.root;
    }) };
}

impl Plan {
    /// The plan of these parts. It takes no memory.
    pub fn from_parts(
        streams: StreamList,
        nodes: NodeList,
        schemas: SchemaList,
        root: usize,
    ) -> Plan
        requires nodes { AreNodes streams nodes schemas }
        requires root { root < length nodes }
        ensures { result ≡ record {
          streams = streams;
          nodes = nodes;
          schemas = schemas;
          root = root;
        } }
    {
        Plan {
            streams,
            nodes,
            schemas,
            root,
        }
    }

    /// The streams of the query, in the order of its text.
    pub fn streams(&self) -> &[StreamDef]
        ensures streams { result.now ≡ self.now.streams }
        ensures kept { IsPlan self.now }
    {
        self.streams.items()
    }

    /// The nodes, children before their parents.
    pub fn nodes(&self) -> &[Node]
        ensures nodes { result.now ≡ self.now.nodes }
        ensures kept { IsPlan self.now }
    {
        self.nodes.items()
    }

    /// The schemas of the nodes, in their order.
    pub fn schemas(&self) -> &[Schema]
        ensures schemas { result.now ≡ self.now.schemas }
        ensures kept { IsPlan self.now }
    {
        self.schemas.items()
    }

    /// The number of the node whose rows are the result.
    pub fn root(&self) -> usize
        ensures root { result ≡ self.now.root }
        ensures kept { IsPlan self.now }
    {
        self.root
    }
}
