// Which nodes of a plan read the list of a stream or of a node last.
ghost use Rattle.std.specs.Prelude.{◌≡◌, ◌↔◌, ◌<◌, ◌≤◌, ℕ, IsTrue, Some, length, IfOk};
ghost use Rattle.plan_model.specs.declared.node.Node.{Node};
ghost use Rattle.plan_model.specs.Meaning.{HasLower};
ghost use Rattle.dataflow.specs.Held.{IsNeeded, IsNeededStream};
ghost use Rattle.dataflow.specs.Readers.{with_last, AreReaders};

use plan_model::{Node, Plan};
use std::alloc::Global;
use tw_rows::Memory;

/// For each node and each stream of a plan, how many nodes there are up to the last one that reads it, 0 where none does.
#[derive(Drop)]
pub(crate) struct Readers {
    nodes: Vec<usize>,
    streams: Vec<usize>,
}

// The number of a stream that the node reads.
fn stream_read(node: &Node) -> Option<usize>
    ensures { (s : ℕ) → (result ≡ Some s) ↔ (node.now ≡ Node.Source s) }
{
    match node {
        Node::Source { stream } => Some(*stream),
        _ => None,
    }
}

// The node before that number is the last one so far that reads the list of number `read`.
fn read_up_to(last: &mut Vec<usize>, read: Option<usize>, number: usize)
    requires { HasLower (length last.old.items) read }
    ensures { last.new.items ≡ with_last last.old.items read number }
{
    if let Some(at) = read {
        last[at] = number;
    }
}

impl Readers {
    /// Those of the plan, found in one pass over its nodes.
    pub(crate) fn of(alloc: Global, plan: &Plan) -> Result<Readers, Memory>
        ensures { IfOk result (AreReaders plan.now) }
    {
        let nodes = plan.nodes();
        let mut last = Readers {
            nodes: vec![in alloc; 0; nodes.len()]?,
            streams: vec![in alloc; 0; plan.streams().len()]?,
        };
        for i in 0..nodes.len() {
            let node = &nodes[i];
            read_up_to(&mut last.nodes, node.left_child(), i + 1);
            read_up_to(&mut last.nodes, node.right_child(), i + 1);
            read_up_to(&mut last.streams, stream_read(node), i + 1);
        }
        Ok(last)
    }

    /// Whether a node from the number `from` on reads the node of number `child`, or that is the root.
    pub(crate) fn is_needed(&self, plan: &Plan, from: usize, child: usize) -> bool
        requires readers { AreReaders plan.now self.now }
        requires child { child < length plan.now.nodes }
        ensures { IsTrue result ↔ IsNeeded plan.now from child }
    {
        from < self.nodes[child] || plan.root() == child
    }

    /// Whether a source from the number `from` on reads the stream.
    pub(crate) fn is_stream_needed(&self, plan: &Plan, from: usize, stream: usize) -> bool
        requires readers { AreReaders plan.now self.now }
        requires stream { stream < length plan.now.streams }
        ensures { IsTrue result ↔ IsNeededStream plan.now from stream }
    {
        // Its call tells the proof what a plan keeps.
        let _ = plan.streams();
        from < self.streams[stream]
    }
}
