// The limits of plans, and what is found of a node from what was found of its children.
ghost use Rattle.std.specs.Prelude.{◌≡◌, nat_lt, cond, Some, None};
ghost use Rattle.plan_model.specs.IsPlan.{most_reach};
ghost use Rattle.plan_model.specs.Reach.{node_reach, node_is_event_level};

use crate::node::Node;

/// As many nodes as a plan may have.
pub const MOST_NODES: usize = 256;

/// As many columns as a stream and a node may have.
pub const MOST_COLUMNS: usize = 32;

/// How far a node may look back, in units of time: 2^60.
pub const MOST_REACH: u64 = 1_152_921_504_606_846_976;

/// Whether the rows of a node are events, from whether those of its left and of its right child are. Of a child that is
/// not there `true` is to be said.
pub fn level_over(node: &Node, left: bool, right: bool) -> bool
    ensures { result ≡ node_is_event_level node.now left right }
{
    match node {
        Node::Source { .. }
        | Node::Hop { .. }
        | Node::Duration { .. }
        | Node::Extend { .. }
        | Node::Session { .. }
        | Node::Clip { .. }
        | Node::Coalesce { .. }
        | Node::Follow { .. } => true,
        Node::Where { .. } | Node::Select { .. } | Node::Delay { .. } => left,
        Node::Union { .. } => left && right,
        Node::Group { .. }
        | Node::Join { .. }
        | Node::Anti { .. }
        | Node::Mean { .. }
        | Node::Top { .. } => false,
    }
}

/// How far a node looks back with all below it, from how far its children do; none where that is too far. Of a child that
/// is not there 0 is to be said.
#[tactic(auto, unfolding(crate::specs::IsPlan::most_reach))]
pub fn reach_over(node: &Node, left: u64, right: u64) -> Option<u64>
    ensures { result ≡ cond (nat_lt most_reach (node_reach node.now left right)) None
        (Some (node_reach node.now left right)) }
{
    let children = left.max(right);
    let own = node.own_duration();
    if own > MOST_REACH || children > MOST_REACH - own {
        return None;
    }
    Some(children + own)
}
