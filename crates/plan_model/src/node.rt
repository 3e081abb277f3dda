// The kinds of nodes that a plan may have, their children, and how far each looks back.
ghost use Rattle.std.specs.Prelude.{◌≡◌};
ghost use Rattle.plan_model.specs.Meaning.{left_child as left_child_of, right_child as right_child_of};
ghost use Rattle.plan_model.specs.Reach.{own_duration as own_duration_of};

use crate::expr::Expr;
use crate::lists::{AggList, ExprList, Key};

/// A node of a plan. It names its children by their numbers in the plan's list of nodes, which are lower than its own.
#[derive(Drop)]
pub enum Node {
    /// The rows of the stream of that number.
    Source {
        stream: usize,
    },
    /// The rows of the child for which the test is true.
    Where {
        of: usize,
        test: Expr,
    },
    /// Each row of the child replaced by the values of the items on it, in order.
    Select {
        of: usize,
        items: ExprList,
    },
    /// The rows of both children; multiplicities add.
    Union {
        left: usize,
        right: usize,
    },
    /// The rows of the child, each moved by so many units of time: at each instant its rows at the instant `by` earlier, and
    /// none before `by`.
    Delay {
        of: usize,
        by: u64,
    },
    /// The rows of the child, each alive for `size` units from the greatest multiple of the period that is not above its
    /// start.
    Hop {
        of: usize,
        size: u64,
        period: u64,
    },
    /// The rows of the child, each alive for `by` units from its start.
    Duration {
        of: usize,
        by: u64,
    },
    /// The rows of the child, each alive for `by` units more. One that is alive for ever stays so.
    Extend {
        of: usize,
        by: u64,
    },
    /// The rows of the child, each alive up to the end of its session: the first time that is `timeout` units later than a
    /// start of an equal key, not below its own, with no start of that key strictly between the two.
    Session {
        of: usize,
        timeout: u64,
        key: Key,
    },
    /// The rows of the left child, each alive up to the first start of a right row with an equal key that is later than its
    /// own start, where it does not end before.
    Clip {
        left: usize,
        right: usize,
        left_key: Key,
        right_key: Key,
    },
    /// For each key that a row has one row: the values of the key, then the aggregates of the rows that have it.
    Group {
        of: usize,
        key: Key,
        aggs: AggList,
    },
    /// For every pair of a left and a right row with equal keys the left row, followed by the values of the right row in the
    /// columns outside its key.
    Join {
        left: usize,
        right: usize,
        left_key: Key,
        right_key: Key,
    },
    /// The left rows to whose key no right row is there.
    Anti {
        left: usize,
        right: usize,
        left_key: Key,
        right_key: Key,
    },
    /// The rows of the child, as events that depend on those rows alone: each from the j-th instant at which it comes to
    /// stand more often to the j-th at which it comes to stand less often.
    Coalesce {
        of: usize,
    },
    /// Each row of the child without its last column, the count, with the columns `at` divided by that count.
    Mean {
        of: usize,
        at: Key,
    },
    /// The rows of the child of whose key fewer than `count` rows have a greater int in the column `by`.
    Top {
        of: usize,
        key: Key,
        by: usize,
        count: u64,
    },
    /// For each left row and each next start of right rows with an equal key, later than its own and before `within` units
    /// are over, the left row and what these have outside their key: from that start until the units are over.
    Follow {
        left: usize,
        right: usize,
        left_key: Key,
        right_key: Key,
        within: u64,
    },
}

impl Node {
    /// The number of the only or left child. A source has none.
    pub fn left_child(&self) -> Option<usize>
        ensures { result ≡ left_child_of self.now }
    {
        match self {
            Node::Source { .. } => None,
            Node::Where { of, .. }
            | Node::Select { of, .. }
            | Node::Delay { of, .. }
            | Node::Hop { of, .. }
            | Node::Duration { of, .. }
            | Node::Extend { of, .. }
            | Node::Session { of, .. }
            | Node::Group { of, .. }
            | Node::Coalesce { of }
            | Node::Mean { of, .. }
            | Node::Top { of, .. } => Some(*of),
            Node::Union { left, .. }
            | Node::Clip { left, .. }
            | Node::Join { left, .. }
            | Node::Anti { left, .. }
            | Node::Follow { left, .. } => Some(*left),
        }
    }

    /// The number of the right child.
    pub fn right_child(&self) -> Option<usize>
        ensures { result ≡ right_child_of self.now }
    {
        match self {
            Node::Union { right, .. }
            | Node::Clip { right, .. }
            | Node::Join { right, .. }
            | Node::Anti { right, .. }
            | Node::Follow { right, .. } => Some(*right),
            _ => None,
        }
    }

    /// How far the node itself looks back, in units of time.
    pub fn own_duration(&self) -> u64
        ensures { result ≡ own_duration_of self.now }
    {
        match self {
            Node::Delay { by, .. } | Node::Duration { by, .. } | Node::Extend { by, .. } => *by,
            Node::Hop { size, .. } => *size,
            Node::Session { timeout, .. } => *timeout,
            Node::Follow { within, .. } => *within,
            _ => 0,
        }
    }
}
