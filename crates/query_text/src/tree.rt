// The trees of expressions, as lists of nodes.
ghost use Rattle.std.specs.Prelude.{◌≡◌, ◌<◌, ◌-◌, List, [], ◌∷◌, ◌++◌, length, IfOk};
ghost use Rattle.query_text.specs.IsTree.{IsTree, IsTreeNode, AreTreeNodes};

use plan_model::{ArithOp, CompareOp};
use std::alloc::Global;
use std::marker::Model;
use tw_rows::{Label, Memory};

/// A node of an expression of a query: a leaf, or an operator that names its operands by their numbers in the list of
/// nodes.
#[derive(Drop)]
pub enum TreeNode {
    /// The column of that name.
    Name(Label),
    Int(i64),
    /// A decimal: `1.50` has 150 units and 2 places.
    Dec {
        units: i64,
        places: u8,
    },
    Bool(bool),
    /// A text, as it is without its quotes. It has neither CR nor LF.
    Text(Label),
    Neg(usize),
    Not(usize),
    Arith {
        op: ArithOp,
        left: usize,
        right: usize,
    },
    /// `by` is from 1 to 9223372036854775807.
    Div {
        of: usize,
        by: u64,
    },
    /// `by` is from 1 to 9223372036854775807.
    Mod {
        of: usize,
        by: u64,
    },
    Compare {
        op: CompareOp,
        left: usize,
        right: usize,
    },
    And {
        left: usize,
        right: usize,
    },
    Or {
        left: usize,
        right: usize,
    },
}

/// An expression of a query: the list of its nodes in postfix order, operands before their operator and the root last.
/// Parentheses leave no node.
pub struct Tree {
    nodes: Vec<TreeNode>,
}

// By hand, so that crates that let one go cite this and not the destructors of its parts.
impl Drop for Tree {
    fn drop(self) {
        let Tree { nodes: _nodes } = self;
    }
}

impl Model for Tree {
    ghost use Rattle.std.specs.Prelude.{List};
    ghost use Rattle.query_text.specs.declared.tree.TreeNode.{TreeNode as Item};
    ghost use Rattle.query_text.specs.IsTree.{IsTree};

    ghost Value = { List Item };

    ghost view = { λ t. t.nodes.items };

    ghost invariant = { λ t. IsTree t.nodes.items };
}

impl Tree {
    /// The tree of these nodes. It takes no memory.
    pub fn from_vec(items: Vec<TreeNode>) -> Tree
        requires { IsTree items.items }
        ensures { result ≡ items.items }
    {
        Tree { nodes: items }
    }

    /// The nodes, operands before their operator.
    pub fn items(&self) -> &[TreeNode]
        ensures nodes { result.now ≡ self.now }
        ensures kept { IsTree self.now }
    {
        self.nodes.as_slice()
    }
}

/// Nodes that are still being read: a tree's, but that there may be none.
#[derive(Drop)]
pub(crate) struct Nodes {
    items: Vec<TreeNode>,
}

impl Model for Nodes {
    ghost use Rattle.std.specs.Prelude.{List};
    ghost use Rattle.query_text.specs.declared.tree.TreeNode.{TreeNode as Item};
    ghost use Rattle.query_text.specs.IsTree.{AreTreeNodes};

    ghost Value = { List Item };

    ghost view = { λ n. n.items.items };

    ghost invariant = { λ n. AreTreeNodes 0 n.items.items };
}

impl Nodes {
    pub(crate) fn new(alloc: Global) -> Nodes
        ensures { result ≡ [] }
    {
        Nodes {
            items: Vec::new(alloc),
        }
    }

    /// The number of the last node.
    pub(crate) fn last(&self) -> usize
        requires { 0 < length self.now }
        ensures { result ≡ length self.now - 1 }
    {
        self.items.len() - 1
    }

    /// Puts a node behind the others.
    pub(crate) fn push(&mut self, node: TreeNode) -> Result<(), Memory>
        requires { IsTreeNode (length self.old) node }
        ensures { IfOk result (λ _. self.new ≡ self.old ++ node ∷ []) }
    {
        self.items.push(node)?;
        Ok(())
    }

    /// The tree of these nodes.
    pub(crate) fn into_tree(self) -> Tree
        requires { 0 < length self }
        ensures { result ≡ self }
    {
        Tree { nodes: self.items }
    }
}
