// Expressions over the columns of a row.
ghost use Rattle.std.specs.Prelude.{◌≡◌};
ghost use Rattle.plan_model.specs.IsExpr.{IsExpr};

use std::marker::Model;
use tw_rows::Label;

/// What an arithmetic node does with its two operands. The result wraps modulo 2^64.
#[derive(Clone, Copy, Debug, PartialEq, Eq)]
pub enum ArithOp {
    Add,
    Sub,
    Mul,
}

/// How a comparison node compares its two operands, by the order of values.
#[derive(Clone, Copy, Debug, PartialEq, Eq)]
pub enum CompareOp {
    Eq,
    Ne,
    Lt,
    Le,
    Gt,
    Ge,
}

/// A node of an expression: a leaf, or an operator that names its operands by their numbers in the list of nodes.
#[derive(Drop)]
pub enum ExprNode {
    /// The value of the column of that number, counted from 0.
    Column(usize),
    Int(i64),
    Bool(bool),
    Text(Label),
    /// The operand with its sign turned. The least number stays as it is.
    Neg(usize),
    Not(usize),
    Arith {
        op: ArithOp,
        left: usize,
        right: usize,
    },
    /// The quotient rounded so that the remainder is never negative: -7 by 2 is -4.
    Div {
        of: usize,
        by: u64,
    },
    /// The remainder of that division, from 0 to `by` - 1: of -7 by 2 it is 1.
    Mod {
        of: usize,
        by: u64,
    },
    Compare {
        op: CompareOp,
        left: usize,
        right: usize,
    },
    And {
        left: usize,
        right: usize,
    },
    Or {
        left: usize,
        right: usize,
    },
}

/// An expression: the list of its nodes in postfix order, operands before their operator and the root last. Parentheses
/// leave no node.
pub struct Expr {
    nodes: Vec<ExprNode>,
}

// By hand, so that crates that let one go cite this and not the destructors of its parts.
impl Drop for Expr {
    fn drop(self) {
        let Expr { nodes: _nodes } = self;
    }
}

impl Model for Expr {
    ghost use Rattle.std.specs.Prelude.{List};
    ghost use Rattle.plan_model.specs.declared.expr.ExprNode.{ExprNode as Item};
    ghost use Rattle.plan_model.specs.IsExpr.{IsExpr};

    ghost Value = { List Item };

    ghost view = { λ e. e.nodes.items };

    ghost invariant = { λ e. IsExpr e.nodes.items };
}

impl Expr {
    /// The expression of these nodes. It takes no memory.
    pub fn from_vec(items: Vec<ExprNode>) -> Expr
        requires { IsExpr items.items }
        ensures { result ≡ items.items }
    {
        Expr { nodes: items }
    }

    /// The nodes, operands before their operator.
    pub fn items(&self) -> &[ExprNode]
        ensures nodes { result.now ≡ self.now }
        ensures kept { IsExpr self.now }
    {
        self.nodes.as_slice()
    }
}
