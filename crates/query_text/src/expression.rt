// The parser of expressions.
ghost use Rattle.std.specs.Prelude.{◌≡◌, ◌<◌, ◌≤◌, ◌-◌, length, Some, None, IfOk, IfErr};
ghost use Rattle.query_text.specs.Grammar.{expr_then, ors_then, conj_then, ands_then, neg_then};
ghost use Rattle.query_text.specs.Grammar.{test_then, sum_then, terms_then, prod_then};
ghost use Rattle.query_text.specs.Grammar.{factors_then, unary_then, atom_then};
ghost use Rattle.query_text.specs.Machine.{rank};
ghost use Rattle.query_text.specs.Spelling.{expr_onto, ors_onto, conj_onto, ands_onto, neg_onto};
ghost use Rattle.query_text.specs.Spelling.{test_onto, sum_onto, terms_onto, prod_onto};
ghost use Rattle.query_text.specs.Spelling.{factors_onto, unary_onto, atom_onto};
ghost use Rattle.query_text.specs.Reading.{Reads, ReadsOne, Shrinks, TakesPos};

use crate::Sign;
use crate::cursor::Cursor;
use crate::stop::Stop;
use crate::tree::{Nodes, TreeNode};
use plan_model::ArithOp;
use std::alloc::Global;

/// The words of a query that are left, and the nodes of the expression that is being read. What reads a part of an
/// expression gives the number of its root, the last node that is there then.
#[derive(Drop)]
pub(crate) struct Parser<'a> {
    pub(crate) alloc: Global,
    pub(crate) cursor: Cursor<'a>,
    pub(crate) nodes: Nodes,
}

impl<'a> Parser<'a> {
    // A number above 0, and no other word.
    fn divisor(&mut self) -> Result<u64, Stop>
        ensures reads { IfOk result (λ by. TakesPos (Some by) self.old.cursor self.new.cursor) }
        ensures stuck { IfErr result (λ stop. (stop ≡ Stop.Stuck)
            × TakesPos None self.old.cursor self.new.cursor) }
        ensures kept { self.new.nodes ≡ self.old.nodes }
    {
        match self.cursor.takes_pos() {
            Some(by) => Ok(by),
            None => Err(Stop::Stuck),
        }
    }

    #[cycle(expression)]
    fn atom(&mut self) -> Result<usize, Stop>
        ensures reads { Reads result atom_then (λ _. Unit {0})
            (λ a _. self.new.nodes ≡ atom_onto a self.old.nodes) self.old.cursor self.new.cursor }
        ensures grows { IfOk result (λ _. length self.old.nodes < length self.new.nodes) }
        ensures root { IfOk result (λ root. root ≡ length self.new.nodes - 1) }
        ensures shrinks { IfOk result (λ _. length self.new.cursor ≤ length self.old.cursor) }
    {
        if let Some(leaf) = self.cursor.takes_leaf()? {
            self.nodes.push(leaf)?;
            return Ok(self.nodes.last());
        }
        if !self.cursor.takes(Sign::Open) {
            return Err(Stop::Stuck);
        }
        let root = self.expr()?;
        if !self.cursor.takes(Sign::Close) {
            return Err(Stop::Stuck);
        }
        Ok(root)
    }

    /// `-` and what it negates, or an atom. Its nodes come behind those that are there.
    #[cycle(expression)]
    pub(crate) fn unary(&mut self) -> Result<usize, Stop>
        ensures reads { Reads result unary_then (λ _. Unit {0})
            (λ a _. self.new.nodes ≡ unary_onto a self.old.nodes) self.old.cursor self.new.cursor }
        ensures grows { IfOk result (λ _. length self.old.nodes < length self.new.nodes) }
        ensures root { IfOk result (λ root. root ≡ length self.new.nodes - 1) }
        ensures shrinks { IfOk result (λ _. length self.new.cursor ≤ length self.old.cursor) }
    {
        if !self.cursor.takes(Sign::Minus) {
            return self.atom();
        }
        let of = self.unary()?;
        self.nodes.push(TreeNode::Neg(of))?;
        Ok(self.nodes.last())
    }

    // One more factor, if there is one.
    #[cycle(expression)]
    fn factor(&mut self) -> Result<bool, Stop>
        requires { 0 < length self.old.nodes }
        ensures reads { ReadsOne result factors_then
            (λ z. rank z < 5) factors_onto self.old.cursor self.new.cursor self.old.nodes
            self.new.nodes }
        ensures grows { IfOk result (λ _. length self.old.nodes ≤ length self.new.nodes) }
        ensures shrinks { IfOk result (λ more. Shrinks more self.old.cursor self.new.cursor) }
    {
        if self.cursor.takes(Sign::Star) {
            let left = self.nodes.last();
            let right = self.unary()?;
            let op = ArithOp::Mul;
            self.nodes.push(TreeNode::Arith { op, left, right })?;
            return Ok(true);
        }
        if self.cursor.takes(Sign::Div) {
            let by = self.divisor()?;
            let of = self.nodes.last();
            self.nodes.push(TreeNode::Div { of, by })?;
            return Ok(true);
        }
        if self.cursor.takes(Sign::Mod) {
            let by = self.divisor()?;
            let of = self.nodes.last();
            self.nodes.push(TreeNode::Mod { of, by })?;
            return Ok(true);
        }
        Ok(false)
    }

    #[cycle(expression)]
    fn prod(&mut self) -> Result<usize, Stop>
        ensures reads { Reads result prod_then (λ z. rank z < 5)
            (λ a _. self.new.nodes ≡ prod_onto a self.old.nodes) self.old.cursor self.new.cursor }
        ensures grows { IfOk result (λ _. length self.old.nodes < length self.new.nodes) }
        ensures root { IfOk result (λ root. root ≡ length self.new.nodes - 1) }
        ensures shrinks { IfOk result (λ _. length self.new.cursor ≤ length self.old.cursor) }
    {
        self.unary()?;
        'factors: while self.factor()? {}
        Ok(self.nodes.last())
    }

    // One more term, if there is one.
    #[cycle(expression)]
    fn term(&mut self) -> Result<bool, Stop>
        requires { 0 < length self.old.nodes }
        ensures reads { ReadsOne result terms_then
            (λ z. rank z < 4) terms_onto self.old.cursor self.new.cursor self.old.nodes
            self.new.nodes }
        ensures grows { IfOk result (λ _. length self.old.nodes ≤ length self.new.nodes) }
        ensures shrinks { IfOk result (λ more. Shrinks more self.old.cursor self.new.cursor) }
    {
        let Some(op) = self.cursor.takes_term() else {
            return Ok(false);
        };
        let left = self.nodes.last();
        let right = self.prod()?;
        self.nodes.push(TreeNode::Arith { op, left, right })?;
        Ok(true)
    }

    #[cycle(expression)]
    fn sum(&mut self) -> Result<usize, Stop>
        ensures reads { Reads result sum_then (λ z. rank z < 4)
            (λ a _. self.new.nodes ≡ sum_onto a self.old.nodes) self.old.cursor self.new.cursor }
        ensures grows { IfOk result (λ _. length self.old.nodes < length self.new.nodes) }
        ensures root { IfOk result (λ root. root ≡ length self.new.nodes - 1) }
        ensures shrinks { IfOk result (λ _. length self.new.cursor ≤ length self.old.cursor) }
    {
        self.prod()?;
        'terms: while self.term()? {}
        Ok(self.nodes.last())
    }

    // A comparison, if there is one, whose left side was read.
    #[cycle(expression)]
    fn test(&mut self) -> Result<usize, Stop>
        requires { 0 < length self.old.nodes }
        ensures reads { Reads result test_then (λ z. rank z < 3)
            (λ a _. self.new.nodes ≡ test_onto a self.old.nodes) self.old.cursor self.new.cursor }
        ensures grows { IfOk result (λ _. length self.old.nodes ≤ length self.new.nodes) }
        ensures root { IfOk result (λ root. root ≡ length self.new.nodes - 1) }
        ensures shrinks { IfOk result (λ _. length self.new.cursor ≤ length self.old.cursor) }
    {
        let left = self.nodes.last();
        let Some(op) = self.cursor.takes_compare() else {
            return Ok(left);
        };
        let right = self.sum()?;
        self.nodes.push(TreeNode::Compare { op, left, right })?;
        Ok(self.nodes.last())
    }

    #[cycle(expression)]
    fn neg(&mut self) -> Result<usize, Stop>
        ensures reads { Reads result neg_then (λ z. rank z < 3)
            (λ a _. self.new.nodes ≡ neg_onto a self.old.nodes) self.old.cursor self.new.cursor }
        ensures grows { IfOk result (λ _. length self.old.nodes < length self.new.nodes) }
        ensures root { IfOk result (λ root. root ≡ length self.new.nodes - 1) }
        ensures shrinks { IfOk result (λ _. length self.new.cursor ≤ length self.old.cursor) }
    {
        if !self.cursor.takes(Sign::Not) {
            self.sum()?;
            return self.test();
        }
        let of = self.neg()?;
        self.nodes.push(TreeNode::Not(of))?;
        Ok(self.nodes.last())
    }

    // One more operand of `and`, if there is one.
    #[cycle(expression)]
    fn and(&mut self) -> Result<bool, Stop>
        requires { 0 < length self.old.nodes }
        ensures reads { ReadsOne result ands_then
            (λ z. rank z < 2) ands_onto self.old.cursor self.new.cursor self.old.nodes
            self.new.nodes }
        ensures grows { IfOk result (λ _. length self.old.nodes ≤ length self.new.nodes) }
        ensures shrinks { IfOk result (λ more. Shrinks more self.old.cursor self.new.cursor) }
    {
        if !self.cursor.takes(Sign::And) {
            return Ok(false);
        }
        let left = self.nodes.last();
        let right = self.neg()?;
        self.nodes.push(TreeNode::And { left, right })?;
        Ok(true)
    }

    #[cycle(expression)]
    fn conj(&mut self) -> Result<usize, Stop>
        ensures reads { Reads result conj_then (λ z. rank z < 2)
            (λ a _. self.new.nodes ≡ conj_onto a self.old.nodes) self.old.cursor self.new.cursor }
        ensures grows { IfOk result (λ _. length self.old.nodes < length self.new.nodes) }
        ensures root { IfOk result (λ root. root ≡ length self.new.nodes - 1) }
        ensures shrinks { IfOk result (λ _. length self.new.cursor ≤ length self.old.cursor) }
    {
        self.neg()?;
        'ands: while self.and()? {}
        Ok(self.nodes.last())
    }

    // One more operand of `or`, if there is one.
    #[cycle(expression)]
    fn or(&mut self) -> Result<bool, Stop>
        requires { 0 < length self.old.nodes }
        ensures reads { ReadsOne result ors_then (λ z. rank z < 1) ors_onto
            self.old.cursor self.new.cursor self.old.nodes self.new.nodes }
        ensures grows { IfOk result (λ _. length self.old.nodes ≤ length self.new.nodes) }
        ensures shrinks { IfOk result (λ more. Shrinks more self.old.cursor self.new.cursor) }
    {
        if !self.cursor.takes(Sign::Or) {
            return Ok(false);
        }
        let left = self.nodes.last();
        let right = self.conj()?;
        self.nodes.push(TreeNode::Or { left, right })?;
        Ok(true)
    }

    /// An expression. Its nodes come behind those that are there.
    #[cycle(expression)]
    pub(crate) fn expr(&mut self) -> Result<usize, Stop>
        ensures reads { Reads result expr_then (λ z. rank z < 1)
            (λ a _. self.new.nodes ≡ expr_onto a self.old.nodes) self.old.cursor self.new.cursor }
        ensures grows { IfOk result (λ _. length self.old.nodes < length self.new.nodes) }
        ensures root { IfOk result (λ root. root ≡ length self.new.nodes - 1) }
        ensures shrinks { IfOk result (λ _. length self.new.cursor ≤ length self.old.cursor) }
    {
        self.conj()?;
        'ors: while self.or()? {}
        Ok(self.nodes.last())
    }
}
