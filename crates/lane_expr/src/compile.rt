// The compiling of expressions into kernels.
ghost use Rattle.std.specs.Prelude.{◌≡◌, ℕ, map, take, IfOk, OnOk, OnErr, ◌<◌};
ghost use Rattle.tw_rows.specs.Kinds.{cell_kind_of};
ghost use Rattle.tw_rows.specs.Texts.{BeginsWith};
ghost use Rattle.plan_model.specs.IsExpr.{IsExprNode, AreExprNodes};
ghost use Rattle.plan_model.specs.Typed.{IsTyped, kind_of};
ghost use Rattle.lane_expr.specs.Steps.{node_of, expr_of, IsStepPlaced, AreStepsPlaced, AreSteps, step_kind, with_node, with_texts};
ghost use Rattle.lane_expr.specs.Kernels.{IsKernelOf, result_kind};
ghost use Rattle.tw_rows.specs.Cells.{datum_kind};
ghost use Rattle.lane_expr.specs.Registers.{kinds_in, datum_of, AreFilled};

use crate::divisor::Divisor;
use crate::kernel::Kernel;
use crate::registers::Register;
use crate::step::{Step, kind_of};
use plan_model::{Expr, ExprNode};
use std::alloc::Global;
use tw_rows::{CellKind, Datum, Kind, Memory, TextTable, cell_of};

impl Kernel {
    /// The kernel of an expression that is well typed over columns of these kinds, for batches of at most `capacity`
    /// rows. The texts of the expression are in the table then; after a refusal those of the nodes so far.
    pub fn compile(
        alloc: Global,
        expr: &Expr,
        kinds: &[Kind],
        texts: &mut TextTable,
        capacity: usize,
    ) -> Result<Kernel, Memory>
        requires { IsTyped (map cell_kind_of kinds.now) expr.now }
        ensures kernel { IfOk result (λ k. IsKernelOf texts.new expr.now k) }
        ensures kinds { IfOk result (λ k. k.kinds ≡ map cell_kind_of kinds.now) }
        ensures capacity { IfOk result (λ k. k.capacity ≡ capacity) }
        ensures result { IfOk result (λ k. result_kind k
            ≡ kind_of expr.now (map cell_kind_of kinds.now)) }
        ensures table { OnOk result (texts.new ≡ with_texts texts.old expr.now) }
        ensures err { OnErr result ((n : ℕ) × (texts.new
            ≡ with_texts texts.old (take n expr.now))) }
        ensures begins { BeginsWith texts.new texts.old }
    {
        let steps = compile_nodes(alloc, expr.items(), texts)?;
        let kinds = cell_kinds(alloc, kinds)?;
        let registers = registers_of(alloc, &steps, &kinds)?;
        Ok(Kernel {
            steps,
            kinds,
            capacity,
            registers,
        })
    }
}

// The steps of the nodes.
fn compile_nodes(
    alloc: Global,
    nodes: &[ExprNode],
    texts: &mut TextTable,
) -> Result<Vec<Step>, Memory>
    requires { AreExprNodes 0 nodes.now }
    ensures steps { IfOk result (λ v. expr_of texts.new v.items ≡ nodes.now) }
    ensures placed { IfOk result (λ v. AreStepsPlaced texts.new v.items) }
    ensures table { OnOk result (texts.new ≡ with_texts texts.old nodes.now) }
    ensures err { OnErr result ((n : ℕ) × (texts.new ≡ with_texts texts.old (take n nodes.now))) }
    ensures begins { BeginsWith texts.new texts.old }
{
    let mut steps = Vec::new(alloc);
    for node in nodes {
        steps.push(compile_node(node, texts)?)?;
    }
    Ok(steps)
}

// The step of a node, whose text is in the table then.
fn compile_node(node: &ExprNode, texts: &mut TextTable) -> Result<Step, Memory>
    requires { (i : ℕ) × IsExprNode i node.now }
    ensures step { IfOk result (λ s. node_of texts.new s ≡ node.now) }
    ensures placed { IfOk result (λ s. IsStepPlaced texts.new s) }
    ensures table { OnOk result (texts.new ≡ with_node texts.old node.now) }
    ensures err { OnErr result (texts.new ≡ texts.old) }
    ensures begins { BeginsWith texts.new texts.old }
{
    Ok(match node {
        ExprNode::Column(column) => Step::Column(*column),
        ExprNode::Int(number) => Step::Constant(Datum::Int(*number)),
        ExprNode::Bool(flag) => Step::Constant(Datum::Bool(*flag)),
        ExprNode::Text(text) => Step::Constant(Datum::Text(texts.intern(text.as_str())?)),
        ExprNode::Neg(of) => Step::Neg(*of),
        ExprNode::Not(of) => Step::Not(*of),
        ExprNode::Arith { op, left, right } => Step::Arith {
            op: *op,
            left: *left,
            right: *right,
        },
        ExprNode::Div { of, by } => Step::Div {
            of: *of,
            by: Divisor::new(*by),
        },
        ExprNode::Mod { of, by } => Step::Mod {
            of: *of,
            by: Divisor::new(*by),
        },
        ExprNode::Compare { op, left, right } => Step::Compare {
            op: *op,
            left: *left,
            right: *right,
        },
        ExprNode::And { left, right } => Step::And {
            left: *left,
            right: *right,
        },
        ExprNode::Or { left, right } => Step::Or {
            left: *left,
            right: *right,
        },
    })
}

// How the cells of each kind are stored.
fn cell_kinds(alloc: Global, kinds: &[Kind]) -> Result<Vec<CellKind>, Memory>
    ensures { IfOk result (λ v. v.items ≡ map cell_kind_of kinds.now) }
{
    let mut cells = Vec::new(alloc);
    for kind in kinds {
        cells.push(cell_of(*kind))?;
    }
    Ok(cells)
}

// A register for the results of a step, which hold a constant from the start.
fn register_of(step: &Step, kind: CellKind) -> Register
    requires { (d : Datum) → step.now ≡ Step.Constant d → datum_kind d ≡ kind }
    ensures kind { result.kind ≡ kind }
    ensures constant { (d : Datum) → step.now ≡ Step.Constant d → (j : ℕ) → j < 64 →
        datum_of kind result j ≡ d }
{
    let mut register = Register::new(kind);
    if let Step::Constant(datum) = step {
        register.fill(*datum);
    }
    register
}

// A register for the results of each step.
fn registers_of(
    alloc: Global,
    steps: &[Step],
    columns: &[CellKind],
) -> Result<Vec<Register>, Memory>
    requires { AreSteps columns.now steps.now }
    ensures kinds { IfOk result (λ v. kinds_in v.items ≡ map (step_kind columns.now) steps.now) }
    ensures filled { IfOk result (λ v. AreFilled steps.now v.items) }
{
    let mut registers = Vec::new(alloc);
    for step in steps {
        registers.push(register_of(step, kind_of(*step, columns)))?;
    }
    Ok(registers)
}
