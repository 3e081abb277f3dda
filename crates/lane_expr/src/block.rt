// The running of steps over a block of 64 rows.
ghost use Rattle.std.specs.Prelude.{◌≡◌, ◌+◌, ◌*◌, ◌-◌, ◌<◌, ◌≢◌, ℕ, [], true, length, map, take, slice_index_or};
ghost use Rattle.lane_expr.specs.Lanes.{number};
ghost use Rattle.tw_rows.specs.Cells.{read_datum, read_cells, IsPlaced, ArePlaced};
ghost use Rattle.plan_model.specs.IsExpr.{IsExprNode};
ghost use Rattle.plan_model.specs.Expr.{node_value, value, arith_value};
ghost use Rattle.plan_model.specs.Typed.{IsTypedNode};
ghost use Rattle.lane_expr.specs.Steps.{node_of, expr_of, step_kind, IsStepPlaced, AreStepsPlaced, IsStepWithin, AreSteps};
ghost use Rattle.lane_expr.specs.Running.{operand, no_row, cells_of};
ghost use Rattle.lane_expr.specs.Registers.{datum_of, datum_at, datum_in, kinds_in, IsOccupied, is_constant, AreFilled};
ghost use Rattle.lane_expr.specs.Kernels.{HoldsPlaces, IsResult};

use crate::BLOCK;
use crate::compare::compare;
use crate::numbers::{Numbers, differences, negations, products, quotients, rests, sums};
use crate::registers::Register;
use crate::step::Step;
use batch::Batch;
use plan_model::ArithOp;
use tw_rows::{CellKind, Datum, TextTable};

/// Runs the steps over the rows from 64 * block on: the registers then hold their results for those that are
/// occupied. A block without an occupied row is passed over.
pub(crate) fn run(
    registers: &mut [Register],
    steps: &[Step],
    batch: &Batch,
    texts: &TextTable,
    block: usize,
)
    requires steps { AreSteps batch.now.kinds steps.now }
    requires kinds { kinds_in registers.old ≡ map (step_kind batch.now.kinds) steps.now }
    requires placed { AreStepsPlaced texts.now steps.now }
    requires block { 64 * block < length batch.now.rows }
    requires cells { HoldsPlaces texts.now batch.now.rows }
    requires filled { AreFilled steps.now registers.old }
    ensures kinds { kinds_in registers.new ≡ kinds_in registers.old }
    ensures filled { AreFilled steps.now registers.new }
    ensures results { (j : ℕ) → j < 64 → IsResult texts.now (expr_of texts.now steps.now)
        (slice_index_or batch.now.rows (64 * block + j) no_row)
        (datum_in registers.new (length steps.now - 1) j) }
{
    if batch.occupancy().word(block) == 0 {
        return;
    }
    for to in 0..steps.len() {
        run_at(registers, to, &steps[to], batch, texts, block);
    }
}

// Runs the step of number `to`, whose results go into its register.
fn run_at(
    registers: &mut [Register],
    to: usize,
    step: &Step,
    batch: &Batch,
    texts: &TextTable,
    block: usize,
)
    requires place { to < length registers.old }
    requires operands { IsExprNode to (node_of [] step.now) }
    requires within { IsStepWithin batch.now.kinds step.now }
    requires kind { slice_index_or (kinds_in registers.old) to CellKind.Whole
        ≡ step_kind batch.now.kinds step.now }
    requires typed { IsTypedNode batch.now.kinds (take to (kinds_in registers.old))
        (node_of [] step.now) }
    requires step { IsStepPlaced texts.now step.now }
    requires block { 64 * block < length batch.now.rows }
    requires cells { HoldsPlaces texts.now batch.now.rows }
    requires placed { (j : ℕ) → j < 64 → IsOccupied batch.now.rows (64 * block + j) →
        ArePlaced texts.now (take to (map (datum_at j) registers.old)) }
    requires constant { (d : Datum) → step.now ≡ Step.Constant d → (j : ℕ) → j < 64 →
        datum_in registers.old to j ≡ d }
    ensures kinds { kinds_in registers.new ≡ kinds_in registers.old }
    ensures others { (i j : ℕ) → i ≢ to → datum_in registers.new i j ≡ datum_in registers.old i j }
    ensures constant { (j : ℕ) → is_constant step.now ≡ true →
        datum_in registers.new to j ≡ datum_in registers.old to j }
    ensures before { (j : ℕ) → take to (map (datum_at j) registers.new)
        ≡ take to (map (datum_at j) registers.old) }
    ensures value { (j : ℕ) → j < 64 → IsOccupied batch.now.rows (64 * block + j) →
        read_datum texts.now (datum_in registers.new to j)
        ≡ node_value (read_cells texts.now (cells_of batch.now.rows (64 * block + j)))
        (node_of texts.now step.now) (operand texts.now
        (take to (map (datum_at j) registers.old))) }
    ensures placed { (j : ℕ) → j < 64 → IsOccupied batch.now.rows (64 * block + j) →
        IsPlaced texts.now (datum_in registers.new to j) }
{
    let (before, rest) = registers.split_at_mut(to);
    run_step(&mut rest[0], step, before, batch, texts, block);
}

// Runs a step, where `before` has the results of the steps before it. The register of a constant holds it already.
fn run_step(
    into: &mut Register,
    step: &Step,
    before: &[Register],
    batch: &Batch,
    texts: &TextTable,
    block: usize,
)
    requires operands { IsExprNode (length before.now) (node_of [] step.now) }
    requires within { IsStepWithin batch.now.kinds step.now }
    requires kind { into.old.kind ≡ step_kind batch.now.kinds step.now }
    requires typed { IsTypedNode batch.now.kinds (kinds_in before.now) (node_of [] step.now) }
    requires step { IsStepPlaced texts.now step.now }
    requires block { 64 * block < length batch.now.rows }
    requires cells { HoldsPlaces texts.now batch.now.rows }
    requires placed { (j : ℕ) → j < 64 → IsOccupied batch.now.rows (64 * block + j) →
        ArePlaced texts.now (map (datum_at j) before.now) }
    requires constant { (d : Datum) → step.now ≡ Step.Constant d → (j : ℕ) → j < 64 →
        datum_at j into.old ≡ d }
    ensures kind { into.new.kind ≡ into.old.kind }
    ensures constant { is_constant step.now ≡ true → into.new ≡ into.old }
    ensures value { (j : ℕ) → j < 64 → IsOccupied batch.now.rows (64 * block + j) →
        read_datum texts.now (datum_of (step_kind batch.now.kinds step.now) into.new j)
        ≡ node_value (read_cells texts.now (cells_of batch.now.rows (64 * block + j)))
        (node_of texts.now step.now) (operand texts.now (map (datum_at j) before.now)) }
    ensures placed { (j : ℕ) → j < 64 → IsOccupied batch.now.rows (64 * block + j) →
        IsPlaced texts.now (datum_of (step_kind batch.now.kinds step.now) into.new j) }
{
    match step {
        Step::Column(column) => {
            let count = (batch.rows() - BLOCK * block).min(BLOCK);
            into.load(batch.column(*column), BLOCK * block, count);
        }
        Step::Constant(_) => {}
        Step::Neg(of) => negations(&mut into.numbers, &before[*of].numbers),
        Step::Not(of) => into.bits = !before[*of].bits,
        Step::Arith { op, left, right } => arith(
            &mut into.numbers,
            *op,
            &before[*left].numbers,
            &before[*right].numbers,
        ),
        Step::Div { of, by } => quotients(&mut into.numbers, &before[*of].numbers, by),
        Step::Mod { of, by } => rests(&mut into.numbers, &before[*of].numbers, by),
        Step::Compare { op, left, right } => {
            let occupied = batch.occupancy().word(block);
            into.bits = compare(*op, &before[*left], &before[*right], texts, occupied);
        }
        Step::And { left, right } => into.bits = before[*left].bits & before[*right].bits,
        Step::Or { left, right } => into.bits = before[*left].bits | before[*right].bits,
    }
}

// Writes the sums, differences or products, which wrap.
fn arith(into: &mut Numbers, op: ArithOp, left: &Numbers, right: &Numbers)
    ensures { (j : ℕ) → j < 64 → number into.new.lanes j
        ≡ arith_value op (number left.now.lanes j) (number right.now.lanes j) }
{
    match op {
        ArithOp::Add => sums(into, left, right),
        ArithOp::Sub => differences(into, left, right),
        ArithOp::Mul => products(into, left, right),
    }
}
