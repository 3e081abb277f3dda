// The steps of a kernel.
ghost use Rattle.std.specs.Prelude.{◌≡◌, ◌<◌, length};
ghost use Rattle.lane_expr.specs.Steps.{step_kind, IsStepWithin};

use crate::divisor::Divisor;
use plan_model::{ArithOp, CompareOp};
use tw_rows::{CellKind, Datum};

/// A step of a kernel: a node of its expression, in which a text is its place in the table of texts and a divisor
/// has its reciprocal. A step names its operands by their numbers in the list of steps.
#[derive(Clone, Copy)]
pub enum Step {
    Column(usize),
    Constant(Datum),
    Neg(usize),
    Not(usize),
    Arith {
        op: ArithOp,
        left: usize,
        right: usize,
    },
    Div {
        of: usize,
        by: Divisor,
    },
    Mod {
        of: usize,
        by: Divisor,
    },
    Compare {
        op: CompareOp,
        left: usize,
        right: usize,
    },
    And {
        left: usize,
        right: usize,
    },
    Or {
        left: usize,
        right: usize,
    },
}

/// How the results of the step are stored, over columns that are stored so.
pub(crate) fn kind_of(step: Step, columns: &[CellKind]) -> CellKind
    requires { IsStepWithin columns.now step }
    ensures { result ≡ step_kind columns.now step }
{
    match step {
        Step::Column(column) => columns[column],
        Step::Constant(datum) => datum.cell_kind(),
        Step::Neg(_) | Step::Arith { .. } | Step::Div { .. } | Step::Mod { .. } => CellKind::Whole,
        Step::Not(_) | Step::Compare { .. } | Step::And { .. } | Step::Or { .. } => CellKind::Bit,
    }
}
