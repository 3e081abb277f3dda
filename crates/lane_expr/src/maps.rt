// The columns that kernels compute.
ghost use Rattle.std.specs.Prelude.{◌≡◌, ◌+◌, ◌<◌, ◌≤◌, ℕ, [], length, map, slice_index_or};
ghost use Rattle.plan_model.specs.Typed.{kind_of};
ghost use Rattle.lane_expr.specs.Steps.{expr_of, step_kind, AreSteps, AreStepsPlaced};
ghost use Rattle.lane_expr.specs.Registers.{kinds_in, AreFilled};
ghost use Rattle.lane_expr.specs.Kernels.{result_kind, CanRead, HoldsPlaces, AreResults};

use crate::BLOCK;
use crate::block::run;
use crate::kernel::Kernel;
use crate::lane::Lane;
use crate::registers::Register;
use crate::step::Step;
use batch::Batch;
use column_pool::{Bit, Column};
use tw_rows::{CellKind, Datum, TextTable};

/// Each call adds a cell for each row of the batch. What stands at a row that is not occupied is free. They need a
/// table of texts that begins with the one that `compile` left.
impl Kernel {
    /// The values of an expression of numbers.
    pub fn map_int(&mut self, batch: &Batch, texts: &TextTable, out: &mut Column<i64>)
        requires kind { result_kind self.old ≡ CellKind.Whole }
        requires reads { CanRead texts.now self.old batch.now }
        requires empty { out.old.items ≡ [] }
        requires room { length batch.now.rows ≤ out.old.capacity }
        ensures results { AreResults texts.now (expr_of texts.now self.old.steps) batch.now.rows
            (map Datum.Int out.new.items) }
        ensures room { out.new.capacity ≡ out.old.capacity }
        ensures same { self.new ≡ self.old }
    {
        fill(&mut self.registers, &self.steps, batch, texts, out);
    }

    /// The values of an expression of truth values.
    pub fn map_bool(&mut self, batch: &Batch, texts: &TextTable, out: &mut Column<Bit>)
        requires kind { result_kind self.old ≡ CellKind.Bit }
        requires reads { CanRead texts.now self.old batch.now }
        requires empty { out.old.items ≡ [] }
        requires room { length batch.now.rows ≤ out.old.capacity }
        ensures results { AreResults texts.now (expr_of texts.now self.old.steps) batch.now.rows
            (map Datum.Bool out.new.items) }
        ensures room { out.new.capacity ≡ out.old.capacity }
        ensures same { self.new ≡ self.old }
    {
        fill(&mut self.registers, &self.steps, batch, texts, out);
    }

    /// The places of the values of an expression of texts.
    pub fn map_text(&mut self, batch: &Batch, texts: &TextTable, out: &mut Column<u64>)
        requires kind { result_kind self.old ≡ CellKind.Place }
        requires reads { CanRead texts.now self.old batch.now }
        requires empty { out.old.items ≡ [] }
        requires room { length batch.now.rows ≤ out.old.capacity }
        ensures results { AreResults texts.now (expr_of texts.now self.old.steps) batch.now.rows
            (map Datum.Text out.new.items) }
        ensures room { out.new.capacity ≡ out.old.capacity }
        ensures same { self.new ≡ self.old }
    {
        fill(&mut self.registers, &self.steps, batch, texts, out);
    }
}

// Adds the result of each row.
fn fill<C: Lane>(
    registers: &mut [Register],
    steps: &[Step],
    batch: &Batch,
    texts: &TextTable,
    out: &mut Column<C>,
)
    requires steps { AreSteps batch.now.kinds steps.now }
    requires kind { kind_of (expr_of [] steps.now) batch.now.kinds ≡ C.kind }
    requires kinds { kinds_in registers.old ≡ map (step_kind batch.now.kinds) steps.now }
    requires filled { AreFilled steps.now registers.old }
    requires placed { AreStepsPlaced texts.now steps.now }
    requires cells { HoldsPlaces texts.now batch.now.rows }
    requires empty { out.old.items ≡ [] }
    requires room { length batch.now.rows ≤ out.old.capacity }
    ensures results { AreResults texts.now (expr_of texts.now steps.now) batch.now.rows
        (map C.datum out.new.items) }
    ensures room { out.new.capacity ≡ out.old.capacity }
    ensures kinds { kinds_in registers.new ≡ kinds_in registers.old }
    ensures filled { AreFilled steps.now registers.new }
{
    let rows = batch.rows();
    for block in 0..rows.div_ceil(BLOCK) {
        run(registers, steps, batch, texts, block);
        store(
            &registers[steps.len() - 1],
            (rows - BLOCK * block).min(BLOCK),
            out,
        );
    }
}

// Adds the first `count` results of the register.
fn store<C: Lane>(from: &Register, count: usize, out: &mut Column<C>)
    requires few { count ≤ 64 }
    requires room { length out.old.items + count ≤ out.old.capacity }
    ensures before { (i : ℕ) → i < length out.old.items →
        slice_index_or out.new.items i C.blank ≡ slice_index_or out.old.items i C.blank }
    ensures long { length out.new.items ≡ length out.old.items + count }
    ensures values { (j : ℕ) → j < count →
        slice_index_or out.new.items (length out.old.items + j) C.blank ≡ C.cell_at from.now j }
    ensures room { out.new.capacity ≡ out.old.capacity }
{
    for j in 0..count {
        out.push(C::cell(from, j));
    }
}
