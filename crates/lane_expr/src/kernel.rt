// Kernels, and the masks that they compute.
ghost use Rattle.std.specs.Prelude.{◌≡◌, ◌+◌, ◌*◌, ◌<◌, ◌≤◌, ℕ, [], length, map};
ghost use Rattle.tw_rows.specs.Kinds.{cell_kind_of};
ghost use Rattle.occupancy.specs.Bits.{test};
ghost use Rattle.plan_model.specs.Typed.{kind_of};
ghost use Rattle.lane_expr.specs.Steps.{expr_of, step_kind, AreSteps, AreStepsPlaced};
ghost use Rattle.lane_expr.specs.Registers.{kinds_in, is_met_at, AreFilled};
ghost use Rattle.lane_expr.specs.Kernels.{result_kind, kind_for, CanRead, HoldsPlaces, mask_of};

use crate::BLOCK;
use crate::block::run;
use crate::registers::Register;
use crate::step::{Step, kind_of};
use batch::Batch;
use occupancy::Occupancy;
use std::marker::Model;
use tw_rows::{CellKind, Kind, TextTable};

/// An expression that is compiled for batches of some kinds of columns, with the texts of one table. Contracts see
/// it as its steps, these kinds and the greatest number of rows.
#[derive(Drop)]
pub struct Kernel {
    pub(crate) steps: Vec<Step>,
    pub(crate) kinds: Vec<CellKind>,
    pub(crate) capacity: usize,
    // The results of each step over a block of rows. Those of constants are there from the start.
    pub(crate) registers: Vec<Register>,
}

impl Model for Kernel {
    ghost use Rattle.std.specs.Prelude.{◌≡◌, map};
    ghost use Rattle.lane_expr.specs.Steps.{AreSteps, step_kind};
    ghost use Rattle.lane_expr.specs.Registers.{kinds_in, AreFilled};
    ghost use Rattle.lane_expr.specs.Kernels.{Program};

    ghost Value = { Program };

    ghost view = { λ k. record {
      steps = k.steps.items;
      kinds = k.kinds.items;
      capacity = k.capacity;
    } };

    ghost invariant = { λ k. AreSteps k.kinds.items k.steps.items
        × (kinds_in k.registers.items ≡ map (step_kind k.kinds.items) k.steps.items)
        × AreFilled k.steps.items k.registers.items };
}

impl Kernel {
    /// The kind of the results, which is `Int` for all that is stored as a whole number.
    pub fn kind(&self) -> Kind
        ensures kind { result ≡ kind_for (result_kind self.now) }
        ensures stored { cell_kind_of result ≡ result_kind self.now }
    {
        match kind_of(self.steps[self.steps.len() - 1], self.kinds.as_slice()) {
            CellKind::Whole => Kind::Int,
            CellKind::Bit => Kind::Bool,
            CellKind::Place => Kind::Text,
        }
    }

    /// Tells at which rows the test is true. It needs a table of texts that begins with the one that `compile` left.
    pub fn mask(&mut self, batch: &Batch, texts: &TextTable, out: &mut Occupancy)
        requires bit { result_kind self.old ≡ CellKind.Bit }
        requires reads { CanRead texts.now self.old batch.now }
        requires empty { out.old.items ≡ [] }
        requires room { length batch.now.rows ≤ out.old.capacity }
        ensures mask { out.new ≡ record out.old {
          items = mask_of texts.now (expr_of texts.now self.old.steps) batch.now.rows;
        } }
        ensures same { self.new ≡ self.old }
    {
        fill_mask(&mut self.registers, &self.steps, batch, texts, out);
    }
}

// Adds a bit for each row: whether it is occupied and the test is true there.
fn fill_mask(
    registers: &mut [Register],
    steps: &[Step],
    batch: &Batch,
    texts: &TextTable,
    out: &mut Occupancy,
)
    requires steps { AreSteps batch.now.kinds steps.now }
    requires bit { kind_of (expr_of [] steps.now) batch.now.kinds ≡ CellKind.Bit }
    requires kinds { kinds_in registers.old ≡ map (step_kind batch.now.kinds) steps.now }
    requires filled { AreFilled steps.now registers.old }
    requires placed { AreStepsPlaced texts.now steps.now }
    requires cells { HoldsPlaces texts.now batch.now.rows }
    requires empty { out.old.items ≡ [] }
    requires room { length batch.now.rows ≤ out.old.capacity }
    ensures mask { out.new ≡ record out.old {
      items = mask_of texts.now (expr_of texts.now steps.now) batch.now.rows;
    } }
    ensures kinds { kinds_in registers.new ≡ kinds_in registers.old }
    ensures filled { AreFilled steps.now registers.new }
{
    let rows = batch.rows();
    for block in 0..rows.div_ceil(BLOCK) {
        let word = test_block(registers, steps, batch, texts, block);
        out.push_word(word, (rows - BLOCK * block).min(BLOCK));
    }
}

// At which rows of the block the test is true, of those that are occupied.
fn test_block(
    registers: &mut [Register],
    steps: &[Step],
    batch: &Batch,
    texts: &TextTable,
    block: usize,
) -> u64
    requires steps { AreSteps batch.now.kinds steps.now }
    requires bit { kind_of (expr_of [] steps.now) batch.now.kinds ≡ CellKind.Bit }
    requires kinds { kinds_in registers.old ≡ map (step_kind batch.now.kinds) steps.now }
    requires filled { AreFilled steps.now registers.old }
    requires placed { AreStepsPlaced texts.now steps.now }
    requires block { 64 * block < length batch.now.rows }
    requires cells { HoldsPlaces texts.now batch.now.rows }
    ensures bits { (j : ℕ) → j < 64 → test result j
        ≡ is_met_at texts.now (expr_of texts.now steps.now) batch.now.rows (64 * block + j) }
    ensures kinds { kinds_in registers.new ≡ kinds_in registers.old }
    ensures filled { AreFilled steps.now registers.new }
{
    run(registers, steps, batch, texts, block);
    registers[steps.len() - 1].bits & batch.occupancy().word(block)
}
