// Filters: a row of a batch at which the test is not true is no more occupied.
ghost use Rattle.std.specs.Prelude.{◌≡◌, ◌≤◌, length, IfOk};
ghost use Rattle.lane_expr.specs.Steps.{expr_of};
ghost use Rattle.lane_expr.specs.Kernels.{CanRead, result_kind};
ghost use Rattle.where_select.specs.Filters.{filtered};

use batch::Batch;
use lane_expr::Kernel;
use occupancy::Occupancy;
use std::alloc::Global;
use std::marker::Model;
use tw_rows::{CellKind, Memory, TextTable};

/// Keeps the rows of batches at which a test is true. Contracts see the test and the greatest number of rows.
#[derive(Drop)]
pub struct Filter {
    test: Kernel,
    // Where the mask of a batch is put.
    mask: Occupancy,
}

impl Model for Filter {
    ghost use Rattle.std.specs.Prelude.{◌≡◌};
    ghost use Rattle.tw_rows.specs.declared.kind.CellKind.TheVariants.{Bit};
    ghost use Rattle.lane_expr.specs.Kernels.{result_kind};
    ghost use Rattle.where_select.specs.Filters.{FilterView};

    ghost Value = { FilterView };

    ghost view = { λ f. record { test = f.test; capacity = f.mask.capacity } };

    ghost invariant = { λ f. result_kind f.test ≡ Bit };
}

impl Filter {
    /// A filter for batches of at most `capacity` rows.
    pub fn new(alloc: Global, test: Kernel, capacity: usize) -> Result<Filter, Memory>
        requires { result_kind test ≡ CellKind.Bit }
        ensures { IfOk result (λ f. f ≡ record { test = test; capacity = capacity }) }
    {
        Ok(Filter {
            test,
            mask: Occupancy::new(alloc, capacity)?,
        })
    }

    /// Leaves occupied just the occupied rows at which the test is true. It needs a table of texts that begins with
    /// the one that the test was compiled with.
    pub fn apply(&mut self, batch: &mut Batch, texts: &TextTable)
        requires reads { CanRead texts.now self.old.test batch.old }
        requires room { length batch.old.rows ≤ self.old.capacity }
        ensures batch { batch.new ≡ record batch.old {
          rows = filtered texts.now (expr_of texts.now self.old.test.steps) batch.old.rows;
        } }
        ensures same { self.new ≡ self.old }
    {
        self.mask.reset();
        self.test.mask(batch, texts, &mut self.mask);
        batch.keep(&self.mask);
    }
}
