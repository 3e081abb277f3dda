// The cells of the rows of a block, as registers hold them.
ghost use Rattle.std.specs.Prelude.{◌≡◌, ℕ, ◌<◌};

use crate::registers::Register;
use crate::words::is_marked;
use column_pool::{Bit, Cell};

// A cell that a register holds for each row of a block. `kind` tells how such cells are stored, `blank` is what stands for
// a cell that is missing, `datum` the datum that a cell is, and `cell_at` the cell of row j.
pub(crate) trait Lane: Cell {
    ghost use Rattle.tw_rows.specs.declared.cells.Datum.{Datum};
    ghost use Rattle.tw_rows.specs.declared.kind.CellKind.{CellKind};
    ghost use Rattle.lane_expr.specs.declared.registers.Register.{Register};
    ghost use Rattle.lane_expr.specs.Registers.{datum_of};

    ghost kind: { CellKind };

    ghost blank: { Self };

    ghost datum: { Self → Datum };

    ghost cell_at: { Register → ℕ → Self };

    // The cell of row j.
    fn cell(register: &Register, j: usize) -> Self
        requires { j < 64 }
        ensures { result ≡ cell_at register.now j };

    // The datum of the cell is what the register holds of that kind.
    ghost is_datum: { (r : Register) (j : ℕ) → datum (cell_at r j) ≡ datum_of kind r j };
}

impl Lane for i64 {
    ghost use Rattle.std.specs.Prelude.{pos, refl};
    ghost use Rattle.lane_expr.specs.Lanes.{number};
    ghost use Rattle.tw_rows.specs.declared.cells.Datum.TheVariants.{Int};
    ghost use Rattle.tw_rows.specs.declared.kind.CellKind.TheVariants.{Whole};

    ghost kind = { Whole };

    ghost blank = { pos 0 };

    ghost datum = { Int };

    ghost cell_at = { λ r j. number r.numbers.lanes j };

    ghost is_datum = { λ r j. refl };

    fn cell(register: &Register, j: usize) -> i64 {
        register.numbers.lanes[j]
    }
}

impl Lane for Bit {
    ghost use Rattle.std.specs.Prelude.{false, refl};
    ghost use Rattle.occupancy.specs.Bits.{test};
    ghost use Rattle.tw_rows.specs.declared.cells.Datum.TheVariants.{Bool as Flag};
    ghost use Rattle.tw_rows.specs.declared.kind.CellKind.TheVariants.{Bit as OneBit};

    ghost kind = { OneBit };

    ghost blank = { false };

    ghost datum = { Flag };

    ghost cell_at = { λ r j. test r.bits j };

    ghost is_datum = { λ r j. refl };

    fn cell(register: &Register, j: usize) -> Bit {
        Bit::new(is_marked(register.bits, j))
    }
}

// A text is held by its place.
impl Lane for u64 {
    ghost use Rattle.std.specs.Prelude.{refl};
    ghost use Rattle.lane_expr.specs.Lanes.{place};
    ghost use Rattle.tw_rows.specs.declared.cells.Datum.TheVariants.{Text};
    ghost use Rattle.tw_rows.specs.declared.kind.CellKind.TheVariants.{Place};

    ghost kind = { Place };

    ghost blank = { 0 };

    ghost datum = { Text };

    ghost cell_at = { λ r j. place r.places.lanes j };

    ghost is_datum = { λ r j. refl };

    fn cell(register: &Register, j: usize) -> u64 {
        register.places.lanes[j]
    }
}
