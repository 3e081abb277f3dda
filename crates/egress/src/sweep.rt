// The changelog lines of one instant, from the moves of its rows: the end lines of all of them, then their start lines.
ghost use Rattle.std.specs.Prelude.{◌≡◌, All, OnOk};
ghost use Rattle.std.specs.List.Sorted.{IsStrictlySortedBy};
ghost use Rattle.tw_rows.specs.Cells.{ArePlaced};
ghost use Rattle.tw_rows.specs.Rows.{row_cmp};
ghost use Rattle.egress.specs.Kept.{rows_of};
ghost use Rattle.egress.specs.Showing.{EndsRows, StartsRows, ShowsMoves};

use crate::moves::Moves;
use crate::open_rows::OpenRows;
use tw_rows::{Memory, TextTable, Time};

impl OpenRows {
    // Adds the end lines of the rows that end more often than they start.
    fn end_rows(&mut self, at: Time, touched: &[Moves], texts: &TextTable) -> Result<(), Memory>
        requires placed { All (λ m. ArePlaced texts.now m.cells) touched.now }
        requires ordered { IsStrictlySortedBy row_cmp (rows_of texts.now touched.now) }
        ensures rows { OnOk result (EndsRows texts.now touched.now at self.old self.new) }
        ensures kinds { self.new.kinds ≡ self.old.kinds }
    {
        // Its call tells the proof that the texts are distinct.
        let _ = texts.len();
        for moves in touched {
            let count = moves.ends.saturating_sub(moves.starts);
            self.end_row(at, &moves.cells, texts, count)?;
        }
        Ok(())
    }

    // Adds the start lines of the rows that start more often than they end.
    fn start_rows(&mut self, at: Time, touched: &[Moves], texts: &TextTable) -> Result<(), Memory>
        requires placed { All (λ m. ArePlaced texts.now m.cells) touched.now }
        requires ordered { IsStrictlySortedBy row_cmp (rows_of texts.now touched.now) }
        ensures rows { OnOk result (StartsRows texts.now touched.now at self.old self.new) }
        ensures kinds { self.new.kinds ≡ self.old.kinds }
    {
        // Its call tells the proof that the texts are distinct.
        let _ = texts.len();
        for moves in touched {
            let count = moves.starts.saturating_sub(moves.ends);
            self.start_row(at, &moves.cells, texts, count)?;
        }
        Ok(())
    }

    // Adds the lines of an instant, and keeps what is open after it. Only rows that end or start there are looked at. Out
    // of memory, neither the lines nor the open starts are to be used any more.
    pub(crate) fn show_instant(
        &mut self,
        at: Time,
        touched: &[Moves],
        texts: &TextTable,
    ) -> Result<(), Memory>
        requires placed { All (λ m. ArePlaced texts.now m.cells) touched.now }
        requires ordered { IsStrictlySortedBy row_cmp (rows_of texts.now touched.now) }
        ensures instant { OnOk result (ShowsMoves texts.now touched.now at self.old self.new) }
        ensures kinds { self.new.kinds ≡ self.old.kinds }
    {
        self.end_rows(at, touched, texts)?;
        self.start_rows(at, touched, texts)?;
        Ok(())
    }
}
