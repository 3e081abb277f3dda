// The rows of one session that goes on.
ghost use Rattle.std.specs.Prelude.{◌≡◌, [], ◌∷◌, ◌++◌, IfOk, OnOk, OnErr};
ghost use Rattle.session_window.specs.Lasts.{IsLastStart};

use std::alloc::Global;
use std::marker::Model;
use tw_rows::{Cells, HeldRow, Memory, Time};

/// The rows of one key whose session goes on, and the last of their starts.
#[derive(Drop)]
pub(crate) struct OneSession {
    last: Time,
    rows: Vec<HeldRow>,
}

impl Model for OneSession {
    ghost use Rattle.std.specs.Prelude.{List};
    ghost use Rattle.tw_rows.specs.declared.edge.HeldRow.{HeldRow as Item};
    ghost use Rattle.session_window.specs.Lasts.{IsLastStart};

    ghost Value = { List Item };

    ghost view = { λ o. o.rows.items };

    ghost invariant = { λ o. IsLastStart o.last o.rows.items };
}

impl OneSession {
    /// One row.
    pub(crate) fn new(alloc: Global, cells: Cells, start: Time) -> Result<OneSession, Memory>
        ensures { IfOk result (λ session. session ≡ record { cells = cells; start = start } ∷ []) }
    {
        let mut rows = Vec::new(alloc);
        rows.push(HeldRow { cells, start })?;
        Ok(OneSession { last: start, rows })
    }

    /// Puts in a row, as the last.
    pub(crate) fn add(&mut self, cells: Cells, start: Time) -> Result<(), Memory>
        ensures ok { OnOk result (self.new ≡ self.old
            ++ record { cells = cells; start = start } ∷ []) }
        ensures err { OnErr result (self.new ≡ self.old) }
    {
        self.rows.push(HeldRow { cells, start })?;
        self.last = self.last.max(start);
        Ok(())
    }

    /// The last of the starts.
    pub(crate) fn last(&self) -> Time
        ensures { IsLastStart result self.now }
    {
        let _ = &self.rows;
        self.last
    }

    /// The rows, side by side.
    pub(crate) fn rows(&self) -> &[HeldRow]
        ensures { result.now ≡ self.now }
    {
        self.rows.as_slice()
    }

    /// The rows alone.
    pub(crate) fn into_rows(self) -> Vec<HeldRow>
        ensures { result.items ≡ self }
    {
        self.rows
    }
}
