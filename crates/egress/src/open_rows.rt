// The rows that are open, and the lines that end and start them.
ghost use Rattle.std.specs.Prelude.{◌≡◌, ◌++◌, [], map, take, drop, replicate, IfOk, OnOk};
ghost use Rattle.tw_rows.specs.Cells.{ArePlaced, read_cells};
ghost use Rattle.plan_model.specs.Changes.{Started, Ended};
ghost use Rattle.egress.specs.Print.{print, line_text};
ghost use Rattle.egress.specs.Showing.{EndsRow, StartsRow, AreNone};

use indexmap::IndexMap;
use row_reader::{push_end_line, push_start_line};
use std::alloc::Global;
use std::collections::VecDeque;
use synopsis::{Starts, open_row, put_back};
use tw_rows::{Cells, Kind, Memory, TextTable, Time};

/// The rows that are open, each with its open starts, the earliest first, and the lines of changes that are not yet
/// rendered.
#[derive(Drop)]
pub(crate) struct OpenRows {
    pub(crate) alloc: Global,
    pub(crate) kinds: Vec<Kind>,
    pub(crate) starts: Starts,
    pub(crate) lines: Vec<u8>,
}

fn push_start(
    lines: &mut Vec<u8>,
    kinds: &[Kind],
    at: Time,
    cells: &Cells,
    texts: &TextTable,
) -> Result<(), Memory>
    requires { ArePlaced texts.now cells.now }
    ensures { OnOk result (lines.new.items ≡ lines.old.items ++ line_text kinds.now
        (Started at (read_cells texts.now cells.now))) }
{
    push_start_line(lines, at, kinds, cells.items(), texts)
}

fn push_end(
    lines: &mut Vec<u8>,
    kinds: &[Kind],
    at: Time,
    start: Time,
    cells: &Cells,
    texts: &TextTable,
) -> Result<(), Memory>
    requires { ArePlaced texts.now cells.now }
    ensures { OnOk result (lines.new.items ≡ lines.old.items ++ line_text kinds.now
        (Ended at start (read_cells texts.now cells.now))) }
{
    push_end_line(lines, at, start, kinds, cells.items(), texts)
}

// Ends the first of the open starts of a row, so many of them or all: their end lines come last.
fn end_first(
    lines: &mut Vec<u8>,
    kinds: &[Kind],
    since: &mut VecDeque<Time>,
    at: Time,
    cells: &Cells,
    texts: &TextTable,
    count: usize,
) -> Result<(), Memory>
    requires { ArePlaced texts.now cells.now }
    ensures since { OnOk result (since.new.items ≡ drop count since.old.items) }
    ensures lines { OnOk result (lines.new.items ≡ lines.old.items
        ++ print kinds.now (map (λ s. Ended at s (read_cells texts.now cells.now))
        (take count since.old.items))) }
{
    for _ in 0..count {
        match since.pop_front() {
            Some(start) => push_end(lines, kinds, at, start, cells, texts)?,
            None => return Ok(()),
        }
    }
    Ok(())
}

// So many start lines of a row.
fn push_starts(
    lines: &mut Vec<u8>,
    kinds: &[Kind],
    at: Time,
    cells: &Cells,
    texts: &TextTable,
    count: usize,
) -> Result<(), Memory>
    requires { ArePlaced texts.now cells.now }
    ensures { OnOk result (lines.new.items ≡ lines.old.items ++ print kinds.now
        (replicate count (Started at (read_cells texts.now cells.now)))) }
{
    for _ in 0..count {
        push_start(lines, kinds, at, cells, texts)?;
    }
    Ok(())
}

impl OpenRows {
    // Rows of these kinds, of which none is open.
    pub(crate) fn new(alloc: Global, kinds: &[Kind]) -> Result<OpenRows, Memory>
        ensures kinds { IfOk result (λ rows. rows.kinds.items ≡ kinds.now) }
        ensures none { IfOk result (λ rows. AreNone rows.starts) }
        ensures lines { IfOk result (λ rows. rows.lines.items ≡ []) }
    {
        Ok(OpenRows {
            alloc,
            kinds: Vec::from_slice(alloc, kinds)?,
            starts: IndexMap::new(alloc),
            lines: Vec::new(alloc),
        })
    }

    // Ends a row so often at an instant, for its first open starts. It is taken out, and put back where starts are left,
    // since most rows have one. Only that row is looked at.
    pub(crate) fn end_row(
        &mut self,
        at: Time,
        cells: &Cells,
        texts: &TextTable,
        count: usize,
    ) -> Result<(), Memory>
        requires { ArePlaced texts.now cells.now }
        ensures row { OnOk result (EndsRow texts.now at count cells.now self.old self.new) }
        ensures kinds { self.new.kinds ≡ self.old.kinds }
    {
        if count == 0 {
            return Ok(());
        }
        let Some(mut since) = self.starts.swap_remove(cells) else {
            return Ok(());
        };
        let lines = &mut self.lines;
        end_first(lines, &self.kinds, &mut since, at, cells, texts, count)?;
        if since.is_empty() {
            return Ok(());
        }
        put_back(&mut self.starts, cells, since)?;
        Ok(())
    }

    // Starts a row so often at an instant.
    pub(crate) fn start_row(
        &mut self,
        at: Time,
        cells: &Cells,
        texts: &TextTable,
        count: usize,
    ) -> Result<(), Memory>
        requires { ArePlaced texts.now cells.now }
        ensures row { OnOk result (StartsRow texts.now at count cells.now self.old self.new) }
        ensures kinds { self.new.kinds ≡ self.old.kinds }
    {
        if count == 0 {
            return Ok(());
        }
        push_starts(&mut self.lines, &self.kinds, at, cells, texts, count)?;
        open_row(&mut self.starts, self.alloc, cells, at, count)
    }
}
