// Whether a plan may be cut, and by which columns.
ghost use Rattle.std.specs.Prelude.{◌≡◌, ◌<◌, ◌≤◌, ℕ, min, OnOk, IfOk, IfErr, ◌∷◌, [], ◌++◌, List, length, map};
ghost use Rattle.query_plan.specs.Cuts.{stream_widths, first_uncut as first_of, may_be_cut as may_be};
ghost use Rattle.query_plan.specs.Choices.{choice_count as count_of};
ghost use Rattle.query_plan.specs.declared.choosing.CutsFault.TheVariants as faults;
ghost use Rattle.query_plan.specs.Choices.{choice as choice_of, cuts as cuts_of, most_choices};

use crate::cut_places::next_places;
use plan_model::{Key, Plan};
use std::alloc::Global;
use tw_rows::Memory;

/// As many choices of columns as are tried.
pub const MOST_CHOICES: usize = 65_536;

/// Why the cuts of a plan are not told.
#[derive(Clone, Copy, Debug, PartialEq, Eq)]
pub enum CutsFault {
    /// There are more choices of columns than are tried.
    TooMany,
    /// Out of memory.
    Memory,
}

impl From<Memory> for CutsFault {
    ghost from_gives = { λ _ fault. fault ≡ faults.Memory };

    fn from(_error: Memory) -> CutsFault {
        CutsFault::Memory
    }
}

/// The lowest node whose rows are cut by no column, where the rows of each stream are cut by its column of the list.
pub fn first_uncut(alloc: Global, plan: &Plan, columns: &[usize]) -> Result<Option<usize>, Memory>
    ensures { IfOk result (λ o. o ≡ first_of plan.now columns.now) }
{
    let mut done = Vec::new(alloc);
    for (i, node) in plan.nodes().iter().enumerate() {
        let places = next_places(alloc, plan, columns, node, &done)?;
        let cut = Key::from_vec(places);
        if cut.items().is_empty() {
            return Ok(Some(i));
        }
        done.push(cut)?;
    }
    Ok(None)
}

/// Whether the plan may be cut by these columns, one for each stream.
pub fn may_be_cut(alloc: Global, plan: &Plan, columns: &[usize]) -> Result<bool, Memory>
    ensures { IfOk result (λ b. b ≡ may_be plan.now columns.now) }
{
    if columns.len() != plan.streams().len() {
        return Ok(false);
    }
    let uncut = first_uncut(alloc, plan, columns)?;
    Ok(uncut.is_none())
}

/// How many columns each stream has.
pub(crate) fn widths_of(alloc: Global, plan: &Plan) -> Result<Vec<usize>, Memory>
    ensures { IfOk result (λ v. v.items ≡ stream_widths plan.now.streams) }
{
    let mut widths = Vec::new(alloc);
    for stream in plan.streams() {
        widths.push(stream.schema.items().len())?;
    }
    Ok(widths)
}

/// How many choices there are of a number below each of these, and the greatest number where there are more than that.
pub(crate) fn choice_count(widths: &[usize]) -> usize
    ensures { result ≡ min (count_of widths.now) usize.MAX }
{
    let mut count = 1_usize;
    for width in widths {
        count = count.saturating_mul(*width);
    }
    count
}

/// The choice of that number.
pub(crate) fn choice(alloc: Global, widths: &[usize], number: usize) -> Result<Vec<usize>, Memory>
    requires { 0 < count_of widths.now }
    ensures { IfOk result (λ v. v.items ≡ choice_of widths.now number) }
{
    let mut columns = Vec::new(alloc);
    let mut rest = number;
    for width in widths {
        columns.push(rest % *width)?;
        rest /= *width;
    }
    Ok(columns)
}

// Puts one more choice behind the others.
fn put(found: &mut Vec<Key>, columns: Vec<usize>) -> Result<(), Memory>
    ensures { OnOk result (found.new.items ≡ found.old.items ++ columns.items ∷ []) }
{
    found.push(Key::from_vec(columns))?;
    Ok(())
}

/// The choices of a column for each stream by which the plan may be cut, in order.
pub fn cuts(alloc: Global, plan: &Plan) -> Result<Vec<Key>, CutsFault>
    ensures told { IfOk result (λ v. (v.items ≡ cuts_of plan.now)
        × (count_of (stream_widths plan.now.streams) ≤ most_choices)) }
    ensures many { IfErr result (λ e. e ≡ faults.TooMany →
        most_choices < count_of (stream_widths plan.now.streams)) }
{
    let widths = widths_of(alloc, plan)?;
    let count = choice_count(&widths);
    if count > MOST_CHOICES {
        return Err(CutsFault::TooMany);
    }
    let mut found = Vec::new(alloc);
    for number in 0..count {
        let columns = choice(alloc, &widths, number)?;
        if may_be_cut(alloc, plan, &columns)? {
            put(&mut found, columns)?;
        }
    }
    Ok(found)
}
