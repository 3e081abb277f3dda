// What a Group kept, taken up from saved entries.
ghost use Rattle.std.specs.Prelude.{◌≡◌, ◌↔◌, IsTrue, List, [], length, map, take, Err, IfOk, IfErr, OnOk};
ghost use Rattle.tw_rows.specs.Bag.{SameBag};
ghost use Rattle.tw_rows.specs.Kinds.{cell_kind_of};
ghost use Rattle.tw_rows.specs.declared.cells.Datum.{Datum};
ghost use Rattle.edge_stream.specs.Entries.{part_of};
ghost use Rattle.sweep_laws.specs.Saving.{rows_of};
ghost use Rattle.sweep_sides.specs.Sides.{IsSide};
ghost use Rattle.sweep_sides.specs.Waiting.{queued};
ghost use Rattle.snapshot_agg.specs.Saving.{run_among, GroupSound};
ghost use Rattle.snapshot_agg.specs.Totaled.{run_of};
ghost use Rattle.snapshot_agg.specs.Counting.{IsCounted};

use crate::groups::Groups;
use crate::passes::{Running, put_run};
use crate::queue::Queue;
use edge_stream::{LoadFault, Saved, are_of_parts, edges_of_part};
use indexmap::IndexMap;
use plan_model::Agg;
use std::alloc::Global;
use std::hash::BuildHasherDefault;
use sweep_sides::{are_rows, can_wait, load_waiting};
use tw_rows::{Cells, Datum, Edge, Kind, Memory, Time};

// What was loaded.
#[derive(Drop)]
pub(crate) struct Loaded {
    pub(crate) groups: Groups,
    pub(crate) waiting: Queue,
    pub(crate) running: Running,
}

// Whether the entries can be what a Group keeps whose child is closed up to the time. It takes no memory.
fn is_state(saved: &Saved, left_kinds: &[Kind], kinds: &[Kind], to: Time) -> bool
    ensures { IsTrue result ↔ GroupSound (map cell_kind_of left_kinds.now)
        (map cell_kind_of kinds.now) to saved.now }
{
    are_of_parts(saved, 3)
        && are_rows(saved, 0, left_kinds, to)
        && can_wait(saved, 1, left_kinds, to)
        && are_rows(saved, 2, kinds, to)
}

// Groups of the rows that start.
fn groups_of(alloc: Global, key: &[usize], aggs: &[Agg], starts: &[Edge]) -> Result<Groups, Memory>
    ensures key { IfOk result (λ g. g.key.items ≡ key.now) }
    ensures aggs { IfOk result (λ g. g.aggs.items ≡ aggs.now) }
    ensures counted { IfOk result IsCounted }
    ensures rows { IfOk result (λ g. SameBag g.rows.rows.held (rows_of starts.now)) }
    ensures ends { IfOk result (λ g. g.rows.rows.ends ≡ []) }
{
    let mut groups = Groups::new(alloc, key, aggs)?;
    for start in starts {
        groups.add(start.cells.clone()?, start.sync)?;
    }
    Ok(groups)
}

// The first data of a row.
fn first_data(cells: &[Datum], n: usize) -> &[Datum]
    ensures { result.now ≡ take n cells.now }
{
    if n < cells.len() { &cells[..n] } else { cells }
}

// The runs of the rows that start, whose first data are their keys. Of one key the last counts.
fn runs_of(alloc: Global, width: usize, starts: &[Edge]) -> Result<Running, Memory>
    ensures { IfOk result (λ running. (k : List Datum) →
        run_of running k ≡ run_among width starts.now k) }
{
    let mut running = IndexMap::with_hasher(alloc, BuildHasherDefault::new());
    for start in starts {
        let key = Cells::from_slice(alloc, first_data(start.cells.items(), width))?;
        put_run(&mut running, &key, start.cells.clone()?, start.sync)?;
    }
    Ok(running)
}

// What the entries hold, of a side that is closed up to the time. What is no state is refused before any memory is taken.
pub(crate) fn load_parts(
    alloc: Global,
    saved: &Saved,
    key: &[usize],
    aggs: &[Agg],
    left_kinds: &[Kind],
    kinds: &[Kind],
    to: Time,
) -> Result<Loaded, LoadFault>
    ensures key { IfOk result (λ l. l.groups.key.items ≡ key.now) }
    ensures aggs { IfOk result (λ l. l.groups.aggs.items ≡ aggs.now) }
    ensures counted { IfOk result (λ l. IsCounted l.groups) }
    ensures rows { IfOk result (λ l. SameBag l.groups.rows.rows.held
        (rows_of (part_of 0 saved.now))) }
    ensures ends { IfOk result (λ l. l.groups.rows.rows.ends ≡ []) }
    ensures waiting { IfOk result (λ l. SameBag (queued l.waiting) (part_of 1 saved.now)) }
    ensures side { IfOk result (λ l.
        IsSide (map cell_kind_of left_kinds.now) to l.groups.rows.rows.held l.waiting) }
    ensures runs { IfOk result (λ l. (k : List Datum) →
        run_of l.running k ≡ run_among (length key.now) (part_of 2 saved.now) k) }
    ensures sound { OnOk result (GroupSound (map cell_kind_of left_kinds.now)
        (map cell_kind_of kinds.now) to saved.now) }
    ensures refused { (GroupSound (map cell_kind_of left_kinds.now)
        (map cell_kind_of kinds.now) to saved.now → ⊥) → result ≡ Err LoadFault.NotState }
    ensures taken { GroupSound (map cell_kind_of left_kinds.now)
        (map cell_kind_of kinds.now) to saved.now →
        IfErr result (λ fault. fault ≡ LoadFault.Memory) }
{
    if !is_state(saved, left_kinds, kinds, to) {
        return Err(LoadFault::NotState);
    }
    let rows = edges_of_part(alloc, saved, 0)?;
    let waiting = load_waiting(alloc, saved, 1)?;
    let emitted = edges_of_part(alloc, saved, 2)?;
    let groups = groups_of(alloc, key, aggs, &rows)?;
    let running = runs_of(alloc, key.len(), &emitted)?;
    Ok(Loaded {
        groups,
        waiting: Queue::of(alloc, waiting),
        running,
    })
}
