// The instants of a Group at which rows that come as intervals start and end.
ghost use Rattle.std.specs.Prelude.{◌≡◌, ◌⊎◌, ◌+◌, ◌<◌, ◌≤◌, ◌*◌, ℕ, suc, true, false, List, [], ◌∷◌, map, All, OnOk, IfOk, IfErr, IfSome, IfNone};
ghost use Rattle.tw_rows.specs.Bag.{total};
ghost use Rattle.tw_rows.specs.Cells.{datum_kind};
ghost use Rattle.tw_rows.specs.Instant.{inf};
ghost use Rattle.tw_rows.specs.declared.edge.Edge.{Edge};
ghost use Rattle.edge_history.specs.Order.{failing, many, is_end, is_from, Rises, IsReal, KeepsOrder};
ghost use Rattle.edge_history.specs.Opens.{singles_of};
ghost use Rattle.sweep_laws.specs.Grouping.{keys_of};
ghost use Rattle.sweep_laws.specs.Sweeps.{is_at, IsPast, HeadFrom, StartsAt};
ghost use Rattle.sweep_sides.specs.Waiting.{queued, AreTimed};
ghost use Rattle.snapshot_agg.specs.Changing.{Gains, row_since};
ghost use Rattle.snapshot_agg.specs.Counting.{IsCounted, key_by};
ghost use Rattle.snapshot_agg.specs.Living.{AreEnded, AreBegun, TouchesAll, AreLate, AreLived, AreRefused, to_come, bare_start};
ghost use Rattle.snapshot_agg.specs.Totaled.{run_of};
ghost use Rattle.snapshot_agg.specs.Touching.{Touches};

use crate::groups::Groups;
use crate::passes::Running;
use crate::queue::Queue;
use crate::sweep::tell_touched;
use edge_stream::{Cursor, StepFault};
use tw_rows::{Edge, Memory, Time};

// Takes in a row that starts. One that comes as an interval is kept with its end.
fn start_row(groups: &mut Groups, waiting: &mut Queue, edge: Edge) -> Result<(), Memory>
    requires counted { IsCounted groups.old }
    requires start { is_end edge ≡ false }
    requires real { IsReal edge }
    ensures counted { OnOk result (IsCounted groups.new) }
    ensures rows { OnOk result (Gains groups.old.rows.rows.held groups.new.rows.rows.held
        (row_since edge.cells edge.sync)) }
    ensures pending { OnOk result ((w : Edge → ℕ) →
        total w groups.new.rows.rows.ends + total w (queued waiting.new) + w (bare_start edge)
        ≡ total w groups.old.rows.rows.ends + total w (queued waiting.old)
        + total w (singles_of edge)) }
    ensures own { OnOk result (AreTimed waiting.old → AreTimed waiting.new) }
    ensures late { OnOk result (failing (is_from (suc edge.sync)) (queued waiting.old) ≡ 0 →
        failing (is_from (suc edge.sync)) (queued waiting.new) ≡ 0) }
    ensures touched { OnOk result (Touches groups.old.touched.items groups.new.touched.items
        (key_by groups.old edge.cells)) }
    ensures key { groups.new.key ≡ groups.old.key }
    ensures aggs { groups.new.aggs ≡ groups.old.aggs }
{
    if edge.other == Time::bounds().1 {
        return groups.add(edge.cells, edge.sync);
    }
    let end = Edge {
        sync: edge.other,
        other: edge.sync,
        cells: edge.cells,
    };
    groups.keep(waiting, end)
}

// Takes the next edge, if it comes at the time.
fn next_at(cursor: &mut Cursor, t: Time) -> Result<Option<Edge>, Memory>
    ensures some { IfOk result (λ item. IfSome item (λ e.
        (cursor.old.edges ≡ e ∷ cursor.new.edges) × (e.sync ≡ t)
        × (map datum_kind e.cells ≡ cursor.old.kinds))) }
    ensures none { IfOk result (λ item. IfNone item
        ((cursor.new.edges ≡ cursor.old.edges) × IsPast t cursor.old.edges)) }
    ensures kinds { cursor.new.kinds ≡ cursor.old.kinds }
{
    match cursor.times() {
        Some(times) => {
            if times.0 != t {
                return Ok(None);
            }
        }
        None => return Ok(None),
    }
    cursor.next()
}

// Takes in the rows that start at the time. No end comes then, and nothing comes before.
fn start_rows(
    groups: &mut Groups,
    waiting: &mut Queue,
    cursor: &mut Cursor,
    t: Time,
) -> Result<(), Memory>
    requires counted { IsCounted groups.old }
    requires order { Rises (suc (2 * t)) cursor.old.edges }
    requires real { All IsReal cursor.old.edges }
    ensures counted { OnOk result (IsCounted groups.new) }
    ensures begun { OnOk result ((begun : List Edge)
        × AreBegun begun t groups.old.rows.rows.held groups.new.rows.rows.held
        (to_come groups.old.rows.rows.ends waiting.old cursor.old.edges)
        (to_come groups.new.rows.rows.ends waiting.new cursor.new.edges)
        × TouchesAll groups.old.touched.items groups.new.touched.items
        (keys_of (key_by groups.old) begun)) }
    ensures own { OnOk result (AreTimed waiting.old → AreTimed waiting.new) }
    ensures late { OnOk result (failing (is_from (suc t)) (queued waiting.old) ≡ 0 →
        failing (is_from (suc t)) (queued waiting.new) ≡ 0) }
    ensures past { OnOk result (IsPast t cursor.new.edges) }
    ensures order { OnOk result (Rises (suc (2 * t)) cursor.new.edges) }
    ensures real { OnOk result (All IsReal cursor.new.edges) }
    ensures cells { OnOk result (
        All (λ e. map datum_kind e.cells ≡ cursor.old.kinds) cursor.new.edges →
        All (λ e. map datum_kind e.cells ≡ cursor.old.kinds) cursor.old.edges) }
    ensures kinds { cursor.new.kinds ≡ cursor.old.kinds }
    ensures key { groups.new.key ≡ groups.old.key }
    ensures aggs { groups.new.aggs ≡ groups.old.aggs }
{
    while let Some(edge) = next_at(cursor, t)? {
        start_row(groups, waiting, edge)?;
    }
    Ok(())
}

// Takes out the rows that are kept with their ends and end at the time.
fn end_rows(groups: &mut Groups, t: Time) -> Result<(), Memory>
    requires counted { IsCounted groups.old }
    ensures counted { OnOk result (IsCounted groups.new) }
    ensures gone { OnOk result ((gone : List Edge)
        × AreEnded gone t groups.old.rows.rows groups.new.rows.rows
        × TouchesAll groups.old.touched.items groups.new.touched.items
        (keys_of (key_by groups.old) gone)) }
    ensures late { OnOk result (failing (is_from t) groups.old.rows.rows.ends ≡ 0 →
        failing (is_from (suc t)) groups.new.rows.rows.ends ≡ 0) }
    ensures key { groups.new.key ≡ groups.old.key }
    ensures aggs { groups.new.aggs ≡ groups.old.aggs }
{
    while groups.end_first(t)? {}
    Ok(())
}

// One instant of rows that are kept with their ends. No end comes that is not kept so, and nothing is pending in the queue.
pub(crate) fn live_instant(
    groups: &mut Groups,
    running: &mut Running,
    waiting: &mut Queue,
    answer: &mut Vec<Edge>,
    cursor: &mut Cursor,
    t: Time,
) -> Result<(), StepFault>
    requires counted { IsCounted groups.old }
    requires order { Rises (suc (2 * t)) cursor.old.edges }
    requires real { All IsReal cursor.old.edges }
    requires ends { AreLate t groups.old.rows.rows.ends }
    requires waits { AreLate (suc t) (queued waiting.old) }
    requires some { 1 ≤ many (is_at t)
        (to_come groups.old.rows.rows.ends waiting.old cursor.old.edges) }
    ensures counted { OnOk result (IsCounted groups.new) }
    ensures lived { OnOk result ((from : ℕ) → from ≤ t → (due : List Edge)
        × AreLived groups.old.key.items groups.old.aggs.items
        groups.old.rows.rows.held groups.new.rows.rows.held
        (run_of running.old) (run_of running.new)
        (to_come groups.old.rows.rows.ends waiting.old cursor.old.edges)
        (to_come groups.new.rows.rows.ends waiting.new cursor.new.edges)
        from (suc t) answer.old.items answer.new.items due) }
    ensures refused { IfErr result (λ fault. (v : ℕ) → fault ≡ StepFault.Overflow v → (v ≡ t)
        × ((from : ℕ) → from ≤ t → (due : List Edge) × (come : List Edge)
        × AreRefused groups.old.key.items groups.old.aggs.items groups.old.rows.rows.held
        (run_of running.old)
        (to_come groups.old.rows.rows.ends waiting.old cursor.old.edges) come from (suc t) t due)) }
    ensures late { OnOk result (
        AreLate (suc t) (to_come groups.new.rows.rows.ends waiting.new cursor.new.edges)) }
    ensures order { OnOk result (Rises (2 * suc t) cursor.new.edges) }
    ensures real { OnOk result (All IsReal cursor.new.edges) }
    ensures own { OnOk result (AreTimed waiting.old → AreTimed waiting.new) }
    ensures cells { OnOk result (
        All (λ e. map datum_kind e.cells ≡ cursor.old.kinds) cursor.new.edges →
        All (λ e. map datum_kind e.cells ≡ cursor.old.kinds) cursor.old.edges) }
    ensures kinds { cursor.new.kinds ≡ cursor.old.kinds }
    ensures key { groups.new.key ≡ groups.old.key }
    ensures aggs { groups.new.aggs ≡ groups.old.aggs }
{
    groups.begin()?;
    start_rows(groups, waiting, cursor, t)?;
    end_rows(groups, t)?;
    tell_touched(groups, running, answer, t)
}

// When the next row starts, or the next one ends that is kept with its end: infinity if there is neither.
fn next_instant(groups: &Groups, cursor: &Cursor) -> Time
    ensures ends { AreLate result groups.now.rows.rows.ends }
    ensures edges { HeadFrom result cursor.now.edges }
    ensures found { (result ≡ inf → ⊥) →
        StartsAt result groups.now.rows.rows.ends ⊎ StartsAt result cursor.now.edges }
{
    let end = groups.rows.next_end();
    match cursor.times() {
        Some(times) => {
            if times.0 < end {
                return times.0;
            }
            end
        }
        None => end,
    }
}

// Whether the next edge comes later than the time, or is a start.
fn only_starts(cursor: &Cursor, t: Time) -> bool
    ensures { result ≡ true → HeadFrom t cursor.now.edges → Rises 0 cursor.now.edges →
        Rises (suc (2 * t)) cursor.now.edges }
{
    match cursor.times() {
        Some(times) => t < times.0 || times.0 < times.1,
        None => true,
    }
}

// Goes from instant to instant, as long as only rows come that are kept with their ends, and nothing is pending in the queue.
// Answers up to which time it came, and whether nothing is left before the other time.
pub(crate) fn live_on(
    groups: &mut Groups,
    running: &mut Running,
    waiting: &mut Queue,
    answer: &mut Vec<Edge>,
    cursor: &mut Cursor,
    from: Time,
    to: Time,
) -> Result<(Time, bool), StepFault>
    requires rises { from ≤ to }
    requires counted { IsCounted groups.old }
    requires order { KeepsOrder cursor.old.edges }
    ensures counted { OnOk result (IsCounted groups.new) }
    ensures lived { IfOk result (λ r. (r.0 ≤ to) × ((due : List Edge)
        × AreLived groups.old.key.items groups.old.aggs.items
        groups.old.rows.rows.held groups.new.rows.rows.held
        (run_of running.old) (run_of running.new)
        (to_come groups.old.rows.rows.ends waiting.old cursor.old.edges)
        (to_come groups.new.rows.rows.ends waiting.new cursor.new.edges)
        from r.0 answer.old.items answer.new.items due)) }
    ensures late { IfOk result (λ r.
        AreLate from (to_come groups.old.rows.rows.ends waiting.old cursor.old.edges) →
        AreLate r.0 (to_come groups.new.rows.rows.ends waiting.new cursor.new.edges)) }
    ensures whole { IfOk result (λ r. r.1 ≡ true → (cursor.new.edges ≡ [])
        × AreLate to (to_come groups.new.rows.rows.ends waiting.new cursor.new.edges)) }
    ensures refused { IfErr result (λ fault. (v : ℕ) → fault ≡ StepFault.Overflow v → (v < to)
        × ((due : List Edge) × (come : List Edge)
        × AreRefused groups.old.key.items groups.old.aggs.items groups.old.rows.rows.held
        (run_of running.old)
        (to_come groups.old.rows.rows.ends waiting.old cursor.old.edges) come from (suc v) v due)) }
    ensures own { OnOk result (AreTimed waiting.old → AreTimed waiting.new) }
    ensures cells { OnOk result (
        All (λ e. map datum_kind e.cells ≡ cursor.old.kinds) cursor.new.edges →
        All (λ e. map datum_kind e.cells ≡ cursor.old.kinds) cursor.old.edges) }
    ensures kinds { cursor.new.kinds ≡ cursor.old.kinds }
    ensures key { groups.new.key ≡ groups.old.key }
    ensures aggs { groups.new.aggs ≡ groups.old.aggs }
{
    let mut done = from;
    while waiting.len() == 0 {
        let t = next_instant(groups, cursor);
        if to <= t {
            return Ok((done, cursor.times().is_none()));
        }
        if t < done || !only_starts(cursor, t) {
            return Ok((done, false));
        }
        live_instant(groups, running, waiting, answer, cursor, t)?;
        done = t.plus(1);
    }
    Ok((done, false))
}
