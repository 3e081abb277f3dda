// The text of the cuts of a plan.
ghost use Rattle.std.specs.Prelude.{◌≡◌, ◌≤◌, ◌++◌, OnOk, IfOk, [], cond, codes, decimal, flat_map, max, nat_lt, slice_index_or};
ghost use Rattle.query_plan.specs.Cuts.{stream_widths};
ghost use Rattle.query_plan.specs.Choices.{choice_count as count_of, most_choices};
ghost use Rattle.query_plan.specs.Told.{stream_cut, cut_line};
ghost use Rattle.query_plan.specs.Told.{furthest_below, no_way as no_way_text, cut_text as text_of};

use crate::choosing::{CutsFault, choice, choice_count, cuts, first_uncut, widths_of};
use itoa::Buffer;
use plan_model::{Key, Plan};
use std::alloc::Global;
use tw_rows::{Memory, StreamDef};

// The name of a stream, and the name of its column.
fn put_stream(out: &mut Vec<u8>, stream: &StreamDef, column: usize) -> Result<(), Memory>
    ensures { OnOk result (out.new.items ≡ out.old.items ++ stream_cut stream.now column) }
{
    out.extend_from_slice(stream.name.as_str().as_bytes())?;
    out.extend_from_slice(b" by ")?;
    if let Some(column) = stream.schema.items().get(column) {
        out.extend_from_slice(column.name.as_str().as_bytes())?;
    }
    Ok(())
}

// What stands between two streams, before all but the first.
fn put_comma(out: &mut Vec<u8>, number: usize) -> Result<(), Memory>
    ensures { OnOk result (out.new.items ≡ out.old.items
        ++ cond (nat_lt 0 number) (codes ", ") []) }
{
    if number > 0 {
        out.extend_from_slice(b", ")?;
    }
    Ok(())
}

// The column of the stream of that number.
fn column_of(columns: &[usize], number: usize) -> usize
    ensures { result ≡ slice_index_or columns.now number 0 }
{
    columns.get(number).copied().unwrap_or(0)
}

// The line of a choice.
fn put_cut(out: &mut Vec<u8>, plan: &Plan, columns: &[usize]) -> Result<(), Memory>
    ensures { OnOk result (out.new.items ≡ out.old.items ++ cut_line plan.now columns.now) }
{
    for (i, stream) in plan.streams().iter().enumerate() {
        put_comma(out, i)?;
        put_stream(out, stream, column_of(columns, i))?;
    }
    out.extend_from_slice(b"\n")?;
    Ok(())
}

// The greatest of the nodes at which choices end.
fn furthest(alloc: Global, plan: &Plan) -> Result<usize, Memory>
    requires { count_of (stream_widths plan.now.streams) ≤ most_choices }
    ensures { IfOk result (λ n.
        n ≡ furthest_below plan.now (count_of (stream_widths plan.now.streams))) }
{
    let widths = widths_of(alloc, plan)?;
    let mut most = 0;
    for number in 0..choice_count(&widths) {
        let columns = choice(alloc, &widths, number)?;
        if let Some(node) = first_uncut(alloc, plan, &columns)? {
            most = most.max(node);
        }
    }
    Ok(most)
}

// The line of a plan that no choice cuts.
fn no_way(alloc: Global, plan: &Plan) -> Result<Vec<u8>, Memory>
    requires { count_of (stream_widths plan.now.streams) ≤ most_choices }
    ensures { IfOk result (λ bytes. bytes.items ≡ no_way_text plan.now) }
{
    let node = furthest(alloc, plan)?;
    let mut buffer = Buffer::new();
    let mut out = Vec::new(alloc);
    out.extend_from_slice(b"no way: node ")?;
    out.extend_from_slice(buffer.format(node as u64).as_bytes())?;
    out.extend_from_slice(b" has no column by which its rows are cut\n")?;
    Ok(out)
}

// The lines of choices.
fn lines(alloc: Global, plan: &Plan, found: &[Key]) -> Result<Vec<u8>, Memory>
    ensures { IfOk result (λ bytes. bytes.items ≡ flat_map (cut_line plan.now) found.now) }
{
    let mut out = Vec::new(alloc);
    for columns in found {
        put_cut(&mut out, plan, columns.items())?;
    }
    Ok(out)
}

/// The cuts of a plan as text: a line for each choice of columns, or one that says why there are none.
pub fn cut_text(alloc: Global, plan: &Plan) -> Result<Vec<u8>, Memory>
    ensures { IfOk result (λ bytes. bytes.items ≡ text_of plan.now) }
{
    match cuts(alloc, plan) {
        Ok(found) => {
            if found.as_slice().is_empty() {
                no_way(alloc, plan)
            } else {
                lines(alloc, plan, &found)
            }
        }
        Err(CutsFault::TooMany) => Ok(b"too many choices\n".to_vec(alloc)?),
        Err(CutsFault::Memory) => Err(Memory),
    }
}
