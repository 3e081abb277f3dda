// Where the first slice of edges ends that stand in lists.
ghost use Rattle.std.specs.Prelude.{◌≡◌, ◌+◌, ◌<◌, ◌≤◌, nat_lt, cond, IsTrue, false, IfSome, IsNone, IfOk};
ghost use Rattle.edge_history.specs.Order.{failing, is_below};
ghost use Rattle.ingress.specs.Slices.{edges_of, count_below, IsLastWithin, slice_end as end_of_slice};

use crate::held_streams::is_before;
use crate::slicing::{between, next_time};
use edge_stream::EdgeList;
use tw_rows::{Memory, Time};

// What is left of `room` once an edge with that sync has taken a place, where it comes from `from` on and before `to`.
fn room_behind(sync: Time, from: Time, to: Time, room: usize) -> Option<usize>
    requires { from ≤ to }
    ensures some { IfSome result (λ rest. cond (nat_lt sync to) 1 0 + rest ≡ cond (nat_lt sync from) 1 0 + room) }
    ensures none { IsNone result → cond (nat_lt sync from) 1 0 + room < cond (nat_lt sync to) 1 0 }
{
    if is_before(sync, from) || !is_before(sync, to) {
        Some(room)
    } else {
        room.checked_sub(1)
    }
}

// The same once the edges of a list have taken a place each. None where they are more.
fn room_left(list: &EdgeList, from: Time, to: Time, room: usize) -> Result<Option<usize>, Memory>
    requires { from ≤ to }
    ensures some { IfOk result (λ left. IfSome left (λ rest.
        count_below to list.now.edges + rest ≡ count_below from list.now.edges + room)) }
    ensures none { IfOk result (λ left. IsNone left →
        count_below from list.now.edges + room < count_below to list.now.edges) }
{
    let mut rest = room;
    let mut cursor = list.cursor();
    'edges: while let Some(edge) = cursor.next()? {
        match room_behind(edge.sync, from, to, rest) {
            Some(less) => rest = less,
            None => return Ok(None),
        }
    }
    Ok(Some(rest))
}

// Whether at most `batch` edges of all lists come from `from` on and before `to`.
fn are_within(lists: &[EdgeList], from: Time, to: Time, batch: usize) -> Result<bool, Memory>
    requires { from ≤ to }
    ensures yes { IfOk result (λ within. IsTrue within →
        count_below to (edges_of lists.now) ≤ count_below from (edges_of lists.now) + batch) }
    ensures no { IfOk result (λ within. within ≡ false →
        count_below from (edges_of lists.now) + batch < count_below to (edges_of lists.now)) }
{
    let mut rest = batch;
    for list in lists {
        match room_left(list, from, to, rest)? {
            Some(less) => rest = less,
            None => return Ok(false),
        }
    }
    Ok(true)
}

// The greatest time up to `p` before which at most `batch` edges come, counted from `from` on, found by halves.
fn last_within(lists: &[EdgeList], from: Time, p: Time, batch: usize) -> Result<Time, Memory>
    requires { from ≤ p }
    ensures { IfOk result (IsLastWithin batch from p (edges_of lists.now)) }
{
    if are_within(lists, from, p, batch)? {
        return Ok(p);
    }
    let mut low = from;
    let mut high = p;
    'halves: while high.word() - low.word() > 1 {
        let middle = between(low, high, u64::MAX);
        if are_within(lists, from, middle, batch)? {
            low = middle;
        } else {
            high = middle;
        }
    }
    Ok(low)
}

/// Where the first slice of the edges of these lists ends, which all come before `p`. An engine finds this time in the pending
/// edges (`Ingress::slice_end`), before the lists are made. Memory is taken only for edges of more than 4 cells.
pub fn slice_end(lists: &[EdgeList], p: Time, batch: usize) -> Result<Time, Memory>
    requires { failing (is_below p) (edges_of lists.now) ≡ 0 }
    ensures { IfOk result (λ end. end ≡ end_of_slice batch p (edges_of lists.now)) }
{
    let last = last_within(lists, Time::ZERO, p, batch)?;
    // more edges come at one time than a slice is to have: they are a slice of their own
    if is_before(last, p) && are_within(lists, Time::ZERO, last, 0)? {
        return last_within(lists, next_time(last, p), p, 0);
    }
    Ok(last)
}
