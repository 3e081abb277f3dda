// What all shards answered, put together.
ghost use Rattle.std.specs.Prelude.{◌≡◌, ℕ, ◌+◌, ◌<◌, [], ◌∷◌, ◌++◌, vec_len, vec_capacity, ◌≤◌};
ghost use Rattle.std.specs.Prelude.{min, Some, Ok, Err, length, map, flat_map};
ghost use Rattle.std.specs.Prelude.{slice_index_or};
ghost use Rattle.std.specs.Prelude.{All, IsOk, IfOk, IfErr, OnOk};
ghost use Rattle.tw_rows.specs.Bag.{SameBag};
ghost use Rattle.edge_history.specs.Order.{KeepsOrder};
ghost use Rattle.edge_stream.specs.Listing.{EdgeListView, cells_of};
ghost use Rattle.shard_apply.specs.Stepping.{edges_answered, first_list, worse_of, worst_of, IsLeastOverflow};
ghost use Rattle.shard_apply.specs.Shards.{operators_of, rooms_of};

use crate::shard::Shard;
use batch::Pools;
use edge_stream::{EdgeList, Operator, StepFault};
use std::alloc::Global;
use tw_rows::{Memory, Time};

// The earlier of two times.
fn earlier(a: Time, b: Time) -> Time
    ensures { result ≡ min a b }
{
    if a < b { a } else { b }
}

// Of two faults out of memory, and else the earlier overflow.
fn graver(a: StepFault, b: StepFault) -> StepFault
    ensures { Some result ≡ worse_of (Some a) (Some b) }
{
    match a {
        StepFault::Memory => a,
        StepFault::Overflow { time } => match b {
            StepFault::Memory => b,
            StepFault::Overflow { time: other } => StepFault::Overflow {
                time: earlier(time, other),
            },
        },
    }
}

// The fault of two that is told: out of memory, and else the earlier overflow.
fn worse(a: Option<StepFault>, b: Option<StepFault>) -> Option<StepFault>
    ensures { result ≡ worse_of a b }
{
    match a {
        None => b,
        Some(first) => match b {
            None => Some(first),
            Some(second) => Some(graver(first, second)),
        },
    }
}

// The fault of the shards' answers, if there is one.
fn worst_fault<O: Operator>(shards: &[Shard<O>]) -> Option<StepFault>
    ensures { result ≡ worst_of (map (λ s. s.answer) shards.now) }
{
    let mut worst = None;
    for shard in shards {
        worst = worse(worst, shard.fault());
    }
    worst
}

// Puts a list of edges that was answered last.
fn push_answer(lists: &mut Vec<EdgeList>, answer: Result<EdgeList, StepFault>)
    requires ok { IsOk answer }
    requires room { vec_len lists.old < vec_capacity lists.old }
    ensures lists { map Ok lists.new.items ≡ map Ok lists.old.items ++ answer ∷ [] }
    ensures len { vec_len lists.new ≡ vec_len lists.old + 1 }
    ensures capacity { vec_capacity lists.new ≡ vec_capacity lists.old }
{
    if let Ok(list) = answer {
        lists.push_reserved(list);
    }
}

// The lists of edges that the shards answered, each moved out of its shard, which is left with a fault.
fn take_answers<O: Operator>(
    alloc: Global,
    shards: &mut [Shard<O>],
) -> Result<Vec<EdgeList>, Memory>
    requires { All (λ s. IsOk s.answer) shards.old }
    ensures lists { IfOk result (λ lists. map Ok lists.items ≡ map (λ s. s.answer) shards.old) }
    ensures operators { operators_of shards.new ≡ operators_of shards.old }
    ensures capacities { rooms_of shards.new ≡ rooms_of shards.old }
{
    let mut lists = Vec::with_capacity(alloc, shards.len())?;
    for i in 0..shards.len() {
        let answer = shards[i].take_answer();
        push_answer(&mut lists, answer);
    }
    Ok(lists)
}

// Gives the columns of each list back to the pools of its shard.
fn give_back<O: Operator>(mut lists: Vec<EdgeList>, shards: &mut [Shard<O>])
    requires many { length lists.items ≡ length shards.old }
    requires capacities { (i : ℕ) (d : EdgeListView) (e : Shard O) → i < length lists.items →
        (slice_index_or lists.items i d).capacity ≡ (slice_index_or shards.old i e).pools.capacity }
    ensures operators { operators_of shards.new ≡ operators_of shards.old }
    ensures capacities { rooms_of shards.new ≡ rooms_of shards.old }
{
    while let Some(list) = lists.pop() {
        shards[lists.len()].give_back(list);
    }
}

// All that the shards answered, in order, in columns of these pools.
pub(crate) fn gathered<O: Operator>(
    alloc: Global,
    pools: &mut Pools,
    shards: &mut [Shard<O>],
) -> Result<EdgeList, StepFault>
    requires some { 1 ≤ length shards.old }
    requires room { 1 ≤ pools.old.capacity }
    requires alike { (i j : ℕ) (d : Shard O) → i < length shards.old → j < length shards.old →
        IfOk (slice_index_or shards.old i d).answer
        (λ a. IfOk (slice_index_or shards.old j d).answer (λ b. cells_of a ≡ cells_of b)) }
    requires capacities { All (λ s. IfOk s.answer (λ a. a.capacity ≡ s.pools.capacity)) shards.old }
    ensures ok { OnOk result (All (λ s. IsOk s.answer) shards.old) }
    ensures edges { IfOk result (λ list. SameBag list.edges
        (flat_map (λ s. edges_answered s.answer) shards.old)) }
    ensures order { IfOk result (λ list. KeepsOrder list.edges) }
    ensures kinds { IfOk result (λ list. All
        (λ s. IfOk s.answer (λ a. cells_of list ≡ cells_of a)) shards.old) }
    ensures capacity { IfOk result (λ list. list.capacity ≡ pools.old.capacity) }
    ensures overflow { IfErr result (λ fault. (time : ℕ) → fault ≡ StepFault.Overflow time →
        IsLeastOverflow time (map (λ s. s.answer) shards.old)) }
    ensures operators { operators_of shards.new ≡ operators_of shards.old }
    ensures capacities { rooms_of shards.new ≡ rooms_of shards.old }
    ensures pools { pools.new.capacity ≡ pools.old.capacity }
    ensures limit { pools.new.limit ≡ pools.old.limit }
{
    if let Some(fault) = worst_fault(shards) {
        return Err(fault);
    }
    let lists = take_answers(alloc, shards)?;
    let whole = merged(alloc, pools, &lists)?;
    give_back(lists, shards);
    Ok(whole)
}

// The edges of some lists that are alike, in order, in columns of these pools.
fn merged(alloc: Global, pools: &mut Pools, lists: &[EdgeList]) -> Result<EdgeList, Memory>
    requires some { 1 ≤ length lists.now }
    requires room { 1 ≤ pools.old.capacity }
    requires alike { All (λ l. cells_of l ≡ cells_of (first_list lists.now)) lists.now }
    ensures edges { IfOk result (λ list. SameBag list.edges (flat_map (λ l. l.edges) lists.now)) }
    ensures order { IfOk result (λ list. KeepsOrder list.edges) }
    ensures kinds { IfOk result (λ list. cells_of list ≡ cells_of (first_list lists.now)) }
    ensures capacity { IfOk result (λ list. list.capacity ≡ pools.old.capacity) }
    ensures pools { pools.new.capacity ≡ pools.old.capacity }
    ensures limit { pools.new.limit ≡ pools.old.limit }
{
    EdgeList::merged(alloc, pools, lists[0].kinds(), lists)
}
