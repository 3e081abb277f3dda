// All shards, at once or in turn.
ghost use Rattle.std.specs.Prelude.{◌≡◌, ◌≤◌, ◌<◌, false, is_err, length, All};
ghost use Rattle.shard_apply.specs.Shards.{CanTakeNews, TakesNews, EachTakesNews, KeepRooms};

use crate::gate::Gate;
use crate::shard::{Cut, News, Shard};
use edge_stream::Operator;
use std::thread;
use std::thread::Threads;

/// One step of all shards: each in a thread where one can be made, or with few edges one after another.
pub(crate) fn step_shards<R: Threads + Sync, G: Gate, O: Operator>(
    rt: &R,
    gate: &G,
    shards: &mut [Shard<O>],
    cut: &Cut<'_>,
    news: &News<'_>,
)
    requires can { All (CanTakeNews O.standing cut.now news.now) shards.old }
    ensures stepped { EachTakesNews O.standing O.keeps cut.now news.now shards.old shards.new }
    ensures pools { KeepRooms shards.old shards.new }
{
    let edges = news.left.len().saturating_add(news.right.len());
    if edges < gate.fewest_edges() {
        step_in_turn(gate, shards, cut, news);
    } else {
        step_beside(rt, gate, shards, cut, news);
    }
}

// One step of all shards, one after another.
fn step_in_turn<G: Gate, O: Operator>(
    gate: &G,
    shards: &mut [Shard<O>],
    cut: &Cut<'_>,
    news: &News<'_>,
)
    requires can { All (CanTakeNews O.standing cut.now news.now) shards.old }
    ensures stepped { EachTakesNews O.standing O.keeps cut.now news.now shards.old shards.new }
    ensures pools { KeepRooms shards.old shards.new }
{
    for i in 0..shards.len() {
        gate.enter(i);
        shards[i].step(i, cut, news);
    }
}

// One step of all shards, each in a thread where one can be made.
fn step_beside<R: Threads + Sync, G: Gate, O: Operator>(
    rt: &R,
    gate: &G,
    shards: &mut [Shard<O>],
    cut: &Cut<'_>,
    news: &News<'_>,
)
    requires can { All (CanTakeNews O.standing cut.now news.now) shards.old }
    ensures stepped { EachTakesNews O.standing O.keeps cut.now news.now shards.old shards.new }
    ensures pools { KeepRooms shards.old shards.new }
{
    thread::for_each_mut(
        rt,
        shards,
        16,
        &|i, shard: &mut Shard<O>|
            requires { CanTakeNews O.standing cut.now news.now shard.old }
            ensures stepped { TakesNews O.standing O.keeps cut.entry.now news.entry.now i
                shard.old.operator shard.new.operator shard.new.answer }
            ensures pools { shard.new.pools.capacity ≡ shard.old.pools.capacity }
        {
            gate.enter(i);
            shard.step(i, cut, news);
        },
    );
}
