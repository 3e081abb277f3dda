// One shard: an operator, and what it works on.
ghost use Rattle.std.specs.Prelude.{◌≡◌, ◌≤◌, ◌<◌, false, is_err, length, All, IfOk};
ghost use Rattle.edge_stream.specs.Listing.{cells_of};
ghost use Rattle.edge_stream.specs.Shards.{edges_in_shard};
ghost use Rattle.shard_apply.specs.Stepping.{fault_of};

use batch::Pools;
use edge_stream::{EdgeList, Operator, StepFault};
use tw_rows::{Memory, Time};

/// An operator with pools of its own, and what it answered at its last step.
#[derive(Drop)]
pub struct Shard<O: Operator> {
    pub(crate) operator: O,
    pub(crate) pools: Pools,
    pub(crate) answer: Result<EdgeList, StepFault>,
}

/// New edges of both sides of a node, and the times up to which the sides are closed with them.
#[derive(Clone, Copy)]
pub(crate) struct News<'a> {
    pub(crate) left: &'a EdgeList,
    pub(crate) right: &'a EdgeList,
    pub(crate) left_to: Time,
    pub(crate) right_to: Time,
}

/// By which columns edges are cut into shards, and into how many.
#[derive(Clone, Copy)]
pub(crate) struct Cut<'a> {
    pub(crate) left_key: &'a [usize],
    pub(crate) right_key: &'a [usize],
    pub(crate) count: usize,
}

// The edges of a list that belong to the shard of that number.
fn part_of(
    list: &EdgeList,
    pools: &mut Pools,
    number: usize,
    count: usize,
    key: &[usize],
) -> Result<EdgeList, Memory>
    requires pools { pools.old.capacity ≡ list.now.capacity }
    requires count { 1 ≤ count }
    requires key { All (λ column. column < length list.now.kinds) key.now }
    ensures edges { IfOk result (λ part. part.edges
        ≡ edges_in_shard count key.now number list.now.edges) }
    ensures kinds { IfOk result (λ part. part.kinds ≡ list.now.kinds) }
    ensures capacity { IfOk result (λ part. part.capacity ≡ list.now.capacity) }
    ensures pools { pools.new.capacity ≡ pools.old.capacity }
{
    list.copy_where(pools, number, count, key)
}

impl<O: Operator> Shard<O> {
    ghost use Rattle.shard_apply.specs.Shards.{CanTakeNews, TakesNews};

    /// Moves out what it answered, and leaves a fault.
    pub(crate) fn take_answer(&mut self) -> Result<EdgeList, StepFault>
        ensures answer { result ≡ self.old.answer }
        ensures operator { self.new.operator ≡ self.old.operator }
        ensures pools { self.new.pools ≡ self.old.pools }
    {
        std::mem::replace(&mut self.answer, Err(StepFault::Memory))
    }

    /// Takes back the columns of a list that it answered.
    pub(crate) fn give_back(&mut self, list: EdgeList)
        requires { self.old.pools.capacity ≡ list.capacity }
        ensures operator { self.new.operator ≡ self.old.operator }
        ensures capacity { self.new.pools.capacity ≡ self.old.pools.capacity }
    {
        list.give_back(&mut self.pools);
    }

    /// The fault that it answered, if it did.
    pub(crate) fn fault(&self) -> Option<StepFault>
        ensures { result ≡ fault_of self.now.answer }
    {
        match &self.answer {
            Ok(_) => None,
            Err(fault) => Some(*fault),
        }
    }

    /// Takes the edges of both sides that belong to the shard of that number.
    pub(crate) fn take(
        &mut self,
        number: usize,
        cut: &Cut<'_>,
        news: &News<'_>,
    ) -> Result<EdgeList, StepFault>
        requires can { CanTakeNews O.standing cut.now news.now self.old }
        ensures stepped { TakesNews O.standing O.keeps cut.now news.now number
            self.old.operator self.new.operator result }
        ensures pools { self.new.pools.capacity ≡ self.old.pools.capacity }
    {
        let left = part_of(news.left, &mut self.pools, number, cut.count, cut.left_key)?;
        let right = part_of(
            news.right,
            &mut self.pools,
            number,
            cut.count,
            cut.right_key,
        )?;
        self.operator
            .step(&mut self.pools, left, right, news.left_to, news.right_to)
    }

    /// The same, and keeps what it answered.
    pub(crate) fn step(&mut self, number: usize, cut: &Cut<'_>, news: &News<'_>)
        requires can { CanTakeNews O.standing cut.now news.now self.old }
        ensures stepped { TakesNews O.standing O.keeps cut.now news.now number
            self.old.operator self.new.operator self.new.answer }
        ensures pools { self.new.pools.capacity ≡ self.old.pools.capacity }
    {
        self.answer = self.take(number, cut, news);
    }
}
