// One node at work in shards.
ghost use Rattle.std.specs.Prelude.{◌≡◌, ℕ, ◌+◌, ◌-◌, ◌<◌, ◌≤◌, ◌^◌, [], ◌∷◌, ◌++◌};
ghost use Rattle.std.specs.Prelude.{min, false, length, map, vec_len, vec_capacity, All, IfOk};
ghost use Rattle.shard_apply.specs.Whole.{first_of, side_by_side, entries_in, AreInStep, AreNew};
ghost use Rattle.shard_apply.specs.Shards.{operators_of};

use crate::shard::Shard;
use batch::Pools;
use edge_stream::{Operator, StepFault};
use std::alloc::Global;
use std::marker::Model;
use tw_rows::Memory;

/// A node with a key at work as 1 to 16 operators side by side. Each takes the edges whose key is of its shard, and what
/// they answer is put together. Contracts see the operators, the columns of the keys of both sides, and whether a step failed.
#[derive(Drop)]
pub struct Sharded<O: Operator> {
    pub(crate) alloc: Global,
    pub(crate) shards: Vec<Shard<O>>,
    pub(crate) left_key: Vec<usize>,
    pub(crate) right_key: Vec<usize>,
    pub(crate) failed: bool,
}

impl<O: Operator> Model for Sharded<O> {
    ghost use Rattle.std.specs.Prelude.{map};
    ghost use Rattle.shard_apply.specs.Whole.{Whole, whole_code, IsWhole};

    ghost Value = { Whole O };

    ghost coded = { whole_code O.code };

    ghost view = { λ w. record {
      operators = map (λ s. s.operator) w.shards.items;
      left_key = w.left_key.items;
      right_key = w.right_key.items;
      failed = w.failed;
    } };

    ghost invariant = { λ w. IsWhole (map O.standing (map (λ s. s.operator) w.shards.items))
        (map (λ s. s.pools.capacity) w.shards.items) w.left_key.items w.right_key.items w.failed };
}

// A shard of each operator, with pools of its own.
fn shards_of<O: Operator>(
    alloc: Global,
    operators: Vec<O>,
    mut pools: Vec<Pools>,
) -> Result<Vec<Shard<O>>, Memory>
    requires { length pools.items ≡ length operators.items }
    ensures operators { IfOk result (λ shards. operators_of shards.items ≡ operators.items) }
    ensures capacities { IfOk result (λ shards. (n : ℕ) → All (λ p. p.capacity ≡ n) pools.items →
        All (λ s. s.pools.capacity ≡ n) shards.items) }
{
    let mut shards = Vec::with_capacity(alloc, operators.len())?;
    let mut rest = operators.into_iter();
    while let Some(operator) = rest.next() {
        add_shard(&mut shards, operator, &mut pools);
    }
    Ok(shards)
}

// Adds a shard of the operator, with pools out of these.
fn add_shard<O: Operator>(shards: &mut Vec<Shard<O>>, operator: O, pools: &mut Vec<Pools>)
    requires some { 0 < vec_len pools.old }
    requires room { vec_len shards.old < vec_capacity shards.old }
    ensures operators { operators_of shards.new.items ≡ operators_of shards.old.items
        ++ operator ∷ [] }
    ensures capacities { (n : ℕ) → All (λ p. p.capacity ≡ n) pools.old.items →
        All (λ s. s.pools.capacity ≡ n) shards.old.items →
        All (λ s. s.pools.capacity ≡ n) shards.new.items }
    ensures pools { (n : ℕ) → All (λ p. p.capacity ≡ n) pools.old.items →
        All (λ p. p.capacity ≡ n) pools.new.items }
    ensures fewer { vec_len pools.new + 1 ≡ vec_len pools.old }
    ensures more { vec_len shards.new ≡ vec_len shards.old + 1 }
    ensures capacity { vec_capacity shards.new ≡ vec_capacity shards.old }
{
    if let Some(own) = pools.pop() {
        shards.push_reserved(Shard {
            operator,
            pools: own,
            answer: Err(StepFault::Memory),
        });
    }
}

impl<O: Operator> Sharded<O> {
    /// A node of these operators, which stand as they were made and are alike, each with pools of its own, and with the columns
    /// of its keys.
    pub fn new(
        alloc: Global,
        shards: Vec<O>,
        pools: Vec<Pools>,
        left_key: &[usize],
        right_key: &[usize],
    ) -> Result<Sharded<O>, Memory>
        requires few { length shards.items ≤ 16 }
        requires opening { All O.is_opening shards.items }
        requires in_step { AreInStep (map O.standing shards.items) left_key.now right_key.now }
        requires many { length pools.items ≡ length shards.items }
        requires capacities { All (λ p. p.capacity
            ≡ (first_of (map O.standing shards.items)).batch_rows) pools.items }
        ensures whole { IfOk result
            (λ w. w ≡ side_by_side shards.items left_key.now right_key.now false) }
        ensures opening { IfOk result (AreNew O.is_opening O.standing) }
    {
        Ok(Sharded {
            alloc,
            shards: shards_of(alloc, shards, pools)?,
            left_key: Vec::from_slice(alloc, left_key)?,
            right_key: Vec::from_slice(alloc, right_key)?,
            failed: false,
        })
    }

    /// How many operators there are.
    pub fn shards(&self) -> usize
        ensures shards { result ≡ length self.now.operators }
        ensures some { 1 ≤ result }
        ensures few { result ≤ 16 }
    {
        self.shards.len()
    }

    /// How many entries all of them keep, or the greatest number that there is room for.
    pub fn held(&self) -> u64
        ensures { result ≡ min (entries_in O.entries self.now) (2 ^ 64 - 1) }
    {
        let mut held: u64 = 0;
        for shard in &self.shards {
            held = held.saturating_add(shard.operator.held());
        }
        held
    }

    /// Whether a step or a load failed.
    pub fn failed(&self) -> bool
        ensures { result ≡ self.now.failed }
    {
        self.failed
    }
}
