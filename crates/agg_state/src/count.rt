// How many ints there are.
ghost use Rattle.std.specs.Prelude.{◌≡◌, ◌≤◌, ◌<◌, ◌^◌, ℤ, pos, false, List, ◌∷◌, length, IsOk, OnOk, OnErr};
ghost use Rattle.agg_state.specs.Amounts.{IsCounted};

use crate::aggregate::Aggregate;
use std::alloc::Global;
use tw_rows::Memory;

/// The number of ints above which no aggregate is told.
pub(crate) const MOST: u64 = 4611686018427387904;

/// How many ints there are.
#[derive(Drop)]
pub struct Count {
    count: u64,
}

#[tactic(auto, unfolding(plan_model::specs::Amounts::most_rows))]
impl Aggregate for Count {
    ghost stands = { λ s bag. IsCounted s.count bag };

    ghost made = { λ bag. pos (length bag) };

    ghost is_large = { λ bag. false };

    fn new(_alloc: Global) -> Count {
        Count { count: 0 }
    }

    fn add(&mut self, _value: i64) -> Result<(), Memory>
        requires { (bag : List ℤ) × IsCounted self.old.count bag × (length bag < 2 ^ 63) }
        ensures ok { OnOk result ((bag : List ℤ) → IsCounted self.old.count bag →
            IsCounted self.new.count (_value ∷ bag)) }
        ensures err { OnErr result ((bag : List ℤ) → IsCounted self.old.count bag →
            IsCounted self.new.count bag) }

        // Beyond what every aggregate does: it takes no memory, and never fails.
        ensures always { IsOk result }
    {
        self.count += 1;
        Ok(())
    }

    fn remove(&mut self, _value: i64) {
        self.count -= 1;
    }

    fn len(&self) -> u64 {
        self.count
    }

    fn value(&self) -> Option<i64> {
        if self.count > MOST {
            return None;
        }
        Some(self.count as i64)
    }
}
