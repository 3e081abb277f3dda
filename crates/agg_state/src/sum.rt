// The sum of the ints.
ghost use Rattle.std.specs.Prelude.{◌≡◌, ◌≤◌, ◌<◌, ◌^◌, ℤ, pos, negsuc, ◌+ℤ◌, ◌-ℤ◌, ◌≤ℤ◌, not, List, ◌∷◌, length, IsOk, OnOk, OnErr};
ghost use Rattle.plan_model.specs.Amounts.{exact_sum, is_outside_i64, most_rows};
ghost use Rattle.agg_state.specs.Amounts.{IsSummed};

use crate::aggregate::Aggregate;
use crate::count::MOST;
use std::alloc::Global;
use tw_rows::Memory;

/// The sum of the ints, as a number of 128 bits: that of 2^63 ints is one.
#[derive(Drop)]
pub struct Sum {
    total: i128,
    count: u64,
}

fn plus(total: i128, value: i64) -> i128
    requires low { negsuc (2 ^ 126) ≤ℤ total }
    requires high { total ≤ℤ pos (2 ^ 126) }
    ensures { result ≡ total +ℤ value }
{
    total + i128::from(value)
}

fn minus(total: i128, value: i64) -> i128
    requires low { negsuc (2 ^ 126) ≤ℤ total }
    requires high { total ≤ℤ pos (2 ^ 126) }
    ensures { result ≡ total -ℤ value }
{
    total - i128::from(value)
}

// Whether the total is an int of 64 bits.
fn is_int(total: i128) -> bool
    ensures { result ≡ not (is_outside_i64 total) }
{
    i128::from(i64::MIN) <= total && total <= i128::from(i64::MAX)
}

#[tactic(auto, unfolding(plan_model::specs::Amounts::most_rows))]
impl Aggregate for Sum {
    ghost stands = { λ s bag. IsSummed s.total s.count bag };

    ghost made = { exact_sum };

    ghost is_large = { λ bag. is_outside_i64 (exact_sum bag) };

    fn new(_alloc: Global) -> Sum {
        Sum { total: 0, count: 0 }
    }

    fn add(&mut self, value: i64) -> Result<(), Memory>
        requires { (bag : List ℤ) × IsSummed self.old.total self.old.count bag
            × (length bag < 2 ^ 63) }
        ensures ok { OnOk result ((bag : List ℤ) → IsSummed self.old.total self.old.count bag →
            IsSummed self.new.total self.new.count (value ∷ bag)) }
        ensures err { OnErr result ((bag : List ℤ) → IsSummed self.old.total self.old.count bag →
            IsSummed self.new.total self.new.count bag) }

        // Beyond what every aggregate does: it takes no memory, and never fails.
        ensures always { IsOk result }
    {
        self.total = plus(self.total, value);
        self.count += 1;
        Ok(())
    }

    fn remove(&mut self, value: i64) {
        self.total = minus(self.total, value);
        self.count -= 1;
    }

    fn len(&self) -> u64 {
        self.count
    }

    fn value(&self) -> Option<i64> {
        if self.count > MOST || !is_int(self.total) {
            return None;
        }
        Some(self.total as i64)
    }
}
