// The least and the greatest of the ints.
ghost use Rattle.std.specs.Prelude.{◌≡◌, ◌<◌, ℤ, false, List, length, Some};
ghost use Rattle.plan_model.specs.Amounts.{least_int, greatest_int};
ghost use Rattle.agg_state.specs.Amounts.{IsBag};

use crate::aggregate::Aggregate;
use crate::bag::Bag;
use crate::count::MOST;
use std::alloc::Global;
use std::marker::PhantomData;
use tw_rows::Memory;

/// An end of a bag of ints in order.
pub trait End {
    ghost end: { List ℤ → ℤ };

    /// The int at the end.
    fn of(bag: &Bag) -> Option<i64>
        ensures { (ints : List ℤ) → IsBag bag.now.counts bag.now.len ints → 0 < length ints →
            result ≡ Some (end ints) };
}

/// The end of the least int.
pub struct Lowest;

/// The end of the greatest int.
pub struct Highest;

impl End for Lowest {
    ghost end = { least_int };

    fn of(bag: &Bag) -> Option<i64> {
        bag.least()
    }
}

impl End for Highest {
    ghost end = { greatest_int };

    fn of(bag: &Bag) -> Option<i64> {
        bag.greatest()
    }
}

/// The int at one end of the ints.
#[derive(Drop)]
pub struct Extreme<E> {
    bag: Bag,
    end: PhantomData<E>,
}

/// The least of the ints.
pub type Least = Extreme<Lowest>;

/// The greatest of the ints.
pub type Greatest = Extreme<Highest>;

#[tactic(auto, unfolding(plan_model::specs::Amounts::most_rows))]
impl<E: End> Aggregate for Extreme<E> {
    ghost stands = { λ s bag. IsBag s.bag.counts s.bag.len bag };

    ghost made = { E.end };

    ghost is_large = { λ bag. false };

    fn new(alloc: Global) -> Extreme<E> {
        Extreme {
            bag: Bag::new(alloc),
            end: PhantomData,
        }
    }

    fn add(&mut self, value: i64) -> Result<(), Memory> {
        self.bag.add(value)
    }

    fn remove(&mut self, value: i64) {
        self.bag.remove(value);
    }

    fn len(&self) -> u64 {
        self.bag.len()
    }

    fn value(&self) -> Option<i64> {
        if self.bag.len() > MOST {
            return None;
        }
        E::of(&self.bag)
    }
}
