// The trait of aggregates, which are kept of a bag of ints as ints come and go.
ghost use Rattle.std.specs.Prelude.{◌≡◌, ℕ, ◌^◌, ◌<◌, ℤ, Bool, Option, List, [], ◌∷◌, length, OnOk, OnErr};
ghost use Rattle.tw_rows.specs.Bag.{SameBag};
ghost use Rattle.agg_state.specs.Amounts.{told};

use std::alloc::Global;
use tw_rows::Memory;

/// An aggregate of a bag of ints, which is kept as ints come and go, as Trill's snapshot aggregates are kept by accumulating and
/// deaccumulating. It need not hold the bag: a relation tells of which bags it is kept. That a number too large is not told is
/// our profile.
pub trait Aggregate: Drop {
    /// It is kept of the bag, which is given as a list in any order.
    ghost stands: { Self → List ℤ → Type 0 };

    /// The whole number that it makes of a bag, without a bound.
    ghost made: { List ℤ → ℤ };

    /// That number is too large to be told.
    ghost is_large: { List ℤ → Bool };

    /// Of no ints.
    fn new(alloc: Global) -> Self
        ensures { stands result [] };

    /// Takes in an int. Out of memory, it is kept of the bag as before.
    fn add(&mut self, value: i64) -> Result<(), Memory>
        requires { (bag : List ℤ) × stands self.old bag × (length bag < 2 ^ 63) }
        ensures ok { OnOk result ((bag : List ℤ) → stands self.old bag →
            stands self.new (value ∷ bag)) }
        ensures err { OnErr result ((bag : List ℤ) → stands self.old bag → stands self.new bag) };

    /// Gives up an int that is in the bag. It takes no memory.
    fn remove(&mut self, value: i64)
        requires { (bag : List ℤ) × (rest : List ℤ) × stands self.old bag
            × SameBag bag (value ∷ rest) }
        ensures { (bag rest : List ℤ) → stands self.old bag → SameBag bag (value ∷ rest) →
            stands self.new rest };

    /// How many ints there are.
    fn len(&self) -> u64
        ensures { (bag : List ℤ) → stands self.now bag → result ≡ length bag };

    /// What it makes of the ints. It is told of at most 2^62 ints, and where it is not too large.
    fn value(&self) -> Option<i64>
        requires { (bag : List ℤ) × stands self.now bag × (0 < length bag) }
        ensures { (bag : List ℤ) → stands self.now bag → result ≡ told made is_large bag };
}
