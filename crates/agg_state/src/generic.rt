// What any aggregate makes of one int, and of a bag in which one int is replaced, known from the trait alone.
ghost use Rattle.std.specs.Prelude.{◌≡◌, ℤ, ◌<◌, ◌≤◌, ◌^◌, List, [], ◌∷◌, length, IfOk};
ghost use Rattle.tw_rows.specs.Bag.{SameBag};
ghost use Rattle.agg_state.specs.Amounts.{told};

use crate::aggregate::Aggregate;
use std::alloc::Global;
use tw_rows::Memory;

/// The aggregate of one int.
pub fn alone<A: Aggregate>(alloc: Global, value: i64) -> Result<A, Memory>
    ensures { IfOk result (λ aggregate. A.stands aggregate (value ∷ [])) }
{
    let mut aggregate = A::new(alloc);
    aggregate.add(value)?;
    Ok(aggregate)
}

/// Gives up an int of the bag and takes in another, and tells how many ints there are and what is made of them.
pub fn replaced<A: Aggregate>(
    aggregate: &mut A,
    old: i64,
    new: i64,
) -> Result<(u64, Option<i64>), Memory>
    requires { (bag : List ℤ) × (rest : List ℤ) × A.stands aggregate.old bag
        × SameBag bag (old ∷ rest) × (length rest < 2 ^ 63) }
    ensures { IfOk result (λ answer. (bag rest : List ℤ) → A.stands aggregate.old bag →
        SameBag bag (old ∷ rest) → A.stands aggregate.new (new ∷ rest)
        × (answer.0 ≡ length (new ∷ rest)) × (answer.1 ≡ told A.made A.is_large (new ∷ rest))) }
{
    aggregate.remove(old);
    aggregate.add(new)?;
    Ok((aggregate.len(), aggregate.value()))
}
