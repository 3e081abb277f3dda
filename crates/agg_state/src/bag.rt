// A bag of ints in order.
ghost use Rattle.std.specs.Prelude.{◌≡◌, ◌≤◌, ◌<◌, ◌^◌, ℤ, List, [], ◌∷◌, length, OnOk, OnErr, Some, unwrap_or};
ghost use Rattle.std.specs.Ordering.{int_cmp};
ghost use Rattle.std.specs.BTreeMap.{get};
ghost use Rattle.plan_model.specs.Amounts.{least_int, greatest_int};
ghost use Rattle.tw_rows.specs.Bag.{SameBag};
ghost use Rattle.agg_state.specs.Amounts.{IsBag};

use std::alloc::Global;
use std::collections::BTreeMap;
use tw_rows::Memory;

/// Ints in order, each with how often it is there.
#[derive(Drop)]
pub struct Bag {
    counts: BTreeMap<i64, u64>,
    len: u64,
}

// How often the int is there.
fn times(counts: &BTreeMap<i64, u64>, value: i64) -> u64
    ensures { result ≡ unwrap_or (get int_cmp counts.now value) 0 }
{
    match counts.get(&value) {
        Some(count) => *count,
        None => 0,
    }
}

impl Bag {
    /// No ints.
    pub(crate) fn new(alloc: Global) -> Bag
        ensures { IsBag result.counts result.len [] }
    {
        Bag {
            counts: BTreeMap::new(alloc),
            len: 0,
        }
    }

    /// How many ints there are, equal ones too.
    pub(crate) fn len(&self) -> u64
        ensures { result ≡ self.now.len }
    {
        self.len
    }

    /// Takes in an int. Out of memory the bag is as it was.
    pub(crate) fn add(&mut self, value: i64) -> Result<(), Memory>
        requires { (bag : List ℤ) × IsBag self.old.counts self.old.len bag × (length bag < 2 ^ 63) }
        ensures ok { OnOk result ((bag : List ℤ) → IsBag self.old.counts self.old.len bag →
            IsBag self.new.counts self.new.len (value ∷ bag)) }
        ensures err { OnErr result ((bag : List ℤ) → IsBag self.old.counts self.old.len bag →
            IsBag self.new.counts self.new.len bag) }
    {
        let had = times(&self.counts, value);
        self.counts.insert(value, had + 1)?;
        self.len += 1;
        Ok(())
    }

    /// Gives up an int that is there.
    pub(crate) fn remove(&mut self, value: i64)
        requires { (bag : List ℤ) × (rest : List ℤ) × IsBag self.old.counts self.old.len bag
            × SameBag bag (value ∷ rest) }
        ensures { (bag rest : List ℤ) → IsBag self.old.counts self.old.len bag →
            SameBag bag (value ∷ rest) → IsBag self.new.counts self.new.len rest }
    {
        self.len -= 1;
        if let Some(count) = self.counts.get_mut(&value) {
            if *count > 1 {
                *count -= 1;
                return;
            }
        }
        self.counts.remove(&value);
    }

    /// The least int, if there is one.
    pub(crate) fn least(&self) -> Option<i64>
        ensures { (bag : List ℤ) → IsBag self.now.counts self.now.len bag → 0 < length bag →
            result ≡ Some (least_int bag) }
    {
        let (value, _) = self.counts.first_key_value()?;
        Some(*value)
    }

    /// The greatest int, if there is one.
    pub(crate) fn greatest(&self) -> Option<i64>
        ensures { (bag : List ℤ) → IsBag self.now.counts self.now.len bag → 0 < length bag →
            result ≡ Some (greatest_int bag) }
    {
        let (value, _) = self.counts.last_key_value()?;
        Some(*value)
    }
}
