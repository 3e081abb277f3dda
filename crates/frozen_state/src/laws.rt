// The law of the parts.
ghost use Rattle.std.specs.Prelude.{ℕ};
ghost use Rattle.plan_model.specs.IsPlan.{PlanParts};
ghost use Rattle.frozen_state.specs.Forms.{AreApart, part_forms};

/// No two parts of a plan at work are of the same owner and shard.
pub fn parts_are_apart()
    ensures { (workers : ℕ) (plan : PlanParts) → AreApart (part_forms workers plan) }
{}
