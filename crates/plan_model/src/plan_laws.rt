// The laws of what a plan keeps. Each is a function that does nothing; its clauses are the law.
ghost use Rattle.std.specs.Prelude.{◌≡◌, ℕ, List};
ghost use Rattle.plan_model.specs.declared.node.Node.{Node};
ghost use Rattle.plan_model.specs.IsPlan.{PlanParts, IsPlan};
ghost use Rattle.plan_model.specs.Meaning.{Sources, meaning, IsOrdered, IsLevelled};
ghost use Rattle.plan_model.specs.Reach.{event_level};

/// The nodes of a plan are as the laws of meaning ask: children have lower numbers than their parents, and a node that
/// reads the events of a child has there a child with events.
pub fn plans_are_sound()
    ensures ordered { (plan : PlanParts) → IsPlan plan → IsOrdered plan.nodes }
    ensures levelled { (plan : PlanParts) → IsPlan plan → IsLevelled plan.nodes }
{}

/// The level of a node tells whether it has events of its own.
pub fn levels_tell_events()
    ensures { (source : Sources) (nodes : List Node) → IsOrdered nodes → (n : ℕ) →
        event_level nodes n ≡ (meaning source nodes n).has_events }
{}
