// The laws of how late the times of a node's events may be.
ghost use Rattle.std.specs.Prelude.{ℕ, ◌+◌, ◌-◌, ◌^◌, ◌<◌, List, length};
ghost use Rattle.tw_rows.specs.Event.{Event, AreEvents};
ghost use Rattle.tw_rows.specs.Instant.{inf};
ghost use Rattle.key_nodes.specs.Runs.{Tells};
ghost use Rattle.plan_model.specs.declared.node.Node.{Node};
ghost use Rattle.plan_model.specs.IsPlan.{PlanParts, IsPlan};
ghost use Rattle.plan_model.specs.Meaning.{Sources, events, IsOrdered};
ghost use Rattle.plan_model.specs.Nodes.{node_in};
ghost use Rattle.plan_model.specs.Reach.{own_duration, reach};
ghost use Rattle.plan_model.specs.RowOps.{RowOps};
ghost use Rattle.plan_laws.specs.Times.{TimesUpTo};

/// The finite times of a node's events are later than those of the events that it reads by its own duration at the most,
/// for rows of any kind.
pub fn nodes_move_times<X>()
    ensures { (ops : RowOps X) → Tells ops.same → (n : Node) (m : ℕ) (a b : List (Event (List X))) →
        AreEvents a → AreEvents b → TimesUpTo m a → TimesUpTo m b →
        TimesUpTo (m + own_duration n) (node_in ops n a b) }
{}

/// The finite times of a node's events are later than those of the sources by the node's reach at the most. So where
/// those of the sources are below 2^60, those of every node of a plan are instants.
pub fn times_stay_within_reach()
    ensures reach { (m : ℕ) (source : Sources) (nodes : List Node) → IsOrdered nodes →
        ((s : ℕ) → AreEvents (source s)) → ((s : ℕ) → TimesUpTo m (source s)) → (n : ℕ) →
        TimesUpTo (m + reach nodes n) (events source nodes n) }
    ensures instants { (source : Sources) (plan : PlanParts) → IsPlan plan →
        ((s : ℕ) → AreEvents (source s)) → ((s : ℕ) → TimesUpTo (2 ^ 60 - 1) (source s)) →
        (n : ℕ) → n < length plan.nodes →
        TimesUpTo (inf - 1) (events source plan.nodes n) }
{}
