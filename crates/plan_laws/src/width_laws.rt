// The laws of how many values rows have.
ghost use Rattle.std.specs.Prelude.{◌≡◌, ℕ, ◌<◌, List, [], length, slice_index_or, All};
ghost use Rattle.tw_rows.specs.Instant.{inf};
ghost use Rattle.plan_model.specs.IsPlan.{PlanParts, IsPlan};
ghost use Rattle.plan_model.specs.Meaning.{Sources, events, snapshots};
ghost use Rattle.plan_laws.specs.Widths.{AreWide, FitStreams};

/// Where the rows of the sources have as many values as the schemas of their streams have columns, so have those of each
/// node of a plan: of its events, and of each instant.
pub fn rows_have_the_width()
    ensures events { (plan : PlanParts) → IsPlan plan → (source : Sources) →
        FitStreams plan.streams source → (i : ℕ) → i < length plan.nodes →
        AreWide (length (slice_index_or plan.schemas i [])) (events source plan.nodes i) }
    ensures instants { (plan : PlanParts) → IsPlan plan → (source : Sources) →
        FitStreams plan.streams source → (i t : ℕ) → i < length plan.nodes → t < inf →
        All (λ row. length row ≡ length (slice_index_or plan.schemas i []))
        (snapshots source plan.nodes i t) }
{}
