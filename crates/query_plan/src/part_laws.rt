// What the parts of a plan are together.
ghost use Rattle.std.specs.Prelude.{◌≡◌, ◌≢◌, ◌↔◌, ℕ, ◌<◌, Bool, true, false, List, [], length};
ghost use Rattle.std.specs.List.{AllZip};
ghost use Rattle.tw_rows.specs.Bag.{SameBag};
ghost use Rattle.tw_rows.specs.Instant.{inf};
ghost use Rattle.tw_rows.specs.Rows.{Row};
ghost use Rattle.tw_rows.specs.declared.row.Value.{Value};
ghost use Rattle.key_nodes.specs.Shards.{over_shards};
ghost use Rattle.plan_model.specs.Changes.{row_ends, row_starts};
ghost use Rattle.plan_model.specs.IsPlan.{PlanParts};
ghost use Rattle.plan_model.specs.Meaning.{Sources, events, snapshots};
ghost use Rattle.plan_laws.specs.Undefined.{undefined_at};
ghost use Rattle.plan_laws.specs.Shards.{any_shard};
ghost use Rattle.query_plan.specs.Cuts.{is_among, cut_places, may_be_cut};
ghost use Rattle.query_plan.specs.Choices.{choice_count, choice, number_of};
ghost use Rattle.query_plan.specs.Parts.{passing_events, passing_sources, part_of, part_at, IsCutBy};

/// A plan may be cut by columns, one of each stream, where the rows of each of its nodes are cut by a column too.
pub fn each_node_is_cut()
    ensures { (plan : PlanParts) (columns : List ℕ) → (may_be_cut plan columns ≡ true) ↔
        ((length columns ≡ length plan.streams) × ((i : ℕ) → i < length plan.nodes →
        (place : ℕ) × (is_among (cut_places plan columns i) place ≡ true))) }
{}

/// Each choice of a number below each of these has its own number, below their product.
pub fn choices_are_numbered()
    ensures each { (widths columns : List ℕ) →
        AllZip (λ column width. column < width) columns widths →
        (number_of widths columns < choice_count widths)
        × (choice widths (number_of widths columns) ≡ columns) }
    ensures once { (widths : List ℕ) (number : ℕ) → number < choice_count widths →
        number_of widths (choice widths number) ≡ number }
{}

/// Whatever test is asked of the values in the columns of the streams: of the rows that pass it a node makes those of its
/// events that pass it, in each column by which it is cut.
pub fn parts_have_their_events()
    ensures { (test : Value → Bool) (plan : PlanParts) (source : Sources) (columns : List ℕ)
        (i place : ℕ) → IsCutBy plan source columns i place →
        events (passing_sources test columns source) plan.nodes i
        ≡ passing_events test place (events source plan.nodes i) }
{}

/// However values are given parts, the rows of a node at an instant are those of all parts together; and the changes of a
/// row are those of its own part, of which it has none in another.
pub fn parts_have_their_rows()
    ensures together { (part : Value → ℕ) (count : ℕ) → ((v : Value) → part v < count) →
        (plan : PlanParts) (source : Sources) (columns : List ℕ) (i place : ℕ) →
        IsCutBy plan source columns i place → (t : ℕ) → t < inf →
        SameBag (snapshots source plan.nodes i t)
        (over_shards (λ k. snapshots (part_of part k columns source) plan.nodes i t) count) }
    ensures ends { (part : Value → ℕ) (plan : PlanParts) (source : Sources) (columns : List ℕ)
        (i place : ℕ) → IsCutBy plan source columns i place → (row : Row) (t : ℕ) → t < inf →
        row_ends (snapshots (part_of part (part_at part place row) columns source) plan.nodes i) t
        row ≡ row_ends (snapshots source plan.nodes i) t row }
    ensures starts { (part : Value → ℕ) (plan : PlanParts) (source : Sources) (columns : List ℕ)
        (i place : ℕ) → IsCutBy plan source columns i place → (row : Row) (t : ℕ) → t < inf →
        row_starts (snapshots (part_of part (part_at part place row) columns source) plan.nodes i) t
        row ≡ row_starts (snapshots source plan.nodes i) t row }
    ensures others { (part : Value → ℕ) (k : ℕ) (plan : PlanParts) (source : Sources)
        (columns : List ℕ) (i place : ℕ) → IsCutBy plan source columns i place → (row : Row)
        (t : ℕ) → t < inf → part_at part place row ≢ k →
        (row_ends (snapshots (part_of part k columns source) plan.nodes i) t row ≡ [])
        × (row_starts (snapshots (part_of part k columns source) plan.nodes i) t row ≡ []) }
{}

/// However values are given parts, a node is undefined at an instant exactly where it is so in one of the parts.
pub fn parts_are_undefined_together()
    ensures { (part : Value → ℕ) (count : ℕ) → ((v : Value) → part v < count) →
        (plan : PlanParts) (source : Sources) (columns : List ℕ) (i place : ℕ) →
        IsCutBy plan source columns i place → (t : ℕ) → t < inf →
        undefined_at source plan.nodes i t
        ≡ any_shard (λ k. undefined_at (part_of part k columns source) plan.nodes i t) count }
{}
