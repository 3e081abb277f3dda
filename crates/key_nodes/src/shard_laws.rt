// The laws of shards.
ghost use Rattle.std.specs.Prelude.{◌≡◌, ℕ, ◌<◌, Bool, IsTrue, Option, List};
ghost use Rattle.tw_rows.specs.Bag.{SameBag};
ghost use Rattle.tw_rows.specs.Event.{Event};
ghost use Rattle.key_nodes.specs.Runs.{Tells};
ghost use Rattle.key_nodes.specs.Groups.{IsGroupRow, grouped};
ghost use Rattle.key_nodes.specs.Joins.{joined};
ghost use Rattle.key_nodes.specs.Antis.{alone};
ghost use Rattle.key_nodes.specs.Sessions.{sessions};
ghost use Rattle.key_nodes.specs.Clips.{clipped};
ghost use Rattle.key_nodes.specs.Shards.{of_shard, over_shards};

/// Keys: however the keys are given shards, the events of groups are those of the groups of each shard, together.
pub fn groups_by_shards<R, K, S>()
    ensures { (key : R → K) (same : K → K → Bool) (same_row : S → S → Bool) (tell : K → List R →
        Option S) → Tells same → IsGroupRow key same tell → (shard : K → ℕ) (n : ℕ) →
        ((k : K) → shard k < n) → (events : List (Event R)) →
        SameBag (grouped key same same_row tell events)
        (over_shards (λ s. grouped key same same_row tell
        (of_shard (λ r. shard (key r)) s events)) n) }
{}

/// Keys: however rows are given shards such that rows that meet have one shard, the events of an anti-join are those of
/// the anti-join of each shard, together.
pub fn antis_by_shards<L, R>()
    ensures { (same_row : L → L → Bool) (meets : L → R → Bool) (left_shard : L → ℕ)
        (right_shard : R → ℕ) (n : ℕ) → ((l : L) (r : R) → IsTrue (meets l r) →
        left_shard l ≡ right_shard r) → ((l : L) → left_shard l < n) →
        (left : List (Event L)) (right : List (Event R)) →
        SameBag (alone same_row meets left right)
        (over_shards (λ s. alone same_row meets (of_shard left_shard s left)
        (of_shard right_shard s right)) n) }
{}

/// Keys: however rows are given shards such that rows that meet have one shard, joined events are those of each shard,
/// together.
pub fn joins_by_shards<L, R, P>()
    ensures { (meets : L → R → Bool) (pair : L → R → P) (left_shard : L → ℕ) (right_shard : R → ℕ)
        (n : ℕ) → ((l : L) (r : R) → IsTrue (meets l r) → left_shard l ≡ right_shard r) →
        ((l : L) → left_shard l < n) → (left : List (Event L)) (right : List (Event R)) →
        SameBag (joined meets pair left right) (over_shards
        (λ s. joined meets pair (of_shard left_shard s left) (of_shard right_shard s right)) n) }
{}

/// Keys: however the keys are given shards, sessions are those of each shard, together.
pub fn sessions_by_shards<R, K>()
    ensures { (key : R → K) (same : K → K → Bool) (timeout : ℕ) → Tells same →
        (shard : K → ℕ) (n : ℕ) → ((k : K) → shard k < n) → (events : List (Event R)) →
        SameBag (sessions key same timeout events)
        (over_shards (λ s. sessions key same timeout (of_shard (λ r. shard (key r)) s events)) n) }
{}

/// Keys: however rows are given shards such that rows that meet have one shard, clipped events are those of each shard,
/// together.
pub fn clips_by_shards<L, R>()
    ensures { (meets : L → R → Bool) (left_shard : L → ℕ) (right_shard : R → ℕ) (n : ℕ) →
        ((l : L) (r : R) → IsTrue (meets l r) → left_shard l ≡ right_shard r) →
        ((l : L) → left_shard l < n) → (left : List (Event L)) (right : List (Event R)) →
        SameBag (clipped meets left right) (over_shards
        (λ s. clipped meets (of_shard left_shard s left) (of_shard right_shard s right)) n) }
{}
