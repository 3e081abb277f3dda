// Laws of runs that keep checkpoints. Each is a function that does nothing; its clauses are the law.
ghost use Rattle.std.specs.Prelude.{◌≡◌, ◌≤◌, ◌++◌, ◌∷◌, [], ℕ, List, length};
ghost use Rattle.wire_lines.specs.Journal.{Entry, Did, Keep};
ghost use Rattle.command_line.specs.Words.{AreWithin};
ghost use Rattle.tempo_cli.specs.declared.status.Status.TheVariants.{Done};
ghost use Rattle.tempo_cli.specs.declared.kept_status.KeptStatus.TheVariants.{Ended};
ghost use Rattle.tempo_cli.specs.Keeping.{Task, KeepsAfter, Keeps, IsRecovered, StartsTask, IsStartOf};
ghost use Rattle.tempo_cli.specs.Unbroken.{Crash, AreGoneOn, IsUnbroken};

/// What a run keeps is what the next one reads.
pub fn what_is_kept_is_read_back()
    ensures { (t : Task) (bytes : List ℕ) → AreWithin t.asked → StartsTask t bytes →
        IsStartOf t bytes }
{}

/// Whenever a crash comes, all that was ever kept can be gone on from: K is what was done before the crash.
pub fn every_crash_is_recovered()
    ensures { (t : Task) → AreWithin t.asked → (counts : List ℕ) (K after : List Entry) →
        KeepsAfter t [] counts (K ++ after) → (front back : List Entry) (bytes : List ℕ) →
        K ≡ front ++ Did (Keep bytes) ∷ back → IsRecovered t K bytes }
{}

/// No line is lost and no byte doubled: runs that crashes ended, each gone on with by the next one, and a last one that ends Done
/// leave in the output's file what one run does that no crash ends.
pub fn every_line_counts_once()
    ensures { (t u : Task) (file left : List ℕ) (crashes : List Crash) (all : List (List ℕ)) →
        t.start.output ≤ length file → AreGoneOn t file crashes u left all →
        (every : ℕ) (J : List Entry) → Keeps u every (Ended Done) J →
        IsUnbroken t u file left all J }
{}
