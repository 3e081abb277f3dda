// The laws of entries.
ghost use Rattle.std.specs.Prelude.{◌≡◌, ◌≢◌, ◌≤◌, ℕ, max, Bool, List, length};
ghost use Rattle.std.specs.List.{All};
ghost use Rattle.tw_rows.specs.Instant.{inf};
ghost use Rattle.tw_rows.specs.declared.schema.StreamDef.{StreamDef};
ghost use Rattle.row_reader.specs.Entry.{entry};
ghost use Rattle.row_reader.specs.declared.entry.Entry.{Entry};
ghost use Rattle.admission.specs.declared.policy.Admitted.TheVariants.{Kept};
ghost use Rattle.admission.specs.declared.policy.Policy.{Policy};
ghost use Rattle.admission.specs.Admission.{Admission, nothing, Taken, admit, rows, stepped, allowed};
ghost use Rattle.admission.specs.Answers.{answer};
ghost use Rattle.admission.specs.Bounds.{bound_by, mark_by, only_bound, greatest, admit_all};
ghost use Rattle.admission.specs.Entries.{IsEntry, AreEntries, IsRead};
ghost use Rattle.admission.specs.Keeping.{IsSound, Goes, IsOfAnother};

/// What is read of a line without LF is of a declared stream and has times up to infinity.
pub fn lines_say_entries()
    ensures { (streams : List StreamDef) (first : Bool) (line : List ℕ) → All (λ b. b ≢ 10) line →
        IsRead (length streams) (entry streams first line) }
{}

/// An entry that is taken lowers no bound, and leaves what is known of each stream below its bound: what later lines say of a
/// stream takes effect at its bound or later. Of streams that are not declared it leaves all.
pub fn admitted_entries_leave_what_is_known()
    ensures first { IsSound nothing }
    ensures next { (policy : Policy) (streams : ℕ) (a b : Admission) (e : Entry) →
        IsSound a → IsEntry streams e → admit policy a e ≡ Taken b → Goes streams a b }
{}

/// An entry of one stream changes no other stream's bound, mark or rows.
pub fn entries_change_their_stream_alone()
    ensures bound { (policy : Policy) (a b : Admission) (e : Entry) (s : ℕ) →
        IsOfAnother s e → admit policy a e ≡ Taken b → b.bound s ≡ a.bound s }
    ensures mark { (policy : Policy) (a b : Admission) (e : Entry) (s : ℕ) →
        IsOfAnother s e → admit policy a e ≡ Taken b → b.mark s ≡ a.mark s }
    ensures rows { (policy : Policy) (a b : Admission) (e : Entry) (s : ℕ) →
        IsOfAnother s e → admit policy a e ≡ Taken b → rows b s ≡ rows a s }
{}

/// The bound of a stream is the greatest of 0, of the syncs less the lateness of its events, and of the times of its
/// punctuations and of those of all streams; its mark is the greatest of 0 and of these times. Of one stream alone that is one
/// running greatest, and what is allowed is the greater of the bound, rounded down to the period, and of the mark.
pub fn bounds_are_greatest()
    ensures bound { (policy : Policy) (entries : List Entry) (a : Admission) (s : ℕ) →
        admit_all policy entries nothing ≡ Taken a →
        a.bound s ≡ greatest (bound_by policy s) entries }
    ensures mark { (policy : Policy) (entries : List Entry) (a : Admission) (s : ℕ) →
        admit_all policy entries nothing ≡ Taken a → a.mark s ≡ greatest (mark_by s) entries }
    ensures only { (policy : Policy) (entries : List Entry) (a : Admission) → AreEntries 1 entries →
        admit_all policy entries nothing ≡ Taken a →
        a.bound 0 ≡ greatest (only_bound policy) entries }
    ensures only_allowed { (policy : Policy) (a : Admission) → a.bound 0 ≤ inf → a.mark 0 ≤ inf →
        allowed policy 1 a ≡ max (stepped policy.period (a.bound 0)) (a.mark 0) }
{}

/// An entry that is taken and of which anything else than "kept" is answered makes no event.
pub fn only_kept_lines_make_events()
    ensures { (policy : Policy) (a b : Admission) (e : Entry) (s : ℕ) → answer policy a e ≢ Kept →
        admit policy a e ≡ Taken b → b.made s ≡ a.made s }
{}
