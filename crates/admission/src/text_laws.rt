// The laws of punctuations, faults and text.
ghost use Rattle.std.specs.Prelude.{◌≡◌, ℕ, ◌<◌, ◌≤◌, max, Bool, false, Some, None, Ok, List, [], ◌∷◌, ◌++◌, length};
ghost use Rattle.tw_rows.specs.Bag.{SameBag};
ghost use Rattle.tw_rows.specs.Event.{Known};
ghost use Rattle.plan_model.specs.IsPlan.{PlanParts, IsPlan};
ghost use Rattle.plan_model.specs.Meaning.{closes, snapshots};
ghost use Rattle.row_reader.specs.declared.entry.Entry.TheVariants as entries;
ghost use Rattle.admission.specs.declared.policy.Policy.{Policy};
ghost use Rattle.admission.specs.Admission.{Admission, nothing, Taken, rows, allowed};
ghost use Rattle.admission.specs.Bounds.{admit_all, entries_of};
ghost use Rattle.admission.specs.Entries.{Told, AreRead};
ghost use Rattle.admission.specs.Keeping.{Goes, IsGoing, RiseAbove};
ghost use Rattle.admission.specs.Progress.{Fault, Progress, judged, progress, fault};
ghost use Rattle.admission.specs.Text.{Item, IsFront, between, written, closed_up, text};

/// Punctuations rise, and up to the end of the input none is above the bound of a declared stream. After each line that is
/// admitted the last one is the greater of the one before and the one that the bounds and marks then allow.
pub fn punctuations_rise()
    ensures going { (plan : PlanParts) → IsPlan plan → (policy : Policy) (lines : List Told) →
        AreRead (length plan.streams) lines →
        IsGoing (length plan.streams) (progress plan policy lines false) }
    ensures rise { (plan : PlanParts) → IsPlan plan →
        (policy : Policy) (lines : List Told) (ended : Bool) → AreRead (length plan.streams) lines →
        RiseAbove 0 (progress plan policy lines ended).dues }
    ensures next { (plan : PlanParts) (policy : Policy) (lines : List Told) (line : Told) →
        fault plan policy (lines ++ line ∷ []) false ≡ None →
        (progress plan policy (lines ++ line ∷ []) false).last
        ≡ max (progress plan policy lines false).last
        (allowed policy (length plan.streams) (progress plan policy (lines ++ line ∷ [])
        false).after) }
    ensures skipped { (plan : PlanParts) (policy : Policy) (lines : List Told) (number : ℕ) →
        0 < length plan.streams → progress plan policy
        (lines ++ record { number = number; read = Ok entries.Skip } ∷ []) false
        ≡ progress plan policy lines false }
{}

/// Finality: the text of lines is a prefix of the text of these and more lines, whatever bytes an item has.
pub fn text_is_final()
    ensures { (print : Item → List ℕ) (plan : PlanParts) → IsPlan plan →
        (policy : Policy) (lines more : List Told) (ended : Bool) →
        AreRead (length plan.streams) lines → AreRead (length plan.streams) more →
        IsFront (text print plan policy lines false)
        (text print plan policy (lines ++ more) ended) }
{}

/// Later lines leave what is known of the rows of each stream below the last punctuation, and so the rows of each node at
/// each instant below its closing at any punctuation up to that one.
pub fn rows_are_final()
    ensures streams { (plan : PlanParts) → IsPlan plan →
        (policy : Policy) (lines more : List Told) (ended : Bool) (s : ℕ) →
        AreRead (length plan.streams) lines → AreRead (length plan.streams) more →
        Known (progress plan policy lines false).last
        (rows (progress plan policy lines false).after s)
        (rows (progress plan policy (lines ++ more) ended).after s) }
    ensures nodes { (plan : PlanParts) → IsPlan plan →
        (policy : Policy) (lines more : List Told) (ended : Bool) (n t p : ℕ) →
        AreRead (length plan.streams) lines → AreRead (length plan.streams) more →
        p ≤ (progress plan policy lines false).last → t < closes plan.nodes n p →
        SameBag (snapshots (rows (progress plan policy lines false).after) plan.nodes n t)
        (snapshots (rows (progress plan policy (lines ++ more) ended).after) plan.nodes n t) }
{}

/// Rows that leave what is known below the bounds leave what was written. A punctuation that is due adds the changes from
/// where the text ends up to the closing of the root, and that closing as a punctuation where it is later. The text ends at
/// the closing at the last punctuation, and at 0 where none was due.
pub fn text_grows_at_punctuations()
    ensures admitted { (plan : PlanParts) → IsPlan plan → (w : Progress) (a : Admission) →
        IsGoing (length plan.streams) w → Goes (length plan.streams) w.after a →
        written plan (record w { after = a }) ≡ written plan w }
    ensures due { (plan : PlanParts) → IsPlan plan → (w : Progress) (p : ℕ) →
        written plan (judged p w None) ≡ written plan w
        ++ between (rows w.after) plan (closed_up plan 0 w.dues) (closes plan.nodes plan.root p) }
    ensures closed { (plan : PlanParts) → IsPlan plan → (w : Progress) →
        IsGoing (length plan.streams) w → 0 < w.last →
        closed_up plan 0 w.dues ≡ closes plan.nodes plan.root w.last }
    ensures nothing { (plan : PlanParts) (w : Progress) → IsGoing (length plan.streams) w →
        w.last ≡ 0 → closed_up plan 0 w.dues ≡ 0 }
{}

/// Lines without a fault say entries that are all taken, one after the other.
pub fn lines_without_fault_are_admitted()
    ensures { (plan : PlanParts) (policy : Policy) (lines : List Told) (ended : Bool) →
        fault plan policy lines ended ≡ None → admit_all policy (entries_of lines) nothing
        ≡ Taken (progress plan policy lines ended).after }
{}

/// After the first fault nothing changes, and the line at which it comes adds nothing to the text, even where that line was
/// admitted and made a punctuation due at which a node is undefined.
pub fn nothing_follows_a_fault()
    ensures stays { (plan : PlanParts) (policy : Policy) (lines more : List Told) (ended : Bool)
        (f : Fault) → fault plan policy lines false ≡ Some f →
        progress plan policy (lines ++ more) ended ≡ progress plan policy lines false }
    ensures text { (print : Item → List ℕ) (plan : PlanParts) → IsPlan plan →
        (policy : Policy) (lines : List Told) (line : Told) (f : Fault) →
        AreRead (length plan.streams) (lines ++ line ∷ []) → fault plan policy lines false ≡ None →
        fault plan policy (lines ++ line ∷ []) false ≡ Some f →
        text print plan policy (lines ++ line ∷ []) false ≡ text print plan policy lines false }
{}
