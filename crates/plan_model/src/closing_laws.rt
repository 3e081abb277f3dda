// The laws of closings, and of what nodes read. Each is a function that does nothing; its clauses are the law.
ghost use Rattle.std.specs.Prelude.{◌≡◌, ℕ, ◌≤◌, List, [], ◌++◌, slice_get};
ghost use Rattle.tw_rows.specs.Event.{Known};
ghost use Rattle.tw_rows.specs.Instant.{inf};
ghost use Rattle.plan_model.specs.declared.node.Node.{Node};
ghost use Rattle.plan_model.specs.Meaning.{Sources, events, closes, left_of, right_of, IsOrdered};

/// The closing of a node does not fall while the punctuation rises, is an instant or infinity, and is infinity once the
/// punctuation is; and the closings of what a node reads on the left and on the right do not fall either.
pub fn closings_rise()
    ensures rise { (nodes : List Node) (p q n : ℕ) → IsOrdered nodes → p ≤ q → q ≤ inf →
        closes nodes n p ≤ closes nodes n q }
    ensures within { (nodes : List Node) (p n : ℕ) → IsOrdered nodes → p ≤ inf →
        closes nodes n p ≤ inf }
    ensures end { (nodes : List Node) (n : ℕ) → IsOrdered nodes → closes nodes n inf ≡ inf }
    ensures left { (nodes : List Node) (p q i : ℕ) (n : Node) → IsOrdered nodes →
        slice_get nodes i ≡ Some n → p ≤ q → q ≤ inf →
        left_of inf (λ s. p) (λ j. closes nodes j p) n ≤ left_of inf (λ s. q)
        (λ j. closes nodes j q) n }
    ensures right { (nodes : List Node) (p q i : ℕ) (n : Node) → IsOrdered nodes →
        slice_get nodes i ≡ Some n → p ≤ q → q ≤ inf →
        right_of inf (λ j. closes nodes j p) n ≤ right_of inf (λ j. closes nodes j q) n }
{}

/// Finality of events: where later lines leave what is known of the sources below the punctuation `p`, they leave what is
/// known of the events of each node below its closing, and of what it reads below the closings of that.
pub fn events_are_final()
    ensures node { (p : ℕ) (source later_source : Sources) (nodes : List Node) → IsOrdered nodes →
        ((s : ℕ) → Known p (source s) (later_source s)) → (n : ℕ) →
        Known (closes nodes n p) (events source nodes n) (events later_source nodes n) }
    ensures left { (p : ℕ) (source later_source : Sources) (nodes : List Node) → IsOrdered nodes →
        ((s : ℕ) → Known p (source s) (later_source s)) → (i : ℕ) (n : Node) →
        slice_get nodes i ≡ Some n → Known (left_of inf (λ s. p) (λ j. closes nodes j p) n)
        (left_of [] source (events source nodes) n)
        (left_of [] later_source (events later_source nodes) n) }
    ensures right { (p : ℕ) (source later_source : Sources) (nodes : List Node) → IsOrdered nodes →
        ((s : ℕ) → Known p (source s) (later_source s)) → (i : ℕ) (n : Node) →
        slice_get nodes i ≡ Some n → Known (right_of inf (λ j. closes nodes j p) n)
        (right_of [] (events source nodes) n) (right_of [] (events later_source nodes) n) }
{}

/// Of longer lists a node reads what it read, followed by what it reads of the parts that are new.
pub fn nodes_read_longer_lists<X>()
    ensures left { (source new_source lists new : ℕ → List X) (n : Node) →
        left_of [] (λ s. source s ++ new_source s) (λ k. lists k ++ new k) n
        ≡ left_of [] source lists n ++ left_of [] new_source new n }
    ensures right { (lists new : ℕ → List X) (n : Node) →
        right_of [] (λ k. lists k ++ new k) n ≡ right_of [] lists n ++ right_of [] new n }
{}
