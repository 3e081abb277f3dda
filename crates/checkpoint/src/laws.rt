// The laws of the text.
ghost use Rattle.std.specs.Prelude.{◌≡◌, ◌<◌, ◌≤◌, ◌^◌, ◌++◌, ℕ, List, length, All};
ghost use Rattle.plan_model.specs.IsPlan.{PlanParts, IsPlan};
ghost use Rattle.admission.specs.declared.policy.Policy.{Policy};
ghost use Rattle.frozen_state.specs.Frozen.{FrozenView};
ghost use Rattle.checkpoint.specs.Form.{form_of};
ghost use Rattle.checkpoint.specs.Text.{checkpoint_lines, IsOfForm};

/// Of two things that have a text, and the same one, each is the other: so what is read back is what was written.
pub fn one_text_for_each()
    ensures { (query : List ℕ) (workers : ℕ) (policy : Policy) (plan : PlanParts)
        (f g : FrozenView) → let form = form_of query workers policy plan in IsOfForm form f →
        IsOfForm form g → checkpoint_lines form.head f ≡ checkpoint_lines form.head g → f ≡ g }
{}

/// No text is the front of another one: where a text ends, a checkpoint does.
pub fn no_text_goes_on()
    ensures { (query : List ℕ) (workers : ℕ) (policy : Policy) (plan : PlanParts) (f g : FrozenView)
        (rest : List (List ℕ)) → let form = form_of query workers policy plan in IsOfForm form f →
        IsOfForm form g → checkpoint_lines form.head f ≡ checkpoint_lines form.head g ++ rest →
        f ≡ g }
{}

/// No line is longer than a line of input may be, where each text came from a line or from the query.
pub fn lines_are_short()
    ensures { (query : List ℕ) (workers : ℕ) (policy : Policy) (plan : PlanParts) (f : FrozenView) →
        let form = form_of query workers policy plan in
        IsPlan plan → workers < 2 ^ 64 → policy.lateness < 2 ^ 64 → policy.period < 2 ^ 64 →
        IsOfForm form f → All (λ t. length t ≤ 65530) f.texts →
        All (λ line. length line ≤ 65536) (checkpoint_lines form.head f) }
{}
