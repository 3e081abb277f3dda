// Laws of query texts. They run nothing.
ghost use Rattle.std.specs.Prelude.{◌≡◌, ◌⊎◌, ℕ, List};
ghost use Rattle.plan_model.specs.declared.fault.QueryFault.{QueryFault};
ghost use Rattle.query_text.specs.declared.query.Query.{Query};
ghost use Rattle.query_text.specs.IsParse.{Spells, IsSmallText, IsTextFault};

/// A text spells at most one query.
pub fn texts_spell_one_query()
    ensures { (text : List ℕ) (a b : Query) → Spells text a → Spells text b → a ≡ b }
{}

/// A text spells a query or has a fault. One that is not too large and spells a query has no fault, and no text has
/// two.
pub fn texts_have_one_fault()
    ensures some { (text : List ℕ) → (IsSmallText text × (q : Query) × Spells text q) ⊎
        ((fault : QueryFault) × IsTextFault text fault) }
    ensures spelled { (text : List ℕ) (q : Query) (fault : QueryFault) → IsSmallText text →
        Spells text q → ¬ (IsTextFault text fault) }
    ensures one { (text : List ℕ) (f g : QueryFault) → IsTextFault text f → IsTextFault text g →
        f ≡ g }
{}
