// Laws of the grammar. They run nothing.
ghost use Rattle.std.specs.Prelude.{◌≡◌, ℕ, List, Option, All, IsUtf8};
ghost use Rattle.query_text.specs.Answer.{IsAnswer};
ghost use Rattle.query_text.specs.declared.fault.Fault.{Fault};
ghost use Rattle.query_text.specs.Token.{Token, tokens_of};
ghost use Rattle.query_text.specs.TokenForm.{IsSound};
ghost use Rattle.query_text.specs.Grammar.{Query, query_tokens};
ghost use Rattle.query_text.specs.Fault.{IsFault, IsQuery};

/// A list of tokens spells at most one query.
pub fn tokens_spell_one_query()
    ensures { (a b : Query) → query_tokens a ≡ query_tokens b → a ≡ b }
{}

/// A list of tokens that spells a query has no fault.
pub fn queries_have_no_fault()
    ensures { (tokens rest : List Token) → IsQuery tokens → ¬ (IsFault tokens rest) }
{}

/// The names, numbers and texts among the tokens of a text keep their limits.
pub fn tokens_are_sound()
    ensures { (text : List ℕ) → IsUtf8 text → All IsSound (tokens_of text) }
{}

/// A text has one answer: it spells a query within the limit, or has one fault.
pub fn texts_have_one_answer()
    ensures some { (text : List ℕ) → (a : Option Fault) × IsAnswer text a }
    ensures one { (text : List ℕ) (a b : Option Fault) → IsAnswer text a → IsAnswer text b → a ≡ b }
{}
