// What the grammar asks of a word.
ghost use Rattle.std.specs.Prelude.{◌≡◌};
ghost use Rattle.query_text.specs.Token.{word_kind, in_expressions};

use crate::{Sign, Word};

/// What the grammar asks of a word: which word it is, but for the spelling of names, decimals and texts.
#[derive(Clone, Copy, Debug, PartialEq, Eq)]
pub(crate) enum Kind {
    Name,
    Number(u64),
    Decimal,
    Quoted,
    Fixed(Sign),
    Bad,
}

impl Kind {
    pub(crate) fn of(word: Word) -> Kind
        ensures { result ≡ word_kind word }
    {
        match word {
            Word::Name(_) => Kind::Name,
            Word::Number(value) => Kind::Number(value),
            Word::Decimal { .. } => Kind::Decimal,
            Word::Quoted(_) => Kind::Quoted,
            Word::Fixed(sign) => Kind::Fixed(sign),
            Word::Bad => Kind::Bad,
        }
    }

    /// Whether expressions may hold such a word.
    #[tactic(auto, unfolding(crate::specs::Token::in_expressions))]
    pub(crate) fn is_in_expressions(self) -> bool
        ensures { result ≡ in_expressions self }
    {
        match self {
            Kind::Name | Kind::Number(_) | Kind::Decimal | Kind::Quoted => true,
            Kind::Fixed(sign) => matches!(
                sign,
                Sign::True
                    | Sign::False
                    | Sign::Open
                    | Sign::Close
                    | Sign::Or
                    | Sign::And
                    | Sign::Not
                    | Sign::Equal
                    | Sign::Differs
                    | Sign::Less
                    | Sign::LessEqual
                    | Sign::Greater
                    | Sign::GreaterEqual
                    | Sign::Plus
                    | Sign::Minus
                    | Sign::Star
                    | Sign::Div
                    | Sign::Mod
            ),
            Kind::Bad => false,
        }
    }
}
