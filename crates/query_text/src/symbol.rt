// What the rest of a query may have to be read as.
ghost use Rattle.std.specs.Prelude.{◌≡◌};
ghost use Rattle.query_text.specs.Machine.{may_end};

use crate::Sign;

/// A part of the grammar that is still to be read. `Ors` and the like are what may follow a first part.
#[derive(Clone, Copy, Debug, PartialEq, Eq)]
pub(crate) enum Symbol {
    Stream,
    Streams,
    Col,
    ColKind,
    Cols,
    Lets,
    Pipe,
    Steps,
    Step,
    Item,
    /// What may follow a name in a list of items.
    ItemRest,
    Items,
    Agg,
    Aggs,
    By,
    On,
    Names,
    MoreNames,
    Expr,
    Ors,
    Conj,
    Ands,
    Neg,
    Test,
    Sum,
    Terms,
    Prod,
    Factors,
    Unary,
    Atom,
    Named,
    Int,
    Pos,
    /// A number of decimal places.
    Places,
    Per,
    Else,
    Lits,
    Lit,
    /// A number or a decimal behind its sign.
    Unsigned,
    /// Just this word.
    Word(Sign),
}

impl Symbol {
    /// Whether the query may end here.
    pub(crate) fn may_end(self) -> bool
        ensures { result ≡ may_end self }
    {
        matches!(
            self,
            Symbol::Streams
                | Symbol::Cols
                | Symbol::Lets
                | Symbol::Steps
                | Symbol::ItemRest
                | Symbol::Items
                | Symbol::Aggs
                | Symbol::By
                | Symbol::On
                | Symbol::MoreNames
                | Symbol::Per
                | Symbol::Else
                | Symbol::Lits
                | Symbol::Ors
                | Symbol::Ands
                | Symbol::Test
                | Symbol::Terms
                | Symbol::Factors
        )
    }
}
