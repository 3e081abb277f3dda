// Kinds of columns, and how cells are stored.
ghost use Rattle.std.specs.Prelude.{◌≡◌};
ghost use Rattle.tw_rows.specs.Kinds.{cell_kind_of};

/// What the values of a column are.
#[derive(Clone, Copy, Debug, PartialEq, Eq)]
pub enum Kind {
    Int,
    Bool,
    Text,
    /// A decimal with so many places behind the point. Its values are the numbers of its last place: with 2 places 125
    /// stands for 1.25.
    Dec(u8),
}

/// How a column stores its cells. Two kinds that are stored alike are one kind to whatever only moves or compares cells.
#[derive(Clone, Copy, Debug, PartialEq, Eq)]
pub enum CellKind {
    /// A whole number of 64 bits with a sign.
    Whole,
    /// A truth value.
    Bit,
    /// The place of a text in a table of texts.
    Place,
}

/// How the values of a kind are stored.
pub fn cell_of(kind: Kind) -> CellKind
    ensures { result ≡ cell_kind_of kind }
{
    match kind {
        Kind::Int | Kind::Dec(_) => CellKind::Whole,
        Kind::Bool => CellKind::Bit,
        Kind::Text => CellKind::Place,
    }
}
