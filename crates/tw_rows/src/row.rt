// Values, and rows of them.
ghost use Rattle.std.specs.Prelude.{◌≡◌, ◌↔◌, IsTrue, List, refl};
ghost use Rattle.std.specs.Ordering.{as_partial_cmp, eq_by_cmp};
ghost use Rattle.std.specs.Cmp.{partial_order_from_total, partial_equiv_from_equiv, eq_by_cmp_equiv};
ghost use Rattle.tw_rows.specs.RowOrder.{value_cmp_total, row_cmp_total};
ghost use Rattle.tw_rows.specs.Rows.{value_cmp, row_cmp};
ghost use Rattle.tw_rows.specs.Kinds.{value_kind, FitsKind};

use crate::kind::{Kind, cell_of};
use crate::label::Label;
use std::cmp::Ordering;
use std::marker::Model;

/// A value of a column: a whole number of 64 bits with a sign, a truth value, or a text of UTF-8.
#[derive(Drop)]
pub enum Value {
    Int(i64),
    Bool(bool),
    Text(Label),
}

impl Value {
    /// What the value is by itself: a number is an int.
    pub fn kind(&self) -> Kind
        ensures { result ≡ value_kind self.now }
    {
        match self {
            Value::Int(_) => Kind::Int,
            Value::Bool(_) => Kind::Bool,
            Value::Text(_) => Kind::Text,
        }
    }

    /// Whether the value can stand in a column of the kind. A number fits ints and decimals alike.
    pub fn fits(&self, kind: Kind) -> bool
        ensures { IsTrue result ↔ FitsKind self.now kind }
    {
        cell_of(self.kind()) == cell_of(kind)
    }
}

/// The values of an event, one for each column, in the order of the columns.
#[derive(Drop)]
pub struct Row {
    values: Vec<Value>,
}

impl Model for Row {
    ghost use Rattle.std.specs.Prelude.{List};
    ghost use Rattle.tw_rows.specs.declared.row.Value.{Value as Item};

    ghost Value = { List Item };

    ghost view = { λ r. r.values.items };
}

impl Row {
    /// The row of these values. It takes no memory.
    pub fn from_vec(values: Vec<Value>) -> Row
        ensures { result ≡ values.items }
    {
        Row { values }
    }

    /// The values in the order of the columns.
    pub fn values(&self) -> &[Value]
        ensures { result.now ≡ self.now }
    {
        self.values.as_slice()
    }
}

impl PartialEq for Value {
    ghost eq = { eq_by_cmp value_cmp };

    ghost laws = { partial_equiv_from_equiv (eq_by_cmp_equiv value_cmp_total) };

    fn eq(&self, other: &Value) -> bool {
        self.cmp(other).is_eq()
    }
}

impl Eq for Value {
    ghost laws = { eq_by_cmp_equiv value_cmp_total };
}

impl PartialOrd for Value {
    ghost partial_cmp = { as_partial_cmp value_cmp };

    ghost laws = { partial_order_from_total value_cmp_total };

    fn partial_cmp(&self, other: &Value) -> Option<Ordering> {
        Some(self.cmp(other))
    }
}

/// Ints before bools before texts; ints as numbers, false before true, texts by their bytes.
impl Ord for Value {
    ghost cmp = { value_cmp };

    ghost total = { value_cmp_total };

    ghost matches_partial_cmp = { λ x y. refl };

    ghost matches_eq = { λ x y. refl };

    fn cmp(&self, other: &Value) -> Ordering {
        match (self, other) {
            (Value::Int(x), Value::Int(y)) => x.cmp(y),
            (Value::Int(_), _) => Ordering::Less,
            (_, Value::Int(_)) => Ordering::Greater,
            (Value::Bool(x), Value::Bool(y)) => x.cmp(y),
            (Value::Bool(_), _) => Ordering::Less,
            (_, Value::Bool(_)) => Ordering::Greater,
            (Value::Text(x), Value::Text(y)) => x.as_str().cmp(y.as_str()),
        }
    }
}

impl PartialEq for Row {
    ghost eq = { eq_by_cmp row_cmp };

    ghost laws = { partial_equiv_from_equiv (eq_by_cmp_equiv row_cmp_total) };

    fn eq(&self, other: &Row) -> bool {
        self.cmp(other).is_eq()
    }
}

impl Eq for Row {
    ghost laws = { eq_by_cmp_equiv row_cmp_total };
}

impl PartialOrd for Row {
    ghost partial_cmp = { as_partial_cmp row_cmp };

    ghost laws = { partial_order_from_total row_cmp_total };

    fn partial_cmp(&self, other: &Row) -> Option<Ordering> {
        Some(self.cmp(other))
    }
}

/// Field by field, and a row before each longer one that begins with it.
impl Ord for Row {
    ghost cmp = { row_cmp };

    ghost total = { row_cmp_total };

    ghost matches_partial_cmp = { λ x y. refl };

    ghost matches_eq = { λ x y. refl };

    fn cmp(&self, other: &Row) -> Ordering {
        self.values.cmp(&other.values)
    }
}

/// The order of rows, as `Ord` has it: only equal rows compare as equal.
#[tactic(auto, using(crate::specs::RowOrder::row_cmp_equal))]
pub fn cmp_row(a: &Row, b: &Row) -> Ordering
    ensures order { result ≡ row_cmp a.now b.now }
    ensures equal { (result ≡ Ordering.Equal) ↔ (a.now ≡ b.now) }
{
    a.cmp(b)
}
