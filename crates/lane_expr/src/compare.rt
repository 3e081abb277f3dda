// How the results of two steps compare, for the rows of a block.
ghost use Rattle.std.specs.Prelude.{◌≡◌, ◌<◌, ℕ, true, false, length};
ghost use Rattle.std.specs.Ordering.{int_cmp, bool_cmp};
ghost use Rattle.occupancy.specs.Bits.{test};
ghost use Rattle.lane_expr.specs.Lanes.{number};
ghost use Rattle.tw_rows.specs.Cells.{read_datum, IsPlaced};
ghost use Rattle.tw_rows.specs.Rows.{value_cmp};
ghost use Rattle.plan_model.specs.Expr.{is_met};
ghost use Rattle.lane_expr.specs.Registers.{datum_at, AreTexts, text_order};

use crate::BLOCK;
use crate::numbers::{Numbers, marks_below, marks_same};
use crate::places::{Places, marks_same_places};
use crate::registers::Register;
use crate::words::{is_marked, with_mark};
use plan_model::CompareOp;
use std::cmp::Ordering;
use tw_rows::{CellKind, TextTable};

/// Tells by bit j whether the comparison is true of the results for row j. That of a row that is not occupied is free.
pub(crate) fn compare(
    op: CompareOp,
    left: &Register,
    right: &Register,
    texts: &TextTable,
    occupied: u64,
) -> u64
    requires kinds { left.now.kind ≡ right.now.kind }
    requires left { (j : ℕ) → j < 64 → test occupied j ≡ true →
        IsPlaced texts.now (datum_at j left.now) }
    requires right { (j : ℕ) → j < 64 → test occupied j ≡ true →
        IsPlaced texts.now (datum_at j right.now) }
    ensures { (j : ℕ) → j < 64 → test occupied j ≡ true →
        test result j ≡ is_met op (value_cmp (read_datum texts.now (datum_at j left.now))
        (read_datum texts.now (datum_at j right.now))) }
{
    match left.kind {
        CellKind::Whole => compare_numbers(op, &left.numbers, &right.numbers),
        CellKind::Bit => compare_bits(op, left.bits, right.bits),
        CellKind::Place => compare_texts(op, &left.places, &right.places, texts, occupied),
    }
}

// The same of numbers.
fn compare_numbers(op: CompareOp, left: &Numbers, right: &Numbers) -> u64
    ensures { (j : ℕ) → j < 64 → test result j
        ≡ is_met op (int_cmp (number left.now.lanes j) (number right.now.lanes j)) }
{
    match op {
        CompareOp::Eq => marks_same(left, right),
        CompareOp::Ne => !marks_same(left, right),
        CompareOp::Lt => marks_below(left, right),
        CompareOp::Le => !marks_below(right, left),
        CompareOp::Gt => marks_below(right, left),
        CompareOp::Ge => !marks_below(left, right),
    }
}

// The same of truth values, of which false is the lesser.
fn compare_bits(op: CompareOp, left: u64, right: u64) -> u64
    ensures { (j : ℕ) → j < 64 → test result j ≡ is_met op (bool_cmp (test left j) (test right j)) }
{
    match op {
        CompareOp::Eq => !(left ^ right),
        CompareOp::Ne => left ^ right,
        CompareOp::Lt => !left & right,
        CompareOp::Le => !left | right,
        CompareOp::Gt => left & !right,
        CompareOp::Ge => left | !right,
    }
}

// The same of texts, of which the table has no two at different places.
fn compare_texts(
    op: CompareOp,
    left: &Places,
    right: &Places,
    texts: &TextTable,
    occupied: u64,
) -> u64
    requires left { AreTexts texts.now occupied left.now.lanes }
    requires right { AreTexts texts.now occupied right.now.lanes }
    ensures { (j : ℕ) → j < 64 → test occupied j ≡ true →
        test result j ≡ is_met op (text_order texts.now left.now.lanes right.now.lanes j) }
{
    match op {
        CompareOp::Eq => same_texts(left, right, texts, occupied),
        CompareOp::Ne => !same_texts(left, right, texts, occupied),
        _ => order_texts(op, left, right, texts, occupied),
    }
}

// At which rows the texts are the same. The table's length has the clause that its texts are distinct.
fn same_texts(left: &Places, right: &Places, texts: &TextTable, occupied: u64) -> u64
    requires left { AreTexts texts.now occupied left.now.lanes }
    requires right { AreTexts texts.now occupied right.now.lanes }
    ensures { (j : ℕ) → j < 64 → test occupied j ≡ true →
        test result j ≡ is_met CompareOp.Eq
        (text_order texts.now left.now.lanes right.now.lanes j) }
{
    let _distinct = texts.len();
    marks_same_places(left, right)
}

// The comparison row by row, by the texts' bytes.
fn order_texts(
    op: CompareOp,
    left: &Places,
    right: &Places,
    texts: &TextTable,
    occupied: u64,
) -> u64
    requires left { AreTexts texts.now occupied left.now.lanes }
    requires right { AreTexts texts.now occupied right.now.lanes }
    ensures { (j : ℕ) → j < 64 → test occupied j ≡ true →
        test result j ≡ is_met op (text_order texts.now left.now.lanes right.now.lanes j) }
{
    let mut word = 0;
    for j in 0..BLOCK {
        if is_marked(occupied, j) {
            let order = texts.text(left.lanes[j]).cmp(texts.text(right.lanes[j]));
            word = with_mark(word, j, is_true_of(op, order));
        }
    }
    word
}

// Whether the comparison is true of two values that compare so.
fn is_true_of(op: CompareOp, order: Ordering) -> bool
    ensures { result ≡ is_met op order }
{
    match op {
        CompareOp::Eq => order.is_eq(),
        CompareOp::Ne => order.is_ne(),
        CompareOp::Lt => order.is_lt(),
        CompareOp::Le => order.is_le(),
        CompareOp::Gt => order.is_gt(),
        CompareOp::Ge => order.is_ge(),
    }
}
