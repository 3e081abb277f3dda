// The laws of arithmetic, of comparisons and of truth values in expressions. Each is a function that does nothing; its
// clauses are the law. `at` gives the values of an operator's operands by their numbers.
ghost use Rattle.std.specs.Prelude.{◌≡◌, ◌≢◌, ◌↔◌, ◌⊎◌, ℕ, ◌<◌, ◌≤◌, ◌^◌, ℤ, pos, ◌+ℤ◌, ◌-ℤ◌};
ghost use Rattle.std.specs.Prelude.{◌*ℤ◌, ◌<ℤ◌, neg_ℤ, List, IsTrue, FitsSigned, Bool, true};
ghost use Rattle.std.specs.Prelude.{false};
ghost use Rattle.std.specs.Int.{w64};
ghost use Rattle.tw_rows.specs.Rows.{Row};
ghost use Rattle.tw_rows.specs.declared.row.Value.{Value};
ghost use Rattle.tw_rows.specs.declared.row.Value.TheVariants.{Int, Bool as Flag, Text};
ghost use Rattle.plan_model.specs.declared.expr.ArithOp.{ArithOp};
ghost use Rattle.plan_model.specs.declared.expr.CompareOp.{CompareOp};
ghost use Rattle.plan_model.specs.declared.expr.ExprNode.{ExprNode};
ghost use Rattle.plan_model.specs.Arithmetic.{IsWrapped, IsDivided, StandsBefore};
ghost use Rattle.plan_model.specs.Expr.{int_of, flag_of, int_node, flag_node};

/// Sums, differences, products and negations wrap: each is the one number of an i64 that is congruent modulo 2^64 to the
/// exact result.
pub fn arithmetic_wraps()
    ensures sum { (row : Row) (at : ℕ → Value) (left right : ℕ) →
        IsWrapped (int_node row at (ExprNode.Arith ArithOp.Add left right))
        (int_of (at left) +ℤ int_of (at right)) }
    ensures difference { (row : Row) (at : ℕ → Value) (left right : ℕ) →
        IsWrapped (int_node row at (ExprNode.Arith ArithOp.Sub left right))
        (int_of (at left) -ℤ int_of (at right)) }
    ensures product { (row : Row) (at : ℕ → Value) (left right : ℕ) →
        IsWrapped (int_node row at (ExprNode.Arith ArithOp.Mul left right))
        (int_of (at left) *ℤ int_of (at right)) }
    ensures negation { (row : Row) (at : ℕ → Value) (of : ℕ) →
        IsWrapped (int_node row at (ExprNode.Neg of)) (neg_ℤ (int_of (at of))) }
    ensures one { (r s z : ℤ) → IsWrapped r z → IsWrapped s z → r ≡ s }
{}

/// Division rounds so that `by * (x div by) + x mod by` is `x` and the rest is from 0 to `by` - 1, for every `by` from 1
/// on. There is one such quotient and one such rest, and of a number of an i64 both are numbers of an i64.
pub fn division_is_euclidean()
    ensures divided { (row : Row) (at : ℕ → Value) (of by : ℕ) → 1 ≤ by →
        IsDivided (int_of (at of)) (pos by) (int_node row at (ExprNode.Div of by))
        (int_node row at (ExprNode.Mod of by)) }
    ensures one { (x : ℤ) (by : ℕ) (q p r s : ℤ) →
        IsDivided x (pos by) q r → IsDivided x (pos by) p s → (q ≡ p) × (r ≡ s) }
    ensures quotient_fits { (row : Row) (at : ℕ → Value) (of by : ℕ) →
        1 ≤ by → FitsSigned w64 (int_of (at of)) →
        FitsSigned w64 (int_node row at (ExprNode.Div of by)) }
    ensures rest_fits { (row : Row) (at : ℕ → Value) (of by : ℕ) → 1 ≤ by → by < 2 ^ 63 →
        FitsSigned w64 (int_node row at (ExprNode.Mod of by)) }
{}

/// Comparisons go by the order of values: ints as numbers, false before true, texts by their bytes.
pub fn comparisons_agree()
    ensures equal { (row : Row) (at : ℕ → Value) (left right : ℕ) →
        IsTrue (flag_node row at (ExprNode.Compare CompareOp.Eq left right))
        ↔ (at left ≡ at right) }
    ensures not_equal { (row : Row) (at : ℕ → Value) (left right : ℕ) →
        IsTrue (flag_node row at (ExprNode.Compare CompareOp.Ne left right))
        ↔ (at left ≢ at right) }
    ensures less_int { (row : Row) (at : ℕ → Value) (left right : ℕ) (x y : ℤ) →
        at left ≡ Int x → at right ≡ Int y →
        IsTrue (flag_node row at (ExprNode.Compare CompareOp.Lt left right)) ↔ (x <ℤ y) }
    ensures less_bool { (row : Row) (at : ℕ → Value) (left right : ℕ) (a b : Bool) →
        at left ≡ Flag a → at right ≡ Flag b →
        IsTrue (flag_node row at (ExprNode.Compare CompareOp.Lt left right))
        ↔ ((a ≡ false) × (b ≡ true)) }
    ensures less_text { (row : Row) (at : ℕ → Value) (left right : ℕ) (s t : List ℕ) →
        at left ≡ Text s → at right ≡ Text t →
        IsTrue (flag_node row at (ExprNode.Compare CompareOp.Lt left right)) ↔ StandsBefore s t }
    ensures greater { (row : Row) (at : ℕ → Value) (left right : ℕ) →
        IsTrue (flag_node row at (ExprNode.Compare CompareOp.Gt left right))
        ↔ IsTrue (flag_node row at (ExprNode.Compare CompareOp.Lt right left)) }
    ensures at_most { (row : Row) (at : ℕ → Value) (left right : ℕ) →
        IsTrue (flag_node row at (ExprNode.Compare CompareOp.Le left right))
        ↔ ¬ (IsTrue (flag_node row at (ExprNode.Compare CompareOp.Lt right left))) }
    ensures at_least { (row : Row) (at : ℕ → Value) (left right : ℕ) →
        IsTrue (flag_node row at (ExprNode.Compare CompareOp.Ge left right))
        ↔ ¬ (IsTrue (flag_node row at (ExprNode.Compare CompareOp.Lt left right))) }
{}

/// `not`, `and` and `or` are the logical ones.
pub fn connectives_are_logical()
    ensures negation { (row : Row) (at : ℕ → Value) (of : ℕ) →
        IsTrue (flag_node row at (ExprNode.Not of)) ↔ ¬ (IsTrue (flag_of (at of))) }
    ensures conjunction { (row : Row) (at : ℕ → Value) (left right : ℕ) →
        IsTrue (flag_node row at (ExprNode.And left right))
        ↔ (IsTrue (flag_of (at left)) × IsTrue (flag_of (at right))) }
    ensures disjunction { (row : Row) (at : ℕ → Value) (left right : ℕ) →
        IsTrue (flag_node row at (ExprNode.Or left right))
        ↔ (IsTrue (flag_of (at left)) ⊎ IsTrue (flag_of (at right))) }
{}
