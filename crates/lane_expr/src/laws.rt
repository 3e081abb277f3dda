// The law of kernels over growing tables. It is a function that does nothing; its clauses are the law.
ghost use Rattle.std.specs.Prelude.{ℕ, List};
ghost use Rattle.tw_rows.specs.Texts.{BeginsWith};
ghost use Rattle.plan_model.specs.declared.expr.ExprNode.{ExprNode};
ghost use Rattle.lane_expr.specs.Kernels.{Program, IsKernelOf};

/// A kernel computes its expression with every table of texts that begins with the one that `compile` left.
pub fn kernels_keep_their_expression()
    ensures { (texts more : List (List ℕ)) (expr : List ExprNode) (k : Program) →
        BeginsWith more texts → IsKernelOf texts expr k → IsKernelOf more expr k }
{}
