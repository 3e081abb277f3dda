// The laws of what is planned. Each is a function that does nothing; its clauses are the law.
ghost use Rattle.std.specs.Prelude.{ℕ, ◌≡◌, List};
ghost use Rattle.plan_model.specs.IsPlan.{PlanParts, IsPlan};
ghost use Rattle.query_text.specs.declared.query.Query.{Query};
ghost use Rattle.query_text.specs.declared.query.QueryStep.{QueryStep};
ghost use Rattle.query_plan.specs.Draft.{Draft, Planned, admitted};
ghost use Rattle.query_plan.specs.Faults.{first_fault, fault_of, step_rows, node_rows};
ghost use Rattle.query_plan.specs.Planned.{planned};
ghost use Rattle.query_plan.specs.Steps.{step_nodes};

/// What is planned for a query is a plan. Its nodes read nodes of lower numbers, its sources streams of the query, and
/// expressions, keys and aggregates fit the columns that they are over. Windows repeat and divide, what changes lifetimes
/// stands over events, and no plan reaches too far or is too large. The root is one of the nodes.
pub fn plans_keep_their_rules()
    ensures { (q : Query) (p : PlanParts) → planned q ≡ Ok p → IsPlan p }
{}

/// Faults come in one order, that of the table in `specs/Faults`: a step has the fault of the first row that holds of it by
/// itself, of names, kinds, levels and windows; where none does, its nodes have that of the first row that holds of them, of
/// reach, number, columns and names. Where no row holds there is no fault.
pub fn faults_are_told_in_order()
    ensures steps { (item : ℕ) (d : Draft) (at : ℕ) (s : QueryStep) →
        fault_of (step_nodes item d at s) ≡ first_fault (step_rows item d at s) }
    ensures nodes { (item : ℕ) (d : Draft) (ps : List Planned) →
        fault_of (admitted item d ps) ≡ first_fault (node_rows item d ps) }
{}
