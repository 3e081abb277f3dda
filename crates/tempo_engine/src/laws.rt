// The laws of engines. Each is a function that does nothing; its clauses are the law.
ghost use Rattle.std.specs.Prelude.{ℕ, false, List, length};
ghost use Rattle.tw_rows.specs.declared.edge.Edge.{Edge};
ghost use Rattle.plan_model.specs.IsPlan.{PlanParts};
ghost use Rattle.plan_laws.specs.Places.{AreDistinct};
ghost use Rattle.plan_laws.specs.Standing.{AllStandRead};
ghost use Rattle.admission.specs.declared.policy.Policy.{Policy};
ghost use Rattle.admission.specs.Admission.{rows};
ghost use Rattle.admission.specs.Entries.{Told};
ghost use Rattle.admission.specs.Progress.{progress};
ghost use Rattle.frozen_state.specs.Frozen.{FrozenView};
ghost use Rattle.tempo_engine.specs.Fed.{FedBy};
ghost use Rattle.tempo_engine.specs.Frozen.{Fits, IsState};
ghost use Rattle.tempo_engine.specs.Went.{EngineView};

use dataflow::answers_stand;

/// What each node answered of the lines stands for its events, read, below its closing at the last punctuation.
pub fn answers_of_lines_stand()
    ensures { (plan : PlanParts) (policy : Policy) (lines : List Told) (given lists : ℕ → List Edge)
        (e : EngineView) → AreDistinct e.parts.texts → FedBy plan policy lines given lists e →
        AllStandRead e.parts.texts plan.nodes (progress plan policy lines false).last
        (rows (progress plan policy lines false).after) lists (length plan.nodes) }
{
    answers_stand();
}

/// What fits lines is a state, so that an engine can be made of it.
pub fn what_fits_is_a_state()
    ensures { (workers : ℕ) (plan : PlanParts) (policy : Policy) (lines : List Told)
        (f : FrozenView) → Fits workers plan policy lines f → IsState workers plan f }
{}
