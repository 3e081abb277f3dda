// The laws of what an output holds.
ghost use Rattle.std.specs.Prelude.{ℕ, List};
ghost use Rattle.tw_rows.specs.Texts.{BeginsWith};
ghost use Rattle.tw_rows.specs.declared.edge.Edge.{Edge};
ghost use Rattle.plan_laws.specs.Places.{EdgesArePlaced};
ghost use Rattle.egress.specs.declared.egress.Egress.{Egress};
ghost use Rattle.egress.specs.Output.{Holds, IsPlacedIn};

/// A table that grows changes nothing of an output whose places are in it.
pub fn outputs_read_longer_tables()
    ensures holds { (new old : List (List ℕ)) → BeginsWith new old →
        (h : List Edge) (a c : ℕ) (o : Egress) → EdgesArePlaced old h → Holds old h a c o →
        Holds new h a c o }
    ensures placed { (new old : List (List ℕ)) → BeginsWith new old → (o : Egress) →
        IsPlacedIn old o → IsPlacedIn new o }
{}
