// The laws of what admission keeps.
ghost use Rattle.std.specs.Prelude.{◌≡◌, ◌≢◌, ℕ, Bool, List, Ok};
ghost use Rattle.std.specs.List.{All};
ghost use Rattle.tw_rows.specs.Texts.{BeginsWith};
ghost use Rattle.tw_rows.specs.declared.edge.Edge.{Edge};
ghost use Rattle.tw_rows.specs.declared.schema.StreamDef.{StreamDef};
ghost use Rattle.plan_laws.specs.Standing.{SourcesStandRead};
ghost use Rattle.row_reader.specs.Entry.{entry};
ghost use Rattle.row_reader.specs.declared.entry.Entry.{Entry};
ghost use Rattle.row_reader.specs.Printed.{IsEnd};
ghost use Rattle.admission.specs.Admission.{Admission, nothing, Taken, admit, allowed, rows};
ghost use Rattle.admission.specs.declared.policy.Policy.{Policy};
ghost use Rattle.ingress.specs.Fits.{Fits, stream_cells};
ghost use Rattle.ingress.specs.Times.{HasEventTimes, IsTimed};
ghost use Rattle.ingress.specs.Admits.{IsFor, SameFixed, Follows, Admits};
ghost use Rattle.ingress.specs.declared.ingress.Ingress.{Ingress as Kept};

/// The edges that were released stand, read, for the admitted rows of each stream below the last punctuation.
pub fn released_edges_stand_read()
    ensures { (texts : List (List ℕ)) (a : Admission) (given : ℕ → List Edge) (i : Kept) →
        Follows texts a given i → SourcesStandRead texts i.released (rows a) given }
{}

/// A table that grows changes nothing of what is kept.
pub fn kept_lines_stay_in_longer_tables()
    ensures follows { (texts more : List (List ℕ)) (a : Admission) (given : ℕ → List Edge)
        (i : Kept) → BeginsWith more texts → Follows texts a given i → Follows more a given i }
    ensures admits { (texts more : List (List ℕ)) (a : Admission) (given : ℕ → List Edge)
        (i : Kept) → BeginsWith more texts → Admits texts a given i → Admits more a given i }
{}

/// The streams, the policy and the capacity stay.
pub fn fixed_parts_stay()
    ensures { (streams : List StreamDef) (rules : Policy) (capacity : ℕ) (old new : Kept) →
        SameFixed old new → IsFor streams rules capacity old → IsFor streams rules capacity new }
{}

/// What a line without LF says fits the streams.
pub fn lines_fit_their_streams()
    ensures { (streams : List StreamDef) (first : Bool) (line : List ℕ) (e : Entry) →
        All (λ b. b ≢ 10) line → entry streams first line ≡ Ok e → Fits (stream_cells streams) e }
{}

/// The times that a line without LF says are event times, or infinity where it may say that; what is admitted of such lines has
/// such times alone, and so do the punctuations that are due. So whatever is saved between lines has them.
pub fn event_times_stay()
    ensures lines { (streams : List StreamDef) (first : Bool) (line : List ℕ) (e : Entry) →
        All (λ b. b ≢ 10) line → entry streams first line ≡ Ok e → HasEventTimes e }
    ensures none { IsTimed nothing }
    ensures next { (policy : Policy) (a b : Admission) (e : Entry) →
        IsTimed a → HasEventTimes e → admit policy a e ≡ Taken b → IsTimed b }
    ensures due { (policy : Policy) (streams : ℕ) (a : Admission) → IsTimed a →
        IsEnd (allowed policy streams a) }
{}
