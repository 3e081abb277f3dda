// Laws of runs. Each is a function that does nothing; its clauses are the law.
ghost use Rattle.std.specs.Prelude.{◌≡◌, ◌⊎◌, ◌<◌, ◌≤◌, ◌++◌, ℕ, Bool, List, length, None, true, false, All};
ghost use Rattle.wire_lines.specs.Lines.{HasNoLf};
ghost use Rattle.admission.specs.Entries.{Told, AreRead};
ghost use Rattle.admission.specs.declared.policy.Policy.{Policy};
ghost use Rattle.tempo_engine.specs.Output.{plan_text};
ghost use Rattle.tempo_cli.specs.Told.{answers, fed};
ghost use Rattle.tempo_cli.specs.Resumed.{later, resumed};
ghost use Rattle.wire_lines.specs.Journal.{Entry, ins, ended};
ghost use Rattle.wire_lines.specs.Faults.{Rose};
ghost use Rattle.wire_lines.specs.Lines.{lines};
ghost use Rattle.tempo_cli.specs.Answers.{Answers, IsFinal};
ghost use Rattle.plan_model.specs.IsPlan.{PlanParts, IsPlan};
ghost use Rattle.command_line.specs.Words.{Asked};
ghost use Rattle.tempo_cli.specs.Jobs.{Job, IsJob, Tells, DoesMode, IsCheckpointOf, HasFroze};
ghost use Rattle.tempo_cli.specs.Restoring.{AreFront};
ghost use Rattle.command_line.specs.declared.words.Mode.TheVariants.{Resume};
ghost use Rattle.tempo_cli.specs.Summing.{Sums};
ghost use Rattle.tempo_cli.specs.Freezing.{Freezes};
ghost use Rattle.tempo_cli.specs.declared.status.Status.{Status};
ghost use Rattle.tempo_cli.specs.declared.status.Status.TheVariants.{Done, Memory};
ghost use Rattle.tempo_cli.specs.Table.{limit, Ends};
ghost use Rattle.tempo_cli.specs.Status.{Counts};

/// Words ask for one job: they are not taken, or their query has a fault, or it has a plan.
#[tactic(auto, using(crate::proofs::Jobs::some_job, crate::proofs::Jobs::one_job))]
pub fn words_ask_for_one_job()
    ensures some { (words : List (List ℕ)) → (job : Job) × IsJob words job }
    ensures one { (words : List (List ℕ)) (j k : Job) → IsJob words j → IsJob words k → j ≡ k }
{}

/// Where no line has a fault, the input has at most 2^40 bytes and no call of the wire failed, a run ends Done, or out of
/// memory: where a query is answered, also up to a checkpoint or on from one, where its plan or its cuts are told, and where its answer to
/// generated lines is summed up.
#[tactic(auto, using(crate::proofs::Jobs::complete, crate::proofs::Jobs::complete_frozen, crate::proofs::Jobs::complete_told, crate::proofs::Jobs::complete_summed))]
pub fn runs_are_complete()
    ensures answered { (a : Answers) (status : Status) (J : List Entry)
        (reads reads' writes writes' : ℕ) → Ends a status J →
        Counts reads reads' writes writes' status →
        a.fault (lines (ins J) (ended J)) (ended J) ≡ None → length (ins J) ≤ limit →
        (Rose reads reads' → ⊥) → (Rose writes writes' → ⊥) → (status ≡ Done) ⊎ (status ≡ Memory) }
    ensures frozen { (asked : Asked) (plan : PlanParts) (status : Status) (J : List Entry)
        (reads reads' writes writes' : ℕ) → let a = answers plan asked.policy asked.header in
        Freezes a (HasFroze asked plan) status J → Counts reads reads' writes writes' status →
        a.fault (lines (ins J) (ended J)) false ≡ None → length (ins J) ≤ limit →
        (Rose reads reads' → ⊥) → (Rose writes writes' → ⊥) → (status ≡ Done) ⊎ (status ≡ Memory) }
    ensures resumed { (asked : Asked) (plan : PlanParts) (before : List Told) (C : List (List ℕ))
        (status : Status) (J : List Entry) (reads reads' writes writes' : ℕ) →
        let a = resumed plan asked.policy before (length C) in DoesMode Resume asked plan status J →
        Counts reads reads' writes writes' status → IsCheckpointOf asked plan before C →
        AreFront C (lines (ins J) (ended J)) → a.fault (lines (ins J) (ended J)) (ended J) ≡ None →
        length (ins J) ≤ limit → (Rose reads reads' → ⊥) → (Rose writes writes' → ⊥) →
        (status ≡ Done) ⊎ (status ≡ Memory) }
    ensures told { (text : List ℕ) (status : Status) (J : List Entry)
        (reads reads' writes writes' : ℕ) → Tells text status J →
        Counts reads reads' writes writes' status → (Rose writes writes' → ⊥) →
        (status ≡ Done) ⊎ (status ≡ Memory) }
    ensures summed { (a : Answers) (lines : List (List ℕ)) (status : Status) (J : List Entry)
        (reads reads' writes writes' : ℕ) → Sums a lines status J →
        Counts reads reads' writes writes' status → a.fault lines true ≡ None →
        (Rose writes writes' → ⊥) → (status ≡ Done) ⊎ (status ≡ Memory) }
{}

/// What is asked of a run that goes on from a checkpoint is final: what it wrote stays, whatever lines follow.
#[tactic(auto, using(crate::proofs::Behind::resumed_final))]
pub fn resumed_runs_are_final()
    ensures { (plan : PlanParts) → IsPlan plan → (policy : Policy) (before : List Told) →
        AreRead (length plan.streams) before → (k : ℕ) → IsFinal (resumed plan policy before k) }
{}

/// What the run before a checkpoint wrote and what the one behind it writes are the text of the lines of both.
#[tactic(auto, using(crate::proofs::Behind::both_texts))]
pub fn both_runs_write_all()
    ensures { (plan : PlanParts) → IsPlan plan →
        (policy : Policy) (before : List Told) (k : ℕ) (lines : List (List ℕ)) (ended : Bool) →
        AreRead (length plan.streams) before → All HasNoLf lines →
        plan_text plan policy before false ++ (resumed plan policy before k).text lines ended
        ≡ plan_text plan policy (before ++ later plan.streams before k lines) ended }
{}

/// A run that is cut in two writes what the whole one does. A are the lines of the first part, behind the header where there is
/// one at least one more; C those of the checkpoint, and B those of the second part.
#[tactic(auto, using(crate::proofs::Behind::one_run))]
pub fn runs_in_two_write_as_one()
    ensures { (plan : PlanParts) → IsPlan plan →
        (policy : Policy) (header : Bool) (A B C : List (List ℕ)) (ended : Bool) → All HasNoLf A →
        All HasNoLf B → (header ≡ true → 1 < length A) →
        (answers plan policy header).fault A false ≡ None →
        (answers plan policy header).text A false ++
        (resumed plan policy (fed plan.streams header A) (length C)).text (C ++ B) ended
        ≡ (answers plan policy header).text (A ++ B) ended }
{}
