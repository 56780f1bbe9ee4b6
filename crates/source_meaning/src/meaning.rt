//! What a program means is said in `specs/`. `Store` has the cells and `Term` the code of a
//! thread; `Next` says what one step does, `Code` how the typed tree becomes code, `Run` how
//! threads step in any order, and `Trace` what one thread does by itself. Worked examples stand
//! in `proofs/Worked/`, each with what it prints or where it traps.

ghost use Rattle.source_meaning.specs.Laws.{AfterJoined, LegalJoined, StepsCommute, UnseenRun, RunOfPart};

/// The laws of runs. It does nothing when it runs.
pub fn laws_of_runs()
    ensures joined { AfterJoined }
    ensures legal_joined { LegalJoined }
    ensures commuting { StepsCommute }
    ensures unseen { UnseenRun }
    ensures part { RunOfPart }
{}
