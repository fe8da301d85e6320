// What follows from the definitions and from the laws of the trait, proved for all values.

ghost use Rattle.std.specs.Prelude.{◌≡◌, ℕ, ◌≤◌, true, List, length};
ghost use Rattle.judges.specs.Kinds.{prepared};
ghost use Rattle.judges.specs.Laws.{KeptForAStamp, NotesUnordered, LimitIsSmallest, WorkedValues};
ghost use Rattle.stamps.specs.Intervals.{obsolete};
ghost use Rattle.stamps.specs.declared.Interval.{Interval};

use crate::Judge;

// It does nothing: its contract is the laws of the judges built here.
#[tactic(auto, using(crate::proofs::Consequences::kept_for_a_stamp, crate::proofs::Consequences::notes_unordered, crate::proofs::Consequences::limit_after))]
pub fn laws_of_judges()
    ensures reason { KeptForAStamp }
    ensures unordered { NotesUnordered }
    ensures limit { LimitIsSmallest }
    ensures worked { WorkedValues }
{}

// It does nothing: its contract is the law of any judge that was prepared. Whatever it meant before, it drops only
// obsolete intervals; a thorough one with a place for each stamp drops exactly these.
#[tactic(auto, using(crate::proofs::Prepared::prepared_lawful, crate::proofs::Prepared::prepared_exact))]
pub fn law_of_prepared<J: Judge>()
    ensures lawful { (m : J.Judge.Meaning) (t : ℕ) (scan : List ℕ) (i : Interval) → J.Judge.kind.drops (prepared J.Judge.kind m t scan) i ≡ true → obsolete t scan i ≡ true }
    ensures exact { (m : J.Judge.Meaning) (t : ℕ) (scan : List ℕ) (i : Interval) → J.Judge.kind.thorough m ≡ true → length scan ≤ J.Judge.kind.places → J.Judge.kind.drops (prepared J.Judge.kind m t scan) i ≡ obsolete t scan i }
{}
