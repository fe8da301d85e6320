// What every preview promises, whichever judge decides.

ghost use Rattle.std.specs.Prelude.{◌≡◌, ℕ, ◌+◌, ◌≤◌, true, ◌⊎◌, List, length, None};
ghost use Rattle.judges.specs.Kinds.{prepared};
ghost use Rattle.preview.specs.Laws.{read_at, count_upto, falling, LinesTellVerdicts};
ghost use Rattle.preview.specs.Walk.{walk, left};
ghost use Rattle.stamps.specs.Laws.{among};

use judges::Judge;

// It does nothing: its contract is the law of previews.
//
// A session whose stamp the judge was told, and any session at or above the cutoff, reads of what stays a version
// with the stamp that it read before, or none as before. A thorough judge with a place for each session leaves, of
// versions whose stamps never rise going down, at most one more than there are sessions among those up to the cutoff.
pub fn law_of_previews<J: Judge>()
    ensures reads { (m : J.Judge.Meaning) (t : ℕ) (sessions versions : List ℕ) (session : ℕ) → (among session sessions ≡ true) ⊎ (t ≤ session) → read_at session (left (walk (J.Judge.kind.drops (prepared J.Judge.kind m t sessions)) None versions)) ≡ read_at session versions }
    ensures space { (m : J.Judge.Meaning) (t : ℕ) (sessions versions : List ℕ) → J.Judge.kind.thorough m ≡ true → length sessions ≤ J.Judge.kind.places → falling versions ≡ true → count_upto t (left (walk (J.Judge.kind.drops (prepared J.Judge.kind m t sessions)) None versions)) ≤ length sessions + 1 }
{}

// It does nothing: its contract is the law of verdicts.
#[tactic(auto, using(crate::proofs::Wording::lines_tell_verdicts))]
pub fn law_of_verdicts()
    ensures { LinesTellVerdicts }
{}
