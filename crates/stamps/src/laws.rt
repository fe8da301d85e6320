// What follows from the definitions on stamps, proved for all values.

ghost use Rattle.std.specs.Prelude.{◌≡◌};
ghost use Rattle.stamps.specs.Laws.{SmallestIsSmallest, SortedRises, SortedHasTheSame};

use crate::MOST_STAMPS;

// It does nothing: its contract is the laws.
#[tactic(auto, using(crate::proofs::Consequences::smallest_is_smallest, crate::proofs::Consequences::sorted_rises, crate::proofs::Consequences::sorted_has_the_same))]
pub fn laws_of_stamps()
    ensures smallest { SmallestIsSmallest }
    ensures rises { SortedRises }
    ensures same { SortedHasTheSame }
    ensures places { MOST_STAMPS ≡ 16 }
{}
