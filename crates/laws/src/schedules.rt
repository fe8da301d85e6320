// The schedule law, as the contract of a call.

ghost use Rattle.laws.specs.Law.{OneOrder, LittleIsLeft, ReadsAreShort, NothingLost, NothingReused, NothingImpossible, ChoiceIsFree};

// It does nothing: its contract is the schedule law, for every value type that can be copied.
//
// Take any list of session, read, write, compaction and abandon calls of the workers, granted and refused, in any
// order, from a made store, with any lawful judges and any choice of free nodes.
pub fn schedule_law<V: Copy>()
    ensures order { OneOrder V }
    ensures space { LittleIsLeft V }
    ensures patience { ReadsAreShort V }
    ensures nodes { NothingLost V }
    ensures reuse { NothingReused V }
    ensures possible { NothingImpossible V }
    ensures choice { ChoiceIsFree V }
{}
