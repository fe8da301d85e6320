// The law speaks of the judges that the code has.

ghost use Rattle.laws.specs.Brought.{IsAJudge};

use judges::Judge;

// It does nothing: its contract is that every judge of every kind, whatever it means when a compaction step brings it,
// is a judge as the rules of compaction and the schedule law have it: lawful, and thorough where its kind says so.
pub fn judges_are_lawful<J: Judge>()
    ensures { (m : J.Judge.Meaning) → IsAJudge J.Judge.kind m }
{}
