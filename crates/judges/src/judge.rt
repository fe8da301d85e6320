// What every judge promises, and how one is prepared for questions.

ghost use Rattle.std.specs.Prelude.{◌≡◌, ℕ, true};
ghost use Rattle.judges.specs.Kinds.{Kind, JudgeLaws, noted_all, prepared};
ghost use Rattle.judges.specs.Told.{keeping};

use stamps::Interval;

// A judge decides by its interval whether a version may be dropped.
//
// What a judge of some kind means is a value of the type `Meaning`; how the judge stores it is its own affair. The kind
// says how clear and note change a meaning and what it drops, and the laws bind it.
pub trait Judge {
    // How many notes a judge of this kind can take in before it may forget some.
    const PLACES: usize;

    // The same number, for contracts.
    ghost PLACES: { ℕ };

    // What a judge of this kind can mean.
    ghost Meaning: { Type 0 };

    // What this judge means now.
    ghost means: { Self → Meaning };

    // How clear and note change a meaning, what it drops, and how many notes it has places for.
    ghost kind: { Kind Meaning };

    // What binds every kind.
    ghost laws: { JudgeLaws kind };

    // The places of the kind are those that the constant states.
    ghost stated: { kind.places ≡ PLACES };

    // The constant `PLACES`.
    fn capacity() -> usize
        ensures { result ≡ kind.places }
    {
        Self::PLACES
    }

    // Starts anew, at a cutoff.
    fn clear(&mut self, cutoff: u64)
        ensures { means self.new ≡ kind.cleared (means self.old) cutoff };

    // The stamp of a session that may still read.
    fn note(&mut self, stamp: u64)
        ensures { means self.new ≡ kind.noted (means self.old) stamp };

    // Whether a version with this interval may be dropped.
    fn ask(&self, interval: Interval) -> bool
        ensures { result ≡ kind.drops (means self.now) interval };
}

// A thorough judge also tells why it keeps a version.
pub trait Thorough: Judge {
    // The smallest noted stamp inside an interval that ends at or before the cutoff; none elsewhere, and none once the
    // judge was told more than it has places for.
    fn keeping_stamp(&self, interval: Interval) -> Option<u64>
        ensures { result ≡ keeping (Self.Judge.kind.told (Self.Judge.means self.now)) interval };

    // It is thorough, whatever it means.
    ghost always: { (m : Self.Judge.Meaning) → Self.Judge.kind.thorough m ≡ true };
}

// Clears a judge at a cutoff and tells it the stamps of a scan.
pub fn prepare<J: Judge>(judge: &mut J, cutoff: u64, scan: &[u64])
    ensures { J.Judge.means judge.new ≡ prepared J.Judge.kind (J.Judge.means judge.old) cutoff scan.now }
{
    judge.clear(cutoff);
    note_all(judge, scan);
}

// Tells a judge the stamps of a scan, one after the other.
fn note_all<J: Judge>(judge: &mut J, scan: &[u64])
    ensures { J.Judge.means judge.new ≡ noted_all J.Judge.kind (J.Judge.means judge.old) scan.now }
{
    for stamp in scan {
        judge.note(*stamp);
    }
}
