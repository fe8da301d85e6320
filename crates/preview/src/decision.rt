// What a judge decides on one version.

ghost use Rattle.std.specs.Prelude.{◌≡◌, not};
ghost use Rattle.preview.specs.Walk.{decided, asked_about, interval_from, newer_below};

use judges::Judge;
use stamps::Interval;

// A version's stamp, the stamp of the next newer version that stays, if there is one, and whether the version is dropped.
//
// The flag is what was decided, and does not say whether there is a newer version; `Decision::by` never drops the newest.
// An enum of the newest version and the others would be no plainer: all have a stamp, and the walk down the versions wants
// the same fields of each.
#[derive(Clone, Copy)]
pub struct Decision {
    pub stamp: u64,
    pub newer: Option<u64>,
    pub dropped: bool,
}

impl Decision {
    // The newest version stays; any other is asked about by its interval.
    pub fn by<J: Judge>(judge: &J, stamp: u64, newer: Option<u64>) -> Decision
        ensures { result ≡ decided (J.Judge.kind.drops (J.Judge.means judge.now)) stamp newer }
    {
        let dropped = interval_from(stamp, newer).is_some_and(|interval| judge.ask(interval));
        Decision {
            stamp,
            newer,
            dropped,
        }
    }

    // The interval that a judge is asked about; none for the newest version.
    pub fn interval(self) -> Option<Interval>
        ensures { result ≡ asked_about self }
    {
        interval_from(self.stamp, self.newer)
    }

    // The next newer version that stays, for the version below this one.
    pub fn newer_below(self) -> Option<u64>
        ensures { result ≡ newer_below self }
    {
        if self.dropped {
            self.newer
        } else {
            Some(self.stamp)
        }
    }

    // Whether the version stays.
    pub fn stays(self) -> bool
        ensures { result ≡ not self.dropped }
    {
        !self.dropped
    }
}

// From a version's own stamp up to that of the next newer version, if there is one.
fn interval_from(start: u64, newer: Option<u64>) -> Option<Interval>
    ensures { result ≡ interval_from start newer }
{
    newer.map(|end| Interval { start, end })
}
