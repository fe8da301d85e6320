// The oldest judge: it drops what ends at or before the smallest of its cutoff and its notes, and keeps all above.

ghost use Rattle.std.specs.Prelude.{◌≡◌, ℕ, None, Option, refl};
ghost use Rattle.judges.specs.Kinds.{limit_kind};
ghost use Rattle.judges.specs.Lawful.{limit_laws};
ghost use Rattle.judges.specs.Shown.{limit_of};

use crate::Judge;
use stamps::Interval;

// It remembers one stamp: the smallest of the cutoff and the stamps noted since; none before the first clear.
#[derive(Clone, Copy)]
pub struct Oldest {
    limit: Option<u64>,
}

impl Oldest {
    // A judge that drops nothing before it is cleared.
    pub fn new() -> Oldest
        ensures { limit_of result ≡ None }
    {
        Oldest { limit: None }
    }
}

impl Judge for Oldest {
    const PLACES: usize = 1;

    ghost PLACES = { 1 };

    ghost Meaning = { Option ℕ };

    ghost means = { limit_of };

    ghost kind = { limit_kind };

    ghost laws = { limit_laws };

    ghost stated = { refl };

    fn clear(&mut self, cutoff: u64) {
        self.limit = Some(cutoff);
    }

    fn note(&mut self, stamp: u64) {
        self.limit = self.limit.map(|limit| limit.min(stamp));
    }

    fn ask(&self, interval: Interval) -> bool {
        self.limit
            .is_some_and(|limit| interval.is_ordered() && interval.ends_by(limit))
    }
}
