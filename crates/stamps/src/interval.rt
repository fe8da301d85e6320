// The stamps for which a version is the answer.

ghost use Rattle.std.specs.Prelude.{◌≡◌};
ghost use Rattle.stamps.specs.Intervals.{starts_by, inside, ordered, ends_by};

// From `start`, the version's own stamp, up to but without `end`, the stamp of the next newer version.
#[derive(Clone, Copy)]
pub struct Interval {
    pub start: u64,
    pub end: u64,
}

impl Interval {
    // Whether it starts at or before a stamp.
    pub fn starts_by(self, stamp: u64) -> bool
        ensures { result ≡ starts_by stamp self }
    {
        self.start <= stamp
    }

    // Whether a stamp lies inside.
    pub fn contains(self, stamp: u64) -> bool
        ensures { result ≡ inside stamp self }
    {
        self.starts_by(stamp) && stamp < self.end
    }

    // Whether the start is at most the end.
    pub fn is_ordered(self) -> bool
        ensures { result ≡ ordered self }
    {
        self.start <= self.end
    }

    // Whether it ends at or before a cutoff.
    pub fn ends_by(self, cutoff: u64) -> bool
        ensures { result ≡ ends_by cutoff self }
    {
        self.end <= cutoff
    }
}
