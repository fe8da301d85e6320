// A few stamps, kept in an order of their keeper's choice.

ghost use Rattle.std.specs.Prelude.{◌≡◌, ℕ, List, [], if◌then◌else◌};
ghost use Rattle.stamps.specs.Intervals.{none_inside, smallest_inside};
ghost use Rattle.stamps.specs.Rising.{insert};
ghost use Rattle.stamps.specs.Kept.{has_room, taken_in};

use crate::Interval;
use std::error::Error;
use std::fmt;

// Every place is taken.
#[derive(Clone, Copy, PartialEq, Eq, Debug)]
pub struct Full;

impl fmt::Display for Full {
    ghost use Rattle.std.specs.Prelude.{Some, codes};

    ghost output = { λ _. Some (codes "no place is left") };

    fn fmt<W: fmt::Write>(&self, f: &mut fmt::Formatter<W>) -> fmt::Result {
        f.write_str("no place is left")
    }
}

impl Error for Full {}

// Room for `MOST_STAMPS` stamps; each may be there more than once.
pub trait Stamps: Sized {
    // The stamps that are kept, in rising order.
    ghost kept: { Self → List ℕ };

    // No stamps.
    fn none() -> Self
        ensures { kept result ≡ [] };

    // One stamp more; refused where every place is taken.
    fn add(&mut self, stamp: u64) -> Result<(), Full>
        ensures room { result ≡ taken_in (kept self.old) }
        ensures after { kept self.new ≡ (if has_room (kept self.old) then insert stamp (kept self.old) else kept self.old) };

    // The smallest stamp inside an interval.
    fn smallest_inside(&self, interval: Interval) -> Option<u64>
        ensures { result ≡ smallest_inside (kept self.now) interval };

    // Whether no stamp lies inside an interval.
    #[tactic(auto, using(crate::proofs::Smallest::none_without_smallest))]
    fn none_inside(&self, interval: Interval) -> bool
        ensures { result ≡ none_inside (kept self.now) interval }
    {
        self.smallest_inside(interval).is_none()
    }
}
