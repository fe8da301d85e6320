// What the rising row of stamps does.

ghost use Rattle.std.specs.Prelude.{◌≡◌, ◌≤◌, true, length, nat_le, nat_lt};
ghost use Rattle.stamps.specs.Intervals.{starts_by, smallest_inside};
ghost use Rattle.stamps.specs.Kept.{as_they_rise};
ghost use Rattle.stamps.specs.Rising.{insert, rising};
ghost use Rattle.std.specs.List as list;
ghost use Rattle.std.specs.List.{find};

use super::RisingStamps;
use crate::row::Row;
use crate::{Full, Interval, Stamps};

impl Stamps for RisingStamps {
    ghost kept = { as_they_rise };

    fn none() -> RisingStamps {
        RisingStamps { stamps: Row::new() }
    }

    #[tactic(auto, using(crate::proofs::Inserting::rising_insert))]
    fn add(&mut self, stamp: u64) -> Result<(), Full> {
        let place = place_of(self.stamps.as_slice(), stamp);
        self.stamps.insert(place, stamp)
    }

    fn smallest_inside(&self, interval: Interval) -> Option<u64> {
        first_inside(self.stamps.as_slice(), interval)
    }
}

// Where one stamp more goes in among rising stamps: behind all that are at most as large. Here and below, closures say
// what they answer, so that a wrong one is refused at its own line.
fn place_of(stamps: &[u64], stamp: u64) -> usize
    requires { rising stamps.now ≡ true }
    ensures within { result ≤ length stamps.now }
    ensures rises { list.insert stamps.now result stamp ≡ insert stamp stamps.now }
{
    stamps.partition_point(
        |kept: &u64| -> bool
            ensures { result ≡ nat_le kept.now stamp }
        { *kept <= stamp },
    )
}

// The smallest of some rising stamps that lies inside an interval: the first that is not below its start decides.
fn first_inside(stamps: &[u64], interval: Interval) -> Option<u64>
    requires { rising stamps.now ≡ true }
    ensures { result ≡ smallest_inside stamps.now interval }
{
    first_from_start(stamps, interval).filter(
        |stamp: &u64| -> bool
            ensures { result ≡ nat_lt stamp.now interval.end }
        { *stamp < interval.end },
    )
}

// The first of some stamps that is not below the start of an interval. They are few: looking from the front takes no longer
// than halving them.
fn first_from_start(stamps: &[u64], interval: Interval) -> Option<u64>
    ensures { result ≡ find (λ a. starts_by a interval) stamps.now }
{
    let mut stamps = stamps.iter().copied();
    stamps.find(|stamp| interval.starts_by(*stamp))
}
