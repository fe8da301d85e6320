// Stamps in the order in which they came.

ghost use Rattle.std.specs.Prelude.{◌≡◌, ◌&&◌, true, not, min, filter};
ghost use Rattle.std.specs.List.{fold, reduce};
ghost use Rattle.stamps.specs.Intervals.{inside};
ghost use Rattle.stamps.specs.Kept.{as_they_came};
ghost use Rattle.stamps.specs.Rising.{sorted};

use crate::row::Row;
use crate::{Full, Interval, Stamps};

#[derive(Clone, Copy)]
pub struct ListStamps {
    stamps: Row,
}

impl Stamps for ListStamps {
    ghost kept = { λ row. sorted (as_they_came row) };

    fn none() -> ListStamps {
        ListStamps { stamps: Row::new() }
    }

    #[tactic(auto, using(crate::proofs::Inserting::length_sorted, crate::proofs::Inserting::sorted_push))]
    fn add(&mut self, stamp: u64) -> Result<(), Full> {
        self.stamps.push(stamp)
    }

    #[tactic(auto, using(crate::proofs::Smallest::smallest_in_any_order))]
    fn smallest_inside(&self, interval: Interval) -> Option<u64> {
        smallest_of(self.stamps.as_slice(), interval)
    }

    #[tactic(auto, using(crate::proofs::Smallest::none_in_any_order))]
    fn none_inside(&self, interval: Interval) -> bool {
        none_of(self.stamps.as_slice(), interval)
    }
}

// The smallest of some stamps that lies inside an interval: every one is looked at.
fn smallest_of(stamps: &[u64], interval: Interval) -> Option<u64>
    ensures { result ≡ reduce min (filter (λ a. inside a interval) stamps.now) }
{
    let stamps = stamps.iter().copied();
    stamps.filter(|stamp| interval.contains(*stamp)).min()
}

// Whether none of some stamps lies inside an interval: every one is looked at, without a branch, which takes less time than
// to stop at the first that does.
fn none_of(stamps: &[u64], interval: Interval) -> bool
    ensures { result ≡ fold (λ none a. none && not (inside a interval)) true stamps.now }
{
    let stamps = stamps.iter();
    stamps.fold(true, |none, stamp| none & !interval.contains(*stamp))
}
