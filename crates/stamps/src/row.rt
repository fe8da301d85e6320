// A row of a few stamps, one place after the other.

ghost use Rattle.std.specs.Prelude.{◌≤◌};
ghost use Rattle.stamps.specs.declared.TheConstants.{MOST_STAMPS};

use crate::MOST_STAMPS;

// The first `count` places are taken.
//
// The array and its count stand here alone, since a row allocates nothing and is copied as a number is; the vector of
// fixed capacity that would take their place cannot be copied.
#[derive(Clone, Copy)]
pub(crate) struct Row {
    places: [u64; MOST_STAMPS],
    count: usize,
    ghost few: { count ≤ MOST_STAMPS },
}

mod calls;
