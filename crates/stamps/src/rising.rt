// Stamps in rising order.

ghost use Rattle.std.specs.Prelude.{◌≡◌, true};
ghost use Rattle.stamps.specs.Rising.{rising};
ghost use Rattle.stamps.specs.Rows.{stamps_in};

use crate::row::Row;

// Each stamp is at most the next.
#[derive(Clone, Copy)]
pub struct RisingStamps {
    stamps: Row,
    ghost upward: { rising (stamps_in stamps) ≡ true },
}

mod keep;
