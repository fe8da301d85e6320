// Making a tally, and reading it.

ghost use Rattle.std.specs.Prelude.{◌≡◌};
ghost use Rattle.values.specs.Tallies.{tally_of, bytes_of};

use super::Tally;
use crate::Refusal;

// A tally of so many bytes; refused where they are more than the greatest.
impl TryFrom<u64> for Tally {
    type Error = Refusal;

    ghost try_from_gives = { λ bytes r. r ≡ tally_of bytes };

    fn try_from(bytes: u64) -> Result<Tally, Refusal> {
        if bytes > Tally::MOST {
            return Err(Refusal::TallyTooLarge);
        }
        Ok(Tally { bytes })
    }
}

impl Tally {
    // The greatest tally.
    pub const MOST: u64 = 1 << 40;

    // The bytes that it counts. A method, since a `From` for bare numbers would be no plainer: it would not name the unit.
    pub fn bytes(self) -> u64
        ensures { result ≡ bytes_of self }
    {
        self.bytes
    }
}
