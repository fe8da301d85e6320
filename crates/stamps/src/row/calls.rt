// What a row does.

ghost use Rattle.std.specs.Prelude.{◌≡◌, ◌≤◌, [], ◌∷◌, ◌++◌, insert, if◌then◌else◌, length};
ghost use Rattle.stamps.specs.Kept.{has_room, taken_in};
ghost use Rattle.stamps.specs.Rows.{stamps_in};

use super::Row;
use crate::{Full, MOST_STAMPS};

impl Row {
    // No stamps.
    pub(crate) fn new() -> Row
        ensures { stamps_in result ≡ [] }
    {
        Row {
            places: [0; MOST_STAMPS],
            count: 0,
        }
    }

    // The stamps, in the order of their places.
    pub(crate) fn as_slice(&self) -> &[u64]
        ensures { result.now ≡ stamps_in self.now }
    {
        &self.places[..self.count]
    }

    // One stamp more, in the next place.
    pub(crate) fn push(&mut self, stamp: u64) -> Result<(), Full>
        ensures answer { result ≡ taken_in (stamps_in self.old) }
        ensures stamps { stamps_in self.new ≡ (if has_room (stamps_in self.old) then stamps_in self.old ++ stamp ∷ [] else stamps_in self.old) }
    {
        // Read once: for all that the compiler knows, a write to some place could change the count.
        let count = self.count;
        if count == MOST_STAMPS {
            return Err(Full);
        }
        self.places[count] = stamp;
        self.count = count + 1;
        Ok(())
    }

    // One stamp more, before the stamp in the place `at`.
    pub(crate) fn insert(&mut self, at: usize, stamp: u64) -> Result<(), Full>
        requires { at ≤ length (stamps_in self.old) }
        ensures answer { result ≡ taken_in (stamps_in self.old) }
        ensures stamps { stamps_in self.new ≡ (if has_room (stamps_in self.old) then insert (stamps_in self.old) at stamp else stamps_in self.old) }
    {
        self.push(stamp)?;
        self.places[at..self.count].rotate_right(1);
        Ok(())
    }
}
