// Stamps, as people read them.

use std::fmt;

// Each behind a blank.
#[derive(Clone, Copy)]
pub struct Stamps<'a>(pub &'a [u64]);

impl<'a> fmt::Display for Stamps<'a> {
    ghost use Rattle.std.specs.Prelude.{Some};
    ghost use Rattle.why.specs.Wording.{stamps_text};

    ghost output = { λ stamps. Some (stamps_text stamps.0.now) };

    fn fmt<W: fmt::Write>(&self, f: &mut fmt::Formatter<W>) -> fmt::Result {
        for stamp in self.0 {
            write!(f, " {stamp}")?;
        }
        Ok(())
    }
}
