// The hold: a switch over any judge that keeps every version while it is on.

ghost use Rattle.std.specs.Prelude.{◌≡◌, false};
ghost use Rattle.judges.specs.Kinds.{Held, held_kind};
ghost use Rattle.judges.specs.Lawful.{held_laws};
ghost use Rattle.judges.specs.Shown.{is_on, judge_below};

use crate::Judge;
use stamps::Interval;

// A judge below, and whether it is held back. The flag is a switch that is set, and says nothing of the judge.
#[derive(Drop)]
pub struct Hold<J> {
    on: bool,
    below: J,
}

impl<J> Hold<J> {
    // A hold that is off, over a judge as it stands: it means what that judge means.
    pub fn new(below: J) -> Hold<J>
        ensures off { is_on result ≡ false }
        ensures below { judge_below result ≡ below }
    {
        Hold { on: false, below }
    }

    // Switches the hold on or off; the judge below is left alone.
    pub fn set(&mut self, on: bool)
        ensures turned { is_on self.new ≡ on }
        ensures below { judge_below self.new ≡ judge_below self.old }
    {
        self.on = on;
    }
}

impl<J: Judge> Judge for Hold<J> {
    const PLACES: usize = J::PLACES;

    ghost PLACES = { J.Judge.PLACES };

    ghost Meaning = { Held J.Judge.Meaning };

    ghost means = { λ h. record { on = is_on h; below = J.Judge.means (judge_below h) } };

    ghost kind = { held_kind J.Judge.kind };

    ghost laws = { held_laws J.Judge.kind J.Judge.laws };

    ghost stated = { J.Judge.stated };

    fn clear(&mut self, cutoff: u64) {
        self.below.clear(cutoff);
    }

    fn note(&mut self, stamp: u64) {
        self.below.note(stamp);
    }

    fn ask(&self, interval: Interval) -> bool {
        !self.on && self.below.ask(interval)
    }
}
