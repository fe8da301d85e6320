// A thorough judge: it remembers its cutoff and its notes, and keeps a version exactly for these.

ghost use Rattle.std.specs.Prelude.{◌≡◌, refl};
ghost use Rattle.judges.specs.Kinds.{told_kind};
ghost use Rattle.judges.specs.Lawful.{told_laws};
ghost use Rattle.judges.specs.Shown.{told_so_far};
ghost use Rattle.judges.specs.Told.{Told, uncleared};
ghost use Rattle.stamps.specs.declared.TheConstants.{MOST_STAMPS};

use crate::memory::Memory;
use crate::{Judge, Thorough};
use stamps::{Interval, ListStamps, MOST_STAMPS, RisingStamps, Stamps};

#[derive(Drop)]
pub struct NoteJudge<S> {
    memory: Memory<S>,
}

// The list judge: stamps as they came.
pub type ListJudge = NoteJudge<ListStamps>;

// The rising judge: stamps in rising order.
pub type RisingJudge = NoteJudge<RisingStamps>;

impl<S: Stamps> NoteJudge<S> {
    // A judge that drops nothing before it is cleared.
    pub fn new() -> NoteJudge<S>
        ensures { told_so_far S.Stamps.kept result ≡ uncleared }
    {
        NoteJudge {
            memory: Memory::Empty,
        }
    }
}

impl<S: Stamps + Drop> Judge for NoteJudge<S> {
    const PLACES: usize = MOST_STAMPS;

    ghost PLACES = { MOST_STAMPS };

    ghost Meaning = { Told };

    ghost means = { told_so_far S.Stamps.kept };

    ghost kind = { told_kind MOST_STAMPS };

    ghost laws = { told_laws MOST_STAMPS };

    ghost stated = { refl };

    fn clear(&mut self, cutoff: u64) {
        self.memory = Memory::Notes {
            cutoff,
            notes: S::none(),
        };
    }

    fn note(&mut self, stamp: u64) {
        if let Memory::Notes { cutoff, notes } = &mut self.memory
            && notes.add(stamp).is_err()
        {
            self.memory = Memory::Overfull { cutoff: *cutoff };
        }
    }

    fn ask(&self, interval: Interval) -> bool {
        match &self.memory {
            Memory::Notes { cutoff, notes } => {
                interval.is_ordered() && interval.ends_by(*cutoff) && notes.none_inside(interval)
            }
            Memory::Empty | Memory::Overfull { .. } => false,
        }
    }
}

impl<S: Stamps + Drop> Thorough for NoteJudge<S> {
    ghost always = { λ _. refl };

    fn keeping_stamp(&self, interval: Interval) -> Option<u64> {
        match &self.memory {
            Memory::Notes { cutoff, notes } if interval.ends_by(*cutoff) => {
                notes.smallest_inside(interval)
            }
            _ => None,
        }
    }
}
