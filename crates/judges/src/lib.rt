//! Judges decide which versions compaction may drop.
//!
//! A version answers the sessions whose stamps lie in its interval: from its own stamp up to the stamp of the next
//! newer version. A judge is cleared at a cutoff, told the stamps of open sessions, and asked about intervals.

#![tactic(auto)]

mod hold;
mod judge;
mod laws;
mod memory;
mod note;
mod oldest;

pub use hold::Hold;
pub use judge::{Judge, Thorough, prepare};
pub use laws::{law_of_prepared, laws_of_judges};
pub use note::{ListJudge, NoteJudge, RisingJudge};
pub use oldest::Oldest;
