//! What holds of every schedule: the laws over all lists of calls from a made store.
//!
//! The store's rules are definitions in the crate `model`. Here stand the statement of the law over their runs
//! (`specs/`), its proof (`proofs/`), and the calls whose contracts it is.

#![tactic(auto)]

mod brought;
mod schedules;

pub use brought::judges_are_lawful;
pub use schedules::schedule_law;
