//! Stamps: the intervals between them, and rows of a few of them.

#![tactic(auto)]

mod interval;
mod kept;
mod laws;
mod list;
mod rising;
mod row;

pub use interval::Interval;
pub use kept::{Full, Stamps};
pub use laws::laws_of_stamps;
pub use list::ListStamps;
pub use rising::RisingStamps;

// A place for each worker of the largest store: no more sessions than these can be open at once.
pub const MOST_STAMPS: usize = 16;
