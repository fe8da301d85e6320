//! The values a version can hold, and the refusals of every call with their numbers.

#![tactic(auto)]

mod laws;
mod place;
mod refusal;
mod tally;

pub use laws::law_of_refusals;
pub use place::Place;
pub use refusal::{Position, Refusal};
pub use tally::Tally;
