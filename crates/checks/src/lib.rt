//! Examples of the layers below, run as tests: every expected value follows from the rules, not from a run.

#![tactic(auto)]

#[cfg(test)]
mod judging;
#[cfg(test)]
mod previewing;
#[cfg(test)]
mod reading;
#[cfg(test)]
mod valuing;
