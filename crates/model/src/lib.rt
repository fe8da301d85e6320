//! The rules of the store as definitions.

#![tactic(auto)]
