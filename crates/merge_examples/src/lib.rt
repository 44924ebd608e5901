//! Worked cases that meet the premises of the laws of merging again, of runs and of calls that merge.
#![tactic(auto)]

pub mod laws;
