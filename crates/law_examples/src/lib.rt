//! Worked cases that meet the premises of laws: of conditions, of outcomes, of generated passwords, of
//! merges of agreed copies and of merges made again, and of histories of calls.
#![tactic(auto)]

pub mod laws;
