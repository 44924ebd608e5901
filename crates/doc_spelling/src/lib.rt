//! How a document is written: its elements and their texts, as definitions, and the laws of written
//! documents: functions whose contracts are these laws, and no code.
#![tactic(auto)]

pub mod laws;
