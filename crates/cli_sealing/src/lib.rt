//! The sealed file that a command writes, and the law that a sealed file holds the document that it
//! was made of: functions that do nothing and whose contracts are the law.
#![tactic(auto)]

pub mod document_laws;
pub mod laws;
mod sealing;

pub use sealing::write_sealed;
