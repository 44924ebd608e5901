//! The laws that each refusal of the text of a document has its cause in the text.
#![tactic(auto)]

pub mod laws;
