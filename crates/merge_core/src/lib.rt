//! Merging copies of one vault: the laws of their join, and what a merge of documents rests on:
//! what is laid over a document is one, which nodes are kept, and what each refusal names.
//! Functions whose contracts are these laws, and no code.
#![tactic(auto)]

pub mod document_laws;
pub mod join_laws;
pub mod laws;
