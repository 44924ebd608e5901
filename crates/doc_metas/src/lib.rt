//! What a document says of its database, and the binaries to which its attachments refer.
#![tactic(auto)]

mod binaries;
mod first_metas;
mod icons;
mod metas;
mod protections;

pub use first_metas::no_meta;
pub use metas::meta;
