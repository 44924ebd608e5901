//! Why words are no command: the first word that is wrong, or what all of them lack together.
#![tactic(auto)]

mod attachments;
mod cause;
mod causes;
mod fields;
mod files;
mod generating;
mod versions;
mod whole;

pub use cause::Cause;
pub use causes::cause_of;
