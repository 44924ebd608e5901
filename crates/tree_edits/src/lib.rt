//! Entries added, edited and restored, their attachments, and histories kept within their limits.
#![tactic(auto)]

mod adding;
mod attaching;
mod changing;
mod cutting;
mod editing;
mod histories;
mod limits;
mod new_entries;
mod restoring;

pub use adding::add;
pub use attaching::{attach, detach};
pub use editing::edit;
pub use limits::settle_history;
pub use restoring::restore;
