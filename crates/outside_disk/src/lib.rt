//! Files on a disk: read as they are found, and replaced whole by drafts beside them. No contract says
//! what a disk holds, so that nothing is promised of it here.
#![tactic(auto)]

mod calls;
mod disk;
mod drafts;
mod files;
mod leavings;
mod sessions;

pub use disk::{Disk, WritableFile};
pub use drafts::Draft;
pub use files::{file_len, read_from};
