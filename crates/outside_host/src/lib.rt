//! The adapters to the host: its files, its standard input and output, and its random bytes. They
//! report a world of which nothing is known, and are truthful as long as each answer of the host is
//! what it would be in that world.
#![tactic(auto)]

mod ghosts;
mod host;
pub mod laws;
mod notes;
mod worlds;

pub use host::{HostDice, HostFiles, HostInput, HostOutput};
pub use outside_disk::WritableFile;
pub use worlds::World;
