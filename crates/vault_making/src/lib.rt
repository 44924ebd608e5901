//! Making versions and documents: copies, a new database, and the version of file that a document
//! needs.
#![tactic(auto)]

pub mod copies;
pub mod empty;
pub mod file_version;

pub use copies::copy_version;
pub use empty::empty_doc;
pub use file_version::needed;
