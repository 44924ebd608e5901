//! What a call of the program is to do (its command, its lines and its databases), and what one
//! file of it is: a plain document or a key file, or why it cannot be read.
#![tactic(auto)]

mod documents;
mod given;
mod keys;
mod stops;
mod task;

pub use doc_read;
pub use documents::{Opened, document_answer, read_plain};
pub use given::{bytes_in, name_in};
pub use keys::key_of;
pub use stops::unread;
pub use task::Task;
