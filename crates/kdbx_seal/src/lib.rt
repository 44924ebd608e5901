//! Sealing a document: from the document, settings, draws and a composite key to a file of KDBX
//! 3.1, 4.0 or 4.1 under a name. The modules `payload_sealing` and `ciphering` seal the text of a
//! document and its attached files, whatever the document says.
#![tactic(auto)]

mod ciphering;
mod fail;
mod payload_fail;
mod payload_sealing;
mod sealing;

pub use fail::SealFail;
pub use kdbx_writing::{Draws, draw};
pub use payload_fail::SealPayloadFail;
pub use payload_sealing::seal_payload;
pub use sealing::seal_file;
