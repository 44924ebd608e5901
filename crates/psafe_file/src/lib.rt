//! The file of Password Safe V3 (formatV3.txt of the Password Safe project): from its bytes and a
//! password to its deciphered blocks, and the check of the MAC of their contents; or why not. The
//! fields in the deciphered bytes, tested for their first fault, and the records that they make up.
#![tactic(auto)]

mod contents;
mod fails;
mod faults;
mod fields;
mod keys;
pub mod laws;
mod macs;
mod opened;
mod parts;
mod records;

pub use contents::{kind, moment_of, text_of};
pub use fails::PsafeFail;
pub use faults::{FieldsFail, read_fields};
pub use fields::SafeField;
pub use macs::check_mac;
pub use opened::{OpenedSafe, open_safe};
pub use records::records_of;
