//! One-time codes: the code of a secret at a moment (RFC 6238), and what the fields of an entry say
//! of the secret.
#![tactic(auto)]

mod base32;
mod codes;
mod fails;
mod hashes;
mod marks;
mod parameters;
mod reading;

pub use codes::{Otp, otp_code};
pub use fails::OtpFail;
pub use hashes::OtpHash;
pub use reading::{read_otp, read_otp_fields};
