//! Stamps: seconds since the year 1, and their texts of ISO 8601. The calendar is that of the kit's
//! `jiff`, which no crate above sees.
#![tactic(auto)]

pub mod iso;
pub mod times;

pub use iso::{iso_of, stamp_of_iso};
pub use times::Stamp;
