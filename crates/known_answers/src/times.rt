//! Times and their texts.

use crate::question::{Fault, NOT_SPELLED, NOT_UNDONE};
use crate::spelling::{decimal, spelled};
use std::alloc::Global;
use std::str;
use time_core::{Stamp, iso_of, stamp_of_iso};

/// The seconds of the time that a text names, or `none`. The time must be written as the same text.
pub fn seconds(alloc: Global, text: &str) -> Result<String, Fault> {
    let text = spelled(alloc, text)?;
    match stamp_of_iso(&text) {
        Some(stamp) => {
            if iso_of(stamp).as_slice() != text.as_slice() {
                return Err(NOT_UNDONE);
            }
            decimal(alloc, stamp.seconds())
        }
        None => Ok(String::from_str(alloc, "none")?),
    }
}

/// The text of the time of these seconds, or `none`.
pub fn date(alloc: Global, number: &str) -> Result<String, Fault> {
    let Ok(seconds) = number.parse::<u64>() else {
        return Err(NOT_SPELLED);
    };
    match Stamp::of(seconds) {
        Some(stamp) => written(alloc, seconds, stamp),
        None => Ok(String::from_str(alloc, "none")?),
    }
}

// The text of a time, whose seconds must be these.
fn written(alloc: Global, seconds: u64, stamp: Stamp) -> Result<String, Fault> {
    if stamp.seconds() != seconds {
        return Err(NOT_UNDONE);
    }
    match str::from_utf8(&iso_of(stamp)) {
        Ok(text) => Ok(String::from_str(alloc, text)?),
        Err(_) => Err(NOT_UNDONE),
    }
}
