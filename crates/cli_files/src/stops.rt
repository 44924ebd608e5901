//! Stops at files that cannot be read.
ghost use Rattle.cli_files.specs.Answers.{IsUnread};

use cli_messages::{Reason, Stop, refused};
use outside_core::{NoMemory, Text};
use secret_core::ReadFail;
use std::alloc::Global;

/// The stop of a call that could not read the file of this name.
pub fn unread(alloc: Global, fail: ReadFail, name: &str) -> Stop
    ensures { IsUnread fail name.now result }
{
    match fail {
        ReadFail::TooLarge(_) => refused(alloc, Reason::TooLarge, name),
        ReadFail::NoSuchFile => refused(alloc, Reason::NoSuchFile, name),
        ReadFail::FileFault => match Text::of(alloc, name) {
            Ok(name) => Stop::FileFault(name),
            Err(NoMemory) => Stop::NoMemory,
        },
        ReadFail::NoMemory => Stop::NoMemory,
    }
}
