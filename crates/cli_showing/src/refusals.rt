//! What `show` and `search` refuse with.
ghost use Rattle.cli_messages.specs.Messages.{Refuses, refusal_of};
ghost use Rattle.cli_messages.specs.Phases.{IsPlainStop};
ghost use Rattle.cli_messages.specs.declared.answers.Reason.TheVariants as answer;
ghost use Rattle.cli_showing.specs.Refusals.{IsUnfound};

use cli_messages::{Reason, Stop, refused};
use find_references::FindFail;
use outside_core::{NoMemory, Text};
use std::alloc::Global;

/// The stop of a call that could not search a document of this file, or show a value of it.
pub(crate) fn unfound(alloc: Global, fail: FindFail, file: &str) -> Stop
    ensures is { IsUnfound fail file.now result }
    ensures plain { IsPlainStop result }
{
    match fail {
        FindFail::TooMuch(_) => refused(alloc, Reason::TooMuch, file),
        FindFail::EmptyTerm(place) => refused(alloc, Reason::EmptyTerm(place), "words"),
        FindFail::NoMemory => Stop::NoMemory,
    }
}

/// The stop of a call that is asked for a field that the entry, which is of this file, does not
/// have.
pub(crate) fn lacking(alloc: Global, name: &str, file: &str) -> Stop
    ensures is { Refuses result (refusal_of (answer.NoAttribute name.now) file.now) }
    ensures plain { IsPlainStop result }
{
    match Text::of(alloc, name) {
        Ok(name) => refused(alloc, Reason::NoAttribute(name), file),
        Err(NoMemory) => Stop::NoMemory,
    }
}
