//! The answers of commands that change no document.
ghost use Rattle.std.specs.Prelude.{◌≡◌, ◌≢◌, [], IfOk, slice_index_or};
ghost use Rattle.cli_messages.specs.Phases.{IsPlainStop};
ghost use Rattle.cli_changes.specs.Fails as spec;
ghost use Rattle.cli_changes.specs.Fails.{IsUnchanged, IsUnchangedBy};

use cli_messages::{Reason, Stop, refused};
use outside_core::{NoMemory, Text};
use std::alloc::Global;
use tree_core::TreeFail;

// The answer that a refusal to change a document is.
fn tree_answer(alloc: Global, fail: TreeFail) -> Reason
    ensures is { result ≡ spec.tree_answer fail }
    ensures there { result ≢ Reason.NoSuchFile }
{
    match fail {
        TreeFail::NoSuchPath => Reason::NoSuchPath,
        TreeFail::NoVersion(number) => Reason::NoVersion(number),
        TreeFail::NoField(_) => Reason::NoAttribute(Text::new(alloc)),
        TreeFail::NoAttachment => Reason::NoAttachment(Text::new(alloc)),
        TreeFail::NameTaken => Reason::NameTaken,
        TreeFail::AlreadyThere => Reason::AlreadyThere,
        TreeFail::RootFixed => Reason::RootFixed,
        TreeFail::IntoItself(id) => Reason::IntoItself(id),
        TreeFail::TooDeep => Reason::TooDeep,
        TreeFail::IdTaken(id) => Reason::IdTaken(id),
        TreeFail::StampLimit(_) => Reason::StampLimit,
        TreeFail::NoMemory => Reason::OutOfMemory,
    }
}

/// The stop of a command whose document, which is of this file, was not changed.
pub fn unchanged(alloc: Global, fail: TreeFail, file: &str) -> Stop
    ensures is { IsUnchanged fail file.now result }
    ensures plain { IsPlainStop result }
{
    match fail {
        TreeFail::NoMemory => Stop::NoMemory,
        _ => refused(alloc, tree_answer(alloc, fail), file),
    }
}

// A name among others, which is copied; empty where the place is after their end.
fn name_at(alloc: Global, names: &[Text], place: u64) -> Result<Text, NoMemory>
    ensures { IfOk result (λ name. name ≡ slice_index_or names.now place []) }
{
    match names.get(place as usize) {
        Some(name) => Text::of(alloc, name.as_str()),
        None => Ok(Text::new(alloc)),
    }
}

/// The stop of a command whose document, which is of this file, was not changed, where the command
/// names the fields that are taken away, and an attachment.
pub(crate) fn unchanged_by(
    alloc: Global,
    fail: TreeFail,
    file: &str,
    unset: &[Text],
    attachment: &str,
) -> Stop
    ensures is { IsUnchangedBy fail file.now unset.now attachment.now result }
    ensures plain { IsPlainStop result }
{
    match fail {
        TreeFail::NoField(place) => match name_at(alloc, unset, place) {
            Ok(name) => refused(alloc, Reason::NoAttribute(name), file),
            Err(NoMemory) => Stop::NoMemory,
        },
        TreeFail::NoAttachment => match Text::of(alloc, attachment) {
            Ok(name) => refused(alloc, Reason::NoAttachment(name), file),
            Err(NoMemory) => Stop::NoMemory,
        },
        _ => unchanged(alloc, fail, file),
    }
}
