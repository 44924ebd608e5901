//! Histories kept within their limits.

ghost use Rattle.std.specs.Prelude.{◌≡◌, ◌≤◌, drop, length, map, sum};
ghost use Rattle.vault_model.specs.Seen.{bare_attachment, bare_content, bare_field};
ghost use Rattle.vault_model.specs.SeenNodes.{bare_version, entry_record};
ghost use Rattle.tree_core.specs.Histories as spec;
ghost use Rattle.tree_edits.specs.Rooms.{IsStart, limit_of, room_left, surplus_over};

use crate::cutting::cut_start;
use outside_core::List;
use vault_model::{Attachment, Content, Entry, Field, Version};

// The room that is left after some bytes.
fn room_after(room: u64, bytes: usize) -> Option<u64>
    ensures { result ≡ room_left room bytes }
{
    let bytes = bytes as u64;
    if bytes <= room {
        Some(room - bytes)
    } else {
        None
    }
}

// The room that is left after some fields.
fn room_after_fields(limit: u64, fields: &[Field]) -> Option<u64>
    ensures { result ≡ room_left limit (sum (map spec.field_size (map bare_field fields.now))) }
{
    let mut room = limit;
    for field in fields {
        room = room_after(room, field.key.len())?;
        room = room_after(room, field.value.len())?;
    }
    Some(room)
}

// The room that is left after some attachments.
fn room_after_attachments(limit: u64, attachments: &[Attachment]) -> Option<u64>
    ensures { result
        ≡ room_left limit (sum (map spec.attachment_size (map bare_attachment attachments.now))) }
{
    let mut room = limit;
    for attachment in attachments {
        room = room_after(room, attachment.name.len())?;
        room = room_after(room, attachment.bytes.len())?;
    }
    Some(room)
}

// The room that is left after what a version says.
fn room_after_content(room: u64, content: &Content) -> Option<u64>
    ensures { result ≡ room_left room (spec.content_size (bare_content content.now)) }
{
    let room = room_after_fields(room, content.fields.as_slice())?;
    room_after_attachments(room, content.attachments.as_slice())
}

// The most bytes that a history may have; a negative limit is none.
fn size_limit(size: i64) -> Option<u64>
    ensures { result ≡ limit_of size }
{
    if size < 0 { None } else { Some(size as u64) }
}

// The most versions that a history may have; a negative limit is none.
fn item_limit(items: i32) -> Option<u64>
    ensures { result ≡ limit_of items }
{
    if items < 0 { None } else { Some(items as u64) }
}

// How many versions there are above a limit.
fn surplus(count: usize, limit: Option<u64>) -> usize
    ensures { result ≡ surplus_over limit count }
{
    match limit {
        Some(most) => (count as u64).saturating_sub(most) as usize,
        None => 0,
    }
}

// From where on there is room for the rest of a history, at the earliest from `least` on.
fn start_with_room(history: &[Version], least: usize, limit: u64) -> usize
    requires { least ≤ length history.now }
    ensures { IsStart least limit (map bare_version history.now) result }
{
    let mut room = limit;
    let mut start = history.len();
    while start > least {
        let Some(rest) = room_after_content(room, &history[start - 1].content) else {
            return start;
        };
        room = rest;
        start -= 1;
    }
    start
}

// How many versions at the start of a history are too many, or too large.
fn excess(history: &[Version], items: i32, size: i64) -> usize
    ensures within { result ≤ length history.now }
    ensures drops { drop result (map bare_version history.now)
        ≡ spec.within_limits items size (map bare_version history.now) }
{
    let least = surplus(history.len(), item_limit(items));
    match size_limit(size) {
        Some(limit) => start_with_room(history, least, limit),
        None => least,
    }
}

/// Keeps the longest suffix of a history that is within its limits. Takes no memory.
pub(crate) fn limit_history(history: &mut List<Version>, items: i32, size: i64)
    ensures { map bare_version history.new
        ≡ spec.within_limits items size (map bare_version history.old) }
{
    let excess = excess(history.as_slice(), items, size);
    cut_start(history, excess);
}

/// Keeps the longest suffix of an entry's history with at most `items` versions and of at most
/// `size` bytes; a negative number is no limit. The size of a version is that of its fields' keys
/// and values and of its attachments' names and bytes. Takes no memory.
pub fn settle_history(entry: &mut Entry, items: i32, size: i64)
    ensures id { entry.new.id ≡ entry.old.id }
    ensures history { entry_record entry.new
        ≡ spec.settled_history items size (entry_record entry.old) }
{
    limit_history(&mut entry.history, items, size)
}
