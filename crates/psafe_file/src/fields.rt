//! Cutting the deciphered bytes into fields.
ghost use Rattle.std.specs.Prelude.{◌≡◌, ◌+◌, ◌≤◌, ◌<◌, ◌^◌, Option, Some, None, IfOk, length, take, drop, nat_lt, true, false};
ghost use Rattle.std.specs.Option.{MatchOption};
ghost use Rattle.std.specs.Int.{from_le_bytes, w32};
ghost use Rattle.psafe_file.specs.Fields as spec;
ghost use Rattle.psafe_file.specs.Fields.{field_room, fields_of};
ghost use Rattle.psafe_file.specs.SeenFields.{field_seen, table_seen};

use outside_core::{List, NoMemory};
use std::alloc::Global;

/// A field of the header or of a record.
#[derive(Clone, Copy)]
pub struct SafeField<'a> {
    /// The place of its first byte in the deciphered bytes.
    pub offset: usize,
    /// Its type.
    pub kind: u8,
    /// Its content.
    pub content: &'a [u8],
}

/// The fields of the deciphered bytes.
#[derive(Drop)]
pub(crate) struct FieldTable<'a> {
    /// The fields up to one that passes the end, or all.
    pub fields: List<SafeField<'a>>,
    /// The place of a field that passes the end.
    pub cut_off: Option<usize>,
}

// How many bytes a field with so many bytes of content takes.
fn field_room(len: u32) -> usize
    ensures { result ≡ field_room len }
{
    (len as usize + 20) / 16 * 16
}

// The length of the content of the field at the first of these bytes.
fn content_len(bytes: &[u8]) -> u32
    requires { 5 ≤ length bytes.now }
    ensures { result ≡ from_le_bytes w32 (take 4 bytes.now) }
{
    u32::from_le_bytes([bytes[0], bytes[1], bytes[2], bytes[3]])
}

// The field at the first of these bytes, which is at this place, with the bytes after it; `None`
// where it passes their end.
fn split_field(offset: usize, bytes: &[u8]) -> Option<(SafeField, &[u8])>
    requires { 0 < length bytes.now }
    ensures { MatchOption result
        (nat_lt (length bytes.now) (field_room (from_le_bytes w32 (take 4 bytes.now))) ≡ true)
        (λ x. (nat_lt (length bytes.now)
        (field_room (from_le_bytes w32 (take 4 bytes.now))) ≡ false)
        × (field_seen x.0 ≡ spec.field_at offset bytes.now)
        × (x.1.now ≡ drop (field_room (from_le_bytes w32 (take 4 bytes.now))) bytes.now)) }
{
    if bytes.len() < 5 {
        return None;
    }
    let len = content_len(bytes);
    let room = field_room(len);
    if bytes.len() < room {
        return None;
    }
    let field = SafeField {
        offset,
        kind: bytes[4],
        content: &bytes[5..5 + len as usize],
    };
    Some((field, &bytes[room..]))
}

/// Cuts the deciphered bytes into fields.
pub(crate) fn cut_fields(alloc: Global, bytes: &[u8]) -> Result<FieldTable, NoMemory>
    ensures { IfOk result (λ table. table_seen table ≡ fields_of bytes.now) }
{
    let mut fields = List::new(alloc);
    let mut rest = bytes;
    while !rest.is_empty() {
        let offset = bytes.len() - rest.len();
        let Some((field, after)) = split_field(offset, rest) else {
            return Ok(FieldTable {
                fields,
                cut_off: Some(offset),
            });
        };
        if fields.push(field).is_err() {
            return Err(NoMemory);
        }
        rest = after;
    }
    Ok(FieldTable {
        fields,
        cut_off: None,
    })
}
