//! The inner fields at the start of a deciphered text.

ghost use Rattle.std.specs.Prelude.{◌≡◌, ◌+◌, ◌≤◌, ◌<◌, ◌^◌, [], ◌∷◌, ◌++◌, IfOk, Ok, length, map};
ghost use Rattle.outside_core.specs.Results.{Returns, repeat_steps};
ghost use Rattle.kdbx_parts.specs.Results.{meaning_of};
ghost use Rattle.kdbx_parts.specs.declared.fail.FrameFail.TheVariants.{Truncated};
ghost use Rattle.kdbx_parts.specs.declared.parts.LengthWidth.TheVariants.{Four};
ghost use Rattle.kdbx_parts.specs.Parts.{field_at, required};
ghost use Rattle.kdbx_inner.specs.Inner.{binary_of, inner_end_missing, inner_from, inner_of, inner_step, with_inner_field};
ghost use Rattle.kdbx_inner.specs.Seen.{binary_seen, partial_inner_seen, inner_read_seen, inner_seen};
ghost use Rattle.kdbx_parts.specs.Seen.{field_seen};

use kdbx_parts::{Field, FrameFail, required, split_bytes, u32_of, unique, unique_of_length};
use outside_core::List;
use secret_core::Secret;
use std::alloc::Global;
use std::rc::Rc;
use vault_model::PoolItem;

/// The inner fields of a deciphered text, which its document follows.
#[derive(Drop)]
pub struct Inner {
    /// The stream that hides values in the document.
    pub stream_id: u32,
    /// The key of that stream.
    pub stream_key: Secret,
    /// The attached files, which the document names by their position here, from 0.
    pub pool: List<PoolItem>,
    /// The length of the inner fields in bytes; the document follows them.
    pub size: usize,
}

// The inner fields so far.
#[derive(Drop)]
struct PartialInner<'a> {
    stream_id: Option<u32>,
    stream_key: Option<&'a [u8]>,
    pool: List<PoolItem>,
}

// How far the reading of the fields has come: the fields so far, and the bytes after them.
#[derive(Drop)]
struct InnerRead<'a> {
    found: PartialInner<'a>,
    rest: &'a [u8],
}

// A secret copy of these bytes.
fn secret_of(alloc: Global, bytes: &[u8]) -> Result<Secret, FrameFail>
    ensures { Returns meaning_of (λ x. x.bytes) result (Ok bytes.now) }
{
    let mut secret = Secret::with_room(alloc, bytes.len())?;
    secret.extend(bytes);
    Ok(secret)
}

// An attached file: a byte of flags, of which bit 0 says that it is hidden, and its bytes.
fn binary_of(alloc: Global, content: &[u8]) -> Result<PoolItem, FrameFail>
    ensures { Returns meaning_of binary_seen result (binary_of content.now) }
{
    match content {
        [] => Err(FrameFail::FieldLength(3, 0)),
        [flags, bytes @ ..] => {
            let secret = secret_of(alloc, bytes)?;
            match Rc::new(alloc, secret) {
                Ok(bytes) => Ok(PoolItem {
                    bytes,
                    hidden: *flags & 1 == 1,
                }),
                Err(_) => Err(FrameFail::NoMemory),
            }
        }
    }
}

// Adds an attached file at the end of the pool.
fn add_item(pool: &mut List<PoolItem>, item: PoolItem) -> Result<(), FrameFail>
    ensures { Returns meaning_of (λ _. map binary_seen pool.new) result
        (Ok (map binary_seen pool.old ++ binary_seen item ∷ [])) }
{
    match pool.push(item) {
        Ok(()) => Ok(()),
        Err(_) => Err(FrameFail::NoMemory),
    }
}

// Adds a field to those so far.
#[tactic(auto, unfolding(crate::specs::Inner::with_inner_field))]
fn add_field<'a>(
    alloc: Global,
    found: &mut PartialInner<'a>,
    field: &Field<'a>,
) -> Result<(), FrameFail>
    ensures { Returns meaning_of (λ _. partial_inner_seen found.new) result
        (with_inner_field (partial_inner_seen found.old) (field_seen field.now)) }
{
    match field.id {
        1 => {
            let content = unique_of_length(1, 4, found.stream_id.is_some(), field.content)?;
            found.stream_id = Some(u32_of(content));
        }
        2 => found.stream_key = Some(unique(2, found.stream_key.is_some(), field.content)?),
        3 => {
            let item = binary_of(alloc, field.content)?;
            return add_item(&mut found.pool, item);
        }
        _ => {}
    }
    Ok(())
}

// The next field of a text of `whole` bytes.
#[tactic(auto, unfolding(kdbx_parts::specs::Parts::field_at))]
fn field_of(whole: u64, rest: &[u8]) -> Result<Field, FrameFail>
    ensures gives { Returns meaning_of field_seen result
        (field_at Four (λ _. Truncated whole) rest.now) }
    ensures shorter { IfOk result (λ f. length f.rest.now ≤ length rest.now) }
{
    let (head, rest) = split_bytes(FrameFail::Truncated(whole), 5, rest)?;
    let n = u32_of(&head[1..]);
    let (content, rest) = split_bytes(FrameFail::Truncated(whole), n as usize, rest)?;
    Ok(Field {
        id: head[0],
        content,
        rest,
    })
}

// Reads one field of a text of `whole` bytes, and reports whether it was the last.
#[tactic(auto, unfolding(crate::specs::Inner::inner_step))]
fn read_field(alloc: Global, whole: usize, read: &mut InnerRead) -> Result<bool, FrameFail>
    ensures gives { Returns meaning_of (λ ended. (ended, inner_read_seen read.new)) result
        (inner_step whole (inner_read_seen read.old)) }
    ensures shorter { IfOk result (λ _. length read.new.rest.now ≤ length read.old.rest.now) }
{
    let field = field_of(whole as u64, read.rest)?;
    if field.id == 0 {
        read.rest = field.rest;
        return Ok(true);
    }
    add_field(alloc, &mut read.found, &field)?;
    read.rest = field.rest;
    Ok(false)
}

// Reads the fields of a text of `whole` bytes up to field 0.
fn read_fields(alloc: Global, whole: usize, read: &mut InnerRead) -> Result<(), FrameFail>
    ensures gives { Returns meaning_of (λ _. inner_read_seen read.new) result
        (repeat_steps (inner_step whole) (inner_end_missing whole) whole
        (inner_read_seen read.old)) }
    ensures shorter { IfOk result (λ _. length read.new.rest.now ≤ length read.old.rest.now) }
{
    'fields: for _ in 0..whole {
        let ended = read_field(alloc, whole, read)?;
        if ended {
            return Ok(());
        }
    }
    Err(FrameFail::Truncated(whole as u64))
}

// All fields up to field 0, and the bytes after them.
fn inner_from(alloc: Global, text: &[u8]) -> Result<InnerRead, FrameFail>
    ensures gives { Returns meaning_of inner_read_seen result (inner_from text.now) }
    ensures shorter { IfOk result (λ r. length r.rest.now ≤ length text.now) }
{
    let mut read = InnerRead {
        found: PartialInner {
            stream_id: None,
            stream_key: None,
            pool: List::new(alloc),
        },
        rest: text,
    };
    match read_fields(alloc, text.len(), &mut read) {
        Ok(()) => Ok(read),
        Err(fail) => {
            drop(read);
            Err(fail)
        }
    }
}

// A secret copy of the stream's key, which must be there.
fn stream_key_in(alloc: Global, found: &PartialInner) -> Result<Secret, FrameFail>
    ensures { Returns meaning_of (λ x. x.bytes) result
        (required 2 (partial_inner_seen found.now).stream_key) }
{
    let stream_key = required(2, found.stream_key)?;
    secret_of(alloc, stream_key)
}

/// Reads the inner fields at the start of a deciphered text (KeePass's documentation of KDBX 4).
///
/// The refusals are Truncated with the text's length, FieldTwice of fields 1 and 2, and FieldLength
/// of field 1 and of a binary without a byte, the first from the left; then FieldMissing of field 1
/// or 2; and NoMemory.
#[tactic(auto, unfolding(crate::specs::Inner::inner_of))]
pub fn read_inner(alloc: Global, text: &[u8]) -> Result<Inner, FrameFail>
    ensures gives { Returns meaning_of inner_seen result (inner_of text.now) }
    ensures within { IfOk result (λ i. i.size ≤ length text.now) }
{
    let InnerRead { found, rest } = inner_from(alloc, text)?;
    let stream_id = match required(1, found.stream_id) {
        Ok(stream_id) => stream_id,
        Err(fail) => {
            drop(found);
            return Err(fail);
        }
    };
    match stream_key_in(alloc, &found) {
        Ok(stream_key) => Ok(Inner {
            stream_id,
            stream_key,
            pool: found.pool,
            size: text.len() - rest.len(),
        }),
        Err(fail) => {
            drop(found);
            Err(fail)
        }
    }
}
