//! The parts that headers, dictionaries and inner fields are made of.

ghost use Rattle.std.specs.Prelude.{◌≡◌, ◌+◌, ◌-◌, ◌≤◌, ◌<◌, ◌^◌, ◌++◌, IfOk, Ok, length, replicate};
ghost use Rattle.std.specs.Int.{w16, w32, w64, byte_len, from_le_bytes};
ghost use Rattle.std.specs.Prelude.{bytes_eq};
ghost use Rattle.outside_core.specs.Results.{Returns};
ghost use Rattle.kdbx_parts.specs.Results.{meaning_of};
ghost use Rattle.kdbx_parts.specs.Parts.{field_at, field_head_len, required, unique, out_of_bounds, unique_of_length, split_bytes, width_of};
ghost use Rattle.kdbx_parts.specs.Seen.{field_seen};

use crate::FrameFail;
use outside_core::Bytes;
use std::alloc::Global;

/// How many bytes the length of a field has.
#[derive(Clone, Copy)]
pub enum LengthWidth {
    /// Two bytes, as in a header of KDBX 3.1.
    Two,
    /// Four bytes, as in a header of KDBX 4 and in inner fields.
    Four,
}

/// A field of a header, or an inner field.
#[derive(Clone, Copy)]
pub struct Field<'a> {
    /// What the field is.
    pub id: u8,
    /// Its content.
    pub content: &'a [u8],
    /// The bytes after it.
    pub rest: &'a [u8],
}

/// The next `n` bytes and the bytes after them, or this refusal where there are fewer.
pub fn split_bytes(fail: FrameFail, n: usize, rest: &[u8]) -> Result<(&[u8], &[u8]), FrameFail>
    ensures gives { Returns meaning_of (λ x. (x.0.now, x.1.now)) result
        (split_bytes fail n rest.now) }
    ensures shorter { IfOk result (λ x. length x.1.now + n ≡ length rest.now) }
    ensures len { IfOk result (λ x. length x.0.now ≡ n) }
{
    if rest.len() < n {
        return Err(fail);
    }
    Ok(rest.split_at(n))
}

/// The refusal of a part that ends at the offset `end` of a file of `size` bytes, and not within
/// the bytes at hand.
pub fn out_of_bounds(size: u64, end: u64) -> FrameFail
    ensures { result ≡ out_of_bounds size end }
{
    if size < end {
        FrameFail::Truncated(size)
    } else {
        FrameFail::TooLarge(end)
    }
}

/// How many bytes are before the content of a field.
pub fn field_head_len(width: LengthWidth) -> usize
    ensures value { result ≡ field_head_len width }
    ensures limit { result ≤ 5 }
{
    match width {
        LengthWidth::Two => 3,
        LengthWidth::Four => 5,
    }
}

// The length that these bytes give.
fn length_of(width: LengthWidth, bytes: &[u8]) -> u32
    requires { length bytes.now ≡ byte_len (width_of width) }
    ensures { result ≡ from_le_bytes (width_of width) bytes.now }
{
    match width {
        LengthWidth::Two => u16_of(bytes) as u32,
        LengthWidth::Four => u32_of(bytes),
    }
}

/// The field at this offset of a file of `size` bytes.
#[tactic(auto, unfolding(crate::specs::Parts::field_at))]
pub fn field_of(
    width: LengthWidth,
    size: u64,
    offset: usize,
    rest: &[u8],
) -> Result<Field, FrameFail>
    requires { offset + length rest.now < 2 ^ 63 }
    ensures gives { Returns meaning_of field_seen result
        (field_at width (λ n. out_of_bounds size (offset + n)) rest.now) }
    ensures shorter { IfOk result (λ f. length f.rest.now < length rest.now) }
    ensures content { IfOk result (λ f. length f.content.now ≤ length rest.now) }
{
    let len = field_head_len(width);
    let (head, rest) = split_bytes(out_of_bounds(size, offset as u64 + len as u64), len, rest)?;
    let n = length_of(width, &head[1..]);
    let (content, rest) = split_bytes(
        out_of_bounds(size, offset as u64 + (len as u64 + n as u64)),
        n as usize,
        rest,
    )?;
    Ok(Field {
        id: head[0],
        content,
        rest,
    })
}

/// The content of a field that may occur once; `occurred` says whether it did before.
pub fn unique(id: u8, occurred: bool, content: &[u8]) -> Result<&[u8], FrameFail>
    ensures gives { Returns meaning_of (λ x. x.now) result (unique id occurred content.now) }
    ensures same { IfOk result (λ x. x.now ≡ content.now) }
{
    if occurred {
        return Err(FrameFail::FieldTwice(id));
    }
    Ok(content)
}

/// The content of a field that may occur once and has `n` bytes.
pub fn unique_of_length(
    id: u8,
    n: usize,
    occurred: bool,
    content: &[u8],
) -> Result<&[u8], FrameFail>
    ensures gives { Returns meaning_of (λ x. x.now) result
        (unique_of_length id n occurred content.now) }
    ensures len { IfOk result (λ x. length x.now ≡ n) }
{
    if occurred {
        return Err(FrameFail::FieldTwice(id));
    }
    if content.len() != n {
        return Err(FrameFail::FieldLength(id, content.len() as u64));
    }
    Ok(content)
}

/// The value of a field that must occur.
pub fn required<T: Drop>(id: u8, value: Option<T>) -> Result<T, FrameFail>
    ensures { Returns meaning_of (λ x. x) result (required id value) }
{
    match value {
        Some(value) => Ok(value),
        None => Err(FrameFail::FieldMissing(id)),
    }
}

/// Whether these are the same bytes.
pub fn same(a: &[u8], b: &[u8]) -> bool
    ensures { result ≡ bytes_eq a.now b.now }
{
    a == b
}

/// Bytes as an array.
pub fn array_of<const N: usize>(bytes: &[u8]) -> [u8; N]
    requires { length bytes.now ≡ N }
    ensures { result ≡ bytes.now }
{
    let mut array = [0; N];
    array.copy_from_slice(bytes);
    array
}

// A number of two bytes, the lowest first.
fn u16_of(bytes: &[u8]) -> u16
    requires { length bytes.now ≡ 2 }
    ensures { result ≡ from_le_bytes w16 bytes.now }
{
    u16::from_le_bytes(array_of(bytes))
}

/// A number of four bytes, the lowest first.
pub fn u32_of(bytes: &[u8]) -> u32
    requires { length bytes.now ≡ 4 }
    ensures { result ≡ from_le_bytes w32 bytes.now }
{
    u32::from_le_bytes(array_of(bytes))
}

/// A number of eight bytes, the lowest first.
pub fn u64_of(bytes: &[u8]) -> u64
    requires { length bytes.now ≡ 8 }
    ensures { result ≡ from_le_bytes w64 bytes.now }
{
    u64::from_le_bytes(array_of(bytes))
}

/// A copy in memory of its own.
pub fn copy_of(alloc: Global, bytes: &[u8]) -> Result<Bytes, FrameFail>
    ensures { Returns meaning_of (λ x. x) result (Ok bytes.now) }
{
    let mut copy = Bytes::new(alloc);
    copy.add(bytes)?;
    Ok(copy)
}
