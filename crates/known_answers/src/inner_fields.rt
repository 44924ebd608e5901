//! Inner fields of KDBX 4.

use crate::bytes::bytes_of;
use crate::question::{Fault, Question};
use crate::refusals::frame_refusal;
use crate::spelling::put_digits;
use kdbx_inner::{FrameFail, Inner, read_inner};
use std::alloc::{AllocError, Global};
use vault_model::PoolItem;

/// The stream and the length of inner fields, or why they are refused: their bytes.
pub fn inner_fields(alloc: Global, question: &Question<'_>) -> Result<String, Fault> {
    let bytes = bytes_of(alloc, question)?;
    match read(alloc, &bytes) {
        Ok(inner) => summary(alloc, &inner),
        Err(fail) => frame_refusal(alloc, fail),
    }
}

/// The stream key of inner fields, and their files, or why they are refused: their bytes.
pub fn inner_parts(alloc: Global, question: &Question<'_>) -> Result<String, Fault> {
    let bytes = bytes_of(alloc, question)?;
    match read(alloc, &bytes) {
        Ok(inner) => parts(alloc, &inner),
        Err(fail) => frame_refusal(alloc, fail),
    }
}

// The inner fields of these bytes, of which nothing is promised, so that what is proved of its
// caller stays short.
fn read(alloc: Global, bytes: &[u8]) -> Result<Inner, FrameFail> {
    read_inner(alloc, bytes)
}

// The stream and the length of inner fields.
fn summary(alloc: Global, inner: &Inner) -> Result<String, Fault> {
    let stream = inner.stream_id;
    let size = inner.size;
    Ok(format!(in alloc; "Ok({stream}, {size})")?)
}

// The stream key of inner fields, and their files.
fn parts(alloc: Global, inner: &Inner) -> Result<String, Fault> {
    let key = &inner.stream_key;
    let mut out = String::from_str(alloc, "key")?;
    put_digits(alloc, &mut out, key.lend(0, key.len()))?;
    for index in 0..inner.pool.len() {
        if let Some(item) = inner.pool.get(index) {
            put_item(alloc, &mut out, item)?;
        }
    }
    Ok(out)
}

// Adds a file: whether it is hidden, and its bytes.
fn put_item(alloc: Global, out: &mut String, item: &PoolItem) -> Result<(), AllocError> {
    out.push_str(if item.hidden { " hidden" } else { " shown" })?;
    put_digits(alloc, out, item.bytes.lend(0, item.bytes.len()))
}
