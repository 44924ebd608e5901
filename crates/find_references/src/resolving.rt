//! Replacing references.

ghost use Rattle.std.specs.Prelude.{◌≡◌, ◌≤◌, OnOk};
ghost use Rattle.find_references.specs.Resolved.{after_step, after_steps, copied, resolved, sought, steps};
ghost use Rattle.find_references.specs.inside.Seen.{made_seen};
ghost use Rattle.find_references.specs.inside.SeenEntries.{IsIndexed, rows_of};
ghost use Rattle.find_references.specs.Results.{meaning_of};
ghost use Rattle.outside_core.specs.Results.{Returns};
ghost use Rattle.vault_model.specs.SeenDoc.{doc_seen};

use crate::FindFail;
use crate::fields::part_value;
use crate::reading::reference_at;
use crate::seeking::Entries;
use outside_core::NoMemory;
use secret_core::Secret;
use std::alloc::Global;
use std::collections::BTreeMap;
use vault_model::{Doc, Entry};

/// How many references may be looked for.
const MOST_REFERENCES: u64 = 65_536;

/// How many bytes a resolved text may have.
const MOST_BYTES: usize = 1_048_576;

/// How many replacements may lie within one another.
const MOST_LEVELS: u8 = 10;

/// A text that is being made, and how many references were looked for so far.
#[derive(Drop)]
struct Resolving {
    references: u64,
    text: Secret,
}

// Makes room for so many bytes after a text, and for as many as it has.
fn reserve(alloc: Global, text: &mut Secret, more: usize) -> Result<(), NoMemory>
    ensures bytes { text.new.bytes ≡ text.old.bytes }
    ensures spare { OnOk result (more ≤ text.new.spare) }
{
    if more <= text.spare() {
        return Ok(());
    }
    let Some(room) = text.len().checked_add(more) else {
        return Err(NoMemory);
    };
    let mut larger = Secret::with_room(alloc, room.saturating_add(text.len()))?;
    larger.extend(text.lend(0, text.len()));
    *text = larger;
    Ok(())
}

// Copies bytes, unless the text passes its limit by them.
fn copy(alloc: Global, made: &mut Resolving, bytes: &[u8]) -> Result<(), FindFail>
    ensures { Returns meaning_of (λ _. made_seen made.new) result
        (after_step (made_seen made.old) (copied bytes.now)) }
{
    if made.text.len().saturating_add(bytes.len()) > MOST_BYTES {
        return Err(FindFail::TooMuch(MOST_BYTES as u64 + 1));
    }
    reserve(alloc, &mut made.text, bytes.len())?;
    made.text.extend(bytes);
    Ok(())
}

// Counts a reference, unless there are too many by it.
fn count(made: &mut Resolving) -> Result<(), FindFail>
    ensures { Returns meaning_of (λ _. made_seen made.new) result
        (after_step (made_seen made.old) sought) }
{
    if made.references >= MOST_REFERENCES {
        return Err(FindFail::TooMuch(MOST_REFERENCES + 1));
    }
    made.references += 1;
    Ok(())
}

// Adds a text with its references resolved, in which so many replacements may lie within one
// another.
fn add_resolved(
    alloc: Global,
    made: &mut Resolving,
    entries: &mut Entries<'_>,
    levels: u8,
    text: &[u8],
) -> Result<(), FindFail>
    requires { IsIndexed entries.old }
    ensures made { Returns meaning_of (λ _. made_seen made.new) result
        (after_steps (steps levels (rows_of entries.old) text.now) (made_seen made.old)) }
    ensures root { entries.new.root ≡ entries.old.root }
    ensures indexed { OnOk result (IsIndexed entries.new) }
{
    if levels == 0 {
        return copy(alloc, made, text);
    }
    let mut rest = text;
    while !rest.is_empty() {
        let Some(reference) = reference_at(rest) else {
            copy(alloc, made, &rest[..1])?;
            rest = &rest[1..];
            continue;
        };
        count(made)?;
        match entries.find(alloc, reference.place, reference.text)? {
            Some(entry) => {
                let mut buffer = [0; 32];
                let digits = entry.id.encode_simple(&mut buffer);
                let value = part_value(reference.wanted, entry, digits.as_bytes());
                add_resolved(alloc, made, entries, levels - 1, value)?;
            }
            None => copy(alloc, made, reference.written)?,
        }
        rest = &rest[reference.written.len()..];
    }
    Ok(())
}

/// A text with its references to entries of a document resolved. Each reference
/// `{REF:W@S:TEXT}` is replaced by the part W of the first entry that has the text at S, and stays
/// where there is no such entry. What takes its place is resolved too, through ten levels.
#[tactic(auto, unfolding(crate::specs::Resolved::resolved))]
pub fn resolve(alloc: Global, doc: &Doc, text: &[u8]) -> Result<Secret, FindFail>
    ensures { Returns meaning_of (λ secret. secret.bytes) result
        (resolved (doc_seen doc.now) text.now) }
{
    let mut made = Resolving {
        references: 0,
        text: Secret::with_room(alloc, text.len())?,
    };
    let mut entries = Entries {
        root: &doc.root,
        looks: 0,
        indexes: BTreeMap::new(alloc),
    };
    add_resolved(alloc, &mut made, &mut entries, MOST_LEVELS, text)?;
    Ok(made.text)
}
