//! The lines that report what became of a node.
ghost use Rattle.std.specs.Prelude.{◌≡◌, ◌≤◌, ◌+◌, ◌++◌, IfOk, IfSome, None, codes, length};
ghost use Rattle.tree_core.specs.NewNodes.{lent_value};
ghost use Rattle.cli_changes.specs.Reports as spec;

use outside_core::NoMemory;
use secret_core::Secret;
use std::alloc::Global;

/// How many bytes of a line are the same whatever it reports.
const FIXED: usize = 15;

// How many bytes a line of these parts has, if that many can be asked for.
fn line_room(parts: &[&[u8]]) -> Option<usize>
    ensures { IfSome result (λ room. room ≡ 15 + length (spec.parts_text parts.now)) }
{
    let mut room = FIXED;
    for part in parts {
        room = room.checked_add(part.len())?;
    }
    Some(room)
}

// Adds these parts.
fn add_parts(text: &mut Secret, parts: &[&[u8]])
    requires { length (spec.parts_text parts.now) ≤ text.old.spare }
    ensures bytes { text.new.bytes ≡ text.old.bytes ++ spec.parts_text parts.now }
    ensures spare { text.new.spare + length (spec.parts_text parts.now) ≡ text.old.spare }
{
    for part in parts {
        text.extend(part);
    }
}

/// A line of these parts after `Successfully `, up to a full stop. A name may be secret, so the line
/// is made in memory that is wiped.
pub(crate) fn line_of(alloc: Global, parts: &[&[u8]]) -> Result<Secret, NoMemory>
    ensures { IfOk result (λ text. text.bytes
        ≡ codes "Successfully " ++ spec.parts_text parts.now ++ codes ".\n") }
{
    let Some(room) = line_room(parts) else {
        return Err(NoMemory);
    };
    let mut text = Secret::with_room(alloc, room)?;
    text.extend(b"Successfully ");
    add_parts(&mut text, parts);
    text.extend(b".\n");
    Ok(text)
}

/// The line that reports what was done with a node of this name; nothing where the command is
/// quiet.
pub(crate) fn report(
    alloc: Global,
    quiet: bool,
    done: &[u8],
    name: &[u8],
    goal: Option<&str>,
) -> Result<Secret, NoMemory>
    ensures { IfOk result (λ text. text.bytes
        ≡ spec.report quiet done.now name.now (lent_value goal.entry)) }
{
    if quiet {
        return Secret::with_room(alloc, 0);
    }
    match goal {
        Some(group) => line_of(alloc, &[done, name, b" to group ", group.as_bytes()]),
        None => line_of(alloc, &[done, name]),
    }
}
