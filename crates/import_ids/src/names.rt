//! The names of entries, in memory that ends as zeros.

ghost use Rattle.std.specs.Prelude.{◌≡◌, ◌+◌, ◌≤◌, ◌++◌, [], IfOk, IfSome, OnOk, length, take};
ghost use Rattle.std.specs.Ordering.{as_partial_cmp, eq_by_cmp};
ghost use Rattle.std.specs.Cmp.{eq_by_cmp_equiv, partial_equiv_from_equiv, partial_order_from_total};
ghost use Rattle.std.proofs.Common.{refl};
ghost use Rattle.import_ids.specs.Names as spec;
ghost use Rattle.import_ids.specs.SeenNames.{name_bytes, name_cmp, name_total, texts_seen};
ghost use Rattle.vault_model.specs.Walk.{slash_joined, slashed};

use itoa::Buffer;
use outside_core::{NoMemory, Text};
use secret_core::Secret;
use std::alloc::Global;
use std::cmp::Ordering;

/// The most room that a length in digits and a colon take.
const LENGTH_ROOM: usize = 21;

/// What tells an imported entry apart from the others of its source: the names of its groups, from
/// below the root, its title, its user's name and its URL.
#[derive(Clone, Copy)]
pub struct EntryTexts<'a> {
    pub groups: &'a [Text],
    pub title: &'a [u8],
    pub user: &'a [u8],
    pub url: &'a [u8],
}

/// The texts of an entry in one, each after its length in bytes.
#[derive(Drop)]
pub(crate) struct EntryName {
    pub(crate) bytes: Secret,
}

impl PartialEq for EntryName {
    ghost eq = { eq_by_cmp name_cmp };

    ghost laws = { partial_equiv_from_equiv (eq_by_cmp_equiv name_total) };

    fn eq(&self, other: &EntryName) -> bool {
        self.cmp(other).is_eq()
    }
}

impl Eq for EntryName {
    ghost laws = { eq_by_cmp_equiv name_total };
}

impl PartialOrd for EntryName {
    ghost partial_cmp = { as_partial_cmp name_cmp };

    ghost laws = { partial_order_from_total name_total };

    fn partial_cmp(&self, other: &EntryName) -> Option<Ordering> {
        Some(self.cmp(other))
    }
}

impl Ord for EntryName {
    ghost cmp = { name_cmp };

    ghost total = { name_total };

    ghost matches_partial_cmp = { λ x y. refl };

    ghost matches_eq = { λ x y. refl };

    fn cmp(&self, other: &EntryName) -> Ordering {
        all_of(&self.bytes).cmp(all_of(&other.bytes))
    }
}

/// All bytes of a secret.
pub(crate) fn all_of(secret: &Secret) -> &[u8]
    ensures { result.now ≡ secret.now.bytes }
{
    secret.lend(0, secret.len())
}

// Puts names at the end of a path, each after a slash.
fn put_slashed(path: &mut Vec<u8>, names: &[Text]) -> Result<(), NoMemory>
    ensures { OnOk result (path.new.items ≡ path.old.items ++ slashed names.now) }
{
    for name in names {
        path.push(b'/')?;
        path.extend_from_slice(name.as_str().as_bytes())?;
    }
    Ok(())
}

// The names of groups with a slash between each two.
fn path_of(alloc: Global, names: &[Text]) -> Result<Vec<u8>, NoMemory>
    ensures { IfOk result (λ path. path.items ≡ slash_joined names.now) }
{
    let mut path = Vec::new(alloc);
    if let [first, names @ ..] = names {
        path.extend_from_slice(first.as_str().as_bytes())?;
        put_slashed(&mut path, names)?;
    }
    Ok(path)
}

// The room that four texts take at most, each after its length; none where it cannot be counted.
fn room_for(path: &[u8], texts: EntryTexts<'_>) -> Option<usize>
    ensures { IfSome result (λ room. room ≡ length path.now + length texts.entry.title.now
        + length texts.entry.user.now + length texts.entry.url.now + 84) }
{
    path.len()
        .checked_add(texts.title.len())?
        .checked_add(texts.user.len())?
        .checked_add(texts.url.len())?
        .checked_add(4 * LENGTH_ROOM)
}

// Puts a text after its length at the end of a name.
fn put_counted(name: &mut Secret, text: &[u8])
    requires { length text.now + 21 ≤ name.old.spare }
    ensures bytes { name.new.bytes ≡ name.old.bytes ++ spec.counted text.now }
    ensures spare { name.old.spare ≤ name.new.spare + length text.now + 21 }
{
    let mut digits = Buffer::new();
    name.extend(digits.format(text.len()).as_bytes());
    name.push(b':');
    name.extend(text);
}

// Puts the texts of an entry into a name, each after its length.
fn put_texts(name: &mut Secret, path: &[u8], texts: EntryTexts<'_>)
    requires { length path.now + length texts.title.now + length texts.user.now
        + length texts.url.now + 84 ≤ name.old.spare }
    ensures { name.new.bytes ≡ name.old.bytes ++ spec.counted path.now
        ++ spec.counted texts.entry.title.now ++ spec.counted texts.entry.user.now
        ++ spec.counted texts.entry.url.now }
{
    put_counted(name, path);
    put_counted(name, texts.title);
    put_counted(name, texts.user);
    put_counted(name, texts.url);
}

/// The name of an entry of these texts, without its number.
pub(crate) fn name_of(alloc: Global, texts: EntryTexts<'_>) -> Result<EntryName, NoMemory>
    ensures { IfOk result (λ name. name_bytes name ≡ spec.texts_name (texts_seen texts.entry)) }
{
    let path = path_of(alloc, texts.groups)?;
    let Some(room) = room_for(path.as_slice(), texts) else {
        return Err(NoMemory);
    };
    let mut bytes = Secret::with_room(alloc, room)?;
    put_texts(&mut bytes, path.as_slice(), texts);
    Ok(EntryName { bytes })
}
