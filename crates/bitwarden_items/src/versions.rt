//! The versions of the entry that an item gives.

ghost use Rattle.std.specs.Prelude.{◌≡◌, ◌∷◌, ◌++◌, [], IfOk, OnOk, map, true};
ghost use Rattle.std.specs.List.{list_all};
ghost use Rattle.bitwarden_items.specs.Proper.{are_proper};
ghost use Rattle.bitwarden_items.specs.Seen.{password_seen, passwords_seen};
ghost use Rattle.bitwarden_items.specs.Versions as spec;
ghost use Rattle.bitwarden_fields.specs.ImportTree.Entries.{content_at};
ghost use Rattle.serde_json.specs.View.{view};
ghost use Rattle.vault_model.specs.Proper.{is_proper_content};
ghost use Rattle.vault_model.specs.Seen.{bare_content, bare_field};
ghost use Rattle.vault_model.specs.SeenNodes.{bare_version};

use crate::passwords::{EarlierPassword, date_or};
use bitwarden_fields::fields_of;
use outside_core::{List, NoMemory, Text};
use serde_json::Value;
use std::alloc::Global;
use vault_model::{AutoType, Content, Field, Stamp, Stats, Version};

// What an entry says that has these fields and was made then.
fn content_of(alloc: Global, fields: List<Field>, created: Stamp, now: Stamp) -> Content
    ensures { bare_content result ≡ content_at now created (map bare_field fields) }
{
    Content {
        created,
        expiry: now,
        expires: false,
        icon: 0,
        custom_icon: None,
        fields,
        attachments: List::new(alloc),
        tags: Text::new(alloc),
        fore: Text::new(alloc),
        back: Text::new(alloc),
        url_override: Text::new(alloc),
        auto_type: AutoType {
            enabled: true,
            obfuscation: 0,
            sequence: Text::new(alloc),
            pairs: List::new(alloc),
        },
        items: List::new(alloc),
        quality: true,
    }
}

/// An item as a version with this password, which was modified then.
pub(crate) fn version_of(
    alloc: Global,
    now: Stamp,
    item: &Value,
    password: &str,
    modified: Stamp,
) -> Result<Version, NoMemory>
    ensures is { IfOk result (λ version. bare_version version
        ≡ spec.version_at now (view item.now) password.now modified) }
    ensures proper { IfOk result (λ version.
        is_proper_content (bare_content version.content) ≡ true) }
{
    let created = date_or(now, item, "creationDate");
    let fields = fields_of(alloc, password, item)?;
    Ok(Version {
        modified,
        content: content_of(alloc, fields, created, now),
        stats: Stats {
            accessed: now,
            usage: 0,
        },
    })
}

// Puts a version with an earlier password after the others.
fn add_version(
    alloc: Global,
    history: &mut List<Version>,
    now: Stamp,
    item: &Value,
    earlier: &EarlierPassword,
) -> Result<(), NoMemory>
    ensures is { OnOk result (map bare_version history.new ≡ map bare_version history.old
        ++ spec.earlier_version now (view item.now) (password_seen earlier.now) ∷ []) }
    ensures proper { are_proper (map bare_version history.old) ≡ true
        → OnOk result (are_proper (map bare_version history.new) ≡ true) }
{
    let version = version_of(alloc, now, item, earlier.password.as_str(), earlier.date)?;
    match history.push(version) {
        Ok(()) => Ok(()),
        Err(_) => Err(NoMemory),
    }
}

// Puts versions with earlier passwords after the others.
fn add_versions(
    alloc: Global,
    history: &mut List<Version>,
    now: Stamp,
    item: &Value,
    earlier: &[EarlierPassword],
) -> Result<(), NoMemory>
    ensures is { OnOk result (map bare_version history.new ≡ map bare_version history.old
        ++ map (spec.earlier_version now (view item.now)) (passwords_seen earlier.now)) }
    ensures proper { are_proper (map bare_version history.old) ≡ true
        → OnOk result (are_proper (map bare_version history.new) ≡ true) }
{
    for at in 0..earlier.len() {
        add_version(alloc, history, now, item, &earlier[at])?;
    }
    Ok(())
}

/// The versions of an item with the passwords that it had before.
pub(crate) fn history_of(
    alloc: Global,
    now: Stamp,
    item: &Value,
    earlier: &[EarlierPassword],
) -> Result<List<Version>, NoMemory>
    ensures is { IfOk result (λ history. map bare_version history
        ≡ map (spec.earlier_version now (view item.now)) (passwords_seen earlier.now)) }
    ensures proper { IfOk result (λ history. are_proper (map bare_version history) ≡ true) }
{
    let mut history = List::new(alloc);
    match add_versions(alloc, &mut history, now, item, earlier) {
        Ok(()) => Ok(history),
        Err(fail) => {
            drop(history);
            Err(fail)
        }
    }
}
