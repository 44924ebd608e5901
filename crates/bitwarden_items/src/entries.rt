//! The entries that items give.

ghost use Rattle.std.specs.Prelude.{◌≡◌, ◌+◌, ◌∷◌, IfOk, map, true};
ghost use Rattle.bitwarden_fields.specs.BitwardenForms.Refusals.{Returns};
ghost use Rattle.bitwarden_items.specs.Passwords as passwords_spec;
ghost use Rattle.bitwarden_items.specs.Seen.{passwords_seen};
ghost use Rattle.bitwarden_items.specs.Versions as spec;
ghost use Rattle.serde_json.specs.View.{view};
ghost use Rattle.vault_model.specs.Db.{greatest};
ghost use Rattle.vault_model.specs.SeenNodes.{entry_record, entry_row};
ghost use Rattle.vault_model.specs.Tree.{is_proper_entry};

use crate::passwords::{EarlierPassword, date_or, earlier_passwords};
use crate::versions::{history_of, version_of};
use bitwarden_fields::bitwarden_forms::{BitwardenFail, text};
use bitwarden_fields::login_of;
use outside_core::NoMemory;
use serde_json::Value;
use std::alloc::Global;
use uuid_core::Uuid;
use vault_model::{Entry, Stamp};

// The latest of a time and of the seconds after the dates of earlier passwords.
fn latest_of(seconds: u64, earlier: &[EarlierPassword]) -> u64
    ensures { result ≡ greatest (seconds ∷ map
        (λ (p : passwords_spec.EarlierPassword). p.date + 1) (passwords_seen earlier.now)) }
{
    let mut latest = seconds;
    for at in 0..earlier.len() {
        latest = latest.max(earlier[at].date.seconds() + 1);
    }
    latest
}

// The stamp of a time, unless it is after the year 9999.
fn in_time(seconds: u64) -> Result<Stamp, BitwardenFail>
    ensures { result ≡ spec.in_time seconds }
{
    match Stamp::of(seconds) {
        Some(stamp) => Ok(stamp),
        None => Err(BitwardenFail::StampLimit(seconds)),
    }
}

// The entry of an item that was modified then, under this id.
fn entry_modified(
    alloc: Global,
    now: Stamp,
    id: Uuid,
    item: &Value,
    modified: Stamp,
    earlier: &[EarlierPassword],
) -> Result<Entry, NoMemory>
    requires { passwords_seen earlier.now ≡ passwords_spec.earlier_passwords now (view item.now) }
    ensures is { IfOk result (λ entry. entry_row entry
        ≡ (id, spec.entry_modified now (view item.now) modified)) }
    ensures proper { IfOk result (λ entry. is_proper_entry (entry_record entry) ≡ true) }
{
    let history = history_of(alloc, now, item, earlier)?;
    match version_of(alloc, now, item, text(login_of(item), "password"), modified) {
        Ok(current) => Ok(Entry {
            id,
            placed: now,
            previous: Uuid::nil(),
            current,
            history,
        }),
        Err(fail) => {
            drop(history);
            Err(fail)
        }
    }
}

// The entry of an item with these earlier passwords, under this id.
fn entry_with(
    alloc: Global,
    now: Stamp,
    id: Uuid,
    item: &Value,
    earlier: &[EarlierPassword],
) -> Result<Entry, BitwardenFail>
    requires { passwords_seen earlier.now ≡ passwords_spec.earlier_passwords now (view item.now) }
    ensures is { Returns entry_row result (spec.item_row now id (view item.now)) }
    ensures proper { IfOk result (λ entry. is_proper_entry (entry_record entry) ≡ true) }
{
    let revised = date_or(now, item, "revisionDate").seconds();
    let modified = in_time(latest_of(revised, earlier))?;
    match entry_modified(alloc, now, id, item, modified, earlier) {
        Ok(entry) => Ok(entry),
        Err(NoMemory) => Err(BitwardenFail::NoMemory),
    }
}

/// The entry that an item gives under an id, put there at a moment. Each password of its
/// `passwordHistory` gives a version, modified when that was last used; versions that are alike stand
/// once. The current version is modified at `revisionDate`, but after these. A date that is missing is
/// that moment.
///
/// # Errors
///
/// [`BitwardenFail::StampLimit`] where the current version would be modified after the year 9999.
/// [`BitwardenFail::NoMemory`] where memory runs out.
pub fn entry_of(alloc: Global, now: Stamp, id: Uuid, item: &Value) -> Result<Entry, BitwardenFail>
    ensures is { Returns entry_row result (spec.item_row now id (view item.now)) }
    ensures proper { IfOk result (λ entry. is_proper_entry (entry_record entry) ≡ true) }
{
    let earlier = earlier_passwords(alloc, now, item)?;
    let made = entry_with(alloc, now, id, item, earlier.as_slice());
    drop(earlier);
    made
}
