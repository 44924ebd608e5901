//! The passwords that an item had before.

ghost use Rattle.std.specs.Prelude.{◌≡◌, ◌≤◌, [], IfOk, MatchOption, OnOk, length, map};
ghost use Rattle.std.specs.List.{insert};
ghost use Rattle.bitwarden_items.specs.Passwords as spec;
ghost use Rattle.bitwarden_items.specs.Seen.{password_seen, passwords_seen};
ghost use Rattle.serde_json.specs.View.{view};

use bitwarden_fields::bitwarden_forms::{date, text, values};
use outside_core::{NoMemory, Text};
use serde_json::Value;
use std::alloc::Global;
use std::cmp::Ordering;
use vault_model::Stamp;

/// A password that an item had, and when it was last used.
#[derive(Drop)]
pub(crate) struct EarlierPassword {
    pub(crate) date: Stamp,
    pub(crate) password: Text,
}

/// The date of a member, or else this moment.
pub(crate) fn date_or(now: Stamp, value: &Value, name: &str) -> Stamp
    ensures { result ≡ spec.date_or now name.now (view value.now) }
{
    match value.get(name).and_then(Value::as_str) {
        Some(text) => date(text.as_bytes()).unwrap_or(now),
        None => now,
    }
}

// What an element of the history says at a moment.
fn earlier_password(alloc: Global, now: Stamp, value: &Value) -> Result<EarlierPassword, NoMemory>
    ensures { IfOk result (λ p. password_seen p
        ≡ spec.earlier_password now (view value.now)) }
{
    let password = Text::of(alloc, text(Some(value), "password"))?;
    Ok(EarlierPassword {
        date: date_or(now, value, "lastUsedDate"),
        password,
    })
}

// Orders passwords by their dates, and those of one date by their bytes.
fn compare(p: &EarlierPassword, q: &EarlierPassword) -> Ordering
    ensures { result ≡ spec.earlier_cmp (password_seen p.now) (password_seen q.now) }
{
    p.date.cmp(&q.date).then(p.password.cmp(&q.password))
}

// Where a password comes among rising ones, unless it is one of them.
fn place_among(rising: &[EarlierPassword], p: &EarlierPassword) -> Option<usize>
    ensures { MatchOption result
        (spec.put_password (password_seen p.now) (passwords_seen rising.now)
        ≡ passwords_seen rising.now)
        (λ at. (at ≤ length rising.now)
        × (spec.put_password (password_seen p.now) (passwords_seen rising.now)
        ≡ insert (passwords_seen rising.now) at (password_seen p.now))) }
{
    for at in 0..rising.len() {
        match compare(p, &rising[at]) {
            Ordering::Less => return Some(at),
            Ordering::Equal => return None,
            Ordering::Greater => {}
        }
    }
    Some(rising.len())
}

// Puts a password among rising ones, unless it is one of them.
fn put_password(rising: &mut Vec<EarlierPassword>, p: EarlierPassword) -> Result<(), NoMemory>
    ensures { OnOk result (passwords_seen rising.new.items
        ≡ spec.put_password (password_seen p) (passwords_seen rising.old.items)) }
{
    match place_among(rising.as_slice(), &p) {
        Some(at) => {
            rising.insert(at, p)?;
            Ok(())
        }
        None => {
            drop(p);
            Ok(())
        }
    }
}

// Puts what elements of a history say among rising passwords.
fn put_all(
    alloc: Global,
    rising: &mut Vec<EarlierPassword>,
    now: Stamp,
    history: &[Value],
) -> Result<(), NoMemory>
    ensures { OnOk result (passwords_seen rising.new.items
        ≡ spec.put_passwords (map (spec.earlier_password now) (map view history.now))
        (passwords_seen rising.old.items)) }
{
    for value in history {
        let p = earlier_password(alloc, now, value)?;
        put_password(rising, p)?;
    }
    Ok(())
}

/// The passwords that an item had before, rising by their dates, each once.
pub(crate) fn earlier_passwords(
    alloc: Global,
    now: Stamp,
    item: &Value,
) -> Result<Vec<EarlierPassword>, NoMemory>
    ensures { IfOk result (λ rising. passwords_seen rising.items
        ≡ spec.earlier_passwords now (view item.now)) }
{
    let mut rising = Vec::new(alloc);
    let history = values(Some(item), "passwordHistory");
    match put_all(alloc, &mut rising, now, history) {
        Ok(()) => Ok(rising),
        Err(fail) => {
            drop(rising);
            Err(fail)
        }
    }
}
