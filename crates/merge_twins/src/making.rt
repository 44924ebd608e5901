//! The making of two copies of one database.
ghost use Rattle.std.specs.Prelude.{◌≡◌, ◌<◌, ◌≤◌, [], ◌∷◌, ◌++◌, not, if◌then◌else◌, IfOk, OnOk};
ghost use Rattle.vault_model.specs.Empty.{new_settings};
ghost use Rattle.vault_model.specs.SeenDoc.{doc_seen};
ghost use Rattle.merge_twins.specs.Rules.{rules_of};
ghost use Rattle.merge_twins.specs.Twins.{changed_once, first_twin, second_twin, tomb_of, twin, twin_meta, twin_tombs};

use crate::groups::root;
use crate::pairs::Twins;
use crate::rules::{Which, entry_id, is_there, time};
use outside_core::{List, NoMemory, Text};
use std::alloc::Global;
use uuid_core::Uuid;
use vault_making::copies::put_last;
use vault_model::{Bin, Doc, Meta, MetaSettings, MetaView, Protection, Timed, Tombstone};

// Puts the tombstone of an entry after others, if it is not in a copy.
fn put_tomb(which: Which, number: u32, tombs: &mut List<Tombstone>) -> Result<(), NoMemory>
    requires { number < 50_000 }
    ensures { OnOk result (tombs.new ≡ tombs.old
        ++ (if not ((rules_of which).is_there number) then tomb_of number ∷ [] else [])) }
{
    if !is_there(which, number) {
        put_last(
            tombs,
            Tombstone {
                id: entry_id(number),
                deleted: time(900_000),
            },
        )?;
    }
    Ok(())
}

// Puts the tombstones of a copy of so many entries after others.
fn put_tombs(which: Which, count: u32, tombs: &mut List<Tombstone>) -> Result<(), NoMemory>
    requires { count ≤ 50_000 }
    ensures { OnOk result (tombs.new ≡ tombs.old ++ twin_tombs (rules_of which) count) }
{
    for number in 0..count {
        put_tomb(which, number, tombs)?;
    }
    Ok(())
}

// An empty text.
fn no_text(alloc: Global) -> Timed<Text>
    ensures { result ≡ changed_once [] }
{
    Timed {
        changed: time(1_000),
        value: Text::new(alloc),
    }
}

// The settings of a new database.
fn settings(alloc: Global) -> MetaSettings
    ensures { result ≡ new_settings }
{
    MetaSettings {
        color: Text::new(alloc),
        days: 365,
        key_rec: -1,
        key_force: -1,
        protect: Protection {
            title: false,
            user: false,
            password: true,
            url: false,
            notes: false,
        },
        history_items: 10,
        history_size: 6_291_456,
        key_force_once: false,
    }
}

// What both copies say of themselves.
fn meta(alloc: Global) -> Meta
    ensures { result ≡ twin_meta }
{
    Meta {
        name: no_text(alloc),
        description: no_text(alloc),
        user: no_text(alloc),
        bin: Timed {
            changed: time(1_000),
            value: Bin {
                enabled: true,
                id: Uuid::nil(),
            },
        },
        templates: Timed {
            changed: time(1_000),
            value: Uuid::nil(),
        },
        settings: Timed {
            changed: time(1_000),
            value: settings(alloc),
        },
        icons: List::new(alloc),
        items: List::new(alloc),
        view: MetaView {
            key_changed: time(1_000),
            last_group: Uuid::nil(),
            last_top: Uuid::nil(),
        },
    }
}

// A copy of a database of so many entries.
fn copy_of(alloc: Global, which: Which, count: u32) -> Result<Doc, NoMemory>
    requires { count ≤ 50_000 }
    ensures { IfOk result (λ doc. doc_seen doc ≡ twin (rules_of which) count) }
{
    let root = root(alloc, which, count)?;
    let mut tombs = List::new(alloc);
    match put_tombs(which, count, &mut tombs) {
        Ok(()) => Ok(Doc {
            meta: meta(alloc),
            root,
            tombs,
        }),
        Err(refusal) => {
            drop(root);
            drop(tombs);
            Err(refusal)
        }
    }
}

/// The copies of a database of so many entries. The only refusal is that memory ran out.
pub fn twins(alloc: Global, count: u32) -> Result<Twins, NoMemory>
    requires { count ≤ 50_000 }
    ensures first { IfOk result (λ twins. doc_seen twins.first ≡ first_twin count) }
    ensures second { IfOk result (λ twins. doc_seen twins.second ≡ second_twin count) }
{
    let first = copy_of(alloc, Which::First, count)?;
    match copy_of(alloc, Which::Second, count) {
        Ok(second) => Ok(Twins { first, second }),
        Err(refusal) => {
            drop(first);
            Err(refusal)
        }
    }
}
