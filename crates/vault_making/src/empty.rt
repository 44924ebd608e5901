//! A new database.

ghost use Rattle.std.specs.Prelude.{◌≡◌, ◌≢◌, [], IfOk};
ghost use Rattle.vault_model.specs.Db.{nil_id};
ghost use Rattle.vault_model.specs.Empty.{empty_bare, empty_tree, new_meta, new_settings, unchanged};
ghost use Rattle.vault_model.specs.SeenDoc.{doc_seen};
ghost use Rattle.vault_model.specs.SeenNodes.{tree_seen};

use outside_core::{List, NoMemory, Text};
use std::alloc::Global;
use uuid_core::Uuid;
use vault_model::{
    Bin, Doc, Group, GroupContent, GroupState, GroupView, Meta, MetaSettings, MetaView, Protection,
    Stamp, Stats, Timed, Tri,
};

// The first second of the year 1, the time of what was never done.
fn never() -> Stamp
    ensures { result ≡ 0 }
{
    Stamp::of(0).unwrap()
}

fn unchanged_text(alloc: Global) -> Timed<Text>
    ensures { result ≡ unchanged [] }
{
    Timed {
        changed: never(),
        value: Text::new(alloc),
    }
}

fn first_settings(alloc: Global) -> MetaSettings
    ensures { result ≡ new_settings }
{
    MetaSettings {
        color: Text::new(alloc),
        days: 365,
        key_rec: -1,
        key_force: -1,
        protect: Protection {
            title: false,
            user: false,
            password: true,
            url: false,
            notes: false,
        },
        history_items: 10,
        history_size: 6_291_456,
        key_force_once: false,
    }
}

fn first_meta(alloc: Global) -> Meta
    ensures { result ≡ new_meta }
{
    Meta {
        name: unchanged_text(alloc),
        description: unchanged_text(alloc),
        user: unchanged_text(alloc),
        bin: Timed {
            changed: never(),
            value: Bin {
                enabled: true,
                id: Uuid::nil(),
            },
        },
        templates: Timed {
            changed: never(),
            value: Uuid::nil(),
        },
        settings: Timed {
            changed: never(),
            value: first_settings(alloc),
        },
        icons: List::new(alloc),
        items: List::new(alloc),
        view: MetaView {
            key_changed: never(),
            last_group: Uuid::nil(),
            last_top: Uuid::nil(),
        },
    }
}

fn empty_root(alloc: Global, root: Uuid, now: Stamp) -> Result<Group, NoMemory>
    ensures { IfOk result (λ group. tree_seen group ≡ empty_tree root now) }
{
    let name = Text::of(alloc, "Root")?;
    Ok(Group {
        id: root,
        placed: now,
        previous: Uuid::nil(),
        state: GroupState {
            modified: now,
            content: GroupContent {
                created: now,
                expiry: now,
                expires: false,
                name,
                notes: Text::new(alloc),
                icon: 48,
                custom_icon: None,
                sequence: Text::new(alloc),
                auto_type: Tri::Inherit,
                searching: Tri::Inherit,
                items: List::new(alloc),
                tags: Text::new(alloc),
            },
            stats: Stats {
                accessed: now,
                usage: 0,
            },
        },
        view: GroupView {
            expanded: true,
            top_entry: Uuid::nil(),
        },
        entries: List::new(alloc),
        groups: List::new(alloc),
    })
}

/// The document of a new database: a root group named `Root`, all of whose times are now, with
/// nothing in it, and settings as KeePass writes them for a new database. The only refusal is that
/// memory ran out.
pub fn empty_doc(alloc: Global, root: Uuid, now: Stamp) -> Result<Doc, NoMemory>
    requires { root ≢ nil_id }
    ensures { IfOk result (λ doc. doc_seen doc ≡ empty_bare root now) }
{
    match empty_root(alloc, root, now) {
        Ok(root) => Ok(Doc {
            meta: first_meta(alloc),
            root,
            tombs: List::new(alloc),
        }),
        Err(refusal) => Err(refusal),
    }
}
