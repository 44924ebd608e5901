//! What is known of a database before its document says anything of it.

ghost use Rattle.std.specs.Prelude.{◌≡◌, []};
ghost use Rattle.vault_model.specs.Empty.{new_meta, new_settings, unchanged};
ghost use Rattle.doc_forms.specs.Metas as spec;
ghost use Rattle.doc_forms.specs.SeenDrafts.{meta_parts};

use crate::protections::password_alone;
use doc_forms::MetaBuilder;
use doc_walk::never;
use outside_core::{List, Text};
use std::alloc::Global;
use uuid_core::Uuid;
use vault_model::{Bin, Meta, MetaSettings, MetaView, Timed};

/// The age of a key that is not limited.
pub(crate) const NO_LIMIT: i64 = -1;

/// A text that was never changed.
fn no_text(alloc: Global) -> Timed<Text>
    ensures { result ≡ unchanged [] }
{
    Timed {
        changed: never(),
        value: Text::new(alloc),
    }
}

/// The settings where the document says none.
fn first_settings(alloc: Global) -> MetaSettings
    ensures { result ≡ new_settings }
{
    MetaSettings {
        color: Text::new(alloc),
        days: 365,
        key_rec: NO_LIMIT,
        key_force: NO_LIMIT,
        protect: password_alone(),
        history_items: 10,
        history_size: 6_291_456,
        key_force_once: false,
    }
}

/// What a database says of itself where the document says nothing.
fn first_meta(alloc: Global) -> Meta
    ensures { result ≡ new_meta }
{
    Meta {
        name: no_text(alloc),
        description: no_text(alloc),
        user: no_text(alloc),
        bin: Timed {
            changed: never(),
            value: Bin {
                enabled: true,
                id: Uuid::nil(),
            },
        },
        templates: Timed {
            changed: never(),
            value: Uuid::nil(),
        },
        settings: Timed {
            changed: never(),
            value: first_settings(alloc),
        },
        icons: List::new(alloc),
        items: List::new(alloc),
        view: MetaView {
            key_changed: never(),
            last_group: Uuid::nil(),
            last_top: Uuid::nil(),
        },
    }
}

/// What is known of a `Meta` at its start.
pub fn no_meta(alloc: Global) -> MetaBuilder
    ensures { meta_parts result ≡ spec.no_meta }
{
    MetaBuilder {
        meta: first_meta(alloc),
        hash: None,
        binaries: List::new(alloc),
    }
}
