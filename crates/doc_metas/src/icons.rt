//! The icons that a database brings.

ghost use Rattle.std.specs.Prelude.{◌≡◌, List, []};
ghost use Rattle.doc_forms.specs.Children.{by_name};
ghost use Rattle.doc_forms.specs.Metas as spec;
ghost use Rattle.doc_walk.specs.Steps.{Steps};
ghost use Rattle.doc_walk.specs.Tags.{contents_step};

use doc_forms::DocFail;
use doc_walk::doc_values::{IdValue, KeyedList, OpenBytes, TextValue, TimeValue};
use doc_walk::{Parts, Tag, Walk, never, read_whole};
use outside_core::{Bytes, List, Text};
use std::alloc::Global;
use uuid_core::Uuid;
use vault_model::Icon;

/// What is known of an `Icon` before its end.
#[derive(Drop)]
struct IconDraft {
    icon: Icon,
}

impl Parts for IconDraft {
    ghost use Rattle.vault_model.specs.declared.metas.Icon.{Icon};

    ghost Bare = { Icon };

    ghost seen = { λ d. d.icon };

    ghost child = { λ s. by_name s (spec.icon_rows s) };

    fn read_child(&mut self, walk: &mut Walk<'_>, tag: &Tag<'_>) -> Result<(), DocFail> {
        match tag.name {
            "UUID" => walk.keep::<IdValue>(tag, &mut self.icon.id),
            "Data" => walk.keep::<OpenBytes>(tag, &mut self.icon.bytes),
            "Name" => walk.keep::<TextValue>(tag, &mut self.icon.name),
            "LastModificationTime" => walk.keep::<TimeValue>(tag, &mut self.icon.changed),
            _ => walk.pass(tag),
        }
    }
}

/// An icon of which nothing is known yet.
fn no_icon(alloc: Global) -> Icon
    ensures { result ≡ spec.no_icon }
{
    Icon {
        id: Uuid::nil(),
        bytes: Bytes::new(alloc),
        name: Text::new(alloc),
        changed: never(),
    }
}

/// The icon whose start tag was given.
fn icon(walk: &mut Walk<'_>, tag: &Tag<'_>) -> Result<Icon, DocFail>
    ensures { Steps (λ i. i) walk.old walk.new result
        (contents_step (λ s. by_name s (spec.icon_rows s)) spec.no_icon tag.now) }
{
    let first = IconDraft {
        icon: no_icon(walk.alloc()),
    };
    match read_whole(walk, tag, first) {
        Ok(draft) => Ok(draft.icon),
        Err(refusal) => Err(refusal),
    }
}

/// What is known of a `CustomIcons` before its end.
#[derive(Drop)]
struct IconsDraft {
    icons: KeyedList<Icon>,
}

impl Parts for IconsDraft {
    ghost use Rattle.vault_model.specs.declared.metas.Icon.{Icon};

    ghost Bare = { List Icon };

    ghost seen = { λ d. d.icons };

    ghost child = { λ s. by_name s (spec.icons_rows s) };

    fn read_child(&mut self, walk: &mut Walk<'_>, tag: &Tag<'_>) -> Result<(), DocFail> {
        match tag.name {
            "Icon" => {
                let icon = icon(walk, tag)?;
                self.icons.put(icon)
            }
            _ => walk.pass(tag),
        }
    }
}

/// The icons of a `CustomIcons`, whose start tag was given, put in their place.
pub(crate) fn icons(
    walk: &mut Walk<'_>,
    tag: &Tag<'_>,
    into: &mut List<Icon>,
) -> Result<(), DocFail>
    ensures { Steps (λ _. into.new) walk.old walk.new result
        (contents_step (λ s. by_name s (spec.icons_rows s)) [] tag.now) }
{
    let first = IconsDraft {
        icons: KeyedList::new(walk.alloc()),
    };
    match read_whole(walk, tag, first) {
        Ok(draft) => {
            *into = draft.icons.into_list();
            Ok(())
        }
        Err(refusal) => Err(refusal),
    }
}
