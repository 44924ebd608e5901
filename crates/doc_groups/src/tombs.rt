//! Tombstones: the ids of what was deleted.

ghost use Rattle.std.specs.Prelude.{◌≡◌, ◌++◌, ◌∷◌, List, [], Ok};
ghost use Rattle.doc_forms.specs.Children.{by_name};
ghost use Rattle.doc_forms.specs.Documents as spec;
ghost use Rattle.doc_forms.specs.Refusals.{Returns};
ghost use Rattle.doc_entries.specs.DocWalk.Steps.{Steps};
ghost use Rattle.doc_entries.specs.DocWalk.Tags.{contents_step};

use doc_entries::doc_values::{IdValue, TimeValue};
use doc_entries::doc_walk::{Parts, Tag, Walk, never, read_whole};
use doc_forms::DocFail;
use outside_core::List;
use uuid_core::Uuid;
use vault_model::Tombstone;

/// What is known of a `DeletedObject` before its end.
#[derive(Drop)]
struct TombDraft {
    tomb: Tombstone,
}

impl Parts for TombDraft {
    ghost use Rattle.vault_model.specs.declared.nodes.Tombstone.{Tombstone};

    ghost Bare = { Tombstone };

    ghost seen = { λ d. d.tomb };

    ghost child = { λ s. by_name s (spec.tomb_rows s) };

    fn read_child(&mut self, walk: &mut Walk<'_>, tag: &Tag<'_>) -> Result<(), DocFail> {
        match tag.name {
            "UUID" => walk.keep::<IdValue>(tag, &mut self.tomb.id),
            "DeletionTime" => walk.keep::<TimeValue>(tag, &mut self.tomb.deleted),
            _ => walk.pass(tag),
        }
    }
}

/// A tombstone of which nothing is known yet.
fn no_tomb() -> Tombstone
    ensures { result ≡ spec.no_tomb }
{
    Tombstone {
        id: Uuid::nil(),
        deleted: never(),
    }
}

/// Appends a tombstone to others.
fn add_tomb(tombs: &mut List<Tombstone>, tomb: Tombstone) -> Result<(), DocFail>
    ensures { Returns (λ _. tombs.new) result (Ok (tombs.old ++ tomb ∷ [])) }
{
    match tombs.push(tomb) {
        Ok(()) => Ok(()),
        Err(_) => Err(DocFail::NoMemory),
    }
}

/// What is known of a `DeletedObjects` before its end.
#[derive(Drop)]
struct TombsDraft {
    tombs: List<Tombstone>,
}

impl Parts for TombsDraft {
    ghost use Rattle.vault_model.specs.declared.nodes.Tombstone.{Tombstone};

    ghost Bare = { List Tombstone };

    ghost seen = { λ d. d.tombs };

    ghost child = { λ s. by_name s (spec.tombs_rows s) };

    fn read_child(&mut self, walk: &mut Walk<'_>, tag: &Tag<'_>) -> Result<(), DocFail> {
        match tag.name {
            "DeletedObject" => {
                let draft = read_whole(walk, tag, TombDraft { tomb: no_tomb() })?;
                add_tomb(&mut self.tombs, draft.tomb)
            }
            _ => walk.pass(tag),
        }
    }
}

/// The tombstones of a `DeletedObjects`, whose start tag was given, put in their place.
pub(crate) fn tombs(
    walk: &mut Walk<'_>,
    tag: &Tag<'_>,
    into: &mut List<Tombstone>,
) -> Result<(), DocFail>
    ensures { Steps (λ _. into.new) walk.old walk.new result
        (contents_step (λ s. by_name s (spec.tombs_rows s)) [] tag.now) }
{
    let first = TombsDraft {
        tombs: List::new(walk.alloc()),
    };
    match read_whole(walk, tag, first) {
        Ok(draft) => {
            *into = draft.tombs;
            Ok(())
        }
        Err(refusal) => Err(refusal),
    }
}
