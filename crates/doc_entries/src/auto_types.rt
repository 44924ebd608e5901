//! How entries are typed into windows.

ghost use Rattle.std.specs.Prelude.{◌≡◌, Ok};
ghost use Rattle.doc_forms.specs.Children.{by_name};
ghost use Rattle.doc_forms.specs.Entries as spec;
ghost use Rattle.doc_forms.specs.Refusals.{Returns};
ghost use Rattle.doc_walk.specs.Steps.{Steps};
ghost use Rattle.doc_walk.specs.Tags.{contents_step};

use doc_forms::DocFail;
use doc_walk::doc_values::{Number32, TextValue, TrueUnlessFalse};
use doc_walk::{Parts, Tag, Walk, read_whole};
use outside_core::{List, Text};
use std::alloc::Global;
use vault_model::{Association, AutoType};

/// What is known of an `Association` before its end.
#[derive(Drop)]
struct AssociationDraft {
    pair: Association,
}

impl Parts for AssociationDraft {
    ghost use Rattle.vault_model.specs.declared.contents.Association.{Association};

    ghost Bare = { Association };

    ghost seen = { λ d. d.pair };

    ghost child = { λ s. by_name s (spec.association_rows s) };

    fn read_child(&mut self, walk: &mut Walk<'_>, tag: &Tag<'_>) -> Result<(), DocFail> {
        match tag.name {
            "Window" => walk.keep::<TextValue>(tag, &mut self.pair.window),
            "KeystrokeSequence" => walk.keep::<TextValue>(tag, &mut self.pair.keys),
            _ => walk.pass(tag),
        }
    }
}

/// The window and its key strokes whose start tag was given.
fn association(walk: &mut Walk<'_>, tag: &Tag<'_>) -> Result<Association, DocFail>
    ensures { Steps (λ p. p) walk.old walk.new result
        (contents_step (λ s. by_name s (spec.association_rows s)) spec.no_association tag.now) }
{
    let alloc = walk.alloc();
    let first = AssociationDraft {
        pair: Association {
            window: Text::new(alloc),
            keys: Text::new(alloc),
        },
    };
    match read_whole(walk, tag, first) {
        Ok(draft) => Ok(draft.pair),
        Err(refusal) => Err(refusal),
    }
}

/// Appends a pair of a window and key strokes to those that are known.
fn add_association(auto_type: &mut AutoType, pair: Association) -> Result<(), DocFail>
    ensures { Returns (λ _. auto_type.new) result (Ok (spec.with_association auto_type.old pair)) }
{
    match auto_type.pairs.push(pair) {
        Ok(()) => Ok(()),
        Err(_) => Err(DocFail::NoMemory),
    }
}

/// What is known of an `AutoType` before its end.
#[derive(Drop)]
struct AutoTypeDraft {
    auto_type: AutoType,
}

impl Parts for AutoTypeDraft {
    ghost use Rattle.vault_model.specs.declared.contents.AutoType.{AutoType};

    ghost Bare = { AutoType };

    ghost seen = { λ d. d.auto_type };

    ghost child = { λ s. by_name s (spec.auto_type_rows s) };

    fn read_child(&mut self, walk: &mut Walk<'_>, tag: &Tag<'_>) -> Result<(), DocFail> {
        match tag.name {
            "Enabled" => walk.keep::<TrueUnlessFalse>(tag, &mut self.auto_type.enabled),
            "DataTransferObfuscation" => {
                walk.keep::<Number32<0>>(tag, &mut self.auto_type.obfuscation)
            }
            "DefaultSequence" => walk.keep::<TextValue>(tag, &mut self.auto_type.sequence),
            "Association" => {
                let pair = association(walk, tag)?;
                add_association(&mut self.auto_type, pair)
            }
            _ => walk.pass(tag),
        }
    }
}

/// How an entry is typed where no element says it.
pub(crate) fn no_auto_type(alloc: Global) -> AutoType
    ensures { result ≡ spec.no_auto_type }
{
    AutoType {
        enabled: true,
        obfuscation: 0,
        sequence: Text::new(alloc),
        pairs: List::new(alloc),
    }
}

/// An `AutoType`, whose start tag was given, put in its place.
pub(crate) fn auto_type(
    walk: &mut Walk<'_>,
    tag: &Tag<'_>,
    into: &mut AutoType,
) -> Result<(), DocFail>
    ensures { Steps (λ _. into.new) walk.old walk.new result
        (contents_step (λ s. by_name s (spec.auto_type_rows s)) spec.no_auto_type tag.now) }
{
    let first = AutoTypeDraft {
        auto_type: no_auto_type(walk.alloc()),
    };
    match read_whole(walk, tag, first) {
        Ok(draft) => {
            *into = draft.auto_type;
            Ok(())
        }
        Err(refusal) => Err(refusal),
    }
}
