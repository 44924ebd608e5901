//! What a document says of its database.

ghost use Rattle.std.specs.Prelude.{◌≡◌, [], ◌∷◌, codes, drop};
ghost use Rattle.doc_forms.specs.Children.{by_name, container};
ghost use Rattle.doc_forms.specs.Metas as spec;
ghost use Rattle.doc_forms.specs.Metas.{MetaParts};
ghost use Rattle.doc_forms.specs.SeenDrafts.{meta_parts};
ghost use Rattle.doc_walk.specs.Steps.{Steps};
ghost use Rattle.doc_walk.specs.Tags.{child_step, contents_step};

use crate::binaries::binaries;
use crate::first_metas::{NO_LIMIT, no_meta};
use crate::icons::icons;
use crate::protections::protection;
use doc_forms::{DocFail, MetaBuilder};
use doc_walk::doc_values::{
    FalseUnlessTrue, HashOrNone, IdValue, Number32, Signed32, Signed64, TextValue, TimeValue,
    TrueUnlessFalse,
};
use doc_walk::{Parts, Tag, Walk, custom_data, read_whole};
use std::mem;
use vault_model::DocForm;

/// Reads a child of `Meta` where binaries are in the document: `Binaries`, after those that
/// [`limit_child`] reads.
fn binaries_child(
    known: &mut MetaBuilder,
    walk: &mut Walk<'_>,
    tag: &Tag<'_>,
) -> Result<(), DocFail>
    ensures { Steps (λ _. meta_parts known.new) walk.old walk.new result
        (child_step (λ s. by_name s ((
          codes "Binaries",
          container s
              ((codes "Binary", spec.binary s) ∷ []) [] (λ p v. record p { binaries = v }),
        ) ∷ []))
        (meta_parts known.old) tag.now) }
{
    match tag.name {
        "Binaries" => binaries(walk, tag, &mut known.binaries),
        _ => walk.pass(tag),
    }
}

/// Reads a child of `Meta` after those that [`limit_child`] reads. A file of version 4 keeps its
/// binaries elsewhere.
fn last_child(known: &mut MetaBuilder, walk: &mut Walk<'_>, tag: &Tag<'_>) -> Result<(), DocFail>
    ensures { Steps (λ _. meta_parts known.new) walk.old walk.new result
        (child_step (λ s. by_name s (spec.binaries_rows s.form s)) (meta_parts known.old) tag.now) }
{
    match walk.form() {
        DocForm::V4 => walk.pass(tag),
        DocForm::V3 | DocForm::Plain => binaries_child(known, walk, tag),
    }
}

/// Reads a child of `Meta` after those that [`bin_child`] reads: the limits of histories, and
/// custom items.
fn limit_child(known: &mut MetaBuilder, walk: &mut Walk<'_>, tag: &Tag<'_>) -> Result<(), DocFail>
    ensures { Steps (λ _. meta_parts known.new) walk.old walk.new result
        (child_step (λ s. by_name s (drop 24 (spec.meta_rows s))) (meta_parts known.old) tag.now) }
{
    match tag.name {
        "HistoryMaxItems" => walk.keep::<Signed32<10>>(
            tag,
            &mut known.meta.settings.value.history_items,
        ),
        "HistoryMaxSize" => walk.keep::<Signed64<6_291_456>>(
            tag,
            &mut known.meta.settings.value.history_size,
        ),
        "CustomData" => custom_data(walk, tag, &mut known.meta.items),
        _ => last_child(known, walk, tag),
    }
}

/// Reads a child of `Meta` after those that [`setting_child`] reads: the recycle bin, the
/// templates, and the view.
fn bin_child(known: &mut MetaBuilder, walk: &mut Walk<'_>, tag: &Tag<'_>) -> Result<(), DocFail>
    ensures { Steps (λ _. meta_parts known.new) walk.old walk.new result
        (child_step (λ s. by_name s (drop 17 (spec.meta_rows s))) (meta_parts known.old) tag.now) }
{
    match tag.name {
        "RecycleBinEnabled" => walk.keep::<TrueUnlessFalse>(tag, &mut known.meta.bin.value.enabled),
        "RecycleBinUUID" => walk.keep::<IdValue>(tag, &mut known.meta.bin.value.id),
        "RecycleBinChanged" => walk.keep::<TimeValue>(tag, &mut known.meta.bin.changed),
        "EntryTemplatesGroup" => walk.keep::<IdValue>(tag, &mut known.meta.templates.value),
        "EntryTemplatesGroupChanged" => walk.keep::<TimeValue>(
            tag,
            &mut known.meta.templates.changed,
        ),
        "LastSelectedGroup" => walk.keep::<IdValue>(tag, &mut known.meta.view.last_group),
        "LastTopVisibleGroup" => walk.keep::<IdValue>(tag, &mut known.meta.view.last_top),
        _ => limit_child(known, walk, tag),
    }
}

/// Reads a child of `Meta` after those that [`description_child`] reads: settings, and icons.
fn setting_child(known: &mut MetaBuilder, walk: &mut Walk<'_>, tag: &Tag<'_>) -> Result<(), DocFail>
    ensures { Steps (λ _. meta_parts known.new) walk.old walk.new result
        (child_step (λ s. by_name s (drop 9 (spec.meta_rows s))) (meta_parts known.old) tag.now) }
{
    match tag.name {
        "MaintenanceHistoryDays" => walk.keep::<Number32<365>>(
            tag,
            &mut known.meta.settings.value.days,
        ),
        "Color" => walk.keep::<TextValue>(tag, &mut known.meta.settings.value.color),
        "MasterKeyChanged" => walk.keep::<TimeValue>(tag, &mut known.meta.view.key_changed),
        "MasterKeyChangeRec" => walk.keep::<Signed64<NO_LIMIT>>(
            tag,
            &mut known.meta.settings.value.key_rec,
        ),
        "MasterKeyChangeForce" => walk.keep::<Signed64<NO_LIMIT>>(
            tag,
            &mut known.meta.settings.value.key_force,
        ),
        "MasterKeyChangeForceOnce" => walk.keep::<FalseUnlessTrue>(
            tag,
            &mut known.meta.settings.value.key_force_once,
        ),
        "MemoryProtection" => protection(walk, tag, &mut known.meta.settings.value.protect),
        "CustomIcons" => icons(walk, tag, &mut known.meta.icons),
        _ => bin_child(known, walk, tag),
    }
}

/// Reads a child of `Meta` after those that [`name_child`] reads itself: the description, and the
/// user name of new entries.
fn description_child(
    known: &mut MetaBuilder,
    walk: &mut Walk<'_>,
    tag: &Tag<'_>,
) -> Result<(), DocFail>
    ensures { Steps (λ _. meta_parts known.new) walk.old walk.new result
        (child_step (λ s. by_name s (drop 5 (spec.meta_rows s))) (meta_parts known.old) tag.now) }
{
    match tag.name {
        "DatabaseDescription" => walk.keep::<TextValue>(tag, &mut known.meta.description.value),
        "DatabaseDescriptionChanged" => walk.keep::<TimeValue>(
            tag,
            &mut known.meta.description.changed,
        ),
        "DefaultUserName" => walk.keep::<TextValue>(tag, &mut known.meta.user.value),
        "DefaultUserNameChanged" => walk.keep::<TimeValue>(tag, &mut known.meta.user.changed),
        _ => setting_child(known, walk, tag),
    }
}

/// Reads a child of `Meta`.
fn name_child(known: &mut MetaBuilder, walk: &mut Walk<'_>, tag: &Tag<'_>) -> Result<(), DocFail>
    ensures { Steps (λ _. meta_parts known.new) walk.old walk.new result
        (child_step (λ s. by_name s (spec.meta_rows s)) (meta_parts known.old) tag.now) }
{
    match tag.name {
        "Generator" => walk.check::<TextValue>(tag),
        "HeaderHash" => walk.keep::<HashOrNone>(tag, &mut known.hash),
        "SettingsChanged" => walk.keep::<TimeValue>(tag, &mut known.meta.settings.changed),
        "DatabaseName" => walk.keep::<TextValue>(tag, &mut known.meta.name.value),
        "DatabaseNameChanged" => walk.keep::<TimeValue>(tag, &mut known.meta.name.changed),
        _ => description_child(known, walk, tag),
    }
}

/// What is known of a `Meta` before its end.
#[derive(Drop)]
struct MetaDraft {
    known: MetaBuilder,
}

impl Parts for MetaDraft {
    ghost Bare = { MetaParts };

    ghost seen = { λ d. meta_parts d.known };

    ghost child = { λ s. by_name s (spec.meta_rows s) };

    fn read_child(&mut self, walk: &mut Walk<'_>, tag: &Tag<'_>) -> Result<(), DocFail> {
        name_child(&mut self.known, walk, tag)
    }
}

/// What is known of a `Meta` at its end.
fn builder_of(draft: MetaDraft) -> MetaBuilder
    ensures { meta_parts result ≡ meta_parts draft.known }
{
    draft.known
}

/// Puts what is known of a `Meta` in its place.
fn put_meta(into: &mut MetaBuilder, draft: MetaDraft)
    ensures { meta_parts into.new ≡ meta_parts draft.known }
{
    let before = mem::replace(into, builder_of(draft));
    drop(before);
}

/// A `Meta`, whose start tag was given, put in its place.
pub fn meta(walk: &mut Walk<'_>, tag: &Tag<'_>, into: &mut MetaBuilder) -> Result<(), DocFail>
    ensures { Steps (λ _. meta_parts into.new) walk.old walk.new result
        (contents_step (λ s. by_name s (spec.meta_rows s)) spec.no_meta tag.now) }
{
    let first = MetaDraft {
        known: no_meta(walk.alloc()),
    };
    match read_whole(walk, tag, first) {
        Ok(draft) => {
            put_meta(into, draft);
            Ok(())
        }
        Err(refusal) => Err(refusal),
    }
}
