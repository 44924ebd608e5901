//! What a document says of its database.

ghost use Rattle.std.specs.List.{list_all};
ghost use Rattle.std.specs.Option.{option_copied};
ghost use Rattle.std.specs.Prelude.{◌≡◌, ◌&&◌, [], codes, map, true};
ghost use Rattle.doc_forms.specs.Attachments.{binaries_from};
ghost use Rattle.doc_forms.specs.SeenDocuments.{pool_item};
ghost use Rattle.doc_sinks.specs.States.{after_piece, after_pieces};
ghost use Rattle.doc_spelling.specs.Metas as row;
ghost use Rattle.doc_spelling.specs.Pieces.{box, base64_piece, piece_if, pieces_of, unless_false, unless_zero};
ghost use Rattle.doc_spelling.specs.Values.{bool_piece, time_piece};
ghost use Rattle.vault_model.specs.declared.forms.DocForm.TheVariants.{V3};
ghost use Rattle.doc_spelling.specs.Ranges.{fits_changes, fits_i32, fits_i64, fits_icon, fits_meta, fits_places, fits_u32, is_stamp, is_uuid};

use crate::icons::put_icons;
use crate::items::put_items;
use doc_sinks::{
    Mark, Pool, TextSink, close, open, put_bool, put_coded, put_id, put_leaf, put_number,
    put_secret, put_signed, put_small_signed, put_text, put_time, whole,
};
use vault_model::{DocForm, Meta, PoolItem, Protection, Stamp};

/// Puts `MemoryProtection`.
fn put_protection<O: TextSink>(out: &mut O, protect: &Protection)
    ensures { O.state out.new
        ≡ after_piece O.step (O.state out.old) (row.protection_piece protect.now) }
{
    open(out, "MemoryProtection", Mark::Unmarked);
    put_bool(out, "ProtectTitle", protect.title);
    put_bool(out, "ProtectUserName", protect.user);
    put_bool(out, "ProtectPassword", protect.password);
    put_bool(out, "ProtectURL", protect.url);
    put_bool(out, "ProtectNotes", protect.notes);
    close(out, "MemoryProtection");
}

/// Puts a hidden binary of this number.
fn put_hidden_binary<O: TextSink>(out: &mut O, form: DocForm, number: u64, bytes: &[u8])
    ensures { O.state out.new
        ≡ after_piece O.step (O.state out.old) (row.numbered_piece form number bytes.now true) }
{
    match form {
        DocForm::Plain => put_coded(out, "Binary", Mark::IdInMemory(number), bytes),
        DocForm::V3 | DocForm::V4 => put_secret(out, "Binary", Mark::Id(number), bytes),
    }
}

/// Puts a binary of this number.
fn put_binary<O: TextSink>(out: &mut O, form: DocForm, number: u64, item: &PoolItem)
    ensures { O.state out.new ≡ after_piece O.step (O.state out.old) (row.numbered_piece form number
        item.now.bytes.value.bytes item.now.hidden) }
{
    let bytes = whole(&item.bytes);
    if item.hidden {
        put_hidden_binary(out, form, number, bytes);
    } else {
        put_coded(out, "Binary", Mark::Id(number), bytes);
    }
}

/// Puts binaries, by their numbers from 0 on.
fn put_binaries<O: TextSink>(out: &mut O, form: DocForm, items: &[PoolItem])
    ensures { O.state out.new ≡ after_pieces O.step (O.state out.old)
        (pieces_of (row.binary_piece form) (binaries_from 0 (map pool_item items.now))) }
{
    let mut number = 0;
    for item in items {
        put_binary(out, form, number, item);
        number += 1;
    }
}

/// Puts `Binaries`.
fn put_listed<O: TextSink>(out: &mut O, form: DocForm, items: &[PoolItem])
    ensures { O.state out.new ≡ after_piece O.step (O.state out.old) (box (codes "Binaries")
        (pieces_of (row.binary_piece form) (binaries_from 0 (map pool_item items.now)))) }
{
    open(out, "Binaries", Mark::Unmarked);
    put_binaries(out, form, items);
    close(out, "Binaries");
}

/// Puts `Binaries`, which a file of KDBX 4 keeps apart from its document.
fn put_pool<O: TextSink>(out: &mut O, form: DocForm, pool: &Pool<'_>)
    ensures { O.state out.new
        ≡ after_pieces O.step (O.state out.old) (row.pool_pieces form pool.now) }
{
    match form {
        DocForm::Plain | DocForm::V3 => put_listed(out, form, pool.items()),
        DocForm::V4 => {}
    }
}

/// Puts the hash of a header, where it is given.
fn put_named_hash<O: TextSink>(out: &mut O, hash: Option<&[u8; 32]>)
    ensures { O.state out.new ≡ after_pieces O.step (O.state out.old)
        (piece_if (base64_piece (codes "HeaderHash") []) (option_copied hash.entry)) }
{
    match hash {
        Some(hash) => put_coded(out, "HeaderHash", Mark::Unmarked, hash),
        None => {}
    }
}

/// Puts the hash of the header of the document's file, which only a file of KDBX 3.1 has in it.
fn put_hash<O: TextSink>(out: &mut O, form: DocForm, hash: Option<&[u8; 32]>)
    ensures { O.state out.new
        ≡ after_pieces O.step (O.state out.old) (row.hash_pieces form (option_copied hash.entry)) }
{
    match form {
        DocForm::V3 => put_named_hash(out, hash),
        DocForm::Plain | DocForm::V4 => {}
    }
}

/// Puts when the settings of a file of KDBX 3.1 were changed, where the time is not 0.
fn put_later_change<O: TextSink>(out: &mut O, changed: Stamp)
    ensures puts { O.state out.new ≡ after_pieces O.step (O.state out.old)
        (piece_if (time_piece V3 (codes "SettingsChanged")) (unless_zero changed)) }
    ensures fits { is_stamp changed ≡ true }
{
    if changed.seconds() != 0 {
        put_time(out, DocForm::V3, "SettingsChanged", changed);
    }
}

/// Puts when the settings of a database were changed.
fn put_settings_change<O: TextSink>(out: &mut O, form: DocForm, changed: Stamp)
    ensures puts { O.state out.new
        ≡ after_pieces O.step (O.state out.old) (row.settings_change_pieces form changed) }
    ensures fits { is_stamp changed ≡ true }
{
    match form {
        DocForm::V3 => put_later_change(out, changed),
        DocForm::Plain | DocForm::V4 => put_time(out, form, "SettingsChanged", changed),
    }
}

/// Puts the names of a database, and when they and its settings were changed.
fn put_titles<O: TextSink>(out: &mut O, form: DocForm, meta: &Meta)
    ensures puts { O.state out.new
        ≡ after_pieces O.step (O.state out.old) (row.title_pieces form meta.now) }
    ensures fits { (is_stamp meta.now.settings.changed && is_stamp meta.now.name.changed
        && is_stamp meta.now.description.changed && is_stamp meta.now.user.changed) ≡ true }
{
    put_settings_change(out, form, meta.settings.changed);
    put_text(out, "DatabaseName", &meta.name.value);
    put_time(out, form, "DatabaseNameChanged", meta.name.changed);
    put_text(out, "DatabaseDescription", &meta.description.value);
    put_time(
        out,
        form,
        "DatabaseDescriptionChanged",
        meta.description.changed,
    );
    put_text(out, "DefaultUserName", &meta.user.value);
    put_time(out, form, "DefaultUserNameChanged", meta.user.changed);
}

/// Puts the order to change the key, where it is given.
fn put_force_once<O: TextSink>(out: &mut O, once: bool)
    ensures { O.state out.new ≡ after_pieces O.step (O.state out.old)
        (piece_if (bool_piece (codes "MasterKeyChangeForceOnce")) (unless_false once)) }
{
    if once {
        put_bool(out, "MasterKeyChangeForceOnce", true);
    }
}

/// Puts the settings of a database, and the icons that it holds.
fn put_settings<O: TextSink>(out: &mut O, form: DocForm, meta: &Meta)
    ensures puts { O.state out.new
        ≡ after_pieces O.step (O.state out.old) (row.setting_pieces form meta.now) }
    ensures days { fits_u32 meta.now.settings.value.days ≡ true }
    ensures key_changed { is_stamp meta.now.view.key_changed ≡ true }
    ensures key_rec { fits_i64 meta.now.settings.value.key_rec ≡ true }
    ensures key_force { fits_i64 meta.now.settings.value.key_force ≡ true }
    ensures icons { list_all fits_icon meta.now.icons ≡ true }
{
    put_number(
        out,
        "MaintenanceHistoryDays",
        meta.settings.value.days as u64,
    );
    put_text(out, "Color", &meta.settings.value.color);
    put_time(out, form, "MasterKeyChanged", meta.view.key_changed);
    put_signed(out, "MasterKeyChangeRec", &meta.settings.value.key_rec);
    put_signed(out, "MasterKeyChangeForce", &meta.settings.value.key_force);
    put_force_once(out, meta.settings.value.key_force_once);
    put_protection(out, &meta.settings.value.protect);
    put_icons(out, form, meta.icons.as_slice());
}

/// Puts the recycle bin of a database, its templates, and what was last looked at.
fn put_places<O: TextSink>(out: &mut O, form: DocForm, meta: &Meta)
    ensures puts { O.state out.new
        ≡ after_pieces O.step (O.state out.old) (row.place_pieces form meta.now) }
    ensures fits { fits_places meta.now ≡ true }
    ensures changes { (is_stamp meta.now.bin.changed && is_stamp meta.now.templates.changed)
        ≡ true }
{
    put_bool(out, "RecycleBinEnabled", meta.bin.value.enabled);
    put_id(out, "RecycleBinUUID", meta.bin.value.id);
    put_time(out, form, "RecycleBinChanged", meta.bin.changed);
    put_id(out, "EntryTemplatesGroup", meta.templates.value);
    put_time(
        out,
        form,
        "EntryTemplatesGroupChanged",
        meta.templates.changed,
    );
    put_id(out, "LastSelectedGroup", meta.view.last_group);
    put_id(out, "LastTopVisibleGroup", meta.view.last_top);
}

/// Puts the limits of histories.
fn put_limits<O: TextSink>(out: &mut O, meta: &Meta)
    ensures puts { O.state out.new
        ≡ after_pieces O.step (O.state out.old) (row.limit_pieces meta.now) }
    ensures items { fits_i32 meta.now.settings.value.history_items ≡ true }
    ensures size { fits_i64 meta.now.settings.value.history_size ≡ true }
{
    put_small_signed(out, "HistoryMaxItems", &meta.settings.value.history_items);
    put_signed(out, "HistoryMaxSize", &meta.settings.value.history_size);
}

/// Puts `Meta`.
pub(crate) fn put_meta<O: TextSink>(
    out: &mut O,
    form: DocForm,
    hash: Option<&[u8; 32]>,
    pool: &Pool<'_>,
    meta: &Meta,
)
    ensures puts { O.state out.new ≡ after_piece O.step (O.state out.old)
        (row.meta_piece form (option_copied hash.entry) pool.now meta.now) }
    ensures fits { fits_meta meta.now ≡ true }
{
    open(out, "Meta", Mark::Unmarked);
    put_leaf(out, "Generator", Mark::Unmarked, b"vaultmerge");
    put_hash(out, form, hash);
    put_titles(out, form, meta);
    put_settings(out, form, meta);
    put_places(out, form, meta);
    put_limits(out, meta);
    put_pool(out, form, pool);
    put_items(out, form, meta.items.as_slice());
    close(out, "Meta");
}
