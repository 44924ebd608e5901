//! Entries edited.

ghost use Rattle.std.specs.Prelude.{◌≡◌, IfOk, IfSome, map, true};
ghost use Rattle.std.specs.List.{list_all};
ghost use Rattle.std.specs.Str.{is_utf8};
ghost use Rattle.vault_model.specs.Proper.{is_proper_content};
ghost use Rattle.vault_model.specs.Seen.{bare_content};
ghost use Rattle.vault_model.specs.SeenDoc.{doc_seen};
ghost use Rattle.vault_model.specs.SeenNodes.{bare_version, entry_record};
ghost use Rattle.vault_model.specs.Tree.{is_proper_entry};
ghost use Rattle.tree_core.specs.After.{Changes, after_edit, changed_content, edited_so};
ghost use Rattle.tree_core.specs.FurtherChanges.{further_seen};
ghost use Rattle.tree_core.specs.NewNodes.{given_values};

use crate::changing::{Versions, change_versions, versions_saying};
use outside_core::NoMemory;
use std::alloc::Global;
use tree_contents::{check_fields, edit_content};
use tree_core::{FurtherChange, TreeFail, Values};
use tree_steps::{entry_named, time_after};
use vault_making::copies::copy_content;
use vault_model::{Content, Doc, Entry, Meta, Stamp, entry_stamp};

// A copy of what an entry says, with the values that are given and with what else is changed.
fn edited(
    alloc: Global,
    old: &Content,
    meta: &Meta,
    values: &Values<'_>,
    further: &FurtherChange<'_>,
) -> Result<Content, NoMemory>
    requires password { IfSome values.now.password (λ password. is_utf8 password.now ≡ true) }
    requires otp { IfSome values.now.otp (λ otp. is_utf8 otp.now ≡ true) }
    requires fields { list_all (λ value. is_utf8 value.bytes) further.now.values.now ≡ true }
    ensures is { IfOk result (λ new. bare_content new
        ≡ edited_so (given_values values.now) (further_seen further.now) meta.now
        (bare_content old.now)) }
    ensures proper { IfOk result (λ new. is_proper_content (bare_content old.now) ≡ true
        → is_proper_content (bare_content new) ≡ true) }
{
    let mut new = copy_content(alloc, old)?;
    match edit_content(
        alloc,
        &mut new,
        &meta.settings.value.protect,
        values,
        further,
    ) {
        Ok(()) => Ok(new),
        Err(fail) => {
            drop(new);
            Err(fail)
        }
    }
}

// The versions of an entry that is edited at this time.
fn edited_versions(
    alloc: Global,
    entry: &Entry,
    meta: &Meta,
    values: &Values<'_>,
    further: &FurtherChange<'_>,
    time: Stamp,
) -> Result<Versions, NoMemory>
    requires password { IfSome values.now.password (λ password. is_utf8 password.now ≡ true) }
    requires otp { IfSome values.now.otp (λ otp. is_utf8 otp.now ≡ true) }
    requires fields { list_all (λ value. is_utf8 value.bytes) further.now.values.now ≡ true }
    ensures is { IfOk result (λ versions. record (entry_record entry.now) {
      current = bare_version versions.current;
      history = map bare_version versions.history;
    } ≡ changed_content meta.now
        (edited_so (given_values values.now) (further_seen further.now) meta.now) time
        (entry_record entry.now)) }
    ensures proper { IfOk result (λ versions. is_proper_entry (entry_record entry.now) ≡ true
        → is_proper_entry (record (entry_record entry.now) {
          current = bare_version versions.current;
          history = map bare_version versions.history;
        }) ≡ true) }
{
    let content = edited(alloc, &entry.current.content, meta, values, further)?;
    versions_saying(alloc, entry, meta, content, time)
}

/// Gives the entry that a path names other values, changes its fields, its tags and when it expires,
/// in a new version that is made now, or a second after the newest of the others if that is later;
/// the other versions are its history, in rising order, of which the longest suffix within the limits
/// of the database stays. A field that is new is hidden as the database says, one of one's own as the
/// change says, and `otp` always. A refusal changes nothing.
pub fn edit(
    alloc: Global,
    doc: &mut Doc,
    path: &str,
    values: &Values<'_>,
    further: &FurtherChange<'_>,
    now: Stamp,
) -> Result<(), TreeFail>
    requires password { IfSome values.now.password (λ password. is_utf8 password.now ≡ true) }
    requires otp { IfSome values.now.otp (λ otp. is_utf8 otp.now ≡ true) }
    requires fields { list_all (λ value. is_utf8 value.bytes) further.now.values.now ≡ true }
    ensures { Changes (after_edit path.now (given_values values.now) (further_seen further.now) now
        (doc_seen doc.old)) result (doc_seen doc.old) (doc_seen doc.new) }
{
    let held = match entry_named(doc, path) {
        Ok(held) => held,
        Err(fail) => return Err(fail),
    };
    check_fields(held.entry.current.content.fields.as_slice(), further.unset)?;
    let time = time_after(now, entry_stamp(held.entry))?;
    let (group, id) = (held.group, held.entry.id);
    match edited_versions(alloc, held.entry, &doc.meta, values, further, time) {
        Ok(versions) => {
            change_versions(doc, group, id, versions);
            Ok(())
        }
        Err(_) => Err(TreeFail::NoMemory),
    }
}
