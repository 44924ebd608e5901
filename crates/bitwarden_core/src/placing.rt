//! The places of the tree that an export gives.

ghost use Rattle.std.specs.Prelude.{◌≡◌, ◌≢◌, ◌<◌, ◌-◌, ◌^◌, ◌∷◌, ◌++◌, [], IfOk, OnOk, List, length, map, true};
ghost use Rattle.std.specs.List.{list_all};
ghost use Rattle.bitwarden_core.specs.Folders as folders_spec;
ghost use Rattle.bitwarden_core.specs.Placing as spec;
ghost use Rattle.bitwarden_core.specs.Steps.{PlacesNext, all_seen};
ghost use Rattle.bitwarden_forms.specs.Exports.{items_in};
ghost use Rattle.bitwarden_forms.specs.Kinds as kinds_spec;
ghost use Rattle.bitwarden_forms.specs.Refusals.{Returns};
ghost use Rattle.import_ids.specs.Counts.{GivesId, HasCounted};
ghost use Rattle.import_ids.specs.Names as names_spec;
ghost use Rattle.bitwarden_forms.specs.ImportTree.SeenDrafts.{placed_seen};
ghost use Rattle.serde_json.specs.View.{view};
ghost use Rattle.vault_model.specs.Db.{nil_id};

use crate::folders::{folder_groups, item_groups};
use bitwarden_forms::import_tree::ImportedPlace;
use bitwarden_forms::{BitwardenFail, folders_of, given_id, items_of, text};
use bitwarden_items::bitwarden_fields::{first_address, login_of};
use bitwarden_items::entry_of;
use import_ids::{EntryTexts, NameCounts};
use outside_core::{List, NoMemory, Text};
use serde_json::Value;
use std::alloc::Global;
use uuid_core::Uuid;
use vault_model::Stamp;

// The id of the next item, to which these groups lead; the item is counted.
fn next_id(
    alloc: Global,
    counts: &mut NameCounts,
    folders: &[Value],
    names: &[Text],
    item: &Value,
) -> Result<Uuid, NoMemory>
    requires { names.now ≡ folders_spec.item_groups (map view folders.now) (view item.now) }
    ensures gives { (before : List names_spec.EntryTexts) → HasCounted counts.old before
        → length before < 2 ^ 64 - 1
        → IfOk result (λ id. GivesId before (kinds_spec.given_id (view item.now))
        (spec.texts_of (map view folders.now) (view item.now)) id counts.new) }
    ensures not_nil { kinds_spec.is_not_nil (view item.now) ≡ true
        → IfOk result (λ id. id ≢ nil_id) }
{
    let _groups = folders;
    let login = login_of(item);
    let texts = EntryTexts {
        groups: names,
        title: text(Some(item), "name").as_bytes(),
        user: text(login, "username").as_bytes(),
        url: first_address(login).as_bytes(),
    };
    counts.next_id(alloc, given_id(item), texts)
}

// The entry of an item in its group, under its id.
fn entry_place(
    alloc: Global,
    now: Stamp,
    id: Uuid,
    names: List<Text>,
    item: &Value,
) -> Result<ImportedPlace, BitwardenFail>
    requires { id ≢ nil_id }
    ensures { Returns placed_seen result (spec.entry_place now names id (view item.now)) }
{
    let entry = entry_of(alloc, now, id, item)?;
    Ok(ImportedPlace::of_entry(now, names, entry))
}

// Puts a place after the others.
fn put_last(places: &mut Vec<ImportedPlace>, place: ImportedPlace) -> Result<(), NoMemory>
    ensures { OnOk result (places.new.items ≡ places.old.items ++ place ∷ []) }
{
    places.push(place)?;
    Ok(())
}

// Places an item after those before it, under its id.
fn place_item(
    alloc: Global,
    now: Stamp,
    counts: &mut NameCounts,
    places: &mut Vec<ImportedPlace>,
    folders: &[Value],
    item: &Value,
) -> Result<(), BitwardenFail>
    requires { kinds_spec.is_not_nil (view item.now) ≡ true }
    ensures { PlacesNext now (map view folders.now) (view item.now) counts.old
        (all_seen places.old.items) counts.new (all_seen places.new.items) result }
{
    let names = item_groups(alloc, folders, item)?;
    let id = next_id(alloc, counts, folders, names.as_slice(), item)?;
    let place = entry_place(alloc, now, id, names, item)?;
    put_last(places, place)?;
    Ok(())
}

// Places items, one after another.
fn place_all(
    alloc: Global,
    now: Stamp,
    counts: &mut NameCounts,
    places: &mut Vec<ImportedPlace>,
    folders: &[Value],
    items: &[Value],
) -> Result<(), BitwardenFail>
    requires { list_all kinds_spec.is_not_nil (map view items.now) ≡ true }
    ensures { HasCounted counts.old [] → Returns (λ _. all_seen places.new.items) result
        (spec.with_places (all_seen places.old.items)
        (spec.placed_items now (map view folders.now) [] (map view items.now))) }
{
    for item in items {
        if let Err(fail) = place_item(alloc, now, counts, places, folders, item) {
            return Err(fail);
        }
    }
    Ok(())
}

// Places folders, one after another.
fn place_folders(
    alloc: Global,
    now: Stamp,
    places: &mut Vec<ImportedPlace>,
    folders: &[Value],
) -> Result<(), NoMemory>
    ensures { OnOk result (all_seen places.new.items ≡ all_seen places.old.items
        ++ map (spec.folder_place now) (map view folders.now)) }
{
    for folder in folders {
        let names = folder_groups(alloc, folder)?;
        put_last(places, ImportedPlace::of_group(now, names))?;
    }
    Ok(())
}

// Places the folders and the items of an export.
fn place_export(
    alloc: Global,
    now: Stamp,
    places: &mut Vec<ImportedPlace>,
    export: &Value,
) -> Result<(), BitwardenFail>
    requires none { places.old.items ≡ [] }
    requires ids { list_all kinds_spec.is_not_nil (items_in (view export.now)) ≡ true }
    ensures { Returns (λ _. all_seen places.new.items) result
        (spec.export_places now (view export.now)) }
{
    let folders = folders_of(export);
    place_folders(alloc, now, places, folders)?;
    let mut counts = NameCounts::new(alloc);
    place_all(alloc, now, &mut counts, places, folders, items_of(export))
}

/// The places of the tree that an export gives: the group of each folder, in their order, and then
/// the entry of each item, under its id, in the group of its folder. An item that gives no id has one
/// that is made of its groups, title, user's name and URL.
///
/// # Errors
///
/// [`BitwardenFail::StampLimit`] of the first entry that would be modified after the year 9999.
/// [`BitwardenFail::NoMemory`] where memory runs out.
pub(crate) fn read_places(
    alloc: Global,
    now: Stamp,
    export: &Value,
) -> Result<Vec<ImportedPlace>, BitwardenFail>
    requires { list_all kinds_spec.is_not_nil (items_in (view export.now)) ≡ true }
    ensures { Returns (λ places. all_seen places.items) result
        (spec.export_places now (view export.now)) }
{
    let mut places = Vec::new(alloc);
    match place_export(alloc, now, &mut places, export) {
        Ok(()) => Ok(places),
        Err(fail) => {
            drop(places);
            Err(fail)
        }
    }
}
