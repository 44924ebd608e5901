//! The database that is made empty.
ghost use Rattle.std.specs.Prelude.{◌≡◌, [], ◌∷◌, IfErr, IfOk, IfSome, None, Ok, Some, OnOk};
ghost use Rattle.outside_core.specs.Files.{FileMap};
ghost use Rattle.outside_core.specs.Reports.{reported};
ghost use Rattle.vault_model.specs.SeenDoc.{doc_seen};
ghost use Rattle.vault_model.specs.Empty.{empty_tree, new_group, new_meta};
ghost use Rattle.vault_model.specs.SeenNodes.{tree_seen};
ghost use Rattle.vault_model.specs.Tree.{node, none};
ghost use Rattle.kdbx_frame.specs.Settings.{IsInOrder};
ghost use Rattle.cli_messages.specs.Phases.{IsFileStop, IsPlainStop, Returns};
ghost use Rattle.cli_databases.specs.CliFiles.LeavesFiles.{LeavesFiles};
ghost use Rattle.cli_databases.specs.CliFiles.SeenOpened.{opened_seen};
ghost use Rattle.cli_importing.specs.Imports.{at_stamp};
ghost use Rattle.cli_lines.specs.Lines.{CanOpen};
ghost use Rattle.cli_lines.specs.SeenLines.{line_seen, lines_seen};
ghost use Rattle.cli_needs.specs.Needs.{key_files};
ghost use Rattle.cli_needs.specs.SeenNeeds.{create_seen};
ghost use Rattle.cli_resealing.specs.Created.{created_of, empty_document, undrawn_id};
ghost use Rattle.cli_resealing.specs.Held.{SomeCreated};

use crate::asked::{AskedSettings, with_asked};
use cli_databases::cli_files::{Opened, bytes_in};
use cli_importing::{new_sealing, refuse_existing};
use cli_lines::Lines;
use cli_messages::{Reason, Stop, refused};
use cli_needs::CreateNeeds;
use kdbx_frame::release_key;
use outside_core::{FileStore, List, NoMemory, Text};
use std::alloc::Global;
use uuid_core::Uuid;
use vault_making::empty_doc;
use vault_model::{Doc, Group, Meta, Stamp, Timed};

// The id that the root of an empty database has until its own is drawn.
const UNDRAWN: [u8; 16] = [1; 16];

// The root group of an empty database with this name.
fn root_named(mut root: Group, name: Text, now: Stamp) -> Group
    requires { tree_seen root ≡ empty_tree undrawn_id now }
    ensures { tree_seen result ≡ node undrawn_id (new_group name now) [] none }
{
    let _ = now;
    root.state.content.name = name;
    root
}

// What an empty database of this name says of itself.
fn meta_named(mut meta: Meta, name: Text, now: Stamp) -> Meta
    requires { meta ≡ new_meta }
    ensures { result ≡ record new_meta { name = record { changed = now; value = name } } }
{
    meta.name = Timed {
        changed: now,
        value: name,
    };
    meta
}

// The same text once more, and once more again.
fn two_copies(alloc: Global, text: &str) -> Result<(Text, Text), NoMemory>
    ensures { IfOk result (λ copies. (copies.0 ≡ text.now) × (copies.1 ≡ text.now)) }
{
    let one = Text::of(alloc, text)?;
    match Text::of(alloc, text) {
        Ok(other) => Ok((one, other)),
        Err(fail) => {
            drop(one);
            Err(fail)
        }
    }
}

// The document of an empty database with this name, which is the root group's too.
fn doc_named(alloc: Global, name: &str, now: Stamp) -> Result<Doc, NoMemory>
    ensures { IfOk result (λ doc. doc_seen doc ≡ empty_document (Some name.now) undrawn_id now) }
{
    let (group_name, database_name) = two_copies(alloc, name)?;
    match empty_doc(alloc, Uuid::from_bytes(UNDRAWN), now) {
        Ok(doc) => {
            let Doc { meta, root, tombs } = doc;
            Ok(Doc {
                meta: meta_named(meta, database_name, now),
                root: root_named(root, group_name, now),
                tombs,
            })
        }
        Err(fail) => {
            drop(group_name);
            drop(database_name);
            Err(fail)
        }
    }
}

// The document of an empty database with this name, if one is given.
fn empty_named(alloc: Global, name: &Option<Text>, now: Stamp) -> Result<Doc, NoMemory>
    ensures { IfOk result (λ doc. doc_seen doc ≡ empty_document name.now undrawn_id now) }
{
    match name {
        Some(name) => doc_named(alloc, name.as_str(), now),
        None => empty_doc(alloc, Uuid::from_bytes(UNDRAWN), now),
    }
}

// The same at a moment, which must not be after the last stamp.
fn empty_at(alloc: Global, name: &Option<Text>, file: &str, now: u64) -> Result<Doc, Stop>
    ensures told { Returns doc_seen result (at_stamp file.now now
        (Ok (empty_document name.now undrawn_id now))) }
    ensures cause { IfErr result IsPlainStop }
{
    let Some(stamp) = Stamp::of(now) else {
        return Err(refused(alloc, Reason::StampLimit, file));
    };
    match empty_named(alloc, name, stamp) {
        Ok(doc) => Ok(doc),
        Err(NoMemory) => Err(Stop::NoMemory),
    }
}

// The settings that are asked for of an empty database.
fn asked_of(create: CreateNeeds<'_>) -> AskedSettings
    ensures cipher { result.cipher ≡ create.entry.cipher }
    ensures kdf { result.kdf ≡ create.entry.kdf }
    ensures version { result.version ≡ None }
{
    AskedSettings {
        cipher: create.cipher,
        kdf: create.kdf,
        version: None,
    }
}

/// Makes an empty database at a moment, in seconds since the year 1, with the line that is its
/// password, where no file has its name. Its root's id is not drawn yet. The key of the new file
/// must be cleared and released; after a refusal it was. No file is changed.
#[tactic(auto, unfolding(crate::specs::Created::created_of))]
pub fn create<F: FileStore>(
    alloc: Global,
    files: &mut F,
    create: CreateNeeds<'_>,
    lines: &Lines,
    now: u64,
) -> Result<Opened, Stop>
    requires { CanOpen create.access.now (line_seen lines.now.password) }
    ensures told { (m : FileMap) → reported (F.truthful files.new) (F.files files.old) ≡ Some m
        → Returns opened_seen result
        (created_of (create_seen create.entry) (lines_seen lines.now) now m) }
    ensures some_file { IfOk result (λ opened. SomeCreated (create_seen create.entry)
        (lines_seen lines.now) now (opened_seen opened)) }
    ensures in_order { IfOk result (λ opened. IfSome opened.sealing (λ s. IsInOrder s.settings)) }
    ensures cause { IfErr result (IsFileStop
        (create.entry.file.now ∷ key_files create.entry.access.now.key_file)
        (F.faults files.old) (F.faults files.new) (F.absences files.old) (F.absences files.new)) }
    ensures leaves { LeavesFiles F.files F.draft_name F.draft_bytes F.truthful F.faults
        F.absences files.old files.new }
    ensures faultless { OnOk result (F.faults files.new ≡ F.faults files.old) }
{
    let file = create.file.as_str();
    refuse_existing(alloc, files, file)?;
    let sealing = match new_sealing(alloc, files, create.access, bytes_in(&lines.password)) {
        Ok(sealing) => sealing,
        Err(stop) => return Err(stop),
    };
    match empty_at(alloc, create.name, file, now) {
        Ok(doc) => {
            let passed_over = List::new(alloc);
            let opened = Opened {
                doc,
                sealing,
                passed_over,
            };
            with_asked(alloc, file, opened, asked_of(create))
        }
        Err(stop) => {
            release_key(sealing);
            Err(stop)
        }
    }
}
