//! Finding the entry that a reference names.

ghost use Rattle.std.specs.Prelude.{◌≡◌, IfOk, OnOk, map, option_map};
ghost use Rattle.std.specs.List.{find};
ghost use Rattle.find_references.specs.Fields.{has_at};
ghost use Rattle.find_references.specs.inside.SeenEntries.{IsIndexed, number_of, rows_of};
ghost use Rattle.find_references.specs.inside.Sought.{sought_in};
ghost use Rattle.vault_model.specs.SeenNodes.{entry_row, tree_seen};

use crate::fields::has_at;
use crate::indexing::{Index, entry_at, index_of};
use crate::parts::{Part, Place};
use outside_core::NoMemory;
use std::alloc::Global;
use std::collections::BTreeMap;
use vault_model::{Entry, Group};

/// How often all entries are looked through, before an index is made.
const MOST_LOOKS: u8 = 64;

/// The entries of a document, how often they were looked through, and indexes of them by the texts
/// that they have at a place, each under the number of its place.
#[derive(Drop)]
pub(crate) struct Entries<'a> {
    pub(crate) root: &'a Group,
    pub(crate) looks: u8,
    pub(crate) indexes: BTreeMap<u8, Index<'a>>,
}

// Of some entries the first that has a text at a place.
fn entry_among<'a>(entries: &'a [Entry], place: Place, text: &[u8]) -> Option<&'a Entry>
    ensures { option_map (λ entry. entry_row entry.now) result
        ≡ find (has_at place text.now) (map entry_row entries.now) }
{
    for entry in entries {
        if has_at(place, text, entry) {
            return Some(entry);
        }
    }
    None
}

// The first entry in document order that has a text at a place.
fn entry_in<'a>(group: &'a Group, place: Place, text: &[u8]) -> Option<&'a Entry>
    ensures { option_map (λ entry. entry_row entry.now) result
        ≡ sought_in place text.now (tree_seen group.now) }
{
    if let Some(entry) = entry_among(group.entries.as_slice(), place, text) {
        return Some(entry);
    }
    for child in group.groups.as_slice() {
        if let Some(entry) = entry_in(child, place, text) {
            return Some(entry);
        }
    }
    None
}

// The number of a place.
fn number_of(place: Place) -> u8
    ensures { result ≡ number_of place }
{
    match place {
        Place::In(Part::Title) => 0,
        Place::In(Part::UserName) => 1,
        Place::In(Part::Password) => 2,
        Place::In(Part::Url) => 3,
        Place::In(Part::Notes) => 4,
        Place::In(Part::Id) => 5,
        Place::OtherField => 6,
    }
}

impl<'a> Entries<'a> {
    // Makes the index by the texts at a place, unless there is one.
    fn add_index(&mut self, alloc: Global, place: Place) -> Result<(), NoMemory>
        requires { IsIndexed self.old }
        ensures root { self.new.root ≡ self.old.root }
        ensures indexed { OnOk result (IsIndexed self.new) }
    {
        let number = number_of(place);
        if self.indexes.contains_key(&number) {
            return Ok(());
        }
        let index = index_of(alloc, place, self.root)?;
        self.indexes.insert(number, index)?;
        Ok(())
    }

    /// The first entry in document order that has a text at a place. After some looks through all
    /// entries it is looked up in an index.
    pub(crate) fn find(
        &mut self,
        alloc: Global,
        place: Place,
        text: &[u8],
    ) -> Result<Option<&'a Entry>, NoMemory>
        requires { IsIndexed self.old }
        ensures root { self.new.root ≡ self.old.root }
        ensures indexed { OnOk result (IsIndexed self.new) }
        ensures found { IfOk result (λ found. option_map (λ entry. entry_row entry.now) found
            ≡ find (has_at place text.now) (rows_of self.old)) }
    {
        if self.looks < MOST_LOOKS {
            self.looks += 1;
            return Ok(entry_in(self.root, place, text));
        }
        self.add_index(alloc, place)?;
        match self.indexes.get(&number_of(place)) {
            Some(index) => entry_at(alloc, index, place, text),
            None => Ok(entry_in(self.root, place, text)),
        }
    }
}
