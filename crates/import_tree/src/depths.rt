//! What a draft is refused for, whatever its depth, with no tree of it in memory.

ghost use Rattle.std.specs.Prelude.{◌≡◌, [], ◌∷◌, ◌++◌, IfOk, OnOk, map};
ghost use Rattle.doc_resolving.specs.DocForms.Ids.{least_duplicate};
ghost use Rattle.import_tree.specs.Branches.{deep_id};
ghost use Rattle.import_tree.specs.Outcome as spec;
ghost use Rattle.import_tree.specs.SeenBranches.{TakesApart, ways_seen};
ghost use Rattle.import_tree.specs.SeenDrafts.{draft_seen, placed_seen};
ghost use Rattle.vault_model.specs.Tree.{node_ids};

use crate::branches::{Branch, Way, first_name, named_ways, parted};
use crate::drafts::{ImportDraft, ImportedPlace, ROOT};
use crate::fails::TreeFail;
use crate::outcome::least_of;
use doc_resolving::lesser;
use outside_core::NoMemory;
use std::alloc::Global;
use std::collections::BTreeSet;
use uuid_core::Uuid;

/// The most levels of groups below the root.
const LEVELS_BELOW: usize = 127;

/// The ids that are found in a draft, of all its nodes and of its groups that are too deep, and the
/// branches in which the others are.
#[derive(Drop)]
pub(crate) struct TreeIds<'a> {
    pub(crate) ids: Vec<Uuid>,
    pub(crate) deep: Vec<Uuid>,
    pub(crate) branches: Vec<Branch<'a>>,
}

// Adds the id of a group at which so many levels are left.
fn add_group(found: &mut TreeIds<'_>, id: Uuid, levels: usize) -> Result<(), NoMemory>
    ensures ids { OnOk result (found.new.ids.items ≡ found.old.ids.items ++ id ∷ []) }
    ensures deep { OnOk result (found.new.deep.items
        ≡ found.old.deep.items ++ deep_id levels id) }
    ensures branches { OnOk result (found.new.branches.items ≡ found.old.branches.items) }
{
    found.ids.push(id)?;
    if levels == 0 {
        found.deep.push(id)?;
    }
    Ok(())
}

// Takes a branch apart: adds the ids of its own entries and of its first group, and leaves what is
// in this group, and then the rest of the branch.
fn take_apart<'a>(
    alloc: Global,
    found: &mut TreeIds<'a>,
    branch: Branch<'a>,
) -> Result<(), NoMemory>
    ensures { OnOk result (TakesApart branch.entry found.old found.new) }
{
    let levels = branch.levels;
    let named = named_ways(alloc, &mut found.ids, branch.ways.as_slice())?;
    let Some(name) = first_name(named.as_slice()) else {
        return Ok(());
    };
    let name = name.as_str();
    let id = Uuid::new_v5(&branch.id, name.as_bytes());
    add_group(found, id, levels)?;
    let parts = parted(alloc, named.as_slice(), name)?;
    found.branches.push(Branch {
        id: branch.id,
        levels,
        ways: parts.others,
    })?;
    found.branches.push(Branch {
        id,
        levels: levels.saturating_sub(1),
        ways: parts.inside,
    })?;
    Ok(())
}

// The places of a draft with all names that lead to them.
fn all_ways(alloc: Global, places: &[ImportedPlace]) -> Result<Vec<Way<'_>>, NoMemory>
    ensures { IfOk result (λ ways. ways_seen ways.items ≡ map placed_seen places.now) }
{
    let mut ways = Vec::new(alloc);
    for place in places {
        ways.push(Way {
            names: place.names.as_slice(),
            place,
        })?;
    }
    Ok(ways)
}

// The ids of the nodes of a draft, and of its groups that are too deep.
fn ids_of_draft(alloc: Global, draft: &ImportDraft) -> Result<TreeIds<'_>, NoMemory>
    ensures ids { IfOk result (λ found. found.ids.items ≡ node_ids (draft_seen draft.now).tree) }
    ensures deep { IfOk result (λ found. found.deep.items
        ≡ spec.groups_below 128 (draft_seen draft.now).tree) }
{
    let id = Uuid::from_bytes(ROOT);
    let ways = all_ways(alloc, draft.places.as_slice())?;
    let mut found = TreeIds {
        ids: vec![in alloc; id]?,
        deep: Vec::new(alloc),
        branches: vec![in alloc;
            Branch {
                id,
                levels: LEVELS_BELOW,
                ways
            },
        ]?,
    };
    while let Some(branch) = found.branches.pop() {
        take_apart(alloc, &mut found, branch)?;
    }
    Ok(found)
}

// The least of some ids that occurs twice, if there is one.
fn least_duplicate_of(alloc: Global, ids: &[Uuid]) -> Result<Option<Uuid>, NoMemory>
    ensures { IfOk result (λ least. least ≡ least_duplicate ids.now) }
{
    let mut set = BTreeSet::new(alloc);
    let mut duplicate = None;
    let mut at = ids.len();
    while at > 0 {
        at -= 1;
        let id = ids[at];
        if !set.insert(id)? {
            duplicate = Some(lesser(id, duplicate));
        }
    }
    Ok(duplicate)
}

/// Refuses a draft in whose tree two nodes have one id, and then one with too many levels.
pub(crate) fn refuse_draft(alloc: Global, draft: &ImportDraft) -> Result<(), TreeFail>
    ensures { spec.Returns (λ u. u) result (spec.sound_tree (draft_seen draft.now).tree) }
{
    let found = ids_of_draft(alloc, draft)?;
    if let Some(id) = least_duplicate_of(alloc, found.ids.as_slice())? {
        return Err(TreeFail::DuplicateId(id));
    }
    if let Some(id) = least_of(found.deep.as_slice()) {
        return Err(TreeFail::TooDeep(id));
    }
    Ok(())
}
