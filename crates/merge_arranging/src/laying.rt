//! A database laid over an older document, whose order of siblings and views it keeps.
ghost use Rattle.std.specs.Prelude.{◌≡◌, ◌++◌, [], ◌∷◌, Some, cond, not, IfOk, OnOk, map};
ghost use Rattle.std.specs.Option.{option_map, unwrap_or};
ghost use Rattle.std.specs.FinMap as table;
ghost use Rattle.std.specs.List.{filter, list_any};
ghost use Rattle.vault_model.specs.Join.{is_id};
ghost use Rattle.vault_model.specs.Shape.{in_order, kids, laid_children, laid_group, laid_meta, laid_stay, lay, new_view, no_stay, stay_in, stay_of, record_of, version_of, versions_in};
ghost use Rattle.vault_model.specs.Unite.{tabulate};
ghost use Rattle.merge_tables.specs.Databases.{database, shared_meta};
ghost use Rattle.merge_arranging.specs.Parents.{AreUnder, ids_under};
ghost use Rattle.merge_nodes.specs.Shapes.{meta_of, shape};

use crate::id_lists::IdList;
use crate::parents::by_parent;
use merge_nodes::shapes::{Children, LentEntry, LentGroup, LentVersion, Shape, ShapeMeta, Stay};
use merge_tables::databases::Database;
use merge_tables::icons::{ItemTable, LentIcon, LentItem};
use merge_tables::ids::{is_same, push_ids, table_of};
use merge_tables::metas::LentMeta;
use merge_tables::states::LentState;
use merge_tables::tables::{Table, put_some};
use merge_tables::version_keys::VersionKey;
use merge_tables::versions::VersionTable;
use outside_core::NoMemory;
use std::alloc::Global;
use uuid_core::Uuid;
use vault_model::{GroupView, Stamp, Stats};

/// Appends an id where it is wanted. A refusal means that memory ran out.
fn push_if(order: &mut Vec<Uuid>, id: Uuid, is_wanted: bool) -> Result<(), NoMemory>
    ensures { OnOk result (order.new.items ≡ order.old.items ++ cond is_wanted (id ∷ []) []) }
{
    if is_wanted {
        order.push(id)?;
    }
    Ok(())
}

/// Appends those that were there before and still are, as they were. A refusal means that memory
/// ran out.
fn push_kept(order: &mut Vec<Uuid>, before: &[Uuid], present: &Table<bool>) -> Result<(), NoMemory>
    ensures { OnOk result (order.new.items ≡ order.old.items
        ++ filter (λ u. table.contains_key present.now u) before.now) }
{
    for id in before {
        let is_kept = present.get(id).is_some();
        push_if(order, *id, is_kept)?;
    }
    Ok(())
}

/// Appends those that were not there before, in their order. A refusal means that memory ran out.
fn push_newcomers(
    order: &mut Vec<Uuid>,
    before: &Table<bool>,
    present: &[Uuid],
) -> Result<(), NoMemory>
    ensures { OnOk result (order.new.items ≡ order.old.items
        ++ filter (λ u. not (table.contains_key before.now u)) present.now) }
{
    for id in present {
        let is_new = before.get(id).is_none();
        push_if(order, *id, is_new)?;
    }
    Ok(())
}

/// Appends those that are among others, as they were. A refusal means that memory ran out.
fn push_those_in(
    alloc: Global,
    order: &mut Vec<Uuid>,
    before: &[Uuid],
    present: &[Uuid],
) -> Result<(), NoMemory>
    ensures { OnOk result (order.new.items ≡ order.old.items
        ++ filter (λ u. list_any (is_id u) present.now) before.now) }
{
    let now = table_of(alloc, present)?;
    push_kept(order, before, &now)
}

/// Appends those that are not among others, in their order. A refusal means that memory ran out.
fn push_those_not_in(
    alloc: Global,
    order: &mut Vec<Uuid>,
    before: &[Uuid],
    present: &[Uuid],
) -> Result<(), NoMemory>
    ensures { OnOk result (order.new.items ≡ order.old.items
        ++ filter (λ u. not (list_any (is_id u) before.now)) present.now) }
{
    let old = table_of(alloc, before)?;
    push_newcomers(order, &old, present)
}

/// Puts those that were there before and still are, as they were, and then the newcomers in their
/// order, where none are. A refusal means that memory ran out.
fn push_in_order(
    alloc: Global,
    order: &mut Vec<Uuid>,
    before: &[Uuid],
    present: &[Uuid],
) -> Result<(), NoMemory>
    requires { order.old.items ≡ [] }
    ensures { OnOk result (order.new.items ≡ in_order before.now present.now) }
{
    push_those_in(alloc, order, before, present)?;
    push_those_not_in(alloc, order, before, present)?;
    Ok(())
}

/// Those that were there before and still are, as they were, and then the newcomers in their order.
fn in_order(alloc: Global, before: &[Uuid], present: &[Uuid]) -> Result<Vec<Uuid>, NoMemory>
    ensures { IfOk result (λ us. us.items ≡ in_order before.now present.now) }
{
    let mut order = Vec::new(alloc);
    match push_in_order(alloc, &mut order, before, present) {
        Ok(()) => Ok(order),
        Err(fail) => {
            drop(order);
            Err(fail)
        }
    }
}

/// The ids of a table, by rising id.
fn ids_of<X>(alloc: Global, from: &Table<X>) -> Result<Vec<Uuid>, NoMemory>
    ensures { IfOk result (λ us. us.items ≡ table.keys from.now) }
{
    let mut ids = Vec::new(alloc);
    match push_ids(&mut ids, from) {
        Ok(()) => Ok(ids),
        Err(fail) => {
            drop(ids);
            Err(fail)
        }
    }
}

/// The entries of a group in the older document, in their order.
fn old_entries<'s>(older: &'s Shape, group: &Uuid) -> &'s [Uuid]
    ensures { result.now ≡ (kids (shape older.now) group.now).entries }
{
    match older.children.get(group) {
        Some(children) => children.entries(),
        None => &[],
    }
}

/// The groups of a group in the older document, in their order.
fn old_groups<'s>(older: &'s Shape, group: &Uuid) -> &'s [Uuid]
    ensures { result.now ≡ (kids (shape older.now) group.now).groups }
{
    match older.children.get(group) {
        Some(children) => children.groups(),
        None => &[],
    }
}

/// The entries that are in each group, by rising id.
fn entries_by_group(alloc: Global, laid: &Database) -> Result<Table<IdList>, NoMemory>
    ensures { IfOk result (AreUnder (database laid.now) (table.keys laid.now.entries)) }
{
    let ids = ids_of(alloc, &laid.entries)?;
    by_parent(alloc, ids.as_slice(), &laid.places)
}

/// The ids that a table has for a group.
fn ids_under<'t>(children: &'t Table<IdList>, group: &Uuid) -> &'t [Uuid]
    ensures { result.now ≡ ids_under children.now group.now }
{
    match children.get(group) {
        Some(ids) => ids.as_slice(),
        None => &[],
    }
}

/// The entries and the groups that are in each group, by rising id.
#[derive(Clone, Copy)]
struct Members<'t> {
    entries: &'t Table<IdList>,
    groups: &'t Table<IdList>,
}

/// A group's children, of those that are in each group: those that it had in the older document and
/// still has, and then the newcomers by rising id.
fn laid_children(
    alloc: Global,
    _laid: &Database,
    older: &Shape,
    members: Members<'_>,
    group: &Uuid,
) -> Result<Children, NoMemory>
    requires entries { AreUnder (database _laid.now) (table.keys _laid.now.entries)
        members.entries.now }
    requires groups { AreUnder (database _laid.now) (table.keys _laid.now.groups)
        members.groups.now }
    ensures { IfOk result (λ s. s ≡ laid_children (database _laid.now) (shape older.now)
        group.now) }
{
    let entries = old_entries(older, group);
    let ordered_entries = in_order(alloc, entries, ids_under(members.entries, group))?;
    match in_order(
        alloc,
        old_groups(older, group),
        ids_under(members.groups, group),
    ) {
        Ok(ordered_groups) => Ok(Children::new(ordered_entries, ordered_groups)),
        Err(fail) => {
            drop(ordered_entries);
            Err(fail)
        }
    }
}

/// The stay of what is in no group.
fn no_stay() -> Stay
    ensures { result ≡ no_stay }
{
    Stay {
        placed: Stamp::of(0).unwrap(),
        previous: Uuid::nil(),
    }
}

/// A node's stay in a database.
fn stay_in(laid: &Database, id: &Uuid) -> Stay
    ensures { result ≡ stay_in (database laid.now) id.now }
{
    match laid.places.get(id) {
        Some(place) => Stay {
            placed: place.placed,
            previous: place.previous,
        },
        None => no_stay(),
    }
}

/// A node's stay in a document.
fn stay_of(older: &Shape, id: &Uuid) -> Stay
    ensures { result ≡ stay_of (shape older.now) id.now }
{
    if let Some(entry) = older.entries.get(id) {
        return entry.stay();
    }
    match older.groups.get(id) {
        Some(group) => group.stay(),
        None => no_stay(),
    }
}

/// The stay of a group that is laid: that of its place, and of the root that of the older document.
fn laid_stay(laid: &Database, older: &Shape, id: &Uuid) -> Stay
    ensures { result ≡ laid_stay (database laid.now) (shape older.now) id.now }
{
    if is_same(id, &laid.root) {
        stay_of(older, id)
    } else {
        stay_in(laid, id)
    }
}

/// Puts versions as a document has them, in their order, where none are. A refusal means that
/// memory ran out.
fn push_versions<'a>(
    versions: &mut Vec<LentVersion<'a>>,
    rows: &[(VersionKey<'a>, Stats)],
) -> Result<(), NoMemory>
    requires { versions.old.items ≡ [] }
    ensures { OnOk result (versions.new.items ≡ map version_of rows.now) }
{
    for row in rows {
        versions.push(LentVersion::new(&row.0, row.1))?;
    }
    Ok(())
}

/// Versions as a document has them, in their order.
fn versions_of<'a>(
    alloc: Global,
    rows: &[(VersionKey<'a>, Stats)],
) -> Result<Vec<LentVersion<'a>>, NoMemory>
    ensures { IfOk result (λ vs. vs.items ≡ map version_of rows.now) }
{
    let mut versions = Vec::new(alloc);
    match push_versions(&mut versions, rows) {
        Ok(()) => Ok(versions),
        Err(fail) => {
            drop(versions);
            Err(fail)
        }
    }
}

/// An entry of its versions: the greatest is current, and the others are the history, rising.
fn record_of<'a>(
    alloc: Global,
    stay: Stay,
    versions: &VersionTable<'a>,
) -> Result<Option<LentEntry<'a>>, NoMemory>
    ensures { IfOk result (λ e. e ≡ record_of stay (table.entries versions.now)) }
{
    let rows = versions.rows();
    if rows.len() == 0 {
        return Ok(None);
    }
    let last = rows.len() - 1;
    let history = versions_of(alloc, &rows[..last])?;
    let newest = &rows[last];
    let current = LentVersion::new(&newest.0, newest.1);
    Ok(Some(LentEntry::new(stay, current, history)))
}

/// An entry as it is laid.
fn laid_entry<'a>(
    alloc: Global,
    laid: &Database<'a>,
    id: &Uuid,
) -> Result<Option<LentEntry<'a>>, NoMemory>
    ensures { IfOk result (λ e. e ≡ record_of (stay_in (database laid.now) id.now)
        (versions_in (table.get laid.now.entries id.now))) }
{
    let Some(versions) = laid.entries.get(id) else {
        return Ok(None);
    };
    record_of(alloc, stay_in(laid, id), versions)
}

/// Puts the entries of these ids as they are laid. A refusal means that memory ran out.
fn fill_entries<'a>(
    alloc: Global,
    entries: &mut Table<LentEntry<'a>>,
    laid: &Database<'a>,
    ids: &[Uuid],
) -> Result<(), NoMemory>
    requires none { entries.old ≡ table.empty }
    requires ids { ids.now ≡ table.keys laid.now.entries }
    ensures { OnOk result (entries.new ≡ tabulate (table.keys laid.now.entries)
        (λ u. record_of (stay_in (database laid.now) u)
        (versions_in (table.get laid.now.entries u)))) }
{
    for id in ids {
        let entry = laid_entry(alloc, laid, id)?;
        put_some(entries, *id, entry)?;
    }
    Ok(())
}

/// Puts the entries as they are laid. A refusal means that memory ran out.
fn put_entries<'a>(
    alloc: Global,
    entries: &mut Table<LentEntry<'a>>,
    laid: &Database<'a>,
) -> Result<(), NoMemory>
    requires { entries.old ≡ table.empty }
    ensures { OnOk result (entries.new ≡ tabulate (table.keys laid.now.entries)
        (λ u. record_of (stay_in (database laid.now) u)
        (versions_in (table.get laid.now.entries u)))) }
{
    let ids = ids_of(alloc, &laid.entries)?;
    fill_entries(alloc, entries, laid, ids.as_slice())
}

/// How a group that is new is looked at.
fn new_view() -> GroupView
    ensures { result ≡ new_view }
{
    GroupView {
        expanded: true,
        top_entry: Uuid::nil(),
    }
}

/// A group as it is in the database, looked at as in the older document.
fn laid_group<'a>(
    laid: &Database<'a>,
    older: &Shape<'a>,
    id: &Uuid,
    state: &LentState<'a>,
) -> LentGroup<'a>
    ensures { result ≡ laid_group (database laid.now) (shape older.now) id.now state.now }
{
    let stay = laid_stay(laid, older, id);
    let view = match older.groups.get(id) {
        Some(group) => group.view(),
        None => new_view(),
    };
    LentGroup::new(stay, state.again(), view)
}

/// The group of an id as it is laid, where the database has one.
fn laid_group_at<'a>(laid: &Database<'a>, older: &Shape<'a>, id: &Uuid) -> Option<LentGroup<'a>>
    ensures { result ≡ option_map (laid_group (database laid.now) (shape older.now) id.now)
        (table.get laid.now.groups id.now) }
{
    match laid.groups.get(id) {
        Some(state) => Some(laid_group(laid, older, id, state)),
        None => None,
    }
}

/// Puts the groups of these ids as they are laid. A refusal means that memory ran out.
fn fill_groups<'a>(
    groups: &mut Table<LentGroup<'a>>,
    laid: &Database<'a>,
    older: &Shape<'a>,
    ids: &[Uuid],
) -> Result<(), NoMemory>
    requires none { groups.old ≡ table.empty }
    requires ids { ids.now ≡ table.keys laid.now.groups }
    ensures { OnOk result (groups.new ≡ tabulate (table.keys laid.now.groups)
        (λ u. option_map (laid_group (database laid.now) (shape older.now) u)
        (table.get laid.now.groups u))) }
{
    for id in ids {
        let group = laid_group_at(laid, older, id);
        put_some(groups, *id, group)?;
    }
    Ok(())
}

/// Puts the children of the groups of these ids as they are laid. A refusal means that memory ran
/// out.
fn fill_children(
    alloc: Global,
    children: &mut Table<Children>,
    laid: &Database,
    older: &Shape,
    members: Members<'_>,
    ids: &[Uuid],
) -> Result<(), NoMemory>
    requires none { children.old ≡ table.empty }
    requires entries { AreUnder (database laid.now) (table.keys laid.now.entries)
        members.entries.now }
    requires groups { AreUnder (database laid.now) (table.keys laid.now.groups)
        members.groups.now }
    requires ids { ids.now ≡ table.keys laid.now.groups }
    ensures { OnOk result (children.new ≡ tabulate (table.keys laid.now.groups)
        (λ g. Some (laid_children (database laid.now) (shape older.now) g))) }
{
    for id in ids {
        let siblings = laid_children(alloc, laid, older, members, id)?;
        put_some(children, *id, Some(siblings))?;
    }
    Ok(())
}

/// Puts the children of the groups of these ids as they are laid, of the entries that are in each
/// group. A refusal means that memory ran out.
fn put_children_of(
    alloc: Global,
    children: &mut Table<Children>,
    laid: &Database,
    older: &Shape,
    entries: &Table<IdList>,
    ids: &[Uuid],
) -> Result<(), NoMemory>
    requires none { children.old ≡ table.empty }
    requires entries { AreUnder (database laid.now) (table.keys laid.now.entries) entries.now }
    requires ids { ids.now ≡ table.keys laid.now.groups }
    ensures { OnOk result (children.new ≡ tabulate (table.keys laid.now.groups)
        (λ g. Some (laid_children (database laid.now) (shape older.now) g))) }
{
    let groups = by_parent(alloc, ids, &laid.places)?;
    let members = Members {
        entries,
        groups: &groups,
    };
    fill_children(alloc, children, laid, older, members, ids)
}

/// Puts the children of the groups of these ids as they are laid. A refusal means that memory ran
/// out.
fn put_children(
    alloc: Global,
    children: &mut Table<Children>,
    laid: &Database,
    older: &Shape,
    ids: &[Uuid],
) -> Result<(), NoMemory>
    requires none { children.old ≡ table.empty }
    requires ids { ids.now ≡ table.keys laid.now.groups }
    ensures { OnOk result (children.new ≡ tabulate (table.keys laid.now.groups)
        (λ g. Some (laid_children (database laid.now) (shape older.now) g))) }
{
    let entries = entries_by_group(alloc, laid)?;
    put_children_of(alloc, children, laid, older, &entries, ids)
}

/// Puts the tombstones of these ids. A refusal means that memory ran out.
fn fill_tombs(same: &mut Table<Stamp>, tombs: &Table<Stamp>, ids: &[Uuid]) -> Result<(), NoMemory>
    requires none { same.old ≡ table.empty }
    requires ids { ids.now ≡ table.keys tombs.now }
    ensures { OnOk result (same.new ≡ tombs.now) }
{
    for id in ids {
        let deleted = tombs.get(id).copied();
        put_some(same, *id, deleted)?;
    }
    Ok(())
}

/// Puts the same tombstones. A refusal means that memory ran out.
fn put_tombs(alloc: Global, same: &mut Table<Stamp>, tombs: &Table<Stamp>) -> Result<(), NoMemory>
    requires { same.old ≡ table.empty }
    ensures { OnOk result (same.new ≡ tombs.now) }
{
    let ids = ids_of(alloc, tombs)?;
    fill_tombs(same, tombs, ids.as_slice())
}

/// Puts the icons of a database, by rising id, where none are. A refusal means that memory ran out.
fn push_icons<'a>(
    values: &mut Vec<LentIcon<'a>>,
    icons: &Table<LentIcon<'a>>,
) -> Result<(), NoMemory>
    requires { values.old.items ≡ [] }
    ensures { OnOk result (values.new.items ≡ table.values icons.now) }
{
    for (_, icon) in icons.iter() {
        values.push(icon.again())?;
    }
    Ok(())
}

/// Puts the custom items of a database, by rising key, where none are. A refusal means that memory
/// ran out.
fn push_items<'a>(values: &mut Vec<LentItem<'a>>, items: &ItemTable<'a>) -> Result<(), NoMemory>
    requires { values.old.items ≡ [] }
    ensures { OnOk result (values.new.items ≡ table.values items.now) }
{
    for row in items.rows() {
        values.push(row.1.again())?;
    }
    Ok(())
}

/// The shared values of a database but its icons and custom items, and how the older document was
/// looked at.
fn bare_meta<'a>(alloc: Global, laid: &LentMeta<'a>, older: &ShapeMeta<'a>) -> ShapeMeta<'a>
    ensures { meta_of result ≡ record (laid_meta (shared_meta laid.now) (meta_of older.now)) {
      icons = [];
      items = [];
    } }
{
    ShapeMeta {
        name: laid.name,
        description: laid.description,
        user: laid.user,
        bin: laid.bin,
        templates: laid.templates,
        settings: laid.settings,
        icons: Vec::new(alloc),
        items: Vec::new(alloc),
        view: older.view,
    }
}

/// Puts all nodes as they are laid, of which the ids of the groups are given, the tombstones, the
/// icons and the custom items. A refusal means that memory ran out.
fn put_all<'a>(
    alloc: Global,
    made: &mut Shape<'a>,
    laid: &Database<'a>,
    older: &Shape<'a>,
    groups: &[Uuid],
) -> Result<(), NoMemory>
    requires root { made.old.root ≡ laid.now.root }
    requires entries { made.old.entries ≡ table.empty }
    requires groups { made.old.groups ≡ table.empty }
    requires children { made.old.children ≡ table.empty }
    requires tombs { made.old.tombs ≡ table.empty }
    requires meta { meta_of made.old.meta
        ≡ record (laid_meta (shared_meta laid.now.meta) (meta_of older.now.meta)) {
          icons = [];
          items = [];
        } }
    requires ids { groups.now ≡ table.keys laid.now.groups }
    ensures { OnOk result (shape made.new ≡ lay (database laid.now) (shape older.now)) }
{
    put_entries(alloc, &mut made.entries, laid)?;
    fill_groups(&mut made.groups, laid, older, groups)?;
    put_children(alloc, &mut made.children, laid, older, groups)?;
    put_tombs(alloc, &mut made.tombs, &laid.tombs)?;
    push_icons(&mut made.meta.icons, &laid.meta.icons)?;
    push_items(&mut made.meta.items, &laid.meta.items)?;
    Ok(())
}

/// The document of a database over an older document, of which the ids of the groups are given.
fn lay_with<'a>(
    alloc: Global,
    laid: &Database<'a>,
    older: &Shape<'a>,
    groups: &[Uuid],
) -> Result<Shape<'a>, NoMemory>
    requires { groups.now ≡ table.keys laid.now.groups }
    ensures { IfOk result (λ s. shape s ≡ lay (database laid.now) (shape older.now)) }
{
    let mut made = Shape {
        root: laid.root,
        entries: Table::new(alloc),
        groups: Table::new(alloc),
        children: Table::new(alloc),
        tombs: Table::new(alloc),
        meta: bare_meta(alloc, &laid.meta, &older.meta),
    };
    match put_all(alloc, &mut made, laid, older, groups) {
        Ok(()) => Ok(made),
        Err(fail) => {
            drop(made);
            Err(fail)
        }
    }
}

/// The document of a database over an older document: the order of siblings and how all was looked
/// at are the older document's, newcomers come after by rising id, and of an entry's versions the
/// greatest is current. The only refusal is that memory ran out.
pub fn lay<'a>(alloc: Global, laid: &Database<'a>, older: &Shape<'a>) -> Result<Shape<'a>, NoMemory>
    ensures { IfOk result (λ s. shape s ≡ lay (database laid.now) (shape older.now)) }
{
    let groups = ids_of(alloc, &laid.groups)?;
    lay_with(alloc, laid, older, groups.as_slice())
}
