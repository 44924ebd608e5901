//! Groups.

ghost use Rattle.std.specs.Prelude.{◌≡◌, ◌&&◌, true};
ghost use Rattle.doc_sinks.specs.States.{after_piece, after_pieces};
ghost use Rattle.doc_spelling.specs.Groups as row;
ghost use Rattle.doc_write.specs.GroupRecords.{group_id, group_record};
ghost use Rattle.doc_spelling.specs.Ranges.{fits_record, fits_tree, fits_u32, is_uuid, is_uuid_or_none};
ghost use Rattle.vault_model.specs.SeenNodes.{tree_seen};

use crate::entries::put_entries;
use crate::icons::{put_any_text, put_icon_names, put_previous};
use crate::items::{put_any_items, put_times};
use doc_forms::Times;
use doc_sinks::{Mark, Pool, TextSink, close, open, put_bool, put_id, put_text, put_tri};
use vault_model::{DocForm, Group, GroupContent};

/// Puts a group's name, notes, tags and icon.
fn put_names<O: TextSink>(out: &mut O, content: &GroupContent)
    ensures puts { O.state out.new
        ≡ after_pieces O.step (O.state out.old) (row.name_pieces content.now) }
    ensures fits { (fits_u32 content.now.icon && is_uuid_or_none content.now.custom_icon) ≡ true }
{
    put_text(out, "Name", &content.name);
    put_text(out, "Notes", &content.notes);
    put_any_text(out, "Tags", &content.tags);
    put_icon_names(out, content.icon, content.custom_icon);
}

/// Puts how a group is shown, and how its entries are typed and searched.
fn put_choices<O: TextSink>(out: &mut O, group: &Group)
    ensures puts { O.state out.new
        ≡ after_pieces O.step (O.state out.old) (row.choice_pieces (group_record group.now)) }
    ensures fits { is_uuid (group_record group.now).view.top_entry ≡ true }
{
    put_bool(out, "IsExpanded", group.view.expanded);
    put_text(
        out,
        "DefaultAutoTypeSequence",
        &group.state.content.sequence,
    );
    put_tri(out, "EnableAutoType", group.state.content.auto_type);
    put_tri(out, "EnableSearching", group.state.content.searching);
    put_id(out, "LastTopVisibleEntry", group.view.top_entry);
}

/// The times of a group.
fn group_times(group: &Group) -> Times
    ensures { result ≡ row.group_times (group_record group.now) }
{
    Times {
        modified: group.state.modified,
        created: group.state.content.created,
        accessed: group.state.stats.accessed,
        expiry: group.state.content.expiry,
        expires: group.state.content.expires,
        usage: group.state.stats.usage,
        placed: group.placed,
    }
}

/// Puts what a group says of itself.
fn put_record<O: TextSink>(out: &mut O, form: DocForm, group: &Group)
    ensures puts { O.state out.new ≡ after_pieces O.step (O.state out.old)
        (row.record_pieces form (group_id group.now) (group_record group.now)) }
    ensures fits { fits_record (group_id group.now) (group_record group.now) ≡ true }
{
    put_id(out, "UUID", group.id);
    put_names(out, &group.state.content);
    put_times(out, form, group_times(group));
    put_choices(out, group);
    put_previous(out, group.previous);
    put_any_items(out, form, group.state.content.items.as_slice());
}

/// Puts a group: what it says of itself, its entries, and its groups.
pub(crate) fn put_group<'a, O: TextSink>(
    out: &mut O,
    form: DocForm,
    pool: &Pool<'a>,
    group: &'a Group,
)
    ensures puts { O.state out.new ≡ after_piece O.step (O.state out.old)
        (row.group_piece form pool.now (tree_seen group.now)) }
    ensures fits { fits_tree (tree_seen group.now) ≡ true }
{
    open(out, "Group", Mark::Unmarked);
    put_record(out, form, group);
    put_entries(out, form, pool, group.entries.as_slice());
    for below in group.groups.as_slice() {
        put_group(out, form, pool, below);
    }
    close(out, "Group");
}
