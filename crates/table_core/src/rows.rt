//! Fields and rows.

ghost use Rattle.std.specs.Prelude.{◌≡◌, ◌++◌, codes, flat_map, map, OnOk};
ghost use Rattle.doc_spelling.specs.Moments.{iso_at};
ghost use Rattle.table_core.specs.Rows.{entry_fields, entry_values, header};
ghost use Rattle.table_core.specs.Tables as spec;
ghost use Rattle.table_core.specs.Tables.{after_commas, doubled, row_of};
ghost use Rattle.vault_model.specs.SeenNodes.{entry_record, entry_row};
ghost use Rattle.vault_model.specs.Walk.{slash_joined, slashed};

use crate::sinks::TableSink;
use find_references::field_value;
use outside_core::NoMemory;
use time_core::{Stamp, iso_of};
use vault_model::Entry;

// Puts a byte of a field, a quote twice.
fn put_byte<O: TableSink>(out: &mut O, byte: u8) -> Result<(), NoMemory>
    ensures { OnOk result (O.state out.new ≡ O.step (O.state out.old) (doubled byte)) }
{
    match byte {
        b'"' => out.put(b"\"\""),
        _ => out.put(&[byte]),
    }
}

// Puts the bytes of a field, each quote twice.
fn put_doubled<O: TableSink>(out: &mut O, field: &[u8]) -> Result<(), NoMemory>
    ensures { OnOk result (O.state out.new
        ≡ O.step (O.state out.old) (flat_map doubled field.now)) }
{
    for byte in field {
        put_byte(out, *byte)?;
    }
    Ok(())
}

// Puts a field in quotes.
fn put_quoted<O: TableSink>(out: &mut O, field: &[u8]) -> Result<(), NoMemory>
    ensures { OnOk result (O.state out.new ≡ O.step (O.state out.old) (spec.quoted field.now)) }
{
    out.put(b"\"")?;
    put_doubled(out, field)?;
    out.put(b"\"")
}

// Puts a field after a comma.
fn put_after_comma<O: TableSink>(out: &mut O, field: &[u8]) -> Result<(), NoMemory>
    ensures { OnOk result (O.state out.new
        ≡ O.step (O.state out.old) (codes "," ++ spec.quoted field.now)) }
{
    out.put(b",")?;
    put_quoted(out, field)
}

// Puts fields, each after a comma.
fn put_after_commas<O: TableSink>(out: &mut O, fields: &[&[u8]]) -> Result<(), NoMemory>
    ensures { OnOk result (O.state out.new
        ≡ O.step (O.state out.old) (after_commas (map (λ f. f.now) fields.now))) }
{
    for field in fields {
        put_after_comma(out, field)?;
    }
    Ok(())
}

// Puts a name after a slash, each quote twice.
fn put_after_slash<O: TableSink>(out: &mut O, name: &[u8]) -> Result<(), NoMemory>
    ensures { OnOk result (O.state out.new
        ≡ O.step (O.state out.old) (flat_map doubled (codes "/" ++ name.now))) }
{
    out.put(b"/")?;
    put_doubled(out, name)
}

// Puts names, each after a slash, each quote twice.
fn put_slashed<O: TableSink>(out: &mut O, names: &[&[u8]]) -> Result<(), NoMemory>
    ensures { OnOk result (O.state out.new ≡ O.step (O.state out.old)
        (flat_map doubled (slashed (map (λ n. n.now) names.now)))) }
{
    for name in names {
        put_after_slash(out, name)?;
    }
    Ok(())
}

// Puts names with a slash between each two, each quote twice.
fn put_names<O: TableSink>(out: &mut O, names: &[&[u8]]) -> Result<(), NoMemory>
    ensures { OnOk result (O.state out.new ≡ O.step (O.state out.old)
        (flat_map doubled (slash_joined (map (λ n. n.now) names.now)))) }
{
    let [first, rest @ ..] = names else {
        return Ok(());
    };
    put_doubled(out, first)?;
    put_slashed(out, rest)
}

// The text of a time.
fn iso_text(stamp: Stamp) -> [u8; 20]
    ensures { result ≡ iso_at stamp }
{
    iso_of(stamp)
}

// Puts what a row has after the names of the group: the values and times of an entry.
fn put_values<O: TableSink>(out: &mut O, entry: &Entry) -> Result<(), NoMemory>
    ensures { OnOk result (O.state out.new ≡ O.step (O.state out.old)
        (after_commas (entry_values (entry_record entry.now)))) }
{
    let current = &entry.current;
    put_after_commas(
        out,
        &[
            field_value(entry, "Title"),
            field_value(entry, "UserName"),
            field_value(entry, "Password"),
            field_value(entry, "URL"),
            field_value(entry, "Notes"),
            &iso_text(current.modified),
            &iso_text(current.content.created),
        ],
    )
}

// Puts the path of a group: the names that lead to it from the root, as one field.
fn put_path<O: TableSink>(out: &mut O, names: &[&[u8]]) -> Result<(), NoMemory>
    ensures { OnOk result (O.state out.new ≡ O.step (O.state out.old)
        (spec.quoted (slash_joined (map (λ n. n.now) names.now)))) }
{
    out.put(b"\"")?;
    put_names(out, names)?;
    out.put(b"\"")
}

/// Puts the row with the names of the columns.
pub(crate) fn put_header<O: TableSink>(out: &mut O) -> Result<(), NoMemory>
    ensures { OnOk result (O.state out.new ≡ O.step (O.state out.old) (row_of header)) }
{
    put_quoted(out, b"Group")?;
    put_after_commas(
        out,
        &[
            b"Title",
            b"Username",
            b"Password",
            b"URL",
            b"Notes",
            b"Last Modified",
            b"Created",
        ],
    )?;
    out.put(b"\n")
}

/// Puts the row of an entry in a group to which these names lead from the root.
pub(crate) fn put_entry<O: TableSink>(
    out: &mut O,
    names: &[&[u8]],
    entry: &Entry,
) -> Result<(), NoMemory>
    ensures { OnOk result (O.state out.new ≡ O.step (O.state out.old)
        (row_of (entry_fields (map (λ n. n.now) names.now) (entry_row entry.now)))) }
{
    put_path(out, names)?;
    put_values(out, entry)?;
    out.put(b"\n")
}
