//! The columns of a table, by their names.

ghost use Rattle.std.specs.Prelude.{◌≡◌, [], ◌∷◌, ◌++◌, IfOk, OnOk, map};
ghost use Rattle.csv.specs.Records.{field_at, fields_of};
ghost use Rattle.table_reading.specs.Columns as spec;

use csv::StringRecord;
use outside_core::{List, NoMemory, Text};
use std::alloc::Global;

/// Where the columns are that count.
#[derive(Clone, Copy)]
pub(crate) struct Columns {
    pub(crate) group: Option<usize>,
    pub(crate) title: Option<usize>,
    pub(crate) user: Option<usize>,
    pub(crate) password: Option<usize>,
    pub(crate) url: Option<usize>,
    pub(crate) notes: Option<usize>,
    pub(crate) otp: Option<usize>,
    pub(crate) modified: Option<usize>,
    pub(crate) created: Option<usize>,
}

// Reports whether a column has this name, whatever the white space around it and the case of its
// ASCII letters.
fn is_called(column: &str, name: &str) -> bool
    ensures { result ≡ spec.is_called column.now name.now }
{
    column.trim().eq_ignore_ascii_case(name)
}

// Reports whether a column has one of these names.
fn is_among(column: &str, names: &[&str]) -> bool
    ensures { result ≡ spec.is_among (map (λ name. name.now) names.now) column.now }
{
    for name in names {
        if is_called(column, name) {
            return true;
        }
    }
    false
}

// Reports whether the column of this place has one of these names.
fn is_named(row: &StringRecord, at: usize, names: &[&str]) -> bool
    ensures { result ≡ spec.is_named (map (λ name. name.now) names.now)
        (field_at (fields_of row.now) at) }
{
    match row.get(at) {
        Some(column) => is_among(column, names),
        None => false,
    }
}

// The place of the last column that has one of these names, if there is one.
fn place_of(row: &StringRecord, names: &[&str]) -> Option<usize>
    ensures { result ≡ spec.place_of (map (λ name. name.now) names.now) (fields_of row.now) }
{
    let mut place = None;
    for at in 0..row.len() {
        if is_named(row, at, names) {
            place = Some(at);
        }
    }
    place
}

/// The columns of these names that count.
pub(crate) fn columns_of(names: &StringRecord) -> Columns
    ensures { result ≡ spec.columns_of (fields_of names.now) }
{
    Columns {
        group: place_of(names, &["group", "folder", "grouping"]),
        title: place_of(names, &["title", "name", "account"]),
        user: place_of(
            names,
            &[
                "username",
                "user name",
                "login name",
                "login_username",
                "login",
            ],
        ),
        password: place_of(names, &["password", "login_password"]),
        url: place_of(names, &["url", "urls", "login_uri", "web site", "website"]),
        notes: place_of(names, &["notes", "note", "comments", "extra"]),
        otp: place_of(names, &["totp", "otpauth", "login_totp", "otp"]),
        modified: place_of(names, &["last modified"]),
        created: place_of(names, &["created"]),
    }
}

// Reports whether this is the place.
fn is_at(place: Option<usize>, at: usize) -> bool
    ensures { result ≡ spec.is_at at place }
{
    match place {
        Some(place) => place == at,
        None => false,
    }
}

// Reports whether the column of this place counts.
fn counts(columns: &Columns, at: usize) -> bool
    ensures { result ≡ spec.counts columns.now at }
{
    is_at(columns.group, at)
        || is_at(columns.title, at)
        || is_at(columns.user, at)
        || is_at(columns.password, at)
        || is_at(columns.url, at)
        || is_at(columns.notes, at)
        || is_at(columns.otp, at)
        || is_at(columns.modified, at)
        || is_at(columns.created, at)
}

// Puts a name after others.
fn push_name(names: &mut List<Text>, name: Text) -> Result<(), NoMemory>
    ensures { OnOk result (names.new ≡ names.old ++ name ∷ []) }
{
    match names.push(name) {
        Ok(()) => Ok(()),
        Err(_) => Err(NoMemory),
    }
}

// Puts the name of the column of this place after others, unless the column counts.
fn add_passed(
    alloc: Global,
    passed: &mut List<Text>,
    columns: &Columns,
    names: &StringRecord,
    at: usize,
) -> Result<(), NoMemory>
    ensures { OnOk result (passed.new ≡ passed.old
        ++ spec.passed_at columns.now at (field_at (fields_of names.now) at)) }
{
    if counts(columns, at) {
        return Ok(());
    }
    match names.get(at) {
        Some(name) => push_name(passed, Text::of(alloc, name)?),
        None => Ok(()),
    }
}

// Puts the names of the columns that do not count after others, in their order.
fn add_all_passed(
    alloc: Global,
    passed: &mut List<Text>,
    columns: &Columns,
    names: &StringRecord,
) -> Result<(), NoMemory>
    ensures { OnOk result (passed.new ≡ passed.old
        ++ spec.passed_from columns.now 0 (fields_of names.now)) }
{
    for at in 0..names.len() {
        add_passed(alloc, passed, columns, names, at)?;
    }
    Ok(())
}

/// The names of the columns that do not count, in their order.
pub(crate) fn passed_over(
    alloc: Global,
    columns: &Columns,
    names: &StringRecord,
) -> Result<List<Text>, NoMemory>
    ensures { IfOk result (λ passed. passed
        ≡ spec.passed_from columns.now 0 (fields_of names.now)) }
{
    let mut passed = List::new(alloc);
    match add_all_passed(alloc, &mut passed, columns, names) {
        Ok(()) => Ok(passed),
        Err(fail) => {
            drop(passed);
            Err(fail)
        }
    }
}
