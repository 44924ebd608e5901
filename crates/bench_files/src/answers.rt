//! What is done for a row, and what is printed of it.

ghost use Rattle.std.specs.Prelude.{◌≡◌};
ghost use Rattle.kdbx_frame.specs.Settings.{IsInOrder};

use crate::choices::{settings_of, short_number_of};
use crate::disk::{open_often, seal_read};
use crate::documents::read_file;
use crate::fault::Fault;
use crate::memory::seal_in_memory;
use crate::row::Row;
use crate::sealing::Target;
use crate::writing;
use kdbx_frame::Settings;
use std::fs::{self, File, Files};
use std::random::RandomSource;
use std::time::Clock;

// Writes a document as a row says.
fn write(rt: &(impl Files + AllocGlobal), row: &Row<'_>) -> Result<String, Fault> {
    let mut doc = read_file(rt, row.word(2));
    let result = writing::answer(rt.alloc(), row.word(1), &mut doc);
    drop(doc);
    result
}

// Seals a document in memory, and gives the length of the file and its SHA-256.
fn seal(
    rt: &(impl Files + AllocGlobal),
    row: &Row<'_>,
    settings: &Settings,
) -> Result<String, Fault>
    requires { IsInOrder settings.now }
{
    match fs::read_to_string(rt, row.word(6)) {
        Ok(text) => seal_in_memory(rt.alloc(), row, settings, text.as_str())?.text(rt.alloc()),
        Err(_) => Err(Fault::NoFile),
    }
}

// Seals a document on the disk, and gives how many bytes of memory the process held before.
fn seal_file(
    rt: &(impl Files<File = File> + RandomSource + Clock + AllocGlobal),
    row: &Row<'_>,
    settings: &Settings,
) -> Result<String, Fault>
    requires { IsInOrder settings.now }
{
    let times = short_number_of(row.word(8))?;
    let target = Target::new(row.word(7), row.word(5));
    let doc = read_file(rt, row.word(6));
    let held = seal_read(rt, &doc, settings, &target, times);
    drop(doc);
    match held {
        Ok(held) => Ok(format!(in rt.alloc(); "{held}")?),
        Err(fault) => Err(fault),
    }
}

// Opens a file on the disk.
fn open_file(
    rt: &(impl Files<File = File> + RandomSource + Clock + AllocGlobal),
    row: &Row<'_>,
) -> Result<String, Fault> {
    let times = short_number_of(row.word(3))?;
    open_often(rt, &Target::new(row.word(2), row.word(1)), times)?;
    Ok(String::from_str(rt.alloc(), "opened")?)
}

// Seals a document with the settings of a row.
fn seal_by_settings(
    rt: &(impl Files<File = File> + RandomSource + Clock + AllocGlobal),
    row: &Row<'_>,
    settings: &Settings,
) -> Result<String, Fault>
    requires { IsInOrder settings.now }
{
    if row.word(0) == "seal" {
        seal(rt, row, settings)
    } else {
        seal_file(rt, row, settings)
    }
}

// Seals a document with the settings that a row chooses.
fn seal_as_chosen(
    rt: &(impl Files<File = File> + RandomSource + Clock + AllocGlobal),
    row: &Row<'_>,
) -> Result<String, Fault> {
    match settings_of(rt.alloc(), &row.choices()) {
        Ok(settings) => seal_by_settings(rt, row, &settings),
        Err(fault) => Err(fault),
    }
}

/// Does what a row asks for, and gives what is to be printed of it.
pub fn answer(
    rt: &(impl Files<File = File> + RandomSource + Clock + AllocGlobal),
    row: &Row<'_>,
) -> Result<String, Fault> {
    match row.word(0) {
        "write" => write(rt, row),
        "seal" | "seal-file" => seal_as_chosen(rt, row),
        "open-file" => open_file(rt, row),
        _ => Err(Fault::BadWord),
    }
}
