//! Files on the disk, which are sealed and opened as often as asked.

ghost use Rattle.std.specs.Prelude.{◌≡◌};
ghost use Rattle.kdbx_frame.specs.Settings.{IsInOrder};

use crate::fault::Fault;
use crate::sealing::{Target, open, seal};
use kdbx_frame::Settings;
use outside_core::FileStore;
use outside_host::{HostDice, HostFiles, World};
use std::alloc::Global;
use std::fs::{self, File, Files};
use std::random::RandomSource;
use std::time::Clock;
use vault_model::Doc;

// Seals a document as a file under a password, as often as asked.
fn seal_often(
    rt: &(impl Files<File = File> + RandomSource + Clock + AllocGlobal),
    doc: &Doc,
    settings: &Settings,
    target: &Target<'_>,
    times: u32,
) -> Result<(), Fault>
    requires { IsInOrder settings.now }
{
    let world = World::any();
    let mut files = HostFiles::new(rt, rt.alloc(), None, &world);
    let mut dice = HostDice::new(rt, &world);
    for _ in 0..times {
        seal(rt.alloc(), doc, settings, target, &mut files, &mut dice)?;
    }
    Ok(())
}

// How many bytes of memory the process holds, by the system's count; 0 where it gives none.
fn resident(rt: &(impl Files<File = File> + AllocGlobal)) -> u64 {
    let Ok(text) = fs::read_to_string(rt, "/proc/self/statm") else {
        return 0;
    };
    match text.as_str().split_whitespace().nth(1) {
        Some(pages) => pages.parse::<u64>().unwrap_or(0).saturating_mul(4096),
        None => 0,
    }
}

/// Seals the document that was read as often as asked, and gives how many bytes of memory the process
/// held before.
pub fn seal_read(
    rt: &(impl Files<File = File> + RandomSource + Clock + AllocGlobal),
    doc: &Result<Doc, Fault>,
    settings: &Settings,
    target: &Target<'_>,
    times: u32,
) -> Result<u64, Fault>
    requires { IsInOrder settings.now }
{
    match doc {
        Ok(doc) => {
            let held = resident(rt);
            seal_often(rt, doc, settings, target, times)?;
            Ok(held)
        }
        Err(fault) => Err(*fault),
    }
}

// Why a file was not opened, if it was not.
fn outcome(opened: &Result<Doc, Fault>) -> Result<(), Fault> {
    match opened {
        Ok(_) => Ok(()),
        Err(fault) => Err(*fault),
    }
}

// Opens a file under a password, and lets its document go.
fn open_once<F: FileStore>(alloc: Global, target: &Target<'_>, files: &mut F) -> Result<(), Fault> {
    let opened = open(alloc, target, files);
    let result = outcome(&opened);
    drop(opened);
    result
}

/// Opens a file under a password, as often as asked.
pub fn open_often(
    rt: &(impl Files<File = File> + RandomSource + Clock + AllocGlobal),
    target: &Target<'_>,
    times: u32,
) -> Result<(), Fault> {
    let world = World::any();
    let mut files = HostFiles::new(rt, rt.alloc(), None, &world);
    for _ in 0..times {
        open_once(rt.alloc(), target, &mut files)?;
    }
    Ok(())
}
