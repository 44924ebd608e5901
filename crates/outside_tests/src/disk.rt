//! The files of the host: what is written is read, a draft that is given up leaves nothing, of two
//! drafts of one file the second is refused, one that was left behind is removed and other files are
//! not, only a regular file is read, and a session writes its file as long as nobody else does.
use crate::files::{keeps_a_file, read_at, reads, size_of, write_whole};
use outside_core::{Dice, FileFail, FileStore, Text};
use outside_host::{HostDice, HostFiles, World, WritableFile};
use std::alloc::Global;
use std::fs::Files;
use std::io::Read;
use std::process::Abort;
use std::test::Fail;
use std::{fs, io};

/// A folder of its own for a test on the disk.
fn scratch(rt: &HostRuntime) -> Result<String, Fail> {
    let mut number = [0; 8];
    HostDice::new(rt, &World::any()).fill(&mut number)?;
    let number = u64::from_le_bytes(number);
    let folder = format!(in rt.alloc(); "/tmp/outside_tests_{number:x}")?;
    fs::create_dir(rt, folder.as_str())?;
    Ok(folder)
}

/// What beginning a draft answers.
fn begin_draft<F: FileStore>(files: &mut F, name: &str) -> Result<(), FileFail> {
    files.begin(name)
}

/// How many names a folder has, its own two among them.
fn count_names(host: &HostRuntime, folder: &str) -> io::Result<usize> {
    let mut names = host.open_dir(folder)?;
    let mut window = [0; 4096];
    let read = names.read(&mut window)?;
    Ok(window[..read].iter().filter(|byte| **byte == 0).count())
}

/// Whether a folder has so many files.
fn has_files(host: &HostRuntime, folder: &str, count: usize) -> bool {
    match count_names(host, folder) {
        Ok(names) => names.saturating_sub(2) == count,
        Err(_) => false,
    }
}

/// A draft is written beside its file, and nothing is left of one that is given up.
fn gives_up_a_draft(
    rt: &impl Abort,
    files: &mut HostFiles<'_, HostRuntime>,
    host: &HostRuntime,
    folder: &str,
    name: &str,
) {
    assert_eq!(rt; begin_draft(files, name), Ok(()));
    assert!(rt; has_files(host, folder, 2));
    files.discard();
    assert!(rt; has_files(host, folder, 1));
    assert!(rt; reads(files, name, 0, b"bye"));
}

/// What publishing a draft answers once another store has written its file.
fn publish_late<F: FileStore, G: FileStore>(
    one: &mut F,
    other: &mut G,
    name: &str,
) -> Result<(), FileFail> {
    one.begin(name)?;
    write_whole(other, name, b"x")?;
    one.publish()
}

/// Of two stores that write one file at once, the second is refused, and nothing of its draft is left.
fn keeps_the_first(
    rt: &(impl Abort + AllocGlobal),
    host: &HostRuntime,
    folder: &str,
    name: &str,
    count: usize,
) {
    let world = World::any();
    let mut one = HostFiles::new(host, rt.alloc(), None, &world);
    let mut other = HostFiles::new(host, rt.alloc(), None, &world);
    assert_eq!(rt;
        publish_late(&mut one, &mut other, name),
        Err(FileFail::Failed)
    );
    assert!(rt; reads(&mut one, name, 0, b"x"));
    assert!(rt; has_files(host, folder, count));
}

/// In a folder that is missing, no file is found and none is made.
fn misses_a_folder<F: FileStore>(rt: &impl Abort, files: &mut F, missing: &str) {
    assert_eq!(rt; write_whole(files, missing, b"x"), Err(FileFail::Failed));
    assert_eq!(rt; size_of(files, missing), Err(FileFail::NoSuchFile));
}

/// A folder or a device is not read.
fn refuses_to_read<F: FileStore>(rt: &impl Abort, files: &mut F, name: &str) {
    assert_eq!(rt; size_of(files, name), Err(FileFail::Failed));
    assert_eq!(rt; read_at(files, name, 0, &mut [0; 8]), Err(FileFail::Failed));
}

/// What one store does with the file, and with a folder, a device and a folder that is missing.
fn keeps_files(
    rt: &(impl Abort + AllocGlobal),
    host: &HostRuntime,
    folder: &str,
    name: &str,
    missing: &str,
) {
    let mut files = HostFiles::new(host, rt.alloc(), None, &World::any());
    keeps_a_file(rt, &mut files, name);
    gives_up_a_draft(rt, &mut files, host, folder, name);
    misses_a_folder(rt, &mut files, missing);
    refuses_to_read(rt, &mut files, folder);
    refuses_to_read(rt, &mut files, "/dev/null");
    assert_eq!(rt;
        write_whole(&mut files, folder, b"x"),
        Err(FileFail::Failed)
    );
}

/// Makes files whose names are a draft's, but for one whose name is of another file's draft.
fn leave_drafts(host: &HostRuntime, folder: &str, alloc: Global) -> io::Result<()> {
    for name in [
        ".vault.0123456789abcdef.keepass",
        ".other.0123456789abcdef.keepass",
    ] {
        let path = format!(in alloc; "{folder}/{name}")?;
        fs::write(host, path.as_str(), b"left")?;
    }
    Ok(())
}

/// What the host does with the file of this name in the folder.
fn keeps_and_shares(
    rt: &(impl Abort + AllocGlobal),
    host: &HostRuntime,
    folder: &str,
    name: &str,
) -> Result<(), Fail> {
    let missing = format!(in rt.alloc(); "{name}.none/vault")?;
    keeps_files(rt, host, folder, name, missing.as_str());
    leave_drafts(host, folder, rt.alloc())?;
    keeps_the_first(rt, host, folder, name, 2);
    Ok(())
}

/// The files of a session that may write the file of this name.
fn files_of_session<'a>(
    host: &'a HostRuntime,
    alloc: Global,
    name: &str,
) -> Result<HostFiles<'a, HostRuntime>, Fail> {
    let file = WritableFile::OfSession(Text::of(alloc, name)?);
    Ok(HostFiles::new(host, alloc, Some(file), &World::any()))
}

/// The files of a call that may write the file of this name.
fn files_of_call<'a>(
    host: &'a HostRuntime,
    alloc: Global,
    name: &str,
) -> Result<HostFiles<'a, HostRuntime>, Fail> {
    let file = WritableFile::OfCall(Text::of(alloc, name)?);
    Ok(HostFiles::new(host, alloc, Some(file), &World::any()))
}

/// A session writes a file that it has read, and again once it gave up a draft.
fn writes_again(rt: &impl Abort, session: &mut HostFiles<'_, HostRuntime>, name: &str) {
    assert_eq!(rt; write_whole(session, name, b"x"), Err(FileFail::Failed));
    assert!(rt; reads(session, name, 0, b"old"));
    assert_eq!(rt; write_whole(session, name, b"one"), Ok(()));
    assert_eq!(rt; begin_draft(session, name), Ok(()));
    session.discard();
    assert_eq!(rt; write_whole(session, name, b"two"), Ok(()));
    assert!(rt; reads(session, name, 0, b"two"));
    assert_eq!(rt; begin_draft(session, name), Ok(()));
    session.discard();
}

/// A call does not wait for the session, which is refused from then on; what the call wrote stays.
fn lets_a_call_write(
    rt: &(impl Abort + AllocGlobal),
    host: &HostRuntime,
    session: &mut HostFiles<'_, HostRuntime>,
    name: &str,
) -> Result<(), Fail> {
    let mut call = files_of_call(host, rt.alloc(), name)?;
    assert!(rt; reads(&mut call, name, 0, b"two"));
    assert_eq!(rt; write_whole(&mut call, name, b"call"), Ok(()));
    assert_eq!(rt; write_whole(session, name, b"late"), Err(FileFail::Failed));
    assert_eq!(rt; size_of(session, name), Err(FileFail::Failed));
    assert!(rt; reads(&mut call, name, 0, b"call"));
    Ok(())
}

/// What a session does with the file of this name in the folder.
fn writes_in_a_session(
    rt: &(impl Abort + AllocGlobal),
    host: &HostRuntime,
    folder: &str,
    name: &str,
) -> Result<(), Fail> {
    fs::write(host, name, b"old")?;
    let mut session = files_of_session(host, rt.alloc(), name)?;
    writes_again(rt, &mut session, name);
    lets_a_call_write(rt, host, &mut session, name)?;
    assert!(rt; has_files(host, folder, 1));
    Ok(())
}

/// Removes the folder and what is in it.
fn remove_folder(host: &HostRuntime, folder: &str) -> Result<(), Fail> {
    fs::remove_dir_all(host, folder)?;
    Ok(())
}

#[test]
fn the_host_keeps_files(rt: HostRuntime) -> Result<(), Fail> {
    let folder = scratch(&rt)?;
    let name = format!(in rt.alloc(); "{folder}/vault")?;
    keeps_and_shares(&rt, &rt, folder.as_str(), name.as_str())?;
    remove_folder(&rt, folder.as_str())
}

#[test]
fn a_session_writes_its_file(rt: HostRuntime) -> Result<(), Fail> {
    let folder = scratch(&rt)?;
    let name = format!(in rt.alloc(); "{folder}/vault")?;
    writes_in_a_session(&rt, &rt, folder.as_str(), name.as_str())?;
    remove_folder(&rt, folder.as_str())
}
