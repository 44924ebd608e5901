//! Drafts: new files beside those that they replace. A draft of the file NAME has the name
//! `.NAME.RANDOM.keepass`, which is drawn and never one that is there; it is locked as long as its
//! call goes on.
use crate::files::{
    FileId, HeldFile, hold_at, id_of, look_at, place_of, refuse_written, stay_at, stay_named,
    stay_unchanged,
};
use crate::leavings::{Leavings, remove_left};
use std::alloc::Global;
use std::fs::{File, Files, Metadata, OpenOptions};
use std::io::{ErrorKind, Write};
use std::os::fd::AsFd;
use std::os::unix::fs::{MetadataExt, OpenOptionsExt, fchown};
use std::random::RandomSource;
use std::{fs, io};

/// How often a name is drawn before a draft is refused.
const DRAWS: u32 = 8;

/// What a draft replaces: the place of the file, and what was found there.
#[derive(Drop)]
pub struct Base {
    place: String,
    found: Option<Metadata>,
}

impl Base {
    /// A file that is not there.
    pub fn missing(alloc: Global, name: &str) -> io::Result<Base> {
        Ok(Base {
            place: String::from_str(alloc, name)?,
            found: None,
        })
    }

    /// A file that is held.
    pub fn of(alloc: Global, held: &HeldFile) -> io::Result<Base> {
        let found = held.found.clone()?;
        Ok(Base {
            place: String::from_str(alloc, held.place.as_str())?,
            found: Some(found),
        })
    }
}

/// What is found where a name leads to: a regular file, or nothing. Anything else is refused.
pub fn find_base<R: Files>(rt: &R, alloc: Global, name: &str) -> io::Result<Base> {
    let place = place_of(rt, alloc, name)?;
    match look_at(rt, place.as_str()) {
        Ok(found) => Ok(Base { place, found }),
        Err(error) => {
            drop(place);
            Err(error)
        }
    }
}

/// A folder, open, with its path, which ends with a slash.
#[derive(Drop)]
struct Folder {
    path: String,
    file: File,
}

/// A file that was made, with its path.
#[derive(Drop)]
struct Made {
    path: String,
    file: File,
}

/// A file in the making: what is written so far, the folder that it is in, and what it replaces.
#[derive(Drop)]
pub struct Draft {
    made: Made,
    folder: Folder,
    base: Base,
}

/// The path of the folder of a path, with a slash at its end.
fn folder_of(alloc: Global, path: &str) -> io::Result<String> {
    match path.rsplit_once('/') {
        Some((folder, _)) => Ok(format!(in alloc; "{folder}/")?),
        None => Ok(String::from_str(alloc, "./")?),
    }
}

/// The folder of a path, open.
fn open_folder<R: Files<File = File>>(rt: &R, alloc: Global, path: &str) -> io::Result<Folder> {
    let path = folder_of(alloc, path)?;
    match fs::open(rt, path.as_str()) {
        Ok(file) => Ok(Folder { path, file }),
        Err(error) => {
            drop(path);
            Err(error)
        }
    }
}

/// Brings a folder to the disk: which names are in it, and which files they name. Some file systems
/// offer that for no folder.
fn sync_folder(folder: &File) -> io::Result<()> {
    match folder.sync_all() {
        Err(error) if is_not_offered(&error) => Ok(()),
        synced => synced,
    }
}

/// Reports whether a file system does not offer what was asked for.
fn is_not_offered(error: &io::Error) -> bool {
    let kind = error.kind();
    kind == ErrorKind::InvalidInput || kind == ErrorKind::Unsupported
}

/// A number that is drawn.
fn draw<R: RandomSource>(rt: &R) -> io::Result<u64> {
    let mut bytes = [0; 8];
    rt.fill_bytes(&mut bytes)?;
    Ok(u64::from_le_bytes(bytes))
}

/// A path for a draft in a folder, of which a number is drawn.
fn draw_path<R: RandomSource>(
    rt: &R,
    alloc: Global,
    folder: &str,
    stem: &str,
) -> io::Result<String> {
    let number = draw(rt)?;
    Ok(format!(in alloc; "{folder}.{stem}.{number:016x}.keepass")?)
}

/// Makes an empty file at a path where there is none, which only its owner may read, and locks it.
fn create_held<R: Files<File = File>>(rt: &R, path: &str) -> io::Result<File> {
    let file = OpenOptions::new()
        .write(true)
        .create_new(true)
        .mode(0o600)
        .open(rt, path)?;
    match hold_at(rt, &file, path) {
        Ok(()) => Ok(file),
        Err(error) => {
            drop(file);
            Err(error)
        }
    }
}

/// Reports whether another name is to be drawn: this one is taken, or another call took the file for
/// one that was left behind, before it was locked.
fn is_taken(error: &io::Error) -> bool {
    let kind = error.kind();
    kind == ErrorKind::AlreadyExists || kind == ErrorKind::WouldBlock || kind == ErrorKind::NotFound
}

/// Makes an empty draft under a name that is drawn.
fn make_once<R: Files<File = File> + RandomSource>(
    rt: &R,
    alloc: Global,
    folder: &str,
    stem: &str,
) -> io::Result<Made> {
    let path = draw_path(rt, alloc, folder, stem)?;
    match create_held(rt, path.as_str()) {
        Ok(file) => Ok(Made { path, file }),
        Err(error) => {
            drop(path);
            Err(error)
        }
    }
}

/// Makes an empty draft. Other names are drawn where one is taken.
fn make<R: Files<File = File> + RandomSource>(
    rt: &R,
    alloc: Global,
    folder: &str,
    stem: &str,
) -> io::Result<Made> {
    for _ in 0..DRAWS {
        match make_once(rt, alloc, folder, stem) {
            Err(error) if is_taken(&error) => {}
            made => return made,
        }
    }
    Err(io::Error::from(ErrorKind::AlreadyExists))
}

/// How many bytes of the name of its file a draft's name has at most.
const STEM: usize = 100;

/// The front of the name that a path ends with, as far as the name of a draft has it.
fn stem_of(path: &str) -> &str {
    let name = match path.rsplit_once('/') {
        Some((_, name)) => name,
        None => path,
    };
    name.get(..name.floor_char_boundary(STEM)).unwrap_or("")
}

/// Reports whether the group of a file has the rights of all others.
fn is_open_as_to_others(found: &Metadata) -> bool {
    (found.mode() >> 3) & 7 == found.mode() & 7
}

/// Gives a draft the owner and the group of the file that it is to replace. Where the system does not
/// let it, the group of a file of the caller's own may become another as long as that changes
/// nobody's rights.
fn keep_owner(file: &File, own: &Metadata, found: &Metadata) -> io::Result<()> {
    if own.uid() == found.uid() && own.gid() == found.gid() {
        return Ok(());
    }
    match fchown(file.as_fd(), Some(found.uid()), Some(found.gid())) {
        Err(_error) if own.uid() == found.uid() && is_open_as_to_others(found) => Ok(()),
        kept => kept,
    }
}

/// Gives a draft the permissions of the file that it is to replace.
fn keep_permissions(file: &File, found: &Metadata) -> io::Result<()> {
    if file.metadata()?.permissions() == found.permissions() {
        Ok(())
    } else {
        file.set_permissions(found.permissions())
    }
}

/// Whose a draft is: gives it the owner of the file that it is to replace, where there is one. Gives
/// the one who made it, and the owner.
fn own_draft(file: &File, found: &Option<Metadata>) -> io::Result<[u32; 2]> {
    let own = file.metadata()?;
    match found {
        Some(found) => {
            keep_owner(file, &own, found)?;
            Ok([own.uid(), found.uid()])
        }
        None => Ok([own.uid(), own.uid()]),
    }
}

/// Gives a draft its owner, and removes the drafts of its file that were left behind.
fn prepare<R: Files<File = File>>(
    rt: &R,
    alloc: Global,
    draft: &Draft,
    read: &[FileId],
) -> io::Result<()> {
    let owners = own_draft(&draft.made.file, &draft.base.found)?;
    let _ = remove_left(rt, alloc, &draft.leavings(owners, read));
    Ok(())
}

/// An empty draft in a folder.
fn make_in<R: Files<File = File> + RandomSource>(
    rt: &R,
    alloc: Global,
    base: Base,
    folder: Folder,
) -> io::Result<Draft> {
    match make(
        rt,
        alloc,
        folder.path.as_str(),
        stem_of(base.place.as_str()),
    ) {
        Ok(made) => Ok(Draft { made, folder, base }),
        Err(error) => {
            drop(base);
            drop(folder);
            Err(error)
        }
    }
}

/// An empty draft beside the file that it is to replace.
fn make_beside<R: Files<File = File> + RandomSource>(
    rt: &R,
    alloc: Global,
    base: Base,
) -> io::Result<Draft> {
    match open_folder(rt, alloc, base.place.as_str()) {
        Ok(folder) => make_in(rt, alloc, base, folder),
        Err(error) => {
            drop(base);
            Err(error)
        }
    }
}

/// An empty draft of the file of a base. The drafts of that file that were left behind by calls that
/// were cut off are removed, but for files that were read.
pub fn new_draft<R: Files<File = File> + RandomSource>(
    rt: &R,
    alloc: Global,
    base: Base,
    read: &[FileId],
) -> io::Result<Draft> {
    let draft = make_beside(rt, alloc, base)?;
    match prepare(rt, alloc, &draft, read) {
        Ok(()) => Ok(draft),
        Err(error) => {
            let _ = draft.remove(rt);
            drop(draft);
            Err(error)
        }
    }
}

/// Gives a draft the name of a file that is not there, if that is still so.
fn rename_to_new<R: Files<File = File>>(rt: &R, path: &str, place: &str) -> io::Result<()> {
    match fs::symlink_metadata(rt, place) {
        Ok(_) => Err(io::Error::from(ErrorKind::AlreadyExists)),
        Err(error) if error.kind() == ErrorKind::NotFound => fs::rename(rt, path, place),
        Err(error) => Err(error),
    }
}

/// Gives a draft the name of a file that is not there. A second name for the draft is refused where
/// the name is taken; where the file system has no second names, the name is looked at before.
fn put_new<R: Files<File = File>>(rt: &R, path: &str, place: &str) -> io::Result<()> {
    match fs::hard_link(rt, path, place) {
        Ok(()) => {
            let _ = fs::remove_file(rt, path);
            Ok(())
        }
        Err(error) if error.kind() == ErrorKind::AlreadyExists => Err(error),
        Err(_error) => rename_to_new(rt, path, place),
    }
}

/// Gives a draft the name of the file that was found, if the name that led there still does and the
/// file was not changed.
fn put_again<R: Files<File = File>>(
    rt: &R,
    path: &str,
    place: &str,
    name: &str,
    found: &Metadata,
) -> io::Result<()> {
    stay_unchanged(rt, name, found)?;
    fs::rename(rt, path, place)
}

impl Draft {
    /// The drafts of the same file, with these owners, that calls which were cut off may have left.
    fn leavings<'a>(&'a self, owners: [u32; 2], read: &'a [FileId]) -> Leavings<'a> {
        Leavings {
            folder: self.folder.path.as_str(),
            stem: stem_of(self.base.place.as_str()),
            owners,
            read,
        }
    }

    /// Appends a whole piece.
    pub fn append(&mut self, piece: &[u8]) -> io::Result<()> {
        self.made.file.write_all(piece)
    }

    /// Brings the whole draft to the disk.
    fn sync(&self) -> io::Result<()> {
        if let Some(found) = &self.base.found {
            keep_permissions(&self.made.file, found)?;
        }
        self.made.file.sync_all()?;
        sync_folder(&self.folder.file)
    }

    /// Gives the draft, of which the system said `own`, its name: in the place of the file that was
    /// found, if that is still there as it was, and else where there is none.
    fn put<R: Files<File = File>>(&self, rt: &R, name: &str, own: &Metadata) -> io::Result<()> {
        let (path, place) = (self.made.path.as_str(), self.base.place.as_str());
        stay_named(rt, own, path)?;
        match &self.base.found {
            Some(found) => put_again(rt, path, place, name, found),
            None => put_new(rt, path, place),
        }
    }

    /// Brings the whole draft to the disk, and gives it its name. Gives what the system said of the
    /// draft before it got the name.
    fn sync_and_put<R: Files<File = File>>(&self, rt: &R, name: &str) -> io::Result<Metadata> {
        self.sync()?;
        let before = self.made.file.metadata()?;
        match self.put(rt, name, &before) {
            Ok(()) => Ok(before),
            Err(error) => {
                drop(before);
                Err(error)
            }
        }
    }

    /// Brings the draft to the disk and gives it the name that it is for, which is on the disk then,
    /// too. Where that fails, the draft is removed. That the folder cannot be brought to the disk at
    /// the end is passed over: the file is replaced by then. Gives what the system said of the draft
    /// before it got the name.
    pub fn publish<R: Files<File = File>>(&self, rt: &R, name: &str) -> io::Result<Metadata> {
        match self.sync_and_put(rt, name) {
            Ok(before) => {
                let _ = sync_folder(&self.folder.file);
                Ok(before)
            }
            Err(error) => {
                let _ = self.remove(rt);
                Err(error)
            }
        }
    }

    /// What the system says of the file that this draft became, whose bytes are those that the draft
    /// had when the system said `before` of it.
    pub fn look_after(&self, before: &Metadata) -> io::Result<Metadata> {
        let found = self.made.file.metadata()?;
        match refuse_written(&found, before) {
            Ok(()) => Ok(found),
            Err(error) => {
                drop(found);
                Err(error)
            }
        }
    }

    /// Removes what a call that was cut off left as a second name of the file that this draft has
    /// replaced: an import gives its draft the second name that the file is to have, and then takes the
    /// first. That name is locked as long as the file that it names is held, so it goes once that is
    /// let go.
    pub fn remove_second_names<R: Files<File = File>>(
        &self,
        rt: &R,
        alloc: Global,
        read: &[FileId],
    ) -> io::Result<()> {
        match &self.base.found {
            Some(found) if found.nlink() > 1 => {
                remove_left(rt, alloc, &self.leavings([found.uid(); 2], read))
            }
            _ => Ok(()),
        }
    }

    /// Removes the draft, if its path still names it.
    pub fn remove<R: Files<File = File>>(&self, rt: &R) -> io::Result<()> {
        stay_at(rt, &self.made.file, self.made.path.as_str())?;
        fs::remove_file(rt, self.made.path.as_str())
    }
}
