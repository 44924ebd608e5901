//! Reading a whole file: by windows, to the bytes that there are, and each refusal with its cause.
use outside_core::{FileFail, FileStore};
use outside_objects::MemoryFiles;
use secret_core::{ReadFail, Secret, read_file};
use std::alloc::Global;
use std::test::Fail;

/// A store that reports nothing: one file of `length` bytes, of which it says that they are `size`.
/// Byte i is i mod 251, and a call gives at most `most` of them. It keeps the length of the longest
/// `out` that it saw. It starts no draft and takes no bytes of one.
#[derive(Drop)]
struct TrickleFiles {
    size: u64,
    length: u64,
    most: usize,
    longest: usize,
    drafts: bool,
}

impl FileStore for TrickleFiles {
    ghost use Rattle.std.specs.Prelude.{Some, None, [], true, if◌then◌else◌};

    ghost files = { λ _. None };

    ghost truthful = { λ _. true };

    ghost draft_name = { λ s. if s.drafts then Some [] else None };

    ghost draft_bytes = { λ _. [] };

    ghost faults = { λ _. 0 };

    ghost absences = { λ _. 0 };

    fn size(&mut self, _name: &str) -> Result<u64, FileFail> {
        Ok(self.size)
    }

    fn read_at(&mut self, _name: &str, from: u64, out: &mut [u8]) -> Result<usize, FileFail> {
        self.longest = self.longest.max(out.len());
        let given = out
            .len()
            .min(self.most)
            .min(self.length.saturating_sub(from) as usize);
        for (i, byte) in out[..given].iter_mut().enumerate() {
            *byte = (from.saturating_add(i as u64) % 251) as u8;
        }
        Ok(given)
    }

    fn begin(&mut self, _name: &str) -> Result<(), FileFail> {
        self.drafts = false;
        Err(FileFail::NoMemory)
    }

    fn append(&mut self, _piece: &[u8]) -> Result<(), FileFail> {
        Err(FileFail::NoMemory)
    }

    fn publish(&mut self) -> Result<(), FileFail> {
        self.drafts = false;
        Err(FileFail::NoMemory)
    }

    fn discard(&mut self) {
        self.drafts = false;
    }
}

impl TrickleFiles {
    fn new(size: u64, length: u64, most: usize) -> TrickleFiles {
        TrickleFiles {
            size,
            length,
            most,
            longest: 0,
            drafts: false,
        }
    }
}

/// Whether a Secret has the first `length` bytes of the file, and room for the others of `size`.
fn is_read(secret: &Secret, length: usize, size: usize) -> bool {
    (secret.len(), secret.spare()) == (length, size.saturating_sub(length))
        && secret
            .lend(0, secret.len())
            .iter()
            .enumerate()
            .all(|(i, byte)| *byte == (i % 251) as u8)
}

#[test]
fn a_file_is_read_through_one_window_of_65536_bytes(rt: HostRuntime) -> Result<(), Fail> {
    for (size, length, most, longest) in [
        (200_000, 200_000, 1_000, 65_536),
        (200_000, 200_000, 70_000, 65_536),
        (10, 3, 2, 10),
    ] {
        let mut files = TrickleFiles::new(size, length, most);
        let secret = read_file(rt.alloc(), &mut files, "vault", size).map_err(|_| "not read")?;
        assert!(rt; is_read(&secret, length as usize, size as usize));
        assert_eq!(rt; files.longest, longest);
    }
    Ok(())
}

/// A store with one file, `vault`, of 70,000 bytes, whose call `failing` fails.
fn long_file(alloc: Global, failing: u64) -> Result<MemoryFiles, Fail> {
    let bytes = vec![in alloc; 5; 70_000]?;
    let mut files = MemoryFiles::new(alloc);
    files.put("vault", bytes.as_slice())?;
    files.fail_at(failing)?;
    Ok(files)
}

/// The answer of reading a file: how many bytes were read, or the refusal.
fn answer(
    alloc: Global,
    files: &mut MemoryFiles,
    name: &str,
    limit: u64,
) -> Result<usize, ReadFail> {
    match read_file(alloc, files, name, limit) {
        Ok(secret) => Ok(secret.len()),
        Err(fail) => Err(fail),
    }
}

/// A name that is read, a limit, the call that fails, and the answer.
const ROWS: &[(&str, u64, u64, Result<usize, ReadFail>)] = &[
    ("vault", 70_000, u64::MAX, Ok(70_000)),
    ("vault", 69_999, u64::MAX, Err(ReadFail::TooLarge(70_000))),
    ("other", 70_000, u64::MAX, Err(ReadFail::NoSuchFile)),
    ("vault", 70_000, 0, Err(ReadFail::FileFault)),
    ("vault", 70_000, 1, Err(ReadFail::FileFault)),
    ("vault", 70_000, 2, Err(ReadFail::FileFault)),
    ("vault", 70_000, 3, Ok(70_000)),
];

/// Asking for the size is call 0, reading by windows calls 1 and 2.
#[test]
fn each_refusal_has_its_cause(rt: HostRuntime) -> Result<(), Fail> {
    for (name, limit, failing, want) in ROWS {
        let mut files = long_file(rt.alloc(), *failing)?;
        let found = answer(rt.alloc(), &mut files, name, *limit);
        assert_eq!(rt;
            found,
            *want,
            "{name} within {limit}, call {failing} failing"
        );
    }
    Ok(())
}
