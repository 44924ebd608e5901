//! The four ways to the outside. An object may report its content, which is what is read or drawn
//! of it (the ghost member is `Some`), and is truthful as long as each answer was that content's: an
//! object in memory always, an object over the host until the disk, the input or the random bytes
//! first answered otherwise. Clauses on content speak where the object is truthful after the call,
//! clauses on counts and on what a call leaves as it was always.
ghost use Rattle.std.specs.Prelude.{◌≡◌, ℕ, ◌≤◌, ◌<◌, Bool, List, [], ◌++◌, Option, length, take, option_map, IfOk, OnOk, OnErr, IfSome, IsSome, IsErrOf, true};
ghost use Rattle.std.specs.FinMap as map;
ghost use Rattle.outside_core.specs.Counts.{HasCause};
ghost use Rattle.outside_core.specs.Files.{FileMap, window_of};
ghost use Rattle.outside_core.specs.Reports.{StaysTruthful, reported};
ghost use Rattle.outside_core.specs.Streams.{LosesPrefix};

use crate::fails::{DiceFail, FileFail, SinkFail, SourceFail};

/// Files by name, and at most one draft: a file in the making, which replaces the file of its name
/// once it is published. Only `publish` changes the files that the store reports.
pub trait FileStore {
    /// The files by the bytes of their names, where the store reports them.
    ghost files: { Self → Option FileMap };
    /// Whether every answer on the files was that of the files that are reported.
    ghost truthful: { Self → Bool };
    /// The name that the draft is for, if there is one; every store reports it.
    ghost draft_name: { Self → Option (List ℕ) };
    /// The bytes of the draft; they mean something where the files are reported.
    ghost draft_bytes: { Self → List ℕ };
    /// How often something went wrong; it sticks at 2^64 - 1.
    ghost faults: { Self → ℕ };
    /// How often a file was asked for that is not there; it sticks at 2^64 - 1.
    ghost absences: { Self → ℕ };

    /// The length of a file in bytes.
    fn size(&mut self, name: &str) -> Result<u64, FileFail>
        ensures told { IfOk result (λ n. IfSome (reported (truthful self.new) (files self.old))
            (λ m. option_map length (map.get m name.now) ≡ Some n)) }
        ensures missing { IsErrOf result FileFail.NoSuchFile
            → IfSome (reported (truthful self.new) (files self.old))
            (λ m. map.get m name.now ≡ None) }
        ensures files { files self.new ≡ files self.old }
        ensures draft_name { draft_name self.new ≡ draft_name self.old }
        ensures draft_bytes { draft_bytes self.new ≡ draft_bytes self.old }
        ensures truthful { StaysTruthful (truthful self.old) (truthful self.new) }
        ensures faults { HasCause FileFail.Failed (faults self.old) (faults self.new) result }
        ensures no_fault { IsErrOf result FileFail.NoSuchFile → faults self.new ≡ faults self.old }
        ensures absences { HasCause FileFail.NoSuchFile (absences self.old) (absences self.new)
            result };

    /// Reads a file from the offset `from` on into `out`, as far as both reach. Gives the number of
    /// bytes read.
    fn read_at(&mut self, name: &str, from: u64, out: &mut [u8]) -> Result<usize, FileFail>
        ensures bound { IfOk result (λ n. n ≤ length out.new) }
        ensures told { IfOk result (λ n. IfSome (reported (truthful self.new) (files self.old))
            (λ m. window_of m name.now from (length out.new) ≡ Some (take n out.new))) }
        ensures missing { IsErrOf result FileFail.NoSuchFile
            → IfSome (reported (truthful self.new) (files self.old))
            (λ m. map.get m name.now ≡ None) }
        ensures files { files self.new ≡ files self.old }
        ensures draft_name { draft_name self.new ≡ draft_name self.old }
        ensures draft_bytes { draft_bytes self.new ≡ draft_bytes self.old }
        ensures truthful { StaysTruthful (truthful self.old) (truthful self.new) }
        ensures faults { HasCause FileFail.Failed (faults self.old) (faults self.new) result }
        ensures absences { HasCause FileFail.NoSuchFile (absences self.old) (absences self.new)
            result };

    /// Gives up the draft, if there is one, and starts an empty one for `name`. After a refusal
    /// there is none.
    fn begin(&mut self, name: &str) -> Result<(), FileFail>
        ensures name { OnOk result (draft_name self.new ≡ Some name.now) }
        ensures bytes { OnOk result (draft_bytes self.new ≡ []) }
        ensures err { OnErr result (draft_name self.new ≡ None) }
        ensures not_missing { ¬ IsErrOf result FileFail.NoSuchFile }
        ensures files { files self.new ≡ files self.old }
        ensures truthful { StaysTruthful (truthful self.old) (truthful self.new) }
        ensures faults { HasCause FileFail.Failed (faults self.old) (faults self.new) result }
        ensures absences { absences self.old ≤ absences self.new };

    /// Appends the whole piece to the draft. After a refusal the draft is still there, and its
    /// bytes are not known.
    fn append(&mut self, piece: &[u8]) -> Result<(), FileFail>
        requires { IsSome (draft_name self.old) }
        ensures bytes { OnOk result (IfSome (files self.old)
            (λ _. draft_bytes self.new ≡ draft_bytes self.old ++ piece.now)) }
        ensures name { draft_name self.new ≡ draft_name self.old }
        ensures not_missing { ¬ IsErrOf result FileFail.NoSuchFile }
        ensures files { files self.new ≡ files self.old }
        ensures truthful { StaysTruthful (truthful self.old) (truthful self.new) }
        ensures faults { HasCause FileFail.Failed (faults self.old) (faults self.new) result }
        ensures absences { absences self.old ≤ absences self.new };

    /// Puts the draft under its name, in the place of any file of that name. A refusal leaves the
    /// files as they were. There is no draft afterwards, whatever the answer.
    fn publish(&mut self) -> Result<(), FileFail>
        requires { IsSome (draft_name self.old) }
        ensures ok { OnOk result (IfSome (draft_name self.old)
            (λ name. files self.new ≡ option_map (λ m. map.insert m name (draft_bytes self.old))
            (files self.old))) }
        ensures err { OnErr result (files self.new ≡ files self.old) }
        ensures no_draft { draft_name self.new ≡ None }
        ensures not_missing { ¬ IsErrOf result FileFail.NoSuchFile }
        ensures truthful { StaysTruthful (truthful self.old) (truthful self.new) }
        ensures faults { HasCause FileFail.Failed (faults self.old) (faults self.new) result }
        ensures absences { absences self.old ≤ absences self.new };

    /// Gives up the draft, if there is one.
    fn discard(&mut self)
        ensures no_draft { draft_name self.new ≡ None }
        ensures files { files self.new ≡ files self.old }
        ensures truthful { StaysTruthful (truthful self.old) (truthful self.new) }
        ensures faults { faults self.old ≤ faults self.new }
        ensures absences { absences self.old ≤ absences self.new };
}

/// Bytes that come in one after another, as standard input gives them.
pub trait Source {
    /// The bytes that are still to come, where the source reports them.
    ghost left: { Self → Option (List ℕ) };
    /// Whether every answer was that of the bytes that are reported.
    ghost truthful: { Self → Bool };
    /// How often something went wrong; it sticks at 2^64 - 1.
    ghost faults: { Self → ℕ };

    /// Reads the next bytes to the start of `out` and gives their number, which is 0 only for an
    /// empty `out` or at the end. What a refusal leaves to be read is open.
    fn read(&mut self, out: &mut [u8]) -> Result<usize, SourceFail>
        ensures bound { IfOk result (λ n. n ≤ length out.new) }
        ensures told { truthful self.new ≡ true → IfOk result (λ n. left self.old
            ≡ option_map (λ rest. take n out.new ++ rest) (left self.new)) }
        ensures end { IfOk result (λ n. n ≡ 0 → 0 < length out.new
            → IfSome (reported (truthful self.new) (left self.old)) (λ rest. rest ≡ [])) }
        ensures truthful { StaysTruthful (truthful self.old) (truthful self.new) }
        ensures faults { HasCause SourceFail.Failed (faults self.old) (faults self.new) result };
}

/// A place that takes bytes one after another, as standard output does.
pub trait Sink {
    /// The bytes taken so far, where the sink reports them.
    ghost written: { Self → Option (List ℕ) };
    /// How often something went wrong; it sticks at 2^64 - 1.
    ghost faults: { Self → ℕ };

    /// Takes a prefix of a piece, at least one byte of a piece that is not empty, and gives the
    /// number of bytes taken. After a refusal nothing of the piece was taken.
    fn write(&mut self, piece: &[u8]) -> Result<usize, SinkFail>
        ensures bound { IfOk result (λ n. n ≤ length piece.now) }
        ensures some { IfOk result (λ n. 0 < length piece.now → 0 < n) }
        ensures told { IfOk result (λ n. written self.new
            ≡ option_map (λ w. w ++ take n piece.now) (written self.old)) }
        ensures err { OnErr result (written self.new ≡ written self.old) }
        ensures faults { HasCause SinkFail.Failed (faults self.old) (faults self.new) result };
}

/// A stream of bytes that keys, seeds and ids are drawn from.
pub trait Dice {
    /// The bytes that are still to be drawn, where the dice report them.
    ghost stream: { Self → Option (List ℕ) };
    /// Whether every answer was that of the bytes that are reported.
    ghost truthful: { Self → Bool };
    /// How often something went wrong; it sticks at 2^64 - 1.
    ghost faults: { Self → ℕ };

    /// Fills `out` with the next bytes of the stream. After a refusal `out` is not known, and a
    /// prefix of the stream may be gone. In every case what is left is the end of what was left
    /// before.
    fn fill(&mut self, out: &mut [u8]) -> Result<(), DiceFail>
        ensures ok { truthful self.new ≡ true → OnOk result (stream self.old
            ≡ option_map (λ rest. out.new ++ rest) (stream self.new)) }
        ensures lost { LosesPrefix (stream self.old) (stream self.new) }
        ensures truthful { StaysTruthful (truthful self.old) (truthful self.new) }
        ensures faults { HasCause DiceFail.Failed (faults self.old) (faults self.new) result };
}
