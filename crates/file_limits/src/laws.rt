//! The law of the limits of files. Each function has a law as its contract; it does nothing, and
//! takes no memory.

ghost use Rattle.file_limits.specs.Example.{ExampleFiles};
ghost use Rattle.file_limits.specs.Limits.{MadeFilesAreWithin, PlainFilesAreWithin, SealedFilesAreWithin};

/// Whatever its document, a file that is made or written is within the limit of files that are read,
/// since a document that takes more than its share of it is refused.
pub fn written_files_are_within()
    ensures made { MadeFilesAreWithin }
    ensures sealed { SealedFilesAreWithin }
    ensures plain { PlainFilesAreWithin }
{}

/// Each of these laws speaks of something: a small document that is sealed, and written by itself.
pub fn example_files()
    ensures { ExampleFiles }
{}
