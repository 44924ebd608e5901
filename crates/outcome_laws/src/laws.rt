//! The laws that what a call results in depends on what its words name alone. Each function has
//! laws as its contract; it does nothing, and takes no memory.

ghost use Rattle.outcome_laws.specs.Named.{OnlyNamedFilesCount, OnlyNamedIsWritten, PagesNeedNoFile};

/// What a call results in depends on the files that its words name, and on no other: its status,
/// what it prints, the file that it writes, and what it leaves of the input and the dice. The file
/// that it writes is one of them.
pub fn only_named_files()
    ensures outcome { OnlyNamedFilesCount }
    ensures written { OnlyNamedIsWritten }
    ensures page { PagesNeedNoFile }
{}
