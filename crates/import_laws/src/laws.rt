//! The laws of imports. Each function has a law as its contract; it does nothing, and takes no memory.

ghost use Rattle.import_laws.specs.Agreement.{EntriesAgree, SafesAgree, TablesAgree};
ghost use Rattle.import_laws.specs.Losses.{NothingIsLost};
ghost use Rattle.import_laws.specs.Names.{NamesTellApart};

/// The documents that a table gives at any two moments are an agreed set: each of its rows has one id
/// whenever it is imported, and is in one group.
pub fn tables_agree()
    ensures { TablesAgree }
{}

/// So are those that a file of Password Safe gives under a password.
pub fn safes_agree()
    ensures { SafesAgree }
{}

/// And those of any entries that are the same but for their times.
pub fn entries_agree()
    ensures { EntriesAgree }
{}

/// Where two imports agree, their merge keeps each entry that only one of them has, with its versions,
/// and no others: what is current of either is current of the merge.
pub fn nothing_is_lost()
    ensures { NothingIsLost }
{}

/// The names of which ids are made are the same only for entries with the same four texts, so that two
/// sources share such an id only for one account, unless SHA-1 gives two names one hash.
pub fn names_tell_apart()
    ensures { NamesTellApart }
{}
