//! The laws that what is hidden is not printed unasked. Each function has laws as its contract; it
//! does nothing, and takes no memory.

ghost use Rattle.noninterference_laws.specs.Example.{ExampleDatabases};
ghost use Rattle.noninterference_laws.specs.Masks.{CommandsAreBlind, DrawsAreBlind, InfoIsBlind, ListingIsBlind, MasksLookAlike, SearchIsBlind, ShowIsBlind};

/// Documents that differ only in passwords, in values that are hidden and in the bytes of
/// attachments have the same listings and the same `db-info`.
pub fn screens()
    ensures ls { ListingIsBlind }
    ensures info { InfoIsBlind }
    ensures alike { MasksLookAlike }
{}

/// On such documents `ls`, `db-info`, `mv`, `rm`, `mkdir` and `rmdir` refuse the same, or they
/// print the same and make documents that are the same but for what is hidden; and each makes a
/// node of the one document where it does of the other. So does `show` print the same, unless
/// hidden values, single fields or a one-time code are asked for or a value that is shown has a
/// reference.
pub fn commands()
    ensures same { CommandsAreBlind }
    ensures draws { DrawsAreBlind }
    ensures show { ShowIsBlind }
{}

/// On such documents `search` finds the same, or refuses the same, where no term looks at a hidden
/// value of an entry that is searched. Titles, tags and the names of groups are never hidden.
pub fn search()
    ensures { SearchIsBlind }
{}

/// Each of these laws speaks of something: two databases that differ in a password alone.
pub fn example_databases()
    ensures { ExampleDatabases }
{}
