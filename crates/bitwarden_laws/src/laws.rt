//! The laws of what an export of Bitwarden is imported as. Each function has a law as its contract; it
//! does nothing, and takes no memory.

ghost use Rattle.bitwarden_laws.specs.Kept.{PasswordsAreKept, VersionsAreEarlier};

/// Every password of an item's history is the password of a version before the current one, under the
/// hidden field `Password`.
pub fn passwords_are_kept()
    ensures { PasswordsAreKept }
{}

/// Each version before the current one is modified before it.
pub fn versions_are_earlier()
    ensures { VersionsAreEarlier }
{}
