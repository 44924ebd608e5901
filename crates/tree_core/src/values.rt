//! The values that an entry is given, what else an edit changes, and attachments.

use std::rc::Rc;
use vault_model::Stamp;
use vault_model::outside_core::Text;
use vault_model::secret_core::Secret;

/// The values that an entry is given, each where it is given.
#[derive(Clone, Copy)]
pub struct Values<'a> {
    pub title: Option<&'a str>,
    pub user: Option<&'a str>,
    /// In UTF-8, as all values are.
    pub password: Option<&'a [u8]>,
    pub url: Option<&'a str>,
    pub notes: Option<&'a str>,
    /// What a one-time code is made from, in UTF-8; of an entry that is edited, where empty takes it
    /// away. A new entry passes it over.
    pub otp: Option<&'a [u8]>,
}

/// When an entry expires from now on.
#[derive(Clone, Copy)]
pub enum Expiry {
    /// It does not expire.
    Never,
    /// It expires at this time.
    At(Stamp),
}

/// What an edit changes of an entry beside the values that it is given: fields of one's own, tags
/// and when it expires.
#[derive(Clone, Copy)]
pub struct FurtherChange<'a> {
    /// The names of the fields that get a value, in their order.
    pub names: &'a [Text],
    /// Their values, in UTF-8 and in the same order.
    pub values: &'a [Secret],
    /// Whether each field that gets a value is hidden from now on; else one that was there stays as
    /// it was.
    pub protect: bool,
    /// The names of the fields that are taken away.
    pub unset: &'a [Text],
    /// The tags that are put after the others, unless they are there.
    pub tags: &'a [Text],
    /// The tags that are taken away.
    pub untags: &'a [Text],
    /// When the entry expires, where that changes.
    pub expiry: Option<Expiry>,
}

/// An attachment that an entry is given.
#[derive(Clone, Copy)]
pub struct Attached<'a> {
    pub name: &'a str,
    /// Its bytes, which are shared and not copied.
    pub bytes: &'a Rc<Secret>,
    /// Whether it may take the place of an attachment of the same name.
    pub replaces: bool,
}
