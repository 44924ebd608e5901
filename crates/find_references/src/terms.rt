//! What a term asks for.

use outside_core::{List, Text};

/// Which values of an entry a term is compared with.
#[derive(Clone, Copy)]
pub enum SearchField {
    /// Title, user name, URL, notes and tags.
    Any,
    Title,
    UserName,
    Password,
    Url,
    Notes,
    Tags,
    /// The name of the entry's group.
    Group,
    /// The fields that have no variant here.
    Attr,
}

/// A term: a text that a value contains, or that it is, but for the case of letters.
#[derive(Drop)]
pub struct Term {
    /// No value is to match.
    pub not: bool,
    /// A value matches as a whole alone.
    pub whole: bool,
    pub field: SearchField,
    pub text: Text,
}

/// Terms, all of which an entry is to match.
pub type Terms = List<Term>;
