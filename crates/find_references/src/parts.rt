//! The parts of an entry that references name.

/// A part of an entry: the value of a field, or the id in digits.
#[derive(Clone, Copy)]
pub enum Part {
    Title,
    UserName,
    Password,
    Url,
    Notes,
    Id,
}

/// Where an entry is to have a text.
#[derive(Clone, Copy)]
pub enum Place {
    /// A part of it is the text.
    In(Part),
    /// The value of a field that no part names is the text.
    OtherField,
}
