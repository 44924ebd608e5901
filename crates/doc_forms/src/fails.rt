//! Why a text is no document.

use uuid_core::Uuid;

/// An element that a document must have.
#[derive(Clone, Copy)]
pub enum RequiredElement {
    /// The outermost element.
    KeePassFile,
    /// The element of the tree in `KeePassFile`.
    Root,
    /// The root group in `Root`.
    Group,
    /// The id of a group or of an entry.
    Uuid,
}

/// Why a text is no document. An offset is that of an element's `<`, in bytes from the start of the
/// text.
#[derive(Clone, Copy)]
pub enum DocFail {
    /// The text leaves the grammar of markup: the length of its longest prefix that begins a text
    /// of the grammar.
    Form(usize),
    /// More than 256 elements are open: the offset of the 257th.
    Depth(usize),
    /// The element at the offset says what its kind cannot say, or it is a second `Root` or a
    /// second root group.
    BadValue(usize),
    /// The attachment's bytes at the offset are compressed.
    Compressed(usize),
    /// The group at the offset lies below the 128th level.
    TooDeep(usize),
    /// More groups, entries and history items than 262,144: 262,145.
    TooMany(u64),
    /// The group or the entry at the offset has the nil id.
    NilId(usize),
    /// The element is missing, in a group or an entry at the offset; of the other three the offset
    /// is 0.
    MissingElement(RequiredElement, usize),
    /// Two nodes have this id, the least of which that is so.
    DuplicateId(Uuid),
    /// An attachment refers to the binary of this number, and there is none.
    BinaryRef(u64),
    /// Memory ran out.
    NoMemory,
}
