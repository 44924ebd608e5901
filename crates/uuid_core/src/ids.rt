//! An id as the bytes that it is.

ghost use Rattle.std.specs.Prelude.{ℕ, List, ◌≡◌, ◌≤◌, Some, bytes_eq, length};
ghost use Rattle.uuid.specs.Text.{hyphenated_text, lower, simple_text, upper};
ghost use Rattle.uuid_core.specs.Ids.{named_bytes, nil_bytes};

use std::fmt;
use std::marker::Model;

/// An id of sixteen bytes, as RFC 9562 has them (UUID). Ids are in the order of their bytes.
///
/// It is shown in lower case with hyphens.
#[derive(Clone, Copy, PartialEq, Eq, PartialOrd, Ord)]
pub struct Uuid([u8; 16]);

impl Model for Uuid {
    ghost Value = { List ℕ };

    ghost view = { λ a. a.0 };

    ghost inverse = { λ xs. record { 0 = xs } };
}

impl Uuid {
    /// The id whose bytes are all 0, which no node has.
    pub const fn nil() -> Uuid
        ensures { result ≡ nil_bytes }
    {
        Uuid([0; 16])
    }

    /// The id of these bytes.
    pub const fn from_bytes(bytes: [u8; 16]) -> Uuid
        ensures { result ≡ bytes }
    {
        Uuid(bytes)
    }

    /// The bytes of the id.
    pub const fn as_bytes(&self) -> &[u8; 16]
        ensures { result.now ≡ self.now }
    {
        &self.0
    }

    /// Whether all bytes are 0.
    pub fn is_nil(&self) -> bool
        ensures { result ≡ bytes_eq self.now nil_bytes }
    {
        self.0 == [0; 16]
    }

    /// The id that a name has in the space of another id: version 5, by SHA-1.
    pub fn new_v5(space: &Uuid, name: &[u8]) -> Uuid
        ensures value { result ≡ named_bytes space.now name.now }
    {
        let made = uuid::Uuid::new_v5(&uuid::Uuid::from_bytes(space.0), name);
        Uuid(made.into_bytes())
    }

    /// The id in lower case with hyphens, in the first 36 bytes of a buffer.
    pub fn encode_hyphenated<'b>(&self, buffer: &'b mut [u8]) -> &'b str
        requires { 36 ≤ length buffer.old }
        ensures { result.now ≡ hyphenated_text lower self.now }
    {
        uuid::Uuid::from_bytes(self.0)
            .hyphenated()
            .encode_lower(buffer)
    }

    /// The digits of the id in upper case, in the first 32 bytes of a buffer.
    pub fn encode_simple<'b>(&self, buffer: &'b mut [u8]) -> &'b str
        requires { 32 ≤ length buffer.old }
        ensures { result.now ≡ simple_text upper self.now }
    {
        uuid::Uuid::from_bytes(self.0).simple().encode_upper(buffer)
    }
}

impl fmt::Display for Uuid {
    ghost output = { λ d. Some (hyphenated_text lower d) };

    fn fmt<W: fmt::Write>(&self, f: &mut fmt::Formatter<W>) -> fmt::Result {
        fmt::Display::fmt(&uuid::Uuid::from_bytes(self.0), f)
    }
}
