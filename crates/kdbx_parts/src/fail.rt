//! Why the frame of a file is refused.

ghost use Rattle.std.specs.Prelude.{◌≡◌};
ghost use Rattle.kdbx_parts.specs.Results.{frame_fail_of};
ghost use Rattle.kdbx_parts.specs.declared.fail.FrameFail.TheVariants as frame;

use key_core::{KdfFail, KdfField};
use outside_core::NoMemory;
use uuid_core::Uuid;

/// Why a header or the inner fields are refused: the first fault in the order of these variants,
/// but for Truncated to Dictionary, of which the one that is first in the bytes comes.
#[derive(Clone, Copy)]
pub enum FrameFail {
    /// The file does not begin with the eight bytes of a KDBX file.
    NotKdbx,
    /// The file is of a version that is not read: this one.
    Version(u32),
    /// A part passes the end of the file, or of the deciphered text. The number is the length of
    /// the file or text.
    Truncated(u64),
    /// A part of the header ends within the file, but not within its first 65,536 bytes. The number
    /// is the offset of the part's end.
    TooLarge(u64),
    /// A field that may occur once occurs a second time. The number is its id.
    FieldTwice(u8),
    /// A field has a length that it may not have: its id, and the length. That of the IV, field 7,
    /// depends on the cipher, and comes after CipherUnknown.
    FieldLength(u8, u64),
    /// The KDF dictionary is malformed, or lacks a key. The number is the offset in the field of
    /// the faulty item's first byte, or the field's length where a key is missing.
    Dictionary(u64),
    /// The header is not the one whose hash follows it: the file was changed.
    HeaderHash {
        /// The hash that the file keeps.
        kept: [u8; 32],
        /// SHA-256 of the header in the file.
        found: [u8; 32],
    },
    /// A required field is missing. The number is the least id of those.
    FieldMissing(u8),
    /// The cipher of this id is not known.
    CipherUnknown(Uuid),
    /// The content is compressed, which is not read. The number is the flag.
    Compressed(u32),
    /// The key derivation function of this id is not known.
    KdfUnknown(Uuid),
    /// The key derivation is of a variant that is not read: the dictionary's version, or Argon2's
    /// version, or 0 where Argon2 has a key or data of its own.
    Variant(u64),
    /// A number of the key derivation is out of its limits.
    KdfLimit(KdfField, u64),
    /// Memory ran out.
    NoMemory,
}

impl From<KdfFail> for FrameFail {
    ghost from_gives = { λ fail e. e ≡ frame_fail_of fail };

    fn from(fail: KdfFail) -> FrameFail {
        match fail {
            KdfFail::KdfLimit(field, number) => FrameFail::KdfLimit(field, number),
            KdfFail::NoMemory => FrameFail::NoMemory,
        }
    }
}

impl From<NoMemory> for FrameFail {
    ghost from_gives = { λ _ e. e ≡ frame.NoMemory };

    fn from(_none: NoMemory) -> FrameFail {
        FrameFail::NoMemory
    }
}
