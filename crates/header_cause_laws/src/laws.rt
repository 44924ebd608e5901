//! The laws that each refusal of a header, or of a key file, has its cause in the bytes. Each
//! function has a law as its contract; it does nothing, and takes no memory.

ghost use Rattle.header_cause_laws.specs.Examples.{ExampleRefusals};
ghost use Rattle.header_cause_laws.specs.HeaderCauses.{HeaderRefusalsHaveCauses};
ghost use Rattle.header_cause_laws.specs.KeyCauses.{KeyRefusalsHaveCauses};

/// A file whose header is refused has the cause of its refusal: it does not begin with the
/// signature; its version is another; a part of the header passes the end of the file, or of what a
/// header may be in; a field is refused after those before it; the hash that follows the header is
/// not its hash; a field is missing; its cipher or its key derivation is none that is known, its
/// content is compressed, or the IV or a number of the key derivation is not of its range.
pub fn headers()
    ensures { HeaderRefusalsHaveCauses }
{}

/// A key file that is refused is a key document, and names no version or another one, has no key or
/// one in no form, or a key whose hash is not the one that it keeps.
pub fn key_files()
    ensures { KeyRefusalsHaveCauses }
{}

/// Each of these laws speaks of something: a few bytes that are refused.
pub fn example_refusals()
    ensures { ExampleRefusals }
{}
