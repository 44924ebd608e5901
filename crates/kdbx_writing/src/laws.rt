//! What is written is read as what it was written from. Each law is a function whose contract is
//! the law; it computes nothing.

ghost use Rattle.std.specs.Prelude.{◌≡◌, ℕ, ◌+◌, ◌<◌, ◌≤◌, ◌^◌, List, ◌++◌, length, Ok};
ghost use Rattle.std.specs.List.{AllByRecursion};
ghost use Rattle.sha2.specs.Sha256.{sha256};
ghost use Rattle.kdbx_frame.specs.declared.settings.Settings.{Settings};
ghost use Rattle.kdbx_frame.specs.Fields.{header_limit};
ghost use Rattle.kdbx_frame.specs.Header.{header_of};
ghost use Rattle.kdbx_frame.specs.Settings.{IsInOrder, IsVersion4};
ghost use Rattle.vault_model.specs.declared.forms.FileVersion.TheVariants.{V31};
ghost use Rattle.kdbx_inner.specs.Inner.{Binary, inner_of};
ghost use Rattle.kdbx_writing.specs.declared.draws.Draws.{Draws};
ghost use Rattle.kdbx_writing.specs.Draws.{AreDrawn};
ghost use Rattle.kdbx_writing.specs.Header.{header_with, spelled_header};
ghost use Rattle.kdbx_writing.specs.Inner.{FitsField, inner_with, spelled_inner};

/// A file that begins with a written header has the settings that the header was written from, with
/// the drawn salt, seed and IV, so long as the header ends within the limit. In version 4 the
/// header's hash and 32 bytes of a MAC follow it.
pub fn headers_read_back()
    ensures four { (s : Settings) (d : Draws) (mac rest : List ℕ)
        → IsVersion4 s.version → IsInOrder s → AreDrawn s d → length mac ≡ 32
        → length (spelled_header s d) + 64 ≤ header_limit
        → header_of (spelled_header s d ++ sha256 (spelled_header s d) ++ mac ++ rest)
        ≡ Ok (header_with s d) }
    ensures three { (s : Settings) (d : Draws) (rest : List ℕ)
        → s.version ≡ V31 → IsInOrder s → AreDrawn s d
        → length (spelled_header s d) ≤ header_limit
        → header_of (spelled_header s d ++ rest) ≡ Ok (header_with s d) }
{}

/// A text that begins with written inner fields has the key and the attached files that they were
/// written from.
pub fn inner_fields_read_back()
    ensures { (key text : List ℕ) (pool : List Binary)
        → length key < 2 ^ 32 → AllByRecursion FitsField pool
        → inner_of (spelled_inner key pool ++ text) ≡ Ok (inner_with key pool) }
{}
