//! How a file keeps its document.

ghost use Rattle.std.specs.Prelude.{◌≡◌, ◌++◌, IfOk, OnOk, codes, option_map, string_bytes};
ghost use Rattle.std.specs.Fmt.{decimal};
ghost use Rattle.cli_printing.specs.Info as spec;
ghost use Rattle.cli_printing.specs.Info.{file_lines, kdf_text, line, plain_lines, settings_lines};

use argon_core::ArgonKind;
use cli_needs::kdbx_frame::{Cipher, Settings};
use cli_needs::key_core::Kdf;
use outside_core::{Bytes, NoMemory};
use std::alloc::{AllocError, Global};
use vault_model::FileVersion;

// The version of a file's format.
fn version_name(version: FileVersion) -> &'static [u8]
    ensures { result.now ≡ spec.version_name version }
{
    match version {
        FileVersion::V31 => b"3.1",
        FileVersion::V40 => b"4.0",
        FileVersion::V41 => b"4.1",
    }
}

// The cipher of a file's content.
fn cipher_name(cipher: Cipher) -> &'static [u8]
    ensures { result.now ≡ spec.cipher_name cipher }
{
    match cipher {
        Cipher::Aes => b"AES-256",
        Cipher::Twofish => b"Twofish",
        Cipher::ChaCha => b"ChaCha20",
    }
}

// The type of Argon2.
fn kind_name(kind: ArgonKind) -> &'static str
    ensures { result.now ≡ spec.kind_name kind }
{
    match kind {
        ArgonKind::D => "Argon2d",
        ArgonKind::Id => "Argon2id",
    }
}

// Adds a number and what follows it.
fn add_number(alloc: Global, text: &mut String, number: u64, after: &str) -> Result<(), AllocError>
    ensures { OnOk result (string_bytes text.new
        ≡ string_bytes text.old ++ decimal number ++ after.now) }
{
    let piece = format!(in alloc; "{number}{after}")?;
    let added = text.push_str(piece.as_str());
    drop(piece);
    added
}

// Adds the costs of Argon2.
fn add_costs(
    alloc: Global,
    text: &mut String,
    passes: u64,
    kib: u64,
    lanes: u32,
) -> Result<(), AllocError>
    ensures { OnOk result (string_bytes text.new ≡ string_bytes text.old ++ codes " ("
        ++ decimal passes ++ codes " passes, " ++ decimal kib ++ codes " KiB, "
        ++ decimal lanes ++ codes " lanes)") }
{
    text.push_str(" (")?;
    add_number(alloc, text, passes, " passes, ")?;
    add_number(alloc, text, kib, " KiB, ")?;
    add_number(alloc, text, u64::from(lanes), " lanes)")
}

// Argon2 with its costs; the memory is in bytes.
fn argon_text(
    alloc: Global,
    kind: ArgonKind,
    passes: u64,
    bytes: u64,
    lanes: u32,
) -> Result<String, AllocError>
    ensures { IfOk result (λ text. string_bytes text ≡ spec.argon_text kind passes bytes lanes) }
{
    let kib = bytes / 1024;
    let mut text = String::from_str(alloc, kind_name(kind))?;
    match add_costs(alloc, &mut text, passes, kib, lanes) {
        Ok(()) => Ok(text),
        Err(fail) => {
            drop(text);
            Err(fail)
        }
    }
}

// The key derivation of a file with its costs.
fn kdf_text(alloc: Global, kdf: &Kdf) -> Result<String, AllocError>
    ensures { IfOk result (λ text. string_bytes text ≡ kdf_text kdf.now) }
{
    match kdf {
        Kdf::Aes { rounds, .. } => format!(in alloc; "AES ({rounds} rounds)"),
        Kdf::Argon {
            kind,
            passes,
            bytes,
            lanes,
            ..
        } => argon_text(alloc, *kind, *passes, *bytes, *lanes),
    }
}

/// Adds a line: what it is about, and a value.
#[tactic(auto, unfolding(crate::specs::Info::line))]
pub(crate) fn add_line(text: &mut Bytes, about: &[u8], value: &[u8]) -> Result<(), NoMemory>
    ensures { OnOk result (text.new ≡ text.old ++ line about.now value.now) }
{
    text.add(about)?;
    text.add(value)?;
    text.add(b"\n")
}

// Adds a version, a cipher and a key derivation.
fn add_three(text: &mut Bytes, version: &[u8], cipher: &[u8], kdf: &[u8]) -> Result<(), NoMemory>
    ensures { OnOk result (text.new ≡ text.old ++ line (codes "Version: ") version.now
        ++ line (codes "Cipher: ") cipher.now ++ line (codes "KDF: ") kdf.now) }
{
    add_line(text, b"Version: ", version)?;
    add_line(text, b"Cipher: ", cipher)?;
    add_line(text, b"KDF: ", kdf)
}

// Adds how a file keeps its document.
fn add_settings_lines(alloc: Global, text: &mut Bytes, settings: &Settings) -> Result<(), NoMemory>
    ensures { OnOk result (text.new ≡ text.old ++ settings_lines settings.now) }
{
    let kdf = kdf_text(alloc, &settings.kdf)?;
    let version = version_name(settings.version);
    let cipher = cipher_name(settings.cipher);
    let added = add_three(text, version, cipher, kdf.as_str().as_bytes());
    drop(kdf);
    added
}

// Adds the same of a plain document.
fn add_plain_lines(text: &mut Bytes) -> Result<(), NoMemory>
    ensures { OnOk result (text.new ≡ text.old ++ plain_lines) }
{
    add_three(text, b"plain", b"none", b"none")
}

/// Adds how a file keeps its document: its version, its cipher and its key derivation; a plain
/// document has no settings.
pub(crate) fn add_file_lines(
    alloc: Global,
    text: &mut Bytes,
    settings: Option<&Settings>,
) -> Result<(), NoMemory>
    ensures { OnOk result (text.new
        ≡ text.old ++ file_lines (option_map (λ s. s.now) settings.entry)) }
{
    match settings {
        Some(settings) => add_settings_lines(alloc, text, settings),
        None => add_plain_lines(text),
    }
}
