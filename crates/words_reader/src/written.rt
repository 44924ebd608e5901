//! A command as a line.

use crate::parts::Parts;
use cli_needs::{
    Asked, Command, ExportFormat, FileChange, FurtherAsked, ImportFormat, KdfAsked, KdfKind,
    KeyFileChange, PasswordChange, target_access, target_of,
};
use cli_sessions::SessionDatabase;
use cli_standalone::Standalone;
use kdbx_frame::{Cipher, FileVersion};
use std::alloc::{AllocError, Global};

// The name of a format.
fn export_name(format: ExportFormat) -> &'static str {
    match format {
        ExportFormat::Xml => "xml",
        ExportFormat::Csv => "csv",
    }
}

// The name of a format.
fn import_name(format: ImportFormat) -> &'static str {
    match format {
        ImportFormat::Xml => "xml",
        ImportFormat::Psafe => "psafe3",
        ImportFormat::Csv => "csv",
        ImportFormat::Bitwarden => "bitwarden",
    }
}

// The name of a cipher.
fn cipher_name(cipher: Cipher) -> &'static str {
    match cipher {
        Cipher::Aes => "aes",
        Cipher::Twofish => "twofish",
        Cipher::ChaCha => "chacha20",
    }
}

// The name of a key derivation.
fn kdf_name(kind: KdfKind) -> &'static str {
    match kind {
        KdfKind::Aes => "aes",
        KdfKind::Argon2d => "argon2d",
        KdfKind::Argon2id => "argon2id",
    }
}

// The name of a version.
fn version_name(version: FileVersion) -> &'static str {
    match version {
        FileVersion::V31 => "3.1",
        FileVersion::V40 => "4.0",
        FileVersion::V41 => "4.1",
    }
}

// The name of a command.
fn name_of(command: &Command) -> &'static str {
    match command {
        Command::Ls { .. } => "ls",
        Command::Show { .. } => "show",
        Command::History { .. } => "history",
        Command::Search { .. } => "search",
        Command::Add { .. } => "add",
        Command::Edit { .. } | Command::Restore { .. } => "edit",
        Command::Move { .. } => "mv",
        Command::Remove { .. } => "rm",
        Command::MakeGroup { .. } => "mkdir",
        Command::RemoveGroup { .. } => "rmdir",
        Command::Merge { .. } => "merge",
        Command::Import { .. } => "import",
        Command::Create { .. } => "db-create",
        Command::Export { .. } => "export",
        Command::EditFile { .. } => "db-edit",
        Command::Info { .. } => "db-info",
        Command::ExportAttachment { .. } => "attachment-export",
        Command::ImportAttachment { .. } => "attachment-import",
        Command::RemoveAttachment { .. } => "attachment-rm",
    }
}

// The values that an entry is to have.
fn add_asked(parts: &mut Parts, alloc: Global, asked: &Asked) -> Result<(), AllocError> {
    parts.option("title", &asked.title)?;
    parts.option("username", &asked.user)?;
    parts.option("url", &asked.url)?;
    parts.option("notes", &asked.notes)?;
    parts.flag("password", asked.password)?;
    if let Some(profile) = &asked.generated {
        parts.profile(alloc, profile)?;
    }
    parts.flag("otp", asked.otp)
}

// What else of an entry is to change.
fn add_further(parts: &mut Parts, alloc: Global, further: &FurtherAsked) -> Result<(), AllocError> {
    parts.texts("set", &further.set)?;
    parts.flag("protect", further.protect)?;
    parts.texts("unset", &further.unset)?;
    parts.texts("tag", &further.tags)?;
    parts.texts("untag", &further.untags)?;
    match further.expiry {
        Some(expiry) => parts.expiry(alloc, expiry),
        None => Ok(()),
    }
}

// What a command says beside its database, of those that only read.
fn add_reading(parts: &mut Parts, alloc: Global, command: &Command) -> Result<(), AllocError> {
    match command {
        Command::Ls {
            group,
            recursive,
            flat,
            ids,
            ..
        } => {
            parts.option("group", group)?;
            parts.flag("recursive", *recursive)?;
            parts.flag("flatten", *flat)?;
            parts.flag("ids", *ids)
        }
        Command::Show {
            entry,
            clear,
            all,
            attachments,
            names,
            totp,
            at,
            ..
        } => {
            parts.text("entry", entry.as_str())?;
            parts.flag("show-protected", *clear)?;
            parts.flag("all", *all)?;
            parts.flag("show-attachments", *attachments)?;
            parts.texts("attribute", names)?;
            parts.flag("totp", *totp)?;
            parts.number(alloc, "at", *at)
        }
        Command::History { entry, .. } => parts.text("entry", entry.as_str()),
        Command::Search { term, .. } => parts.text("term", term.as_str()),
        Command::Export { format, .. } => parts.text("format", export_name(*format)),
        _ => Ok(()),
    }
}

// The same of those that change a database.
fn add_changing(parts: &mut Parts, alloc: Global, command: &Command) -> Result<(), AllocError> {
    match command {
        Command::Add { entry, asked, .. } => {
            parts.text("entry", entry.as_str())?;
            add_asked(parts, alloc, asked)
        }
        Command::Edit {
            entry,
            asked,
            further,
            ..
        } => {
            parts.text("entry", entry.as_str())?;
            add_asked(parts, alloc, asked)?;
            add_further(parts, alloc, further)
        }
        Command::Restore { entry, version, .. } => {
            parts.text("entry", entry.as_str())?;
            parts.number(alloc, "restore", *version)
        }
        Command::Move { node, group, .. } => {
            parts.text("node", node.as_str())?;
            parts.text("group", group.as_str())
        }
        Command::Remove { entry, .. } => parts.text("entry", entry.as_str()),
        Command::MakeGroup { group, .. } => parts.text("group", group.as_str()),
        Command::RemoveGroup { group, .. } => parts.text("group", group.as_str()),
        _ => Ok(()),
    }
}

// The same of those that open something else too.
fn add_other(parts: &mut Parts, command: &Command) -> Result<(), AllocError> {
    match command {
        Command::Merge {
            sources,
            from,
            same,
            dry,
            details,
            ..
        } => {
            for source in sources.as_slice() {
                parts.access(source.as_str(), from)?;
            }
            parts.flag("same-credentials", *same)?;
            parts.flag("dry-run", *dry)?;
            parts.flag("details", *details)
        }
        Command::Import {
            format,
            source,
            from,
            ..
        } => {
            parts.access(source.as_str(), from)?;
            parts.text("format", import_name(*format))
        }
        _ => Ok(()),
    }
}

// A cipher and a key derivation, where they are asked for.
fn add_settings(
    parts: &mut Parts,
    alloc: Global,
    cipher: Option<Cipher>,
    kdf: Option<KdfAsked>,
) -> Result<(), AllocError> {
    if let Some(cipher) = cipher {
        parts.text("cipher", cipher_name(cipher))?;
    }
    if let Some(kdf) = kdf {
        parts.text("kdf", kdf_name(kdf.kind))?;
        parts.number(alloc, "rounds", kdf.rounds)?;
        parts.number(alloc, "memory", kdf.kib)?;
        parts.number(alloc, "lanes", kdf.lanes)?;
    }
    Ok(())
}

// What the file of a database is changed to.
fn add_change(parts: &mut Parts, alloc: Global, change: &FileChange) -> Result<(), AllocError> {
    match change.password {
        PasswordChange::Keep => {}
        PasswordChange::Set => parts.flag("set-password", true)?,
        PasswordChange::Unset => parts.flag("unset-password", true)?,
    }
    match &change.key_file {
        KeyFileChange::Keep => {}
        KeyFileChange::Set(name) => parts.text("set-key-file", name.as_str())?,
        KeyFileChange::Unset => parts.flag("unset-key-file", true)?,
    }
    add_settings(parts, alloc, change.cipher, change.kdf)?;
    match change.version {
        Some(version) => parts.text("version", version_name(version)),
        None => Ok(()),
    }
}

// The same of those that make or change a file.
fn add_files(parts: &mut Parts, alloc: Global, command: &Command) -> Result<(), AllocError> {
    match command {
        Command::Create {
            name,
            cipher,
            kdf,
            ..
        } => {
            parts.option("name", name)?;
            add_settings(parts, alloc, *cipher, *kdf)
        }
        Command::EditFile { change, .. } => add_change(parts, alloc, change),
        _ => Ok(()),
    }
}

// The same of those of attachments.
fn add_attachment(parts: &mut Parts, command: &Command) -> Result<(), AllocError> {
    match command {
        Command::ExportAttachment {
            entry,
            name,
            to,
            ..
        } => {
            parts.text("entry", entry.as_str())?;
            parts.text("name", name.as_str())?;
            parts.option("to", to)
        }
        Command::ImportAttachment {
            entry,
            name,
            source,
            replaces,
            ..
        } => {
            parts.text("entry", entry.as_str())?;
            parts.text("name", name.as_str())?;
            parts.text("source", source.as_str())?;
            parts.flag("force", *replaces)
        }
        Command::RemoveAttachment { entry, name, .. } => {
            parts.text("entry", entry.as_str())?;
            parts.text("name", name.as_str())
        }
        _ => Ok(()),
    }
}

/// A command as a line: its name, the database that it shows or writes, and what else it says.
pub(crate) fn written(alloc: Global, command: &Command) -> Result<Parts, AllocError> {
    let mut parts = Parts::new(alloc, name_of(command))?;
    parts.access(target_of(command).as_str(), target_access(command))?;
    add_reading(&mut parts, alloc, command)?;
    add_changing(&mut parts, alloc, command)?;
    add_other(&mut parts, command)?;
    add_files(&mut parts, alloc, command)?;
    add_attachment(&mut parts, command)?;
    Ok(parts)
}

/// The database of a session that is opened, as a line.
pub(crate) fn written_opening(
    alloc: Global,
    database: &SessionDatabase,
) -> Result<Parts, AllocError> {
    let mut parts = Parts::new(alloc, "open")?;
    parts.access(database.file.as_str(), &database.access)?;
    Ok(parts)
}

/// A command that needs no database, as a line.
pub(crate) fn written_alone(alloc: Global, standalone: &Standalone) -> Result<Parts, AllocError> {
    match standalone {
        Standalone::Password(profile) => {
            let mut parts = Parts::new(alloc, "generate")?;
            parts.profile(alloc, profile)?;
            Ok(parts)
        }
        Standalone::SelfTest(count) => {
            let mut parts = Parts::new(alloc, "selftest")?;
            parts.number(alloc, "count", u64::from(*count))?;
            Ok(parts)
        }
    }
}
