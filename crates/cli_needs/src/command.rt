//! What the program can be asked to do.

use cli_profiles::PasswordProfile;
use kdbx_frame::{Cipher, FileVersion};
use outside_core::{List, Text};
use tree_core::Expiry;

/// How a database is opened.
#[derive(Drop)]
pub struct Access {
    /// Whether the file is a plain document.
    pub plain: bool,
    /// Whether a command says nothing of what it changed.
    pub quiet: bool,
    /// The name of the key file, where the database has one.
    pub key_file: Option<Text>,
    /// Whether the database has no password.
    pub no_password: bool,
}

/// The values that an entry is to have, each where it is given.
#[derive(Drop)]
pub struct Asked {
    /// The entry's title.
    pub title: Option<Text>,
    /// The name of its user.
    pub user: Option<Text>,
    /// Its address.
    pub url: Option<Text>,
    /// Its notes.
    pub notes: Option<Text>,
    /// Whether its password is a line of the input.
    pub password: bool,
    /// How its password is generated, where it is.
    pub generated: Option<PasswordProfile>,
    /// Whether its one-time code is a line of the input.
    pub otp: bool,
}

/// What else of an entry is to change: fields of one's own, tags and when it expires.
#[derive(Drop)]
pub struct FurtherAsked {
    /// The names of the fields whose values are lines of the input, in their order.
    pub set: List<Text>,
    /// Whether these fields are hidden from now on.
    pub protect: bool,
    /// The names of the fields that are taken away.
    pub unset: List<Text>,
    /// The tags that are put to the others.
    pub tags: List<Text>,
    /// The tags that are taken away.
    pub untags: List<Text>,
    /// When the entry expires, where that changes.
    pub expiry: Option<Expiry>,
}

/// The format that a database is written in for another program.
#[derive(Clone, Copy)]
pub enum ExportFormat {
    /// The plain document.
    Xml,
    /// A table of its entries.
    Csv,
}

/// The format of what is imported.
#[derive(Clone, Copy)]
pub enum ImportFormat {
    /// The plain document.
    Xml,
    /// A file of Password Safe, version 3.
    Psafe,
    /// A table of entries.
    Csv,
    /// An unencrypted export of Bitwarden, as JSON.
    Bitwarden,
}

/// The kind of a key derivation, as words ask for it.
#[derive(Clone, Copy)]
pub enum KdfKind {
    /// Rounds of AES.
    Aes,
    /// Argon2d.
    Argon2d,
    /// Argon2id.
    Argon2id,
}

/// How the key of a database's file is to be derived.
#[derive(Clone, Copy)]
pub struct KdfAsked {
    /// The kind of the derivation.
    pub kind: KdfKind,
    /// The rounds of AES, or the passes of Argon2.
    pub rounds: u64,
    /// The memory of Argon2 in KiB, which AES has not.
    pub kib: u64,
    /// The lanes of Argon2, which AES has not.
    pub lanes: u64,
}

/// What becomes of the password in a database's composite key.
#[derive(Clone, Copy)]
pub enum PasswordChange {
    /// It stays, as it is or missing.
    Keep,
    /// It is the line of the input after the database's.
    Set,
    /// There is none.
    Unset,
}

/// What becomes of the key file in a database's composite key.
#[derive(Drop)]
pub enum KeyFileChange {
    /// It stays, as it is or missing.
    Keep,
    /// It is the file of this name.
    Set(Text),
    /// There is none.
    Unset,
}

/// What a database's file is changed to, each where it is asked for.
#[derive(Drop)]
pub struct FileChange {
    /// What becomes of the password.
    pub password: PasswordChange,
    /// What becomes of the key file.
    pub key_file: KeyFileChange,
    /// The cipher of the content.
    pub cipher: Option<Cipher>,
    /// How the key is derived.
    pub kdf: Option<KdfAsked>,
    /// The version of the format.
    pub version: Option<FileVersion>,
}

/// What the program is asked to do.
#[derive(Drop)]
pub enum Command {
    /// Lists a group of a database, the root group where none is named.
    Ls {
        /// How the database is opened.
        access: Access,
        /// The file of the database.
        file: Text,
        /// The path of the group.
        group: Option<Text>,
        /// Whether the groups below it are listed too.
        recursive: bool,
        /// Whether each name comes after the path that leads to it.
        flat: bool,
        /// Whether each name comes after the id of its node.
        ids: bool,
    },
    /// Shows an entry of a database.
    Show {
        /// How the database is opened.
        access: Access,
        /// The file of the database.
        file: Text,
        /// The path of the entry.
        entry: Text,
        /// Whether hidden values are shown as they are.
        clear: bool,
        /// Whether the entry's own fields are shown after its standard ones.
        all: bool,
        /// Whether its attachments are shown.
        attachments: bool,
        /// The names of the fields that alone are shown, where any is named.
        names: List<Text>,
        /// Whether its one-time code is shown.
        totp: bool,
        /// The number of the version that is shown: 0 is the current one.
        at: u64,
    },
    /// Lists the versions of an entry of a database.
    History {
        /// How the database is opened.
        access: Access,
        /// The file of the database.
        file: Text,
        /// The path of the entry.
        entry: Text,
    },
    /// Lists the entries of a database that match the terms of a search.
    Search {
        /// How the database is opened.
        access: Access,
        /// The file of the database.
        file: Text,
        /// The terms.
        term: Text,
    },
    /// Adds an entry to a database.
    Add {
        /// How the database is opened.
        access: Access,
        /// The file of the database.
        file: Text,
        /// The path of the entry.
        entry: Text,
        /// The values of its fields.
        asked: Asked,
    },
    /// Gives an entry of a database other values.
    Edit {
        /// How the database is opened.
        access: Access,
        /// The file of the database.
        file: Text,
        /// The path of the entry.
        entry: Text,
        /// The values that are other than before.
        asked: Asked,
        /// What else changes.
        further: FurtherAsked,
    },
    /// Makes a version of an entry the current one again.
    Restore {
        /// How the database is opened.
        access: Access,
        /// The file of the database.
        file: Text,
        /// The path of the entry.
        entry: Text,
        /// The number of the version.
        version: u64,
    },
    /// Takes an attachment of an entry out of a database.
    ExportAttachment {
        /// How the database is opened.
        access: Access,
        /// The file of the database.
        file: Text,
        /// The path of the entry.
        entry: Text,
        /// The name of the attachment.
        name: Text,
        /// The new file that gets its bytes; where none is named they are printed.
        to: Option<Text>,
    },
    /// Puts a file into a database as an attachment of an entry.
    ImportAttachment {
        /// How the database is opened.
        access: Access,
        /// The file of the database.
        file: Text,
        /// The path of the entry.
        entry: Text,
        /// The name of the attachment.
        name: Text,
        /// The file whose bytes it gets.
        source: Text,
        /// Whether an attachment of this name is replaced.
        replaces: bool,
    },
    /// Takes an attachment away from an entry of a database.
    RemoveAttachment {
        /// How the database is opened.
        access: Access,
        /// The file of the database.
        file: Text,
        /// The path of the entry.
        entry: Text,
        /// The name of the attachment.
        name: Text,
    },
    /// Moves an entry or a group into another group.
    Move {
        /// How the database is opened.
        access: Access,
        /// The file of the database.
        file: Text,
        /// The path of what is moved: a group's where it ends with a slash.
        node: Text,
        /// The path of the group that it is moved into.
        group: Text,
    },
    /// Puts an entry into the bin, or deletes it.
    Remove {
        /// How the database is opened.
        access: Access,
        /// The file of the database.
        file: Text,
        /// The path of the entry.
        entry: Text,
    },
    /// Adds a group to a database.
    MakeGroup {
        /// How the database is opened.
        access: Access,
        /// The file of the database.
        file: Text,
        /// The path of the group.
        group: Text,
    },
    /// Puts a group into the bin, or deletes it with all that is in it.
    RemoveGroup {
        /// How the database is opened.
        access: Access,
        /// The file of the database.
        file: Text,
        /// The path of the group.
        group: Text,
    },
    /// Merges databases into a database.
    Merge {
        /// How the target is opened.
        access: Access,
        /// The file of the target.
        file: Text,
        /// The files of the sources, of which there are 1 to 16.
        sources: List<Text>,
        /// How each source is opened.
        from: Access,
        /// Whether each source has the password of the target.
        same: bool,
        /// Whether no file is written.
        dry: bool,
        /// Whether the report says what a person has to look at.
        details: bool,
    },
    /// Makes a database of what another program has written.
    Import {
        /// How the new database is opened afterwards.
        access: Access,
        /// The format of the source.
        format: ImportFormat,
        /// The file of the source.
        source: Text,
        /// How the source is opened.
        from: Access,
        /// The file of the new database.
        file: Text,
    },
    /// Makes an empty database.
    Create {
        /// How the new database is opened afterwards.
        access: Access,
        /// The file of the new database.
        file: Text,
        /// The name of the database and of its root group, where one is given.
        name: Option<Text>,
        /// The cipher of the content, where one is asked for.
        cipher: Option<Cipher>,
        /// How the key is derived, where that is asked for.
        kdf: Option<KdfAsked>,
    },
    /// Writes a database in another format.
    Export {
        /// How the database is opened.
        access: Access,
        /// The format.
        format: ExportFormat,
        /// The file of the database.
        file: Text,
    },
    /// Gives the file of a database another key, or other settings.
    EditFile {
        /// How the database is opened.
        access: Access,
        /// The file of the database.
        file: Text,
        /// What it is changed to.
        change: FileChange,
    },
    /// Shows what a database is.
    Info {
        /// How the database is opened.
        access: Access,
        /// The file of the database.
        file: Text,
    },
}
