//! What a command asks for.
ghost use Rattle.std.specs.Prelude.{◌≡◌, option_map};
ghost use Rattle.std.specs.Option.{option_copied};
ghost use Rattle.cli_needs.specs.Needs as spec;
ghost use Rattle.cli_needs.specs.SeenNeeds.{create_seen, import_seen, imports_seen, needs_seen, origin_seen};

use crate::command::{Access, Command, FileChange, ImportFormat, KdfAsked, PasswordChange};
use cli_profiles::PasswordProfile;
use kdbx_frame::Cipher;
use outside_core::Text;

/// What a command asks for: the file of its database and how it is opened, the files of its sources
/// and how each is opened, and which lines of the input are due after those that open them.
#[derive(Clone, Copy)]
pub struct Needs<'a> {
    /// How the database is opened.
    pub access: &'a Access,
    /// The file of the database.
    pub file: &'a Text,
    /// How each source is opened.
    pub from: &'a Access,
    /// Whether each source has the password of the database.
    pub same: bool,
    /// The files of the sources.
    pub sources: &'a [Text],
    /// Whether a line is due after those that open databases.
    pub has_line: bool,
    /// Whether one more, a one-time code, is due after it.
    pub has_otp: bool,
    /// The names of the fields whose values are the lines after that.
    pub fields: &'a [Text],
}

// What a command asks for that has no sources.
fn without_sources<'a>(access: &'a Access, file: &'a Text, has_line: bool) -> Needs<'a>
    ensures { needs_seen result ≡ spec.without_sources access.now file.now has_line }
{
    Needs {
        access,
        file,
        from: access,
        same: false,
        sources: &[],
        has_line,
        has_otp: false,
        fields: &[],
    }
}

// Reports whether a new password of a database is a line.
fn sets_password(change: PasswordChange) -> bool
    ensures { result ≡ spec.sets_password change }
{
    matches!(change, PasswordChange::Set)
}

/// What a command asks for.
pub fn needs_of(command: &Command) -> Needs<'_>
    ensures { needs_seen result ≡ spec.needs_of command.now }
{
    match command {
        Command::Ls { access, file, .. } => without_sources(access, file, false),
        Command::Show { access, file, .. } => without_sources(access, file, false),
        Command::History { access, file, .. } => without_sources(access, file, false),
        Command::Search { access, file, .. } => without_sources(access, file, false),
        Command::Add {
            access,
            file,
            asked,
            ..
        } => without_sources(access, file, asked.password),
        Command::Edit {
            access,
            file,
            asked,
            further,
            ..
        } => Needs {
            access,
            file,
            from: access,
            same: false,
            sources: &[],
            has_line: asked.password,
            has_otp: asked.otp,
            fields: further.set.as_slice(),
        },
        Command::Restore { access, file, .. } => without_sources(access, file, false),
        Command::ExportAttachment { access, file, .. } => without_sources(access, file, false),
        Command::ImportAttachment { access, file, .. } => without_sources(access, file, false),
        Command::RemoveAttachment { access, file, .. } => without_sources(access, file, false),
        Command::Move { access, file, .. } => without_sources(access, file, false),
        Command::Remove { access, file, .. } => without_sources(access, file, false),
        Command::MakeGroup { access, file, .. } => without_sources(access, file, false),
        Command::RemoveGroup { access, file, .. } => without_sources(access, file, false),
        Command::Merge {
            access,
            file,
            sources,
            from,
            same,
            ..
        } => Needs {
            access,
            file,
            from,
            same: *same,
            sources: sources.as_slice(),
            has_line: false,
            has_otp: false,
            fields: &[],
        },
        Command::Import {
            access,
            source,
            from,
            ..
        } => without_sources(from, source, asks_password(access)),
        Command::Create { access, file, .. } => without_sources(access, file, false),
        Command::Export { access, file, .. } => without_sources(access, file, false),
        Command::EditFile {
            access,
            file,
            change,
        } => without_sources(access, file, sets_password(change.password)),
        Command::Info { access, file, .. } => without_sources(access, file, false),
    }
}

/// How the password of an entry is generated, where a command asks for that.
pub fn generated_by(command: &Command) -> Option<&PasswordProfile>
    ensures { option_copied result ≡ spec.generated_by command.now }
{
    match command {
        Command::Add { asked, .. } => asked.generated.as_ref(),
        Command::Edit { asked, .. } => asked.generated.as_ref(),
        _ => None,
    }
}

/// Reports whether a database asks for a line: its password, unless it is a plain document or has
/// none.
pub fn asks_password(access: &Access) -> bool
    ensures { result ≡ spec.asks_password access.now }
{
    !(access.plain || access.no_password)
}

/// What an import asks for beside what its source is opened by.
#[derive(Clone, Copy)]
pub struct ImportNeeds<'a> {
    /// The format of the source.
    pub format: ImportFormat,
    /// The file of the source.
    pub source: &'a Text,
    /// How the new database is opened afterwards.
    pub access: &'a Access,
    /// The file of the new database.
    pub file: &'a Text,
}

/// What an import asks for; other commands are none.
pub fn import_of(command: &Command) -> Option<ImportNeeds<'_>>
    ensures { imports_seen result ≡ spec.import_of command.now }
{
    match command {
        Command::Import {
            access,
            format,
            source,
            file,
            ..
        } => {
            Some(ImportNeeds {
                format: *format,
                source,
                access,
                file,
            })
        }
        _ => None,
    }
}

/// What an empty database is made by.
#[derive(Clone, Copy)]
pub struct CreateNeeds<'a> {
    /// How the new database is opened afterwards.
    pub access: &'a Access,
    /// The file of the new database.
    pub file: &'a Text,
    /// The name of the database and of its root group, where one is given.
    pub name: &'a Option<Text>,
    /// The cipher of the content, where one is asked for.
    pub cipher: Option<Cipher>,
    /// How the key is derived, where that is asked for.
    pub kdf: Option<KdfAsked>,
}

/// Where the database of a command comes from.
#[derive(Clone, Copy)]
pub enum Origin<'a> {
    /// It is opened.
    Opened,
    /// It is opened where no file has this name, which gets what is taken out of it.
    Exported(&'a Text),
    /// It is opened beside the file of this name, which is put into it.
    Attached(&'a Text),
    /// It is made of what another program has written.
    Imported(ImportNeeds<'a>),
    /// It is made empty.
    Created(CreateNeeds<'a>),
    /// It is opened, and its file is changed.
    Changed(&'a FileChange),
}

/// Where the database of a command comes from.
pub fn origin_of(command: &Command) -> Origin<'_>
    ensures { origin_seen result ≡ spec.origin_of command.now }
{
    match command {
        Command::Import {
            access,
            format,
            source,
            file,
            ..
        } => {
            Origin::Imported(ImportNeeds {
                format: *format,
                source,
                access,
                file,
            })
        }
        Command::Create {
            access,
            file,
            name,
            cipher,
            kdf,
        } => {
            Origin::Created(CreateNeeds {
                access,
                file,
                name,
                cipher: *cipher,
                kdf: *kdf,
            })
        }
        Command::EditFile { change, .. } => Origin::Changed(change),
        Command::ExportAttachment { to: Some(to), .. } => Origin::Exported(to),
        Command::ImportAttachment { source, .. } => Origin::Attached(source),
        _ => Origin::Opened,
    }
}

/// The file that a command makes of an attachment, where it names one.
pub fn exported_to(command: &Command) -> Option<&Text>
    ensures { option_map (λ to. to.now) result ≡ spec.exported_to command.now }
{
    match command {
        Command::ExportAttachment { to, .. } => to.as_ref(),
        _ => None,
    }
}

/// The file of the database that a command shows or writes: that of the new database of an import,
/// or else that of the database that it opens.
pub fn target_of(command: &Command) -> &Text
    ensures { result.now ≡ spec.target_of command.now }
{
    match command {
        Command::Import { file, .. } => file,
        _ => needs_of(command).file,
    }
}

/// The file that a command writes, where it writes one: the new file that it takes an attachment out
/// into, or else that of its database.
pub fn file_written(command: &Command) -> &Text
    ensures { result.now ≡ spec.file_written command.now }
{
    match exported_to(command) {
        Some(to) => to,
        None => target_of(command),
    }
}

/// How the database in that file is opened.
pub fn target_access(command: &Command) -> &Access
    ensures { result.now ≡ spec.target_access command.now }
{
    match command {
        Command::Import { access, .. } => access,
        _ => needs_of(command).access,
    }
}

/// Reports whether each source asks for a line: a password of its own, unless it has the password
/// of the database, or none.
pub fn asks_passwords_from(needs: Needs<'_>) -> bool
    ensures { result ≡ spec.asks_passwords_from (needs_seen needs.entry) }
{
    !needs.same && asks_password(needs.from)
}
