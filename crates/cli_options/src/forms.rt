//! The options, and how each of them is written.
ghost use Rattle.std.specs.Prelude.{◌≡◌, ◌<◌};
ghost use Rattle.cli_options.specs.Options as spec;
ghost use Rattle.cli_options.specs.SeenForms.{form_seen};

/// An option of a command.
#[derive(Clone, Copy)]
pub enum CommandOption {
    /// `--recursive`, `-R`
    Recursive,
    /// `--flatten`, `-f`
    Flat,
    /// `--quiet`, `-q`
    Quiet,
    /// `--plain`
    Plain,
    /// `--no-password`
    NoPassword,
    /// `--key-file FILE`, `-k FILE`
    KeyFile,
    /// `--title TEXT`, `-t TEXT`
    Title,
    /// `--username TEXT`, `-u TEXT`
    User,
    /// `--url TEXT`
    Url,
    /// `--notes TEXT`
    Notes,
    /// `--password-prompt`, `-p`
    EntryPassword,
    /// `--same-credentials`, `-s`
    SameCredentials,
    /// `--dry-run`, `-d`
    DryRun,
    /// `--key-file-from FILE`
    KeyFileFrom,
    /// `--no-password-from`
    NoPasswordFrom,
    /// `--show-protected`, `-s`
    Clear,
    /// `--all`
    All,
    /// `--show-attachments`
    Attachments,
    /// `--format FORMAT`, `-f FORMAT` of an export
    Format,
    /// `--attributes NAME`, `-a NAME`
    Attribute,
    /// `--set-password`, `-p`
    SetPassword,
    /// `--set-key-file FILE`
    SetKeyFile,
    /// `--format FORMAT` of an import
    ImportFormat,
    /// `--totp`, `-t`
    Totp,
    /// `--generate`, `-g`
    Generate,
    /// `--length NUMBER`, `-L NUMBER`
    Length,
    /// `--lower`, `-l`
    Lower,
    /// `--upper`, `-U`
    Upper,
    /// `--numeric`, `-n`
    Numeric,
    /// `--special`, `-s`
    Special,
    /// `--exclude CHARS`, `-x CHARS`
    Exclude,
    /// `--otp`
    Otp,
    /// `--cipher CIPHER`
    Cipher,
    /// `--kdf KDF`
    Kdf,
    /// `--rounds NUMBER`
    Rounds,
    /// `--memory KIB`
    Memory,
    /// `--lanes NUMBER`
    Lanes,
    /// `--unset-password`
    UnsetPassword,
    /// `--unset-key-file`
    UnsetKeyFile,
    /// `--version VERSION`
    FileVersion,
    /// `--name NAME`
    DatabaseName,
    /// `--at NUMBER`
    At,
    /// `--restore NUMBER`
    Restore,
    /// `--details`
    Details,
    /// `--ids`
    Ids,
    /// `--set NAME`
    Set,
    /// `--protect`
    Protect,
    /// `--unset NAME`
    Unset,
    /// `--tag TAG`
    Tag,
    /// `--untag TAG`
    Untag,
    /// `--expires TIME`
    Expires,
    /// `--stdout`
    Stdout,
    /// `--force`, `-f`
    Force,
}

/// How many options there are.
pub const OPTIONS: usize = 53;

/// How an option is written.
#[derive(Clone, Copy)]
pub(crate) struct OptionForm {
    /// The name after `--`.
    pub name: &'static str,
    /// The letter after `-`, where it has one.
    pub letter: Option<u8>,
    /// Whether it has a value.
    pub has_value: bool,
    /// Whether it may occur more than once.
    pub is_repeatable: bool,
}

// The form of an option that has no value.
fn flag(name: &'static str, letter: Option<u8>) -> OptionForm
    ensures { form_seen result ≡ spec.flag name.now letter }
{
    OptionForm {
        name,
        letter,
        has_value: false,
        is_repeatable: false,
    }
}

// The form of an option that has a value.
fn valued(name: &'static str, letter: Option<u8>) -> OptionForm
    ensures { form_seen result ≡ spec.valued name.now letter }
{
    OptionForm {
        name,
        letter,
        has_value: true,
        is_repeatable: false,
    }
}

// The form of an option that has a value and may occur more than once.
fn repeatable(name: &'static str, letter: Option<u8>) -> OptionForm
    ensures { form_seen result ≡ spec.repeatable name.now letter }
{
    OptionForm {
        name,
        letter,
        has_value: true,
        is_repeatable: true,
    }
}

/// How an option is written.
pub(crate) fn form_of(option: CommandOption) -> OptionForm
    ensures { form_seen result ≡ spec.form_of option }
{
    match option {
        CommandOption::Recursive => flag("recursive", Some(b'R')),
        CommandOption::Flat => flag("flatten", Some(b'f')),
        CommandOption::Quiet => flag("quiet", Some(b'q')),
        CommandOption::Plain => flag("plain", None),
        CommandOption::NoPassword => flag("no-password", None),
        CommandOption::KeyFile => valued("key-file", Some(b'k')),
        CommandOption::Title => valued("title", Some(b't')),
        CommandOption::User => valued("username", Some(b'u')),
        CommandOption::Url => valued("url", None),
        CommandOption::Notes => valued("notes", None),
        CommandOption::EntryPassword => flag("password-prompt", Some(b'p')),
        CommandOption::SameCredentials => flag("same-credentials", Some(b's')),
        CommandOption::DryRun => flag("dry-run", Some(b'd')),
        CommandOption::KeyFileFrom => valued("key-file-from", None),
        CommandOption::NoPasswordFrom => flag("no-password-from", None),
        CommandOption::Clear => flag("show-protected", Some(b's')),
        CommandOption::All => flag("all", None),
        CommandOption::Attachments => flag("show-attachments", None),
        CommandOption::Format => valued("format", Some(b'f')),
        CommandOption::Attribute => repeatable("attributes", Some(b'a')),
        CommandOption::SetPassword => flag("set-password", Some(b'p')),
        CommandOption::SetKeyFile => valued("set-key-file", None),
        CommandOption::ImportFormat => valued("format", None),
        CommandOption::Totp => flag("totp", Some(b't')),
        CommandOption::Generate => flag("generate", Some(b'g')),
        CommandOption::Length => valued("length", Some(b'L')),
        CommandOption::Lower => flag("lower", Some(b'l')),
        CommandOption::Upper => flag("upper", Some(b'U')),
        CommandOption::Numeric => flag("numeric", Some(b'n')),
        CommandOption::Special => flag("special", Some(b's')),
        CommandOption::Exclude => valued("exclude", Some(b'x')),
        CommandOption::Otp => flag("otp", None),
        CommandOption::Cipher => valued("cipher", None),
        CommandOption::Kdf => valued("kdf", None),
        CommandOption::Rounds => valued("rounds", None),
        CommandOption::Memory => valued("memory", None),
        CommandOption::Lanes => valued("lanes", None),
        CommandOption::UnsetPassword => flag("unset-password", None),
        CommandOption::UnsetKeyFile => flag("unset-key-file", None),
        CommandOption::FileVersion => valued("version", None),
        CommandOption::DatabaseName => valued("name", None),
        CommandOption::At => valued("at", None),
        CommandOption::Restore => valued("restore", None),
        CommandOption::Details => flag("details", None),
        CommandOption::Ids => flag("ids", None),
        CommandOption::Set => repeatable("set", None),
        CommandOption::Protect => flag("protect", None),
        CommandOption::Unset => repeatable("unset", None),
        CommandOption::Tag => repeatable("tag", None),
        CommandOption::Untag => repeatable("untag", None),
        CommandOption::Expires => valued("expires", None),
        CommandOption::Stdout => flag("stdout", None),
        CommandOption::Force => flag("force", Some(b'f')),
    }
}

/// Reports whether an option has a value.
pub fn has_value(option: CommandOption) -> bool
    ensures { result ≡ spec.has_value option }
{
    form_of(option).has_value
}

/// Reports whether an option may occur more than once.
pub fn is_repeatable(option: CommandOption) -> bool
    ensures { result ≡ spec.is_repeatable option }
{
    form_of(option).is_repeatable
}

/// The place of an option among all of them.
pub fn place_of(option: CommandOption) -> usize
    ensures is { result ≡ spec.place_of option }
    ensures most { result < 53 }
{
    match option {
        CommandOption::Recursive => 0,
        CommandOption::Flat => 1,
        CommandOption::Quiet => 2,
        CommandOption::Plain => 3,
        CommandOption::NoPassword => 4,
        CommandOption::KeyFile => 5,
        CommandOption::Title => 6,
        CommandOption::User => 7,
        CommandOption::Url => 8,
        CommandOption::Notes => 9,
        CommandOption::EntryPassword => 10,
        CommandOption::SameCredentials => 11,
        CommandOption::DryRun => 12,
        CommandOption::KeyFileFrom => 13,
        CommandOption::NoPasswordFrom => 14,
        CommandOption::Clear => 15,
        CommandOption::All => 16,
        CommandOption::Attachments => 17,
        CommandOption::Format => 18,
        CommandOption::Attribute => 19,
        CommandOption::SetPassword => 20,
        CommandOption::SetKeyFile => 21,
        CommandOption::ImportFormat => 22,
        CommandOption::Totp => 23,
        CommandOption::Generate => 24,
        CommandOption::Length => 25,
        CommandOption::Lower => 26,
        CommandOption::Upper => 27,
        CommandOption::Numeric => 28,
        CommandOption::Special => 29,
        CommandOption::Exclude => 30,
        CommandOption::Otp => 31,
        CommandOption::Cipher => 32,
        CommandOption::Kdf => 33,
        CommandOption::Rounds => 34,
        CommandOption::Memory => 35,
        CommandOption::Lanes => 36,
        CommandOption::UnsetPassword => 37,
        CommandOption::UnsetKeyFile => 38,
        CommandOption::FileVersion => 39,
        CommandOption::DatabaseName => 40,
        CommandOption::At => 41,
        CommandOption::Restore => 42,
        CommandOption::Details => 43,
        CommandOption::Ids => 44,
        CommandOption::Set => 45,
        CommandOption::Protect => 46,
        CommandOption::Unset => 47,
        CommandOption::Tag => 48,
        CommandOption::Untag => 49,
        CommandOption::Expires => 50,
        CommandOption::Stdout => 51,
        CommandOption::Force => 52,
    }
}
