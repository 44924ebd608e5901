//! Why words are no command.

use cli_options::{CommandName, CommandOption};
use outside_core::Text;

/// Why words are no command, with those of them that say so.
#[derive(Drop)]
pub enum Cause {
    /// There are no words.
    NoCommand,
    /// An option is the first word.
    OptionFirst(Text),
    /// No command has this name.
    UnknownCommand(Text),
    /// The command takes no option of this long name.
    UnknownOption(CommandName, Text),
    /// The command takes no option of this letter.
    UnknownLetter(CommandName, u8),
    /// The command takes no option of a letter of this word, which is not of ASCII.
    UnknownWord(CommandName, Text),
    /// This option has no value, and one is after its long name.
    TakesNoValue(CommandOption),
    /// The option of this letter has no value, and one is after it.
    LetterTakesNoValue(u8),
    /// This option was given before, by its long name or its letter.
    OptionTwice(CommandOption),
    /// A flag of this word was given before, or stands in it twice.
    FlagsTwice(Text),
    /// The option of this letter has a value, and follows other letters.
    JoinedValue(u8),
    /// The option that is this word has a value, and no word follows.
    NoValue(Text),
    /// The option that is this word has a value, and another option follows.
    OptionAsValue(Text),
    /// The command has fewer positions than it needs.
    FewPositions(CommandName),
    /// This position is one more than the command takes.
    ExtraPosition(CommandName, Text),
    /// A merge has more sources than it may have.
    ManySources,
    /// This option is given beside `--plain`.
    NotWithPlain(CommandOption),
    /// This option is given beside `--same-credentials`.
    NotWithSame(CommandOption),
    /// The first of these options does not go with the second.
    NotTogether(CommandOption, CommandOption),
    /// A database has no password, and no key file is named.
    NoKeyFile,
    /// The sources have no password, and no key file of theirs is named.
    NoKeyFileFrom,
    /// The command is given no key for its new database.
    NoNewKey(CommandName),
    /// An import has no format of this name.
    UnknownImportFormat(Text),
    /// An export has no format of this name.
    UnknownExportFormat(Text),
    /// An edit is given no value.
    NothingToChange,
    /// This option says how a password is generated, and none is.
    NeedsGenerate(CommandOption),
    /// The value of this option is no number of a version, of one to six digits.
    UnknownNumber(CommandOption, Text),
    /// This option names a field of one's own, and its name is empty.
    EmptyFieldName(CommandOption),
    /// This option names a field of one's own, and this is one of those that every entry has.
    StandardField(CommandOption, Text),
    /// The value of this option is no tag.
    UnknownTag(CommandOption, Text),
    /// Values are to be hidden, and no field gets one.
    NeedsSet,
    /// No entry expires at this time.
    UnknownTime(Text),
    /// An attachment is to be printed, and this file is named for it.
    FileBesideStdout(Text),
    /// An attachment is to be taken out, and is neither to be printed nor is a file named for it.
    NoFileOrStdout,
    /// A new attachment has an empty name.
    EmptyAttachmentName,
    /// No password has this length.
    UnknownLength(Text),
    /// No test has this number of entries.
    UnknownCount(Text),
    /// No character is left of which a password could be made.
    NoCharacters,
    /// No cipher has this name.
    UnknownCipher(Text),
    /// No key derivation has this name.
    UnknownKdf(Text),
    /// No version of the format of files has this name.
    UnknownVersion(Text),
    /// This cost of a key derivation is no number of one to ten digits.
    UnknownCost(CommandOption, Text),
    /// This option is a cost of a key derivation, and none is named.
    NeedsKdf(CommandOption),
    /// This option is a cost of Argon2, and another key derivation is named.
    NeedsArgon(CommandOption),
    /// A change of a file leaves neither a password nor a key file.
    NoKeyLeft,
    /// A change of a file is given nothing to change.
    NoFileChange,
    /// A change of a file is given nothing to change, and a key file that opens it.
    KeyFileChangesNothing,
}
