//! Writing the line that says why words are no command.
ghost use Rattle.std.specs.Prelude.{◌≡◌, ◌++◌, ◌∷◌, [], IfOk, OnOk, Some, codes, map};
ghost use Rattle.cli_pages.specs.Texts as spec;

use crate::near::{command_text, near_command, near_option, option_text};
use cli_causes::Cause;
use cli_options::{CommandName, CommandOption};
use outside_core::{Bytes, NoMemory};
use std::alloc::Global;

// The positions of a command by their names.
fn positions_text(command: CommandName) -> &'static str
    ensures { result.now ≡ spec.positions_text command }
{
    match command {
        CommandName::Ls => "DATABASE [GROUP]",
        CommandName::Show
        | CommandName::History
        | CommandName::Add
        | CommandName::Edit
        | CommandName::Remove => "DATABASE ENTRY",
        CommandName::Search => "DATABASE TERM",
        CommandName::Move => "DATABASE NODE GROUP",
        CommandName::MakeGroup | CommandName::RemoveGroup => "DATABASE GROUP",
        CommandName::Merge => "TARGET SOURCE...",
        CommandName::Import => "SOURCE DATABASE",
        CommandName::Create
        | CommandName::Export
        | CommandName::EditFile
        | CommandName::Info
        | CommandName::Open => "DATABASE",
        CommandName::Generate => "only options",
        CommandName::SelfTest => "COUNT",
        CommandName::ExportAttachment => "DATABASE ENTRY NAME [FILE]",
        CommandName::ImportAttachment => "DATABASE ENTRY NAME FILE",
        CommandName::RemoveAttachment => "DATABASE ENTRY NAME",
    }
}

// Adds a word between two texts.
fn add_around(text: &mut Bytes, before: &str, word: &str, after: &str) -> Result<(), NoMemory>
    ensures { OnOk result (text.new ≡ text.old ++ spec.around before.now word.now after.now) }
{
    text.add(before.as_bytes())?;
    text.add(word.as_bytes())?;
    text.add(after.as_bytes())
}

// Adds the command that was perhaps meant.
fn add_command(text: &mut Bytes, near: Option<CommandName>) -> Result<(), NoMemory>
    ensures { OnOk result (text.new ≡ text.old ++ spec.perhaps_command near) }
{
    match near {
        Some(command) => add_around(text, "; did you mean '", command_text(command), "'?"),
        None => Ok(()),
    }
}

// Adds the page that lists the options of a command.
fn add_options_page(text: &mut Bytes, command: CommandName) -> Result<(), NoMemory>
    ensures { OnOk result (text.new ≡ text.old ++ spec.options_page command) }
{
    let after = " --help lists its options";
    add_around(text, "; keepass ", command_text(command), after)
}

// Adds the option that was perhaps meant, and else where the options of the command are listed.
fn add_option(
    text: &mut Bytes,
    command: CommandName,
    near: Option<CommandOption>,
) -> Result<(), NoMemory>
    ensures { OnOk result (text.new ≡ text.old ++ spec.perhaps_option command near) }
{
    match near {
        Some(option) => add_around(text, "; did you mean '--", option_text(option), "'?"),
        None => add_options_page(text, command),
    }
}

// Adds that no command has this name, and the one that was perhaps meant.
#[tactic(auto, unfolding(crate::specs::Texts::unknown_or_near))]
fn add_unknown(text: &mut Bytes, word: &str, near: Option<CommandName>) -> Result<(), NoMemory>
    ensures { OnOk result (text.new ≡ text.old ++ spec.unknown_or_near word.now near) }
{
    add_around(text, "unknown command '", word, "'")?;
    add_command(text, near)
}

// Adds that no command has this name.
fn add_unknown_command(alloc: Global, text: &mut Bytes, word: &str) -> Result<(), NoMemory>
    ensures { OnOk result (text.new ≡ text.old ++ spec.unknown_command word.now) }
{
    add_unknown(text, word, near_command(alloc, word)?)?;
    text.add(b"; keepass --help lists them")
}

// Adds that a command takes no option that begins with this.
fn add_not_taken(text: &mut Bytes, command: CommandName, sign: &str) -> Result<(), NoMemory>
    ensures { OnOk result (text.new ≡ text.old ++ spec.command_text command
        ++ spec.around (codes " takes no option '") sign.now []) }
{
    text.add(command_text(command).as_bytes())?;
    add_around(text, " takes no option '", sign, "")
}

// Adds that a command takes no option of this long name.
fn add_unknown_option(
    alloc: Global,
    text: &mut Bytes,
    command: CommandName,
    name: &str,
) -> Result<(), NoMemory>
    ensures { OnOk result (text.new ≡ text.old ++ spec.unknown_option command name.now) }
{
    add_not_taken(text, command, "--")?;
    add_around(text, "", name, "'")?;
    add_option(text, command, near_option(alloc, command, name)?)
}

// Adds that a command takes no option of this letter.
fn add_unknown_letter(text: &mut Bytes, command: CommandName, letter: u8) -> Result<(), NoMemory>
    ensures { OnOk result (text.new
        ≡ text.old ++ spec.unknown_letters command (codes "-") (letter ∷ [])) }
{
    add_not_taken(text, command, "-")?;
    text.add(&[letter, b'\''])?;
    add_options_page(text, command)
}

// Adds that a command takes no option of a letter of this word.
fn add_unknown_word(text: &mut Bytes, command: CommandName, word: &str) -> Result<(), NoMemory>
    ensures { OnOk result (text.new ≡ text.old ++ spec.unknown_letters command [] word.now) }
{
    add_not_taken(text, command, "")?;
    add_around(text, "", word, "'")?;
    add_options_page(text, command)
}

// Adds that a word is one position too many.
fn add_extra(text: &mut Bytes, command: CommandName, word: &str) -> Result<(), NoMemory>
    ensures { OnOk result (text.new ≡ text.old ++ spec.extra_position command word.now) }
{
    add_around(text, "one word too many: '", word, "'; ")?;
    add_around(
        text,
        command_text(command),
        " takes ",
        positions_text(command),
    )
}

// Adds that positions are missing.
fn add_few(text: &mut Bytes, command: CommandName) -> Result<(), NoMemory>
    ensures { OnOk result (text.new ≡ text.old ++ spec.few_positions command) }
{
    add_around(
        text,
        command_text(command),
        " needs ",
        positions_text(command),
    )
}

// Adds that the next word of an option is an option.
fn add_option_as_value(text: &mut Bytes, word: &str) -> Result<(), NoMemory>
    ensures { OnOk result (text.new ≡ text.old ++ spec.option_as_value word.now) }
{
    let joined = "' needs a value; one that begins with - is joined to it: ";
    add_around(text, "'", word, joined)?;
    add_around(text, "", word, "=VALUE")
}

// Adds an option by its long name, and what is said of it.
fn add_about(text: &mut Bytes, option: CommandOption, about: &str) -> Result<(), NoMemory>
    ensures { OnOk result (text.new ≡ text.old ++ spec.about_option option about.now) }
{
    add_around(text, "'--", option_text(option), about)
}

// Adds an option by its letter, and what is said of it.
fn add_letter(text: &mut Bytes, letter: u8, about: &str) -> Result<(), NoMemory>
    ensures { OnOk result (text.new ≡ text.old ++ spec.about_letter letter about.now) }
{
    text.add(&[b'\'', b'-', letter])?;
    text.add(about.as_bytes())
}

// Adds that two options do not go together.
fn add_not_together(
    text: &mut Bytes,
    option: CommandOption,
    other: CommandOption,
) -> Result<(), NoMemory>
    ensures { OnOk result (text.new ≡ text.old ++ spec.not_together option other) }
{
    add_about(text, option, "' does not go with '--")?;
    add_around(text, "", option_text(other), "'")
}

// What a cost of a key derivation counts.
fn cost_unit(option: CommandOption) -> &'static str
    ensures { result.now ≡ spec.cost_unit option }
{
    match option {
        CommandOption::Memory => "KiB, as 65536 for 64 MiB",
        CommandOption::Rounds => "rounds of AES or passes of Argon2",
        _ => "lanes",
    }
}

// Adds that a cost of a key derivation is no number of one to ten digits.
fn add_unknown_cost(text: &mut Bytes, option: CommandOption, cost: &str) -> Result<(), NoMemory>
    ensures { OnOk result (text.new ≡ text.old ++ spec.unknown_cost option cost.now) }
{
    add_about(text, option, "' needs a number of ")?;
    text.add(cost_unit(option).as_bytes())?;
    add_around(text, ", in one to ten digits: '", cost, "'")
}

// Adds that the number of a version is none.
fn add_unknown_number(text: &mut Bytes, option: CommandOption, number: &str) -> Result<(), NoMemory>
    ensures { OnOk result (text.new ≡ text.old ++ spec.unknown_number option number.now) }
{
    let wanted = "' needs the number of a version, in one to six digits: '";
    add_about(text, option, wanted)?;
    add_around(text, "", number, "'")
}

// Adds that nothing of an entry is changed.
fn add_nothing_edited(text: &mut Bytes) -> Result<(), NoMemory>
    ensures { OnOk result (text.new ≡ text.old ++ spec.nothing_edited) }
{
    text.add(b"nothing to change: give -t, -u, --url, --notes, -p, -g, --otp, ")?;
    text.add(b"--set, --unset, --tag, --untag or --expires")
}

// Adds that nothing is changed, or that no key is left.
fn add_nothing(text: &mut Bytes, cause: &Cause) -> Result<(), NoMemory>
    ensures { OnOk result (text.new ≡ text.old ++ spec.nothing_text cause.now) }
{
    match cause {
        Cause::NoKeyLeft => text.add(b"no key is left: a database needs a password or a key file"),
        Cause::NoFileChange => {
            text.add(b"nothing to change: give another key, --cipher, --kdf or --version")
        }
        Cause::KeyFileChangesNothing => {
            text.add(b"nothing to change: --set-key-file sets a key file, -k only opens with one")
        }
        _ => add_nothing_edited(text),
    }
}

// Adds what is said of the settings of a file.
fn add_settings(text: &mut Bytes, cause: &Cause) -> Result<(), NoMemory>
    ensures { OnOk result (text.new ≡ text.old ++ spec.settings_text cause.now) }
{
    match cause {
        Cause::UnknownCipher(name) => {
            let names = "': aes or twofish or chacha20";
            add_around(text, "unknown cipher '", name.as_str(), names)
        }
        Cause::UnknownKdf(name) => {
            let names = "': aes or argon2d or argon2id";
            add_around(text, "unknown key derivation '", name.as_str(), names)
        }
        Cause::UnknownVersion(name) => {
            let names = "': 3.1 or 4.0 or 4.1";
            add_around(text, "unknown version '", name.as_str(), names)
        }
        Cause::UnknownCost(option, cost) => add_unknown_cost(text, *option, cost.as_str()),
        Cause::NeedsKdf(option) => add_about(text, *option, "' needs '--kdf'"),
        Cause::NeedsArgon(option) => {
            let kinds = "' needs '--kdf argon2d' or '--kdf argon2id'";
            add_about(text, *option, kinds)
        }
        _ => add_nothing(text, cause),
    }
}

// Adds that a command is given no key for its new database.
fn add_no_new_key(text: &mut Bytes, command: CommandName) -> Result<(), NoMemory>
    ensures { OnOk result (text.new ≡ text.old ++ spec.no_new_key command) }
{
    text.add(command_text(command).as_bytes())?;
    text.add(b" needs a key for the new database: -p, --set-key-file FILE, or --plain for none")
}

// What gives an entry another value of a field that every entry has.
fn standard_giver(name: &str) -> &'static str
    ensures { result.now ≡ spec.standard_giver name.now }
{
    if name == "Title" {
        "-t gives another title"
    } else if name == "UserName" {
        "-u gives another one"
    } else if name == "Password" {
        "-p gives another one"
    } else if name == "URL" {
        "--url gives another one"
    } else {
        "--notes gives others"
    }
}

// Adds that an option does not take a field that every entry has, and what gives that another value.
fn add_standard_field(text: &mut Bytes, option: CommandOption, name: &str) -> Result<(), NoMemory>
    ensures { OnOk result (text.new ≡ text.old ++ spec.standard_field option name.now) }
{
    add_about(text, option, "' does not take '")?;
    add_around(text, "", name, "': ")?;
    text.add(standard_giver(name).as_bytes())
}

// Adds that a text is no tag.
fn add_unknown_tag(text: &mut Bytes, option: CommandOption, tag: &str) -> Result<(), NoMemory>
    ensures { OnOk result (text.new ≡ text.old ++ spec.unknown_tag option tag.now) }
{
    let wanted = "' needs one tag, without ; and , and white space around it: '";
    add_about(text, option, wanted)?;
    add_around(text, "", tag, "'")
}

// Adds what is said of an attachment.
fn add_attachment(text: &mut Bytes, cause: &Cause) -> Result<(), NoMemory>
    ensures { OnOk result (text.new ≡ text.old ++ spec.attachment_text cause.now) }
{
    match cause {
        Cause::FileBesideStdout(file) => {
            add_around(
                text,
                "'--stdout' does not go with FILE: '",
                file.as_str(),
                "'",
            )
        }
        Cause::NoFileOrStdout => text.add(b"attachment-export needs FILE or --stdout"),
        Cause::EmptyAttachmentName => {
            text.add(b"attachment-import needs the name of an attachment")
        }
        _ => add_settings(text, cause),
    }
}

// Adds what is said of an entry's further fields, its tags, and when it expires.
fn add_further(text: &mut Bytes, cause: &Cause) -> Result<(), NoMemory>
    ensures { OnOk result (text.new ≡ text.old ++ spec.further_text cause.now) }
{
    match cause {
        Cause::EmptyFieldName(option) => add_about(text, *option, "' needs the name of a field"),
        Cause::StandardField(option, name) => add_standard_field(text, *option, name.as_str()),
        Cause::UnknownTag(option, tag) => add_unknown_tag(text, *option, tag.as_str()),
        Cause::NeedsSet => text.add(b"'--protect' needs '--set NAME'"),
        Cause::UnknownTime(time) => {
            let wanted = "'--expires' needs a time as 2027-01-31T00:00:00Z, or never: '";
            add_around(text, wanted, time.as_str(), "'")
        }
        _ => add_attachment(text, cause),
    }
}

// Adds what does not go together beside what opens databases, and what is said of versions, of
// generated passwords and of tests.
fn add_profile(text: &mut Bytes, cause: &Cause) -> Result<(), NoMemory>
    ensures { OnOk result (text.new ≡ text.old ++ spec.profile_text cause.now) }
{
    match cause {
        Cause::NotTogether(option, other) => add_not_together(text, *option, *other),
        Cause::NeedsGenerate(option) => add_about(text, *option, "' needs '--generate'"),
        Cause::UnknownNumber(option, number) => {
            add_unknown_number(text, *option, number.as_str())
        }
        Cause::UnknownLength(length) => {
            add_around(text, "unknown length '", length.as_str(), "': 1 to 4096")
        }
        Cause::UnknownCount(count) => {
            add_around(
                text,
                "unknown number of entries '",
                count.as_str(),
                "': 1 to 50000",
            )
        }
        Cause::NoCharacters => text.add(b"no characters are left: --exclude has all of them"),
        _ => add_further(text, cause),
    }
}

// Adds what all words lack together, or what does not go together.
fn add_whole(text: &mut Bytes, cause: &Cause) -> Result<(), NoMemory>
    ensures { OnOk result (text.new ≡ text.old ++ spec.whole_text cause.now) }
{
    match cause {
        Cause::ManySources => {
            text.add(b"a merge has at most 16 sources: merge the others in a second call")
        }
        Cause::NotWithPlain(option) => {
            add_about(
                text,
                *option,
                "' does not go with '--plain': an XML export has no key",
            )
        }
        Cause::NotWithSame(option) => {
            add_about(text, *option, "' does not go with '--same-credentials'")
        }
        Cause::NoKeyFile => text.add(b"'--no-password' needs a key file: -k FILE"),
        Cause::NoKeyFileFrom => text.add(b"'--no-password-from' needs '--key-file-from FILE'"),
        Cause::NoNewKey(command) => add_no_new_key(text, *command),
        Cause::UnknownImportFormat(name) => {
            add_around(
                text,
                "unknown format '",
                name.as_str(),
                "': xml or psafe3 or csv or bitwarden",
            )
        }
        Cause::UnknownExportFormat(name) => {
            add_around(text, "unknown format '", name.as_str(), "': xml or csv")
        }
        _ => add_profile(text, cause),
    }
}

// Adds what is said of an option by its name or its letter.
fn add_by_name(alloc: Global, text: &mut Bytes, cause: &Cause) -> Result<(), NoMemory>
    ensures { OnOk result (text.new ≡ text.old ++ spec.option_line cause.now) }
{
    match cause {
        Cause::TakesNoValue(option) => add_about(text, *option, "' takes no value"),
        Cause::LetterTakesNoValue(letter) => add_letter(text, *letter, "' takes no value"),
        Cause::OptionTwice(option) => add_about(text, *option, "' is given twice"),
        Cause::JoinedValue(letter) => {
            add_letter(text, *letter, "' has a value and needs its own hyphen")
        }
        Cause::UnknownOption(command, name) => {
            add_unknown_option(alloc, text, *command, name.as_str())
        }
        Cause::UnknownLetter(command, letter) => add_unknown_letter(text, *command, *letter),
        Cause::UnknownWord(command, word) => add_unknown_word(text, *command, word.as_str()),
        _ => add_whole(text, cause),
    }
}

// Reports whether a word asks for the version as some programs are asked for it.
fn asks_version(word: &str) -> bool
    ensures { result ≡ spec.asks_version word.now }
{
    word == "-v" || word == "-V" || word == "-version"
}

// Adds the page that is perhaps meant by an option that is the first word.
#[tactic(auto, unfolding(crate::specs::Texts::page_meant))]
fn add_page_meant(text: &mut Bytes, word: &str) -> Result<(), NoMemory>
    ensures { OnOk result (text.new ≡ text.old ++ spec.page_meant word.now) }
{
    if asks_version(word) {
        text.add(b"keepass --version prints the version")
    } else {
        text.add(b"keepass --help lists them")
    }
}

// Adds that an option is the first word.
fn add_option_first(text: &mut Bytes, word: &str) -> Result<(), NoMemory>
    ensures { OnOk result (text.new ≡ text.old ++ spec.option_first word.now) }
{
    add_around(text, "a command comes first, before '", word, "'; ")?;
    add_page_meant(text, word)
}

// Adds why words are no command.
fn add_cause(alloc: Global, text: &mut Bytes, cause: &Cause) -> Result<(), NoMemory>
    ensures { OnOk result (text.new ≡ text.old ++ spec.cause_text cause.now) }
{
    match cause {
        Cause::NoCommand => text.add(b"no command; keepass --help lists them"),
        Cause::OptionFirst(word) => add_option_first(text, word.as_str()),
        Cause::UnknownCommand(word) => add_unknown_command(alloc, text, word.as_str()),
        Cause::FlagsTwice(word) => {
            add_around(text, "a flag of '", word.as_str(), "' is given twice")
        }
        Cause::NoValue(word) => add_around(text, "'", word.as_str(), "' needs a value"),
        Cause::OptionAsValue(word) => add_option_as_value(text, word.as_str()),
        Cause::FewPositions(command) => add_few(text, *command),
        Cause::ExtraPosition(command, word) => add_extra(text, *command, word.as_str()),
        _ => add_by_name(alloc, text, cause),
    }
}

// A byte as it is shown.
fn shown_byte(byte: u8) -> u8
    ensures { result ≡ spec.shown_byte byte }
{
    if byte < 32 || byte == 127 { b'?' } else { byte }
}

// Adds bytes as they are shown.
fn add_shown(line: &mut Bytes, text: &[u8]) -> Result<(), NoMemory>
    ensures { OnOk result (line.new ≡ line.old ++ map spec.shown_byte text.now) }
{
    for byte in text {
        let Ok(()) = line.push(shown_byte(*byte)) else {
            return Err(NoMemory);
        };
    }
    Ok(())
}

// Adds the line that says why words are no command.
fn add_line(alloc: Global, line: &mut Bytes, cause: &Cause) -> Result<(), NoMemory>
    ensures { OnOk result (line.new ≡ line.old ++ spec.cause_line (Some cause.now)) }
{
    let mut text = Bytes::new(alloc);
    let mut made = add_cause(alloc, &mut text, cause);
    if made.is_ok() {
        made = add_shown(line, text.as_slice());
    }
    drop(text);
    made?;
    line.add(b"\n")
}

/// The line that says why words are no command; nothing where there is no cause.
pub(crate) fn cause_line(alloc: Global, cause: Option<Cause>) -> Result<Bytes, NoMemory>
    ensures { IfOk result (λ line. line ≡ spec.cause_line cause) }
{
    let mut line = Bytes::new(alloc);
    let Some(cause) = cause else {
        return Ok(line);
    };
    let made = add_line(alloc, &mut line, &cause);
    drop(cause);
    match made {
        Ok(()) => Ok(line),
        Err(fail) => {
            drop(line);
            Err(fail)
        }
    }
}
