//! The texts of the pages. Made by docs/make-words from docs/commands.toml.
ghost use Rattle.std.specs.Prelude.{◌≡◌};
ghost use Rattle.cli_messages.specs.Texts as spec;

/// How the program is called.
pub(crate) fn help() -> &'static str
    ensures { result.now ≡ spec.help }
{
    "keepass lists, shows, changes and merges KeePass databases.

keepass ls [OPTION..] DATABASE [GROUP]
    Lists the titles of a group's entries and the names of its groups; the root
    group where none is named.
    -R, --recursive
        The groups inside are listed too, each indented by two spaces more.
    -f, --flatten
        With --recursive: each line begins with its path in place of spaces.
    --ids
        Each name comes after the id of its node, by which it can be named.

keepass show [OPTION..] DATABASE ENTRY
    Shows an entry's values. A protected value is shown as PROTECTED. References
    to other entries are replaced by the values that they name.
    -s, --show-protected
        Protected values are shown as they are.
    --all
        All fields of the entry are shown.
    --show-attachments
        The names and the sizes of the entry's attachments are shown too.
    -a NAME, --attributes NAME
        The value of this field alone is shown, a protected one too. May be
        given several times.
    -t, --totp
        The entry's one-time code is shown and nothing else, or after the values
        of --attributes. Goes with neither --all nor --show-attachments.
    --at NUMBER
        The version of this number is shown, as history lists them: 0 is the
        current one.

keepass history [OPTION..] DATABASE ENTRY
    Lists the versions of an entry: the number of each, from 0, which is the
    current one, when it was modified, and what differs from the next older one.
    No value is printed.

keepass search [OPTION..] DATABASE TERM
    Lists the paths of the entries that match all terms of TERM.

keepass add [OPTION..] DATABASE ENTRY
    Adds an entry.
    -u NAME, --username NAME
        The name of the user.
    --url URL
        The address.
    --notes TEXT
        The notes.
    -p, --password-prompt
        The entry's password is the line of standard input after the one of the
        database.
    -g, --generate
        The entry's password is generated, by the six options below. Does not go
        with --password-prompt.
    -L NUMBER, --length NUMBER
        How many characters the password has: 1 to 4096, 32 where nothing is
        said.
    -l, --lower
        Small letters are among its characters.
    -U, --upper
        Capital letters are among them.
    -n, --numeric
        Digits are among them.
    -s, --special
        Signs are among them: the 32 of ASCII.
    -x CHARS, --exclude CHARS
        None of these characters is among them.

keepass edit [OPTION..] DATABASE ENTRY
    Gives an entry other values, fields of its own, tags or an expiry, and keeps
    what it was before in its history.
    -t TITLE, --title TITLE
        Another title.
    -u NAME, --username NAME
        The name of the user.
    --url URL
        The address.
    --notes TEXT
        The notes.
    -p, --password-prompt
        The entry's password is the line of standard input after the one of the
        database.
    -g, --generate
        The entry's password is generated, by the six options below. Does not go
        with --password-prompt.
    -L NUMBER, --length NUMBER
        How many characters the password has: 1 to 4096, 32 where nothing is
        said.
    -l, --lower
        Small letters are among its characters.
    -U, --upper
        Capital letters are among them.
    -n, --numeric
        Digits are among them.
    -s, --special
        Signs are among them: the 32 of ASCII.
    -x CHARS, --exclude CHARS
        None of these characters is among them.
    --otp
        The entry's one-time code is a line of standard input, after those of
        passwords: an otpauth URI. An empty line takes it away.
    --set NAME
        The field of this name gets a value: a line of standard input, after all
        lines above, in the order of these options. May be given several times.
    --protect
        The fields of --set are hidden from now on.
    --unset NAME
        The field of this name is taken away. May be given several times.
    --tag TAG
        The entry gets this tag, unless it has it. May be given several times.
    --untag TAG
        The entry loses this tag, if it has it. May be given several times.
    --expires TIME
        When the entry expires: a time as 2027-01-31T00:00:00Z, or never.
    --restore NUMBER
        The version of this number, as history lists them, becomes the current
        one. Goes with none of the options above.

keepass mv [OPTION..] DATABASE NODE GROUP
    Moves an entry into a group, or a group where NODE ends with a slash.

keepass rm [OPTION..] DATABASE ENTRY
    Puts an entry into the bin. One that is in the bin is deleted, and each is
    where the bin is switched off.

keepass mkdir [OPTION..] DATABASE GROUP
    Makes a group.

keepass rmdir [OPTION..] DATABASE GROUP
    Puts a group into the bin with all that is in it. One that is in the bin is
    deleted, and each is where the bin is switched off.

keepass merge [OPTION..] TARGET SOURCE...
    Merges one to sixteen other copies of a database into TARGET, which is
    written anew. The sources stay as they are.
    -s, --same-credentials
        The sources are opened with the password and the key file of the target.
    -d, --dry-run
        What the merge would change is reported, and nothing is written.
    --details
        The report says what a person has to look at: it names nodes by their
        paths, says where a moved one was, which entries of TARGET show another
        version now though a source did not have the one that they showed, and
        how much changed.
    --key-file-from FILE
        The sources need this key file.
    --no-password-from
        The sources have no password. Needs --key-file-from.

keepass import [OPTION..] SOURCE DATABASE
    Makes DATABASE, which must not be there yet, from SOURCE. It needs a
    password or a key file, unless --plain is given. A file of Password Safe is
    opened with a line of standard input.
    --format FORMAT
        What SOURCE is: a document as XML (xml, the default), a file of Password
        Safe 3 (psafe3), a table (csv), or an unencrypted export of Bitwarden in
        JSON (bitwarden).
    -p, --set-password
        DATABASE gets a password: the line of standard input after the one of
        SOURCE, if that has one.
    --set-key-file FILE
        DATABASE is opened with this key file from now on.

keepass db-create [OPTION..] DATABASE
    Makes DATABASE, which must not be there yet: an empty database. It needs a
    password or a key file, unless --plain is given.
    -p, --set-password
        DATABASE gets a password: the line of standard input.
    --set-key-file FILE
        DATABASE is opened with this key file from now on.
    --cipher CIPHER
        The cipher of the file.
    --kdf KDF
        How the key of the file is derived: by 100000 rounds of AES (aes), or by
        Argon2 (argon2d, argon2id) in 10 passes over 65536 KiB with 2 lanes, but
        for what the next three say.
    --rounds NUMBER
        How many rounds of AES, or passes of Argon2. Needs --kdf.
    --memory KIB
        The memory of Argon2 in KiB. Needs --kdf argon2d or argon2id.
    --lanes NUMBER
        How many lanes Argon2 has. Needs --kdf argon2d or argon2id.
    --name NAME
        The name of the database and of its root group.

keepass export [OPTION..] DATABASE
    Prints the whole database without its protection: the passwords in it can be
    read.
    -f FORMAT, --format FORMAT
        What is printed: the document as XML (xml, the default), or a table
        (csv).

keepass db-edit [OPTION..] DATABASE
    Gives the file of a database another key, cipher, key derivation or version.
    What is in it stays. At least one of them must be given.
    -p, --set-password
        DATABASE gets another password: the line of standard input after the one
        of its old password, if it has one.
    --set-key-file FILE
        DATABASE is opened with this key file from now on.
    --unset-password
        DATABASE has no password from now on. Then it needs a key file.
    --unset-key-file
        DATABASE needs no key file from now on. Then it needs a password.
    --cipher CIPHER
        The cipher of the file.
    --kdf KDF
        How the key of the file is derived: by 100000 rounds of AES (aes), or by
        Argon2 (argon2d, argon2id) in 10 passes over 65536 KiB with 2 lanes, but
        for what the next three say.
    --rounds NUMBER
        How many rounds of AES, or passes of Argon2. Needs --kdf.
    --memory KIB
        The memory of Argon2 in KiB. Needs --kdf argon2d or argon2id.
    --lanes NUMBER
        How many lanes Argon2 has. Needs --kdf argon2d or argon2id.
    --version VERSION
        The version of the format of the file. One that is too old for what is
        in DATABASE, or for Argon2, is refused.

keepass db-info [OPTION..] DATABASE
    Prints what the database is called, how it is protected, and how much is in
    it.

keepass open [OPTION..] DATABASE
    Opens DATABASE once, and carries out a command for each line of standard
    input after its password: ls, show, search, add, edit, mv, rm, mkdir, rmdir
    and db-info, written without DATABASE and without what opens it.

keepass generate [OPTION..]
    Prints a password that is chosen at random. It opens no database and reads
    no line.
    -L NUMBER, --length NUMBER
        How many characters the password has: 1 to 4096, 32 where nothing is
        said.
    -l, --lower
        Small letters are among its characters.
    -U, --upper
        Capital letters are among them.
    -n, --numeric
        Digits are among them.
    -s, --special
        Signs are among them: the 32 of ASCII.
    -x CHARS, --exclude CHARS
        None of these characters is among them.

keepass selftest COUNT
    Merges two made copies of a database of COUNT entries both ways, and prints
    what comes of it. It opens no database, reads no line and draws nothing.

keepass attachment-export [OPTION..] DATABASE ENTRY NAME [FILE]
    Puts the attachment of this name into FILE, which must not be there yet, or
    prints it. One of FILE and --stdout is needed.
    --stdout
        The bytes of the attachment are printed and nothing else. Does not go
        with FILE.

keepass attachment-import [OPTION..] DATABASE ENTRY NAME FILE
    Attaches the bytes of FILE to an entry under this name, and keeps what the
    entry was before in its history. FILE stays as it is.
    -f, --force
        An attachment of this name is replaced where the entry has one, and
        stays hidden or not.

keepass attachment-rm [OPTION..] DATABASE ENTRY NAME
    Takes the attachment of this name away from an entry, and keeps what the
    entry was before in its history.

Options of every command but generate, selftest:
    -q, --quiet
        Nothing is reported.

Options of every command but db-edit, generate, selftest:
    --plain
        The database is a plain XML export, which has no password and no key
        file.

Options of every command but import, db-create, generate, selftest:
    -k FILE, --key-file FILE
        The database needs this key file besides its password.
    --no-password
        The database has no password: no line is read for it. Needs a key file.

keepass --help
    Prints how the program is called.
keepass --version
    Prints the version of the program.
keepass --why WORDS..
    Prints in a line why WORDS are no command, and nothing where they are one.

Exit status:
   0  Done.
   1  The words are no command, or a term of a search is empty.
   2  Nothing has this path, this name or this number, or it is there already,
      or the entry has no one-time code, or what was asked for is not allowed.
   3  The password or the key file is wrong, or the file was changed.
   4  The file or a one-time code is malformed, or a line of the input is not
      UTF-8.
   5  The file has a version, a cipher or a compression that is not supported,
      or a one-time code is of an unknown kind.
   6  The databases cannot be merged.
   7  A file is missing, or could not be read or written.
   8  A limit was passed.
   9  Memory ran out.
  10  The output could not be written.
  11  The input could not be read, or no random bytes could be drawn.
  12  A line is missing on standard input: that of a password, of a one-time
      code or of a field.
"
}

/// The program and its version.
pub(crate) fn version() -> &'static str
    ensures { result.now ≡ spec.version }
{
    "keepass 0.1.0
"
}
