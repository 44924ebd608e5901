//! What holds of every session: of the words that open it, and of its lines. The functions do nothing,
//! and take no memory.
ghost use Rattle.std.specs.Prelude.{◌≡◌, ◌++◌, ◌∷◌, ℕ, codes, Err, IfSome, List, None, Ok, Some, false, true};
ghost use Rattle.cli_messages.specs.declared.answers.Reason.TheVariants.{WrongWords};
ghost use Rattle.cli_messages.specs.Messages.{refusal_of};
ghost use Rattle.cli_parse.specs.CliNeeds.declared.command.Access.{Access};
ghost use Rattle.cli_parse.specs.CliNeeds.declared.command.Command.{Command};
ghost use Rattle.cli_options.specs.declared.names.CommandName.{CommandName};
ghost use Rattle.cli_options.specs.Options.{command_named};
ghost use Rattle.cli_options.specs.Said.{is_option, with_words};
ghost use Rattle.cli_parse.specs.Words.{command_of};
ghost use Rattle.cli_standalone.specs.Standalone.{standalone_of};
ghost use Rattle.cli_sessions.specs.declared.opening.SessionDatabase.{SessionDatabase};
ghost use Rattle.cli_sessions.specs.Openings.{opening_of};
ghost use Rattle.cli_sessions.specs.SessionLines.{IsOfSession, access_words, at_database, is_line_name, line_command, repeats_access};

/// The command of a line is one of those of lines, over the database of its session, which it opens
/// as the session did. It is quiet exactly where the session or the line is.
pub fn lines_are_of_their_session()
    ensures { (access : Access) (file : List ℕ) (words : List (List ℕ)) (command : Command)
        → line_command access file words ≡ Ok command
        → IsOfSession access file words command }
{}

/// A line is what its words are in a call that says before them how the session opened its database,
/// and names that: if the name is no option, and the line says nothing that its session has settled.
pub fn lines_are_calls()
    ensures { (access : Access) (file name : List ℕ) (words : List (List ℕ)) (command : CommandName)
        → command_named name ≡ Some command → is_line_name command ≡ true
        → is_option file ≡ false
        → IfSome (with_words command words (at_database file))
        (λ said. repeats_access access said ≡ false)
        → line_command access file (name ∷ words)
        ≡ command_of (name ∷ access_words access ++ file ∷ words) }
{}

/// Words that open a session are no command of their own, neither with a database nor without one.
pub fn openings_are_no_commands()
    ensures command { (words : List (List ℕ)) (database : SessionDatabase)
        → opening_of words ≡ Some database
        → command_of words ≡ Err (refusal_of WrongWords (codes "words")) }
    ensures standalone { (words : List (List ℕ)) (database : SessionDatabase)
        → opening_of words ≡ Some database → standalone_of words ≡ None }
{}
