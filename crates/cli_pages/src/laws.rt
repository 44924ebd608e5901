//! What holds of the page that says why words are no command, and of words that ask for no page. The
//! functions do nothing, and take no memory.
ghost use Rattle.std.specs.Prelude.{◌≡◌, ◌≢◌, ℕ, List, [], None, Ok, Some};
ghost use Rattle.cli_pages.specs.Laws.{IsCommandOrPage, IsLine};
ghost use Rattle.cli_pages.specs.Pages.{page_of, why};
ghost use Rattle.cli_standalone.specs.declared.standalone.Standalone.{Standalone};
ghost use Rattle.cli_standalone.specs.Standalone.{standalone_of};
ghost use Rattle.cli_parse.specs.Words.{command_of};
ghost use Rattle.cli_needs.specs.declared.command.Command.{Command};
ghost use Rattle.cli_sessions.specs.declared.opening.SessionDatabase.{SessionDatabase};
ghost use Rattle.cli_sessions.specs.Openings.{opening_of};

/// Nothing is said of words that are a command, with a database or without one, that open a session,
/// or that ask for a page.
pub fn commands_and_pages_have_no_line()
    ensures command { (words : List (List ℕ)) (command : Command) → command_of words ≡ Ok command
        → why words ≡ [] }
    ensures page { (words : List (List ℕ)) (page : List ℕ) → page_of words ≡ Some page
        → why words ≡ [] }
    ensures standalone { (words : List (List ℕ)) (standalone : Standalone)
        → standalone_of words ≡ Some standalone → why words ≡ [] }
    ensures opening { (words : List (List ℕ)) (database : SessionDatabase)
        → opening_of words ≡ Some database → why words ≡ [] }
{}

/// Words of which nothing is said are a command, with a database or without one, or open a session,
/// or ask for a page.
pub fn words_without_a_line_ask_for_something()
    ensures { (words : List (List ℕ)) → why words ≡ [] → IsCommandOrPage words }
{}

/// What is said is one line, without control characters but the line feed at its end.
pub fn the_line_is_one_line()
    ensures { (words : List (List ℕ)) → why words ≢ [] → IsLine (why words) }
{}

/// Words that open a session ask for no page.
pub fn openings_ask_for_no_page()
    ensures { (words : List (List ℕ)) (database : SessionDatabase)
        → opening_of words ≡ Some database → page_of words ≡ None }
{}
