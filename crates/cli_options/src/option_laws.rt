//! What holds of the options of every command. The functions do nothing, and take no memory.
ghost use Rattle.std.specs.Prelude.{◌≡◌, ℕ, All, List};
ghost use Rattle.cli_options.specs.declared.names.CommandName.{CommandName};
ghost use Rattle.cli_options.specs.declared.forms.CommandOption.{CommandOption};
ghost use Rattle.cli_options.specs.Options.{options_of};
ghost use Rattle.cli_options.specs.Taken.{IsFound, TakesLetter, TakesName};

/// Each option that a command takes is found by its long name, and by its letter where it has one.
pub fn options_are_found()
    ensures { (command : CommandName) → All (IsFound command) (options_of command) }
{}

/// No two options that a command takes have one letter.
pub fn letters_differ()
    ensures { (command : CommandName) (letter : ℕ) (f g : CommandOption)
        → TakesLetter command letter f → TakesLetter command letter g → f ≡ g }
{}

/// No two options that a command takes have one long name.
pub fn names_differ()
    ensures { (command : CommandName) (name : List ℕ) (f g : CommandOption)
        → TakesName command name f → TakesName command name g → f ≡ g }
{}
