//! What holds of the words of every call. The functions do nothing, and take no memory.
ghost use Rattle.std.specs.Prelude.{◌≡◌, ℕ, List};
ghost use Rattle.cli_options.specs.declared.names.CommandName.{CommandName};
ghost use Rattle.cli_options.specs.declared.forms.CommandOption.{CommandOption};
ghost use Rattle.cli_options.specs.Laws.{IsNameOf};

/// A word names one option of a command: by its letter, or by its long name.
pub fn a_word_names_one_option()
    ensures { (command : CommandName) (f g : CommandOption) (word : List ℕ)
        → IsNameOf command f word → IsNameOf command g word → f ≡ g }
{}
