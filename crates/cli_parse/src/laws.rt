//! What holds of the words of every call. The functions do nothing, and take no memory.
ghost use Rattle.std.specs.Prelude.{◌≡◌, ◌≢◌, ◌++◌, ◌∷◌, ℕ, List, None, Some, codes, false, true};
ghost use Rattle.cli_options.specs.declared.names.CommandName.{CommandName};
ghost use Rattle.cli_options.specs.declared.forms.CommandOption.{CommandOption};
ghost use Rattle.cli_options.specs.Laws.{IsFlagWord, SayOption, are_flag_letters, lack_end};
ghost use Rattle.cli_options.specs.Options.{command_named};
ghost use Rattle.cli_options.specs.Said.{Said, nothing_said, with_words};
ghost use Rattle.cli_parse.specs.Words.{command_of, command_saying, or_wrong_words};

/// The order of flags does not matter: two flags beside each other, wherever they are before
/// `--`, may be exchanged.
pub fn flags_have_no_order()
    ensures { (name : List ℕ) (command : CommandName) (before after : List (List ℕ)) (a b : List ℕ)
        → command_named name ≡ Some command → lack_end before ≡ true
        → IsFlagWord command a → IsFlagWord command b
        → command_of (name ∷ before ++ a ∷ b ∷ after)
        ≡ command_of (name ∷ before ++ b ∷ a ∷ after) }
{}

/// The order of options does not matter: two different options beside each other, each with its
/// value where it has one, may be exchanged wherever they are before `--`.
pub fn options_have_no_order()
    ensures { (name : List ℕ) (command : CommandName) (before after a b : List (List ℕ))
        (f g : CommandOption) → command_named name ≡ Some command → lack_end before ≡ true
        → SayOption command f a → SayOption command g b → f ≢ g
        → command_of (name ∷ before ++ (a ++ (b ++ after)))
        ≡ command_of (name ∷ before ++ (b ++ (a ++ after))) }
{}

/// Flags joined in one word are the same flags in two words.
pub fn joined_flags_are_separate_flags()
    ensures { (name : List ℕ) (command : CommandName) (before after : List (List ℕ)) (a b : List ℕ)
        → command_named name ≡ Some command → lack_end before ≡ true
        → are_flag_letters command a ≡ true → are_flag_letters command b ≡ true
        → command_of (name ∷ before ++ (codes "-" ++ a ++ b) ∷ after)
        ≡ command_of (name ∷ before ++ (codes "-" ++ a) ∷ (codes "-" ++ b) ∷ after) }
{}

/// What follows `--` is a position, whatever it begins with.
pub fn words_after_end_are_positions()
    ensures { (name : List ℕ) (command : CommandName) (before words : List (List ℕ)) (said : Said)
        → command_named name ≡ Some command
        → with_words command before nothing_said ≡ Some said
        → said.due ≡ None → said.ended ≡ false
        → command_of (name ∷ before ++ codes "--" ∷ words)
        ≡ or_wrong_words (command_saying command
        (record said { ended = true; positions = said.positions ++ words })) }
{}
