//! The law that passwords are generated under a condition on the dice. Each function has a law as its
//! contract; it does nothing, and takes no memory.

ghost use Rattle.generation_laws.specs.Conditions.{PasswordsAreChosen};
ghost use Rattle.generation_laws.specs.Example.{ExampleDice};

/// Dice choose a password if they give 128 bytes for each of its characters, and of any 128 bytes of
/// theirs, one after the other, one is below the greatest multiple of the alphabet's length up to
/// 256.
pub fn passwords_are_chosen()
    ensures { PasswordsAreChosen }
{}

/// The law speaks of something: there are such dice for a password of two letters.
pub fn example_dice()
    ensures { ExampleDice }
{}
