//! Whether the password of an entry is to be generated.
ghost use Rattle.std.specs.Prelude.{◌≡◌};
ghost use Rattle.cli_options.specs.SaidWords.{Gives, said_seen};
ghost use Rattle.cli_profiles.specs.Generating as spec;

use crate::profiles::{PasswordProfile, has_class, profile_in};
use cli_options::{CommandOption, SaidWords, WordsFail, is_given};
use std::alloc::Global;

/// Reports whether an option of a profile is given.
pub fn has_profile_option(said: &SaidWords<'_, '_>) -> bool
    ensures { result ≡ spec.has_profile_option (said_seen said.now) }
{
    is_given(said, CommandOption::Length)
        || is_given(said, CommandOption::Exclude)
        || has_class(said)
}

/// The profile by which the password of an entry is generated, where that is asked for.
pub fn generated_in(
    alloc: Global,
    said: &SaidWords<'_, '_>,
) -> Result<Option<PasswordProfile>, WordsFail>
    ensures { Gives (λ profile. profile) result (spec.generated_in (said_seen said.now)) }
{
    if is_given(said, CommandOption::Generate) {
        if is_given(said, CommandOption::EntryPassword) {
            return Err(WordsFail::Wrong);
        }
        return Ok(Some(profile_in(alloc, said)?));
    }
    if has_profile_option(said) {
        return Err(WordsFail::Wrong);
    }
    Ok(None)
}
