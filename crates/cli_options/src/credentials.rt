//! Whether what is said to open databases fits them.
ghost use Rattle.std.specs.Prelude.{◌≡◌};
ghost use Rattle.cli_options.specs.Credentials as spec;
ghost use Rattle.cli_options.specs.SaidWords.{said_seen};

use crate::CommandOption;
use crate::said::{SaidWords, is_given};

// Reports whether what opens a database fits it.
fn is_fit(plain: bool, no_password: bool, has_key: bool) -> bool
    ensures { result ≡ spec.is_fit plain no_password has_key }
{
    if plain {
        !(no_password || has_key)
    } else {
        !no_password || has_key
    }
}

// Reports whether what opens the sources of a merge fits them.
fn is_fit_from(said: &SaidWords<'_, '_>) -> bool
    ensures { result ≡ spec.is_fit_from (said_seen said.now) }
{
    let plain = is_given(said, CommandOption::Plain);
    let no_password = is_given(said, CommandOption::NoPasswordFrom);
    let has_key = is_given(said, CommandOption::KeyFileFrom);
    if is_given(said, CommandOption::SameCredentials) {
        !(plain || no_password || has_key)
    } else {
        is_fit(plain, no_password, has_key)
    }
}

/// Reports whether what opens a new database fits it.
pub fn is_fit_new(said: &SaidWords<'_, '_>) -> bool
    ensures { result ≡ spec.is_fit_new (said_seen said.now) }
{
    let has_password = is_given(said, CommandOption::SetPassword);
    let has_key = is_given(said, CommandOption::SetKeyFile);
    if is_given(said, CommandOption::Plain) {
        !(has_password || has_key)
    } else {
        has_password || has_key
    }
}

// Reports whether a part of a key is there after a change.
fn has_part(set: bool, unset: bool, before: bool) -> bool
    ensures { result ≡ spec.has_part set unset before }
{
    set || (before && !unset)
}

/// Reports whether what changes the key of a database fits it.
pub fn is_fit_change(said: &SaidWords<'_, '_>) -> bool
    ensures { result ≡ spec.is_fit_change (said_seen said.now) }
{
    let password = is_given(said, CommandOption::SetPassword);
    let no_password = is_given(said, CommandOption::UnsetPassword);
    let key_file = is_given(said, CommandOption::SetKeyFile);
    let no_key_file = is_given(said, CommandOption::UnsetKeyFile);
    let had_password = !is_given(said, CommandOption::NoPassword);
    let had_key_file = is_given(said, CommandOption::KeyFile);
    !(password && no_password)
        && !(key_file && no_key_file)
        && (has_part(password, no_password, had_password)
            || has_part(key_file, no_key_file, had_key_file))
}

/// Reports whether nothing is due, and what opens each database fits it.
pub fn is_whole(said: &SaidWords<'_, '_>) -> bool
    ensures { result ≡ spec.is_whole (said_seen said.now) }
{
    let plain = is_given(said, CommandOption::Plain);
    let no_password = is_given(said, CommandOption::NoPassword);
    let has_key = is_given(said, CommandOption::KeyFile);
    said.due.is_none() && is_fit(plain, no_password, has_key) && is_fit_from(said)
}
