//! The page that the words of a call ask for.
ghost use Rattle.std.specs.Prelude.{◌≡◌, map, option_map, string_bytes};
ghost use Rattle.cli_messages.specs.Pages as spec;

use crate::texts::{help, version};

// The page of a word.
fn page_named(word: &str) -> Option<&'static str>
    ensures { option_map (λ page. page.now) result ≡ spec.page_named word.now }
{
    match word {
        "--help" => Some(help()),
        "--version" => Some(version()),
        _ => None,
    }
}

/// The page that the words ask for: the help or the version where one word alone does, and none
/// where any other word is beside it.
pub fn page_of(words: &[String]) -> Option<&'static str>
    ensures { option_map (λ page. page.now) result ≡ spec.page_of (map string_bytes words.now) }
{
    match words {
        [word] => page_named(word.as_str()),
        _ => None,
    }
}
