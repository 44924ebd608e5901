//! How many entries a test of the program itself has.
ghost use Rattle.std.specs.Prelude.{◌≡◌};
ghost use Rattle.cli_standalone.specs.Standalone as spec;

use cli_options::number_of;

// The number, if a test can have so many entries.
fn as_count(number: u64) -> Option<u32>
    ensures { result ≡ spec.as_count number }
{
    if number >= 1 && number <= 50_000 {
        Some(number as u32)
    } else {
        None
    }
}

/// The number of entries that a text of one to six digits is: 1 to 50,000.
pub fn test_count(text: &str) -> Option<u32>
    ensures { result ≡ spec.test_count text.now }
{
    match number_of(6, text) {
        Some(number) => as_count(number),
        None => None,
    }
}
