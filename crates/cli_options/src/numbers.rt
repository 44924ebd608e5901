//! Numbers that values of options are.
ghost use Rattle.std.specs.Prelude.{◌≡◌, ◌≤◌};
ghost use Rattle.cli_options.specs.Numbers as spec;

/// The number of one or more decimal digits, at most so many.
pub fn number_of(most: usize, text: &str) -> Option<u64>
    requires { most ≤ 19 }
    ensures { result ≡ spec.number_of most text.now }
{
    let digits = text.as_bytes();
    if digits.is_empty() || digits.len() > most {
        return None;
    }
    let mut number: u64 = 0;
    for b in digits {
        if *b < b'0' || *b > b'9' {
            return None;
        }
        number = number * 10 + u64::from(*b - b'0');
    }
    Some(number)
}
