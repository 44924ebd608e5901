//! Texts cut at a byte, and decimal numbers.

ghost use Rattle.std.specs.Prelude.{◌≡◌, MatchOption, nat_eq, position};
ghost use Rattle.otp_core.specs.Reading as spec;

// The place of the first byte like this.
fn place(text: &[u8], mark: u8) -> Option<usize>
    ensures { result ≡ position (λ b. nat_eq b mark) text.now }
{
    text.iter().position(|b| *b == mark)
}

/// What stands before the first byte like this: all of the text if there is none.
pub(crate) fn prefix_before(text: &[u8], mark: u8) -> &[u8]
    ensures { result.now ≡ spec.prefix_before mark text.now }
{
    match place(text, mark) {
        Some(i) => &text[..i],
        None => text,
    }
}

/// What stands after the first byte like this.
pub(crate) fn suffix_after(text: &[u8], mark: u8) -> Option<&[u8]>
    ensures { MatchOption result (spec.suffix_after mark text.now ≡ None)
        (λ rest. spec.suffix_after mark text.now ≡ Some rest.now) }
{
    match place(text, mark) {
        Some(i) => Some(&text[i + 1..]),
        None => None,
    }
}

/// The number of one to ten decimal digits.
pub(crate) fn decimal(text: &[u8]) -> Option<u64>
    ensures { result ≡ spec.decimal text.now }
{
    if text.is_empty() || text.len() > 10 {
        return None;
    }
    let mut number: u64 = 0;
    for b in text {
        if *b < b'0' || *b > b'9' {
            return None;
        }
        number = number * 10 + u64::from(*b - b'0');
    }
    Some(number)
}
