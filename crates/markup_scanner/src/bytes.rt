//! The bytes of a text by what they may be part of. A byte from 128 on is part of a character past
//! ASCII.

ghost use Rattle.std.specs.Prelude.{◌≡◌};
ghost use Rattle.markup_grammar.specs.Bytes as bytes_of;

/// White space: tab, line feed, carriage return and space.
#[inline(always)]
#[tactic(auto, unfolding(markup_grammar::specs::Bytes::is_space))]
pub(crate) fn is_space(byte: u8) -> bool
    ensures { result ≡ bytes_of.is_space byte }
{
    byte == b'\t' || byte == b'\n' || byte == b'\r' || byte == b' '
}

/// What a name may begin with: a letter, `_`, `:`, or a character past ASCII.
#[inline(always)]
#[tactic(auto, unfolding(markup_grammar::specs::Bytes::begins_name))]
pub(crate) fn begins_name(byte: u8) -> bool
    ensures { result ≡ bytes_of.begins_name byte }
{
    (b'A' <= byte && byte <= b'Z')
        || (b'a' <= byte && byte <= b'z')
        || byte == b'_'
        || byte == b':'
        || 128 <= byte
}

/// What a name may go on with: all that it may begin with, digits, `-` and `.`.
#[inline(always)]
#[tactic(auto, unfolding(markup_grammar::specs::Bytes::is_name_byte, markup_grammar::specs::Bytes::is_digit))]
pub(crate) fn is_in_name(byte: u8) -> bool
    ensures { result ≡ bytes_of.is_name_byte byte }
{
    begins_name(byte) || (b'0' <= byte && byte <= b'9') || byte == b'-' || byte == b'.'
}

/// What stands for itself in text: all but `<`, `&` and the controls that are no white space.
#[inline(always)]
#[tactic(auto, unfolding(markup_grammar::specs::Bytes::is_text))]
pub(crate) fn is_plain(byte: u8) -> bool
    ensures { result ≡ bytes_of.is_text byte }
{
    is_space(byte) || (b' ' <= byte && byte != b'&' && byte != b'<')
}

/// What stands for itself in a value between these quotes: the same but for the quote.
#[inline(always)]
#[tactic(auto, unfolding(markup_grammar::specs::Bytes::is_value))]
pub(crate) fn is_quoted(quote: u8, byte: u8) -> bool
    ensures { result ≡ bytes_of.is_value quote byte }
{
    is_plain(byte) && byte != quote
}
