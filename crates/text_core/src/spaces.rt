//! White space at the ends of texts, and words in any case of their letters.

ghost use Rattle.markup_grammar.specs.Bytes as bytes_of;
ghost use Rattle.std.specs.List.{prefix_len, suffix_len};
ghost use Rattle.std.specs.Prelude.{◌≡◌, ◌≤◌, length};
ghost use Rattle.std.specs.Str.{str_eq_ignore_ascii_case};
ghost use Rattle.text_forms.specs.Texts as texts;

/// Whether a byte is white space: tab, line feed, carriage return or space.
#[inline(always)]
#[tactic(auto, unfolding(markup_grammar::specs::Bytes::is_space))]
pub fn is_space(byte: u8) -> bool
    ensures { result ≡ bytes_of.is_space byte }
{
    byte == b'\t' || byte == b'\n' || byte == b'\r' || byte == b' '
}

/// The length of the white space with which a text begins.
fn leading_space(text: &[u8]) -> usize
    ensures len { result ≡ prefix_len bytes_of.is_space text.now }
    ensures within { result ≤ length text.now }
{
    text.iter().take_while(|byte| is_space(**byte)).count()
}

/// The length of the white space with which a text ends.
fn trailing_space(text: &[u8]) -> usize
    ensures len { result ≡ suffix_len bytes_of.is_space text.now }
    ensures within { result ≤ length text.now }
{
    text.iter()
        .rev()
        .take_while(|byte| is_space(**byte))
        .count()
}

/// The text without white space at its ends.
#[tactic(auto, unfolding(text_forms::specs::Texts::trim))]
pub fn trim(text: &[u8]) -> &[u8]
    ensures { result.now ≡ texts.trim text.now }
{
    let rest = &text[leading_space(text)..];
    &rest[..rest.len() - trailing_space(rest)]
}

/// Whether a text is this word, in any case of its letters.
pub fn is_word(text: &[u8], word: &[u8]) -> bool
    ensures { result ≡ str_eq_ignore_ascii_case text.now word.now }
{
    text.eq_ignore_ascii_case(word)
}
