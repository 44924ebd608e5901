//! Raw markup is measured and unescaped, and texts are measured and escaped.

ghost use Rattle.std.specs.Prelude.{◌≡◌, ◌+◌, ◌<◌, ◌≤◌, ◌++◌, [], ◌∷◌, length, drop, min, OnSome};
ghost use Rattle.std.specs.List.{prefix_len};
ghost use Rattle.markup_grammar.specs.Escapes as spec;
ghost use Rattle.text_core.specs.Parts as parts;

use crate::fronts::strip;
use crate::lanes::{LANES, verbatim_lanes};
use secret_core::Secret;

/// A part of raw markup, in the text that it stands for.
#[derive(Drop)]
enum Part<'a> {
    /// Bytes that stand for themselves.
    Plain(&'a [u8]),
    /// The character of a reference, or the line feed of a line end.
    Character(char),
    /// A reference that stands for no character.
    Nothing,
}

/// How many bytes the text has that raw markup stands for: a run of text, or an attribute's value.
pub fn unescaped_len(raw: &str) -> usize
    ensures { result ≡ length (spec.unescaped raw.now) }
{
    let mut rest = raw.as_bytes();
    let mut total = 0;
    while !rest.is_empty() {
        let (part, len) = part_at(rest);
        total += part_len(&part);
        rest = rest.split_at(len).1;
    }
    total
}

/// Puts the text for which raw markup is at the end of `out`, which has room for it: line ends as
/// line feeds, references as their characters (XML 1.0, sections 2.11, 4.1 and 4.6), and everything
/// else as it is. What is no reference of the grammar, though it begins with `&`, stands for
/// nothing.
pub fn unescape(raw: &str, out: &mut Secret)
    requires { length (spec.unescaped raw.now) ≤ out.old.spare }
    ensures bytes { out.new.bytes ≡ out.old.bytes ++ spec.unescaped raw.now }
    ensures spare { out.new.spare + length (spec.unescaped raw.now) ≡ out.old.spare }
{
    let mut rest = raw.as_bytes();
    while !rest.is_empty() {
        let (part, len) = part_at(rest);
        put_part(&part, out);
        rest = rest.split_at(len).1;
    }
}

/// How many bytes are written for a text, where that passes the last `usize` that number.
pub fn escaped_len(text: &str) -> usize
    ensures { result ≡ min (length (spec.escaped text.now)) usize.MAX }
{
    escaped_bytes_len(text.as_bytes())
}

/// Puts a text as it is written in markup at the end of `out`, which has room for it: `&amp;`,
/// `&lt;`, `&gt;`, `&quot;`, and `&#xN;` in upper case for the controls below U+0020 other than tab
/// and line feed.
pub fn escape(text: &str, out: &mut Secret)
    requires { length (spec.escaped text.now) ≤ out.old.spare }
    ensures bytes { out.new.bytes ≡ out.old.bytes ++ spec.escaped text.now }
    ensures spare { out.new.spare + length (spec.escaped text.now) ≡ out.old.spare }
{
    escape_bytes(text.as_bytes(), out);
}

/// As `escaped_len`, of a text by its bytes.
pub fn escaped_bytes_len(text: &[u8]) -> usize
    ensures { result ≡ min (length (spec.escaped text.now)) usize.MAX }
{
    let mut rest = text;
    let mut total: usize = 0;
    'runs: loop {
        let len = verbatim_len(rest);
        total = total.saturating_add(len);
        let Some((escaped, after)) = rest.split_at(len).1.split_first() else {
            return total;
        };
        total = total.saturating_add(written_len(*escaped));
        rest = after;
    }
}

/// As `escape`, of a text by its bytes.
pub fn escape_bytes(text: &[u8], out: &mut Secret)
    requires { length (spec.escaped text.now) ≤ out.old.spare }
    ensures bytes { out.new.bytes ≡ out.old.bytes ++ spec.escaped text.now }
    ensures spare { out.new.spare + length (spec.escaped text.now) ≡ out.old.spare }
{
    let mut rest = text;
    'runs: loop {
        let (verbatim, more) = rest.split_at(verbatim_len(rest));
        out.extend(verbatim);
        let Some((escaped, after)) = more.split_first() else {
            return;
        };
        escape_byte(*escaped, out);
        rest = after;
    }
}

/// The part at the start of raw markup, and how many bytes it takes there.
fn part_at(raw: &[u8]) -> (Part<'_>, usize)
    requires { 0 < length raw.now }
    ensures text { spec.unescaped raw.now ≡ parts.part_text result.0
        ++ spec.unescaped (drop result.1 raw.now) }
    ensures some { 0 < result.1 }
    ensures within { result.1 ≤ length raw.now }
    ensures shorter { length (parts.part_text result.0) ≤ result.1 }
{
    if let Some(rest) = strip(raw, b'&') {
        return reference_at(rest);
    }
    if let Some(rest) = strip(raw, b'\r') {
        return (Part::Character('\n'), line_feed_len(rest) + 1);
    }
    let len = plain_len(raw);
    (Part::Plain(&raw[..len]), len)
}

/// How many bytes of a line end come after its carriage return: one, a line feed, or none.
fn line_feed_len(bytes: &[u8]) -> usize
    ensures text { spec.unescaped_from spec.returned bytes.now
        ≡ spec.unescaped (drop result bytes.now) }
    ensures within { result ≤ length bytes.now }
{
    match strip(bytes, b'\n') {
        Some(_) => 1,
        None => 0,
    }
}

/// The reference whose `&` is before these bytes, and how many bytes it takes with it.
fn reference_at(bytes: &[u8]) -> (Part<'_>, usize)
    ensures text { spec.unescaped_from (spec.reference []) bytes.now
        ≡ parts.part_text result.0 ++ spec.unescaped (drop result.1 (38 ∷ bytes.now)) }
    ensures some { 0 < result.1 }
    ensures within { result.1 ≤ length bytes.now + 1 }
    ensures shorter { length (parts.part_text result.0) ≤ result.1 }
{
    let len = reference_len(bytes);
    if len == bytes.len() {
        return (Part::Nothing, len + 1);
    }
    match referred(&bytes[..len]) {
        Some(character) => (Part::Character(character), len + 2),
        None => (Part::Nothing, len + 2),
    }
}

/// The character that a reference stands for, by what is between its `&` and its `;`.
fn referred(name: &[u8]) -> Option<char>
    ensures value { result ≡ spec.character_of_reference name.now }
    ensures some { OnSome result (2 ≤ length name.now) }
{
    let Some(number) = strip(name, b'#') else {
        return named(name);
    };
    match strip(number, b'x') {
        Some(digits) => numbered(digits, 16),
        None => numbered(number, 10),
    }
}

/// The character of a name.
fn named(name: &[u8]) -> Option<char>
    ensures value { result ≡ spec.by_name name.now }
    ensures some { OnSome result (2 ≤ length name.now) }
{
    if name == b"amp".as_slice() {
        Some('&')
    } else if name == b"lt".as_slice() {
        Some('<')
    } else if name == b"gt".as_slice() {
        Some('>')
    } else if name == b"quot".as_slice() {
        Some('"')
    } else if name == b"apos".as_slice() {
        Some('\'')
    } else {
        None
    }
}

/// The character whose number these digits write.
fn numbered(digits: &[u8], radix: u32) -> Option<char>
    requires some { 2 ≤ radix }
    requires most { radix ≤ 16 }
    ensures value { result ≡ spec.character_by_number radix digits.now }
    ensures some { OnSome result (0 < length digits.now) }
{
    if digits.is_empty() {
        return None;
    }
    let mut number = 0;
    for digit in digits {
        number = number * radix + (*digit as char).to_digit(radix)?;
        if number > char::MAX as u32 {
            return None;
        }
    }
    char::from_u32(number)
}

/// Neither `&` nor a carriage return.
#[inline(always)]
#[tactic(auto, unfolding(crate::specs::Parts::is_plain))]
fn is_plain(byte: u8) -> bool
    ensures { result ≡ parts.is_plain byte }
{
    byte != b'&' && byte != b'\r'
}

/// Not the `;` that ends a reference.
#[inline(always)]
#[tactic(auto, unfolding(crate::specs::Parts::is_inside_reference))]
fn is_inside_reference(byte: u8) -> bool
    ensures { result ≡ parts.is_inside_reference byte }
{
    byte != b';'
}

/// Whether a byte is written as it is.
#[inline(always)]
#[tactic(auto, unfolding(crate::specs::Parts::is_verbatim))]
fn is_verbatim(byte: u8) -> bool
    ensures { result ≡ parts.is_verbatim byte }
{
    byte == b'\t'
        || byte == b'\n'
        || (b' ' <= byte && byte != b'"' && byte != b'&' && byte != b'<' && byte != b'>')
}

/// How many bytes a text begins with that are written as they are.
fn verbatim_len(text: &[u8]) -> usize
    ensures len { result ≡ prefix_len parts.is_verbatim text.now }
    ensures within { result ≤ length text.now }
{
    let mut len = 0;
    while text.len() - len >= LANES {
        let more = verbatim_lanes(text, len);
        if more < LANES {
            return len + more;
        }
        len += LANES;
    }
    verbatim_end(text, len)
}

/// The end of the bytes at a place that are written as they are, byte by byte.
fn verbatim_end(text: &[u8], at: usize) -> usize
    requires { at ≤ length text.now }
    ensures end { result ≡ at + prefix_len parts.is_verbatim (drop at text.now) }
    ensures within { result ≤ length text.now }
{
    let mut end = at;
    while end < text.len() && is_verbatim(text[end]) {
        end += 1;
    }
    end
}

/// How many bytes raw markup begins with that stand for themselves.
fn plain_len(raw: &[u8]) -> usize
    ensures len { result ≡ prefix_len parts.is_plain raw.now }
    ensures within { result ≤ length raw.now }
{
    let mut len = 0;
    while len < raw.len() && is_plain(raw[len]) {
        len += 1;
    }
    len
}

/// How many bytes come before the first `;`.
fn reference_len(bytes: &[u8]) -> usize
    ensures len { result ≡ prefix_len parts.is_inside_reference bytes.now }
    ensures within { result ≤ length bytes.now }
{
    let mut len = 0;
    while len < bytes.len() && is_inside_reference(bytes[len]) {
        len += 1;
    }
    len
}

/// How many bytes a part has in the text.
fn part_len(part: &Part<'_>) -> usize
    ensures { result ≡ length (parts.part_text part.now) }
{
    match part {
        Part::Plain(bytes) => bytes.len(),
        Part::Character(character) => character.len_utf8(),
        Part::Nothing => 0,
    }
}

/// Puts a part's bytes at the end of `out`.
fn put_part(part: &Part<'_>, out: &mut Secret)
    requires { length (parts.part_text part.now) ≤ out.old.spare }
    ensures bytes { out.new.bytes ≡ out.old.bytes ++ parts.part_text part.now }
    ensures spare { out.new.spare + length (parts.part_text part.now) ≡ out.old.spare }
{
    match part {
        Part::Plain(bytes) => out.extend(bytes),
        Part::Character(character) => {
            let mut buffer = [0; 4];
            out.extend(character.encode_utf8(&mut buffer).as_bytes());
        }
        Part::Nothing => {}
    }
}

/// How many bytes are written for a byte.
#[tactic(auto, unfolding(markup_grammar::specs::Escapes::escaped_byte))]
fn written_len(byte: u8) -> usize
    ensures { result ≡ length (spec.escaped_byte byte) }
{
    match byte {
        b'&' => 5,
        b'<' | b'>' => 4,
        b'"' => 6,
        b'\t' | b'\n' => 1,
        0..=15 => 5,
        16..=31 => 6,
        _ => 1,
    }
}

/// Puts a byte at the end of `out` as it is written.
#[tactic(auto, unfolding(markup_grammar::specs::Escapes::escaped_byte))]
fn escape_byte(byte: u8, out: &mut Secret)
    requires { length (spec.escaped_byte byte) ≤ out.old.spare }
    ensures bytes { out.new.bytes ≡ out.old.bytes ++ spec.escaped_byte byte }
    ensures spare { out.new.spare + length (spec.escaped_byte byte) ≡ out.old.spare }
{
    match byte {
        b'&' => out.extend(b"&amp;"),
        b'<' => out.extend(b"&lt;"),
        b'>' => out.extend(b"&gt;"),
        b'"' => out.extend(b"&quot;"),
        b'\t' | b'\n' => out.push(byte),
        0..=31 => escape_control(byte, out),
        _ => out.push(byte),
    }
}

/// Puts a byte below 32 at the end of `out` by its number.
fn escape_control(byte: u8, out: &mut Secret)
    requires below { byte < 32 }
    requires room { length (spec.numbered_control byte) ≤ out.old.spare }
    ensures bytes { out.new.bytes ≡ out.old.bytes ++ spec.numbered_control byte }
    ensures spare { out.new.spare + length (spec.numbered_control byte) ≡ out.old.spare }
{
    out.extend(b"&#x");
    if byte < 16 {
        out.push(upper_digit(byte));
    } else {
        out.push(b'1');
        out.push(upper_digit(byte - 16));
    }
    out.push(b';');
}

/// The digit that writes a number below 16, in upper case.
fn upper_digit(number: u8) -> u8
    requires { number < 16 }
    ensures { result ≡ spec.upper_digit number }
{
    if number < 10 {
        b'0' + number
    } else {
        b'A' + (number - 10)
    }
}
