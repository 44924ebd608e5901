//! Comments and instructions, which give no piece.

ghost use Rattle.std.specs.Prelude.{◌≡◌, ◌≤◌, ◌+◌, ◌&&◌, ◌==◌, ◌<◌, ◌^◌, false, nat_le, if◌then◌else◌, length, drop, IfOk};
ghost use Rattle.markup_grammar.specs.Bytes as bytes_of;
ghost use Rattle.markup_grammar.specs.Machine.{Level, bang, between, in_comment, in_instruction, no_dash};
ghost use Rattle.markup_scanner.specs.Asides.{EndsTag, EndsTagOrStays, NoAside, IsOutside};
ghost use Rattle.markup_scanner.specs.Left.{FailsFirst};
ghost use Rattle.markup_scanner.specs.Scans.{Leads, EndsWithin};

use crate::run::{past, space_end};

/// The end of the comments and instructions that are at a place, or the first place at which one of
/// them is none.
pub(crate) fn asides_end(text: &[u8], at: usize) -> Result<usize, usize>
    requires { at ≤ length text.now }
    ensures asides { (level : Level) → Leads text.now (between level) at (λ end. between level)
        result }
    ensures within { EndsWithin text.now at result }
    ensures closes { IfOk result (λ end. EndsTagOrStays text.now at end) }
    ensures all { IfOk result (λ end. NoAside text.now end) }
{
    let mut place = at;
    'asides: loop {
        let next = aside_end(text, place)?;
        if next == place {
            return Ok(place);
        }
        place = next;
    }
}

/// The same outside the outermost element, where white space too may be among them.
pub(crate) fn outside_end(text: &[u8], at: usize) -> Result<usize, usize>
    requires { at ≤ length text.now }
    ensures asides { (level : Level) → IsOutside level
        → Leads text.now (between level) at (λ end. between level) result }
    ensures within { EndsWithin text.now at result }
    ensures all { IfOk result (λ end. NoAside text.now end) }
    ensures no_space { IfOk result (λ end. FailsFirst bytes_of.is_space (drop end text.now)) }
{
    let mut place = space_end(text, at);
    'asides: loop {
        let next = aside_end(text, place)?;
        if next == place {
            return Ok(place);
        }
        place = space_end(text, next);
    }
}

/// The end of the comment or instruction that is at a place, or the place where neither begins, or
/// the first place at which it is none.
fn aside_end(text: &[u8], at: usize) -> Result<usize, usize>
    requires { at ≤ length text.now }
    ensures aside { (level : Level) → Leads text.now (between level) at (λ end. between level)
        result }
    ensures within { EndsWithin text.now at result }
    ensures closes { IfOk result (λ end. EndsTagOrStays text.now at end) }
    ensures none { IfOk result (λ end. end ≡ at → NoAside text.now at) }
{
    let Ok(tag) = past(text, at, b'<') else {
        return Ok(at);
    };
    if let Ok(inner) = past(text, tag, b'!') {
        comment_end(text, inner)
    } else if let Ok(inner) = past(text, tag, b'?') {
        instruction_end(text, inner)
    } else {
        Ok(at)
    }
}

/// The end of the comment whose `<!` is before a place: after the first `-->` past `<!--`.
fn comment_end(text: &[u8], at: usize) -> Result<usize, usize>
    requires { at ≤ length text.now }
    ensures comment { (level : Level)
        → Leads text.now (bang level) at (λ end. between level) result }
    ensures within { EndsWithin text.now at result }
    ensures closes { IfOk result (λ end. EndsTag text.now end) }
{
    let dash = past(text, at, b'-')?;
    let inner = past(text, dash, b'-')?;
    comment_rest_end(text, inner)
}

/// The end of the comment whose `<!--` is before a place.
fn comment_rest_end(text: &[u8], at: usize) -> Result<usize, usize>
    requires { at ≤ length text.now }
    ensures comment { (level : Level) → Leads text.now (in_comment no_dash level) at
        (λ end. between level) result }
    ensures within { EndsWithin text.now at result }
    ensures closes { IfOk result (λ end. EndsTag text.now end) }
{
    let mut dashes = 0;
    for place in at..text.len() {
        let byte = text[place];
        if ends_comment(byte, dashes) {
            return Ok(place + 1);
        }
        dashes = dashes_behind(byte, dashes);
    }
    Err(text.len())
}

/// Whether the byte ends a comment, after this many dashes.
fn ends_comment(byte: u8, dashes: usize) -> bool
    ensures { result ≡ (nat_le 2 dashes && byte == 62) }
{
    2 <= dashes && byte == b'>'
}

/// How many dashes are side by side after the byte, where these are before it.
fn dashes_behind(byte: u8, dashes: usize) -> usize
    requires { dashes + 1 < 2 ^ 64 }
    ensures { result ≡ (if byte == 45 then dashes + 1 else 0) }
{
    if byte == b'-' { dashes + 1 } else { 0 }
}

/// The end of the instruction whose `<?` is before a place: after the first `?>` past it.
fn instruction_end(text: &[u8], at: usize) -> Result<usize, usize>
    requires { at ≤ length text.now }
    ensures instruction { (level : Level) → Leads text.now (in_instruction false level) at
        (λ end. between level) result }
    ensures within { EndsWithin text.now at result }
    ensures closes { IfOk result (λ end. EndsTag text.now end) }
{
    let mut asked = false;
    for place in at..text.len() {
        let byte = text[place];
        if ends_instruction(byte, asked) {
            return Ok(place + 1);
        }
        asked = byte == b'?';
    }
    Err(text.len())
}

/// Whether the byte ends an instruction, after a question mark or not.
fn ends_instruction(byte: u8, asked: bool) -> bool
    ensures { result ≡ (asked && byte == 62) }
{
    asked && byte == b'>'
}
