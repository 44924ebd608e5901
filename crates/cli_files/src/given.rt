//! What words and lines may give, lent.
ghost use Rattle.std.specs.Prelude.{◌≡◌, option_map};
ghost use Rattle.cli_lines.specs.SeenLines.{line_seen};

use outside_core::Text;
use secret_core::Secret;

/// The name that is given, if one is.
pub fn name_in(name: &Option<Text>) -> Option<&str>
    ensures { option_map (λ n. n.now) result ≡ name.now }
{
    match name {
        Some(name) => Some(name.as_str()),
        None => None,
    }
}

/// The bytes of a line, where there is one.
pub fn bytes_in(line: &Option<Secret>) -> Option<&[u8]>
    ensures { option_map (λ bytes. bytes.now) result ≡ line_seen line.now }
{
    match line {
        Some(line) => Some(line.lend(0, line.len())),
        None => None,
    }
}
