//! What is left of a text after the names of groups that lead to a node.

ghost use Rattle.std.specs.Prelude.{◌≡◌, ◌||◌, option_map};
ghost use Rattle.tree_core.specs.Finding as named;
ghost use Rattle.tree_core.specs.Path as spec;

// A text after a prefix of it, where it begins so.
pub(crate) fn strip_prefix<'a>(front: &[u8], text: &'a [u8]) -> Option<&'a [u8]>
    ensures { option_map (λ rest. rest.now) result ≡ spec.strip_prefix front.now text.now }
{
    text.strip_prefix(front)
}

// What is left after a name and a slash.
pub(crate) fn strip_component<'a>(name: &[u8], rest: Option<&'a [u8]>) -> Option<&'a [u8]>
    ensures { option_map (λ rest. rest.now) result
        ≡ spec.strip_component name.now (option_map (λ rest. rest.now) rest.entry) }
{
    strip_prefix(b"/", strip_prefix(name, rest?)?)
}

// Reports whether a name is left, and nothing else.
pub(crate) fn is_exactly(name: &[u8], rest: Option<&[u8]>) -> bool
    ensures { result ≡ spec.is_exactly name.now (option_map (λ rest. rest.now) rest.entry) }
{
    match rest {
        Some(rest) => rest == name,
        None => false,
    }
}

/// A text without one slash at its start and one at its end.
pub fn without_slashes(text: &[u8]) -> &[u8]
    ensures { result.now ≡ named.without_slashes text.now }
{
    let text = match text {
        [b'/', rest @ ..] => rest,
        _ => text,
    };
    match text {
        [rest @ .., b'/'] => rest,
        _ => text,
    }
}
