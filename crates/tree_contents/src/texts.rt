//! Texts that are lent are in UTF-8.

ghost use Rattle.std.specs.Prelude.{◌≡◌, IfSome, true};
ghost use Rattle.std.specs.List.{list_all};
ghost use Rattle.std.specs.Str.{is_utf8};
ghost use Rattle.tree_core.specs.NewNodes.{given_values, lent_value};
ghost use Rattle.tree_contents.specs.Texts.{AreTexts, is_text_value};

use outside_core::Text;
use tree_core::Values;

/// A text is in UTF-8.
pub(crate) fn text_is_utf8(text: &str)
    ensures { is_utf8 text.now ≡ true }
{
    let _bytes = text.as_bytes();
}

// A text is in UTF-8, where it is given.
fn given_text_is_utf8(text: Option<&str>)
    ensures { is_text_value (lent_value text.entry) ≡ true }
{
    if let Some(text) = text {
        text_is_utf8(text);
    }
}

/// The values of the five fields are in UTF-8 where the password is: the others are texts.
pub fn values_are_utf8(values: &Values<'_>)
    requires { IfSome values.now.password (λ password. is_utf8 password.now ≡ true) }
    ensures { AreTexts (given_values values.now) }
{
    given_text_is_utf8(values.title);
    given_text_is_utf8(values.user);
    given_text_is_utf8(values.url);
    given_text_is_utf8(values.notes);
}

/// Texts are in UTF-8.
pub(crate) fn texts_are_utf8(texts: &[Text])
    ensures { list_all is_utf8 texts.now ≡ true }
{
    for text in texts {
        text_is_utf8(text.as_str());
    }
}
