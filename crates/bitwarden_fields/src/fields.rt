//! Fields whose texts are in UTF-8.

ghost use Rattle.std.specs.Prelude.{◌≡◌, true};
ghost use Rattle.vault_model.specs.Proper.{is_text_field};
ghost use Rattle.vault_model.specs.Seen.{bare_field};

use vault_model::Field;

/// A field whose key and value are in UTF-8.
#[derive(Drop)]
pub(crate) struct TextField {
    pub(crate) field: Field,
    pub(crate) ghost text: { is_text_field (bare_field field) ≡ true },
}
