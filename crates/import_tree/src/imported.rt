//! The entries of an imported file.

ghost use Rattle.std.specs.Prelude.{◌≢◌};
ghost use Rattle.std.specs.Option.{ForSome, option_map};
ghost use Rattle.import_tree.specs.Entries.{AreTexts};
ghost use Rattle.secret_core.specs.Secret.{SecretBuffer};
ghost use Rattle.vault_model.specs.Db.{nil_id};

use outside_core::{List, Text};
use secret_core::Secret;
use uuid_core::Uuid;
use vault_model::Stamp;

/// An entry of an imported file. `groups` are the names of the groups that lead to it, from below
/// the root; `id` is the id that the file gives it. `history` has the passwords that it had before,
/// in the form in which the file keeps them, and `otp` is where its one-time codes come from. A time
/// that the file does not give is the moment of the import.
#[derive(Drop)]
pub struct ImportedEntry {
    pub groups: List<Text>,
    pub id: Option<Uuid>,
    pub title: Secret,
    pub user: Secret,
    pub password: Secret,
    pub url: Secret,
    pub notes: Secret,
    pub history: Option<Secret>,
    pub otp: Option<Secret>,
    pub created: Stamp,
    pub modified: Stamp,
    pub ghost not_nil: { ForSome id (λ own. own ≢ nil_id) },
    pub ghost texts: { AreTexts title.bytes user.bytes password.bytes url.bytes notes.bytes
        (option_map (λ (text : SecretBuffer). text.bytes) history)
        (option_map (λ (text : SecretBuffer). text.bytes) otp) },
}
