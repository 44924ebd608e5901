//! What holds of the files that a command wrote.

ghost use Rattle.std.specs.Prelude.{ℕ, List};
ghost use Rattle.vault_model.specs.Tree.{BareDoc};
ghost use Rattle.kdbx_frame.specs.declared.settings.Settings.{Settings};
ghost use Rattle.cli_sealing.specs.Held.{HoldsSealed, OpensTo};

/// A file that [`crate::write_sealed`] wrote opens, under the composite key that it was sealed with,
/// to the document and the settings that were given, with the seed or salt of its own.
pub fn sealed_files_open()
    ensures { (settings : Settings) (composite : List ℕ) (doc : BareDoc) (bytes : List ℕ)
        → HoldsSealed settings composite doc bytes → OpensTo settings composite doc bytes }
{}
