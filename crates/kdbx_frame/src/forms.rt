//! The form of the document in a file of a version.

ghost use Rattle.std.specs.Prelude.{◌≡◌};
ghost use Rattle.kdbx_frame.specs.Forms.{form_of};

use vault_model::{DocForm, FileVersion};

/// The form of the document in a file of a version.
pub fn form_of(version: FileVersion) -> DocForm
    ensures { result ≡ form_of version }
{
    match version {
        FileVersion::V31 => DocForm::V3,
        FileVersion::V40 | FileVersion::V41 => DocForm::V4,
    }
}
