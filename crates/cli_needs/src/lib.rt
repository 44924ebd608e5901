//! What the program can be asked to do, and what each command asks for: files, lines and passwords.
#![tactic(auto)]

mod command;
mod needs;

pub use command::{
    Access, Asked, Command, ExportFormat, FileChange, FurtherAsked, ImportFormat, KdfAsked,
    KdfKind, KeyFileChange, PasswordChange,
};
pub use kdbx_frame;
pub use kdbx_frame::key_core;
pub use needs::{
    CreateNeeds, ImportNeeds, Needs, Origin, asks_password, asks_passwords_from, exported_to,
    file_written, generated_by, import_of, needs_of, origin_of, target_access, target_of,
};
