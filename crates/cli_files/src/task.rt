//! What a call is to do.
use crate::Opened;
use cli_lines::Lines;
use cli_lines::cli_needs::Command;
use outside_core::List;
use secret_core::Secret;
use std::rc::Rc;
use vault_model::Doc;

/// What a call is to do.
pub struct Task {
    /// Its command.
    pub command: Command,
    /// The lines that the command asked for.
    pub lines: Lines,
    /// The command's database, whose composite key must be cleared and released.
    pub opened: Opened,
    /// The documents of its sources.
    pub sources: List<Doc>,
    /// The bytes of the file that is put into the database, where there is one.
    pub attached: Option<Rc<Secret>>,
}
