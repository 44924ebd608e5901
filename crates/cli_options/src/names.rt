//! The commands by their names.
ghost use Rattle.std.specs.Prelude.{◌≡◌};
ghost use Rattle.cli_options.specs.Options as spec;

/// A command by its name.
#[derive(Clone, Copy)]
pub enum CommandName {
    /// `ls`
    Ls,
    /// `show`
    Show,
    /// `history`
    History,
    /// `search`
    Search,
    /// `add`
    Add,
    /// `edit`
    Edit,
    /// `mv`
    Move,
    /// `rm`
    Remove,
    /// `mkdir`
    MakeGroup,
    /// `rmdir`
    RemoveGroup,
    /// `merge`
    Merge,
    /// `import`
    Import,
    /// `db-create`
    Create,
    /// `export`
    Export,
    /// `db-edit`
    EditFile,
    /// `db-info`
    Info,
    /// `generate`
    Generate,
    /// `selftest`
    SelfTest,
    /// `open`
    Open,
    /// `attachment-export`
    ExportAttachment,
    /// `attachment-import`
    ImportAttachment,
    /// `attachment-rm`
    RemoveAttachment,
}

/// The command of a name.
pub fn command_named(name: &str) -> Option<CommandName>
    ensures { result ≡ spec.command_named name.now }
{
    match name {
        "ls" => Some(CommandName::Ls),
        "show" => Some(CommandName::Show),
        "history" => Some(CommandName::History),
        "search" => Some(CommandName::Search),
        "add" => Some(CommandName::Add),
        "edit" => Some(CommandName::Edit),
        "mv" => Some(CommandName::Move),
        "rm" => Some(CommandName::Remove),
        "mkdir" => Some(CommandName::MakeGroup),
        "rmdir" => Some(CommandName::RemoveGroup),
        "merge" => Some(CommandName::Merge),
        "import" => Some(CommandName::Import),
        "db-create" => Some(CommandName::Create),
        "export" => Some(CommandName::Export),
        "db-edit" => Some(CommandName::EditFile),
        "db-info" => Some(CommandName::Info),
        "generate" => Some(CommandName::Generate),
        "selftest" => Some(CommandName::SelfTest),
        "open" => Some(CommandName::Open),
        "attachment-export" => Some(CommandName::ExportAttachment),
        "attachment-import" => Some(CommandName::ImportAttachment),
        "attachment-rm" => Some(CommandName::RemoveAttachment),
        _ => None,
    }
}
