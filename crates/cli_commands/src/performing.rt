//! Carrying a command out on its document.
ghost use Rattle.std.specs.List.{list_all};
ghost use Rattle.std.specs.Option.{unwrap_or};
ghost use Rattle.cli_lines.specs.SeenLines.{values_seen};
ghost use Rattle.cli_messages.specs.declared.answers.Refusal.{Refusal};
ghost use Rattle.std.specs.Prelude.{◌≡◌, ◌≤◌, ◌++◌, ℕ, List, [], Result, option_map, Ok, OnOk, Some, IfErr, IfOk, IfSome, codes, false, is_some, map, true};
ghost use Rattle.outside_core.specs.Streams.{LosesPrefix};
ghost use Rattle.vault_model.specs.SeenDoc.{doc_seen};
ghost use Rattle.vault_model.specs.Tree.{BareDoc};
ghost use Rattle.vault_model.specs.SeenNodes.{tree_seen};
ghost use Rattle.tree_core.specs.Changes as changes;
ghost use Rattle.tree_core.specs.NewNodes.{lent_value};
ghost use Rattle.cli_messages.specs.Phases.{IsMemoryStop, IsPlainStop, IsStreamStop, Returns, ReturnsAskedStream, TellsStream};
ghost use Rattle.std.specs.Str.{is_utf8};
ghost use Rattle.outside_core.specs.Reports.{StaysTruthful};
ghost use Rattle.cli_lines.specs.Lines.{AreTextLines, IsTextLine};
ghost use Rattle.cli_profiles.specs.Profiles.{IsProfile};
ghost use Rattle.cli_lines.specs.CliNeeds.Needs.{generated_by, needs_of};
ghost use Rattle.cli_printing.specs.Listing.{tree_listed};
ghost use Rattle.cli_commands.specs.Commands as spec;
ghost use Rattle.cli_commands.specs.Commands.{change_of, change_with, changed_text, created_change, created_or_refusal, draws_change, imported_text, listing_of, only_reads, passed_lines, rooted_at, text_unless, with_password, with_root_id, writing};
ghost use Rattle.cli_commands.specs.SeenChange.{change_seen, inputs_seen, lent_settings};
ghost use Rattle.cli_printing.specs.Info.{info_shown};

use crate::ids::{bin_id, draw_if, makes_node};
use crate::output::{Change, Output, merge_change, printed, reported};
use cli_changes::{
    AttachedFile, Given, add_entry, attach_file, attachment_of, detach_file, edit_entry,
    export_report, make_group_of, move_node, remove_entry_of, remove_group_of, restore_entry,
};
use cli_generating::choose_password;
use cli_lines::cli_needs::{Command, exported_to};
use cli_lines::kdbx_frame::Settings;
use cli_merging::{MergeGiven, merge_into};
use cli_messages::{Reason, Stop, refused};
use cli_printing::{Manner, add_group, export, group_listed, info};
use cli_showing::{CodeGiven, ShowGiven, search_entries, show_code, show_entry, show_history};
use outside_core::{Bytes, Dice, NoMemory, Text};
use secret_core::Secret;
use std::alloc::Global;
use std::rc::Rc;
use tree_steps::is_free;
use uuid_core::Uuid;
use vault_model::{Doc, Group};

/// Reports whether a command may write its database, or one that it makes.
pub fn may_write(command: &Command) -> bool
    ensures { result ≡ spec.may_write command.now }
{
    match command {
        Command::Ls { .. } => false,
        Command::Show { .. } => false,
        Command::History { .. } => false,
        Command::Search { .. } => false,
        Command::Add { .. } => true,
        Command::Edit { .. } => true,
        Command::Restore { .. } => true,
        Command::ExportAttachment { .. } => false,
        Command::ImportAttachment { .. } => true,
        Command::RemoveAttachment { .. } => true,
        Command::Move { .. } => true,
        Command::Remove { .. } => true,
        Command::MakeGroup { .. } => true,
        Command::RemoveGroup { .. } => true,
        Command::Merge { dry, .. } => !*dry,
        Command::Import { .. } => true,
        Command::Create { .. } => true,
        Command::Export { .. } => false,
        Command::EditFile { .. } => true,
        Command::Info { .. } => false,
    }
}

/// Reports whether a command may write a file: its database, or one that it takes an attachment out
/// into.
pub fn may_store(command: &Command) -> bool
    ensures { result ≡ spec.may_store command.now }
{
    may_write(command) || exported_to(command).is_some()
}

// Lists the group of a document that a path names, or refuses about the file.
fn list(
    alloc: Global,
    doc: &Doc,
    path: &Option<Text>,
    manner: Manner,
    file: &str,
) -> Result<Change, Stop>
    ensures told { Returns (λ change. change_seen change (doc_seen doc.now)) result
        (listing_of file.now manner.recursive manner.flat manner.ids
        (tree_listed path.now (doc_seen doc.now))) }
    ensures written { IfOk result (λ change. change.is_written ≡ false) }
    ensures cause { IfErr result IsPlainStop }
{
    let Some(group) = group_listed(doc, path) else {
        return Err(refused(alloc, Reason::NoSuchPath, file));
    };
    let mut text = Bytes::new(alloc);
    match add_group(alloc, &mut text, manner, b"", group) {
        Ok(()) => Ok(Change {
            output: Output::Listing(text),
            is_written: false,
            attachment: None,
        }),
        Err(NoMemory) => Err(Stop::NoMemory),
    }
}

/// What a command works with, beside its document.
#[derive(Clone, Copy)]
pub struct CommandInput<'a> {
    /// The line that it asked for, or the password that was generated.
    pub line: Option<&'a [u8]>,
    /// The text of a one-time code that it asked for.
    pub otp: Option<&'a [u8]>,
    /// The values of fields that it asked for.
    pub fields: &'a [Secret],
    /// The bytes of the file that it puts into its database.
    pub attached: Option<&'a Rc<Secret>>,
    /// The documents of its sources.
    pub sources: &'a [Doc],
    /// The settings of its database's file; a plain document has none.
    pub settings: Option<&'a Settings>,
    /// The names of the columns that were passed over, where its database is made of a table.
    pub passed_over: &'a [Text],
    /// The moment, in seconds since the year 1.
    pub now: u64,
}

// What a command is given beside its document and what it names there.
fn given_of<'a>(command: &'a Command, input: CommandInput<'a>) -> Given<'a>
    ensures file { result.file.now ≡ (needs_of command.now).file }
    ensures quiet { result.quiet ≡ (needs_of command.now).access.quiet }
    ensures password { result.password ≡ input.entry.line }
    ensures otp { result.otp ≡ input.entry.otp }
    ensures fields { result.fields ≡ input.entry.fields }
    ensures now { result.now ≡ input.entry.now }
{
    let needs = cli_lines::cli_needs::needs_of(command);
    Given {
        file: needs.file.as_str(),
        quiet: needs.access.quiet,
        password: input.line,
        otp: input.otp,
        fields: input.fields,
        now: input.now,
    }
}

// How a listing is laid out.
fn manner_of(recursive: bool, flat: bool, ids: bool) -> Manner
    ensures recursive { result.recursive ≡ recursive }
    ensures flat { result.flat ≡ flat }
    ensures ids { result.ids ≡ ids }
{
    Manner {
        recursive,
        flat,
        ids,
    }
}

// How an entry is shown.
fn show_given<'a>(
    file: &'a str,
    clear: bool,
    all: bool,
    attachments: bool,
    names: &'a [Text],
    at: u64,
) -> ShowGiven<'a>
    ensures file { result.file ≡ file.entry }
    ensures clear { result.clear ≡ clear }
    ensures all { result.all ≡ all }
    ensures attachments { result.attachments ≡ attachments }
    ensures names { result.names ≡ names.entry }
    ensures at { result.at ≡ at }
{
    ShowGiven {
        file,
        clear,
        all,
        attachments,
        names,
        at,
    }
}

// What `show -t` is given.
fn code_given<'a>(file: &'a str, names: &'a [Text], at: u64, now: u64) -> CodeGiven<'a>
    ensures file { result.file ≡ file.entry }
    ensures names { result.names ≡ names.entry }
    ensures at { result.at ≡ at }
    ensures now { result.now ≡ now }
{
    CodeGiven {
        file,
        names,
        at,
        now,
    }
}

// What a database is, of its document and the settings of its file.
fn describe(alloc: Global, doc: &Doc, settings: Option<&Settings>) -> Result<Secret, Stop>
    ensures told { Returns (λ text. text.bytes) result
        (Ok (info_shown (lent_settings settings.entry) (doc_seen doc.now))) }
    ensures cause { IfErr result IsPlainStop }
{
    match info(alloc, doc, settings) {
        Ok(text) => Ok(text),
        Err(_) => Err(Stop::NoMemory),
    }
}

// The change of a command whose document is written as it is, with this report, which is not printed
// where the command is quiet.
fn report_written(alloc: Global, quiet: bool, report: &[u8]) -> Result<Change, Stop>
    ensures told { (doc : BareDoc) → Returns (λ change. change_seen change doc) result
        (Ok (writing (text_unless quiet report.now) doc)) }
    ensures cause { IfErr result IsPlainStop }
{
    let mut text = Bytes::new(alloc);
    if !quiet {
        text.add(report)?;
    }
    Ok(Change {
        output: Output::Listing(text),
        is_written: true,
        attachment: None,
    })
}

// Gives the root of a tree another id.
fn put_root_id(root: &mut Group, id: Uuid)
    ensures { tree_seen root.new ≡ rooted_at id (tree_seen root.old) }
{
    root.id = id;
}

// Gives the root of a document another id, which is none of its nodes' and of its tombstones'.
fn set_root_id(doc: &mut Doc, id: Uuid)
    requires { changes.is_free id (doc_seen doc.old) ≡ true }
    ensures { doc_seen doc.new ≡ with_root_id id (doc_seen doc.old) }
{
    put_root_id(&mut doc.root, id);
}

// Adds the line of a column that was passed over.
fn add_passed(text: &mut Bytes, name: &str) -> Result<(), NoMemory>
    ensures { OnOk result (text.new
        ≡ text.old ++ codes "Column passed over: " ++ name.now ++ codes "\n") }
{
    text.add(b"Column passed over: ")?;
    text.add(name.as_bytes())?;
    text.add(b"\n")
}

// Adds a line for each column that was passed over.
fn add_all_passed(text: &mut Bytes, names: &[Text]) -> Result<(), NoMemory>
    ensures { OnOk result (text.new ≡ text.old ++ passed_lines names.now) }
{
    for name in names {
        add_passed(text, name.as_str())?;
    }
    Ok(())
}

// The report of an import.
fn import_report(alloc: Global, names: &[Text]) -> Result<Bytes, NoMemory>
    ensures { IfOk result (λ report. report
        ≡ passed_lines names.now ++ codes "Successfully imported database.\n") }
{
    let mut report = Bytes::new(alloc);
    add_all_passed(&mut report, names)?;
    report.add(b"Successfully imported database.\n")?;
    Ok(report)
}

// The change of an import.
fn report_import(alloc: Global, quiet: bool, names: &[Text]) -> Result<Change, Stop>
    ensures told { (doc : BareDoc) → Returns (λ change. change_seen change doc) result
        (Ok (writing (imported_text quiet names.now) doc)) }
    ensures cause { IfErr result IsPlainStop }
{
    let report = import_report(alloc, names)?;
    let change = report_written(alloc, quiet, report.as_slice());
    drop(report);
    change
}

// The change of a command that changes how its database is sealed.
fn report_changed(alloc: Global, quiet: bool) -> Result<Change, Stop>
    ensures told { (doc : BareDoc) → Returns (λ change. change_seen change doc) result
        (Ok (writing (changed_text quiet) doc)) }
    ensures cause { IfErr result IsPlainStop }
{
    report_written(alloc, quiet, b"Successfully edited the database.\n")
}

// The change of a command that makes an empty database, whose root gets this id.
fn report_created(alloc: Global, quiet: bool, id: Uuid, doc: &mut Doc) -> Result<Change, Stop>
    requires { changes.is_free id (doc_seen doc.old) ≡ true }
    ensures told { Returns (λ change. change_seen change (doc_seen doc.new)) result
        (Ok (created_change quiet id (doc_seen doc.old))) }
    ensures unchanged { IfErr result (λ _. doc_seen doc.new ≡ doc_seen doc.old) }
    ensures cause { IfErr result IsPlainStop }
{
    match report_written(alloc, quiet, b"Successfully created new database.\n") {
        Ok(change) => {
            set_root_id(doc, id);
            Ok(change)
        }
        Err(stop) => Err(stop),
    }
}

// The same, unless the id is taken.
fn create_empty(
    alloc: Global,
    file: &str,
    quiet: bool,
    id: Uuid,
    doc: &mut Doc,
) -> Result<Change, Stop>
    ensures told { Returns (λ change. change_seen change (doc_seen doc.new)) result
        (created_or_refusal file.now quiet id (doc_seen doc.old)) }
    ensures unchanged { IfErr result (λ _. doc_seen doc.new ≡ doc_seen doc.old) }
    ensures cause { IfErr result IsPlainStop }
{
    if is_free(doc, id) {
        report_created(alloc, quiet, id, doc)
    } else {
        Err(refused(alloc, Reason::IdTaken(id), file))
    }
}

// What a merge is given beside its documents.
fn merge_given<'a>(
    given: Given<'a>,
    sources: &'a [Text],
    dry: bool,
    details: bool,
) -> MergeGiven<'a>
    ensures file { result.file ≡ given.entry.file }
    ensures sources { result.sources ≡ sources.entry }
    ensures quiet { result.quiet ≡ given.entry.quiet }
    ensures dry { result.dry ≡ dry }
    ensures details { result.details ≡ details }
{
    MergeGiven {
        file: given.file,
        sources,
        quiet: given.quiet,
        dry,
        details,
    }
}

// The texts that the report of an attachment that is taken out names.
#[derive(Clone, Copy)]
struct ExportTexts<'a> {
    entry: &'a str,
    name: &'a str,
    to: &'a str,
}

// The change of a command that takes an attachment out into a new file.
fn exported_file(
    alloc: Global,
    quiet: bool,
    texts: ExportTexts<'_>,
    taken: Result<Rc<Secret>, Stop>,
) -> Result<Change, Stop>
    requires { IfErr taken IsPlainStop }
    ensures told { (doc : BareDoc) (defined : Result (List ℕ) Refusal)
        → Returns (λ bytes. bytes.value.bytes) taken defined
        → Returns (λ change. change_seen change doc) result (spec.exported_file quiet
        texts.entry.entry.now texts.entry.name.now texts.entry.to.now defined) }
    ensures written { IfOk result (λ change. change.is_written ≡ false) }
    ensures cause { IfErr result IsPlainStop }
{
    let bytes = taken?;
    match export_report(alloc, quiet, texts.entry, texts.name, texts.to) {
        Ok(text) => Ok(Change {
            output: Output::Report(text),
            is_written: false,
            attachment: Some(bytes),
        }),
        Err(_) => {
            drop(bytes);
            Err(Stop::NoMemory)
        }
    }
}

// The change of a command that prints an attachment.
fn attachment_printed(taken: Result<Rc<Secret>, Stop>) -> Result<Change, Stop>
    requires { IfErr taken IsPlainStop }
    ensures told { (doc : BareDoc) (defined : Result (List ℕ) Refusal)
        → Returns (λ bytes. bytes.value.bytes) taken defined
        → Returns (λ change. change_seen change doc) result (spec.printed_text defined) }
    ensures written { IfOk result (λ change. change.is_written ≡ false) }
    ensures cause { IfErr result IsPlainStop }
{
    match taken {
        Ok(bytes) => Ok(Change {
            output: Output::Attachment(bytes),
            is_written: false,
            attachment: None,
        }),
        Err(stop) => Err(stop),
    }
}

// Bytes that are shared once more.
fn shared_with(bytes: &Rc<Secret>) -> Result<Rc<Secret>, Stop>
    ensures bytes { IfOk result (λ shared. shared.value.bytes ≡ bytes.now.value.bytes) }
    ensures cause { IfErr result IsMemoryStop }
{
    match bytes.clone() {
        Ok(shared) => Ok(shared),
        Err(_) => Err(Stop::NoMemory),
    }
}

// The bytes of the file that a command puts into its database, which are shared; none where there is
// no file.
fn attached_bytes(alloc: Global, attached: Option<&Rc<Secret>>) -> Result<Rc<Secret>, Stop>
    ensures bytes { IfOk result (λ bytes. bytes.value.bytes
        ≡ unwrap_or (option_map (λ bytes. bytes.now.value.bytes) attached.entry) []) }
    ensures cause { IfErr result IsMemoryStop }
{
    if let Some(bytes) = attached {
        return shared_with(bytes);
    }
    let none = Secret::with_room(alloc, 0)?;
    match Rc::new(alloc, none) {
        Ok(bytes) => Ok(bytes),
        Err(_none) => Err(Stop::NoMemory),
    }
}

// Carries a command out on its document, with what it works with. A node that it makes has this id.
fn change_document<'a>(
    alloc: Global,
    command: &'a Command,
    input: CommandInput<'a>,
    id: Uuid,
    doc: &mut Doc,
) -> Result<Change, Stop>
    requires { AreTextLines (lent_value input.line) (lent_value input.otp)
        (values_seen input.fields.now) }
    ensures told { Returns (λ change. change_seen change (doc_seen doc.new)) result
        (change_with input.entry.now command.now (inputs_seen input.entry) id (doc_seen doc.old)) }
    ensures unwritten { spec.may_write command.now ≡ false
        → IfOk result (λ change. change.is_written ≡ false) }
    ensures unchanged { IfErr result (λ _. doc_seen doc.new ≡ doc_seen doc.old) }
    ensures kept { only_reads command.now ≡ true → doc_seen doc.new ≡ doc_seen doc.old }
    ensures cause { IfErr result IsPlainStop }
{
    let given = given_of(command, input);
    match command {
        Command::Ls {
            group,
            recursive,
            flat,
            ids,
            ..
        } => {
            let manner = manner_of(*recursive, *flat, *ids);
            list(alloc, doc, group, manner, given.file)
        }
        Command::Show {
            entry,
            clear,
            all,
            attachments,
            names,
            totp,
            at,
            ..
        } => {
            let names = names.as_slice();
            if *totp {
                let given = code_given(given.file, names, *at, given.now);
                printed(show_code(alloc, doc, entry.as_str(), given))
            } else {
                let given = show_given(given.file, *clear, *all, *attachments, names, *at);
                printed(show_entry(alloc, doc, entry.as_str(), given))
            }
        }
        Command::History { entry, .. } => {
            printed(show_history(alloc, doc, entry.as_str(), given.file))
        }
        Command::Search { term, .. } => {
            printed(search_entries(alloc, doc, term.as_str(), given.file))
        }
        Command::Add { entry, asked, .. } => {
            reported(add_entry(alloc, doc, entry.as_str(), id, asked, given))
        }
        Command::Edit {
            entry,
            asked,
            further,
            ..
        } => { reported(edit_entry(alloc, doc, entry.as_str(), asked, further, given)) }
        Command::Restore { entry, version, .. } => {
            reported(restore_entry(alloc, doc, entry.as_str(), *version, given))
        }
        Command::ExportAttachment {
            entry,
            name,
            to,
            ..
        } => {
            let taken = attachment_of(alloc, doc, given.file, entry.as_str(), name.as_str());
            match to {
                Some(to) => {
                    let texts = ExportTexts {
                        entry: entry.as_str(),
                        name: name.as_str(),
                        to: to.as_str(),
                    };
                    exported_file(alloc, given.quiet, texts, taken)
                }
                None => attachment_printed(taken),
            }
        }
        Command::ImportAttachment {
            entry,
            name,
            source,
            replaces,
            ..
        } => {
            let bytes = attached_bytes(alloc, input.attached)?;
            let attached = AttachedFile {
                name: name.as_str(),
                source: source.as_str(),
                bytes: &bytes,
                replaces: *replaces,
            };
            reported(attach_file(alloc, doc, entry.as_str(), attached, given))
        }
        Command::RemoveAttachment { entry, name, .. } => {
            reported(detach_file(alloc, doc, entry.as_str(), name.as_str(), given))
        }
        Command::Move { node, group, .. } => {
            reported(move_node(alloc, doc, node.as_str(), group.as_str(), given))
        }
        Command::Remove { entry, .. } => {
            let bin = bin_id(id, doc);
            reported(remove_entry_of(alloc, doc, entry.as_str(), bin, given))
        }
        Command::MakeGroup { group, .. } => {
            reported(make_group_of(alloc, doc, group.as_str(), id, given))
        }
        Command::RemoveGroup { group, .. } => {
            let bin = bin_id(id, doc);
            reported(remove_group_of(alloc, doc, group.as_str(), bin, given))
        }
        Command::Merge {
            sources,
            dry,
            details,
            ..
        } => {
            let given = merge_given(given, sources.as_slice(), *dry, *details);
            merge_change(merge_into(alloc, doc, input.sources, given))
        }
        Command::Import { access, .. } => report_import(alloc, access.quiet, input.passed_over),
        Command::Create { access, .. } => { create_empty(alloc, given.file, access.quiet, id, doc) }
        Command::Export { format, .. } => printed(export(alloc, doc, *format, given.file)),
        Command::EditFile { access, .. } => report_changed(alloc, access.quiet),
        Command::Info { .. } => printed(describe(alloc, doc, input.settings)),
    }
}

// What a command works with, with another line.
fn with_line<'a>(input: CommandInput<'a>, line: &'a [u8]) -> CommandInput<'a>
    ensures line { lent_value result.line ≡ Some line.now }
    ensures otp { result.otp ≡ input.entry.otp }
    ensures fields { result.fields ≡ input.entry.fields }
    ensures attached { result.attached ≡ input.entry.attached }
    ensures sources { result.sources ≡ input.entry.sources }
    ensures settings { result.settings ≡ input.entry.settings }
    ensures passed { result.passed_over ≡ input.entry.passed_over }
    ensures now { result.now ≡ input.entry.now }
{
    CommandInput {
        line: Some(line),
        otp: input.otp,
        fields: input.fields,
        attached: input.attached,
        sources: input.sources,
        settings: input.settings,
        passed_over: input.passed_over,
        now: input.now,
    }
}

// Carries a command out on its document with this password in the place of a line.
fn change_with_password(
    alloc: Global,
    command: &Command,
    input: CommandInput<'_>,
    password: &Secret,
    id: Uuid,
    doc: &mut Doc,
) -> Result<Change, Stop>
    requires password { is_utf8 password.now.bytes ≡ true }
    requires otp { IsTextLine (lent_value input.otp) }
    requires fields { list_all is_utf8 (values_seen input.fields.now) ≡ true }
    ensures told { Returns (λ change. change_seen change (doc_seen doc.new)) result
        (change_with input.entry.now command.now
        (with_password (Some password.now.bytes) (inputs_seen input.entry)) id (doc_seen doc.old)) }
    ensures unwritten { spec.may_write command.now ≡ false
        → IfOk result (λ change. change.is_written ≡ false) }
    ensures unchanged { IfErr result (λ _. doc_seen doc.new ≡ doc_seen doc.old) }
    ensures kept { only_reads command.now ≡ true → doc_seen doc.new ≡ doc_seen doc.old }
    ensures cause { IfErr result IsPlainStop }
{
    let input = with_line(input, password.lend(0, password.len()));
    change_document(alloc, command, input, id, doc)
}

// Carries a command out on its document, once the id of its node is drawn: its password is generated
// first, where it is to be.
fn change_by<D: Dice>(
    alloc: Global,
    dice: &mut D,
    command: &Command,
    input: CommandInput<'_>,
    id: Uuid,
    doc: &mut Doc,
) -> Result<Change, Stop>
    requires text { AreTextLines (lent_value input.line) (lent_value input.otp)
        (values_seen input.fields.now) }
    requires profile { IfSome (generated_by command.now) IsProfile }
    ensures told { D.truthful dice.new ≡ true
        → (d : List ℕ)
        → TellsStream (is_some (generated_by command.now)) (D.stream dice.old) d
        → ReturnsAskedStream (λ change. change_seen change (doc_seen doc.new)) result
        (D.stream dice.old) (D.stream dice.new)
        (spec.change_by input.entry.now command.now (inputs_seen input.entry) id
        (doc_seen doc.old) d) }
    ensures some_dice { IfOk result (λ change. (d : List ℕ)
        × ((spec.change_by input.entry.now command.now (inputs_seen input.entry) id
        (doc_seen doc.old) d).answer ≡ Ok (change_seen change (doc_seen doc.new)))) }
    ensures unwritten { spec.may_write command.now ≡ false
        → IfOk result (λ change. change.is_written ≡ false) }
    ensures unchanged { IfErr result (λ _. doc_seen doc.new ≡ doc_seen doc.old) }
    ensures kept { only_reads command.now ≡ true → doc_seen doc.new ≡ doc_seen doc.old }
    ensures undrawn { is_some (generated_by command.now) ≡ false
        → D.stream dice.new ≡ D.stream dice.old }
    ensures stream { LosesPrefix (D.stream dice.old) (D.stream dice.new) }
    ensures truthful { StaysTruthful (D.truthful dice.old) (D.truthful dice.new) }
    ensures cause { IfErr result (IsStreamStop (D.faults dice.old) (D.faults dice.new)) }
    ensures faults { D.faults dice.old ≤ D.faults dice.new }
    ensures faultless { OnOk result (D.faults dice.new ≡ D.faults dice.old) }
{
    let Some(profile) = cli_lines::cli_needs::generated_by(command) else {
        return change_document(alloc, command, input, id, doc);
    };
    let alphabet = profile.alphabet.as_str().as_bytes();
    match choose_password(alloc, dice, alphabet, profile.length) {
        Ok(password) => {
            let change = change_with_password(alloc, command, input, &password, id, doc);
            drop(password);
            change
        }
        Err(stop) => Err(stop),
    }
}

/// Carries a command out on its document, with what it works with. The document is changed in
/// place; a refusal changes nothing.
pub fn perform<'a, D: Dice>(
    alloc: Global,
    dice: &mut D,
    command: &'a Command,
    input: CommandInput<'a>,
    doc: &mut Doc,
) -> Result<Change, Stop>
    requires text { AreTextLines (lent_value input.line) (lent_value input.otp)
        (values_seen input.fields.now) }
    requires profile { IfSome (generated_by command.now) IsProfile }
    ensures told { D.truthful dice.new ≡ true
        → (d : List ℕ) → TellsStream (draws_change command.now) (D.stream dice.old) d
        → ReturnsAskedStream (λ change. change_seen change (doc_seen doc.new)) result
        (D.stream dice.old) (D.stream dice.new)
        (change_of input.entry.now command.now (inputs_seen input.entry) (doc_seen doc.old) d) }
    ensures some_dice { IfOk result (λ change. (d : List ℕ)
        × ((change_of input.entry.now command.now (inputs_seen input.entry) (doc_seen doc.old)
        d).answer ≡ Ok (change_seen change (doc_seen doc.new)))) }
    ensures unwritten { spec.may_write command.now ≡ false
        → IfOk result (λ change. change.is_written ≡ false) }
    ensures unchanged { IfErr result (λ _. doc_seen doc.new ≡ doc_seen doc.old) }
    ensures kept { only_reads command.now ≡ true → doc_seen doc.new ≡ doc_seen doc.old }
    ensures undrawn { draws_change command.now ≡ false
        → D.stream dice.new ≡ D.stream dice.old }
    ensures stream { LosesPrefix (D.stream dice.old) (D.stream dice.new) }
    ensures truthful { StaysTruthful (D.truthful dice.old) (D.truthful dice.new) }
    ensures cause { IfErr result (IsStreamStop (D.faults dice.old) (D.faults dice.new)) }
    ensures faults { D.faults dice.old ≤ D.faults dice.new }
    ensures faultless { OnOk result (D.faults dice.new ≡ D.faults dice.old) }
{
    match draw_if(dice, makes_node(command, doc)) {
        Ok(id) => change_by(alloc, dice, command, input, id, doc),
        Err(_) => Err(Stop::InputFault),
    }
}
