//! The ids of the nodes that commands make.
ghost use Rattle.std.specs.Prelude.{◌≡◌, ◌≤◌, ℕ, List, IfErr, IfOk, Ok, false, OnOk, true};
ghost use Rattle.outside_core.specs.Counts.{Increased};
ghost use Rattle.outside_core.specs.Reports.{StaysTruthful};
ghost use Rattle.outside_core.specs.Streams.{LosesPrefix};
ghost use Rattle.vault_model.specs.SeenDoc.{doc_seen};
ghost use Rattle.cli_messages.specs.Phases.{IsLeft, TellsStream};
ghost use Rattle.cli_commands.specs.Commands as spec;
ghost use Rattle.cli_commands.specs.SeenChange.{IsDrawnBySome};

use cli_changes::new_id;
use cli_changes::tree_moves::needs_bin;
use cli_lines::cli_needs::Command;
use cli_printing::cli_writing::draw_id;
use outside_core::{Dice, DiceFail};
use uuid_core::Uuid;
use vault_model::Doc;

/// Reports whether a command makes a node in a document, whose id has to be drawn.
pub(crate) fn makes_node(command: &Command, doc: &Doc) -> bool
    ensures { result ≡ spec.makes_node command.now (doc_seen doc.now) }
{
    match command {
        Command::Ls { .. } => false,
        Command::Show { .. } => false,
        Command::History { .. } => false,
        Command::Search { .. } => false,
        Command::Add { .. } => true,
        Command::Edit { .. } => false,
        Command::Restore { .. } => false,
        Command::ExportAttachment { .. } => false,
        Command::ImportAttachment { .. } => false,
        Command::RemoveAttachment { .. } => false,
        Command::Move { .. } => false,
        Command::Remove { .. } => needs_bin(doc),
        Command::MakeGroup { .. } => true,
        Command::RemoveGroup { .. } => needs_bin(doc),
        Command::Merge { .. } => false,
        Command::Import { .. } => false,
        Command::Create { .. } => true,
        Command::Export { .. } => false,
        Command::EditFile { .. } => false,
        Command::Info { .. } => false,
    }
}

/// Draws the id of a node that is made. Where none is made, nothing is drawn and the id is nil.
pub(crate) fn draw_if<D: Dice>(dice: &mut D, is_made: bool) -> Result<Uuid, DiceFail>
    ensures told { D.truthful dice.new ≡ true
        → (d : List ℕ) → TellsStream is_made (D.stream dice.old) d
        → IfOk result (λ id. ((spec.drawn_id is_made d).answer ≡ Ok id)
        × IsLeft (D.stream dice.old) (D.stream dice.new) (spec.drawn_id is_made d).left) }
    ensures some_dice { IfOk result (λ id. IsDrawnBySome is_made id) }
    ensures undrawn { is_made ≡ false → D.stream dice.new ≡ D.stream dice.old }
    ensures stream { LosesPrefix (D.stream dice.old) (D.stream dice.new) }
    ensures truthful { StaysTruthful (D.truthful dice.old) (D.truthful dice.new) }
    ensures cause { IfErr result (λ _. Increased (D.faults dice.old) (D.faults dice.new)) }
    ensures faults { D.faults dice.old ≤ D.faults dice.new }
    ensures faultless { OnOk result (D.faults dice.new ≡ D.faults dice.old) }
{
    if !is_made {
        return Ok(Uuid::nil());
    }
    match draw_id(dice) {
        Ok(drawn) => Ok(new_id(drawn)),
        Err(fail) => Err(fail),
    }
}

/// The id of the bin that a removal makes, where it needs one.
pub(crate) fn bin_id(id: Uuid, doc: &Doc) -> Option<Uuid>
    ensures { result ≡ spec.bin_id id (doc_seen doc.now) }
{
    if needs_bin(doc) { Some(id) } else { None }
}
