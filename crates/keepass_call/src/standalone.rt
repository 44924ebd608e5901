//! The commands that need no database, carried out.
ghost use Rattle.std.specs.Prelude.{◌≡◌, ◌≤◌, ◌++◌, ℕ, List, Some, IfErr, IfOk, OnOk, codes, false, true};
ghost use Rattle.outside_core.specs.Streams.{LosesPrefix};
ghost use Rattle.cli_messages.specs.Phases.{IsMemoryStop, IsPlainStop, IsStreamStop, Returns, TellsStream};
ghost use Rattle.cli_writing.specs.Writing.{Store};
ghost use Rattle.session_run.specs.CallRun.Endings.{Ends};
ghost use Rattle.session_run.specs.CliCommands.SeenChange.{output_text};
ghost use Rattle.cli_profiles.specs.Profiles.{IsProfile};
ghost use Rattle.cli_self_test.specs.SelfTest as spec;
ghost use Rattle.cli_standalone.specs.Standalone.{IsStandalone};
ghost use Rattle.keepass_call.specs.Outcome.{draws_alone, password_answer, standalone_answer};

use cli_generating::choose_password;
use cli_messages::Stop;
use cli_profiles::PasswordProfile;
use cli_self_test::self_test;
use cli_standalone::Standalone;
use outside_core::Dice;
use secret_core::Secret;
use session_run::cli_commands::Output;
use std::alloc::Global;

// The text that prints a password.
fn password_output(alloc: Global, password: Secret) -> Result<Output, Stop>
    ensures told { IfOk result (λ output. output_text output ≡ password.bytes ++ codes "\n") }
    ensures cause { IfErr result IsMemoryStop }
{
    let length = password.len();
    let Some(room) = length.checked_add(1) else {
        drop(password);
        return Err(Stop::NoMemory);
    };
    let Ok(mut line) = Secret::with_room(alloc, room) else {
        drop(password);
        return Err(Stop::NoMemory);
    };
    line.extend(password.lend(0, length));
    line.push(b'\n');
    drop(password);
    Ok(Output::Report(line))
}

// The password that words ask for, chosen by the dice.
fn password<D: Dice>(alloc: Global, dice: &mut D, profile: PasswordProfile) -> Result<Output, Stop>
    requires { IsProfile profile }
    ensures told { D.truthful dice.new ≡ true
        → (d : List ℕ) (s : Store) → D.stream dice.old ≡ Some d
        → Ends result (password_answer profile d) s s (D.stream dice.old) (D.stream dice.new) }
    ensures stream { LosesPrefix (D.stream dice.old) (D.stream dice.new) }
    ensures cause { IfErr result (IsStreamStop (D.faults dice.old) (D.faults dice.new)) }
    ensures faultless { OnOk result (D.faults dice.new ≡ D.faults dice.old) }
{
    let alphabet = profile.alphabet.as_str().as_bytes();
    let chosen = choose_password(alloc, dice, alphabet, profile.length);
    drop(profile);
    match chosen {
        Ok(password) => password_output(alloc, password),
        Err(stop) => Err(stop),
    }
}

// What a test of the program itself reports.
fn self_test_output(alloc: Global, count: u32) -> Result<Output, Stop>
    requires some { 1 ≤ count }
    requires most { count ≤ 50_000 }
    ensures told { Returns output_text result (spec.self_test count) }
    ensures cause { IfErr result IsPlainStop }
{
    match self_test(alloc, count) {
        Ok(report) => Ok(Output::Report(report)),
        Err(stop) => Err(stop),
    }
}

/// Carries out a command that needs no database.
pub(crate) fn answer_alone<D: Dice>(
    alloc: Global,
    dice: &mut D,
    standalone: Standalone,
) -> Result<Output, Stop>
    requires { IsStandalone standalone }
    ensures told { D.truthful dice.new ≡ true → (d : List ℕ) (s : Store)
        → TellsStream (draws_alone standalone) (D.stream dice.old) d
        → Ends result (standalone_answer standalone d) s s (D.stream dice.old)
        (D.stream dice.new) }
    ensures undrawn { draws_alone standalone ≡ false → D.stream dice.new ≡ D.stream dice.old }
    ensures stream { LosesPrefix (D.stream dice.old) (D.stream dice.new) }
    ensures cause { IfErr result (IsStreamStop (D.faults dice.old) (D.faults dice.new)) }
    ensures faultless { OnOk result (D.faults dice.new ≡ D.faults dice.old) }
{
    match standalone {
        Standalone::Password(profile) => password(alloc, dice, profile),
        Standalone::SelfTest(count) => self_test_output(alloc, count),
    }
}
