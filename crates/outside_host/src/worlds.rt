//! The world that the host's objects report, which only proofs read.
ghost use Rattle.std.specs.Prelude.{◌≡◌, [], true};
ghost use Rattle.std.specs.FinMap as map;

use crate::ghosts::{Ghost, Shows};
use outside_core::Bytes;
use std::marker::Model;

/// Files, as only proofs see them.
#[derive(Drop)]
pub(crate) struct ShownFiles {}

impl Model for ShownFiles {
    ghost use Rattle.outside_core.specs.Files.{FileMap};
    ghost use Rattle.outside_host.specs.Host.{files_code};
    ghost use Rattle.std.specs.FinMap.{empty};

    ghost Value = { FileMap };

    ghost coded = { files_code };

    ghost view = { λ _. empty };
}

/// The files that an object reports.
pub(crate) type ReportedFiles = Ghost<ShownFiles>;

/// The bytes that an object reports.
pub(crate) type ReportedBytes = Ghost<Bytes>;

/// Whether each answer so far was that of what an object reports.
pub(crate) type Truthful = Ghost<bool>;

/// An outside: files by name, bytes of input, and random bytes. It stands for what the host is taken
/// to hold when a call begins, takes no memory, and nothing is known of it: whatever is proved of
/// objects that report it holds for each outside whose answers the host gave.
#[derive(Drop)]
pub struct World {
    files: ReportedFiles,
    input: ReportedBytes,
    dice: ReportedBytes,
}

impl Model for World {
    ghost use Rattle.outside_host.specs.Host.{World as Start, world_code};

    ghost Value = { Start };

    ghost coded = { world_code };

    ghost view = { λ w. record {
      files = w.files.value;
      input = w.input.value;
      dice = w.dice.value;
    } };
}

// What is put where nothing is to be said.
#[derive(Drop)]
struct Anything {}

impl Shows<ShownFiles> for Anything {
    ghost shown = { λ _. map.empty };
}

impl Shows<Bytes> for Anything {
    ghost shown = { λ _. [] };
}

impl World {
    /// Any outside: no contract says what it holds, so that nothing is promised of it here.
    pub fn any() -> World {
        let anything = Anything {};
        World {
            files: Ghost::of(&anything),
            input: Ghost::of(&anything),
            dice: Ghost::of(&anything),
        }
    }

    /// Its files.
    pub(crate) fn files(&self) -> ReportedFiles
        ensures { result.value ≡ self.now.files }
    {
        Ghost::of(&self.files)
    }

    /// Its bytes of input.
    pub(crate) fn input(&self) -> ReportedBytes
        ensures { result.value ≡ self.now.input }
    {
        Ghost::of(&self.input)
    }

    /// Its random bytes.
    pub(crate) fn dice(&self) -> ReportedBytes
        ensures { result.value ≡ self.now.dice }
    {
        Ghost::of(&self.dice)
    }
}

// That nothing was answered.
#[derive(Clone, Copy)]
struct NoAnswer {}

impl Shows<bool> for NoAnswer {
    ghost shown = { λ _. true };
}

/// An object is truthful before its first answer.
pub(crate) fn no_answer() -> Truthful
    ensures { result.value ≡ true }
{
    Ghost::of(&NoAnswer {})
}
