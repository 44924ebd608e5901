//! The test of merging.
ghost use Rattle.std.specs.Prelude.{◌≡◌, ◌≤◌, false, IfErr, IfOk};
ghost use Rattle.vault_model.specs.SeenDoc.{doc_seen};
ghost use Rattle.merge_twins.specs.Twins.{first_twin, second_twin};
ghost use Rattle.cli_messages.specs.Phases.{IsPlainStop, Returns};
ghost use Rattle.cli_self_test.specs.SelfTest as spec;
ghost use Rattle.cli_self_test.specs.SelfTest.{first_merged, second_merged};

use crate::counting::counted;
use crate::hashing::hash_of;
use crate::merging::merged;
use crate::reporting::report;
use cli_messages::Stop;
use merge_twins::{Twins, twins};
use outside_core::NoMemory;
use secret_core::Secret;
use std::alloc::Global;
use vault_model::Doc;

// Whether a merge of the second result into the first changes it.
fn is_changed(alloc: Global, _count: u32, first: &Doc, second: &Doc) -> Result<bool, NoMemory>
    requires few { _count ≤ 50_000 }
    requires first { doc_seen first.now ≡ first_merged _count }
    requires second { doc_seen second.now ≡ second_merged _count }
    ensures { IfOk result (λ changed. changed ≡ false) }
{
    let again = merged(alloc, first, second)?;
    let changed = again.changed;
    drop(again);
    Ok(changed)
}

// What is printed of the two results.
fn told_of(alloc: Global, count: u32, first: &Doc, second: &Doc) -> Result<Secret, Stop>
    requires few { count ≤ 50_000 }
    requires first { doc_seen first.now ≡ first_merged count }
    requires second { doc_seen second.now ≡ second_merged count }
    ensures told { Returns (λ text. text.bytes) result (spec.self_test count) }
    ensures cause { IfErr result IsPlainStop }
{
    let counts = counted(alloc, first)?;
    let changed = is_changed(alloc, count, first, second)?;
    let one = hash_of(alloc, first)?;
    match hash_of(alloc, second) {
        Ok(other) => {
            let text = report(alloc, counts, one.as_str(), other.as_str(), changed);
            drop(other);
            drop(one);
            text
        }
        Err(stop) => {
            drop(one);
            Err(stop)
        }
    }
}

// What is printed of the two copies, which are merged into one another.
fn tested(alloc: Global, count: u32, first: &Doc, second: &Doc) -> Result<Secret, Stop>
    requires few { count ≤ 50_000 }
    requires first { doc_seen first.now ≡ first_twin count }
    requires second { doc_seen second.now ≡ second_twin count }
    ensures told { Returns (λ text. text.bytes) result (spec.self_test count) }
    ensures cause { IfErr result IsPlainStop }
{
    let one = merged(alloc, first, second)?;
    match merged(alloc, second, first) {
        Ok(other) => {
            let text = told_of(alloc, count, &one.doc, &other.doc);
            drop(other);
            drop(one);
            text
        }
        Err(NoMemory) => {
            drop(one);
            Err(Stop::NoMemory)
        }
    }
}

/// What `selftest` prints: two copies of a database of so many entries are merged into one another,
/// and then the second result into the first, which changes nothing.
///
/// # Errors
///
/// The refusal to write a result, which is about the words.
pub fn self_test(alloc: Global, count: u32) -> Result<Secret, Stop>
    requires { count ≤ 50_000 }
    ensures told { Returns (λ text. text.bytes) result (spec.self_test count) }
    ensures cause { IfErr result IsPlainStop }
{
    let Twins { first, second } = twins(alloc, count)?;
    let text = tested(alloc, count, &first, &second);
    drop(second);
    drop(first);
    text
}
