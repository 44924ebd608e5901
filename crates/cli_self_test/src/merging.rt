//! One document merged into another, which is never refused.
ghost use Rattle.std.specs.Prelude.{◌≡◌, [], ◌∷◌, false, IfOk, IsOk, Ok};
ghost use Rattle.vault_model.specs.SeenDoc.{doc_seen};
ghost use Rattle.merge_again.specs.DocumentMerge.Merging.{merge_result};

use merge_again::document_merge::merging::{MergeFail, Merged, merge_lent};
use outside_core::NoMemory;
use std::alloc::Global;
use std::slice::from_ref;
use vault_model::Doc;

// The refusal that is left where only that of memory can come.
fn only_memory(why: MergeFail) -> NoMemory
    requires { why ≡ MergeFail.NoMemory }
{
    match why {
        MergeFail::NoMemory => NoMemory,
        _ => unreachable!(),
    }
}

/// A document with another merged into it. The only refusal is that memory ran out.
pub(crate) fn merged(alloc: Global, target: &Doc, source: &Doc) -> Result<Merged, NoMemory>
    requires { IsOk (merge_result (doc_seen target.now) (doc_seen source.now ∷ [])) }
    ensures doc { IfOk result (λ merged. merge_result (doc_seen target.now)
        (doc_seen source.now ∷ []) ≡ Ok (doc_seen merged.doc)) }
    ensures same { IfOk result (λ merged. doc_seen merged.doc ≡ doc_seen target.now
        → merged.changed ≡ false) }
{
    match merge_lent(alloc, target, from_ref(source)) {
        Ok(merged) => Ok(merged),
        Err(why) => Err(only_memory(why)),
    }
}
