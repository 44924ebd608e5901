//! The bytes of an attachment and whether they are hidden, as a key.

ghost use Rattle.std.specs.Prelude.{◌≡◌, true};
ghost use Rattle.std.specs.Ordering.{as_partial_cmp, eq_by_cmp, on};
ghost use Rattle.std.specs.Cmp.{eq_by_cmp_equiv, on_total, partial_equiv_from_equiv, partial_order_from_total};
ghost use Rattle.std.proofs.Common.{refl};
ghost use Rattle.doc_spelling.specs.Ranges.{are_bytes};
ghost use Rattle.doc_sinks.specs.Pairs.{pool_pair, pool_pair_cmp, pool_pair_total};

use std::cmp::Ordering;
use vault_model::Attachment;

/// The bytes of an attachment, and whether they are hidden.
#[derive(Clone, Copy)]
pub(crate) struct Pair<'a> {
    pub(crate) bytes: &'a [u8],
    pub(crate) hidden: bool,
}

impl<'a> Pair<'a> {
    /// That of these bytes.
    fn new(bytes: &'a [u8], hidden: bool) -> Pair<'a>
        ensures pair { pool_pair result ≡ (bytes.now, hidden) }
        ensures fits { are_bytes bytes.now ≡ true }
    {
        Pair { bytes, hidden }
    }

    /// That of an attachment.
    pub(crate) fn of(file: &'a Attachment) -> Pair<'a>
        ensures pair { pool_pair result ≡ (file.now.bytes.value.bytes, file.now.hidden) }
        ensures fits { are_bytes file.now.bytes.value.bytes ≡ true }
    {
        Pair::new(file.bytes.lend(0, file.bytes.len()), file.hidden)
    }
}

impl PartialEq for Pair<'_> {
    ghost eq = { eq_by_cmp (on pool_pair pool_pair_cmp) };

    ghost laws = { partial_equiv_from_equiv (eq_by_cmp_equiv (on_total pool_pair pool_pair_total)) };

    fn eq(&self, other: &Pair<'_>) -> bool {
        self.cmp(other).is_eq()
    }
}

impl Eq for Pair<'_> {
    ghost laws = { eq_by_cmp_equiv (on_total pool_pair pool_pair_total) };
}

impl PartialOrd for Pair<'_> {
    ghost partial_cmp = { as_partial_cmp (on pool_pair pool_pair_cmp) };

    ghost laws = { partial_order_from_total (on_total pool_pair pool_pair_total) };

    fn partial_cmp(&self, other: &Pair<'_>) -> Option<Ordering> {
        Some(self.cmp(other))
    }
}

impl Ord for Pair<'_> {
    ghost cmp = { on pool_pair pool_pair_cmp };

    ghost total = { on_total pool_pair pool_pair_total };

    ghost matches_partial_cmp = { λ x y. refl };

    ghost matches_eq = { λ x y. refl };

    #[tactic(auto, unfolding(crate::specs::Pairs::pool_pair_cmp))]
    fn cmp(&self, other: &Pair<'_>) -> Ordering {
        self.bytes
            .cmp(other.bytes)
            .then(self.hidden.cmp(&other.hidden))
    }
}
