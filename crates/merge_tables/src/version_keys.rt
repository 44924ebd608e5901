//! What distinguishes an entry's versions.
ghost use Rattle.std.specs.Prelude.{◌≡◌};
ghost use Rattle.std.specs.Ordering.{as_partial_cmp, eq_by_cmp};
ghost use Rattle.std.specs.Cmp.{eq_by_cmp_equiv, partial_equiv_from_equiv, partial_order_from_total};
ghost use Rattle.std.proofs.Common.{refl};
ghost use Rattle.vault_model.specs.Db.{mark_cmp};
ghost use Rattle.vault_model.specs.Seen.{bare_content};
ghost use Rattle.vault_model.proofs.Orders.{mark_order};

use std::cmp::Ordering;
use std::marker::Model;
use vault_model::{Content, Stamp, compare_content};

/// When a version was made and what it says, which a document lends.
#[derive(Drop)]
pub struct VersionKey<'a> {
    modified: Stamp,
    content: &'a Content,
}

impl<'a> Model for VersionKey<'a> {
    ghost use Rattle.vault_model.specs.Db.{Mark};
    ghost use Rattle.vault_model.specs.Seen.{bare_content};
    ghost use Rattle.merge_tables.specs.Codes.{mark_code};

    ghost Value = { Mark };

    ghost coded = { mark_code };

    ghost view = { λ m. record { modified = m.modified; content = bare_content m.content.now } };
}

impl<'a> VersionKey<'a> {
    /// The mark of a version.
    pub fn new(modified: Stamp, content: &'a Content) -> VersionKey<'a>
        ensures { result ≡ record { modified = modified; content = bare_content content.now } }
    {
        VersionKey { modified, content }
    }

    /// The same mark, to be kept elsewhere.
    pub fn again(&self) -> VersionKey<'a>
        ensures { result ≡ self.now }
    {
        VersionKey {
            modified: self.modified,
            content: self.content,
        }
    }

    /// When the version was made.
    pub fn modified(&self) -> Stamp
        ensures { result ≡ self.now.modified }
    {
        self.modified
    }

    /// What the version says.
    pub fn content(&self) -> &'a Content
        ensures { bare_content result.now ≡ self.now.content }
    {
        self.content
    }
}

impl<'a> PartialEq for VersionKey<'a> {
    ghost eq = { eq_by_cmp mark_cmp };

    ghost laws = { partial_equiv_from_equiv (eq_by_cmp_equiv mark_order.total) };

    fn eq(&self, other: &VersionKey<'a>) -> bool {
        self.cmp(other).is_eq()
    }
}

impl<'a> Eq for VersionKey<'a> {
    ghost laws = { eq_by_cmp_equiv mark_order.total };
}

impl<'a> PartialOrd for VersionKey<'a> {
    ghost partial_cmp = { as_partial_cmp mark_cmp };

    ghost laws = { partial_order_from_total mark_order.total };

    fn partial_cmp(&self, other: &VersionKey<'a>) -> Option<Ordering> {
        Some(self.cmp(other))
    }
}

impl<'a> Ord for VersionKey<'a> {
    ghost cmp = { mark_cmp };

    ghost total = { mark_order.total };

    ghost matches_partial_cmp = { λ x y. refl };

    ghost matches_eq = { λ x y. refl };

    #[tactic(auto, unfolding(vault_model::specs::Db::mark_cmp))]
    fn cmp(&self, other: &VersionKey<'a>) -> Ordering {
        self.modified
            .cmp(&other.modified)
            .then(compare_content(self.content, other.content))
    }
}
