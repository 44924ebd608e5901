//! What a version of an entry and a group hold, and their orders.

ghost use Rattle.std.specs.Prelude.{◌≡◌};
ghost use Rattle.vault_model.specs.Orders.{attachment_cmp, content_cmp, field_cmp, group_content_cmp};
ghost use Rattle.vault_model.specs.Seen.{bare_attachment, bare_content, bare_field};
ghost use Rattle.std.specs.Ordering.{as_partial_cmp, eq_by_cmp, on};
ghost use Rattle.std.specs.Cmp.{eq_by_cmp_equiv, on_total, partial_equiv_from_equiv, partial_order_from_total};
ghost use Rattle.std.proofs.Common.{refl};
ghost use Rattle.vault_model.specs.TotalOrders.{attachment_cmp_total, field_cmp_total};

pub mod laws;

use secret_core::Secret;
use secret_core::outside_core::{List, Text};
use std::cmp::Ordering;
use std::rc::Rc;
use time_core::Stamp;
use uuid_core::Uuid;

/// A custom item: a key with its value, and when it was changed.
#[derive(PartialEq, Eq, PartialOrd, Ord, Drop)]
pub struct Item {
    pub key: Text,
    pub value: Text,
    pub changed: Stamp,
}

/// A window's title and the key strokes that are typed into it.
#[derive(PartialEq, Eq, PartialOrd, Ord, Drop)]
pub struct Association {
    pub window: Text,
    pub keys: Text,
}

/// How an entry is typed into windows.
#[derive(PartialEq, Eq, PartialOrd, Ord, Drop)]
pub struct AutoType {
    pub enabled: bool,
    pub obfuscation: u32,
    pub sequence: Text,
    pub pairs: List<Association>,
}

/// When a version was last looked at, and how often it was used.
#[derive(Clone, Copy)]
pub struct Stats {
    pub accessed: Stamp,
    pub usage: u64,
}

/// A choice that a group takes from its parent unless it makes it itself.
#[derive(Clone, Copy, PartialEq, Eq, PartialOrd, Ord)]
pub enum Tri {
    Inherit,
    No,
    Yes,
}

/// What a group says of itself.
#[derive(PartialEq, Eq, PartialOrd, Ord, Drop)]
pub struct GroupContent {
    pub created: Stamp,
    pub expiry: Stamp,
    pub expires: bool,
    pub name: Text,
    pub notes: Text,
    pub icon: u32,
    pub custom_icon: Option<Uuid>,
    pub sequence: Text,
    pub auto_type: Tri,
    pub searching: Tri,
    pub items: List<Item>,
    pub tags: Text,
}

/// A field of an entry: its key, its value in UTF-8, and whether the value is hidden when it is
/// shown.
#[derive(Drop)]
pub struct Field {
    pub key: Text,
    pub value: Secret,
    pub hidden: bool,
}

impl PartialEq for Field {
    ghost eq = { eq_by_cmp (on bare_field field_cmp) };

    ghost laws = { partial_equiv_from_equiv (eq_by_cmp_equiv (on_total bare_field field_cmp_total)) };

    fn eq(&self, other: &Field) -> bool {
        self.cmp(other).is_eq()
    }
}

impl Eq for Field {
    ghost laws = { eq_by_cmp_equiv (on_total bare_field field_cmp_total) };
}

impl PartialOrd for Field {
    ghost partial_cmp = { as_partial_cmp (on bare_field field_cmp) };

    ghost laws = { partial_order_from_total (on_total bare_field field_cmp_total) };

    fn partial_cmp(&self, other: &Field) -> Option<Ordering> {
        Some(self.cmp(other))
    }
}

impl Ord for Field {
    ghost cmp = { on bare_field field_cmp };

    ghost total = { on_total bare_field field_cmp_total };

    ghost matches_partial_cmp = { λ x y. refl };

    ghost matches_eq = { λ x y. refl };

    #[tactic(auto, unfolding(crate::specs::Orders::field_cmp))]
    fn cmp(&self, other: &Field) -> Ordering {
        self.key.cmp(&other.key).then(
            self.value
                .lend(0, self.value.len())
                .cmp(other.value.lend(0, other.value.len()))
                .then(self.hidden.cmp(&other.hidden)),
        )
    }
}

/// A file attached to an entry; versions that have the same file share its bytes.
#[derive(Drop)]
pub struct Attachment {
    pub name: Text,
    pub bytes: Rc<Secret>,
    pub hidden: bool,
}

impl PartialEq for Attachment {
    ghost eq = { eq_by_cmp (on bare_attachment attachment_cmp) };

    ghost laws = { partial_equiv_from_equiv (eq_by_cmp_equiv
        (on_total bare_attachment attachment_cmp_total)) };

    fn eq(&self, other: &Attachment) -> bool {
        self.cmp(other).is_eq()
    }
}

impl Eq for Attachment {
    ghost laws = { eq_by_cmp_equiv (on_total bare_attachment attachment_cmp_total) };
}

impl PartialOrd for Attachment {
    ghost partial_cmp = { as_partial_cmp (on bare_attachment attachment_cmp) };

    ghost laws = { partial_order_from_total (on_total bare_attachment attachment_cmp_total) };

    fn partial_cmp(&self, other: &Attachment) -> Option<Ordering> {
        Some(self.cmp(other))
    }
}

impl Ord for Attachment {
    ghost cmp = { on bare_attachment attachment_cmp };

    ghost total = { on_total bare_attachment attachment_cmp_total };

    ghost matches_partial_cmp = { λ x y. refl };

    ghost matches_eq = { λ x y. refl };

    #[tactic(auto, unfolding(crate::specs::Orders::attachment_cmp))]
    fn cmp(&self, other: &Attachment) -> Ordering {
        self.name.cmp(&other.name).then(
            self.bytes
                .lend(0, self.bytes.len())
                .cmp(other.bytes.lend(0, other.bytes.len()))
                .then(self.hidden.cmp(&other.hidden)),
        )
    }
}

/// What a version of an entry says; `quality` is whether its password counts in reports.
#[derive(PartialEq, Eq, PartialOrd, Ord, Drop)]
pub struct Content {
    pub created: Stamp,
    pub expiry: Stamp,
    pub expires: bool,
    pub icon: u32,
    pub custom_icon: Option<Uuid>,
    pub fields: List<Field>,
    pub attachments: List<Attachment>,
    pub tags: Text,
    pub fore: Text,
    pub back: Text,
    pub url_override: Text,
    pub auto_type: AutoType,
    pub items: List<Item>,
    pub quality: bool,
}

/// Orders what two versions say, field by field as the fields are listed: texts and bytes by their
/// bytes, false below true, nothing below something, lists as dictionaries order words.
pub fn compare_content(a: &Content, b: &Content) -> Ordering
    ensures { result ≡ content_cmp (bare_content a.now) (bare_content b.now) }
{
    a.cmp(b)
}

/// Orders what two groups say, in the same way; a choice left to the parent is below no, and no
/// below yes.
pub fn compare_group(a: &GroupContent, b: &GroupContent) -> Ordering
    ensures { result ≡ group_content_cmp a.now b.now }
{
    a.cmp(b)
}
