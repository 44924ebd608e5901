//! Which fields of a new entry are hidden.

ghost use Rattle.std.specs.Prelude.{◌≡◌};
ghost use Rattle.vault_model.specs.Empty.{new_protection};
ghost use Rattle.doc_forms.specs.Children.{by_name};
ghost use Rattle.doc_forms.specs.Metas as spec;
ghost use Rattle.doc_walk.specs.Steps.{Steps};
ghost use Rattle.doc_walk.specs.Tags.{contents_step};

use doc_forms::DocFail;
use doc_walk::doc_values::{FalseUnlessTrue, TrueUnlessFalse};
use doc_walk::{Parts, Tag, Walk, read_whole};
use vault_model::Protection;

/// What is known of a `MemoryProtection` before its end.
#[derive(Drop)]
struct ProtectionDraft {
    protection: Protection,
}

impl Parts for ProtectionDraft {
    ghost use Rattle.vault_model.specs.declared.metas.Protection.{Protection};

    ghost Bare = { Protection };

    ghost seen = { λ d. d.protection };

    ghost child = { λ s. by_name s (spec.protection_rows s) };

    fn read_child(&mut self, walk: &mut Walk<'_>, tag: &Tag<'_>) -> Result<(), DocFail> {
        match tag.name {
            "ProtectTitle" => walk.keep::<FalseUnlessTrue>(tag, &mut self.protection.title),
            "ProtectUserName" => walk.keep::<FalseUnlessTrue>(tag, &mut self.protection.user),
            "ProtectPassword" => walk.keep::<TrueUnlessFalse>(tag, &mut self.protection.password),
            "ProtectURL" => walk.keep::<FalseUnlessTrue>(tag, &mut self.protection.url),
            "ProtectNotes" => walk.keep::<FalseUnlessTrue>(tag, &mut self.protection.notes),
            _ => walk.pass(tag),
        }
    }
}

/// What is hidden where the document does not say it: the password.
pub(crate) fn password_alone() -> Protection
    ensures { result ≡ new_protection }
{
    Protection {
        title: false,
        user: false,
        password: true,
        url: false,
        notes: false,
    }
}

/// A `MemoryProtection`, whose start tag was given, put in its place.
pub(crate) fn protection(
    walk: &mut Walk<'_>,
    tag: &Tag<'_>,
    into: &mut Protection,
) -> Result<(), DocFail>
    ensures { Steps (λ _. into.new) walk.old walk.new result
        (contents_step (λ s. by_name s (spec.protection_rows s)) new_protection tag.now) }
{
    let first = ProtectionDraft {
        protection: password_alone(),
    };
    match read_whole(walk, tag, first) {
        Ok(draft) => {
            *into = draft.protection;
            Ok(())
        }
        Err(refusal) => Err(refusal),
    }
}
