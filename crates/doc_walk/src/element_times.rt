//! Times.

ghost use Rattle.std.specs.Prelude.{◌≡◌};
ghost use Rattle.doc_forms.specs.Children.{by_name};
ghost use Rattle.doc_forms.specs.Tables as spec;
ghost use Rattle.doc_walk.specs.Steps.{Steps};
ghost use Rattle.doc_walk.specs.Tags.{contents_step};

use crate::containers::{Parts, hold};
use crate::walk::{Tag, Walk};
use doc_forms::{DocFail, Times};
use doc_values::{FalseUnlessTrue, Number64, TimeValue};
use vault_model::Stamp;

impl Parts for Times {
    ghost use Rattle.doc_forms.specs.declared.times.Times.{Times};

    ghost Bare = { Times };

    ghost seen = { λ t. t };

    ghost child = { λ s. by_name s (spec.times_rows s) };

    fn read_child(&mut self, walk: &mut Walk<'_>, tag: &Tag<'_>) -> Result<(), DocFail> {
        match tag.name {
            "LastModificationTime" => walk.keep::<TimeValue>(tag, &mut self.modified),
            "CreationTime" => walk.keep::<TimeValue>(tag, &mut self.created),
            "LastAccessTime" => walk.keep::<TimeValue>(tag, &mut self.accessed),
            "ExpiryTime" => walk.keep::<TimeValue>(tag, &mut self.expiry),
            "Expires" => walk.keep::<FalseUnlessTrue>(tag, &mut self.expires),
            "UsageCount" => walk.keep::<Number64>(tag, &mut self.usage),
            "LocationChanged" => walk.keep::<TimeValue>(tag, &mut self.placed),
            _ => walk.pass(tag),
        }
    }
}

/// The first second of the year 1.
pub fn never() -> Stamp
    ensures { result ≡ 0 }
{
    Stamp::of(0).unwrap()
}

/// The times where no element says any.
pub fn no_times() -> Times
    ensures { result ≡ spec.no_times }
{
    Times {
        modified: never(),
        created: never(),
        accessed: never(),
        expiry: never(),
        expires: false,
        usage: 0,
        placed: never(),
    }
}

/// The `Times` of a group, an entry or a history item, whose start tag was given, put in their
/// place.
pub fn times(walk: &mut Walk<'_>, tag: &Tag<'_>, into: &mut Times) -> Result<(), DocFail>
    ensures { Steps (λ _. into.new) walk.old walk.new result
        (contents_step (λ s. by_name s (spec.times_rows s)) spec.no_times tag.now) }
{
    hold(walk, tag, no_times(), into)
}
