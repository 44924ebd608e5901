//! The times of changes.

ghost use Rattle.std.specs.Prelude.{◌≡◌};
ghost use Rattle.tree_core.specs.After as spec;

use tree_core::TreeFail;
use vault_model::Stamp;

/// The later of now and a second after another time, or a refusal where that is after the year 9999.
pub fn time_after(now: Stamp, time: Stamp) -> Result<Stamp, TreeFail>
    ensures { result ≡ spec.time_after now time }
{
    let later = now.seconds().max(time.seconds() + 1);
    match Stamp::of(later) {
        Some(stamp) => Ok(stamp),
        None => Err(TreeFail::StampLimit(later)),
    }
}
