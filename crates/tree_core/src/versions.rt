//! The versions of an entry by their numbers.

ghost use Rattle.std.specs.Prelude.{◌≡◌, option_map};
ghost use Rattle.vault_model.specs.SeenNodes.{bare_version, entry_record};
ghost use Rattle.tree_core.specs.Histories as spec;

use vault_model::{Entry, Version};

/// The version of an entry that has a number: the current one has 0, the newest of its history,
/// which is the last there, 1, and so on. Takes no memory.
pub fn version_numbered(entry: &Entry, number: u64) -> Option<&Version>
    ensures { option_map (λ v. bare_version v.now) result
        ≡ spec.version_numbered number (entry_record entry.now) }
{
    if number == 0 {
        return Some(&entry.current);
    }
    let at = (entry.history.len() as u64).checked_sub(number)?;
    entry.history.get(at as usize)
}
