//! The check of a file's MAC.

ghost use Rattle.std.specs.Prelude.{◌≡◌, ℕ, List};
ghost use Rattle.mac_core.specs.Hmac.{hmac};
ghost use Rattle.mac_core.specs.Hmac256.{HasAbsorbed};
ghost use Rattle.psafe_file.specs.Macs.{mac_check};

use crate::PsafeFail;
use mac_core::Hmac256;

/// Checks the MAC that a file keeps against the one that was computed of the contents of its
/// fields.
///
/// # Errors
///
/// Mac, with both, where they differ.
pub fn check_mac(kept: &[u8; 32], computed: Hmac256) -> Result<(), PsafeFail>
    ensures { (key message : List ℕ) → HasAbsorbed computed key message
        → result ≡ mac_check kept.now (hmac key message) }
{
    let found = computed.finish();
    if *kept != found {
        return Err(PsafeFail::Mac { kept: *kept, found });
    }
    Ok(())
}
