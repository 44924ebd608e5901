//! The ids of new nodes.
ghost use Rattle.std.specs.Prelude.{◌≡◌};
ghost use Rattle.cli_changes.specs.Ids as spec;

use uuid_core::Uuid;

/// The id that 16 drawn bytes make: of version 4, and of the variant that has such versions. The
/// other bits are those that were drawn.
pub fn new_id(drawn: [u8; 16]) -> Uuid
    ensures { result ≡ spec.new_id drawn }
{
    let version = drawn[6] % 16 + 64;
    let variant = drawn[8] % 64 + 128;
    let mut bytes = drawn;
    bytes[6] = version;
    bytes[8] = variant;
    Uuid::from_bytes(bytes)
}
