//! Fronts of bytes.

ghost use Rattle.std.specs.Prelude.{◌≡◌, ◌≤◌, length, drop};

/// The bytes from a place on.
#[inline(always)]
pub fn after(bytes: &[u8], place: usize) -> &[u8]
    requires { place ≤ length bytes.now }
    ensures { result.now ≡ drop place bytes.now }
{
    &bytes[place..]
}
