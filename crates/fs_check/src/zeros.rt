//! Bytes that are zero.

ghost use Rattle.std.specs.Prelude.{◌≡◌, ◌<◌, ◌≤◌, ℕ, length, get_or, IsTrue, ◌↔◌};

const ZEROS: [u8; 512] = [0; 512];

/// All of them are zero. Not stopping at the first other byte, it tests many at once.
pub(crate) fn are_zero(bytes: &[u8]) -> bool
    ensures { IsTrue result ↔ ((i : ℕ) → i < length bytes.now → get_or bytes.now i 0 ≡ 0) }
{
    let mut zero = true;
    for byte in bytes {
        zero &= *byte == 0;
    }
    zero
}

/// The bytes of a sector from number `first` on are zero. They are compared with zeros, which tests many at once however many
/// they are.
pub(crate) fn ends_in_zeros(content: &[u8; 512], first: usize) -> bool
    requires { first ≤ 512 }
    ensures { IsTrue result ↔ ((i : ℕ) → first ≤ i → i < 512 → get_or content.now i 0 ≡ 0) }
{
    content[first..] == ZEROS[first..]
}
