//! Digests, compared.

ghost use Rattle.std.specs.Prelude.{◌≡◌, length, nat_eq};
ghost use Rattle.std.specs.Cmp.Lexicographic.{pointwise};

/// Whether two digests of one length are equal. All octets are looked at, so that the time doesn't tell a sender
/// how many of them are right.
pub(crate) fn are_equal(one: &[u8], other: &[u8]) -> bool
    requires { length one.now ≡ length other.now }
    ensures { result ≡ pointwise nat_eq one.now other.now }
{
    let mut difference = 0;
    for (x, y) in one.iter().zip(other) {
        difference |= x ^ y;
    }
    difference == 0
}
