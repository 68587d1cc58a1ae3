//! The two kinds of name (profile).

ghost use Rattle.std.specs.Prelude.{◌≡◌};
ghost use Rattle.std.specs.List.{list_all};
ghost use Rattle.wire_core.specs.Words as words;

/// Whether each octet is one of an identity's.
fn all_identity_octets(octets: &[u8]) -> bool
    ensures { result ≡ list_all words.is_identity_octet octets.now }
{
    octets.iter().all(|c| c.is_ascii_alphanumeric() || *c == b'-' || *c == b'.' || *c == b'_')
}

/// Whether each octet is visible in ASCII.
fn all_visible(octets: &[u8]) -> bool
    ensures { result ≡ list_all words.is_visible octets.now }
{
    octets.iter().all(|c| 0x21 <= *c && *c <= 0x7e)
}

/// Whether this is the name of a host or a realm: 1 to 255 octets, each a letter, a digit, `-`, `.` or `_`.
pub fn is_identity(octets: &[u8]) -> bool
    ensures { result ≡ words.is_identity octets.now }
{
    1 <= octets.len() && octets.len() <= 255 && all_identity_octets(octets)
}

/// Whether this is a Session-Id that a carrier may hold: one or more octets, each from 0x21 to 0x7e.
pub fn is_session_text(octets: &[u8]) -> bool
    ensures { result ≡ words.is_session_text octets.now }
{
    1 <= octets.len() && all_visible(octets)
}
