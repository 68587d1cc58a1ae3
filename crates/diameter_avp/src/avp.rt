//! One AVP, read in place.

ghost use Rattle.std.specs.Prelude.{◌≡◌, ◌==◌, not, bit_and};

/// The V flag, set where a Vendor-ID stands.
pub(crate) const VENDOR: u8 = 0x80;

/// The M flag.
pub(crate) const MANDATORY: u8 = 0x40;

/// An AVP of a list (RFC 6733, section 4.1), whose body lies in the list's octets.
#[derive(Clone, Copy)]
pub struct Avp<'a> {
    /// The AVP Code.
    pub code: u32,
    /// The Vendor-ID, which is there exactly where the V flag (0x80) is set.
    pub vendor: Option<u32>,
    /// Whether the M flag (0x40) is set.
    pub mandatory: bool,
    /// All flags, the reserved ones too.
    pub flags: u8,
    /// The data, without padding.
    pub body: &'a [u8],
    ghost flag: { mandatory ≡ not (bit_and flags 64 == 0) },
}
