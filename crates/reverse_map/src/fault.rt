//! Why a request becomes no packet.

use wire_core::NoMemory;

/// Why a Diameter request becomes no packet of RADIUS (profile).
#[derive(Drop)]
pub enum ReverseFault {
    /// An AVP with flag M isn't understood: DIAMETER_AVP_UNSUPPORTED (RFC 6733, section 7.1.5).
    Unsupported,
    /// An AVP is a key or no attribute can hold it, what the packet needs isn't clear, or the packet would be too long:
    /// DIAMETER_UNABLE_TO_COMPLY.
    Unable,
    /// Memory ran out.
    NoMemory,
}

impl From<NoMemory> for ReverseFault {
    ghost use Rattle.std.specs.Prelude.{◌≡◌};
    ghost use Rattle.reverse_map.specs.declared.fault.ReverseFault.TheVariants as faults;

    ghost from_gives = { λ _ e. e ≡ faults.NoMemory };

    fn from(_e: NoMemory) -> ReverseFault {
        ReverseFault::NoMemory
    }
}
