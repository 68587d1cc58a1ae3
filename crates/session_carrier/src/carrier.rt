//! Attributes that carry a session through a RADIUS client (profile).

ghost use Rattle.std.specs.Prelude.{◌≡◌, ◌<◌, ◌↔◌, length, IfOk, IsErrOf};
ghost use Rattle.session_carrier.specs.Session.{class_text, state_text};

use std::alloc::{AllocError, AllocFailed, Global};
use std::error::Error;
use std::fmt;
use wire_core::Octets;

/// What each carrier begins with.
pub(crate) const PREFIX: &[u8] = b"Diameter/";

/// How many octets the value of a RADIUS attribute has at most (RFC 2865, section 5).
const LONGEST_VALUE: usize = 253;

#[derive(Clone, Copy, Debug, PartialEq, Eq, Hash)]
pub enum CarrierFault {
    /// The value would have more than 253 octets.
    TooLong,
    NoMemory,
}

impl fmt::Display for CarrierFault {
    fn fmt<W: fmt::Write>(&self, f: &mut fmt::Formatter<W>) -> fmt::Result {
        match self {
            CarrierFault::TooLong => write!(f, "the value has more than 253 octets"),
            CarrierFault::NoMemory => write!(f, "out of memory"),
        }
    }
}

impl Error for CarrierFault {}

impl From<AllocError> for CarrierFault {
    ghost use Rattle.std.specs.Prelude.{◌≡◌};
    ghost use Rattle.session_carrier.specs.declared.carrier.CarrierFault.TheVariants.{NoMemory};

    ghost from_gives = { λ _ e. e ≡ NoMemory };

    fn from(_e: AllocError) -> CarrierFault {
        CarrierFault::NoMemory
    }
}

impl<T: Drop> From<AllocFailed<T>> for CarrierFault {
    ghost use Rattle.std.specs.Prelude.{◌≡◌};
    ghost use Rattle.session_carrier.specs.declared.carrier.CarrierFault.TheVariants.{NoMemory};

    ghost from_gives = { λ _ e. e ≡ NoMemory };

    fn from(_e: AllocFailed<T>) -> CarrierFault {
        CarrierFault::NoMemory
    }
}

/// The Class `Diameter/` and the session.
#[tactic(auto, unfolding(crate::specs::Session::class_text))]
pub fn class_of(alloc: Global, session: &[u8]) -> Result<Octets, CarrierFault>
    ensures ok { IfOk result (λ c. c ≡ class_text session.now) }
    ensures too_long { IsErrOf result CarrierFault.TooLong
        ↔ (253 < length (class_text session.now)) }
{
    if session.len() > LONGEST_VALUE - PREFIX.len() {
        return Err(CarrierFault::TooLong);
    }
    let mut class = Vec::with_capacity(alloc, PREFIX.len() + session.len())?;
    class.extend_from_slice(PREFIX)?;
    class.extend_from_slice(session)?;
    Ok(Octets::from_vec(class))
}

/// The State `Diameter/`, the host, `/`, the realm, `/` and the session.
#[tactic(auto, unfolding(crate::specs::Session::state_text))]
pub fn state_of(
    alloc: Global,
    host: &[u8],
    realm: &[u8],
    session: &[u8],
) -> Result<Octets, CarrierFault>
    ensures ok { IfOk result (λ s. s ≡ state_text host.now realm.now session.now) }
    ensures too_long { IsErrOf result CarrierFault.TooLong
        ↔ (253 < length (state_text host.now realm.now session.now)) }
{
    let carried = host
        .len()
        .saturating_add(realm.len())
        .saturating_add(session.len());
    if carried > LONGEST_VALUE - PREFIX.len() - 2 {
        return Err(CarrierFault::TooLong);
    }
    let mut state = Vec::with_capacity(alloc, PREFIX.len() + carried + 2)?;
    state.extend_from_slice(PREFIX)?;
    state.extend_from_slice(host)?;
    state.push(b'/')?;
    state.extend_from_slice(realm)?;
    state.push(b'/')?;
    state.extend_from_slice(session)?;
    Ok(Octets::from_vec(state))
}
