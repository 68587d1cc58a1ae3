//! Lists of Diameter AVPs (RFC 6733, section 4), read in place and written.
//!
//! `avps` gives the AVPs of a list in order, and where one has a fault that fault and then nothing
//! more. Contracts see the iterator as the list of the items that are left, at first `avp_items`
//! of the octets. So the invariant of a loop over it says that what was found so far, carried on
//! over what is left, is what the whole list gives:
//!
//! ```text
//! for item in avps(octets) { sum = next(sum, item?); }
//!
//! invariant-loop-item l =
//!     (fault_of l.item-iterator ≡ avps_fault l.octets)
//!     × (fold next l.sum (ok_prefix l.item-iterator) ≡ fold next 0 (readable_avps l.octets))
//! ```
//!
//! Each turn then proves itself, whether the loop ends at a fault by `?` or goes on to another
//! answer. `proofs/CallerLemmas.antt` leads from the fault and the readable AVPs to `read_avps`,
//! and the functions of `laws` state that reading and writing are inverse.
//!
//! `AvpWriter` writes a list. A group in it is open from `begin_group` to `end_group`, and contracts
//! see it meanwhile as an AVP without a body, behind which its members are put. What `end_group`
//! requires follows by `proofs/GroupLemmas.antt`: `IsOpen-begun` where the group begins, and then
//! `IsOpen-put` or `IsOpen-ended` for each member.
#![tactic(auto)]

mod append;
mod avp;
mod fault;
mod items;
pub mod laws;
mod making;
mod reading;
mod writer;

pub use avp::Avp;
pub use fault::AvpFault;
pub use items::Avps;
pub use reading::{avps, check_avps};
pub use writer::{AvpWriter, Group, WriteFault};
