//! Sessions, the attributes that carry them, and what is kept of a request while its answer is awaited.
#![tactic(auto)]

mod carrier;
mod kept;
mod laws;
mod reading;
mod session;

pub use carrier::{CarrierFault, class_of, state_of};
pub use kept::{Kept, Kind2, Numbers, Outcome, Route};
pub use laws::{
    accounting_sessions_are_texts, accounting_sessions_have_length, classes_are_read_back,
    classes_have_length, classes_have_one_reading, fresh_sessions_are_short,
    fresh_sessions_are_texts, fresh_sessions_differ, states_are_read_back, states_have_length,
    states_have_one_reading,
};
pub use reading::{Carried, read_class, read_state};
pub use session::{accounting_session, fresh};
