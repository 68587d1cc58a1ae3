//! What the maps of requests and answers have in common (RFC 4005, section 9).
#![tactic(auto)]

mod acceptance;
mod access_answers;
mod answer_reading;
pub mod avp_list;
mod class;
mod codes;
mod direction;
mod groups;
mod heads;
mod images;
mod judging;
mod laws;
mod names;
mod proxies;
mod pushing;
mod replies;
mod routes;
mod seen;
mod service;
mod terminations;
mod values;

pub use acceptance::is_accepted;
pub use access_answers::{answer, is_error, result_code};
pub use answer_reading::{
    fits_vendor, goes_back, has_bad_payload, has_own_session, holds_key, is_bad_timeout, is_group,
    is_key_avp, is_unknown, kind_of,
};
pub use class::Class;
pub use direction::{Direction, goes};
pub use heads::{is_eap, put_auth_head};
pub use images::{put_common, put_parts};
pub use judging::Faults;
pub use laws::{passes_find_the_faults, passes_give_the_pieces};
pub use names::put_names;
pub use proxies::proxy_states;
pub use pushing::{Unfit, pass_over, push, push_fitting, push_value, takes_vendors};
pub use replies::{bare_reply, carrier_value, is_too_long};
pub use routes::{carried_class, carried_state, name_realm};
pub use seen::Seen;
pub use service::Service;
pub use terminations::termination;
pub use values::are_good;
