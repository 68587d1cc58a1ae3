//! One step of the agent: what goes out for what comes in, by the whole history of inputs.
#![tactic(auto)]

mod answers;
mod core_step;
mod datagrams;
mod laws;
mod ledger;
mod links;
mod messages;
mod requests;
mod verdict;

pub use agent_events::{Input, Output, Outputs};
pub use core_step::Core;
pub use laws::{
    acceptances_are_guarded, answers_settle, disconnect_requests_are_last, drops_are_quiet,
    fresh_sessions_differ, home_requests_are_answered_once, idle_inputs_change_no_output,
    idle_inputs_may_be_left_out, links_begin_with_capabilities, nothing_is_sent_without_a_link,
    outputs_are_few, past_goes_on, replies_are_the_same, replies_go_to_clients,
    requests_are_matched_once, requests_are_numbered, requests_go_where_the_link_serves,
    requests_of_one_key_are_apart, requests_reach_over_links, room_is_left, sends_are_images,
    silent_links_close, ticks_watch_the_link,
};
