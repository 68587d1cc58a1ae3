//! What is printed: the lines of outputs, of what comes in, of settings, and of packets and messages that are shown (profile).
#![tactic(auto)]

mod event_printing;
mod printing;
mod settings_printing;
mod showing;

pub use event_printing::print_event;
pub use printing::{
    close_name, print, print_control, print_drop, print_end, print_end_with_controls, push_digits,
    reason_name, via_name, with_hex,
};
pub use settings_printing::print_settings;
pub use showing::{ShowFault, avp_fault_line, message_fault_line, packet_fault_line, show_line};
