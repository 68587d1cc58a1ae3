//! Whether the home server took a record (RFC 6733, section 9.4).

ghost use Rattle.std.specs.Prelude.{◌≡◌, IfOk};
ghost use Rattle.diameter_message.specs.View.{message_view};
ghost use Rattle.translation.specs.AvpList.{list_view};
ghost use Rattle.translation.specs.Acceptance as specs;

use crate::access_answers::{is_error, result_code};
use crate::answer_reading::{has_own_session, has_unknown};
use crate::avp_list::read;
use diameter_avp::Avp;
use diameter_message::{Header, Message, is_success};
use session_carrier::Kept;
use std::alloc::Global;
use wire_core::NoMemory;

fn is_acceptance(kept: &Kept, header: &Header, list: &[Avp<'_>]) -> bool
    ensures { result ≡ specs.is_acceptance kept.now header.now (list_view list.now) }
{
    !is_error(header)
        && has_own_session(list, kept.session.as_slice())
        && !has_unknown(list)
        && is_success(result_code(list))
}

/// Whether an answer without flag E, for this session and without an unknown AVP that must be understood, has a
/// Result-Code of success.
pub fn is_accepted(alloc: Global, kept: &Kept, message: &Message<'_>) -> Result<bool, NoMemory>
    ensures { IfOk result
        (λ accepted. accepted ≡ specs.is_accepted kept.now (message_view message.now)) }
{
    match read(alloc, message.avps)? {
        Some(list) => Ok(is_acceptance(kept, &message.header, list.as_slice())),
        None => Ok(false),
    }
}
