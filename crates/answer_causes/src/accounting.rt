//! Answers to requests for accounting.

ghost use Rattle.std.specs.Prelude.{◌≡◌};
ghost use Rattle.translation.specs.AvpList.{list_view};
ghost use Rattle.answer_causes.specs.Causes as specs;

use crate::access::unknown;
use crate::cause::Cause;
use diameter_avp::Avp;
use diameter_message::{Header, is_success};
use session_carrier::Kept;
use translation::{has_own_session, is_error, result_code};

/// Why a record wasn't taken.
pub(crate) fn accounting_cause(kept: &Kept, header: &Header, list: &[Avp<'_>]) -> Option<Cause>
    ensures { result ≡ specs.accounting_cause kept.now header.now (list_view list.now) }
{
    let result = result_code(list);
    if is_error(header) {
        return Some(Cause::Error { result });
    }
    if !has_own_session(list, kept.session.as_slice()) {
        return Some(Cause::OtherSession);
    }
    if let Some(cause) = unknown(list) {
        return Some(cause);
    }
    if is_success(result) {
        None
    } else {
        Some(Cause::Refused { result })
    }
}
