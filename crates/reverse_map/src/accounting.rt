//! The attributes of an Accounting-Request (RFC 2866, section 5; RFC 2869, section 5).

ghost use Rattle.std.specs.Prelude.{◌≡◌, ◌≤◌, ◌==◌, true, not, [], ◌∷◌, length, is_ok, if◌then◌else◌};
ghost use Rattle.wire_core.specs.Numbers.{number, u32 as text32};
ghost use Rattle.radius_packet.specs.Seals.{reply_length};
ghost use Rattle.diameter_avp.specs.View.{avp_view};
ghost use Rattle.translation.specs.AvpList.{list_view};
ghost use Rattle.translation.specs.Pushing.{Pushes};
ghost use Rattle.translation.specs.Replies.{attribute};
ghost use Rattle.reverse_map.specs.Requests as specs;

use crate::codes::{
    ACCT_INPUT_GIGAWORDS, ACCT_INPUT_OCTETS, ACCT_INPUT_PACKETS, ACCT_OUTPUT_GIGAWORDS,
    ACCT_OUTPUT_OCTETS, ACCT_OUTPUT_PACKETS, ACCT_TERMINATE_CAUSE,
};
use crate::rows::push_row;
use diameter_avp::Avp;
use diameter_message::avp_codes::{
    ACCOUNTING_INPUT_OCTETS, ACCOUNTING_INPUT_PACKETS, ACCOUNTING_OUTPUT_OCTETS,
    ACCOUNTING_OUTPUT_PACKETS, ACCOUNTING_RECORD_TYPE, TERMINATION_CAUSE,
};
use radius_packet::Reply;
use translation::avp_list::{count, first_number};
use translation::{Direction, Unfit, push};
use wire_core::{get_u32, get_u64};

/// Acct-Status-Type: Start, Stop, Interim-Update (RFC 2866, section 5.1).
const START: u32 = 1;

const STOP: u32 = 2;

const INTERIM: u32 = 3;

/// The first Termination-Cause that RADIUS has, and the last (RFC 4005, section 9.3.5).
const FIRST_CAUSE: u32 = 11;

const LAST_CAUSE: u32 = 28;

/// The Acct-Status-Type of an Accounting-Record-Type (RFC 6733, section 9.8.1).
fn status_of(record_type: u32) -> Option<u32>
    ensures { result ≡ specs.status_of record_type }
{
    match record_type {
        2 => Some(START),
        3 => Some(INTERIM),
        4 => Some(STOP),
        _ => None,
    }
}

/// The Acct-Status-Type of the one Accounting-Record-Type.
pub(crate) fn status_in(list: &[Avp<'_>]) -> Option<u32>
    ensures { result ≡ specs.status_in (list_view list.now) }
{
    if count(list, ACCOUNTING_RECORD_TYPE) != 1 {
        return None;
    }
    match first_number(list, ACCOUNTING_RECORD_TYPE) {
        Some(record_type) => status_of(record_type),
        None => None,
    }
}

/// Pushes a number of four octets.
pub(crate) fn push_number(request: &mut Reply, code: u8, value: u32) -> Result<(), Unfit>
    ensures { Pushes request.old request.new (is_ok result) true
        (attribute code (text32 value) ∷ []) }
{
    push(request, code, &value.to_be_bytes())
}

/// Pushes the high half of a count, where it isn't 0.
fn push_high(request: &mut Reply, code: u8, half: &[u8]) -> Result<(), Unfit>
    requires short { reply_length request.old ≤ 4096 }
    requires half { length half.now ≡ 4 }
    ensures { Pushes request.old request.new (is_ok result) true
        (if number half.now == 0 then [] else attribute code half.now ∷ []) }
{
    if get_u32(half, 0) == 0 {
        Ok(())
    } else {
        push(request, code, half)
    }
}

/// Pushes a count of eight octets in halves, the low one first.
fn push_halves(request: &mut Reply, low: u8, high: u8, body: &[u8]) -> Result<(), Unfit>
    ensures { Pushes request.old request.new (is_ok result) (length body.now == 8)
        (specs.halves low high body.now) }
{
    if body.len() != 8 {
        return Err(Unfit);
    }
    push(request, low, &body[4..8])?;
    push_high(request, high, &body[0..4])
}

/// A number, or the greatest of four octets.
fn saturated(value: u64) -> u32
    ensures { result ≡ specs.saturated value }
{
    value.min(u64::from(u32::MAX)) as u32
}

/// Pushes a count of eight octets as one of four.
fn push_saturated(request: &mut Reply, code: u8, body: &[u8]) -> Result<(), Unfit>
    ensures { Pushes request.old request.new (is_ok result) (length body.now == 8)
        (specs.count_attributes code body.now) }
{
    if body.len() != 8 {
        return Err(Unfit);
    }
    push_number(request, code, saturated(get_u64(body, 0)))
}

/// Pushes the Acct-Terminate-Cause of a Termination-Cause, where RADIUS has it.
fn push_cause(request: &mut Reply, cause: u32) -> Result<(), Unfit>
    requires short { reply_length request.old ≤ 4096 }
    ensures { Pushes request.old request.new (is_ok result) true (specs.terminate_cause cause) }
{
    if FIRST_CAUSE <= cause && cause <= LAST_CAUSE {
        push_number(request, ACCT_TERMINATE_CAUSE, cause - 10)
    } else {
        Ok(())
    }
}

/// Pushes what a Termination-Cause gives.
fn push_termination(request: &mut Reply, body: &[u8]) -> Result<(), Unfit>
    requires short { reply_length request.old ≤ 4096 }
    ensures { Pushes request.old request.new (is_ok result) (length body.now == 4)
        (specs.terminate_cause (number body.now)) }
{
    if body.len() == 4 {
        push_cause(request, get_u32(body, 0))
    } else {
        Err(Unfit)
    }
}

/// Pushes what an AVP without a vendor gives in an Accounting-Request.
pub(crate) fn push_accounting(request: &mut Reply, avp: &Avp<'_>) -> Result<(), Unfit>
    requires short { reply_length request.old ≤ 4096 }
    ensures { let a = avp_view avp.now in
        Pushes request.old request.new (is_ok result) (not (specs.is_bad_accounting a))
        (specs.accounting_attributes a) }
{
    match avp.code {
        ACCOUNTING_INPUT_OCTETS => {
            push_halves(request, ACCT_INPUT_OCTETS, ACCT_INPUT_GIGAWORDS, avp.body)
        }
        ACCOUNTING_OUTPUT_OCTETS => {
            push_halves(request, ACCT_OUTPUT_OCTETS, ACCT_OUTPUT_GIGAWORDS, avp.body)
        }
        ACCOUNTING_INPUT_PACKETS => push_saturated(request, ACCT_INPUT_PACKETS, avp.body),
        ACCOUNTING_OUTPUT_PACKETS => push_saturated(request, ACCT_OUTPUT_PACKETS, avp.body),
        TERMINATION_CAUSE => push_termination(request, avp.body),
        _ => push_row(request, Direction::Accounting, avp),
    }
}
