//! The Accounting-Request of a packet (RFC 6733, section 9.7; RFC 4005, sections 3.9 and 9).

ghost use Rattle.std.specs.Prelude.{◌≡◌, ◌≤◌, ◌++◌, [], ◌∷◌, length, true, None, IsTrue, IfOk, OnOk};
ghost use Rattle.wire_core.specs.Numbers.{u32 as text32, u64 as text64};
ghost use Rattle.radius_packet.specs.Views.{attribute_view};
ghost use Rattle.diameter_avp.specs.Avps.{avps_text};
ghost use Rattle.diameter_message.specs.Message.{IsMessage};
ghost use Rattle.diameter_message.specs.PlainAvps.{plain_avp};
ghost use Rattle.diameter_message.specs.Writer.{list_length, with_avps, Puts};
ghost use Rattle.session_carrier.specs.Route.{route_view};
ghost use Rattle.session_carrier.specs.declared.kept.Kind2.{Kind2};
ghost use Rattle.agent_settings.specs.Config.{ClientInLimits};
ghost use Rattle.translation.specs.declared.direction.Direction.TheVariants.{Accounting};
ghost use Rattle.translation.specs.Values.{is_good, first_bad};
ghost use Rattle.accounting_map.specs.Passing as passing;
ghost use Rattle.accounting_map.specs.Requests as specs;
ghost use Rattle.accounting_map.specs.Verdict.{IsJudged};

use crate::codes::{
    ACCT_INPUT_GIGAWORDS, ACCT_INPUT_OCTETS, ACCT_INPUT_PACKETS, ACCT_OUTPUT_GIGAWORDS,
    ACCT_OUTPUT_OCTETS, ACCT_OUTPUT_PACKETS, ACCT_TERMINATE_CAUSE,
};
use crate::numbers::number_in;
use crate::records::{record_number, record_type, session_time, termination_cause, volume};
use crate::statuses::status;
use agent_settings::Client;
use diameter_message::applications::BASE_ACCOUNTING;
use diameter_message::avp_codes::{
    ACCOUNTING_INPUT_OCTETS, ACCOUNTING_INPUT_PACKETS, ACCOUNTING_OUTPUT_OCTETS,
    ACCOUNTING_OUTPUT_PACKETS, ACCOUNTING_RECORD_NUMBER, ACCOUNTING_RECORD_TYPE,
    ACCT_APPLICATION_ID, ORIGIN_AAA_PROTOCOL, TERMINATION_CAUSE,
};
use diameter_message::command_codes::ACCOUNTING;
use diameter_message::command_flags::{PROXIABLE, REQUEST};
use diameter_message::{Header, MessageWriter};
use radius_packet::{Attribute, Packet};
use session_carrier::{Numbers, Route};
use std::alloc::Global;
use translation::{Direction, Seen, put_common, put_names};
use wire_core::{NoMemory, Octets};

/// The Origin-AAA-Protocol of RFC 4005, section 9.3.6.
const RADIUS: u32 = 1;

/// What stood before an attribute.
#[derive(Clone, Copy)]
struct Passed {
    seen: Seen,
    /// Octets that went in.
    input: bool,
    /// Octets that went out.
    output: bool,
}

/// Puts what a record says of itself.
fn put_record(writer: &mut MessageWriter, packet: &Packet<'_>) -> Result<(), NoMemory>
    requires few { list_length writer.old ≤ 1500 }
    ensures { OnOk result
        (Puts writer.old writer.new (specs.record_avps packet.now.attributes) 60) }
{
    let status = status(packet);
    writer.put_number(ACCOUNTING_RECORD_TYPE, record_type(status))?;
    writer.put_number(
        ACCOUNTING_RECORD_NUMBER,
        record_number(status, session_time(packet)),
    )?;
    writer.put_number(ACCT_APPLICATION_ID, BASE_ACCOUNTING)?;
    writer.put_number(ORIGIN_AAA_PROTOCOL, RADIUS)
}

/// Puts the AVPs that stand before the images.
#[tactic(auto, using(translation::proofs::ClientLimits::host_is_short, translation::proofs::ClientLimits::realm_is_short))]
fn put_head(
    writer: &mut MessageWriter,
    client: &Client,
    packet: &Packet<'_>,
    route: &Route<'_>,
) -> Result<(), NoMemory>
    requires empty { list_length writer.old ≡ 0 }
    requires session { length (route_view route.now).session ≤ 1024 }
    requires realm { length (route_view route.now).realm ≤ 255 }
    requires client { ClientInLimits client.now }
    ensures { OnOk result (Puts writer.old writer.new
        (specs.head client.now packet.now (route_view route.now)) 1560) }
{
    put_names(writer, client, route.session, route.realm)?;
    put_record(writer, packet)
}

/// Puts a number of four octets, which has room.
fn put_four(writer: &mut MessageWriter, avp: u32, number: u32) -> Result<(), NoMemory>
    requires { length (avps_text (writer.old.avps.list ++ plain_avp avp (text32 number) ∷ []))
        ≤ 65516 }
    ensures { OnOk result (writer.new ≡ with_avps writer.old (plain_avp avp (text32 number) ∷ [])) }
{
    writer.put_with_room(avp, None, true, &number.to_be_bytes())
}

/// Puts a number of eight octets, which has room.
fn put_eight(writer: &mut MessageWriter, avp: u32, number: u64) -> Result<(), NoMemory>
    requires { length (avps_text (writer.old.avps.list ++ plain_avp avp (text64 number) ∷ []))
        ≤ 65516 }
    ensures { OnOk result (writer.new ≡ with_avps writer.old (plain_avp avp (text64 number) ∷ [])) }
{
    writer.put_with_room(avp, None, true, &number.to_be_bytes())
}

/// Puts the octets that attributes of two types tell together, unless they stand there.
fn put_volume(
    writer: &mut MessageWriter,
    packet: &Packet<'_>,
    avp: u32,
    octets: u8,
    gigawords: u8,
    before: &mut bool,
) -> Result<(), NoMemory>
    requires { length (avps_text (writer.old.avps.list ++ passing.volume_after before.old avp
        (specs.volume octets gigawords packet.now.attributes))) ≤ 65516 }
    ensures put { OnOk result (writer.new ≡ with_avps writer.old (passing.volume_after before.old
        avp (specs.volume octets gigawords packet.now.attributes))) }
    ensures noted { OnOk result (before.new ≡ true) }
{
    if *before {
        return Ok(());
    }
    *before = true;
    put_eight(writer, avp, volume(packet, octets, gigawords))
}

/// Puts a count of packets.
fn put_packets(writer: &mut MessageWriter, avp: u32, value: &[u8]) -> Result<(), NoMemory>
    requires { length (avps_text (writer.old.avps.list ++ specs.packets_avp avp value.now ∷ []))
        ≤ 65516 }
    ensures { OnOk result
        (writer.new ≡ with_avps writer.old (specs.packets_avp avp value.now ∷ [])) }
{
    put_eight(writer, avp, number_in(value).into())
}

/// Puts the Termination-Cause of an Acct-Terminate-Cause.
fn put_cause(writer: &mut MessageWriter, value: &[u8]) -> Result<(), NoMemory>
    requires { length (avps_text (writer.old.avps.list ++ specs.cause_avp value.now ∷ [])) ≤ 65516 }
    ensures { OnOk result (writer.new ≡ with_avps writer.old (specs.cause_avp value.now ∷ [])) }
{
    put_four(
        writer,
        TERMINATION_CAUSE,
        termination_cause(number_in(value)),
    )
}

/// Puts what an attribute gives, and notes that it was passed.
#[tactic(auto, unfolding(crate::specs::Passing::piece_after, crate::specs::Passing::noted))]
fn put_piece(
    writer: &mut MessageWriter,
    packet: &Packet<'_>,
    attribute: &Attribute<'_>,
    passed: &mut Passed,
) -> Result<(), NoMemory>
    requires value { IsTrue (is_good Accounting (attribute_view attribute.now)) }
    requires room { length (avps_text (writer.old.avps.list ++ passing.piece_after
        packet.now.attributes passed.old (attribute_view attribute.now))) ≤ 65516 }
    ensures put { OnOk result (writer.new ≡ with_avps writer.old
        (passing.piece_after packet.now.attributes passed.old (attribute_view attribute.now))) }
    ensures noted { OnOk result
        (passed.new ≡ passing.noted passed.old (attribute_view attribute.now)) }
{
    match attribute.code {
        ACCT_INPUT_OCTETS | ACCT_INPUT_GIGAWORDS => put_volume(
            writer,
            packet,
            ACCOUNTING_INPUT_OCTETS,
            ACCT_INPUT_OCTETS,
            ACCT_INPUT_GIGAWORDS,
            &mut passed.input,
        ),
        ACCT_OUTPUT_OCTETS | ACCT_OUTPUT_GIGAWORDS => put_volume(
            writer,
            packet,
            ACCOUNTING_OUTPUT_OCTETS,
            ACCT_OUTPUT_OCTETS,
            ACCT_OUTPUT_GIGAWORDS,
            &mut passed.output,
        ),
        ACCT_INPUT_PACKETS => put_packets(writer, ACCOUNTING_INPUT_PACKETS, attribute.value),
        ACCT_OUTPUT_PACKETS => put_packets(writer, ACCOUNTING_OUTPUT_PACKETS, attribute.value),
        ACCT_TERMINATE_CAUSE => put_cause(writer, attribute.value),
        _ => put_common(
            writer,
            Direction::Accounting,
            packet,
            attribute,
            &mut passed.seen,
        ),
    }
}

/// Puts what the attributes give, in order.
fn put_pieces(writer: &mut MessageWriter, packet: &Packet<'_>) -> Result<(), NoMemory>
    requires few { list_length writer.old ≤ 1560 }
    requires values { first_bad Accounting packet.now.attributes ≡ None }
    ensures { OnOk result (writer.new ≡ with_avps writer.old (specs.pieces packet.now.attributes)) }
{
    let mut passed = Passed {
        seen: Seen::nothing(),
        input: false,
        output: false,
    };
    for attribute in packet.attributes() {
        put_piece(writer, packet, &attribute, &mut passed)?;
    }
    Ok(())
}

/// The Accounting-Request of a packet that was judged: the AVPs of its head, and then what its attributes give, in order.
pub fn request(
    alloc: Global,
    client: &Client,
    packet: &Packet<'_>,
    route: &Route<'_>,
    numbers: Numbers,
) -> Result<Octets, NoMemory>
    requires judged { (kind : Kind2) × IsJudged client.now packet.now kind }
    requires session { length (route_view route.now).session ≤ 1024 }
    requires realm { length (route_view route.now).realm ≤ 255 }
    requires client { ClientInLimits client.now }
    ensures text { IfOk result
        (λ o. o ≡ specs.accounting_image client.now packet.now (route_view route.now) numbers) }
    // It is a message, so it can be sent again.
    ensures message { IfOk result (λ o. IsMessage o (specs.request_header numbers)
        (avps_text (specs.request_avps client.now packet.now (route_view route.now)))) }
{
    let header = Header {
        flags: REQUEST | PROXIABLE,
        command: ACCOUNTING,
        application: BASE_ACCOUNTING,
        hop: numbers.hop,
        end: numbers.end,
    };
    let mut writer = MessageWriter::new(alloc, header)?;
    put_head(&mut writer, client, packet, route)?;
    put_pieces(&mut writer, packet)?;
    Ok(writer.finish())
}
