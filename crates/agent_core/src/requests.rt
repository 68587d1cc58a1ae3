//! What a request sends, and what is kept of it.

ghost use Rattle.std.specs.Prelude.{◌≡◌, ℕ, List, false, IfOk, not, is_some};
ghost use Rattle.std.specs.List.{AllByRecursion};
ghost use Rattle.diameter_message.specs.Message.{IsMessage};
ghost use Rattle.session_carrier.specs.Route.{route_view};
ghost use Rattle.agent_settings.specs.Config.{InLimits, ClientInLimits};
ghost use Rattle.translation.specs.Routes.{carried_state};
ghost use Rattle.pending_table.specs.declared.key.Key.{Key};
ghost use Rattle.agent_core.specs.Requests as specs;
ghost use Rattle.agent_core.specs.Verdicts.{IsJudged, IsRequest, IsShort, request_with};
ghost use Rattle.agent_core.specs.Fits.{header_by, longest_session, KeptFits, RouteFits};
ghost use Rattle.agent_core.specs.Routing.{own_route_view};

use crate::verdict::Request;
use agent_settings::{Client, Config};
use radius_packet::Packet;
use session_carrier::{Kept, Kind2, Numbers, Route};
use std::alloc::Global;
use wire_core::{NoMemory, Octets};

/// What stands ready for a request before it is taken up.
#[derive(Drop)]
pub(crate) struct Prepared {
    pub(crate) kept: Kept,
    pub(crate) sent: Octets,
    /// Whether it begins a session.
    pub(crate) fresh: bool,
}

/// Where a request goes. Its session and its realm are kept with it.
#[derive(Drop)]
struct OwnRoute<'a> {
    session: Octets,
    realm: Octets,
    host: Option<&'a [u8]>,
    /// Whether the session is a fresh one.
    fresh: bool,
}

fn is_accounting(kind: Kind2) -> bool
    ensures { result ≡ specs.is_accounting kind }
{
    matches!(kind, Kind2::Start | Kind2::Interim | Kind2::Stop)
}

/// The realm in the first User-Name, or else the home realm.
fn named_realm<'a>(config: &'a Config, packet: &Packet<'a>) -> &'a [u8]
    ensures { result.now ≡ specs.named_realm config.now packet.now }
{
    match translation::name_realm(packet) {
        Some(realm) => realm,
        None => config.home_realm.as_slice(),
    }
}

/// The route of an Access-Request: where its State says, or with a fresh session.
fn access_route<'a>(
    alloc: Global,
    config: &Config,
    packet: &Packet<'a>,
    serial: u64,
) -> Result<OwnRoute<'a>, NoMemory>
    requires limits { InLimits config.now }
    requires values { AllByRecursion IsShort packet.now.attributes }
    ensures route { IfOk result
        (λ r. own_route_view r ≡ specs.access_route config.now packet.now serial) }
    ensures fresh { IfOk result
        (λ r. r.fresh ≡ not (is_some (carried_state packet.now.attributes))) }
    ensures fits { IfOk result (λ r. RouteFits 244 (own_route_view r)) }
{
    if let Some(carried) = translation::carried_state(packet) {
        return Ok(OwnRoute {
            session: Octets::copy(alloc, carried.session)?,
            realm: Octets::copy(alloc, carried.realm)?,
            host: Some(carried.host),
            fresh: false,
        });
    }
    let boot = config.boot.unwrap_or(0);
    session_carrier::fresh_sessions_are_short();
    let session = session_carrier::fresh(alloc, config.host.as_slice(), boot, serial)?;
    let realm = Octets::copy(alloc, named_realm(config, packet))?;
    Ok(OwnRoute {
        session,
        realm,
        host: None,
        fresh: true,
    })
}

/// The session of an accounting record: the one that a Class carries, or else the one that the client names.
fn accounting_session(
    alloc: Global,
    config: &Config,
    client: &Client,
    packet: &Packet<'_>,
) -> Result<Octets, NoMemory>
    ensures { IfOk result
        (λ s. s ≡ (specs.accounting_route config.now client.now packet.now).session) }
{
    match translation::carried_class(packet) {
        Some(session) => Octets::copy(alloc, session),
        None => session_carrier::accounting_session(
            alloc,
            config.host.as_slice(),
            client.name.as_slice(),
            accounting_map::session_id(packet),
        ),
    }
}

/// The route of an Accounting-Request.
fn accounting_route<'a>(
    alloc: Global,
    config: &Config,
    client: &Client,
    packet: &Packet<'a>,
) -> Result<OwnRoute<'a>, NoMemory>
    requires limits { InLimits config.now }
    requires client { ClientInLimits client.now }
    requires values { AllByRecursion IsShort packet.now.attributes }
    ensures route { IfOk result
        (λ r. own_route_view r ≡ specs.accounting_route config.now client.now packet.now) }
    ensures fresh { IfOk result (λ r. r.fresh ≡ false) }
    ensures fits { IfOk result (λ r. RouteFits 1024 (own_route_view r)) }
{
    let session = accounting_session(alloc, config, client, packet)?;
    let realm = Octets::copy(alloc, named_realm(config, packet))?;
    Ok(OwnRoute {
        session,
        realm,
        host: None,
        fresh: false,
    })
}

/// The route of a request.
fn route<'a>(
    alloc: Global,
    config: &Config,
    request: &Request<'a>,
    serial: u64,
) -> Result<OwnRoute<'a>, NoMemory>
    requires limits { InLimits config.now }
    requires request { IsRequest config.now request.now }
    ensures route { (key : Key) → IfOk result (λ r. own_route_view r
        ≡ specs.route_of config.now (request_with key request.now) serial) }
    ensures fresh { (key : Key)
        → IfOk result (λ r. r.fresh ≡ specs.is_fresh (request_with key request.now)) }
    ensures fits { IfOk result
        (λ r. RouteFits (longest_session request.now.kind) (own_route_view r)) }
{
    if is_accounting(request.kind) {
        accounting_route(alloc, config, request.settings, &request.packet)
    } else {
        access_route(alloc, config, &request.packet, serial)
    }
}

/// What a request of this kind sends.
fn image(
    alloc: Global,
    request: &Request<'_>,
    route: &Route<'_>,
    numbers: Numbers,
) -> Result<Octets, NoMemory>
    requires client { ClientInLimits request.now.settings.now }
    requires judged { IsJudged request.now.kind request.now.settings.now request.now.packet }
    requires route { RouteFits (longest_session request.now.kind) (route_view route.now) }
    ensures text { IfOk result (λ o. o
        ≡ specs.image request.now.kind request.now.settings.now request.now.packet
        (route_view route.now) numbers) }
    ensures message { IfOk result
        (λ o. (avps : List ℕ) × IsMessage o (header_by request.now.kind numbers) avps) }
{
    let packet = &request.packet;
    match request.kind {
        Kind2::Access => access_map::request(alloc, request.settings, packet, route, numbers),
        Kind2::Eap => eap_map::request(alloc, request.settings, packet, route, numbers),
        Kind2::Start | Kind2::Interim | Kind2::Stop => {
            accounting_map::request(alloc, request.settings, packet, route, numbers)
        }
    }
}

/// The Termination-Cause for which the answer to a Stop ends the session, else 0.
fn cause_of(kind: Kind2, packet: &Packet<'_>) -> u32
    ensures { result ≡ specs.cause_of kind packet.now }
{
    match kind {
        Kind2::Stop => accounting_map::cause(packet),
        Kind2::Start | Kind2::Interim | Kind2::Access | Kind2::Eap => 0,
    }
}

/// What a request sends with these numbers, and what is kept of it, where so many sessions began before.
pub(crate) fn prepare(
    alloc: Global,
    config: &Config,
    request: &Request<'_>,
    numbers: Numbers,
    serial: u64,
) -> Result<Prepared, NoMemory>
    requires limits { InLimits config.now }
    requires request { IsRequest config.now request.now }
    ensures kept { (key : Key) → IfOk result (λ p. p.kept
        ≡ specs.kept_of config.now (request_with key request.now) serial) }
    ensures sent { (key : Key) → IfOk result (λ p. p.sent
        ≡ specs.request_sent config.now (request_with key request.now) numbers serial) }
    ensures fresh { (key : Key)
        → IfOk result (λ p. p.fresh ≡ specs.is_fresh (request_with key request.now)) }
    // It can be sent again.
    ensures message { IfOk result
        (λ p. (avps : List ℕ) × IsMessage p.sent (header_by request.now.kind numbers) avps) }
    // Its answer can be translated.
    ensures fits { IfOk result (λ p. KeptFits config.now p.kept) }
{
    let packet = &request.packet;
    let proxy = translation::proxy_states(alloc, packet)?;
    let own = route(alloc, config, request, serial)?;
    let route = Route {
        session: own.session.as_slice(),
        realm: own.realm.as_slice(),
        host: own.host,
    };
    let sent = image(alloc, request, &route, numbers)?;
    let kept = Kept {
        kind: request.kind,
        client: request.client,
        id: packet.id(),
        authenticator: packet.authenticator(),
        proxy,
        session: own.session,
        realm: own.realm,
        cause: cause_of(request.kind, packet),
    };
    Ok(Prepared {
        kept,
        sent,
        fresh: own.fresh,
    })
}
