//! Attributes of RADIUS and AVPs of Diameter. Below 256 an AVP has the attribute's number and name.

ghost use Rattle.std.specs.Prelude.{◌≡◌, option_map};
ghost use Rattle.names.specs.Names.{avp_named};

/// What a value is.
#[derive(Clone, Copy)]
pub enum Kind {
    /// UTF-8.
    Text,
    Octets,
    /// Four octets.
    Number,
    /// Eight octets.
    Wide,
    /// Four octets, and in Host-IP-Address the family before them.
    Address,
    /// Seconds, four octets: since 1970 in RADIUS and since 1900 in Diameter.
    Time,
    /// What nobody is to read, such as a password.
    Hidden,
    /// AVPs.
    Group,
}

/// The number, the name and the kind of each.
const AVPS: [(u32, &str, Kind); 159] = [
    // RFC 2865
    (1, "User-Name", Kind::Text),
    (2, "User-Password", Kind::Hidden),
    (3, "CHAP-Password", Kind::Octets),
    (4, "NAS-IP-Address", Kind::Address),
    (5, "NAS-Port", Kind::Number),
    (6, "Service-Type", Kind::Number),
    (7, "Framed-Protocol", Kind::Number),
    (8, "Framed-IP-Address", Kind::Address),
    (9, "Framed-IP-Netmask", Kind::Address),
    (10, "Framed-Routing", Kind::Number),
    (11, "Filter-Id", Kind::Text),
    (12, "Framed-MTU", Kind::Number),
    (13, "Framed-Compression", Kind::Number),
    (14, "Login-IP-Host", Kind::Address),
    (15, "Login-Service", Kind::Number),
    (16, "Login-TCP-Port", Kind::Number),
    (18, "Reply-Message", Kind::Text),
    (19, "Callback-Number", Kind::Text),
    (20, "Callback-Id", Kind::Text),
    (22, "Framed-Route", Kind::Text),
    (23, "Framed-IPX-Network", Kind::Octets),
    (24, "State", Kind::Octets),
    (25, "Class", Kind::Octets),
    (26, "Vendor-Specific", Kind::Octets),
    (27, "Session-Timeout", Kind::Number),
    (28, "Idle-Timeout", Kind::Number),
    (29, "Termination-Action", Kind::Number),
    (30, "Called-Station-Id", Kind::Text),
    (31, "Calling-Station-Id", Kind::Text),
    (32, "NAS-Identifier", Kind::Text),
    (33, "Proxy-State", Kind::Octets),
    (34, "Login-LAT-Service", Kind::Text),
    (35, "Login-LAT-Node", Kind::Text),
    (36, "Login-LAT-Group", Kind::Octets),
    (37, "Framed-AppleTalk-Link", Kind::Number),
    (38, "Framed-AppleTalk-Network", Kind::Number),
    (39, "Framed-AppleTalk-Zone", Kind::Text),
    // RFC 2866
    (40, "Acct-Status-Type", Kind::Number),
    (41, "Acct-Delay-Time", Kind::Number),
    (42, "Acct-Input-Octets", Kind::Number),
    (43, "Acct-Output-Octets", Kind::Number),
    (44, "Acct-Session-Id", Kind::Text),
    (45, "Acct-Authentic", Kind::Number),
    (46, "Acct-Session-Time", Kind::Number),
    (47, "Acct-Input-Packets", Kind::Number),
    (48, "Acct-Output-Packets", Kind::Number),
    (49, "Acct-Terminate-Cause", Kind::Number),
    (50, "Acct-Multi-Session-Id", Kind::Text),
    (51, "Acct-Link-Count", Kind::Number),
    // RFC 2869
    (52, "Acct-Input-Gigawords", Kind::Number),
    (53, "Acct-Output-Gigawords", Kind::Number),
    (55, "Event-Timestamp", Kind::Time),
    // RFC 4675
    (56, "Egress-VLANID", Kind::Number),
    (57, "Ingress-Filters", Kind::Number),
    (58, "Egress-VLAN-Name", Kind::Text),
    (59, "User-Priority-Table", Kind::Octets),
    // RFC 2865
    (60, "CHAP-Challenge", Kind::Octets),
    (61, "NAS-Port-Type", Kind::Number),
    (62, "Port-Limit", Kind::Number),
    (63, "Login-LAT-Port", Kind::Text),
    // RFC 2868
    (64, "Tunnel-Type", Kind::Number),
    (65, "Tunnel-Medium-Type", Kind::Number),
    (66, "Tunnel-Client-Endpoint", Kind::Text),
    (67, "Tunnel-Server-Endpoint", Kind::Text),
    // RFC 2867
    (68, "Acct-Tunnel-Connection", Kind::Text),
    // RFC 2868
    (69, "Tunnel-Password", Kind::Hidden),
    // RFC 2869
    (70, "ARAP-Password", Kind::Octets),
    (71, "ARAP-Features", Kind::Octets),
    (72, "ARAP-Zone-Access", Kind::Number),
    (73, "ARAP-Security", Kind::Number),
    (74, "ARAP-Security-Data", Kind::Octets),
    (75, "Password-Retry", Kind::Number),
    (76, "Prompt", Kind::Number),
    (77, "Connect-Info", Kind::Text),
    (78, "Configuration-Token", Kind::Text),
    (79, "EAP-Message", Kind::Octets),
    (80, "Message-Authenticator", Kind::Octets),
    // RFC 2868
    (81, "Tunnel-Private-Group-Id", Kind::Text),
    (82, "Tunnel-Assignment-Id", Kind::Text),
    (83, "Tunnel-Preference", Kind::Number),
    // RFC 2869
    (84, "ARAP-Challenge-Response", Kind::Octets),
    (85, "Acct-Interim-Interval", Kind::Number),
    // RFC 2867
    (86, "Acct-Tunnel-Packets-Lost", Kind::Number),
    // RFC 2869
    (87, "NAS-Port-Id", Kind::Text),
    (88, "Framed-Pool", Kind::Text),
    // RFC 4372
    (89, "Chargeable-User-Identity", Kind::Octets),
    // RFC 2868
    (90, "Tunnel-Client-Auth-Id", Kind::Text),
    (91, "Tunnel-Server-Auth-Id", Kind::Text),
    // RFC 4849
    (92, "NAS-Filter-Rule", Kind::Text),
    // RFC 7155
    (94, "Originating-Line-Info", Kind::Octets),
    // RFC 3162
    (95, "NAS-IPv6-Address", Kind::Octets),
    (96, "Framed-Interface-Id", Kind::Octets),
    (97, "Framed-IPv6-Prefix", Kind::Octets),
    (98, "Login-IPv6-Host", Kind::Octets),
    (99, "Framed-IPv6-Route", Kind::Text),
    (100, "Framed-IPv6-Pool", Kind::Text),
    // RFC 5176
    (101, "Error-Cause", Kind::Number),
    // RFC 4072
    (102, "EAP-Key-Name", Kind::Octets),
    // RFC 4818
    (123, "Delegated-IPv6-Prefix", Kind::Octets),
    // RFC 5580
    (126, "Operator-Name", Kind::Text),
    // RFC 6911
    (168, "Framed-IPv6-Address", Kind::Octets),
    // RFC 6733
    (257, "Host-IP-Address", Kind::Address),
    (258, "Auth-Application-Id", Kind::Number),
    (259, "Acct-Application-Id", Kind::Number),
    (260, "Vendor-Specific-Application-Id", Kind::Group),
    (261, "Redirect-Host-Usage", Kind::Number),
    (262, "Redirect-Max-Cache-Time", Kind::Number),
    (263, "Session-Id", Kind::Text),
    (264, "Origin-Host", Kind::Text),
    (265, "Supported-Vendor-Id", Kind::Number),
    (266, "Vendor-Id", Kind::Number),
    (267, "Firmware-Revision", Kind::Number),
    (268, "Result-Code", Kind::Number),
    (269, "Product-Name", Kind::Text),
    (270, "Session-Binding", Kind::Number),
    (271, "Session-Server-Failover", Kind::Number),
    (272, "Multi-Round-Time-Out", Kind::Number),
    (273, "Disconnect-Cause", Kind::Number),
    (274, "Auth-Request-Type", Kind::Number),
    (276, "Auth-Grace-Period", Kind::Number),
    (277, "Auth-Session-State", Kind::Number),
    (278, "Origin-State-Id", Kind::Number),
    (279, "Failed-AVP", Kind::Group),
    (280, "Proxy-Host", Kind::Text),
    (281, "Error-Message", Kind::Text),
    (282, "Route-Record", Kind::Text),
    (283, "Destination-Realm", Kind::Text),
    (284, "Proxy-Info", Kind::Group),
    (285, "Re-Auth-Request-Type", Kind::Number),
    (287, "Accounting-Sub-Session-Id", Kind::Wide),
    (291, "Authorization-Lifetime", Kind::Number),
    (292, "Redirect-Host", Kind::Text),
    (293, "Destination-Host", Kind::Text),
    (294, "Error-Reporting-Host", Kind::Text),
    (295, "Termination-Cause", Kind::Number),
    (296, "Origin-Realm", Kind::Text),
    (297, "Experimental-Result", Kind::Group),
    (298, "Experimental-Result-Code", Kind::Number),
    (299, "Inband-Security-Id", Kind::Number),
    // RFC 4005
    (363, "Accounting-Input-Octets", Kind::Wide),
    (364, "Accounting-Output-Octets", Kind::Wide),
    (365, "Accounting-Input-Packets", Kind::Wide),
    (366, "Accounting-Output-Packets", Kind::Wide),
    (400, "NAS-Filter-Rule", Kind::Text),
    (401, "Tunneling", Kind::Group),
    (402, "CHAP-Auth", Kind::Group),
    (403, "CHAP-Algorithm", Kind::Number),
    (404, "CHAP-Ident", Kind::Octets),
    (405, "CHAP-Response", Kind::Octets),
    (406, "Accounting-Auth-Method", Kind::Number),
    (407, "QoS-Filter-Rule", Kind::Text),
    (408, "Origin-AAA-Protocol", Kind::Number),
    // RFC 4072
    (462, "EAP-Payload", Kind::Octets),
    (463, "EAP-Reissued-Payload", Kind::Octets),
    (464, "EAP-Master-Session-Key", Kind::Hidden),
    (465, "Accounting-EAP-Auth-Method", Kind::Wide),
    // RFC 6733
    (480, "Accounting-Record-Type", Kind::Number),
    (483, "Accounting-Realtime-Required", Kind::Number),
    (485, "Accounting-Record-Number", Kind::Number),
];

/// The name and the kind of the attribute or the AVP without a vendor that has this number.
pub fn find_avp(code: u32) -> Option<(&'static str, Kind)>
    ensures { option_map (λ r. (r.0.now, r.1)) result ≡ avp_named code }
{
    let row = AVPS.iter().find(|row| row.0 == code)?;
    Some((row.1, row.2))
}
