//! Packets of RADIUS and messages of Diameter.

ghost use Rattle.std.specs.Prelude.{◌≡◌, option_map};
ghost use Rattle.names.specs.Names.{command_named, packet_named};

/// The codes of packets (RFC 2865, RFC 2866, RFC 5176).
const PACKETS: [(u32, &str); 14] = [
    (1, "Access-Request"),
    (2, "Access-Accept"),
    (3, "Access-Reject"),
    (4, "Accounting-Request"),
    (5, "Accounting-Response"),
    (11, "Access-Challenge"),
    (12, "Status-Server"),
    (13, "Status-Client"),
    (40, "Disconnect-Request"),
    (41, "Disconnect-ACK"),
    (42, "Disconnect-NAK"),
    (43, "CoA-Request"),
    (44, "CoA-ACK"),
    (45, "CoA-NAK"),
];

/// The codes of messages, and their names without `-Request` and `-Answer` (RFC 6733, RFC 4005, RFC 4072).
const COMMANDS: [(u32, &str); 9] = [
    (257, "Capabilities-Exchange"),
    (258, "Re-Auth"),
    (265, "AA"),
    (268, "Diameter-EAP"),
    (271, "Accounting"),
    (274, "Abort-Session"),
    (275, "Session-Termination"),
    (280, "Device-Watchdog"),
    (282, "Disconnect-Peer"),
];

/// The name of a packet of this code.
pub fn find_packet(code: u8) -> Option<&'static str>
    ensures { option_map (λ name. name.now) result ≡ packet_named code }
{
    let code = u32::from(code);
    let row = PACKETS.iter().find(|row| row.0 == code)?;
    Some(row.1)
}

/// The name of a command, without `-Request` and `-Answer`.
pub fn find_command(code: u32) -> Option<&'static str>
    ensures { option_map (λ name. name.now) result ≡ command_named code }
{
    let row = COMMANDS.iter().find(|row| row.0 == code)?;
    Some(row.1)
}
