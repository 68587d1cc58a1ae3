//! The commands over memory, some of whose reads and writes fail.

use crate::statuses::is_told;
use replay_command::{measure, replay};
use std::alloc::Global;
use std::hash::RandomState;
use std::test::Fail;
use text_commands::{check, generate, show};
use wire_core::{MemorySink, MemorySource, NoMemory};

/// A login that is accepted.
const ACCEPTED: &str = "\
agent agent.example example example 192.0.2.1 7 30000 64 64 30000
client nas1 192.168.1.16 78797a7a7935343631 nas1.example example plain refuse -
0 ready
1000 auth 192.168.1.16 1812 01050026000102030405060708090a0b0c0d0e0f01066e656d6f20066e617331050600000003
1100 link 010000784000010900000001000000000070000000000107400000196167656e742e6578616d706c653b373b30000000000001024000000c00000001000001124000000c000000030000010c4000000c000007d10000010840000014686f6d652e6578616d706c65000001284000000f6578616d706c6500
";

const ACCEPTED_TEXT: &str = "\
4 send 010000acc000010900000001000000000070000000000107400000196167656e742e6578616d706c653b373b30000000000001024000000c0000000100000108400000146e6173312e6578616d706c65000001284000000f6578616d706c65000000011b4000000f6578616d706c6500000001124000000c00000002000001984000000c00000001000000014000000c6e656d6f000000204000000c6e617331000000054000000c00000003
5 reply auth 192.168.1.16 1812 02050042fbcfbf2ab3bdf407f6d37183b58b00165012970f75c82f03fd635858864d0dc588a8191c4469616d657465722f6167656e742e6578616d706c653b373b30
end 1 1 0
";

/// A replay of the login: how many octets a read gives at most, the read that fails, the write that fails, how many octets
/// are written, and the status with its number. 64 octets at a time, the failing reads are the first one, one within the
/// answer's line, and the last one, which would have said that the input is at its end. The writes are those of lines 4 and
/// 5 and of the end line, with 352, 164 and 10 octets; half of a piece is written where its write fails.
const REPLAYS: &str = "\
1|999|9|526|Done 0
7|999|9|526|Done 0
65536|999|9|526|Done 0
64|0|9|0|ReadFault 4
64|5|9|352|ReadFault 4
64|8|9|516|ReadFault 4
64|99|0|176|WriteFault 5
64|99|1|434|WriteFault 5
64|99|2|521|WriteFault 5";

/// The number before the next bar, and the rest.
fn number(case: &str) -> (usize, &str) {
    let (word, rest) = case.split_once('|').unwrap_or((case, ""));
    (word.parse::<usize>().unwrap_or(0), rest)
}

/// Whether a replay ends so, and has written the first octets of the text.
fn replays(
    alloc: Global,
    random: RandomState,
    input: &mut MemorySource,
    output: &mut MemorySink,
    wanted: &str,
) -> bool {
    let (written, status) = number(wanted);
    is_told(alloc, &replay(alloc, random, input, output), status)
        && Some(output.as_slice()) == ACCEPTED_TEXT.as_bytes().get(..written)
}

/// Whether this line of `REPLAYS` holds.
fn is_replayed(alloc: Global, random: RandomState, case: &str) -> Result<bool, NoMemory> {
    let (piece, rest) = number(case);
    let (read, rest) = number(rest);
    let (write, wanted) = number(rest);
    let mut input = MemorySource::new(alloc, ACCEPTED.as_bytes(), piece, &[read])?;
    let mut output = MemorySink::new(alloc, 1_024, &[write])?;
    Ok(replays(alloc, random, &mut input, &mut output, wanted))
}

#[test]
fn replays_of_a_login(rt: HostRuntime) -> Result<(), Fail> {
    let random = RandomState::new(&rt)?;
    for case in REPLAYS.lines() {
        assert!(rt; is_replayed(rt.alloc(), random, case)?, "{case}");
    }
    Ok(())
}

const SETTINGS: &str = "\
host = \"agent.example\"
realm = \"example\"
address = \"192.0.2.1\"
boot = 7
[[clients]]
name = \"nas1\"
address = \"192.168.1.16\"
secret = \"xyzzy5461\"
origin_host = \"nas1.example\"
origin_realm = \"example\"
";

const SETTINGS_TEXT: &str = "\
agent agent.example example example 192.0.2.1 7 30000 4096 4096 30000 30000
client nas1 192.168.1.16 78797a7a7935343631 nas1.example example plain refuse -
";

/// Whether a check ends so, and has written this.
fn is_checked(
    alloc: Global,
    input: &mut MemorySource,
    output: &mut MemorySink,
    status: &str,
    wanted: &str,
) -> bool {
    is_told(alloc, &check(alloc, input, output), status) && output.as_slice() == wanted.as_bytes()
}

/// Whether settings of which this read fails are checked so, 100 octets at a time.
fn checks(alloc: Global, read: usize, status: &str, wanted: &str) -> Result<bool, NoMemory> {
    let mut input = MemorySource::new(alloc, SETTINGS.as_bytes(), 100, &[read])?;
    let mut output = MemorySink::new(alloc, 256, &[])?;
    Ok(is_checked(alloc, &mut input, &mut output, status, wanted))
}

/// Whether a packet is shown, and then a line of another name ends the run.
fn is_shown(alloc: Global, input: &mut MemorySource, output: &mut MemorySink) -> bool {
    is_told(alloc, &show(alloc, input, output), "BadTranscript 2 2 3")
        && output.as_slice() == b"fault 1 Short\n".as_slice()
}

/// Whether lines are shown, 64 octets at a time.
fn shows(alloc: Global) -> Result<bool, NoMemory> {
    let mut input = MemorySource::new(alloc, b"radius 0105\ntacacs 0105\n", 64, &[])?;
    let mut output = MemorySink::new(alloc, 256, &[])?;
    Ok(is_shown(alloc, &mut input, &mut output))
}

#[test]
fn settings_and_packets(rt: HostRuntime) -> Result<(), Fail> {
    assert!(rt; checks(rt.alloc(), 9, "Done 0", SETTINGS_TEXT)?);
    assert!(rt; checks(rt.alloc(), 1, "ReadFault 4", "")?);
    assert!(rt; shows(rt.alloc())?);
    Ok(())
}

/// Whether four logins are measured. The seed 1 draws 1015568748, 1586005467, 2165703038 and 3027450565, whose bits 16, 17
/// and 18 are 0 0 0, 0 0 0, 0 1 1 and 1 1 0: so the third request comes again after its answer, and the fourth before it.
fn measures(alloc: Global, random: RandomState, output: &mut MemorySink) -> bool {
    is_told(alloc, &measure(alloc, random, 4, 1, output), "Done 0")
        && output.as_slice() == b"end 5 4 1\n".as_slice()
}

/// Whether the lines of four logins are written, up to the last one.
fn generates(alloc: Global, output: &mut MemorySink) -> bool {
    is_told(alloc, &generate(alloc, 4, 1, output), "Done 0")
        && output.as_slice().ends_with(b"\n60 drain\n")
}

/// Whether four logins are measured, and written, into sinks of their own.
fn goes_through_four(alloc: Global, random: RandomState) -> Result<bool, NoMemory> {
    let mut output = MemorySink::new(alloc, 64, &[])?;
    let mut lines = MemorySink::new(alloc, 4_096, &[])?;
    Ok(measures(alloc, random, &mut output) && generates(alloc, &mut lines))
}

#[test]
fn generated_logins(rt: HostRuntime) -> Result<(), Fail> {
    let random = RandomState::new(&rt)?;
    assert!(rt; goes_through_four(rt.alloc(), random)?);
    Ok(())
}
