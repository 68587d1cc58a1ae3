//! Big-endian numbers at a place of a list of octets.

ghost use Rattle.std.specs.Prelude.{◌≡◌, ◌+◌, ◌≤◌, ◌<◌, ◌^◌, ◌++◌, length, take, drop};
ghost use Rattle.wire_core.specs.Numbers.{number, octets_at, u16 as text16, u24 as text24, u32 as text32, u64 as text64};

/// The number in the two octets at `place`.
pub fn get_u16(octets: &[u8], place: usize) -> u16
    requires { place + 2 ≤ length octets.now }
    ensures { result ≡ number (octets_at octets.now place 2) }
{
    octets[place] as u16 * 256 + octets[place + 1] as u16
}

/// The number in the three octets at `place`.
pub fn get_u24(octets: &[u8], place: usize) -> u32
    requires { place + 3 ≤ length octets.now }
    ensures value { result ≡ number (octets_at octets.now place 3) }
    ensures small { result < 2 ^ 24 }
{
    (octets[place] as u32 * 256 + octets[place + 1] as u32) * 256 + octets[place + 2] as u32
}

/// The number in the four octets at `place`.
pub fn get_u32(octets: &[u8], place: usize) -> u32
    requires { place + 4 ≤ length octets.now }
    ensures { result ≡ number (octets_at octets.now place 4) }
{
    get_u24(octets, place) * 256 + octets[place + 3] as u32
}

/// The number in the eight octets at `place`.
pub fn get_u64(octets: &[u8], place: usize) -> u64
    requires { place + 8 ≤ length octets.now }
    ensures { result ≡ number (octets_at octets.now place 8) }
{
    get_u32(octets, place) as u64 * 4_294_967_296 + get_u32(octets, place + 4) as u64
}

/// Puts these octets at `place`, over the ones that stand there.
pub(crate) fn put(octets: &mut [u8], place: usize, from: &[u8])
    requires { place + length from.now ≤ length octets.old }
    ensures { octets.new
        ≡ take place octets.old ++ from.now ++ drop (place + length from.now) octets.old }
{
    octets[place..place + from.len()].copy_from_slice(from);
}

/// Writes the number into the two octets at `place`.
#[tactic(auto, unfolding(crate::specs::Numbers::u16))]
pub fn put_u16(octets: &mut [u8], place: usize, value: u16)
    requires { place + 2 ≤ length octets.old }
    ensures { octets.new ≡ take place octets.old ++ text16 value ++ drop (place + 2) octets.old }
{
    put(octets, place, &value.to_be_bytes());
}

/// Writes the number, which is below 2^24, into the three octets at `place`.
#[tactic(auto, unfolding(crate::specs::Numbers::u24))]
pub fn put_u24(octets: &mut [u8], place: usize, value: u32)
    requires inside { place + 3 ≤ length octets.old }
    requires small { value < 2 ^ 24 }
    ensures { octets.new ≡ take place octets.old ++ text24 value ++ drop (place + 3) octets.old }
{
    put(octets, place, &value.to_be_bytes()[1..]);
}

/// Writes the number into the four octets at `place`.
#[tactic(auto, unfolding(crate::specs::Numbers::u32))]
pub fn put_u32(octets: &mut [u8], place: usize, value: u32)
    requires { place + 4 ≤ length octets.old }
    ensures { octets.new ≡ take place octets.old ++ text32 value ++ drop (place + 4) octets.old }
{
    put(octets, place, &value.to_be_bytes());
}

/// Writes the number into the eight octets at `place`.
#[tactic(auto, unfolding(crate::specs::Numbers::u64))]
pub fn put_u64(octets: &mut [u8], place: usize, value: u64)
    requires { place + 8 ≤ length octets.old }
    ensures { octets.new ≡ take place octets.old ++ text64 value ++ drop (place + 8) octets.old }
{
    put(octets, place, &value.to_be_bytes());
}
