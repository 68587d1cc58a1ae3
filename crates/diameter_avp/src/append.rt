//! Appending to octets that have room.

ghost use Rattle.std.specs.Prelude.{◌≡◌, ◌+◌, ◌<◌, ◌≤◌, ◌^◌, ◌++◌, length, take, drop, replicate, vec_len, vec_capacity};
ghost use Rattle.wire_core.specs.Numbers.{u24, u32};
ghost use Rattle.diameter_avp.specs.Avps.{avp_length, avp_text, vendor_text};
ghost use Rattle.diameter_avp.specs.View.{avp_view};

use crate::avp::Avp;
use crate::reading::padded;
use wire_core::put_u24;

/// Appends octets for which there is room.
fn append(octets: &mut Vec<u8>, piece: &[u8])
    requires { vec_len octets.old + length piece.now ≤ vec_capacity octets.old }
    ensures items { octets.new.items ≡ octets.old.items ++ piece.now }
    ensures len { vec_len octets.new ≡ vec_len octets.old + length piece.now }
    ensures capacity { vec_capacity octets.old ≤ vec_capacity octets.new }
{
    octets.extend_from_slice(piece).unwrap();
}

fn append_u32(octets: &mut Vec<u8>, value: u32)
    requires { vec_len octets.old + 4 ≤ vec_capacity octets.old }
    ensures items { octets.new.items ≡ octets.old.items ++ u32 value }
    ensures len { vec_len octets.new ≡ vec_len octets.old + 4 }
    ensures capacity { vec_capacity octets.old ≤ vec_capacity octets.new }
{
    append(octets, &value.to_be_bytes());
}

fn append_u24(octets: &mut Vec<u8>, value: u32)
    requires room { vec_len octets.old + 3 ≤ vec_capacity octets.old }
    requires small { value < 2 ^ 24 }
    ensures items { octets.new.items ≡ octets.old.items ++ u24 value }
    ensures len { vec_len octets.new ≡ vec_len octets.old + 3 }
    ensures capacity { vec_capacity octets.old ≤ vec_capacity octets.new }
{
    append(octets, &value.to_be_bytes()[1..]);
}

fn append_vendor(octets: &mut Vec<u8>, vendor: Option<u32>)
    requires { vec_len octets.old + length (vendor_text vendor) ≤ vec_capacity octets.old }
    ensures items { octets.new.items ≡ octets.old.items ++ vendor_text vendor }
    ensures len { vec_len octets.new ≡ vec_len octets.old + length (vendor_text vendor) }
    ensures capacity { vec_capacity octets.old ≤ vec_capacity octets.new }
{
    if let Some(vendor) = vendor {
        append_u32(octets, vendor);
    }
}

fn append_zeros(octets: &mut Vec<u8>, count: usize)
    requires room { vec_len octets.old + count ≤ vec_capacity octets.old }
    requires few { count ≤ 3 }
    ensures { octets.new.items ≡ octets.old.items ++ replicate count 0 }
{
    append(octets, &[0; 3][..count]);
}

/// Appends an AVP, whose length field is given, with zeros as padding.
#[tactic(auto, using(crate::proofs::WriterLemmas::avp_room))]
pub(crate) fn append_avp(octets: &mut Vec<u8>, avp: &Avp<'_>, counted: u32)
    requires room { vec_len octets.old + length (avp_text (avp_view avp.now))
        ≤ vec_capacity octets.old }
    requires counted { counted ≡ avp_length (avp_view avp.now) }
    requires small { counted < 2 ^ 24 }
    ensures { octets.new.items ≡ octets.old.items ++ avp_text (avp_view avp.now) }
{
    append_u32(octets, avp.code);
    append(octets, &[avp.flags]);
    append_u24(octets, counted);
    append_vendor(octets, avp.vendor);
    append(octets, avp.body);
    let length = counted as usize;
    append_zeros(octets, padded(length) - length);
}

/// Writes the number, which is below 2^24, over the three octets at `place`.
pub(crate) fn overwrite_u24(octets: &mut Vec<u8>, place: usize, value: u32)
    requires inside { place + 3 ≤ vec_len octets.old }
    requires small { value < 2 ^ 24 }
    ensures { octets.new.items
        ≡ take place octets.old.items ++ u24 value ++ drop (place + 3) octets.old.items }
{
    put_u24(octets.as_mut_slice(), place, value);
}
