//! Blocks of sixteen octets, hidden and unhidden in place.

ghost use Rattle.std.specs.Prelude.{◌≡◌, ◌≤◌, ◌*◌, ◌%◌, ◌+◌, ◌/◌, ◌++◌, IsTrue, length, take, drop};
ghost use Rattle.md5.specs.Md5.{md5};
ghost use Rattle.password_hiding.specs.Hiding.{Hides, xor_each, is_hidden_length, plain_blocks};

use md5::{Digest, Md5};

/// The octets of a block.
pub const BLOCK: usize = 16;

/// The block at a place.
fn block_at(octets: &[u8], place: usize) -> [u8; BLOCK]
    requires { place + 16 ≤ length octets.now }
    ensures { result ≡ take 16 (drop place octets.now) }
{
    let mut block = [0; BLOCK];
    block.copy_from_slice(&octets[place..place + BLOCK]);
    block
}

/// Changes a block by xor with the MD5 of the secret and the octets before it.
fn mask_block(secret: &[u8], before: &[u8; BLOCK], block: &mut [u8])
    requires { length block.old ≡ 16 }
    ensures { block.new ≡ xor_each block.old (md5 (secret.now ++ before.now)) }
{
    let mut hasher = Md5::new();
    hasher.update(secret);
    hasher.update(before);
    let mask = hasher.finalize();
    for (i, y) in mask.iter().enumerate() {
        block[i] ^= y;
    }
}

/// The same for the block at a place.
fn mask_at(secret: &[u8], before: &[u8; BLOCK], octets: &mut [u8], place: usize)
    requires { place + 16 ≤ length octets.old }
    ensures { octets.new ≡ take place octets.old ++ xor_each (take 16 (drop place octets.old))
        (md5 (secret.now ++ before.now)) ++ drop (place + 16) octets.old }
{
    mask_block(secret, before, &mut octets[place..place + BLOCK]);
}

/// Hides octets in place.
pub fn hide_blocks(secret: &[u8], authenticator: &[u8; BLOCK], octets: &mut [u8])
    requires { IsTrue (is_hidden_length (length octets.old)) }
    ensures { Hides secret.now authenticator.now octets.old octets.new }
{
    let mut before = *authenticator;
    for i in 0..octets.len() / BLOCK {
        let place = i * BLOCK;
        mask_at(secret, &before, octets, place);
        before = block_at(octets, place);
    }
}

/// Unhides octets in place.
pub fn unhide_blocks(secret: &[u8], authenticator: &[u8; BLOCK], octets: &mut [u8])
    requires { IsTrue (is_hidden_length (length octets.old)) }
    ensures hides { Hides secret.now authenticator.now octets.new octets.old }
    ensures plain { octets.new
        ≡ plain_blocks secret.now authenticator.now octets.old (length octets.old / 16) }
{
    let mut before = *authenticator;
    for i in 0..octets.len() / BLOCK {
        let place = i * BLOCK;
        let hidden = block_at(octets, place);
        mask_at(secret, &before, octets, place);
        before = hidden;
    }
}
