//! A message that comes in pieces.

ghost use Rattle.std.specs.Prelude.{◌≡◌, ℕ, List, [], ◌++◌, map, bit_xor};
ghost use Rattle.hmac_md5.specs.Hmac.{key_block, hmac_of};
ghost use Rattle.hmac_md5.specs.Pieces.{HasTaken};
ghost use Rattle.md5.specs.Md5.{Holds};

use md5::{Digest, Md5};

const BLOCK: usize = 64;

/// A key as one block of the hash.
fn block_of(key: &[u8]) -> [u8; BLOCK]
    ensures { result ≡ key_block key.now }
{
    let mut block = [0; BLOCK];
    if key.len() <= BLOCK {
        block[..key.len()].copy_from_slice(key);
    } else {
        block[..16].copy_from_slice(&Md5::digest(key));
    }
    block
}

/// A block with each octet xor `pad`.
fn masked(block: &[u8; BLOCK], pad: u8) -> [u8; BLOCK]
    ensures { result ≡ map (λ x. bit_xor x pad) block.now }
{
    let mut masked = *block;
    for x in masked.iter_mut() {
        *x ^= pad;
    }
    masked
}

/// A hash that has taken the masked block.
fn padded(block: &[u8; BLOCK], pad: u8) -> Md5
    ensures { Holds result (map (λ x. bit_xor x pad) block.now) }
{
    let mut hasher = Md5::new();
    hasher.update(&masked(block, pad));
    hasher
}

/// An HMAC-MD5 whose message comes in pieces: `new`, an `update` for each piece, and `finish`.
#[derive(Drop)]
pub struct Hmac {
    inner: Md5,
    outer: Md5,
}

impl Hmac {
    /// Under a key of any length, and with no message yet.
    #[tactic(auto, unfolding(crate::specs::Pieces::HasTaken))]
    pub fn new(key: &[u8]) -> Hmac
        ensures { HasTaken result key.now [] }
    {
        let block = block_of(key);
        Hmac {
            inner: padded(&block, 0x36),
            outer: padded(&block, 0x5c),
        }
    }

    /// Puts a piece at the end of the message.
    #[tactic(auto, unfolding(crate::specs::Pieces::HasTaken))]
    pub fn update(&mut self, piece: &[u8])
        ensures { (key message : List ℕ) → HasTaken self.old key message
            → HasTaken self.new key (message ++ piece.now) }
    {
        self.inner.update(piece);
    }

    /// The HMAC-MD5 of the whole message (RFC 2104, section 2).
    #[tactic(auto, unfolding(crate::specs::Pieces::HasTaken, crate::specs::Hmac::hmac_of))]
    pub fn finish(self) -> [u8; 16]
        ensures { (key message : List ℕ) → HasTaken self key message
            → result ≡ hmac_of key message }
    {
        let Hmac { inner, mut outer } = self;
        outer.update(&inner.finalize());
        outer.finalize()
    }
}
