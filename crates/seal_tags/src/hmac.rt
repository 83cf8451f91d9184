//! HMAC (RFC 2104) with SHA-1 (FIPS 180-4).
ghost use Rattle.std.specs.Prelude.{◌≡◌, ◌≤◌, ◌++◌, length};
ghost use Rattle.kad_base.specs.Puzzles.{hash};
ghost use Rattle.seal_tags.specs.Hmac.{hmac, key_block, filled, mixed};

use sha1::Sha1;

/// The length of a block of SHA-1, in bytes.
const BLOCK: usize = 64;

/// The byte that is repeated in the inner pad.
const INNER_PAD: u8 = 0x36;

/// The byte that is repeated in the outer pad.
const OUTER_PAD: u8 = 0x5c;

/// HMAC-SHA-1 of the text under the key (RFC 2104). Any length of a key is good; one of more than 64 bytes is hashed
/// first. Takes no memory. Costs one SHA-1 over the text and 64 bytes, and one over 84 bytes: of these, a block each is
/// hashed again for each text under one key, since the kit's `Sha1` can't be copied.
pub fn hmac_sha1(key: &[u8], text: &[u8]) -> [u8; 20]
    ensures { result ≡ hmac key.now text.now }
{
    hmac_of_two(key, &[], text)
}

/// HMAC-SHA-1 of a text that comes in two parts.
#[tactic(auto, unfolding(crate::specs::Hmac::hmac))]
pub(crate) fn hmac_of_two(key: &[u8], first: &[u8], second: &[u8]) -> [u8; 20]
    ensures { result ≡ hmac key.now (first.now ++ second.now) }
{
    let block = key_block(key);
    let inner = digest(&mixed(&block, INNER_PAD), first, second);
    digest(&mixed(&block, OUTER_PAD), &[], &inner)
}

/// The key as a block: a longer one is first hashed.
#[tactic(auto, unfolding(kad_base::specs::Puzzles::hash))]
fn key_block(key: &[u8]) -> [u8; 64]
    ensures { result ≡ key_block key.now }
{
    if key.len() > BLOCK {
        return filled(&Sha1::digest(key));
    }
    filled(key)
}

/// The key with zeros after it.
fn filled(key: &[u8]) -> [u8; 64]
    requires { length key.now ≤ 64 }
    ensures { result ≡ filled key.now }
{
    let mut block = [0; 64];
    block[..key.len()].copy_from_slice(key);
    block
}

/// Each byte of the block XOR the byte.
fn mixed(block: &[u8; 64], pad: u8) -> [u8; 64]
    ensures { result ≡ mixed block.now pad }
{
    let mut bytes = *block;
    for i in 0..BLOCK {
        bytes[i] ^= pad;
    }
    bytes
}

/// SHA-1 of the block and the two parts after it.
#[tactic(auto, unfolding(kad_base::specs::Puzzles::hash))]
fn digest(block: &[u8; 64], first: &[u8], second: &[u8]) -> [u8; 20]
    ensures { result ≡ hash (block.now ++ (first.now ++ second.now)) }
{
    let mut hasher = Sha1::new();
    hasher.update(block);
    hasher.update(first);
    hasher.update(second);
    hasher.finalize()
}
