//! Identifiers and digests as unsigned numbers of 160 bits, the highest bit first.
ghost use Rattle.std.specs.Prelude.{◌≡◌, ◌+◌, ◌<◌, ◌≤◌};
ghost use Rattle.kad_base.specs.Bits.{xor_bytes, BeginsWithZeros};

/// a XOR b, byte by byte: the metric of Kademlia (2002, section 2.1). Takes no memory.
pub fn xor(a: &[u8; 20], b: &[u8; 20]) -> [u8; 20]
    ensures { result ≡ xor_bytes a.now b.now }
{
    let mut bytes = [0u8; 20];
    for i in 0..20 {
        bytes[i] = a[i] ^ b[i];
    }
    bytes
}

/// How many zero bits the bytes begin with, the highest bit of the first byte first: 0 to 160. Takes no memory.
pub fn leading_zeros(bytes: &[u8; 20]) -> u8
    ensures within { result ≤ 160 }
    ensures zeros { BeginsWithZeros result bytes.now }
    ensures no_more { result < 160 → BeginsWithZeros (result + 1) bytes.now → ⊥ }
{
    let mut bits = 0;
    for byte in bytes {
        if *byte != 0 {
            return bits + byte.leading_zeros() as u8;
        }
        bits += 8;
    }
    bits
}
