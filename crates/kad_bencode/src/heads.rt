//! Keys as numbers, which are compared and sorted in fewer steps than bytes.

/// How many bytes of a key its head has.
const IN_HEAD: usize = 15;

/// The first eight bytes as a number, the first of them the highest; fewer as if zeros came after them.
pub(crate) fn word_of(bytes: &[u8]) -> u64 {
    if bytes.len() >= 8 {
        return u64::from_be_bytes([
            bytes[0], bytes[1], bytes[2], bytes[3], bytes[4], bytes[5], bytes[6], bytes[7],
        ]);
    }
    let mut word = 0;
    for i in 0..bytes.len() {
        word |= (bytes[i] as u64) << (56 - 8 * i);
    }
    word
}

/// The first fifteen bytes of a key and its length as a number, the first byte the highest; a shorter key as if zeros came
/// after it, and a longer one as one of sixteen bytes. The highest bit is left out, so that a difference of two has a sign.
pub(crate) fn head_of(key: &[u8]) -> u128 {
    let first = word_of(key) as u128;
    let mut second = 0;
    if key.len() > 8 {
        second = word_of(&key[8..]);
    }
    ((first << 56 | (second >> 8) as u128) << 7) | key.len().min(IN_HEAD + 1) as u128
}
