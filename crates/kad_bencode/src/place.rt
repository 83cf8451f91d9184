//! Where the pair of a key goes in a written dictionary. No call takes memory.
ghost use Rattle.std.specs.Prelude.{◌≤◌, List, length};
ghost use Rattle.kad_bencode.specs.Finding.{ArePairs};
ghost use Rattle.kad_bencode.specs.Placing.{IsParted, IsPlaceFor};
ghost use Rattle.kad_bencode.specs.declared.entries.Pair.{Pair};
ghost use Rattle.kad_bencode.specs.declared.value.Value.{Value};

use crate::filed::is_above;
use crate::find::first_pair;

/// How long the texts are of the first pair that isn't below the key and of all behind it.
pub(crate) fn length_behind(pairs: &[u8], key: &[u8]) -> usize
    ensures within { result ≤ length pairs.now }
    ensures parts { (ps : List (Pair Value)) → ArePairs pairs.now ps
        → IsParted ps key.now result }
{
    let mut rest = pairs;
    while rest.len() > 0 {
        match first_pair(rest) {
            Some((name, _, others)) => {
                if !is_above(key, name) {
                    return rest.len();
                }
                rest = others;
            }
            None => return rest.len(),
        }
    }
    0
}

/// Where the pair of a key goes in the written form of a dictionary that hasn't the key: in front of the first pair with a
/// greater key, or of the last byte. Of other bytes it is any place.
pub fn place_for(bytes: &[u8], key: &[u8]) -> usize
    ensures within { result ≤ length bytes.now }
    ensures place { IsPlaceFor bytes.now key.now result }
{
    if bytes.len() < 2 {
        return bytes.len();
    }
    bytes.len() - 1 - length_behind(&bytes[1..bytes.len() - 1], key)
}
