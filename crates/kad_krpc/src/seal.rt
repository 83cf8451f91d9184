//! Tags of messages. A tag stands at the top of a datagram, as a byte string under the key `sg`, which is this project's
//! own; the key's place among the others is that of BEP 3. What is tagged is the written form of the datagram without that
//! pair. Nothing here makes or judges a tag.
ghost use Rattle.std.specs.Prelude.{◌≡◌, ◌<◌, ◌≤◌, ◌↔◌, ℕ, List, length, take, IfOk, IfSome, IsNone, MatchOption};
ghost use Rattle.kad_bencode.specs.Written.{Puts};
ghost use Rattle.kad_bencode.specs.declared.entries.Pair.{Pair};
ghost use Rattle.kad_bencode.specs.declared.value.Value.{Value};
ghost use Rattle.kad_krpc.specs.declared.message.Message.{Message};
ghost use Rattle.kad_krpc.specs.Form.{HasForms, form, message_pairs};
ghost use Rattle.kad_krpc.specs.WellTyped.{IsWell};
ghost use Rattle.kad_krpc.specs.Seal.{BearsTag, IsBodyOf, IsTagged, IsUntagged, LacksTag, tagged};

use crate::fields::put_text;
use kad_base::{Bytes, List, NoMemory};
use kad_bencode::{Piece, place_for, put_part};
use std::alloc::Global;

/// Most replies have at most this many bytes, so that no more are copied for their tag.
const SHORT: usize = 512;

/// A tagged datagram, taken apart.
#[derive(Debug, Drop)]
pub struct SealParts {
    /// What is tagged.
    pub body: Bytes,
    /// The tag, of any length.
    pub tag: Bytes,
}

/// The tag of a value that is a dictionary and has one.
fn tag_of<'a>(top: &Piece<'a>) -> Option<&'a [u8]>
    ensures { MatchOption result (LacksTag top.now) (λ tag. BearsTag top.now tag.now) }
{
    match top.get(b"sg") {
        Some(value) => match value.as_bytes() {
            Some(tag) => Some(tag),
            None => None,
        },
        None => None,
    }
}

/// Takes a value that was read where it stands apart: `None` if it is no dictionary, or has no `sg`, or that is no byte
/// string. Its keys may be in any order, so its body is put in order. The memory taken is in proportion to its text.
pub fn parts_of(alloc: Global, top: &Piece<'_>) -> Result<Option<SealParts>, NoMemory>
    ensures { IfOk result (λ o. MatchOption o (LacksTag top.now)
        (λ parts. BearsTag top.now parts.tag × IsBodyOf top.now parts.body)) }
{
    match tag_of(top) {
        Some(tag) => {
            let body = top.written_without(alloc, b"sg")?;
            let tag = Bytes::from_slice(alloc, tag)?;
            Ok(Some(SealParts { body, tag }))
        }
        None => Ok(None),
    }
}

/// Puts the text of a dictionary with the pair of a tag.
fn put_tagged(buf: &mut [u8], bytes: &[u8], tag: &[u8]) -> usize
    ensures { (pairs : List (Pair Value)) → IsUntagged bytes.now pairs
        → Puts buf.old buf.new 0 (tagged pairs tag.now) result }
{
    let place = place_for(bytes, b"sg");
    let at = put_part(buf, 0, &bytes[..place]);
    let at = put_text(buf, at, b"sg", tag);
    put_part(buf, at, &bytes[place..])
}

/// The written form with the pair of a tag, in memory of its own.
pub fn with_tag(alloc: Global, bytes: &[u8], tag: &[u8]) -> Result<Bytes, NoMemory>
    requires { (pairs : List (Pair Value)) × IsUntagged bytes.now pairs }
    ensures { IfOk result (λ text. (pairs : List (Pair Value)) → IsUntagged bytes.now pairs
        → text ≡ tagged pairs tag.now) }
{
    let mut nowhere = [0u8; 0];
    let length = put_tagged(&mut nowhere, bytes, tag);
    let mut text = vec![in alloc; 0u8; length]?;
    let _end = put_tagged(text.as_mut_slice(), bytes, tag);
    Ok(List::from_vec(text))
}

/// Puts the pair of a tag into the written form that the first `len` bytes of `buf` are, and answers its new length;
/// `None` if it is longer than `buf`, whose bytes are then any. Takes no memory.
pub fn tag_into(buf: &mut [u8; 4096], len: usize, tag: &[u8]) -> Option<usize>
    requires within { len ≤ 4096 }
    requires written { (pairs : List (Pair Value)) × IsUntagged (take len buf.old) pairs }
    ensures none { (pairs : List (Pair Value)) → IsUntagged (take len buf.old) pairs
        → (IsNone result ↔ 4096 < length (tagged pairs tag.now)) }
    ensures within { IfSome result (λ n. n ≤ 4096) }
    ensures length { IfSome result (λ n. (pairs : List (Pair Value))
        → IsUntagged (take len buf.old) pairs → n ≡ length (tagged pairs tag.now)) }
    ensures text { IfSome result (λ n. (pairs : List (Pair Value))
        → IsUntagged (take len buf.old) pairs → take n buf.new ≡ tagged pairs tag.now) }
{
    let end = if len <= SHORT {
        let mut untagged = [0u8; SHORT];
        untagged[..len].copy_from_slice(&buf[..len]);
        put_tagged(buf, &untagged[..len], tag)
    } else {
        let untagged = *buf;
        put_tagged(buf, &untagged[..len], tag)
    };
    if end > 4096 {
        return None;
    }
    Some(end)
}

/// The written form of a message has no tag. The call does nothing.
pub fn form_is_untagged()
    ensures { (m : Message) → IsWell m → HasForms m → IsUntagged (form m) (message_pairs m) }
{}

/// What was tagged is taken apart again, into itself and its tag. The call does nothing.
pub fn tag_comes_off()
    ensures { (bytes tag : List ℕ) (pairs : List (Pair Value)) → IsUntagged bytes pairs
        → IsTagged (tagged pairs tag) bytes tag }
{}
