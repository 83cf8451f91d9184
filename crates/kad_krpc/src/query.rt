//! The queries of a lookup, written without memory.
ghost use Rattle.std.specs.Prelude.{◌≡◌, ◌+◌, ◌≤◌, ◌++◌, [], cond, codes, is_some, length, take, Option};
ghost use Rattle.kad_base.specs.Words.{word_bytes};
ghost use Rattle.kad_base.specs.declared.types.Proof.{Proof};
ghost use Rattle.kad_bencode.specs.Spelling.{string_text};
ghost use Rattle.kad_krpc.specs.Form.{form, arguments_of, name_of, two_ids, only, proof_pair, proof_text, want_pair, find_node_query, get_peers_query, get_query};
ghost use Rattle.kad_krpc.specs.declared.message.Ask.{Ask};
ghost use Rattle.kad_krpc.specs.declared.message.Message.TheVariants as Message;

use crate::sender::put_proof;
use kad_base::{Id, Proof, put_bytes};
use kad_records::law_proof;

/// Puts a name of fewer than ten bytes as a string: its length, a colon, and the name.
#[inline(always)]
fn put_name(buf: &mut [u8; 192], at: usize, name: &[u8]) -> usize
    requires short { length name.now ≤ 9 }
    requires room { at ≤ 181 }
    ensures place { result ≡ at + length (string_text name.now) }
    ensures length { length (string_text name.now) ≡ 2 + length name.now }
    ensures text { take result buf.new ≡ take at buf.old ++ string_text name.now }
{
    let at = put_bytes(buf, at, &[b'0' + name.len() as u8, b':']);
    put_bytes(buf, at, name)
}

/// Puts the proof of who asks with its key, if it is brought.
#[inline(always)]
fn put_sender(buf: &mut [u8; 192], at: usize, proof: &Option<Proof>) -> usize
    requires room { at + cond (is_some proof.now) 59 0 ≤ 192 }
    ensures place { result ≡ at + cond (is_some proof.now) 59 0 }
    ensures text { take result buf.new ≡ take at buf.old ++ proof_text proof.now }
{
    law_proof(proof);
    put_proof(buf, at, proof)
}

/// Writes the text of a query of two identifiers in front of `buf`, with what comes after these and after the method. The
/// proof of who asks stands before the second key or behind it.
#[inline(always)]
fn text_into(
    buf: &mut [u8; 192],
    own: &Id,
    front: &Option<Proof>,
    key: &[u8],
    sought: &Id,
    back: &Option<Proof>,
    behind: &[u8],
    method: &[u8],
    ro: &[u8],
    tx: u32,
) -> usize
    requires one { cond (is_some front.now) 59 0 + cond (is_some back.now) 59 0 ≤ 59 }
    requires key { length key.now ≤ 9 }
    requires behind { length behind.now ≤ 12 }
    requires method { length method.now ≤ 9 }
    requires ro { length ro.now ≤ 7 }
    ensures own { length own.now.0 ≡ 20 }
    ensures sought { length sought.now.0 ≡ 20 }
    ensures length { result ≡ 79 + cond (is_some front.now) 59 0 + length key.now
        + cond (is_some back.now) 59 0 + length behind.now + length method.now + length ro.now }
    ensures text { take result buf.new ≡ codes "d1:ad2:id20:" ++ own.now.0 ++ proof_text front.now
        ++ string_text key.now ++ codes "20:" ++ sought.now.0 ++ proof_text back.now ++ behind.now
        ++ codes "e1:q" ++ string_text method.now ++ ro.now ++ codes "1:t4:" ++ word_bytes tx
        ++ codes "1:y1:qe" }
{
    let at = put_bytes(buf, 0, b"d1:ad2:id20:");
    let at = put_bytes(buf, at, &own.0);
    let at = put_sender(buf, at, front);
    let at = put_name(buf, at, key);
    let at = put_bytes(buf, at, b"20:");
    let at = put_bytes(buf, at, &sought.0);
    let at = put_sender(buf, at, back);
    let at = put_bytes(buf, at, behind);
    let at = put_bytes(buf, at, b"e1:q");
    let at = put_name(buf, at, method);
    let at = put_bytes(buf, at, ro);
    let at = put_bytes(buf, at, b"1:t4:");
    let at = put_bytes(buf, at, &tx.to_le_bytes());
    put_bytes(buf, at, b"1:y1:qe")
}

/// Writes the text of a query of two identifiers in front of `buf`, which says where it is read-only (BEP 43).
#[inline(always)]
fn said_into(
    buf: &mut [u8; 192],
    own: &Id,
    front: &Option<Proof>,
    key: &[u8],
    sought: &Id,
    back: &Option<Proof>,
    behind: &[u8],
    method: &[u8],
    read_only: bool,
    tx: u32,
) -> usize
    requires one { cond (is_some front.now) 59 0 + cond (is_some back.now) 59 0 ≤ 59 }
    requires key { length key.now ≤ 9 }
    requires behind { length behind.now ≤ 12 }
    requires method { length method.now ≤ 9 }
    ensures own { length own.now.0 ≡ 20 }
    ensures sought { length sought.now.0 ≡ 20 }
    ensures length { result ≡ 79 + cond (is_some front.now) 59 0 + length key.now
        + cond (is_some back.now) 59 0 + length behind.now + length method.now + cond read_only 7 0 }
    ensures text { take result buf.new ≡ codes "d1:ad2:id20:" ++ own.now.0 ++ proof_text front.now
        ++ string_text key.now ++ codes "20:" ++ sought.now.0 ++ proof_text back.now ++ behind.now
        ++ codes "e1:q" ++ string_text method.now ++ cond read_only (codes "2:roi1e") []
        ++ codes "1:t4:" ++ word_bytes tx ++ codes "1:y1:qe" }
{
    if read_only {
        return text_into(
            buf, own, front, key, sought, back, behind, method, b"2:roi1e", tx,
        );
    }
    text_into(buf, own, front, key, sought, back, behind, method, b"", tx)
}

/// Writes a query (BEP 5) whose arguments are two identifiers, the second under `key`, with the proof of who asks before it
/// or behind it, and where the contacts of IPv6 are wanted the word that says so (BEP 32), in front of `buf`; it says where
/// it is read-only (BEP 43). The calls are inlined, since the names are known there.
#[inline(always)]
fn query_into(
    buf: &mut [u8; 192],
    own: &Id,
    front: &Option<Proof>,
    key: &[u8],
    sought: &Id,
    back: &Option<Proof>,
    six: bool,
    method: &[u8],
    read_only: bool,
    tx: u32,
) -> usize
    requires one { cond (is_some front.now) 59 0 + cond (is_some back.now) 59 0 ≤ 59 }
    requires key { length key.now ≤ 9 }
    requires method { length method.now ≤ 9 }
    ensures length { result ≡ 79 + cond (is_some front.now) 59 0 + length key.now
        + cond (is_some back.now) 59 0 + cond six 12 0 + length method.now + cond read_only 7 0 }
    ensures form { (proof : Option Proof) (ask : Ask) → arguments_of proof ask ≡ two_ids own.now
        (proof_pair front.now) key.now sought.now (proof_pair back.now ++ want_pair (only six))
        → name_of ask ≡ method.now
        → take result buf.new ≡ form (Message.Query (word_bytes tx) read_only proof ask) }
{
    if six {
        return said_into(
            buf,
            own,
            front,
            key,
            sought,
            back,
            b"4:wantl2:n6e",
            method,
            read_only,
            tx,
        );
    }
    said_into(
        buf, own, front, key, sought, back, b"", method, read_only, tx,
    )
}

/// Writes the `find_node` query (BEP 5) in front of `buf`, and answers its length: 94 bytes, 7 more if it is read-only
/// (BEP 43), 12 more if it asks for contacts of IPv6 by `want` (BEP 32), and 59 more if it brings the proof of who asks. The
/// transaction id is the four bytes of `tx`, the lowest first.
pub fn find_node_into(
    buf: &mut [u8; 192],
    own: &Id,
    target: &Id,
    six: bool,
    read_only: bool,
    proof: &Option<Proof>,
    tx: u32,
) -> usize
    ensures length { result ≡ 94 + cond six 12 0 + cond read_only 7 0 + cond (is_some proof.now) 59 0 }
    ensures form { take result buf.new
        ≡ form (find_node_query own.now target.now six read_only proof.now tx) }
{
    query_into(
        buf,
        own,
        proof,
        b"target",
        target,
        &None,
        six,
        b"find_node",
        read_only,
        tx,
    )
}

/// Writes the `get_peers` query (BEP 5) in front of `buf`, and answers its length: 97 bytes, 7 more if it is read-only
/// (BEP 43), 12 more if it asks for contacts of IPv6 by `want` (BEP 32), and 59 more if it brings the proof of who asks. The
/// transaction id is the four bytes of `tx`, the lowest first.
pub fn get_peers_into(
    buf: &mut [u8; 192],
    own: &Id,
    info_hash: &Id,
    six: bool,
    read_only: bool,
    proof: &Option<Proof>,
    tx: u32,
) -> usize
    ensures length { result ≡ 97 + cond six 12 0 + cond read_only 7 0 + cond (is_some proof.now) 59 0 }
    ensures form { take result buf.new
        ≡ form (get_peers_query own.now info_hash.now six read_only proof.now tx) }
{
    query_into(
        buf,
        own,
        &None,
        b"info_hash",
        info_hash,
        proof,
        six,
        b"get_peers",
        read_only,
        tx,
    )
}

/// Writes the `get` query (BEP 44) in front of `buf`, and answers its length: 88 bytes, 7 more if it is read-only
/// (BEP 43), 12 more if it asks for contacts of IPv6 by `want` (BEP 32), and 59 more if it brings the proof of who asks. The
/// transaction id is the four bytes of `tx`, the lowest first.
pub fn get_into(
    buf: &mut [u8; 192],
    own: &Id,
    target: &Id,
    six: bool,
    read_only: bool,
    proof: &Option<Proof>,
    tx: u32,
) -> usize
    ensures length { result ≡ 88 + cond six 12 0 + cond read_only 7 0 + cond (is_some proof.now) 59 0 }
    ensures form { take result buf.new ≡ form (get_query own.now target.now six read_only proof.now tx) }
{
    query_into(
        buf, own, proof, b"target", target, &None, six, b"get", read_only, tx,
    )
}
