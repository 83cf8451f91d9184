//! The proof that a query may bring of who asks: a byte string of 52 bytes, public key and X, under the key `sk` of its
//! arguments, which is this project's own. A reader that doesn't know the key passes it over. Nothing here judges a proof.
ghost use Rattle.std.specs.Prelude.{◌≡◌, option_copied, Some};
ghost use Rattle.kad_bencode.specs.Written.{PutsPairs};
ghost use Rattle.kad_krpc.specs.Asking.{proof_from, proof_of, proof_pair};

use kad_base::Proof;
use kad_bencode::{Piece, put_part};
use kad_records::read_proof;

/// The proof that a string of 52 bytes is.
fn proof(string: Option<&[u8]>) -> Option<Proof>
    ensures { result ≡ proof_from (option_copied string.entry) }
{
    let bytes = string?;
    if bytes.len() != 52 {
        return None;
    }
    Some(read_proof(bytes, 0))
}

/// The proof that the arguments of a query bring of who asks; an `sk` that is no string of 52 bytes counts as missing. Takes
/// no memory.
pub fn proof_in(arguments: &Option<Piece>) -> Option<Proof>
    ensures { result ≡ proof_of arguments.now }
{
    match arguments {
        None => None,
        Some(arguments) => match arguments.get(b"sk") {
            None => None,
            Some(value) => proof(value.as_bytes()),
        },
    }
}

/// Puts a proof with its key.
#[inline(always)]
fn put_sk(buf: &mut [u8], at: usize, proof: &Proof) -> usize
    ensures { PutsPairs buf.old buf.new at (proof_pair (Some proof.now)) result }
{
    let at = put_part(buf, at, b"2:sk52:");
    let at = put_part(buf, at, &proof.key);
    put_part(buf, at, &proof.x)
}

/// Puts the proof of who asks with its key, if it is brought.
#[inline(always)]
pub(crate) fn put_proof(buf: &mut [u8], at: usize, proof: &Option<Proof>) -> usize
    ensures { PutsPairs buf.old buf.new at (proof_pair proof.now) result }
{
    match proof {
        Some(proof) => put_sk(buf, at, proof),
        None => at,
    }
}
