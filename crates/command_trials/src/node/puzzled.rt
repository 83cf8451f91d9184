//! Lookups that believe only contacts whose identifiers solve the puzzles. The identifiers, keys
//! and values were computed by a script of its own from the seeds of 32 bytes 00, 01 and 02, for
//! puzzles of 0 and 8 bits.
ghost use Rattle.std.specs.Prelude.{IfOk};
ghost use Rattle.kad_krpc.specs.Form.{Each, IsProved};

use kad_base::{Contact, Id, List, Proof, Report, Reports};
use run_kit::shows;
use std::alloc::Global;
use std::test::Fail;
use trial_kit::{PROVED_LINES, answer, link_from, link_over, local};

const WORDS: &[&str] = &[
    "lookup",
    "--target",
    "0000000000000000000000000000000000000000",
    "--own",
    "ffffffffffffffffffffffffffffffffffffffff",
    "--paths",
    "2",
    "--c2",
    "8",
];

const OUTPUT: &str =
    "a3f8d018d15eae79bd519fbef98c5e3cfb23369e 127.0.0.1:6002\nc27d85cec2a31b5c03e13af0dbac44b20e0a9112 127.0.0.1:6003\nf8b36afaa82efdb7239884a0296c9e209db1c4b0 127.0.0.1:6001\nfound 3 asked 3 failed 0 turned 0\n";

/// The node of the seed 00.
const FIRST: Id = Id([
    0xc2, 0x7d, 0x85, 0xce, 0xc2, 0xa3, 0x1b, 0x5c, 0x03, 0xe1, 0x3a, 0xf0, 0xdb, 0xac, 0x44, 0xb2,
    0x0e, 0x0a, 0x91, 0x12,
]);

const SECOND: Id = Id([
    0xf8, 0xb3, 0x6a, 0xfa, 0xa8, 0x2e, 0xfd, 0xb7, 0x23, 0x98, 0x84, 0xa0, 0x29, 0x6c, 0x9e, 0x20,
    0x9d, 0xb1, 0xc4, 0xb0,
]);

const THIRD: Id = Id([
    0xa3, 0xf8, 0xd0, 0x18, 0xd1, 0x5e, 0xae, 0x79, 0xbd, 0x51, 0x9f, 0xbe, 0xf9, 0x8c, 0x5e, 0x3c,
    0xfb, 0x23, 0x36, 0x9e,
]);

/// The key of the seed 00 begins with 76.
const FIRST_KEY: [u8; 32] = [
    0x76, 0xb8, 0xe0, 0xad, 0xa0, 0xf1, 0x3d, 0x90, 0x40, 0x5d, 0x6a, 0xe5, 0x53, 0x86, 0xbd, 0x28,
    0xbd, 0xd2, 0x19, 0xb8, 0xa0, 0x8d, 0xed, 0x1a, 0xa8, 0x36, 0xef, 0xcc, 0x8b, 0x77, 0x0d, 0xc7,
];

/// The first node, with this as the first byte of its key.
fn first_node(alloc: Global, begin: u8) -> Result<Option<Reports>, Fail>
    ensures { IfOk result (Each IsProved) }
{
    let mut key = FIRST_KEY;
    key[0] = begin;
    let mut x = [0; 20];
    x[19] = 0x24;
    let mut nodes = List::new(alloc);
    nodes.push(Report {
        contact: Contact {
            id: FIRST,
            addr: local(6003),
        },
        proof: Some(Proof { key, x }),
    })?;
    Ok(Some(nodes))
}

/// The third node, which begins path 0, names the first one with a wrong key, and later the second
/// one, which begins path 1, with its own.
#[test]
fn a_wrong_proof_is_rejected_and_a_later_right_one_taken(rt: HostRuntime) -> Result<(), Fail> {
    let alloc = rt.alloc();
    let wrong = first_node(alloc, 0x77)?;
    let right = first_node(alloc, 0x76)?;
    let mut script = List::new(alloc);
    script.push(answer(alloc, local(6002), 10, local(6002), THIRD, None, wrong))?;
    script.push(answer(alloc, local(6001), 20, local(6001), SECOND, None, right))?;
    script.push(answer(alloc, local(6003), 30, local(6003), FIRST, None, None))?;
    shows(
        &rt,
        WORDS,
        PROVED_LINES,
        link_over(alloc, script),
        0,
        OUTPUT,
    )
}

/// A search from the third node alone, on one path.
const ONE_PATH: &[&str] = &[
    "lookup",
    "--target",
    "0000000000000000000000000000000000000000",
    "--own",
    "ffffffffffffffffffffffffffffffffffffffff",
    "--paths",
    "1",
    "--c2",
    "8",
];

const THIRD_LINE: &str =
    "a3f8d018d15eae79bd519fbef98c5e3cfb23369e 127.0.0.1:6002 f6a12ca8ffc30a66ca140ccc7276336115819361186d3f535dd99f8eaaca8fce 00000000000000000000000000000000000000c5\n";

/// The third node was found, and the first one beside it.
const FOUND_THIRD: &str =
    "a3f8d018d15eae79bd519fbef98c5e3cfb23369e 127.0.0.1:6002\nfound 1 asked 1 failed 0 turned 0\n";

const FOUND_BOTH: &str =
    "a3f8d018d15eae79bd519fbef98c5e3cfb23369e 127.0.0.1:6002\nc27d85cec2a31b5c03e13af0dbac44b20e0a9112 127.0.0.1:6003\nfound 2 asked 2 failed 0 turned 0\n";

/// The answer of the third node to the first query up to the length of its proved nodes, and after
/// them.
const THIRD_HEAD: &[u8] =
    b"d1:rd2:id20:\xa3\xf8\xd0\x18\xd1\x5e\xae\x79\xbd\x51\x9f\xbe\xf9\x8c\x5e\x3c\xfb\x23\x36\x9e6:snodes";

const THIRD_END: &[u8] = b"e1:t4:\xa0\x8d\xed\x1a1:y1:re";

/// The answer of the first node to the second query.
const FIRST_ANSWER: &[u8] =
    b"d1:rd2:id20:\xc2\x7d\x85\xce\xc2\xa3\x1b\x5c\x03\xe1\x3a\xf0\xdb\xac\x44\xb2\x0e\x0a\x91\x12e1:t4:\xa8\x36\xef\xcc1:y1:re";

/// What comes after the key in the record of the first node: its value, its address and its port.
const FIRST_REST: [u8; 26] = [
    0, 0, 0, 0, 0, 0, 0, 0, 0, 0, 0, 0, 0, 0, 0, 0, 0, 0, 0, 0x24, 127, 0, 0, 1, 0x17, 0x73,
];

/// The third node's answer, in which the first node stands so often, with its own key at that place
/// alone.
fn proved_answer(alloc: Global, records: usize, right: usize) -> Result<Vec<u8>, Fail> {
    let mut answer = THIRD_HEAD.to_vec(alloc)?;
    let len = format!(in alloc; "{}:", records.saturating_mul(78))?;
    answer.extend_from_slice(len.as_bytes())?;
    for place in 0..records {
        answer.extend_from_slice(&FIRST.0)?;
        answer.push(if place == right { 0x76 } else { 0x77 })?;
        answer.extend_from_slice(&FIRST_KEY[1..])?;
        answer.extend_from_slice(&FIRST_REST)?;
    }
    answer.extend_from_slice(THIRD_END)?;
    Ok(answer)
}

/// The sixteenth record is read, and no later one, of as many as an answer holds.
#[test]
fn sixteen_proved_nodes_of_many_are_read(rt: HostRuntime) -> Result<(), Fail> {
    for records in [17, 18, 33, 51] {
        for (right, text) in [(15, FOUND_BOTH), (16, FOUND_THIRD)] {
            let answer = proved_answer(rt.alloc(), records, right)?;
            let datagrams = [(6002, answer.as_slice()), (6003, FIRST_ANSWER)];
            let link = link_from(rt.alloc(), &datagrams, &[], &[])?;
            shows(&rt, ONE_PATH, THIRD_LINE, link, 0, text)?;
        }
    }
    Ok(())
}
