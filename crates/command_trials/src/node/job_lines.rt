//! Which lines of a node's input name a job. The SHA-1s were computed apart.
use crate::node::jobs::{BAD_LINE, HELLO, PEERS};
use crate::node::nodes::NODE;
use crate::node::trial::Wanted::Sends;
use crate::node::trial::{Trial, all_play, plays};
use run_kit::shows;
use std::alloc::Global;
use std::random::RandomSource;
use std::sync::Wait;
use std::test::Fail;
use std::thread::Threads;
use trial_kit::{LINE_1, link_from};

/// A digit is missing, one is too many, there is none, the word is another, a blank comes after it or twice before it, and a
/// port that no line of peers has.
#[test]
fn what_only_looks_like_a_line_of_a_key_is_bad(rt: HostRuntime) -> Result<(), Fail> {
    const TRIALS: &[Trial<'static>] = &[
        Trial {
            input: "peers 000000000000000000000000000000000000000\n",
            ..BAD_LINE
        },
        Trial {
            input: "0000000000000000000000000000000000000001 127.0.0.1:6001\n#\npeers 00000000000000000000000000000000000000000\n",
            text: "bad line 3\n",
            ..BAD_LINE
        },
        Trial {
            input: "peers \n",
            ..BAD_LINE
        },
        Trial {
            input: "PEERS 0000000000000000000000000000000000000000\n",
            ..BAD_LINE
        },
        Trial {
            input: "peers 0000000000000000000000000000000000000000 \n",
            ..BAD_LINE
        },
        Trial {
            input: "peers  0000000000000000000000000000000000000000\n",
            ..BAD_LINE
        },
        Trial {
            input: "peers 0000000000000000000000000000000000000000 6882\n",
            ..BAD_LINE
        },
    ];
    all_play(&rt, TRIALS)
}

/// The same of an item's key; and a digit that is none, and an item in place of its key.
#[test]
fn what_only_looks_like_a_line_of_an_item_is_bad(rt: HostRuntime) -> Result<(), Fail> {
    const TRIALS: &[Trial<'static>] = &[
        Trial {
            input: "get 28910ea0adb94dd45ced75fbff3e135c01bc437\n",
            ..BAD_LINE
        },
        Trial {
            input: "get e28910ea0adb94dd45ced75fbff3e135c01bc4370\n",
            ..BAD_LINE
        },
        Trial {
            input: "get\n",
            ..BAD_LINE
        },
        Trial {
            input: "get e28910ea0adb94dd45ced75fbff3e135c01bc43g\n",
            ..BAD_LINE
        },
        Trial {
            input: "get 353a68656c6c6f\n",
            ..BAD_LINE
        },
    ];
    all_play(&rt, TRIALS)
}

/// No port, none behind the blank, one that is too large, and one that no 32 bits hold.
#[test]
fn an_announcement_without_a_port_is_a_bad_line(rt: HostRuntime) -> Result<(), Fail> {
    const TRIALS: &[Trial<'static>] = &[
        Trial {
            input: "announce 0000000000000000000000000000000000000000\n",
            ..BAD_LINE
        },
        Trial {
            input: "announce 0000000000000000000000000000000000000000 \n",
            ..BAD_LINE
        },
        Trial {
            input: "announce 0000000000000000000000000000000000000000 65536\n",
            ..BAD_LINE
        },
        Trial {
            input: "announce 0000000000000000000000000000000000000000 4294967297\n",
            ..BAD_LINE
        },
        Trial {
            input: "announce 6882\n",
            ..BAD_LINE
        },
    ];
    all_play(&rt, TRIALS)
}

/// A zero in front, a sign, a blank on either side, another word behind it, and a key that is too short.
#[test]
fn a_port_has_one_spelling(rt: HostRuntime) -> Result<(), Fail> {
    const TRIALS: &[Trial<'static>] = &[
        Trial {
            input: "announce 0000000000000000000000000000000000000000 06882\n",
            ..BAD_LINE
        },
        Trial {
            input: "announce 0000000000000000000000000000000000000000 +6882\n",
            ..BAD_LINE
        },
        Trial {
            input: "announce 0000000000000000000000000000000000000000  6882\n",
            ..BAD_LINE
        },
        Trial {
            input: "announce 0000000000000000000000000000000000000000 6882 \n",
            ..BAD_LINE
        },
        Trial {
            input: "announce 0000000000000000000000000000000000000000 6882 yes\n",
            ..BAD_LINE
        },
        Trial {
            input: "announce 000000000000000000000000000000000000000 6882\n",
            ..BAD_LINE
        },
    ];
    all_play(&rt, TRIALS)
}

/// No value, an odd number of digits, a digit that is none, a text that is no bencode, one that is cut short, and one with a
/// byte behind it.
#[test]
fn a_value_that_is_no_bencode_is_a_bad_line(rt: HostRuntime) -> Result<(), Fail> {
    const TRIALS: &[Trial<'static>] = &[
        Trial {
            input: "put \n",
            ..BAD_LINE
        },
        Trial {
            input: "put 353a68656c6c6\n",
            ..BAD_LINE
        },
        Trial {
            input: "put 353a68656c6c6g\n",
            ..BAD_LINE
        },
        Trial {
            input: "put 68656c6c6f\n",
            ..BAD_LINE
        },
        Trial {
            input: "put 353a68656c6c\n",
            ..BAD_LINE
        },
        Trial {
            input: "put 353a68656c6c6f78\n",
            ..BAD_LINE
        },
    ];
    all_play(&rt, TRIALS)
}

/// Keys out of order, a key twice, a zero in front of a number and of a length, and fifteen lists one in another.
#[test]
fn a_value_in_another_form_is_a_bad_line(rt: HostRuntime) -> Result<(), Fail> {
    const TRIALS: &[Trial<'static>] = &[
        Trial {
            input: "put 64313a62693165313a6169316565\n",
            ..BAD_LINE
        },
        Trial {
            input: "put 64313a61693165313a6169316565\n",
            ..BAD_LINE
        },
        Trial {
            input: "put 69303165\n",
            ..BAD_LINE
        },
        Trial {
            input: "put 30353a68656c6c6f\n",
            ..BAD_LINE
        },
        Trial {
            input: "put 6c6c6c6c6c6c6c6c6c6c6c6c6c6c6c656565656565656565656565656565\n",
            ..BAD_LINE
        },
    ];
    all_play(&rt, TRIALS)
}

/// The line of an item of so many letters x.
fn put_line(alloc: Global, count: usize) -> Result<String, Fail> {
    let mut item = Vec::new(alloc);
    item.extend_from_slice(format!(in alloc; "{count}:")?.as_bytes())?;
    for _ in 0..count {
        item.push(b'x')?;
    }
    let digits = hex::encode(alloc, item.as_slice())?;
    Ok(format!(in alloc; "{LINE_1}put {digits}\n")?)
}

/// A node that is to put an item of so many letters ends so.
fn puts<R: AllocGlobal + RandomSource + Threads + Wait + Sync>(
    rt: &R,
    count: usize,
    status: u8,
    text: &str,
) -> Result<(), Fail> {
    let input = put_line(rt.alloc(), count)?;
    let link = link_from(rt.alloc(), &[(6001, HELLO)], &[], &[])?;
    shows(rt, NODE, input.as_str(), link, status, text)
}

/// An item has 1,000 bytes at most.
#[test]
fn a_line_of_an_item_of_a_thousand_bytes(rt: HostRuntime) -> Result<(), Fail> {
    let text =
        "put 360592535a3b3aa674dd44d3359b19f5fdaba9e8\nkey 360592535a3b3aa674dd44d3359b19f5fdaba9e8\nfound 1 asked 1 failed 0 turned 0 stored 1\nreceived 1 replied 0\n";
    puts(&rt, 996, 0, text)
}

#[test]
fn a_line_of_an_item_of_one_byte_more_is_bad(rt: HostRuntime) -> Result<(), Fail> {
    puts(&rt, 997, 3, "bad line 2\n")
}

/// Digits of either case, the greatest port, carriage returns, and lines in any order; the digits are printed in lower case.
#[test]
fn lines_of_jobs_in_other_spellings(rt: HostRuntime) -> Result<(), Fail> {
    const TRIAL: &Trial<'static> = &Trial {
        input: "announce ABCDEFabcdef000000000000000000000000000F 65535\r\nput 353A68656C6C6F\r\n\r\n# whom\r\n0000000000000000000000000000000000000001 127.0.0.1:6001\r\nget E28910EA0ADB94DD45CED75FBFF3E135C01BC437\r\npeers ABCDEFabcdef000000000000000000000000000F",
        outside: &[],
        text: "\
announce abcdefabcdef000000000000000000000000000f 65535\n\
peers 0 found 0 asked 1 failed 1 turned 0 announced 0\n\
put e28910ea0adb94dd45ced75fbff3e135c01bc437\n\
key e28910ea0adb94dd45ced75fbff3e135c01bc437\n\
found 0 asked 1 failed 1 turned 0 stored 0\n\
get e28910ea0adb94dd45ced75fbff3e135c01bc437\n\
none\n\
found 0 asked 1 failed 1 turned 0\n\
peers abcdefabcdef000000000000000000000000000f\n\
peers 0 found 0 asked 1 failed 1 turned 0 announced 0\n\
received 0 replied 0\n",
        told: Sends(4, &[]),
        ..PEERS
    };
    plays(&rt, TRIAL)
}
