//! Searches for items over a scripted link, and items that are stored: which value is printed, and who is given the item. The
//! bytes of the answers and of the puts were written from BEP 44 by a script of their own, and so were the SHA-1s.
use crate::node::TWO_LINES;
use crate::node::trial::Outside::From;
use crate::node::trial::Wanted::{Anything, Sends};
use crate::node::trial::{SILENT, Trial, all_play, plays};
use run_kit::shows;
use std::alloc::Global;
use std::random::RandomSource;
use std::sync::Wait;
use std::test::Fail;
use std::thread::Threads;
use trial_kit::{LINE_1, link_from};

/// A search for the item `5:hello` by the node of ones, on one path.
const GET: &[&str] = &[
    "get",
    "--key",
    "e28910ea0adb94dd45ced75fbff3e135c01bc437",
    "--own",
    "ffffffffffffffffffffffffffffffffffffffff",
    "--paths",
    "1",
];

/// The same on eight paths.
const GET_BY_8: &[&str] = &[
    "get",
    "--key",
    "e28910ea0adb94dd45ced75fbff3e135c01bc437",
    "--own",
    "ffffffffffffffffffffffffffffffffffffffff",
    "--paths",
    "8",
];

/// The item `5:hello` is stored by the node of ones, on one path.
const STORE: &[&str] = &[
    "put",
    "--value",
    "353a68656c6c6f",
    "--own",
    "ffffffffffffffffffffffffffffffffffffffff",
    "--paths",
    "1",
];

/// The same on eight paths.
const STORE_BY_8: &[&str] = &[
    "put",
    "--value",
    "353a68656c6c6f",
    "--own",
    "ffffffffffffffffffffffffffffffffffffffff",
    "--paths",
    "8",
];

/// Contact 1 answers the first query with the item of the key.
const HELLO: &[u8] =
    b"d1:rd2:id20:\0\0\0\0\0\0\0\0\0\0\0\0\0\0\0\0\0\0\0\x011:v5:helloe1:t4:\xa0\x8d\xed\x1a1:y1:re";

/// Contact 1 answers it with an item of another key.
const JELLO: &[u8] =
    b"d1:rd2:id20:\0\0\0\0\0\0\0\0\0\0\0\0\0\0\0\0\0\0\0\x011:v5:jelloe1:t4:\xa0\x8d\xed\x1a1:y1:re";

/// Contact 2, which is nearer to the key, answers the first query with an item of another key.
const JELLO_OF_2: &[u8] =
    b"d1:rd2:id20:\0\0\0\0\0\0\0\0\0\0\0\0\0\0\0\0\0\0\0\x021:v5:jelloe1:t4:\xa0\x8d\xed\x1a1:y1:re";

/// Contact 1 answers the second with the item of the key.
const SECOND_HELLO: &[u8] =
    b"d1:rd2:id20:\0\0\0\0\0\0\0\0\0\0\0\0\0\0\0\0\0\0\0\x011:v5:helloe1:t4:\xa86\xef\xcc1:y1:re";

/// Contact 1 answers the first query with a token and no item.
const NO_ITEM: &[u8] =
    b"d1:rd2:id20:\0\0\0\0\0\0\0\0\0\0\0\0\0\0\0\0\0\0\0\x015:token8:aoeusnthe1:t4:\xa0\x8d\xed\x1a1:y1:re";

/// Contact 2 answers the first query with another token.
const TOKEN_OF_2: &[u8] =
    b"d1:rd2:id20:\0\0\0\0\0\0\0\0\0\0\0\0\0\0\0\0\0\0\0\x025:token3:abce1:t4:\xa0\x8d\xed\x1a1:y1:re";

/// Contact 1 answers the second with its own.
const SECOND_TOKEN: &[u8] =
    b"d1:rd2:id20:\0\0\0\0\0\0\0\0\0\0\0\0\0\0\0\0\0\0\0\x015:token8:aoeusnthe1:t4:\xa86\xef\xcc1:y1:re";

/// Contact 1 answers the first query in the name of identifier 7, with a token and the item.
const POSING: &[u8] =
    b"d1:rd2:id20:\0\0\0\0\0\0\0\0\0\0\0\0\0\0\0\0\0\0\0\x075:token8:aoeusnth1:v5:helloe1:t4:\xa0\x8d\xed\x1a1:y1:re";

/// The query to contact 1, under the sixth word of the generator of 32 zero bytes.
const QUERY: &[u8] =
    b"d1:ad2:id20:\xff\xff\xff\xff\xff\xff\xff\xff\xff\xff\xff\xff\xff\xff\xff\xff\xff\xff\xff\xff6:target20:\xe2\x89\x10\xea\x0a\xdb\x94\xddE\xce\xd7_\xbf\xf3\xe15\xc0\x1b\xc47e1:q3:get2:roi1e1:t4:\xa0\x8d\xed\x1a1:y1:qe";

/// The item for contact 1, under the seventh word.
const PUT: &[u8] =
    b"d1:ad2:id20:\xff\xff\xff\xff\xff\xff\xff\xff\xff\xff\xff\xff\xff\xff\xff\xff\xff\xff\xff\xff5:token8:aoeusnth1:v5:helloe1:q3:put2:roi1e1:t4:\xa86\xef\xcc1:y1:qe";

/// The item for contact 2 where two queries came before, under the eighth word.
const THIRD: &[u8] =
    b"d1:ad2:id20:\xff\xff\xff\xff\xff\xff\xff\xff\xff\xff\xff\xff\xff\xff\xff\xff\xff\xff\xff\xff5:token3:abc1:v5:helloe1:q3:put2:roi1e1:t4:\x8bw\x0d\xc71:y1:qe";

/// The item for contact 1 after that one, under the ninth word.
const FOURTH: &[u8] =
    b"d1:ad2:id20:\xff\xff\xff\xff\xff\xff\xff\xff\xff\xff\xff\xff\xff\xff\xff\xff\xff\xff\xff\xff5:token8:aoeusnth1:v5:helloe1:q3:put2:roi1e1:t4:\xdaAY|1:y1:qe";

/// Contact 1 gives the item.
const GETTING: Trial<'static> = Trial {
    words: GET,
    input: LINE_1,
    outside: &[From(10, 6001, HELLO)],
    text: "value 353a68656c6c6f\nfound 1 asked 1 failed 0 turned 0\n",
    ..SILENT
};

#[test]
fn an_item_is_printed(rt: HostRuntime) -> Result<(), Fail> {
    const TRIAL: &Trial<'static> = &Trial {
        told: Sends(1, &[(0, 6001, QUERY)]),
        ..GETTING
    };
    plays(&rt, TRIAL)
}

#[test]
fn an_item_of_another_key_is_none(rt: HostRuntime) -> Result<(), Fail> {
    const TRIAL: &Trial<'static> = &Trial {
        outside: &[From(10, 6001, JELLO)],
        text: "none\nfound 1 asked 1 failed 0 turned 0\n",
        ..GETTING
    };
    plays(&rt, TRIAL)
}

#[test]
fn an_answer_without_an_item_gives_none(rt: HostRuntime) -> Result<(), Fail> {
    const TRIAL: &Trial<'static> = &Trial {
        outside: &[From(10, 6001, NO_ITEM)],
        text: "none\nfound 1 asked 1 failed 0 turned 0\n",
        ..GETTING
    };
    plays(&rt, TRIAL)
}

#[test]
fn an_item_in_another_name_is_none(rt: HostRuntime) -> Result<(), Fail> {
    const TRIAL: &Trial<'static> = &Trial {
        outside: &[From(10, 6001, POSING)],
        text: "none\nfound 0 asked 1 failed 1 turned 0\n",
        ..GETTING
    };
    plays(&rt, TRIAL)
}

#[test]
fn the_first_item_of_the_key_is_printed(rt: HostRuntime) -> Result<(), Fail> {
    const TRIAL: &Trial<'static> = &Trial {
        input: TWO_LINES,
        outside: &[From(10, 6002, JELLO_OF_2), From(20, 6001, SECOND_HELLO)],
        text: "value 353a68656c6c6f\nfound 2 asked 2 failed 0 turned 0\n",
        ..GETTING
    };
    plays(&rt, TRIAL)
}

#[test]
fn an_item_is_printed_by_eight_paths(rt: HostRuntime) -> Result<(), Fail> {
    const TRIAL: &Trial<'static> = &Trial {
        words: GET_BY_8,
        ..GETTING
    };
    plays(&rt, TRIAL)
}

#[test]
fn a_search_begins_with_a_contact(rt: HostRuntime) -> Result<(), Fail> {
    const TRIAL: &Trial<'static> = &Trial {
        input: "",
        status: 8,
        text: "no seeds\n",
        ..GETTING
    };
    plays(&rt, TRIAL)
}

/// The written form of a string of so many letters x.
fn letters(alloc: Global, count: usize) -> Result<Vec<u8>, Fail> {
    let mut form = Vec::new(alloc);
    form.extend_from_slice(format!(in alloc; "{count}:")?.as_bytes())?;
    for _ in 0..count {
        form.push(b'x')?;
    }
    Ok(form)
}

/// The answer of contact 1 to the first query, with this item.
fn giving(alloc: Global, item: &[u8]) -> Result<Vec<u8>, Fail> {
    let mut answer = Vec::new(alloc);
    answer.extend_from_slice(HEAD)?;
    answer.extend_from_slice(item)?;
    answer.extend_from_slice(b"e1:t4:\xa0\x8d\xed\x1a1:y1:re")?;
    Ok(answer)
}

/// What stands in front of the item in it.
const HEAD: &[u8] = b"d1:rd2:id20:\0\0\0\0\0\0\0\0\0\0\0\0\0\0\0\0\0\0\0\x011:v";

/// Bytes in hex.
fn digits(alloc: Global, bytes: &[u8]) -> Result<String, Fail> {
    Ok(hex::encode(alloc, bytes)?)
}

/// Contact 1 gives this item, and the search for the key ends well with this text.
fn gives<R: AllocGlobal + RandomSource + Threads + Wait + Sync>(
    rt: &R,
    words: &[&str],
    item: &[u8],
    text: &str,
) -> Result<(), Fail> {
    let answer = giving(rt.alloc(), item)?;
    let link = link_from(rt.alloc(), &[(6001, answer.as_slice())], &[], &[])?;
    shows(rt, words, LINE_1, link, 0, text)
}

/// 1,000 bytes may be an item, and one more may not.
#[test]
fn an_item_of_a_thousand_bytes_is_printed(rt: HostRuntime) -> Result<(), Fail> {
    let alloc = rt.alloc();
    let item = letters(alloc, 996)?;
    let value = digits(alloc, item.as_slice())?;
    let text = format!(in alloc; "value {value}\nfound 1 asked 1 failed 0 turned 0\n")?;
    let words = ["get", "--key", "360592535a3b3aa674dd44d3359b19f5fdaba9e8"];
    gives(&rt, &words, item.as_slice(), text.as_str())
}

#[test]
fn an_item_of_one_byte_more_is_none(rt: HostRuntime) -> Result<(), Fail> {
    let item = letters(rt.alloc(), 997)?;
    let text = "none\nfound 1 asked 1 failed 0 turned 0\n";
    let words = ["get", "--key", "eff2364d7b42dfeda631e871fd8434f3adce5466"];
    gives(&rt, &words, item.as_slice(), text)
}

/// Contact 1 has a token, and is given the item.
const STORING: Trial<'static> = Trial {
    words: STORE,
    input: LINE_1,
    outside: &[From(10, 6001, NO_ITEM)],
    text: "key e28910ea0adb94dd45ced75fbff3e135c01bc437\nfound 1 asked 1 failed 0 turned 0 stored 1\n",
    told: Sends(2, &[(0, 6001, QUERY), (1, 6001, PUT)]),
    ..SILENT
};

#[test]
fn an_item_is_put_with_the_token(rt: HostRuntime) -> Result<(), Fail> {
    const TRIAL: &Trial<'static> = &STORING;
    plays(&rt, TRIAL)
}

#[test]
fn each_contact_is_given_the_item_with_its_own_token(rt: HostRuntime) -> Result<(), Fail> {
    const TRIAL: &Trial<'static> = &Trial {
        input: TWO_LINES,
        outside: &[From(10, 6002, TOKEN_OF_2), From(20, 6001, SECOND_TOKEN)],
        text: "key e28910ea0adb94dd45ced75fbff3e135c01bc437\nfound 2 asked 2 failed 0 turned 0 stored 2\n",
        told: Sends(4, &[(2, 6002, THIRD), (3, 6001, FOURTH)]),
        ..STORING
    };
    plays(&rt, TRIAL)
}

#[test]
fn a_contact_without_a_token_is_given_no_item(rt: HostRuntime) -> Result<(), Fail> {
    const TRIAL: &Trial<'static> = &Trial {
        outside: &[From(10, 6001, HELLO)],
        text: "key e28910ea0adb94dd45ced75fbff3e135c01bc437\nfound 1 asked 1 failed 0 turned 0 stored 0\n",
        told: Sends(1, &[]),
        ..STORING
    };
    plays(&rt, TRIAL)
}

#[test]
fn a_refused_put_is_not_counted(rt: HostRuntime) -> Result<(), Fail> {
    const TRIAL: &Trial<'static> = &Trial {
        refused: &[1],
        text: "key e28910ea0adb94dd45ced75fbff3e135c01bc437\nfound 1 asked 1 failed 0 turned 0 stored 0\n",
        told: Sends(1, &[]),
        ..STORING
    };
    plays(&rt, TRIAL)
}

#[test]
fn an_item_is_put_by_eight_paths(rt: HostRuntime) -> Result<(), Fail> {
    const TRIAL: &Trial<'static> = &Trial {
        words: STORE_BY_8,
        told: Sends(2, &[(1, 6001, PUT)]),
        ..STORING
    };
    plays(&rt, TRIAL)
}

/// A value that is no item.
const BAD_VALUE: Trial<'static> = Trial {
    words: &["put", "--value", "353a"],
    status: 12,
    text: "bad value\n",
    told: Anything,
    ..STORING
};

#[test]
fn a_value_that_is_cut_short_is_refused(rt: HostRuntime) -> Result<(), Fail> {
    const TRIAL: &Trial<'static> = &BAD_VALUE;
    plays(&rt, TRIAL)
}

#[test]
fn a_value_with_its_keys_out_of_order_is_refused(rt: HostRuntime) -> Result<(), Fail> {
    const TRIAL: &Trial<'static> = &Trial {
        words: &["put", "--value", "64313a62693165313a6169316565"],
        ..BAD_VALUE
    };
    plays(&rt, TRIAL)
}

#[test]
fn fifteen_lists_one_in_another_are_refused(rt: HostRuntime) -> Result<(), Fail> {
    const TRIAL: &Trial<'static> = &Trial {
        words: &[
            "put",
            "--value",
            "6c6c6c6c6c6c6c6c6c6c6c6c6c6c6c656565656565656565656565656565",
        ],
        ..BAD_VALUE
    };
    plays(&rt, TRIAL)
}

/// Values that may be items, with their keys: an empty string, the least number, an empty list, an empty dictionary, one with
/// its keys in order, and fourteen lists one in another.
const GOOD: &[Trial<'static>] = &[
    Trial {
        words: &["put", "--value", "303a"],
        text: "key b44b82a4bc6c35f6ad5e9fceefef9509c17fba74\nfound 1 asked 1 failed 0 turned 0 stored 1\n",
        told: Anything,
        ..STORING
    },
    Trial {
        words: &[
            "put",
            "--value",
            "692d3932323333373230333638353437373538303865",
        ],
        text: "key 4fefecd95fddad9f505c6bd3d42bc7367c3d5c5c\nfound 1 asked 1 failed 0 turned 0 stored 1\n",
        told: Anything,
        ..STORING
    },
    Trial {
        words: &["put", "--value", "6c65"],
        text: "key 593b743b207e10ff55ec63e71a46c07909d0880a\nfound 1 asked 1 failed 0 turned 0 stored 1\n",
        told: Anything,
        ..STORING
    },
    Trial {
        words: &["put", "--value", "6465"],
        text: "key 600ccd1b71569232d01d110bc63e906beab04d8c\nfound 1 asked 1 failed 0 turned 0 stored 1\n",
        told: Anything,
        ..STORING
    },
    Trial {
        words: &["put", "--value", "64313a61693165313a6269316565"],
        text: "key 49edaaac4dae9b6fd1f52eb7d0992a7842ac64c7\nfound 1 asked 1 failed 0 turned 0 stored 1\n",
        told: Anything,
        ..STORING
    },
    Trial {
        words: &[
            "put",
            "--value",
            "6c6c6c6c6c6c6c6c6c6c6c6c6c6c6565656565656565656565656565",
        ],
        text: "key ff3e14905ea624667a952da2e1838ff4e04e7752\nfound 1 asked 1 failed 0 turned 0 stored 1\n",
        told: Anything,
        ..STORING
    },
];

#[test]
fn values_that_are_items_are_stored(rt: HostRuntime) -> Result<(), Fail> {
    all_play(&rt, GOOD)
}

/// The command to put a value of so many letters ends so.
fn puts<R: AllocGlobal + RandomSource + Threads + Wait + Sync>(
    rt: &R,
    count: usize,
    status: u8,
    text: &str,
) -> Result<(), Fail> {
    let item = letters(rt.alloc(), count)?;
    let value = digits(rt.alloc(), item.as_slice())?;
    let link = link_from(rt.alloc(), &[(6001, NO_ITEM)], &[], &[])?;
    let words = ["put", "--value", value.as_str()];
    shows(rt, &words, LINE_1, link, status, text)
}

/// So are 1,000 bytes; one more are refused.
#[test]
fn a_value_of_a_thousand_bytes_is_stored(rt: HostRuntime) -> Result<(), Fail> {
    let text =
        "key 360592535a3b3aa674dd44d3359b19f5fdaba9e8\nfound 1 asked 1 failed 0 turned 0 stored 1\n";
    puts(&rt, 996, 0, text)
}

#[test]
fn a_value_of_one_byte_more_is_refused(rt: HostRuntime) -> Result<(), Fail> {
    puts(&rt, 997, 12, "bad value\n")
}
