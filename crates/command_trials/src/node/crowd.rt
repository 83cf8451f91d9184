//! A path that is full.
ghost use Rattle.std.specs.Prelude.{◌≤◌, All, IfOk, OnOk};
ghost use Rattle.std.specs.List.{AllByRecursion};
ghost use Rattle.kad_krpc.specs.Form.{Each, IsNode};
ghost use Rattle.fake_net.specs.Scripts.{IsWritableEvent};

use fake_net::Script;
use kad_base::{Addr, Contact, Contacts, Id, Ip, List};
use run_kit::shows;
use std::alloc::Global;
use std::test::Fail;
use trial_kit::{answer, contact, lines, link_over};

const WORDS: &[&str] = &[
    "lookup",
    "--target",
    "0000000000000000000000000000000000000000",
    "--own",
    "ffffffffffffffffffffffffffffffffffffffff",
    "--paths",
    "2",
    "--k",
    "20",
];

/// The last three lines: two far contacts, and the counts.
const REST: &str =
    "8000000000000000000000000000000000000000 127.0.0.2:7000\n8000000000000000000000000000000000000001 127.0.0.2:7001\nfound 20 asked 22 failed 0 turned 1\n";

/// The far contact j: 80, 17 zero bytes and j as two bytes, at 127.0.0.2 and port 7000 + j.
fn far(j: u8) -> Contact
    ensures { IsNode result }
{
    let mut id = [0; 20];
    id[0] = 0x80;
    id[19] = j;
    Contact {
        id: Id(id),
        addr: Addr {
            ip: Ip::V4([127, 0, 0, 2]),
            port: 7000 + j as u16,
        },
    }
}

/// The contacts 3 to 18.
fn near_ones(alloc: Global) -> Result<Contacts, Fail>
    ensures { IfOk result (AllByRecursion IsNode) }
{
    let mut nodes = List::new(alloc);
    for n in 3..=18 {
        nodes.push(contact(n))?;
    }
    Ok(nodes)
}

/// Sixteen far contacts, from this one on.
fn far_ones(alloc: Global, first: u8) -> Result<Contacts, Fail>
    requires { first ≤ 240 }
    ensures { IfOk result (AllByRecursion IsNode) }
{
    let mut nodes = List::new(alloc);
    for i in 0..16 {
        nodes.push(far(first + i))?;
    }
    Ok(nodes)
}

/// The contact answers at this moment with these nodes.
fn answers(
    alloc: Global,
    script: &mut Script,
    contact: &Contact,
    at: u64,
    nodes: Option<Contacts>,
) -> Result<(), Fail>
    requires script { All IsWritableEvent script.old }
    requires nodes { Each IsNode nodes }
    ensures { OnOk result (All IsWritableEvent script.new) }
{
    let addr = contact.addr;
    script.push(answer(alloc, addr, at, addr, contact.id, nodes, None))?;
    Ok(())
}

/// Contacts 3 to 17 name sixteen far ones each, in order.
fn near_answers(alloc: Global, script: &mut Script) -> Result<(), Fail>
    requires { All IsWritableEvent script.old }
    ensures { OnOk result (All IsWritableEvent script.new) }
{
    for n in 3..=17 {
        let nodes = far_ones(alloc, 16 * (n - 3))?;
        answers(alloc, script, &contact(n), 10, Some(nodes))?;
    }
    Ok(())
}

/// The first three far contacts name nobody.
fn far_answers(alloc: Global, script: &mut Script) -> Result<(), Fail>
    requires { All IsWritableEvent script.old }
    ensures { OnOk result (All IsWritableEvent script.new) }
{
    answers(alloc, script, &far(0), 10, None)?;
    answers(alloc, script, &far(1), 10, None)?;
    answers(alloc, script, &far(2), 10, None)
}

/// Contact 2 names the last far contact when path 0 is done.
fn late_answers(alloc: Global, script: &mut Script) -> Result<(), Fail>
    requires { All IsWritableEvent script.old }
    ensures { OnOk result (All IsWritableEvent script.new) }
{
    let mut nodes = List::new(alloc);
    nodes.push(far(239))?;
    answers(alloc, script, &contact(2), 1000, Some(nodes))?;
    answers(alloc, script, &far(239), 1000, None)
}

/// Path 0 learns 257 contacts and turns the last of them away; path 1 learns it later, and takes it.
#[test]
fn a_full_path_turns_a_contact_away_that_another_takes(rt: HostRuntime) -> Result<(), Fail> {
    let alloc = rt.alloc();
    let mut script = List::new(alloc);
    answers(alloc, &mut script, &contact(1), 10, Some(near_ones(alloc)?))?;
    near_answers(alloc, &mut script)?;
    answers(alloc, &mut script, &contact(18), 10, None)?;
    far_answers(alloc, &mut script)?;
    late_answers(alloc, &mut script)?;
    let input = lines(alloc, 1, 2)?;
    let mut text = lines(alloc, 1, 18)?;
    text.push_str(REST)?;
    let link = link_over(alloc, script);
    shows(&rt, WORDS, input.as_str(), link, 0, text.as_str())
}
