//! Two hundred lookups in drawn networks. What each has to print is computed beside it, as plainly as it can be said: the
//! nodes are numbered by their distance from the target, and one after the other is asked, the nearest first.
ghost use Rattle.std.specs.Prelude.{◌<◌, All, IfOk};
ghost use Rattle.std.specs.List.{AllByRecursion};
ghost use Rattle.kad_krpc.specs.Form.{Each, IsNode};
ghost use Rattle.fake_net.specs.Scripts.{IsWritableEvent};

use fake_net::{Script, ScriptEvent, ScriptLink};
use kad_base::{Addr, Bytes, Contact, Contacts, Id, List, Numbers};
use kad_krpc::{Answer, Message};
use run_kit::shows;
use std::alloc::Global;
use std::random::RandomSource;
use std::sync::Wait;
use std::test::Fail;
use std::thread::Threads;
use trial_kit::local;

/// Targets, and their first eight bytes. The other twelve are zeros, those of the nodes too.
const TARGETS: [(&str, u64); 3] = [
    ("0000000000000000000000000000000000000000", 0),
    (
        "8000000000000000000000000000000000000000",
        0x8000_0000_0000_0000,
    ),
    (
        "0123456789abcdef000000000000000000000000",
        0x0123_4567_89ab_cdef,
    ),
];

const ONES: &str = "ffffffffffffffffffffffffffffffffffffffff";

const NUMBERS: [&str; 21] = [
    "0", "1", "2", "3", "4", "5", "6", "7", "8", "9", "10", "11", "12", "13", "14", "15", "16",
    "17", "18", "19", "20",
];

fn numeral(n: usize) -> &'static str {
    match NUMBERS.get(n) {
        Some(numeral) => numeral,
        None => "20",
    }
}

/// How many nodes a wide network has.
const WIDE: usize = 300;

/// What a node does with the query that it gets.
#[derive(Clone, Copy, PartialEq, Eq)]
enum Conduct {
    Silent,
    /// Answers with an error message.
    Failing,
    Answering,
    /// Answers with a datagram of this many bytes.
    Padding(usize),
}

/// One lookup. A wide one asks one node after the other, on one path, and for its own identifier, so that it begins with
/// the k closest of its input, of however many lines; some sends are refused, and some answers come late. Another has no
/// more nodes than it looks for, so that whoever is named is asked, in whatever order the paths do it.
#[derive(Clone, Copy)]
struct Plan {
    seed: u64,
    is_wide: bool,
    nodes: usize,
    lines: usize,
    k: usize,
    paths: usize,
    alpha: usize,
}

/// A number that is drawn for a place under a seed (splitmix64: Steele, Lea and Flood, 2014).
fn drawn(seed: u64, place: u64) -> u64 {
    let x = seed
        .wrapping_mul(1_000_003)
        .wrapping_add(place)
        .wrapping_mul(0x9e37_79b9_7f4a_7c15);
    let y = (x ^ (x >> 30)).wrapping_mul(0xbf58_476d_1ce4_e5b9);
    let z = (y ^ (y >> 27)).wrapping_mul(0x94d0_49bb_1331_11eb);
    z ^ (z >> 31)
}

/// A drawn number from 1 to a bound.
fn from_one(seed: u64, place: u64, bound: u64) -> usize
    requires { 0 < bound }
{
    ((drawn(seed, place) % bound) as usize).saturating_add(1)
}

fn lines_of_wide(seed: u64) -> usize {
    match drawn(seed, 2) % 4 {
        0 => 1,
        1 => WIDE,
        _ => from_one(seed, 3, 300),
    }
}

fn drawn_plan(seed: u64) -> Plan {
    if seed % 2 == 0 {
        return Plan {
            seed,
            is_wide: true,
            nodes: WIDE,
            lines: lines_of_wide(seed),
            k: from_one(seed, 4, 16),
            paths: 1,
            alpha: 1,
        };
    }
    let nodes = from_one(seed, 5, 20);
    Plan {
        seed,
        is_wide: false,
        nodes,
        lines: from_one(seed, 6, 20).min(nodes),
        k: 20,
        paths: from_one(seed, 7, 8),
        alpha: from_one(seed, 8, 4),
    }
}

/// The query to the address is answered by an error message.
fn failing(alloc: Global, addr: Addr, at: u64) -> ScriptEvent
    ensures { IsWritableEvent result }
{
    ScriptEvent::ToQuery {
        to: addr,
        at,
        from: addr,
        message: Message::Fault {
            tx: List::new(alloc),
            code: 201,
            text: List::new(alloc),
        },
    }
}

/// The query to the contact is answered with these nodes and this token.
fn answering(
    alloc: Global,
    contact: &Contact,
    at: u64,
    nodes: Option<Contacts>,
    token: Option<Bytes>,
) -> ScriptEvent
    requires { Each IsNode nodes }
    ensures { IsWritableEvent result }
{
    ScriptEvent::ToQuery {
        to: contact.addr,
        at,
        from: contact.addr,
        message: Message::Answer {
            tx: List::new(alloc),
            answer: Answer {
                id: contact.id,
                nodes,
                snodes: None,
                nodes6: None,
                snodes6: None,
                token,
                v: None,
                values: None,
            },
        },
    }
}

impl Plan {
    fn drawn(&self, place: u64) -> u64 {
        drawn(self.seed, place)
    }

    fn target(&self) -> (&'static str, u64) {
        TARGETS[(self.drawn(9) % 3) as usize]
    }

    /// The first eight bytes of the node's identifier: the higher its number, the greater its distance.
    fn key(&self, node: usize) -> u64 {
        let rank = (node as u64).wrapping_add(1) % 512;
        let distance = (rank << 55) | (self.drawn(rank.wrapping_add(1000)) >> 9);
        self.target().1 ^ (distance >> (self.seed % 40))
    }

    fn contact(&self, node: usize) -> Contact
        ensures { IsNode result }
    {
        let mut id = [0; 20];
        id[..8].copy_from_slice(&self.key(node).to_be_bytes());
        Contact {
            id: Id(id),
            addr: local(7000 + (node % WIDE) as u16),
        }
    }

    fn conduct(&self, node: usize) -> Conduct {
        match self.drawn((node as u64).wrapping_add(2000)) % 12 {
            0 => Conduct::Silent,
            1 => Conduct::Failing,
            2 => Conduct::Padding(4095),
            3 => Conduct::Padding(4096),
            4 => Conduct::Padding(4097),
            _ => Conduct::Answering,
        }
    }

    /// The moment at which the node answers, if ever.
    fn moment(&self, node: usize) -> u64 {
        if self.conduct(node) == Conduct::Silent {
            return u64::MAX;
        }
        let drawn = self.drawn((node as u64).wrapping_add(3000));
        if self.is_wide {
            drawn % 9000
        } else {
            drawn % 2001
        }
    }

    /// How many records the node's answer has.
    fn records(&self, node: usize) -> u64 {
        self.drawn((node as u64).wrapping_add(4000)) % 18
    }

    /// The node that the record at this place of the node's answer names.
    fn named(&self, node: usize, at: u64) -> usize {
        let place = (node as u64).wrapping_mul(20).wrapping_add(at);
        let drawn = self.drawn(place.wrapping_add(10_000)) as usize;
        drawn % self.nodes.min(200).max(1)
    }

    /// The node that this line of the input names.
    fn on_line(&self, line: usize) -> usize {
        line.wrapping_mul(23) % self.nodes.max(1)
    }

    /// Whether the send of this number, from 0, is refused.
    fn is_refused(&self, send: u64) -> bool {
        self.is_wide && send < 40 && self.drawn(send.wrapping_add(5000)) % 8 == 0
    }

    fn line(&self, alloc: Global, node: usize) -> Result<String, Fail> {
        let key = self.key(node);
        let port = 7000 + node % WIDE;
        let line = format!(in alloc; "{key:016x}000000000000000000000000 127.0.0.1:{port}\n")?;
        Ok(line)
    }

    fn words(&self) -> [&'static str; 11] {
        let target = self.target().0;
        let own = if self.is_wide { target } else { ONES };
        [
            "lookup",
            "--target",
            target,
            "--own",
            own,
            "--paths",
            numeral(self.paths),
            "--alpha",
            numeral(self.alpha),
            "--k",
            numeral(self.k),
        ]
    }

    fn input(&self, alloc: Global) -> Result<String, Fail> {
        let mut input = String::new(alloc);
        for line in 0..self.lines {
            let line = self.line(alloc, self.on_line(line))?;
            input.push_str(line.as_str())?;
        }
        Ok(input)
    }

    fn refused(&self, alloc: Global) -> Result<Numbers, Fail> {
        let mut refused = List::new(alloc);
        for send in 0..40 {
            if self.is_refused(send) {
                refused.push(send)?;
            }
        }
        Ok(refused)
    }

    fn nodes_of(&self, alloc: Global, node: usize) -> Result<Contacts, Fail>
        ensures { IfOk result (AllByRecursion IsNode) }
    {
        let mut nodes = List::new(alloc);
        for at in 0..self.records(node) {
            nodes.push(self.contact(self.named(node, at)))?;
        }
        Ok(nodes)
    }

    /// A token that makes the node's answer as long as it is to be: without its bytes it has 69 bytes, the digits of the
    /// length of `nodes`, and 26 bytes a record.
    fn token(&self, alloc: Global, node: usize) -> Result<Option<Bytes>, Fail> {
        let Conduct::Padding(size) = self.conduct(node) else {
            return Ok(None);
        };
        let records = self.records(node) as usize;
        let digits = match records {
            0 => 1,
            1..=3 => 2,
            _ => 3,
        };
        let room = size
            .saturating_sub(69)
            .saturating_sub(digits)
            .saturating_sub(records.saturating_mul(26));
        Ok(Some(List::from_vec(vec![in alloc; b'x'; room]?)))
    }

    fn event(&self, alloc: Global, node: usize) -> Result<ScriptEvent, Fail>
        ensures { IfOk result IsWritableEvent }
    {
        let contact = self.contact(node);
        let at = self.moment(node);
        if self.conduct(node) == Conduct::Failing {
            return Ok(failing(alloc, contact.addr, at));
        }
        let nodes = self.nodes_of(alloc, node)?;
        let token = self.token(alloc, node)?;
        Ok(answering(alloc, &contact, at, Some(nodes), token))
    }

    fn script(&self, alloc: Global) -> Result<Script, Fail>
        ensures { IfOk result (All IsWritableEvent) }
    {
        let mut script = List::new(alloc);
        for node in 0..self.nodes {
            let event = self.event(alloc, node)?;
            script.push(event)?;
        }
        Ok(script)
    }

    fn link(&self, alloc: Global) -> Result<ScriptLink, Fail> {
        let script = self.script(alloc)?;
        let refused = self.refused(alloc)?;
        Ok(ScriptLink::new(alloc, 0, script, refused, List::new(alloc)))
    }
}

/// How the lookup stands to a node.
#[derive(Clone, Copy, PartialEq, Eq)]
enum Fate {
    Unknown,
    Known,
    Answered,
    Failed,
}

/// A lookup by one query after the other.
#[derive(Clone, Copy)]
struct Lookup {
    plan: Plan,
    fates: [Fate; WIDE],
    moment: u64,
    asked: u64,
    failed: u64,
}

/// The lookup begins with the k closest nodes of the input.
fn begun(plan: Plan) -> Lookup {
    let mut fates = [Fate::Unknown; WIDE];
    for line in 0..plan.lines {
        fates[plan.on_line(line) % WIDE] = Fate::Known;
    }
    let mut begun = 0usize;
    for node in 0..WIDE {
        if fates[node] == Fate::Known {
            begun = begun.saturating_add(1);
            if begun > plan.k {
                fates[node] = Fate::Unknown;
            }
        }
    }
    Lookup {
        plan,
        fates,
        moment: 0,
        asked: 0,
        failed: 0,
    }
}

impl Lookup {
    /// The closest node that was not asked, if fewer than k that answered are closer.
    fn next(&self) -> Option<usize> {
        let mut answered = 0usize;
        for (node, fate) in self.fates.iter().enumerate() {
            if *fate == Fate::Known && answered < self.plan.k {
                return Some(node);
            }
            if *fate == Fate::Answered {
                answered = answered.saturating_add(1);
            }
        }
        None
    }

    /// The moment at which an answer comes that the lookup can read.
    fn comes(&self, node: usize) -> u64 {
        match self.plan.conduct(node) {
            Conduct::Padding(4097) => u64::MAX,
            _ => self.plan.moment(node),
        }
    }

    /// Asks the node, which has 2000 milliseconds; whether it answers.
    fn is_answered(&mut self, node: usize) -> bool {
        let send = self.asked;
        self.asked = send.saturating_add(1);
        if self.plan.is_refused(send) {
            return false;
        }
        let deadline = self.moment.saturating_add(2000);
        let comes = self.comes(node);
        self.moment = self.moment.max(comes.min(deadline));
        comes <= deadline && self.plan.conduct(node) != Conduct::Failing
    }

    /// Knows whom the first 16 records name.
    fn learn(&mut self, node: usize) {
        for at in 0..self.plan.records(node).min(16) {
            let named = self.plan.named(node, at) % WIDE;
            if self.fates[named] == Fate::Unknown {
                self.fates[named] = Fate::Known;
            }
        }
    }

    fn ask(&mut self, node: usize) {
        if self.is_answered(node) {
            self.fates[node % WIDE] = Fate::Answered;
            self.learn(node);
        } else {
            self.fates[node % WIDE] = Fate::Failed;
            self.failed = self.failed.saturating_add(1);
        }
    }

    fn run(&mut self) {
        for _ in 0..WIDE {
            match self.next() {
                Some(node) => self.ask(node),
                None => return,
            }
        }
    }

    fn text(&self, alloc: Global) -> Result<String, Fail> {
        let mut text = String::new(alloc);
        let mut found = 0usize;
        for (node, fate) in self.fates.iter().enumerate() {
            if *fate == Fate::Answered && found < self.plan.k {
                found = found.saturating_add(1);
                let line = self.plan.line(alloc, node)?;
                text.push_str(line.as_str())?;
            }
        }
        let (asked, failed) = (self.asked, self.failed);
        let counts = format!(in alloc; "found {found} asked {asked} failed {failed} turned 0\n")?;
        text.push_str(counts.as_str())?;
        Ok(text)
    }
}

/// What the lookup has to print.
fn computed(alloc: Global, plan: Plan) -> Result<String, Fail> {
    let mut lookup = begun(plan);
    lookup.run();
    lookup.text(alloc)
}

fn shows_as_computed<R: AllocGlobal + RandomSource + Threads + Wait + Sync>(
    rt: &R,
    plan: Plan,
) -> Result<(), Fail> {
    let text = computed(rt.alloc(), plan)?;
    let input = plan.input(rt.alloc())?;
    let link = plan.link(rt.alloc())?;
    shows(rt, &plan.words(), input.as_str(), link, 0, text.as_str())
}

#[test]
fn drawn_lookups_show_what_a_plain_computation_gives(rt: HostRuntime) -> Result<(), Fail> {
    for seed in 0..200 {
        shows_as_computed(&rt, drawn_plan(seed))?;
    }
    Ok(())
}
